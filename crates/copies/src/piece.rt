// Pieces of a known length: their bytes are read and written again.
ghost use Rattle.std.specs.Prelude.{◌≡◌, ◌+◌, ◌≤◌, length};
ghost use Rattle.bits.specs.Bytes.{part};
ghost use Rattle.bits.specs.Routines.{overwrite_at};

use bits::number::{bytes_at, put_bytes};

// The n bytes at p, from W to 2 W of them: the W at their front and the W at their end, which may overlap. Both are read before either is written.
pub fn copy_ends<const W: usize>(src: &[u8], dst: &mut [u8], p: usize, n: usize)
    requires width { (W ≤ n) × (n ≤ W + W) }
    requires there { (p + n ≤ length src.now) × (p + n ≤ length dst.old) }
    ensures { dst.new ≡ overwrite_at p (part p n src.now) dst.old }
{
    let q = p + (n - W);
    let x: [u8; W] = bytes_at(src, p);
    let y: [u8; W] = bytes_at(src, q);
    put_bytes(dst, p, x);
    put_bytes(dst, q, y);
}

// The 16 bytes at p.
pub fn copy_16(src: &[u8], dst: &mut [u8], p: usize)
    requires { (p + 16 ≤ length src.now) × (p + 16 ≤ length dst.old) }
    ensures { dst.new ≡ overwrite_at p (part p 16 src.now) dst.old }
{
    copy_ends::<8>(src, dst, p, 16);
}

// The 64 bytes at p, 16 at a time.
pub fn copy_64(src: &[u8], dst: &mut [u8], p: usize)
    requires { (p + 64 ≤ length src.now) × (p + 64 ≤ length dst.old) }
    ensures { dst.new ≡ overwrite_at p (part p 64 src.now) dst.old }
{
    for k in 0..4 {
        copy_16(src, dst, p + 16 * k);
    }
}
