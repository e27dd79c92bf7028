// The bytes of one row, in four length classes: fewer than 8, and the three of `copy_wide`. Of fewer than 8 bytes 8 are read and written where so many may
// be: one load and one store, whatever the length is, with zeros after the row's bytes. Rows after it are written later, over the zeros.
ghost use Rattle.std.specs.Prelude.{◌≡◌, ◌≤◌, ◌<◌, length};
ghost use Rattle.bits.specs.Bytes.{overwrite};
ghost use Rattle.rows.specs.Front.{padded, front_bytes};

use bits::number::{low_bits, read_number, write_number};
use copies::slice::{copy_narrow, copy_wide};

// The first n bytes of src, fewer than 8, and zeros after them.
fn copy_masked(src: &[u8], n: usize, dst: &mut [u8])
    requires { (n < 8) × (8 ≤ length src.now) × (8 ≤ length dst.old) }
    ensures { dst.new ≡ overwrite (padded n src.now) dst.old }
{
    write_number::<8>(dst, 0, low_bits(read_number::<8>(src, 0), 8 * n));
}

// The first n bytes of src into the front of dst. All of src may be read, and all of dst be written.
#[tactic(auto, unfolding(crate::specs::Front::front_bytes))]
pub fn copy_front(src: &[u8], n: usize, dst: &mut [u8])
    requires { (n ≤ length src.now) × (n ≤ length dst.old) }
    ensures { dst.new ≡ overwrite (front_bytes n (length src.now) (length dst.old) src.now) dst.old }
{
    if n < 8 {
        if 8 <= src.len() && 8 <= dst.len() {
            copy_masked(src, n, dst);
            return;
        }
        copy_narrow(&src[..n], dst);
        return;
    }
    copy_wide(&src[..n], dst);
}
