// A slice, copied into the front of another. Where lengths are not known beforehand each class costs a wrong guess, so that there are three above 7 bytes.
ghost use Rattle.std.specs.Prelude.{◌≡◌, ◌≤◌, ◌<◌, length};
ghost use Rattle.bits.specs.Bytes.{overwrite};

use crate::piece::{copy_16, copy_64, copy_ends};

// Fewer than 8.
pub fn copy_narrow(src: &[u8], dst: &mut [u8])
    requires { (length src.now < 8) × (length src.now ≤ length dst.old) }
    ensures { dst.new ≡ overwrite src.now dst.old }
{
    let n = src.len();
    if 4 <= n {
        copy_ends::<4>(src, dst, 0, n);
        return;
    }
    if 2 <= n {
        copy_ends::<2>(src, dst, 0, n);
        return;
    }
    if n == 1 {
        copy_ends::<1>(src, dst, 0, n);
    }
}

// From 17 to 64: four of 16, which may overlap.
fn copy_middle(src: &[u8], dst: &mut [u8])
    requires { (16 < length src.now) × (length src.now ≤ 64) × (length src.now ≤ length dst.old) }
    ensures { dst.new ≡ overwrite src.now dst.old }
{
    let n = src.len();
    let last = n - 16;
    let second = last.min(16);
    copy_16(src, dst, 0);
    copy_16(src, dst, second);
    copy_16(src, dst, last - second);
    copy_16(src, dst, last);
}

// More than 64: 64 a turn, and a last turn that may overlap the one before it.
fn copy_long(src: &[u8], dst: &mut [u8])
    requires { (64 < length src.now) × (length src.now ≤ length dst.old) }
    ensures { dst.new ≡ overwrite src.now dst.old }
{
    let n = src.len();
    let last = n - 64;
    for i in 0..last.div_ceil(64) {
        copy_64(src, dst, i * 64);
    }
    copy_64(src, dst, last);
}

// 8 or more.
pub fn copy_wide(src: &[u8], dst: &mut [u8])
    requires { (8 ≤ length src.now) × (length src.now ≤ length dst.old) }
    ensures { dst.new ≡ overwrite src.now dst.old }
{
    let n = src.len();
    if n <= 16 {
        copy_ends::<8>(src, dst, 0, n);
        return;
    }
    if 64 < n {
        copy_long(src, dst);
        return;
    }
    copy_middle(src, dst);
}

// More than 16: 16 a turn, and a last turn that may overlap the one before it. With a `for` here, alone or in one function with copy_long, `copy`
// is not put in line: 40 rows of 12 bytes took 26 % more instructions on x86-64 and 37 % more on Cortex-M7.
fn copy_turns(src: &[u8], dst: &mut [u8])
    requires { (16 < length src.now) × (length src.now ≤ length dst.old) }
    ensures { dst.new ≡ overwrite src.now dst.old }
{
    let n = src.len();
    let last = n - 16;
    let mut k = 0;
    while k < last {
        copy_16(src, dst, k);
        k += 16;
    }
    copy_16(src, dst, last);
}

// Of any length. Rows of a fixed size are as long as the one before, so that turns are guessed, and fewer bytes are stored twice.
pub fn copy(src: &[u8], dst: &mut [u8])
    requires { length src.now ≤ length dst.old }
    ensures { dst.new ≡ overwrite src.now dst.old }
{
    let n = src.len();
    if 16 < n {
        copy_turns(src, dst);
        return;
    }
    if 8 <= n {
        copy_ends::<8>(src, dst, 0, n);
        return;
    }
    copy_narrow(src, dst);
}
