// The named blocks by index width and size: each width, and each common size, as a literal. With the width a number here, the compiler would keep it a
// variable of the loops (11.6 instructions a row of 4 bytes, in place of 6.1); W makes a function for each width. In `blocks` it is a number: with
// `take_valid::<W>` the eight rows of a byte would be in line before the size is known, and no size would have a loop of its own. There are two functions,
// with and without a validity, and so the arms stand twice. As a trait whose one method is the loop, with a type for each of the two, they stood once: it
// proved, in a fifth more lines, and without nulls 40 rows of 64 or 100 bytes took 1.5 to 1.7 % more instructions on x86-64 (61.1 a row in place of 60.1, 72.9
// in place of 71.8; all others as many).
// W, the count and the numbers stay apart, as n and the data do: one value of them would leave six parameters of eight, `Named` would relate it to the same
// others, and W is to be a literal to the loop, which a field in memory is not (blocks/src/valid.rt).
ghost use Rattle.std.specs.Prelude.{◌≡◌, []};
ghost use Rattle.bits.specs.Bytes.{overwrite};
ghost use Rattle.blocks.specs.Blocked.{Named, named_blocks};

use blocks::named::take_all;
use blocks::valid::{NullBuffer, take_valid};
use blocks::zeros::Zeros;

// All rows, by numbers of W bytes.
fn all_by<const W: usize>(
    data: &[u8],
    n: usize,
    count: usize,
    index_data: &[u8],
    out_data: &mut [u8],
)
    requires { Named n W count index_data.now [] «data».now out_data.old }
    ensures { out_data.new ≡ overwrite (named_blocks n W count index_data.now [] «data».now) out_data.old }
{
    match n {
        1 => take_all(data, 1, W, count, index_data, out_data),
        2 => take_all(data, 2, W, count, index_data, out_data),
        4 => take_all(data, 4, W, count, index_data, out_data),
        8 => take_all(data, 8, W, count, index_data, out_data),
        16 => take_all(data, 16, W, count, index_data, out_data),
        32 => take_all(data, 32, W, count, index_data, out_data),
        _ => take_all(data, n, W, count, index_data, out_data),
    }
}

// All rows, by numbers of any width.
pub fn all_by_width(
    data: &[u8],
    n: usize,
    w: u64,
    count: usize,
    index_data: &[u8],
    out_data: &mut [u8],
)
    requires { Named n w count index_data.now [] «data».now out_data.old }
    ensures { out_data.new ≡ overwrite (named_blocks n w count index_data.now [] «data».now) out_data.old }
{
    match w {
        2 => all_by::<2>(data, n, count, index_data, out_data),
        4 => all_by::<4>(data, n, count, index_data, out_data),
        8 => all_by::<8>(data, n, count, index_data, out_data),
        _ => all_by::<1>(data, n, count, index_data, out_data),
    }
}

// The valid rows, by numbers of W bytes, and zeros for the others.
fn valid_by<const W: usize>(
    data: &[u8],
    n: usize,
    count: usize,
    index_data: &[u8],
    valid: NullBuffer<'_>,
    zeros: Zeros<'_>,
    out_data: &mut [u8],
)
    requires { Named n W count index_data.now valid.bytes.now «data».now out_data.old }
    ensures { out_data.new ≡ overwrite (named_blocks n W count index_data.now valid.entry.bytes.now «data».now) out_data.old }
{
    match n {
        1 => take_valid(data, 1, W, count, index_data, valid, zeros, out_data),
        2 => take_valid(data, 2, W, count, index_data, valid, zeros, out_data),
        4 => take_valid(data, 4, W, count, index_data, valid, zeros, out_data),
        8 => take_valid(data, 8, W, count, index_data, valid, zeros, out_data),
        16 => take_valid(data, 16, W, count, index_data, valid, zeros, out_data),
        32 => take_valid(data, 32, W, count, index_data, valid, zeros, out_data),
        _ => take_valid(data, n, W, count, index_data, valid, zeros, out_data),
    }
}

// By numbers of any width. The zeros come from where these loops are not put in line: of an array in their own function the compiler knows what it is, and the
// choice of the source becomes a branch, or one for each 8 bytes of a row.
pub fn valid_by_width(
    data: &[u8],
    n: usize,
    w: u64,
    count: usize,
    index_data: &[u8],
    valid: NullBuffer<'_>,
    zeros: Zeros<'_>,
    out_data: &mut [u8],
)
    requires { Named n w count index_data.now valid.bytes.now «data».now out_data.old }
    ensures { out_data.new ≡ overwrite (named_blocks n w count index_data.now valid.entry.bytes.now «data».now) out_data.old }
{
    match w {
        2 => valid_by::<2>(data, n, count, index_data, valid, zeros, out_data),
        4 => valid_by::<4>(data, n, count, index_data, valid, zeros, out_data),
        8 => valid_by::<8>(data, n, count, index_data, valid, zeros, out_data),
        _ => valid_by::<1>(data, n, count, index_data, valid, zeros, out_data),
    }
}
