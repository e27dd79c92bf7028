// The validity of the taken rows, and how many of them are null: Rust's `take_nulls`. What the rows and the indices have of validity is tested
// once, outside all loops; null rows are counted by the ones in whole bytes.
ghost use Rattle.std.specs.Prelude.{◌≡◌, true, false, ◌&&◌, ◌^◌, ◌≤◌, ◌<◌, nat_lt, length};
ghost use Rattle.bits.specs.Bits.{bytes_for, pack_bytes, pack, is_absent};
ghost use Rattle.bits.specs.Bytes.{overwrite};
ghost use Rattle.bits.specs.Numbers.{to_little_endian};
ghost use Rattle.tables.specs.Columns.{index_column_of};
ghost use Rattle.gathers.specs.Ready.{InRange};
ghost use Rattle.nulls.specs.Nulls.{taken_validity, taken_nulls};

use bitmaps::bit::{BooleanBuffer, validity_of};
use bits::number::{low_bits, write_number, write_up_to};
use buffers::bit::count_set_bits;
use tables::column::IndexColumn;

// The word whose lowest bits are ones, as many as are left. A test, and not a shift by `64 - left.min(64)`: so 2,048 rows take 363 instructions on x86-64
// in place of 489.
fn ones(left: usize) -> u64
    requires { 0 < left }
    ensures { to_little_endian 8 result ≡ pack_bytes 8 (λ t. nat_lt t left) }
{
    if 64 <= left {
        return u64::MAX;
    }
    low_bits(u64::MAX, left)
}

// Sets the first n bits of out, and clears the spare bits of their last byte: eight bytes a turn, then the bytes of the last word.
// A turn's word depends on what is left: the store of a constant, as `fill` is, would compile to a call of the C library's `memset`. The bytes are not
// `n.div_ceil(8)`, by which 40 rows take 91 instructions in place of 84.
#[tactic(auto, using(bits::proofs::Packing::bytes_none, bits::proofs::Packing::bytes_end))]
fn set_bits(n: usize, out: &mut [u8])
    requires { (n < 2 ^ 60) × (bytes_for n ≤ length out.old) }
    ensures { out.new ≡ overwrite (pack n (λ i. true)) out.old }
{
    let bytes = (n + 7) / 8;
    let words = bytes / 8;
    for k in 0..words {
        let from = 8 * k;
        write_number::<8>(out, from, ones(n - 8 * from));
    }
    if bytes % 8 == 0 {
        return;
    }
    let from = 8 * words;
    write_up_to(out, from, bytes, ones(n - 8 * from));
}

// Writes the validity of the taken rows, where the rows or the indices have one.
fn take_validity(validity: &BooleanBuffer<'_>, indices: &IndexColumn<'_>, out_validity: &mut [u8])
    requires in_range { InRange validity.now.len (index_column_of indices.now) }
    requires some_validity { (is_absent validity.now.values.now && is_absent indices.now.validity.now) ≡ false }
    requires room { bytes_for indices.now.indices.count ≤ length out_validity.old }
    ensures { out_validity.new ≡ overwrite (taken_validity validity.now.values.now validity.now.offset (index_column_of indices.now)) out_validity.old }
{
    if !validity.values.is_empty() {
        validity.take_bits(indices, &[], out_validity);
        return;
    }
    validity_of(indices).pack(out_validity);
}

// Writes the validity of the taken rows, and counts the null ones. Where neither the rows nor the indices have one, there are none to count.
#[tactic(auto, using(crate::proofs::Validity::no_nulls))]
pub fn take_nulls(
    validity: &BooleanBuffer<'_>,
    indices: &IndexColumn<'_>,
    out_validity: &mut [u8],
) -> u64
    requires in_range { InRange validity.now.len (index_column_of indices.now) }
    requires room { bytes_for indices.now.indices.count ≤ length out_validity.old }
    ensures nulls { result ≡ taken_nulls validity.now.values.now validity.now.offset (index_column_of indices.now) }
    ensures validity_stored { out_validity.new ≡ overwrite (taken_validity validity.now.values.now validity.now.offset (index_column_of indices.now)) out_validity.old }
{
    let count = indices.indices.count as usize;
    if validity.values.is_empty() && indices.validity.is_empty() {
        set_bits(count, out_validity);
        return 0;
    }
    take_validity(validity, indices, out_validity);
    indices.indices.count - count_set_bits(&out_validity[..count.div_ceil(8)])
}
