// Bits gathered by an index column: Rust's `take_bits`, for validity and for boolean data. A word of 32 bits at a time, spare bits 0:
// one register on every core.
// A null index gives 0, and the number under it is not used to read: the validity of 32 indices is one word, and so is the mask. Where all indices of a word are
// valid their rows are read one after the other; where most are picked each number is masked by its bit; else the rows are read from one bit that is set to the
// next. No branch asks whether one index is null.
ghost use Rattle.std.specs.Prelude.{◌≡◌, true, false, ◌&&◌, ℕ, ◌+◌, ◌*◌, ◌≤◌, ◌<◌, nat_lt, length};
ghost use Rattle.bits.specs.Numbers.{number_at};
ghost use Rattle.bits.specs.Bits.{bit_value, bit_of, bit_at, bytes_for, pack, is_absent, valid_at};
ghost use Rattle.bits.specs.Bytes.{overwrite};
ghost use Rattle.gathers.specs.Buffers.{taken_bit};
ghost use Rattle.tables.specs.Columns.{index_column_of};
ghost use Rattle.tables.specs.Answers.{passes};
ghost use Rattle.tables.specs.Refusals.{index_refusal};
ghost use Rattle.gathers.specs.Ready.{InRange};
ghost use Rattle.bitmaps.specs.Reach.{HoldsBits, taken_bits, MaskThere, Reached, Reaches};

use bits::number::{number_at, write_number, write_up_to};
use buffers::bit::{get_bit, pack_bits, word_at};
use tables::column::IndexColumn;

// The bits of so many rows, from a bit offset on: arrow's `BooleanBuffer`. Where a buffer is there it has them.
#[derive(Clone, Copy)]
pub struct BooleanBuffer<'a> {
    pub values: &'a [u8],
    pub offset: usize,
    pub len: u64,
    ghost held: { is_absent values.now ≡ false → HoldsBits offset len values.now },
}

// The word whose lowest n bits are set, and no others.
fn ones(n: usize) -> u32
    requires { (0 < n) × (n ≤ 32) }
    ensures { (t : ℕ) → bit_of result t ≡ nat_lt t n }
{
    u32::MAX >> (32 - n)
}

// The validity of the indices.
pub fn validity_of<'a>(indices: &IndexColumn<'a>) -> BooleanBuffer<'a>
    requires { passes (index_refusal (index_column_of indices.now)) ≡ true }
    ensures values { result.values ≡ indices.now.validity }
    ensures place { (result.offset ≡ indices.now.indices.validity_bit) × (result.len ≡ indices.now.indices.count) }
{
    BooleanBuffer {
        values: indices.validity,
        offset: indices.indices.validity_bit as usize,
        len: indices.indices.count,
    }
}

impl BooleanBuffer<'_> {
    // The validity of the n rows from row p on as a word, its other bits 0. Where no buffer is there, each is valid.
    fn valid_word(&self, p: usize, n: usize) -> u32
        requires { (0 < n) × (n ≤ 32) × (p + n ≤ self.now.len) }
        ensures { (t : ℕ) → bit_of result t ≡ (nat_lt t n && valid_at self.now.values.now self.now.offset (p + t)) }
    {
        if self.values.is_empty() {
            return ones(n);
        }
        word_at(self.values, self.offset + p, n)
    }

    // The bit of the row that number t names where v is 1, and that of the first row where v is 0. It is to become part of a word, and so it is made wide at once.
    fn row_bit<const W: usize>(&self, numbers: &[u8], t: usize, v: u32) -> u32
        requires { Reaches v self.now.offset W numbers.now self.now.values.now t }
        ensures { result ≡ bit_value (bit_at self.now.values.now (self.now.offset + number_at W numbers.now t * v)) }
    {
        let row = (number_at(numbers, W, t) * u64::from(v)) as usize;
        u32::from(get_bit(self.values, self.offset + row))
    }

    // The bits of the rows that the first n numbers name: each is put in above those before it, and at the end they are moved down.
    fn all_bits<const W: usize>(&self, numbers: &[u8], n: usize) -> u32
        requires few { (0 < n) × (n ≤ 32) }
        requires reached { (t : ℕ) → t < n → Reaches 1 self.now.offset W numbers.now self.now.values.now t }
        ensures { (t : ℕ) → bit_of result t ≡ (nat_lt t n && bit_at self.now.values.now (self.now.offset + number_at W numbers.now t)) }
    {
        let mut word: u32 = 0;
        for t in 0..n {
            word = (word >> 1) | (self.row_bit::<W>(numbers, t, 1) << 31);
        }
        word >> (32 - n)
    }

    // The bits of the rows that the picked numbers name, 0 for the others, of which nothing is read. A turn goes to the lowest bit that is left and takes it
    // away: by shifts of what is left, each of which waits for the one before, a row took twice as long.
    fn picked_bits<const W: usize>(&self, numbers: &[u8], picked: u32) -> u32
        requires { (t : ℕ) → bit_of picked t ≡ true → Reaches 1 self.now.offset W numbers.now self.now.values.now t }
        ensures { (t : ℕ) → bit_of result t ≡ (bit_of picked t && bit_at self.now.values.now (self.now.offset + number_at W numbers.now t)) }
    {
        let mut word: u32 = 0;
        let mut left = picked;
        while left != 0 {
            let t = left.trailing_zeros() as usize;
            let rest = left & (left - 1);
            word |= (left ^ rest) * self.row_bit::<W>(numbers, t, 1);
            left = rest;
        }
        word
    }

    // The same for 32 numbers of which most are picked: each is masked by its bit, and for the others the first row's bit is read, and dropped.
    fn masked_bits<const W: usize>(&self, numbers: &[u8], picked: u32) -> u32
        requires { (t : ℕ) → t < 32 → Reaches (bit_value (bit_of picked t)) self.now.offset W numbers.now self.now.values.now t }
        ensures { (t : ℕ) → bit_of result t ≡ (bit_of picked t && bit_at self.now.values.now (self.now.offset + number_at W numbers.now t)) }
    {
        let mut word: u32 = 0;
        for k in 0..4 {
            let byte = picked >> (8 * k);
            for t in 0..8 {
                let v = (byte >> t) & 1;
                word = (word >> 1) | (self.row_bit::<W>(numbers, 8 * k + t, v) << 31);
            }
        }
        word & picked
    }

    // The n bits of the output from index p on, masked: a word, its other bits 0. Rows that the mask drops are there, and are read where no index is null.
    fn take_word<const W: usize>(
        &self,
        indices: &IndexColumn<'_>,
        mask: &[u8],
        p: usize,
        n: usize,
    ) -> u32
        requires width { indices.now.indices.width ≡ W }
        requires reached { Reached self.now.offset self.now.values.now (index_column_of indices.now) }
        requires mask_there { MaskThere indices.now.indices.count mask.now }
        requires few { (0 < n) × (n ≤ 32) × (p + n ≤ indices.now.indices.count) }
        ensures { (t : ℕ) → bit_of result t ≡ (nat_lt t n
            && (taken_bit self.now.values.now self.now.offset (index_column_of indices.now) (p + t) && valid_at mask.now 0 (p + t))) }
    {
        let mask_bits = BooleanBuffer {
            values: mask,
            offset: 0,
            len: indices.indices.count,
        };
        let valid = validity_of(indices).valid_word(p, n);
        let kept = mask_bits.valid_word(p, n);
        let numbers = &indices.data[p * W..];
        if valid == ones(n) {
            return self.all_bits::<W>(numbers, n) & kept;
        }
        let picked = valid & kept;
        // to mask all 32 takes as many instructions on x86-64 as to go through 22 that are picked
        if n == 32 && 24 <= picked.count_ones() {
            return self.masked_bits::<W>(numbers, picked);
        }
        self.picked_bits::<W>(numbers, picked)
    }

    // Writes the bits that the indices name, masked: whole words, and the bytes of the bits that are left.
    #[tactic(auto, using(bits::proofs::Packing::bytes_none, bits::proofs::Packing::bytes_end))]
    fn take_words<const W: usize>(&self, indices: &IndexColumn<'_>, mask: &[u8], out: &mut [u8])
        requires width { indices.now.indices.width ≡ W }
        requires in_range { InRange self.now.len (index_column_of indices.now) }
        requires some { is_absent self.now.values.now ≡ true → self.now.len ≡ 0 }
        requires mask_there { MaskThere indices.now.indices.count mask.now }
        requires room { bytes_for indices.now.indices.count ≤ length out.old }
        ensures { out.new ≡ overwrite (taken_bits self.now.values.now self.now.offset (index_column_of indices.now) mask.now) out.old }
    {
        let count = indices.indices.count as usize;
        let words = count / 32;
        for k in 0..words {
            let word = self.take_word::<W>(indices, mask, 32 * k, 32);
            write_number::<4>(out, 4 * k, u64::from(word));
        }
        let rest = count % 32;
        if rest != 0 {
            let word = self.take_word::<W>(indices, mask, 32 * words, rest);
            write_up_to(out, 4 * words, count.div_ceil(8), u64::from(word));
        }
    }

    // Writes the bits that the indices name; a mask that is there, from its bit 0 on, says which are kept. It is a validity as it lies in a buffer: an absent
    // one is an empty slice, and keeps all (see `is_valid` in buffers). Each index width has loops of its own.
    pub fn take_bits(&self, indices: &IndexColumn<'_>, mask: &[u8], out: &mut [u8])
        requires in_range { InRange self.now.len (index_column_of indices.now) }
        requires some { is_absent self.now.values.now ≡ true → self.now.len ≡ 0 }
        requires mask_there { MaskThere indices.now.indices.count mask.now }
        requires room { bytes_for indices.now.indices.count ≤ length out.old }
        ensures { out.new ≡ overwrite (taken_bits self.now.values.now self.now.offset (index_column_of indices.now) mask.now) out.old }
    {
        // no index is valid where there is no row: their validity is all zeros, as the output is
        if self.len == 0 && !indices.validity.is_empty() {
            validity_of(indices).pack(out);
            return;
        }
        match indices.indices.width {
            4 => self.take_words::<4>(indices, mask, out),
            8 => self.take_words::<8>(indices, mask, out),
            2 => self.take_words::<2>(indices, mask, out),
            _ => self.take_words::<1>(indices, mask, out),
        }
    }

    // Writes the bits to the front of out, from bit 0 on, spare bits 0.
    pub fn pack(&self, out: &mut [u8])
        requires there { is_absent self.now.values.now ≡ false }
        requires room { bytes_for self.now.len ≤ length out.old }
        ensures { out.new ≡ overwrite (pack self.now.len (λ i. bit_at self.now.values.now (self.now.offset + i))) out.old }
    {
        pack_bits(self.values, self.offset, self.len as usize, out);
    }
}
