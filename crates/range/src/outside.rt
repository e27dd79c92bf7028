// Where the range scan starts: at the block of numbers that has the first which names no row, also where that stands under a null index.
ghost use Rattle.std.specs.Prelude.{◌≡◌, true, false, ℕ, ◌*◌, ◌^◌, ◌≤◌, ◌<◌, nat_le, length, IfSome, IfNone};
ghost use Rattle.bits.specs.Sequences.{any};
ghost use Rattle.bits.specs.Numbers.{number_at, is_number_width};
ghost use Rattle.range.specs.Looked.{is_too_narrow};
ghost use Rattle.range.specs.Scanned.{scan_start};

use bits::number::number_at;

// Whether each number of W bytes names one of so many rows.
fn is_too_narrow<const W: usize>(rows: u64) -> bool
    requires { is_number_width W ≡ true }
    ensures { result ≡ is_too_narrow rows W }
{
    W < 8 && (1u64 << (8 * W)) <= rows
}

// So many numbers of W bytes, after which other bytes may lie, and a row count that is such a number too.
#[derive(Clone, Copy)]
pub struct Numbers<'a, const W: usize> {
    pub bytes: &'a [u8],
    pub count: usize,
    pub rows: u64,
    ghost width: { is_number_width W ≡ true },
    ghost there: { count * W ≤ length bytes.now },
    ghost few: { rows < 256 ^ W },
    ghost below: { (j : ℕ) → number_at W bytes.now j < 256 ^ W },
}

impl<'a, const W: usize> Numbers<'a, W> {
    // None where each number of W bytes names a row: then none has to be read. What W bytes can hold is said here, for that a slice holds bytes is known where
    // it is a parameter, and not where it is a field.
    pub fn new(bytes: &'a [u8], count: usize, rows: u64) -> Option<Numbers<'a, W>>
        requires width { is_number_width W ≡ true }
        requires there { count * W ≤ length bytes.now }
        ensures some { IfSome result (λ n. (n.bytes.now ≡ bytes.now) × (n.count ≡ count) × (n.rows ≡ rows) × (is_too_narrow rows W ≡ false)) }
        ensures none { IfNone result ((is_too_narrow rows W ≡ true) × ((j : ℕ) → number_at W bytes.now j < rows)) }
    {
        if is_too_narrow::<W>(rows) {
            return None;
        }
        Some(Numbers { bytes, count, rows })
    }

    // Number k names no row, where there are rows. Compared at its own width, so that a loop compares many at once; and with the last row: with the row count
    // it took 28 % more instructions at width 8 on x86-64.
    fn is_outside(&self, k: usize) -> bool
        requires there { k < self.now.count }
        requires some { 0 < self.now.rows }
        ensures { result ≡ nat_le self.now.rows (number_at W self.now.bytes.now k) }
    {
        let last = self.rows - 1;
        let number = number_at(self.bytes, W, k);
        match W {
            4 => (last as u32) < number as u32,
            8 => last < number,
            2 => (last as u16) < number as u16,
            _ => (last as u8) < number as u8,
        }
    }

    // Some number names no row. `any` would leave at the first, and a loop that may leave does not compare many at once.
    fn some_outside(&self) -> bool
        requires { 0 < self.now.rows }
        ensures { result ≡ any self.now.count (λ k. nat_le self.now.rows (number_at W self.now.bytes.now k)) }
    {
        let mut outside = false;
        for k in 0..self.count {
            outside |= self.is_outside(k);
        }
        outside
    }

    // Where the block of the first number that names no row starts. A block is 512 numbers, or all that are left. It is a part of the buffer, so that the loop
    // over it counts from 0 up to at most 512: from one place to another takes more instructions on a core of 32 bits. A `while`: tried without its proof,
    // `step_by(512)` took 14 instructions more for 40 indices on x86-64, and 10 or so for each further block; `chunks` took 2 less and 3 more there, but 2 to
    // 4 % more of the whole test at widths 2 and 4 on a Cortex-M7 without unaligned accesses.
    pub fn block_outside(&self) -> Option<usize>
        ensures { result ≡ scan_start self.now.rows W self.now.count self.now.bytes.now }
    {
        let mut from = 0;
        while from < self.count {
            let block = Numbers::<W> {
                bytes: &self.bytes[from * W..],
                count: (self.count - from).min(512),
                rows: self.rows,
            };
            if self.rows == 0 || block.some_outside() {
                return Some(from);
            }
            from += block.count;
        }
        None
    }
}
