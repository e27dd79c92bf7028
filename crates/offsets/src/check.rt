// Refusal 4: the offsets of a column of variable width. One pass, sixteen offsets a turn, finds whether some offset is below the one before. Where none
// is and the last is at most H, all are good: an offset below 0 is, read as unsigned, above every H. Only else is the place looked for.
ghost use Rattle.std.specs.Prelude.{◌≡◌, true, suc, ◌+◌, ◌*◌, ◌/◌, ◌≤◌, length};
ghost use Rattle.bits.specs.Sequences.{any, first};
ghost use Rattle.bits.specs.Numbers.{number_at};
ghost use Rattle.tables.specs.Kinds.{is_width, is_offset_width};
ghost use Rattle.tables.specs.Stages.{checked_numbers, offsets_refusal};
ghost use Rattle.tables.specs.Refusals.{max_bytes, is_bad};
ghost use Rattle.tables.specs.Columns.{column_of};
ghost use Rattle.tables.specs.Bounds.{Offsets, Sized, falls};
ghost use Rattle.offsets.specs.Found.{first_found};

use bits::number::number_at;
use kinds::kind::layout_at;
use tables::column::Column;
use tables::refusal::Refusal;
use tables::table::Layout;

// The offsets of so many rows, of W bytes each, and what may lie after them: arrow's `OffsetBuffer`. The width is a const parameter, so that of the widths of
// `number_at` one is left before the compiler chooses what it puts in line.
#[derive(Clone, Copy)]
struct OffsetBuffer<'a, const W: usize> {
    bytes: &'a [u8],
    rows: usize,
    ghost held: { Offsets W rows bytes.now },
}

impl<const W: usize> OffsetBuffer<'_, W> {
    fn offset_at(&self, i: usize) -> u64
        requires { i ≤ self.now.rows }
        ensures { result ≡ number_at W self.now.bytes.now i }
    {
        number_at(self.bytes, W, i)
    }

    // Some of the TURN offsets after offset i is below the one before. No turn leaves early, as `windows(2)` does (0.17 ns an offset in place of 0.10 at width
    // 4, docs/PROVING.md).
    fn falls_in_turn<const TURN: usize>(&self, i: usize) -> bool
        requires { i + TURN ≤ self.now.rows }
        ensures { result ≡ any TURN (λ k. falls (number_at W self.now.bytes.now) (i + k)) }
    {
        let mut before = self.offset_at(i);
        let mut falls = false;
        for k in 0..TURN {
            let offset = self.offset_at(i + k + 1);
            falls |= offset < before;
            before = offset;
        }
        falls
    }

    // Some offset is below the one before: sixteen a turn, then single ones.
    fn falls(&self) -> bool
        ensures { result ≡ any self.now.rows (falls (number_at W self.now.bytes.now)) }
    {
        let turns = self.rows / 16;
        for turn in 0..turns {
            if self.falls_in_turn::<16>(turn * 16) {
                return true;
            }
        }
        for i in turns * 16..self.rows {
            if self.offset_at(i + 1) < self.offset_at(i) {
                return true;
            }
        }
        false
    }

    // The place of the first bad offset. Each is looked at only where some is bad. A loop: `find`, by a test that reads the offset before again, takes 10
    // instructions an offset on x86-64 in place of 9, and its closure would need clauses of its own.
    fn first_bad(&self, most: u64) -> Option<u64>
        requires { most ≤ max_bytes }
        ensures { result ≡ first_found (suc self.now.rows) (is_bad W (number_at W self.now.bytes.now) most) }
    {
        if !self.falls() && self.offset_at(self.rows) <= most {
            return None;
        }
        let mut before = 0;
        for i in 0..=self.rows {
            let offset = self.offset_at(i);
            // one test of both: with `||` there are two ways out of the loop, and to prove
            if (offset < before) | (offset > most) {
                return Some(i as u64);
            }
            before = offset;
        }
        None
    }
}

// The same at the width that the column states: a number comes to a const parameter only by an arm.
fn bad_offset(bytes: &[u8], w: usize, rows: usize, most: u64) -> Option<u64>
    requires offsets { Offsets w rows bytes.now }
    requires small { most ≤ max_bytes }
    ensures { result ≡ first_found (suc rows) (is_bad w (number_at w bytes.now) most) }
{
    match w {
        4 => OffsetBuffer::<4> { bytes, rows }.first_bad(most),
        _ => OffsetBuffer::<8> { bytes, rows }.first_bad(most),
    }
}

// How many entries of `unit` bytes n bytes hold. By literals: a division of 64 bits by any other number is a call on a core of 32 bits. (A shift by the zeros
// below the unit's bit is one line, and its proof the six cases.)
fn entries_in(n: u64, unit: u64) -> u64
    requires { is_width unit ≡ true }
    ensures { result ≡ n / unit }
{
    match unit {
        1 => n,
        2 => n / 2,
        4 => n / 4,
        8 => n / 8,
        16 => n / 16,
        _ => n / 32,
    }
}

// Refusal 4 of a column that passed refusals 1 to 3. A column without offsets passes at once. Of the data only the length is looked at.
pub fn check_offsets(column: &Column<'_>) -> Result<(), Refusal>
    requires { Sized (column_of column.now) }
    ensures { checked_numbers result ≡ offsets_refusal (column_of column.now) }
{
    let table = column.table;
    let Layout::VariableWidth(unit) = layout_at(table) else {
        return Ok(());
    };
    let most = entries_in(column.data.len() as u64, unit);
    let found = bad_offset(
        column.offsets,
        table.offset_width as usize,
        table.rows as usize,
        most,
    );
    match found {
        Some(place) => Err(Refusal::Offsets { place }),
        None => Ok(()),
    }
}
