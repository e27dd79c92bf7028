// The sum of the entries at the widths of offsets and of indices: each pair of widths has a loop of its own, which waits for nothing else. A number that is
// known at run time comes to a const parameter only by the arm of a `match`, so that there is an arm for each pair. A match of two over a function with a match
// of four would have two arms fewer and a function more.
ghost use Rattle.std.specs.Prelude.{◌≡◌, true};
ghost use Rattle.bits.specs.Sequences.{sum};
ghost use Rattle.bits.specs.Numbers.{is_number_width};
ghost use Rattle.tables.specs.Kinds.{is_offset_width};
ghost use Rattle.lengths.specs.Lent.{selection_of};
ghost use Rattle.lengths.specs.Totals.{selected_entries, sum_within};

use lengths::row::Selection;
use lengths::total::Overflow;

fn sum_by_width(selection: &Selection<'_>) -> u64
    requires widths { (is_offset_width selection.now.offset_width ≡ true) × (is_number_width selection.now.index_width ≡ true) }
    ensures { result ≡ sum selection.now.count (selected_entries (selection_of selection.now)) }
{
    match (selection.offset_width, selection.index_width) {
        (4, 2) => selection.sum::<4, 2>(),
        (4, 4) => selection.sum::<4, 4>(),
        (4, 8) => selection.sum::<4, 8>(),
        (4, _) => selection.sum::<4, 1>(),
        (_, 2) => selection.sum::<8, 2>(),
        (_, 4) => selection.sum::<8, 4>(),
        (_, 8) => selection.sum::<8, 8>(),
        _ => selection.sum::<8, 1>(),
    }
}

// All lengths are first added up without a branch; only where the sum is above `most` is the first row looked for after which it is.
pub fn sum_within_by_width(selection: &Selection<'_>, most: u64) -> Result<u64, Overflow>
    requires widths { (is_offset_width selection.now.offset_width ≡ true) × (is_number_width selection.now.index_width ≡ true) }
    ensures { result ≡ sum_within most (selected_entries (selection_of selection.now)) selection.now.count }
{
    let sum = sum_by_width(selection);
    if sum <= most {
        return Ok(sum);
    }
    selection.sum_within(most)
}
