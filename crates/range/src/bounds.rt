// Refusal 5, the range scan: the first valid index that is not below the row count, and how many indices were looked at. Numbers under null slots are
// passed over: the number is tested first, and the validity bit only where that fails.
ghost use Rattle.std.specs.Prelude.{◌≡◌, true, IfSome, IfNone};
ghost use Rattle.tables.specs.Columns.{index_column_of};
ghost use Rattle.tables.specs.Answers.{passes};
ghost use Rattle.tables.specs.Stages.{checked_numbers};
ghost use Rattle.tables.specs.Refusals.{index_refusal};
ghost use Rattle.gathers.specs.Stages.{range_refusal};
ghost use Rattle.range.specs.Looked.{looked_at};
ghost use Rattle.range.specs.Scanned.{Scannable, FirstOutside, NoneOutside, ScannedOf};

use crate::outside::Numbers;
use bits::number::number_at;
use buffers::bit::is_valid;
use tables::column::IndexColumn;
use tables::refusal::Refusal;

// What the scan answers, and how many indices it looked at: a count beside the Result, for it tells how far the scan went in both cases.
#[derive(Clone, Copy, Debug, PartialEq, Eq)]
pub struct Scanned {
    pub checked: Result<(), Refusal>,
    pub looked: u64,
}

// The first index from place `from` on that is outside, where no number before the place is; none if none is. (By the index column again, and not by its
// `Numbers`: the validity is read too, and what is told is of the column.) Not in line: there two of the loop's numbers lay in memory, and an index below the
// row count took 9 instructions in place of 6 on x86-64. What it tells is an `Option`, which goes in two registers there, and no struct in memory.
#[inline(never)]
fn scan_from<const W: usize>(rows: u64, indices: &IndexColumn<'_>, from: usize) -> Option<u64>
    requires scannable { Scannable rows (index_column_of indices.now) from }
    requires width { indices.now.indices.width ≡ W }
    ensures some { IfSome result (λ place. FirstOutside rows (index_column_of indices.now) place) }
    ensures none { IfNone result (NoneOutside rows (index_column_of indices.now)) }
{
    let validity_bit = indices.indices.validity_bit as usize;
    let mut place = None;
    for j in from..indices.indices.count as usize {
        if rows <= number_at(indices.data, W, j) && is_valid(indices.validity, validity_bit, j) {
            place = Some(j as u64);
            break;
        }
    }
    place
}

// The whole, at an index width. Where every number of that width names a row, none is read. Else the scan starts at the first block with a number outside,
// also where that stands under a null index. So no number is read beyond the block of the first index outside.
fn check_bounds_at<const W: usize>(rows: u64, indices: &IndexColumn<'_>) -> Scanned
    requires index_passes { passes (index_refusal (index_column_of indices.now)) ≡ true }
    requires width { indices.now.indices.width ≡ W }
    ensures { ScannedOf rows (index_column_of indices.now) result }
{
    let count = indices.indices.count;
    let Some(numbers) = Numbers::<W>::new(indices.data, count as usize, rows) else {
        return Scanned {
            checked: Ok(()),
            looked: 0,
        };
    };
    let Some(from) = numbers.block_outside() else {
        return Scanned {
            checked: Ok(()),
            looked: count,
        };
    };
    match scan_from::<W>(rows, indices, from) {
        Some(place) => Scanned {
            checked: Err(Refusal::Range { place }),
            looked: place + 1,
        },
        None => Scanned {
            checked: Ok(()),
            looked: count,
        },
    }
}

// Of an index column that passed its own tests. A number comes to a const parameter only by a `match`: each width has an arm, and a loop of its own.
pub fn check_bounds(rows: u64, indices: &IndexColumn<'_>) -> Scanned
    requires { passes (index_refusal (index_column_of indices.now)) ≡ true }
    ensures checked { checked_numbers result.checked ≡ range_refusal rows (index_column_of indices.now) }
    ensures looked { result.looked ≡ looked_at rows (index_column_of indices.now) }
{
    match indices.indices.width {
        2 => check_bounds_at::<2>(rows, indices),
        4 => check_bounds_at::<4>(rows, indices),
        8 => check_bounds_at::<8>(rows, indices),
        _ => check_bounds_at::<1>(rows, indices),
    }
}
