// The size of the data output, with refusal 6: the running total of the entries may pass no offset of 4 bytes. Offsets of 8 bytes hold every
// total. All lengths are first added up without a branch; only where the sum passes the largest offset is the row looked for.
ghost use Rattle.std.specs.Prelude.{◌≡◌};
ghost use Rattle.tables.specs.declared.table.Layout.TheVariants.{VariableWidth};
ghost use Rattle.tables.specs.Columns.{column_of, index_column_of, layout_at};
ghost use Rattle.gathers.specs.Taken.{taken};
ghost use Rattle.gathers.specs.Gather.{overflow_total};
ghost use Rattle.gathers.specs.Stages.{measured};
ghost use Rattle.gathers.specs.Ready.{Ready};
ghost use Rattle.variable.specs.Measured.{measured_numbers, largest_offset};

use crate::width::sum_within_by_width;
use kinds::kind::uses_of;
use lengths::row::Selection;
use tables::column::{Column, IndexColumn};
use tables::refusal::Refusal;
use tables::table::Kind;

// The largest offset of w bytes. Of 8 bytes it is the largest number of 64 bits, which no total passes: an `Option` would be a second test of the sum.
fn largest_offset(w: u64) -> u64
    ensures { result ≡ largest_offset w }
{
    if w == 4 { i32::MAX as u64 } else { u64::MAX }
}

// What refusal 6 carries: of lists, whose entries have a width, the total before it, of variable bytes the new total.
fn overflow_total(kind: Kind, new: u64, old: u64) -> u64
    ensures { result ≡ overflow_total kind new old }
{
    let uses = uses_of(kind);
    if uses.width {
        return old;
    }
    new
}

// The data bytes that the gathered rows need, or refusal 6. An entry has `unit` bytes. Where there are no rows every index is null, and nothing is read.
pub fn measure_variable(
    column: &Column<'_>,
    indices: &IndexColumn<'_>,
    unit: u64,
) -> Result<u64, Refusal>
    requires ready { Ready (column_of column.now) (index_column_of indices.now) }
    requires layout { layout_at (column_of column.now) ≡ VariableWidth unit }
    ensures { measured_numbers result ≡ measured (taken (column_of column.now) (index_column_of indices.now)) }
{
    let table = column.table;
    if table.rows == 0 {
        return Ok(0);
    }
    let selection = Selection {
        validity: column.validity,
        bit: table.validity_bit as usize,
        offset_width: table.offset_width as usize,
        offsets: column.offsets,
        index_width: indices.indices.width as usize,
        index_data: indices.data,
        index_validity: indices.validity,
        index_bit: indices.indices.validity_bit as usize,
        count: indices.indices.count as usize,
    };
    let most = largest_offset(table.offset_width);
    match sum_within_by_width(&selection, most) {
        Ok(sum) => Ok(sum * unit),
        Err(over) => {
            let total = overflow_total(Kind::from(table.kind), over.after, over.before);
            Err(Refusal::Overflow {
                place: over.place,
                total,
            })
        }
    }
}
