// The size of the data output of every kind, with refusal 6. Only columns of variable width have a running total that can pass their offsets.
ghost use Rattle.std.specs.Prelude.{◌≡◌};
ghost use Rattle.tables.specs.Columns.{column_of, index_column_of};
ghost use Rattle.gathers.specs.Taken.{taken};
ghost use Rattle.gathers.specs.Stages.{measured};
ghost use Rattle.gathers.specs.Ready.{Ready};
ghost use Rattle.variable.specs.Measured.{measured_numbers};

use kinds::kind::layout_at;
use tables::column::{Column, IndexColumn};
use tables::refusal::Refusal;
use tables::table::Layout;
use variable::total::measure_variable;

pub fn measure(column: &Column<'_>, indices: &IndexColumn<'_>) -> Result<u64, Refusal>
    requires { Ready (column_of column.now) (index_column_of indices.now) }
    ensures { measured_numbers result ≡ measured (taken (column_of column.now) (index_column_of indices.now)) }
{
    let count = indices.indices.count;
    match layout_at(column.table) {
        Layout::FixedWidth(n) => Ok(count * n),
        Layout::BitMap => Ok(count.div_ceil(8)),
        Layout::VariableWidth(unit) => measure_variable(column, indices, unit),
    }
}
