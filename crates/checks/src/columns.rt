// Refusals 1 to 4, in their order: of a column with an index column, and of a column by itself. Any numbers and any buffers may be handed in.
ghost use Rattle.std.specs.Prelude.{◌≡◌};
ghost use Rattle.tables.specs.Columns.{column_of, index_column_of};
ghost use Rattle.tables.specs.Stages.{checked_numbers, form_refusal};
ghost use Rattle.tables.specs.Refusals.{column_refusal};

use offsets::check::check_offsets;
use sizes::check::check_lent;
use tables::column::{Column, IndexColumn};
use tables::refusal::Refusal;

pub fn check_columns(column: &Column<'_>, indices: &IndexColumn<'_>) -> Result<(), Refusal>
    ensures { checked_numbers result ≡ form_refusal (column_of column.now) (index_column_of indices.now) }
{
    // by `let .. else`, the form that the paper names for a refusal which is passed up
    let Err(refusal) = check_lent(column, indices) else {
        return check_offsets(column);
    };
    Err(refusal)
}

// A column with no indices to gather.
pub fn check_table(column: &Column<'_>) -> Result<(), Refusal>
    ensures { checked_numbers result ≡ column_refusal (column_of column.now) }
{
    check_columns(column, &IndexColumn::none())
}
