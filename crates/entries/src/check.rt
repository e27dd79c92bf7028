// The tests of a gather: refusals 1 to 7, in the paper's order, before any output byte is written. They stand in a function of their own, so that
// the compiler takes the writing after them for what a call is there for, and not for something that it seldom comes to.
ghost use Rattle.std.specs.Prelude.{◌≡◌};
ghost use Rattle.tables.specs.Columns.{column_of, index_column_of};
ghost use Rattle.tables.specs.Answers.{first_of};
ghost use Rattle.tables.specs.Stages.{checked_numbers};
ghost use Rattle.gathers.specs.Stored.{output_of};
ghost use Rattle.gathers.specs.Gather.{refusals};

use described::column::check_column;
use sizes::check::check_lent;
use stages::space::check_space;
use tables::column::{Column, IndexColumn, Output};
use tables::refusal::Refusal;

// Of the outputs only the lengths are looked at.
pub fn check(
    column: &Column<'_>,
    indices: &IndexColumn<'_>,
    out: &Output<'_>,
) -> Result<(), Refusal>
    ensures { checked_numbers result ≡ first_of (refusals (column_of column.now) (index_column_of indices.now) (output_of out.now)) }
{
    check_lent(column, indices)?;
    let needed = check_column(column, indices, indices)?;
    check_space(needed, out.lengths())
}
