// The gather of a column by an index column, Rust's `take` with `check_bounds`: refused with the first of the paper's numbers that is met, and
// then no output byte changes; or gathered. Any numbers, any buffers and any lent outputs may be handed in.
ghost use Rattle.tables.specs.Columns.{column_of, index_column_of};
ghost use Rattle.gathers.specs.Stored.{output_of, output_left};
ghost use Rattle.gathers.specs.Gather.{outcome, gather};
ghost use Rattle.tables.specs.Answers.{answered_numbers};
ghost use Rattle.entries.specs.Entry.{Gathers};

use crate::check::check;
use described::column::take_column;
use tables::answer::Gathered;
use tables::column::{Column, IndexColumn, Output};
use tables::refusal::Refusal;

pub fn take(
    column: &Column<'_>,
    indices: &IndexColumn<'_>,
    out: Output<'_>,
) -> Result<Gathered, Refusal>
    ensures { Gathers gather (column_of column.now) (index_column_of indices.now) (output_of out.entry) (outcome (answered_numbers result) (output_left out.exit)) }
{
    check(column, indices, &out)?;
    let Output {
        validity,
        offsets,
        data,
    } = out;
    let taken = take_column(column, indices, validity, offsets, data);
    Ok(Gathered {
        total: taken.needed.data,
        nulls: taken.nulls,
    })
}
