// The tests of a batch, in their order, before any output byte is written: those of the batch, the columns one by one through overflow, and space over
// the joined lengths.
ghost use Rattle.std.specs.Prelude.{◌≡◌, true, false, if◌then◌else◌};
ghost use Rattle.tables.specs.Columns.{index_column_of, no_indices};
ghost use Rattle.tables.specs.Bodies.{column_in};
ghost use Rattle.tables.specs.Answers.{passes, first_of};
ghost use Rattle.tables.specs.Stages.{checked_numbers};
ghost use Rattle.gathers.specs.Ready.{InRange};
ghost use Rattle.gathers.specs.Stored.{output_of};
ghost use Rattle.described.specs.Told.{ToldOf};
ghost use Rattle.batches.specs.Batch.{batch_lines, arrays_refusals};
ghost use Rattle.arrays.specs.Told.{batch_of, AllToldOf};

use crate::batch::{Batch, check_batch};
use described::in_body::check_described;
use descriptions::record::describe;
use stages::space::check_space;
use tables::column::{IndexColumn, Output};
use tables::refusal::Refusal;
use tables::table::{Description, Lengths};

// The index column that a column is tested with: the indices with the first one, and none after that, for the others have as many rows. (Field by field: of
// a reference to one or the other it was not proved how long it lives.)
fn tested<'a>(first: bool, indices: &IndexColumn<'a>) -> IndexColumn<'a>
    ensures { index_column_of result ≡ (if first then index_column_of indices.now else no_indices) }
{
    if !first {
        return IndexColumn::none();
    }
    IndexColumn {
        indices: indices.indices,
        data: indices.data,
        validity: indices.validity,
    }
}

// Refusals 1 to 6 of a column, and where none is met what its rows need. One call serves the first column and the others: a stage that is called twice in an
// object is not put in line there, and hands its answer back in memory, which on some cores is a call of `memset`.
fn check_next(
    first: bool,
    d: Description,
    body: &[u8],
    indices: &IndexColumn<'_>,
) -> Result<Lengths, Refusal>
    requires { first ≡ false → InRange (column_in body.now d).table.rows (index_column_of indices.now) }
    ensures { ToldOf (column_in body.now d) (index_column_of indices.now) result }
{
    check_described(d, body, &tested(first, indices), indices)
}

// The columns one by one, each through overflow, and what they need together.
fn check_columns(batch: &Batch<'_>, indices: &IndexColumn<'_>) -> Result<Lengths, Refusal>
    requires { passes (first_of (batch_lines (batch_of batch.now))) ≡ true }
    ensures { AllToldOf (batch_of batch.now) (index_column_of indices.now) result }
{
    let columns = batch.columns as usize;
    let mut joined = Lengths::default();
    for i in 0..columns {
        let d = describe(batch.descriptions, i);
        joined = joined + check_next(i == 0, d, batch.body, indices)?;
    }
    Ok(joined)
}

// Of the outputs only the lengths are looked at.
pub fn check(batch: &Batch<'_>, indices: &IndexColumn<'_>, out: &Output<'_>) -> Result<(), Refusal>
    ensures { checked_numbers result ≡ first_of (arrays_refusals (batch_of batch.now) (index_column_of indices.now) (output_of out.now)) }
{
    check_batch(batch)?;
    let joined = check_columns(batch, indices)?;
    check_space(joined, out.lengths())
}
