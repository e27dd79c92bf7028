// The gather of several columns by one index column, Rust's `take_arrays` with `check_bounds`: all of them, or none and a refusal. Any numbers, any bytes
// and any lent outputs may be handed in.
ghost use Rattle.tables.specs.Columns.{index_column_of};
ghost use Rattle.gathers.specs.Stored.{output_of, output_left};
ghost use Rattle.gathers.specs.Gather.{outcome};
ghost use Rattle.batches.specs.Batch.{gather_arrays};
ghost use Rattle.tables.specs.Answers.{answered_numbers};
ghost use Rattle.arrays.specs.Entry.{GathersArrays};
ghost use Rattle.arrays.specs.Told.{batch_of};

use crate::batch::Batch;
use crate::check::check;
use crate::write::write;
use tables::answer::Gathered;
use tables::column::{IndexColumn, Output};
use tables::refusal::Refusal;

pub fn take_arrays(
    batch: &Batch<'_>,
    indices: &IndexColumn<'_>,
    out: Output<'_>,
) -> Result<Gathered, Refusal>
    ensures { GathersArrays gather_arrays (batch_of batch.now) (index_column_of indices.now) (output_of out.entry) (outcome (answered_numbers result) (output_left out.exit)) }
{
    check(batch, indices, &out)?;
    let Output {
        validity,
        offsets,
        data,
    } = out;
    Ok(write(batch, indices, validity, offsets, data))
}
