// The rows of every column, written one after the other: the tail of each lent output is lent on, from where the columns before end.
ghost use Rattle.std.specs.Prelude.{◌≡◌};
ghost use Rattle.tables.specs.Columns.{index_column_of};
ghost use Rattle.gathers.specs.Stored.{output_at, store_joined};
ghost use Rattle.batches.specs.Batch.{taken_from};
ghost use Rattle.batches.specs.Passed.{Passed};
ghost use Rattle.arrays.specs.Told.{batch_of, written_of};

use crate::batch::Batch;
use described::in_body::take_described;
use descriptions::record::describe;
use tables::answer::Gathered;
use tables::column::IndexColumn;
use tables::table::Lengths;

pub fn write(
    batch: &Batch<'_>,
    indices: &IndexColumn<'_>,
    out_validity: &mut [u8],
    out_offsets: &mut [u8],
    out_data: &mut [u8],
) -> Gathered
    requires { Passed (batch_of batch.now) (index_column_of indices.now) (output_at out_validity.old out_offsets.old out_data.old) }
    ensures told { result ≡ written_of batch.now.columns (taken_from (batch_of batch.now) (index_column_of indices.now)) }
    ensures stored { output_at out_validity.new out_offsets.new out_data.new
        ≡ store_joined batch.now.columns (taken_from (batch_of batch.now) (index_column_of indices.now)) (output_at out_validity.old out_offsets.old out_data.old) }
{
    let columns = batch.columns as usize;
    let mut written = Lengths::default();
    let mut nulls: u64 = 0;
    for i in 0..columns {
        let d = describe(batch.descriptions, i);
        let taken = take_described(
            d,
            batch.body,
            indices,
            &mut out_validity[written.validity as usize..],
            &mut out_offsets[written.offsets as usize..],
            &mut out_data[written.data as usize..],
        );
        written = written + taken.needed;
        nulls += taken.nulls;
    }
    Gathered {
        total: written.data,
        nulls,
    }
}
