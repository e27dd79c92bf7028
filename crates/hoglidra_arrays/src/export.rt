// The gather of several columns at once as C calls it: their records and the one slice that holds their buffers, else as for one column.
ghost use Rattle.tables.specs.Columns.{index_column_at, index_description};
ghost use Rattle.gathers.specs.Stored.{output_at};
ghost use Rattle.batches.specs.Batch.{batch_at, gather_arrays};
ghost use Rattle.arrays.specs.Entry.{GathersArrays};
ghost use Rattle.answers.specs.Exported.{left, exported};

use answers::answer::{ANSWER_BYTES, SHORT_ANSWER, write_answered};
use arrays::batch::Batch;
use arrays::take::take_arrays;
use tables::column::{IndexColumn, Output};
use tables::table::Indices;

pub fn hoglidra_take_arrays(
    columns: u64,
    descriptions: &[u8],
    body: &[u8],
    index_width: u64,
    count: u64,
    index_validity_bit: u64,
    index_data: &[u8],
    index_validity: &[u8],
    out_validity: &mut [u8],
    out_offsets: &mut [u8],
    out_data: &mut [u8],
    answer: &mut [u8],
) -> u64
    ensures { GathersArrays (exported gather_arrays answer.old)
        (batch_at columns descriptions.entry body.entry)
        (index_column_at (index_description index_width count index_validity_bit) index_data.entry index_validity.entry)
        (output_at out_validity.old out_offsets.old out_data.old)
        (left result answer.new (output_at out_validity.new out_offsets.new out_data.new)) }
{
    if answer.len() < ANSWER_BYTES {
        return SHORT_ANSWER;
    }
    let batch = Batch {
        columns,
        descriptions,
        body,
    };
    let indices = IndexColumn {
        indices: Indices {
            width: index_width,
            count,
            validity_bit: index_validity_bit,
        },
        data: index_data,
        validity: index_validity,
    };
    let answered = take_arrays(
        &batch,
        &indices,
        Output {
            validity: out_validity,
            offsets: out_offsets,
            data: out_data,
        },
    );
    write_answered(answered, answer)
}
