// The gather of a column as the printer's C firmware calls it: numbers and byte slices. The number is returned, and the four numbers are written into the
// lent answer, refusals included; an answer slice of fewer than 32 bytes gets 7 before every other test, and nothing is written.
ghost use Rattle.tables.specs.Columns.{column_at, index_column_at, description, index_description};
ghost use Rattle.gathers.specs.Stored.{output_at};
ghost use Rattle.gathers.specs.Gather.{gather};
ghost use Rattle.entries.specs.Entry.{Gathers};
ghost use Rattle.answers.specs.Exported.{left, exported};

use answers::answer::{ANSWER_BYTES, SHORT_ANSWER, write_answered};
use entries::take::take;
use tables::column::{Column, IndexColumn, Output};
use tables::table::{Indices, Table};

pub fn hoglidra_take(
    kind: u64,
    width: u64,
    size: u64,
    offset_width: u64,
    rows: u64,
    data_bit: u64,
    validity_bit: u64,
    data: &[u8],
    offsets: &[u8],
    validity: &[u8],
    index_width: u64,
    count: u64,
    index_validity_bit: u64,
    index_data: &[u8],
    index_validity: &[u8],
    out_validity: &mut [u8],
    out_offsets: &mut [u8],
    out_data: &mut [u8],
    answer: &mut [u8],
) -> u64
    ensures { Gathers (exported gather answer.old)
        (column_at (description kind width size offset_width rows data_bit validity_bit) «data».entry offsets.entry validity.entry)
        (index_column_at (index_description index_width count index_validity_bit) index_data.entry index_validity.entry)
        (output_at out_validity.old out_offsets.old out_data.old)
        (left result answer.new (output_at out_validity.new out_offsets.new out_data.new)) }
{
    if answer.len() < ANSWER_BYTES {
        return SHORT_ANSWER;
    }
    let table = Table {
        kind,
        width,
        size,
        offset_width,
        rows,
        data_bit,
        validity_bit,
    };
    let column = Column {
        table,
        data,
        offsets,
        validity,
    };
    let indices = IndexColumn {
        indices: Indices {
            width: index_width,
            count,
            validity_bit: index_validity_bit,
        },
        data: index_data,
        validity: index_validity,
    };
    let answered = take(
        &column,
        &indices,
        Output {
            validity: out_validity,
            offsets: out_offsets,
            data: out_data,
        },
    );
    write_answered(answered, answer)
}
