// What C links to gather a column (layer 6): the symbol `hoglidra_take`, which promises what `hoglidra::export::hoglidra_take` does, and calls it. A slice is a
// pointer and a length there. No crate can use a static library, so it is a crate of its own; so is that of several columns, and an object of the archive
// each: a stage with two callers would be inlined into neither, and whoever gathers single columns alone links no more than that.
#![tactic(auto)]

ghost use Rattle.tables.specs.Columns.{column_at, index_column_at, description, index_description};
ghost use Rattle.gathers.specs.Stored.{output_at};
ghost use Rattle.gathers.specs.Gather.{gather};
ghost use Rattle.entries.specs.Entry.{Gathers};
ghost use Rattle.answers.specs.Exported.{left, exported};

#[unsafe(no_mangle)]
pub extern "C" fn hoglidra_take(
    kind: u64,
    width: u64,
    size: u64,
    offset_width: u64,
    rows: u64,
    data_bit: u64,
    validity_bit: u64,
    data: &[u8],
    offsets: &[u8],
    validity: &[u8],
    index_width: u64,
    count: u64,
    index_validity_bit: u64,
    index_data: &[u8],
    index_validity: &[u8],
    out_validity: &mut [u8],
    out_offsets: &mut [u8],
    out_data: &mut [u8],
    answer: &mut [u8],
) -> u64
    ensures { Gathers (exported gather answer.old)
        (column_at (description kind width size offset_width rows data_bit validity_bit) «data».entry offsets.entry validity.entry)
        (index_column_at (index_description index_width count index_validity_bit) index_data.entry index_validity.entry)
        (output_at out_validity.old out_offsets.old out_data.old)
        (left result answer.new (output_at out_validity.new out_offsets.new out_data.new)) }
{
    hoglidra::export::hoglidra_take(
        kind,
        width,
        size,
        offset_width,
        rows,
        data_bit,
        validity_bit,
        data,
        offsets,
        validity,
        index_width,
        count,
        index_validity_bit,
        index_data,
        index_validity,
        out_validity,
        out_offsets,
        out_data,
        answer,
    )
}
