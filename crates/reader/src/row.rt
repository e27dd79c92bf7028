// The row reader: a row of variable bytes, as a part of the caller's data. Any numbers and any buffers may be handed in; for a table that one of
// refusals 1 to 4 meets, another kind, an absent row or a null row the part is empty, and the second entry says no.
ghost use Rattle.std.specs.Prelude.{◌≡◌};
ghost use Rattle.tables.specs.Columns.{column_at, column_of};
ghost use Rattle.reader.specs.Row.{has_row, row_start, read_row, place_of};
ghost use Rattle.reader.specs.Found.{row_found};

use bits::number::number_at;
use buffers::bit::is_valid;
use checks::columns::check_table;
use tables::column::Column;
use tables::table::{Kind, Table};

// Whether there is such a row, and it is valid.
pub fn has_row(column: &Column<'_>, row: u64) -> bool
    ensures { result ≡ has_row (column_of column.now) row }
{
    let table = column.table;
    if check_table(column).is_err() {
        return false;
    }
    let Kind::VariableBytes = Kind::from(table.kind) else {
        return false;
    };
    if table.rows <= row {
        return false;
    }
    is_valid(column.validity, table.validity_bit as usize, row as usize)
}

// The row's bytes, where they lie, if there is such a row and it is valid.
fn find_row<'a>(
    table: Table,
    data: &'a [u8],
    offsets: &[u8],
    validity: &[u8],
    row: u64,
) -> Option<&'a [u8]>
    ensures { result ≡ row_found «data».entry (column_at table «data».entry offsets.entry validity.entry) row }
{
    let column = Column {
        table,
        data,
        offsets,
        validity,
    };
    if !has_row(&column, row) {
        return None;
    }
    let at = row as usize;
    let width = table.offset_width as usize;
    let from = number_at(offsets, width, at) as usize;
    let to = number_at(offsets, width, at + 1) as usize;
    Some(&data[from..to])
}

// The row's bytes, where they lie; where there is no such row an empty part at the start of the data, and no Option: so the paper has it.
// (The buffers are apart, and no `Column`: of them the data alone has to live as long as the part.)
pub fn read_row<'a>(
    table: Table,
    data: &'a [u8],
    offsets: &[u8],
    validity: &[u8],
    row: u64,
) -> &'a [u8]
    ensures place { result.ref_ptr ≡ place_of (row_start (column_at table «data».entry offsets.entry validity.entry) row) «data».entry.ref_ptr }
    ensures bytes { result.now ≡ read_row (column_at table «data».entry offsets.entry validity.entry) row }
{
    find_row(table, data, offsets, validity, row).unwrap_or(&data[0..0])
}
