// The rows of a column of variable width, gathered. `take_bytes` and `take_list` are one line each over `take_variable`, and have the Rust's names. `Shown` and
// `Stretches` have the numbers alone of the index column: its validity is in that of the output, and `lengths` and `rows` know of no tables.
// In turns of 32 rows: first the rows are listed and their offsets written, in a loop without a branch, for a null row has no entries and its offset repeats. Then
// the bytes of the valid ones are copied, as they are listed. A wrong guess of a branch costs more than the second loop; and a loop that reads index and offset alone
// has as many rows in flight as the core can, where one that also copies would wait for each in turn. The columns are two parameters, as in Rust's
// `take(values, indices)`. The outputs are parameters of each function, for what comes back in a struct of `&mut`s that is handed on whole is not proved.
ghost use Rattle.std.specs.Prelude.{◌≡◌};
ghost use Rattle.tables.specs.Columns.{column_of, index_column_of};
ghost use Rattle.gathers.specs.Ready.{stored_offsets, stored_data};
ghost use Rattle.variable.specs.Ready.{VariableReady};

use bits::number::{number_at, put_number_at};
use lengths::turn::{Shown, TURN};
use rows::row::Stretches;
use tables::column::{Column, IndexColumn};

// The offsets and the bytes of the rows, where an offset has OW bytes and an entry `unit`. `out_validity` is the validity of the output rows, as it is
// written. The validity of the rows and of the indices is not read again. The data is needed up to the last offset.
fn take_variable_at<const OW: usize>(
    column: &Column<'_>,
    indices: &IndexColumn<'_>,
    unit: u64,
    out_validity: &[u8],
    out_offsets: &mut [u8],
    out_data: &mut [u8],
)
    requires ready { VariableReady unit (column_of column.now) (index_column_of indices.now) out_validity.now out_offsets.old out_data.old }
    requires offset_width { column.now.table.offset_width ≡ OW }
    ensures offsets_stored { out_offsets.new ≡ stored_offsets (column_of column.now) (index_column_of indices.now) out_offsets.old }
    ensures data_stored { out_data.new ≡ stored_data (column_of column.now) (index_column_of indices.now) out_data.old }
{
    let offsets = column.offsets;
    let count = indices.indices.count as usize;
    let shown = Shown::<OW> {
        offsets,
        index_width: indices.indices.width as usize,
        index_data: indices.data,
        out_validity,
        count,
    };
    let unit = unit as usize;
    let needed = number_at(offsets, OW, column.table.rows as usize) as usize * unit;
    let data = &column.data[..needed];
    let mut starts = [0; TURN];
    let mut lengths = [0; TURN];
    let mut total = 0;
    put_number_at(out_offsets, OW, 0, total);
    for k in 0..count.div_ceil(TURN) {
        let turn = shown.turn_at(k);
        let after = shown.list_turn(turn, total, &mut starts, &mut lengths, out_offsets);
        let stretches = Stretches {
            unit,
            data,
            starts: &starts,
            lengths: &lengths,
            word: turn.word,
            rows: turn.rows,
        };
        stretches.copy_rows(&mut out_data[total as usize * unit..after as usize * unit]);
        total = after;
    }
}

// The same at the column's own offset width: a number that is known at run time comes to a const parameter only by the arm of a `match`.
fn take_variable(
    column: &Column<'_>,
    indices: &IndexColumn<'_>,
    unit: u64,
    out_validity: &[u8],
    out_offsets: &mut [u8],
    out_data: &mut [u8],
)
    requires { VariableReady unit (column_of column.now) (index_column_of indices.now) out_validity.now out_offsets.old out_data.old }
    ensures offsets_stored { out_offsets.new ≡ stored_offsets (column_of column.now) (index_column_of indices.now) out_offsets.old }
    ensures data_stored { out_data.new ≡ stored_data (column_of column.now) (index_column_of indices.now) out_data.old }
{
    match column.table.offset_width {
        4 => {
            take_variable_at::<4>(column, indices, unit, out_validity, out_offsets, out_data);
        }
        _ => {
            take_variable_at::<8>(column, indices, unit, out_validity, out_offsets, out_data);
        }
    }
}

// Rust's `take_bytes`: an entry is a byte.
pub fn take_bytes(
    column: &Column<'_>,
    indices: &IndexColumn<'_>,
    out_validity: &[u8],
    out_offsets: &mut [u8],
    out_data: &mut [u8],
)
    requires { VariableReady 1 (column_of column.now) (index_column_of indices.now) out_validity.now out_offsets.old out_data.old }
    ensures offsets_stored { out_offsets.new ≡ stored_offsets (column_of column.now) (index_column_of indices.now) out_offsets.old }
    ensures data_stored { out_data.new ≡ stored_data (column_of column.now) (index_column_of indices.now) out_data.old }
{
    take_variable(column, indices, 1, out_validity, out_offsets, out_data);
}

// Rust's `take_list`: an entry is a child element.
pub fn take_list(
    column: &Column<'_>,
    indices: &IndexColumn<'_>,
    out_validity: &[u8],
    out_offsets: &mut [u8],
    out_data: &mut [u8],
)
    requires { VariableReady column.now.table.width (column_of column.now) (index_column_of indices.now) out_validity.now out_offsets.old out_data.old }
    ensures offsets_stored { out_offsets.new ≡ stored_offsets (column_of column.now) (index_column_of indices.now) out_offsets.old }
    ensures data_stored { out_data.new ≡ stored_data (column_of column.now) (index_column_of indices.now) out_data.old }
{
    take_variable(
        column,
        indices,
        column.table.width,
        out_validity,
        out_offsets,
        out_data,
    );
}
