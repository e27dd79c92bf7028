// The offsets and the data of the taken rows, by the kind. What a kind does not write is kept. `out_validity` begins with the validity of the taken rows,
// which is written before; it decides what is copied, for a null row is empty.
ghost use Rattle.std.specs.Prelude.{◌≡◌, if◌then◌else◌, [], ◌≤◌, ◌==◌, length};
ghost use Rattle.bits.specs.Bytes.{part};
ghost use Rattle.bits.specs.Bits.{bytes_for};
ghost use Rattle.tables.specs.Refusals.{max_rows};
ghost use Rattle.tables.specs.Columns.{column_of, index_column_of};
ghost use Rattle.gathers.specs.Taken.{taken};
ghost use Rattle.gathers.specs.Stored.{null_count};
ghost use Rattle.gathers.specs.Ready.{Ready, HasRoom, stored_offsets, stored_data};
ghost use Rattle.gathers.specs.Buffers.{Validates};

use bitmaps::bit::BooleanBuffer;
use blocks::zeros::{ZEROS, Zeros};
use fixed::take::{
    take_boolean, take_fixed_size_binary, take_fixed_size_list_primitive, take_native,
};
use tables::column::{Column, IndexColumn};
use tables::table::{Indices, Kind};
use variable::take::{take_bytes, take_list};

// The bytes that hold the validity of the output rows; none where no row is null. As in an index column, which it becomes, a validity that is absent is empty.
fn shown<'a>(out_validity: &'a [u8], count: u64, nulls: u64) -> &'a [u8]
    requires { (count ≤ max_rows) × (bytes_for count ≤ length out_validity.now) }
    ensures { result.now ≡ (if nulls == 0 then [] else part 0 (bytes_for count) out_validity.now) }
{
    if nulls == 0 {
        return &out_validity[0..0];
    }
    let bytes = count.div_ceil(8) as usize;
    &out_validity[0..bytes]
}

pub fn take_values(
    column: &Column<'_>,
    indices: &IndexColumn<'_>,
    nulls: u64,
    out_validity: &[u8],
    out_offsets: &mut [u8],
    out_data: &mut [u8],
)
    requires ready { Ready (column_of column.now) (index_column_of indices.now) }
    requires has_room { HasRoom (column_of column.now) (index_column_of indices.now) out_offsets.old out_data.old }
    requires nulls { nulls ≡ null_count (taken (column_of column.now) (index_column_of indices.now)) }
    requires validates { Validates column.now.validity.now column.now.table.validity_bit (index_column_of indices.now) out_validity.now }
    ensures offsets_stored { out_offsets.new ≡ stored_offsets (column_of column.now) (index_column_of indices.now) out_offsets.old }
    ensures data_stored { out_data.new ≡ stored_data (column_of column.now) (index_column_of indices.now) out_data.old }
{
    let table = column.table;
    let data = column.data;
    let kind = Kind::from(table.kind);
    let valid = shown(out_validity, indices.indices.count, nulls);
    // the indices with the validity of the output rows in place of their own
    let picks = IndexColumn {
        indices: Indices {
            validity_bit: 0,
            ..indices.indices
        },
        data: indices.data,
        validity: valid,
    };
    // what null rows are copied from: here, and not where they are copied, for the compiler's sake (widths/src/dispatch.rt)
    let zeros = [0u8; ZEROS];
    let zeros = Zeros { bytes: &zeros };
    let width = table.width as usize;
    let size = table.size as usize;
    // an arm for each case of an enum that the format closes: a table of functions would name each of them too
    match kind {
        Kind::Primitive => take_native(data, width, &picks, zeros, out_data),
        Kind::Boolean => {
            let values = BooleanBuffer {
                values: data,
                offset: table.data_bit as usize,
                len: table.rows,
            };
            take_boolean(&values, indices, valid, out_data)
        }
        Kind::VariableBytes => take_bytes(column, indices, out_validity, out_offsets, out_data),
        Kind::List => take_list(column, indices, out_validity, out_offsets, out_data),
        Kind::FixedSizeList => {
            take_fixed_size_list_primitive(data, size, width, &picks, zeros, out_data)
        }
        Kind::FixedSizeBinary => take_fixed_size_binary(data, size, &picks, zeros, out_data),
        // refused by the sizes' test
        Kind::Unknown => unreachable!(),
    }
}
