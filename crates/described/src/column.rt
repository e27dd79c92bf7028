// One column: its tests through overflow, after those of its sizes, and the writing of its rows, which tells how far the outputs are used. The rows of a next
// column go on from there.
ghost use Rattle.std.specs.Prelude.{◌≡◌, true};
ghost use Rattle.tables.specs.Columns.{column_of, index_column_of};
ghost use Rattle.tables.specs.Answers.{passes};
ghost use Rattle.tables.specs.Refusals.{index_refusal};
ghost use Rattle.tables.specs.Bounds.{Sized};
ghost use Rattle.gathers.specs.Taken.{taken};
ghost use Rattle.gathers.specs.Stored.{output_at, store};
ghost use Rattle.gathers.specs.Ready.{Ready, NoOverflow};
ghost use Rattle.described.specs.Told.{MeasuredOf, RestToldOf, TestedFor};
ghost use Rattle.described.specs.Taken.{taken_of, data_in, OffsetsIn, HasRoomFor};

use bitmaps::bit::BooleanBuffer;
use bits::number::number_at;
use kinds::kind::layout_at;
use nulls::null::take_nulls;
use offsets::check::check_offsets;
use range::bounds::check_bounds;
use stages::measure::measure;
use stages::space::needed_lengths;
use stages::values::take_values;
use tables::column::{Column, IndexColumn};
use tables::refusal::Refusal;
use tables::table::{Layout, Lengths};

// How many bytes of each output the rows took, and how many rows are null.
#[derive(Clone, Copy)]
pub struct Taken {
    pub needed: Lengths,
    pub nulls: u64,
}

// Refusal 6 of a column that passed those before, and where it is not met how many bytes of each output the rows need.
pub fn measure_column(column: &Column<'_>, indices: &IndexColumn<'_>) -> Result<Lengths, Refusal>
    requires { Ready (column_of column.now) (index_column_of indices.now) }
    ensures { MeasuredOf (column_of column.now) (index_column_of indices.now) result }
{
    let total = measure(column, indices)?;
    Ok(needed_lengths(column.table, indices.indices.count, total))
}

// The tests that are left after refusals 1 to 3, through overflow, and where none refuses how many bytes of each output the rows need. The range is tested of
// the index column that refusals 1 to 3 were tested of.
pub fn check_column<'a>(
    column: &Column<'_>,
    tested: &IndexColumn<'a>,
    indices: &IndexColumn<'a>,
) -> Result<Lengths, Refusal>
    requires sized { Sized (column_of column.now) }
    requires tested_for { TestedFor column.now.table.rows (index_column_of tested.now) (index_column_of indices.now) }
    requires index_passes { passes (index_refusal (index_column_of tested.now)) ≡ true }
    ensures { RestToldOf (column_of column.now) (index_column_of indices.now) result }
{
    check_offsets(column)?;
    check_bounds(column.table.rows, tested).checked?;
    measure_column(column, indices)
}

// The data bytes of so many rows that are written; of variable width the last offset tells them, and no length is added up again. (Its other arms are those
// of `measure`: a function of the two would be three lines more than they are.)
fn data_written(layout: Layout, offset_width: u64, count: u64, out_offsets: &[u8]) -> u64
    requires { OffsetsIn layout offset_width count out_offsets.now }
    ensures { result ≡ data_in layout offset_width count out_offsets.now }
{
    match layout {
        Layout::FixedWidth(n) => count * n,
        Layout::BitMap => count.div_ceil(8),
        Layout::VariableWidth(unit) => {
            number_at(out_offsets, offset_width as usize, count as usize) * unit
        }
    }
}

// The outputs are lent one by one here and below: of a tail that is lent on in a struct it is not proved what comes back (tried by value, by `&mut`, and taken
// apart and built again).
pub fn take_column(
    column: &Column<'_>,
    indices: &IndexColumn<'_>,
    out_validity: &mut [u8],
    out_offsets: &mut [u8],
    out_data: &mut [u8],
) -> Taken
    requires ready { Ready (column_of column.now) (index_column_of indices.now) }
    requires no_overflow { NoOverflow (column_of column.now) (index_column_of indices.now) }
    requires has_room_for { HasRoomFor (taken (column_of column.now) (index_column_of indices.now)) (output_at out_validity.old out_offsets.old out_data.old) }
    ensures told { result ≡ taken_of (taken (column_of column.now) (index_column_of indices.now)) }
    ensures stored { output_at out_validity.new out_offsets.new out_data.new
        ≡ store (taken (column_of column.now) (index_column_of indices.now)) (output_at out_validity.old out_offsets.old out_data.old) }
{
    let table = column.table;
    let validity = BooleanBuffer {
        values: column.validity,
        offset: table.validity_bit as usize,
        len: table.rows,
    };
    let nulls = take_nulls(&validity, indices, out_validity);
    take_values(column, indices, nulls, out_validity, out_offsets, out_data);
    let written = data_written(
        layout_at(table),
        table.offset_width,
        indices.indices.count,
        out_offsets,
    );
    let needed = needed_lengths(table, indices.indices.count, written);
    Taken { needed, nulls }
}
