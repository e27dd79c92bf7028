// The taken values of the columns of fixed width. The indices of blocks come with the validity of the output rows in place of their own: where a row is
// null, zeros are written, whether its index or the row that it names is null. The Rust writes what lies below the null there. The zeros are what null
// rows are copied from. Of a column of blocks its data and the size of a block are read, which are handed on as they are: what else a `Column` has would
// go unread, and `Blocked` relates them to the indices and the output all the same. The functions below `take_native` are thin, and have the Rust's names.
ghost use Rattle.std.specs.Prelude.{◌≡◌, true, ◌*◌, ◌≤◌, length};
ghost use Rattle.bits.specs.Bytes.{overwrite};
ghost use Rattle.bits.specs.Bits.{bytes_for, is_absent};
ghost use Rattle.tables.specs.Columns.{index_column_of};
ghost use Rattle.gathers.specs.Ready.{InRange};
ghost use Rattle.bitmaps.specs.Reach.{taken_bits, MaskThere};
ghost use Rattle.fixed.specs.Blocked.{Blocked, taken_blocks};

use bitmaps::bit::BooleanBuffer;
use blocks::valid::NullBuffer;
use blocks::zeros::Zeros;
use tables::column::IndexColumn;
use widths::dispatch::{all_by_width, valid_by_width};

// Rust's `take_native`: rows of `width` bytes.
pub fn take_native(
    data: &[u8],
    width: usize,
    indices: &IndexColumn<'_>,
    zeros: Zeros<'_>,
    out_data: &mut [u8],
)
    requires { Blocked width (index_column_of indices.now) «data».now out_data.old }
    ensures { out_data.new ≡ overwrite (taken_blocks width «data».now (index_column_of indices.now)) out_data.old }
{
    let w = indices.indices.width;
    let count = indices.indices.count as usize;
    if indices.validity.is_empty() {
        all_by_width(data, width, w, count, indices.data, out_data);
        return;
    }
    valid_by_width(
        data,
        width,
        w,
        count,
        indices.data,
        NullBuffer {
            bytes: indices.validity,
        },
        zeros,
        out_data,
    );
}

// Rust's `take_fixed_size_binary`: rows of `size` bytes.
pub fn take_fixed_size_binary(
    data: &[u8],
    size: usize,
    indices: &IndexColumn<'_>,
    zeros: Zeros<'_>,
    out_data: &mut [u8],
)
    requires { Blocked size (index_column_of indices.now) «data».now out_data.old }
    ensures { out_data.new ≡ overwrite (taken_blocks size «data».now (index_column_of indices.now)) out_data.old }
{
    take_native(data, size, indices, zeros, out_data);
}

// Rust's `take_fixed_size_list_primitive`: rows of `size` child elements of `width` bytes.
pub fn take_fixed_size_list_primitive(
    data: &[u8],
    size: usize,
    width: usize,
    indices: &IndexColumn<'_>,
    zeros: Zeros<'_>,
    out_data: &mut [u8],
)
    requires { Blocked (size * width) (index_column_of indices.now) «data».now out_data.old }
    ensures { out_data.new ≡ overwrite (taken_blocks (size * width) «data».now (index_column_of indices.now)) out_data.old }
{
    take_native(data, size * width, indices, zeros, out_data);
}

// Rust's `take_boolean`: rows of one bit. The indices come with their own validity, and the mask is that of the output.
pub fn take_boolean(
    values: &BooleanBuffer<'_>,
    indices: &IndexColumn<'_>,
    mask: &[u8],
    out_data: &mut [u8],
)
    requires in_range { InRange values.now.len (index_column_of indices.now) }
    requires some { is_absent values.now.values.now ≡ true → values.now.len ≡ 0 }
    requires mask_there { MaskThere indices.now.indices.count mask.now }
    requires room { bytes_for indices.now.indices.count ≤ length out_data.old }
    ensures { out_data.new ≡ overwrite (taken_bits values.now.values.now values.now.offset (index_column_of indices.now) mask.now) out_data.old }
{
    values.take_bits(indices, mask, out_data);
}
