// The buffers of a column, as parts of the body that they lie in. Every number of an extent may be any, and its end may be past what 64 bits hold: it is
// added up only once it is known to lie in the body.
ghost use Rattle.std.specs.Prelude.{◌≡◌, true, false, if◌then◌else◌, [], length};
ghost use Rattle.tables.specs.Columns.{column_of};
ghost use Rattle.tables.specs.Bodies.{extent_of, is_cut, some_cut, column_in};

use kinds::kind::uses_at;
use tables::column::Column;
use tables::table::{Description, Extent, Uses};

fn is_cut(bytes: u64, extent: Extent) -> bool
    ensures { result ≡ is_cut bytes extent }
{
    if extent.start > bytes {
        return extent.len != 0;
    }
    extent.len > bytes - extent.start
}

// Whether a buffer that the column uses ends past a body of so many bytes.
pub fn some_cut(uses: Uses, bytes: u64, d: Description) -> bool
    ensures { result ≡ some_cut uses bytes d }
{
    is_cut(bytes, d.data)
        || is_cut(bytes, d.validity)
        || uses.offset_width && is_cut(bytes, d.offsets)
}

// The bytes of an extent. An empty one may start anywhere, also past the body.
pub fn buffer<'a>(body: &'a [u8], extent: Extent) -> &'a [u8]
    requires { is_cut (length body.now) extent ≡ false }
    ensures { result.now ≡ extent_of body.now extent }
{
    if extent.len == 0 {
        return &body[0..0];
    }
    let start = extent.start as usize;
    let end = start + extent.len as usize;
    &body[start..end]
}

// Offsets that the kind does not use are none, whatever is stated of them.
pub fn offsets_buffer<'a>(uses: Uses, body: &'a [u8], extent: Extent) -> &'a [u8]
    requires { uses.offset_width ≡ true → is_cut (length body.now) extent ≡ false }
    ensures { result.now ≡ (if uses.offset_width then extent_of body.now extent else []) }
{
    if uses.offset_width {
        return buffer(body, extent);
    }
    &body[0..0]
}

// The column that d describes.
#[tactic(auto, unfolding(tables::specs::Bodies::column_in))]
pub fn column_in<'a>(body: &'a [u8], d: Description) -> Column<'a>
    requires { (column_in body.now d).cut ≡ false }
    ensures { column_of result ≡ column_in body.now d }
{
    Column {
        table: d.table,
        data: buffer(body, d.data),
        offsets: offsets_buffer(uses_at(d.table), body, d.offsets),
        validity: buffer(body, d.validity),
    }
}
