// The stages over a column that a record describes. Its buffers are parts of the body; they are taken out after the tests of their extents let pass. What a
// description and a body stand for is a `Column`: each stage makes it of the two, so that a test has none to hand back in its `Result`.
ghost use Rattle.std.specs.Prelude.{◌≡◌};
ghost use Rattle.tables.specs.Columns.{index_column_of};
ghost use Rattle.tables.specs.Bodies.{column_in};
ghost use Rattle.tables.specs.Stages.{checked_numbers, sizes_refusal};
ghost use Rattle.gathers.specs.Taken.{taken};
ghost use Rattle.gathers.specs.Stored.{output_at, store};
ghost use Rattle.gathers.specs.Ready.{Ready, NoOverflow};
ghost use Rattle.described.specs.Told.{stated_lengths, through_range, TestedFor, ToldOf};
ghost use Rattle.described.specs.Taken.{taken_of, HasRoomFor};

use crate::column::{Taken, check_column, take_column};
use descriptions::body::{column_in, some_cut};
use kinds::kind::uses_at;
use offsets::check::check_offsets;
use range::bounds::check_bounds;
use sizes::check::check_sizes;
use tables::column::IndexColumn;
use tables::refusal::Refusal;
use tables::table::{Description, Lengths};

// The lengths of the buffers that are used, as stated.
fn stated_lengths(d: Description) -> Lengths
    ensures { result ≡ stated_lengths d }
{
    let uses = uses_at(d.table);
    Lengths {
        data: d.data.len,
        offsets: if uses.offset_width { d.offsets.len } else { 0 },
        validity: d.validity.len,
    }
}

// Refusals 1 to 3, by the lengths that are stated.
fn check_stated(d: Description, body: &[u8], indices: &IndexColumn<'_>) -> Result<(), Refusal>
    ensures { checked_numbers result ≡ sizes_refusal (column_in body.now d) (index_column_of indices.now) }
{
    let cut = some_cut(uses_at(d.table), body.len() as u64, d);
    let lengths = stated_lengths(d);
    check_sizes(d.table, cut, lengths, indices.indices, indices.lengths())
}

// Refusals 1 to 5 by themselves: no length is added up.
pub fn check_rows(d: Description, body: &[u8], indices: &IndexColumn<'_>) -> Result<(), Refusal>
    ensures { checked_numbers result ≡ through_range (column_in body.now d) (index_column_of indices.now) }
{
    check_stated(d, body, indices)?;
    let column = column_in(body, d);
    check_offsets(&column)?;
    check_bounds(column.table.rows, indices).checked
}

// Refusals 1 to 6, and where none is met how many bytes of each output the rows need.
pub fn check_described<'a>(
    d: Description,
    body: &[u8],
    tested: &IndexColumn<'a>,
    indices: &IndexColumn<'a>,
) -> Result<Lengths, Refusal>
    requires { TestedFor (column_in body.now d).table.rows (index_column_of tested.now) (index_column_of indices.now) }
    ensures { ToldOf (column_in body.now d) (index_column_of indices.now) result }
{
    check_stated(d, body, tested)?;
    check_column(&column_in(body, d), tested, indices)
}

pub fn take_described(
    d: Description,
    body: &[u8],
    indices: &IndexColumn<'_>,
    out_validity: &mut [u8],
    out_offsets: &mut [u8],
    out_data: &mut [u8],
) -> Taken
    requires ready { Ready (column_in body.now d) (index_column_of indices.now) }
    requires no_overflow { NoOverflow (column_in body.now d) (index_column_of indices.now) }
    requires has_room_for { HasRoomFor (taken (column_in body.now d) (index_column_of indices.now)) (output_at out_validity.old out_offsets.old out_data.old) }
    ensures told { result ≡ taken_of (taken (column_in body.now d) (index_column_of indices.now)) }
    ensures stored { output_at out_validity.new out_offsets.new out_data.new
        ≡ store (taken (column_in body.now d) (index_column_of indices.now)) (output_at out_validity.old out_offsets.old out_data.old) }
{
    let column = column_in(body, d);
    take_column(&column, indices, out_validity, out_offsets, out_data)
}

#[cfg(test)]
mod tests {
    use super::*;
    use tables::table::{Extent, Indices, Table};

    // Rows of bytes in a body that begins with their offsets, of four bytes each.
    fn rows_of_bytes(rows: u64, len: u64) -> Description {
        let start = rows.saturating_mul(4).saturating_add(4);
        Description {
            table: Table {
                kind: 3,
                offset_width: 4,
                rows,
                ..Table::default()
            },
            data: Extent { start, len },
            offsets: Extent {
                start: 0,
                len: start,
            },
            validity: Extent { start: 0, len: 0 },
        }
    }

    fn naming<'a>(data: &'a [u8], validity: &'a [u8]) -> IndexColumn<'a> {
        let indices = Indices {
            width: 1,
            count: data.len() as u64,
            validity_bit: 0,
        };
        IndexColumn {
            indices,
            data,
            validity,
        }
    }

    #[test]
    fn rows_are_checked_through_the_range(rt: HostRuntime) {
        let body = b"\x00\x00\x00\x00\x02\x00\x00\x00\x03\x00\x00\x00abc";
        let falling = b"\x00\x00\x00\x00\x02\x00\x00\x00\x01\x00\x00\x00abc";
        let both = rows_of_bytes(2, 3);
        let longer = rows_of_bytes(2, 4);
        let unknown = Description {
            table: Table {
                kind: 0,
                ..both.table
            },
            ..both
        };
        let last = naming(b"\x01\x00\x02", b"");
        let null = naming(b"\x01\x00\x02", b"\x03");
        let cut = IndexColumn {
            data: b"\x01\x00",
            ..last
        };
        for (d, body, indices, want) in [
            (both, body, null, Ok(())),
            (both, body, last, Err(Refusal::Range { place: 2 })),
            (both, falling, last, Err(Refusal::Offsets { place: 2 })),
            (longer, falling, last, Err(Refusal::Short)),
            (both, body, cut, Err(Refusal::Short)),
            (unknown, body, cut, Err(Refusal::Kind)),
        ] {
            assert_eq!(rt; check_rows(d, body, &indices), want);
        }
    }

    // 32,768 times one row of 65,536 bytes is 2^31 bytes, one more than an offset of four bytes says.
    #[test]
    fn what_rows_need_is_not_asked(rt: HostRuntime) {
        let mut body = [0; 65544];
        body[6] = 1;
        let d = rows_of_bytes(1, 65536);
        let numbers = [0; 32768];
        let indices = naming(&numbers, b"");
        let overflow = Refusal::Overflow {
            place: 32767,
            total: 2147483648,
        };
        assert_eq!(rt; check_rows(d, &body, &indices), Ok(()));
        assert_eq!(rt;
            check_described(d, &body, &indices, &indices),
            Err(overflow)
        );
    }
}
