// Refusal 7: the bytes that each output needs, against the bytes that are lent.
ghost use Rattle.std.specs.Prelude.{◌≡◌, if◌then◌else◌, ◌≤◌, nat_lt};
ghost use Rattle.tables.specs.Kinds.{kind_of, layout_of};
ghost use Rattle.tables.specs.Answers.{accept, place_of, refuse};
ghost use Rattle.tables.specs.Stages.{checked_numbers};
ghost use Rattle.tables.specs.Refusals.{max_rows};
ghost use Rattle.tables.specs.Bounds.{RowFits, Bounds};
ghost use Rattle.stages.specs.Space.{offset_bytes_for, lengths_for, lengths_refusal};

use kinds::kind::layout_at;
use tables::refusal::{OutputBuffer, Refusal};
use tables::table::{Layout, Lengths, Table};

// (The layout stands beside its table, as in `sizes`. That the count is small is a clause: it is that of the indices, which are not looked at here.)
fn offset_length(layout: Layout, table: Table, count: u64) -> u64
    requires bounds { Bounds layout table }
    requires few { count ≤ max_rows }
    ensures { result ≡ offset_bytes_for layout table.offset_width count }
{
    match layout {
        Layout::FixedWidth(_) | Layout::BitMap => 0,
        Layout::VariableWidth(_) => (count + 1) * table.offset_width,
    }
}

// What `count` rows of a table need, where their data needs `data` bytes.
pub fn needed_lengths(table: Table, count: u64, data: u64) -> Lengths
    requires row_fits { RowFits (kind_of table.kind) table }
    requires bounds { Bounds (layout_of (kind_of table.kind) table.width table.size) table }
    requires few { count ≤ max_rows }
    ensures { result ≡ lengths_for (layout_of (kind_of table.kind) table.width table.size) table.offset_width count «data» }
{
    Lengths {
        validity: count.div_ceil(8),
        offsets: offset_length(layout_at(table), table, count),
        data,
    }
}

// An output that is shorter than it needs to be.
fn check_buffer(buffer: OutputBuffer, needed: u64, lent: u64) -> Result<(), Refusal>
    ensures { checked_numbers result ≡ (if nat_lt lent needed then refuse 7 (place_of buffer) needed else accept) }
{
    if lent < needed {
        return Err(Refusal::Space {
            place: buffer.place(),
            total: needed,
        });
    }
    Ok(())
}

// The first output that is shorter than it needs to be.
#[tactic(auto, unfolding(crate::specs::Space::lengths_refusal))]
pub fn check_space(needed: Lengths, lent: Lengths) -> Result<(), Refusal>
    ensures { checked_numbers result ≡ lengths_refusal needed lent }
{
    check_buffer(OutputBuffer::Validity, needed.validity, lent.validity)?;
    check_buffer(OutputBuffer::Offsets, needed.offsets, lent.offsets)?;
    check_buffer(OutputBuffer::Data, needed.data, lent.data)
}
