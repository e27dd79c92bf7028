// Refusals 1, 2 and 3: kinds and widths, limits, and the lengths of buffers. Every number may be any: products are made only
// after the tests that bound them. Kinds and layouts stand beside the table that they are of, as in the definitions: each is found once.
// Tests are joined by `|` and `&`: with `||` and `&&` 40 rows of kind 4 with nulls took 336 instructions each on x86-64 in place of 320.
ghost use Rattle.std.specs.Prelude.{◌≡◌, false, ◌+◌, ◌≤◌};
ghost use Rattle.bits.specs.Bits.{bytes_for};
ghost use Rattle.tables.specs.Columns.{column_of, index_column_of};
ghost use Rattle.tables.specs.Stages.{checked_numbers, stated_refusal, sizes_refusal};
ghost use Rattle.tables.specs.Refusals.{max_rows, max_bit, bad_kind, used_over_limit, validity_over_limit, over_limit};
ghost use Rattle.tables.specs.Refusals.{data_short, validity_short, too_short, index_over_limit, index_too_short};
ghost use Rattle.tables.specs.Bounds.{Bounds, IndexBounds};

use kinds::kind::{is_index_width, is_offset_width, is_width, layout_of, uses_of};
use tables::column::{Column, IndexColumn};
use tables::refusal::Refusal;
use tables::table::{IndexLengths, Indices, Kind, Layout, Lengths, Table};

const MAX_ROWS: u64 = 1_048_576;

const MAX_BYTES: u64 = 16_777_216;

const MAX_SIZE: u64 = 65_536;

const MAX_BIT: u64 = 7;

fn bad_kind(kind: Kind, t: Table) -> bool
    ensures { result ≡ bad_kind kind t }
{
    let uses = uses_of(kind);
    !uses.known
        | (uses.width & !is_width(t.width))
        | (uses.offset_width & !is_offset_width(t.offset_width))
}

fn used_over_limit(kind: Kind, t: Table, offsets: u64) -> bool
    ensures { result ≡ used_over_limit kind t offsets }
{
    let uses = uses_of(kind);
    (uses.size & (t.size > MAX_SIZE))
        | (uses.offset_width & (offsets > MAX_BYTES))
        | (uses.data_bit & (t.data_bit > MAX_BIT))
}

fn validity_over_limit(bytes: u64, bit: u64) -> bool
    ensures { result ≡ validity_over_limit bytes bit }
{
    (bytes > MAX_BYTES) | ((bytes != 0) & (bit > MAX_BIT))
}

fn over_limit(kind: Kind, t: Table, n: Lengths) -> bool
    ensures { result ≡ over_limit kind t n }
{
    (t.rows > MAX_ROWS)
        | (n.data > MAX_BYTES)
        | validity_over_limit(n.validity, t.validity_bit)
        | used_over_limit(kind, t, n.offsets)
}

fn index_over_limit(x: Indices, n: IndexLengths) -> bool
    ensures { result ≡ index_over_limit x n }
{
    (x.count > MAX_ROWS) | (n.data > MAX_BYTES) | validity_over_limit(n.validity, x.validity_bit)
}

fn data_short(layout: Layout, t: Table, data: u64, offsets: u64) -> bool
    requires { Bounds layout t }
    ensures { result ≡ data_short layout t «data» offsets }
{
    match layout {
        Layout::FixedWidth(n) => data < t.rows * n,
        Layout::BitMap => data < (t.data_bit + t.rows).div_ceil(8),
        Layout::VariableWidth(_) => offsets < (t.rows + 1) * t.offset_width,
    }
}

// An absent validity is never short, and its bit offset may be any number.
fn validity_short(bytes: u64, bit: u64, rows: u64) -> bool
    requires few_rows { rows ≤ max_rows }
    requires within_limit { validity_over_limit bytes bit ≡ false }
    ensures { result ≡ validity_short bytes bit rows }
{
    bytes != 0 && bytes < (bit + rows).div_ceil(8)
}

fn too_short(layout: Layout, t: Table, n: Lengths) -> bool
    requires bounds { Bounds layout t }
    requires validity_within_limit { validity_over_limit n.validity t.validity_bit ≡ false }
    ensures { result ≡ too_short layout t n }
{
    data_short(layout, t, n.data, n.offsets) | validity_short(n.validity, t.validity_bit, t.rows)
}

fn index_too_short(x: Indices, n: IndexLengths) -> bool
    requires index_bounds { IndexBounds x }
    requires validity_within_limit { validity_over_limit n.validity x.validity_bit ≡ false }
    ensures { result ≡ index_too_short x n }
{
    (n.data < x.count * x.width) | validity_short(n.validity, x.validity_bit, x.count)
}

// Refusals 1, 2 and 3 of two descriptions with the lengths of their buffers; `cut` says that a buffer of the table ends past the slice that it lies in.
// Each test is put to both before the next.
#[tactic(auto, using(tables::proofs::Bounds::bounds), unfolding(tables::specs::Stages::stated_refusal))]
pub fn check_sizes(
    table: Table,
    cut: bool,
    n: Lengths,
    indices: Indices,
    m: IndexLengths,
) -> Result<(), Refusal>
    ensures { checked_numbers result ≡ stated_refusal table cut n indices m }
{
    let kind = Kind::from(table.kind);
    if bad_kind(kind, table) | !is_index_width(indices.width) {
        return Err(Refusal::Kind);
    }
    if over_limit(kind, table, n) | index_over_limit(indices, m) {
        return Err(Refusal::Limit);
    }
    let layout = layout_of(kind, table);
    if cut | too_short(layout, table, n) | index_too_short(indices, m) {
        return Err(Refusal::Short);
    }
    Ok(())
}

// Those of a column and an index column as they are lent: no buffer is cut, for each is lent by itself.
pub fn check_lent(column: &Column<'_>, indices: &IndexColumn<'_>) -> Result<(), Refusal>
    ensures { checked_numbers result ≡ sizes_refusal (column_of column.now) (index_column_of indices.now) }
{
    check_sizes(
        column.table,
        false,
        column.lengths(),
        indices.indices,
        indices.lengths(),
    )
}
