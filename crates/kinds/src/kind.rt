// The fields that a kind uses, its layout, and the widths that are listed. Every number may be any.
ghost use Rattle.std.specs.Prelude.{◌≡◌};
ghost use Rattle.tables.specs.Kinds.{kind_of, uses_of, layout_of, is_width, is_offset_width, is_index_width};
ghost use Rattle.tables.specs.Bounds.{RowFits};

use tables::table::{Kind, Layout, Table, Uses};

// The paper's table of fields used.
pub fn uses_of(kind: Kind) -> Uses
    ensures { result ≡ uses_of kind }
{
    let known = Uses {
        known: true,
        ..Uses::default()
    };
    match kind {
        Kind::Primitive => Uses {
            width: true,
            ..known
        },
        Kind::Boolean => Uses {
            data_bit: true,
            ..known
        },
        Kind::VariableBytes => Uses {
            offset_width: true,
            ..known
        },
        Kind::List => Uses {
            width: true,
            offset_width: true,
            ..known
        },
        Kind::FixedSizeList => Uses {
            width: true,
            size: true,
            ..known
        },
        Kind::FixedSizeBinary => Uses {
            size: true,
            ..known
        },
        Kind::Unknown => Uses::default(),
    }
}

// Those that a table uses.
pub fn uses_at(t: Table) -> Uses
    ensures { result ≡ uses_of (kind_of t.kind) }
{
    uses_of(Kind::from(t.kind))
}

// The layout of a kind, which stands beside its table as in the definition. Only the row of a list of fixed size is a product.
pub fn layout_of(kind: Kind, t: Table) -> Layout
    requires { RowFits kind t }
    ensures { result ≡ layout_of kind t.width t.size }
{
    match kind {
        Kind::Primitive => Layout::FixedWidth(t.width),
        Kind::Boolean => Layout::BitMap,
        Kind::VariableBytes => Layout::VariableWidth(1),
        Kind::List => Layout::VariableWidth(t.width),
        Kind::FixedSizeList => Layout::FixedWidth(t.size * t.width),
        Kind::FixedSizeBinary => Layout::FixedWidth(t.size),
        Kind::Unknown => Layout::FixedWidth(0),
    }
}

// That of a table.
pub fn layout_at(t: Table) -> Layout
    requires { RowFits (kind_of t.kind) t }
    ensures { result ≡ layout_of (kind_of t.kind) t.width t.size }
{
    layout_of(Kind::from(t.kind), t)
}

pub fn is_width(w: u64) -> bool
    ensures { result ≡ is_width w }
{
    matches!(w, 1 | 2 | 4 | 8 | 16 | 32)
}

pub fn is_offset_width(w: u64) -> bool
    ensures { result ≡ is_offset_width w }
{
    matches!(w, 4 | 8)
}

pub fn is_index_width(w: u64) -> bool
    ensures { result ≡ is_index_width w }
{
    matches!(w, 1 | 2 | 4 | 8)
}
