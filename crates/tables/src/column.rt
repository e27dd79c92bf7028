// A column, an index column and output buffers as they are lent: a description and its buffers, handed on as one value. Functions take a column and an index
// column apart, as Rust's `take(values, indices)` does: a value of both would name nothing that the two do not, and many a test is of one of them.
ghost use Rattle.std.specs.Prelude.{◌≡◌};
ghost use Rattle.tables.specs.Columns.{lengths_at};

use crate::table::{IndexLengths, Indices, Lengths, Table};

// The numbers that stand for three buffers where only their lengths are looked at.
fn lengths(data: &[u8], offsets: &[u8], validity: &[u8]) -> Lengths
    ensures { result ≡ lengths_at «data».now offsets.now validity.now }
{
    Lengths {
        data: data.len() as u64,
        offsets: offsets.len() as u64,
        validity: validity.len() as u64,
    }
}

#[derive(Clone, Copy, Debug, PartialEq, Eq)]
pub struct Column<'a> {
    pub table: Table,
    pub data: &'a [u8],
    pub offsets: &'a [u8],
    pub validity: &'a [u8],
}

impl Column<'_> {
    ghost use Rattle.tables.specs.Columns.{column_of, lengths_of};

    pub fn lengths(&self) -> Lengths
        ensures { result ≡ lengths_of (column_of self.now) }
    {
        lengths(self.data, self.offsets, self.validity)
    }
}

#[derive(Clone, Copy, Debug, PartialEq, Eq)]
pub struct IndexColumn<'a> {
    pub indices: Indices,
    pub data: &'a [u8],
    pub validity: &'a [u8],
}

impl<'a> IndexColumn<'a> {
    ghost use Rattle.tables.specs.Columns.{index_column_of, index_lengths_of, no_indices};

    pub fn lengths(&self) -> IndexLengths
        ensures { result ≡ index_lengths_of (index_column_of self.now) }
    {
        IndexLengths {
            data: self.data.len() as u64,
            validity: self.validity.len() as u64,
        }
    }

    // One that names no row: with it a column is tested by itself.
    pub fn none() -> IndexColumn<'a>
        ensures { index_column_of result ≡ no_indices }
    {
        IndexColumn {
            indices: Indices {
                width: 1,
                count: 0,
                validity_bit: 0,
            },
            data: b"",
            validity: b"",
        }
    }
}

// The three output buffers. Below the entries they are lent on one by one (described/src/column.rt says why).
#[derive(Drop)]
pub struct Output<'a> {
    pub validity: &'a mut [u8],
    pub offsets: &'a mut [u8],
    pub data: &'a mut [u8],
}

impl Output<'_> {
    ghost use Rattle.tables.specs.Columns.{lent_lengths_of};

    pub fn lengths(&self) -> Lengths
        ensures { result ≡ lent_lengths_of self.now }
    {
        lengths(&*self.data, &*self.offsets, &*self.validity)
    }
}
