// A column: its seven numbers and three buffers, as they stand in a line.
use crate::case::{Indices, Outputs};
use crate::report::Failure;
use crate::text::Fields;
use hoglidra::export::hoglidra_take;
use std::alloc::Global;

// The kind is the number that stands in the file, which may be that of no kind.
#[derive(Drop)]
pub struct Column {
    kind: u64,
    width: u64,
    size: u64,
    offset_width: u64,
    rows: u64,
    data_bit: u64,
    validity_bit: u64,
    data: Vec<u8>,
    offsets: Vec<u8>,
    validity: Vec<u8>,
}

impl Column {
    pub fn read(alloc: Global, fields: &mut Fields<'_>) -> Result<Column, Failure> {
        Ok(Column {
            kind: fields.number()?,
            width: fields.number()?,
            size: fields.number()?,
            offset_width: fields.number()?,
            rows: fields.number()?,
            data_bit: fields.number()?,
            validity_bit: fields.number()?,
            data: fields.bytes(alloc)?,
            offsets: fields.bytes(alloc)?,
            validity: fields.bytes(alloc)?,
        })
    }

    // Gathers into outputs as they are lent.
    pub fn take(&self, indices: &Indices, out: &mut Outputs) -> u64 {
        hoglidra_take(
            self.kind,
            self.width,
            self.size,
            self.offset_width,
            self.rows,
            self.data_bit,
            self.validity_bit,
            &self.data,
            &self.offsets,
            &self.validity,
            indices.width,
            indices.count,
            indices.validity_bit,
            &indices.data,
            &indices.validity,
            &mut out.validity,
            &mut out.offsets,
            &mut out.data,
            &mut out.answer,
        )
    }
}
