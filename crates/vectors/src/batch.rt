// Several columns: how many they are, the length of their descriptions, these as records of 13 words, and the body. There are as many records as the
// descriptions touch, and a bar stands before each and before the body.
use crate::case::{Indices, Outputs};
use crate::report::{Difference, Failure};
use crate::text::Fields;
use descriptions::record::RECORD_BYTES;
use hoglidra_arrays::export::hoglidra_take_arrays;
use std::alloc::Global;

// The most bytes that the descriptions have: 33 records, one more than a call may have.
const MOST: usize = 33 * RECORD_BYTES;

#[derive(Drop)]
pub struct Batch {
    columns: u64,
    descriptions: Vec<u8>,
    body: Vec<u8>,
}

impl Batch {
    pub fn read(alloc: Global, fields: &mut Fields<'_>) -> Result<Batch, Failure> {
        let columns = fields.number()?;
        let descriptions = read_descriptions(alloc, fields)?;
        fields.word("|")?;
        Ok(Batch {
            columns,
            descriptions,
            body: fields.bytes(alloc)?,
        })
    }

    // Gathers into outputs as they are lent.
    pub fn take(&self, indices: &Indices, out: &mut Outputs) -> u64 {
        hoglidra_take_arrays(
            self.columns,
            &self.descriptions,
            &self.body,
            indices.width,
            indices.count,
            indices.validity_bit,
            &indices.data,
            &indices.validity,
            &mut out.validity,
            &mut out.offsets,
            &mut out.data,
            &mut out.answer,
        )
    }
}

// The records, of which the call does not get what is past their length.
fn read_descriptions(alloc: Global, fields: &mut Fields<'_>) -> Result<Vec<u8>, Failure> {
    let len = fields.number()?;
    if (MOST as u64) < len {
        return Err(Difference::Unreadable.into());
    }
    let mut descriptions = Vec::new(alloc);
    for _ in 0..len.div_ceil(RECORD_BYTES as u64) {
        fields.word("|")?;
        for _ in 0..RECORD_BYTES / 8 {
            descriptions.extend_from_slice(&fields.number()?.to_le_bytes())?;
        }
    }
    descriptions.truncate(len as usize);
    Ok(descriptions)
}
