// Several columns as they are lent, and the tests of them before any is looked at: how many there are, whether all are described, and whether their row counts
// are equal. Any number and any bytes may be handed in.
ghost use Rattle.std.specs.Prelude.{◌≡◌, List, ℕ, ◌*◌, ◌≤◌, ◌<◌, length};
ghost use Rattle.tables.specs.Answers.{first_of};
ghost use Rattle.tables.specs.Bodies.{record_bytes};
ghost use Rattle.tables.specs.Stages.{checked_numbers};
ghost use Rattle.batches.specs.Batch.{batch_in, batch_lines};
ghost use Rattle.arrays.specs.Told.{records_differ};

use descriptions::record::{RECORD_BYTES, rows_at};
use tables::refusal::Refusal;

// So many columns, a record of each, and the body that their buffers lie in.
#[derive(Clone, Copy)]
pub struct Batch<'a> {
    pub columns: u64,
    pub descriptions: &'a [u8],
    pub body: &'a [u8],
}

const MAX_COLUMNS: u64 = 32;

fn rows_differ(columns: usize, descriptions: &[u8]) -> bool
    requires some_columns { 0 < columns }
    requires records_there { columns * record_bytes ≤ length descriptions.now }
    ensures { result ≡ records_differ columns descriptions.now }
{
    let rows = rows_at(descriptions, 0);
    for i in 0..columns {
        if rows_at(descriptions, i) != rows {
            return true;
        }
    }
    false
}

// What lies in the body is not looked at.
pub fn check_batch(batch: &Batch<'_>) -> Result<(), Refusal>
    ensures { (body : List ℕ) → checked_numbers result ≡ first_of (batch_lines (batch_in batch.now.columns batch.now.descriptions.now body)) }
{
    let columns = batch.columns;
    let descriptions = batch.descriptions;
    // two tests: past one of both, joined by `||`, it would not be known that the product below fits
    if columns == 0 {
        return Err(Refusal::Limit);
    }
    if columns > MAX_COLUMNS {
        return Err(Refusal::Limit);
    }
    if (descriptions.len() as u64) < columns * RECORD_BYTES as u64 {
        return Err(Refusal::Short);
    }
    if rows_differ(columns as usize, descriptions) {
        return Err(Refusal::Rows);
    }
    Ok(())
}
