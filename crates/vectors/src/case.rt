// A case: a line that gives one or several columns, an index column and, after '=', what the gather answers and writes. It is run through the function that C
// calls, with outputs that have just the room needed and with longer ones; bytes that should be kept are compared like those that should be written.
ghost use Rattle.std.specs.Prelude.{◌≤◌};

use crate::batch::Batch;
use crate::column::Column;
use crate::report::{Difference, Failure, Number, Output};
use crate::text::Fields;
use answers::answer::ANSWER_BYTES;
use std::alloc::{AllocError, Global};

// What the outputs are filled with.
const FILL: u8 = 0xEE;

// The numbers of an answer, in the order that they have in a line and in the answer's bytes.
const NUMBERS: [Number; 4] = [Number::Number, Number::Place, Number::Total, Number::Nulls];

#[derive(Drop)]
enum Columns {
    One(Column),
    Several(Batch),
}

#[derive(Drop)]
pub struct Indices {
    pub width: u64,
    pub count: u64,
    pub validity_bit: u64,
    pub data: Vec<u8>,
    pub validity: Vec<u8>,
}

// What is answered and written.
#[derive(Drop)]
struct Wanted {
    numbers: [u64; 4],
    validity: Vec<u8>,
    offsets: Vec<u8>,
    data: Vec<u8>,
}

#[derive(Drop)]
pub struct Case {
    columns: Columns,
    indices: Indices,
    wanted: Wanted,
}

// What is lent to a call. The answer has eight bytes more than are written.
#[derive(Drop)]
pub struct Outputs {
    pub validity: Vec<u8>,
    pub offsets: Vec<u8>,
    pub data: Vec<u8>,
    pub answer: [u8; 40],
}

impl Indices {
    fn read(alloc: Global, fields: &mut Fields<'_>) -> Result<Indices, Failure> {
        Ok(Indices {
            width: fields.number()?,
            count: fields.number()?,
            validity_bit: fields.number()?,
            data: fields.bytes(alloc)?,
            validity: fields.bytes(alloc)?,
        })
    }
}

impl Wanted {
    fn read(alloc: Global, fields: &mut Fields<'_>) -> Result<Wanted, Failure> {
        Ok(Wanted {
            numbers: [
                fields.number()?,
                fields.number()?,
                fields.number()?,
                fields.number()?,
            ],
            validity: fields.bytes(alloc)?,
            offsets: fields.bytes(alloc)?,
            data: fields.bytes(alloc)?,
        })
    }

    // Lends outputs that have `more` bytes beyond those that are written.
    fn lend(&self, alloc: Global, more: usize) -> Result<Outputs, AllocError>
        requires { more ≤ 16 }
    {
        Ok(Outputs {
            validity: vec![in alloc; FILL; self.validity.len() + more]?,
            offsets: vec![in alloc; FILL; self.offsets.len() + more]?,
            data: vec![in alloc; FILL; self.data.len() + more]?,
            answer: [FILL; 40],
        })
    }

    // Compares what a call returned and wrote.
    fn compare(&self, returned: u64, out: &Outputs) -> Result<(), Difference> {
        compare_number(Number::Number, returned, self.numbers[0])?;
        let (words, _) = out.answer.as_chunks::<8>();
        for ((which, word), want) in NUMBERS.iter().zip(words).zip(&self.numbers) {
            compare_number(*which, u64::from_le_bytes(*word), *want)?;
        }
        compare_bytes(Output::Tail, &out.answer[ANSWER_BYTES..], b"")?;
        compare_bytes(Output::Validity, &out.validity, &self.validity)?;
        compare_bytes(Output::Offsets, &out.offsets, &self.offsets)?;
        compare_bytes(Output::Data, &out.data, &self.data)
    }
}

fn compare_number(which: Number, got: u64, want: u64) -> Result<(), Difference> {
    if got == want {
        Ok(())
    } else {
        Err(Difference::Number { which, got, want })
    }
}

// Compares an output with what should be written; the bytes past that should be as they were.
fn compare_bytes(which: Output, got: &[u8], want: &[u8]) -> Result<(), Difference> {
    for (at, got) in got.iter().copied().enumerate() {
        let want = want.get(at).copied().unwrap_or(FILL);
        if got != want {
            return Err(Difference::Byte {
                which,
                at,
                got,
                want,
            });
        }
    }
    Ok(())
}

impl Case {
    // Reads a line, each field of which is what stands there, and none follows.
    pub fn read(alloc: Global, line: &[u8]) -> Result<Case, Failure> {
        let line = str::from_utf8(line).map_err(|_| Difference::Unreadable)?;
        let arrays = line.strip_prefix("arrays ");
        let mut fields = Fields::new(arrays.unwrap_or(line));
        let columns = match arrays {
            Some(_) => Columns::Several(Batch::read(alloc, &mut fields)?),
            None => Columns::One(Column::read(alloc, &mut fields)?),
        };
        let indices = Indices::read(alloc, &mut fields)?;
        fields.word("=")?;
        let wanted = Wanted::read(alloc, &mut fields)?;
        fields.end()?;
        Ok(Case {
            columns,
            indices,
            wanted,
        })
    }

    fn run_with(&self, alloc: Global, more: usize) -> Result<(), Failure>
        requires { more ≤ 16 }
    {
        let mut out = self.wanted.lend(alloc, more)?;
        let returned = match &self.columns {
            Columns::One(column) => column.take(&self.indices, &mut out),
            Columns::Several(batch) => batch.take(&self.indices, &mut out),
        };
        self.wanted.compare(returned, &out)?;
        Ok(())
    }

    // Runs with outputs that have the room needed, and with outputs that have nine bytes more.
    pub fn run(&self, alloc: Global) -> Result<(), Failure> {
        self.run_with(alloc, 0)?;
        self.run_with(alloc, 9)
    }
}
