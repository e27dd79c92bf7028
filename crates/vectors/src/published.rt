// A published answer: what the Rust's own kernels wrote. In kinds 1, 2, 5 and 6, where a null row has its place in the data, they leave the column's bytes
// below some nulls; here zeros lie below every one. So the answer is compared with zeros below the nulls of its own validity, and its numbers, validity,
// offsets and valid rows as they were published. In kinds 3 and 4 a null row has no bytes on either side: an answer that has some there is a difference.
// Both are asked of the line's text, so that they are told of a line that is no case, too.
ghost use Rattle.std.specs.Prelude.{◌<◌};

use crate::case::Case;
use crate::report::{Difference, Failure, Tally};
use crate::text::{decimal, digit, field};
use std::alloc::{AllocError, Global};
use tables::table::Kind;

// No published answer is a longer line, so that one is none.
const MOST_LINE: usize = 4096;

// The fields that say what lies below the nulls of an answer.
#[derive(Clone, Copy)]
struct Published<'a> {
    kind: Kind,
    offset_width: u64,
    count: u64,
    validity: &'a [u8],
    offsets: &'a [u8],
    data: &'a [u8],
}

// A digit's value, or 0 where it is none.
fn value(byte: u8) -> u8
    ensures { result < 16 }
{
    digit(byte).unwrap_or(0)
}

// The digit that stands for a value's lowest four bits.
fn digit_of(value: u8) -> u8 {
    let value = value % 16;
    if value < 10 {
        b'0' + value
    } else {
        b'a' + (value - 10)
    }
}

impl<'a> Published<'a> {
    fn new(line: &'a [u8]) -> Published<'a> {
        Published {
            kind: Kind::from(decimal(field(line, 0))),
            offset_width: decimal(field(line, 3)),
            count: decimal(field(line, 11)),
            validity: field(line, 20),
            offsets: field(line, 21),
            data: field(line, 22),
        }
    }

    fn is_valid(&self, row: usize) -> bool {
        let (bytes, _) = self.validity.as_chunks::<2>();
        match bytes.get(row / 8) {
            Some([high, low]) => ((value(*high) * 16 + value(*low)) >> (row % 8)) % 2 == 1,
            None => false,
        }
    }

    // The bits of digit i of the data that are below no null. Of booleans they are those of the validity's own digit i, for the spare bits of both are 0;
    // elsewhere all or none, as the row is valid or not, where all rows have as many digits.
    fn kept_bits(&self, i: usize) -> u8 {
        if self.kind == Kind::Boolean {
            return self.validity.get(i).map_or(0, |byte| value(*byte));
        }
        let each = (self.data.len() as u64).checked_div(self.count);
        match each.and_then(|each| (i as u64).checked_div(each)) {
            Some(row) if self.is_valid(row as usize) => 15,
            _ => 0,
        }
    }

    // The line with zeros below the nulls. The data is its end; what is no digit stays.
    fn zero_nulls(&self, alloc: Global, line: &[u8]) -> Result<Vec<u8>, AllocError> {
        let mut zeroed = line.to_vec(alloc)?;
        if 1 < self.data.len() {
            let before = line.len().saturating_sub(self.data.len());
            for (i, byte) in zeroed.iter_mut().skip(before).enumerate() {
                if let Ok(value) = digit(*byte) {
                    *byte = digit_of(value & self.kept_bits(i));
                }
            }
        }
        Ok(zeroed)
    }

    // Whether a null row of variable length has bytes: whether its two offsets differ.
    fn has_null_bytes(&self) -> bool {
        let digits = if self.offset_width == 4 { 8 } else { 16 };
        let ends = self.offsets.chunks_exact(digits).skip(1);
        self.offsets
            .chunks_exact(digits)
            .zip(ends)
            .enumerate()
            .any(|(row, (start, end))| start != end && !self.is_valid(row))
    }
}

// Runs a published answer. None is of several columns.
pub fn run_published(alloc: Global, line: &[u8], tally: &mut Tally<'_>) -> Result<(), Failure> {
    let answer = Published::new(line);
    let in_place = matches!(
        answer.kind,
        Kind::Primitive | Kind::Boolean | Kind::FixedSizeList | Kind::FixedSizeBinary
    );
    if in_place {
        if MOST_LINE < line.len() {
            return Err(Difference::Unreadable.into());
        }
        let zeroed = answer.zero_nulls(alloc, line)?;
        if &zeroed[..] != line {
            tally.count_zeroed(answer.kind);
        }
        return Case::read(alloc, &zeroed)?.run(alloc);
    }
    if field(line, 0) == b"arrays".as_slice() {
        return Err(Difference::Unreadable.into());
    }
    if answer.has_null_bytes() {
        return Err(Difference::NullBytes.into());
    }
    Case::read(alloc, line)?.run(alloc)
}
