// A column's description, read from its record of 13 words. Each word is one load.
ghost use Rattle.std.specs.Prelude.{◌≡◌, ◌+◌, ◌*◌, ◌≤◌, ◌<◌, length};
ghost use Rattle.bits.specs.Numbers.{number_at};
ghost use Rattle.tables.specs.Bodies.{extent, record_words, record_bytes, described, described_at};

use bits::number::read_number;
use tables::table::{Description, Extent, Table};

// 13 words of eight bytes.
pub const RECORD_BYTES: usize = 104;

// The words of a record, and what may lie after them.
#[derive(Clone, Copy)]
struct Record<'a> {
    words: &'a [u8],
    ghost whole: { record_bytes ≤ length words.now },
}

impl Record<'_> {
    fn word(&self, j: usize) -> u64
        requires { j < record_words }
        ensures { result ≡ number_at 8 self.now.words.now j }
    {
        read_number::<8>(self.words, j * 8)
    }

    // The extent whose start is word j.
    fn extent_at(&self, j: usize) -> Extent
        requires { j + 1 < record_words }
        ensures { result ≡ extent (number_at 8 self.now.words.now j) (number_at 8 self.now.words.now (j + 1)) }
    {
        Extent {
            start: self.word(j),
            len: self.word(j + 1),
        }
    }

    fn description(&self) -> Description
        ensures { result ≡ described (number_at 8 self.now.words.now) }
    {
        Description {
            table: Table {
                kind: self.word(0),
                width: self.word(1),
                size: self.word(2),
                offset_width: self.word(3),
                rows: self.word(4),
                data_bit: self.word(5),
                validity_bit: self.word(6),
            },
            data: self.extent_at(7),
            offsets: self.extent_at(9),
            validity: self.extent_at(11),
        }
    }
}

// Record i. (By its number: of a slice that `chunks_exact` gives, each of three loops would have to show again that it is the record of column i.)
pub fn describe(descriptions: &[u8], i: usize) -> Description
    requires { (i + 1) * record_bytes ≤ length descriptions.now }
    ensures { result ≡ described_at descriptions.now i }
{
    let record = Record {
        words: &descriptions[i * RECORD_BYTES..],
    };
    record.description()
}

// The rows alone, for a caller that needs nothing else of the record.
pub fn rows_at(descriptions: &[u8], i: usize) -> u64
    requires { (i + 1) * record_bytes ≤ length descriptions.now }
    ensures { result ≡ (described_at descriptions.now i).table.rows }
{
    let record = Record {
        words: &descriptions[i * RECORD_BYTES..],
    };
    record.word(4)
}
