// The valid rows of a turn, 32 at most, copied one after the other. Each row is listed: where its entries start in the data, and how many it has. A word has a bit
// for each, and the loop goes from its lowest bit that is set to the next. A null row has no entries, so nothing is done for it, and no branch asks whether a row is
// null. Rows of a few bytes are read and written by 8, but never past the ends of the data and the output. So the caller cuts the data to what the offsets need,
// and the output to what the rows of the turn use. Its length is a clause of each function: it is lent to be written, and `Stretches` holds what is read.
ghost use Rattle.std.specs.Prelude.{◌≡◌, ◌+◌, length};
ghost use Rattle.bits.specs.Sequences.{concat, sum};
ghost use Rattle.rows.specs.Rows.{stretches_at, row_length, row_bytes, written_row, RowThere, RowsThere};

use crate::front::copy_front;

// The rows of a turn, so many: the data, an entry of `unit` bytes, the first entry of each row, and how many it has. Those whose bits are set in the word are in
// the data, and the others have no entries.
#[derive(Clone, Copy)]
pub struct Stretches<'a> {
    pub unit: usize,
    pub data: &'a [u8],
    pub starts: &'a [u32],
    pub lengths: &'a [u32],
    pub word: u32,
    pub rows: usize,
    ghost there: { RowsThere (stretches_at unit «data» starts lengths) word rows },
}

impl Stretches<'_> {
    ghost use Rattle.rows.specs.Lent.{stretches_of};

    // Row t, from byte `at` of the output on; answers where it ends. The bytes before it stay; those after it may become zeros, and are written later.
    fn copy_row(&self, out_data: &mut [u8], t: usize, at: usize) -> usize
        requires { RowThere (stretches_of self.now) (length out_data.old) t at }
        ensures end { result ≡ at + row_length (stretches_of self.now) t }
        ensures data { out_data.new ≡ written_row (stretches_of self.now) t at out_data.old }
    {
        let from = self.starts[t] as usize * self.unit;
        let n = self.lengths[t] as usize * self.unit;
        copy_front(&self.data[from..], n, &mut out_data[at..]);
        at + n
    }

    // All rows. They fill the output.
    pub fn copy_rows(&self, out_data: &mut [u8])
        requires { sum self.now.rows (row_length (stretches_of self.now)) ≡ length out_data.old }
        ensures { out_data.new ≡ concat self.now.rows (row_bytes (stretches_of self.now)) }
    {
        // field by field, and each slice cut anew, so that they lie in registers: a store to the output might change what a reference shows, for all that the compiler
        // knows, and a copy of the whole is a call of `memcpy` on a core without unaligned accesses
        let stretches = Self {
            unit: self.unit,
            data: &self.data[..],
            starts: &self.starts[..],
            lengths: &self.lengths[..],
            word: self.word,
            rows: self.rows,
        };
        let mut left = stretches.word;
        let mut at = 0;
        // A turn goes to the lowest bit that is left, which no range counts, and takes it away.
        while left != 0 {
            let t = left.trailing_zeros() as usize;
            at = stretches.copy_row(out_data, t, at);
            left &= left - 1;
        }
    }
}
