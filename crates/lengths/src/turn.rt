// The rows of a turn, 32 at most, once their validity is written: where the entries of each start in the data, how many it has, and the offsets of the output,
// the running totals. One pass lists all three for whoever copies the entries, so that a row's index and its offsets are read once.
ghost use Rattle.std.specs.Prelude.{◌≡◌, true, ◌*◌, ◌<◌};
ghost use Rattle.bits.specs.Bits.{bit_value, bit_of};
ghost use Rattle.lengths.specs.Entries.{shown_at};
ghost use Rattle.lengths.specs.Totals.{ShownThere};
ghost use Rattle.lengths.specs.Turns.{TurnAt, AllValid, ListReady, Listed};

use crate::row::{MaskedRow, stretch_of};
use bits::number::{number_at, ones, put_number_at};
use buffers::bit::word_at;

// How many rows a turn has: as many as a word has bits.
pub const TURN: usize = 32;

// What the output rows are read by once their validity is written: the offsets of the rows, of OW bytes, the indices, and that validity. All that is read
// is there.
#[derive(Clone, Copy)]
pub struct Shown<'a, const OW: usize> {
    pub offsets: &'a [u8],
    pub index_width: usize,
    pub index_data: &'a [u8],
    pub out_validity: &'a [u8],
    pub count: usize,
    ghost there: { ShownThere (shown_at OW offsets index_width index_data out_validity) count },
}

// So many output rows from row `base` on, and a bit of the word for each, which says whether it is valid.
#[derive(Clone, Copy)]
pub struct Turn {
    pub base: usize,
    pub rows: usize,
    pub word: u32,
}

// Bit i of a word as a number; 1 at once, if ALL says that it is set.
fn bit_in<const ALL: bool>(word: u32, i: usize) -> usize
    requires few { i < 32 }
    requires all { ALL ≡ true → bit_of word i ≡ true }
    ensures { result ≡ bit_value (bit_of word i) }
{
    if ALL {
        return 1;
    }
    (word >> i) as usize & 1
}

impl<const OW: usize> Shown<'_, OW> {
    ghost use Rattle.lengths.specs.Lent.{shown_of};

    // Turn k: its rows, and the word of their validity.
    pub fn turn_at(&self, k: usize) -> Turn
        requires { 32 * k < self.now.count }
        ensures { TurnAt (shown_of OW self.now) self.now.count k result }
    {
        let base = TURN * k;
        let rows = (self.count - base).min(TURN);
        Turn {
            base,
            rows,
            word: word_at(self.out_validity, base, rows),
        }
    }

    // The rows of a turn, by numbers of W bytes; of all of them valid, if ALL says so. A null row is masked, and has no entries.
    fn list_rows<const W: usize, const ALL: bool>(
        &self,
        turn: Turn,
        total: u64,
        starts: &mut [u32],
        lengths: &mut [u32],
        out_offsets: &mut [u8],
    ) -> u64
        requires width { self.now.index_width ≡ W }
        requires ready { ListReady (shown_of OW self.now) self.now.count turn total starts.old lengths.old out_offsets.old }
        requires all { ALL ≡ true → AllValid turn }
        ensures { Listed (shown_of OW self.now) turn.base turn.rows starts.old lengths.old out_offsets.old starts.new lengths.new out_offsets.new result }
    {
        let offsets = self.offsets;
        let index_data = self.index_data;
        let Turn { base, rows, word } = turn;
        let mut total = total;
        for t in 0..rows {
            let valid = bit_in::<ALL>(word, t);
            let row = number_at(index_data, W, base + t) as usize * valid;
            let listed = stretch_of(offsets, OW, MaskedRow { row, valid });
            starts[t] = listed.start as u32;
            lengths[t] = listed.entries as u32;
            total += listed.entries;
            put_number_at(out_offsets, OW, base + t + 1, total);
        }
        total
    }

    // The rows of a turn, by numbers of W bytes.
    fn list_by<const W: usize>(
        &self,
        turn: Turn,
        total: u64,
        starts: &mut [u32],
        lengths: &mut [u32],
        out_offsets: &mut [u8],
    ) -> u64
        requires width { self.now.index_width ≡ W }
        requires ready { ListReady (shown_of OW self.now) self.now.count turn total starts.old lengths.old out_offsets.old }
        ensures { Listed (shown_of OW self.now) turn.base turn.rows starts.old lengths.old out_offsets.old starts.new lengths.new out_offsets.new result }
    {
        if u64::from(turn.word) == ones(turn.rows) {
            return self.list_rows::<W, true>(turn, total, starts, lengths, out_offsets);
        }
        self.list_rows::<W, false>(turn, total, starts, lengths, out_offsets)
    }

    // The rows of a turn.
    pub fn list_turn(
        &self,
        turn: Turn,
        total: u64,
        starts: &mut [u32],
        lengths: &mut [u32],
        out_offsets: &mut [u8],
    ) -> u64
        requires ready { ListReady (shown_of OW self.now) self.now.count turn total starts.old lengths.old out_offsets.old }
        ensures { Listed (shown_of OW self.now) turn.base turn.rows starts.old lengths.old out_offsets.old starts.new lengths.new out_offsets.new result }
    {
        match self.index_width {
            2 => self.list_by::<2>(turn, total, starts, lengths, out_offsets),
            4 => self.list_by::<4>(turn, total, starts, lengths, out_offsets),
            8 => self.list_by::<8>(turn, total, starts, lengths, out_offsets),
            _ => self.list_by::<1>(turn, total, starts, lengths, out_offsets),
        }
    }
}
