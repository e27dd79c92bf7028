// The entries of all output rows: their sum, and the first row after which the running total is above a limit. OW and W, the
// widths of offsets and of indices, give each width a loop of its own where a loop waits for nothing else.
ghost use Rattle.std.specs.Prelude.{◌≡◌, false, min, ◌+◌, ◌<◌};
ghost use Rattle.bits.specs.Sequences.{sum};
ghost use Rattle.bits.specs.Bits.{is_absent};
ghost use Rattle.lengths.specs.Lent.{selection_of};
ghost use Rattle.lengths.specs.Totals.{selected_entries, sum_within};

use crate::row::Selection;
use crate::turn::TURN;
use buffers::bit::word_at;

// The first output row after which the running total is above a limit, and the total before and after it.
#[derive(Clone, Copy, Debug, PartialEq, Eq)]
pub struct Overflow {
    pub place: u64,
    pub before: u64,
    pub after: u64,
}

impl Selection<'_> {
    // The total with the rows of a turn, which are those from `start` on, from the total of the rows before. A turn goes from one valid
    // index to the next: a null one takes no time, and the number under it is not read.
    fn add_turn<const OW: usize, const W: usize>(&self, start: usize, before: u64) -> u64
        requires widths { (self.now.offset_width ≡ OW) × (self.now.index_width ≡ W) }
        requires present { is_absent self.now.index_validity.now ≡ false }
        requires started { (start < self.now.count) × (before ≡ sum start (selected_entries (selection_of self.now))) }
        ensures { result ≡ sum (min self.now.count (start + 32)) (selected_entries (selection_of self.now)) }
    {
        let mut total = before;
        let mut word = word_at(
            self.index_validity,
            self.index_bit + start,
            (self.count - start).min(TURN),
        );
        while word != 0 {
            total += self.picked_entries(OW, W, start + word.trailing_zeros() as usize);
            word &= word - 1;
        }
        total
    }

    // The entries of all output rows.
    pub fn sum<const OW: usize, const W: usize>(&self) -> u64
        requires widths { (self.now.offset_width ≡ OW) × (self.now.index_width ≡ W) }
        ensures { result ≡ sum self.now.count (selected_entries (selection_of self.now)) }
    {
        let mut total: u64 = 0;
        if self.index_validity.is_empty() {
            for j in 0..self.count {
                total += self.picked_entries(OW, W, j);
            }
            return total;
        }
        for start in (0..self.count).step_by(TURN) {
            total = self.add_turn::<OW, W>(start, total);
        }
        total
    }

    // The same where no running total is above `most`, else the first row after which one is. It is looked for once in a gather at most, so that one loop reads
    // all widths.
    #[tactic(auto, using(crate::proofs::Running::counting_end))]
    pub fn sum_within(&self, most: u64) -> Result<u64, Overflow>
        ensures { result ≡ sum_within most (selected_entries (selection_of self.now)) self.now.count }
    {
        let (ow, w) = (self.offset_width, self.index_width);
        let mut total: u64 = 0;
        for j in 0..self.count {
            let after = total + self.entries(ow, w, j);
            if after > most {
                return Err(Overflow {
                    place: j as u64,
                    before: total,
                    after,
                });
            }
            total = after;
        }
        Ok(total)
    }
}
