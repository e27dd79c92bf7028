// What selects the output rows, and one of them: the row that its index names, where its entries start, and how many it has. Its validity is that of its index
// and of the row. A row that is null ends where it starts: 0 or 1 is added to its number for its end, and no branch asks.
ghost use Rattle.std.specs.Prelude.{◌≡◌, ◌+◌, ◌-◌, ◌*◌, ◌^◌, ◌≤◌, ◌<◌, length, true};
ghost use Rattle.bits.specs.Numbers.{number_at, is_number_width};
ghost use Rattle.lengths.specs.Entries.{selection_at, is_selected};
ghost use Rattle.lengths.specs.Totals.{selected_entries, SelectedThere};

use bits::number::number_at;
use buffers::bit::is_valid;

// What selects the output rows, before anything is written: the validity of the rows, their offsets and the index column, with the bits at which the
// validities start. All that is read is there. The widths are fields, for in `sum_within` one loop reads all widths.
#[derive(Clone, Copy)]
pub struct Selection<'a> {
    pub validity: &'a [u8],
    pub bit: usize,
    pub offset_width: usize,
    pub offsets: &'a [u8],
    pub index_width: usize,
    pub index_data: &'a [u8],
    pub index_validity: &'a [u8],
    pub index_bit: usize,
    pub count: usize,
    ghost there: { SelectedThere (selection_at validity bit offset_width offsets index_width index_data index_validity index_bit) count },
}

// A row and 1, or, where the output row is null, any row and 0: numbers that are added and multiplied, and no Option, which each function that reads them would
// open into these two. Where nulls cannot be guessed, a wrong guess costs some 15 cycles (docs/PROVING.md).
#[derive(Clone, Copy)]
pub(crate) struct MaskedRow {
    pub(crate) row: usize,
    pub(crate) valid: usize,
}

// The entries of an output row: the first one, and how many there are.
#[derive(Clone, Copy)]
pub(crate) struct Stretch {
    pub(crate) start: u64,
    pub(crate) entries: u64,
}

impl Selection<'_> {
    ghost use Rattle.lengths.specs.Lent.{selection_of};

    // The entries of output row j, whose index is valid, so that its number is that of a row. Of a row that is null the start is read twice. The widths are handed
    // on beside the struct that has them: a literal counts, where the compiler asks whether to put a function in line, only as an argument.
    pub(crate) fn picked_entries(&self, ow: usize, w: usize, j: usize) -> u64
        requires widths { (ow ≡ self.now.offset_width) × (w ≡ self.now.index_width) }
        requires inside { j < self.now.count }
        requires picked { is_selected (selection_of self.now) j ≡ true }
        ensures { result ≡ selected_entries (selection_of self.now) j }
    {
        let row = number_at(self.index_data, w, j) as usize;
        let valid = usize::from(is_valid(self.validity, self.bit, row));
        stretch_of(self.offsets, ow, MaskedRow { row, valid }).entries
    }

    // The entries of any: none where its index is null.
    pub(crate) fn entries(&self, ow: usize, w: usize, j: usize) -> u64
        requires widths { (ow ≡ self.now.offset_width) × (w ≡ self.now.index_width) }
        requires inside { j < self.now.count }
        ensures { result ≡ selected_entries (selection_of self.now) j }
    {
        if is_valid(self.index_validity, self.index_bit, j) {
            return self.picked_entries(ow, w, j);
        }
        0
    }
}

// Its first entry, and how many it has: none where it is null, since it then ends where it starts.
pub(crate) fn stretch_of(offsets: &[u8], ow: usize, taken: MaskedRow) -> Stretch
    requires offset_width { is_number_width ow ≡ true }
    requires row_there { (taken.row + taken.valid < 2 ^ 60) × (taken.row * ow + ow ≤ length offsets.now) × ((taken.row + taken.valid) * ow + ow ≤ length offsets.now) }
    requires rising { number_at ow offsets.now taken.row ≤ number_at ow offsets.now (taken.row + taken.valid) }
    ensures start { result.start ≡ number_at ow offsets.now taken.row }
    ensures entries { result.entries ≡ number_at ow offsets.now (taken.row + taken.valid) - number_at ow offsets.now taken.row }
{
    let start = number_at(offsets, ow, taken.row);
    let entries = number_at(offsets, ow, taken.row + taken.valid) - start;
    Stretch { start, entries }
}
