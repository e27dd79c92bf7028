// The blocks that the numbers name, one after the other, where a validity is there: zeros for each row that is not valid. They are copied from zeros that
// the caller lends. A byte of the validity is read once, for eight rows. The data, n and the zeros are no struct: it would lie in memory, n would be no literal
// to `take_byte`, and no size would have a loop of its own (tried). Nor are the numbers one with their width and count: `Named` would relate it to the others.
ghost use Rattle.std.specs.Prelude.{◌≡◌, false, ◌+◌, ◌*◌, ◌^◌, ◌≤◌, ◌<◌};
ghost use Rattle.bits.specs.Sequences.{concat};
ghost use Rattle.bits.specs.Bytes.{overwrite};
ghost use Rattle.bits.specs.Routines.{overwrite_at};
ghost use Rattle.bits.specs.Bits.{is_absent};
ghost use Rattle.blocks.specs.Blocked.{Named, named_block, named_blocks};

use crate::block::take_block;
use crate::zeros::Zeros;
use bits::number::number_at;

// A validity that is there, from bit 0 on: arrow's `NullBuffer`.
#[derive(Clone, Copy)]
pub struct NullBuffer<'a> {
    pub bytes: &'a [u8],
    ghost present: { is_absent bytes.now ≡ false },
}

// The m blocks whose validity is in byte k.
#[tactic(auto, using(crate::proofs::Blocks::row_there, crate::proofs::Blocks::valid_bit))]
fn take_byte(
    data: &[u8],
    n: usize,
    w: usize,
    index_data: &[u8],
    valid: NullBuffer<'_>,
    zeros: Zeros<'_>,
    k: usize,
    m: usize,
    out_data: &mut [u8],
)
    requires named { Named n w (8 * k + m) index_data.now valid.bytes.now «data».now out_data.old }
    requires byte_there { (0 < m) × (m ≤ 8) × (8 * k + m < 2 ^ 64) }
    ensures { out_data.new ≡ overwrite_at (8 * k * n)
        (concat m (λ t. named_block n w index_data.now valid.entry.bytes.now «data».now (8 * k + t))) out_data.old }
{
    let byte = valid.bytes[k];
    for t in 0..m {
        let j = 8 * k + t;
        let row = number_at(index_data, w, j) as usize;
        take_block(data, n, row, (byte >> t) & 1 == 1, zeros, out_data, j * n);
    }
}

// Whole bytes, with eight as a literal, so that their rows are one after the other in the code, and then the rows that are left.
#[tactic(auto, using(crate::proofs::Blocks::named_first, crate::proofs::Blocks::blocks_next))]
pub fn take_valid(
    data: &[u8],
    n: usize,
    w: usize,
    count: usize,
    index_data: &[u8],
    valid: NullBuffer<'_>,
    zeros: Zeros<'_>,
    out_data: &mut [u8],
)
    requires { Named n w count index_data.now valid.bytes.now «data».now out_data.old }
    ensures { out_data.new ≡ overwrite (named_blocks n w count index_data.now valid.entry.bytes.now «data».now) out_data.old }
{
    let whole = count / 8;
    for k in 0..whole {
        take_byte(data, n, w, index_data, valid, zeros, k, 8, out_data);
    }
    let rest = count % 8;
    if rest != 0 {
        take_byte(data, n, w, index_data, valid, zeros, whole, rest, out_data);
    }
}
