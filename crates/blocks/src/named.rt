// The blocks that the numbers name, one after the other, where no validity is there: each number names one, and nothing has to be
// tested. The numbers stay apart, as in valid.rt.
ghost use Rattle.std.specs.Prelude.{◌≡◌, []};
ghost use Rattle.bits.specs.Bytes.{overwrite};
ghost use Rattle.blocks.specs.Blocked.{Named, named_blocks};

use crate::block::copy_block;
use bits::number::number_at;

// Blocks of n bytes, by numbers of w bytes. At a literal n a turn is a load and a store, or two for 32 bytes.
#[tactic(auto, using(crate::proofs::Blocks::all_there, crate::proofs::Blocks::room_there, crate::proofs::Blocks::all_next))]
pub fn take_all(
    data: &[u8],
    n: usize,
    w: usize,
    count: usize,
    index_data: &[u8],
    out_data: &mut [u8],
)
    requires { Named n w count index_data.now [] «data».now out_data.old }
    ensures { out_data.new ≡ overwrite (named_blocks n w count index_data.now [] «data».now) out_data.old }
{
    for j in 0..count {
        let row = number_at(index_data, w, j) as usize;
        copy_block(data, row * n, n, out_data, j * n);
    }
}
