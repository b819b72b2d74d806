// What the loader stores of a resolved listing, and the way back: each distance with something taken off it, or put on it again.
#![tactic(auto)]

ghost use Rattle.std.specs.Prelude.{◌≡◌, length};
ghost use Rattle.definitions.specs.Stage.{resolve_to};
ghost use Rattle.definitions.specs.Stored.{store, restore};
ghost use Rattle.resolve.specs.Values.{resolving};

mod fields;

use fields::Way;
use instr::refusals::Refusal;
use resolve::mapping;

// What the loader stores of a resolved listing, or the refusal, which leaves the buffer as it was: 30, then 33, then 20.
#[tactic(auto, using(crate::proofs::PassLaws::moves))]
pub fn store(listing: &[u8], out: &mut [u8]) -> Result<usize, Refusal>
    ensures { resolving result out.new ≡ resolve_to (store listing.now (length out.old)) out.old }
{
    mapping::rewrite(&Way::There, listing, out)
}

// The resolved listing of what the loader stores; it is refused likewise.
#[tactic(auto, using(crate::proofs::PassLaws::moves))]
pub fn restore(listing: &[u8], out: &mut [u8]) -> Result<usize, Refusal>
    ensures { resolving result out.new ≡ resolve_to (restore listing.now (length out.old)) out.old }
{
    mapping::rewrite(&Way::Back, listing, out)
}
