// The resolver: a labelled listing and its label table to the listing with distances in place of the labels.
#![tactic(auto)]

ghost use Rattle.std.specs.Prelude.{◌≡◌, length};
ghost use Rattle.definitions.specs.Resolve.{resolve};
ghost use Rattle.definitions.specs.Stage.{resolve_to};
ghost use Rattle.resolve.specs.Values.{resolving};

mod labels;
pub mod mapping;

use instr::refusals::Refusal;
use labels::Distances;

// The resolved listing of a labelled one, or the refusal, which leaves the buffer as it was: 30, then 31 and 32, then 20.
#[tactic(auto, using(crate::proofs::PassLaws::resolves))]
pub fn resolve(listing: &[u8], marks: &[u32], out: &mut [u8]) -> Result<usize, Refusal>
    ensures { resolving result out.new ≡ resolve_to (resolve listing.now marks.now (length out.old)) out.old }
{
    mapping::rewrite(&Distances { marks }, listing, out)
}
