// The whole stage: a unit's bytes in, document 01's printed text out, in a lent buffer.
#![tactic(auto)]

ghost use Rattle.std.specs.Prelude.{◌≤◌, length};
ghost use Rattle.definitions.specs.Code.{label_limit};
ghost use Rattle.definitions.specs.Listing.{listing_length};
ghost use Rattle.definitions.specs.Resolve.{resolve};
ghost use Rattle.definitions.specs.Stage.{input_limit, stage, refused_with, printed, shown};
ghost use Rattle.definitions.specs.Text.{text_into};
ghost use Rattle.instr.specs.Refusals.{number_of};
ghost use Rattle.print.specs.Values.{Answers};

use instr::listings;
use instr::records::Record;
use instr::refusals::{Reason, Refusal};
use print::Form;

// A longer input is refused.
pub const LONGEST: usize = 2048;

// A unit has no more records than bytes, and never more than 65,536 labels: so its listing and its label table fit.
type Listing = [u8; 45061];

type Marks = [u32; 65536];

// The text of a refusal.
fn show_refusal(q: Refusal, out: &mut [u8]) -> Result<usize, Refusal>
    ensures { Answers (text_into (refused_with (number_of q.reason) q.place q.extra) (length out.old)) result out.old out.new }
{
    print::print_refusal(q.reason.number(), q.place, q.extra, out)
}

// A labelled listing, resolved into `code` and printed.
fn show_resolved(
    listing: &[u8],
    marks: &[u32],
    code: &mut [u8],
    out: &mut [u8],
) -> Result<usize, Refusal>
    ensures { Answers (text_into (printed (resolve listing.now marks.now (length code.old))) (length out.old)) result out.old out.new }
{
    match resolve::resolve(listing, marks, code) {
        Err(q) => show_refusal(q, out),
        Ok(count) => {
            let end = listings::FRONT + Record::LENGTH * count;
            print::print_code(&code[..end], Form::Distances, out)
        }
    }
}

// A unit that is not too long.
fn show_unit(
    unit: &[u8],
    listing: &mut [u8],
    marks: &mut [u32],
    code: &mut [u8],
    out: &mut [u8],
) -> Result<usize, Refusal>
    requires unit_len_bound { length unit.now ≤ input_limit }
    requires input_limit_in_bounds { (listing_length input_limit ≤ length listing.old) × (label_limit ≤ length marks.old) × (listing_length input_limit ≤ length code.old) }
    ensures { Answers (text_into (printed (stage unit.now)) (length out.old)) result out.old out.new }
{
    match assemble::lower(unit, listing, marks) {
        Err(q) => show_refusal(q, out),
        Ok(c) => {
            let end = listings::FRONT + Record::LENGTH * (c.count as usize);
            show_resolved(&listing[..end], marks, code, out)
        }
    }
}

// What the program prints of its input, and its length; 20 where the buffer is too short for the text, which leaves it as it was.
pub fn show(input: &[u8], out: &mut [u8]) -> Result<usize, Refusal>
    ensures { Answers (text_into (shown input.now) (length out.old)) result out.old out.new }
{
    if LONGEST < input.len() {
        return show_refusal(Refusal::of(Reason::Front), out);
    }
    let mut listing: Listing = [0; 45061];
    let mut marks: Marks = [0; 65536];
    let mut code: Listing = [0; 45061];
    show_unit(input, &mut listing, &mut marks, &mut code, out)
}
