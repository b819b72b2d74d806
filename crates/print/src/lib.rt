// The text of a listing or of a refusal, in a lent buffer: document 01's printed form.
#![tactic(auto)]

ghost use Rattle.std.specs.Prelude.{length};
ghost use Rattle.definitions.specs.Stage.{lines_from};
ghost use Rattle.definitions.specs.Stage as Stage;
ghost use Rattle.definitions.specs.Text.{text, text_into, code_into};
ghost use Rattle.print.specs.Listings.{records_in};
ghost use Rattle.print.specs.Values.{sign_of, Answers};
ghost use Rattle.print.specs.Writing.{Filled};

mod lines;
mod page;

use instr::listings;
use instr::refusals::{Reason, Refusal};
use lines::Listing;
use page::Page;

// What a record's first and second are: the signed distances of a resolved listing, or the labels of one that is not resolved.
#[derive(Clone, Copy, Debug, PartialEq, Eq)]
pub enum Form {
    Distances,
    Labels,
}

// The text of a listing with this total size. The answer is its length, whether it fits or not.
fn code(listing: &Listing, total: usize, form: Form, out: &mut [u8]) -> usize
    ensures { Filled (text (Stage.code listing.now.count total (lines_from (sign_of form) 0 (records_in listing.now)))) result out.old out.new }
{
    let mut page = Page::new(out);
    page.word(b"code ");
    page.decimal(listing.count as u64, b' ');
    page.decimal(total as u64, b'\n');
    listing.lines(form, &mut page);
    page.at()
}

// The text of a refusal, likewise.
fn refusal(number: usize, place: usize, extra: usize, out: &mut [u8]) -> usize
    ensures { Filled (text (Stage.refused_with number place extra)) result out.old out.new }
{
    let mut page = Page::new(out);
    page.word(b"refused ");
    page.decimal(number as u64, b' ');
    page.decimal(place as u64, b' ');
    page.decimal(extra as u64, b'\n');
    page.at()
}

// The text of a whole slice as a listing, and its length; or 30, no listing; or 20, a buffer that is too short, before a byte is written.
pub fn print_code(listing: &[u8], form: Form, out: &mut [u8]) -> Result<usize, Refusal>
    ensures { Answers (code_into (sign_of form) listing.now (length out.old)) result out.old out.new }
{
    let count = listings::check_listing(listing)?;
    let listing = Listing {
        bytes: listing,
        count,
    };
    let total = listing.total();
    let length = code(&listing, total, form, &mut []);
    if out.len() < length {
        return Err(Refusal::of(Reason::Room));
    }
    code(&listing, total, form, out);
    Ok(length)
}

// The text of a refusal, in the same way. Its parts are numbers, since a caller's may be of no listed reason.
pub fn print_refusal(
    number: usize,
    place: usize,
    extra: usize,
    out: &mut [u8],
) -> Result<usize, Refusal>
    ensures { Answers (text_into (Stage.refused_with number place extra) (length out.old)) result out.old out.new }
{
    let needed = refusal(number, place, extra, &mut []);
    if out.len() < needed {
        return Err(Refusal::of(Reason::Room));
    }
    refusal(number, place, extra, out);
    Ok(needed)
}
