// What the entry points give for a unit, as the text that the files have. None is a text that does not fit.
ghost use Rattle.std.specs.Prelude.{◌≤◌, length, IfSome};

use foresee::far::foresee;
use instr::listings;
use instr::records::Record;
use instr::refusals::{Reason, Refusal};
use itoa::Buffer;
use print::Form;
use samples::page::Page;
use samples::text;
use steps::counters::Counters;

// The buffers that lowering is lent.
#[derive(Drop)]
pub struct Lent<'a> {
    pub listing: &'a mut [u8],
    pub marks: &'a mut [u32],
}

// What lowering answered, and what it left in its buffers.
#[derive(Clone, Copy)]
pub struct Lowered<'a> {
    pub answer: Result<Counters, Refusal>,
    pub listing: &'a [u8],
    pub marks: &'a [u32],
}

// Where a listing of so many records ends. There are never more than the most.
pub fn listing_end(count: usize) -> usize {
    listings::FRONT + Record::LENGTH * count.min(listings::MOST_RECORDS)
}

fn refused(q: Refusal, out: &mut [u8]) -> Option<usize> {
    print::print_refusal(q.reason.number(), q.place, q.extra, out).ok()
}

fn code_text(listing: &[u8], form: Form, out: &mut [u8]) -> Option<usize>
    ensures { IfSome result (λ n. n ≤ length out.old) }
{
    let length = print::print_code(listing, form, out).ok()?;
    Some(length.min(out.len()))
}

// A number on a line.
fn line(n: u32, page: &mut Page) {
    let mut digits = Buffer::new();
    page.word(digits.format(u64::from(n)).as_bytes());
    page.put(b'\n');
}

// The records with their labels. The entry point's first word is `code`, the files' is `labelled`, four bytes longer.
fn labelled_lines(listing: &[u8], out: &mut [u8]) -> Option<usize> {
    let length = code_text(listing, Form::Labels, out.get_mut(4..)?)?;
    out.get_mut(..8)?.copy_from_slice(b"labelled");
    Some(length + 4)
}

// Whether looking at a unit says what resolving its listing said: nothing is too far, or what is first, or why it is not lowered.
pub fn foreseen(unit: &[u8], resolved: Result<usize, Refusal>) -> bool {
    match (foresee(unit), resolved) {
        (Ok(None), Ok(_)) => true,
        (Ok(Some(far)), Err(q)) => {
            q == Refusal {
                reason: Reason::Distance,
                place: far.number as usize,
                extra: far.operand as usize,
            }
        }
        (Err(p), Err(q)) => p == q,
        _ => false,
    }
}

impl<'a> Lent<'a> {
    pub fn lower(self, unit: &[u8]) -> Lowered<'a> {
        let Lent { listing, marks } = self;
        let answer = assemble::lower(unit, listing, marks);
        Lowered {
            answer,
            listing,
            marks,
        }
    }
}

impl Lowered<'_> {
    fn records(&self, c: Counters) -> &[u8] {
        text::first(self.listing, listing_end(c.count as usize))
    }

    // The records resolved: how many, or the first refusal.
    pub fn resolve(self, code: &mut [u8]) -> Result<usize, Refusal> {
        let c = self.answer?;
        resolve::resolve(self.records(c), self.marks, code)
    }

    // The printed stage.
    pub fn stage(self, code: &mut [u8], out: &mut [u8]) -> Option<usize> {
        match self.resolve(code) {
            Err(q) => refused(q, out),
            Ok(count) => {
                let end = listing_end(count);
                code_text(text::first(code, end), Form::Distances, out)
            }
        }
    }

    // The labelled listing, and its label table.
    pub fn labelled(self, out: &mut [u8]) -> Option<usize> {
        match self.answer {
            Err(q) => refused(q, out),
            Ok(c) => {
                let end = labelled_lines(self.records(c), out)?;
                let mut page = Page::new(out, end);
                page.word(b"labels ");
                line(c.labels, &mut page);
                for &mark in self.marks.get(..c.labels as usize).unwrap_or(&[]) {
                    line(mark, &mut page);
                }
                Some(page.at())
            }
        }
    }
}
