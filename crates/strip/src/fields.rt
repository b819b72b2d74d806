// The fields of a node, a method for each form, and the ends of a node. Where a field does not fit, stripping stops for good.
ghost use Rattle.std.specs.Prelude.{◌≡◌, cond, ◌≤◌, ltb, length};

use instr::numbers::{byte_at, put_number, u32_at};
use ir::expr::{CONST_BOOL, CONST_I32, const_width};

// A node or a run, which holds the bytes that are passed: the unit, where this one ends, and how many expressions and how many statements
// may stand one in another in it. Its methods borrow it: with a copy for each call stripping took a tenth longer. That
// the buffer is copied up to a place (`Copied`) is said by each method: the buffer is lent to it and is no part of the holder.
#[derive(Clone, Copy)]
pub struct Holder<'a> {
    pub unit: &'a [u8],
    pub end: usize,
    pub values: usize,
    pub blocks: usize,
    ghost inside: { end ≤ length unit.now },
    ghost fewer_blocks: { blocks ≤ values },
}

// Where stripping stands, and the mark, the byte or the count that was passed last.
#[derive(Clone, Copy)]
pub struct Passed {
    pub at: usize,
    pub last: usize,
}

// 0 and 1 are in the one class, all else in the other.
fn least_of(value: usize) -> u64
    ensures { result ≡ cond (ltb value 2) 0 2 }
{
    if value < 2 {
        return 0;
    }
    2
}

// A method that passes a field whose value nothing later asks for hands on what was passed before it.
impl Holder<'_> {
    ghost use Rattle.std.specs.Prelude.{not, ◌||◌, eqb, get_or, Some};
    ghost use Rattle.definitions.specs.Bytes.{number};
    ghost use Rattle.definitions.specs.Tag.{const_widths};
    ghost use Rattle.definitions.specs.Strip.{least, keep_marks, blank_payload};
    ghost use Rattle.strip.specs.Passing.{passed, fitting, span_of, below_of, closed_args, put_if, pass_if, Copied, Did, KeptBy, params_step, constant_step};

    // w bytes that stay, if they fit.
    #[tactic(auto, unfolding(crate::specs::Passing::fitting))]
    pub fn keep(&self, from: Passed, w: usize) -> Option<Passed>
        ensures { result ≡ fitting from.at w self.now.end from.last }
    {
        if from.at <= self.end && w <= self.end - from.at {
            let at = from.at + w;
            return Some(Passed { at, ..from });
        }
        None
    }

    // w bytes with a number in their place, if they fit.
    #[tactic(auto, unfolding(crate::specs::Passing::fitting, crate::specs::Passing::put_if))]
    pub fn blank(&self, out: &mut [u8], from: Passed, w: usize, v: u64) -> Option<Passed>
        requires { self.now.end ≤ length out.old }
        ensures { (result ≡ fitting from.at w self.now.end from.last) × (out.new ≡ put_if from.at w self.now.end v out.old) }
    {
        let next = self.keep(from, w)?;
        put_number(out, from.at, w, v);
        Some(next)
    }

    // A byte that stays, with its value.
    fn byte(&self, at: usize) -> Option<Passed>
        ensures { result ≡ fitting at 1 self.now.end (get_or self.now.unit.now at 0) }
    {
        let last = usize::from(byte_at(self.unit, at));
        self.keep(Passed { at, last }, 1)
    }

    // A byte that is below `bound`.
    #[tactic(auto, unfolding(crate::specs::Passing::fitting, crate::specs::Passing::guarded))]
    pub fn below(&self, at: usize, bound: usize) -> Option<Passed>
        ensures { result ≡ below_of bound (fitting at 1 self.now.end (get_or self.now.unit.now at 0)) }
    {
        let next = self.byte(at)?;
        if next.last < bound {
            return Some(next);
        }
        None
    }

    // The end of a node: nothing may be left.
    pub fn close(&self, from: Passed) -> Option<Passed>
        ensures { result ≡ pass_if (eqb from.at self.now.end) (Some from) }
    {
        if from.at == self.end {
            return Some(from);
        }
        None
    }

    // The end of a call: nothing may be left, and there may be no more arguments, which were counted last, than the n parameters.
    #[tactic(auto, unfolding(crate::specs::Passing::guarded))]
    pub fn close_call(&self, args: Passed, n: usize) -> Option<Passed>
        ensures { result ≡ closed_args self.now.end n (Some args) }
    {
        if args.last <= n {
            return self.close(Passed { last: n, ..args });
        }
        None
    }

    // A length: where the bytes that it counts begin and end, if they fit.
    #[tactic(auto, unfolding(crate::specs::Passing::fitting, crate::specs::Passing::span_of))]
    pub fn span(&self, at: usize) -> Option<(usize, usize)>
        ensures { result ≡ span_of self.now.unit.now self.now.end at }
    {
        let length = Passed {
            at,
            last: u32_at(self.unit, at),
        };
        let first = self.keep(length, 4)?.at;
        if length.last <= self.end - first {
            return Some((first, first + length.last));
        }
        None
    }

    // As many marks as the byte says that was passed last, one for each parameter.
    fn marks(&self, from: Passed) -> Option<Passed>
        ensures { KeptBy self.now.unit.now from.at (λ next. keep_marks self.now.unit.now self.now.end from.last (next from.last)) result }
    {
        let mut at = from.at;
        for _mark in 0..from.last {
            at = self.below(at, 2)?.at;
        }
        Some(Passed { at, ..from })
    }

    // A callee's parameters: how many, and a mark for each.
    pub fn params(&self, at: usize) -> Option<Passed>
        ensures { KeptBy self.now.unit.now at (params_step self.now.unit.now self.now.end) result }
    {
        self.marks(self.byte(at)?)
    }

    // The least of a payload's class: only an I32 and a Bool have two.
    #[tactic(auto, using(crate::proofs::FieldLaws::least_i32, crate::proofs::FieldLaws::least_bool, crate::proofs::FieldLaws::least_other))]
    fn least_at(&self, at: usize, byte: usize) -> u64
        ensures { result ≡ least byte (number (get_or const_widths byte 0) self.now.unit.now at) }
    {
        if byte == CONST_I32 {
            return least_of(u32_at(self.unit, at));
        }
        if byte == CONST_BOOL {
            return least_of(usize::from(byte_at(self.unit, at)));
        }
        0
    }

    // Whether a payload is one: a Bool is 0 or 1.
    #[tactic(auto, using(crate::proofs::FieldLaws::good_bool, crate::proofs::FieldLaws::good_other))]
    fn payload_good(&self, at: usize, byte: usize) -> bool
        ensures { result ≡ not (eqb byte 15) || ltb (number (get_or const_widths byte 0) self.now.unit.now at) 2 }
    {
        if byte != CONST_BOOL {
            return true;
        }
        byte_at(self.unit, at) < 2
    }

    // The payload of a const byte. A Bool above 1 is passed before stripping stops.
    fn payload(&self, out: &mut [u8], from: Passed, byte: usize) -> Option<Passed>
        requires { Copied self.now.unit.now from.at out.old }
        ensures { Did self.now.unit.now from.at out.old (λ next. blank_payload self.now.unit.now self.now.end byte (next from.last)) result out.new }
    {
        let least = self.least_at(from.at, byte);
        let next = self.blank(out, from, const_width(byte), least);
        if self.payload_good(from.at, byte) {
            return next;
        }
        None
    }

    // A constant: its byte and its payload.
    pub fn constant(&self, out: &mut [u8], from: Passed) -> Option<Passed>
        requires { Copied self.now.unit.now from.at out.old }
        ensures { Did self.now.unit.now from.at out.old (constant_step self.now.unit.now self.now.end from.last) result out.new }
    {
        let byte = self.below(from.at, 16)?;
        let at = byte.at;
        self.payload(out, Passed { at, ..from }, byte.last)
    }
}
