// A part of a unit, and the fields of a node, a method for each form. Each starts at a position and answers the position after the field.
// The methods borrow the part: by value its four words would be copied at each call.
ghost use Rattle.std.specs.Prelude.{◌≤◌, length};

use super::expr::{CONST_BOOL, const_width};
use instr::numbers::u32_inside;
use instr::refusals::{Reason, Refusal};

// A node or a run: where it begins, and where it ends. What it holds must end there too.
#[derive(Clone, Copy)]
pub struct Part<'a> {
    pub unit: &'a [u8],
    pub place: usize,
    pub end: usize,
    ghost inside: { end ≤ length unit.now },
}

#[tactic(auto, using(crate::proofs::Inversion::one_byte), unfolding(definitions::specs::Answer::bind, crate::proofs::Laws::and_then, definitions::specs::Read::unsigned, definitions::specs::Read::byte_below, definitions::specs::Read::mark_bytes, definitions::specs::Read::payload, definitions::specs::Read::as_const, definitions::specs::Read::as_local, definitions::specs::Read::as_init_default, definitions::specs::Read::callee, definitions::specs::Read::room, definitions::specs::Read::span, definitions::specs::Read::ended, definitions::specs::Read::give, crate::specs::Verdict::closing))]
impl<'a> Part<'a> {
    ghost use Rattle.std.specs.Prelude.{◌≡◌, IfOk};
    ghost use Rattle.definitions.specs.Read.{unsigned, byte_below, mark_byte, mark_bytes, as_const, as_init_default, as_local, callee, span, ended};
    ghost use Rattle.ir.specs.Verdict.{end_answer, answer, map_value, no_value, params_of, mark_of, closing};

    // A field of w bytes whose value may be any.
    pub fn skip(&self, at: usize, w: usize) -> Result<usize, Refusal>
        ensures { end_answer result ≡ no_value (unsigned self.now.unit.now self.now.place self.now.end w at) }
    {
        if at <= self.end && w <= self.end - at {
            return Ok(at + w);
        }
        Err(Refusal::at(Reason::Length, self.place))
    }

    // A field of four bytes, with its value.
    fn u32(&self, at: usize) -> Result<(usize, usize), Refusal>
        ensures { answer result ≡ unsigned self.now.unit.now self.now.place self.now.end 4 at }
    {
        let next = self.skip(at, 4)?;
        Ok((u32_inside(self.unit, at), next))
    }

    // A field of one byte, with its value.
    pub fn byte(&self, at: usize) -> Result<(u8, usize), Refusal>
        ensures { answer result ≡ unsigned self.now.unit.now self.now.place self.now.end 1 at }
    {
        let next = self.skip(at, 1)?;
        Ok((self.unit[at], next))
    }

    // A field of one byte that is below `bound`, with its value.
    fn below(&self, at: usize, bound: u8) -> Result<(u8, usize), Refusal>
        ensures { answer result ≡ byte_below self.now.unit.now self.now.place self.now.end bound at }
    {
        let (value, next) = self.byte(at)?;
        if value < bound {
            return Ok((value, next));
        }
        Err(Refusal::at(Reason::Value, self.place))
    }

    // A field of one byte that is below `bound`.
    pub fn skip_below(&self, at: usize, bound: u8) -> Result<usize, Refusal>
        ensures { end_answer result ≡ no_value (byte_below self.now.unit.now self.now.place self.now.end bound at) }
    {
        let (_value, next) = self.below(at, bound)?;
        Ok(next)
    }

    // A mark: whether something is there.
    pub fn mark(&self, at: usize) -> Result<(bool, usize), Refusal>
        ensures { map_value mark_of (answer result) ≡ mark_byte self.now.unit.now self.now.place self.now.end at }
    {
        let (value, next) = self.below(at, 2)?;
        Ok((value == 1, next))
    }

    // n marks.
    fn skip_marks(&self, at: usize, n: u8) -> Result<usize, Refusal>
        ensures { end_answer result ≡ no_value (mark_bytes self.now.unit.now self.now.place self.now.end n at) }
    {
        let mut next = at;
        for _mark in 0..n {
            next = self.skip_below(next, 2)?;
        }
        Ok(next)
    }

    // A constant: its byte, and then a mark for Bool, else a value of its width.
    pub fn constant(&self, at: usize) -> Result<usize, Refusal>
        ensures { end_answer result ≡ no_value (as_const self.now.unit.now self.now.place self.now.end at) }
    {
        let (byte, value) = self.below(at, 16)?;
        let byte = usize::from(byte);
        if byte == CONST_BOOL {
            return self.skip_below(value, 2);
        }
        self.skip(value, const_width(byte))
    }

    // A local or a capture: its form and its index.
    pub fn local(&self, at: usize) -> Result<usize, Refusal>
        ensures { end_answer result ≡ no_value (as_local self.now.unit.now self.now.place self.now.end at) }
    {
        let form = self.skip_below(at, 4)?;
        self.skip(form, 4)
    }

    // An InitDefault: the local, its default byte and an index.
    pub fn init_default(&self, at: usize) -> Result<usize, Refusal>
        ensures { end_answer result ≡ no_value (as_init_default self.now.unit.now self.now.place self.now.end at) }
    {
        let local = self.skip(at, 4)?;
        let byte = self.skip_below(local, 23)?;
        self.skip(byte, 4)
    }

    // What kinds 13 to 15 say of the function that they call: how many parameters it has.
    pub fn callee(&self, at: usize) -> Result<(u8, usize), Refusal>
        ensures { answer result ≡ map_value params_of (callee self.now.unit.now self.now.place self.now.end at) }
    {
        let function = self.skip(at, 4)?;
        let name = self.skip(function, 4)?;
        let line = self.skip(name, 2)?;
        let flags = self.skip_below(line, 16)?;
        let (params, marks) = self.byte(flags)?;
        let next = self.skip_marks(marks, params)?;
        Ok((params, next))
    }

    // The part in this one that begins at `at` with its length, and where what the length counts begins. A refusal is at its place.
    pub fn part(&self, at: usize) -> Result<(Part<'a>, usize), Refusal>
        ensures ends { map_value (λ part. part.end) (answer result) ≡ span self.now.unit.now self.now.end at }
        ensures stands { IfOk result (λ r. (r.0.unit ≡ self.now.unit) × (r.0.place ≡ at)) }
    {
        let mut part = Part {
            unit: self.unit,
            place: at,
            end: self.end,
        };
        let (n, first) = part.u32(at)?;
        part.end = part.skip(first, n)?;
        Ok((part, first))
    }

    // The end of a node: nothing may be left.
    pub fn close(&self, at: usize) -> Result<usize, Refusal>
        ensures { end_answer result ≡ ended self.now.place self.now.end tt at }
    {
        if at == self.end {
            return Ok(at);
        }
        Err(Refusal::at(Reason::Length, self.place))
    }

    // The end of a call: nothing may be left, and there may be no more arguments than parameters.
    pub fn close_call(&self, at: usize, params: usize, count: usize) -> Result<usize, Refusal>
        ensures { end_answer result ≡ no_value (closing self.now.place self.now.end params count at) }
    {
        let end = self.close(at)?;
        if count <= params {
            return Ok(end);
        }
        Err(Refusal::at(Reason::Arguments, self.place))
    }
}
