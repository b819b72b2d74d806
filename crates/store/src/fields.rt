// A field of a record, moved: something is taken off its number, or put on it again.
ghost use Rattle.std.specs.Prelude.{◌≡◌, ◌≤◌};
ghost use Rattle.instr.specs.Tags.{byte_of};
ghost use Rattle.resolve.specs.Values.{extra_of};
ghost use Rattle.store.specs.Values.{way_is, less_at, moved, biased, shifted};

use instr::refusals::{Reason, Refusal};
use instr::tag::Tag;
use resolve::mapping::{Carrier, Mapping, Operand};

// What is taken off a field, by its record's tag.
#[tactic(auto, using(crate::proofs::LessLaws::first_none, crate::proofs::LessLaws::second_none), unfolding(definitions::specs::Stored::lesses, definitions::specs::Stored::less_in))]
fn less_of(tag: Tag, operand: Operand) -> u16
    ensures { (result ≡ less_at (byte_of tag) (extra_of operand)) × (result ≤ 11) }
{
    match operand {
        Operand::First => match tag {
            Tag::Switch => 11,
            Tag::Jump
            | Tag::JumpIfFalse
            | Tag::Skip
            | Tag::Context
            | Tag::InvokeStatic
            | Tag::InvokeVirtual
            | Tag::Conditional
            | Tag::SwitchLabel => 3,
            _ => 0,
        },
        Operand::Second => match tag {
            Tag::Conditional | Tag::SwitchLabel => 5,
            _ => 0,
        },
    }
}

// A signed number in sixteen bits from 0 up, where 32,768 stands for 0, so that a bound is passed only where the number leaves sixteen bits;
// and the bits of such a number.
#[tactic(auto, using(crate::proofs::FieldLaws::bias_is))]
fn bias(n: u16) -> u16
    ensures { result ≡ biased n }
{
    n.wrapping_add(32768)
}

// Which way a field is moved: something is taken off its number, or put on it again.
#[derive(Clone, Copy, Debug, PartialEq, Eq)]
pub enum Way {
    There,
    Back,
}

impl Way {
    // The field with so much off its number, or on it, where that fits sixteen bits.
    fn shift(self, off: u16, field: u16) -> Option<u16>
        requires { off ≤ 11 }
        ensures { result ≡ shifted (way_is self) off field }
    {
        let n = bias(field);
        let shifted = match self {
            Way::There => n.checked_sub(off),
            Way::Back => n.checked_add(off),
        };
        shifted.map(bias)
    }
}

impl Mapping for Way {
    ghost maps = { λ w. moved (way_is w) };

    // Always inlined, as what calls it in `rewrite` is.
    #[tactic(auto, using(crate::proofs::LessLaws::less_at_none, crate::proofs::FieldLaws::moved_is))]
    #[inline(always)]
    fn map(&self, carrier: Carrier, operand: Operand, field: u16) -> Result<u16, Refusal> {
        let off = match Tag::try_from(carrier.tag) {
            Ok(tag) => less_of(tag, operand),
            Err(_) => 0,
        };
        self.shift(off, field)
            .ok_or(carrier.refusal(Reason::Field, operand))
    }
}
