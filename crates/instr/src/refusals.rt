// Why the stage refuses: document 01's number of a refusal, its place and an extra number.
ghost use Rattle.std.specs.Prelude.{◌≡◌};
ghost use Rattle.instr.specs.Refusals.{number_of};

use std::fmt;

// What is wrong, by its number.
#[derive(Clone, Copy, Debug, PartialEq, Eq)]
pub enum Reason {
    // The unit's front.
    Front = 1,
    // A kind, or a field's value, that is not listed.
    Value = 2,
    // Bytes that are missing, or left.
    Length = 3,
    Depth = 4,
    // More arguments than parameters.
    Arguments = 5,
    Break = 10,
    Continue = 11,
    Construct = 12,
    // A flagged argument that no flag bit is left for.
    Flag = 13,
    Intrinsic = 14,
    Labels = 15,
    // A lent buffer that is too short, and a label table.
    Room = 20,
    TableRoom = 21,
    // A listing has no record of that number.
    Record = 22,
    Listing = 30,
    Unmarked = 31,
    Distance = 32,
    // A stored field that leaves 16 bits.
    Field = 33,
}

impl Reason {
    pub fn number(self) -> usize
        ensures { result ≡ number_of self }
    {
        self as usize
    }
}

#[derive(Clone, Copy, Debug, PartialEq, Eq)]
pub struct Refusal {
    pub reason: Reason,
    pub place: usize,
    pub extra: usize,
}

impl Refusal {
    // With no place and no extra number.
    pub fn of(reason: Reason) -> Self
        ensures { result ≡ record { reason = reason; place = 0; extra = 0 } }
    {
        Self::at(reason, 0)
    }

    // With no extra number.
    pub fn at(reason: Reason, place: usize) -> Self
        ensures { result ≡ record { reason = reason; place = place; extra = 0 } }
    {
        Refusal {
            reason,
            place,
            extra: 0,
        }
    }
}

impl fmt::Display for Refusal {
    fn fmt<W: fmt::Write>(&self, f: &mut fmt::Formatter<W>) -> fmt::Result {
        let number = self.reason.number();
        write!(f, "refused {number} {} {}", self.place, self.extra)
    }
}
