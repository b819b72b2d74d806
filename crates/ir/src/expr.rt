// The kinds of expressions, the const bytes that have a class or a check of their own, the widths of constants, and the codes of intrinsic
// calls that decide an argument's flag.
ghost use Rattle.std.specs.Prelude.{◌≡◌, get_or};
ghost use Rattle.definitions.specs.Tag.{const_widths};
ghost use Rattle.ir.specs.Kinds.{ExprDecodes};

use super::UnknownKind;

#[derive(Clone, Copy, Debug, PartialEq, Eq)]
pub enum ExprKind {
    Nop = 1,
    Const = 2,
    Null = 3,
    NewInstance = 4,
    Construct = 5,
    Assign = 6,
    Field = 7,
    Index = 8,
    Conditional = 9,
    DynCast = 10,
    // Local or Capture.
    Local = 11,
    IntrinsicCall = 12,
    FreeCall = 13,
    StaticCall = 14,
    InstanceCall = 15,
    ClosureCall = 16,
}

// Written out, as for `Tag`.
impl TryFrom<u8> for ExprKind {
    type Error = UnknownKind;

    ghost try_from_gives = { ExprDecodes };

    fn try_from(code: u8) -> Result<Self, UnknownKind> {
        match code {
            1 => Ok(ExprKind::Nop),
            2 => Ok(ExprKind::Const),
            3 => Ok(ExprKind::Null),
            4 => Ok(ExprKind::NewInstance),
            5 => Ok(ExprKind::Construct),
            6 => Ok(ExprKind::Assign),
            7 => Ok(ExprKind::Field),
            8 => Ok(ExprKind::Index),
            9 => Ok(ExprKind::Conditional),
            10 => Ok(ExprKind::DynCast),
            11 => Ok(ExprKind::Local),
            12 => Ok(ExprKind::IntrinsicCall),
            13 => Ok(ExprKind::FreeCall),
            14 => Ok(ExprKind::StaticCall),
            15 => Ok(ExprKind::InstanceCall),
            16 => Ok(ExprKind::ClosureCall),
            _ => Err(UnknownKind(code)),
        }
    }
}

// Constants and no enum, since the other 32 codes and 14 const bytes would be names that nothing asks for.
pub const CODE_AS_REF: u8 = 28;

pub const CODE_DEREF: u8 = 29;

pub const CONST_I32: usize = 9;

pub const CONST_BOOL: usize = 15;

// The bytes that a constant's value has, by its byte, of which the last is that of Bool.
const WIDTHS: [usize; 16] = [4, 4, 4, 4, 8, 4, 8, 1, 2, 4, 8, 1, 2, 4, 8, 1];

#[tactic(auto, unfolding(definitions::specs::Tag::const_widths))]
pub fn const_width(byte: usize) -> usize
    ensures { result ≡ get_or const_widths byte 0 }
{
    WIDTHS.get(byte).copied().unwrap_or(0)
}
