// The head of an argument, which decides whether the argument is flagged. Past the end of the unit stand zeros.
ghost use Rattle.std.specs.Prelude.{◌≡◌, ◌+◌, ◌≤◌, length};
ghost use Rattle.ir.specs.Args.{arg_at, intrinsic_at, prvalue_at, flagged_at};

use super::Arg;
use super::expr::{CODE_AS_REF, CODE_DEREF, ExprKind};
use instr::numbers::{byte_at, u32_at};

// The head of the intrinsic call at `at`: its code, then where its arguments begin and end.
#[tactic(auto, unfolding(crate::specs::Args::intrinsic_at))]
fn intrinsic_head(s: &[u8], at: usize) -> Arg
    requires { at ≤ length s.now }
    ensures { result ≡ intrinsic_at s.now at }
{
    let code = byte_at(s, at + 5);
    match code {
        CODE_AS_REF => Arg::AsRef {
            first: at + 16,
            stop: at + 16 + u32_at(s, at + 12),
        },
        CODE_DEREF => Arg::Place,
        _ => Arg::Value,
    }
}

// The head of the expression at `at`.
#[tactic(auto, using(crate::proofs::ArgLaws::past_value), unfolding(crate::specs::Args::arg_at, crate::specs::Args::place_kind))]
pub fn arg_head(s: &[u8], at: usize) -> Arg
    ensures { result ≡ arg_at s.now at }
{
    if s.len() <= at {
        return Arg::Value;
    }
    let Ok(kind) = ExprKind::try_from(byte_at(s, at + 4)) else {
        return Arg::Value;
    };
    match kind {
        ExprKind::Field | ExprKind::Index | ExprKind::Local => Arg::Place,
        ExprKind::IntrinsicCall => intrinsic_head(s, at),
        ExprKind::Nop
        | ExprKind::Const
        | ExprKind::Null
        | ExprKind::NewInstance
        | ExprKind::Construct
        | ExprKind::Assign
        | ExprKind::Conditional
        | ExprKind::DynCast
        | ExprKind::FreeCall
        | ExprKind::StaticCall
        | ExprKind::InstanceCall
        | ExprKind::ClosureCall => Arg::Value,
    }
}

// Not a local, a capture, a field, an index or a Deref.
#[tactic(auto, unfolding(crate::specs::Args::prvalue_at, crate::specs::Args::not_place))]
pub fn is_prvalue(s: &[u8], at: usize) -> bool
    ensures { result ≡ prvalue_at s.now at }
{
    match arg_head(s, at) {
        Arg::Place => false,
        Arg::Value | Arg::AsRef { .. } => true,
    }
}

// An AsRef call with exactly one argument, which is_prvalue: only such a call is taken apart.
#[tactic(auto, using(crate::proofs::ArgLaws::first_in), unfolding(crate::specs::Args::flagged_head))]
pub fn is_prvalue_ref(s: &[u8], at: usize) -> bool
    ensures { result ≡ flagged_at s.now at }
{
    let Arg::AsRef { first, stop } = arg_head(s, at) else {
        return false;
    };
    first < stop && stop <= first + 4 + u32_at(s, first) && is_prvalue(s, first)
}
