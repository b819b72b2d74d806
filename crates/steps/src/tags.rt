// The tags that a byte of the unit picks.
ghost use Rattle.std.specs.Prelude.{◌≡◌, ◌<◌, ◌≤◌, ◌-◌, true, cond, ◌&&◌, [], ◌∷◌, ◌==◌, slice_index_or};
ghost use Rattle.definitions.specs.Tag.{const_tag, I32Zero, I32One, I32Const, FalseConst, TrueConst, InvokeVirtual, InvokeStatic, emitted, intrinsic_of};
ghost use Rattle.instr.specs.Tags.{byte_of};
ghost use Rattle.definitions.specs.Lower.{null_tag, element_tag, local_tag};

use instr::tag::Tag;
use ir::expr::{CONST_BOOL, CONST_I32};

// This and `element_tag` are no one function: it would be called with both tags, and the definitions' names would go.
#[tactic(auto, unfolding(definitions::specs::Lower::null_tag))]
pub fn null_tag(weak: u8) -> Tag
    ensures { byte_of result ≡ null_tag weak }
{
    if weak == 0 {
        Tag::Null
    } else {
        Tag::WeakRefNull
    }
}

#[tactic(auto, unfolding(definitions::specs::Lower::element_tag))]
pub fn element_tag(dynamic: u8) -> Tag
    ensures { byte_of result ≡ element_tag dynamic }
{
    if dynamic == 0 {
        Tag::StaticArrayElement
    } else {
        Tag::ArrayElement
    }
}

#[tactic(auto, unfolding(definitions::specs::Lower::local_tag))]
pub fn local_tag(form: u8) -> Tag
    ensures { byte_of result ≡ local_tag form }
{
    match form {
        0 => Tag::This,
        1 => Tag::Local,
        2 => Tag::Param,
        _ => Tag::ObjectField,
    }
}

pub(crate) fn i32_tag(value: u64) -> Tag
    ensures { byte_of result ≡ slice_index_or (I32Zero ∷ I32One ∷ []) value I32Const }
{
    match value {
        0 => Tag::I32Zero,
        1 => Tag::I32One,
        _ => Tag::I32Const,
    }
}

// The tag whose byte is less by n. What is required says that there is one, so unwrap_or never falls back.
fn less(tag: Tag, n: u8) -> Tag
    requires { (n ≤ byte_of tag) × (emitted (byte_of tag - n) ≡ true) }
    ensures { byte_of result ≡ byte_of tag - n }
{
    Tag::try_from(tag.byte() - n).unwrap_or(tag)
}

// TrueConst stands right before FalseConst: less the mark, which is 0 or 1.
pub(crate) fn bool_tag(value: u64) -> Tag
    ensures { byte_of result ≡ slice_index_or (FalseConst ∷ []) value TrueConst }
{
    less(Tag::FalseConst, value.min(1) as u8)
}

// InvokeStatic stands right before InvokeVirtual: less 1 where any bit of the flag byte, which is below 16, is set. A closure call has none.
pub fn invoke_tag(flags: u8) -> Tag
    ensures { byte_of result ≡ cond (flags == 0) InvokeVirtual InvokeStatic }
{
    less(Tag::InvokeVirtual, (flags.min(15) + 15) / 16)
}

// The tags of constants, by their byte. What stands here of an I32 and of a Bool is not read: their tag is that of their value.
static CONST_TAGS: [Tag; 16] = [
    Tag::StringConst,
    Tag::CNameConst,
    Tag::ResourceConst,
    Tag::TweakDbIdConst,
    Tag::EnumConst,
    Tag::F32Const,
    Tag::F64Const,
    Tag::I8Const,
    Tag::I16Const,
    Tag::I32Const,
    Tag::I64Const,
    Tag::U8Const,
    Tag::U16Const,
    Tag::U32Const,
    Tag::U64Const,
    Tag::TrueConst,
];

// The tag of a constant, by its byte; an I32 of 0 or 1 and a Bool have tags of their own value.
pub(crate) fn const_tag(byte: usize, value: u64) -> Tag
    ensures { byte_of result ≡ const_tag byte value }
{
    match byte {
        CONST_I32 => i32_tag(value),
        CONST_BOOL => bool_tag(value),
        _ => CONST_TAGS.get(byte).copied().unwrap_or(Tag::Nop),
    }
}

// What an intrinsic emits, its tag and its size, where it has one; and how many type arguments it needs.
#[derive(Clone, Copy)]
struct Intrinsic(Tag, usize, usize);

// By code.
static INTRINSICS: [Intrinsic; 34] = [
    Intrinsic(Tag::Equals, 0, 1),
    Intrinsic(Tag::NotEquals, 0, 1),
    Intrinsic(Tag::ArrayClear, 0, 1),
    Intrinsic(Tag::ArraySize, 0, 1),
    Intrinsic(Tag::ArrayResize, 0, 1),
    Intrinsic(Tag::ArrayFindFirst, 0, 1),
    Intrinsic(Tag::ArrayFindLast, 0, 1),
    Intrinsic(Tag::ArrayContains, 0, 1),
    Intrinsic(Tag::ArrayCount, 0, 1),
    Intrinsic(Tag::ArrayPush, 0, 1),
    Intrinsic(Tag::ArrayPop, 0, 1),
    Intrinsic(Tag::ArrayInsert, 0, 1),
    Intrinsic(Tag::ArrayRemove, 0, 1),
    Intrinsic(Tag::ArrayGrow, 0, 1),
    Intrinsic(Tag::ArrayErase, 0, 1),
    Intrinsic(Tag::ArrayLast, 0, 1),
    Intrinsic(Tag::ArraySort, 0, 1),
    Intrinsic(Tag::ArraySortByPredicate, 0, 1),
    Intrinsic(Tag::ToString, 0, 1),
    Intrinsic(Tag::EnumToI32, 4, 1),
    Intrinsic(Tag::I32ToEnum, 4, 1),
    Intrinsic(Tag::I32ToEnum, 8, 1),
    Intrinsic(Tag::ToVariant, 0, 1),
    Intrinsic(Tag::FromVariant, 0, 1),
    Intrinsic(Tag::VariantIsDefined, 0, 0),
    Intrinsic(Tag::VariantIsRef, 0, 0),
    Intrinsic(Tag::VariantIsArray, 0, 0),
    Intrinsic(Tag::VariantTypeName, 0, 0),
    Intrinsic(Tag::AsRef, 0, 1),
    Intrinsic(Tag::Deref, 0, 1),
    Intrinsic(Tag::RefToWeakRef, 0, 1),
    Intrinsic(Tag::WeakRefToRef, 0, 1),
    Intrinsic(Tag::RefToBool, 0, 0),
    Intrinsic(Tag::CNameConst, 0, 1),
];

// The tag of an intrinsic, by its code.
pub fn intrinsic_tag(code: usize) -> Tag
    ensures { byte_of result ≡ (intrinsic_of code).tag }
{
    match INTRINSICS.get(code) {
        Some(i) => i.0,
        None => Tag::Nop,
    }
}

// Its size, where it has one.
pub fn intrinsic_small(code: usize) -> usize
    requires { code < 34 }
    ensures { (result ≡ (intrinsic_of code).small) × (result < 256) }
{
    INTRINSICS[code].1
}

// An intrinsic without short-circuit parameters and with as many type arguments as it needs: the four Variant queries and IsDefined none.
pub fn typed(code: usize, short: usize, types: usize) -> bool
    requires { code < 34 }
    ensures { result ≡ (short == 0 && types == (intrinsic_of code).types) }
{
    short == 0 && types == INTRINSICS[code].2
}
