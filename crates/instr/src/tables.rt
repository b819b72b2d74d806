// What goes with each tag: its virtual size, the fields it uses, and the tags of default bytes.
ghost use Rattle.std.specs.Prelude.{◌≡◌, ◌≤◌, option_map, slice_get};
ghost use Rattle.definitions.specs.Tag.{tag_size, row_of, default_tags};
ghost use Rattle.instr.specs.Values.{row_marks};
ghost use Rattle.instr.specs.Tags.{byte_of};

use crate::tag::Tag;

// The virtual size of each tag; 0 where the base emits no such tag.
pub static SIZES: [u8; 256] = [
    // 0x00
    1, // Nop
    1, // Null
    1, // I32One
    1, // I32Zero
    2, // I8Const
    3, // I16Const
    5, // I32Const
    9, // I64Const
    2, // U8Const
    3, // U16Const
    5, // U32Const
    9, // U64Const
    5, // F32Const
    9, // F64Const
    9, // CNameConst
    17, // EnumConst
    // 0x10
    5, // StringConst
    9, // TweakDbIdConst
    9, // ResourceConst
    1, // TrueConst
    1, // FalseConst
    0, 1, // Assign
    0, 9, // Local
    9, // Param
    9, // ObjectField
    0, 11, // Switch
    5, // SwitchLabel
    1, // SwitchDefault
    3, // Jump (no condition)
    // 0x20
    3, // JumpIfFalse
    3, // Skip
    5, // Conditional
    10, // Construct
    15, // InvokeStatic
    15, // InvokeVirtual
    1, // ParamEnd
    1, // Return
    9, // StructField
    3, // Context
    9, // Equals
    0, 0, 9, // NotEquals
    0, 0,
    // 0x30
    9, // New
    0, 1, // This
    0, 9, // ArrayClear
    9, // ArraySize
    9, // ArrayResize
    9, // ArrayFindFirst
    0, 9, // ArrayFindLast
    0, 9, // ArrayContains
    0, 9, // ArrayCount
    0, 9, // ArrayPush
    // 0x40
    9, // ArrayPop
    9, // ArrayInsert
    9, // ArrayRemove
    0, 9, // ArrayGrow
    9, // ArrayErase
    0, 9, // ArrayLast
    9, // ArrayElement
    9, // ArraySort
    9, // ArraySortByPredicate
    0, 0, 0, 0, 0,
    // 0x50
    0, 0, 0, 0, 0, 9, // StaticArrayElement
    1, // RefToBool
    0, 10, // EnumToI32
    10, // I32ToEnum
    10, // DynamicCast
    9, // ToString
    9, // ToVariant
    9, // FromVariant
    1, // VariantIsDefined
    1, // VariantIsRef
    // 0x60
    1, // VariantIsArray
    1, // VariantTypeName
    0, 1, // WeakRefToRef
    1, // RefToWeakRef
    1, // WeakRefNull
    9, // AsRef
    9, // Deref
    0, 0, 0, 0, 0, 0, 0, 0,
    // 0x70
    0, 0, 0, 0, 0, 0, 0, 0, 0, 0, 0, 0, 0, 0, 0, 0,
    // 0x80
    0, 0, 0, 0, 0, 0, 0, 0, 0, 0, 0, 0, 0, 0, 0, 0,
    // 0x90
    0, 0, 0, 0, 0, 0, 0, 0, 0, 0, 0, 0, 0, 0, 0, 0,
    // 0xA0
    0, 0, 0, 0, 0, 0, 0, 0, 0, 0, 0, 0, 0, 0, 0, 0,
    // 0xB0
    0, 0, 0, 0, 0, 0, 0, 0, 0, 0, 0, 0, 0, 0, 0, 0,
    // 0xC0
    0, 0, 0, 0, 0, 0, 0, 0, 0, 0, 0, 0, 0, 0, 0, 0,
    // 0xD0
    0, 0, 0, 0, 0, 0, 0, 0, 0, 0, 0, 0, 0, 0, 0, 0,
    // 0xE0
    0, 0, 0, 0, 0, 0, 0, 0, 0, 0, 0, 0, 0, 0, 0, 0,
    // 0xF0
    0, 0, 0, 0, 0, 0, 0, 0, 0, 0, 0, 0, 0, 0, 0, 0,
];

/// The fields of a record that a tag uses, each by its mark, the most that the field may hold: all ones of its type where the tag uses
/// it, and else 0. So one compare of a field with its mark says that an unused field is 0, and says nothing of a used one. A tag uses the
/// fields whose mark is not 0.
#[derive(Clone, Copy, Debug, PartialEq, Eq)]
pub struct Row {
    pub small: u8,
    pub first: u16,
    pub second: u16,
    pub line: u16,
    pub flags: u16,
    pub value: u64,
}

// No field.
const O: Row = Row {
    small: 0,
    first: 0,
    second: 0,
    line: 0,
    flags: 0,
    value: 0,
};

// An index or a constant.
const V: Row = Row {
    small: 0,
    first: 0,
    second: 0,
    line: 0,
    flags: 0,
    value: u64::MAX,
};

// The only label.
const J: Row = Row {
    small: 0,
    first: u16::MAX,
    second: 0,
    line: 0,
    flags: 0,
    value: 0,
};

// first_case and the type.
const S: Row = Row {
    small: 0,
    first: u16::MAX,
    second: 0,
    line: 0,
    flags: 0,
    value: u64::MAX,
};

// Two labels: false_label and exit, next_case and body.
const P: Row = Row {
    small: 0,
    first: u16::MAX,
    second: u16::MAX,
    line: 0,
    flags: 0,
    value: 0,
};

// arg_count, size or is_weak, and an index.
const C: Row = Row {
    small: u8::MAX,
    first: 0,
    second: 0,
    line: 0,
    flags: 0,
    value: u64::MAX,
};

// exit, line, flags and the function or its name.
const I: Row = Row {
    small: 0,
    first: u16::MAX,
    second: 0,
    line: u16::MAX,
    flags: u16::MAX,
    value: u64::MAX,
};

// The fields of each tag.
pub static ROWS: [Row; 256] = [
    // 0x00
    O, // Nop
    O, // Null
    O, // I32One
    O, // I32Zero
    V, // I8Const
    V, // I16Const
    V, // I32Const
    V, // I64Const
    V, // U8Const
    V, // U16Const
    V, // U32Const
    V, // U64Const
    V, // F32Const
    V, // F64Const
    V, // CNameConst
    V, // EnumConst
    // 0x10
    V, // StringConst
    V, // TweakDbIdConst
    V, // ResourceConst
    O, // TrueConst
    O, // FalseConst
    O, O, // Assign
    O, V, // Local
    V, // Param
    V, // ObjectField
    O, S, // Switch
    P, // SwitchLabel
    O, // SwitchDefault
    J, // Jump
    // 0x20
    J, // JumpIfFalse
    J, // Skip
    P, // Conditional
    C, // Construct
    I, // InvokeStatic
    I, // InvokeVirtual
    O, // ParamEnd
    O, // Return
    V, // StructField
    J, // Context
    V, // Equals
    O, O, V, // NotEquals
    O, O,
    // 0x30
    V, // New
    O, O, // This
    O, V, // ArrayClear
    V, // ArraySize
    V, // ArrayResize
    V, // ArrayFindFirst
    O, V, // ArrayFindLast
    O, V, // ArrayContains
    O, V, // ArrayCount
    O, V, // ArrayPush
    // 0x40
    V, // ArrayPop
    V, // ArrayInsert
    V, // ArrayRemove
    O, V, // ArrayGrow
    V, // ArrayErase
    O, V, // ArrayLast
    V, // ArrayElement
    V, // ArraySort
    V, // ArraySortByPredicate
    O, O, O, O, O,
    // 0x50
    O, O, O, O, O, V, // StaticArrayElement
    O, // RefToBool
    O, C, // EnumToI32
    C, // I32ToEnum
    C, // DynamicCast
    V, // ToString
    V, // ToVariant
    V, // FromVariant
    O, // VariantIsDefined
    O, // VariantIsRef
    // 0x60
    O, // VariantIsArray
    O, // VariantTypeName
    O, O, // WeakRefToRef
    O, // RefToWeakRef
    O, // WeakRefNull
    V, // AsRef
    V, // Deref
    O, O, O, O, O, O, O, O,
    // 0x70
    O, O, O, O, O, O, O, O, O, O, O, O, O, O, O, O,
    // 0x80
    O, O, O, O, O, O, O, O, O, O, O, O, O, O, O, O,
    // 0x90
    O, O, O, O, O, O, O, O, O, O, O, O, O, O, O, O,
    // 0xA0
    O, O, O, O, O, O, O, O, O, O, O, O, O, O, O, O,
    // 0xB0
    O, O, O, O, O, O, O, O, O, O, O, O, O, O, O, O,
    // 0xC0
    O, O, O, O, O, O, O, O, O, O, O, O, O, O, O, O,
    // 0xD0
    O, O, O, O, O, O, O, O, O, O, O, O, O, O, O, O,
    // 0xE0
    O, O, O, O, O, O, O, O, O, O, O, O, O, O, O, O,
    // 0xF0
    O, O, O, O, O, O, O, O, O, O, O, O, O, O, O, O,
];

// The tags of the default bytes 5 to 21.
pub static DEFAULT_TAGS: [Tag; 17] = [
    Tag::StringConst,
    Tag::CNameConst,
    Tag::ResourceConst,
    Tag::TweakDbIdConst,
    Tag::F32Const,
    Tag::F64Const,
    Tag::I8Const,
    Tag::I16Const,
    Tag::I32Zero,
    Tag::I64Const,
    Tag::U8Const,
    Tag::U16Const,
    Tag::U32Const,
    Tag::U64Const,
    Tag::FalseConst,
    Tag::Null,
    Tag::WeakRefNull,
];

// The virtual size of a record with this tag.
pub fn size_of(tag: u8) -> u8
    ensures { (result ≡ tag_size tag) × (result ≤ 17) }
{
    SIZES[usize::from(tag)]
}

/// The row of a tag, by its number: no field of a number that is no tag.
pub fn row_of(tag: u8) -> Row
    ensures { result ≡ row_marks (row_of tag) }
{
    ROWS[usize::from(tag)]
}

// The tag of primitive k, counted from default byte 5 on; none for a primitive with no value.
pub fn default_tag(k: usize) -> Option<Tag>
    ensures { option_map byte_of result ≡ slice_get default_tags k }
{
    DEFAULT_TAGS.get(k).copied()
}
