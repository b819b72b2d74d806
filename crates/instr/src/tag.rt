// The 77 instructions that the base emits, by the names of instr.rs. Each is written as its byte.
ghost use Rattle.std.specs.Prelude.{◌≡◌, ◌≤◌};
ghost use Rattle.definitions.specs.Tag.{tag_size, row_of};
ghost use Rattle.instr.specs.Values.{row_marks};
ghost use Rattle.instr.specs.Tags.{byte_of, Decodes};

use crate::tables;
use crate::tables::Row;
use std::error::Error;
use std::fmt;

#[derive(Clone, Copy, Debug, PartialEq, Eq)]
pub enum Tag {
    Nop = 0x00,
    Null = 0x01,
    I32One = 0x02,
    I32Zero = 0x03,
    I8Const = 0x04,
    I16Const = 0x05,
    I32Const = 0x06,
    I64Const = 0x07,
    U8Const = 0x08,
    U16Const = 0x09,
    U32Const = 0x0A,
    U64Const = 0x0B,
    F32Const = 0x0C,
    F64Const = 0x0D,
    CNameConst = 0x0E,
    EnumConst = 0x0F,
    StringConst = 0x10,
    TweakDbIdConst = 0x11,
    ResourceConst = 0x12,
    TrueConst = 0x13,
    FalseConst = 0x14,
    Assign = 0x16,
    Local = 0x18,
    Param = 0x19,
    ObjectField = 0x1A,
    Switch = 0x1C,
    SwitchLabel = 0x1D,
    SwitchDefault = 0x1E,
    Jump = 0x1F,
    JumpIfFalse = 0x20,
    Skip = 0x21,
    Conditional = 0x22,
    Construct = 0x23,
    InvokeStatic = 0x24,
    InvokeVirtual = 0x25,
    ParamEnd = 0x26,
    Return = 0x27,
    StructField = 0x28,
    Context = 0x29,
    Equals = 0x2A,
    NotEquals = 0x2D,
    New = 0x30,
    This = 0x32,
    ArrayClear = 0x34,
    ArraySize = 0x35,
    ArrayResize = 0x36,
    ArrayFindFirst = 0x37,
    ArrayFindLast = 0x39,
    ArrayContains = 0x3B,
    ArrayCount = 0x3D,
    ArrayPush = 0x3F,
    ArrayPop = 0x40,
    ArrayInsert = 0x41,
    ArrayRemove = 0x42,
    ArrayGrow = 0x44,
    ArrayErase = 0x45,
    ArrayLast = 0x47,
    ArrayElement = 0x48,
    ArraySort = 0x49,
    ArraySortByPredicate = 0x4A,
    StaticArrayElement = 0x55,
    RefToBool = 0x56,
    EnumToI32 = 0x58,
    I32ToEnum = 0x59,
    DynamicCast = 0x5A,
    ToString = 0x5B,
    ToVariant = 0x5C,
    FromVariant = 0x5D,
    VariantIsDefined = 0x5E,
    VariantIsRef = 0x5F,
    VariantIsArray = 0x60,
    VariantTypeName = 0x61,
    WeakRefToRef = 0x63,
    RefToWeakRef = 0x64,
    WeakRefNull = 0x65,
    AsRef = 0x66,
    Deref = 0x67,
}

impl Tag {
    pub fn byte(self) -> u8
        ensures { result ≡ byte_of self }
    {
        self as u8
    }

    // Its virtual size.
    pub fn size(self) -> u8
        ensures { (result ≡ tag_size (byte_of self)) × (result ≤ 17) }
    {
        tables::size_of(self.byte())
    }

    /// Its row: the fields that it uses.
    pub fn row(self) -> Row
        ensures { result ≡ row_marks (row_of (byte_of self)) }
    {
        tables::row_of(self.byte())
    }
}

// A byte that the base emits for no instruction.
#[derive(Clone, Copy, Debug, PartialEq, Eq)]
pub struct NoTag(pub u8);

impl fmt::Display for NoTag {
    fn fmt<W: fmt::Write>(&self, f: &mut fmt::Formatter<W>) -> fmt::Result {
        write!(f, "no tag has number {}", self.0)
    }
}

impl Error for NoTag {}

// Written out: no derive makes it, and the match is the table that a reader checks.
impl TryFrom<u8> for Tag {
    type Error = NoTag;

    ghost try_from_gives = { Decodes };

    fn try_from(byte: u8) -> Result<Self, NoTag> {
        match byte {
            0x00 => Ok(Tag::Nop),
            0x01 => Ok(Tag::Null),
            0x02 => Ok(Tag::I32One),
            0x03 => Ok(Tag::I32Zero),
            0x04 => Ok(Tag::I8Const),
            0x05 => Ok(Tag::I16Const),
            0x06 => Ok(Tag::I32Const),
            0x07 => Ok(Tag::I64Const),
            0x08 => Ok(Tag::U8Const),
            0x09 => Ok(Tag::U16Const),
            0x0A => Ok(Tag::U32Const),
            0x0B => Ok(Tag::U64Const),
            0x0C => Ok(Tag::F32Const),
            0x0D => Ok(Tag::F64Const),
            0x0E => Ok(Tag::CNameConst),
            0x0F => Ok(Tag::EnumConst),
            0x10 => Ok(Tag::StringConst),
            0x11 => Ok(Tag::TweakDbIdConst),
            0x12 => Ok(Tag::ResourceConst),
            0x13 => Ok(Tag::TrueConst),
            0x14 => Ok(Tag::FalseConst),
            0x16 => Ok(Tag::Assign),
            0x18 => Ok(Tag::Local),
            0x19 => Ok(Tag::Param),
            0x1A => Ok(Tag::ObjectField),
            0x1C => Ok(Tag::Switch),
            0x1D => Ok(Tag::SwitchLabel),
            0x1E => Ok(Tag::SwitchDefault),
            0x1F => Ok(Tag::Jump),
            0x20 => Ok(Tag::JumpIfFalse),
            0x21 => Ok(Tag::Skip),
            0x22 => Ok(Tag::Conditional),
            0x23 => Ok(Tag::Construct),
            0x24 => Ok(Tag::InvokeStatic),
            0x25 => Ok(Tag::InvokeVirtual),
            0x26 => Ok(Tag::ParamEnd),
            0x27 => Ok(Tag::Return),
            0x28 => Ok(Tag::StructField),
            0x29 => Ok(Tag::Context),
            0x2A => Ok(Tag::Equals),
            0x2D => Ok(Tag::NotEquals),
            0x30 => Ok(Tag::New),
            0x32 => Ok(Tag::This),
            0x34 => Ok(Tag::ArrayClear),
            0x35 => Ok(Tag::ArraySize),
            0x36 => Ok(Tag::ArrayResize),
            0x37 => Ok(Tag::ArrayFindFirst),
            0x39 => Ok(Tag::ArrayFindLast),
            0x3B => Ok(Tag::ArrayContains),
            0x3D => Ok(Tag::ArrayCount),
            0x3F => Ok(Tag::ArrayPush),
            0x40 => Ok(Tag::ArrayPop),
            0x41 => Ok(Tag::ArrayInsert),
            0x42 => Ok(Tag::ArrayRemove),
            0x44 => Ok(Tag::ArrayGrow),
            0x45 => Ok(Tag::ArrayErase),
            0x47 => Ok(Tag::ArrayLast),
            0x48 => Ok(Tag::ArrayElement),
            0x49 => Ok(Tag::ArraySort),
            0x4A => Ok(Tag::ArraySortByPredicate),
            0x55 => Ok(Tag::StaticArrayElement),
            0x56 => Ok(Tag::RefToBool),
            0x58 => Ok(Tag::EnumToI32),
            0x59 => Ok(Tag::I32ToEnum),
            0x5A => Ok(Tag::DynamicCast),
            0x5B => Ok(Tag::ToString),
            0x5C => Ok(Tag::ToVariant),
            0x5D => Ok(Tag::FromVariant),
            0x5E => Ok(Tag::VariantIsDefined),
            0x5F => Ok(Tag::VariantIsRef),
            0x60 => Ok(Tag::VariantIsArray),
            0x61 => Ok(Tag::VariantTypeName),
            0x63 => Ok(Tag::WeakRefToRef),
            0x64 => Ok(Tag::RefToWeakRef),
            0x65 => Ok(Tag::WeakRefNull),
            0x66 => Ok(Tag::AsRef),
            0x67 => Ok(Tag::Deref),
            _ => Err(NoTag(byte)),
        }
    }
}
