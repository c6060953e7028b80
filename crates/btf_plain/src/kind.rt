//! The kinds of types that a record describes.

ghost use Rattle.std.specs.Prelude.{Some};
ghost use Rattle.btf_plain.specs.Kind.{KindOfNumber, kind, kind_text};

use crate::error::BtfError;
use std::fmt;

/// The kind of a record, numbered as in the kernel's documentation, "Type Encoding".
#[derive(Copy, Clone, Debug, Eq, PartialEq, Default)]
pub enum BtfKind {
    /// The type of id 0, and a record of kind 0.
    #[default]
    Unknown = 0,
    /// An integer.
    Int = 1,
    /// A pointer.
    Ptr = 2,
    /// An array.
    Array = 3,
    /// A structure.
    Struct = 4,
    /// A union.
    Union = 5,
    /// An enumeration of 32-bit values.
    Enum = 6,
    /// A forward declaration.
    Fwd = 7,
    /// A name for a type.
    Typedef = 8,
    /// A volatile type.
    Volatile = 9,
    /// A constant type.
    Const = 10,
    /// A restricted pointer.
    Restrict = 11,
    /// A function.
    Func = 12,
    /// A function prototype.
    FuncProto = 13,
    /// A variable.
    Var = 14,
    /// A data section.
    DataSec = 15,
    /// A floating-point number.
    Float = 16,
    /// A tag of a declaration.
    DeclTag = 17,
    /// A tag of a type.
    TypeTag = 18,
    /// An enumeration of 64-bit values.
    Enum64 = 19,
}

impl TryFrom<u32> for BtfKind {
    type Error = BtfError;

    ghost try_from_gives = { KindOfNumber };

    /// The kind of a number. Numbers above 19 are `InvalidTypeKind`.
    fn try_from(number: u32) -> Result<Self, BtfError> {
        Ok(match number {
            0 => BtfKind::Unknown,
            1 => BtfKind::Int,
            2 => BtfKind::Ptr,
            3 => BtfKind::Array,
            4 => BtfKind::Struct,
            5 => BtfKind::Union,
            6 => BtfKind::Enum,
            7 => BtfKind::Fwd,
            8 => BtfKind::Typedef,
            9 => BtfKind::Volatile,
            10 => BtfKind::Const,
            11 => BtfKind::Restrict,
            12 => BtfKind::Func,
            13 => BtfKind::FuncProto,
            14 => BtfKind::Var,
            15 => BtfKind::DataSec,
            16 => BtfKind::Float,
            17 => BtfKind::DeclTag,
            18 => BtfKind::TypeTag,
            19 => BtfKind::Enum64,
            kind => return Err(BtfError::InvalidTypeKind { kind }),
        })
    }
}

impl fmt::Display for BtfKind {
    ghost output = { λ k. Some (kind_text (kind k)) };

    fn fmt<W: fmt::Write>(&self, f: &mut fmt::Formatter<W>) -> fmt::Result {
        let name = match self {
            BtfKind::Unknown => "[UNKNOWN]",
            BtfKind::Int => "[INT]",
            BtfKind::Ptr => "[PTR]",
            BtfKind::Array => "[ARRAY]",
            BtfKind::Struct => "[STRUCT]",
            BtfKind::Union => "[UNION]",
            BtfKind::Enum => "[ENUM]",
            BtfKind::Fwd => "[FWD]",
            BtfKind::Typedef => "[TYPEDEF]",
            BtfKind::Volatile => "[VOLATILE]",
            BtfKind::Const => "[CONST]",
            BtfKind::Restrict => "[RESTRICT]",
            BtfKind::Func => "[FUNC]",
            BtfKind::FuncProto => "[FUNC_PROTO]",
            BtfKind::Var => "[VAR]",
            BtfKind::DataSec => "[DATASEC]",
            BtfKind::Float => "[FLOAT]",
            BtfKind::DeclTag => "[DECL_TAG]",
            BtfKind::TypeTag => "[TYPE_TAG]",
            BtfKind::Enum64 => "[ENUM64]",
        };
        f.write_str(name)
    }
}
