//! The record, and all its kinds but UNION: errors, the numbers of kinds, words, items and lists of items.
#![tactic(auto)]

mod array;
mod btf_array;
mod bytes;
mod data_sec;
mod decl_tag;
mod encoding;
mod enumeration;
mod enumeration64;
mod error;
mod fallback;
mod float;
mod func;
mod func_proto;
mod fwd;
mod head;
mod int;
mod item;
mod item_list;
mod items;
mod kind;
mod linkage;
mod list;
mod record;
mod refs;
mod section_index;
mod structure;
mod var;
mod words;

pub use array::{Array, ArrayKind};
pub use btf_array::BtfArray;
pub use btf_model::Endianness;
pub use bytes::{push_array, split_word};
pub use data_sec::{DataSec, DataSecKind};
pub use decl_tag::{DeclTag, DeclTagKind};
pub use encoding::IntEncoding;
pub use enumeration::{Enum, EnumKind};
pub use enumeration64::{Enum64, Enum64Kind};
pub use error::BtfError;
pub use fallback::{Enum64Fallback, Enum64VariantFallback};
pub use float::{Float, FloatKind};
pub use func::{Func, FuncKind};
pub use func_proto::{FuncProto, FuncProtoKind, as_enum};
pub use fwd::{Fwd, FwdKind};
pub use head::Head;
pub use int::{Int, IntKind};
pub use item::{Item, push_items, read_items};
pub use item_list::{ItemList, as_variants};
pub use items::{BtfEnum, BtfEnum64, BtfMember, BtfParam, DataSecEntry};
pub use kind::BtfKind;
pub use linkage::{FuncLinkage, VarLinkage};
pub use list::{Items, MAX_VLEN};
pub use record::{Enumerates, Kind, Measured, Record, Refers};
pub use refs::{
    Const, ConstKind, Ptr, PtrKind, Restrict, RestrictKind, TypeTag, TypeTagKind, Typedef,
    TypedefKind, Volatile, VolatileKind,
};
pub use section_index::SectionIndex;
pub use structure::{Struct, StructKind, bit_field_size, bit_offset};
pub use var::{Var, VarKind};
pub use words::{Fixed, Words};
