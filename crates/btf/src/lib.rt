//! BTF, the Linux kernel's type metadata for BPF programs: the one crate to import.
//!
//! A table of BTF has a header, type records, whose ids are their positions, and strings. [`Btf::parse`] reads the
//! bytes of a `.BTF` section or of `/sys/kernel/btf/vmlinux`, and [`Btf::to_bytes`] writes them. A table can be
//! searched, compared with another one, and rewritten for a kernel that lacks some features.
//!
//! Every call terminates on every input. A call on invalid data returns the first error in a documented order, and a
//! failed change leaves the table unchanged. The clauses of a call state its result, in the definitions of
//! `btf::specs`, and the checker proves each clause for every input before anything is built.
//!
//! The size of a structure that a table has by name:
//!
//! ```text
//! let table = Btf::parse(alloc, &bytes, Endianness::Little)?;
//! let id = table.id_by_type_name_kind("task_struct", BtfKind::Struct)?;
//! let size = table.type_size(id)?;
//! ```
//!
//! Each item is defined in a crate below, by its topic, and re-exported here.
#![tactic(auto)]

pub use btf_above::{relocations_of, variant_value};
pub use btf_compare::{fields_are_compatible, types_are_compatible, types_are_compatible_traced};
pub use btf_ext::{
    BtfExt, FuncInfo, FuncSecInfo, LineInfo, LineSecInfo, SecInfo, SecInfoIter, bpf_func_info,
    bpf_line_info,
};
pub use btf_plain::{
    Array, BtfArray, BtfError, BtfKind, Const, DeclTag, Endianness, Float, Func, FuncLinkage, Fwd,
    Int, IntEncoding, MAX_VLEN, Ptr, Restrict, SectionIndex, TypeTag, Typedef, Var, VarLinkage,
    Volatile,
};
pub use btf_records::{
    BtfEnum, BtfEnum64, BtfMember, BtfParam, BtfType, DataSec, DataSecEntry, Enum, Enum64,
    Enum64Fallback, Enum64VariantFallback, FuncProto, Struct, Union,
};
pub use btf_table::{
    Btf, BtfFeature, BtfFeatureResolver, BtfStr, FeatureAnswer, FillPolicy, KsymsIds,
    rewrite_bytes, rewrite_bytes_with,
};
