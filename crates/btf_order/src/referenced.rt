//! The types to which another type refers.

ghost use Rattle.std.specs.Prelude.{◌≡◌, length, IfOk};

use btf_records::BtfType;
use btf_table::{Btf, allocator_of, type_count};
use std::alloc::AllocError;

/// For each type, whether another type refers to it. The return type of a prototype does not count, as in libbpf.
pub fn find_referenced(table: &Btf) -> Result<Vec<bool>, AllocError>
    ensures { IfOk result (λ flags. length flags.items ≡ length table.now.records) }
{
    let mut flags = vec![in allocator_of(table); false; type_count(table) as usize]?;
    for btf_type in table.types() {
        mark_types(&mut flags, btf_type);
    }
    Ok(flags)
}

/// Marks the types to which a type refers.
fn mark_types(flags: &mut [bool], btf_type: &BtfType) {
    match btf_type {
        BtfType::Ptr(t) => mark(flags, t.btf_type()),
        BtfType::Array(t) => {
            mark(flags, t.array().element_type);
            mark(flags, t.array().index_type);
        }
        BtfType::Struct(t) => {
            for member in t.members() {
                mark(flags, member.btf_type);
            }
        }
        BtfType::Union(t) => {
            for member in t.members() {
                mark(flags, member.btf_type);
            }
        }
        BtfType::Typedef(t) => mark(flags, t.btf_type()),
        BtfType::Volatile(t) => mark(flags, t.btf_type()),
        BtfType::Const(t) => mark(flags, t.btf_type()),
        BtfType::Restrict(t) => mark(flags, t.btf_type()),
        BtfType::TypeTag(t) => mark(flags, t.btf_type()),
        BtfType::Func(t) => mark(flags, t.btf_type()),
        BtfType::Var(t) => mark(flags, t.btf_type()),
        BtfType::DeclTag(t) => mark(flags, t.btf_type()),
        BtfType::FuncProto(t) => {
            for param in t.params() {
                mark(flags, param.btf_type);
            }
        }
        BtfType::DataSec(t) => {
            for entry in t.entries() {
                mark(flags, entry.btf_type);
            }
        }
        _ => {}
    }
}

/// Marks a type, if there is one of this id.
fn mark(flags: &mut [bool], type_id: u32) {
    if let Some(flag) = flags.get_mut(type_id as usize) {
        *flag = true;
    }
}
