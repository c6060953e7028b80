//! Objects that wait for a linker.

use crate::fault::Fault;
use crate::split::table_of;
use btf_object::SanitizeError;
use btf_plain::{BtfError, VarLinkage};
use btf_records::BtfType;
use btf_table::{Btf, name_bytes};
use std::alloc::Global;

/// The fault of a rewrite of a file. It becomes `Unlinked` if the size of a section is unknown, and a section has
/// variables that another object defines.
pub fn explain(alloc: Global, bytes: &[u8], fault: Fault) -> Fault {
    if !is_unknown_size(&fault) {
        return fault;
    }
    match table_of(alloc, bytes) {
        Some(table) if is_unlinked(&table) => Fault::Unlinked,
        _ => fault,
    }
}

/// Whether the size of a section is unknown.
fn is_unknown_size(fault: &Fault) -> bool {
    match fault {
        Fault::Rewrite(SanitizeError::Table(e)) => {
            matches!(e, BtfError::UnknownSectionSize { .. })
        }
        _ => false,
    }
}

/// Whether a section has an extern variable that is not the kernel's.
fn is_unlinked(table: &Btf) -> bool {
    for btf_type in table.types() {
        if has_foreign(table, btf_type) {
            return true;
        }
    }
    false
}

/// Whether a type is a DATASEC with an extern variable. The variables of `.ksyms` and `.kconfig` are the kernel's.
fn has_foreign(table: &Btf, btf_type: &BtfType) -> bool {
    let BtfType::DataSec(section) = btf_type else {
        return false;
    };
    match name_bytes(table, btf_type) {
        Some(b".ksyms" | b".kconfig") => false,
        _ => section
            .entries()
            .iter()
            .any(|it| is_extern(table, it.btf_type)),
    }
}

/// Whether a type is an extern variable.
fn is_extern(table: &Btf, type_id: u32) -> bool {
    match table.type_by_id(type_id) {
        Ok(BtfType::Var(var)) => var.linkage() == VarLinkage::Extern,
        _ => false,
    }
}
