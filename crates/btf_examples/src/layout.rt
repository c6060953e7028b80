//! The size and the layout of a structure, by its name.

use btf::{Btf, BtfKind, BtfType};
use std::test::Fail;

/// Prints the size of a structure, and the first bit of each of its members.
pub fn print_struct(rt: &HostRuntime, table: &Btf, name: &str) -> Result<(), Fail> {
    let id = table.id_by_type_name_kind(name, BtfKind::Struct)?;
    println!(rt; "struct {name}: {} bytes", table.type_size(id)?)?;
    if let BtfType::Struct(structure) = table.type_by_id(id)? {
        for member in structure.members() {
            let name = table.string_at(member.name_offset)?;
            let first = structure.member_bit_offset(member);
            println!(rt; "    {}: from bit {first}", name.as_str())?;
        }
    }
    Ok(())
}
