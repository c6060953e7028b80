//! Relocates a load of a structure's member against the table of a kernel in which the member is elsewhere.

use btf::{Btf, BtfKind};
use btf_relocate::{CandidatePolicy, RelocationKind, Target, relocate_section};
use std::test::Fail;

/// Relocates `packet->data`, which is at byte 8 in the program's table. Prints the outcome, and the byte at which the
/// kernel has it.
pub fn print_relocated(rt: &HostRuntime, program: &mut Btf, kernel: &Btf) -> Result<(), Fail> {
    let alloc = rt.alloc();
    let packet = program.id_by_type_name_kind("packet", BtfKind::Struct)?;
    // What a compiler writes: the access string to the strings, and to `.BTF.ext` a record which says that the
    // instruction at byte 0 depends on the offset of member 2 of the structure.
    let access = program.add_string("0:2")?;
    let records = [[0, packet, access, RelocationKind::FieldByteOffset as u32]];
    // r1 = *(u64 *)(r1 + 8)
    let mut code = [0x79, 0x11, 8, 0, 0, 0, 0, 0];
    let target = Target::new(alloc, kernel)?;
    let outcomes = relocate_section(
        alloc,
        program,
        &target,
        &records,
        &mut code,
        CandidatePolicy::Shared,
    )?;
    for outcome in &outcomes {
        println!(rt; "packet.data: {outcome:?}, at byte {}", code[2])?;
    }
    Ok(())
}
