//! Whether a program's type is compatible with the kernel's type of the same name, as a relocation engine asks.

use btf::{Btf, BtfKind, types_are_compatible_traced};
use std::test::Fail;

/// Prints whether the TYPEDEFs of this name are compatible in both tables, and the number of compared pairs of types.
///
/// Hostile tables may be cyclic and arbitrarily nested: the comparison does not recurse, and compares no pair twice.
pub fn print_compatible(
    rt: &HostRuntime,
    program: &Btf,
    kernel: &Btf,
    name: &str,
) -> Result<(), Fail> {
    let local = program.id_by_type_name_kind(name, BtfKind::Typedef)?;
    let target = kernel.id_by_type_name_kind(name, BtfKind::Typedef)?;
    let mut pairs = Vec::new(rt.alloc());
    let compatible = types_are_compatible_traced(program, local, kernel, target, &mut pairs)?;
    println!(rt;
        "{name}: compatible {compatible}, {} pairs compared",
        pairs.len()
    )?;
    Ok(())
}
