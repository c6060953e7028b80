//! A caller that proves something of its own from the library's contracts.

ghost use Rattle.std.specs.Prelude.{IfOk, Ok};
ghost use Rattle.btf.specs.Value.{Value};

use btf::{Btf, BtfError, BtfFeatureResolver, BtfKind, variant_value};
use std::alloc::Global;
use std::collections::HashMap;
use std::test::Fail;

/// The value of a variant, looked up before the table is rewritten for a kernel that has none of the features.
///
/// The clause is this caller's own: the name has the same value in the rewritten table, or none if it had none before.
/// So a caller that stores the value need not look it up again. The clause follows from the clause `value` of
/// `variant_value` and the clause `values` of `Btf::fixup_and_sanitize`. The checker rejects a body for which it does
/// not hold.
fn lasting_value(
    alloc: Global,
    table: &mut Btf,
    id: u32,
    name: &str,
) -> Result<Option<u64>, BtfError>
    ensures { IfOk result (λ found. Value table.new id name.now (Ok found)) }
{
    let found = variant_value(table, id, name)?;
    let sections = HashMap::new(alloc);
    let symbols = HashMap::new(alloc);
    let mut kernel = BtfFeatureResolver::new(|_| false);
    table.fixup_and_sanitize(&sections, &symbols, None, &mut kernel)?;
    Ok(found)
}

/// Prints the values of some variants of an enumeration, which the rewritten table has too.
pub fn print_values(rt: &HostRuntime, table: &mut Btf, name: &str) -> Result<(), Fail> {
    let id = table.id_by_type_name_kind(name, BtfKind::Enum)?;
    for variant in ["PASS", "REDIRECT", "ABORT"] {
        match lasting_value(rt.alloc(), table, id, variant)? {
            Some(value) => println!(rt; "{variant}: {value}"),
            None => println!(rt; "{variant}: no such variant"),
        }?;
    }
    Ok(())
}
