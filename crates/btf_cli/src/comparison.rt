//! The comparison of two types of one table.

ghost use Rattle.btf_plain.specs.Error.{MeetsOrNoMemory};
ghost use Rattle.btf_cli.specs.Answer.{ComparesWithin};

use btf_compare::types_are_compatible_traced;
use btf_plain::BtfError;
use btf_table::Btf;
use std::alloc::Global;

/// Whether the types of two ids are compatible, and the number of pairs that the comparison started.
pub fn compare_ids(
    alloc: Global,
    table: &Btf,
    id: u32,
    other: u32,
) -> Result<(bool, usize), BtfError>
    ensures { MeetsOrNoMemory (λ found. found) result (ComparesWithin table.now id other) }
{
    let mut starts = Vec::new(alloc);
    let answer = types_are_compatible_traced(table, id, table, other, &mut starts)?;
    Ok((answer, starts.len()))
}
