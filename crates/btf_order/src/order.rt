//! The order of the declarations of a table.

ghost use Rattle.std.specs.Prelude.{MatchResult, OnOk, ℕ};
ghost use Rattle.btf_order_model.specs.Order.{IsHeaderOrder};
ghost use Rattle.btf_order_model.specs.Uses.{IsUsedAndUnknown};
ghost use Rattle.btf_order_model.specs.Loops.{IsOnObjectLoop};
ghost use Rattle.btf_order.specs.Errors.{IsOrderError};

use crate::progress::Progress;
use crate::referenced::find_referenced;
use crate::run::run;
use btf_plain::BtfError;
use btf_table::{Btf, type_count};

/// The ids of the types that a C header declares for a table, each after the types that its declaration needs, in the
/// order of libbpf's `btf_dump`.
///
/// Fails with `UnknownBtfType` of an id to which a type refers and that has no type, and with `MaximumTypeDepthReached`
/// of the id of a type that needs itself, where a forward declaration is not enough. Fails with `OutOfMemory` if an
/// allocation fails. A table with an unknown id that a type uses always fails, and so does one with a type that needs
/// itself, unless each such loop has a prototype that is not behind a pointer.
///
/// Takes time and memory linear in the records of the table, whatever they refer to, because a type is walked once by
/// value and at most 16 times through pointers.
pub fn header_order(table: &Btf) -> Result<Vec<u32>, BtfError>
    ensures order { MatchResult result (λ ids. IsHeaderOrder table.now.records ids.items)
        (λ e. IsOrderError table.now.records e) }
    ensures known { OnOk result ((id : ℕ) → ¬ (IsUsedAndUnknown table.now.records id)) }
    ensures no_loop { OnOk result ((id : ℕ) → ¬ (IsOnObjectLoop table.now.records id)) }
{
    let mut progress = Progress::new(table, find_referenced(table)?)?;
    for id in 0..type_count(table) {
        if progress.pass(table, id) {
            continue;
        }
        run(table, id, &mut progress)?;
    }
    Ok(progress.ids)
}
