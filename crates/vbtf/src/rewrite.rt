//! The rewrite of a table for a kernel that lacks some features.

ghost use Rattle.std.specs.Prelude.{◌≡◌, ◌≢◌, ◌⊎◌, IfOk, OnOk, OnErr};
ghost use Rattle.btf.specs.Layout.{layout_of};
ghost use Rattle.btf_table.specs.Rewrites.{NeedsAreGranted, KeepsMeaning};
ghost use Rattle.btf_plain.specs.Error.{MeetsOrNoMemory};
ghost use Rattle.btf_rewrite_model.specs.FeatureSet.{has_bit};
ghost use Rattle.vbtf.specs.Kernel.{policy_chosen, ids_chosen, rewrite_chosen, ListsAnswers, RewritesChosen, ReportsAsked, ReportsGranted, RewritesNamed, RefusesUnreadable};
ghost use Rattle.vbtf.specs.Program.{layout_named, program_layout};
ghost use Rattle.vbtf.specs.Status.{no_memory};

use crate::fault::{CLOSED, Fault, INVALID_ARGUMENT, report};
use crate::handle::{Handle, OWNED, owner};
use crate::kernel::{Asked, Kernel};
use crate::program::{Named, Program};
use crate::seed::Keys;
use crate::taken::take_to_change;
use arrayvec::ArrayVec;
use btf::{Btf, BtfError, BtfFeature, BtfFeatureResolver, FeatureAnswer};
use std::alloc::Global;

/// Closes the index of the table that a handle owns, rewrites the table for a kernel, and reports the features that the
/// rewrite asked about.
/// `sections` has the sizes of the program's sections, and `symbols` the offsets of its symbols. Their names are in
/// `section_names` and `symbol_names`, which can be the string tables of an object. `seed` is a random number, with
/// which the names are hashed.
///
/// Status 2, 6, 9, 10, 13, 14 or 15 with the first error, 20 if an allocation fails, 101 if the
/// handle's state is not 1, and 102 if a name is not in its buffer, or is not UTF-8; the table is then unchanged, and
/// `asked` has the first features that the rewrite asks about.
#[unsafe(no_mangle)]
pub extern "C" fn vbtf_raw_rewrite(
    alloc: Global,
    table: &mut Handle,
    section_names: &[u8],
    sections: &[Named],
    symbol_names: &[u8],
    symbols: &[Named],
    kernel: &Kernel,
    seed: u64,
    asked: &mut Asked,
    fault: &mut Fault,
) -> u32
    ensures ends { RewritesNamed table.old table.new section_names.now sections.now
        symbol_names.now symbols.now kernel.now asked.new fault.new result }
    ensures closed { table.old.state ≢ 1 → (result ≡ CLOSED) × (table.new ≡ table.old) }
    ensures unreadable { RefusesUnreadable table.old table.new section_names.now sections.now
        symbol_names.now symbols.now result }
    // Whether the rewrite succeeds or fails, the reported features are the first ones that it asks for, each with
    // whether the kernel has it; there are none if the call fails before the rewrite begins.
    ensures asked { ReportsAsked kernel.now (layout_named section_names.now sections.now
        symbol_names.now symbols.now) table.old.opened.btf asked.new }
    // The kernel has each feature that it needs for the new table.
    ensures granted { result ≡ 0 → ReportsGranted kernel.now table.old.opened.btf
        table.new.opened.btf asked.new }
    // The record states which sizes, resolutions and values of variants are unchanged, and that at most four types
    // are appended.
    ensures kept { result ≡ 0 → KeepsMeaning table.old.opened.btf table.new.opened.btf }
{
    asked.list(&[]);
    if table.read_state() != OWNED {
        return CLOSED;
    }
    let keys = Keys { seed };
    let program = match Program::read(alloc, keys, section_names, sections, symbol_names, symbols) {
        Ok(Some(program)) => program,
        Ok(None) => return INVALID_ARGUMENT,
        Err(_) => return report(BtfError::OutOfMemory, fault),
    };
    let Some(mut whole) = take_to_change(alloc, table) else {
        return CLOSED;
    };
    let answer = rewrite(&mut whole.btf, &program, kernel, asked);
    *table = owner(whole);
    match answer {
        Ok(_) => 0,
        Err(error) => report(error, fault),
    }
}

/// Rewrites a table for a kernel. Returns the answers that it got, and reports them, also after an error. An error
/// leaves the table unchanged.
fn rewrite(
    btf: &mut Btf,
    program: &Program,
    kernel: &Kernel,
    asked: &mut Asked,
) -> Result<ArrayVec<FeatureAnswer, 8>, BtfError>
    ensures rewrites { MeetsOrNoMemory (λ a. a.items) result
        (RewritesChosen kernel.now (program_layout program.now) btf.old btf.new) }
    ensures err { OnErr result (btf.new ≡ btf.old) }
    ensures listed { IfOk result (λ a. ListsAnswers asked.new a.items) }
    ensures asked { ReportsAsked kernel.now (program_layout program.now) btf.old asked.new }
    ensures granted { IfOk result (λ a. NeedsAreGranted (policy_chosen kernel.now)
        (ids_chosen kernel.now) a.items btf.old btf.new) }
    ensures kept { OnOk result (KeepsMeaning btf.old btf.new) }
{
    let is_granted = |feature: BtfFeature| -> bool
        ensures { result ≡ has_bit kernel.entry.now.features feature }
    { kernel.has(feature) };
    let mut resolver = BtfFeatureResolver::new(is_granted);
    let Program { sections, symbols } = program;
    let ids = kernel.ksyms_ids();
    let policy = kernel.policy();
    let answers = btf.fixup_and_sanitize_with(sections, symbols, ids, policy, &mut resolver);
    asked.list(resolver.answers());
    answers
}
