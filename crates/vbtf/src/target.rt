//! The index of a table's types, and the relocation of single records.

ghost use Rattle.std.specs.Prelude.{◌≡◌, ◌≢◌, ◌⊎◌, true, false, None, is_some, IfOk, IfErr};
ghost use Rattle.btf_plain.specs.declared.error.BtfError.TheVariants.{OutOfMemory};
ghost use Rattle.vbtf.specs.Changed.{ChangedTo};
ghost use Rattle.vbtf.specs.Indexed.{Indexes, EndsIndexing};
ghost use Rattle.vbtf.specs.Resolved.{EndsResolving, ReportsRelocation, ResolvesRecord, relocated_of, EndsRelocatingOne, ResolvesIndexed};
ghost use Rattle.vbtf.specs.Status.{KeepsHandle};

use crate::fault::{CLOSED, Fault, INVALID_ARGUMENT, OUT_OF_MEMORY, report, report_number};
use crate::handle::{Handle, owner};
use crate::opened::Opened;
use crate::refused::report_refused;
use crate::taken::{take_loan, take_table, take_to_change};
use btf::{Btf, BtfError};
use btf_relocate::{RelocationError, Resolved, Target, TargetIndex, candidates_of, resolve};
use std::alloc::Global;

/// A relocation record.
#[repr(C)]
#[derive(Drop)]
pub struct Relocation {
    /// The offset of its instruction in bytes.
    pub offset: u32,
    /// The id of a type.
    pub type_id: u32,
    /// The string offset of the access string.
    pub access_offset: u32,
    /// The number of the kind.
    pub kind: u32,
}

/// What a relocation record asks to be written. The last three fields are 0 or 1.
#[repr(C)]
#[derive(Drop)]
pub struct Relocated {
    /// The value for the program's own table, which the compiler wrote into the instruction.
    pub expected: u64,
    /// The value for the target.
    pub value: u64,
    /// The size in bytes of the local field that a load or store reads or writes; 0 if there is none.
    pub local_size: u32,
    /// The size in bytes of the target's field; 0 if there is none.
    pub target_size: u32,
    /// Whether the instruction becomes a poisoned one, because nothing in the target matches.
    pub is_poisoned: u8,
    /// Whether the instruction must have the expected value before it is patched.
    pub validates: u8,
    /// Whether the size of a load or store may change from the local size to the target's.
    pub is_adjustable: u8,
}

/// Opens an index of the types of the table that a handle owns, which `vbtf_lent_relocate` and
/// `vbtf_lent_relocate_object` search. It has 4 bytes for each type that has a name.
///
/// A call that changes the table closes the index. Status 20 if an allocation fails, 101 if the handle's state is not
/// 1, and 102 if the table has an open index; the handle is then unchanged.
#[unsafe(no_mangle)]
pub extern "C" fn vbtf_raw_target_open(alloc: Global, table: &mut Handle, fault: &mut Fault) -> u32
    ensures opened { table.old.state ≡ 1 → EndsIndexing result table.old table.new fault.new }
    ensures closed { table.old.state ≢ 1 → (result ≡ CLOSED) × (table.new ≡ table.old) }
{
    let Some(mut whole) = take_table(alloc, table) else {
        return CLOSED;
    };
    let answer = add_index(alloc, &mut whole);
    *table = owner(whole);
    match answer {
        Ok(true) => 0,
        Ok(false) => INVALID_ARGUMENT,
        Err(error) => report(error, fault),
    }
}

/// Closes the index of the table that a handle owns, and frees its memory. A handle whose state is not 1 is unchanged.
#[unsafe(no_mangle)]
pub extern "C" fn vbtf_target_close(alloc: Global, table: &mut Handle)
    ensures closed { table.old.state ≡ 1 → (table.new.state ≡ 1)
        × ChangedTo table.old.opened table.new.opened table.old.opened.btf }
    ensures other { table.old.state ≢ 1 → table.new ≡ table.old }
{
    if let Some(whole) = take_to_change(alloc, table) {
        *table = owner(whole);
    }
}

/// Relocates one record of a program's table for a target: writes what it asks to be written. The record has all
/// candidates of the target, as in the kernel.
///
/// Status 107 if the record has an error; `id` is the position of the error in `RelocationError`, from 1 on, and
/// `section_len` its field or 0. 20 if an allocation fails; 101 if the state of one of the handles is not 2, or the
/// target has no open index. `relocated` is then unchanged.
#[unsafe(no_mangle)]
pub extern "C" fn vbtf_lent_relocate(
    alloc: Global,
    local: &mut Handle,
    target: &mut Handle,
    relocation: &Relocation,
    relocated: &mut Relocated,
    fault: &mut Fault,
) -> u32
    ensures relocated { EndsRelocatingOne local.old target.old relocation.now relocated.old
        relocated.new fault.new result }
    ensures none { local.old.state ≡ 2 → target.old.state ≡ 2 → target.old.opened.index ≡ None
        → (result ≡ CLOSED) × (relocated.new ≡ relocated.old) }
    ensures closed { (local.old.state ≢ 2) ⊎ (target.old.state ≢ 2)
        → (result ≡ CLOSED) × (relocated.new ≡ relocated.old) }
    ensures kept_local { KeepsHandle local.old local.new }
    ensures kept_target { KeepsHandle target.old target.new }
{
    let Some(first) = take_loan(local) else {
        return CLOSED;
    };
    let Some(second) = take_loan(target) else {
        *local = Handle::from_loan(first);
        return CLOSED;
    };
    let status = relocate_one(
        alloc,
        &first.get().btf,
        second.get(),
        relocation,
        relocated,
        fault,
    );
    *local = Handle::from_loan(first);
    *target = Handle::from_loan(second);
    status
}

/// Opens the index of a table; false if one is open.
fn add_index(alloc: Global, opened: &mut Opened) -> Result<bool, BtfError>
    ensures added { IfOk result (λ is_new. is_new ≡ true → Indexes opened.old opened.new) }
    ensures open { IfOk result (λ is_new. is_new ≡ false
        → (is_some opened.old.index ≡ true) × (opened.new ≡ opened.old)) }
    ensures only { IfErr result (λ e. (e ≡ OutOfMemory) × (opened.old.index ≡ None)
        × (opened.new ≡ opened.old)) }
{
    if opened.index.is_some() {
        return Ok(false);
    }
    let index = TargetIndex::new(alloc, &opened.btf)?;
    opened.index = Some(index);
    Ok(true)
}

/// Relocates one record for a target whose index is open.
fn relocate_one(
    alloc: Global,
    local: &Btf,
    opened: &Opened,
    relocation: &Relocation,
    relocated: &mut Relocated,
    fault: &mut Fault,
) -> u32
    ensures relocated { ResolvesIndexed local.now opened.now relocation.now relocated.old
        relocated.new fault.new result }
    ensures none { opened.now.index ≡ None → (result ≡ CLOSED) × (relocated.new ≡ relocated.old) }
{
    let Some(index) = &opened.index else {
        return CLOSED;
    };
    let target = Target::with_index(&opened.btf, index);
    match resolve_record(alloc, local, &target, relocation) {
        Ok(resolved) => {
            *relocated = Relocated::of(resolved);
            0
        }
        Err(error) => report_relocation(error, fault),
    }
}

/// What a record asks to be written.
fn resolve_record(
    alloc: Global,
    local: &Btf,
    target: &Target<'_>,
    relocation: &Relocation,
) -> Result<Resolved, RelocationError>
    ensures { ResolvesRecord local.now target.now relocation.now result }
{
    let record = [
        relocation.offset,
        relocation.type_id,
        relocation.access_offset,
        relocation.kind,
    ];
    let mut candidates = candidates_of(alloc, local, target, relocation.type_id)?;
    resolve(alloc, local, target, &record, &mut candidates)
}

impl Relocated {
    /// The form that C reads.
    fn of(resolved: Resolved) -> Relocated
        ensures { result ≡ relocated_of resolved }
    {
        Relocated {
            expected: resolved.expected,
            value: resolved.value,
            local_size: resolved.local_size,
            target_size: resolved.target_size,
            is_poisoned: u8::from(resolved.is_poisoned),
            validates: u8::from(resolved.validates),
            is_adjustable: u8::from(resolved.is_adjustable),
        }
    }
}

/// Writes the error of a record, and returns the status.
fn report_relocation(error: RelocationError, fault: &mut Fault) -> u32
    ensures { ReportsRelocation result fault.new error }
{
    match error {
        RelocationError::OutOfMemory => report_number(fault, OUT_OF_MEMORY, 0, 0),
        error => report_refused(error, 0, 0, fault),
    }
}
