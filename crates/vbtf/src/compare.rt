//! Comparisons of types of two tables.

ghost use Rattle.std.specs.Prelude.{◌≡◌, ◌≢◌, ◌⊎◌};
ghost use Rattle.btf_model.specs.Fields.{Fields};
ghost use Rattle.btf_compare.specs.Compared.{ComparesTypes};
ghost use Rattle.btf_compare.specs.Pairs.{id_pair};
ghost use Rattle.vbtf.specs.Status.{EndsOrNoMemory, KeepsHandle, IfBothLend};

use crate::fault::{CLOSED, Fault, report};
use crate::handle::Handle;
use crate::taken::take_loan;
use btf::{fields_are_compatible, types_are_compatible};

/// Whether the types of two fields are compatible, as a relocation of a field requires.
///
/// Status 6, 9, 10 or 12 with the first error, 20 if an allocation fails, and 101 if the state of one
/// of the handles is not 2.
#[unsafe(no_mangle)]
pub extern "C" fn vbtf_lent_fields_compatible(
    local: &mut Handle,
    local_id: u32,
    target: &mut Handle,
    target_id: u32,
    answer: &mut bool,
    fault: &mut Fault,
) -> u32
    ensures ends { IfBothLend local.old target.old (λ l t.
        EndsOrNoMemory result answer.new fault.new (Fields l local_id t target_id)) }
    ensures closed { (local.old.state ≢ 2) ⊎ (target.old.state ≢ 2) → result ≡ CLOSED }
    ensures kept_local { KeepsHandle local.old local.new }
    ensures kept_target { KeepsHandle target.old target.new }
{
    let Some(first) = take_loan(local) else {
        return CLOSED;
    };
    let Some(second) = take_loan(target) else {
        *local = Handle::from_loan(first);
        return CLOSED;
    };
    let found = fields_are_compatible(&first.get().btf, local_id, &second.get().btf, target_id);
    *local = Handle::from_loan(first);
    *target = Handle::from_loan(second);
    match found {
        Ok(yes) => {
            *answer = yes;
            0
        }
        Err(error) => report(error, fault),
    }
}

/// Whether two types are compatible, as a relocation of a type requires.
///
/// Status 9, 10 or 12 with the first error, 20 if an allocation fails, and 101 if the state of one of
/// the handles is not 2.
#[unsafe(no_mangle)]
pub extern "C" fn vbtf_lent_types_compatible(
    local: &mut Handle,
    local_id: u32,
    target: &mut Handle,
    target_id: u32,
    answer: &mut bool,
    fault: &mut Fault,
) -> u32
    ensures ends { IfBothLend local.old target.old (λ l t. EndsOrNoMemory result
        answer.new fault.new (ComparesTypes l t (id_pair local_id target_id))) }
    ensures closed { (local.old.state ≢ 2) ⊎ (target.old.state ≢ 2) → result ≡ CLOSED }
    ensures kept_local { KeepsHandle local.old local.new }
    ensures kept_target { KeepsHandle target.old target.new }
{
    let Some(first) = take_loan(local) else {
        return CLOSED;
    };
    let Some(second) = take_loan(target) else {
        *local = Handle::from_loan(first);
        return CLOSED;
    };
    let found = types_are_compatible(&first.get().btf, local_id, &second.get().btf, target_id);
    *local = Handle::from_loan(first);
    *target = Handle::from_loan(second);
    match found {
        Ok(yes) => {
            *answer = yes;
            0
        }
        Err(error) => report(error, fault),
    }
}
