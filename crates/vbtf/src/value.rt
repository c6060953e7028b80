//! The value of a variant.

ghost use Rattle.std.specs.Prelude.{◌≡◌, ◌≢◌};
ghost use Rattle.std.specs.Str.{IsUtf8};
ghost use Rattle.btf_model.specs.Value.{Value};
ghost use Rattle.btf_above.specs.Variants.{NamesAreUtf8};
ghost use Rattle.vbtf.specs.Status.{EndsFinding, EndsFindingOrNoMemory, KeepsHandle, IfLends};

use crate::fault::{CLOSED, Fault, INVALID_ARGUMENT, NO_ITEM, report};
use crate::handle::Handle;
use crate::taken::take_loan;
use btf::variant_value;

/// The value of the first variant of a name, in the enumeration that a type resolves to: an ENUM, whose values of 32
/// bits are zero-extended, an ENUM64, or a UNION that replaced an ENUM64 in this table.
///
/// Status 6, 9, 10 or 12 with the first error, 20 if an allocation fails, 101 if the handle's state is
/// not 2, 102 if the name is not UTF-8, and 103 if no variant has the name.
#[unsafe(no_mangle)]
pub extern "C" fn vbtf_lent_value(
    table: &mut Handle,
    id: u32,
    name: &[u8],
    value: &mut u64,
    fault: &mut Fault,
) -> u32
    ensures found { table.old.state ≡ 2 → IsUtf8 name.now
        → EndsFindingOrNoMemory result value.new fault.new
        (Value table.old.opened.btf id name.now) }
    // Nothing is allocated if the names of the variants are UTF-8.
    ensures no_memory { IfLends table.old (λ t. IsUtf8 name.now → NamesAreUtf8 t id
        → EndsFinding result value.new fault.new (Value t id name.now)) }
    ensures closed { table.old.state ≢ 2 → IsUtf8 name.now → result ≡ CLOSED }
    ensures not_utf8 { (IsUtf8 name.now → ⊥) → result ≡ INVALID_ARGUMENT }
    ensures kept { KeepsHandle table.old table.new }
{
    let Ok(name) = str::from_utf8(name) else {
        return INVALID_ARGUMENT;
    };
    let Some(loan) = take_loan(table) else {
        return CLOSED;
    };
    let answer = variant_value(&loan.get().btf, id, name);
    *table = Handle::from_loan(loan);
    let found = match answer {
        Ok(found) => found,
        Err(error) => return report(error, fault),
    };
    let Some(found) = found else {
        return NO_ITEM;
    };
    *value = found;
    0
}
