//! The comparison of the types of two fields.

ghost use Rattle.std.specs.Prelude.{◌≡◌};
ghost use Rattle.btf_model.specs.Fields.{Fields, FieldsFind, before_flavor, same_names};
ghost use Rattle.btf_model.specs.Text.{text_at};
ghost use Rattle.btf_plain.specs.Error.{MeetsOrNoMemory};
ghost use Rattle.btf_records.specs.BtfType.{record_of, type_kind};
ghost use Rattle.btf_compare.specs.FieldStep.{FieldStepIs, FieldTypesFind, step_by_kinds, type_text};
ghost use Rattle.btf_compare.specs.Pairs.{id_pair};

use crate::position::resolve;
use bstr::ByteSlice;
use btf_plain::BtfError;
use btf_records::BtfType;
use btf_table::{Btf, WALK_LIMIT};

/// The separator between a name and its flavor.
const FLAVOR_MARK: &[u8] = b"___";

/// The outcome of one step of the comparison, at a pair of types.
#[derive(Drop)]
enum FieldStep {
    /// The comparison ends with this result.
    Ends(Result<bool, BtfError>),
    /// The types to compare next, the local one first.
    GoesOn(u32, u32),
}

/// Whether the types of two fields are compatible, each in its own table. The rules are libbpf's:
///
/// - any two composites (structures or unions) are compatible, and so are any two pointers or floating-point numbers;
/// - enumerations and forward declarations are compatible if their names are equal without the flavor after `___`;
/// - integers are compatible if both begin at bit 0;
/// - arrays are compatible if their element types are.
///
/// Each step resolves modifiers, the local side first, with the errors of `resolve_type`. A name that can't be read is
/// `InvalidStringOffset`. Types of other kinds are `UnexpectedBtfType` with the local id. After 32 arrays the error is
/// `MaximumTypeDepthReached` with the local id that would come next.
pub fn fields_are_compatible(
    local: &Btf,
    local_id: u32,
    target: &Btf,
    target_id: u32,
) -> Result<bool, BtfError>
    ensures { MeetsOrNoMemory (λ b. b) result (Fields local.now local_id target.now target_id) }
{
    let mut local_id = local_id;
    let mut target_id = target_id;
    for _ in 0..WALK_LIMIT {
        match step_at(local, local_id, target, target_id) {
            FieldStep::Ends(answer) => return answer,
            FieldStep::GoesOn(local_next, target_next) => {
                local_id = local_next;
                target_id = target_next;
            }
        }
    }
    Err(BtfError::MaximumTypeDepthReached { type_id: local_id })
}

/// Compares two ids, after modifiers.
fn step_at(local: &Btf, local_id: u32, target: &Btf, target_id: u32) -> FieldStep
    ensures { FieldStepIs result (FieldsFind local.now target.now (id_pair local_id target_id)) }
{
    let (local_at, local_type) = match resolve(local, local_id) {
        Ok(found) => found,
        Err(e) => return FieldStep::Ends(Err(e)),
    };
    match resolve(target, target_id) {
        Ok((_, target_type)) => step_of(local, local_at, local_type, target, target_type),
        Err(e) => FieldStep::Ends(Err(e)),
    }
}

/// Compares two types that are no modifiers.
fn step_of(
    local: &Btf,
    local_id: u32,
    local_type: &BtfType,
    target: &Btf,
    target_type: &BtfType,
) -> FieldStep
    ensures { FieldStepIs result
        (FieldTypesFind local.now target.now local_id local_type.now target_type.now) }
{
    if local_type.is_composite() && target_type.is_composite() {
        return FieldStep::Ends(Ok(true));
    }
    if !local_type.is_compatible(target_type) {
        return FieldStep::Ends(Ok(false));
    }
    by_kind(local, local_id, local_type, target, target_type)
}

/// Compares two types of compatible kinds, at least one of which is no composite.
fn by_kind(
    local: &Btf,
    local_id: u32,
    local_type: &BtfType,
    target: &Btf,
    target_type: &BtfType,
) -> FieldStep
    ensures { FieldStepIs result (λ found. found ≡ step_by_kinds local.now target.now local_id
        local_type.now target_type.now) }
{
    match (local_type, target_type) {
        (BtfType::Int(l), BtfType::Int(t)) => FieldStep::Ends(Ok(
            l.offset() == 0 && t.offset() == 0,
        )),
        (BtfType::Array(l), BtfType::Array(t)) => {
            FieldStep::GoesOn(l.array().element_type, t.array().element_type)
        }
        (BtfType::Ptr(_) | BtfType::Float(_), _) => FieldStep::Ends(Ok(true)),
        (BtfType::Fwd(_) | BtfType::Enum(_) | BtfType::Enum64(_), _) => {
            FieldStep::Ends(have_same_name(local, local_type, target, target_type))
        }
        _ => FieldStep::Ends(Err(BtfError::UnexpectedBtfType { type_id: local_id })),
    }
}

/// Whether two types have the same name, ignoring flavors.
fn have_same_name(
    local: &Btf,
    local_type: &BtfType,
    target: &Btf,
    target_type: &BtfType,
) -> Result<bool, BtfError>
    ensures { MeetsOrNoMemory (λ b. b) result
        (λ a. a ≡ same_names (type_text local.now local_type.now)
        (type_text target.now target_type.now)) }
{
    let name = local.type_name(local_type)?;
    let other = target.type_name(target_type)?;
    Ok(without_flavor(name.as_str()) == without_flavor(other.as_str()))
}

/// The bytes of a name before its flavor.
fn without_flavor(name: &str) -> &[u8]
    ensures { result.now ≡ before_flavor name.now }
{
    let bytes = name.as_bytes();
    match bytes.find(FLAVOR_MARK) {
        Some(end) => &bytes[..end],
        None => bytes,
    }
}
