//! What a rule finds at two types.

ghost use Rattle.std.specs.Prelude.{◌≡◌, ◌==◌, Some};
ghost use Rattle.btf_model.specs.Fields.{element_type};
ghost use Rattle.btf_model.specs.Record.{FuncProto, kind_flag, kind_of};
ghost use Rattle.btf_view.specs.TypeRef.{record_in};
ghost use Rattle.btf_relocate_model.specs.Comparison as model;
ghost use Rattle.btf_relocate.specs.Gives.{GivesBy};
ghost use Rattle.btf_relocate.specs.Steps.{comparison, enumeration_size, step_view, by_kinds};

use super::names::{enumerators_match, names_match};
use crate::kinds::{Members, int_offset, parameter_count, word_at};
use crate::lookup::type_at;
use crate::target::comparison_number;
use crate::value::is_signed;
use btf_plain::BtfKind;
use btf_relocate_model::{Pair, RelocationError, Rule};
use btf_view::{TableRef, TypeRef};
use std::alloc::Global;

/// The maximum number of pairs of members of two STRUCTs or UNIONs.
const MEMBER_PAIR_LIMIT: usize = 1 << 20;

/// What decides whether two types are as a rule asks.
#[derive(Drop)]
pub enum Step<'t> {
    /// Nothing further.
    Ends(bool),
    /// The comparison of two other types.
    GoesOn(Pair),
    /// The comparison of each parameter with the one at its place, and then of the types returned.
    EachParameter(TypeRef<'t>, TypeRef<'t>, Pair),
    /// For each local member a member of the target of its name whose type matches.
    EachMember(Members<'t>, Members<'t>),
}

/// What the rule finds at a pair of types that are no modifiers.
pub fn step_at<'t>(
    alloc: Global,
    rule: Rule,
    local: &TableRef<'t>,
    target: &TableRef<'t>,
    at: &Pair,
) -> Result<Step<'t>, RelocationError>
    ensures { GivesBy step_view (model.step_at (comparison rule local.now target.now) at.now)
        result }
{
    let one = type_at(local, at.local)?;
    let other = type_at(target, at.target)?;
    match rule {
        Rule::Compatible => Ok(compatible_step(at.is_pointee, &one, &other)),
        Rule::Matches => exact_step(alloc, local, target, at.is_pointee, &one, &other),
    }
}

/// A pair.
fn pair(is_pointee: bool, local: u32, target: u32) -> Pair
    ensures { result ≡ model.pair is_pointee local target }
{
    Pair {
        local,
        target,
        is_pointee,
    }
}

/// Two prototypes, which need as many parameters.
fn prototypes<'t>(is_pointee: bool, one: &TypeRef<'t>, other: &TypeRef<'t>) -> Step<'t>
    requires one_is { kind_of (record_in one.now).info ≡ Some FuncProto }
    requires other_is { kind_of (record_in other.now).info ≡ Some FuncProto }
    ensures { step_view result
        ≡ model.prototype_step is_pointee (record_in one.now) (record_in other.now) }
{
    if parameter_count(one) != parameter_count(other) {
        return Step::Ends(false);
    }
    Step::EachParameter(*one, *other, pair(is_pointee, one.third(), other.third()))
}

/// What the rule `Compatible` finds.
fn compatible_step<'t>(is_pointee: bool, one: &TypeRef<'t>, other: &TypeRef<'t>) -> Step<'t>
    ensures { step_view result
        ≡ model.compatible_step is_pointee (record_in one.now) (record_in other.now) }
{
    let (kind, other_kind) = (one.kind(), other.kind());
    if comparison_number(kind) != comparison_number(other_kind) {
        return Step::Ends(false);
    }
    match (kind, other_kind) {
        (BtfKind::Unknown, _) => Step::Ends(true),
        (BtfKind::Struct, _) => Step::Ends(true),
        (BtfKind::Union, _) => Step::Ends(true),
        (BtfKind::Enum, _) => Step::Ends(true),
        (BtfKind::Enum64, _) => Step::Ends(true),
        (BtfKind::Fwd, _) => Step::Ends(true),
        (BtfKind::Int, BtfKind::Int) => {
            Step::Ends(int_offset(one) == 0 && int_offset(other) == 0)
        }
        _ => compatible_through(is_pointee, one, other),
    }
}

/// What the rule `Compatible` finds at two types that lead to others.
fn compatible_through<'t>(is_pointee: bool, one: &TypeRef<'t>, other: &TypeRef<'t>) -> Step<'t>
    ensures { step_view result ≡ by_kinds (model.compatible_through is_pointee)
        (record_in one.now) (record_in other.now) }
{
    match (one.kind(), other.kind()) {
        (BtfKind::Ptr, BtfKind::Ptr) => {
            Step::GoesOn(pair(is_pointee, one.third(), other.third()))
        }
        (BtfKind::Array, BtfKind::Array) => compatible_arrays(is_pointee, one, other),
        (BtfKind::FuncProto, BtfKind::FuncProto) => prototypes(is_pointee, one, other),
        _ => Step::Ends(false),
    }
}

/// Two arrays, of which the elements are compared.
fn compatible_arrays<'t>(is_pointee: bool, one: &TypeRef<'_>, other: &TypeRef<'_>) -> Step<'t>
    ensures { step_view result ≡ model.GoesOn (model.pair is_pointee
        (element_type (record_in one.now)) (element_type (record_in other.now))) }
{
    Step::GoesOn(pair(is_pointee, word_at(one, 0), word_at(other, 0)))
}

/// What the rule `Matches` finds.
fn exact_step<'t>(
    alloc: Global,
    local: &TableRef<'t>,
    target: &TableRef<'t>,
    is_pointee: bool,
    one: &TypeRef<'t>,
    other: &TypeRef<'t>,
) -> Result<Step<'t>, RelocationError>
    ensures { GivesBy step_view (model.exact_step local.now target.now is_pointee
        (record_in one.now) (record_in other.now)) result }
{
    if !names_match(local, target, one.name_offset(), other.name_offset())? {
        return Ok(Step::Ends(false));
    }
    match (enumeration_size(one), enumeration_size(other)) {
        (Some(size), Some(other_size)) => {
            if size != other_size {
                return Ok(Step::Ends(false));
            }
            let is_alike = enumerators_match(alloc, local, target, one, other)?;
            Ok(Step::Ends(is_alike))
        }
        _ => few_members(matches_step(is_pointee, one, other)),
    }
}

/// A step, which is refused if it has too many members to compare.
fn few_members(step: Step<'_>) -> Result<Step<'_>, RelocationError>
    ensures { GivesBy step_view (model.few_members (step_view step.entry)) result }
{
    if let Step::EachMember(one, other) = &step
        && one.len().saturating_mul(other.len()) > MEMBER_PAIR_LIMIT
    {
        return Err(RelocationError::TooManyMembers);
    }
    Ok(step)
}

/// The size of an ENUM or ENUM64; `None` for another type.
fn enumeration_size(btf_type: &TypeRef<'_>) -> Option<u32>
    ensures { result ≡ enumeration_size (record_in btf_type.now) }
{
    match btf_type.kind() {
        BtfKind::Enum => Some(btf_type.third()),
        BtfKind::Enum64 => Some(btf_type.third()),
        _ => None,
    }
}

/// What the rule `Matches` finds at two types that are not both enumerations.
fn matches_step<'t>(is_pointee: bool, one: &TypeRef<'t>, other: &TypeRef<'t>) -> Step<'t>
    ensures { step_view result ≡ by_kinds (model.matches_by is_pointee)
        (record_in one.now) (record_in other.now) }
{
    match (one.kind(), other.kind()) {
        (BtfKind::Unknown, BtfKind::Unknown) => Step::Ends(true),
        (BtfKind::Int, BtfKind::Int) => {
            Step::Ends(one.third() == other.third() && is_signed(one) == is_signed(other))
        }
        (BtfKind::Ptr, BtfKind::Ptr) => Step::GoesOn(pair(true, one.third(), other.third())),
        (BtfKind::Array, BtfKind::Array) => {
            if word_at(one, 2) != word_at(other, 2) {
                return Step::Ends(false);
            }
            Step::GoesOn(pair(is_pointee, word_at(one, 0), word_at(other, 0)))
        }
        (BtfKind::FuncProto, BtfKind::FuncProto) => prototypes(is_pointee, one, other),
        _ => step_of_declared(is_pointee, one, other),
    }
}

/// What the rule `Matches` finds at two types of which none or one is a STRUCT, a UNION or a FWD, or both are.
fn step_of_declared<'t>(is_pointee: bool, one: &TypeRef<'t>, other: &TypeRef<'t>) -> Step<'t>
    ensures { step_view result ≡ by_kinds (model.declared_by is_pointee)
        (record_in one.now) (record_in other.now) }
{
    if is_pointee {
        return match (declares_union(one), declares_union(other)) {
            (Some(union), Some(other_union)) => Step::Ends(union == other_union),
            _ => Step::Ends(false),
        };
    }
    match (one.kind(), other.kind()) {
        (BtfKind::Fwd, BtfKind::Fwd) => Step::Ends(has_kind_flag(one) == has_kind_flag(other)),
        (BtfKind::Struct, BtfKind::Struct) => members_of_both(one, other),
        (BtfKind::Union, BtfKind::Union) => members_of_both(one, other),
        _ => Step::Ends(false),
    }
}

/// The members of two STRUCTs or two UNIONs, of which the target has no fewer.
fn members_of_both<'t>(one: &TypeRef<'t>, other: &TypeRef<'t>) -> Step<'t>
    ensures { step_view result ≡ model.members_step (record_in one.now) (record_in other.now) }
{
    let (members, others) = (Members::of(one), Members::of(other));
    if others.len() < members.len() {
        return Step::Ends(false);
    }
    Step::EachMember(members, others)
}

/// Whether the kind flag of a type is set.
fn has_kind_flag(btf_type: &TypeRef<'_>) -> bool
    ensures { result ≡ (kind_flag (record_in btf_type.now).info == 1) }
{
    btf_type.info() / 0x8000_0000 == 1
}

/// Whether a type is a UNION, or a FWD that declares one; `None` if it is no STRUCT, UNION or FWD.
fn declares_union(btf_type: &TypeRef<'_>) -> Option<bool>
    ensures { result ≡ model.declares_union (kind_of (record_in btf_type.now).info)
        (record_in btf_type.now) }
{
    match btf_type.kind() {
        BtfKind::Struct => Some(false),
        BtfKind::Union => Some(true),
        BtfKind::Fwd => Some(has_kind_flag(btf_type)),
        _ => None,
    }
}
