//! What comes next of a comparison.

ghost use Rattle.std.specs.Prelude.{◌≡◌, ◌<◌, ◌≤◌, drop, length, IfOk, IfSome};
ghost use Rattle.btf_relocate_model.specs.Comparison as model;
ghost use Rattle.btf_view.specs.TypeRef.{record_in};
ghost use Rattle.btf_relocate.specs.Comparing.{LeavesFewer, LeavesFewerPlaces};
ghost use Rattle.btf_relocate.specs.Members.{member_of, members_held, parameters_of};
ghost use Rattle.btf_relocate.specs.Steps.{Continues, NamedMember, NextMember, comparison, ResumesParameters};

use super::Frame;
use super::names::names_match;
use super::steps::{Step, step_at};
use crate::kinds::{Members, parameter_at};
use crate::lookup::resolve_id;
use btf_plain::BtfMember;
use btf_relocate_model::{Pair, RelocationError, Rule};
use btf_view::{TableRef, TypeRef};
use std::alloc::Global;

/// What comes next of a comparison.
#[derive(Debug, Drop)]
pub enum Next {
    /// The end, with an answer.
    Ends(bool),
    /// Another position: the pair of the types that a pointer, an array or a prototype leads to.
    GoesOn(Pair),
    /// The answer of another pair, and then the parameter or local member, and the member of the target, of these
    /// indices.
    Asks(Pair, usize, usize),
}

/// The pair of the types that two ids resolve to.
pub fn resolve_pair(
    rule: Rule,
    local: &TableRef<'_>,
    target: &TableRef<'_>,
    pair: &Pair,
) -> Result<Pair, RelocationError>
    ensures { result ≡ model.resolved_pair (comparison rule local.now target.now) pair.now }
{
    let id = resolve_id(local, pair.local)?;
    let other = resolve_id(target, pair.target)?;
    Ok(Pair {
        local: id,
        target: other,
        is_pointee: pair.is_pointee,
    })
}

/// What comes next of a comparison, after the answer of the pair that it asked for.
pub fn next_step(
    alloc: Global,
    rule: Rule,
    local: &TableRef<'_>,
    target: &TableRef<'_>,
    frame: &Frame,
    answer: Option<bool>,
) -> Result<Next, RelocationError>
    ensures continues { Continues (comparison rule local.now target.now) frame.now answer result }
    ensures fewer { IfOk result (LeavesFewer frame.now) }
{
    if frame.left == 0 {
        return Err(RelocationError::MaximumTypeDepthReached {
            type_id: frame.start.local,
        });
    }
    let at = resolve_pair(rule, local, target, &frame.at)?;
    match step_at(alloc, rule, local, target, &at)? {
        Step::Ends(is_alike) => Ok(Next::Ends(is_alike)),
        Step::GoesOn(pair) => Ok(Next::GoesOn(pair)),
        Step::EachParameter(one, other, returned) => {
            Ok(next_parameter(frame, answer, &one, &other, &returned))
        }
        Step::EachMember(members, others) => {
            next_member(local, target, frame, answer, &members, &others)
        }
    }
}

/// The next parameters, or the types returned after all of them.
fn next_parameter(
    frame: &Frame,
    answer: Option<bool>,
    one: &TypeRef<'_>,
    other: &TypeRef<'_>,
    returned: &Pair,
) -> Next
    ensures next { ResumesParameters frame.now answer
        (parameters_of (record_in one.now)) (parameters_of (record_in other.now)) returned.now result }
    ensures fewer { LeavesFewerPlaces frame.now.index frame.now.other result }
{
    if let Some(false) = answer {
        return Next::Ends(false);
    }
    let index = frame.index;
    let (Some(parameter), Some(other_parameter)) = (
        parameter_at(one, index),
        parameter_at(other, index),
    ) else {
        return Next::GoesOn(*returned);
    };
    let pair = Pair {
        local: parameter,
        target: other_parameter,
        is_pointee: returned.is_pointee,
    };
    Next::Asks(pair, index + 1, 0)
}

/// The next pair of members: each local member has a member of the target with its name whose type matches.
fn next_member(
    local: &TableRef<'_>,
    target: &TableRef<'_>,
    frame: &Frame,
    answer: Option<bool>,
    members: &Members<'_>,
    others: &Members<'_>,
) -> Result<Next, RelocationError>
    ensures next { NextMember local.now target.now (members_held members.now)
        (members_held others.now) frame.now.index frame.now.other answer result }
    ensures fewer { IfOk result (LeavesFewerPlaces frame.now.index frame.now.other) }
{
    let (index, from) = match answer {
        Some(true) => (frame.index.saturating_add(1), 0),
        _ => (frame.index, frame.other),
    };
    let Some(member) = members.get(index) else {
        return Ok(Next::Ends(true));
    };
    match match_member(local, target, &member, others, from)? {
        Some((found, after)) => {
            let pair = Pair {
                local: member.btf_type,
                target: found,
                is_pointee: false,
            };
            Ok(Next::Asks(pair, index, after))
        }
        None => Ok(Next::Ends(false)),
    }
}

/// The type of the first member of the target from an index on that has the name of a local member, and the index after
/// it.
fn match_member(
    local: &TableRef<'_>,
    target: &TableRef<'_>,
    member: &BtfMember,
    others: &Members<'_>,
    from: usize,
) -> Result<Option<(u32, usize)>, RelocationError>
    ensures found { NamedMember local.now target.now (member_of member.now)
        (members_held others.now) (drop from (members_held others.now)) result }
    ensures later { IfOk result (λ found. IfSome found (λ p. (from < p.1)
        × (p.1 ≤ length (members_held others.now)))) }
{
    for index in from..others.len() {
        let Some(found) = others.get(index) else {
            return Ok(None);
        };
        if names_match(local, target, member.name_offset, found.name_offset)? {
            return Ok(Some((found.btf_type, index + 1)));
        }
    }
    Ok(None)
}
