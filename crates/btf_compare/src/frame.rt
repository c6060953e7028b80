//! An open pair of the comparison of types, and its walk: the sequence of positions that the comparison visits from the
//! pair through pointers, arrays and return types. At two prototypes the walk has pending parameter pairs. It continues
//! with the return types when all of them are known to be compatible.

ghost use Rattle.std.specs.Prelude.{◌≡◌, ◌+◌, ◌<◌, Ok, IsTrue, false};
ghost use Rattle.btf_model.specs.Compat.{ResolvesPair};
ghost use Rattle.btf_model.specs.Fields.{IsAt};
ghost use Rattle.btf_model.specs.Run.{new_frame};
ghost use Rattle.btf_plain.specs.Error.{Meets};
ghost use Rattle.btf_records.specs.BtfType.{record_of, type_kind};
ghost use Rattle.btf_compare.specs.Compared.{AreAt, WalksTo, ComesTo, NextParameterIs, frame_of, passed_in, StepsFirst, StepsFrom};
ghost use Rattle.btf_compare.specs.Pairs.{pair_of};

use crate::position::{Position, ProtoPair, is_modifier, position_at, types_at};
use btf_plain::BtfError;
use btf_records::BtfType;
use btf_table::{Btf, WALK_LIMIT};
use std::collections::BTreeSet;

/// The maximum number of positions of a walk.
const POSITIONS: u32 = WALK_LIMIT as u32;

/// An open pair of ids: the position of its walk, the number of steps taken, and the index of the next parameter.
#[derive(Clone, Copy, Drop)]
pub struct Frame {
    /// The pair, the local id first.
    pub pair: (u32, u32),
    at: (u32, u32),
    taken: u32,
    parameter: u32,
}

/// Where the walk of an open pair stops.
#[derive(Clone, Copy, Drop)]
pub enum Place<'a> {
    /// The walk ends with this answer.
    Ends(bool),
    /// The walk is at two prototypes with pending parameter pairs: they have to be compatible before it continues.
    Pending(ProtoPair<'a>),
}

impl Frame {
    /// A frame without an open pair, to be overwritten.
    #[inline(always)]
    pub fn vacant() -> Self {
        Frame {
            pair: (0, 0),
            at: (0, 0),
            taken: POSITIONS,
            parameter: 0,
        }
    }

    /// The frame of a pair before its first step.
    pub fn new(pair: (u32, u32)) -> Self
        ensures frame { frame_of result ≡ new_frame (pair_of pair) }
        ensures pair { result.pair ≡ pair }
    {
        Frame {
            pair,
            at: pair,
            taken: 0,
            parameter: 0,
        }
    }

    /// Starts the walk of a pair of these types. If their kinds are not alike, the answer is false, without a step.
    #[inline(always)]
    pub fn begin<'a>(
        &mut self,
        alike: bool,
        local_type: &'a BtfType,
        target_type: &'a BtfType,
        local: &'a Btf,
        target: &'a Btf,
        passed: &BTreeSet<(u32, u32)>,
    ) -> Result<Place<'a>, BtfError>
        requires local { IsAt local.now self.old.at.0 (type_kind local_type.now)
            (record_of local_type.now) }
        requires target { IsAt target.now self.old.at.1 (type_kind target_type.now)
            (record_of target_type.now) }
        requires unmoved { self.old.taken < WALK_LIMIT }
        ensures differs { alike ≡ false → result ≡ Ok (Place.Ends false) }
        ensures walks { IsTrue alike → WalksTo local.now target.now (passed_in passed.now)
            (frame_of self.old) (frame_of self.new) }
        ensures comes { IsTrue alike → ComesTo local.now target.now self.new result }
        ensures pair { self.new.pair ≡ self.old.pair }
    {
        if !alike {
            return Ok(Place::Ends(false));
        }
        match self.first_step(local_type, target_type, passed) {
            Some(end) => end,
            None => self.walk(local, target, passed),
        }
    }

    /// The first step of the walk of a pair of these types, if both are no modifiers. Returns the end of the walk, or
    /// None if the walk goes on. The types are at hand, so this looks no id up.
    #[inline(always)]
    fn first_step<'a>(
        &mut self,
        local_type: &'a BtfType,
        target_type: &'a BtfType,
        passed: &BTreeSet<(u32, u32)>,
    ) -> Option<Result<Place<'a>, BtfError>>
        requires { self.old.taken < WALK_LIMIT }
        ensures steps { StepsFirst self.old self.new local_type.now target_type.now
            (passed_in passed.now) result }
        ensures pair { self.new.pair ≡ self.old.pair }
    {
        if is_modifier(local_type) || is_modifier(target_type) {
            return None;
        }
        self.step(types_at(self.at, local_type, target_type), passed)
    }

    /// Takes the step that follows from what is at the position. Returns the end of the walk, or None if the walk goes
    /// on. The `passed` prototypes are known to have compatible parameters, so the walk continues with their return
    /// types.
    #[inline(always)]
    fn step<'a>(
        &mut self,
        position: Position<'a>,
        passed: &BTreeSet<(u32, u32)>,
    ) -> Option<Result<Place<'a>, BtfError>>
        requires { self.old.taken < WALK_LIMIT }
        ensures steps { StepsFrom self.old self.new position.entry (passed_in passed.now) result }
        ensures pair { self.new.pair ≡ self.old.pair }
    {
        match position {
            Position::Decided(Ok(answer)) => Some(Ok(Place::Ends(answer))),
            Position::Decided(Err(e)) => Some(Err(e)),
            Position::On(next) => {
                self.go_on(next);
                None
            }
            Position::Prototypes(found) => {
                if self.parameter > 0 || !found.are_long() || !passed.contains(&found.ids) {
                    return Some(Ok(Place::Pending(found)));
                }
                self.go_on(found.returns);
                None
            }
        }
    }

    /// Continues the walk to two prototypes or to its end. At each position it resolves the modifiers of both ids.
    pub fn walk<'a>(
        &mut self,
        local: &'a Btf,
        target: &'a Btf,
        passed: &BTreeSet<(u32, u32)>,
    ) -> Result<Place<'a>, BtfError>
        ensures walks { WalksTo local.now target.now (passed_in passed.now) (frame_of self.old)
            (frame_of self.new) }
        ensures comes { ComesTo local.now target.now self.new result }
        ensures pair { self.new.pair ≡ self.old.pair }
    {
        'positions: while self.taken < POSITIONS {
            if let Some(end) = self.step(position_at(local, target, self.at), passed) {
                return end;
            }
        }
        Err(BtfError::MaximumTypeDepthReached { type_id: self.at.0 })
    }

    /// The next pending parameter pair, as the ids that its types resolve to. Returns `None` after the last parameter.
    #[inline(always)]
    pub fn next_parameter(
        &mut self,
        local: &Btf,
        target: &Btf,
        found: &ProtoPair<'_>,
    ) -> Result<Option<(u32, u32)>, BtfError>
        requires { AreAt local.now target.now self.old found.now }
        ensures next { NextParameterIs local.now target.now self.old self.new found.now result }
        ensures here { AreAt local.now target.now self.new found.now }
        ensures pair { self.new.pair ≡ self.old.pair }
    {
        let Some(at) = found.parameters_at(self.parameter as usize) else {
            return Ok(None);
        };
        let pair = resolve_ids(local, target, at)?;
        self.parameter += 1;
        Ok(Some(pair))
    }

    /// Moves the walk to a position.
    pub fn go_on(&mut self, at: (u32, u32))
        requires { self.old.taken < WALK_LIMIT }
        ensures { self.new ≡
            record self.old { at = at; taken = self.old.taken + 1; parameter = 0 } }
    {
        self.at = at;
        self.taken += 1;
        self.parameter = 0;
    }
}

/// The ids that two ids resolve to, the local one first.
#[inline(always)]
fn resolve_ids(local: &Btf, target: &Btf, at: (u32, u32)) -> Result<(u32, u32), BtfError>
    ensures { Meets pair_of result (ResolvesPair local.now target.now (pair_of at)) }
{
    let local_id = local.resolve_type(at.0)?;
    let target_id = target.resolve_type(at.1)?;
    Ok((local_id, target_id))
}
