//! A type whose alignment is computed.

ghost use Rattle.std.specs.Prelude.{◌≡◌};
ghost use Rattle.btf_layout.specs.Frame.{IsMemberFrame, MemberStepIs, alignment_by, step_by_progress, started, step_outcome};
ghost use Rattle.btf_layout.specs.Progress.{KnowsOutcomes, progress_in};

use crate::progress::{Outcome, Progress, progress_of};
use crate::shape::{Composite, Shape, shape_at};
use btf_table::Btf;

/// A type whose alignment is computed: the index of the next member, and the largest alignment of the members before
/// it, or 1.
#[derive(Clone, Copy, Drop)]
pub struct Frame {
    /// The id of the type.
    pub id: u32,
    member: usize,
    largest: u32,
}

/// Where the computation for a type stops.
#[derive(Clone, Copy, Drop)]
pub enum Step {
    /// It ends with this outcome.
    Ends(Outcome),
    /// It needs the outcome of the type of this id, which is not known.
    Needs(u32),
}

impl Frame {
    /// The frame of a type before its first member.
    pub fn new(id: u32) -> Self
        ensures { result ≡ record { id = id; member = 0; largest = 1 } }
    {
        Frame {
            id,
            member: 0,
            largest: 1,
        }
    }

    /// Computes the alignment, up to the first type whose outcome is not known.
    pub fn step(&mut self, table: &Btf, known: &[Progress]) -> Step
        requires frame { IsMemberFrame table.now.records self.old }
        requires known { KnowsOutcomes table.now.records known.now }
        ensures step { MemberStepIs table.now.records known.now self.old.id result }
        ensures frame { IsMemberFrame table.now.records self.new }
        ensures id { self.new.id ≡ self.old.id }
    {
        let Ok(btf_type) = table.type_by_id(self.id) else {
            return Step::Ends(Outcome::Unknown(self.id));
        };
        let composite = match shape_at(btf_type) {
            Shape::Composed(size) => Composite::new(size, btf_type),
            Shape::Fixed(alignment) => return Step::Ends(Outcome::Aligned(alignment)),
            Shape::SameAs(type_id) => return step_to(known, type_id),
            Shape::Unexpected => return Step::Ends(Outcome::Unexpected(self.id)),
        };
        while let Some(member) = composite.members.get(self.member) {
            let alignment = match alignment_in(known, member.btf_type) {
                Ok(alignment) => alignment,
                Err(step) => return step,
            };
            if !composite.is_in_place(member, alignment) {
                return Step::Ends(Outcome::Aligned(1));
            }
            self.largest = self.largest.max(alignment);
            self.member += 1;
        }
        Step::Ends(Outcome::Aligned(composite.composed(self.largest)))
    }
}

impl Step {
    /// The type that has to be started, if the step needs a new one.
    pub fn starts(&self, known: &[Progress]) -> Option<u32>
        ensures { result ≡ started known.now self.now }
    {
        match self {
            Step::Needs(type_id) => match progress_of(known, *type_id) {
                Progress::New => Some(*type_id),
                _ => None,
            },
            Step::Ends(_) => None,
        }
    }

    /// The outcome of a type that needs no new type: if it needs an open type, it contains itself.
    pub fn outcome(&self) -> Outcome
        ensures { result ≡ step_outcome self.now }
    {
        match self {
            Step::Ends(outcome) => *outcome,
            Step::Needs(_) => Outcome::Endless,
        }
    }
}

/// The outcome of the type of an id, if it is known.
fn step_to(known: &[Progress], type_id: u32) -> Step
    ensures { result ≡ step_by_progress type_id (progress_in known.now type_id) }
{
    match progress_of(known, type_id) {
        Progress::Known(outcome) => Step::Ends(outcome),
        Progress::New | Progress::Open => Step::Needs(type_id),
    }
}

/// The alignment of the type of an id, if it is known; else the step to this type.
fn alignment_in(known: &[Progress], type_id: u32) -> Result<u32, Step>
    ensures { result ≡ alignment_by type_id (progress_in known.now type_id) }
{
    match progress_of(known, type_id) {
        Progress::Known(Outcome::Aligned(alignment)) => Ok(alignment),
        Progress::Known(outcome) => Err(Step::Ends(outcome)),
        Progress::New | Progress::Open => Err(Step::Needs(type_id)),
    }
}
