//! The alignments of all types of a table.

ghost use Rattle.std.specs.Prelude.{◌≡◌, ℕ, IfOk, MatchResult};
ghost use Rattle.btf_plain.specs.Error.{Meets, MeetsOrNoMemory};
ghost use Rattle.btf_layout_model.specs.Alignment.{HasAlignment};
ghost use Rattle.btf_layout.specs.Alignments.{alignment_in};
ghost use Rattle.btf_layout.specs.Progress.{KnowsOutcomes, NoneOpen, alignment_answer, progress_in};

use crate::progress::{Progress, progress_of};
use crate::run::run;
use btf_plain::BtfError;
use btf_table::{Btf, allocator_of, type_count};
use std::alloc::AllocError;

/// The alignments of the types of a table. In contracts `alignment_in` is the alignment of an id, or its error.
#[derive(Drop)]
pub struct Alignments {
    known: Vec<Progress>,
}

impl Alignments {
    /// The alignments of the types of a table, by the rule of libbpf's `btf__align_of`, with pointers of 8 bytes.
    /// `OutOfMemory` is the only error.
    ///
    /// Takes time linear in the records of the table, whatever they refer to, because each member is read at most
    /// twice, and memory linear in the number of types.
    pub fn of_table(table: &Btf) -> Result<Self, BtfError>
        ensures { MatchResult result
            (λ a. (id : ℕ) → HasAlignment table.now.records id (alignment_in a id))
            (λ e. e ≡ BtfError.OutOfMemory) }
    {
        let mut known = all_new(table)?;
        for id in 0..type_count(table) {
            run(table, id, &mut known)?;
        }
        Ok(Alignments { known })
    }

    /// The alignment of a type in bytes.
    ///
    /// Fails with the first error of the walk over the types that this type needs, in the order of the members:
    /// `UnknownBtfType` of an id that has no type, and `UnexpectedBtfType` of the id of a type without an alignment,
    /// which is a type of size 0, an Unknown, a FWD, a FUNC, a FUNC_PROTO, a VAR, a DATASEC or a DECL_TAG. Fails with
    /// `MaximumTypeDepthReached` of `type_id` if the walk comes to a type that contains itself.
    pub fn get(&self, type_id: u32) -> Result<u32, BtfError>
        ensures { Meets (λ n. n) result (λ answer. answer ≡ alignment_in self.now type_id) }
    {
        answer_in(&self.known, type_id)
    }
}

/// The alignment of one type in bytes, by the rule of `Alignments`, which is for several types.
///
/// Fails as `Alignments::get` does, and with `OutOfMemory`. Reads only the types that this type needs, each member at
/// most twice, but its memory is linear in the number of types of the table.
pub fn alignment_of(table: &Btf, type_id: u32) -> Result<u32, BtfError>
    ensures { MeetsOrNoMemory (λ n. n) result (HasAlignment table.now.records type_id) }
{
    let mut known = all_new(table)?;
    run(table, type_id, &mut known)?;
    answer_in(&known, type_id)
}

/// The progress of the types of a table, before a type was looked at.
fn all_new(table: &Btf) -> Result<Vec<Progress>, AllocError>
    ensures known { IfOk result (λ v. KnowsOutcomes table.now.records v.items) }
    ensures closed { IfOk result (λ v. NoneOpen v.items) }
{
    vec![in allocator_of(table); Progress::New; type_count(table) as usize]
}

/// The answer of the type of an id.
fn answer_in(known: &[Progress], type_id: u32) -> Result<u32, BtfError>
    ensures { Meets (λ n. n) result
        (λ answer. answer ≡ alignment_answer type_id (progress_in known.now type_id)) }
{
    match progress_of(known, type_id) {
        Progress::Known(outcome) => outcome.answer(type_id),
        Progress::New | Progress::Open => Err(BtfError::MaximumTypeDepthReached { type_id }),
    }
}
