//! Objects that are prepared for a kernel.

ghost use Rattle.std.specs.Prelude.{◌≡◌, false, map, None, IfOk, IfErr};
ghost use Rattle.btf_loader_model.specs.Loader.{any_error};
ghost use Rattle.btf_loader.specs.Prepared.{HasPrepared, IsPrepareCause};
ghost use Rattle.btf_loader.specs.Results.{outcomes_of, refuses_errors};
ghost use Rattle.btf_loader.specs.declared.step.Refusals.TheVariants.{Refuse};
ghost use Rattle.btf_object.specs.Errors.{target_of};
ghost use Rattle.btf_relocate.specs.Sections.{is_shared};

use crate::error::PrepareError;
use crate::loader::relocate_object;
use crate::step::{Refusals, SectionOutcomes};
use arrayvec::ArrayVec;
use btf_object::{FeatureAnswer, FillPolicy, Kernel, sanitize_object};
use btf_relocate::{CandidatePolicy, Target};
use std::alloc::Global;

/// An object that is prepared for a kernel.
#[derive(Debug, Drop)]
pub struct Prepared {
    /// The new object.
    pub file: Vec<u8>,
    /// What became of each section of relocation records.
    pub outcomes: Vec<SectionOutcomes>,
    /// The features that the rewrite of the table asked for, each with whether the kernel has it.
    pub answers: ArrayVec<FeatureAnswer, 8>,
}

/// The object with its code relocated for the kernel's table (`relocate_object`), and then with its own table rewritten
/// for the kernel's features (`sanitize_object`).
///
/// The order matters: relocation records refer to the types that the compiler wrote, and a rewrite changes types that
/// the kernel does not know. The rewrite changes no code (`relocated_code_stays` of `btf_loader_model`).
///
/// Reports the error of the first step that fails.
pub fn prepare_object(
    alloc: Global,
    bytes: &[u8],
    target: &Target<'_>,
    policy: CandidatePolicy,
    refusals: Refusals,
    kernel: &Kernel,
    fill: FillPolicy,
) -> Result<Prepared, PrepareError>
    // The code is relocated first, and the table of the relocated object is rewritten.
    ensures prepared { IfOk result (HasPrepared bytes.now target.now policy
        (target_of kernel.now fill None)) }
    // Under `Refuse` no outcome is an error.
    ensures refused { IfOk result (λ p. refusals ≡ Refuse
        → any_error (map outcomes_of p.outcomes.items) ≡ false) }
    // An error is that of the relocation, or of the rewrite of the relocated object.
    ensures cause { IfErr result (IsPrepareCause bytes.now target.now (is_shared policy)
        (refuses_errors refusals) (target_of kernel.now fill None)) }
{
    let (relocated, outcomes) = relocate_object(alloc, bytes, target, policy, refusals)?;
    let (file, answers) = sanitize_object(alloc, &relocated, kernel, fill)?;
    Ok(Prepared {
        file,
        outcomes,
        answers,
    })
}
