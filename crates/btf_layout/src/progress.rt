//! What is known of the alignments of types.

ghost use Rattle.std.specs.Prelude.{◌≡◌};
ghost use Rattle.btf_plain.specs.Error.{Meets};
ghost use Rattle.btf_layout.specs.Progress.{progress_in, outcome_answer};

use btf_plain::BtfError;

/// The alignment of a type, or why it has none.
#[derive(Clone, Copy, Drop)]
pub enum Outcome {
    /// The alignment in bytes.
    Aligned(u32),
    /// The type needs the type of this id, which does not exist.
    Unknown(u32),
    /// The type needs the type of this id, whose kind or size gives no alignment.
    Unexpected(u32),
    /// The type contains itself, or needs a type that contains itself.
    Endless,
}

impl Outcome {
    /// The answer, for the id that was asked for.
    pub fn answer(self, type_id: u32) -> Result<u32, BtfError>
        ensures { Meets (λ n. n) result (λ answer. answer ≡ outcome_answer type_id self) }
    {
        match self {
            Outcome::Aligned(alignment) => Ok(alignment),
            Outcome::Unknown(type_id) => Err(BtfError::UnknownBtfType { type_id }),
            Outcome::Unexpected(type_id) => Err(BtfError::UnexpectedBtfType { type_id }),
            Outcome::Endless => Err(BtfError::MaximumTypeDepthReached { type_id }),
        }
    }
}

/// The progress of a type.
#[derive(Clone, Copy, Drop)]
pub enum Progress {
    /// The type was not looked at.
    New,
    /// The type waits for another type.
    Open,
    /// The outcome is known.
    Known(Outcome),
}

/// The progress of the type of an id. The outcome of an id that has no type is known.
pub fn progress_of(known: &[Progress], type_id: u32) -> Progress
    ensures { result ≡ progress_in known.now type_id }
{
    match known.get(type_id as usize) {
        Some(progress) => *progress,
        None => Progress::Known(Outcome::Unknown(type_id)),
    }
}
