//! CO-RE relocations: the values that a program compiled against one table gets for another table, and the patches of
//! its instructions.
#![tactic(auto)]

mod access;
mod compatible;
mod enumerator;
mod field;
mod instruction;
mod kinds;
mod lookup;
mod matching;
mod modules;
mod name;
mod path;
mod resolving;
mod search;
mod section;
mod size;
mod target;
mod types;
mod value;

pub use access::Access;
pub use btf_relocate_model::{
    Change, Field, Instruction, Matched, Patched, RelocationError, RelocationKind, Report,
    Resolved, Slot,
};
pub use instruction::patch;
pub use modules::{Candidates, InModule, Targets, candidates_among, resolve_among};
pub use name::essential_name;
pub use resolving::resolve;
pub use section::{
    CandidatePolicy, LeftCandidates, Outcome, candidates_of, relocate_records, relocate_section,
    relocate_section_among,
};
pub use target::{Target, TargetIndex};
