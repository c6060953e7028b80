//! What a rewrite reads besides its table and the kernel.

use btf_plain::SectionIndex;
use btf_rewrite_model::FillPolicy;
use std::collections::HashMap;
use std::hash::BuildHasher;

/// What the caller gives a pass: the layout of the object, and the policy for DATASECs that have a size and no entries.
#[derive(Drop)]
pub struct Request<'a, G: BuildHasher, H: BuildHasher> {
    /// The sizes of sections by name, each with an index that is not read.
    pub sections: &'a HashMap<String, (SectionIndex, u64), G>,
    /// The offsets of symbols by name.
    pub symbols: &'a HashMap<String, u64, H>,
    pub policy: FillPolicy,
}
