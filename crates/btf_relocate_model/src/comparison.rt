//! What comparisons of two types are about.

/// How two types are compared.
#[derive(Clone, Copy, Debug, PartialEq, Eq)]
pub enum Rule {
    /// The kinds and the shapes of pointers, arrays and prototypes agree (libbpf's `bpf_core_types_are_compat`).
    Compatible,
    /// Names and definitions agree, and the local type has nothing that the target's type lacks (libbpf's
    /// `bpf_core_types_match`).
    Matches,
}

/// Two types that are compared, by their ids.
#[derive(Clone, Copy, Debug, PartialEq, Eq, PartialOrd, Ord)]
pub struct Pair {
    /// The id of the type of the program's table.
    pub local: u32,
    /// The id of the type of the target.
    pub target: u32,
    /// Whether a pointer leads to the types.
    pub is_pointee: bool,
}
