//! What a record asks to be written.

/// What a record asks to be written into an instruction. Values are 64-bit patterns.
#[derive(Clone, Copy, Debug, PartialEq, Eq)]
pub struct Resolved {
    /// The value for the program's own table, which the compiler wrote into the instruction.
    pub expected: u64,
    /// The value for the target's table.
    pub value: u64,
    /// Whether a type of the target matches; false for a record that asks for the id of the program's own type.
    pub is_matched: bool,
    /// Whether the instruction becomes a poisoned one, because nothing in the target matches.
    pub is_poisoned: bool,
    /// Whether the instruction must have the expected value before it is patched.
    pub validates: bool,
    /// The size in bytes of the local field that a load or store reads or writes; 0 if there is none.
    pub local_size: u32,
    /// The size in bytes of the target's field; 0 if there is none.
    pub target_size: u32,
    /// Whether the size of a load or store may change from the local size to the target's.
    pub is_adjustable: bool,
}
