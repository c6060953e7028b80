//! Instructions of a BPF program, as far as a relocation changes them.

/// One slot of 8 bytes of a BPF program (the kernel's documentation, "BPF Instruction Set Architecture", "Instruction
/// encoding").
#[derive(Clone, Copy, Debug, PartialEq, Eq)]
pub struct Slot {
    /// The opcode.
    pub opcode: u8,
    /// The byte of the source and the destination register, whose order depends on the byte order.
    pub registers: u8,
    /// The offset, as its 16 bits.
    pub offset: u16,
    /// The immediate, as its 32 bits.
    pub immediate: u32,
}

/// An instruction: one slot, or two for the load of a 64-bit immediate.
#[derive(Clone, Copy, Debug, PartialEq, Eq)]
pub enum Instruction {
    /// An instruction of one slot.
    Narrow(Slot),
    /// A load of a 64-bit immediate, whose halves are in the two slots.
    Wide(Slot, Slot),
}

/// What a relocation did to an instruction.
#[derive(Clone, Copy, Debug, PartialEq, Eq)]
pub enum Patched {
    /// The value was written into the instruction.
    Written,
    /// The instruction was replaced by a call that the kernel refuses, because the program must not reach it.
    Poisoned,
}
