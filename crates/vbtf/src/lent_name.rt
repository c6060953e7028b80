//! A name in the memory of a table, as C reads it.

ghost use Rattle.std.specs.Prelude.{ℕ, List};
ghost use Rattle.vbtf.specs.Lent.{lent_bytes};

use std::marker::Model;

/// The bytes of a name in the memory of a table, or of all names. They do not change during a loan of the table.
#[repr(C)]
#[derive(Drop)]
pub struct Name {
    pub(crate) at: *const u8,
    pub(crate) len: usize,
    /// The bytes at the pointer, and the lifetime of the loan.
    pub ghost bytes: { List ℕ },
    pub ghost life: { ℕ },
}

impl Model for Name {
    ghost also_owns = { λ n. lent_bytes n.at n.bytes n.life };
}
