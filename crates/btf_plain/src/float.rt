//! FLOAT: a floating-point number.

ghost use Rattle.std.specs.Prelude.{◌≡◌, refl};
ghost use Rattle.btf_model.specs.Made as made;
ghost use Rattle.btf_plain.specs.declared.kind.BtfKind.TheVariants.{Float};

use crate::kind::BtfKind;
use crate::record::{Kind, Measured, Record};

/// The kind FLOAT.
pub struct FloatKind;

impl Kind for FloatKind {
    type Tail = ();

    const KIND: BtfKind = BtfKind::Float;

    ghost KIND = { Float };

    ghost tail_number = { λ _. refl };

    ghost is_kept = { λ _. refl };
}

impl Measured for FloatKind {}

/// A floating-point number (the kernel's documentation, "BTF_KIND_FLOAT").
pub type Float = Record<FloatKind>;

impl Record<FloatKind> {
    /// A floating-point number of `size` bytes.
    pub fn new(name_offset: u32, size: u32) -> Self
        ensures { result ≡ made.float name_offset size }
    {
        Self::of(name_offset, (BtfKind::Float as u32) << 24, size, ())
    }
}
