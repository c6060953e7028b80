//! FWD: a forward declaration of a structure or a union.

ghost use Rattle.std.specs.Prelude.{◌≡◌, ◌↔◌, IsTrue, refl};
ghost use Rattle.btf_model.specs.Record.{kind_flag};
ghost use Rattle.btf_model.specs.Made as made;
ghost use Rattle.btf_plain.specs.declared.kind.BtfKind.TheVariants.{Fwd};

use crate::kind::BtfKind;
use crate::list::flag_word;
use crate::record::{Kind, Record};

/// The kind FWD.
pub struct FwdKind;

impl Kind for FwdKind {
    type Tail = ();

    const KIND: BtfKind = BtfKind::Fwd;

    ghost KIND = { Fwd };

    ghost tail_number = { λ _. refl };

    ghost is_kept = { λ _. refl };
}

/// A forward declaration of a structure or a union (the kernel's documentation, "BTF_KIND_FWD"). Its third word is 0.
pub type Fwd = Record<FwdKind>;

impl Record<FwdKind> {
    /// A forward declaration. If the kind flag is set, it declares a union, else a structure.
    pub fn new(name_offset: u32, kind_flag: bool) -> Self
        ensures { result ≡ made.fwd name_offset kind_flag }
    {
        let info = (BtfKind::Fwd as u32) << 24 | flag_word(kind_flag);
        Self::of(name_offset, info, 0, ())
    }

    /// Whether a union is declared, and not a structure: the kind flag of info.
    pub fn is_union(&self) -> bool
        ensures { IsTrue result ↔ (kind_flag self.now.info ≡ 1) }
    {
        self.head.info >> 31 == 1
    }
}
