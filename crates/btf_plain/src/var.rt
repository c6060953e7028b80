//! VAR: a variable.

ghost use Rattle.std.specs.Prelude.{◌≡◌, [], ◌∷◌, refl, map, min};
ghost use Rattle.btf_model.specs.Made as made;
ghost use Rattle.btf_plain.specs.Linkage.{var_linkage_number};
ghost use Rattle.btf_plain.specs.declared.kind.BtfKind.TheVariants.{Var};
ghost use Rattle.btf_plain.specs.VarWord.{linkage_stays, length_stays};

use crate::bytes::{push_array, split_word};
use crate::error::BtfError;
use crate::head::Head;
use crate::kind::BtfKind;
use crate::linkage::VarLinkage;
use crate::record::{Kind, Record, Refers};
use crate::words::{Fixed, Words};
use btf_model::Endianness;
use std::alloc::{AllocError, Global};

/// The kind VAR.
pub struct VarKind;

impl Kind for VarKind {
    type Tail = VarLinkage;

    const KIND: BtfKind = BtfKind::Var;

    ghost KIND = { Var };

    ghost tail_number = { λ _. refl };

    ghost is_kept = { λ _. refl };
}

impl Refers for VarKind {}

/// A variable (the kernel's documentation, "BTF_KIND_VAR"). It refers to the type of the variable.
pub type Var = Record<VarKind>;

impl Record<VarKind> {
    /// A variable of the type of id `btf_type`.
    pub fn new(name_offset: u32, btf_type: u32, linkage: VarLinkage) -> Self
        ensures { result ≡ made.var name_offset btf_type (var_linkage_number linkage) }
    {
        Self::of(name_offset, (BtfKind::Var as u32) << 24, btf_type, linkage)
    }

    /// The linkage.
    pub fn linkage(&self) -> VarLinkage
        ensures { self.now.tail ≡ var_linkage_number result ∷ [] }
    {
        match self.tail {
            VarLinkage::Static => VarLinkage::Static,
            VarLinkage::Global => VarLinkage::Global,
            VarLinkage::Extern => VarLinkage::Extern,
            VarLinkage::Unknown => VarLinkage::Unknown,
        }
    }

    /// Sets the type and the linkage. The name and info do not change.
    pub fn set_target(&mut self, btf_type: u32, linkage: VarLinkage)
        ensures { self.new ≡ record self.old {
          third = btf_type;
          tail = var_linkage_number linkage ∷ [];
        } }
    {
        self.head.third = btf_type;
        self.tail = linkage;
    }
}

/// One word, the number of the linkage. A linkage that has no name is read as Unknown.
impl Words for VarLinkage {
    ghost words = { λ linkage. var_linkage_number linkage ∷ [] };

    ghost number = { λ _. 1 };

    ghost kept = { map (min 3) };

    fn number(_vlen: usize) -> usize {
        1
    }

    fn read(
        _alloc: Global,
        bytes: &[u8],
        endianness: Endianness,
        _vlen: usize,
    ) -> Result<Self, BtfError> {
        let (number, _) = split_word(bytes, endianness)?;
        Ok(VarLinkage::from(number))
    }

    fn append_to(
        &self,
        head: &Head,
        out: &mut Vec<u8>,
        endianness: Endianness,
    ) -> Result<(), AllocError> {
        let number = self.clone()?.number();
        push_array(out, endianness, &[head.name, head.info, head.third, number])
    }

    ghost cloned = { λ x y h i. var_linkage_number (h i) ∷ [] };

    ghost words_kept = { linkage_stays };

    ghost length_kept = { length_stays };
}

impl Fixed for VarLinkage {
    ghost is_copied = { λ x. tt };

    ghost same_number = { λ _ _. refl };
}
