//! DECL_TAG: a tag of a declaration.

ghost use Rattle.std.specs.Prelude.{◌≡◌, [], ◌∷◌, refl};
ghost use Rattle.btf_model.specs.Made as made;
ghost use Rattle.std.specs.Int.{cast_unsigned, w32};
ghost use Rattle.btf_plain.specs.declared.kind.BtfKind.TheVariants.{DeclTag};

use crate::kind::BtfKind;
use crate::record::{Kind, Record, Refers};

/// The kind DECL_TAG.
pub struct DeclTagKind;

impl Kind for DeclTagKind {
    type Tail = u32;

    const KIND: BtfKind = BtfKind::DeclTag;

    ghost KIND = { DeclTag };

    ghost tail_number = { λ _. refl };

    ghost is_kept = { λ _. refl };
}

impl Refers for DeclTagKind {}

/// A tag of a declaration (the kernel's documentation, "BTF_KIND_DECL_TAG"). It refers to the type that is tagged.
pub type DeclTag = Record<DeclTagKind>;

impl Record<DeclTagKind> {
    /// A tag of the type of id `btf_type`: of its member or parameter with this index, or of the whole type if the
    /// index is -1.
    pub fn new(name_offset: u32, btf_type: u32, component_index: i32) -> Self
        ensures { result ≡ made.decl_tag name_offset btf_type
            (cast_unsigned w32 component_index) }
    {
        let info = (BtfKind::DeclTag as u32) << 24;
        Self::of(name_offset, info, btf_type, component_index.cast_unsigned())
    }

    /// The index of the member or the parameter that is tagged, or -1.
    pub fn component_index(&self) -> i32
        ensures { self.now.tail ≡ cast_unsigned w32 result ∷ [] }
    {
        self.tail.cast_signed()
    }
}
