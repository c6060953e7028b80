//! The records that refer to one other type and have no other data: PTR, TYPEDEF, VOLATILE, CONST, RESTRICT, TYPE_TAG.

ghost use Rattle.std.specs.Prelude.{◌≡◌, refl};
ghost use Rattle.btf_model.specs.Made as made;
ghost use Rattle.btf_plain.specs.declared.kind.BtfKind.TheVariants.{Ptr, Typedef, Volatile, Const, Restrict, TypeTag};

use crate::kind::BtfKind;
use crate::record::{Kind, Record, Refers};

/// The kind PTR.
pub struct PtrKind;

impl Kind for PtrKind {
    type Tail = ();

    const KIND: BtfKind = BtfKind::Ptr;

    ghost KIND = { Ptr };

    ghost tail_number = { λ _. refl };

    ghost is_kept = { λ _. refl };
}

impl Refers for PtrKind {}

/// A pointer (the kernel's documentation, "BTF_KIND_PTR"). It refers to the type that is pointed to.
pub type Ptr = Record<PtrKind>;

impl Record<PtrKind> {
    /// A pointer to the type of id `btf_type`.
    pub fn new(name_offset: u32, btf_type: u32) -> Self
        ensures { result ≡ made.ptr name_offset btf_type }
    {
        Self::of(name_offset, (BtfKind::Ptr as u32) << 24, btf_type, ())
    }
}

/// The kind TYPEDEF.
pub struct TypedefKind;

impl Kind for TypedefKind {
    type Tail = ();

    const KIND: BtfKind = BtfKind::Typedef;

    ghost KIND = { Typedef };

    ghost tail_number = { λ _. refl };

    ghost is_kept = { λ _. refl };
}

impl Refers for TypedefKind {}

/// A name for a type (the kernel's documentation, "BTF_KIND_TYPEDEF"). It refers to the type that is named.
pub type Typedef = Record<TypedefKind>;

impl Record<TypedefKind> {
    /// A name for the type of id `btf_type`.
    pub fn new(name_offset: u32, btf_type: u32) -> Self
        ensures { result ≡ made.typedef name_offset btf_type }
    {
        Self::of(name_offset, (BtfKind::Typedef as u32) << 24, btf_type, ())
    }
}

/// The kind VOLATILE.
pub struct VolatileKind;

impl Kind for VolatileKind {
    type Tail = ();

    const KIND: BtfKind = BtfKind::Volatile;

    ghost KIND = { Volatile };

    ghost tail_number = { λ _. refl };

    ghost is_kept = { λ _. refl };
}

impl Refers for VolatileKind {}

/// A volatile type (the kernel's documentation, "BTF_KIND_VOLATILE"). It refers to the type that is volatile.
pub type Volatile = Record<VolatileKind>;

impl Record<VolatileKind> {
    /// The type of id `btf_type`, volatile. It has no name.
    pub fn new(btf_type: u32) -> Self
        ensures { result ≡ made.volatile btf_type }
    {
        Self::of(0, (BtfKind::Volatile as u32) << 24, btf_type, ())
    }
}

/// The kind CONST.
pub struct ConstKind;

impl Kind for ConstKind {
    type Tail = ();

    const KIND: BtfKind = BtfKind::Const;

    ghost KIND = { Const };

    ghost tail_number = { λ _. refl };

    ghost is_kept = { λ _. refl };
}

impl Refers for ConstKind {}

/// A constant type (the kernel's documentation, "BTF_KIND_CONST"). It refers to the type that is constant.
pub type Const = Record<ConstKind>;

impl Record<ConstKind> {
    /// The type of id `btf_type`, constant. It has no name.
    pub fn new(btf_type: u32) -> Self
        ensures { result ≡ made.const btf_type }
    {
        Self::of(0, (BtfKind::Const as u32) << 24, btf_type, ())
    }
}

/// The kind RESTRICT.
pub struct RestrictKind;

impl Kind for RestrictKind {
    type Tail = ();

    const KIND: BtfKind = BtfKind::Restrict;

    ghost KIND = { Restrict };

    ghost tail_number = { λ _. refl };

    ghost is_kept = { λ _. refl };
}

impl Refers for RestrictKind {}

/// A restricted pointer (the kernel's documentation, "BTF_KIND_RESTRICT"). It refers to the pointer.
pub type Restrict = Record<RestrictKind>;

impl Record<RestrictKind> {
    /// The type of id `btf_type`, restricted. It has no name.
    pub fn new(btf_type: u32) -> Self
        ensures { result ≡ made.restrict btf_type }
    {
        Self::of(0, (BtfKind::Restrict as u32) << 24, btf_type, ())
    }
}

/// The kind TYPE_TAG.
pub struct TypeTagKind;

impl Kind for TypeTagKind {
    type Tail = ();

    const KIND: BtfKind = BtfKind::TypeTag;

    ghost KIND = { TypeTag };

    ghost tail_number = { λ _. refl };

    ghost is_kept = { λ _. refl };
}

impl Refers for TypeTagKind {}

/// A tag of a type (the kernel's documentation, "BTF_KIND_TYPE_TAG"). It refers to the type that is tagged.
pub type TypeTag = Record<TypeTagKind>;

impl Record<TypeTagKind> {
    /// A tag of the type of id `btf_type`.
    pub fn new(name_offset: u32, btf_type: u32) -> Self
        ensures { result ≡ made.type_tag name_offset btf_type }
    {
        Self::of(name_offset, (BtfKind::TypeTag as u32) << 24, btf_type, ())
    }
}
