//! FUNC: a function.

ghost use Rattle.std.specs.Prelude.{◌≡◌, refl};
ghost use Rattle.btf_model.specs.Record.{vlen};
ghost use Rattle.btf_model.specs.Info.{with_vlen};
ghost use Rattle.btf_model.specs.Made as made;
ghost use Rattle.btf_plain.specs.Linkage.{func_linkage_number, func_linkage_of};
ghost use Rattle.btf_plain.specs.declared.kind.BtfKind.TheVariants.{Func};

use crate::kind::BtfKind;
use crate::linkage::FuncLinkage;
use crate::record::{Kind, Record, Refers};

/// The kind FUNC.
pub struct FuncKind;

impl Kind for FuncKind {
    type Tail = ();

    const KIND: BtfKind = BtfKind::Func;

    ghost KIND = { Func };

    ghost tail_number = { λ _. refl };

    ghost is_kept = { λ _. refl };
}

impl Refers for FuncKind {}

/// A function (the kernel's documentation, "BTF_KIND_FUNC"). It refers to its prototype.
pub type Func = Record<FuncKind>;

impl Record<FuncKind> {
    /// A function whose prototype has the id `proto`. Its linkage is in bits 0 to 15 of info.
    pub fn new(name_offset: u32, proto: u32, linkage: FuncLinkage) -> Self
        ensures { result ≡ made.func name_offset proto (func_linkage_number linkage) }
    {
        let info = (BtfKind::Func as u32) << 24 | linkage.number();
        Self::of(name_offset, info, proto, ())
    }

    /// The linkage: bits 0 to 15 of info.
    pub fn linkage(&self) -> FuncLinkage
        ensures { result ≡ func_linkage_of (vlen self.now.info) }
    {
        FuncLinkage::from(self.head.info & 0xffff)
    }

    /// Sets the linkage, and does not change the other bits of info.
    pub fn set_linkage(&mut self, linkage: FuncLinkage)
        ensures { self.new ≡ record self.old {
          info = with_vlen self.old.info (func_linkage_number linkage);
        } }
    {
        self.head.info = self.head.info & 0xffff_0000 | linkage.number();
    }
}
