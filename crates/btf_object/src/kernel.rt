//! The features of a kernel's BTF.

ghost use Rattle.std.specs.Prelude.{◌≡◌, ◌||◌, false, IfSome, IfNone};
ghost use Rattle.btf_rewrite_model.specs.Feature.{same_feature};
ghost use Rattle.btf_rewrite_model.specs.declared.feature.BtfFeature.{BtfFeature};
ghost use Rattle.btf_object_model.specs.Kernel.{IsVersion, has_by_version};
ghost use Rattle.btf_object_model.specs.declared.version.Version.{Version};
ghost use Rattle.btf_rewrite_model.specs.FeatureSet.{has_bit};
ghost use Rattle.btf_object.specs.Kernel.{kernel_has};

use crate::version::{has, read_version};
use btf_rewrite_model::{BtfFeature, has_bit};

/// The features that a kernel has.
#[derive(Clone, Copy, Debug, PartialEq, Eq)]
pub struct Kernel {
    func: bool,
    func_global: bool,
    data_sec: bool,
    data_sec_zero: bool,
    float: bool,
    decl_tag: bool,
    type_tag: bool,
    enum64: bool,
}

impl Kernel {
    /// A kernel that has none of the eight features.
    pub fn new() -> Kernel
        ensures { (f : BtfFeature) → kernel_has result f ≡ false }
    {
        Kernel {
            func: false,
            func_global: false,
            data_sec: false,
            data_sec_zero: false,
            float: false,
            decl_tag: false,
            type_tag: false,
            enum64: false,
        }
    }

    /// The same kernel with one more feature.
    pub fn with(self, feature: BtfFeature) -> Kernel
        ensures { (f : BtfFeature) → kernel_has result f
            ≡ (same_feature feature f || kernel_has self f) }
    {
        let mut kernel = self;
        match feature {
            BtfFeature::Func => kernel.func = true,
            BtfFeature::FuncGlobal => kernel.func_global = true,
            BtfFeature::DataSec => kernel.data_sec = true,
            BtfFeature::DataSecZero => kernel.data_sec_zero = true,
            BtfFeature::Float => kernel.float = true,
            BtfFeature::DeclTag => kernel.decl_tag = true,
            BtfFeature::TypeTag => kernel.type_tag = true,
            BtfFeature::Enum64 => kernel.enum64 = true,
        }
        kernel
    }

    /// The kernel whose features have their bits set. The bit of a feature is its number: Func is bit 0, and so on.
    /// Other bits are ignored.
    pub fn of_bits(bits: u32) -> Kernel
        ensures { (f : BtfFeature) → kernel_has result f ≡ has_bit bits f }
    {
        Kernel {
            func: has_bit(bits, BtfFeature::Func),
            func_global: has_bit(bits, BtfFeature::FuncGlobal),
            data_sec: has_bit(bits, BtfFeature::DataSec),
            data_sec_zero: has_bit(bits, BtfFeature::DataSecZero),
            float: has_bit(bits, BtfFeature::Float),
            decl_tag: has_bit(bits, BtfFeature::DeclTag),
            type_tag: has_bit(bits, BtfFeature::TypeTag),
            enum64: has_bit(bits, BtfFeature::Enum64),
        }
    }

    /// Whether the kernel has a feature.
    pub fn has(&self, feature: BtfFeature) -> bool
        ensures { result ≡ kernel_has self.now feature }
    {
        match feature {
            BtfFeature::Func => self.func,
            BtfFeature::FuncGlobal => self.func_global,
            BtfFeature::DataSec => self.data_sec,
            BtfFeature::DataSecZero => self.data_sec_zero,
            BtfFeature::Float => self.float,
            BtfFeature::DeclTag => self.decl_tag,
            BtfFeature::TypeTag => self.type_tag,
            BtfFeature::Enum64 => self.enum64,
        }
    }

    /// The kernel of a version: the first two numbers of `5.4`, or of what `uname -r` prints, such as
    /// `5.15.0-91-generic` or `6.1.0-rc3+`. The text after the numbers is empty or begins with `.`, `-` or `+`, and the
    /// rest of it is not read. None if the text is no version.
    ///
    /// It has the features that Linux of that version has. A distribution's kernel may have more features than Linux of
    /// its version, because features are backported.
    pub fn of_version(text: &str) -> Option<Kernel>
        ensures some { IfSome result (λ kernel. (v : Version) × IsVersion text.now v
            × ((f : BtfFeature) → kernel_has kernel f ≡ has_by_version v f)) }
        ensures none { IfNone result ((v : Version) → IsVersion text.now v → ⊥) }
    {
        let version = read_version(text)?;
        Some(Kernel {
            func: has(version, BtfFeature::Func),
            func_global: has(version, BtfFeature::FuncGlobal),
            data_sec: has(version, BtfFeature::DataSec),
            data_sec_zero: has(version, BtfFeature::DataSecZero),
            float: has(version, BtfFeature::Float),
            decl_tag: has(version, BtfFeature::DeclTag),
            type_tag: has(version, BtfFeature::TypeTag),
            enum64: has(version, BtfFeature::Enum64),
        })
    }
}
