//! The features of a kernel's BTF, their names and bits, the kernel's answers, and what a rewrite does with a DATASEC
//! that has a size.

ghost use Rattle.std.specs.Prelude.{◌≡◌, ◌≢◌, IfSome, IfNone};
ghost use Rattle.btf_rewrite_model.specs.FeatureSet.{feature_name, has_bit};
ghost use Rattle.btf_rewrite_model.specs.declared.feature.BtfFeature.{BtfFeature};

/// A feature of BTF that older kernels refuse: a kind, or a use of a kind.
#[derive(Clone, Copy, Debug, Default, Eq, Hash, PartialEq)]
pub enum BtfFeature {
    /// FUNC and FUNC_PROTO.
    #[default]
    Func,
    /// A FUNC whose linkage is Global.
    FuncGlobal,
    /// VAR and DATASEC.
    DataSec,
    /// A DATASEC without entries.
    DataSecZero,
    /// FLOAT.
    Float,
    /// DECL_TAG.
    DeclTag,
    /// TYPE_TAG.
    TypeTag,
    /// ENUM64, and an ENUM with a sign.
    Enum64,
}

/// What a rewrite does with a DATASEC that has a size and no entries, for a kernel that does not accept a DATASEC
/// without entries.
#[derive(Clone, Copy, Debug, Default, Eq, PartialEq)]
pub enum FillPolicy {
    /// It stays without entries, and the rewrite does not ask for DataSecZero because of it, as in aya.
    #[default]
    KeepSized,
    /// It gets one entry of its own size, as a DATASEC of size 0 does.
    FillSized,
}

/// A feature that was asked for, and whether the kernel has it.
#[derive(Clone, Copy, Debug, Default, Eq, PartialEq)]
pub struct FeatureAnswer {
    pub feature: BtfFeature,
    pub granted: bool,
}

/// The names of the features, by their numbers.
pub static FEATURE_NAMES: [&str; 8] = [
    "Func",
    "FuncGlobal",
    "DataSec",
    "DataSecZero",
    "Float",
    "DeclTag",
    "TypeTag",
    "Enum64",
];

/// The name of a feature.
pub fn feature_name(feature: BtfFeature) -> &'static str
    ensures { result.now ≡ feature_name feature }
{
    match feature {
        BtfFeature::Func => "Func",
        BtfFeature::FuncGlobal => "FuncGlobal",
        BtfFeature::DataSec => "DataSec",
        BtfFeature::DataSecZero => "DataSecZero",
        BtfFeature::Float => "Float",
        BtfFeature::DeclTag => "DeclTag",
        BtfFeature::TypeTag => "TypeTag",
        BtfFeature::Enum64 => "Enum64",
    }
}

/// The feature of a name, or None if no feature has this name.
pub fn feature_named(name: &str) -> Option<BtfFeature>
    ensures some { IfSome result (λ feature. name.now ≡ feature_name feature) }
    ensures none { IfNone result ((feature : BtfFeature) → name.now ≢ feature_name feature) }
{
    match name {
        "Func" => Some(BtfFeature::Func),
        "FuncGlobal" => Some(BtfFeature::FuncGlobal),
        "DataSec" => Some(BtfFeature::DataSec),
        "DataSecZero" => Some(BtfFeature::DataSecZero),
        "Float" => Some(BtfFeature::Float),
        "DeclTag" => Some(BtfFeature::DeclTag),
        "TypeTag" => Some(BtfFeature::TypeTag),
        "Enum64" => Some(BtfFeature::Enum64),
        _ => None,
    }
}

/// Whether the bit of a feature is set. Func is bit 0, and so on, by the numbers of the features.
pub fn has_bit(bits: u32, feature: BtfFeature) -> bool
    ensures { result ≡ has_bit bits feature }
{
    (bits >> (feature as u32)) % 2 == 1
}
