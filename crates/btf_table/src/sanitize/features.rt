//! The features of a kernel's BTF, as a caller's predicate reports them, and what a type of one feature asks for.

ghost use Rattle.std.specs.Prelude.{◌≡◌, [], true, IfOk};
ghost use Rattle.btf_model.specs.Record as kinds;
ghost use Rattle.btf_rewrite_model.specs.Feature.{is_signed, answer_to as answer_of};
ghost use Rattle.btf_records.specs.BtfType.{record_of, type_kind};
ghost use Rattle.btf_table.specs.Features.{AsksResolver, CallsFurther, IsFurther};
ghost use Rattle.btf_table.specs.SoleFeature.{feature_of, AsksSole, GrantsSole};

use arrayvec::ArrayVec;
use btf_plain::BtfKind;
use btf_records::BtfType;
use btf_rewrite_model::{BtfFeature, FeatureAnswer};
use std::alloc::AllocError;
use std::marker::Model;

/// A predicate that reports whether a kernel has a feature, and its answers so far. It is called at most once for each
/// feature.
#[derive(Drop)]
pub struct BtfFeatureResolver<F> {
    predicate: F,
    answers: ArrayVec<FeatureAnswer, 8>,
}

impl<F> Model for BtfFeatureResolver<F> {
    ghost use Rattle.btf_table.specs.Features.{Resolver};

    ghost Value = { Resolver F };

    ghost use Rattle.btf_table.specs.Features.{AreDistinct};

    ghost view = { λ r. record { predicate = r.predicate; answers = r.answers.items } };

    ghost invariant = { λ r. AreDistinct r.answers.items };
}

impl<F: FnMut(BtfFeature) -> bool> BtfFeatureResolver<F> {
    ghost use Rattle.btf_table.specs.Features.{AreDistinct};

    /// A resolver that has called its predicate for no feature yet.
    pub fn new(predicate: F) -> Self
        ensures { result ≡ record { predicate = predicate; answers = [] } }
    {
        BtfFeatureResolver {
            predicate,
            answers: ArrayVec::new(),
        }
    }

    /// Whether the kernel has a feature. The predicate is called for the first such question, and its answer is cached.
    pub fn is_supported(&mut self, feature: BtfFeature) -> bool
        requires { F.IsAlwaysCallable self.old.predicate }
        ensures asks { AsksResolver F.step feature self.old result self.new }
        ensures callable { F.IsAlwaysCallable self.new.predicate }
    {
        if let Some(granted) = answer_to(&self.answers, feature) {
            return granted;
        }
        let granted = (self.predicate)(feature);
        self.answers.push(FeatureAnswer { feature, granted });
        granted
    }

    /// The predicate's answers so far, in the order of the calls. It is not called twice for a feature.
    pub fn answers(&self) -> &[FeatureAnswer]
        ensures answers { result.now ≡ self.now.answers }
        ensures distinct { AreDistinct result.now }
    {
        self.answers.as_slice()
    }
}

/// A copy of a resolver's answers so far. It does not borrow the resolver, and allocates only room for eight answers.
pub fn copy_answers<F>(
    resolver: &BtfFeatureResolver<F>,
) -> Result<ArrayVec<FeatureAnswer, 8>, AllocError>
    ensures { IfOk result (λ a. a.items ≡ resolver.now.answers) }
{
    resolver.answers.clone()
}

/// The answer for a feature; None if the feature was not asked for.
fn answer_to(answers: &[FeatureAnswer], feature: BtfFeature) -> Option<bool>
    ensures { result ≡ answer_of answers.now feature }
{
    for answer in answers {
        if answer.feature == feature {
            return Some(answer.granted);
        }
    }
    None
}

/// Whether the kernel has the one feature that a type asks for; true if the type asks for none. The type is neither a
/// FUNC nor a DATASEC.
pub fn has_sole_feature<F: FnMut(BtfFeature) -> bool>(
    btf_type: &BtfType,
    resolver: &mut BtfFeatureResolver<F>,
) -> bool
    requires { F.IsAlwaysCallable resolver.old.predicate }
    ensures callable { F.IsAlwaysCallable resolver.new.predicate }
    ensures called { CallsFurther F.step resolver.old resolver.new }
    ensures further { IsFurther resolver.old.answers resolver.new.answers }
    ensures asks { AsksSole btf_type.now resolver.old.answers resolver.new.answers }
    ensures granted { GrantsSole btf_type.now resolver.old.answers resolver.new.answers result }
{
    match sole_feature(btf_type) {
        Some(feature) => resolver.is_supported(feature),
        None => true,
    }
}

/// The feature that a type asks for, if it asks for exactly one. None if it asks for none, and for a FUNC or a DATASEC,
/// which may ask for more than one.
fn sole_feature(btf_type: &BtfType) -> Option<BtfFeature>
    ensures { result ≡ feature_of (record_of btf_type.now) }
{
    match btf_type.kind() {
        BtfKind::Var => Some(BtfFeature::DataSec),
        BtfKind::Float => Some(BtfFeature::Float),
        BtfKind::DeclTag => Some(BtfFeature::DeclTag),
        BtfKind::TypeTag => Some(BtfFeature::TypeTag),
        BtfKind::FuncProto => Some(BtfFeature::Func),
        BtfKind::Enum64 => Some(BtfFeature::Enum64),
        BtfKind::Enum if is_signed_enum(btf_type) => Some(BtfFeature::Enum64),
        _ => None,
    }
}

/// Whether a type is an ENUM whose values are signed.
fn is_signed_enum(btf_type: &BtfType) -> bool
    ensures { type_kind btf_type.now ≡ kinds.Enum → result ≡ is_signed (record_of btf_type.now) }
{
    match btf_type {
        BtfType::Enum(enumeration) => enumeration.is_signed(),
        _ => false,
    }
}
