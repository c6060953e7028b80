//! What a rewrite makes of a BTF table for a kernel that lacks some features, and the laws of the rewrite.
//!
//! The definitions are in `specs/`. The plain types that the definitions share with the code are here. Each law is the
//! contract of a function that does nothing.
#![tactic(auto)]

ghost use Rattle.btf_rewrite_model.specs.RewriteLaws.{AskedOnlyIfNeeded, GrantedFeaturesSuffice, Enum64KeepsItsValues, RecordLengthsStay, FewTypesAreAppended, SizesStay, ResolutionsStay, VariantValueStays, OtherAnswersChangeNothing, SecondRewriteChangesNothing, SizedSectionsAreKept};

mod feature;
mod ksyms_ids;

pub use feature::{
    BtfFeature, FEATURE_NAMES, FeatureAnswer, FillPolicy, feature_name, feature_named, has_bit,
};
pub use ksyms_ids::KsymsIds;

/// A rewrite asks for a feature only if the kernel needs it for a record of the table.
pub fn asked_only_if_needed()
    ensures { AskedOnlyIfNeeded }
{}

/// Each feature that the kernel needs for the records of a rewritten table was asked for once and granted.
pub fn granted_features_suffice()
    ensures { GrantedFeaturesSuffice }
{}

/// An ENUM64 that a rewrite changes to a UNION leaves a fallback with its sign, and with the name and the 64-bit value
/// of each variant in order.
pub fn enum64_keeps_its_values()
    ensures { Enum64KeepsItsValues }
{}

/// Each record retains its length in a rewrite, except for a DATASEC that gets the filler: it grows from 12 to 24
/// bytes.
pub fn record_lengths_stay()
    ensures { RecordLengthsStay }
{}

/// A rewrite appends at most four types, and removes none.
pub fn at_most_four_types_are_appended()
    ensures { FewTypesAreAppended }
{}

/// A type has the same size in the rewritten table, if the walk for it meets no VAR, FUNC, FUNC_PROTO, DATASEC or
/// DECL_TAG.
pub fn sizes_stay()
    ensures { SizesStay }
{}

/// An id resolves to the same type in the rewritten table, unless that is a FUNC.
pub fn resolutions_stay()
    ensures { ResolutionsStay }
{}

/// If the search for a variant's name succeeds, with a value or with none, it returns the same in the rewritten table.
pub fn variant_value_stays()
    ensures { VariantValueStays }
{}

/// What an id asks for, appends and becomes, and why it is refused, depends only on the answers to what this id and
/// lower ids ask for.
pub fn other_answers_change_nothing()
    ensures { OtherAnswersChangeNothing }
{}

/// A second rewrite changes nothing if these conditions hold: the first rewrite succeeds without kernel symbols
/// (`.ksyms`); the table has strings; the first rewrite leaves no DATASEC of size 0; the policy is the same; and the
/// kernel grants again what it granted.
pub fn second_rewrite_changes_nothing()
    ensures { SecondRewriteChangesNothing }
{}

/// Under the policy KeepSized, each definition of a rewrite is the same as without a policy.
pub fn sized_sections_are_kept()
    ensures { SizedSectionsAreKept }
{}
