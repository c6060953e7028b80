//! The pass of a rewrite over all types of a table.

ghost use Rattle.std.specs.Prelude.{◌≡◌, [], OnOk};
ghost use Rattle.btf_rewrite_model.specs.declared.feature.BtfFeature.{BtfFeature};
ghost use Rattle.btf_plain.specs.Error.{MeetsOrNoMemory};
ghost use Rattle.btf_table.specs.Adding.{HasRoom};
ghost use Rattle.btf_table.specs.Features.{Called, CallsFurther, IsFurther};
ghost use Rattle.btf_table.specs.Layout.{layout_of};
ghost use Rattle.btf_table.specs.PassStep.{pass_on, given_by, AsksInPass, Passes, BeginsAsked};
ghost use Rattle.btf_table.specs.ReadNames.{AreRead};
ghost use Rattle.btf_table.specs.TypeStep.{StepsType};

use crate::sanitize::data_sec::rewrite_section;
use crate::sanitize::features::{BtfFeatureResolver, has_sole_feature};
use crate::sanitize::func::rewrite_func;
use crate::sanitize::in_place::rewrite_by;
use crate::sanitize::made::Made;
use crate::sanitize::outcome::{Outcome, outcome_of};
use crate::sanitize::read_names::ReadNames;
use crate::sanitize::request::Request;
use crate::table::{Btf, Changes};
use btf_plain::BtfError;
use btf_records::BtfType;
use btf_rewrite_model::BtfFeature;
use std::hash::BuildHasher;

/// The rule of a type, by its kind. `names` caches the names that the pass has read.
///
/// Fails with `InvalidStringOffset` if the name of a FUNC or a DATASEC can't be read, or if an appended text does not
/// fit in the strings; with `InvalidTypeInfo` if an appended type does not fit in the types; and for a DATASEC with
/// `UnknownBtfType`, `InvalidDatasec`, `UnknownSectionSize` or `SymbolOffsetNotFound`.
fn rewrite_type<F: FnMut(BtfFeature) -> bool, G: BuildHasher, H: BuildHasher>(
    made: &mut Made,
    btf: &Btf,
    request: &Request<G, H>,
    btf_type: &BtfType,
    names: &mut ReadNames,
    resolver: &mut BtfFeatureResolver<F>,
) -> Result<Outcome, BtfError>
    requires room { HasRoom btf.now made.old.changes }
    requires read { AreRead btf.now.strings
        (layout_of request.now.sections.now request.now.symbols.now) names.old }
    requires callable { F.IsAlwaysCallable resolver.old.predicate }
    ensures callable { F.IsAlwaysCallable resolver.new.predicate }
    ensures called { CallsFurther F.step resolver.old resolver.new }
    ensures further { IsFurther resolver.old.answers resolver.new.answers }
    ensures asks { AsksInPass btf.now (given_by request.now) btf_type.now
        resolver.old.answers resolver.new.answers made.old }
    ensures steps { StepsType made.old made.new btf.now btf_type.now
        (given_by request.now) resolver.old.answers resolver.new.answers result }
    ensures read { OnOk result
        (AreRead btf.now.strings
        (layout_of request.now.sections.now request.now.symbols.now) names.new) }
{
    match btf_type {
        BtfType::Func(func) => rewrite_func(btf, func, names.readable_end, resolver),
        BtfType::DataSec(data_sec) => {
            outcome_of(rewrite_section(made, btf, request, data_sec, names, resolver))
        }
        _ => {
            let granted = has_sole_feature(btf_type, resolver);
            rewrite_by(made, btf, btf_type, granted)
        }
    }
}

/// What a pass changes in a table.
#[derive(Drop)]
pub struct PassChanges {
    /// The appended strings and types, and the types that replace others.
    pub changes: Changes,
    /// The ids of the types that `deny` changes in place after these changes are applied.
    pub denied: Vec<u32>,
}

/// What a pass changes in a table, for a kernel whose features the resolver reports, or why the pass is refused.
pub fn pass_changes<F: FnMut(BtfFeature) -> bool, G: BuildHasher, H: BuildHasher>(
    btf: &Btf,
    request: &Request<G, H>,
    resolver: &mut BtfFeatureResolver<F>,
) -> Result<PassChanges, BtfError>
    requires callable { F.IsAlwaysCallable resolver.old.predicate }
    requires unasked { resolver.old.answers ≡ [] }
    ensures callable { F.IsAlwaysCallable resolver.new.predicate }
    ensures called { Called F.step resolver.old.predicate resolver.new.answers
        resolver.new.predicate }
    ensures asks { BeginsAsked (pass_on btf.now (given_by request.now) resolver.new.answers) }
    ensures passes { MeetsOrNoMemory (λ c. c) result
        (Passes (pass_on btf.now (given_by request.now) resolver.new.answers)) }
{
    let count = btf.as_slice().len();
    let mut made = Made::new(btf)?;
    let mut denied = Vec::new(btf.allocator());
    let mut names = ReadNames::new(btf);
    for id in 1..count {
        let btf_type = btf.type_at(id as u32);
        let outcome = rewrite_type(&mut made, btf, request, btf_type, &mut names, resolver)?;
        made.keep(&mut denied, id as u32, btf_type, outcome)?;
    }
    Ok(PassChanges {
        changes: made.changes,
        denied,
    })
}
