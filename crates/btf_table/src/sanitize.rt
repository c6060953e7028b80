//! Rewriting a table for a kernel that lacks some features.

mod data_sec;
mod enumeration64;
mod features;
mod filler;
mod func;
mod func_proto;
mod in_place;
mod ksyms;
mod made;
mod outcome;
mod pass;
mod read_names;
mod request;

ghost use Rattle.std.specs.Prelude.{◌≡◌, [], Option, Some, OnOk, OnErr, IfOk};
ghost use Rattle.btf_rewrite_model.specs.declared.feature.BtfFeature.{BtfFeature};
ghost use Rattle.btf_rewrite_model.specs.declared.feature.FillPolicy.TheVariants.{KeepSized};
ghost use Rattle.btf_rewrite_model.specs.Ksyms.{ksyms_fault, ksyms_table};
ghost use Rattle.btf_plain.specs.Error.{MeetsOrNoMemory, IsOrNoMemory};
ghost use Rattle.btf_table.specs.Checked.{checked};
ghost use Rattle.btf_table.specs.Features.{Called};
ghost use Rattle.btf_table.specs.KsymsStep.{ksyms_ids};
ghost use Rattle.btf_table.specs.PassStep.{pass_on, given_by, BeginsAsked};
ghost use Rattle.btf_table.specs.Rewrites.{rewrite_of, pass_for, ReturnsRewrite, ReturnsRewrittenBytes, Sanitizes, NeedsAreGranted, KeepsTypes, KeepsMeaning, AppendsAtMost, BeginsAskedOf, OfTables};

pub use crate::sanitize::data_sec::known_offset;
pub use crate::sanitize::features::BtfFeatureResolver;
use crate::sanitize::features::copy_answers;
pub use crate::sanitize::in_place::deny;
pub use crate::sanitize::ksyms::int_of_4;
use crate::sanitize::ksyms::ksyms_changes;
use crate::sanitize::pass::pass_changes;
use crate::sanitize::request::Request;
use crate::table::Btf;
use arrayvec::ArrayVec;
use btf_plain::{BtfError, Endianness, SectionIndex};
use btf_rewrite_model::{BtfFeature, FeatureAnswer, FillPolicy, KsymsIds};
use std::alloc::Global;
use std::collections::HashMap;
use std::hash::BuildHasher;

impl Btf {
    /// Changes the kernel's symbols to ordinary variables. The symbols are the entries of the DATASEC of this id,
    /// `.ksyms`.
    ///
    /// Each FUNC and VAR that an entry names becomes Global. If there is a placeholder, which is a VAR, each VAR gets
    /// the placeholder's type, each entry of a FUNC names the placeholder instead, and each unnamed parameter of the
    /// FUNC's prototype gets the placeholder's name. Without a placeholder each VAR gets the first INT of 4 bytes as
    /// its type; if there is none, a string `int` and such an INT are appended. The entries have 4 bytes each, one
    /// after the other.
    ///
    /// Reports the first error, in this order. For the placeholder: `UnknownBtfType`, and `InvalidDatasec` if it is no
    /// VAR; without a placeholder: `InvalidStringOffset` or `InvalidTypeInfo` if the INT does not fit in the strings or
    /// the types. For the DATASEC: `UnknownBtfType`, `InvalidDatasec` if it has another kind, and `InvalidStringOffset`
    /// if its name can't be read. For each entry in order: `UnknownBtfType`, `InvalidDatasec` if it names neither a
    /// FUNC nor a VAR, `InvalidStringOffset` if the name of this FUNC or VAR can't be read, and, with a placeholder,
    /// `UnknownBtfType` of a FUNC's prototype. An error leaves the table unchanged.
    pub fn fixup_ksyms_datasec(
        &mut self,
        datasec_id: u32,
        placeholder_id: Option<u32>,
    ) -> Result<(), BtfError>
        ensures answer { IsOrNoMemory (λ u. u) result
            (checked (ksyms_fault self.old (ksyms_ids datasec_id placeholder_id)) tt) }
        ensures ok { OnOk result (self.new ≡ ksyms_table self.old
            (ksyms_ids datasec_id placeholder_id)) }
        ensures err { OnErr result (self.new ≡ self.old) }
        // No type is removed, and at most the INT is appended.
        ensures appended { OnOk result (AppendsAtMost 1 self.old self.new) }
    {
        let changes = ksyms_changes(self, datasec_id, placeholder_id)?;
        self.apply(changes)?;
        Ok(())
    }

    /// The pass of a rewrite, without the step of `.ksyms`. An error leaves the table unchanged.
    fn sanitize<F: FnMut(BtfFeature) -> bool, G: BuildHasher, H: BuildHasher>(
        &mut self,
        request: &Request<G, H>,
        resolver: &mut BtfFeatureResolver<F>,
    ) -> Result<ArrayVec<FeatureAnswer, 8>, BtfError>
        requires callable { F.IsAlwaysCallable resolver.old.predicate }
        requires unasked { resolver.old.answers ≡ [] }
        ensures callable { F.IsAlwaysCallable resolver.new.predicate }
        ensures called { Called F.step resolver.old.predicate resolver.new.answers
            resolver.new.predicate }
        ensures asked { BeginsAsked (pass_on self.old (given_by request.now) resolver.new.answers) }
        ensures sanitizes { MeetsOrNoMemory (λ a. a.items) result
            (Sanitizes (pass_on self.old (given_by request.now)
            resolver.new.answers) self.new) }
        ensures answers { IfOk result (λ a. a.items ≡ resolver.new.answers) }
        ensures err { OnErr result (self.new ≡ self.old) }
    {
        let passed = pass_changes(self, request, resolver)?;
        let answers = copy_answers(resolver)?;
        self.apply(passed.changes)?;
        self.deny_types(&passed.denied);
        Ok(answers)
    }

    /// Rewrites the table for a kernel whose features the resolver's predicate reports, and returns the features that
    /// it asked for, with the answers.
    ///
    /// If `ksyms` is given, the kernel's symbols first become ordinary variables, as in `fixup_ksyms_datasec`. Then the
    /// rule of its kind changes each type. `sections` has the sizes of sections by name, each with an index that is not
    /// read; `symbols` has the offsets of symbols by name. Ids do not change, strings are only appended, and at most
    /// four types are appended.
    ///
    /// Reports the first error: first the errors of `fixup_ksyms_datasec`, and then the error of the least id that has
    /// one. This is `InvalidStringOffset` if the name of a FUNC or a DATASEC, or of a variable that a DATASEC names,
    /// can't be read, or if a name does not fit in the strings; `UnknownBtfType` of an entry's id; `InvalidDatasec` if
    /// an entry names no VAR; `UnknownSectionSize` or `SymbolOffsetNotFound` of a name that the maps don't have, or
    /// whose value has more than 32 bits; and `InvalidTypeInfo` if a type does not fit in the types, or if a bit offset
    /// has more than 32 bits. An error leaves the table unchanged.
    pub fn fixup_and_sanitize<F: FnMut(BtfFeature) -> bool>(
        &mut self,
        sections: &HashMap<String, (SectionIndex, u64)>,
        symbols: &HashMap<String, u64>,
        ksyms: Option<KsymsIds>,
        resolver: &mut BtfFeatureResolver<F>,
    ) -> Result<ArrayVec<FeatureAnswer, 8>, BtfError>
        requires callable { F.IsAlwaysCallable resolver.old.predicate }
        requires unasked { resolver.old.answers ≡ [] }
        ensures callable { F.IsAlwaysCallable resolver.new.predicate }
        // The predicate is called once for each answer, in order, and not otherwise.
        ensures called { Called F.step resolver.old.predicate resolver.new.answers
            resolver.new.predicate }
        // Whether the rewrite succeeds or fails, the answers are to the first features that it asks for.
        ensures asked { BeginsAsked (pass_for
            (rewrite_of KeepSized ksyms sections.now symbols.now) self.old resolver.new.answers) }
        // On success the table is the rewritten one, and all features were asked for; otherwise the first error is
        // returned.
        ensures rewrites { ReturnsRewrite (rewrite_of KeepSized ksyms sections.now symbols.now)
            self.old resolver.new.answers self.new result }
        ensures answers { IfOk result (λ a. a.items ≡ resolver.new.answers) }
        ensures err { OnErr result (self.new ≡ self.old) }
        // Each feature that the kernel needs for the new table was asked for once and granted.
        ensures granted { OnOk result (NeedsAreGranted KeepSized ksyms resolver.new.answers
            self.old self.new) }
        // The record states which sizes, resolutions and values of variants are unchanged, and that at most four types
        // are appended.
        ensures kept { OnOk result (KeepsMeaning self.old self.new) }
    {
        self.fixup_and_sanitize_with(sections, symbols, ksyms, FillPolicy::KeepSized, resolver)
    }

    /// Rewrites the table as `fixup_and_sanitize` does, with the same errors, and with a policy for DATASECs that have
    /// a size and no entries.
    ///
    /// Under `FillPolicy::FillSized` the rewrite asks a kernel that has DATASECs whether it accepts such a DATASEC. If
    /// the kernel does not, the DATASEC retains its size, and its only entry is the variable that DATASECs of size 0
    /// without entries get. This fails with `InvalidStringOffset` or `InvalidTypeInfo` if the variable does not fit in
    /// the strings or the types, and with `InvalidTypeInfo` if the entry does not fit in the types. The size of such a
    /// DATASEC is not read from `sections`.
    pub fn fixup_and_sanitize_with<F: FnMut(BtfFeature) -> bool, G: BuildHasher, H: BuildHasher>(
        &mut self,
        sections: &HashMap<String, (SectionIndex, u64), G>,
        symbols: &HashMap<String, u64, H>,
        ksyms: Option<KsymsIds>,
        policy: FillPolicy,
        resolver: &mut BtfFeatureResolver<F>,
    ) -> Result<ArrayVec<FeatureAnswer, 8>, BtfError>
        requires callable { F.IsAlwaysCallable resolver.old.predicate }
        requires unasked { resolver.old.answers ≡ [] }
        ensures callable { F.IsAlwaysCallable resolver.new.predicate }
        // The predicate is called once for each answer, in order, and not otherwise.
        ensures called { Called F.step resolver.old.predicate resolver.new.answers
            resolver.new.predicate }
        // Whether the rewrite succeeds or fails, the answers are to the first features that it asks for.
        ensures asked { BeginsAsked (pass_for
            (rewrite_of policy ksyms sections.now symbols.now) self.old resolver.new.answers) }
        // On success the table is the rewritten one, and all features were asked for; otherwise the first error is
        // returned.
        ensures rewrites { ReturnsRewrite (rewrite_of policy ksyms sections.now symbols.now)
            self.old resolver.new.answers self.new result }
        ensures answers { IfOk result (λ a. a.items ≡ resolver.new.answers) }
        ensures err { OnErr result (self.new ≡ self.old) }
        // Each feature that the kernel needs for the new table was asked for once and granted.
        ensures granted { OnOk result (NeedsAreGranted policy ksyms resolver.new.answers
            self.old self.new) }
        // The record states which sizes, resolutions and values of variants are unchanged, and that at most four types
        // are appended.
        ensures kept { OnOk result (KeepsMeaning self.old self.new) }
    {
        let request = Request {
            sections,
            symbols,
            policy,
        };
        let Some(ids) = ksyms else {
            return self.sanitize(&request, resolver);
        };
        let changes = ksyms_changes(self, ids.datasec_id, ids.placeholder_id)?;
        let undo = self.apply(changes)?;
        match self.sanitize(&request, resolver) {
            Ok(answers) => Ok(answers),
            Err(error) => {
                self.undo(undo);
                Err(error)
            }
        }
    }
}

/// Parses a table, rewrites it by `fixup_and_sanitize`, and writes it in its own byte order. Returns the bytes, and the
/// features that the predicate was asked for. Fails with the errors of `Btf::parse` and of `fixup_and_sanitize`.
pub fn rewrite_bytes<F: FnMut(BtfFeature) -> bool>(
    alloc: Global,
    data: &[u8],
    endianness: Endianness,
    sections: &HashMap<String, (SectionIndex, u64)>,
    symbols: &HashMap<String, u64>,
    ksyms: Option<KsymsIds>,
    resolver: &mut BtfFeatureResolver<F>,
) -> Result<(Vec<u8>, ArrayVec<FeatureAnswer, 8>), BtfError>
    requires callable { F.IsAlwaysCallable resolver.old.predicate }
    requires unasked { resolver.old.answers ≡ [] }
    ensures callable { F.IsAlwaysCallable resolver.new.predicate }
    ensures called { Called F.step resolver.old.predicate resolver.new.answers
        resolver.new.predicate }
    ensures rewrites { ReturnsRewrittenBytes (rewrite_of KeepSized ksyms sections.now symbols.now)
        endianness «data».now resolver.new.answers result }
    ensures answers { IfOk result (λ r. r.1.items ≡ resolver.new.answers) }
    // In every outcome there are no answers, or the bytes represent a table and the answers are to the first features
    // that its rewrite asks for.
    ensures asked { BeginsAskedOf (rewrite_of KeepSized ksyms sections.now symbols.now) endianness
        «data».now resolver.new.answers }
    // For the table that the bytes represent and the table that the written bytes represent: each feature that the
    // kernel needs for the new table was asked for once and granted;
    ensures granted { IfOk result (λ r. OfTables endianness «data».now r.0.items
        (NeedsAreGranted KeepSized ksyms resolver.new.answers)) }
    // the record states which sizes and resolutions are unchanged, and that at most four types are appended.
    ensures kept { IfOk result (λ r. OfTables endianness «data».now r.0.items KeepsTypes) }
{
    let policy = FillPolicy::KeepSized;
    rewrite_bytes_with(
        alloc, data, endianness, sections, symbols, ksyms, policy, resolver,
    )
}

/// Parses a table, rewrites it by `fixup_and_sanitize_with`, and writes it in its own byte order. Returns the bytes,
/// and the features that the predicate was asked for. Fails with the errors of `Btf::parse` and of
/// `fixup_and_sanitize_with`.
pub fn rewrite_bytes_with<F: FnMut(BtfFeature) -> bool, G: BuildHasher, H: BuildHasher>(
    alloc: Global,
    data: &[u8],
    endianness: Endianness,
    sections: &HashMap<String, (SectionIndex, u64), G>,
    symbols: &HashMap<String, u64, H>,
    ksyms: Option<KsymsIds>,
    policy: FillPolicy,
    resolver: &mut BtfFeatureResolver<F>,
) -> Result<(Vec<u8>, ArrayVec<FeatureAnswer, 8>), BtfError>
    requires callable { F.IsAlwaysCallable resolver.old.predicate }
    requires unasked { resolver.old.answers ≡ [] }
    ensures callable { F.IsAlwaysCallable resolver.new.predicate }
    ensures called { Called F.step resolver.old.predicate resolver.new.answers
        resolver.new.predicate }
    ensures rewrites { ReturnsRewrittenBytes (rewrite_of policy ksyms sections.now symbols.now)
        endianness «data».now resolver.new.answers result }
    ensures answers { IfOk result (λ r. r.1.items ≡ resolver.new.answers) }
    // In every outcome there are no answers, or the bytes represent a table and the answers are to the first features
    // that its rewrite asks for.
    ensures asked { BeginsAskedOf (rewrite_of policy ksyms sections.now symbols.now) endianness
        «data».now resolver.new.answers }
    // For the table that the bytes represent and the table that the written bytes represent: each feature that the
    // kernel needs for the new table was asked for once and granted;
    ensures granted { IfOk result (λ r. OfTables endianness «data».now r.0.items
        (NeedsAreGranted policy ksyms resolver.new.answers)) }
    // the record states which sizes and resolutions are unchanged, and that at most four types are appended.
    ensures kept { IfOk result (λ r. OfTables endianness «data».now r.0.items KeepsTypes) }
{
    let mut btf = Btf::parse(alloc, data, endianness)?;
    let answers = btf.fixup_and_sanitize_with(sections, symbols, ksyms, policy, resolver)?;
    Ok((btf.to_bytes()?, answers))
}
