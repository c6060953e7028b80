//! The rule of a DATASEC.

mod entries;
mod layout;
mod name;

ghost use Rattle.std.specs.Prelude.{◌≡◌, ◌==◌, length, not, true, false, None, Some, Ok, IfOk, OnOk};
ghost use Rattle.std.specs.Option.{unwrap_or};
ghost use Rattle.btf_rewrite_model.specs.declared.feature.BtfFeature.{BtfFeature};
ghost use Rattle.btf_rewrite_model.specs.Made.{section_entries};
ghost use Rattle.btf_plain.specs.Error.{IsOrNoMemory};
ghost use Rattle.btf_records.specs.BtfType.{record_of, fallback_of};
ghost use Rattle.btf_table.specs.Adding.{HasRoom};
ghost use Rattle.btf_table.specs.Features.{AsksResolver, CallsFurther, IsFurther};
ghost use Rattle.btf_table.specs.Layout.{sizes_of, offsets_of, layout_of};
ghost use Rattle.btf_table.specs.ReadNames.{AreFound, AreRead};
ghost use Rattle.btf_table.specs.Readable.{IsReadableEnd};
ghost use Rattle.btf_table.specs.PassStep.{given_by, AsksInPass};
ghost use Rattle.btf_table.specs.SectionStep.{final_size, is_fillable, asks_zero};
ghost use Rattle.btf_records.specs.declared.btf_type.BtfType.{BtfType};
ghost use Rattle.btf_table.specs.SectionAnswers.{BecomesStruct, IsSectionSize, IsFilled, HasSymbolOffsets, StepsSection, named_as};

use crate::sanitize::data_sec::entries::{members, place_entries};
pub use crate::sanitize::data_sec::layout::known_offset;
use crate::sanitize::data_sec::layout::section_size;
use crate::sanitize::data_sec::name::new_name;
use crate::sanitize::features::BtfFeatureResolver;
use crate::sanitize::made::Made;
use crate::sanitize::read_names::{LONG_NAME, ReadNames};
use crate::sanitize::request::Request;
use crate::table::{Btf, record_fits};
use btf_plain::{BtfError, SectionIndex};
use btf_records::{BtfType, DataSec, DataSecEntry, Struct};
use btf_rewrite_model::{BtfFeature, FillPolicy};
use std::collections::{BTreeMap, HashMap};
use std::hash::BuildHasher;

/// The length of an entry in bytes.
const ENTRY_LEN: usize = 12;

/// The rule of a DATASEC; None if it is unchanged. For a kernel without DATASEC it becomes a STRUCT of its entries. For
/// a kernel with DATASEC, its name becomes one that the kernel accepts. A DATASEC of size 0 gets the size of its
/// section, and each entry gets the offset of its symbol; if it has no entries, it gets the filler if its section has
/// size 0, or if the kernel does not accept a DATASEC without entries. A DATASEC that has a size retains it; if it has
/// no entries, it gets the filler only if the policy fills it and the kernel does not accept a DATASEC without entries.
///
/// Reports the first error, in this order. `InvalidStringOffset` if the name can't be read or the new name does not fit
/// in the strings. If it becomes a STRUCT: `UnknownBtfType` of an entry's id that has no type, and `InvalidTypeInfo` if
/// the entry's offset in bits has more than 32 bits. For a DATASEC of size 0: `UnknownSectionSize` if the size of its
/// section isn't known or has more than 32 bits. For a DATASEC that gets the filler: `InvalidStringOffset` or
/// `InvalidTypeInfo` if the filler does not fit in the strings or the types. For each entry of a DATASEC of size 0, in
/// order: `UnknownBtfType`, `InvalidDatasec` if the entry names no VAR, `InvalidStringOffset` if the VAR's name can't
/// be read, and `SymbolOffsetNotFound` if the offset of its symbol isn't known or has more than 32 bits.
pub fn rewrite_section<F: FnMut(BtfFeature) -> bool, G: BuildHasher, H: BuildHasher>(
    made: &mut Made,
    btf: &Btf,
    request: &Request<G, H>,
    data_sec: &DataSec,
    names: &mut ReadNames,
    resolver: &mut BtfFeatureResolver<F>,
) -> Result<Option<BtfType>, BtfError>
    requires room { HasRoom btf.now made.old.changes }
    requires read { AreRead btf.now.strings
        (layout_of request.now.sections.now request.now.symbols.now) names.old }
    requires callable { F.IsAlwaysCallable resolver.old.predicate }
    ensures callable { F.IsAlwaysCallable resolver.new.predicate }
    ensures called { CallsFurther F.step resolver.old resolver.new }
    ensures further { IsFurther resolver.old.answers resolver.new.answers }
    ensures asks { AsksInPass btf.now (given_by request.now) (BtfType.DataSec data_sec.now)
        resolver.old.answers resolver.new.answers made.old }
    ensures steps { StepsSection made.old made.new btf.now data_sec.now (given_by request.now)
        resolver.old.answers resolver.new.answers result }
    ensures read { OnOk result
        (AreRead btf.now.strings
        (layout_of request.now.sections.now request.now.symbols.now) names.new) }
{
    let granted = resolver.is_supported(BtfFeature::DataSec);
    let name_offset = new_name(btf, &mut made.changes, &mut names.kept, data_sec, granted)?;
    if !granted {
        return as_struct(btf, &made.names, data_sec, name_offset);
    }
    let size = final_size(btf, request.sections, &mut names.sizes, data_sec)?;
    if wants_filler(data_sec, size, request.policy, resolver) {
        return fill(made, btf, name_offset, size);
    }
    if data_sec.size() != 0 {
        return rename(data_sec, name_offset);
    }
    with_symbol_offsets(btf, request.symbols, names, data_sec, name_offset, size)
}

/// The STRUCT of this name that a DATASEC becomes, with a member for each entry. `names` has the string offsets of the
/// new names of all lower ids.
///
/// Fails with `UnknownBtfType` of an entry's id that has no type, and with `InvalidTypeInfo` if an offset in bits has
/// more than 32 bits.
fn as_struct(
    btf: &Btf,
    names: &[u32],
    data_sec: &DataSec,
    name_offset: u32,
) -> Result<Option<BtfType>, BtfError>
    ensures answer { BecomesStruct btf.now names.now data_sec.now name_offset result }
    ensures fallback { IfOk result (λ new. fallback_of
        (unwrap_or new (BtfType.DataSec data_sec.now)) ≡ None) }
{
    let members = members(btf, names, data_sec)?;
    let size = members.len() as u32;
    Ok(Some(BtfType::Struct(Struct::new(name_offset, members, size))))
}

/// The final size of a DATASEC: its own size, or the size of its section, by its name, if its own size is 0. `sizes`
/// caches the size of a section with a long name, so that such a name is read once.
///
/// For a DATASEC of size 0: fails with `InvalidStringOffset` if the name can't be read, and with `UnknownSectionSize`
/// of the name if the size isn't known or has more than 32 bits.
fn final_size<G: BuildHasher>(
    btf: &Btf,
    sections: &HashMap<String, (SectionIndex, u64), G>,
    sizes: &mut BTreeMap<u32, u32>,
    data_sec: &DataSec,
) -> Result<u32, BtfError>
    requires { AreFound btf.now.strings (sizes_of sections.now) sizes.old }
    ensures own { (data_sec.now.third == 0) ≡ false → result ≡ Ok data_sec.now.third }
    ensures section { IsSectionSize btf.now data_sec.now (sizes_of sections.now) result }
    ensures found { OnOk result (AreFound btf.now.strings (sizes_of sections.now) sizes.new) }
{
    if data_sec.size() != 0 {
        return Ok(data_sec.size());
    }
    let name_offset = data_sec.name_offset();
    if let Some(size) = sizes.get(&name_offset) {
        return Ok(*size);
    }
    let name = btf.string_at(name_offset)?;
    let size = section_size(btf.allocator(), sections, name.as_str())?;
    if name.as_str().len() > LONG_NAME {
        sizes.insert(name_offset, size)?;
    }
    Ok(size)
}

/// Whether a DATASEC of this final size gets the filler as its entry: it has no entries, and the final size is 0 or the
/// kernel does not accept a DATASEC without entries. A DATASEC that has a size of its own gets the filler only under a
/// policy that fills it.
fn wants_filler<F: FnMut(BtfFeature) -> bool>(
    data_sec: &DataSec,
    size: u32,
    policy: FillPolicy,
    resolver: &mut BtfFeatureResolver<F>,
) -> bool
    requires { F.IsAlwaysCallable resolver.old.predicate }
    ensures callable { F.IsAlwaysCallable resolver.new.predicate }
    ensures quiet { asks_zero policy data_sec.now size ≡ false
        → (resolver.new ≡ resolver.old) × (result ≡ is_fillable policy data_sec.now) }
    ensures asks { asks_zero policy data_sec.now size ≡ true
        → AsksResolver F.step BtfFeature.DataSecZero resolver.old (not result) resolver.new }
{
    let is_kept = match policy {
        FillPolicy::KeepSized => data_sec.size() != 0,
        FillPolicy::FillSized => false,
    };
    if is_kept || !data_sec.entries().is_empty() {
        return false;
    }
    size == 0 || !resolver.is_supported(BtfFeature::DataSecZero)
}

/// The DATASEC of this name and size whose only entry is the filler. It is 12 bytes longer than a DATASEC without
/// entries.
///
/// Fails with `InvalidStringOffset` or `InvalidTypeInfo` if the filler does not fit in the strings or the types, and
/// with `InvalidTypeInfo` if the entry does not fit in the types.
fn fill(
    made: &mut Made,
    btf: &Btf,
    name_offset: u32,
    size: u32,
) -> Result<Option<BtfType>, BtfError>
    requires { HasRoom btf.now made.old.changes }
    ensures { IsFilled made.old made.new btf.now name_offset size result }
{
    let filler = made.filler(btf)?;
    record_fits(made.changes.type_len, ENTRY_LEN)?;
    made.changes.type_len += ENTRY_LEN;
    let size = size.max(1);
    let mut entries = Vec::with_capacity(btf.allocator(), 1)?;
    entries.push(DataSecEntry {
        btf_type: filler,
        offset: 0,
        size,
    })?;
    Ok(Some(BtfType::DataSec(DataSec::new(name_offset, entries, size))))
}

/// The DATASEC with this name; None if it already has this name.
fn rename(data_sec: &DataSec, name_offset: u32) -> Result<Option<BtfType>, BtfError>
    ensures answer { IsOrNoMemory (λ new. record_of
        (unwrap_or new (BtfType.DataSec data_sec.now))) result
        (named_as data_sec.now name_offset) }
    ensures fallback { IfOk result (λ new. fallback_of
        (unwrap_or new (BtfType.DataSec data_sec.now)) ≡ None) }
{
    if name_offset == data_sec.name_offset() {
        return Ok(None);
    }
    let mut renamed = data_sec.try_clone()?;
    renamed.set_name_offset(name_offset);
    Ok(Some(BtfType::DataSec(renamed)))
}

/// The DATASEC of this name and size, with each entry at the offset of its symbol; entries of Static variables are
/// unchanged.
///
/// Reports the first error of the entries in order: `UnknownBtfType` of an id that has no type, `InvalidDatasec` if the
/// type is no VAR, `InvalidStringOffset` if its name can't be read, and `SymbolOffsetNotFound` if no symbol has the
/// name, or if the symbol's offset has more than 32 bits.
fn with_symbol_offsets<H: BuildHasher>(
    btf: &Btf,
    symbols: &HashMap<String, u64, H>,
    names: &mut ReadNames,
    data_sec: &DataSec,
    name_offset: u32,
    size: u32,
) -> Result<Option<BtfType>, BtfError>
    requires readable { IsReadableEnd btf.now.strings names.old.readable_end }
    requires found { AreFound btf.now.strings (offsets_of symbols.now) names.old.offsets }
    ensures answer { HasSymbolOffsets btf.now data_sec.now name_offset size
        (offsets_of symbols.now) result }
    ensures fallback { IfOk result (λ new. fallback_of
        (unwrap_or new (BtfType.DataSec data_sec.now)) ≡ None) }
    ensures found { OnOk result
        (AreFound btf.now.strings (offsets_of symbols.now) names.new.offsets) }
    ensures same { (names.new.readable_end ≡ names.old.readable_end)
        × (names.new.kept ≡ names.old.kept) × (names.new.sizes ≡ names.old.sizes) }
{
    let end = names.readable_end;
    let entries = place_entries(btf, symbols, end, &mut names.offsets, data_sec)?;
    Ok(Some(BtfType::DataSec(DataSec::new(name_offset, entries, size))))
}
