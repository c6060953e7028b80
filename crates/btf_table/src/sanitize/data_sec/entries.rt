//! What becomes of a DATASEC's entries.

ghost use Rattle.std.specs.Prelude.{◌≡◌, length, map, IfOk, OnOk};
ghost use Rattle.std.specs.List.{flat_map};
ghost use Rattle.btf_model.specs.Record.{vlen};
ghost use Rattle.btf_rewrite_model.specs.Made.{section_entries};
ghost use Rattle.btf_rewrite_model.specs.Pass.{Pass};
ghost use Rattle.btf_rewrite_model.specs.Rule.{placed};
ghost use Rattle.btf_plain.specs.Error.{IsOrNoMemory};
ghost use Rattle.btf_plain.specs.Items.{member_words};
ghost use Rattle.btf_table.specs.KsymsStep.{model_entry as entry_of};
ghost use Rattle.btf_table.specs.Layout.{offsets_of};
ghost use Rattle.btf_table.specs.ReadNames.{AreFound};
ghost use Rattle.btf_table.specs.Readable.{IsReadableEnd};
ghost use Rattle.btf_table.specs.SectionAnswers.{symbol_offset_at, entry_placed, IsMember, AreMembers, AreEntriesPlaced};

use crate::sanitize::data_sec::layout::known_offset;
use crate::sanitize::read_names::LONG_NAME;
use crate::table::Btf;
use btf_plain::{BtfError, VarLinkage};
use btf_records::{BtfMember, BtfType, DataSec, DataSecEntry};
use std::collections::{BTreeMap, HashMap};
use std::hash::BuildHasher;

/// The member that an entry becomes: it has the entry's type, and its offset in bits. `names` has the string offsets of
/// the new names of all lower ids; the name of another id is read in the table.
///
/// Fails with `UnknownBtfType` of an id that has no type, and with `InvalidTypeInfo` if the offset in bits has more
/// than 32 bits.
fn member(btf: &Btf, names: &[u32], entry: &DataSecEntry) -> Result<BtfMember, BtfError>
    ensures { IsMember btf.now names.now entry.now result }
{
    let btf_type = btf.type_by_id(entry.btf_type)?;
    let Some(offset) = entry.offset.checked_mul(8) else {
        return Err(BtfError::InvalidTypeInfo);
    };
    let name_offset = match names.get(entry.btf_type as usize) {
        Some(name_offset) => *name_offset,
        None => btf_type.name_offset(),
    };
    Ok(BtfMember {
        name_offset,
        btf_type: entry.btf_type,
        offset,
    })
}

/// The members of the STRUCT that a DATASEC becomes: one for each entry, with the entry's type, this type's name, and
/// the entry's offset in bits. `names` has the string offsets of the new names of all lower ids.
///
/// Fails with `UnknownBtfType` of an entry's id that has no type, and with `InvalidTypeInfo` if an offset in bits has
/// more than 32 bits.
pub fn members(btf: &Btf, names: &[u32], data_sec: &DataSec) -> Result<Vec<BtfMember>, BtfError>
    ensures answer { AreMembers btf.now names.now data_sec.now
        (λ v. flat_map member_words v.items) result }
    ensures count { IfOk result (λ v. length v.items ≡ vlen data_sec.now.info) }
{
    let mut members = Vec::new(btf.allocator());
    for entry in data_sec.entries() {
        members.push(member(btf, names, entry)?)?;
    }
    Ok(members)
}

/// The offset of the symbol whose name is at a string offset. `offsets` caches the result for a long name, so that such
/// a name is read once.
///
/// Fails with `InvalidStringOffset` if the name can't be read, and with `SymbolOffsetNotFound` if no symbol has the
/// name, or if the symbol's offset has more than 32 bits.
fn symbol_offset<H: BuildHasher>(
    btf: &Btf,
    symbols: &HashMap<String, u64, H>,
    offsets: &mut BTreeMap<u32, u32>,
    name_offset: u32,
) -> Result<u32, BtfError>
    requires { AreFound btf.now.strings (offsets_of symbols.now) offsets.old }
    ensures answer { (p : Pass) → p.layout.symbols ≡ offsets_of symbols.now
        → IsOrNoMemory (λ n. n) result (symbol_offset_at p btf.now name_offset) }
    ensures found { OnOk result (AreFound btf.now.strings (offsets_of symbols.now) offsets.new) }
{
    if let Some(offset) = offsets.get(&name_offset) {
        return Ok(*offset);
    }
    let name = btf.string_at(name_offset)?;
    let Some(offset) = known_offset(symbols, name.as_str()) else {
        return Err(BtfError::SymbolOffsetNotFound {
            symbol_name: name.as_str().to_string(btf.allocator())?,
        });
    };
    if name.as_str().len() > LONG_NAME {
        offsets.insert(name_offset, offset)?;
    }
    Ok(offset)
}

/// The entry of a variable, at the offset of its symbol. The entry of a Static variable is unchanged, and the
/// variable's name is not read.
///
/// Fails with `UnknownBtfType` of an id that has no type, with `InvalidDatasec` if the type is no VAR, with
/// `InvalidStringOffset` if its name can't be read, and with `SymbolOffsetNotFound` if no symbol has the name, or if
/// the symbol's offset has more than 32 bits.
fn place_entry<H: BuildHasher>(
    btf: &Btf,
    symbols: &HashMap<String, u64, H>,
    readable_end: usize,
    offsets: &mut BTreeMap<u32, u32>,
    entry: &DataSecEntry,
) -> Result<DataSecEntry, BtfError>
    requires readable { IsReadableEnd btf.now.strings readable_end }
    requires found { AreFound btf.now.strings (offsets_of symbols.now) offsets.old }
    ensures made { (p : Pass) → p.table ≡ btf.now
        → p.layout.symbols ≡ offsets_of symbols.now
        → IsOrNoMemory entry_of result (entry_placed p entry.now) }
    ensures found { OnOk result (AreFound btf.now.strings (offsets_of symbols.now) offsets.new) }
{
    let btf_type = btf.type_by_id(entry.btf_type)?;
    let BtfType::Var(var) = btf_type else {
        return Err(BtfError::InvalidDatasec);
    };
    let name_offset = var.name_offset();
    if matches!(var.linkage(), VarLinkage::Static) {
        btf.check_name(name_offset, readable_end)?;
        return Ok(entry.clone()?);
    }
    let offset = symbol_offset(btf, symbols, offsets, name_offset)?;
    Ok(DataSecEntry {
        btf_type: entry.btf_type,
        offset,
        size: entry.size,
    })
}

/// The entries of a DATASEC, each at the offset of its symbol; entries of Static variables are unchanged.
///
/// Reports the first error of the entries in order: `UnknownBtfType` of an id that has no type, `InvalidDatasec` if the
/// type is no VAR, `InvalidStringOffset` if its name can't be read, and `SymbolOffsetNotFound` if no symbol has the
/// name, or if the symbol's offset has more than 32 bits.
pub fn place_entries<H: BuildHasher>(
    btf: &Btf,
    symbols: &HashMap<String, u64, H>,
    readable_end: usize,
    offsets: &mut BTreeMap<u32, u32>,
    data_sec: &DataSec,
) -> Result<Vec<DataSecEntry>, BtfError>
    requires readable { IsReadableEnd btf.now.strings readable_end }
    requires found { AreFound btf.now.strings (offsets_of symbols.now) offsets.old }
    ensures answer { AreEntriesPlaced btf.now data_sec.now (offsets_of symbols.now)
        (λ v. map entry_of v.items) result }
    ensures count { IfOk result (λ v. length v.items ≡ vlen data_sec.now.info) }
    ensures found { OnOk result (AreFound btf.now.strings (offsets_of symbols.now) offsets.new) }
{
    let mut placed_entries = Vec::new(btf.allocator());
    for entry in data_sec.entries() {
        let placed = place_entry(btf, symbols, readable_end, offsets, entry)?;
        placed_entries.push(placed)?;
    }
    Ok(placed_entries)
}
