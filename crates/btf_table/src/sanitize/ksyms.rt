//! The first step of a rewrite: the kernel's symbols become ordinary variables.

ghost use Rattle.std.specs.Prelude.{◌≡◌, ◌<◌, ◌≤◌, ◌^◌, [], ◌∷◌, ℕ, List, length, map, Option, None, Ok, IfOk};
ghost use Rattle.std.specs.List.{position_or_len};
ghost use Rattle.btf_model.specs.Record.{Record, unknown, kind_of};
ghost use Rattle.btf_rewrite_model.specs.Made.{Entry, section_entries, record_at};
ghost use Rattle.btf_rewrite_model.specs.Checks.{first_fault};
ghost use Rattle.btf_rewrite_model.specs.Ksyms as model;
ghost use Rattle.btf_rewrite_model.specs.Ksyms.{placeholder_checks, data_sec_checks};
ghost use Rattle.btf_plain.specs.Error.{IsOrNoMemory, MeetsOrNoMemory};
ghost use Rattle.btf_records.specs.BtfType.{record_of, fallback_of};
ghost use Rattle.btf_table.specs.Checked.{checked};
ghost use Rattle.btf_table.specs.KsymsStep.{symbol_target, FindsSymbols, StepsWith, ksyms_ids, MakesKsyms, symbol_prototype_of, HasSymbolNames, IsLaidOutLike, IsLaidOutAnew, MakesType};
ghost use Rattle.btf_table.specs.Readable.{IsReadableEnd};

use crate::sanitize::func::global;
use crate::sanitize::func_proto::with_names;
use crate::table::{Btf, Changes, record_fits, text_fits};
use btf_plain::{BtfError, BtfKind, Func, Int, IntEncoding, Var, VarLinkage};
use btf_records::{BtfType, DataSec, DataSecEntry, FuncProto};
use std::alloc::{AllocError, Global};
use std::collections::BTreeSet;

/// The text that names the INT, and the length of its record in bytes.
const INT: &str = "int";

const INT_LEN: usize = 16;

/// The placeholder: a VAR that replaces functions.
#[derive(Clone, Copy)]
struct Placeholder {
    id: u32,
    /// The string offset of its name, which parameters without a name get.
    name_offset: u32,
}

/// What the symbols become.
#[derive(Drop)]
struct Target {
    /// The type of each variable.
    symbol_type: u32,
    /// Whether this type is an INT that is appended.
    appends_int: bool,
    placeholder: Option<Placeholder>,
}

/// The ids that the entries name. The sets are ordered trees, because the ids are untrusted and could be chosen to
/// collide in a hash table.
#[derive(Drop)]
struct Symbols {
    /// The functions and variables themselves.
    ids: BTreeSet<u32>,
    /// The prototypes of the functions.
    prototypes: BTreeSet<u32>,
}

impl Symbols {
    ghost use Rattle.std.specs.Prelude.{◌≡◌, ◌==◌, true, false, cond, OnOk};
    ghost use Rattle.btf_table.specs.KsymsStep.{has_id, is_this};

    /// Empty sets.
    fn new(alloc: Global) -> Symbols
        ensures ids { (q : _) → has_id result.ids q ≡ false }
        ensures prototypes { (q : _) → has_id result.prototypes q ≡ false }
    {
        Symbols {
            ids: BTreeSet::new(alloc),
            prototypes: BTreeSet::new(alloc),
        }
    }

    /// Adds an id, and its prototype if it is a function.
    fn add(&mut self, id: u32, prototype: Option<u32>) -> Result<(), AllocError>
        ensures ids { OnOk result ((q : _)
            → has_id self.new.ids q ≡ cond (id == q) true (has_id self.old.ids q)) }
        ensures prototypes { OnOk result
            ((q : _) → has_id self.new.prototypes q ≡ cond (is_this prototype q) true
            (has_id self.old.prototypes q)) }
    {
        self.ids.insert(id)?;
        if let Some(prototype) = prototype {
            self.prototypes.insert(prototype)?;
        }
        Ok(())
    }
}

/// Whether a type is an INT of 4 bytes.
fn is_int_of_4(btf_type: &BtfType) -> bool
    ensures { result ≡ model.is_int_of_4 (kind_of (record_of btf_type.now).info)
        (record_of btf_type.now) }
{
    btf_type.kind() == BtfKind::Int && btf_type.size() == Some(4)
}

/// The id of the first INT of 4 bytes, or the number of types if there is none.
pub fn int_of_4(types: &[BtfType]) -> usize
    ensures bound { result ≤ length types.now }
    ensures first { result ≡ position_or_len (λ r. model.is_int_of_4 (kind_of r.info) r)
        (map record_of types.now) }
{
    for (id, btf_type) in types.iter().enumerate() {
        if is_int_of_4(btf_type) {
            return id;
        }
    }
    types.len()
}

/// What symbols become without a placeholder.
fn find_int(btf: &Btf) -> Result<Target, BtfError>
    ensures { IsOrNoMemory (λ t. t) result
        (checked (first_fault (placeholder_checks btf.now None)) (symbol_target btf.now None)) }
{
    let types = btf.as_slice();
    let id = int_of_4(types);
    let appends_int = id == types.len();
    if appends_int {
        text_fits(btf.string_len(), INT)?;
        record_fits(btf.type_len(), INT_LEN)?;
    }
    Ok(Target {
        symbol_type: id as u32,
        appends_int,
        placeholder: None,
    })
}

/// What symbols become.
fn find_target(btf: &Btf, placeholder_id: Option<u32>) -> Result<Target, BtfError>
    ensures { IsOrNoMemory (λ t. t) result
        (checked (first_fault (placeholder_checks btf.now placeholder_id))
        (symbol_target btf.now placeholder_id)) }
{
    let Some(id) = placeholder_id else {
        return find_int(btf);
    };
    let btf_type = btf.type_by_id(id)?;
    let BtfType::Var(var) = btf_type else {
        return Err(BtfError::InvalidDatasec);
    };
    Ok(Target {
        symbol_type: var.btf_type(),
        appends_int: false,
        placeholder: Some(Placeholder {
            id,
            name_offset: var.name_offset(),
        }),
    })
}

/// The DATASEC of an id, whose name can be read. Names can be read at the offsets below `readable_end`.
fn named_data_sec(btf: &Btf, id: u32, readable_end: usize) -> Result<&DataSec, BtfError>
    requires { IsReadableEnd btf.now.strings readable_end }
    ensures { IsOrNoMemory (λ s. s.now) result
        (checked (first_fault (data_sec_checks btf.now id)) (record_at btf.now id)) }
{
    let btf_type = btf.type_by_id(id)?;
    let BtfType::DataSec(data_sec) = btf_type else {
        return Err(BtfError::InvalidDatasec);
    };
    btf.check_name(data_sec.name_offset(), readable_end)?;
    Ok(data_sec)
}

/// The prototype of an id that is a FUNC, or None if it is a VAR. Fails if it is neither, or if its name can't be read.
fn symbol_prototype(
    btf: &Btf,
    id: u32,
    placeholder_id: Option<u32>,
    readable_end: usize,
) -> Result<Option<u32>, BtfError>
    requires { IsReadableEnd btf.now.strings readable_end }
    ensures { (e : Entry) → e.type ≡ id
        → IsOrNoMemory (λ p. p) result (symbol_prototype_of e btf.now id placeholder_id) }
{
    let symbol = btf.type_by_id(id)?;
    match symbol {
        BtfType::Func(func) => {
            btf.check_name(func.name_offset(), readable_end)?;
            if placeholder_id.is_some() {
                btf.type_by_id(func.btf_type())?;
            }
            Ok(Some(func.btf_type()))
        }
        BtfType::Var(var) => {
            btf.check_name(var.name_offset(), readable_end)?;
            Ok(None)
        }
        _ => Err(BtfError::InvalidDatasec),
    }
}

/// The ids that the entries of a DATASEC name.
fn find_symbols(
    btf: &Btf,
    data_sec: &DataSec,
    placeholder_id: Option<u32>,
    readable_end: usize,
) -> Result<Symbols, BtfError>
    requires { IsReadableEnd btf.now.strings readable_end }
    ensures { MeetsOrNoMemory (λ s. s) result
        (FindsSymbols btf.now placeholder_id (section_entries data_sec.now.tail)) }
{
    let mut symbols = Symbols::new(btf.allocator());
    for entry in data_sec.entries() {
        let prototype = symbol_prototype(btf, entry.btf_type, placeholder_id, readable_end)?;
        symbols.add(entry.btf_type, prototype)?;
    }
    Ok(symbols)
}

/// The variable with Global linkage and this type.
pub fn global_of(var: &Var, btf_type: u32) -> Var
    ensures words { result ≡ record var.now { third = btf_type; tail = 1 ∷ [] } }
    ensures same_length { length result.tail ≡ length var.now.tail }
{
    Var::new(var.name_offset(), btf_type, VarLinkage::Global).with_info(var.info())
}

impl Target {
    ghost use Rattle.std.specs.Prelude.{IfSome};
    ghost use Rattle.btf_rewrite_model.specs.Ksyms.{entry_type};
    ghost use Rattle.btf_table.specs.KsymsStep.{IsLike};

    /// The new type of an entry that has this type: the placeholder, if there is one, replaces a FUNC.
    fn entry_type(&self, btf: &Btf, type_id: u32) -> u32
        ensures { (placeholder : Option ℕ) → self.now ≡ symbol_target btf.now placeholder
            → result ≡ entry_type btf.now placeholder type_id }
    {
        let Some(placeholder) = self.placeholder else {
            return type_id;
        };
        let Ok(btf_type) = btf.type_by_id(type_id) else {
            return type_id;
        };
        match btf_type {
            BtfType::Func(_) => placeholder.id,
            _ => type_id,
        }
    }

    /// What the prototype of a function among the symbols becomes; None if it is unchanged.
    fn new_proto(&self, proto: &FuncProto) -> Result<Option<BtfType>, BtfError>
        ensures words { HasSymbolNames self.now proto.now result }
        ensures like { IfOk result (λ new. IfSome new (IsLike (BtfType.FuncProto proto.now))) }
    {
        let Some(placeholder) = self.placeholder else {
            return Ok(None);
        };
        let proto = with_names(proto, placeholder.name_offset)?;
        Ok(Some(BtfType::FuncProto(proto)))
    }

    /// The DATASEC, with 4 bytes for each entry, one after the other.
    fn lay_out(&self, btf: &Btf, data_sec: &DataSec) -> Result<DataSec, BtfError>
        ensures like { IsLaidOutLike self.now btf.now data_sec.now result }
        ensures words { IsLaidOutAnew self.now btf.now data_sec.now result }
    {
        let mut laid_out = data_sec.try_clone()?;
        for (index, entry) in data_sec.entries().iter().enumerate() {
            let entry = DataSecEntry {
                btf_type: self.entry_type(btf, entry.btf_type),
                offset: 4 * index as u32,
                size: 4,
            };
            laid_out.set_entry(index, entry);
        }
        laid_out.set_size(4 * data_sec.entries().len() as u32);
        Ok(laid_out)
    }
}

/// The step of `.ksyms`: what it changes each type to.
#[derive(Drop)]
struct Step {
    target: Target,
    symbols: Symbols,
    datasec_id: u32,
}

impl Step {
    ghost use Rattle.std.specs.Prelude.{IfSome, Some, slice_get};
    ghost use Rattle.btf_rewrite_model.specs.declared.ksyms_ids.KsymsIds.{KsymsIds};
    ghost use Rattle.btf_table.specs.KsymsStep.{IsStep, IsLike, StepsAll};

    /// The step over a table, or why it is refused.
    fn new(btf: &Btf, datasec_id: u32, placeholder_id: Option<u32>) -> Result<Step, BtfError>
        ensures { MeetsOrNoMemory (λ s. s) result
            (StepsWith btf.now (ksyms_ids datasec_id placeholder_id)) }
    {
        let target = find_target(btf, placeholder_id)?;
        let readable_end = btf.readable_end();
        let data_sec = named_data_sec(btf, datasec_id, readable_end)?;
        let symbols = find_symbols(btf, data_sec, placeholder_id, readable_end)?;
        Ok(Step {
            target,
            symbols,
            datasec_id,
        })
    }

    /// The type that the type of an id becomes; None if it is unchanged.
    fn new_type(&self, btf: &Btf, id: u32, btf_type: &BtfType) -> Result<Option<BtfType>, BtfError>
        requires { slice_get btf.now.records id ≡ Some (record_of btf_type.now) }
        ensures words { MakesType self.now btf.now id btf_type.now result }
        ensures like { (ids : KsymsIds) → IsStep btf.now ids self.now
            → IfOk result (λ new. IfSome new (IsLike btf_type.now)) }
    {
        // The contract is about the kind in the info word, which this use of it shows.
        let _ = btf_type.info();
        match btf_type {
            BtfType::Func(func) if self.symbols.ids.contains(&id) => {
                Ok(Some(BtfType::Func(global(func)?)))
            }
            BtfType::Var(var) if self.symbols.ids.contains(&id) => {
                Ok(Some(BtfType::Var(global_of(var, self.target.symbol_type))))
            }
            BtfType::FuncProto(proto) if self.symbols.prototypes.contains(&id) => {
                self.target.new_proto(proto)
            }
            BtfType::DataSec(data_sec) if id == self.datasec_id => {
                Ok(Some(BtfType::DataSec(self.target.lay_out(btf, data_sec)?)))
            }
            _ => Ok(None),
        }
    }

    /// The types that change, by their ids.
    fn new_types(&self, btf: &Btf, types: &[BtfType]) -> Result<Vec<(u32, BtfType)>, BtfError>
        requires records { map record_of types.now ≡ btf.now.records }
        requires fallbacks { map fallback_of types.now ≡ btf.now.fallbacks }
        requires first { (rs : List Record) × (btf.now.records ≡ unknown ∷ rs) }
        requires ids { length types.now < 2 ^ 32 }
        ensures { (ids : KsymsIds) → IsStep btf.now ids self.now
            → MeetsOrNoMemory (λ v. v.items) result (StepsAll btf.now ids) }
    {
        let mut new_types = Vec::new(btf.allocator());
        for id in 1..types.len() {
            if let Some(new_type) = self.new_type(btf, id as u32, &types[id])? {
                new_types.push((id as u32, new_type))?;
            }
        }
        Ok(new_types)
    }
}

/// What the step changes in a table, or why it is refused.
pub fn ksyms_changes(
    btf: &Btf,
    datasec_id: u32,
    placeholder_id: Option<u32>,
) -> Result<Changes, BtfError>
    ensures { MeetsOrNoMemory (λ c. c) result
        (MakesKsyms btf.now (ksyms_ids datasec_id placeholder_id)) }
{
    let step = Step::new(btf, datasec_id, placeholder_id)?;
    let alloc = btf.allocator();
    let name_offset = btf.string_len();
    let mut changes = Changes {
        types: step.new_types(btf, btf.as_slice())?,
        new_strings: Vec::new(alloc),
        new_types: Vec::new(alloc),
        type_len: btf.type_len(),
    };
    if step.target.appends_int {
        changes.push_text(INT)?;
        let int = Int::new(name_offset as u32, 4, IntEncoding::Signed, 0);
        changes.push_type(BtfType::Int(int))?;
    }
    Ok(changes)
}
