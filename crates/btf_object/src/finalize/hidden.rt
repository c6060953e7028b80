//! Hidden functions and variables, which become Static.

ghost use Rattle.std.specs.Prelude.{◌≡◌, ◌<◌, List, ℕ, length, Some, IfOk, IfErr, IfSome, IfNone, OnOk};
ghost use Rattle.std.specs.HashMap.{get_by_text};
ghost use Rattle.btf_records.specs.BtfType.{record_of, type_kind};
ghost use Rattle.btf_object_model.specs.Hidden as model;
ghost use Rattle.btf_object_model.specs.Hidden.{global_type, hidden_type, hidden_type_in, type_of_name, with_hidden_static};
ghost use Rattle.btf_object_model.specs.Kconfig.{extern_name};
ghost use Rattle.btf_object.specs.Hidden.{is_hidden_type, IsHiddenSymbol, IsHiddenLeftOut, IsMadeStatic, IsNeither, HidesAt};

use crate::layout::{STB_LOCAL, STT_OBJECT};
use crate::names::{NAME_LIMIT, symbol_text};
use btf_elf::{Object, Symbol};
use btf_plain::{BtfError, Func, FuncLinkage, Var, VarLinkage};
use btf_records::BtfType;
use btf_table::{Btf, set_type, short_name, type_count};
use std::alloc::{AllocError, Global};
use std::collections::HashMap;
use std::hash::BuildHasher;
use std::str;

/// `STT_FUNC`: the type of a symbol of a function.
const STT_FUNC: u8 = 2;

/// `STV_INTERNAL`: a visibility that processors may define more closely. For BPF it is the same as `STV_HIDDEN`.
const STV_INTERNAL: u8 = 1;

/// `STV_HIDDEN`: the visibility of a symbol that only the objects see with which it is linked.
const STV_HIDDEN: u8 = 2;

/// Whether the visibility of a symbol is `STV_INTERNAL` or `STV_HIDDEN`.
fn is_restricted(symbol: &Symbol) -> bool
    ensures { result ≡ model.is_restricted symbol.now }
{
    let visibility = symbol.other % 4;
    visibility == STV_INTERNAL || visibility == STV_HIDDEN
}

/// Whether a symbol belongs to the section of this index.
fn is_within(symbol: &Symbol, section: Option<usize>) -> bool
    ensures { result ≡ model.is_within section symbol.now }
{
    match section {
        Some(index) => symbol.section as usize == index,
        None => false,
    }
}

/// Whether a symbol is a hidden variable, or a hidden function in `.text`, which has this index.
fn is_hidden(symbol: &Symbol, text: Option<usize>) -> bool
    ensures { result ≡ model.is_hidden_symbol text symbol.now }
{
    if symbol.binding == STB_LOCAL || !is_restricted(symbol) {
        return false;
    }
    symbol.kind == STT_OBJECT || symbol.kind == STT_FUNC && is_within(symbol, text)
}

/// The name and the type of the symbol of an index, if it is hidden.
fn hidden_symbol<'a>(
    object: &Object<'a>,
    text: Option<usize>,
    index: usize,
) -> Option<(&'a str, u8)>
    ensures some { IfSome result
        (λ named. IsHiddenSymbol text object.now index named.0.now named.1) }
    ensures none { IfNone result (IsHiddenLeftOut text object.now index) }
{
    let symbol = object.symbol(index)?;
    if !is_hidden(&symbol, text) {
        return None;
    }
    let name = symbol_text(object, &symbol)?;
    Some((name, symbol.kind))
}

/// The type of the last hidden symbol of each name, in a map with this hasher. `.text` has this index.
fn read_hidden<H: BuildHasher + Drop>(
    alloc: Global,
    object: &Object<'_>,
    text: Option<usize>,
    hash_builder: H,
) -> Result<HashMap<String, u8, H>, AllocError>
    ensures { IfOk result (λ map. (name : List ℕ)
        → get_by_text map name ≡ hidden_type_in object.now text name) }
{
    let mut map = HashMap::with_hasher(alloc, hash_builder);
    for index in 0..object.symbol_count() {
        if let Some((name, kind)) = hidden_symbol(object, text, index) {
            map.insert(name.to_string(alloc)?, kind)?;
        }
    }
    Ok(map)
}

/// The type of the hidden symbol of the name at an offset, if there is one.
fn symbol_type<H: BuildHasher>(
    btf: &Btf,
    hidden: &HashMap<String, u8, H>,
    name_offset: u32,
) -> Option<u8>
    ensures { result ≡ type_of_name (get_by_text hidden.now)
        (extern_name btf.now.strings name_offset) }
{
    let name = short_name(btf, name_offset, NAME_LIMIT)?;
    match str::from_utf8(name) {
        Ok(text) => hidden.get(text).copied(),
        Err(_) => None,
    }
}

/// The type of the symbol of a FUNC or a VAR that has Global linkage; None for another type.
fn global_type(btf_type: &BtfType) -> Option<u8>
    ensures { result ≡ global_type (Some (type_kind btf_type.now)) (record_of btf_type.now) }
{
    match btf_type {
        BtfType::Func(func) if matches!(func.linkage(), FuncLinkage::Global) => Some(STT_FUNC),
        BtfType::Var(var) if matches!(var.linkage(), VarLinkage::Global) => Some(STT_OBJECT),
        _ => None,
    }
}

/// Whether a type is a FUNC or a VAR with Global linkage whose symbol is hidden.
fn is_hidden_type<H: BuildHasher>(
    btf: &Btf,
    hidden: &HashMap<String, u8, H>,
    btf_type: &BtfType,
) -> bool
    ensures { result ≡ is_hidden_type (get_by_text hidden.now) btf.now.strings btf_type.now }
{
    let Some(kind) = global_type(btf_type) else {
        return false;
    };
    match symbol_type(btf, hidden, btf_type.name_offset()) {
        Some(found) => kind == found,
        None => false,
    }
}

/// A FUNC or a VAR with Static linkage; None for another type.
fn made_static(btf_type: &BtfType) -> Option<BtfType>
    ensures some { IfSome result (IsMadeStatic btf_type.now) }
    ensures none { IfNone result (IsNeither (type_kind btf_type.now)) }
{
    match btf_type {
        BtfType::Func(func) => {
            let made = Func::new(func.name_offset(), func.btf_type(), FuncLinkage::Static);
            Some(BtfType::Func(made))
        }
        BtfType::Var(var) => {
            let made = Var::new(var.name_offset(), var.btf_type(), VarLinkage::Static);
            Some(BtfType::Var(made.with_info(var.info())))
        }
        _ => None,
    }
}

/// Makes the type of an id Static if it is hidden.
fn hide<H: BuildHasher>(btf: &mut Btf, hidden: &HashMap<String, u8, H>, type_id: u32)
    requires { type_id < length btf.old.records }
    ensures { HidesAt (get_by_text hidden.now) type_id btf.old btf.new }
{
    let Ok(found) = btf.type_by_id(type_id) else {
        return;
    };
    if !is_hidden_type(btf, hidden, found) {
        return;
    }
    let Some(made) = made_static(found) else {
        return;
    };
    set_type(btf, type_id, made);
}

/// Makes Static what is hidden in an object: each FUNC and VAR that has Global linkage, and whose symbol has the
/// visibility `STV_HIDDEN` or `STV_INTERNAL` and is not local. FUNCs outside `.text` stay, because they are programs.
/// `OutOfMemory` is the only error.
pub fn hide_all<H: BuildHasher + Drop>(
    alloc: Global,
    btf: &mut Btf,
    object: &Object<'_>,
    hash_builder: H,
) -> Result<(), BtfError>
    ensures made { OnOk result (btf.new ≡ with_hidden_static (hidden_type object.now) btf.old) }
    ensures memory { IfErr result (λ e. e ≡ BtfError.OutOfMemory) }
{
    let text = object.section_by_name(b".text");
    let hidden = read_hidden(alloc, object, text, hash_builder)?;
    for type_id in 0..type_count(btf) {
        hide(btf, &hidden, type_id);
    }
    Ok(())
}
