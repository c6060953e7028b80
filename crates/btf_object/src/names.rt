//! The names of sections and symbols that a rewrite may ask for. At most as many bytes of a name are read as it may
//! have.

ghost use Rattle.std.specs.Prelude.{◌≡◌, true, false, IfSome, IfNone};
ghost use Rattle.btf_elf_model.specs.Object as elf;
ghost use Rattle.btf_object_model.specs.Layout as model;
ghost use Rattle.btf_object.specs.Names.{IsAskable};

use btf_elf::{Object, SectionHeader, Symbol};
use std::str;

/// No kernel accepts a name with this number of bytes or more (`KSYM_NAME_LEN`).
pub const NAME_LIMIT: usize = 512;

/// The text of the name of a section, if a rewrite may ask for it.
#[tactic(auto, using(crate::proofs::Short::askable_is, crate::proofs::Short::not_utf8, crate::proofs::Short::too_long))]
pub fn section_text<'a>(object: &Object<'a>, section: &SectionHeader) -> Option<&'a str>
    ensures some { IfSome result
        (λ text. IsAskable (elf.section_name object.now section.now) text.now) }
    ensures none { IfNone result
        (model.is_askable (elf.section_name object.now section.now) ≡ false) }
{
    let name = object.short_section_name(section, NAME_LIMIT)?;
    match str::from_utf8(name) {
        Ok(text) => Some(text),
        Err(_) => None,
    }
}

/// The text of the name of a symbol, if a rewrite may ask for it.
#[tactic(auto, using(crate::proofs::Short::askable_is, crate::proofs::Short::not_utf8, crate::proofs::Short::too_long))]
pub fn symbol_text<'a>(object: &Object<'a>, symbol: &Symbol) -> Option<&'a str>
    ensures some { IfSome result
        (λ text. IsAskable (elf.symbol_name object.now symbol.now) text.now) }
    ensures none { IfNone result
        (model.is_askable (elf.symbol_name object.now symbol.now) ≡ false) }
{
    let name = object.short_symbol_name(symbol, NAME_LIMIT)?;
    match str::from_utf8(name) {
        Ok(text) => Some(text),
        Err(_) => None,
    }
}
