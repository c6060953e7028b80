//! What an object has for the names of a table.

ghost use Rattle.std.specs.Prelude.{◌≡◌, IfOk, IfErr, OnOk};
ghost use Rattle.btf_model.specs.Text.{text_at};
ghost use Rattle.btf_rewrite_model.specs.Checks.{in_a_word};
ghost use Rattle.btf_rewrite_model.specs.Pass.{Layout};
ghost use Rattle.btf_table.specs.Layout.{sizes_of, offsets_of};
ghost use Rattle.btf_object_model.specs.Finalized.{is_of_externs, if_positive, known_section_size};
ghost use Rattle.btf_object.specs.Finalize.{symbol_of, AreNamesCached, layout_in, ReadsSize, ReadsSymbol};

use crate::layout::ObjectLayout;
use btf_plain::{BtfError, SectionIndex};
use btf_table::{Btf, known_offset};
use std::alloc::Global;
use std::collections::{BTreeMap, HashMap};
use std::hash::BuildHasher;

/// The length in bytes above which a name is cached. Reading a shorter name again is faster.
const LONG_NAME: usize = 64;

/// What the object has for the long names that were read, by their string offsets. Each is read once, however many
/// records share it.
#[derive(Drop)]
pub struct KnownNames {
    /// The sizes of the sections of these names, if they are known.
    pub sizes: BTreeMap<u32, Option<u32>>,
    /// The offsets of the symbols of these names, if they are known. There is no name at an offset with None.
    pub symbols: BTreeMap<u32, Option<Option<u32>>>,
}

/// Whether a DATASEC of this name has externs as its variables.
fn is_of_externs(name: &str) -> bool
    ensures { result ≡ is_of_externs name.now }
{
    name == ".ksyms" || name == ".kconfig"
}

/// The size of the section of a name, if it is known and not 0, and has at most 32 bits.
fn known_size<G: BuildHasher>(
    sections: &HashMap<String, (SectionIndex, u64), G>,
    name: &str,
) -> Option<u32>
    ensures { result ≡ if_positive (in_a_word (sizes_of sections.now name.now)) }
{
    let (_, size) = sections.get(name)?;
    match u32::try_from(*size) {
        Ok(0) | Err(_) => None,
        Ok(size) => Some(size),
    }
}

/// The size of the section of the name at an offset, if it is known, and whether the name is to be cached.
/// `OutOfMemory` is the only error.
fn read_size<G: BuildHasher>(
    btf: &Btf,
    sections: &HashMap<String, (SectionIndex, u64), G>,
    name_offset: u32,
) -> Result<(Option<u32>, bool), BtfError>
    ensures made { ReadsSize (sizes_of sections.now) (text_at btf.now.strings name_offset) result }
    ensures memory { IfErr result (λ e. e ≡ BtfError.OutOfMemory) }
{
    let name = match btf.string_at(name_offset) {
        Ok(name) => name,
        Err(BtfError::OutOfMemory) => return Err(BtfError::OutOfMemory),
        Err(_) => return Ok((None, true)),
    };
    let is_long = name.as_str().len() > LONG_NAME;
    if is_of_externs(name.as_str()) {
        return Ok((None, is_long));
    }
    Ok((known_size(sections, name.as_str()), is_long))
}

/// The offset of the symbol of the name at an offset, if there is a name, and if the symbol is known; and whether the
/// name is to be cached. `OutOfMemory` is the only error.
fn read_symbol<H: BuildHasher>(
    btf: &Btf,
    symbols: &HashMap<String, u64, H>,
    name_offset: u32,
) -> Result<(Option<Option<u32>>, bool), BtfError>
    ensures made { ReadsSymbol (offsets_of symbols.now) (text_at btf.now.strings name_offset)
        result }
    ensures memory { IfErr result (λ e. e ≡ BtfError.OutOfMemory) }
{
    match btf.string_at(name_offset) {
        Ok(name) => {
            let symbol = known_offset(symbols, name.as_str());
            Ok((Some(symbol), name.as_str().len() > LONG_NAME))
        }
        Err(BtfError::OutOfMemory) => Err(BtfError::OutOfMemory),
        Err(_) => Ok((None, true)),
    }
}

impl KnownNames {
    ghost use Rattle.std.specs.Prelude.{List, ℕ};

    /// An empty cache. Allocates no memory.
    pub fn new(alloc: Global) -> KnownNames
        ensures { (strings : List ℕ) (layout : Layout) → AreNamesCached strings layout result }
    {
        KnownNames {
            sizes: BTreeMap::new(alloc),
            symbols: BTreeMap::new(alloc),
        }
    }

    /// The size of the section of the name at an offset, if it is known. `OutOfMemory` is the only error.
    pub fn size<H: BuildHasher>(
        &mut self,
        btf: &Btf,
        layout: &ObjectLayout<H>,
        name_offset: u32,
    ) -> Result<Option<u32>, BtfError>
        requires { AreNamesCached btf.now.strings (layout_in layout.now) self.old }
        ensures made { IfOk result (λ size. size ≡ known_section_size (layout_in layout.now)
            (text_at btf.now.strings name_offset)) }
        ensures read { OnOk result (AreNamesCached btf.now.strings
            (layout_in layout.now) self.new) }
        ensures memory { IfErr result (λ e. e ≡ BtfError.OutOfMemory) }
    {
        if let Some(size) = self.sizes.get(&name_offset) {
            return Ok(*size);
        }
        let (size, is_cached) = read_size(btf, &layout.sections, name_offset)?;
        if is_cached {
            self.sizes.insert(name_offset, size)?;
        }
        Ok(size)
    }

    /// The offset of the symbol of the name at an offset, if there is a name, and if the symbol is known. `OutOfMemory`
    /// is the only error.
    pub fn symbol<H: BuildHasher>(
        &mut self,
        btf: &Btf,
        layout: &ObjectLayout<H>,
        name_offset: u32,
    ) -> Result<Option<Option<u32>>, BtfError>
        requires { AreNamesCached btf.now.strings (layout_in layout.now) self.old }
        ensures made { IfOk result (λ symbol. symbol ≡ symbol_of (layout_in layout.now)
            (text_at btf.now.strings name_offset)) }
        ensures read { OnOk result (AreNamesCached btf.now.strings
            (layout_in layout.now) self.new) }
        ensures memory { IfErr result (λ e. e ≡ BtfError.OutOfMemory) }
    {
        if let Some(symbol) = self.symbols.get(&name_offset) {
            return Ok(*symbol);
        }
        let (symbol, is_cached) = read_symbol(btf, &layout.symbols, name_offset)?;
        if is_cached {
            self.symbols.insert(name_offset, symbol)?;
        }
        Ok(symbol)
    }
}
