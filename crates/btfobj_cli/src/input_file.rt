//! Files with a table: objects, and tables alone.

ghost use Rattle.std.specs.Prelude.{MatchResult};
ghost use Rattle.btfobj_cli.specs.InputFile.{IsFirstSection};
ghost use Rattle.btfobj_cli.specs.Fault.{LacksSection};

use crate::fault::Fault;
use crate::split::{check_base, is_split};
use btf_elf::Object;
use btf_model::Endianness;
use btf_split::parse_split;
use btf_table::Btf;
use std::alloc::Global;

/// The name of the section with the table of an object.
pub const TABLE_SECTION: &str = ".BTF";

/// The name of the section that maps functions, lines and relocations to instructions.
const EXT_SECTION: &str = ".BTF.ext";

/// The name of the section with the part of the base that a module refers to (Linux 6.11). The ids and names of `.BTF`
/// then go on after those of this part, and not after those of the kernel.
const DISTILLED_SECTION: &str = ".BTF.base";

/// A file with a table.
#[derive(Drop)]
pub enum InputFile<'a> {
    /// An ELF object.
    Object(Object<'a>),
    /// The bytes of a table alone, in this order.
    Table(&'a [u8], Endianness),
}

impl<'a> InputFile<'a> {
    ghost use Rattle.std.specs.Prelude.{◌≡◌, true, Err, IfOk, IfErr, IsOkAnd, MatchResult};
    ghost use Rattle.std.specs.Option.{option_map};
    ghost use Rattle.btf_model.specs.declared.endianness.Endianness.TheVariants.{Little, Big};
    ghost use Rattle.btfobj_cli.specs.InputFile.{BeginsObject, BeginsTable, HasExt, HasMagic, HasFileTable, HasTableOver, HasTableBytes, IsFile, IsTableAlone, is_object, file_order};
    ghost use Rattle.btfobj_cli.specs.Fault.{ReportsObject, ReportsTable, ReportsExt};
    ghost use Rattle.btfobj_cli.specs.declared.fault.Fault.TheVariants as faults;

    /// The file of these bytes: an object if they begin with ELF's magic number, and a table if they begin with BTF's
    /// magic number (`BTF_MAGIC`, 0xeb9f) in either byte order.
    ///
    /// The error is `UnknownFormat` if they begin otherwise, `Object` with the error of `Object::parse`, or
    /// `OutOfMemory`.
    pub fn read(alloc: Global, bytes: &'a [u8]) -> Result<InputFile<'a>, Fault>
        ensures read { IfOk result (IsFile bytes.now) }
        ensures object { IfOk result (λ input. BeginsObject bytes.now → is_object input ≡ true) }
        ensures little { BeginsTable Little bytes.now
            → IsOkAnd result (IsTableAlone Little bytes.now) }
        ensures big { BeginsTable Big bytes.now → IsOkAnd result (IsTableAlone Big bytes.now) }
        ensures malformed { HasMagic bytes.now → IfErr result (ReportsObject bytes.now) }
        ensures unknown { ¬ (HasMagic bytes.now) → ¬ (BeginsTable Little bytes.now)
            → ¬ (BeginsTable Big bytes.now) → result ≡ Err faults.UnknownFormat }
    {
        match bytes {
            [0x7f, b'E', b'L', b'F', ..] => Ok(InputFile::Object(Object::parse(alloc, bytes)?)),
            [0x9f, 0xeb, ..] => Ok(InputFile::Table(bytes, Endianness::Little)),
            [0xeb, 0x9f, ..] => Ok(InputFile::Table(bytes, Endianness::Big)),
            _ => Err(Fault::UnknownFormat),
        }
    }

    /// The byte order of the words.
    pub fn endianness(&self) -> Endianness
        ensures { result ≡ file_order self.now }
    {
        match self {
            InputFile::Object(object) => object.header().order,
            InputFile::Table(_, order) => *order,
        }
    }

    /// The bytes of the table. The error is `NoSection` if an object has none.
    pub fn table_bytes(&self) -> Result<&'a [u8], Fault>
        ensures { MatchResult result (λ bytes. HasTableBytes self.now bytes.now)
            (ReportsTable self.now) }
    {
        match self {
            InputFile::Object(object) => section(object, TABLE_SECTION),
            InputFile::Table(bytes, _) => Ok(*bytes),
        }
    }

    /// The table. The error is `NoSection` if an object has none, `Table` with the error of `Btf::parse`, or
    /// `OutOfMemory`.
    pub fn table(&self, alloc: Global) -> Result<Btf, Fault>
        ensures { MatchResult result (HasFileTable self.now) (ReportsTable self.now) }
    {
        let bytes = self.table_bytes()?;
        Ok(Btf::parse(alloc, bytes, self.endianness())?)
    }

    /// The table over its base: the types of the base, and then those of the file. Without a base it is the file's
    /// table alone, as `table` returns it.
    ///
    /// The error is `DistilledBase` for an object with a section `.BTF.base`. With a base it is then `NoSection` if an
    /// object has no table, or `Table` with the error of `parse_split`; `OutOfMemory` at any time.
    pub fn table_over(&self, alloc: Global, base: Option<&Btf>) -> Result<Btf, Fault>
        ensures { IfOk result
            (HasTableOver self.now (option_map (λ b. b.now) base.entry)) }
    {
        if self.has_distilled_base() {
            return Err(Fault::DistilledBase);
        }
        let Some(base) = base else {
            return self.table(alloc);
        };
        let bytes = self.table_bytes()?;
        Ok(parse_split(alloc, base, bytes, self.endianness())?)
    }

    /// Whether the file is an object with a section `.BTF.base`.
    pub(crate) fn has_distilled_base(&self) -> bool {
        match self {
            InputFile::Object(object) => object
                .section_by_name(DISTILLED_SECTION.as_bytes())
                .is_some(),
            InputFile::Table(_, _) => false,
        }
    }

    /// The table over its base, as `table_over` returns it, with its errors. If names or ids of its types are not in
    /// it, the error is `Split` without a base, and `OtherBase` with one.
    pub fn whole_table_over(&self, alloc: Global, base: Option<&Btf>) -> Result<Btf, Fault>
        ensures { IfOk result
            (HasTableOver self.now (option_map (λ b. b.now) base.entry)) }
    {
        let table = self.table_over(alloc, base)?;
        check_base(&table, base)?;
        Ok(table)
    }

    /// The table, as `table` returns it, with its errors. The error is `Split` if names or ids of its types are not in
    /// it.
    pub fn whole_table(&self, alloc: Global) -> Result<Btf, Fault>
        ensures { IfOk result (HasFileTable self.now) }
    {
        let table = self.table(alloc)?;
        if is_split(&table) {
            return Err(Fault::Split);
        }
        Ok(table)
    }

    /// The bytes of `.BTF.ext`. The error is `NoSection` if an object has none, and `NoExt` for a table alone.
    pub fn ext(&self) -> Result<&'a [u8], Fault>
        ensures { MatchResult result (λ bytes. HasExt self.now bytes.now) (ReportsExt self.now) }
    {
        match self {
            InputFile::Object(object) => section(object, EXT_SECTION),
            InputFile::Table(_, _) => Err(Fault::NoExt),
        }
    }
}

/// The bytes of the first section of a name, or `NoSection`.
fn section<'a>(object: &Object<'a>, name: &'static str) -> Result<&'a [u8], Fault>
    ensures { MatchResult result
        (λ bytes. IsFirstSection object.now name.now bytes.now)
        (LacksSection object.now name.now) }
{
    match object.section_by_name(name.as_bytes()) {
        Some(index) => Ok(object.section_bytes(&object.sections()[index])),
        None => Err(Fault::NoSection(name)),
    }
}
