//! Records by the names of sections.

ghost use Rattle.std.specs.Prelude.{◌≡◌, ℕ, ◌*◌, ◌<◌, ◌≤◌, List, None, Ok, Err, IfOk, OnOk, IfErr, IfSome, unwrap_or};
ghost use Rattle.btf_model.specs.Ext.{Records, IsSection, instruction_records, no_records};
ghost use Rattle.btf_model.specs.Text.{text_at};
ghost use Rattle.btf_plain.specs.Error.{MeetsOrNoMemory, IsOrNoMemory, refusal_of};
ghost use Rattle.btf_ext.specs.SecInfo.{section_of};
ghost use Rattle.btf_ext.specs.ExtHeader.{part as part_of};
ghost use Rattle.btf_ext.specs.Info.{by_name, hasher_in, AreByName, GainsSection};

use crate::header::Part;
use crate::read::{name_at, readable_sections};
use crate::sections::SecInfo;
use btf_plain::{BtfError, Endianness};
use btf_table::Btf;
use std::alloc::{AllocError, Global};
use std::collections::{BTreeSet, HashMap};
use std::hash::{BuildHasher, BuildHasherDefault, FoldHasher};

/// The records of one section of a program: its function records, or its line records.
pub trait SectionRecords: Sized + Drop {
    /// The number of words of a record that are read.
    ghost width: { ℕ };

    /// The records in the model's terms.
    ghost records: { Self → Records };

    /// No records, without an allocation.
    fn empty(alloc: Global) -> Self
        ensures { records result ≡ no_records };

    /// Reads the records of a section; `rec_size` is the number of bytes of each.
    fn read(
        alloc: Global,
        section: &SecInfo<'_>,
        rec_size: usize,
        endianness: Endianness,
    ) -> Result<Self, AllocError>
        requires whole { IsSection rec_size (section_of section.now) }
        requires wide { 4 * width ≤ rec_size }
        ensures { IfOk result (λ s. records s
            ≡ instruction_records endianness rec_size width (section_of section.now)) };

    /// Equal records. `OutOfMemory` is the only error.
    fn copied(&self) -> Result<Self, BtfError>
        ensures { IsOrNoMemory records result (Ok (records self.now)) };
}

/// The records of a program, by the names of its sections. Names are hashed by an `H`; the default has a fixed seed.
#[derive(Debug, Drop)]
pub struct BySection<S, H: BuildHasher = BuildHasherDefault<FoldHasher>> {
    /// The records of each section, under its name.
    pub sections: HashMap<String, S, H>,
    /// The allocator; the map does not give access to its own.
    alloc: Global,
}

impl<S: SectionRecords, H: BuildHasher> BySection<S, H> {
    /// No section, in a map with this hasher, without an allocation.
    fn with_hasher(alloc: Global, hash_builder: H) -> Self
        ensures none { (name : List ℕ) → by_name S.records result name ≡ None }
        ensures hasher { hasher_in result ≡ hash_builder }
    {
        Self {
            sections: HashMap::with_hasher(alloc, hash_builder),
            alloc,
        }
    }

    /// Reads the records of a part's sections into a map with this hasher. If several sections have the same name, the
    /// last one counts.
    ///
    /// For each section in turn, the error is `InvalidInfo` as `SecInfoIter` reports it, or `InvalidStringOffset` if
    /// its name can't be read.
    pub(crate) fn read(
        alloc: Global,
        part: &Part<'_>,
        endianness: Endianness,
        btf: &Btf,
        hash_builder: H,
    ) -> Result<Self, BtfError>
    where
        H: Drop,
        requires { 0 < part.now.rec_size → 4 * S.width ≤ part.now.rec_size }
        ensures sections { MeetsOrNoMemory (by_name S.records) result
            (AreByName endianness S.width btf.now.strings (part_of part.now)) }
        ensures hasher { IfOk result (λ b. hasher_in b ≡ hash_builder) }
    {
        let sections = readable_sections(alloc, part, endianness, btf)?;
        let mut info = Self::with_hasher(alloc, hash_builder);
        let mut taken = BTreeSet::new(alloc);
        // The loop goes backwards because the last section of a name counts. If the offset was met before, the name has
        // records already.
        for section in sections.iter().rev() {
            let is_new = taken.insert(section.name_offset)?;
            if is_new {
                info.add(section, part.rec_size, endianness, btf)?;
            }
        }
        Ok(info)
    }

    /// Adds the records of a section under its name. If the name has records already, they stay, and nothing is read.
    ///
    /// The error is `InvalidStringOffset` if the name can't be read.
    fn add(
        &mut self,
        section: &SecInfo<'_>,
        rec_size: usize,
        endianness: Endianness,
        btf: &Btf,
    ) -> Result<(), BtfError>
        requires whole { IsSection rec_size (section_of section.now) }
        requires wide { 4 * S.width ≤ rec_size }
        ensures added { OnOk result (GainsSection btf.now endianness rec_size S.width section.now
            (by_name S.records self.old) (by_name S.records self.new)) }
        ensures hasher { hasher_in self.new ≡ hasher_in self.old }
        ensures refused { IfErr result (λ e. IfSome (refusal_of e)
            (λ f. text_at btf.now.strings section.now.name_offset ≡ Err f)) }
    {
        let name = name_at(self.alloc, btf, section.name_offset)?;
        if self.sections.contains_key(name.as_str()) {
            return Ok(());
        }
        let records = S::read(self.alloc, section, rec_size, endianness)?;
        self.sections.insert(name, records)?;
        Ok(())
    }

    /// A copy of the records under a name; no records if the name has none. `OutOfMemory` is the only error.
    pub fn get(&self, name: &str) -> Result<S, BtfError>
        ensures { IsOrNoMemory S.records result
            (Ok (unwrap_or (by_name S.records self.now name.now) no_records)) }
    {
        match self.sections.get(name) {
            Some(section) => section.copied(),
            None => Ok(S::empty(self.alloc)),
        }
    }

    /// Equal records under equal names, in a map with a clone of the hasher. `OutOfMemory` is the only error.
    pub fn try_clone(&self) -> Result<Self, BtfError>
    where
        H: Clone,
        ensures { IsOrNoMemory (by_name S.records) result (Ok (by_name S.records self.now)) }
    {
        let hash_builder = self.sections.hasher().clone()?;
        let mut copy = Self::with_hasher(self.alloc, hash_builder);
        for (name, section) in &self.sections {
            copy.sections.insert(name.clone()?, section.copied()?)?;
        }
        Ok(copy)
    }
}
