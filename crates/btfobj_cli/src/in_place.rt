//! A table that is read in the bytes of its file.

ghost use Rattle.std.specs.Prelude.{IfOk};
ghost use Rattle.btfobj_cli.specs.InPlace.{HasBytesInPlace};

use crate::fault::Fault;
use crate::input_file::InputFile;
use crate::split::{Bounds, referred};
use btf_model::Endianness;
use btf_plain::BtfError;
use btf_view::{Sections, TableRef, TypeWords, Unindexed, View, index};
use std::alloc::Global;
use std::marker::Model;

/// Most tables have more bytes than these for each type, with its strings. Kernels' tables have 42 to 44.
const USUAL_LENGTH: usize = 32;

/// The length in bytes of the shortest record.
const LEAST_LENGTH: usize = 12;

/// The number of types whose words are read at once.
const AT_ONCE: usize = 64;

/// The words of no type.
const NO_WORDS: TypeWords = TypeWords {
    kind: 0,
    name_offset: 0,
    info: 0,
    size_or_type: 0,
};

/// The bytes of a file's table, and where its records are. Nothing of the table is copied.
#[derive(Drop)]
pub struct TableInPlace<'a> {
    bytes: &'a [u8],
    endianness: Endianness,
    sections: Sections,
    places: Vec<u32>,
}

/// Whether a type has a name, or refers to a type, that is not in a table with these bounds.
#[inline(always)]
fn is_outside(bounds: &Bounds, words: &TypeWords) -> bool {
    // Few third words are no ids of the table, and of these only some are ids and not sizes.
    if bounds.exclude(words.name_offset, words.size_or_type) {
        return bounds.exclude(words.name_offset, referred(words));
    }
    false
}

impl<'a> Model for TableInPlace<'a> {
    ghost use Rattle.std.specs.Prelude.{ℕ, List};
    ghost use Rattle.btf_model.specs.declared.endianness.Endianness.{Endianness};
    ghost use Rattle.btf_view.specs.Index.{IsIndexed};

    ghost Value = { Endianness × List ℕ };

    ghost view = { λ t. (t.endianness, t.bytes.now) };

    ghost invariant = { λ t. IsIndexed t.endianness t.bytes.now t.places.items t.sections };
}

impl<'a> TableInPlace<'a> {
    ghost use Rattle.std.specs.Prelude.{◌≡◌, IfOk, IfSome};
    ghost use Rattle.btf_model.specs.Blob.{IsTable};
    ghost use Rattle.btfobj_cli.specs.InPlace.{HasBytesInPlace};

    /// The table of the file of these bytes. The errors are those of `InputFile::read` and `InputFile::whole_table_over`
    /// without a base.
    pub fn of_file(alloc: Global, file: &'a [u8]) -> Result<TableInPlace<'a>, Fault>
        ensures { IfOk result (HasBytesInPlace file.now) }
    {
        let input = InputFile::read(alloc, file)?;
        if input.has_distilled_base() {
            return Err(Fault::DistilledBase);
        }
        let bytes = input.table_bytes()?;
        let table = TableInPlace::index(alloc, bytes, input.endianness())?;
        if table.continues_base() {
            return Err(Fault::Split);
        }
        Ok(table)
    }

    /// The table of these bytes, whose words are in this byte order. The error is `Table` with the error of
    /// `Btf::parse`, or `OutOfMemory`.
    fn index(
        alloc: Global,
        bytes: &'a [u8],
        endianness: Endianness,
    ) -> Result<TableInPlace<'a>, Fault>
        ensures { IfOk result (λ t. t ≡ (endianness, bytes.now)) }
    {
        for length in [USUAL_LENGTH, LEAST_LENGTH] {
            let count = bytes.len() / length + 1;
            if let Some(table) = TableInPlace::with_places(alloc, bytes, endianness, count)? {
                return Ok(table);
            }
        }
        // Records of the least length have all been given a place.
        Err(Fault::Table(BtfError::InvalidTypeInfo))
    }

    /// The same with at most this number of types; None if there are more.
    fn with_places(
        alloc: Global,
        bytes: &'a [u8],
        endianness: Endianness,
        count: usize,
    ) -> Result<Option<TableInPlace<'a>>, Fault>
        ensures { IfOk result (λ found. IfSome found (λ t. t ≡ (endianness, bytes.now))) }
    {
        let mut places = vec![in alloc; 0; count]?;
        match index(bytes, endianness, &mut places) {
            Ok(sections) => Ok(Some(TableInPlace {
                bytes,
                endianness,
                sections,
                places,
            })),
            Err(Unindexed::TooFewPlaces) => Ok(None),
            Err(Unindexed::Refused(e)) => Err(Fault::from(e)),
        }
    }

    /// Whether the table continues a base.
    fn continues_base(&self) -> bool {
        let view = self.view();
        let types = self.table().type_count();
        let bounds = Bounds::new(view.strings, types);
        let mut words = [NO_WORDS; AT_ONCE];
        for first in (0..types).step_by(AT_ONCE) {
            let count = view.types(first, &mut words);
            if words.iter().take(count).any(|it| is_outside(&bounds, it)) {
                return true;
            }
        }
        false
    }

    /// The bytes of both sections, and the places of the records.
    fn view(&self) -> View<'_> {
        let (types, strings) = (self.sections.types_at, self.sections.strings_at);
        View {
            endianness: self.endianness,
            types: &self.bytes[types..types + self.sections.types_len],
            strings: &self.bytes[strings..strings + self.sections.strings_len],
            places: &self.places[..self.sections.count],
        }
    }

    /// The table.
    pub fn table(&self) -> TableRef<'_>
        ensures { IsTable self.now.0 self.now.1 result }
    {
        TableRef::of_blob(self.bytes, self.endianness, &self.sections, &self.places)
    }
}
