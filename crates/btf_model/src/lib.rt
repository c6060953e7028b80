//! What a BTF table is, which bytes represent it, and the laws of both.
//!
//! The definitions are in `specs/`. `Endianness`, which the definitions share with the code, is here. Each law is the
//! contract of a function that does nothing.
#![tactic(auto)]

ghost use Rattle.btf_model.specs.Laws.{NoSpellingBeginsAnother, BlobIsDetermined, WrittenParsesBack, ParsedWritesBack, AddedStringReadsBack, NameFindsOne, AddedTypeIsFound, WalksAreDetermined, ResolvingTwiceIsOnce, VariantValuesAreDetermined, RelocationWordsAreDetermined, SectionsAreDetermined, ComparisonsAreDetermined, ComparisonsHaveAnswers, ComparisonsAreSymmetric, ComparisonsAreNotReflexive, StartsAreFew};

mod endianness;

pub use endianness::Endianness;

/// No record's spelling is a proper prefix of another spelling, and bytes spell at most one record. So there is only
/// one way to split bytes into spellings.
pub fn no_spelling_begins_another()
    ensures { NoSpellingBeginsAnother }
{}

/// A blob represents at most one table, or is refused for at most one reason, and never both.
pub fn blob_is_determined()
    ensures { BlobIsDetermined }
{}

/// The bytes that are written for a table are a blob that represents the table, except for retained 64-bit enum values.
pub fn written_parses_back()
    ensures { WrittenParsesBack }
{}

/// A parsed blob is written back unchanged exactly if it has the written form: the usual header, the strings right
/// after the types, nothing after the strings, and no word that reading drops.
pub fn parsed_writes_back()
    ensures { ParsedWritesBack }
{}

/// The type that was added last is found under the id that was returned, and old ids retain their records.
pub fn added_type_is_found()
    ensures { AddedTypeIsFound }
{}

/// An added text without a zero byte is read at the offset that was returned, and each offset that was read as a text
/// before is read as the same text.
pub fn added_string_reads_back()
    ensures { AddedStringReadsBack }
{}

/// The search for a name finds one type, or fails for one reason.
pub fn name_finds_one()
    ensures { NameFindsOne }
{}

/// An id resolves to one type or fails for one reason; a type has one size or fails for one reason.
pub fn walks_are_determined()
    ensures { WalksAreDetermined }
{}

/// If an id resolves to a type, this type resolves to itself.
pub fn resolving_twice_is_once()
    ensures { ResolvingTwiceIsOnce }
{}

/// A name has one value among the variants of a type, or none, or the search fails for one reason.
pub fn variant_values_are_determined()
    ensures { VariantValuesAreDetermined }
{}

/// The relocation records of a name are one list, or reading them fails for one reason.
pub fn relocation_words_are_determined()
    ensures { RelocationWordsAreDetermined }
{}

/// Bytes determine the sections of `.BTF.ext` that they begin with, and the rest after these.
pub fn sections_are_determined()
    ensures { SectionsAreDetermined }
{}

/// Each comparison has one answer, and a comparison of types has one list of started pairs.
pub fn comparisons_are_determined()
    ensures { ComparisonsAreDetermined }
{}

/// A comparison has an answer in tables whose records have kinds. The comparison of types also ends if the types are
/// cyclic.
pub fn comparisons_have_answers()
    ensures { ComparisonsHaveAnswers }
{}

/// If a comparison returns true or false, the comparison with its sides exchanged returns the same and starts the same
/// pairs. If it is refused, the exchanged comparison is refused too, perhaps for another reason.
pub fn comparisons_are_symmetric()
    ensures { ComparisonsAreSymmetric }
{}

/// A type need not be compatible with itself, in either comparison: an INT that does not begin at bit 0 is not.
pub fn comparisons_are_not_reflexive()
    ensures { ComparisonsAreNotReflexive }
{}

/// A comparison starts pairs of known ids only. Without repeats each pair is listed once, so the number of pairs is at
/// most the number of local records times the number of target records.
pub fn starts_are_few()
    ensures { StartsAreFew }
{}
