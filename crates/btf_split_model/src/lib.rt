//! What a split table is, and the laws of split tables. A split table has the types of a kernel module; its ids and
//! string offsets begin where those of its base, the kernel's table, end.
//!
//! The definitions are in `specs/`. Each law is the contract of a function here that does nothing.
#![tactic(auto)]

ghost use Rattle.btf_split_model.specs.Laws.{JoinedIsDetermined, BaseStays, BaseWalksStay, BaseComparisonsStay, OwnPartFollows, EmptyBaseAddsNothing, WrittenJoinsAgain, CutGivesBase, LooksSplitByNames};

/// Bytes are at most one table over a base, or are refused for at most one reason, and never both.
pub fn joined_is_determined()
    ensures { JoinedIsDetermined }
{}

/// A table over a base begins with the records and strings of the base. So each id of the base has the same record, and
/// each text of the base is read at the same offset.
pub fn base_stays()
    ensures { BaseStays }
{}

/// An id that resolves in the base resolves to the same type in the table, and a type that has a size in the base has
/// this size. An error may change, because ids above the base may be types of the table.
pub fn base_walks_stay()
    ensures { BaseWalksStay }
{}

/// If a comparison of two types, each in a base, returns true or false, it returns the same in tables that extend the
/// bases. The comparison of types also starts the same pairs.
pub fn base_comparisons_stay()
    ensures { BaseComparisonsStay }
{}

/// The types of a split table have the ids after the base's, and its strings have the offsets after the base's.
pub fn own_part_follows()
    ensures { OwnPartFollows }
{}

/// Over a base that has only id 0 and no strings, a split table is a table without a base.
pub fn empty_base_adds_nothing()
    ensures { EmptyBaseAddsNothing }
{}

/// The written part of a table above a base is a split table, which with the base is the table again.
pub fn written_joins_again()
    ensures { WrittenJoinsAgain }
{}

/// A base to which a split table was appended, cut to the length that it had, is the base again.
pub fn cut_gives_base()
    ensures { CutGivesBase }
{}

/// A blob that represents a table looks split exactly if one of the types 1 to 64 has a name at a string offset that
/// its strings do not have.
pub fn looks_split_by_names()
    ensures { LooksSplitByNames }
{}
