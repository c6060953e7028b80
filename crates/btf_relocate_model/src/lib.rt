//! What a CO-RE relocation means, and the laws of the definitions.
//!
//! The definitions are in `specs/`. The plain types that the definitions share with the code are here. Each law is the
//! contract of a function that does nothing.
#![tactic(auto)]

ghost use Rattle.btf_relocate_model.specs.Laws.{WrittenReadsBack, WrittenKeepsTheRest, PoisonHasAReason, ExistenceAgrees, PatchesCommute, NeighboursExchange, StringsMayBeAppended, OwnTableGivesTheExpected, ExpectedKeepsTheCode, OwnTableKeepsTheCode, OwnTableKeepsTheSection, PathsMatchThemselves, WithoutModules, ReportsHaveOutcomes, RecordsInTurn};

mod answer;
mod comparison;
mod error;
mod field;
mod instruction;
mod kind;
mod report;
mod resolved;

pub use answer::{Answer, Match};
pub use comparison::{Pair, Rule};
pub use error::RelocationError;
pub use field::{Field, Load, Value};
pub use instruction::{Instruction, Patched, Slot};
pub use kind::RelocationKind;
pub use report::{Change, Matched, Report};
pub use resolved::Resolved;

/// A value that a relocation writes into an instruction is read back from it.
pub fn written_reads_back()
    ensures { WrittenReadsBack }
{}

/// A relocation that writes a value changes nothing of an instruction but its field, and the size of a load or store.
pub fn written_keeps_the_rest()
    ensures { WrittenKeepsTheRest }
{}

/// A relocation poisons an instruction only if the record asks for it, or if the size of a load or store would have to
/// change and may not. Then each slot of the instruction is the poison.
pub fn poison_has_a_reason()
    ensures { PoisonHasAReason }
{}

/// A record about a field, of a kind that poisons, such as the offset of the field, agrees with the record about its
/// existence: the field exists just if the other record does not poison. Errors of values are apart.
pub fn existence_agrees()
    ensures { ExistenceAgrees }
{}

/// Patches of two instructions that do not overlap have the same outcomes and leave the same code in either order.
pub fn patches_commute()
    ensures { PatchesCommute }
{}

/// Two neighbouring records may change places if their instructions do not overlap, and if each record has all
/// candidates or the two are about different types. Their outcomes change places, and all else is the same.
pub fn neighbours_exchange()
    ensures { NeighboursExchange }
{}

/// Strings that are appended to the program's table change no resolution, except where a name had no text before.
pub fn strings_may_be_appended()
    ensures { StringsMayBeAppended }
{}

/// Against the program's own table, with its own type as the one candidate, a record gives the expected value and does
/// not poison.
pub fn own_table_gives_the_expected()
    ensures { OwnTableGivesTheExpected }
{}

/// A patch that validates the instruction, and whose value and size are the expected ones, writes the bytes that are
/// there.
pub fn expected_keeps_the_code()
    ensures { ExpectedKeepsTheCode }
{}

/// Against the program's own table, with its own type as the one candidate, a record that validates its instruction
/// leaves the code as it is.
pub fn own_table_keeps_the_code()
    ensures { OwnTableKeepsTheCode }
{}

/// In a table whose members have different names, the path of an access leads in its own type to its own field.
pub fn paths_match_themselves()
    ensures { PathsMatchThemselves }
{}

/// Against the program's own table, records that validate their instructions, and whose types are their only
/// candidates, leave the code of a section as it is.
pub fn own_table_keeps_the_section()
    ensures { OwnTableKeepsTheSection }
{}

/// For a kernel without modules, the records of a section become what they become for the kernel's table alone.
pub fn without_modules()
    ensures { WithoutModules }
{}

/// The reports of the records of a section have the outcomes of the records, and go with the same code after them.
pub fn reports_have_outcomes()
    ensures { ReportsHaveOutcomes }
{}

/// The records of two lists, one after the other, are those of one list: the second list begins with the candidates and
/// the code that the first one leaves.
pub fn records_in_turn()
    ensures { RecordsInTurn }
{}
