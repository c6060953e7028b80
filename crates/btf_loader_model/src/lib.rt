//! What becomes of the file of an object whose code is relocated.
//!
//! The definitions are in `specs/`. Each law is the contract of a function here that does nothing.
#![tactic(auto)]

ghost use Rattle.btf_loader_model.specs.Laws.{SectionsInTurn};
ghost use Rattle.btf_loader_model.specs.Prepared.{RelocatedCodeStays};
ghost use Rattle.btf_loader_model.specs.Refused.{ReasonIsDetermined};

/// The sections of records are relocated in turn: those after a part of the list continue with the candidates and the
/// file that the part leaves. So a section of code that is named twice continues with the patched code.
pub fn sections_in_turn()
    ensures { SectionsInTurn }
{}

/// A rewrite of the table of an object changes no section of code: each has the same index, header and bytes after it.
/// So the code that was relocated before the rewrite is the code of the rewritten object.
pub fn relocated_code_stays()
    ensures { RelocatedCodeStays }
{}

/// An object is refused for at most one reason, and an object that is relocated is refused for none.
pub fn reason_is_determined()
    ensures { ReasonIsDetermined }
{}
