//! The value of a record.

ghost use Rattle.std.specs.Prelude.{◌≡◌, Ok, Err, None};
ghost use Rattle.std.specs.Option.{option_map};
ghost use Rattle.btf_relocate_model.specs.Resolution as model;
ghost use Rattle.btf_relocate_model.specs.Types.{pointer_size};
ghost use Rattle.btf_relocate.specs.Gives.{GivesBy};
ghost use Rattle.btf_relocate.specs.Resolving.{subject_view, question_view, answer_at, answer_for, answer_ids_view, expected_of, ResolvesFor};

use crate::access::Access;
use crate::enumerator::{enumerator_at, find_enumerator};
use crate::kinds::int_word;
use crate::lookup::{name_at, type_at};
use crate::matching::matching_field;
use crate::path::{LOCAL_POINTER_SIZE, Path};
use crate::size::size_of;
use crate::target::{CANDIDATE_LIMIT, Target};
use crate::types::types_alike;
use crate::value::{field_value, plain};
use btf_model::Endianness;
use btf_plain::BtfKind;
use btf_relocate_model::{Answer, Match, RelocationError, RelocationKind, Resolved, Rule, Value};
use btf_table::Btf;
use btf_view::TableRef;
use std::alloc::Global;

/// What a record is about, in the program's own table.
#[derive(Debug, Drop)]
pub enum Subject<'t> {
    /// A field.
    OfField(Path<'t>),
    /// The type itself.
    OfType(u32),
    /// An enumerator: its name and its value.
    OfEnumerator(&'t [u8], u64),
}

/// What a record asks.
#[derive(Debug, Drop)]
pub struct Question<'t> {
    /// The kind.
    pub kind: RelocationKind,
    /// The name of the record's type.
    pub name: &'t [u8],
    /// What the record is about.
    pub subject: Subject<'t>,
}

/// The value of a record for a target: the words of the record are the offset of its instruction, the id of a type,
/// the string offset of the access string, and the number of the kind.
///
/// `candidates` are the types of the target that the record's type may be, as [`Target::candidates`] gives them. If at
/// least one of them matches, the others are removed. All that match must have the same value. More than 256 are refused.
pub fn resolve(
    alloc: Global,
    local: &Btf,
    target: &Target<'_>,
    record: &[u32; 4],
    candidates: &mut Vec<u32>,
) -> Result<Resolved, RelocationError>
    ensures { ResolvesFor local.now target.now «record».now candidates.old.items
        candidates.new.items result }
{
    let local = TableRef::of_table(local);
    resolve_in(alloc, &local, target, record, candidates)
}

/// The same for a program's own table, whatever holds it.
pub fn resolve_in(
    alloc: Global,
    local: &TableRef<'_>,
    target: &Target<'_>,
    record: &[u32; 4],
    candidates: &mut Vec<u32>,
) -> Result<Resolved, RelocationError>
    ensures { ResolvesFor local.now target.now «record».now candidates.old.items
        candidates.new.items result }
{
    let type_id = record[1];
    let question = question_of(alloc, local, target.table().endianness(), record)?;
    if let RelocationKind::TypeIdLocal = question.kind {
        return Ok(local_id(type_id));
    }
    let expected = expected_of(local, type_id, &question)?;
    let first = None;
    let (answer, matching) = table_answers(
        alloc,
        local,
        target,
        &question,
        first,
        candidates.as_slice(),
    )?;
    if answer.is_some() {
        *candidates = matching;
    }
    let validates = validates(question.kind, &question.subject);
    Ok(resolve_by(
        local,
        target.table(),
        question.kind,
        validates,
        &expected,
        answer,
    ))
}

/// The value of a question about a type of this id for the program's own table, where the kind needs a search.
pub fn expected_of(
    local: &TableRef<'_>,
    type_id: u32,
    question: &Question<'_>,
) -> Result<Value, RelocationError>
    ensures { result ≡ expected_of local.now type_id (question_view question.now) }
{
    if question.name.is_empty() {
        return Err(RelocationError::AnonymousType { type_id });
    }
    let found = match &question.subject {
        Subject::OfField(path) => Match::AtField(path.field),
        Subject::OfType(type_id) => Match::AtType(*type_id),
        Subject::OfEnumerator(_, value) => Match::AtEnumerator(*value),
    };
    value_of(local, LOCAL_POINTER_SIZE, question.kind, &found)
}

/// What a record asks, for a target of this byte order.
pub fn question_of<'t>(
    alloc: Global,
    local: &TableRef<'t>,
    order: Endianness,
    record: &[u32; 4],
) -> Result<Question<'t>, RelocationError>
    ensures { GivesBy question_view (model.question local.now order «record».now) result }
{
    let kind = RelocationKind::try_from(record[3])?;
    if local.endianness() != order {
        return Err(RelocationError::OrderMismatch);
    }
    let name = name_at(local, type_at(local, record[1])?.name_offset())?;
    let access = name_at(local, record[2])?;
    let subject = subject_of(alloc, local, kind, record[1], access)?;
    Ok(Question {
        kind,
        name,
        subject,
    })
}

/// What a record of this kind is about.
fn subject_of<'t>(
    alloc: Global,
    local: &TableRef<'t>,
    kind: RelocationKind,
    type_id: u32,
    access: &[u8],
) -> Result<Subject<'t>, RelocationError>
    ensures { GivesBy subject_view (model.subject_of local.now kind type_id access.now) result }
{
    match kind {
        RelocationKind::TypeIdLocal
        | RelocationKind::TypeIdTarget
        | RelocationKind::TypeExists
        | RelocationKind::TypeSize
        | RelocationKind::TypeMatches => {
            if access == b"0".as_slice() {
                Ok(Subject::OfType(type_id))
            } else {
                Err(RelocationError::BadAccess)
            }
        }
        RelocationKind::EnumeratorExists | RelocationKind::EnumeratorValue => {
            let access = Access::parse(access)?;
            let [index] = access.indices() else {
                return Err(RelocationError::BadIndex);
            };
            let (enumerator, name) = enumerator_at(local, type_id, *index)?;
            Ok(Subject::OfEnumerator(name, enumerator.value))
        }
        _ => {
            let access = Access::parse(access)?;
            let path = Path::new(alloc, local, type_id, &access)?;
            Ok(Subject::OfField(path))
        }
    }
}

/// What a candidate has for the subject; `None` if it does not match.
// A call for each candidate would copy what it returns.
#[inline(always)]
fn matching(
    alloc: Global,
    local: &TableRef<'_>,
    target: &Target<'_>,
    kind: RelocationKind,
    subject: &Subject<'_>,
    candidate: u32,
) -> Result<Option<Match>, RelocationError>
    ensures { GivesBy (λ o. o) (model.match_of kind local.now (pointer_size target.now) target.now
        (subject_view subject.now) candidate) result }
{
    match subject {
        Subject::OfField(path) => {
            let field = matching_field(alloc, local, path, target, candidate)?;
            Ok(field.map(Match::AtField))
        }
        Subject::OfType(type_id) => {
            let rule = match kind {
                RelocationKind::TypeMatches => Rule::Matches,
                _ => Rule::Compatible,
            };
            if types_alike(alloc, rule, local, target.table(), *type_id, candidate)? {
                Ok(Some(Match::AtType(candidate)))
            } else {
                Ok(None)
            }
        }
        Subject::OfEnumerator(name, _) => {
            match find_enumerator(target.table(), candidate, *name)? {
                Some(found) => Ok(Some(Match::AtEnumerator(found.value))),
                None => Ok(None),
            }
        }
    }
}

/// The value of a match for a kind, in a table whose pointers have this size.
fn value_of(
    table: &TableRef<'_>,
    pointer_size: u32,
    kind: RelocationKind,
    found: &Match,
) -> Result<Value, RelocationError>
    ensures { result ≡ model.value_of pointer_size table.now kind found.now }
{
    match found {
        Match::AtField(field) => field_value(table, pointer_size, kind, field),
        Match::AtType(type_id) => match kind {
            RelocationKind::TypeIdTarget => Ok(plain(u64::from(*type_id))),
            RelocationKind::TypeSize => {
                let size = size_of(table, pointer_size, *type_id)?;
                Ok(plain(u64::from(size)))
            }
            _ => Ok(plain(1)),
        },
        Match::AtEnumerator(value) => match kind {
            RelocationKind::EnumeratorValue => Ok(plain(*value)),
            _ => Ok(plain(1)),
        },
    }
}

/// The answer of all candidates of a table that match, where an earlier answer is the first, and these candidates.
pub fn table_answers(
    alloc: Global,
    local: &TableRef<'_>,
    target: &Target<'_>,
    question: &Question<'_>,
    first: Option<Answer>,
    candidates: &[u32],
) -> Result<(Option<Answer>, Vec<u32>), RelocationError>
    ensures { GivesBy answer_ids_view (model.table_answers
        (answer_for local.now target.now question.now) first candidates.now) result }
{
    if candidates.len() > CANDIDATE_LIMIT {
        return Err(RelocationError::TooManyCandidates);
    }
    answers(alloc, local, target, question, first, candidates)
}

/// The same for candidates that are not too many.
#[inline(always)]
fn answers(
    alloc: Global,
    local: &TableRef<'_>,
    target: &Target<'_>,
    question: &Question<'_>,
    first: Option<Answer>,
    candidates: &[u32],
) -> Result<(Option<Answer>, Vec<u32>), RelocationError>
    ensures { GivesBy answer_ids_view
        (model.answers (answer_for local.now target.now question.now) first candidates.now) result }
{
    let kind = question.kind;
    let mut common = first;
    let mut kept = Vec::new(alloc);
    for candidate in candidates {
        let found = matching(alloc, local, target, kind, &question.subject, *candidate)?;
        let Some(found) = found else {
            continue;
        };
        let bit = match found {
            Match::AtField(field) => field.bit,
            _ => 0,
        };
        let value = value_of(target.table(), target.pointer_size(), kind, &found)?;
        let answer = Answer { bit, value };
        if let Some(first) = common {
            if first.bit != answer.bit || first.value.value != answer.value.value {
                return Err(RelocationError::Ambiguous);
            }
        } else {
            common = Some(answer);
        }
        kept.push(*candidate)?;
    }
    Ok((common, kept))
}

/// What is written for the answer of the candidates, or if there is none.
pub fn resolve_by(
    local: &TableRef<'_>,
    target: &TableRef<'_>,
    kind: RelocationKind,
    validates: bool,
    expected: &Value,
    answer: Option<Answer>,
) -> Resolved
    ensures { result ≡ model.resolved_by local.now target.now kind validates expected.now answer }
{
    if let Some(answer) = answer {
        return Resolved {
            expected: expected.value,
            value: answer.value.value,
            is_matched: true,
            is_poisoned: false,
            validates,
            local_size: expected.size,
            target_size: answer.value.size,
            is_adjustable: may_resize(local, target, expected, &answer.value),
        };
    }
    let missing = Resolved {
        expected: expected.value,
        value: 0,
        is_matched: false,
        is_poisoned: false,
        validates,
        local_size: expected.size,
        target_size: expected.size,
        is_adjustable: true,
    };
    match kind {
        RelocationKind::FieldByteOffset
        | RelocationKind::FieldByteSize
        | RelocationKind::FieldSigned
        | RelocationKind::FieldLShift64
        | RelocationKind::FieldRShift64
        | RelocationKind::EnumeratorValue => Resolved {
            is_poisoned: true,
            target_size: 0,
            ..missing
        },
        _ => missing,
    }
}

/// What is written for a record that asks for the id of the program's own type.
pub fn local_id(type_id: u32) -> Resolved
    ensures { result ≡ model.local_id type_id }
{
    Resolved {
        expected: u64::from(type_id),
        value: u64::from(type_id),
        is_matched: false,
        is_poisoned: false,
        validates: false,
        local_size: 0,
        target_size: 0,
        is_adjustable: true,
    }
}

/// Whether an instruction must have the expected value before it is patched. Compilers write other values for
/// bit-fields, and for the ids of types.
pub fn validates(kind: RelocationKind, subject: &Subject<'_>) -> bool
    ensures { result ≡ model.validates kind (subject_view subject.now) }
{
    match kind {
        RelocationKind::TypeIdLocal | RelocationKind::TypeIdTarget => false,
        RelocationKind::FieldByteOffset
        | RelocationKind::FieldByteSize
        | RelocationKind::FieldLShift64 => match subject {
            Subject::OfField(path) => !path.field.is_member || path.field.bits == 0,
            _ => true,
        },
        _ => true,
    }
}

/// Whether a load or store may get the size of the target's field: the sizes are equal, both types are PTRs, or both
/// are INTs that are not plain signed numbers. Zero-extension is right for these.
fn may_resize(local: &TableRef<'_>, target: &TableRef<'_>, expected: &Value, value: &Value) -> bool
    ensures { result ≡ model.may_resize local.now target.now expected.now value.now }
{
    if expected.size == value.size {
        return true;
    }
    let Ok(one) = type_at(local, expected.type_id) else {
        return false;
    };
    let Ok(other) = type_at(target, value.type_id) else {
        return false;
    };
    match (one.kind(), other.kind()) {
        (BtfKind::Ptr, BtfKind::Ptr) => true,
        (BtfKind::Int, BtfKind::Int) => {
            int_word(&one) / 0x100_0000 % 16 != 1 && int_word(&other) / 0x100_0000 % 16 != 1
        }
        _ => false,
    }
}
