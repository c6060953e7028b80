//! Records for a kernel with modules.
//!
//! A type that the kernel's table does not have may be in the tables of modules. The tables of modules are searched
//! only if the kernel's table has no candidate. All candidates of all modules must then have the same value.

ghost use Rattle.std.specs.Prelude.{◌≡◌, ◌+◌, ◌<◌, ◌∷◌, drop, length, map, None, Some, IfOk};
ghost use Rattle.btf_relocate_model.specs.declared.report.Matched.{Matched};
ghost use Rattle.btf_relocate_model.specs.Modules as model;
ghost use Rattle.btf_relocate.specs.Gives.{GivesBy};
ghost use Rattle.btf_relocate.specs.Modules.{ResolvesAmong, ResolvesInModules, answer_in_table, answers_view, candidates_view, found_view, targets_view};
ghost use Rattle.btf_relocate.specs.Resolving.{subject_view};

use crate::resolving::{
    Question, expected_of, local_id, question_of, resolve_by, resolve_in, table_answers, validates,
};
use crate::section::candidates_in;
use crate::target::Target;
use btf_relocate_model::{Answer, Matched, RelocationError, RelocationKind, Resolved};
use btf_table::Btf;
use btf_view::TableRef;
use std::alloc::{AllocError, Global};

/// The tables that a program is relocated against: the kernel's, and those of its modules.
#[derive(Clone, Copy, Debug)]
pub struct Targets<'a, 't> {
    /// The kernel's table.
    pub kernel: &'a Target<'t>,
    /// The tables of modules, in the order in which they are searched. Each is whole: the kernel's types and then the
    /// module's own. They have the byte order of the kernel's table.
    pub modules: &'a [Target<'t>],
}

/// Candidates in the table of a module.
#[derive(Drop)]
pub struct InModule<'a, 't> {
    /// The table.
    pub target: &'a Target<'t>,
    /// The ids of the candidates.
    pub ids: Vec<u32>,
}

/// The candidates of a type.
#[derive(Drop)]
pub enum Candidates<'a, 't> {
    /// All are in the kernel's table.
    InKernel(Vec<u32>),
    /// All are in the tables of modules.
    InModules(Vec<InModule<'a, 't>>),
}

impl Candidates<'_, '_> {
    /// The first candidate.
    pub fn first(&self) -> Matched
        ensures { result ≡ model.first_matched (candidates_view self.now) }
    {
        match self {
            Candidates::InKernel(ids) => match ids.first() {
                Some(type_id) => Matched::InKernel { type_id: *type_id },
                None => Matched::Nothing,
            },
            Candidates::InModules(found) => first_in_modules(found.as_slice()),
        }
    }
}

/// A type of the table of the module of an index. An index has 32 bits.
fn in_module(index: usize, type_id: u32) -> Matched
    ensures { (other : Matched) → result ≡ model.in_module_or other index (Some type_id) }
{
    match u32::try_from(index) {
        Ok(index) => Matched::InModule { index, type_id },
        Err(_) => Matched::Nothing,
    }
}

/// The candidates in the table of the module of an index.
fn found_at<'f, 'a, 't>(found: &'f [InModule<'a, 't>], index: usize) -> &'f InModule<'a, 't>
    requires { index < length found.now }
    ensures { drop index found.now ≡ result.now ∷ drop (index + 1) found.now }
{
    &found[index]
}

/// The first of the candidates in the tables of all modules.
fn first_in_modules(found: &[InModule<'_, '_>]) -> Matched
    ensures { result ≡ model.first_in_modules 0 (map found_view found.now) }
{
    for index in 0..found.len() {
        if let Some(type_id) = found_at(found, index).ids.first() {
            return in_module(index, *type_id);
        }
    }
    Matched::Nothing
}

/// The candidates of a type of the program's table, for [`resolve_among`]; none if the id has no type. The tables of
/// modules are searched only if the kernel's table has no candidate. `OutOfMemory` is the only error.
pub fn candidates_among<'a, 't>(
    alloc: Global,
    local: &Btf,
    targets: &Targets<'a, 't>,
    type_id: u32,
) -> Result<Candidates<'a, 't>, AllocError>
    ensures { IfOk result (λ c. candidates_view c
        ≡ model.candidates_among local.now (targets_view targets.now) type_id) }
{
    let local = TableRef::of_table(local);
    candidates_among_in(alloc, &local, targets, type_id)
}

/// The same for a program's own table, whatever holds it.
pub fn candidates_among_in<'a, 't>(
    alloc: Global,
    local: &TableRef<'_>,
    targets: &Targets<'a, 't>,
    type_id: u32,
) -> Result<Candidates<'a, 't>, AllocError>
    ensures { IfOk result (λ c. candidates_view c
        ≡ model.candidates_among local.now (targets_view targets.now) type_id) }
{
    let ids = candidates_in(alloc, local, targets.kernel, type_id)?;
    if !ids.is_empty() || targets.modules.is_empty() {
        return Ok(Candidates::InKernel(ids));
    }
    let found = find_in(alloc, local, targets.modules, type_id)?;
    Ok(Candidates::InModules(found))
}

/// The candidates of a type of the program's table in each of these tables.
fn find_in<'a, 't>(
    alloc: Global,
    local: &TableRef<'_>,
    targets: &'a [Target<'t>],
    type_id: u32,
) -> Result<Vec<InModule<'a, 't>>, AllocError>
    ensures { IfOk result (λ found. map found_view found.items
        ≡ map (model.found_in local.now type_id) targets.now) }
{
    let mut found = Vec::with_capacity(alloc, targets.len())?;
    for target in targets {
        let ids = candidates_in(alloc, local, target, type_id)?;
        found.push(InModule { target, ids })?;
    }
    Ok(found)
}

/// The value of a record for a kernel with modules; see [`resolve`], which does the same for one table.
///
/// `candidates` are those of the record's type, as [`candidates_among`] gives them. If at least one of them matches,
/// the others are removed. All that match must have the same value, also those in different tables.
pub fn resolve_among(
    alloc: Global,
    local: &Btf,
    targets: &Targets<'_, '_>,
    record: &[u32; 4],
    candidates: &mut Candidates<'_, '_>,
) -> Result<Resolved, RelocationError>
    ensures { ResolvesAmong local.now targets.now «record».now
        candidates.old candidates.new result }
{
    let local = TableRef::of_table(local);
    resolve_among_in(alloc, &local, targets, record, candidates)
}

/// The same for a program's own table, whatever holds it.
pub fn resolve_among_in(
    alloc: Global,
    local: &TableRef<'_>,
    targets: &Targets<'_, '_>,
    record: &[u32; 4],
    candidates: &mut Candidates<'_, '_>,
) -> Result<Resolved, RelocationError>
    ensures { ResolvesAmong local.now targets.now «record».now
        candidates.old candidates.new result }
{
    match candidates {
        Candidates::InKernel(ids) => resolve_in(alloc, local, targets.kernel, record, ids),
        Candidates::InModules(found) => {
            resolve_in_modules(alloc, local, targets.kernel, record, found)
        }
    }
}

/// The value of a record whose candidates are in the tables of modules.
fn resolve_in_modules<'a, 't>(
    alloc: Global,
    local: &TableRef<'_>,
    kernel: &Target<'_>,
    record: &[u32; 4],
    found: &mut Vec<InModule<'a, 't>>,
) -> Result<Resolved, RelocationError>
    ensures { ResolvesInModules local.now kernel.now «record».now found.old found.new result }
{
    let type_id = record[1];
    let question = question_of(alloc, local, kernel.table().endianness(), record)?;
    if let RelocationKind::TypeIdLocal = question.kind {
        return Ok(local_id(type_id));
    }
    let expected = expected_of(local, type_id, &question)?;
    let (answer, matching) = answers_among(alloc, local, &question, found.as_slice())?;
    let validates = validates(question.kind, &question.subject);
    let target = first_table(kernel.table(), &matching);
    let resolved = resolve_by(local, target, question.kind, validates, &expected, answer);
    if answer.is_some() {
        *found = matching;
    }
    Ok(resolved)
}

/// The answer of all candidates that match, and these candidates. Each is compared in its own table.
fn answers_among<'a, 't>(
    alloc: Global,
    local: &TableRef<'_>,
    question: &Question<'_>,
    found: &[InModule<'a, 't>],
) -> Result<(Option<Answer>, Vec<InModule<'a, 't>>), RelocationError>
    ensures { GivesBy answers_view (model.answers_among (answer_in_table local.now question.now)
        None (map found_view found.now)) result }
{
    let mut common = None;
    let mut matching = Vec::with_capacity(alloc, found.len())?;
    for one in found {
        let (answer, ids) = table_answers(
            alloc,
            local,
            one.target,
            question,
            common,
            one.ids.as_slice(),
        )?;
        common = answer;
        matching.push(InModule {
            target: one.target,
            ids,
        })?;
    }
    Ok((common, matching))
}

/// The table of the first of these candidates, and another if there is none.
fn first_table<'b, 't>(other: &'b TableRef<'t>, found: &'b [InModule<'b, 't>]) -> &'b TableRef<'t>
    ensures { result.now ≡ model.first_table other.now (map found_view found.now) }
{
    for one in found {
        if !one.ids.is_empty() {
            return one.target.table();
        }
    }
    other
}
