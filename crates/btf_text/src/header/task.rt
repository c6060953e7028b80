//! The parts of a declaration, which an explicit stack has, whatever the depth of types in types.

use crate::error::TextError;
use crate::header::declaration::write_rest;
use crate::header::draft::Draft;
use crate::header::members::{Members, end_member, write_next_members};
use crate::header::params::{Params, write_next_param};
use std::fmt::Write;

/// What a declaration declares.
#[derive(Clone, Copy, Drop)]
pub enum Label {
    /// A member or a parameter with the name at this string offset; 0 if it has none.
    Item(u32),
    /// The TYPEDEF of this id.
    Typedef(u32),
}

/// A type and what is declared with it.
#[derive(Clone, Copy, Drop)]
pub struct Declaration {
    /// The id of the type.
    pub type_id: u32,
    pub label: Label,
    /// The number of tabs before the line.
    pub level: usize,
}

/// A part of a declaration.
#[derive(Clone, Copy, Drop)]
pub enum Task<'a> {
    /// The part of a declaration after its base, which is written.
    AfterBase(Declaration),
    /// The next member of a STRUCT or UNION.
    Members(Members<'a>),
    /// The next parameter of a prototype.
    Params(Params<'a>),
    /// The end of a member's declaration, with the number of bits of a bit-field; 0 for another member.
    EndMember(u64),
    /// The parenthesis that closes pointers.
    Close,
    /// The length of an array.
    Length(u32),
}

/// Writes the tasks of a draft, and the tasks that they add, until none is left.
pub fn write_tasks<W: Write>(draft: &mut Draft<'_, W>) -> Result<(), TextError> {
    for _ in 0..u64::MAX {
        let Some(task) = draft.tasks.pop() else {
            return Ok(());
        };
        draft.count_step()?;
        write_task(draft, task)?;
    }
    Err(TextError::TooLong)
}

/// Writes a task.
fn write_task<'a, W: Write>(draft: &mut Draft<'a, W>, task: Task<'a>) -> Result<(), TextError> {
    match task {
        Task::AfterBase(declaration) => write_rest(draft, &declaration),
        Task::Members(members) => write_next_members(draft, &members),
        Task::Params(params) => write_next_param(draft, &params),
        Task::EndMember(bits) => end_member(draft, bits),
        Task::Close => {
            draft.out.write_str(")")?;
            Ok(())
        }
        Task::Length(len) => {
            write!(draft.out, "[{len}]")?;
            Ok(())
        }
    }
}
