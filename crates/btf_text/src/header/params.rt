//! The parameters of a prototype.

use crate::error::TextError;
use crate::header::declaration::write_declaration;
use crate::header::draft::Draft;
use crate::header::task::{Declaration, Label, Task};
use btf_plain::BtfParam;
use std::fmt::Write;

/// The parameters of a prototype that are written next.
#[derive(Clone, Copy, Drop)]
pub struct Params<'a> {
    params: &'a [BtfParam],
    /// The index of the next parameter.
    index: usize,
    /// The number of tabs before the line.
    level: usize,
}

impl<'a> Params<'a> {
    /// These parameters, on a line with this number of tabs.
    pub fn new(params: &'a [BtfParam], level: usize) -> Params<'a> {
        Params {
            params,
            index: 0,
            level,
        }
    }
}

/// Whether a list of parameters is written as `(void)`: an empty one, and one of `...` alone, which C does not have.
fn is_void(params: &[BtfParam]) -> bool {
    match params {
        [] => true,
        [only] => only.btf_type == 0,
        _ => false,
    }
}

/// Writes the parenthesis that opens a list, or the comma before the next parameter.
fn write_separator<W: Write>(
    draft: &mut Draft<'_, W>,
    state: &Params<'_>,
) -> Result<(), TextError> {
    if state.index == 0 {
        draft.out.write_str("(")?;
    } else if state.index < state.params.len() {
        draft.out.write_str(", ")?;
    }
    Ok(())
}

/// Writes the next parameter of a prototype, or the parenthesis after the last one.
pub fn write_next_param<'a, W: Write>(
    draft: &mut Draft<'a, W>,
    state: &Params<'a>,
) -> Result<(), TextError> {
    write_separator(draft, state)?;
    if is_void(state.params) {
        draft.out.write_str("void)")?;
        return Ok(());
    }
    let Some(param) = state.params.get(state.index) else {
        draft.out.write_str(")")?;
        return Ok(());
    };
    let next = state.index.saturating_add(1);
    if param.btf_type == 0 && next == state.params.len() {
        draft.out.write_str("...)")?;
        return Ok(());
    }
    draft.tasks.push(Task::Params(Params {
        params: state.params,
        index: next,
        level: state.level,
    }))?;
    draft.count_step()?;
    write_declaration(
        draft,
        &Declaration {
            type_id: param.btf_type,
            label: Label::Item(param.name_offset),
            level: state.level,
        },
    )
}
