//! The definitions of structures and unions.

use crate::error::TextError;
use crate::header::declaration::{
    Base, has_no_tasks, read_chain, write_around, write_known, write_whole,
};
use crate::header::draft::Draft;
use crate::header::padding::{Gap, Next, round_up, write_padding};
use crate::header::task::{Declaration, Label, Task};
use crate::layout::{Group, keyword};
use btf_plain::BtfMember;
use btf_records::BtfType;
use std::fmt::Write;

/// The members of a STRUCT or UNION that are written next.
#[derive(Clone, Copy, Drop)]
pub struct Members<'a> {
    group: Group<'a>,
    /// The index of the next member.
    index: usize,
    /// The first bit after the last member; in a UNION, after the largest one.
    end: u64,
    /// Whether the last member is a bit-field.
    is_after_bit_field: bool,
    /// Whether the alignments of the members' types do not apply.
    is_packed: bool,
    /// The alignment in bytes.
    alignment: u64,
    /// The number of tabs before the first line.
    level: usize,
}

impl Members<'_> {
    /// The declaration of a member.
    fn declaration_of(&self, member: &BtfMember) -> Declaration {
        Declaration {
            type_id: member.btf_type,
            label: Label::Item(member.name_offset),
            level: self.level.saturating_add(1),
        }
    }
}

/// Begins the definition of a STRUCT or UNION. Its members come next.
pub fn begin_members<'a, W: Write>(
    draft: &mut Draft<'a, W>,
    type_id: u32,
    btf_type: &'a BtfType,
    level: usize,
) -> Result<(), TextError> {
    let Some(group) = Group::of(btf_type) else {
        return Ok(());
    };
    draft.out.write_str(keyword(btf_type))?;
    if btf_type.name_offset() != 0 {
        draft.out.write_str(" ")?;
        draft.write_type_name(type_id)?;
    }
    draft.out.write_str(" {")?;
    let members = Members {
        group,
        index: 0,
        end: 0,
        is_after_bit_field: false,
        is_packed: is_packed(draft, &group),
        alignment: draft.alignment_of(type_id),
        level,
    };
    draft.tasks.push(Task::Members(members))?;
    Ok(())
}

/// Whether a STRUCT or UNION has to be packed: a member is at no multiple of its alignment, or the size is no multiple
/// of the largest alignment.
fn is_packed<W: Write>(draft: &Draft<'_, W>, group: &Group<'_>) -> bool {
    let mut largest = 1;
    for member in group.members {
        let alignment = draft.alignment_of(member.btf_type).max(1);
        let bits = alignment.saturating_mul(8).max(1);
        if group.bit_field_size(member) == 0 && group.bit_offset(member) % bits != 0 {
            return true;
        }
        largest = alignment.max(largest);
    }
    u64::from(group.size) % largest.max(1) != 0
}

/// Writes the next members of a STRUCT or UNION, up to the first whose declaration has tasks, or the brace after the
/// last one.
pub fn write_next_members<'a, W: Write>(
    draft: &mut Draft<'a, W>,
    state: &Members<'a>,
) -> Result<(), TextError> {
    let mut state = *state;
    for member in state.group.members.get(state.index..).unwrap_or(&[]) {
        if !write_member(draft, &mut state, member)? {
            return Ok(());
        }
    }
    end_members(draft, &state)
}

/// Writes the next member of a STRUCT or UNION, and returns whether it has no tasks.
fn write_member<'a, W: Write>(
    draft: &mut Draft<'a, W>,
    state: &mut Members<'a>,
    member: &BtfMember,
) -> Result<bool, TextError> {
    let bits = begin_member(draft, state, member)?;
    if !write_known(draft, member)? {
        let declaration = state.declaration_of(member);
        let base = read_chain(draft, member.btf_type)?;
        if !has_no_tasks(draft, &base) {
            write_with_tasks(draft, state, bits, &base, &declaration)?;
            return Ok(false);
        }
        write_whole(draft, &base, &declaration)?;
    }
    end_member(draft, bits)?;
    // The end of this member, and the next one.
    draft.count_steps(2)?;
    Ok(true)
}

/// Writes the declaration of a member that has tasks. The end of the member, which is a bit-field of this number of
/// bits or none, and the further members come after them.
fn write_with_tasks<'a, W: Write>(
    draft: &mut Draft<'a, W>,
    next: &Members<'a>,
    bits: u64,
    base: &Base<'a>,
    declaration: &Declaration,
) -> Result<(), TextError> {
    draft.tasks.push(Task::Members(*next))?;
    draft.tasks.push(Task::EndMember(bits))?;
    write_around(draft, base, declaration)
}

/// The gap before a member.
fn gap_before<W: Write>(draft: &Draft<'_, W>, state: &Members<'_>, member: &BtfMember) -> Gap {
    let bits = state.group.bit_field_size(member);
    let alignment = if state.is_packed {
        1
    } else {
        draft.alignment_of(member.btf_type)
    };
    let next = if bits > 0 {
        Next::BitField {
            bits,
            unit: draft.bits_of(member.btf_type),
        }
    } else {
        Next::Aligned(alignment)
    };
    Gap {
        from: state.end,
        to: state.group.bit_offset(member),
        next,
        alignment,
        is_in_bit_fields: state.is_after_bit_field && bits > 0,
        is_packed: state.is_packed,
    }
}

/// Begins the line of a member, goes on to the members after it, and returns the number of bits of a bit-field, which
/// is 0 for another member.
fn begin_member<W: Write>(
    draft: &mut Draft<'_, W>,
    state: &mut Members<'_>,
    member: &BtfMember,
) -> Result<u64, TextError> {
    draft.count_step()?;
    let level = state.level.saturating_add(1);
    let gap = gap_before(draft, state, member);
    write_padding(draft, &gap, level)?;
    draft.begin_line(level)?;
    let bits = state.group.bit_field_size(member);
    let width = if bits > 0 {
        bits
    } else {
        draft.bits_of(member.btf_type)
    };
    let end = gap.to.saturating_add(width);
    state.index = state.index.saturating_add(1);
    state.end = if state.group.is_union {
        end.max(state.end)
    } else {
        end
    };
    state.is_after_bit_field = bits > 0;
    Ok(bits)
}

/// Ends a member's declaration, with the number of bits of a bit-field, which is 0 for another member. The next line
/// has the semicolon.
pub fn end_member<W: Write>(draft: &mut Draft<'_, W>, bits: u64) -> Result<(), TextError> {
    if bits > 0 {
        write!(draft.out, ": {bits}")?;
    }
    draft.is_after_member = true;
    Ok(())
}

/// Writes the end of a STRUCT or UNION.
fn end_members<W: Write>(draft: &mut Draft<'_, W>, state: &Members<'_>) -> Result<(), TextError> {
    let group = &state.group;
    if !group.is_union {
        let gap = Gap {
            from: state.end,
            to: group.bits(),
            next: Next::Aligned(state.alignment),
            alignment: state.alignment,
            is_in_bit_fields: false,
            is_packed: state.is_packed,
        };
        write_padding(draft, &gap, state.level.saturating_add(1))?;
    }
    if group.size > 0 || !group.members.is_empty() {
        draft.begin_line(state.level)?;
    }
    draft.out.write_str("}")?;
    if state.is_packed {
        draft.out.write_str(" __attribute__((packed))")?;
    }
    if group.is_union {
        write_alignment(draft, state)?;
    }
    Ok(())
}

/// Writes the attribute that makes a UNION as large as it is, if its members are smaller: the least alignment that
/// gives the size. `bpftool` 7.1 leaves the attribute out.
fn write_alignment<W: Write>(
    draft: &mut Draft<'_, W>,
    state: &Members<'_>,
) -> Result<(), TextError> {
    let natural = if state.is_packed { 1 } else { state.alignment };
    let size = state.group.bits();
    if round_up(state.end, natural.saturating_mul(8)) >= size {
        return Ok(());
    }
    let mut alignment = 1u64;
    for _ in 0..32 {
        if round_up(state.end, alignment.saturating_mul(8)) == size {
            write!(draft.out, " __attribute__((aligned({alignment})))")?;
            break;
        }
        alignment = alignment.saturating_mul(2);
    }
    Ok(())
}
