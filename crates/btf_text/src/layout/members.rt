//! The members of a structure or a union, one after another.

use crate::error::TextError;
use crate::layout::column::Columns;
use crate::layout::declarator::Declarator;
use crate::layout::group::{Group, Place};
use crate::layout::member::{
    is_nameless, member_name, write_closing, write_enumeration, write_plain,
};
use crate::layout::page::Page;
use crate::layout::progress::Progress;
use crate::layout::type_text::keyword;
use btf_plain::BtfMember;
use btf_records::BtfType;
use std::fmt::Write;

/// The maximum nesting depth of structures without a name that are written.
const DEPTH_LIMIT: u32 = 16;

/// A structure or union that is being written.
#[derive(Clone, Copy)]
pub struct Level<'a> {
    /// The structure or union itself.
    pub group: Group<'a>,
    /// Its offset in the outermost structure, in bytes.
    pub base: u64,
    /// The number of tabs before its members.
    pub indent: usize,
    /// The columns of its lines.
    pub columns: Columns,
    /// Whether the outermost one is a union.
    is_in_union: bool,
    /// The remaining nesting depth of structures without a name.
    depth: u32,
}

impl<'a> Level<'a> {
    ghost use Rattle.std.specs.Prelude.{◌≡◌, ◌+◌, IfSome};

    /// The outermost structure or union.
    pub fn outermost(group: Group<'a>) -> Level<'a> {
        Level {
            group,
            base: 0,
            indent: 1,
            columns: Columns::of(group.is_union, 0),
            is_in_union: group.is_union,
            depth: DEPTH_LIMIT,
        }
    }

    /// A structure or union that is the type of a member; None if that would be too deep.
    fn inner(&self, group: Group<'a>, place: &Place) -> Option<Level<'a>>
        ensures { IfSome result (λ inner. inner.depth + 1 ≡ self.now.depth) }
    {
        let depth = self.depth.checked_sub(1)?;
        Some(Level {
            group,
            base: self.base.saturating_add(place.byte),
            indent: self.indent.saturating_add(1),
            columns: Columns::of(self.is_in_union, self.indent),
            is_in_union: self.is_in_union,
            depth,
        })
    }
}

/// Writes the lines of the members of a structure, and returns their sums.
#[cycle(members)]
pub fn write_struct<'a, W: Write>(
    page: &mut Page<'a, W>,
    level: &Level<'a>,
) -> Result<Progress, TextError> {
    let mut progress = Progress::new(level.group.bits());
    for (index, member) in level.group.members.iter().enumerate() {
        let place = level.group.place(page.table, index, member)?;
        progress.step(page, level, &place)?;
        progress.set_padding(page.padding_of(member.btf_type)?);
        write_member(page, level, member, &place)?;
    }
    progress.end(page, level)?;
    Ok(progress)
}

/// Writes the lines of the members of a union. The remarks on cache lines begin anew with each member, and after the
/// last.
#[cycle(members)]
pub fn write_union<'a, W: Write>(
    page: &mut Page<'a, W>,
    level: &Level<'a>,
) -> Result<(), TextError> {
    let cache_line = page.cache_line();
    for (index, member) in level.group.members.iter().enumerate() {
        let place = level.group.place(page.table, index, member)?;
        write_member(page, level, member, &place)?;
        page.set_cache_line(cache_line);
    }
    Ok(())
}

/// Writes a member: its line, or the lines of its type if that has no name.
#[cycle(members)]
fn write_member<'a, W: Write>(
    page: &mut Page<'a, W>,
    level: &Level<'a>,
    member: &BtfMember,
    place: &Place,
) -> Result<(), TextError> {
    let table = page.table;
    let declarator = Declarator::of(page.alloc, table, member.btf_type)?;
    let name = member_name(table, member)?;
    let base_type = table.type_by_id(declarator.base)?;
    page.indent(level.indent)?;
    if is_nameless(table, base_type)? && write_nested(page, level, base_type, place)? {
        write_closing(page, level, &declarator, name.as_str(), place)
    } else {
        write_plain(page, level, &declarator, name.as_str(), place)
    }
}

/// Writes the lines of a type without a name, up to the parenthesis that closes it. If the type has no lines, or they
/// would be too deep or too many, it writes nothing and returns false.
#[cycle(members)]
fn write_nested<'a, W: Write>(
    page: &mut Page<'a, W>,
    level: &Level<'a>,
    btf_type: &'a BtfType,
    place: &Place,
) -> Result<bool, TextError> {
    if write_enumeration(page, level.indent, btf_type)? {
        return Ok(true);
    }
    let Some(group) = Group::of(btf_type) else {
        return Ok(false);
    };
    let Some(inner) = level.inner(group, place) else {
        return Ok(false);
    };
    if !page.allows_nested(group.members.len()) {
        return Ok(false);
    }
    let keyword = keyword(btf_type);
    writeln!(page.out, "{keyword} {{")?;
    if group.is_union {
        write_union(page, &inner)?;
    } else {
        write_struct(page, &inner)?;
    }
    page.indent(level.indent)?;
    page.out.write_str("}")?;
    Ok(true)
}
