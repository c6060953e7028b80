//! The remarks at the end of a structure.

use crate::error::TextError;
use crate::layout::group::Group;
use crate::layout::page::{CACHE_LINE, Page};
use crate::layout::progress::Progress;
use std::fmt;
use std::fmt::Write;

/// Writes the size of a structure, the sums of its members and holes, and the padding after the last member.
pub fn write_stats<W: Write>(
    page: &mut Page<'_, W>,
    group: &Group<'_>,
    progress: &Progress,
) -> Result<(), TextError> {
    let (size, members) = (group.size, group.members.len());
    let cache_lines = u64::from(size).div_ceil(CACHE_LINE);
    write!(
        page.out,
        "\n\t/* size: {size}, cachelines: {cache_lines}, members: {members} */\n"
    )?;
    if progress.hole_bytes > 0 || progress.hole_bits > 0 {
        write_sums(page.out, progress)?;
    }
    write_ends(page.out, progress)?;
    let rest = u64::from(size) % CACHE_LINE;
    if rest > 0 {
        write!(page.out, "\t/* last cacheline: {rest} bytes */\n")?;
    }
    Ok(())
}

/// Writes the sums of the members of a structure that has holes, and the number of holes.
fn write_sums<W: Write>(out: &mut W, progress: &Progress) -> fmt::Result {
    let (bytes, holes, hole_bytes) = (progress.bytes, progress.holes, progress.hole_bytes);
    if bytes > 0 {
        write!(out, "\t/* sum members: {bytes}")?;
        if hole_bytes > 0 {
            write!(out, ", holes: {holes}, sum holes: {hole_bytes}")?;
        }
        out.write_str(" */\n")?;
    }
    if progress.bits > 0 {
        write_bit_sums(out, progress)?;
    }
    Ok(())
}

/// Writes the sums of the bit-fields of a structure that has holes.
fn write_bit_sums<W: Write>(out: &mut W, progress: &Progress) -> fmt::Result {
    let (bits, holes, hole_bits) = (progress.bits, progress.bit_holes, progress.hole_bits);
    write!(out, "\t/* sum bitfield members: {bits} bits")?;
    if hole_bits > 0 {
        write!(out, ", bit holes: {holes}, sum bit holes: {hole_bits} bits")?;
    } else {
        let whole = bits / 8;
        write!(out, " ({whole} bytes)")?;
    }
    out.write_str(" */\n")
}

/// Writes the padding at the end of a structure, and at the ends of its members' types.
fn write_ends<W: Write>(out: &mut W, progress: &Progress) -> fmt::Result {
    let (bytes, bits) = (progress.end.bytes, progress.end.bits);
    let (paddings, padding_bytes) = (progress.paddings, progress.padding_bytes);
    if bytes > 0 {
        write!(out, "\t/* padding: {bytes} */\n")?;
    }
    if paddings > 0 {
        write!(
            out,
            "\t/* paddings: {paddings}, sum paddings: {padding_bytes} */\n"
        )?;
    }
    if bits > 0 {
        write!(out, "\t/* bit_padding: {bits} bits */\n")?;
    }
    Ok(())
}
