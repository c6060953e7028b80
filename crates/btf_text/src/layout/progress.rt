//! The progress of writing the members of a structure.

use crate::error::TextError;
use crate::layout::group::Place;
use crate::layout::hole::{Hole, Pass};
use crate::layout::members::Level;
use crate::layout::page::{Page, plural};
use std::fmt::Write;

/// The progress of writing the members of a structure, and their sums.
#[derive(Clone, Copy)]
pub struct Progress {
    pass: Pass,
    /// The first byte of the last member.
    last: Option<u64>,
    /// The padding at the end of the last member's type, in bytes.
    padding: u64,
    /// The sum of the sizes of the members that are no bit-fields, in bytes.
    pub bytes: u64,
    /// The sum of the sizes of the bit-fields, in bits.
    pub bits: u64,
    /// The number of holes of bytes.
    pub holes: u32,
    /// The sum of the bytes of these holes.
    pub hole_bytes: u64,
    /// The number of holes of bits.
    pub bit_holes: u32,
    /// The sum of the bits of these holes.
    pub hole_bits: u64,
    /// The number of members whose type has padding at its end.
    pub paddings: u32,
    /// The sum of the bytes of this padding.
    pub padding_bytes: u64,
    /// The padding at the end of the structure.
    pub end: Hole,
}

impl Progress {
    /// The progress before the first member of a structure that has this many bits.
    pub fn new(bits: u64) -> Progress {
        Progress {
            pass: Pass::new(bits),
            last: None,
            padding: 0,
            bytes: 0,
            bits: 0,
            holes: 0,
            hole_bytes: 0,
            bit_holes: 0,
            hole_bits: 0,
            paddings: 0,
            padding_bytes: 0,
            end: Hole { bytes: 0, bits: 0 },
        }
    }

    /// Writes the remarks between the last member and the next one, which is at this position.
    pub fn step<W: Write>(
        &mut self,
        page: &mut Page<'_, W>,
        level: &Level<'_>,
        place: &Place,
    ) -> Result<(), TextError> {
        let hole = self.pass.step(place);
        if write_remarks(page, level.indent, self.padding, &hole)? {
            page.out.write_str("\n")?;
        }
        if self.last.unwrap_or(0) != place.byte {
            let byte = level.base.saturating_add(place.byte);
            page.write_boundary(byte, level.indent)?;
        }
        self.last = Some(place.byte);
        self.add(place, &hole);
        Ok(())
    }

    /// Adds a member, and the hole before it.
    fn add(&mut self, place: &Place, hole: &Hole) {
        if place.bits > 0 {
            self.bits = self.bits.saturating_add(place.bits);
        } else {
            self.bytes = self.bytes.saturating_add(place.size);
        }
        if hole.bytes > 0 {
            self.holes = self.holes.saturating_add(1);
            self.hole_bytes = self.hole_bytes.saturating_add(hole.bytes);
        }
        if hole.bits > 0 {
            self.bit_holes = self.bit_holes.saturating_add(1);
            self.hole_bits = self.hole_bits.saturating_add(hole.bits);
        }
    }

    /// Sets the padding at the end of the current member's type, in bytes.
    pub fn set_padding(&mut self, padding: u64) {
        self.padding = padding;
        if padding > 0 {
            self.paddings = self.paddings.saturating_add(1);
            self.padding_bytes = self.padding_bytes.saturating_add(padding);
        }
    }

    /// Writes the remarks after the last member.
    pub fn end<W: Write>(
        &mut self,
        page: &mut Page<'_, W>,
        level: &Level<'_>,
    ) -> Result<(), TextError> {
        self.end = self.pass.padding(level.group.bits());
        write_remarks(
            page,
            level.indent,
            self.padding,
            &Hole { bytes: 0, bits: 0 },
        )?;
        Ok(())
    }
}

/// Writes the remarks after a member: the padding of its type, and the hole after it. Returns whether there are any.
fn write_remarks<W: Write>(
    page: &mut Page<'_, W>,
    indent: usize,
    padding: u64,
    hole: &Hole,
) -> Result<bool, TextError> {
    let (bits, bytes) = (hole.bits, hole.bytes);
    if padding == 0 && bits == 0 && bytes == 0 {
        return Ok(false);
    }
    page.out.write_str("\n")?;
    if padding > 0 {
        let end = plural(padding);
        page.indent(indent)?;
        writeln!(
            page.out,
            "/* XXX last struct has {padding} byte{end} of padding */"
        )?;
    }
    if bits > 0 {
        let end = plural(bits);
        page.indent(indent)?;
        writeln!(page.out, "/* XXX {bits} bit{end} hole, try to pack */")?;
    }
    if bytes > 0 {
        let end = plural(bytes);
        page.indent(indent)?;
        writeln!(page.out, "/* XXX {bytes} byte{end} hole, try to pack */")?;
    }
    Ok(true)
}
