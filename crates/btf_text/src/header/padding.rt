//! Bit-fields without a name, which fill gaps between members.

use crate::error::TextError;
use crate::header::draft::Draft;
use std::fmt::Write;

/// An integer type of C whose bit-fields fill gaps.
#[derive(Clone, Copy)]
struct Filler {
    name: &'static str,
    /// The number of bits.
    bits: u64,
}

/// The fillers, the largest first.
const FILLERS: [Filler; 4] = [
    Filler {
        name: "long",
        bits: 64,
    },
    Filler {
        name: "int",
        bits: 32,
    },
    Filler {
        name: "short",
        bits: 16,
    },
    Filler {
        name: "char",
        bits: 8,
    },
];

/// What comes after a gap.
#[derive(Clone, Copy)]
pub enum Next {
    /// A member of this alignment in bytes, or the end of a structure of this alignment.
    Aligned(u64),
    /// A bit-field of this number of bits, in an integer of `unit` bits.
    BitField { bits: u64, unit: u64 },
}

/// A gap before a member, or before the end of a structure.
#[derive(Clone, Copy)]
pub struct Gap {
    /// The first bit after the last member.
    pub from: u64,
    /// The first bit of what comes next.
    pub to: u64,
    pub next: Next,
    /// The alignment of what comes next, in bytes.
    pub alignment: u64,
    /// Whether the last member and the next one are bit-fields.
    pub is_in_bit_fields: bool,
    /// Whether the structure is packed.
    pub is_packed: bool,
}

/// The bit-fields that `bpftool` writes in a gap.
#[derive(Clone, Copy)]
struct Filling {
    filler: Filler,
    /// The bits of a first bit-field, up to a boundary of the filler; 0 for a mark of the boundary.
    first: Option<u64>,
    /// How many whole fillers follow.
    count: u64,
    /// The bits of the last bit-field; 0 if there is none.
    rest: u64,
}

/// The least multiple of a number of bits from a bit on.
pub fn round_up(bit: u64, bits: u64) -> u64 {
    let unit = bits.max(1);
    bit.div_ceil(unit).saturating_mul(unit)
}

/// The largest filler for which a gap has a boundary; otherwise the smallest.
fn filler_of(gap: &Gap) -> Filler {
    for filler in FILLERS {
        if round_up(gap.from, filler.bits) <= gap.to {
            return filler;
        }
    }
    FILLERS[3]
}

/// The smallest filler of at least this number of bits; the largest if there is none.
fn smallest(bits: u64) -> Filler {
    for filler in FILLERS.iter().rev() {
        if filler.bits >= bits {
            return *filler;
        }
    }
    FILLERS[0]
}

impl Gap {
    /// Whether `bpftool` writes the boundary of a filler in the gap.
    fn has_boundary(&self, boundary: u64) -> bool {
        if boundary <= self.from || boundary > self.to {
            return false;
        }
        let natural = round_up(self.from, self.alignment.saturating_mul(8));
        let (before, after) = (boundary - self.from, self.to - boundary);
        self.is_in_bit_fields || after == 0 && natural != boundary || after != 0 && after <= before
    }

    /// The bit-fields that `bpftool` writes in the gap.
    fn filling(&self) -> Filling {
        let filler = filler_of(self);
        let boundary = round_up(self.from, filler.bits);
        let first = match self.has_boundary(boundary) {
            true if self.is_in_bit_fields => Some(boundary.saturating_sub(self.from)),
            true => Some(0),
            false => None,
        };
        let start = if boundary <= self.to {
            boundary
        } else {
            self.from
        };
        let bits = self.to.saturating_sub(start);
        let unit = filler.bits.max(1);
        Filling {
            filler,
            first,
            count: bits / unit,
            rest: bits % unit,
        }
    }

    /// The first bit of a bit-field after a bit: it is in one integer of its type, unless the structure is packed.
    fn place_bit_field(&self, from: u64, bits: u64, unit: u64) -> u64 {
        let next = round_up(from, unit);
        if self.is_packed || from.saturating_add(bits) <= next || from == next {
            from
        } else {
            next
        }
    }

    /// The first bit of what comes next after a bit, as a compiler places it.
    fn place_next(&self, from: u64) -> u64 {
        match self.next {
            Next::Aligned(_) if self.is_packed => round_up(from, 8),
            Next::Aligned(alignment) => round_up(from, alignment.saturating_mul(8)),
            Next::BitField { bits, unit } => self.place_bit_field(from, bits, unit),
        }
    }

    /// The bit after a filling, as a compiler places it.
    fn end_of(&self, filling: &Filling) -> u64 {
        let unit = filling.filler.bits;
        let mut end = match filling.first {
            Some(0) => round_up(self.from, unit),
            Some(bits) => self
                .place_bit_field(self.from, bits, unit)
                .saturating_add(bits),
            None => self.from,
        };
        if filling.count > 0 {
            let bits = filling.count.saturating_mul(unit);
            end = self.place_bit_field(end, unit, unit).saturating_add(bits);
        }
        if filling.rest > 0 {
            let last = smallest(filling.rest).bits;
            end = self
                .place_bit_field(end, filling.rest, last)
                .saturating_add(filling.rest);
        }
        end
    }
}

/// Fills a gap, if there is one: most members have none before them.
#[inline(always)]
pub fn write_padding<W: Write>(
    draft: &mut Draft<'_, W>,
    gap: &Gap,
    level: usize,
) -> Result<(), TextError> {
    if gap.from < gap.to {
        fill(draft, gap, level)?;
    }
    Ok(())
}

/// Writes the bit-fields that fill a gap: those that `bpftool` writes, if a compiler then places what comes next where
/// it is, and otherwise bit-fields that end at every boundary.
fn fill<W: Write>(draft: &mut Draft<'_, W>, gap: &Gap, level: usize) -> Result<(), TextError> {
    let filling = gap.filling();
    if gap.place_next(gap.end_of(&filling)) == gap.to {
        write_filling(draft, &filling, level)
    } else {
        write_pieces(draft, gap, level)
    }
}

/// Writes a filling.
fn write_filling<W: Write>(
    draft: &mut Draft<'_, W>,
    filling: &Filling,
    level: usize,
) -> Result<(), TextError> {
    let filler = filling.filler;
    if let Some(bits) = filling.first {
        write_filler(draft, filler, bits, level)?;
    }
    for _ in 0..filling.count {
        draft.count_step()?;
        write_filler(draft, filler, filler.bits, level)?;
    }
    if filling.rest > 0 {
        write_filler(draft, smallest(filling.rest), filling.rest, level)?;
    }
    Ok(())
}

/// The next piece of a gap from a bit on, and its number of bits: a whole filler at its boundary, or bits of one byte.
fn next_piece(from: u64, to: u64) -> (Filler, u64) {
    let left = to.saturating_sub(from);
    for filler in FILLERS {
        if round_up(from, filler.bits) == from && filler.bits <= left {
            return (filler, filler.bits);
        }
    }
    (FILLERS[3], left.min(8 - from % 8))
}

/// Writes bit-fields that fill a gap wherever a compiler begins: each is in one byte, or is a whole filler at its
/// boundary.
fn write_pieces<W: Write>(
    draft: &mut Draft<'_, W>,
    gap: &Gap,
    level: usize,
) -> Result<(), TextError> {
    let mut from = gap.from;
    for _ in 0..u64::MAX {
        if from >= gap.to {
            break;
        }
        draft.count_step()?;
        let (filler, bits) = next_piece(from, gap.to);
        write_filler(draft, filler, bits, level)?;
        from = from.saturating_add(bits);
    }
    Ok(())
}

/// Writes one bit-field without a name.
fn write_filler<W: Write>(
    draft: &mut Draft<'_, W>,
    filler: Filler,
    bits: u64,
    level: usize,
) -> Result<(), TextError> {
    let name = filler.name;
    draft.begin_line(level)?;
    write!(draft.out, "{name}: {bits};")?;
    Ok(())
}
