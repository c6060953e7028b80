//! Holes: bytes and bits between the members of a structure.

use crate::layout::group::Place;

/// The hole before a member.
#[derive(Clone, Copy)]
pub struct Hole {
    /// The number of bytes.
    pub bytes: u64,
    /// The number of further bits, between bit-fields.
    pub bits: u64,
}

/// A pass over the members of a structure, in order.
#[derive(Clone, Copy)]
pub struct Pass {
    /// The end of the last member, in bits.
    seen: u64,
    /// Whether the last member is a bit-field.
    in_bit_field: bool,
    /// The end of the integer that contains the last bit-field, in bits.
    integer_end: u64,
    /// The size of the integer in bits.
    integer_size: u64,
}

impl Pass {
    /// A pass over a structure that has this many bits.
    pub fn new(bits: u64) -> Pass {
        Pass {
            seen: 0,
            in_bit_field: false,
            integer_end: bits,
            integer_size: 0,
        }
    }

    /// Advances to a member, and returns the hole before it. A member that begins before the end of the last one has no
    /// hole.
    pub fn step(&mut self, place: &Place) -> Hole {
        let start = place.bit;
        let mut hole = Hole { bytes: 0, bits: 0 };
        if self.in_bit_field {
            let end = start.min(self.integer_end);
            hole.bits = end.saturating_sub(self.seen);
            self.seen = end;
        }
        if place.bits == 0 {
            hole.bytes = (start / 8).saturating_sub(self.seen / 8);
            self.leave_bit_fields(start.saturating_add(place.size.saturating_mul(8)));
        } else {
            let aligned = place.byte.saturating_mul(8);
            if self.seen < aligned && aligned <= start {
                hole.bytes = place.byte.saturating_sub(self.seen / 8);
                self.seen = aligned;
            }
            hole.bits = hole.bits.saturating_add(start.saturating_sub(self.seen));
            self.enter_bit_field(place, start.saturating_add(place.bits));
        }
        hole
    }

    /// The last member is no bit-field, and ends at this bit.
    fn leave_bit_fields(&mut self, end: u64) {
        self.seen = end;
        self.in_bit_field = false;
        self.integer_size = 0;
        self.integer_end = end;
    }

    /// The last member is a bit-field that ends at this bit. Its integer is a new one if it ends after the last one, or
    /// is larger.
    fn enter_bit_field(&mut self, place: &Place, end: u64) {
        let size = place.size.saturating_mul(8);
        self.seen = end;
        self.in_bit_field = true;
        if end > self.integer_end || size > self.integer_size {
            self.integer_size = size;
            self.integer_end = place.byte.saturating_mul(8).saturating_add(size);
            if end > self.integer_end {
                self.integer_end = self.integer_end.saturating_add(size);
            }
        }
    }

    /// The padding at the end of a structure that has this many bits.
    pub fn padding(&self, bits: u64) -> Hole {
        let mut hole = Hole { bytes: 0, bits: 0 };
        let mut seen = self.seen;
        if self.in_bit_field {
            let end = bits.min(self.integer_end);
            hole.bits = end.saturating_sub(seen);
            seen = end;
        }
        hole.bytes = (bits / 8).saturating_sub(seen / 8);
        hole
    }
}
