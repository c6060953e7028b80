//! INT: an integer.

ghost use Rattle.std.specs.Prelude.{◌≡◌, ◌*◌, ◌%◌, ◌^◌, [], ◌∷◌, slice_index, refl};
ghost use Rattle.btf_model.specs.Made as made;
ghost use Rattle.btf_plain.specs.Encoding.{encoding_number, encoding_of, int_data, encoding_bits, offset_bits, size_bits};
ghost use Rattle.btf_plain.specs.declared.kind.BtfKind.TheVariants.{Int};

use crate::encoding::IntEncoding;
use crate::kind::BtfKind;
use crate::record::{Kind, Measured, Record};

/// The kind INT.
pub struct IntKind;

impl Kind for IntKind {
    type Tail = u32;

    const KIND: BtfKind = BtfKind::Int;

    ghost KIND = { Int };

    ghost tail_number = { λ _. refl };

    ghost is_kept = { λ _. refl };
}

impl Measured for IntKind {}

/// An integer (the kernel's documentation, "BTF_KIND_INT"). The word after the third is its data word.
pub type Int = Record<IntKind>;

impl Record<IntKind> {
    /// An integer of `size` bytes, whose bits begin at bit `offset`. The number of bits is 8 times the size. The bit
    /// offset and the number of bits are stored modulo 256.
    pub fn new(name_offset: u32, size: u32, encoding: IntEncoding, offset: u32) -> Self
        ensures { result ≡ made.int name_offset size
            (int_data (encoding_number encoding) (offset % 2 ^ 8) (size * 8 % 2 ^ 8)) }
    {
        let bits = size.wrapping_mul(8) & 0xff;
        let word = encoding.number() << 24 | (offset & 0xff) << 16 | bits;
        Self::of(name_offset, (BtfKind::Int as u32) << 24, size, word)
    }

    /// The same record with this data word.
    pub fn with_word(self, word: u32) -> Self
        ensures { result ≡ record self { tail = word ∷ [] } }
    {
        Record { tail: word, ..self }
    }

    /// The data word: encoding, bit offset and number of bits.
    pub fn word(&self) -> u32
        ensures { self.now.tail ≡ result ∷ [] }
    {
        self.tail
    }

    /// How the bits are read: bits 24 to 27 of the data word.
    pub fn encoding(&self) -> IntEncoding
        ensures { result ≡ encoding_of (encoding_bits (slice_index self.now.tail 0)) }
    {
        IntEncoding::from(self.tail >> 24 & 0xf)
    }

    /// The bit at which the integer begins: bits 16 to 23 of the data word.
    pub fn offset(&self) -> u32
        ensures { result ≡ offset_bits (slice_index self.now.tail 0) }
    {
        self.tail >> 16 & 0xff
    }

    /// The number of bits: bits 0 to 7 of the data word.
    pub fn bits(&self) -> u32
        ensures { result ≡ size_bits (slice_index self.now.tail 0) }
    {
        self.tail & 0xff
    }
}
