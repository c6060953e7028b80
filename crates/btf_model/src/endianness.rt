//! The byte order of a blob, and words in it.

ghost use Rattle.std.specs.Prelude.{◌≡◌};
ghost use Rattle.btf_model.specs.Word.{half, half_of, word, word_of};

/// The byte order of a blob: the byte order of the machine that its program is for.
#[derive(Clone, Copy, Debug, Default, PartialEq, Eq)]
pub enum Endianness {
    /// The lowest byte comes first.
    #[default]
    Little,
    /// The highest byte comes first.
    Big,
}

impl Endianness {
    /// The number of two bytes.
    pub fn read_u16(self, bytes: [u8; 2]) -> u16
        ensures { result ≡ half_of self bytes }
    {
        match self {
            Endianness::Little => u16::from_le_bytes(bytes),
            Endianness::Big => u16::from_be_bytes(bytes),
        }
    }

    /// The two bytes of a number.
    pub fn write_u16(self, value: u16) -> [u8; 2]
        ensures { result ≡ half self value }
    {
        match self {
            Endianness::Little => u16::to_le_bytes(value),
            Endianness::Big => u16::to_be_bytes(value),
        }
    }

    /// The number of four bytes.
    pub fn read_u32(self, bytes: [u8; 4]) -> u32
        ensures { result ≡ word_of self bytes }
    {
        match self {
            Endianness::Little => u32::from_le_bytes(bytes),
            Endianness::Big => u32::from_be_bytes(bytes),
        }
    }

    /// The four bytes of a number.
    pub fn write_u32(self, value: u32) -> [u8; 4]
        ensures { result ≡ word self value }
    {
        match self {
            Endianness::Little => u32::to_le_bytes(value),
            Endianness::Big => u32::to_be_bytes(value),
        }
    }
}
