//! How the bits of an integer are read.

ghost use Rattle.std.specs.Prelude.{◌≡◌};
ghost use Rattle.btf_plain.specs.Encoding.{encoding_number, encoding_of};

/// How the bits of an INT are read, as in the kernel's documentation, "BTF_KIND_INT".
#[derive(Clone, Debug, Eq, PartialEq, Drop)]
pub enum IntEncoding {
    /// An unsigned number.
    None = 0,
    /// A number with a sign.
    Signed = 1,
    /// A character.
    Char = 2,
    /// A truth value.
    Bool = 4,
    /// An encoding that has no name.
    Unknown = 5,
}

impl IntEncoding {
    /// The number of the encoding.
    pub(crate) fn number(self) -> u32
        ensures { result ≡ encoding_number self }
    {
        self as u32
    }
}

impl From<u32> for IntEncoding {
    ghost from_gives = { λ number encoding. encoding ≡ encoding_of number };

    /// The encoding of a number. Numbers other than 0, 1, 2 and 4 are `Unknown`.
    fn from(number: u32) -> Self {
        match number {
            0 => IntEncoding::None,
            1 => IntEncoding::Signed,
            2 => IntEncoding::Char,
            4 => IntEncoding::Bool,
            _ => IntEncoding::Unknown,
        }
    }
}
