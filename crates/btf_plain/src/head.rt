//! The three words that each record begins with.

ghost use Rattle.std.specs.Prelude.{◌≡◌, ◌<◌, ◌^◌, ◌+◌, ◌*◌, length, MatchResult};
ghost use Rattle.btf_model.specs.Record as model;
ghost use Rattle.btf_model.specs.Record.{kind_number, tail_words};
ghost use Rattle.btf_plain.specs.Kind as kinds;

use crate::bytes::split_word;
use crate::error::BtfError;
use crate::kind::BtfKind;
use btf_model::Endianness;

/// The length in bytes of the three words.
const HEAD_LEN: usize = 12;

/// The three words that each record begins with (the kernel's documentation, "Type Encoding", `struct btf_type`).
#[derive(Clone, Copy)]
pub struct Head {
    /// The string offset of the name.
    pub name: u32,
    /// The info word: the kind, the kind flag, and vlen.
    pub info: u32,
    /// A size in bytes, the id of a type, or unused.
    pub third: u32,
}

impl Head {
    ghost use Rattle.btf_plain.specs.Head.{IsHead};

    /// The head of the record at the front of bytes, and the bytes after it. Fails with `InvalidTypeInfo` if the bytes
    /// are too few.
    pub fn read(bytes: &[u8], endianness: Endianness) -> Result<(Head, &[u8]), BtfError>
        ensures { MatchResult result
            (λ x. IsHead endianness bytes.now x.0 x.1.now)
            (λ e. (length bytes.now < 12) × (e ≡ BtfError.InvalidTypeInfo)) }
    {
        // With this check the compiler leaves out those of the three words.
        if bytes.len() < HEAD_LEN {
            return Err(BtfError::InvalidTypeInfo);
        }
        let (name, rest) = split_word(bytes, endianness)?;
        let (info, rest) = split_word(rest, endianness)?;
        let (third, rest) = split_word(rest, endianness)?;
        Ok((Head { name, info, third }, rest))
    }

    /// The number of the record's kind.
    pub fn kind(&self) -> u32
        ensures { result ≡ kind_number self.now.info }
    {
        self.info >> 24 & 0x1f
    }

    /// The number of items, for the kinds that have a list.
    pub fn vlen(&self) -> usize
        ensures value { result ≡ model.vlen self.now.info }
        ensures small { result < 2 ^ 16 }
    {
        (self.info & 0xffff) as usize
    }

    /// The length in bytes of a record of this kind with this head.
    pub fn record_len(&self, kind: BtfKind) -> usize
        ensures { result ≡ 12 + 4 * tail_words (kinds.kind kind) (model.vlen self.now.info) }
    {
        let words = match kind {
            BtfKind::Int | BtfKind::Var | BtfKind::DeclTag => 1,
            BtfKind::Array => 3,
            BtfKind::Enum | BtfKind::FuncProto => 2 * self.vlen(),
            BtfKind::Struct | BtfKind::Union | BtfKind::DataSec | BtfKind::Enum64 => 3
                * self.vlen(),
            _ => 0,
        };
        HEAD_LEN + 4 * words
    }
}
