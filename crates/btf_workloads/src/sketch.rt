//! Bytes of unfinished tables.

use crate::random::Random;
use btf::{BtfKind, Endianness};
use std::alloc::Global;
use std::test::Fail;

/// The words that names consist of.
static WORDS: [&str; 32] = [
    "task", "net", "dev", "alloc", "page", "queue", "sched", "xfrm", "irq", "inode", "buffer",
    "state", "init", "get", "put", "lock", "ops", "skb", "fs", "group", "device", "register",
    "set", "mem", "entry", "list", "tx", "rx", "fn", "ctx", "cfg", "trace",
];

/// Appends words to bytes.
pub fn push_words(bytes: &mut Vec<u8>, words: &[u32], endianness: Endianness) -> Result<(), Fail> {
    for word in words {
        bytes.extend_from_slice(&endianness.write_u32(*word))?;
    }
    Ok(())
}

/// The bytes of the records from id 1 on, and of the strings, the empty one first.
#[derive(Drop)]
pub struct Sketch {
    alloc: Global,
    order: Endianness,
    types: Vec<u8>,
    strings: Vec<u8>,
    /// The id of the last record.
    last: u32,
}

impl Sketch {
    pub fn new(alloc: Global, order: Endianness) -> Result<Self, Fail> {
        let mut strings = Vec::new(alloc);
        strings.push(0)?;
        Ok(Sketch {
            alloc,
            order,
            types: Vec::new(alloc),
            strings,
            last: 0,
        })
    }

    /// The id of the next record.
    pub fn next(&self) -> u32 {
        self.last.wrapping_add(1)
    }

    /// The position of the lowest byte of the next record's third word in the bytes of the table.
    pub fn third_word(&self) -> usize {
        let low = match self.order {
            Endianness::Little => 32,
            Endianness::Big => 35,
        };
        self.types.len().wrapping_add(low)
    }

    /// Appends a record of a kind, with the words of its list or of its tail, and returns its id.
    pub fn record(
        &mut self,
        kind: BtfKind,
        name: u32,
        vlen: u32,
        third: u32,
        tail: &[u32],
    ) -> Result<u32, Fail> {
        let info = ((kind as u32) << 24) | (vlen & 0xffff);
        push_words(&mut self.types, &[name, info, third], self.order)?;
        push_words(&mut self.types, tail, self.order)?;
        self.last = self.next();
        Ok(self.last)
    }

    /// An INT of this number of bytes.
    pub fn int(&mut self, name: u32, bytes: u32) -> Result<u32, Fail> {
        self.record(BtfKind::Int, name, 0, bytes, &[bytes.wrapping_mul(8)])
    }

    /// Appends a text, and returns its offset.
    pub fn string(&mut self, text: &str) -> Result<u32, Fail> {
        let offset = u32::try_from(self.strings.len())?;
        self.strings.extend_from_slice(text.as_bytes())?;
        self.strings.push(0)?;
        Ok(offset)
    }

    /// Appends this number of copies of a byte, and returns their offset.
    pub fn bytes_of(&mut self, byte: u8, count: u32) -> Result<u32, Fail> {
        let offset = u32::try_from(self.strings.len())?;
        for _ in 0..count {
            self.strings.push(byte)?;
        }
        self.strings.push(0)?;
        Ok(offset)
    }

    /// Appends a name of a few words and a number, and returns its offset.
    pub fn name(&mut self, random: &mut Random) -> Result<u32, Fail> {
        let offset = u32::try_from(self.strings.len())?;
        for _ in 0..random.from(1, 3) {
            let word = WORDS.get(random.below(32) as usize).unwrap_or(&"x");
            self.strings.extend_from_slice(word.as_bytes())?;
            self.strings.push(b'_')?;
        }
        self.number(random.below(1_000_000))?;
        self.strings.push(0)?;
        Ok(offset)
    }

    /// Appends the digits of a number, the last one first.
    fn number(&mut self, number: u32) -> Result<(), Fail> {
        let mut rest = number;
        for _ in 0..6 {
            self.strings.push(b'0'.wrapping_add((rest % 10) as u8))?;
            rest /= 10;
        }
        Ok(())
    }

    /// The bytes of the whole table.
    pub fn blob(&self) -> Result<Vec<u8>, Fail> {
        let front = match self.order {
            Endianness::Little => [0x9f, 0xeb, 1, 0],
            Endianness::Big => [0xeb, 0x9f, 1, 0],
        };
        let type_len = u32::try_from(self.types.len())?;
        let str_len = u32::try_from(self.strings.len())?;
        let header = [24, 0, type_len, type_len, str_len];
        let mut blob = Vec::from_slice(self.alloc, &front)?;
        push_words(&mut blob, &header, self.order)?;
        blob.extend_from_slice(&self.types)?;
        blob.extend_from_slice(&self.strings)?;
        Ok(blob)
    }
}
