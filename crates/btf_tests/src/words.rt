//! The words of a call.

use btf::{Btf, BtfFeature, Endianness};
use std::alloc::Global;
use std::str::SplitWhitespace;

/// The words of a line that are not read yet. A word that is missing is empty.
#[derive(Drop)]
pub struct Words<'a> {
    pub alloc: Global,
    words: SplitWhitespace<'a>,
}

impl<'a> Words<'a> {
    pub fn new(alloc: Global, line: &'a str) -> Self {
        Words {
            alloc,
            words: line.split_whitespace(),
        }
    }

    pub fn word(&mut self) -> &'a str {
        self.words.next().unwrap_or("")
    }

    /// A decimal number; 0 for another word.
    pub fn number(&mut self) -> u32 {
        self.word().parse().unwrap_or(0)
    }

    pub fn order(&mut self) -> Endianness {
        match self.word() {
            "big" => Endianness::Big,
            _ => Endianness::Little,
        }
    }

    /// The bytes of hexadecimal digits; `-` has none.
    pub fn bytes(&mut self) -> anyhow::Result<Vec<u8>> {
        match self.word() {
            "-" => Ok(Vec::new(self.alloc)),
            digits => Ok(hex::decode(self.alloc, digits)?),
        }
    }

    /// The table of a byte order and of bytes.
    pub fn table(&mut self) -> anyhow::Result<Btf> {
        let order = self.order();
        let bytes = self.bytes()?;
        Ok(Btf::parse(self.alloc, &bytes, order)?)
    }
}

/// The features, in the order of their declaration, with their names.
pub static FEATURES: [(BtfFeature, &str); 8] = [
    (BtfFeature::Func, "Func"),
    (BtfFeature::FuncGlobal, "FuncGlobal"),
    (BtfFeature::DataSec, "DataSec"),
    (BtfFeature::DataSecZero, "DataSecZero"),
    (BtfFeature::Float, "Float"),
    (BtfFeature::DeclTag, "DeclTag"),
    (BtfFeature::TypeTag, "TypeTag"),
    (BtfFeature::Enum64, "Enum64"),
];

/// The name of a feature.
pub fn name_of(feature: BtfFeature) -> &'static str {
    for (named, name) in &FEATURES {
        if *named == feature {
            return *name;
        }
    }
    ""
}
