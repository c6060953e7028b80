//! The data of an ENUM64 that a UNION replaced.

ghost use Rattle.std.specs.Prelude.{Ok};
ghost use Rattle.btf_plain.specs.Error.{IsOrNoMemory};
ghost use Rattle.btf_plain.specs.Fallback.{fallback_value};

use crate::error::BtfError;

/// A variant of the ENUM64.
#[derive(Clone, Debug, Drop)]
pub struct Enum64VariantFallback {
    /// The string offset of the name.
    pub name_offset: u32,
    /// The value, in two's complement if the ENUM64 is signed.
    pub value: u64,
}

/// The ENUM64 that a UNION replaces for a kernel without 64-bit enumerations. It is not written to a blob.
#[derive(Debug, Drop)]
pub struct Enum64Fallback {
    /// Whether the values have a sign.
    pub signed: bool,
    /// The variants, in order.
    pub variants: Vec<Enum64VariantFallback>,
}

impl Enum64Fallback {
    /// A copy of the fallback. `OutOfMemory` is the only error.
    pub fn try_clone(&self) -> Result<Self, BtfError>
        ensures { IsOrNoMemory fallback_value result (Ok (fallback_value self.now)) }
    {
        let mut variants = Vec::with_capacity(*self.variants.allocator(), self.variants.len())?;
        for variant in &self.variants {
            variants.push(Enum64VariantFallback {
                name_offset: variant.name_offset,
                value: variant.value,
            })?;
        }
        Ok(Self {
            signed: self.signed,
            variants,
        })
    }
}
