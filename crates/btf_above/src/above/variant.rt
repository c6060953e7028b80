//! Variants of the three kinds of enumeration, and the first one of a name.

ghost use Rattle.std.specs.Prelude.{◌≡◌, map};
ghost use Rattle.btf_model.specs.Table as model;
ghost use Rattle.btf_model.specs.Value.{FindsVariant};
ghost use Rattle.btf_plain.specs.Error.{MeetsOrNoMemory};
ghost use Rattle.btf_plain.specs.Fallback.{fallback_variant};
ghost use Rattle.btf_above.specs.Variants.{enum_variant, enum64_variant, FindsAlways};

use btf_plain::BtfError;
use btf_records::{BtfEnum, BtfEnum64, Enum64VariantFallback};
use btf_table::{Btf, comparable_end, is_named};

/// A variant of an enumeration.
pub trait Variant {
    /// The variant in the model's terms.
    ghost variant: { Self → model.Variant };

    /// The string offset of the name.
    fn name_offset(&self) -> u32
        ensures { result ≡ (variant self.now).name };

    /// The value in 64 bits; a value of 32 bits is zero-extended.
    fn value(&self) -> u64
        ensures { result ≡ (variant self.now).value };
}

impl Variant for BtfEnum {
    ghost variant = { enum_variant };

    fn name_offset(&self) -> u32 {
        self.name_offset
    }

    fn value(&self) -> u64 {
        u64::from(self.value)
    }
}

impl Variant for BtfEnum64 {
    ghost variant = { enum64_variant };

    fn name_offset(&self) -> u32 {
        self.name_offset
    }

    fn value(&self) -> u64 {
        (self.value_high as u64) << 32 | self.value_low as u64
    }
}

impl Variant for Enum64VariantFallback {
    ghost variant = { fallback_variant };

    fn name_offset(&self) -> u32 {
        self.name_offset
    }

    fn value(&self) -> u64 {
        self.value
    }
}

/// The value of the first variant of this name, or `InvalidStringOffset` of an earlier name that cannot be read.
pub fn find_value<V: Variant>(
    btf: &Btf,
    variants: &[V],
    name: &str,
) -> Result<Option<u64>, BtfError>
    ensures found { MeetsOrNoMemory (λ v. v) result
        (FindsVariant btf.now.strings name.now (map V.variant variants.now)) }
    // Only names that are not UTF-8 need an allocation.
    ensures no_memory { FindsAlways btf.now.strings name.now (map V.variant variants.now) result }
{
    let readable_end = comparable_end(btf, name);
    for variant in variants {
        if is_named(btf, variant.name_offset(), name, readable_end)? {
            return Ok(Some(variant.value()));
        }
    }
    Ok(None)
}
