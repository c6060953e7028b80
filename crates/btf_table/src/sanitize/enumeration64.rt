//! The rule of an ENUM64: a UNION that retains the ENUM64's values in its fallback.

ghost use Rattle.std.specs.Prelude.{◌≡◌, ◌+◌, ◌*◌, ◌^◌, length, map, false, IfOk, OnOk, Ok, Some};
ghost use Rattle.std.specs.List.{flat_map};
ghost use Rattle.btf_rewrite_model.specs.declared.feature.BtfFeature.TheVariants as features;
ghost use Rattle.btf_rewrite_model.specs.Made as model;
ghost use Rattle.btf_rewrite_model.specs.Pass.{has};
ghost use Rattle.btf_rewrite_model.specs.Rule.{variant_members};
ghost use Rattle.btf_plain.specs.Error.{IsOrNoMemory};
ghost use Rattle.btf_plain.specs.Fallback.{fallback_variant};
ghost use Rattle.btf_plain.specs.Items.{enum64_words, member_words};
ghost use Rattle.btf_table.specs.Adding.{HasRoom};
ghost use Rattle.btf_table.specs.PassStep.{FollowsRule};
ghost use Rattle.btf_table.specs.Appended.{member_type_place, AddsMemberType, union_of};

use crate::sanitize::made::Made;
use crate::table::{Btf, Changes};
use btf_plain::{BtfError, Int, IntEncoding};
use btf_records::{
    BtfEnum64, BtfMember, BtfType, Enum64, Enum64Fallback, Enum64VariantFallback, Union,
};
use std::alloc::{AllocError, Global};

/// The name of the member type.
const MEMBER_TYPE: &str = "enum64_placeholder";

/// The rule of an ENUM64 for a kernel without ENUM64: it becomes a UNION. Fails with `InvalidStringOffset` or
/// `InvalidTypeInfo` if the member type does not fit in the strings or the types.
#[inline(never)]
pub fn rewrite_enum64(made: &mut Made, btf: &Btf, enum64: &Enum64) -> Result<BtfType, BtfError>
    requires { HasRoom btf.now made.old.changes }
    ensures { FollowsRule btf.now (BtfType.Enum64 enum64.now)
        (λ p. has p features.Enum64 ≡ false) made.old made.new (λ new. new) result }
{
    let member_type = made.member_type(btf)?;
    Ok(BtfType::Union(as_union(btf.allocator(), enum64, member_type)?))
}

/// Appends the member type and returns its id. It is an INT of one byte with a name of its own, and all UNIONs that
/// replace ENUM64s share it. Fails with `InvalidStringOffset` or `InvalidTypeInfo` if it does not fit in the strings or
/// the types.
pub fn append_member_type(btf: &Btf, changes: &mut Changes) -> Result<u32, BtfError>
    requires { HasRoom btf.now changes.old }
    ensures answer { IsOrNoMemory (λ id. id) result (member_type_place btf.now changes.old) }
    ensures adds { OnOk result (AddsMemberType btf.now changes.old changes.new) }
{
    let name_offset = changes.append_text(btf, MEMBER_TYPE)?;
    let int = Int::new(name_offset, 1, IntEncoding::None, 0);
    changes.append_type(btf, BtfType::Int(int))
}

/// The ENUM64 as a UNION with a member for each variant, all of one type. The UNION's fallback retains the variants'
/// values.
fn as_union(alloc: Global, enum64: &Enum64, member_type: u32) -> Result<Union, BtfError>
    ensures { IsOrNoMemory (λ u. u) result (union_of enum64.now member_type) }
{
    let members = variant_members(alloc, enum64.variants(), member_type)?;
    let fallback = Enum64Fallback {
        signed: enum64.is_signed(),
        variants: fallback_variants(alloc, enum64.variants())?,
    };
    Ok(Union::new(enum64.name_offset(), enum64.size(), members, Some(fallback)))
}

/// A member for each variant, with the variant's name and this type, at bit 0.
fn variant_members(
    alloc: Global,
    variants: &[BtfEnum64],
    member_type: u32,
) -> Result<Vec<BtfMember>, AllocError>
    ensures words { IfOk result (λ v. flat_map member_words v.items ≡ variant_members member_type
        (model.variants (flat_map enum64_words variants.now))) }
    ensures count { IfOk result (λ v. length v.items ≡ length variants.now) }
{
    let mut members = Vec::with_capacity(alloc, variants.len())?;
    for variant in variants {
        members.push(BtfMember {
            name_offset: variant.name_offset,
            btf_type: member_type,
            offset: 0,
        })?;
    }
    Ok(members)
}

/// The variants, each with its 64-bit value in one number.
fn fallback_variants(
    alloc: Global,
    variants: &[BtfEnum64],
) -> Result<Vec<Enum64VariantFallback>, AllocError>
    ensures { IfOk result (λ v. map fallback_variant v.items ≡ model.variants
        (flat_map enum64_words variants.now)) }
{
    let mut kept = Vec::with_capacity(alloc, variants.len())?;
    for variant in variants {
        kept.push(Enum64VariantFallback {
            name_offset: variant.name_offset,
            value: variant_value(variant),
        })?;
    }
    Ok(kept)
}

/// The value of a variant, in two's complement if the ENUM64 is signed.
fn variant_value(variant: &BtfEnum64) -> u64
    ensures { result ≡ variant.now.value_high * 2 ^ 32 + variant.now.value_low }
{
    (variant.value_high as u64) << 32 | variant.value_low as u64
}
