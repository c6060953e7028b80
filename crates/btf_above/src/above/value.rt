//! The value of a variant, by its name.

ghost use Rattle.std.specs.Prelude.{◌<◌, length};
ghost use Rattle.btf_model.specs.Value.{Value};
ghost use Rattle.btf_plain.specs.Error.{MeetsOrNoMemory, Meets};
ghost use Rattle.btf_above.specs.Variants.{TypeHasUtf8Names, NamesAreUtf8, FindsValueAt};
ghost use Rattle.btf_above.specs.Answers.{IsOnly};

use crate::above::variant::find_value;
use btf_plain::BtfError;
use btf_records::BtfType;
use btf_table::Btf;

/// The value of the first variant of this name, in the enumeration that a type id resolves to; `None` if no variant has
/// the name.
///
/// The id is resolved first, as by [`Btf::resolve_type`]. The values of an ENUM (the kernel's BTF documentation,
/// "BTF_KIND_ENUM") have 32 bits and are zero-extended even if they are signed: -1 is 4294967295. The values of an
/// ENUM64 ("BTF_KIND_ENUM64") have 64 bits, in two's complement if they are signed. A UNION that a rewrite put in place
/// of an ENUM64 has the ENUM64's names and values, so a rewrite changes no result of this function. The bytes of a
/// table do not record these names and values.
///
/// Names are compared as [`Btf::string_at`] reads them, with U+FFFD in place of each longest piece that is not UTF-8.
///
/// # Errors
///
/// The first error in this order:
///
/// - `UnknownBtfType` of an id without a type, met while `type_id` is resolved.
/// - `MaximumTypeDepthReached` of `type_id` if the first 32 types are modifiers.
/// - `UnexpectedBtfType` of the id that `type_id` resolves to, if its type is none of the three; so it is for id 0.
/// - `InvalidStringOffset` of a variant's name that cannot be read, if no earlier variant has the name.
/// - `OutOfMemory` if the name of a variant is not UTF-8, and the allocation of its text fails.
pub fn variant_value(btf: &Btf, type_id: u32, name: &str) -> Result<Option<u64>, BtfError>
    // The value, None, or the first error.
    ensures value { MeetsOrNoMemory (λ v. v) result (Value btf.now type_id name.now) }
    // The result is unique: no other value, and no other error.
    ensures only { IsOnly (λ v. v) result (Value btf.now type_id name.now) }
    // If the names of the type's variants are UTF-8, nothing is allocated.
    ensures no_memory { NamesAreUtf8 btf.now type_id
        → Meets (λ v. v) result (Value btf.now type_id name.now) }
{
    let id = btf.resolve_type(type_id)?;
    value_at(btf, id, name)
}

/// The value of the first variant of this name in the enumeration of a known id. If the type of the id is no
/// enumeration, the error is `UnexpectedBtfType` of the id.
fn value_at(btf: &Btf, type_id: u32, name: &str) -> Result<Option<u64>, BtfError>
    requires { type_id < length btf.now.records }
    ensures value { MeetsOrNoMemory (λ v. v) result (FindsValueAt btf.now type_id name.now) }
    ensures no_memory { TypeHasUtf8Names btf.now type_id
        → Meets (λ v. v) result (FindsValueAt btf.now type_id name.now) }
{
    match btf.type_by_id(type_id)? {
        BtfType::Enum(t) => find_value(btf, t.variants(), name),
        BtfType::Enum64(t) => find_value(btf, t.variants(), name),
        BtfType::Union(t) => match t.enum64_fallback() {
            Some(fallback) => find_value(btf, &fallback.variants, name),
            None => Err(BtfError::UnexpectedBtfType { type_id }),
        },
        _ => Err(BtfError::UnexpectedBtfType { type_id }),
    }
}
