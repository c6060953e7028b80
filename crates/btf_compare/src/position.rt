//! One position of the comparison of types, and types after modifiers.

ghost use Rattle.std.specs.Prelude.{◌≡◌, ◌<◌, Ok, is_some, slice_get};
ghost use Rattle.std.specs.Option.{option_map};
ghost use Rattle.btf_model.specs.Record as model;
ghost use Rattle.btf_model.specs.Compat.{Finds, PositionFound, ResolvesPair, position_by};
ghost use Rattle.btf_model.specs.Walk.{modified_type};
ghost use Rattle.btf_plain.specs.Error.{Meets};
ghost use Rattle.btf_records.specs.BtfType.{record_of, type_kind};
ghost use Rattle.btf_compare.specs.Compared.{PositionIs, TypesFind, IsOfKind, IfPrototypes, HasFew, are_long, pending_of};
ghost use Rattle.btf_compare.specs.Pairs.{IsResolved, pair_of};

use btf_plain::{Array, BtfError, BtfKind, Int, Ptr};
use btf_records::{BtfParam, BtfType, FuncProto};
use btf_table::Btf;

/// The run records prototypes with more parameters than this once all the parameters are known to be compatible.
const FEW_PARAMETERS: usize = 8;

/// The outcome of the comparison at one pair of types.
#[derive(Drop)]
pub enum Position<'a> {
    /// The walk ends with this result.
    Decided(Result<bool, BtfError>),
    /// The walk continues with this pair.
    On((u32, u32)),
    /// Two prototypes. Their parameters are compared first, and then their return types.
    Prototypes(ProtoPair<'a>),
}

/// Two prototypes with the same number of parameters.
#[derive(Clone, Copy, Drop)]
pub struct ProtoPair<'a> {
    /// Their ids, the local one first.
    pub ids: (u32, u32),
    /// The parameters of the local prototype.
    pub params: &'a [BtfParam],
    /// The parameters of the target prototype.
    pub others: &'a [BtfParam],
    /// Their return types.
    pub returns: (u32, u32),
}

/// Compares a pair of ids. Both are resolved, the local one first.
pub fn position_at<'a>(local: &'a Btf, target: &'a Btf, at: (u32, u32)) -> Position<'a>
    ensures position { PositionIs result (Finds local.now target.now (pair_of at)) }
    ensures ids { IfPrototypes result
        (λ ids. ResolvesPair local.now target.now (pair_of at) (Ok ids)) }
    ensures few { HasFew result }
{
    let (local_id, local_type) = match resolve(local, at.0) {
        Ok(found) => found,
        Err(e) => return Position::Decided(Err(e)),
    };
    match resolve(target, at.1) {
        Ok((target_id, target_type)) => { types_at((local_id, target_id), local_type, target_type) }
        Err(e) => Position::Decided(Err(e)),
    }
}

/// Compares two types that are no modifiers, and have these ids.
#[inline(always)]
pub fn types_at<'a>(
    ids: (u32, u32),
    local_type: &'a BtfType,
    target_type: &'a BtfType,
) -> Position<'a>
    ensures position { PositionIs result
        (TypesFind ids.0 local_type.now target_type.now) }
    ensures ids { IfPrototypes result (λ ids_of_prototypes. ids_of_prototypes ≡ pair_of ids) }
    ensures few { HasFew result }
{
    if !local_type.is_compatible(target_type) {
        return Position::Decided(Ok(false));
    }
    match local_type {
        BtfType::Int(l) => ints(l, target_type),
        BtfType::Ptr(l) => pointers(l, target_type),
        BtfType::Array(l) => arrays(l, target_type),
        BtfType::FuncProto(l) => prototypes(ids, l, target_type),
        BtfType::Unknown
        | BtfType::Struct(_)
        | BtfType::Union(_)
        | BtfType::Enum(_)
        | BtfType::Enum64(_)
        | BtfType::Fwd(_)
        | BtfType::Float(_) => Position::Decided(Ok(true)),
        BtfType::Typedef(_)
        | BtfType::Volatile(_)
        | BtfType::Const(_)
        | BtfType::Restrict(_)
        | BtfType::Func(_)
        | BtfType::Var(_)
        | BtfType::DataSec(_)
        | BtfType::DeclTag(_)
        | BtfType::TypeTag(_) => {
            Position::Decided(Err(BtfError::UnexpectedBtfType { type_id: ids.0 }))
        }
    }
}

/// Compares an integer with another type: whether that is an integer too, and both begin at bit 0.
fn ints<'a>(local: &Int, target_type: &BtfType) -> Position<'a>
    ensures { IsOfKind model.Int local.now target_type.now result }
{
    match target_type {
        BtfType::Int(target) => Position::Decided(Ok(local.offset() == 0 && target.offset() == 0)),
        _ => Position::Decided(Ok(false)),
    }
}

/// Compares a pointer with another type: the types that both point to are next.
fn pointers<'a>(local: &Ptr, target_type: &BtfType) -> Position<'a>
    ensures { IsOfKind model.Ptr local.now target_type.now result }
{
    match target_type {
        BtfType::Ptr(target) => Position::On((local.btf_type(), target.btf_type())),
        _ => Position::Decided(Ok(false)),
    }
}

/// Compares an array with another type: the element types of both are next.
fn arrays<'a>(local: &Array, target_type: &BtfType) -> Position<'a>
    ensures { IsOfKind model.Array local.now target_type.now result }
{
    match target_type {
        BtfType::Array(target) => {
            Position::On((local.array().element_type, target.array().element_type))
        }
        _ => Position::Decided(Ok(false)),
    }
}

/// Compares a prototype with another type; `ids` are the ids of both. If the numbers of parameters are equal, the
/// parameters are next, and then the return types.
#[inline(always)]
fn prototypes<'a>(ids: (u32, u32), local: &'a FuncProto, target_type: &'a BtfType) -> Position<'a>
    ensures position { IsOfKind model.FuncProto local.now target_type.now result }
    ensures ids { IfPrototypes result (λ ids_of_prototypes. ids_of_prototypes ≡ pair_of ids) }
    ensures few { HasFew result }
{
    let BtfType::FuncProto(target) = target_type else {
        return Position::Decided(Ok(false));
    };
    let params = local.params();
    let others = target.params();
    if params.len() != others.len() {
        return Position::Decided(Ok(false));
    }
    Position::Prototypes(ProtoPair {
        ids,
        params,
        others,
        returns: (local.return_type(), target.return_type()),
    })
}

impl ProtoPair<'_> {
    /// Whether the run records that all the parameters are compatible. For a few parameters, to look up each of them
    /// again costs no more than to look up that record.
    pub fn are_long(&self) -> bool
        ensures { result ≡ are_long self.now }
    {
        self.params.len() > FEW_PARAMETERS
    }

    /// The types of the parameters at an index, if both prototypes have one there.
    pub fn parameters_at(&self, index: usize) -> Option<(u32, u32)>
        ensures pair { option_map pair_of result ≡ slice_get (pending_of self.now) index }
    {
        let param = self.params.get(index)?;
        let other = self.others.get(index)?;
        Some((param.btf_type, other.btf_type))
    }
}

/// The id and the type that an id resolves to.
#[inline(always)]
pub fn resolve(table: &Btf, type_id: u32) -> Result<(u32, &BtfType), BtfError>
    ensures { Meets (λ found. (found.0, type_kind found.1.now, record_of found.1.now)) result
        (IsResolved table.now type_id) }
{
    let id = table.resolve_type(type_id)?;
    let btf_type = table.type_by_id(id)?;
    Ok((id, btf_type))
}

/// Whether a type is a modifier, which resolves to another type.
#[inline(always)]
pub fn is_modifier(btf_type: &BtfType) -> bool
    ensures { result ≡ is_some (modified_type (record_of btf_type.now)) }
{
    match btf_type.kind() {
        BtfKind::Typedef
        | BtfKind::Volatile
        | BtfKind::Const
        | BtfKind::Restrict
        | BtfKind::TypeTag => true,
        _ => false,
    }
}
