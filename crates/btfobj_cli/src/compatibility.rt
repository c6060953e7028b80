//! The comparison of the types of a name in two tables.

ghost use Rattle.std.specs.Prelude.{◌≡◌, map, IfOk};
ghost use Rattle.btfobj_cli.specs.Compat.{FindsOrNone, FindsFirst, FindsByName, AreCompatible, like_kinds, finding_text, is_compatible};
ghost use Rattle.btfobj_cli.specs.declared.compatibility.Finding.{Finding};

use crate::fault::Fault;
use btf_compare::types_are_compatible;
use btf_plain::{BtfError, BtfKind};
use btf_table::Btf;
use btf_text::TextBuffer;
use std::fmt::Write;
use std::io;

/// The kinds of the types that are looked up, in this order.
const KINDS: [BtfKind; 9] = [
    BtfKind::Struct,
    BtfKind::Union,
    BtfKind::Enum,
    BtfKind::Enum64,
    BtfKind::Typedef,
    BtfKind::Int,
    BtfKind::Float,
    BtfKind::Fwd,
    BtfKind::Func,
];

/// The outcome of the comparison for a name.
#[derive(Clone, Copy, Debug)]
enum Finding {
    /// The types are compatible.
    Compatible,
    /// The types are not compatible.
    Incompatible,
    /// The first table has no type of the name.
    NoLocal,
    /// The second table has no type of the name and of the kind.
    NoTarget,
}

/// Writes for each name whether its types in the two tables are compatible by `types_are_compatible`. Returns whether
/// all are.
///
/// The kinds are tried in this order: STRUCT, UNION, ENUM, ENUM64, TYPEDEF, INT, FLOAT, FWD, FUNC. The first table's
/// type is the first one of the name with the first kind that has one. The second table's type is the first one of the
/// name with the same kind, where ENUM and ENUM64 count as the same.
///
/// The errors are `Table` with the error of `Btf::id_by_type_name_kind` or of `types_are_compatible`, `Write`, and
/// `OutOfMemory`.
pub fn compat<W: io::Write>(
    local: &Btf,
    target: &Btf,
    names: &[&str],
    out: &mut W,
) -> Result<bool, Fault>
    // The answer is whether the finding for each name is that its types are compatible.
    ensures { IfOk result (AreCompatible local.now target.now (map (λ name. name.now) names.now)) }
{
    let mut text = TextBuffer::new(out);
    let mut all = true;
    for name in names {
        let finding = compare(local, target, name)?;
        writeln!(text, "{name}: {}", finding.text())?;
        all = all && finding.is_compatible();
    }
    text.flush()?;
    Ok(all)
}

impl Finding {
    /// The text that reports the finding.
    fn text(self) -> &'static str
        ensures { result.now ≡ finding_text self }
    {
        match self {
            Finding::Compatible => "compatible",
            Finding::Incompatible => "not compatible",
            Finding::NoLocal => "not in the first file",
            Finding::NoTarget => "not in the second file",
        }
    }

    /// Whether the types are compatible.
    fn is_compatible(self) -> bool
        ensures { result ≡ is_compatible self }
    {
        matches!(self, Finding::Compatible)
    }
}

/// Compares the types of a name.
fn compare(local: &Btf, target: &Btf, name: &str) -> Result<Finding, Fault>
    ensures { IfOk result (FindsByName local.now target.now name.now) }
{
    let Some(found) = find_first(local, name, &KINDS)? else {
        return Ok(Finding::NoLocal);
    };
    let Some(like) = find_like(target, name, found.0)? else {
        return Ok(Finding::NoTarget);
    };
    if types_are_compatible(local, found.1, target, like.1)? {
        Ok(Finding::Compatible)
    } else {
        Ok(Finding::Incompatible)
    }
}

/// The first type of a name and of this kind.
fn find(table: &Btf, name: &str, kind: BtfKind) -> Result<Option<u32>, BtfError>
    ensures { IfOk result (FindsOrNone table.now kind name.now) }
{
    match table.id_by_type_name_kind(name, kind) {
        Ok(id) => Ok(Some(id)),
        Err(BtfError::UnknownBtfTypeName { type_name: _name }) => Ok(None),
        Err(e) => Err(e),
    }
}

/// The first of these kinds that has a type of a name, and its first type of the name.
fn find_first(
    table: &Btf,
    name: &str,
    kinds: &[BtfKind],
) -> Result<Option<(BtfKind, u32)>, BtfError>
    ensures { IfOk result (FindsFirst table.now name.now kinds.now) }
{
    for kind in kinds {
        if let Some(id) = find(table, name, *kind)? {
            return Ok(Some((*kind, id)));
        }
    }
    Ok(None)
}

/// The first type of a name with this kind, or with the other kind of enumeration.
fn find_like(table: &Btf, name: &str, kind: BtfKind) -> Result<Option<(BtfKind, u32)>, BtfError>
    ensures { IfOk result (FindsFirst table.now name.now (like_kinds kind)) }
{
    match kind {
        BtfKind::Enum => find_first(table, name, &[kind, BtfKind::Enum64]),
        BtfKind::Enum64 => find_first(table, name, &[kind, BtfKind::Enum]),
        _ => find_first(table, name, &[kind]),
    }
}
