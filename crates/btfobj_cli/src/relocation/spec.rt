//! What a record is about, in the words of libbpf's debug log (`bpf_core_format_spec`).

use bstr::ByteSlice;
use btf_plain::{BtfError, BtfKind};
use btf_records::BtfType;
use btf_relocate::{Access, RelocationKind};
use btf_table::{Btf, BtfStr};
use btf_text::kind_name;
use btf_view::TableRef;
use std::alloc::{AllocError, Global};
use std::fmt;

/// The text at a string offset; `(invalid)` if none can be read. `OutOfMemory` is the only error.
pub fn name_text(table: &Btf, offset: u32) -> Result<BtfStr<'_>, AllocError> {
    match table.string_at(offset) {
        Ok(text) => Ok(text),
        Err(BtfError::OutOfMemory) => Err(AllocError),
        Err(_) => Ok(BtfStr::Borrowed("(invalid)")),
    }
}

/// A type as `[12] struct task_struct`.
#[derive(Clone, Copy)]
pub struct TypeText<'a> {
    pub table: &'a TableRef<'a>,
    pub id: u32,
}

impl fmt::Display for TypeText<'_> {
    fn fmt<W: fmt::Write>(&self, f: &mut fmt::Formatter<W>) -> fmt::Result {
        let id = self.id;
        let Some(btf_type) = self.table.type_at(id) else {
            return write!(f, "[{id}] (invalid)");
        };
        write!(f, "[{id}] ")?;
        write_kind(f, btf_type.kind())?;
        match self.table.name(btf_type.name_offset()) {
            None => f.write_str(" (invalid)"),
            Some([]) => f.write_str(" <anon>"),
            Some(name) => write!(f, " {}", name.as_bstr()),
        }
    }
}

/// Writes a kind in lower case; `void` for no kind.
fn write_kind<W: fmt::Write>(f: &mut fmt::Formatter<W>, kind: BtfKind) -> fmt::Result {
    if kind == BtfKind::Unknown {
        return f.write_str("void");
    }
    for letter in kind_name(kind).chars() {
        f.write_char(letter.to_ascii_lowercase())?;
    }
    Ok(())
}

/// What a record is about.
#[derive(Clone, Copy)]
pub struct Spec<'a> {
    table: &'a Btf,
    record: [u32; 4],
}

impl<'a> Spec<'a> {
    /// What a record of a program with this table is about.
    pub fn new(table: &'a Btf, record: &[u32; 4]) -> Spec<'a> {
        Spec {
            table,
            record: *record,
        }
    }

    /// The index of the record's instruction.
    pub fn instruction(&self) -> u32 {
        let [offset, _, _, _] = self.record;
        offset / 8
    }

    /// The id of the type.
    pub fn type_id(&self) -> u32 {
        let [_, type_id, _, _] = self.record;
        type_id
    }

    /// Whether the record asks for something of the target.
    pub fn has_target(&self) -> bool {
        let [_, _, _, kind] = self.record;
        kind != RelocationKind::TypeIdLocal as u32
    }

    /// The kind as libbpf names it, or as its number.
    pub fn kind_text(&self, alloc: Global) -> Result<String, AllocError> {
        let [_, _, _, kind] = self.record;
        match RelocationKind::try_from(kind) {
            Ok(kind) => format!(in alloc; "{kind}"),
            Err(_) => format!(in alloc; "{kind}"),
        }
    }

    /// Writes the enumerator that the access names, if it names one.
    fn write_enumerator<W: fmt::Write>(
        &self,
        f: &mut fmt::Formatter<W>,
        index: u32,
    ) -> fmt::Result {
        let Ok(id) = self.table.resolve_type(self.type_id()) else {
            return Ok(());
        };
        match self.table.type_by_id(id) {
            Ok(BtfType::Enum(t)) => match t.variants().get(index as usize) {
                Some(found) => {
                    self.write_name(f, "::", found.name_offset)?;
                    if t.is_signed() {
                        write!(f, " = {}", found.value.cast_signed())
                    } else {
                        write!(f, " = {}", found.value)
                    }
                }
                None => Ok(()),
            },
            Ok(BtfType::Enum64(t)) => match t.variants().get(index as usize) {
                Some(found) => {
                    self.write_name(f, "::", found.name_offset)?;
                    let value = u64::from(found.value_high) << 32 | u64::from(found.value_low);
                    if t.is_signed() {
                        write!(f, " = {}", value.cast_signed())
                    } else {
                        write!(f, " = {value}")
                    }
                }
                None => Ok(()),
            },
            _ => Ok(()),
        }
    }

    /// Writes a name after a separator, unless it is empty.
    fn write_name<W: fmt::Write>(
        &self,
        f: &mut fmt::Formatter<W>,
        separator: &str,
        offset: u32,
    ) -> fmt::Result {
        let Ok(name) = name_text(self.table, offset) else {
            return Err(fmt::Error);
        };
        if name.as_str().is_empty() {
            return Ok(());
        }
        write!(f, "{separator}{}", name.as_str())
    }

    /// Writes the names and indices that an access goes through, and returns the first bit of the place that it leads
    /// to; None if it leads nowhere.
    fn write_path<W: fmt::Write>(
        &self,
        f: &mut fmt::Formatter<W>,
        indices: &[u32],
    ) -> Result<Option<u64>, fmt::Error> {
        let mut place = Some(Place {
            id: self.type_id(),
            bit: 0,
        });
        let mut is_first = true;
        for index in indices {
            let Some(at) = place else {
                return Ok(None);
            };
            place = if is_first {
                self.write_root(f, &at, *index)?
            } else {
                self.write_step(f, &at, *index)?
            };
            is_first = false;
        }
        Ok(match place {
            Some(at) => Some(at.bit),
            None => None,
        })
    }

    /// Writes the index of the first step, unless it is 0, and returns its place.
    fn write_root<W: fmt::Write>(
        &self,
        f: &mut fmt::Formatter<W>,
        at: &Place,
        index: u32,
    ) -> Result<Option<Place>, fmt::Error> {
        if index > 0 {
            write!(f, "[{index}]")?;
        }
        Ok(at.element(self.table, at.id, index))
    }

    /// Writes a further step, and returns its place.
    fn write_step<W: fmt::Write>(
        &self,
        f: &mut fmt::Formatter<W>,
        at: &Place,
        index: u32,
    ) -> Result<Option<Place>, fmt::Error> {
        let Ok(id) = self.table.resolve_type(at.id) else {
            return Ok(None);
        };
        let Ok(btf_type) = self.table.type_by_id(id) else {
            return Ok(None);
        };
        if let BtfType::Array(t) = btf_type {
            write!(f, "[{index}]")?;
            return Ok(at.element(self.table, t.array().element_type, index));
        }
        let Some(members) = btf_type.members() else {
            return Ok(None);
        };
        let Some(member) = members.as_slice().get(index as usize) else {
            return Ok(None);
        };
        self.write_name(f, ".", member.name_offset)?;
        let offset = btf_type.member_bit_offset(member).unwrap_or(0);
        Ok(Some(Place {
            id: member.btf_type,
            bit: at.bit.saturating_add(offset as u64),
        }))
    }

    /// Writes what a record of this kind is about, after its type.
    fn write_access<W: fmt::Write>(
        &self,
        f: &mut fmt::Formatter<W>,
        kind: RelocationKind,
    ) -> fmt::Result {
        let [_, _, offset, _] = self.record;
        let Ok(text) = name_text(self.table, offset) else {
            return Err(fmt::Error);
        };
        let Ok(access) = Access::parse(text.as_str().as_bytes()) else {
            return write!(f, " ({})", text.as_str());
        };
        let indices = access.indices();
        match kind {
            RelocationKind::EnumeratorExists | RelocationKind::EnumeratorValue => {
                self.write_enumerator(f, indices.first().copied().unwrap_or(0))
            }
            _ => match self.write_path(f, indices)? {
                Some(bit) if bit % 8 == 0 => {
                    write!(f, " ({} @ offset {})", text.as_str(), bit / 8)
                }
                Some(bit) => write!(f, " ({} @ offset {}.{})", text.as_str(), bit / 8, bit % 8),
                None => write!(f, " ({})", text.as_str()),
            },
        }
    }
}

/// A place that a path leads to: the id of its type, and its first bit.
#[derive(Clone, Copy)]
struct Place {
    id: u32,
    bit: u64,
}

impl Place {
    /// The element at an index of the elements of this type that begin here; None if the type has no size.
    fn element(&self, table: &Btf, id: u32, index: u32) -> Option<Place> {
        if index == 0 {
            return Some(Place { id, bit: self.bit });
        }
        let size = table.type_size(id).ok()? as u64;
        let bits = size.saturating_mul(8).saturating_mul(u64::from(index));
        Some(Place {
            id,
            bit: self.bit.saturating_add(bits),
        })
    }
}

/// Whether a kind of records is about a type, and not about a part of it.
fn is_about_type(kind: RelocationKind) -> bool {
    matches!(
        kind,
        RelocationKind::TypeIdLocal
            | RelocationKind::TypeIdTarget
            | RelocationKind::TypeExists
            | RelocationKind::TypeSize
            | RelocationKind::TypeMatches
    )
}

impl fmt::Display for Spec<'_> {
    fn fmt<W: fmt::Write>(&self, f: &mut fmt::Formatter<W>) -> fmt::Result {
        let (table, id) = (self.table, self.type_id());
        let [_, _, _, number] = self.record;
        let table = TableRef::of_table(table);
        let about = TypeText { table: &table, id };
        match RelocationKind::try_from(number) {
            Ok(kind) if is_about_type(kind) => write!(f, "{kind} {about}"),
            Ok(kind) => {
                write!(f, "{kind} {about}")?;
                self.write_access(f, kind)
            }
            Err(_) => write!(f, "kind {number} {about}"),
        }
    }
}
