//! The types that a selection of types needs.

use btf_plain::{BtfError, BtfMember, BtfParam, DataSecEntry};
use btf_records::BtfType;
use btf_table::{Btf, type_count};
use std::alloc::{AllocError, Global};

/// How the search comes to a type, which decides whether a STRUCT or UNION with a name is declared.
#[derive(Clone, Copy)]
enum Way {
    /// By value: it is declared.
    Value,
    /// Through a pointer: a forward declaration is enough.
    Pointer,
    /// From a FUNC or VAR, also through pointers: it is declared, because code that has the pointer uses its members.
    Use,
}

impl Way {
    /// How the search comes from here to what a pointer points to.
    fn through_pointer(self) -> Way {
        match self {
            Way::Use => Way::Use,
            Way::Value | Way::Pointer => Way::Pointer,
        }
    }

    /// How the search comes from here to the elements of an array.
    fn into_array(self) -> Way {
        match self {
            Way::Use => Way::Use,
            Way::Value | Way::Pointer => Way::Value,
        }
    }
}

/// A type to which the search comes, and how.
#[derive(Clone, Copy)]
struct Node {
    type_id: u32,
    way: Way,
}

/// The types of a table that are needed.
#[derive(Drop)]
pub struct Needed {
    /// For each type, whether its declaration is needed.
    by_value: Vec<bool>,
    /// For each type, whether the search came to it through a pointer.
    behind_pointer: Vec<bool>,
    /// For each type, whether the search came to it from a FUNC or VAR, also through pointers.
    in_use: Vec<bool>,
    /// The types whose own types the search comes to next.
    stack: Vec<Node>,
}

/// Sets the flag of a type, and returns whether it was not set.
fn mark(flags: &mut [bool], type_id: u32) -> bool {
    match flags.get_mut(type_id as usize) {
        Some(flag) => {
            let is_new = !*flag;
            *flag = true;
            is_new
        }
        None => false,
    }
}

impl Needed {
    /// No types.
    fn new(alloc: Global, table: &Btf) -> Result<Needed, AllocError> {
        let count = type_count(table) as usize;
        Ok(Needed {
            by_value: vec![in alloc; false; count]?,
            behind_pointer: vec![in alloc; false; count]?,
            in_use: vec![in alloc; false; count]?,
            stack: Vec::new(alloc),
        })
    }

    /// The types that these types need, and the types themselves. Takes time linear in the records of the table.
    pub fn of(alloc: Global, table: &Btf, type_ids: &[u32]) -> Result<Needed, BtfError> {
        let mut needed = Needed::new(alloc, table)?;
        for type_id in type_ids {
            needed.add(table, *type_id, Way::Value)?;
        }
        // The search comes to each type at most once in each of the three ways.
        let limit = u64::from(type_count(table)).saturating_mul(3);
        for _ in 0..limit {
            let Some(node) = needed.stack.pop() else {
                break;
            };
            needed.add_types(table, node)?;
        }
        Ok(needed)
    }

    /// Whether the declaration of a type is needed.
    pub fn has(&self, type_id: u32) -> bool {
        let id = type_id as usize;
        let ways = [&self.by_value, &self.behind_pointer, &self.in_use];
        ways.iter()
            .any(|flags| flags.get(id).copied().unwrap_or(false))
    }

    /// The search comes to a type. A forward declaration is enough for a STRUCT or UNION with a name behind a pointer.
    fn add(&mut self, table: &Btf, type_id: u32, way: Way) -> Result<(), BtfError> {
        let btf_type = table.type_by_id(type_id)?;
        let is_composite = btf_type.is_composite() && btf_type.name_offset() != 0;
        let is_new = match way {
            Way::Pointer if is_composite => false,
            Way::Pointer => mark(&mut self.behind_pointer, type_id),
            Way::Use => mark(&mut self.in_use, type_id),
            Way::Value => mark(&mut self.by_value, type_id),
        };
        if is_new {
            self.stack.push(Node { type_id, way })?;
        }
        Ok(())
    }

    /// The search comes to the types to which a type refers.
    fn add_types(&mut self, table: &Btf, node: Node) -> Result<(), BtfError> {
        let way = node.way;
        match table.type_by_id(node.type_id)? {
            BtfType::Ptr(t) => self.add(table, t.btf_type(), way.through_pointer()),
            BtfType::Array(t) => self.add(table, t.array().element_type, way.into_array()),
            BtfType::Struct(t) => self.add_members(table, t.members()),
            BtfType::Union(t) => self.add_members(table, t.members()),
            BtfType::Func(t) => self.add(table, t.btf_type(), Way::Use),
            BtfType::FuncProto(t) => {
                self.add(table, t.return_type(), way)?;
                self.add_params(table, t.params(), way)
            }
            BtfType::Var(t) => self.add(table, t.btf_type(), Way::Use),
            BtfType::DataSec(t) => self.add_entries(table, t.entries()),
            BtfType::DeclTag(_) => Ok(()),
            btf_type => match btf_type.btf_type() {
                Some(target) => self.add(table, target, way),
                None => Ok(()),
            },
        }
    }

    /// The search comes to the types of members.
    fn add_members(&mut self, table: &Btf, members: &[BtfMember]) -> Result<(), BtfError> {
        for member in members {
            self.add(table, member.btf_type, Way::Value)?;
        }
        Ok(())
    }

    /// The search comes to the types of parameters.
    fn add_params(&mut self, table: &Btf, params: &[BtfParam], way: Way) -> Result<(), BtfError> {
        for param in params {
            self.add(table, param.btf_type, way)?;
        }
        Ok(())
    }

    /// The search comes to the types of the variables of a DATASEC.
    fn add_entries(&mut self, table: &Btf, entries: &[DataSecEntry]) -> Result<(), BtfError> {
        for entry in entries {
            self.add(table, entry.btf_type, Way::Value)?;
        }
        Ok(())
    }
}
