//! The parts of a type of C: its base, and the pointers, arrays and prototypes around the base.

use crate::error::TextError;
use btf_plain::BtfError;
use btf_records::{BtfType, FuncProto};
use btf_table::{Btf, WALK_LIMIT};
use std::alloc::Global;

/// The qualifiers of a type.
#[derive(Clone, Copy, Default)]
pub struct Qualifiers {
    pub constant: bool,
    pub volatile: bool,
    pub restrict: bool,
}

/// A pointer, an array or a prototype around a type.
#[derive(Clone, Copy)]
pub enum Step<'a> {
    /// A pointer to a pointer, with qualifiers of its own.
    Pointer(Qualifiers),
    /// A pointer to an array or a function, which is written in parentheses.
    Enclosed(Qualifiers),
    /// An array of this many elements.
    Array(u32),
    /// A function.
    Prototype(&'a FuncProto),
}

/// The parts of a type.
#[derive(Drop)]
pub struct Declarator<'a> {
    /// The parts that are written beside the name, the outermost first: the pointer of a pointer to an array, for
    /// example. The last is the innermost array or function.
    pub steps: Vec<Step<'a>>,
    /// The pointers inside the steps, which are written beside the base, the outermost first.
    pub pointers: Vec<Qualifiers>,
    /// The id of the base: the type inside all of these.
    pub base: u32,
    /// The qualifiers of the base, or of the elements of an array.
    pub qualifiers: Qualifiers,
}

impl<'a> Declarator<'a> {
    /// The parts of the type of an id. Tags of types are left out.
    ///
    /// The errors are `Table` with `UnknownBtfType` of an unknown id, `Table` with `MaximumTypeDepthReached` if the
    /// first 32 types refer to another one, and `OutOfMemory`.
    pub fn of(alloc: Global, table: &'a Btf, type_id: u32) -> Result<Declarator<'a>, TextError> {
        let mut made = Declarator {
            steps: Vec::new(alloc),
            pointers: Vec::new(alloc),
            base: type_id,
            qualifiers: Qualifiers::default(),
        };
        for _ in 0..WALK_LIMIT {
            let base = made.base;
            let btf_type = table.type_by_id(base)?;
            match made.add(btf_type)? {
                Some(next) => made.base = next,
                None => return Ok(made),
            }
        }
        Err(TextError::Table(BtfError::MaximumTypeDepthReached { type_id }))
    }

    /// Adds a type, and returns the id of the type that it refers to; None if it is the base.
    fn add(&mut self, btf_type: &'a BtfType) -> Result<Option<u32>, TextError> {
        match btf_type {
            BtfType::Const(_) => self.qualifiers.constant = true,
            BtfType::Volatile(_) => self.qualifiers.volatile = true,
            BtfType::Restrict(_) => self.qualifiers.restrict = true,
            BtfType::TypeTag(_) => {}
            BtfType::Ptr(_) => {
                self.pointers.push(self.qualifiers)?;
                self.qualifiers = Qualifiers::default();
            }
            BtfType::Array(t) => {
                let array = t.array();
                self.add_step(Step::Array(array.len))?;
                return Ok(Some(array.element_type));
            }
            BtfType::FuncProto(t) => self.add_step(Step::Prototype(t))?,
            _ => return Ok(None),
        }
        Ok(btf_type.btf_type())
    }

    /// Adds an array or a function. The pointers to it are written beside the name.
    fn add_step(&mut self, step: Step<'a>) -> Result<(), TextError> {
        let innermost = self.pointers.pop();
        for qualifiers in self.pointers.iter() {
            self.steps.push(Step::Pointer(*qualifiers))?;
        }
        self.pointers.clear();
        if let Some(qualifiers) = innermost {
            self.steps.push(Step::Enclosed(qualifiers))?;
        }
        self.steps.push(step)?;
        Ok(())
    }
}
