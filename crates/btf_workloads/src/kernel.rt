//! Tables that resemble a kernel's. The shares of the kinds, the lengths of lists and names, and the references between
//! kinds are as in `/sys/kernel/btf/vmlinux` of a Linux 6 kernel with some 125,000 types.

use crate::input::Input;
use crate::random::Random;
use crate::sketch::Sketch;
use btf::{BtfKind, Endianness};
use std::alloc::Global;
use std::test::Fail;

/// The existing ids, by the kinds that refer to them.
#[derive(Drop)]
struct Ids {
    ints: Vec<u32>,
    pointers: Vec<u32>,
    composites: Vec<u32>,
    prototypes: Vec<u32>,
    typedefs: Vec<u32>,
    constants: Vec<u32>,
    others: Vec<u32>,
    variables: Vec<u32>,
}

impl Ids {
    fn new(alloc: Global) -> Self {
        Ids {
            ints: Vec::new(alloc),
            pointers: Vec::new(alloc),
            composites: Vec::new(alloc),
            prototypes: Vec::new(alloc),
            typedefs: Vec::new(alloc),
            constants: Vec::new(alloc),
            others: Vec::new(alloc),
            variables: Vec::new(alloc),
        }
    }

    fn add(&mut self, kind: BtfKind, id: u32) -> Result<(), Fail> {
        let ids = match kind {
            BtfKind::Int => &mut self.ints,
            BtfKind::Ptr => &mut self.pointers,
            BtfKind::Struct | BtfKind::Union => &mut self.composites,
            BtfKind::FuncProto => &mut self.prototypes,
            BtfKind::Typedef => &mut self.typedefs,
            BtfKind::Const => &mut self.constants,
            BtfKind::Var => &mut self.variables,
            BtfKind::Func | BtfKind::DeclTag => return Ok(()),
            _ => &mut self.others,
        };
        ids.push(id)?;
        Ok(())
    }

    /// The target of a pointer.
    fn pointee(&self, random: &mut Random) -> u32 {
        match random.below(100) {
            0..52 => random.one_of(&self.composites),
            52..77 => random.one_of(&self.prototypes),
            77..92 => random.one_of(&self.constants),
            92..96 => random.one_of(&self.pointers),
            96..99 => random.one_of(&self.typedefs),
            _ => random.one_of(&self.others),
        }
    }

    /// The type of a parameter or of a member, or the return type of a prototype.
    fn value(&self, random: &mut Random) -> u32 {
        match random.below(100) {
            0..60 => random.one_of(&self.pointers),
            60..78 => random.one_of(&self.typedefs),
            78..94 => random.one_of(&self.ints),
            94..97 => random.one_of(&self.composites),
            _ => random.one_of(&self.others),
        }
    }
}

/// The kind of the next type, by a number below 1,000.
fn kind_of(number: u32) -> BtfKind {
    match number {
        0..444 => BtfKind::Func,
        444..672 => BtfKind::FuncProto,
        672..792 => BtfKind::Ptr,
        792..877 => BtfKind::Struct,
        877..905 => BtfKind::Const,
        905..932 => BtfKind::Array,
        932..957 => BtfKind::Typedef,
        957..977 => BtfKind::Union,
        977..995 => BtfKind::Enum,
        995..998 => BtfKind::Var,
        998 => BtfKind::DeclTag,
        _ => BtfKind::Enum64,
    }
}

/// The number of items of a list: a few, and seldom many.
fn len_of(random: &mut Random, kind: BtfKind) -> u32 {
    let few = random.below(4).wrapping_add(random.below(4));
    match kind {
        BtfKind::FuncProto => few.wrapping_add(1) / 2 + few % 2,
        _ if random.below(50) == 0 => random.below(150),
        _ => few.wrapping_add(1),
    }
}

/// An unfinished table.
#[derive(Drop)]
struct Kernel<'a> {
    alloc: Global,
    sketch: Sketch,
    ids: Ids,
    /// The string offsets of the names of members, parameters and variants, which many of them share.
    names: Vec<u32>,
    /// The positions of bytes that may have any value: in the sizes of structures, and in the targets of pointers.
    places: Vec<usize>,
    random: &'a mut Random,
}

impl<'a> Kernel<'a> {
    fn new(alloc: Global, random: &'a mut Random) -> Result<Self, Fail> {
        let mut sketch = Sketch::new(alloc, Endianness::Little)?;
        let mut names = Vec::new(alloc);
        for _ in 0..8000 {
            names.push(sketch.name(random)?)?;
        }
        Ok(Kernel {
            alloc,
            sketch,
            ids: Ids::new(alloc),
            names,
            places: Vec::new(alloc),
            random,
        })
    }

    /// Fifteen INTs, and one type of each kind that others refer to.
    fn begin(&mut self) -> Result<(), Fail> {
        for place in 0u32..15 {
            let name = self.sketch.name(self.random)?;
            let id = self.sketch.int(name, 1 << (place % 4))?;
            self.ids.add(BtfKind::Int, id)?;
        }
        for kind in [
            BtfKind::Struct,
            BtfKind::Enum,
            BtfKind::Typedef,
            BtfKind::Const,
            BtfKind::Ptr,
            BtfKind::FuncProto,
            BtfKind::Var,
        ] {
            self.add(kind)?;
        }
        Ok(())
    }

    /// The words of a list of items: for each a name, and the words of `item`.
    fn list(&mut self, kind: BtfKind, len: u32) -> Result<Vec<u32>, Fail> {
        let mut words = Vec::new(self.alloc);
        for place in 0..len {
            words.push(self.random.one_of(&self.names))?;
            match kind {
                BtfKind::Enum => words.push(place)?,
                BtfKind::Enum64 => {
                    words.push(place)?;
                    words.push(place % 2)?;
                }
                BtfKind::FuncProto => words.push(self.ids.value(self.random))?,
                _ => {
                    words.push(self.ids.value(self.random))?;
                    words.push(place.wrapping_mul(64))?;
                }
            }
        }
        Ok(words)
    }

    /// Adds a type with a list.
    fn add_list(&mut self, kind: BtfKind) -> Result<u32, Fail> {
        let len = len_of(self.random, kind);
        let words = self.list(kind, len)?;
        let named = kind != BtfKind::FuncProto && self.random.below(10) > 0;
        let name = if named {
            self.sketch.name(self.random)?
        } else {
            0
        };
        let third = match kind {
            BtfKind::FuncProto => self.ids.value(self.random),
            BtfKind::Enum => 4,
            BtfKind::Enum64 => 8,
            _ => len.wrapping_mul(8),
        };
        if kind == BtfKind::Struct {
            self.places.push(self.sketch.third_word())?;
        }
        self.sketch.record(kind, name, len, third, &words)
    }

    /// Adds a type of a kind.
    fn add(&mut self, kind: BtfKind) -> Result<(), Fail> {
        let id = match kind {
            BtfKind::Ptr => {
                self.places.push(self.sketch.third_word())?;
                let to = self.ids.pointee(self.random);
                self.sketch.record(kind, 0, 0, to, &[])?
            }
            BtfKind::Const => {
                let of = self.ids.value(self.random);
                self.sketch.record(kind, 0, 0, of, &[])?
            }
            BtfKind::Array => {
                let of = self.ids.value(self.random);
                let len = self.random.below(64);
                let tail = [of, self.random.one_of(&self.ids.ints), len];
                self.sketch.record(kind, 0, 0, 0, &tail)?
            }
            BtfKind::Typedef => self.add_named(kind, 0, false)?,
            BtfKind::Func => {
                let linkage = self.random.below(2);
                self.add_named(kind, linkage, true)?
            }
            BtfKind::Var => self.add_variable()?,
            BtfKind::DeclTag => self.add_tag()?,
            _ => self.add_list(kind)?,
        };
        self.ids.add(kind, id)
    }

    /// Adds a FUNC, or a TYPEDEF.
    fn add_named(&mut self, kind: BtfKind, vlen: u32, func: bool) -> Result<u32, Fail> {
        let name = self.sketch.name(self.random)?;
        let of = if func {
            self.random.one_of(&self.ids.prototypes)
        } else {
            self.ids.value(self.random)
        };
        self.sketch.record(kind, name, vlen, of, &[])
    }

    fn add_variable(&mut self) -> Result<u32, Fail> {
        let name = self.sketch.name(self.random)?;
        let of = self.ids.value(self.random);
        self.sketch.record(BtfKind::Var, name, 0, of, &[1])
    }

    fn add_tag(&mut self) -> Result<u32, Fail> {
        let name = self.random.one_of(&self.names);
        let of = self.random.one_of(&self.ids.composites);
        self.sketch
            .record(BtfKind::DeclTag, name, 0, of, &[u32::MAX])
    }

    /// Adds the section of all variables.
    fn add_section(&mut self) -> Result<(), Fail> {
        let mut words = Vec::new(self.alloc);
        let mut offset = 0u32;
        for id in &self.ids.variables {
            words.extend_from_slice(&[*id, offset, 8])?;
            offset = offset.wrapping_add(8);
        }
        let name = self.sketch.string(".data..percpu")?;
        let len = u32::try_from(self.ids.variables.len())?;
        self.sketch
            .record(BtfKind::DataSec, name, len, offset, &words)?;
        Ok(())
    }
}

/// A table of at least this number of types, in little-endian order. One in 40 of its structures and pointers may
/// change.
pub fn kernel_input(alloc: Global, random: &mut Random, types: u32) -> Result<Input, Fail> {
    let mut kernel = Kernel::new(alloc, random)?;
    kernel.begin()?;
    for _ in 0..types {
        let kind = kind_of(kernel.random.below(1000));
        kernel.add(kind)?;
    }
    kernel.add_section()?;
    let places = crate::input::some_places(alloc, &kernel.places, 40)?;
    Ok(Input::new(kernel.sketch.blob()?, places))
}
