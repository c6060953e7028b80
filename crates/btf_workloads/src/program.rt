//! The output of a compiler for a BPF program: a table whose sections have no sizes yet, and its `.BTF.ext`.

use crate::input::{Input, some_places};
use crate::random::Random;
use crate::sketch::{Sketch, push_words};
use btf::{BtfKind, Endianness, KsymsIds, SectionIndex};
use std::alloc::Global;
use std::collections::HashMap;
use std::test::Fail;

/// A program, and the sections and symbols of its object file.
#[derive(Drop)]
pub struct Program {
    pub order: Endianness,
    pub table: Input,
    pub ext: Input,
    /// The names of the sections of code.
    pub code: Vec<String>,
    pub sections: HashMap<String, (SectionIndex, u64)>,
    pub symbols: HashMap<String, u64>,
    pub ksyms: Option<KsymsIds>,
}

/// An unfinished program.
#[derive(Drop)]
struct Maker {
    alloc: Global,
    sketch: Sketch,
    ints: Vec<u32>,
    pointers: Vec<u32>,
    places: Vec<usize>,
    sections: HashMap<String, (SectionIndex, u64)>,
    symbols: HashMap<String, u64>,
    random: Random,
}

impl Maker {
    fn new(alloc: Global, order: Endianness, random: Random) -> Result<Self, Fail> {
        Ok(Maker {
            alloc,
            sketch: Sketch::new(alloc, order)?,
            ints: Vec::new(alloc),
            pointers: Vec::new(alloc),
            places: Vec::new(alloc),
            sections: HashMap::new(alloc),
            symbols: HashMap::new(alloc),
            random,
        })
    }

    /// The type of a member or of a parameter.
    fn value(&mut self) -> u32 {
        match self.random.below(3) {
            0 => self.random.one_of(&self.pointers),
            _ => self.random.one_of(&self.ints),
        }
    }

    /// This number of INTs, with a TYPEDEF of each, and the pointer to void.
    fn add_ints(&mut self, count: u32) -> Result<(), Fail> {
        for place in 0..count {
            let name = self.sketch.name(&mut self.random)?;
            let int = self.sketch.int(name, 1 << (place % 4))?;
            let name = self.sketch.name(&mut self.random)?;
            let typedef = self.sketch.record(BtfKind::Typedef, name, 0, int, &[])?;
            self.ints.extend_from_slice(&[int, typedef])?;
        }
        let pointer = self.sketch.record(BtfKind::Ptr, 0, 0, 0, &[])?;
        self.pointers.push(pointer)?;
        Ok(())
    }

    /// The words of this number of items: for each a name, a type, and for a member its first bit.
    fn items(&mut self, count: u32, members: bool) -> Result<Vec<u32>, Fail> {
        let mut words = Vec::new(self.alloc);
        for place in 0..count {
            words.push(self.sketch.name(&mut self.random)?)?;
            words.push(self.value())?;
            if members {
                words.push(place.wrapping_mul(64))?;
            }
        }
        Ok(words)
    }

    /// This number of structures, with a pointer to each.
    fn add_structures(&mut self, count: u32) -> Result<(), Fail> {
        for _ in 0..count {
            let len = self.random.from(1, 12);
            let words = self.items(len, true)?;
            let name = self.sketch.name(&mut self.random)?;
            self.places.push(self.sketch.third_word())?;
            let size = len.wrapping_mul(8);
            let to = self
                .sketch
                .record(BtfKind::Struct, name, len, size, &words)?;
            let pointer = self.sketch.record(BtfKind::Ptr, 0, 0, to, &[])?;
            self.pointers.push(pointer)?;
        }
        Ok(())
    }

    /// This number of enumerations; one in four has 64-bit values.
    fn add_enumerations(&mut self, count: u32) -> Result<(), Fail> {
        for place in 0..count {
            let name = self.sketch.name(&mut self.random)?;
            let first = self.sketch.name(&mut self.random)?;
            let second = self.sketch.name(&mut self.random)?;
            if place % 4 == 0 {
                let words = [first, place, 0, second, place, 1];
                self.sketch.record(BtfKind::Enum64, name, 2, 8, &words)?;
            } else {
                let words = [first, 0, second, place];
                self.sketch.record(BtfKind::Enum, name, 2, 4, &words)?;
            }
        }
        Ok(())
    }

    /// This number of functions, with alternating linkages.
    fn add_functions(&mut self, count: u32) -> Result<(), Fail> {
        for place in 0..count {
            let len = self.random.from(1, 4);
            let words = self.items(len, false)?;
            let returned = self.value();
            let of = self
                .sketch
                .record(BtfKind::FuncProto, 0, len, returned, &words)?;
            let name = self.sketch.name(&mut self.random)?;
            self.sketch.record(BtfKind::Func, name, place % 2, of, &[])?;
        }
        Ok(())
    }

    /// A section of this number of variables; `sized` is whether the compiler knows its size and the offsets.
    fn add_section(&mut self, name: &str, count: u32, sized: bool) -> Result<u32, Fail> {
        let mut words = Vec::new(self.alloc);
        let mut offset = 0u32;
        for place in 0..count {
            let symbol = format!(in self.alloc; "{}_{place}", name.trim_start_matches('.'))?;
            let text = self.sketch.string(symbol.as_str())?;
            let of = self.value();
            let id = self.sketch.record(BtfKind::Var, text, 0, of, &[1])?;
            words.extend_from_slice(&[id, if sized { offset } else { 0 }, 8])?;
            self.symbols.insert(symbol, u64::from(offset))?;
            offset = offset.wrapping_add(8);
        }
        let size = (SectionIndex(0), u64::from(offset));
        self.sections
            .insert(String::from_str(self.alloc, name)?, size)?;
        let text = self.sketch.string(name)?;
        let third = if sized { offset } else { 0 };
        self.sketch
            .record(BtfKind::DataSec, text, count, third, &words)
    }

    /// The sections of data, and the id of `.ksyms`.
    fn add_sections(&mut self) -> Result<KsymsIds, Fail> {
        self.add_section(".maps", 12, false)?;
        self.add_section(".rodata", 10, true)?;
        self.add_section(".bss", 8, false)?;
        self.add_section(".data", 8, false)?;
        self.add_section("license", 1, false)?;
        Ok(KsymsIds {
            datasec_id: self.add_section(".ksyms", 4, false)?,
            placeholder_id: None,
        })
    }
}

/// The sections of code: the string offset of each name, and the names.
fn code_sections(
    alloc: Global,
    sketch: &mut Sketch,
    count: u32,
) -> Result<(Vec<u32>, Vec<String>), Fail> {
    let mut offsets = Vec::new(alloc);
    let mut names = Vec::new(alloc);
    for place in 0..count {
        let name = format!(in alloc; "kprobe/handler_{place}")?;
        offsets.push(sketch.string(name.as_str())?)?;
        names.push(name)?;
    }
    Ok((offsets, names))
}

/// Adds a section, by the offset of its name, to a part of `.BTF.ext`: a number of records of a number of words.
fn add_records(
    words: &mut Vec<u32>,
    random: &mut Random,
    offset: u32,
    count: u32,
    width: u32,
) -> Result<(), Fail> {
    words.extend_from_slice(&[offset, count])?;
    for _ in 0..count.wrapping_mul(width) {
        words.push(random.below(256))?;
    }
    Ok(())
}

/// A part of `.BTF.ext`: the size of a record, and up to a number of records for each section.
fn part(
    alloc: Global,
    random: &mut Random,
    offsets: &[u32],
    most: u32,
    width: u32,
) -> Result<Vec<u32>, Fail> {
    let mut words = Vec::new(alloc);
    words.push(width.wrapping_mul(4))?;
    for offset in offsets {
        let count = random.from(most / 2, most / 2);
        add_records(&mut words, random, *offset, count, width)?;
    }
    Ok(words)
}

/// The `.BTF.ext` of these sections. The lowest bytes of some words of its line records may have any value.
fn ext(
    alloc: Global,
    random: &mut Random,
    order: Endianness,
    offsets: &[u32],
) -> Result<Input, Fail> {
    let func = part(alloc, random, offsets, 4, 2)?;
    let line = part(alloc, random, offsets, 120, 4)?;
    let core = part(alloc, random, offsets, 16, 4)?;
    let func_len = u32::try_from(func.len())?.wrapping_mul(4);
    let line_len = u32::try_from(line.len())?.wrapping_mul(4);
    let front = match order {
        Endianness::Little => [0x9f, 0xeb, 1, 0],
        Endianness::Big => [0xeb, 0x9f, 1, 0],
    };
    let core_at = func_len.wrapping_add(line_len);
    let core_len = u32::try_from(core.len())?.wrapping_mul(4);
    let header = [32, 0, func_len, func_len, line_len, core_at, core_len];
    let mut bytes = Vec::from_slice(alloc, &front)?;
    push_words(&mut bytes, &header, order)?;
    push_words(&mut bytes, &func, order)?;
    let first = bytes.len();
    push_words(&mut bytes, &line, order)?;
    push_words(&mut bytes, &core, order)?;
    // The first record of lines is after the record size and the two words of its section.
    let mut places = Vec::new(alloc);
    for place in 12..60 {
        places.push(first.wrapping_add(place))?;
    }
    Ok(Input::new(bytes, places))
}

/// A program of this number of structures and of functions; the number of its sections of code is a fourth of that.
pub fn drawn_program(
    alloc: Global,
    random: &mut Random,
    order: Endianness,
    size: u32,
) -> Result<Program, Fail> {
    let mut maker = Maker::new(alloc, order, Random::new(random.number()))?;
    maker.add_ints(8)?;
    maker.add_structures(size)?;
    maker.add_enumerations(size / 4)?;
    maker.add_functions(size)?;
    let ksyms = maker.add_sections()?;
    let (offsets, code) = code_sections(alloc, &mut maker.sketch, size / 4)?;
    let ext = ext(alloc, random, order, &offsets)?;
    let places = some_places(alloc, &maker.places, 4)?;
    Ok(Program {
        order,
        table: Input::new(maker.sketch.blob()?, places),
        ext,
        code,
        sections: maker.sections,
        symbols: maker.symbols,
        ksyms: if size % 2 == 0 { Some(ksyms) } else { None },
    })
}
