//! The works that are timed.

use btf::{
    Btf, BtfError, BtfExt, BtfFeatureResolver, BtfKind, Endianness, FillPolicy, SectionIndex,
    rewrite_bytes_with, types_are_compatible,
};
use std::alloc::Global;
use std::collections::HashMap;
use std::fs;
use std::hash::RandomState;
use std::test::Fail;
use std::time::Instant;

/// The names of the works, in the order in which they are timed.
pub static NAMES: [&str; 12] = [
    "parse",
    "to_bytes",
    "clone",
    "rewrite_none",
    "rewrite_all",
    "bytes_none",
    "compat_self",
    "compat_next",
    "lookup_func",
    "resolve",
    "size",
    "name",
];

/// The subject of the works: the bytes of a table, the table, the ids of its prototypes, and its last FUNC's name.
#[derive(Drop)]
pub struct Bench<'a> {
    alloc: Global,
    blob: &'a [u8],
    btf: &'a Btf,
    prototypes: Vec<u32>,
    func: String,
}

/// The two numbers of `N,N`; 0 where there is none.
fn numbers(text: &str) -> (u32, u32) {
    let (first, second) = text.split_once(',').unwrap_or((text, ""));
    (first.parse().unwrap_or(0), second.parse().unwrap_or(0))
}

/// The length of the text at a string offset. An error counts as 1.
fn text_len(btf: &Btf, offset: u32) -> u64 {
    match btf.string_at(offset) {
        Ok(text) => text.as_str().len() as u64,
        Err(_) => 1,
    }
}

/// The nanoseconds since a time.
pub fn since(rt: &HostRuntime, start: Instant) -> Result<u64, Fail> {
    Ok(u64::try_from(start.elapsed(rt)?.as_nanos())?)
}

/// The ids of the types of a kind.
fn ids_of(alloc: Global, btf: &Btf, kind: BtfKind) -> Result<Vec<u32>, Fail> {
    let mut ids = Vec::new(alloc);
    let mut id = 0u32;
    for record in btf.types() {
        if record.kind() == kind {
            ids.push(id)?;
        }
        id = id.wrapping_add(1);
    }
    Ok(ids)
}

/// The name of a type; empty if it cannot be read.
fn name_of(alloc: Global, btf: &Btf, id: u32) -> Result<String, BtfError> {
    let name = btf.err_type_name(btf.type_by_id(id)?)?;
    Ok(name.unwrap_or(String::new(alloc)))
}

/// The sections and the symbols of a program.
type Layout = (HashMap<String, (SectionIndex, u64)>, HashMap<String, u64>);

/// A section of 16 bytes and a symbol at 8 of the name at a string offset; none at 0.
fn layout(alloc: Global, btf: &Btf, offset: u32) -> Result<Layout, Fail> {
    let mut layout = (HashMap::new(alloc), HashMap::new(alloc));
    if offset > 0 {
        let name = btf.string_at(offset)?;
        layout.0.insert(
            String::from_str(alloc, name.as_str())?,
            (SectionIndex(0), 16),
        )?;
        layout.1.insert(String::from_str(alloc, name.as_str())?, 8)?;
    }
    Ok(layout)
}

/// Rewrites a table for a kernel that has all features, or none.
fn rewrite(btf: &mut Btf, layout: &Layout, granted: bool) -> Result<(), BtfError> {
    let (sections, symbols) = layout;
    let mut resolver = BtfFeatureResolver::new(|_| granted);
    let policy = FillPolicy::KeepSized;
    btf.fixup_and_sanitize_with(sections, symbols, None, policy, &mut resolver)?;
    Ok(())
}

impl<'a> Bench<'a> {
    pub fn new(alloc: Global, blob: &'a [u8], btf: &'a Btf) -> Result<Self, Fail> {
        let functions = ids_of(alloc, btf, BtfKind::Func)?;
        let last = functions.last().copied().unwrap_or(0);
        let func = name_of(alloc, btf, last)?;
        let prototypes = ids_of(alloc, btf, BtfKind::FuncProto)?;
        Ok(Bench {
            alloc,
            blob,
            btf,
            prototypes,
            func,
        })
    }

    /// The number of types, id 0 among them.
    pub fn records(&self) -> u64 {
        self.btf.types().len() as u64
    }

    /// The nanoseconds that one run of a work takes.
    pub fn nanoseconds(&self, rt: &HostRuntime, name: &str) -> Result<u64, Fail> {
        let (work, given) = name.split_once('=').unwrap_or((name, ""));
        let (first, second) = numbers(given);
        match work {
            "compare" => self.compare_pair(rt, first, second),
            "rewrite" => self.rewrite(rt, true, first),
            "text" => self.read_texts(rt, first, second),
            "ext" => self.parse_ext(rt, given),
            "keyed_ext" => self.parse_keyed_ext(rt, given),
            "parse" => self.parse(rt),
            "to_bytes" => self.to_bytes(rt),
            "clone" => self.clone_table(rt),
            "rewrite_none" => self.rewrite(rt, false, 0),
            "rewrite_all" => self.rewrite(rt, true, 0),
            "bytes_none" => self.rewrite_bytes(rt),
            "compat_self" => self.compare(rt, 0),
            "compat_next" => self.compare(rt, 1),
            "lookup_func" => self.look_up(rt),
            _ => self.walk(rt, name),
        }
    }

    fn parse(&self, rt: &HostRuntime) -> Result<u64, Fail> {
        let start = Instant::now(rt)?;
        let table = Btf::parse(self.alloc, self.blob, Endianness::Little)?;
        let took = since(rt, start);
        drop(table);
        took
    }

    fn to_bytes(&self, rt: &HostRuntime) -> Result<u64, Fail> {
        let start = Instant::now(rt)?;
        let bytes = self.btf.to_bytes()?;
        let took = since(rt, start);
        drop(bytes);
        took
    }

    fn clone_table(&self, rt: &HostRuntime) -> Result<u64, Fail> {
        let start = Instant::now(rt)?;
        let table = self.btf.try_clone()?;
        let took = since(rt, start);
        drop(table);
        took
    }

    /// A rewrite with a section and a symbol of the name at a string offset; with none at 0.
    fn rewrite(&self, rt: &HostRuntime, granted: bool, offset: u32) -> Result<u64, Fail> {
        let layout = layout(self.alloc, self.btf, offset)?;
        let mut table = self.btf.try_clone()?;
        let start = Instant::now(rt)?;
        // A table with unknown sections is an error, and its time is measured too.
        let rewritten = rewrite(&mut table, &layout, granted);
        let took = since(rt, start);
        drop(rewritten);
        drop(table);
        took
    }

    /// From bytes to bytes, for a kernel that has none of the features.
    fn rewrite_bytes(&self, rt: &HostRuntime) -> Result<u64, Fail> {
        let sections = HashMap::new(self.alloc);
        let symbols = HashMap::new(self.alloc);
        let mut resolver = BtfFeatureResolver::new(|_| false);
        let start = Instant::now(rt)?;
        let (bytes, _) = rewrite_bytes_with(
            self.alloc,
            self.blob,
            Endianness::Little,
            &sections,
            &symbols,
            None,
            FillPolicy::KeepSized,
            &mut resolver,
        )?;
        let took = since(rt, start);
        drop(bytes);
        took
    }

    /// The number of prototypes that are compatible with the prototype this number of places after them.
    fn compatible(&self, distance: usize) -> u32 {
        let mut count = 0u32;
        for (id, other) in self
            .prototypes
            .iter()
            .zip(self.prototypes.iter().skip(distance))
        {
            let found = types_are_compatible(self.btf, *id, self.btf, *other);
            count = count.wrapping_add(u32::from(found.unwrap_or(false)));
        }
        count
    }

    fn compare(&self, rt: &HostRuntime, distance: usize) -> Result<u64, Fail> {
        let start = Instant::now(rt)?;
        let count = self.compatible(distance);
        let took = since(rt, start)?;
        // What was found is used, so that the loop is not left out.
        Ok(if count == u32::MAX { 0 } else { took })
    }

    fn compare_pair(&self, rt: &HostRuntime, id: u32, other: u32) -> Result<u64, Fail> {
        let start = Instant::now(rt)?;
        let found = types_are_compatible(self.btf, id, self.btf, other);
        let took = since(rt, start);
        drop(found);
        took
    }

    /// Reads the text at a string offset this number of times.
    fn read_texts(&self, rt: &HostRuntime, offset: u32, count: u32) -> Result<u64, Fail> {
        let start = Instant::now(rt)?;
        let mut all = 0u64;
        for _ in 0..count {
            all = all.wrapping_add(text_len(self.btf, offset));
        }
        let took = since(rt, start)?;
        // What was found is used, so that the loop is not left out.
        Ok(if all == u64::MAX { 0 } else { took })
    }

    fn parse_ext(&self, rt: &HostRuntime, file: &str) -> Result<u64, Fail> {
        let bytes = fs::read(rt, file)?;
        let start = Instant::now(rt)?;
        let ext = BtfExt::parse(&bytes, Endianness::Little, self.btf)?;
        let took = since(rt, start);
        drop(ext);
        took
    }

    fn parse_keyed_ext(&self, rt: &HostRuntime, file: &str) -> Result<u64, Fail> {
        let bytes = fs::read(rt, file)?;
        let keys = RandomState::new(rt)?;
        let start = Instant::now(rt)?;
        let ext = BtfExt::parse_with_hasher(&bytes, Endianness::Little, self.btf, keys)?;
        let took = since(rt, start);
        drop(ext);
        took
    }

    fn look_up(&self, rt: &HostRuntime) -> Result<u64, Fail> {
        let start = Instant::now(rt)?;
        let found = self
            .btf
            .id_by_type_name_kind(self.func.as_str(), BtfKind::Func)
            .is_ok();
        let took = since(rt, start)?;
        Ok(if found { took } else { 0 })
    }

    /// The nanoseconds of a walk from each id. The work's name selects the walk once, and not at each step.
    fn walk(&self, rt: &HostRuntime, name: &str) -> Result<u64, Fail> {
        let start = Instant::now(rt)?;
        let all = match name {
            "resolve" => self.sum(resolved),
            "size" => self.sum(size),
            _ => self.sum(name_len),
        };
        let took = since(rt, start)?;
        // What was found is used, so that the loop is not left out.
        Ok(if all == u64::MAX { 0 } else { took })
    }

    /// The sum of the results at all ids.
    fn sum<F: Fn(&Btf, u32) -> u64>(&self, found: F) -> u64
        requires { F.IsAlwaysCallable found }
    {
        let mut all = 0u64;
        let mut id = 0u32;
        for _ in self.btf.types() {
            all = all.wrapping_add(found(self.btf, id));
            id = id.wrapping_add(1);
        }
        all
    }
}

// An error counts as 1. It is not propagated, because copying its contents would be timed too.

/// The id that an id resolves to.
fn resolved(btf: &Btf, id: u32) -> u64 {
    match btf.resolve_type(id) {
        Ok(found) => u64::from(found),
        Err(_) => 1,
    }
}

/// The size of a type.
fn size(btf: &Btf, id: u32) -> u64 {
    match btf.type_size(id) {
        Ok(bytes) => bytes as u64,
        Err(_) => 1,
    }
}

/// The length of the name of a type.
fn name_len(btf: &Btf, id: u32) -> u64 {
    let Ok(record) = btf.type_by_id(id) else {
        return 1;
    };
    let Ok(name) = btf.type_name(record) else {
        return 1;
    };
    name.as_str().len() as u64
}
