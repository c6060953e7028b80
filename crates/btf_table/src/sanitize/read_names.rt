//! A cache for names that records of a table share.

ghost use Rattle.btf_rewrite_model.specs.Pass.{Layout};
ghost use Rattle.btf_table.specs.ReadNames.{AreRead};

use crate::table::Btf;
use std::collections::BTreeMap;

/// The length in bytes above which a name is cached. Reading a shorter name again is faster.
pub const LONG_NAME: usize = 64;

/// The long names that a pass has read, and what it has found for them, by their string offsets. Each is read once,
/// however many records share it.
#[derive(Drop)]
pub struct ReadNames {
    /// Names can be read at the offsets below this one.
    pub readable_end: usize,
    /// The offsets of names that a DATASEC retains on a kernel that has DATASECs (true) or has none (false).
    pub kept: BTreeMap<u32, bool>,
    /// The sizes of the sections of these names.
    pub sizes: BTreeMap<u32, u32>,
    /// The offsets of the symbols of these names.
    pub offsets: BTreeMap<u32, u32>,
}

impl ReadNames {
    /// An empty cache. Allocates no memory.
    pub fn new(btf: &Btf) -> Self
        ensures { (layout : Layout) → AreRead btf.now.strings layout result }
    {
        let alloc = btf.allocator();
        Self {
            readable_end: btf.readable_end(),
            kept: BTreeMap::new(alloc),
            sizes: BTreeMap::new(alloc),
            offsets: BTreeMap::new(alloc),
        }
    }
}
