//! A map from pairs of ids to their progress, and what a run has recorded about the pairs that it has started.

ghost use Rattle.std.specs.Prelude.{◌≡◌, ℕ, ◌+◌, None, IsSome, OnOk};
ghost use Rattle.btf_compare.specs.PairMap.{known_progress, count, Learns};

use crate::entries::{Entries, Progress};
use crate::pair_table::{PairTable, ROOM};
use std::alloc::{AllocError, Global};
use std::mem;

/// A map from pairs of ids, the local id first. Up to 16 pairs are in an array, without an allocation, because most
/// comparisons need no more. When the array is full, all pairs move to a hash table.
#[derive(Drop)]
pub struct PairMap {
    few: Entries<ROOM>,
    many: Option<PairTable>,
    alloc: Global,
}

impl PairMap {
    /// An empty map.
    pub fn new(alloc: Global) -> Self
        ensures empty { (ids : ℕ × ℕ) → known_progress result ids ≡ None }
        ensures counts { count result ≡ 0 }
    {
        PairMap {
            few: Entries::new(),
            many: None,
            alloc,
        }
    }

    /// The progress of a pair.
    #[inline(always)]
    pub fn get(&self, pair: (u32, u32)) -> Option<Progress>
        ensures { result ≡ known_progress self.now pair }
    {
        match &self.many {
            Some(table) => table.get(pair),
            None => self.few.get(pair),
        }
    }

    /// Adds a pair that is not in the map, with its progress.
    #[inline(always)]
    pub fn insert(&mut self, pair: (u32, u32), progress: Progress) -> Result<(), AllocError>
        requires { known_progress self.old pair ≡ None }
        ensures learns { OnOk result (Learns self.old self.new pair progress) }
        ensures counts { OnOk result (count self.new ≡ count self.old + 1) }
    {
        if self.many.is_none() && !self.few.are_full() {
            self.few.push(pair, progress);
            return Ok(());
        }
        self.insert_in_table(pair, progress)
    }

    /// Adds the pair if the array is full or the table exists. This is a separate function because few comparisons call
    /// it, and a function clears its whole stack frame on entry.
    #[inline(never)]
    fn insert_in_table(&mut self, pair: (u32, u32), progress: Progress) -> Result<(), AllocError>
        requires { known_progress self.old pair ≡ None }
        ensures learns { OnOk result (Learns self.old self.new pair progress) }
        ensures counts { OnOk result (count self.new ≡ count self.old + 1) }
    {
        if let Some(table) = &mut self.many {
            return table.insert(pair, progress);
        }
        let few = mem::replace(&mut self.few, Entries::new());
        let mut table = PairTable::new(self.alloc, few)?;
        table.insert(pair, progress)?;
        self.many = Some(table);
        Ok(())
    }

    /// Changes the progress of a pair in the map, without an allocation.
    #[inline(always)]
    pub fn update(&mut self, pair: (u32, u32), progress: Progress)
        requires { IsSome (known_progress self.old pair) }
        ensures learns { Learns self.old self.new pair progress }
        ensures counts { count self.new ≡ count self.old }
    {
        match &mut self.many {
            Some(table) => table.update(pair, progress),
            None => {
                self.few.set(pair, progress);
            }
        }
    }
}

/// A record of the pairs that a run has started.
pub trait Listed {
    ghost use Rattle.std.specs.Prelude.{◌≡◌, ℕ, Option, None, OnOk};
    ghost use Rattle.btf_compare.specs.declared.entries.Progress.{Progress};

    /// The recorded progress of each pair; None for a pair that is not recorded.
    ghost knows: { Self → ℕ × ℕ → Option Progress };

    /// The second value is the first after this pair was recorded with this progress.
    ghost learns: { Self → Self → ℕ × ℕ → Progress → Type 0 };

    /// Records a pair that is not recorded yet.
    fn remember(&mut self, pair: (u32, u32), progress: Progress) -> Result<(), AllocError>
        requires { knows self.old pair ≡ None }
        ensures { OnOk result (learns self.old self.new pair progress) };
}

/// The map of a run.
impl Listed for PairMap {
    ghost use Rattle.std.specs.Prelude.{◌≡◌, ◌+◌};
    ghost use Rattle.btf_compare.specs.PairMap.{known_progress, count, Learns};

    ghost knows = { λ m ids. known_progress m ids };

    ghost learns = { λ old new ids p. Learns old new ids p × (count new ≡ count old + 1) };

    #[inline(always)]
    fn remember(&mut self, pair: (u32, u32), progress: Progress) -> Result<(), AllocError> {
        self.insert(pair, progress)
    }
}

/// An empty record that ignores the first pair of a run, because most runs end with that pair.
#[derive(Drop)]
pub struct NoneListed;

impl Listed for NoneListed {
    ghost use Rattle.std.specs.Prelude.{None};

    ghost knows = { λ m ids. None };

    ghost learns = { λ old new ids p. Unit {0} };

    #[inline(always)]
    fn remember(&mut self, _pair: (u32, u32), _progress: Progress) -> Result<(), AllocError> {
        Ok(())
    }
}
