//! A hash table of pairs of ids, and its buckets.

ghost use Rattle.std.specs.Prelude.{◌≡◌, ℕ, ◌+◌, ◌<◌, [], length, None, IsSome, IfOk, OnOk};
ghost use Rattle.btf_compare.specs.Entries.{Sets, values_in};
ghost use Rattle.btf_compare.specs.Buckets.{bucket_of, spread};
ghost use Rattle.btf_compare.specs.PairTable.{AreShared, HasRoom, capacity, count_in, held, entries_of, value_of};

use crate::entries::{Entries, Progress};
use std::alloc::{AllocError, Global};
use std::collections::BTreeMap;
use std::marker::Model;

/// The capacity of a bucket, in pairs.
pub const ROOM: usize = 16;

/// The mean number of pairs per bucket at which the table grows by a bucket.
const LOAD: usize = 6;

/// The number of buckets that a new table allocates memory for.
const FIRST_BUCKETS: usize = 8;

/// The pairs of a bucket, and whether the bucket has overflowed.
#[derive(Drop)]
pub struct Bucket {
    pub entries: Entries<ROOM>,
    /// Whether the ordered map may hold pairs of this bucket.
    pub overflows: bool,
}

impl Bucket {
    /// An empty bucket.
    #[inline(always)]
    pub fn new(overflows: bool) -> Self
        ensures empty { entries_of result ≡ [] }
        ensures overflows { result.overflows ≡ overflows }
    {
        Bucket {
            entries: Entries::new(),
            overflows,
        }
    }

    /// Splits the bucket in two. A pair goes to the second bucket if its masked hash equals this number.
    pub fn split(&self, mask: usize, number: usize) -> (Self, Self)
        ensures shared { AreShared mask number (entries_of result.0) (entries_of result.1)
            (entries_of self.now) }
        ensures counts { length (entries_of result.0) + length (entries_of result.1)
            ≡ length (entries_of self.now) }
        ensures stay { result.0.overflows ≡ self.now.overflows }
        ensures go { result.1.overflows ≡ self.now.overflows }
    {
        let mut stay = Bucket::new(self.overflows);
        let mut go = Bucket::new(self.overflows);
        for entry in self.entries.list.iter() {
            let (pair, progress) = *entry;
            if spread(pair) & mask == number {
                go.entries.push(pair, progress);
            } else {
                stay.entries.push(pair, progress);
            }
        }
        (stay, go)
    }
}

/// A table of pairs of ids, each with its progress. It grows by one bucket at a time (linear hashing: Litwin, "Linear
/// hashing: a new tool for file and table addressing", 1980). If a pair's bucket is full, the pair goes to an ordered
/// map, so that look-ups stay fast even if an untrusted table makes all pairs collide.
#[derive(Drop)]
pub struct PairTable {
    buckets: Vec<Bucket>,
    /// The mask of a pair's hash that gives the index of its bucket. If that bucket does not exist yet, one bit less is
    /// used.
    mask: usize,
    /// The number of pairs that the buckets take before the table grows by a bucket. Pairs of the ordered map do not
    /// count, so colliding pairs do not make the table grow.
    left: usize,
    /// The pairs whose buckets were full.
    further: BTreeMap<(u32, u32), Progress>,
}

impl Model for PairTable {
    ghost use Rattle.btf_compare.specs.PairTable.{IsPairTable, TakesMore, BucketLayout, layout};
    ghost use Rattle.btf_compare.specs.declared.entries.Progress.{Progress};

    ghost Value = { BucketLayout Progress };

    ghost view = { λ t. layout t.buckets.items t.mask t.further.entries };

    ghost invariant = { λ t. IsPairTable (layout t.buckets.items t.mask t.further.entries)
        × TakesMore (layout t.buckets.items t.mask t.further.entries) t.left };
}

impl PairTable {
    /// A table of these pairs.
    pub fn new(alloc: Global, entries: Entries<ROOM>) -> Result<Self, AllocError>
        ensures values { IfOk result
            (λ t. (ids : ℕ × ℕ) → value_of t ids ≡ values_in entries.list.items ids) }
        ensures counts { IfOk result (λ t. count_in t ≡ length entries.list.items) }
    {
        let left = ROOM - entries.list.len();
        let mut buckets = Vec::with_capacity(alloc, FIRST_BUCKETS)?;
        buckets.push_reserved(Bucket {
            entries,
            overflows: false,
        });
        Ok(PairTable {
            buckets,
            mask: 1,
            left,
            further: BTreeMap::new(alloc),
        })
    }

    /// The progress of a pair.
    pub fn get(&self, pair: (u32, u32)) -> Option<Progress>
        ensures { result ≡ value_of self.now pair }
    {
        let bucket = &self.buckets[bucket_of(self.mask, self.buckets.len(), pair)];
        match bucket.entries.get(pair) {
            Some(progress) => Some(progress),
            None if bucket.overflows => self.further.get(&pair).copied(),
            None => None,
        }
    }

    /// Adds a pair that is not in the table, with its progress.
    pub fn insert(&mut self, pair: (u32, u32), progress: Progress) -> Result<(), AllocError>
        requires { value_of self.old pair ≡ None }
        ensures learns { OnOk result (Sets (value_of self.old) (value_of self.new) pair progress) }
        ensures counts { OnOk result (count_in self.new ≡ count_in self.old + 1) }
    {
        self.make_room()?;
        let index = bucket_of(self.mask, self.buckets.len(), pair);
        let bucket = &mut self.buckets[index];
        if bucket.entries.are_full() {
            self.further.insert(pair, progress)?;
            bucket.overflows = true;
        } else {
            bucket.entries.push(pair, progress);
            self.left -= 1;
        }
        Ok(())
    }

    /// Changes the progress of a pair in the table, without an allocation.
    pub fn update(&mut self, pair: (u32, u32), progress: Progress)
        requires { IsSome (value_of self.old pair) }
        ensures learns { Sets (value_of self.old) (value_of self.new) pair progress }
        ensures counts { count_in self.new ≡ count_in self.old }
    {
        let index = bucket_of(self.mask, self.buckets.len(), pair);
        if !self.buckets[index].entries.set(pair, progress) {
            if let Some(entry) = self.further.get_mut(&pair) {
                *entry = progress;
            }
        }
    }

    /// Adds a bucket if the buckets take no further pair.
    #[inline(always)]
    fn make_room(&mut self) -> Result<(), AllocError>
        ensures values { (ids : ℕ × ℕ) → value_of self.new ids ≡ value_of self.old ids }
        ensures counts { count_in self.new ≡ count_in self.old }
        ensures room { OnOk result (HasRoom self.new) }
        ensures kept { HasRoom self.old → self.new ≡ self.old }
    {
        if self.left == 0 {
            self.split_next()?;
        }
        Ok(())
    }

    /// Adds a bucket. The pairs that belong to it move from the next bucket to be split. This is a separate function
    /// because few insertions call it, and a function clears its whole stack frame on entry.
    #[inline(never)]
    fn split_next(&mut self) -> Result<(), AllocError>
        requires { held self.old.rows ≡ capacity (length self.old.rows) }
        ensures values { (ids : ℕ × ℕ) → value_of self.new ids ≡ value_of self.old ids }
        ensures counts { count_in self.new ≡ count_in self.old }
        ensures grows { OnOk result (length self.new.rows ≡ length self.old.rows + 1) }
        ensures room { OnOk result (HasRoom self.new) }
    {
        self.buckets.reserve(1)?;
        let many = self.buckets.len();
        let more = room_gained(many);
        let next = many - (self.mask / 2 + 1);
        let (stay, go) = self.buckets[next].split(self.mask, many);
        self.buckets[next] = stay;
        self.buckets.push_reserved(go);
        self.left = more;
        if many == self.mask {
            self.mask = 2 * self.mask + 1;
        }
        Ok(())
    }
}

/// The number of pairs that the buckets take, after this number of buckets has grown by one, before the table grows
/// again. While the pairs of a full array are distributed, it is one.
#[inline(always)]
fn room_gained(many: usize) -> usize
    ensures gains { result + capacity many ≡ capacity (many + 1) }
    ensures some { 0 < result }
{
    if many < 3 { 1 } else { LOAD }
}

/// The index of a pair's bucket; `many` is the number of buckets.
#[inline(always)]
fn bucket_of(mask: usize, many: usize, pair: (u32, u32)) -> usize
    ensures { result ≡ bucket_of mask many pair }
{
    let number = spread(pair);
    let index = number & mask;
    if index < many {
        index
    } else {
        number & (mask / 2)
    }
}

/// The hash of a pair of ids, which selects its bucket. The comparison often visits pairs with neighbouring local ids
/// and an equal difference of the two ids one after the other. Up to eight such pairs have consecutive hashes, so their
/// buckets are adjacent in memory. A product spreads the first hashes of these groups (Knuth, "The Art of Computer
/// Programming", volume 3, section 6.4).
#[inline(always)]
pub fn spread(pair: (u32, u32)) -> usize
    ensures { result ≡ spread pair }
{
    let apart = pair.1.wrapping_sub(pair.0) as u64;
    let bits = apart * (1 << 32) + (pair.0 / 8) as u64;
    (bits.wrapping_mul(0x9e37_79b9_7f4a_7c15) >> 32) as usize + (pair.0 % 8) as usize
}
