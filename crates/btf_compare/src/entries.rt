//! A short list of pairs of ids, searched from its first entry to its last.

ghost use Rattle.std.specs.Prelude.{◌≡◌, ◌<◌, ◌++◌, ◌∷◌, [], length, IsTrue, false, is_some, IfSome, IfNone};
ghost use Rattle.btf_compare.specs.Entries.{IsNoPair, IsPlaceOf, Sets, values_in};

use arrayvec::ArrayVec;

/// The progress of a pair that a run has started.
#[derive(Clone, Copy, Default)]
pub enum Progress {
    /// Its walk is not finished: it goes on, or waits for a pending parameter pair.
    #[default]
    Open,
    /// It is known to be compatible.
    Compatible,
}

/// At most `N` pairs of ids, the local id first, each with its progress.
#[derive(Drop)]
pub struct Entries<const N: usize> {
    pub list: ArrayVec<((u32, u32), Progress), N>,
}

impl<const N: usize> Entries<N> {
    /// An empty list.
    #[inline(always)]
    pub fn new() -> Self
        ensures { result.list.items ≡ [] }
    {
        Entries {
            list: ArrayVec::new(),
        }
    }

    /// Whether the list is full.
    #[inline(always)]
    pub fn are_full(&self) -> bool
        ensures room { result ≡ false → length self.now.list.items < N }
        ensures full { IsTrue result → length self.now.list.items ≡ N }
    {
        self.list.is_full()
    }

    /// The progress of a pair.
    #[inline(always)]
    pub fn get(&self, pair: (u32, u32)) -> Option<Progress>
        ensures { result ≡ values_in self.now.list.items pair }
    {
        match self.place(pair) {
            Some(index) => Some(self.list[index].1),
            None => None,
        }
    }

    /// Adds a pair after the others.
    #[inline(always)]
    pub fn push(&mut self, pair: (u32, u32), progress: Progress)
        requires { length self.old.list.items < N }
        ensures { self.new.list.items ≡ self.old.list.items ++ (pair, progress) ∷ [] }
    {
        self.list.push((pair, progress));
    }

    /// Changes the progress of a pair, and returns whether the list contains the pair.
    #[inline(always)]
    pub fn set(&mut self, pair: (u32, u32), progress: Progress) -> bool
        ensures found { result ≡ is_some (values_in self.old.list.items pair) }
        ensures sets { IsTrue result
            → Sets (values_in self.old.list.items) (values_in self.new.list.items) pair progress }
        ensures stays { result ≡ false → self.new.list.items ≡ self.old.list.items }
        ensures len { length self.new.list.items ≡ length self.old.list.items }
    {
        let Some(index) = self.place(pair) else {
            return false;
        };
        if let Some(entry) = self.list.get_mut(index) {
            *entry = (pair, progress);
        }
        true
    }

    /// The index of a pair's entry.
    fn place(&self, pair: (u32, u32)) -> Option<usize>
        ensures place { IfSome result (λ index. IsPlaceOf pair self.now.list.items index) }
        ensures within { IfSome result (λ index. index < length self.now.list.items) }
        ensures none { IfNone result (IsNoPair pair self.now.list.items) }
    {
        for (index, entry) in self.list.iter().enumerate() {
            if pair == entry.0 {
                return Some(index);
            }
        }
        None
    }
}
