//! The times of one work.

use std::alloc::{AllocError, Global};

/// The nanoseconds of each run.
#[derive(Drop)]
pub struct Timing {
    runs: Vec<u64>,
}

impl Timing {
    pub fn new(alloc: Global) -> Self {
        Timing {
            runs: Vec::new(alloc),
        }
    }

    /// Inserts a run, so that the runs stay in rising order.
    pub fn add(&mut self, nanoseconds: u64) -> Result<(), AllocError> {
        let place = self.runs.iter().filter(|run| **run <= nanoseconds).count();
        self.runs.insert(place.min(self.runs.len()), nanoseconds)?;
        Ok(())
    }

    /// The least time; 0 if there was no run.
    pub fn least(&self) -> u64 {
        self.runs.first().copied().unwrap_or(0)
    }

    /// The median time; 0 if there was no run.
    pub fn median(&self) -> u64 {
        self.runs.get(self.runs.len() / 2).copied().unwrap_or(0)
    }
}
