//! `btf_workloads JOB SEED SIZE ROUNDS`: typical jobs of a user of the library, to compare the times of two builds.
//!
//! The seed determines the input: another seed gives another input of the same kind and size. Each round does the job
//! once more, on different input. The program prints a digest of all results, and no times. JOB is `copy`, `rewrite`,
//! `list`, `relocate`, `load` or `hostile`, or `all` for one after the other.
#![tactic(auto)]

mod awkward;
mod digest;
mod input;
mod jobs;
mod kernel;
mod program;
mod random;
mod sketch;

use crate::digest::Digest;
use crate::random::Random;
use std::alloc::Global;
use std::env;
use std::test::Fail;

/// The request in the words after the program's name.
#[derive(Drop)]
struct Request {
    job: String,
    seed: u64,
    size: u32,
    rounds: u32,
}

impl Request {
    /// Reads the word at an index.
    fn take(&mut self, place: usize, word: String) -> Result<(), Fail> {
        match place {
            1 => self.job = word,
            2 => self.seed = word.parse()?,
            3 => self.size = word.parse()?,
            4 => self.rounds = word.parse()?,
            _ => {}
        }
        Ok(())
    }
}

/// The request of the words.
fn asked_for(rt: &HostRuntime) -> Result<Request, Fail> {
    let mut request = Request {
        job: String::new(rt.alloc()),
        seed: 1,
        size: 1000,
        rounds: 1,
    };
    for (place, word) in env::args(rt)?.enumerate() {
        request.take(place, word)?;
    }
    Ok(request)
}

/// The names of the jobs.
static NAMES: [&str; 6] = ["copy", "rewrite", "list", "relocate", "load", "hostile"];

/// Does a job.
fn done(alloc: Global, name: &str, request: &Request) -> Result<Digest, Fail> {
    let mut random = Random::new(request.seed);
    let (size, rounds) = (request.size, request.rounds);
    match name {
        "copy" => jobs::copy(alloc, &mut random, size, rounds),
        "rewrite" => jobs::rewrite(alloc, &mut random, size, rounds),
        "list" => jobs::list(alloc, &mut random, size, rounds),
        "relocate" => jobs::relocate(alloc, &mut random, size, rounds),
        "load" => jobs::load(alloc, &mut random, size, rounds),
        _ => jobs::survive(alloc, &mut random, size, rounds),
    }
}

/// Does a job, and prints its digest.
fn print(rt: &HostRuntime, name: &str, request: &Request) -> Result<(), Fail> {
    let digest = done(rt.alloc(), name, request)?;
    println!(rt; "{name} {:016x}", digest.value())?;
    Ok(())
}

fn main(rt: HostRuntime) -> Result<(), Fail> {
    let request = asked_for(&rt)?;
    for name in &NAMES {
        if request.job.as_str() == "all" || request.job.as_str() == *name {
            print(&rt, name, &request)?;
        }
    }
    Ok(())
}
