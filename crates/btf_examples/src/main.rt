//! Examples of a loader, a linker or a dumper that uses the library: `btf_examples PROGRAM KERNEL`. Both files have a
//! table in little-endian order; the ones here were written by clang for `data/program.c` and `data/kernel.c`.
//!
//! Each module is one example, and can be read on its own. In Rattle, `main` gets a `HostRuntime`, which gives access
//! to the process's files and streams. Memory is allocated with an allocator that is passed to calls, and a call that
//! allocates returns a `Result`, so an allocation failure is an error like any other.
#![tactic(auto)]

mod calls;
mod compatible;
mod lasting;
mod layout;
mod list;
mod old_kernel;
mod relocated;

use btf::{Btf, Endianness};
use std::test::Fail;
use std::{env, fs};

/// The table in a file.
fn table(rt: &HostRuntime, file: Option<String>) -> Result<Btf, Fail> {
    let file = file.unwrap_or(String::new(rt.alloc()));
    let bytes = fs::read(rt, file.as_str())?;
    Ok(Btf::parse(rt.alloc(), &bytes, Endianness::Little)?)
}

fn main(rt: HostRuntime) -> Result<(), Fail> {
    let mut files = env::args(&rt)?.skip(1);
    let mut program = table(&rt, files.next())?;
    let kernel = table(&rt, files.next())?;
    list::print_types(&rt, &kernel)?;
    layout::print_struct(&rt, &program, "packet")?;
    compatible::print_compatible(&rt, &program, &kernel, "handler")?;
    old_kernel::print_rewritten(&rt, &program.to_bytes()?)?;
    relocated::print_relocated(&rt, &mut program, &kernel)?;
    lasting::print_values(&rt, &mut program, "verdict")
}
