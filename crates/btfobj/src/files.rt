//! Reading files.

use std::alloc::Global;
use std::fs::File;
use std::io;
use std::io::Read;

/// The name of standard input, and of standard output.
pub const STREAM: &str = "-";

/// The whole of a file, or of standard input for `-`. Of a file that begins neither as an object nor as a table it is
/// the first four bytes, which suffice for the error: a device may have no end.
pub fn read_file(rt: &HostRuntime, name: &str) -> io::Result<Vec<u8>> {
    if name == STREAM {
        read_whole(rt.alloc(), &mut rt.stdin())
    } else {
        read_whole(rt.alloc(), &mut File::open(rt, name)?)
    }
}

/// The same of a reader.
fn read_whole<R: Read>(alloc: Global, reader: &mut R) -> io::Result<Vec<u8>> {
    let mut bytes = Vec::new(alloc);
    (&mut *reader).take(4).read_to_end(&mut bytes)?;
    if is_known(&bytes) {
        reader.read_to_end(&mut bytes)?;
    }
    Ok(bytes)
}

/// Whether bytes begin as an object or as a table.
fn is_known(bytes: &[u8]) -> bool {
    matches!(bytes, b"\x7fELF" | [0x9f, 0xeb, ..] | [0xeb, 0x9f, ..])
}
