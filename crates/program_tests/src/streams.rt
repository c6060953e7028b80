//! Streams that move a few bytes at a time, are interrupted, or fail at each of their calls in turn.

use btf_cli::run;
use std::alloc::{AllocError, Global};
use std::io;
use std::io::{ErrorKind, Read, Write};
use std::test::Fail;

/// The words of a line, separated by single spaces.
fn words(alloc: Global, line: &str) -> Result<Vec<String>, AllocError> {
    let mut words = Vec::new(alloc);
    for word in line.split(' ') {
        words.push(word.to_string(alloc)?)?;
    }
    Ok(words)
}

/// A reader or a writer that always fails.
#[derive(Drop)]
struct Failing;

impl Read for Failing {
    fn read(&mut self, _buf: &mut [u8]) -> io::Result<usize> {
        Err(io::Error::from(ErrorKind::Other))
    }
}

impl Write for Failing {
    fn write(&mut self, _buf: &[u8]) -> io::Result<usize> {
        Err(io::Error::from(ErrorKind::Other))
    }

    fn flush(&mut self) -> io::Result<()> {
        Err(io::Error::from(ErrorKind::Other))
    }
}

/// A reader that moves at most `at_once` bytes a call, and fails once, after `before` calls.
#[derive(Drop)]
struct Slow<'a> {
    rest: &'a [u8],
    at_once: usize,
    before: Option<usize>,
    kind: ErrorKind,
}

impl Read for Slow<'_> {
    fn read(&mut self, buf: &mut [u8]) -> io::Result<usize> {
        if self.before == Some(0) {
            self.before = None;
            return Err(io::Error::from(self.kind));
        }
        self.before = self.before.map(|n| n.saturating_sub(1));
        let most = self.at_once.min(buf.len());
        let mut rest = self.rest;
        let read = rest.read(&mut buf[..most])?;
        self.rest = rest;
        Ok(read)
    }
}

/// A writer of that kind, with the bytes that it received.
#[derive(Drop)]
struct Sink {
    taken: Vec<u8>,
    at_once: usize,
    before: Option<usize>,
    kind: ErrorKind,
}

impl Write for Sink {
    fn write(&mut self, buf: &[u8]) -> io::Result<usize> {
        if self.before == Some(0) {
            self.before = None;
            return Err(io::Error::from(self.kind));
        }
        self.before = self.before.map(|n| n.saturating_sub(1));
        let most = self.at_once.min(buf.len());
        self.taken.extend_from_slice(&buf[..most])?;
        Ok(most)
    }

    fn flush(&mut self) -> io::Result<()> {
        Ok(())
    }
}

/// The behaviour of a stream: the number of bytes per call, the number of calls before it fails, and the failure.
#[derive(Clone, Copy)]
struct Way(usize, Option<usize>, ErrorKind);

/// The status of a line over a slow reader, and then all its output.
fn read_slowly(alloc: Global, line: &str, blob: &[u8], way: Way) -> Result<String, Fail> {
    let Way(at_once, before, kind) = way;
    let mut input = Slow {
        rest: blob,
        at_once,
        before,
        kind,
    };
    let mut out = Vec::new(alloc);
    let mut err = Vec::new(alloc);
    let status = run(alloc, &words(alloc, line)?, &mut input, &mut out, &mut err);
    out.extend_from_slice(&err)?;
    said(alloc, status, &out)
}

/// A status, and bytes as a text.
fn said(alloc: Global, status: u8, bytes: &[u8]) -> Result<String, Fail> {
    let text = String::from_utf8_lossy(alloc, bytes)?;
    Ok(format!(in alloc; "{status} {text}")?)
}

/// The part of a line's output that a slow writer received, and the status with the text of the fault.
fn write_slowly(
    alloc: Global,
    line: &str,
    blob: &[u8],
    way: Way,
) -> Result<(Vec<u8>, String), Fail> {
    let Way(at_once, before, kind) = way;
    let mut input = blob;
    let mut out = Sink {
        taken: Vec::new(alloc),
        at_once,
        before,
        kind,
    };
    let mut err = Vec::new(alloc);
    let status = run(alloc, &words(alloc, line)?, &mut input, &mut out, &mut err);
    let text = said(alloc, status, &err)?;
    Ok((out.taken, text))
}

/// A table of one INT.
static INT_TABLE: [u8; 45] = [
    0x9f, 0xeb, 1, 0, 0x18, 0, 0, 0, 0, 0, 0, 0, 0x10, 0, 0, 0, 0x10, 0, 0, 0, 5, 0, 0, 0, 1, 0, 0,
    0, 0, 0, 0, 1, 4, 0, 0, 0, 0x20, 0, 0, 1, 0, 0x69, 0x6e, 0x74, 0,
];

/// The lines of the five commands over that table, with their outputs.
static LINES: [(&str, &str); 5] = [
    ("little types", "1 [INT] int\n"),
    ("little size 1", "4\n"),
    ("little compat 1 1", "true\nstarts 1\n"),
    ("little copy", INT),
    ("little rewrite", INT),
];

/// The bytes of that table as a text. The bytes of its magic number are no UTF-8.
const INT: &str = "\u{fffd}\u{fffd}\x01\0\x18\0\0\0\0\0\0\0\x10\0\0\0\x10\0\0\0\x05\0\0\0\
\x01\0\0\0\0\0\0\x01\x04\0\0\0\x20\0\0\x01\0int\0";

/// Makes each call of a reader fail in turn. Returns the number of runs that end with this fault before the first run
/// that succeeds; 0 after any other outcome.
fn failing_reads(
    alloc: Global,
    line: &str,
    wanted: &str,
    kind: ErrorKind,
    fault: &str,
) -> Result<usize, Fail> {
    for before in 0..64 {
        let said = read_slowly(alloc, line, &INT_TABLE, Way(16, Some(before), kind))?;
        if said.strip_prefix("0 ") == Some(wanted) {
            return Ok(before);
        }
        if said.as_str() != fault {
            return Ok(0);
        }
    }
    Ok(0)
}

#[test]
fn each_read_fails_in_turn(rt: HostRuntime) -> Result<(), Fail> {
    for &(line, wanted) in &LINES {
        let fault = "1 cannot read standard input\n";
        let failing = failing_reads(rt.alloc(), line, wanted, ErrorKind::Other, fault)?;
        assert!(rt; failing >= 4, "{line}");
    }
    Ok(())
}

#[test]
fn memory_refused_while_the_input_is_read(rt: HostRuntime) -> Result<(), Fail> {
    for &(line, wanted) in &LINES {
        let fault = "1 out of memory\n";
        let failing = failing_reads(rt.alloc(), line, wanted, ErrorKind::OutOfMemory, fault)?;
        assert!(rt; failing >= 4, "{line}");
    }
    Ok(())
}

/// Whether bytes are a prefix of the bytes of a text, in which U+FFFD represents each byte that is no UTF-8.
fn begins(alloc: Global, taken: &[u8], wanted: &str) -> Result<bool, Fail> {
    let text = String::from_utf8_lossy(alloc, taken)?;
    Ok(wanted.starts_with(&*text))
}

/// Makes each call of a writer that accepts `at_once` bytes per call fail in turn. Returns the number of runs that end
/// with the fault's text before the first run that succeeds; 0 after any other outcome, or if the writer received
/// anything but a prefix of the output.
fn failing_writes(
    alloc: Global,
    line: &str,
    blob: &[u8],
    wanted: &str,
    at_once: usize,
) -> Result<usize, Fail> {
    for before in 0..64 {
        let way = Way(at_once, Some(before), ErrorKind::Other);
        let (taken, said) = write_slowly(alloc, line, blob, way)?;
        if !begins(alloc, &taken, wanted)? {
            return Ok(0);
        }
        if said.as_str() == "0 " {
            return Ok(before);
        }
        if said.as_str() != "1 cannot write standard output\n" {
            return Ok(0);
        }
    }
    Ok(0)
}

#[test]
fn each_write_fails_in_turn(rt: HostRuntime) -> Result<(), Fail> {
    for &(line, wanted) in &LINES {
        let failing = failing_writes(rt.alloc(), line, &INT_TABLE, wanted, 3)?;
        assert!(rt; failing > 0, "{line}");
    }
    Ok(())
}

/// A table of 900 INTs, whose listing is longer than the program's buffer.
fn ints(alloc: Global) -> Result<Vec<u8>, Fail> {
    let mut blob = Vec::from_slice(alloc, b"\x9f\xeb\x01\0\x18\0\0\0\0\0\0\0")?;
    blob.extend_from_slice(b"\x40\x38\0\0\x40\x38\0\0\x05\0\0\0")?;
    for _ in 0..900 {
        blob.extend_from_slice(b"\x01\0\0\0\0\0\0\x01\x04\0\0\0\x20\0\0\x01")?;
    }
    blob.extend_from_slice(b"\0int\0")?;
    Ok(blob)
}

/// The listing of that table.
fn listing(alloc: Global) -> Result<String, Fail> {
    let mut listing = String::new(alloc);
    for id in 1..901 {
        writeln!(listing, "{id} [INT] int")?;
    }
    Ok(listing)
}

#[test]
fn each_write_of_a_long_listing_fails_in_turn(rt: HostRuntime) -> Result<(), Fail> {
    let (blob, listing) = (ints(rt.alloc())?, listing(rt.alloc())?);
    let failing = failing_writes(rt.alloc(), "little types", &blob, &listing, 4096)?;
    assert!(rt; failing == 4);
    Ok(())
}

/// Whether a line has its output with a reader and a writer of these behaviours.
fn is_moved(alloc: Global, line: &str, wanted: &str, way: Way) -> Result<bool, Fail> {
    let said = read_slowly(alloc, line, &INT_TABLE, way)?;
    let (taken, status) = write_slowly(alloc, line, &INT_TABLE, way)?;
    let is_begun = begins(alloc, &taken, wanted)?;
    Ok(said.strip_prefix("0 ") == Some(wanted) && is_begun && status.as_str() == "0 ")
}

#[test]
fn a_byte_at_a_time_will_do(rt: HostRuntime) -> Result<(), Fail> {
    for &(line, wanted) in &LINES {
        let way = Way(1, None, ErrorKind::Other);
        assert!(rt; is_moved(rt.alloc(), line, wanted, way)?, "{line}");
    }
    Ok(())
}

#[test]
fn interrupted_calls_are_made_again(rt: HostRuntime) -> Result<(), Fail> {
    for &(line, wanted) in &LINES {
        let way = Way(16, Some(1), ErrorKind::Interrupted);
        assert!(rt; is_moved(rt.alloc(), line, wanted, way)?, "{line}");
    }
    Ok(())
}

/// The status and the message of a line whose input and output fail.
fn failed(alloc: Global, line: &str) -> Result<String, Fail> {
    let mut err = Vec::new(alloc);
    let words = words(alloc, line)?;
    let status = run(alloc, &words, &mut Failing, &mut Failing, &mut err);
    said(alloc, status, &err)
}

/// Lines that are refused before the input is read, which would fail, and one that reads it.
static FAILED: [(&str, &str); 3] = [
    (
        "little rewrite Funcs",
        "2 usage: btftool little|big copy|types|size ID|compat ID ID|rewrite WORD..\n",
    ),
    (
        "middle copy",
        "2 usage: btftool little|big copy|types|size ID|compat ID ID|rewrite WORD..\n",
    ),
    ("little copy", "1 cannot read standard input\n"),
];

#[test]
fn lines_are_read_before_the_input(rt: HostRuntime) -> Result<(), Fail> {
    for &(line, message) in &FAILED {
        let failed = failed(rt.alloc(), line)?;
        assert!(rt; failed.as_str() == message, "{line}");
    }
    Ok(())
}

#[test]
fn a_message_that_cannot_be_written_changes_nothing(rt: HostRuntime) -> Result<(), Fail> {
    let words = words(rt.alloc(), "little copy")?;
    let status = run(rt.alloc(), &words, &mut Failing, &mut Failing, &mut Failing);
    assert!(rt; status == 1);
    Ok(())
}
