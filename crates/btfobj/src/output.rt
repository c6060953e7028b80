//! Standard output, which remembers why it failed.

use std::io;
use std::io::Write;

/// Standard output. A command reports only that it cannot write; the reason is here.
#[derive(Drop)]
pub struct Output<'a> {
    rt: &'a HostRuntime,
    failure: Option<io::Error>,
}

impl<'a> Output<'a> {
    /// Standard output, before anything is written.
    pub fn new(rt: &'a HostRuntime) -> Output<'a> {
        Output { rt, failure: None }
    }

    /// The reason of the last failure; None if all was written.
    pub fn into_failure(self) -> Option<io::Error> {
        self.failure
    }
}

/// Another value of an error: that of the system, or one of its kind.
fn same(error: &io::Error) -> io::Error {
    match error.raw_os_error() {
        Some(code) => io::Error::from_raw_os_error(code),
        None => io::Error::from(error.kind()),
    }
}

impl Write for Output<'_> {
    fn write(&mut self, bytes: &[u8]) -> io::Result<usize> {
        let written = self.rt.stdout().write(bytes);
        if let Err(e) = &written {
            self.failure = Some(same(e));
        }
        written
    }

    fn flush(&mut self) -> io::Result<()> {
        self.rt.stdout().flush()
    }
}
