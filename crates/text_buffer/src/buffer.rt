//! The writer of text and its buffer.

ghost use Rattle.std.specs.Prelude.{◌≡◌, [], ◌++◌, IsOk, OnOk};
ghost use Rattle.std.specs.Io.KnownBytes.{Appends, Keeps};
ghost use Rattle.text_buffer.specs.Buffer.{given_text, Takes, HasBufferRoom};

use arrayvec::ArrayString;
use std::fmt;
use std::io::Write;

/// The capacity of the buffer in bytes.
const CAPACITY: usize = 8192;

/// A writer of text, which passes its text to a writer of bytes in large pieces. Nothing is allocated.
#[derive(Drop)]
pub struct TextBuffer<'a, W> {
    out: &'a mut W,
    pending: ArrayString<CAPACITY>,
}

impl<'a, W: Write> TextBuffer<'a, W> {
    /// A writer with an empty buffer.
    pub fn new(out: &'a mut W) -> TextBuffer<'a, W>
        ensures same_reference { result.out.ghost_name ≡ out.entry.ghost_name }
        ensures out { result.out.now ≡ out.old }
        ensures empty { result.pending.bytes ≡ [] }
    {
        TextBuffer {
            out,
            pending: ArrayString::new(),
        }
    }

    /// Adds a text. If the buffer has no room for the text, it is written out first. A text that is longer than the
    /// buffer goes directly to the writer.
    pub fn put(&mut self, text: &str) -> fmt::Result
        ensures taken { OnOk result (Takes W.contents self.old text.now self.new) }
        // If there is room, the writer is not called, so nothing fails.
        ensures room { HasBufferRoom self.old text.now → IsOk result
            × (self.new.pending.bytes ≡ self.old.pending.bytes ++ text.now) }
    {
        if self.pending.try_push_str(text).is_ok() {
            return Ok(());
        }
        self.put_after_flush(text)
    }

    /// Writes the buffer out, and then adds a text. A call of its own keeps the code of each `put` short.
    #[cold]
    #[inline(never)]
    fn put_after_flush(&mut self, text: &str) -> fmt::Result
        ensures { OnOk result (Takes W.contents self.old text.now self.new) }
    {
        self.flush()?;
        if self.pending.try_push_str(text).is_ok() {
            return Ok(());
        }
        write_text(&mut *self.out, text)
    }

    /// Writes the buffer out. Text that is in the buffer when it is dropped is lost.
    pub fn flush(&mut self) -> fmt::Result
        ensures same_reference { self.new.out.ghost_name ≡ self.old.out.ghost_name }
        ensures bytes { OnOk result (Keeps (given_text W.contents self.old)
            (given_text W.contents self.new)) }
        ensures empty { OnOk result (self.new.pending.bytes ≡ []) }
    {
        write_text(&mut *self.out, self.pending.as_str())?;
        self.pending.clear();
        Ok(())
    }
}

/// Writes the whole text to a writer.
fn write_text<W: Write>(out: &mut W, text: &str) -> fmt::Result
    ensures { OnOk result (Appends (W.contents out.old) (W.contents out.new) text.now) }
{
    out.write_all(text.as_bytes()).map_err(|_| fmt::Error)
}

impl<W: Write> fmt::Write for TextBuffer<'_, W> {
    ghost use Rattle.text_buffer.specs.Buffer.{Takes};

    ghost write_str_gives = { Takes W.contents };

    fn write_str(&mut self, text: &str) -> fmt::Result {
        self.put(text)
    }
}
