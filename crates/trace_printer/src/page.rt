//! The page: text that waits to be written.
ghost use Rattle.std.specs.Prelude.{◌≡◌, ◌≤◌, ◌+◌, [], length, take, IfOk, OnOk};
ghost use Rattle.trace_printer.specs.Writes.{Writes};

use crate::output::{WriteFault, write_bytes};
use std::alloc::{AllocError, Global};
use std::io::Write;
use std::marker::Model;

/// The number of bytes for which a page that is written again and again has room at first.
pub const ROOM: usize = 65_536;

/// The number of bytes at which a page is full and is written. It then still has room for a line half as long as the
/// page, and for a few more bytes.
const FULL: usize = 32_640;

/// Lines that wait to be written, so that one call of the writer takes many of them. They are the first `len` bytes;
/// the other bytes are room for more lines.
#[derive(Drop)]
pub struct Page {
    pub(crate) bytes: Vec<u8>,
    pub(crate) len: usize,
    ghost within: { len ≤ length bytes.items },
}

impl Model for Page {
    ghost use Rattle.std.specs.Prelude.{List, ℕ, take};

    ghost Value = { List ℕ };

    ghost view = { λ p. take p.len p.bytes.items };
}

/// Makes room for `room` bytes after the first `len`, which don't change. A page that is too small grows to twice the
/// size that it needs, so it seldom grows.
///
/// # Errors
/// If an allocation failed.
#[inline(always)]
pub fn make_room(bytes: &mut Vec<u8>, len: usize, room: usize) -> Result<(), AllocError>
    requires room_fits { len ≤ length bytes.old.items }
    ensures room { OnOk result (len + room ≤ length bytes.new.items) }
    ensures kept { take len bytes.new.items ≡ take len bytes.old.items }
    ensures within { len ≤ length bytes.new.items }
{
    let end = len.checked_add(room).ok_or(AllocError)?;
    if end > bytes.len() {
        bytes.resize(end.saturating_add(end), 0)?;
    }
    Ok(())
}

impl Page {
    /// Makes an empty page with room for this many bytes.
    ///
    /// # Errors
    /// If an allocation failed.
    pub fn new(alloc: Global, room: usize) -> Result<Page, AllocError>
        ensures empty { IfOk result (λ page. page ≡ []) }
    {
        let bytes = vec![in alloc; 0u8; room]?;
        Ok(Page { bytes, len: 0 })
    }

    /// Returns whether the page must be written now.
    pub fn is_full(&self) -> bool {
        self.len >= FULL
    }

    /// Writes the page. After an error, a proper prefix of the page has been written.
    ///
    /// # Errors
    /// If the writer failed or took no byte.
    pub fn write<W: Write>(&self, writer: &mut W) -> Result<(), WriteFault>
        ensures writes { Writes (W.contents writer.old) (W.contents writer.new) result self.now }
    {
        write_bytes(writer, &self.bytes[..self.len])
    }

    /// Writes the page, and empties it. After an error, a proper prefix of the page has been written.
    ///
    /// # Errors
    /// If the writer failed or took no byte.
    pub fn write_to<W: Write>(&mut self, writer: &mut W) -> Result<(), WriteFault>
        ensures written { Writes (W.contents writer.old) (W.contents writer.new) result self.old }
        ensures emptied { OnOk result (self.new ≡ []) }
    {
        self.write(writer)?;
        self.len = 0;
        Ok(())
    }
}
