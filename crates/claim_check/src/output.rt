//! Writes a whole text.
ghost use Rattle.trace_printer.specs.Writes.{Writes};

use std::io::Write;
use trace_printer::WriteFault;

/// Writes all of the bytes. After an error, a proper prefix of them has been written.
///
/// # Errors
/// If the writer failed or took no byte.
pub fn write_bytes<W: Write>(writer: &mut W, bytes: &[u8]) -> Result<(), WriteFault>
    ensures writes { Writes (W.contents writer.old) (W.contents writer.new) result bytes.now }
{
    let mut rest = bytes;
    while !rest.is_empty() {
        match writer.write(rest) {
            Ok(0) => return Err(WriteFault),
            Ok(n) => rest = &rest[n..],
            Err(_) => return Err(WriteFault),
        }
    }
    Ok(())
}
