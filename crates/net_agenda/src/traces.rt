//! The traces of the motes of a net.

ghost use Rattle.std.specs.Prelude.{◌≡◌, ◌<◌, ◌++◌, length, OnOk};
ghost use Rattle.net_agenda.specs.Traces.{AddsLines};

use process_kernel::Line;
use std::alloc::AllocError;

/// A trace with fewer lines than this is short.
const SHORT: usize = 64;

/// The number of lines for which a long trace has room. The system provides this much memory (128 KiB) in whole pages.
/// Pages to which no line is written cost nothing. A trace that grows keeps its pages, so its lines aren't copied.
const LONG: usize = 4_096;

/// Makes room for more lines if there isn't enough. The lines of a short trace are copied each time it grows, so it
/// gets room for four times its lines and grows rarely. A trace that is no longer short gets the whole room of a long
/// trace at once. A long trace grows like any other list.
fn make_room(trace: &mut Vec<Line>, more: usize) -> Result<(), AllocError>
    ensures same { trace.new.items ≡ trace.old.items }
{
    let len = trace.len();
    if trace.capacity() - len < more && len < LONG {
        let room = if len < SHORT { len * 4 } else { LONG };
        trace.reserve(more.max(room - len))?;
    }
    Ok(())
}

/// Moves lines to the end of a trace.
///
/// # Errors
/// Out of memory only.
pub fn extend_trace(trace: &mut Vec<Line>, lines: &mut Vec<Line>) -> Result<(), AllocError>
    ensures appended { OnOk result (trace.new.items ≡ trace.old.items ++ lines.old.items) }
{
    make_room(trace, lines.len())?;
    trace.append(lines)?;
    Ok(())
}

/// Moves lines to the end of the trace of the mote with this number.
///
/// # Errors
/// Out of memory only.
pub fn add_lines(
    traces: &mut Vec<Vec<Line>>,
    number: u16,
    lines: &mut Vec<Line>,
) -> Result<(), AllocError>
    requires in_range { number < length traces.old.items }
    ensures adds_lines { OnOk result (AddsLines number lines.old.items traces.old.items traces.new.items) }
{
    extend_trace(&mut traces[usize::from(number)], lines)
}
