//! The length of a window.

ghost use Rattle.std.specs.Prelude.{◌≡◌, ◌+◌, ◌<◌, ◌≤◌};
ghost use Rattle.mote_net.specs.Limits.{latest_end};
ghost use Rattle.mote_net.specs.Meaning.{net_of};
ghost use Rattle.net_agenda.specs.NetSystem.{system_of};
ghost use Rattle.window_laws.specs.Forward.{RunsForward};
ghost use Rattle.window_workers.specs.WindowLength.{HasSoundMedium, end_of_window, length_of_window};

use mote_net::Net;

/// Returns the lookahead of a net. Every net runs forward: its wakes and copies are later than the turns that make
/// them.
pub fn lookahead_of(net: &Net) -> u64
    ensures value { result ≡ (system_of (net_of net.now)).lookahead }
    ensures forward { RunsForward (system_of (net_of net.now)) }
    ensures sound { HasSoundMedium (net_of net.now) }
{
    net.medium().lookahead(net.end())
}

/// Returns the length of a window: the lookahead, or `longest` if that is above 0 and below the lookahead.
pub fn window_length(lookahead: u64, longest: u32) -> u64
    requires positive { 0 < lookahead }
    ensures value { result ≡ length_of_window lookahead longest }
    ensures above_zero { 0 < result }
    ensures within { result ≤ lookahead }
    ensures shorter { 0 < longest → longest < lookahead → result ≡ longest }
{
    let longest = u64::from(longest);
    if longest == 0 || lookahead <= longest {
        return lookahead;
    }
    longest
}

/// Returns the exclusive end of a window that begins at `from`: the lesser of `from + width` and `end + 1`.
pub fn window_end(from: u64, width: u64, end: u64) -> u64
    requires above_zero { 0 < width }
    requires end_bounded { end ≤ latest_end }
    requires from { from ≤ end }
    ensures value { result ≡ end_of_window end width from }
    ensures later { from < result }
    ensures short { result ≤ from + width }
    ensures within { result ≤ end + 1 }
{
    from + width.min(end + 1 - from)
}
