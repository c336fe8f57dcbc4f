//! The laws of a run with workers, and those of the run of a net, from `serial_run`. Each law is a theorem, stated as
//! the contract of an empty function.

ghost use Rattle.window_workers.specs.Held.{AgendaIsHeld};
ghost use Rattle.window_workers.specs.JoinedLaws.{StaysUntilNext, WindowMovesOn};
ghost use Rattle.window_workers.specs.MarkedAtEnd.{MarkedWindowsLeadToTheEnd};

pub use serial_run::laws::{
    at_most_one_wake, buckets_hold_items, copies_come_in_time, late_copies_stay, loss_tables_agree,
    moments_and_numbers_rise, order_means_nothing, report_is_one, report_is_there,
    sends_are_stamped, some_are_unsent, traces_hand_on, unsent_is_nothing, windows_commute,
};

/// Suppose that a net runs forward, and that its workers are ready (`WorkersAreAt`) before a window other than the first. Then
/// the copies of the net's agenda are those that the workers hold and those in the inboxes, each exactly once. (Before
/// the first window, nothing was sent.) The agenda is that of the run of the net one turn at a time, after all turns
/// before the window.
pub fn agenda_is_held()
    ensures agenda_is_held { AgendaIsHeld }
{}

/// Suppose that a window begins at the moment of the workers, isn't empty, and isn't longer than the lookahead.
/// Suppose also that in this window each worker took in the copies sent to it, ran its motes, and delivered the
/// copies that they sent, and that all senders were then gathered. Then the law of windows applies to the window of
/// all workers: the motes have reached its end, each worker still has its own motes, and it has gathered all copies
/// that the motes of other workers sent to its motes.
pub fn a_window_moves_on()
    ensures window_moves_on { WindowMovesOn }
{}

/// In the shares and the inboxes, no event is pending before the moment that the workers have reached. The workers
/// have also reached each later moment, up to the moment of the first pending event.
pub fn workers_stay_until_next()
    ensures stays_until_next { StaysUntilNext }
{}

/// The promises of the threads, each about its own worker, imply a law about the windows of all workers. Suppose that
/// no window is longer than the lookahead, that each worker ran all windows, that it began each window only after the
/// marks of all earlier windows had arrived from every other worker, and that all senders were then gathered. Then the
/// motes have reached the end through windows that obey the law of windows (`window_laws`), each worker still has its
/// own motes, and it has taken all copies that were sent to its motes.
pub fn marked_windows_lead_to_the_end()
    ensures marked_windows_lead_to_the_end { MarkedWindowsLeadToTheEnd }
{}
