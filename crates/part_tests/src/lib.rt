//! Tests of the parts of a mote, from the reader of its program to its turns, of the parts of a net, of inboxes, and of
//! claims. They test `mote_program`, `protothread`, `event_queue`, `mote_timers`, `process_kernel`, `mote_node`,
//! `radio_medium`, `radio_faults`, `claims`, `claim_text`, `copy_inbox`, `copy_exchange`, `fork_join` and
//! `trace_printer`. The tests are in a crate above these
//! crates, because a crate with tests is proved twice. They are all in one crate, because each crate of tests is
//! loaded, compiled and linked separately.
#![tactic(auto)]

#[cfg(test)]
mod tests;
