//! Tests of `simulation`, from the bytes of a scenario to the bytes of the report, which test properties that no report
//! shows; and tests of runs with workers, and of parts of these runs: a mote's window and a worker's share. Those use gates,
//! lengths of windows, partitions and inboxes that no command line can ask for. The tests are in a crate above the
//! tested crates, because a crate with tests is proved twice. They are all in one crate, because each crate of tests
//! is loaded, compiled and linked separately.
#![tactic(auto)]

#[cfg(test)]
mod tests;
#[cfg(test)]
mod with_workers;
