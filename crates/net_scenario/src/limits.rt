//! The limits of a scenario.

/// The length of the longest text, in bytes.
pub const LONGEST_TEXT: usize = 1_048_576;

/// The greatest number of motes. There is at least one mote.
pub const MOST_MOTES: usize = 1_000;

/// The greatest number of programs.
pub const MOST_PROGRAMS: usize = 100;

/// The greatest number of losses.
pub const MOST_LOSSES: usize = 10_000;

/// The length of the longest name of a program, in bytes.
pub const LONGEST_NAME: usize = 32;

/// The latest `end`, in moments.
pub const LATEST_END: i64 = 1_000_000;

/// The greatest distance of a coordinate from 0.
pub const FARTHEST: i64 = 30_000;

/// The widest `range` of the medium.
pub const WIDEST_RANGE: i64 = 100_000;

/// The largest `base` and `per` of the medium.
pub const LARGEST_BASE_OR_PER: i64 = 1_000_000;

/// The largest number in a loss.
pub const LARGEST_IN_LOSS: i64 = 1_000_000;

/// The fewest events for which the queue of a mote may have room.
pub const SHORTEST_QUEUE: i64 = 1;

/// The most events for which the queue of a mote may have room.
pub const LONGEST_QUEUE: i64 = 128;

/// The number of events for which the queue of a mote has room if the scenario doesn't name a length.
pub const USUAL_QUEUE: u16 = 32;
