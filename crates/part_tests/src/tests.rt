//! Tests of the parts of motes and of nets, from the bottom up. Most tests write all results of a part into one text,
//! and a shared function compares this text once. So a test owns no values when it ends early: owning values there
//! would make its proof expensive. For the same reason no test ends when a write to its text fails: then the text
//! lacks something, and the comparison fails.

mod blocks;
mod canonical;
mod claim_texts;
mod claims_by_hand;
mod fates;
mod fault_text;
mod inboxes;
mod kernels;
mod medium;
mod motes;
mod protothreads;
mod random_claims;
mod refused;
mod reports;
mod small;
mod workers;
mod writers;

/// A process that prints, and then yields for ever.
const PRINT_THEN_YIELD: &str =
    "process a; autostart a; code a { body { print 1; yield; print 2; } }";
