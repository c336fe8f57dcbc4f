//! The text of claims: one line of regular words for each claim.
//!
//! ```text
//! each of motes 1 to 24: at least 1 line "print process flood value 1" from 0 to 60
//! exactly 0 of motes 0 to 24: at least 1 line "halt"
//! mote 6: every line "send" is within 0 moments after some line "recv"
//! the net: exactly 75 packets sent from 0 to 160
//! ```
//!
//! In the grammar, brackets enclose what may be missing, and braces what may be repeated or missing.
//!
//! ```text
//! claim   = [("each" | LIMITS) " of "] ["these: "] GROUP {"; " GROUP}         without cases: "no cases"
//! GROUP   = ("mote " N | "motes " MOTES | "the net") ": " TEST {" and " TEST}      without tests: "always"
//! MOTES   = N [" to " N] {", " N [" to " N]}
//! LIMITS  = "exactly " N | "at most " N | "at least " N [" and at most " N]
//! TEST    = LIMITS " " COUNT | "every line " DEED " is" ORDER
//!         | N " times the number of " COUNT (" is at most " | " is less than ") N " times the number of " COUNT
//!         | "the lines " DEED " have in order of time exactly " ("the values " ITEM {", " ITEM} | "no values")
//!         | "the lines " DEED " have in any order exactly " ("the values " N {", " N} | "no values")
//!         | "the last line " DEED " has the value " (SET | "of the last line " DEED)
//!         | "the lines " DEED " have in " ("order of time" | "any order") " exactly the values of the lines " DEED
//!         | "each value of the lines " DEED " is the value of " LIMITS " lines " DEED
//! COUNT   = "lines " DEED [ORDER] | "packets sent" [" by" TO] [PERIOD] | "copies" [" to" TO] FATE
//!         | "copies left at the end" | "lines in the report"                  in the singular behind the number 1
//! FATE    = " sent" [PERIOD] " and lost by the medium" | " lost by the medium or due by " N
//! ORDER   = (" after " | " within " N " moments after " | " within " N " moments before ") ("some" | "no")
//!           " line " DEED | [" not"] " before every line " DEED
//! DEED    = (PATTERN {" or " PATTERN} | "of no kind") ([PERIOD] | " of no mote" | " of " OF {" and of " OF})
//! OF      = "mote " N [PERIOD] | "motes " MOTES " together" [PERIOD]
//! PERIOD  = " at " N | " from " N " to " N | " from " N " on"
//! PATTERN = '"' (KIND {" or " KIND} | "nothing") [" process " NAME] [" serial " SET] [" event " SET]
//!           [" sender " SET] [" packet " SET] [" value " SET] '"'
//! ITEM    = N | "any of " SET | "none"                                         `any of` for more than one number
//! SET     = N [" to " N] {" or " N [" to " N]} | "none"
//! TO      = " mote " N | " motes " SET
//! NAME    = the name of a process, or its number if it has no name | "etimer" | "ctimer" | "radio" | "all"
//! KIND    = the kind of a line in a trace or in the log of the medium, such as "print" or "lost"
//! ```
//!
//! `N` is a number without leading zeros. Directly behind the number 1, `moments` and `lines` are in the singular too.
//!
//! Of the texts that the grammar allows for a claim, one is its text: neighbouring cases that differ in their mote
//! alone are one group, neighbouring motes with one period too, and motes with consecutive numbers are a span. A claim
//! on all of its cases has `each`, or nothing if it has one case; several groups, or none, have `these`. A period
//! of all moments is left out. So is the mote of a case: the only mote whose lines its first test is about; of a
//! ratio, that of the greater side.
//!
//! Each line that `read_claims` accepts is the text of the claim that it returns, and the lines before a refused one are
//! the texts of claims. This is proved. That it accepts the text of each claim is tested, with random claims.
#![tactic(auto)]

mod broken;
mod claim;
mod counted;
mod deed;
mod error;
mod group;
mod laws;
mod lines;
mod numbers;
mod order;
mod part;
mod pattern;
mod reader;
mod subject;
mod test;

pub use broken::write_break;
pub use claim::write_claim;
pub use error::ClaimsError;
pub use laws::one_reason;
pub use lines::read_claims;
