//! A program that answers claims about a scenario on one thread, or surveys its faults. Its standard input is the input of
//! `run_input`: the arguments, one a line; a zero byte; the claims; a zero byte; and the scenario. `web/motecheck.wasm` is
//! made from it.
#![tactic(auto)]

use claim_check::run_input;
use std::process::ExitCode;

fn main(rt: HostRuntime) -> ExitCode {
    let mut input = rt.stdin();
    let mut output = rt.stdout();
    let mut errors = rt.stderr();
    ExitCode::from(run_input(rt.alloc(), &mut input, &mut output, &mut errors))
}
