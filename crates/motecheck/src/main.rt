//! The program that checks claims. It passes the streams of its process to the command.
#![tactic(auto)]

use claim_check::run_process;
use std::process::ExitCode;

fn main(rt: HostRuntime) -> ExitCode {
    let mut output = rt.stdout();
    let mut errors = rt.stderr();
    ExitCode::from(run_process(&rt, &mut output, &mut errors))
}
