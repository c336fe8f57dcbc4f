//! A program that simulates the scenario in its standard input on one thread. `web/motesim.wasm` is made from it.
#![tactic(auto)]

ghost use Rattle.simulation.specs.Command.{streams};
ghost use Rattle.serial_program.specs.Serial.{SimulatesInput};

use simulation::{simulate_serial, status_of};
use std::alloc::Global;
use std::io::{Read, Write};
use std::process::ExitCode;

/// Simulates the scenario in `input` on one thread. It writes the report to `output`, and returns the exit status: 0
/// for a report, 1 for an error. After an error, nothing is written to `errors` but the line of the error, or a prefix
/// of this line: a clause of `status_of` says so. Only tests show that the whole line is written.
fn run_serial<R: Read, W: Write, E: Write>(
    alloc: Global,
    input: &mut R,
    output: &mut W,
    errors: &mut E,
) -> u8
    ensures simulates { let old = streams (R.remaining input.old) (W.contents output.old) (E.contents errors.old)
        in let new = streams (R.remaining input.new) (W.contents output.new) (E.contents errors.new)
        in SimulatesInput old new result }
{
    let answer = simulate_serial(alloc, input, output);
    status_of(answer, errors)
}

fn main(rt: HostRuntime) -> ExitCode {
    let mut input = rt.stdin();
    let mut output = rt.stdout();
    let mut errors = rt.stderr();
    ExitCode::from(run_serial(rt.alloc(), &mut input, &mut output, &mut errors))
}
