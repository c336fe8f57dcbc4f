//! The command. It reads a scenario from a file or from standard input, and writes its report to standard output; the
//! line of an error goes to standard error. No contract says that a write succeeds, so of a line or of help, the
//! contracts state at most that nothing else is written; tests show that the whole text is written.

ghost use Rattle.std.specs.Prelude.{◌≡◌, ◌≢◌, None, IsSome, IfSome, Ok, IfErr};
ghost use Rattle.std.specs.Io.KnownBytes.{Keeps};
ghost use Rattle.clap.specs.Words.{kind_of};
ghost use Rattle.clap.specs.declared.error.kind.ErrorKind.TheVariants as kind;
ghost use Rattle.simulation.specs.FaultLines.{AppendsPrefix, written_line};
ghost use Rattle.simulation.specs.Command.{Commands, Simulates, status_of, status_of_words, streams};
ghost use Rattle.simulation.specs.Words.{texts_of};
ghost use Rattle.simulation.specs.Simulation.{SimulatedWith, SimulatedSome, Unwritten, way_of};
ghost use Rattle.simulation.specs.declared.error.SimError.TheVariants as fault;

use crate::command_line::{Asked, asked_by};
use crate::end_to_end::{simulate, simulate_serial};
use crate::error::SimError;
use crate::fault_line::report_fault;
use crate::options::Options;
use clap::error::ErrorKind;
use std::fs;
use std::io::{Read, Write};
use std::random::RandomSource;
use std::rt::Files;
use std::sync::Wait;
use std::thread::Threads;
use window_workers::{Gate, NoGate};

/// Returns the exit status of a simulation: 0, or 1 after an error. After an error, nothing is written to `errors` but
/// the line that reports the error, or a prefix of this line; the status is the same if writing fails.
pub fn status_of<E: Write>(answer: Result<(), SimError>, errors: &mut E) -> u8
    ensures status { result ≡ status_of answer }
    ensures quiet { answer ≡ Ok tt → Keeps (E.contents errors.old) (E.contents errors.new) }
    ensures line { IfErr answer
        (λ fault. AppendsPrefix (E.contents errors.old) (E.contents errors.new) (written_line fault)) }
{
    match answer {
        Ok(()) => 0,
        Err(fault) => {
            let _ = report_fault(&fault, errors);
            1
        }
    }
}

/// Writes help to `output` if the arguments ask for it, or the error of the arguments to `errors`, and returns the
/// exit status. Only tests show the texts. If an allocation failed, the status and the line are those of a simulation
/// that ran out of memory.
fn status_of_words<W: Write, E: Write>(error: &clap::Error, output: &mut W, errors: &mut E) -> u8
    ensures status { result ≡ status_of_words (kind_of error.now) }
    ensures fault { result ≢ 0 → Keeps (W.contents output.old) (W.contents output.new) }
    ensures help { result ≡ 0 → Keeps (E.contents errors.old) (E.contents errors.new) }
    ensures memory { kind_of error.now ≡ kind.OutOfMemory
        → AppendsPrefix (E.contents errors.old) (E.contents errors.new) (written_line fault.Memory) }
{
    match error.kind() {
        ErrorKind::OutOfMemory => status_of(Err(SimError::Memory), errors),
        ErrorKind::DisplayHelp | ErrorKind::DisplayVersion => {
            let _ = write!(output, "{error}");
            0
        }
        _ => {
            let _ = write!(errors, "{error}");
            2
        }
    }
}

/// Opens a file for reading.
///
/// # Errors
/// `Read` if it can't be opened.
fn open_file<T: Files>(rt: &T, file: &str) -> Result<T::File, SimError>
    ensures err { IfErr result (λ e. e ≡ fault.Read) }
{
    match fs::open(rt, file) {
        Ok(input) => Ok(input),
        Err(_) => Err(SimError::Read),
    }
}

/// Simulates the scenario in a file.
///
/// # Errors
/// The errors of `simulate`, and `Read` if the file can't be opened.
fn simulate_file<T, W, G>(
    rt: &T,
    file: &str,
    output: &mut W,
    options: &Options,
    gate: &G,
) -> Result<(), SimError>
where
    T: AllocGlobal + Files + Threads + Wait + RandomSource + Sync,
    W: Write,
    G: Gate + Sync,
    ensures simulated_some { SimulatedSome (way_of options.now) (W.contents output.old) (W.contents output.new) result }
    ensures unwritten { IfErr result (Unwritten (W.contents output.old) (W.contents output.new)) }
{
    let mut input = open_file(rt, file)?;
    simulate(rt, rt.alloc(), &mut input, output, options, gate)
}

/// Simulates on one thread the scenario in the file or, without a file, the scenario in `input`. It never waits for
/// another thread, so its proof also shows that it returns.
///
/// # Errors
/// The errors of `simulate_serial`, and `Read` if the file can't be opened.
pub fn simulate_alone<T, R, W>(
    rt: &T,
    file: Option<&str>,
    input: &mut R,
    output: &mut W,
) -> Result<(), SimError>
where
    T: AllocGlobal + Files,
    R: Read,
    W: Write,
    // Without a file, the contents of `input` are simulated.
    ensures answer { file.entry ≡ None → IfSome (R.remaining input.old) (λ bytes.
        SimulatedWith None bytes (W.contents output.old) (W.contents output.new) result) }
    // With a file, `input` isn't read.
    ensures unread { IsSome file.entry → R.remaining input.new ≡ R.remaining input.old }
    // A report that is written is the report of some bytes.
    ensures simulated_some { SimulatedSome None (W.contents output.old) (W.contents output.new) result }
    ensures unwritten { IfErr result (Unwritten (W.contents output.old) (W.contents output.new)) }
{
    match file {
        Some(file) => {
            let mut opened = open_file(rt, file)?;
            simulate_serial(rt.alloc(), &mut opened, output)
        }
        None => simulate_serial(rt.alloc(), input, output),
    }
}

/// Simulates the scenario in the file that the command line names or, without a file, the scenario in `input`, as the
/// options say. Without workers, it calls `simulate_alone`.
///
/// # Errors
/// The errors of `simulate`, and `Read` if the file can't be opened.
pub fn simulate_asked<T, R, W, G>(
    rt: &T,
    asked: &Asked<'_>,
    input: &mut R,
    output: &mut W,
    gate: &G,
) -> Result<(), SimError>
where
    T: AllocGlobal + Files + Threads + Wait + RandomSource + Sync,
    R: Read,
    W: Write,
    G: Gate + Sync,
    // Without a file, the contents of `input` are simulated.
    ensures answer { asked.now.file ≡ None → IfSome (R.remaining input.old) (λ bytes.
        SimulatedWith (way_of asked.now.options) bytes (W.contents output.old) (W.contents output.new) result) }
    // With a file, `input` isn't read.
    ensures unread { IsSome asked.now.file → R.remaining input.new ≡ R.remaining input.old }
    // A report that is written is the report of some bytes, simulated as the options say.
    ensures simulated_some { SimulatedSome (way_of asked.now.options) (W.contents output.old)
        (W.contents output.new) result }
    ensures unwritten { IfErr result (Unwritten (W.contents output.old) (W.contents output.new)) }
{
    match asked.file {
        _ if asked.options.workers.is_none() => simulate_alone(rt, asked.file, input, output),
        Some(file) => simulate_file(rt, file, output, &asked.options, gate),
        None => simulate(rt, rt.alloc(), input, output, &asked.options, gate),
    }
}

/// Simulates as the arguments ask, and returns the exit status.
fn run_asked<T, R, W, E>(
    rt: &T,
    asked: &Asked<'_>,
    input: &mut R,
    output: &mut W,
    errors: &mut E,
) -> u8
where
    T: AllocGlobal + Files + Threads + Wait + RandomSource + Sync,
    R: Read,
    W: Write,
    E: Write,
    ensures simulates { let old = streams (R.remaining input.old) (W.contents output.old) (E.contents errors.old)
        in let new = streams (R.remaining input.new) (W.contents output.new) (E.contents errors.new)
        in Simulates asked.now old new result }
{
    let answer = simulate_asked(rt, asked, input, output, &NoGate);
    status_of(answer, errors)
}

/// Runs the program with these arguments; the first is the program's name. It simulates the scenario in the file that
/// the arguments name or, without a file, the scenario in `input`, on one thread or with workers. It writes the report
/// to `output`. After an error, nothing is written to `errors` but the line of the error, or a prefix of this line; the
/// test `faults_and_failing_streams` shows that the whole line is written.
///
/// If the arguments ask for help, nothing is written to `errors`; if they have an error, nothing is written to
/// `output`. Only tests show the text of the help, and the text about an error of the arguments.
///
/// It returns the exit status: 0 for a report or help, 1 for an error, and 2 for an error of the arguments. The status
/// is the same if the help or the error can't be written.
pub fn run_command<T, R, W, E>(
    rt: &T,
    words: &[&str],
    input: &mut R,
    output: &mut W,
    errors: &mut E,
) -> u8
where
    T: AllocGlobal + Files + Threads + Wait + RandomSource + Sync,
    R: Read,
    W: Write,
    E: Write,
    ensures commands { let old = streams (R.remaining input.old) (W.contents output.old) (E.contents errors.old)
        in let new = streams (R.remaining input.new) (W.contents output.new) (E.contents errors.new)
        in Commands (texts_of words.now) old new result }
{
    match asked_by(rt.alloc(), words) {
        Ok(asked) => run_asked(rt, &asked, input, output, errors),
        Err(error) => status_of_words(&error, output, errors),
    }
}
