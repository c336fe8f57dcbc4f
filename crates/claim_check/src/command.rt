//! The command. It reads a scenario, claims and faults from files, and writes the answers to standard output; the line of
//! an error, and the progress of a survey, go to standard error.
ghost use Rattle.std.specs.Prelude.{◌≡◌, ◌≢◌, ◌≤◌, [], None, is_none, true, IfErr, IfOk, OnOk, string_bytes, string_len};
ghost use Rattle.std.specs.Io.KnownBytes.{Keeps};
ghost use Rattle.clap.specs.Words.{kind_of};
ghost use Rattle.net_scenario.specs.Limits.{longest_text};
ghost use Rattle.simulation.specs.FaultLines.{AppendsPrefix};
ghost use Rattle.simulation.specs.Words.{texts_of};
ghost use Rattle.simulation.specs.Input.{IsText};
ghost use Rattle.claim_check.specs.Asked.{are_in_conflict, is_in_conflict, way_for};
ghost use Rattle.claim_check.specs.FaultLines.{written_line};
ghost use Rattle.claim_check.specs.Command.{AnswersAsked, AreAllFaults, ChecksSome, Commands, IsReadError, Responds, Serves};
ghost use Rattle.claim_check.specs.Command.{WritesAnswers, ends, status_of, status_of_words};
ghost use Rattle.claim_check.specs.declared.error.CheckError.TheVariants as check;

use crate::answers::Answers;
use crate::checking::{check, check_serial, report, report_serial};
use crate::command_line::{Asked, Options, asked_by};
use crate::conflicts::{conflict_in, conflict_of};
use crate::error::CheckError;
use crate::fault_line::report_fault;
use crate::output::write_bytes;
use crate::plan::{faults_of, is_survey};
use crate::progress::Told;
use crate::surveying::{check_serial_with_faults, check_with_faults};
use clap::error::ErrorKind;
use simulation::{InputError, SimError, read_text};
use std::alloc::{AllocError, Global};
use std::fs;
use std::io::{Eprint, Write};
use std::random::RandomSource;
use std::rt::Files;
use std::sync::Wait;
use std::thread::Threads;
use window_workers::{Gate, NoGate};

/// Returns the exit status of a check: 0 if all claims hold, 1 if not, or 2 after an error. After an error, nothing is
/// written to `errors` but the line that reports the error, or a prefix of this line; the status is the same if writing
/// fails.
pub fn status_of<E: Write>(answer: Result<bool, CheckError>, errors: &mut E) -> u8
    ensures status { result ≡ status_of answer }
    ensures quiet { IfOk answer (λ _. Keeps (E.contents errors.old) (E.contents errors.new)) }
    ensures line { IfErr answer
        (λ fault. AppendsPrefix (E.contents errors.old) (E.contents errors.new) (written_line fault)) }
{
    match answer {
        Ok(true) => 0,
        Ok(false) => 1,
        Err(fault) => {
            let _ = report_fault(&fault, errors);
            2
        }
    }
}

/// Writes help to `output` if the arguments ask for it, or the error of the arguments to `errors`, and returns the
/// exit status. Only tests show the texts.
pub fn status_of_words<W: Write, E: Write>(
    error: &clap::Error,
    output: &mut W,
    errors: &mut E,
) -> u8
    ensures status { result ≡ status_of_words (kind_of error.now) }
    ensures fault { result ≢ 0 → Keeps (W.contents output.old) (W.contents output.new) }
    ensures help { result ≡ 0 → Keeps (E.contents errors.old) (E.contents errors.new) }
{
    match error.kind() {
        ErrorKind::DisplayHelp | ErrorKind::DisplayVersion => {
            let _ = write!(output, "{error}");
            0
        }
        ErrorKind::OutOfMemory => status_of(Err(CheckError::Simulation(SimError::Memory)), errors),
        _ => {
            let _ = write!(errors, "{error}");
            2
        }
    }
}

/// Reads a file as a text.
///
/// # Errors
/// `Read` if it can't be opened; otherwise the errors of `read_text`.
fn read_file<T: AllocGlobal + Files>(rt: &T, name: &str) -> Result<String, InputError>
    ensures bounded { IfOk result (λ text. string_len text ≤ longest_text) }
{
    match fs::open(rt, name) {
        Ok(mut file) => read_text(rt.alloc(), &mut file),
        Err(_) => Err(InputError::Read),
    }
}

/// Reads the scenario's file.
fn read_scenario_file<T: AllocGlobal + Files>(rt: &T, name: &str) -> Result<String, SimError>
    ensures bounded { IfOk result (λ text. string_len text ≤ longest_text) }
    ensures refuses { IfErr result (λ e. IsReadError (check.Simulation e)) }
{
    match read_file(rt, name) {
        Ok(text) => Ok(text),
        Err(InputError::Read) => Err(SimError::Read),
        Err(InputError::TooLong) => Err(SimError::TooLong),
        Err(InputError::NotText) => Err(SimError::NotText),
        Err(InputError::Memory) => Err(SimError::Memory),
    }
}

/// Reads the file of the claims; without a file, there are none.
fn read_claims_file<T: AllocGlobal + Files>(
    rt: &T,
    name: Option<&str>,
) -> Result<String, CheckError>
    ensures refuses { IfErr result IsReadError }
{
    match name {
        Some(name) => Ok(read_file(rt, name)?),
        None => Ok(String::new(rt.alloc())),
    }
}

/// Reads the file of the faults; without a file, it is empty.
fn read_faults_file<T: AllocGlobal + Files>(
    rt: &T,
    name: Option<&str>,
) -> Result<String, CheckError>
    ensures refuses { IfErr result IsReadError }
    ensures none { IfOk result (λ text. is_none name.entry ≡ true → string_bytes text ≡ []) }
{
    match name {
        Some(name) => match read_file(rt, name) {
            Ok(text) => Ok(text),
            Err(error) => Err(CheckError::FaultsInput(error)),
        },
        None => Ok(String::new(rt.alloc())),
    }
}

/// Returns the text of all faults: those of the options, and those of the file.
fn all_faults<T: AllocGlobal + Files>(rt: &T, asked: &Asked<'_>) -> Result<String, CheckError>
    ensures refuses { IfErr result IsReadError }
    ensures all_faults { IfOk result (λ text. AreAllFaults asked.now (string_bytes text)) }
{
    let more = read_faults_file(rt, asked.faults)?;
    let mut text = String::new(rt.alloc());
    text.push_str(asked.options.faults.as_str())?;
    text.push_str(more.as_str())?;
    Ok(text)
}

/// Writes that the arguments don't go together, and returns the exit status of an error of the arguments.
fn refuse_options<E: Write>(why: &str, errors: &mut E) -> u8
    ensures status { result ≡ 2 }
{
    let _ = writeln!(
        errors,
        "error: {why}\n\nFor more information, try '--help'."
    );
    2
}

/// Answers claims about a scenario, as the options ask: about its run, or about its runs with sets of faults.
///
/// # Errors
/// The errors of `check`, or those of `check_with_faults`.
fn answers_asked<T, G>(
    rt: &T,
    options: &Options,
    scenario: &str,
    claims: &str,
    faults: &str,
    gate: &G,
) -> Result<Answers, CheckError>
where
    T: AllocGlobal + Eprint + Threads + Wait + RandomSource + Sync,
    G: Gate + Sync,
    requires is_text { IsText scenario.now }
    ensures answers { AnswersAsked (way_for options.now) options.now scenario.now claims.now faults.now result }
{
    if is_survey(options) {
        let told = Told { rt };
        let faults = faults_of(rt.alloc(), options)?;
        check_with_faults(
            rt,
            rt.alloc(),
            scenario,
            claims,
            &faults,
            options.workers,
            &told,
        )
    } else {
        check(
            rt,
            rt.alloc(),
            scenario,
            claims,
            faults,
            options.workers,
            gate,
        )
    }
}

/// Does the same as `answers_asked` on one thread.
///
/// # Errors
/// The errors of `check_serial`, or those of `check_serial_with_faults`.
fn answers_serial(
    alloc: Global,
    options: &Options,
    scenario: &str,
    claims: &str,
    faults: &str,
) -> Result<Answers, CheckError>
    requires is_text { IsText scenario.now }
    ensures answers { AnswersAsked None options.now scenario.now claims.now faults.now result }
{
    if is_survey(options) {
        let faults = faults_of(alloc, options)?;
        check_serial_with_faults(alloc, scenario, claims, &faults)
    } else {
        check_serial(alloc, scenario, claims, faults)
    }
}

/// Answers claims about a scenario, as the options ask, writes the answers, and returns whether all claims hold.
///
/// # Errors
/// The errors of `check` or `check_with_faults`, and then nothing has been written; or `Print` after a proper prefix of
/// the answers.
fn write_answers<T, W, G>(
    rt: &T,
    options: &Options,
    scenario: &str,
    claims: &str,
    faults: &str,
    output: &mut W,
    gate: &G,
) -> Result<bool, CheckError>
where
    T: AllocGlobal + Eprint + Threads + Wait + RandomSource + Sync,
    W: Write,
    G: Gate + Sync,
    requires is_text { IsText scenario.now }
    ensures writes { WritesAnswers (way_for options.now) options.now scenario.now claims.now faults.now
        (W.contents output.old) (W.contents output.new) result }
{
    let answers = answers_asked(rt, options, scenario, claims, faults, gate)?;
    write_bytes(output, answers.text.as_bytes())?;
    Ok(answers.all_hold)
}

/// Does the same as `write_answers` on one thread.
///
/// # Errors
/// The errors of `check_serial` or `check_serial_with_faults`, and then nothing has been written; or `Print` after a
/// proper prefix of the answers.
fn write_answers_serial<W: Write>(
    alloc: Global,
    options: &Options,
    scenario: &str,
    claims: &str,
    faults: &str,
    output: &mut W,
) -> Result<bool, CheckError>
    requires is_text { IsText scenario.now }
    ensures writes { WritesAnswers None options.now scenario.now claims.now faults.now
        (W.contents output.old) (W.contents output.new) result }
{
    let answers = answers_serial(alloc, options, scenario, claims, faults)?;
    write_bytes(output, answers.text.as_bytes())?;
    Ok(answers.all_hold)
}

/// Writes the report of a scenario's run with the faults in a text, or the answers to claims, as the options ask, and
/// returns whether all claims hold. Workers wait for one another, so the contract holds only if the runs return.
///
/// # Errors
/// The errors of `report`, `check` or `check_with_faults`, and then nothing has been written; or `Print` after a proper
/// prefix of the text.
pub fn answer<T, W, G>(
    rt: &T,
    options: &Options,
    scenario: &str,
    claims: &str,
    faults: &str,
    output: &mut W,
    gate: &G,
) -> Result<bool, CheckError>
where
    T: AllocGlobal + Eprint + Threads + Wait + RandomSource + Sync,
    W: Write,
    G: Gate + Sync,
    requires is_text { IsText scenario.now }
    ensures responds { Responds (way_for options.now) options.now scenario.now claims.now faults.now
        (W.contents output.old) (W.contents output.new) result }
{
    if options.report {
        report(
            rt,
            rt.alloc(),
            scenario,
            faults,
            options.workers,
            output,
            gate,
        )
    } else {
        write_answers(rt, options, scenario, claims, faults, output, gate)
    }
}

/// Does the same as `answer` on one thread. It never waits for another thread, so its proof also shows that it returns.
///
/// # Errors
/// The errors of `report_serial`, `check_serial` or `check_serial_with_faults`, and then nothing has been written; or
/// `Print` after a proper prefix of the text.
pub fn answer_serial<W: Write>(
    alloc: Global,
    options: &Options,
    scenario: &str,
    claims: &str,
    faults: &str,
    output: &mut W,
) -> Result<bool, CheckError>
    requires is_text { IsText scenario.now }
    ensures responds { Responds None options.now scenario.now claims.now faults.now
        (W.contents output.old) (W.contents output.new) result }
{
    if options.report {
        report_serial(alloc, scenario, faults, output)
    } else {
        write_answers_serial(alloc, options, scenario, claims, faults, output)
    }
}

/// Answers the claims in a file about the scenario in another one, as the arguments ask, and returns whether all claims
/// hold. The clause doesn't say what the files contain: the answers are those to some claims about some scenario, with
/// some faults after those of the options.
///
/// # Errors
/// The errors of `answer`, and those of reading a file.
pub fn check_asked<T, W, G>(
    rt: &T,
    asked: &Asked<'_>,
    output: &mut W,
    gate: &G,
) -> Result<bool, CheckError>
where
    T: AllocGlobal + Eprint + Files + Threads + Wait + RandomSource + Sync,
    W: Write,
    G: Gate + Sync,
    ensures checks_some { ChecksSome asked.now (W.contents output.old) (W.contents output.new) result }
{
    let scenario = read_scenario_file(rt, asked.scenario)?;
    let claims = read_claims_file(rt, asked.claims)?;
    let faults = all_faults(rt, asked)?;
    answer(
        rt,
        &asked.options,
        scenario.as_str(),
        claims.as_str(),
        faults.as_str(),
        output,
        gate,
    )
}

/// Serves the options of an input, as `run_text` does.
pub fn serve_options<W: Write, E: Write>(
    alloc: Global,
    options: &Options,
    scenario: &str,
    claims: &str,
    output: &mut W,
    errors: &mut E,
) -> u8
    requires is_text { IsText scenario.now }
    ensures serves { let old = ends (W.contents output.old) (E.contents errors.old)
        in let new = ends (W.contents output.new) (E.contents errors.new)
        in Serves (is_in_conflict options.now)
        (Responds None options.now scenario.now claims.now (string_bytes options.now.faults) old.output new.output) old new result }
{
    match conflict_in(options) {
        Some(why) => refuse_options(why, errors),
        None => {
            let faults = options.faults.as_str();
            let answer = answer_serial(alloc, options, scenario, claims, faults, output);
            status_of(answer, errors)
        }
    }
}

/// Checks as the arguments ask, and returns the exit status.
fn run_asked<T, W, E>(rt: &T, asked: &Asked<'_>, output: &mut W, errors: &mut E) -> u8
where
    T: AllocGlobal + Eprint + Files + Threads + Wait + RandomSource + Sync,
    W: Write,
    E: Write,
    ensures serves { let old = ends (W.contents output.old) (E.contents errors.old)
        in let new = ends (W.contents output.new) (E.contents errors.new)
        in Serves (are_in_conflict asked.now) (ChecksSome asked.now old.output new.output) old new result }
{
    match conflict_of(asked) {
        Some(why) => refuse_options(why, errors),
        None => {
            let answer = check_asked(rt, asked, output, &NoGate);
            status_of(answer, errors)
        }
    }
}

/// Runs the program with these arguments; the first is the program's name. It writes an answer to each claim to
/// `output`, as `check_asked` does. After an error, nothing is written to `errors` but the line of the error, or a prefix
/// of this line. If the arguments ask for help, it writes the help to `output`; if they have an error, it writes the error
/// to `errors`. Only tests show the text of the help, and the text about an error of the arguments.
///
/// It returns the exit status: 0 if all claims hold, or for help; 1 if a claim is broken, or if a survey left sets out; 2
/// if there is no result, because of an error.
pub fn run_command<T, W, E>(rt: &T, words: &[&str], output: &mut W, errors: &mut E) -> u8
where
    T: AllocGlobal + Eprint + Files + Threads + Wait + RandomSource + Sync,
    W: Write,
    E: Write,
    ensures commands { let old = ends (W.contents output.old) (E.contents errors.old)
        in let new = ends (W.contents output.new) (E.contents errors.new)
        in Commands (texts_of words.now) old new result }
{
    match asked_by(rt.alloc(), words) {
        Ok(asked) => run_asked(rt, &asked, output, errors),
        Err(error) => status_of_words(&error, output, errors),
    }
}
