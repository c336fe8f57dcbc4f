//! Surveys of the faults that the net of a scenario may have.
ghost use Rattle.std.specs.Prelude.{◌≡◌, ◌<◌, ◌^◌, None, length, IfErr, IfOk};
ghost use Rattle.mote_net.specs.Meaning.{net_of};
ghost use Rattle.window_workers.specs.declared.sync.SyncKind.TheVariants as sync;
ghost use Rattle.simulation.specs.Input.{IsText};
ghost use Rattle.simulation.specs.Simulation.{MayRun, way_by};
ghost use Rattle.survey.specs.declared.search.Limits.{Limits as AnyLimits};
ghost use Rattle.claim_check.specs.NetSurveys.{RefusesFaults, SurveysNet};
ghost use Rattle.claim_check.specs.Survey.{RefusesWorkers, Surveys, TellsSurvey, faults_in, is_settled, limits_of, plan_of};

use crate::answers::Answers;
use crate::error::CheckError;
use crate::names::names_of;
use crate::plan::Faults;
use claim_text::read_claims;
use claims::Claim;
use mote_net::Net;
use net_scenario::read_scenario;
use net_survey::{
    Candidates, Limits, Progress, Survey, candidates_of, is_complete, survey_net,
    survey_net_serial, write_survey,
};
use program_tree::Names;
use simulation::RunError;
use std::alloc::{AllocError, Global};
use std::thread::Threads;
use window_workers::MOST_WORKERS;

/// The most claims of a survey, and the most faults that its net may have.
pub const MOST: usize = 65535;

/// The most faults that a single copy may have in a survey.
const MOST_OF_A_COPY: usize = 15;

/// Returns `true` if a survey reached its end, and no set breaks a claim.
fn is_settled(limits: Limits, survey: &Survey) -> bool
    ensures value { result ≡ is_settled limits survey.now }
{
    is_complete(limits, survey) && survey.broken.is_empty()
}

/// Returns the faults in a net that a survey of these claims has to try.
///
/// # Errors
/// `TooManyClaims` or `TooManyFaults`, or out of memory.
fn faults_to_try(
    alloc: Global,
    net: &Net,
    claims: &[Claim],
    faults: &Faults,
) -> Result<Candidates, CheckError>
    ensures few_claims { IfOk result (λ _. length claims.now < 2 ^ 16) }
    ensures few_faults { IfOk result (λ all. length all.fixed.items < 2 ^ 16) }
    ensures few_copies { IfOk result (λ all. length all.copies.items < 16) }
    ensures fixed { IfOk result (λ all. all.fixed.items ≡ faults_in (plan_of faults.now) (net_of net.now)) }
    ensures copies { IfOk result (λ all. all.copies.items ≡ (plan_of faults.now).copies) }
    ensures refuses { IfErr result (RefusesFaults (plan_of faults.now) (net_of net.now) claims.now) }
{
    if claims.len() > MOST {
        return Err(CheckError::TooManyClaims);
    }
    if faults.copies.len() > MOST_OF_A_COPY {
        return Err(CheckError::TooManyFaults);
    }
    let all = candidates_of(alloc, net, faults.links, &faults.motes, &faults.copies)?;
    if all.fixed.len() > MOST {
        return Err(CheckError::TooManyFaults);
    }
    Ok(all)
}

/// Writes what a survey found.
///
/// # Errors
/// If an allocation failed.
fn answers_of(
    alloc: Global,
    names: &Names,
    claims: &[Claim],
    candidates: &Candidates,
    limits: Limits,
    found: &Survey,
) -> Result<Answers, AllocError>
    ensures tells_survey { IfOk result (TellsSurvey names.now claims.now candidates.now limits found.now) }
{
    let text = write_survey(alloc, names, claims, candidates, limits, found)?;
    let all_hold = is_settled(limits, found);
    Ok(Answers { text, all_hold })
}

/// Surveys a net with these claims, as `check_serial_with_faults` does.
fn survey_claims_serial(
    alloc: Global,
    net: &Net,
    names: &Names,
    claims: &[Claim],
    faults: &Faults,
) -> Result<Answers, CheckError>
    ensures surveys { SurveysNet None (plan_of faults.now) names.now (net_of net.now) claims.now result }
{
    let candidates = faults_to_try(alloc, net, claims, faults)?;
    let limits = faults.limits();
    let found = survey_net_serial(alloc, net, claims, &candidates, limits)?;
    Ok(answers_of(alloc, names, claims, &candidates, limits, &found)?)
}

/// Returns the number of workers that make the runs.
///
/// # Errors
/// `Workers` if there aren't 1 to 16 workers.
fn workers_of(workers: Option<u16>) -> Result<u16, RunError>
    ensures some { IfOk result (λ number. 0 < number) }
    ensures may_run { IfOk result (λ _. MayRun (way_by workers sync.Joins)) }
    ensures refuses { IfErr result (RefusesWorkers (way_by workers sync.Joins)) }
{
    match workers {
        None => Ok(1),
        Some(number) => {
            if number == 0 || number > MOST_WORKERS {
                return Err(RunError::Workers);
            }
            Ok(number)
        }
    }
}

/// Surveys a net with these claims, as `check_with_faults` does.
fn survey_claims<T: Threads + Sync, P: Progress + Sync>(
    rt: &T,
    alloc: Global,
    net: &Net,
    names: &Names,
    claims: &[Claim],
    faults: &Faults,
    workers: Option<u16>,
    progress: &P,
) -> Result<Answers, CheckError>
    ensures surveys { SurveysNet (way_by workers sync.Joins) (plan_of faults.now) names.now (net_of net.now) claims.now result }
{
    let candidates = faults_to_try(alloc, net, claims, faults)?;
    let workers = workers_of(workers)?;
    let limits = faults.limits();
    let found = survey_net(
        rt,
        alloc,
        net,
        claims,
        &candidates,
        workers,
        limits,
        progress,
    )?;
    Ok(answers_of(alloc, names, claims, &candidates, limits, &found)?)
}

/// Runs the net of a scenario with each set of at most so many faults, as far as the limit of runs allows, and says for
/// each claim with which of them it doesn't hold. One thread makes one run after another, and never waits for another
/// thread. `all_hold` is `true` if no set breaks a claim, and no set was left out.
///
/// # Errors
/// Those of `check_with_faults`, but `Workers`.
pub fn check_serial_with_faults(
    alloc: Global,
    scenario: &str,
    claims: &str,
    faults: &Faults,
) -> Result<Answers, CheckError>
    requires is_text { IsText scenario.now }
    ensures surveys { Surveys None (plan_of faults.now) scenario.now claims.now result }
{
    let net = read_scenario(alloc, scenario)?;
    let none = Names::new(alloc);
    let names = names_of(&net, &none);
    let claims = read_claims(alloc, names, claims.as_bytes())?;
    survey_claims_serial(alloc, &net, names, claims.as_slice(), faults)
}

/// Does the same as `check_serial_with_faults` with so many workers, which share the runs; without a number, there is
/// one.
///
/// # Errors
/// `Simulation` with the first error in the scenario; otherwise `Claims` with an error in the claims; otherwise
/// `TooManyClaims` or `TooManyFaults` if there are more than 65535, or if a copy may have more than 15; otherwise `Simulation` with `Workers` if there
/// aren't 1 to 16 workers. The error can also be out of memory. No clause says that an allocation failed in that case.
/// A run has no other error: a mote that halts says so in its trace, where claims see it.
pub fn check_with_faults<T: Threads + Sync, P: Progress + Sync>(
    rt: &T,
    alloc: Global,
    scenario: &str,
    claims: &str,
    faults: &Faults,
    workers: Option<u16>,
    progress: &P,
) -> Result<Answers, CheckError>
    requires is_text { IsText scenario.now }
    ensures surveys { Surveys (way_by workers sync.Joins) (plan_of faults.now) scenario.now claims.now result }
{
    let net = read_scenario(alloc, scenario)?;
    let none = Names::new(alloc);
    let names = names_of(&net, &none);
    let claims = read_claims(alloc, names, claims.as_bytes())?;
    survey_claims(
        rt,
        alloc,
        &net,
        names,
        claims.as_slice(),
        faults,
        workers,
        progress,
    )
}
