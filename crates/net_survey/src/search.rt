//! The survey of a net.

ghost use Rattle.std.specs.Prelude.{◌<◌, ◌≤◌, ◌^◌, length, IfOk};
ghost use Rattle.mote_net.specs.Meaning.{net_of};
ghost use Rattle.net_survey.specs.NetSurvey.{IsSurveyOf};

use crate::net_trial::{NetTrial, check_medium};
use claims::Claim;
use fault_keys::Candidates;
use mote_net::Net;
use std::alloc::{AllocError, Global};
use std::thread::Threads;
use survey::{Limits, Progress, Survey, survey, survey_in_threads};

/// Finds the minimal sets of these faults with which a claim doesn't hold in the report of the net's run, within the
/// limits. The runs are made one after another.
///
/// # Errors
/// `AllocError` if an allocation of the search or of a run fails. A run has no other error: a mote that halts says so in
/// its trace.
pub fn survey_net_serial(
    alloc: Global,
    net: &Net,
    claims: &[Claim],
    candidates: &Candidates,
    limits: Limits,
) -> Result<Survey, AllocError>
    requires few_claims { length claims.now < 2 ^ 16 }
    requires few_fixed { length candidates.now.fixed.items ≤ 2 ^ 32 }
    requires few_copies { length candidates.now.copies.items < 16 }
    ensures is_survey_of { IfOk result (IsSurveyOf (net_of net.now) claims.now candidates.now limits) }
{
    check_medium(net);
    let trial = NetTrial {
        net,
        claims,
        candidates,
    };
    survey(alloc, &trial, limits)
}

/// Does the same with so many workers, each with a thread of its own, which share the runs; no clause speaks of
/// threads. The function joins the threads, so it may wait.
///
/// # Errors
/// Those of `survey_net_serial`.
pub fn survey_net<R: Threads + Sync, P: Progress + Sync>(
    rt: &R,
    alloc: Global,
    net: &Net,
    claims: &[Claim],
    candidates: &Candidates,
    workers: u16,
    limits: Limits,
    progress: &P,
) -> Result<Survey, AllocError>
    requires workers { 0 < workers }
    requires few_claims { length claims.now < 2 ^ 16 }
    requires few_fixed { length candidates.now.fixed.items ≤ 2 ^ 32 }
    requires few_copies { length candidates.now.copies.items < 16 }
    ensures is_survey_of { IfOk result (IsSurveyOf (net_of net.now) claims.now candidates.now limits) }
{
    check_medium(net);
    let trial = NetTrial {
        net,
        claims,
        candidates,
    };
    survey_in_threads(rt, alloc, &trial, workers, limits, progress)
}
