//! The sets of faults that the options ask a survey to try.
ghost use Rattle.std.specs.Prelude.{◌≡◌, ◌++◌, ◌∷◌, [], if◌then◌else◌, map, IfOk, OnOk};
ghost use Rattle.fault_keys.specs.declared.keys.CopyFault.TheVariants.{Late};
ghost use Rattle.claim_check.specs.Asked.{copies_of, fault_at, has_copies, has_motes, is_survey, motes_of, plan_for};
ghost use Rattle.claim_check.specs.Survey.{limits_of, plan_of};

use crate::command_line::Options;
use crate::numbers::numbers_of;
use net_survey::{CopyFault, Limits, MoteFault};
use std::alloc::{AllocError, Global};

/// The runs that a survey makes at a time, before the next message of its progress.
const RUNS_AT_A_TIME: u16 = 2048;

/// The sets of faults that a survey tries.
#[derive(Drop)]
pub struct Faults {
    /// Whether links may be broken.
    pub links: bool,
    /// What may happen to each mote.
    pub motes: Vec<MoteFault>,
    /// What may happen to each copy.
    pub copies: Vec<CopyFault>,
    /// The most faults in a set.
    pub at_most: u8,
    /// The most runs.
    pub runs: u64,
}

impl Faults {
    /// Returns the limits of the survey.
    pub fn limits(&self) -> Limits
        ensures value { result ≡ limits_of (plan_of self.now) }
    {
        Limits {
            faults: self.at_most,
            trials: self.runs,
            at_a_time: RUNS_AT_A_TIME,
        }
    }
}

/// When a mote is off, by a moment.
#[derive(Clone, Copy, Debug, PartialEq, Eq)]
pub enum When {
    /// From the moment on.
    Off,
    /// It boots again at the moment.
    Restarts,
    /// Until the moment.
    Starts,
}

impl When {
    fn at(self, moment: u64) -> MoteFault
        ensures value { result ≡ fault_at self moment }
    {
        let (from, until) = match self {
            When::Off => (moment, None),
            When::Restarts => (moment, Some(moment)),
            When::Starts => (0, Some(moment)),
        };
        MoteFault::Off { from, until }
    }
}

/// Returns `true` if a survey of faults of copies is asked for.
fn has_copies(options: &Options) -> bool
    ensures value { result ≡ has_copies options.now }
{
    options.lost || options.late.is_some()
}

/// Returns `true` if a survey of faults of motes is asked for.
fn has_motes(options: &Options) -> bool
    ensures value { result ≡ has_motes options.now }
{
    options.silent
        || options.off.is_some()
        || options.restarts.is_some()
        || options.starts.is_some()
}

/// Returns `true` if a survey is asked for.
pub fn is_survey(options: &Options) -> bool
    ensures value { result ≡ is_survey options.now }
{
    options.links || has_copies(options) || has_motes(options)
}

/// Appends a value, if it is there.
fn put_if<T: Copy>(all: &mut Vec<T>, is_there: bool, value: T) -> Result<(), AllocError>
    ensures appended { OnOk result (all.new.items ≡ all.old.items ++ (if is_there then value ∷ [] else [])) }
{
    if is_there {
        all.push(value)?;
    }
    Ok(())
}

/// Appends that a copy may be so late.
fn put_late(copies: &mut Vec<CopyFault>, delays: &[u32]) -> Result<(), AllocError>
    ensures appended { OnOk result (copies.new.items ≡ copies.old.items ++ map Late delays.now) }
{
    for delay in delays {
        copies.push(CopyFault::Late(*delay))?;
    }
    Ok(())
}

/// Appends that a mote may be off, by each of these moments.
fn put_off(motes: &mut Vec<MoteFault>, when: When, moments: &[u32]) -> Result<(), AllocError>
    ensures appended { OnOk result (motes.new.items ≡ motes.old.items ++ map (fault_at when) moments.now) }
{
    for moment in moments {
        motes.push(when.at(u64::from(*moment)))?;
    }
    Ok(())
}

/// Returns what may happen to each copy in a survey.
fn copies_of(alloc: Global, options: &Options) -> Result<Vec<CopyFault>, AllocError>
    ensures value { IfOk result (λ copies. copies.items ≡ copies_of options.now) }
{
    let mut copies = Vec::new(alloc);
    put_if(&mut copies, options.lost, CopyFault::Lost)?;
    put_late(&mut copies, numbers_of(&options.late))?;
    Ok(copies)
}

/// Returns what may happen to each mote in a survey.
fn motes_of(alloc: Global, options: &Options) -> Result<Vec<MoteFault>, AllocError>
    ensures value { IfOk result (λ motes. motes.items ≡ motes_of options.now) }
{
    let mut motes = Vec::new(alloc);
    put_if(&mut motes, options.silent, MoteFault::Silent)?;
    put_off(&mut motes, When::Off, numbers_of(&options.off))?;
    put_off(&mut motes, When::Restarts, numbers_of(&options.restarts))?;
    put_off(&mut motes, When::Starts, numbers_of(&options.starts))?;
    Ok(motes)
}

/// Returns the sets of faults that a survey is to try.
///
/// # Errors
/// If an allocation failed.
pub fn faults_of(alloc: Global, options: &Options) -> Result<Faults, AllocError>
    ensures value { IfOk result (λ faults. plan_of faults ≡ plan_for options.now) }
{
    let motes = motes_of(alloc, options)?;
    let copies = copies_of(alloc, options)?;
    Ok(Faults {
        links: options.links,
        motes,
        copies,
        at_most: options.at_most.unwrap_or(1),
        runs: options.runs.unwrap_or(u64::MAX),
    })
}
