//! Processes in lines and patterns.
ghost use Rattle.std.specs.Prelude.{◌≡◌};
ghost use Rattle.claims.specs.Processes.{is_same_process, is_same_target, wants_target};

use program_tree::{Proc, Target};

fn is_same_process(a: Proc, b: Proc) -> bool
    ensures value { result ≡ is_same_process a b }
{
    match a {
        Proc::Own(a) => match b {
            Proc::Own(b) => a == b,
            Proc::Etimer | Proc::Ctimer | Proc::Radio => false,
        },
        Proc::Etimer => matches!(b, Proc::Etimer),
        Proc::Ctimer => matches!(b, Proc::Ctimer),
        Proc::Radio => matches!(b, Proc::Radio),
    }
}

fn is_same_target(a: Target, b: Target) -> bool
    ensures value { result ≡ is_same_target a b }
{
    match a {
        Target::One(a) => match b {
            Target::One(b) => is_same_process(a, b),
            Target::All => false,
        },
        Target::All => matches!(b, Target::All),
    }
}

/// Returns whether a target is wanted: `None` wants any line, even one without a target.
pub(crate) fn wants_target(wanted: Option<Target>, said: Option<Target>) -> bool
    ensures value { result ≡ wants_target wanted said }
{
    match wanted {
        None => true,
        Some(wanted) => match said {
            None => false,
            Some(said) => is_same_target(wanted, said),
        },
    }
}
