//! The names of processes that claims may use.
ghost use Rattle.std.specs.Prelude.{◌≡◌, ◌↔◌, [], IsTrue, IfSome, IsNone};
ghost use Rattle.mote_net.specs.Meaning.{net_of};
ghost use Rattle.claim_check.specs.Names.{AreNames, HaveNames, NamesDiffer};

use mote_net::Net;
use program_tree::Names;

/// Returns `true` if two lists have the same names in the same order.
fn are_same(one: &Names, other: &Names) -> bool
    ensures value { IsTrue result ↔ (one.now ≡ other.now) }
{
    if one.len() != other.len() {
        return false;
    }
    for place in 0..one.len() {
        if one.get(place) != other.get(place) {
            return false;
        }
    }
    true
}

/// The names of the processes, if all motes of the net have the same ones.
fn shared_names(net: &Net) -> Option<&Names>
    ensures some { IfSome result (λ names. HaveNames (net_of net.now) names.now) }
    ensures none { IsNone result → NamesDiffer (net_of net.now) }
{
    let names = &net.program(0).processes;
    for mote in 0..net.motes() {
        if !are_same(&net.program(mote).processes, names) {
            return None;
        }
    }
    Some(names)
}

/// The names that claims about a net may use: those of `shared_names`, or `none`.
pub fn names_of<'a>(net: &'a Net, none: &'a Names) -> &'a Names
    requires none { none.now ≡ [] }
    ensures named { AreNames (net_of net.now) result.now }
{
    match shared_names(net) {
        Some(names) => names,
        None => none,
    }
}
