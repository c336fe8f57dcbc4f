//! Sets of faults.

ghost use Rattle.std.specs.Prelude.{◌↔◌, IsTrue};
ghost use Rattle.std.specs.List.{Contains};
ghost use Rattle.survey.specs.FaultSet.{IsWithin};

/// Whether each fault of `part` is one of `whole`.
pub fn is_within(part: &[u64], whole: &[u64]) -> bool
    ensures is_within { IsTrue result ↔ IsWithin part.now whole.now }
{
    for fault in part {
        if !has(whole, *fault) {
            return false;
        }
    }
    true
}

/// Whether a fault is one of the set.
fn has(set: &[u64], fault: u64) -> bool
    ensures contains { IsTrue result ↔ Contains set.now fault }
{
    set.contains(&fault)
}
