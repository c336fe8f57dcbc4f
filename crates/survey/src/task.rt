//! The sets that are tried.

ghost use Rattle.std.specs.Prelude.{◌≡◌, ℕ, ◌<◌, ◌++◌, ◌∷◌, [], true, length, slice_index_or, take, IfOk};
ghost use Rattle.std.specs.Bool.{OnTrue};
ghost use Rattle.survey.specs.Order.{awake};

use std::alloc::{AllocError, Global};

/// A set that is to be tried.
#[derive(Drop)]
pub struct Task {
    pub set: Vec<u64>,
    /// The keys that have had their turn: no set with them comes after this one.
    pub asleep: Vec<u64>,
    /// Whether there are to be sets with one more fault.
    pub goes_on: bool,
}

/// What a run with a set answers.
#[derive(Debug, Drop)]
pub struct Outcome {
    /// For each claim, whether it holds.
    pub answers: Vec<bool>,
    /// The keys of the faults that may change the run.
    pub offers: Vec<u64>,
}

/// A set that was tried.
#[derive(Drop)]
pub(crate) struct Node {
    pub set: Vec<u64>,
    pub asleep: Vec<u64>,
    /// The keys of the faults that may come next.
    pub next: Vec<u64>,
}

/// The offered keys that aren't asleep.
///
/// # Errors
/// `AllocError` if an allocation fails.
pub(crate) fn awake(alloc: Global, asleep: &[u64], offered: &[u64]) -> Result<Vec<u64>, AllocError>
    ensures value { IfOk result (λ v. v.items ≡ awake asleep.now offered.now) }
{
    let mut keys = Vec::new(alloc);
    for key in offered {
        if !asleep.contains(key) {
            keys.push(*key)?;
        }
    }
    Ok(keys)
}

/// The task of a set with one more fault, that at this place of the keys that may come next.
///
/// # Errors
/// `AllocError` if an allocation fails.
pub(crate) fn child(
    alloc: Global,
    node: &Node,
    place: usize,
    goes_on: bool,
) -> Result<Task, AllocError>
    requires place { place < length node.now.next.items }
    ensures set { IfOk result (λ t. t.set.items ≡ node.now.set.items
        ++ slice_index_or node.now.next.items place 0 ∷ []) }
    ensures asleep { IfOk result (λ t. goes_on ≡ true → t.asleep.items ≡ node.now.asleep.items
        ++ take place node.now.next.items) }
    ensures goes_on { IfOk result (λ t. t.goes_on ≡ goes_on) }
{
    let mut set = node.set.to_vec(alloc)?;
    set.push(node.next[place])?;
    let mut asleep = Vec::new(alloc);
    if goes_on {
        asleep.extend_from_slice(&node.asleep)?;
        asleep.extend_from_slice(&node.next[..place])?;
    }
    Ok(Task {
        set,
        asleep,
        goes_on,
    })
}
