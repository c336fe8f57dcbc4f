//! The options of a simulation.

ghost use Rattle.std.specs.Prelude.{◌≡◌, None};
ghost use Rattle.simulation.specs.declared.options.CutKind.TheVariants as kind;
ghost use Rattle.window_workers.specs.declared.sync.SyncKind.TheVariants as wait;

use window_workers::SyncKind;

/// The kinds of partitions of the motes among the workers.
#[derive(Clone, Copy, Debug, PartialEq, Eq)]
pub enum CutKind {
    /// Each worker has motes with consecutive numbers.
    Block,
    /// The motes are dealt to the workers one by one.
    Stripe,
}

/// The workers that simulate a scenario, the partition of the motes among them, and their kind of synchronisation.
#[derive(Clone, Copy, Debug, PartialEq, Eq)]
pub struct Options {
    /// The number of workers, each with threads of its own; without a number, one thread takes all turns.
    pub workers: Option<u16>,
    pub cut: CutKind,
    /// With joins, each worker has a thread for each window, which is joined at the window's end. With marks, it has
    /// one thread for the whole run, in which it waits for the marks of the others.
    pub sync: SyncKind,
}

impl Default for Options {
    ghost is_default = { λ o. (o.workers ≡ None) × (o.cut ≡ kind.Block) × (o.sync ≡ wait.Joins) };

    /// The default is one thread; with workers, a partition in blocks, and joins.
    fn default() -> Options {
        Options {
            workers: None,
            cut: CutKind::Block,
            sync: SyncKind::Joins,
        }
    }
}
