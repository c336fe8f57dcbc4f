//! The kinds of synchronisation between workers.

ghost use Rattle.std.specs.Prelude.{◌≡◌};
ghost use Rattle.window_workers.specs.Sync.{has_marks};

/// The kind of synchronisation between workers. The report doesn't depend on it.
#[derive(Clone, Copy, Debug, Default, PartialEq, Eq)]
pub enum SyncKind {
    /// Each window has threads of its own, which are joined at the window's end. The inboxes have no marks.
    #[default]
    Joins,
    /// Each worker has one thread for the whole run, in which it waits for the marks of the other workers. The inboxes
    /// have marks.
    Marks,
}

impl SyncKind {
    /// Returns whether the inboxes for this kind have marks.
    pub fn has_marks(self) -> bool
        ensures value { result ≡ has_marks self }
    {
        match self {
            SyncKind::Joins => false,
            SyncKind::Marks => true,
        }
    }
}
