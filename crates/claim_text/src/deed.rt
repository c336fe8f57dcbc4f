//! Deeds: patterns, and the motes and periods of their lines.
ghost use Rattle.std.specs.Prelude.{◌≡◌, map, string_bytes, IfOk};
ghost use Rattle.claim_text.specs.DeedText.{entry_of, groups_text, own_period, watches_text, watched_text, deed_text};
ghost use Rattle.claim_text.specs.EntryView.{view_of};

use crate::error::Unread;
use crate::group::{Entry, Frame, write_entries};
use crate::numbers::write_period;
use crate::part::{Part, Read, Scope, Words, Written, write_list};
use crate::reader::Reader;
use claims::{Deed, Span, Watched};
use std::alloc::AllocError;

const PATTERNS: Words = Words {
    none: "of no kind",
    before: "",
    between: " or ",
};

const WATCHES: Frame = Frame {
    between: " and of ",
    together: " together",
};

fn read_watches(reader: &mut Reader<'_>) -> Read<Vec<Watched>> {
    let mut watches = Vec::new(reader.scope.alloc);
    if reader.take(" of no mote") {
        return Ok(watches);
    }
    if !reader.take(" of ") {
        let mote = reader.scope.own.ok_or(Unread::Unexpected)?;
        let when = reader.period()?;
        watches.push(Watched { mote, when })?;
        return Ok(watches);
    }
    for _ in 0..reader.rest.len() {
        let motes = reader.motes()?;
        let _ = reader.take(WATCHES.together);
        let when = reader.period()?;
        for mote in &motes {
            watches.push(Watched { mote: *mote, when })?;
        }
        if !reader.take(WATCHES.between) {
            break;
        }
    }
    Ok(watches)
}

fn entry_of(scope: Scope<'_>, watch: Watched) -> Result<Entry, AllocError>
    ensures value { IfOk result (λ e. view_of e ≡ entry_of watch) }
{
    let body = write_period(scope, watch.when)?;
    Ok(Entry {
        mote: Some(watch.mote),
        body,
    })
}

fn entries_of(scope: Scope<'_>, watches: &[Watched]) -> Result<Vec<Entry>, AllocError>
    ensures value { IfOk result (λ es. map view_of es.items ≡ map entry_of watches.now) }
{
    let mut entries = Vec::new(scope.alloc);
    for watch in watches {
        entries.push(entry_of(scope, *watch)?)?;
    }
    Ok(entries)
}

/// The period of the only watch, if its mote is that of the case.
fn own_period(own: Option<u16>, watches: &[Watched]) -> Option<Span>
    ensures value { result ≡ own_period own watches.now }
{
    match (own, watches) {
        (Some(own), [watch]) if watch.mote == own => Some(watch.when),
        _ => None,
    }
}

fn write_groups(scope: Scope<'_>, watches: &[Watched]) -> Written
    ensures written { IfOk result (λ t. string_bytes t ≡ groups_text watches.now) }
{
    let entries = entries_of(scope, watches)?;
    write_entries(scope, WATCHES, entries.as_slice())
}

fn write_watches(scope: Scope<'_>, watches: &[Watched]) -> Written
    ensures written { IfOk result (λ t. string_bytes t ≡ watches_text watches.now) }
{
    match watches {
        [] => String::from_str(scope.alloc, " of no mote"),
        [_, ..] => {
            let groups = write_groups(scope, watches)?;
            format!(in scope.alloc; " of {groups}")
        }
    }
}

fn write_watched(scope: Scope<'_>, watches: &[Watched]) -> Written
    ensures written { IfOk result (λ t. string_bytes t ≡ watched_text scope.entry.own watches.now) }
{
    match own_period(scope.own, watches) {
        Some(when) => write_period(scope, when),
        None => write_watches(scope, watches),
    }
}

impl Part for Deed {
    ghost text = { deed_text };

    fn read(reader: &mut Reader<'_>) -> Read<Deed> {
        let patterns = reader.list(PATTERNS)?;
        let watches = read_watches(reader)?;
        Ok(Deed { watches, patterns })
    }

    fn write(&self, scope: Scope<'_>) -> Written {
        let patterns = write_list(scope, PATTERNS, self.patterns.as_slice())?;
        let watched = write_watched(scope, self.watches.as_slice())?;
        format!(in scope.alloc; "{patterns}{watched}")
    }
}
