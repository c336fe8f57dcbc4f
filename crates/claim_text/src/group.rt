//! Motes in groups: neighbours of which the same is said.
ghost use Rattle.std.specs.Prelude.{◌≡◌, ◌++◌, None, map, string_bytes, IfOk};
ghost use Rattle.claim_text.specs.Appends.{Appends};
ghost use Rattle.claim_text.specs.Groups.{is_next, mote_item, mote_after, mote_before, groups_in};
ghost use Rattle.claim_text.specs.Groups.{subject_text, entry_text, entries_text};
ghost use Rattle.claim_text.specs.EntryView.{view_of};

use crate::part::{Read, Scope, Words, Written};
use crate::reader::Reader;
use claims::Span;
use std::alloc::AllocError;

/// A mote, or the net, and what is said of it.
#[derive(Drop)]
pub struct Entry {
    pub mote: Option<u16>,
    pub body: String,
}

/// The word between two groups, and the one behind several motes.
#[derive(Clone, Copy)]
pub struct Frame {
    pub between: &'static str,
    pub together: &'static str,
}

const MOTES: Words = Words {
    none: "none",
    before: "",
    between: ", ",
};

impl Reader<'_> {
    /// Reads the motes of a group, such as `mote 3` or `motes 1 to 3, 7`.
    pub fn motes(&mut self) -> Read<Vec<u16>> {
        self.take_either("mote ", "motes ")?;
        let spans = self.list::<Span>(MOTES)?;
        let mut motes = Vec::new(self.scope.alloc);
        for span in &spans {
            for mote in span.from..span.to.min(65535) + 1 {
                motes.push(mote as u16)?;
            }
        }
        Ok(motes)
    }
}

fn is_next(mote: u16, next: Option<u16>) -> bool
    ensures value { result ≡ is_next mote next }
{
    match next {
        None => false,
        Some(next) => u32::from(next) == u32::from(mote) + 1,
    }
}

/// Appends a mote, if it stands between these motes of its group. Nothing stands for a mote inside a span.
fn put_mote(
    text: &mut String,
    before: Option<u16>,
    mote: u16,
    after: Option<u16>,
) -> Result<(), AllocError>
    ensures appends { Appends result text.old text.new (mote_item before mote after) }
{
    match before {
        None => {
            let word = if after.is_some() { "motes" } else { "mote" };
            write!(text, "{word} {mote}")
        }
        Some(before) if !is_next(before, Some(mote)) => write!(text, ", {mote}"),
        Some(_) if is_next(mote, after) => Ok(()),
        Some(_) => write!(text, " to {mote}"),
    }
}

/// The mote of the first of these entries, if the same is said of it as of the entry before them.
fn mote_after(entry: &Entry, rest: &[Entry]) -> Option<u16>
    ensures value { result ≡ mote_after (view_of entry.now) (map view_of rest.now) }
{
    match rest {
        [next, ..] if entry.mote.is_some() && entry.body.as_str() == next.body.as_str() => {
            next.mote
        }
        _ => None,
    }
}

/// The mote of an entry, if the same is said of the next one.
fn mote_before(entry: &Entry, rest: &[Entry]) -> Option<u16>
    ensures value { result ≡ mote_before (view_of entry.now) (map view_of rest.now) }
{
    if mote_after(entry, rest).is_some() {
        entry.mote
    } else {
        None
    }
}

/// The number of groups.
pub fn groups_in(mut entries: &[Entry]) -> u64
    ensures value { result ≡ groups_in None (map view_of entries.entry.now) }
{
    let mut count = 0;
    let mut before: Option<u16> = None;
    while let [entry, rest @ ..] = entries {
        if before.is_none() {
            count += 1;
        }
        before = mote_before(entry, rest);
        entries = rest;
    }
    count
}

fn put_subject(
    text: &mut String,
    before: Option<u16>,
    mote: Option<u16>,
    after: Option<u16>,
) -> Result<(), AllocError>
    ensures appends { Appends result text.old text.new (subject_text before mote after) }
{
    match mote {
        None => text.push_str("the net"),
        Some(mote) => put_mote(text, before, mote, after),
    }
}

/// Appends what is said of an entry if it is the last one of its group.
fn put_entry(
    text: &mut String,
    frame: Frame,
    before: Option<u16>,
    entry: &Entry,
    rest: &[Entry],
) -> Result<(), AllocError>
    ensures appends { Appends result text.old text.new
        (entry_text frame.between.now frame.together.now before (view_of entry.now)
        (map view_of rest.now)) }
{
    let after = mote_after(entry, rest);
    put_subject(text, before, entry.mote, after)?;
    if after.is_some() {
        return Ok(());
    }
    if before.is_some() {
        text.push_str(frame.together)?;
    }
    text.push_str(entry.body.as_str())?;
    match rest {
        [] => Ok(()),
        [_, ..] => text.push_str(frame.between),
    }
}

/// Writes entries, in groups.
pub fn write_entries(scope: Scope<'_>, frame: Frame, mut entries: &[Entry]) -> Written
    ensures written { IfOk result (λ t. string_bytes t
        ≡ entries_text frame.between.now frame.together.now None (map view_of entries.entry.now)) }
{
    let mut text = String::new(scope.alloc);
    let mut before = None;
    while let [entry, rest @ ..] = entries {
        put_entry(&mut text, frame, before, entry, rest)?;
        before = mote_before(entry, rest);
        entries = rest;
    }
    Ok(text)
}
