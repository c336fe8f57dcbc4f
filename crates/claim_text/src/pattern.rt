//! Patterns of lines.
ghost use Rattle.std.specs.Prelude.{◌≡◌, string_bytes, IfOk};
ghost use Rattle.claim_text.specs.PatternText.{kind_text, process_text, target_part, numbers_text, pattern_text};

use crate::error::Unread;
use crate::numbers::write_part;
use crate::part::{Part, Read, Scope, Words, Written, write_list};
use crate::reader::Reader;
use claims::{LineKind, Pattern};
use program_tree::{Names, Proc, Target};

const ALL_KINDS: [LineKind; 15] = [
    LineKind::Start,
    LineKind::Leave,
    LineKind::Post,
    LineKind::Full,
    LineKind::Take,
    LineKind::Drop,
    LineKind::Print,
    LineKind::Busy,
    LineKind::Halt,
    LineKind::Send,
    LineKind::Recv,
    LineKind::Lost,
    LineKind::Deaf,
    LineKind::Collide,
    LineKind::Boots,
];

const KINDS: Words = Words {
    none: "nothing",
    before: "",
    between: " or ",
};

fn word_of(kind: LineKind) -> &'static str
    ensures value { result.now ≡ kind_text kind }
{
    match kind {
        LineKind::Start => "start",
        LineKind::Leave => "leave",
        LineKind::Post => "post",
        LineKind::Full => "full",
        LineKind::Take => "take",
        LineKind::Drop => "drop",
        LineKind::Print => "print",
        LineKind::Busy => "busy",
        LineKind::Halt => "halt",
        LineKind::Send => "send",
        LineKind::Recv => "recv",
        LineKind::Lost => "lost",
        LineKind::Deaf => "deaf",
        LineKind::Collide => "collide",
        LineKind::Boots => "boots",
    }
}

impl Part for LineKind {
    ghost text = { λ names own k. kind_text k };

    fn read(reader: &mut Reader<'_>) -> Read<LineKind> {
        for kind in ALL_KINDS {
            if reader.take(word_of(kind)) {
                return Ok(kind);
            }
        }
        Err(Unread::Unexpected)
    }

    fn write(&self, scope: Scope<'_>) -> Written {
        String::from_str(scope.alloc, word_of(*self))
    }
}

/// Takes the name of a process, if the word in front of a space or a quotation mark is one.
fn take_name(reader: &mut Reader<'_>) -> Option<u8> {
    let rest = reader.rest;
    let end = rest.iter().position(|byte| *byte == b' ' || *byte == b'"')?;
    let place = place_of(reader.scope.names, &rest[..end])?;
    reader.rest = &rest[end..];
    Some(place)
}

/// The place of a word among the first 256 names.
fn place_of(names: &Names, word: &[u8]) -> Option<u8> {
    for place in 0..names.len().min(256) {
        if names.get(place).as_bytes() == word {
            return Some(place as u8);
        }
    }
    None
}

fn read_target(reader: &mut Reader<'_>) -> Read<Target> {
    let process = if let Some(place) = take_name(reader) {
        Proc::Own(place)
    } else if reader.take("etimer") {
        Proc::Etimer
    } else if reader.take("ctimer") {
        Proc::Ctimer
    } else if reader.take("radio") {
        Proc::Radio
    } else if reader.take("all") {
        return Ok(Target::All);
    } else {
        Proc::Own(reader.number_up_to(255)? as u8)
    };
    Ok(Target::One(process))
}

fn write_process(scope: Scope<'_>, process: Proc) -> Written
    ensures written { IfOk result (λ t. string_bytes t ≡ process_text scope.entry.names.now process) }
{
    match process {
        Proc::Own(place) if usize::from(place) < scope.names.len() => {
            String::from_str(scope.alloc, scope.names.get(usize::from(place)))
        }
        Proc::Own(place) => format!(in scope.alloc; "{place}"),
        Proc::Etimer => String::from_str(scope.alloc, "etimer"),
        Proc::Ctimer => String::from_str(scope.alloc, "ctimer"),
        Proc::Radio => String::from_str(scope.alloc, "radio"),
    }
}

fn write_target(scope: Scope<'_>, target: Option<Target>) -> Written
    ensures written { IfOk result (λ t. string_bytes t ≡ target_part scope.entry.names.now target) }
{
    match target {
        None => Ok(String::new(scope.alloc)),
        Some(Target::All) => String::from_str(scope.alloc, " process all"),
        Some(Target::One(process)) => {
            let process = write_process(scope, process)?;
            format!(in scope.alloc; " process {process}")
        }
    }
}

fn write_numbers(scope: Scope<'_>, pattern: &Pattern) -> Written
    ensures written { IfOk result (λ t. string_bytes t ≡ numbers_text pattern.now) }
{
    let serial = write_part(scope, " serial ", &pattern.serial)?;
    let event = write_part(scope, " event ", &pattern.event)?;
    let sender = write_part(scope, " sender ", &pattern.sender)?;
    let packet = write_part(scope, " packet ", &pattern.packet)?;
    let value = write_part(scope, " value ", &pattern.value)?;
    format!(in scope.alloc; "{serial}{event}{sender}{packet}{value}")
}

impl Part for Pattern {
    ghost text = { λ names own p. pattern_text names p };

    fn read(reader: &mut Reader<'_>) -> Read<Pattern> {
        reader.expect("\"")?;
        let kinds = reader.list(KINDS)?;
        let target = if reader.take(" process ") {
            Some(read_target(reader)?)
        } else {
            None
        };
        let serial = reader.part(" serial ")?;
        let event = reader.part(" event ")?;
        let sender = reader.part(" sender ")?;
        let packet = reader.part(" packet ")?;
        let value = reader.part(" value ")?;
        reader.expect("\"")?;
        Ok(Pattern {
            kinds,
            target,
            serial,
            event,
            sender,
            packet,
            value,
        })
    }

    fn write(&self, scope: Scope<'_>) -> Written {
        let kinds = write_list(scope, KINDS, self.kinds.as_slice())?;
        let target = write_target(scope, self.target)?;
        let numbers = write_numbers(scope, self)?;
        format!(in scope.alloc; "\"{kinds}{target}{numbers}\"")
    }
}
