//! The events of a window: `window` has them taken out of the agenda, and given to the motes, before it runs these.

ghost use Rattle.std.specs.Prelude.{◌≡◌, true, List, IsSome, IfOk, OnOk, ◌++◌, ◌∷◌, [], map, not, if◌then◌else◌};
ghost use Rattle.std.specs.List.{filter};
ghost use Rattle.net_agenda.specs.Buckets.{HoldsItems};
ghost use Rattle.net_agenda.specs.Items.{copy_at};
ghost use Rattle.window_laws.specs.Agenda.{Item};
ghost use Rattle.worker_window.specs.Events.{CanTakeEvents, IsSameMote, TakesEventsBefore, held_copies, is_called};
ghost use Rattle.worker_window.specs.Events.{is_not_before};
ghost use Rattle.worker_window.specs.MoteWindow.{is_rising};

use crate::own::OwnWindow;
use net_agenda::Agenda;
use radio_packet::Arrival;
use std::alloc::AllocError;

/// Gives a mote the copies that arrive at it at a moment. Returns whether this is its first event in the window.
fn give(
    mote: &mut Option<OwnWindow>,
    moment: u64,
    number: u16,
    arrivals: &[Arrival],
) -> Result<bool, AllocError>
    requires there { IsSome mote.old }
    requires rising { is_rising (held_copies mote.old ++ map (copy_at moment number) arrivals.now) ≡ true }
    ensures given { OnOk result (held_copies mote.new ≡ held_copies mote.old ++ map (copy_at moment number) arrivals.now) }
    ensures kept { IsSameMote mote.old mote.new }
    ensures first { IfOk result (λ first. first ≡ not (is_called mote.old)) }
    ensures called { OnOk result (is_called mote.new ≡ true) }
{
    match mote {
        Some(own) => {
            own.add(moment, number, arrivals)?;
            Ok(own.call())
        }
        None => unreachable!(),
    }
}

/// Adds the number of a mote to those of the called motes, if it is called for the first time.
fn call(called: &mut Vec<u16>, number: u16, first: bool) -> Result<(), AllocError>
    ensures called { OnOk result (called.new.items
        ≡ (if first then called.old.items ++ number ∷ [] else called.old.items)) }
{
    if first {
        called.push(number)?;
    }
    Ok(())
}

/// Takes all pending events before a moment out of the agenda, and gives the motes their copies. The numbers of the
/// motes that have an event replace the contents of `called`. `arrivals` is a scratch buffer.
///
/// # Errors
/// `AllocError` if an allocation fails. Then some of the events may already be out of the agenda.
pub(crate) fn take_events_before(
    agenda: &mut Agenda,
    motes: &mut Vec<Option<OwnWindow>>,
    until: u64,
    arrivals: &mut Vec<Arrival>,
    called: &mut Vec<u16>,
) -> Result<(), AllocError>
    requires can { CanTakeEvents agenda.old.buckets motes.old.items }
    ensures taken { OnOk result ((items : List Item) → HoldsItems agenda.old.buckets items
        → TakesEventsBefore until items motes.old.items motes.new.items called.new.items) }
    ensures rest { OnOk result ((items : List Item) → HoldsItems agenda.old.buckets items
        → HoldsItems agenda.new.buckets (filter (is_not_before until) items)) }
{
    called.clear();
    while let Some((moment, mote)) = agenda.first() {
        if moment >= until {
            break;
        }
        agenda.take_due_into(moment, mote, arrivals)?;
        let first = give(&mut motes[usize::from(mote)], moment, mote, arrivals)?;
        call(called, mote, first)?;
    }
    Ok(())
}
