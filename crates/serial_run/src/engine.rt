//! A net during its run with faults: its motes, their traces, the medium's log, and the pending events.

ghost use Rattle.std.specs.Prelude.{◌≡◌, ◌<◌, ◌≤◌, ◌^◌, List, length, option_map, IsSome, OnOk, IfOk};
ghost use Rattle.mote_node.specs.Public.{node_in, turn_out_of};
ghost use Rattle.kernel_laws.specs.Stamps.{PacketsBear};
ghost use Rattle.mote_net.specs.Meaning.{net_of};
ghost use Rattle.radio_faults.specs.declared.fault.Fault.{Fault};
ghost use Rattle.net_agenda.specs.Buckets.{wake_but_at};
ghost use Rattle.net_agenda.specs.NetSystem.{first_node_in, system_of, tree_at};
ghost use Rattle.window_laws.specs.NetStep.{boot};
ghost use Rattle.serial_run.specs.IsInState.{CanTurnAt, HasNumberAt, IsEngineAt, IsWhole, OneTakesTurn};
ghost use Rattle.serial_run.specs.IsInState.{TookTurn, TurnLeads, node_turn_on, own_turn, turn_again};
ghost use Rattle.serial_run.specs.FaultRun.{node_again};
ghost use Rattle.serial_run.specs.OnTime.{CanTurn};

use crate::sends::send_all;
use mote_net::{LogLine, Net};
use mote_node::{Mote, MoteError};
use net_agenda::{Agenda, add_lines, new_mote};
use process_kernel::{Line, Out};
use radio_faults::{Fault, boots, is_off, next_boot, sooner};
use radio_packet::Arrival;
use std::alloc::{AllocError, Global};
use trace_lines::What;

/// The motes, each with its next wake and its trace; the packets that were sent; and the pending events.
#[derive(Drop)]
pub struct Engine {
    pub alloc: Global,
    pub motes: Vec<Mote>,
    /// The wakes that are among the pending events. A mote that is off, or boots again before the wake that it asked for, has
    /// another one.
    pub wakes: Vec<Option<u64>>,
    pub traces: Vec<Vec<Line>>,
    pub log: Vec<LogLine>,
    pub agenda: Agenda,
    /// The packets of the last turn. The next turn reuses their memory.
    pub arrivals: Vec<Arrival>,
    /// The output of the last turn. The next turn reuses its memory.
    pub out: Out,
}

/// Returns `wake`, or `None` if the wake is at this moment.
fn wake_but_at(moment: u64, wake: Option<u64>) -> Option<u64>
    ensures value { result ≡ wake_but_at moment wake }
{
    match wake {
        Some(wake) => {
            if wake == moment {
                return None;
            }
            Some(wake)
        }
        None => None,
    }
}

/// Makes a mote anew, as before its first turn. The numbers of its packets go on.
fn boot_again(alloc: Global, net: &Net, number: u16, mote: &mut Mote) -> Result<(), AllocError>
    requires mote_exists { number < length (net_of net.now).motes }
    requires running { IsSome (node_in (tree_at (net_of net.now) number) mote.old) }
    ensures again { let model = net_of net.now in let tree = tree_at model number in OnOk result
        (node_in tree mote.new ≡ option_map (node_again (first_node_in model number)) (node_in tree mote.old)) }
{
    let sent = mote.sent();
    let mut fresh = new_mote(alloc, net, number)?;
    fresh.set_sent(sent);
    *mote = fresh;
    Ok(())
}

/// Takes the turn of a mote, and returns its next wake. The mote has not failed, and its last turn, if there was one, was
/// before this moment.
fn own_turn(
    net: &Net,
    number: u16,
    mote: &mut Mote,
    moment: u64,
    packets: &[Arrival],
    out: &mut Out,
) -> Result<Option<u64>, AllocError>
    requires mote_exists { number < length (net_of net.now).motes }
    requires moment_bounded { moment ≤ 2 ^ 40 }
    requires ready { CanTurn moment (node_in (tree_at (net_of net.now) number) mote.old) }
    ensures turned { IfOk result (λ wake. TookTurn (net_of net.now) number (own_turn moment packets.now)
        mote.old mote.new (turn_out_of out.new wake)) }
{
    match mote.turn_into(net.program(number), moment, packets, out) {
        Ok(wake) => Ok(wake),
        Err(MoteError::Memory) => Err(AllocError),
        Err(MoteError::Failed | MoteError::Past) => unreachable!(),
    }
}

/// Takes the turn of a mote that boots again, and returns its next wake. The mote has not failed.
fn turn_again(
    alloc: Global,
    net: &Net,
    number: u16,
    mote: &mut Mote,
    moment: u64,
    packets: &[Arrival],
    out: &mut Out,
) -> Result<Option<u64>, AllocError>
    requires mote_exists { number < length (net_of net.now).motes }
    requires moment_bounded { moment ≤ 2 ^ 40 }
    requires running { IsSome (node_in (tree_at (net_of net.now) number) mote.old) }
    ensures turned { IfOk result (λ wake. TookTurn (net_of net.now) number
        (turn_again (net_of net.now) moment number packets.now) mote.old mote.new (turn_out_of out.new wake)) }
{
    boot_again(alloc, net, number, mote)?;
    let wake = own_turn(net, number, mote, moment, packets, out)?;
    out.lines.insert(
        0,
        Line {
            at: moment,
            what: What::Boots,
        },
    )?;
    Ok(wake)
}

/// Takes the turn of a mote that is on, and returns its next wake.
fn turn_on(
    alloc: Global,
    net: &Net,
    faults: &[Fault],
    number: u16,
    mote: &mut Mote,
    moment: u64,
    packets: &[Arrival],
    out: &mut Out,
) -> Result<Option<u64>, AllocError>
    requires mote_exists { number < length (net_of net.now).motes }
    requires moment_bounded { moment ≤ 2 ^ 40 }
    requires ready { CanTurn moment (node_in (tree_at (net_of net.now) number) mote.old) }
    ensures turned { IfOk result (λ wake. TookTurn (net_of net.now) number
        (node_turn_on (net_of net.now) faults.now moment number packets.now)
        mote.old mote.new (turn_out_of out.new wake)) }
{
    if boots(faults, number, moment) {
        return turn_again(alloc, net, number, mote, moment, packets, out);
    }
    own_turn(net, number, mote, moment, packets, out)
}

/// Takes the turn of a mote, unless it is off, and returns its next wake: while it is off, and before it boots again, that
/// is at the latest the moment of this boot. The mote has not failed, and its last turn, if there was one, was before this
/// moment. The packets that the mote sends have this moment and the mote's number.
fn turn_mote(
    alloc: Global,
    net: &Net,
    faults: &[Fault],
    number: u16,
    motes: &mut Vec<Mote>,
    moment: u64,
    packets: &[Arrival],
    out: &mut Out,
) -> Result<Option<u64>, AllocError>
    requires net_has_mote { number < length (net_of net.now).motes }
    requires mote_exists { number < length motes.old.items }
    requires moment_bounded { moment ≤ 2 ^ 40 }
    requires ready { CanTurnAt (net_of net.now) moment motes.old.items number }
    requires numbered { HasNumberAt (net_of net.now) motes.old.items number }
    ensures one_takes_turn { IfOk result (λ wake. OneTakesTurn (net_of net.now) faults.now
        moment packets.now number motes.old.items motes.new.items (turn_out_of out.new wake)) }
    ensures stamped { OnOk result (PacketsBear moment number out.new.sends.items) }
{
    let boot = next_boot(faults, number, moment);
    if is_off(faults, number, moment) {
        out.lines.clear();
        out.sends.clear();
        return Ok(boot);
    }
    let mote = &mut motes[usize::from(number)];
    let wake = turn_on(alloc, net, faults, number, mote, moment, packets, out)?;
    Ok(sooner(wake, boot))
}

impl Engine {
    /// The net before its first turn, with any faults: each mote wakes at 0.
    ///
    /// # Errors
    /// `AllocError` if an allocation fails.
    pub fn boot(alloc: Global, net: &Net) -> Result<Engine, AllocError>
        ensures in_state { let model = net_of net.now in IfOk result
            (λ engine. (faults : List Fault) → IsEngineAt faults model engine (boot (system_of model))) }
        ensures is_whole { let model = net_of net.now in IfOk result (λ engine. IsWhole model engine) }
    {
        let mut engine = Engine {
            alloc,
            motes: Vec::new(alloc),
            wakes: Vec::new(alloc),
            traces: Vec::new(alloc),
            log: Vec::new(alloc),
            agenda: Agenda::new(alloc),
            arrivals: Vec::new(alloc),
            out: Out::new(alloc),
        };
        for number in 0..net.motes() {
            let mote = new_mote(alloc, net, number)?;
            engine.motes.push(mote)?;
            engine.wakes.push(Some(0))?;
            engine.traces.push(Vec::new(alloc))?;
            engine.agenda.put_wake(0, number)?;
        }
        Ok(engine)
    }

    /// Takes a mote's turn with all events that are due. The mote has not failed, and its last turn, if there was one,
    /// was before this moment.
    ///
    /// # Errors
    /// `AllocError` if an allocation fails. In that case some parts of the engine may have changed.
    pub fn turn(
        &mut self,
        net: &Net,
        faults: &[Fault],
        moment: u64,
        number: u16,
    ) -> Result<(), AllocError>
        requires mote_exists { number < length (net_of net.now).motes }
        requires moment_bounded { moment ≤ 2 ^ 40 }
        requires is_whole { IsWhole (net_of net.now) self.old }
        requires ready { CanTurnAt (net_of net.now) moment self.old.motes.items number }
        requires numbered { HasNumberAt (net_of net.now) self.old.motes.items number }
        ensures in_state { OnOk result (TurnLeads faults.now (net_of net.now) moment number
            self.old self.new) }
        ensures is_whole { OnOk result (IsWhole (net_of net.now) self.new) }
    {
        self.agenda
            .take_due_into(moment, number, &mut self.arrivals)?;
        let wake = wake_but_at(moment, self.wakes[usize::from(number)]);
        let next = turn_mote(
            self.alloc,
            net,
            faults,
            number,
            &mut self.motes,
            moment,
            &self.arrivals,
            &mut self.out,
        )?;
        self.agenda.move_wake(wake, next, number)?;
        self.wakes[usize::from(number)] = next;
        send_all(
            net.medium(),
            faults,
            &self.out.sends,
            &mut self.agenda,
            &mut self.log,
        )?;
        add_lines(&mut self.traces, number, &mut self.out.lines)?;
        Ok(())
    }
}
