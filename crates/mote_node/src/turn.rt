//! The steps of a turn. Each step changes the kernel and the turn's output.

ghost use Rattle.std.specs.Prelude.{◌≡◌, ◌≤◌, ◌^◌, ◌++◌, map, option_map, OnOk, IfOk, IfSome};
ghost use Rattle.program_tree.specs.Code.{Tree};
ghost use Rattle.program_tree.specs.Program.{tree_of};
ghost use Rattle.process_kernel.specs.KernelModel.{has_room, runs_of};
ghost use Rattle.process_kernel.specs.Public.{kernel_in, GoesOn};
ghost use Rattle.mote_node.specs.Turn.{hear, hear_all, collision_line, boot_due, poll_due, most_runs, mote_turn};
ghost use Rattle.mote_node.specs.Turn.{net_turn};

use process_kernel::{Kernel, Line, Out, Ran, What};
use program_tree::{Proc, Program};
use radio_packet::Arrival;
use std::alloc::AllocError;

/// The greatest number of kernel runs in a turn, without the boot.
const RUNS: u8 = 64;

/// Boots the mote if this is its first turn.
#[tactic(auto, unfolding(crate::specs::Turn::boot_due))]
fn boot(
    kernel: &mut Kernel,
    program: &Program,
    moment: u64,
    out: &mut Out,
) -> Result<(), AllocError>
    requires moment_bounded { moment ≤ 2 ^ 40 }
    ensures goes_on { let t = tree_of program.now in
        OnOk result (GoesOn (boot_due moment) (kernel_in t kernel.old) out.old (kernel_in t kernel.new) out.new) }
{
    if !kernel.is_booted() {
        let Ok(_) = kernel.boot(program, moment, out) else {
            return Err(AllocError);
        };
    }
    Ok(())
}

/// Appends a packet to the receive ring, or loses it if the ring is full. Returns `true` if the packet was appended.
#[tactic(auto, unfolding(crate::specs::Turn::hear))]
fn hear_or_lose(
    kernel: &mut Kernel,
    moment: u64,
    packet: Arrival,
    out: &mut Out,
) -> Result<bool, AllocError>
    ensures heard { (t : Tree) → OnOk result
        (GoesOn (hear moment packet) (kernel_in t kernel.old) out.old (kernel_in t kernel.new) out.new) }
    ensures room { (t : Tree) → IfOk result (λ heard. IfSome (kernel_in t kernel.old) (λ m. heard ≡ has_room m)) }
{
    let heard = kernel.accept_packet(packet);
    let what = if heard {
        What::Recv(packet.sender, packet.number, packet.value)
    } else {
        What::Lost(packet.sender, packet.number)
    };
    out.lines.push(Line { at: moment, what })?;
    Ok(heard)
}

/// Appends the packets to the ring in their order. If any of them fits, asks for a poll of the radio process.
fn hear_all(
    kernel: &mut Kernel,
    moment: u64,
    packets: &[Arrival],
    out: &mut Out,
) -> Result<(), AllocError>
    ensures goes_on { (t : Tree) → OnOk result
        (GoesOn (hear_all moment packets.now) (kernel_in t kernel.old) out.old (kernel_in t kernel.new) out.new) }
{
    let mut any = false;
    for packet in packets {
        let heard = hear_or_lose(kernel, moment, *packet, out)?;
        any = any || heard;
    }
    if any {
        kernel.poll(Proc::Radio);
    }
    Ok(())
}

/// If a timer is due, asks for a poll of the etimer process.
#[tactic(auto, unfolding(crate::specs::Turn::poll_due))]
fn poll_etimer(kernel: &mut Kernel, moment: u64)
    ensures polls_due { (t : Tree) → kernel_in t kernel.new ≡ option_map (poll_due moment) (kernel_in t kernel.old) }
{
    if let Some(due) = kernel.next_expiration() {
        if due <= moment {
            kernel.poll(Proc::Etimer);
        }
    }
}

/// Runs the kernel again and again, at most `RUNS` times, until a run leaves nothing to do or the mote halts.
fn run_all(
    kernel: &mut Kernel,
    program: &Program,
    moment: u64,
    out: &mut Out,
) -> Result<(), AllocError>
    requires moment_bounded { moment ≤ 2 ^ 40 }
    ensures goes_on { let t = tree_of program.now in
        OnOk result (GoesOn (runs_of most_runs moment) (kernel_in t kernel.old) out.old
        (kernel_in t kernel.new) out.new) }
{
    match kernel.run_all(program, moment, RUNS, out) {
        Ok(()) => Ok(()),
        Err(_) => Err(AllocError),
    }
}

/// Takes the turn of the mote with these packets.
#[tactic(auto, unfolding(crate::specs::Turn::mote_turn, crate::specs::Turn::work_of))]
fn turn_mote(
    kernel: &mut Kernel,
    program: &Program,
    moment: u64,
    packets: &[Arrival],
    out: &mut Out,
) -> Result<(), AllocError>
    requires moment_bounded { moment ≤ 2 ^ 40 }
    ensures goes_on { let t = tree_of program.now in
        OnOk result (GoesOn (mote_turn moment packets.now) (kernel_in t kernel.old) out.old
        (kernel_in t kernel.new) out.new) }
{
    boot(kernel, program, moment, out)?;
    if kernel.is_halted() {
        return Ok(());
    }
    hear_all(kernel, moment, packets, out)?;
    poll_etimer(kernel, moment);
    run_all(kernel, program, moment, out)
}

/// Writes a line for each of these packets. The line reports that the packet was lost by a collision.
fn write_collisions(moment: u64, packets: &[Arrival], out: &mut Out) -> Result<(), AllocError>
    ensures lines { OnOk result (out.new.lines.items ≡ out.old.lines.items
        ++ map (collision_line moment) packets.now) }
    ensures sends { OnOk result (out.new.sends.items ≡ out.old.sends.items) }
{
    for packet in packets {
        out.lines.push(Line {
            at: moment,
            what: What::Collide(packet.sender, packet.number),
        })?;
    }
    Ok(())
}

/// Takes the turn of a mote in a net. If colliding packets are to be lost, and these packets collide, the mote gets
/// none of them.
///
/// # Errors
/// `AllocError` if an allocation fails, or failed in an earlier call of the kernel. In that case some lines and
/// packets may have been appended to `out`.
#[tactic(auto, unfolding(crate::specs::Turn::net_turn))]
pub fn turn_in_net(
    kernel: &mut Kernel,
    program: &Program,
    collide: bool,
    moment: u64,
    packets: &[Arrival],
    out: &mut Out,
) -> Result<(), AllocError>
    requires moment_bounded { moment ≤ 2 ^ 40 }
    ensures goes_on { let t = tree_of program.now in
        OnOk result (GoesOn (net_turn collide moment packets.now) (kernel_in t kernel.old) out.old
        (kernel_in t kernel.new) out.new) }
{
    if collide && !kernel.is_halted() && packets.len() >= 2 {
        write_collisions(moment, packets, out)?;
        return turn_mote(kernel, program, moment, &[], out);
    }
    turn_mote(kernel, program, moment, packets, out)
}
