//! A worker's share, tested by itself.

ghost use Rattle.std.specs.Prelude.{◌≡◌, length};
ghost use Rattle.mote_net.specs.Meaning.{net_of};

use super::COPY_PAST_THE_END;
use net_scenario::{Net, read_scenario};
use radio_packet::RadioCopy;
use std::alloc::{AllocError, Global};
use std::test::Fail;
use worker_window::Share;

/// A copy of a packet of mote 0, on its way to mote 1.
fn copy_at(at: u64, number: u64) -> RadioCopy {
    RadioCopy {
        at,
        to: 1,
        sender: 0,
        number,
        value: 9,
    }
}

/// The number of pending copies after a share has taken in two copies for mote 1, and then a third.
fn left_of_three(alloc: Global, net: &Net) -> Result<u64, AllocError>
    requires two_motes { length (net_of net.now).motes ≡ 2 }
{
    let mut share = Share::new(alloc, net, &[0, 1], 1)?;
    share.take_in(&[copy_at(7, 1), copy_at(5, 0)])?;
    share.take_in(&[copy_at(6, 2)])?;
    Ok(share.end()?.left)
}

/// All copies that a share takes in are pending.
#[test]
fn copies_taken_in(rt: HostRuntime) -> Result<(), Fail> {
    let net = read_scenario(rt.alloc(), COPY_PAST_THE_END)?;
    if net.motes() == 2 && left_of_three(rt.alloc(), &net)? == 3 {
        return Ok(());
    }
    Err(Fail::new(format_args!("otherwise")))
}
