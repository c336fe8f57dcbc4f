//! A new mote of a net.

ghost use Rattle.std.specs.Prelude.{◌≡◌, ◌<◌, length, Some, IfOk};
ghost use Rattle.mote_node.specs.Public.{node_in};
ghost use Rattle.mote_net.specs.Meaning.{net_of};
ghost use Rattle.net_agenda.specs.NetSystem.{first_node_in, tree_at};

use mote_net::Net;
use mote_node::Mote;
use std::alloc::{AllocError, Global};

/// The mote with this number, before its first turn.
///
/// # Errors
/// `AllocError` if an allocation for the mote fails.
pub fn new_mote(alloc: Global, net: &Net, number: u16) -> Result<Mote, AllocError>
    requires mote_exists { number < length (net_of net.now).motes }
    ensures first_node { let model = net_of net.now in IfOk result
        (λ mote. node_in (tree_at model number) mote ≡ Some (first_node_in model number)) }
{
    let made = Mote::new(alloc, number, net.program(number), net.queue(number));
    let Ok(mut mote) = made else {
        return Err(AllocError);
    };
    mote.set_collide(net.collide());
    Ok(mote)
}
