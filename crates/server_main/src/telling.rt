//! The orders that are left at the end of a server.
ghost use Rattle.std.specs.Prelude.{◌≡◌};
ghost use Rattle.node_server.specs.Turn.Logged.{turn_log};
ghost use Rattle.server_main.specs.Gathered.{TellsLeft};

use bilateral::Centre;
use node_server::node::Node;
use outside::Sink;
use texts::orders::write_orders;

/// Tells the plant the orders that are left of a node, unless a write failed before. Whether one
/// failed then or now.
pub(crate) fn tell_left<K: Sink>(plant: &mut K, centre: &Centre, node: &Node, failed: bool) -> bool
    requires { node.now.setup.centre ≡ centre.now }
    ensures { TellsLeft failed centre.now (turn_log node.now.history) (K.told plant.old)
        (K.told plant.new) result }
{
    if failed {
        return true;
    }
    match write_orders(plant, centre, node.orders_left()) {
        Ok(()) => false,
        Err(_) => true,
    }
}
