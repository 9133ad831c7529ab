//! The nodes of a network in an order that is given.
ghost use Rattle.std.specs.Prelude.{◌≡◌, IfOk, length};
ghost use Rattle.ea_layout.specs.Orders.{AreAllPlaced};

use crate::order::Order;
use ea_road::Network;
use std::alloc::{AllocError, Global};

/// The nodes of a list, each once, and then those that aren't in it. An error comes only if memory was refused.
pub(crate) fn in_order(alloc: Global, network: &Network, list: &[u32]) -> Result<Order, AllocError>
    ensures { IfOk result (λ order. (length order.places ≡ network.now.nodes)
        × AreAllPlaced order.places) }
{
    let mut order = Order::none(alloc, network.nodes())?;
    for node in list {
        order.place(*node);
    }
    order.place_rest();
    Ok(order)
}
