//! Lists of vertices in an order.

use mixed_graph::{Graph, Order, VSet};

/// The order with a vertex behind the others, where there is room.
fn with_vertex(order: Order, v: u8) -> Order {
    let count = order.count;
    if count >= 64 {
        return order;
    }
    let mut list = order.list;
    list[count as usize] = v;
    Order {
        list,
        count: count + 1,
    }
}

/// The order of no vertex.
fn no_vertices() -> Order {
    Order {
        list: [0; 64],
        count: 0,
    }
}

/// The order with the members of a set behind the others, in ascending order.
fn with_members(order: Order, set: VSet) -> Order {
    let mut order = order;
    for v in 0..64u8 {
        if set.has(v) {
            order = with_vertex(order, v);
        }
    }
    order
}

/// The members of one set and then those of the other, each in ascending order.
pub(crate) fn one_before_other(one: VSet, other: VSet) -> Order {
    with_members(with_members(no_vertices(), one), other)
}

/// The members of a set in the order of the graph.
pub(crate) fn members_in_order(g: &Graph, set: VSet) -> Order {
    let all = g.order();
    let mut order = no_vertices();
    for i in 0..all.count {
        let v = all.list[i as usize];
        if set.has(v) {
            order = with_vertex(order, v);
        }
    }
    order
}
