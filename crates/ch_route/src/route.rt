use ch_cost::Cost;
use std::marker::Model;

/// A way from one node to another.
#[derive(Drop)]
pub struct Route {
    /// What it costs.
    pub cost: Cost,
    /// The nodes along it, both ends among them, numbered from 0.
    pub nodes: Vec<u32>,
}

impl Model for Route {
    ghost use Rattle.ch_route.specs.Routes as routes;

    ghost Value = { routes.Route };

    ghost view = { λ r. record { cost = r.cost; nodes = r.nodes.items } };
}

/// A way from one of several starts to one of several ends.
#[derive(Drop)]
pub struct RouteBetween {
    /// The place of the start in the list of starts.
    pub start: usize,
    /// The place of the end in the list of ends.
    pub end: usize,
    /// What the start, the way and the end cost together.
    pub cost: Cost,
    /// The nodes along the way, both ends among them, numbered from 0.
    pub nodes: Vec<u32>,
}

impl Model for RouteBetween {
    ghost use Rattle.ch_route.specs.Between as between;

    ghost Value = { between.RouteBetween };

    ghost view = { λ r. record { start = r.start; end = r.end; cost = r.cost; nodes = r.nodes.items } };
}
