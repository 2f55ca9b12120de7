ghost use Rattle.std.specs.Prelude.{◌≡◌, IsTrue, IfOk, refl};
ghost use Rattle.ch_cost.specs.Cost.{◌≼◌, cost_of_arcs};
ghost use Rattle.ch_overlay.specs.Source.{IsSeenRow};

use ch_cost::Cost;
use ch_overlay::{Row, RowSource, SeeError, Seen};
use std::alloc::{AllocError, Global};
use std::marker::Model;
use std::sync::Arc;
use test_kit::{entry, is_sound};

/// A length and a number of arcs.
pub type Numbers = (u64, u32);

/// What leads from one node to another, and its cost: that of an arc, or of the arcs that a shortcut represents.
pub type Lead = (u32, u32, Numbers);

/// The cost of these numbers.
pub fn cost_of((length, arcs): Numbers) -> Cost {
    Cost::of_walk(length, u64::from(arcs))
}

/// The rows of a few nodes, by their numbers, and which nodes were asked for.
#[derive(Drop)]
pub struct Shelf {
    rows: Vec<Arc<Row>>,
    /// Each node that was asked for, also where there is no row of it.
    pub asked: Vec<u32>,
    /// The bound is what this many arcs of this weight cost.
    count: u16,
    heaviest: u32,
}

/// A contract sees the bound alone.
impl Model for Shelf {
    ghost use Rattle.ch_cost.specs.declared.cost.Cost.{Cost};
    ghost use Rattle.ch_cost.specs.Cost.{cost_of_arcs};

    ghost Value = { Cost };

    ghost view = { λ s. cost_of_arcs s.count s.heaviest };
}

impl Shelf {
    /// This many rows, by what leads from one of their nodes to another; a node may have a rank.
    pub fn new(
        alloc: Global,
        nodes: u32,
        leads: &[Lead],
        (count, heaviest): (u16, u32),
        ranked: Option<u32>,
    ) -> Result<Shelf, AllocError> {
        let mut rows = Vec::new(alloc);
        for node in 0..nodes {
            let rank = if ranked == Some(node) { Some(0) } else { None };
            rows.push(Arc::new(alloc, row_of(alloc, node, leads, rank)?)?)?;
        }
        Ok(Shelf {
            rows,
            asked: Vec::new(alloc),
            count,
            heaviest,
        })
    }

    /// Whether a cost is at most the bound.
    pub fn allows(&self, cost: Cost) -> bool
        ensures { IsTrue result → cost ≼ self.now }
    {
        cost.is_at_most(Cost::of_arcs(u32::from(self.count), self.heaviest))
    }
}

impl Shelf {
    /// The row that it has of a node, if that can be relied on under this bound.
    fn seen(&self, node: u32, bound: Cost) -> Result<Seen, SeeError>
        ensures node { IfOk result (λ seen. seen.node ≡ node) }
        ensures row { IfOk result (IsSeenRow bound) }
    {
        let Some(row) = self.rows.get(node as usize) else {
            return Err(SeeError::Unseen);
        };
        if !is_sound(node, row, bound) {
            return Err(SeeError::Unseen);
        }
        Ok(Seen {
            node,
            version: u64::from(node),
            row: Arc::try_clone(row)?,
            token: None,
        })
    }
}

impl RowSource for Shelf {
    ghost use Rattle.std.specs.Prelude.{◌≡◌, refl};
    ghost use Rattle.std.proofs.Common.{◌∙◌};

    ghost bears = { λ s. Unit {0} };

    ghost shows = { λ a s. Unit {0} };

    ghost stays = { λ a b. b ≡ a };

    ghost whole = { λ a x. ⊥ };

    ghost bound_of = { λ a. a };

    fn row_of(&mut self, node: u32) -> Result<Seen, SeeError> {
        let bound = self.bound();
        self.asked.push(node)?;
        self.seen(node, bound)
    }

    fn bound(&self) -> Cost {
        Cost::of_arcs(u32::from(self.count), self.heaviest)
    }

    ghost stays_self = { λ a. refl };

    ghost stays_more = { λ a b c h k. k ∙ h };

    ghost still_shows = { λ a b s h k. tt };

    ghost still_whole = { λ a b x h k. k };

    ghost same_bound = { λ a b h. h };
}

/// The row of a node.
fn row_of(alloc: Global, node: u32, leads: &[Lead], rank: Option<u32>) -> Result<Row, AllocError> {
    let mut out = Vec::new(alloc);
    let mut inn = Vec::new(alloc);
    for (from, to, numbers) in leads {
        if *from == node {
            out.push(entry((*to, *numbers)))?;
        }
        if *to == node {
            inn.push(entry((*from, *numbers)))?;
        }
    }
    Row::new(alloc, &out, &inn, rank)
}
