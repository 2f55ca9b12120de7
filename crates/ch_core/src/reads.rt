ghost use Rattle.std.specs.Prelude.{◌≡◌, ◌≢◌, ◌↔◌, ℕ, [], IfOk, OnOk, OnErr, IsTrue, Some, option_copied, MatchOption, None};
ghost use Rattle.std.specs.Arc.{arc_value};
ghost use Rattle.ch_core.specs.World.{stands_at};

use ch_overlay::{Row, Seen};
use std::alloc::{AllocError, Global};
use std::collections::HashMap;
use std::marker::Model;
use std::sync::Arc;

/// What a worker has of a node: the row that it read, and the number of that version.
#[derive(Drop)]
pub struct Standing {
    /// The number of the version.
    pub version: u64,
    /// The row of that version.
    pub row: Arc<Row>,
}

impl Model for Standing {
    ghost use Rattle.std.specs.Arc.{arc_value};
    ghost use Rattle.ch_core.specs.World as worlds;

    ghost Value = { worlds.Standing };

    ghost view = { λ s. record { version = s.version; row = arc_value s.row } };
}

impl Standing {
    /// Whether it is of this version and of this content. Looks once at each entry.
    pub fn is(&self, version: u64, row: &Row) -> bool
        ensures { IsTrue result ↔ (self.now ≡ record { version = version; row = row.now }) }
    {
        self.version == version && self.row.is_same(row)
    }

    /// Returns the same, with the number of its node. The row is shared, so no memory is taken; refused where it
    /// can't have one more owner.
    pub fn seen(&self, node: u32) -> Result<Seen, AllocError>
        ensures node { IfOk result (λ s. s.node ≡ node) }
        ensures row { IfOk result (λ s. self.now ≡ record { version = s.version; row = arc_value s.row }) }
    {
        let row = Arc::try_clone(&self.row)?;
        Ok(Seen {
            node,
            version: self.version,
            row,
            token: None,
        })
    }
}

/// What a worker has of the nodes that it read.
#[derive(Drop)]
pub struct Reads {
    /// What it has of each node that it read.
    rows: HashMap<u32, Standing>,
}

impl Model for Reads {
    ghost use Rattle.std.specs.Prelude.{ℕ, List};
    ghost use Rattle.ch_core.specs.World as worlds;

    ghost Value = { List (ℕ × worlds.Standing) };

    ghost view = { λ r. r.rows.entries };
}

impl Reads {
    /// Nothing was read.
    pub fn new(alloc: Global) -> Reads
        ensures { result ≡ [] }
    {
        Reads {
            rows: HashMap::new(alloc),
        }
    }

    /// Returns what it has of a node.
    pub fn get(&self, node: u32) -> Option<&Standing>
        ensures { option_copied result ≡ stands_at self.now node }
    {
        self.rows.get(&node)
    }

    /// Has this of the node from now on, and of the others what it had. Takes memory for a node that is new.
    pub fn put(&mut self, node: u32, standing: Standing) -> Result<(), AllocError>
        ensures shown { OnOk result (stands_at self.new node ≡ Some standing) }
        ensures others { OnOk result ((x : ℕ) → x ≢ node → stands_at self.new x ≡ stands_at self.old x) }
        ensures err { OnErr result (self.new ≡ self.old) }
    {
        self.rows.insert(node, standing)?;
        Ok(())
    }

    /// Has nothing from now on.
    pub fn clear(&mut self)
        ensures { self.new ≡ [] }
    {
        self.rows.clear();
    }
}
