ghost use Rattle.std.specs.Prelude.{◌≡◌, ◌<◌, ◌≤◌, List, [], length, slice_get, slice_index_or, IfOk, IfSome, OnOk};
ghost use Rattle.ch_graph.specs.declared.link.Link.{Link};
ghost use Rattle.ch_graph.specs.LinkHalves.{AreHalvesOf, ArePartsOf, parts_in};

use crate::hierarchy::LinkId;
use std::alloc::{AllocError, Global};
use std::marker::Model;

/// What a link of a list represents.
#[derive(Clone, Copy, Debug, PartialEq, Eq)]
pub enum Parts {
    /// Itself, an arc of the graph, which comes to this node.
    Arc(u32),
    /// The two halves at these places, of which the first leaves the node that the link leaves.
    Shortcut(LinkId, LinkId),
}

/// The places of the halves of a link; of an arc of the graph, its own place and the node that it comes to.
#[derive(Clone, Copy)]
pub struct KeptHalves {
    first: u32,
    last: u32,
}

/// Where the halves of links are, in a list of links: of a prefix of these, mostly of all.
///
/// It holds 8 bytes a link. A place takes 32 bits, so the halves of a link are kept where no place up to it has more.
#[derive(Drop)]
pub struct LinkHalves {
    kept: Vec<KeptHalves>,
}

impl Model for LinkHalves {
    ghost use Rattle.std.specs.Prelude.{List};
    ghost use Rattle.ch_graph.specs.declared.link_halves.KeptHalves.{KeptHalves};

    ghost Value = { List KeptHalves };

    ghost view = { λ h. h.kept.items };
}

impl LinkHalves {
    /// No halves are kept. Takes no memory.
    pub fn none(alloc: Global) -> LinkHalves
        ensures { result ≡ [] }
    {
        LinkHalves {
            kept: Vec::new(alloc),
        }
    }

    /// No halves are kept yet, and there is room for those of this many links, at 8 bytes each.
    pub fn with_room(alloc: Global, links: usize) -> Result<LinkHalves, AllocError>
        ensures { IfOk result (λ halves. halves ≡ []) }
    {
        Ok(LinkHalves {
            kept: Vec::with_capacity(alloc, links)?,
        })
    }

    /// Keeps what the link at a place represents, if that of all links before it is kept and the places have at most 32
    /// bits. Else it keeps nothing.
    pub fn keep(&mut self, id: LinkId, parts: Parts) -> Result<(), AllocError>
        ensures { (links : List Link) → AreHalvesOf links self.old → ((d : Link) → ArePartsOf links (slice_index_or links id.0 d) parts) → OnOk result (AreHalvesOf links self.new) }
    {
        if id.0 != self.kept.len() {
            return Ok(());
        }
        if let Some(kept) = kept_of(id, parts) {
            self.kept.push(kept)?;
        }
        Ok(())
    }

    /// Returns what is kept of the link at a place, if something is.
    pub fn get(&self, id: LinkId) -> Option<KeptHalves>
        ensures { result ≡ slice_get self.now id.0 }
    {
        self.kept.get(id.0).copied()
    }
}

impl KeptHalves {
    /// Returns what the link at this place represents, of which this is kept.
    pub fn parts(self, id: LinkId) -> Parts
        ensures { result ≡ parts_in id.0 self }
    {
        let first = self.first as usize;
        if first == id.0 {
            return Parts::Arc(self.last);
        }
        Parts::Shortcut(LinkId(first), LinkId(self.last as usize))
    }
}

// What is kept of the link at a place. `None` where a place has more than 32 bits; and a half is never the link itself.
fn kept_of(id: LinkId, parts: Parts) -> Option<KeptHalves>
    ensures { IfSome result (λ kept. parts_in id.0 kept ≡ parts) }
{
    match parts {
        Parts::Arc(to) => Some(KeptHalves {
            first: short(id)?,
            last: to,
        }),
        Parts::Shortcut(first, second) => {
            if first.0 == id.0 {
                return None;
            }
            Some(KeptHalves {
                first: short(first)?,
                last: short(second)?,
            })
        }
    }
}

// A place in 32 bits, or `None` where it has more.
fn short(id: LinkId) -> Option<u32>
    ensures { IfSome result (λ place. place ≡ id.0) }
{
    if id.0 > u32::MAX as usize {
        return None;
    }
    Some(id.0 as u32)
}
