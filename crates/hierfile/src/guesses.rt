use ch_graph::Link;
use std::alloc::{AllocError, Global};

/// Where the links that leave one node probably are, by the nodes that they come to.
///
/// It is for the node whose links were noted last: of other nodes it has what was noted before. So a guess is tested
/// where it is used, and nothing is promised of it. It holds 4 bytes a node.
#[derive(Drop)]
pub struct Guesses {
    // For each node the place of the last link that was noted and comes to it.
    places: Vec<u32>,
    // The links before this place were noted.
    end: usize,
}

impl Guesses {
    /// No link is noted, of a hierarchy of this many nodes.
    pub fn new(alloc: Global, nodes: u32) -> Result<Guesses, AllocError> {
        Ok(Guesses {
            places: vec![in alloc; 0u32; nodes as usize]?,
            end: 0,
        })
    }

    /// Notes the links that leave the same node as the one at this place, from it on, if it isn't noted yet.
    pub fn note_links_beside(&mut self, links: &[Link], place: usize) {
        if place < self.end {
            return;
        }
        self.end = links.len();
        'links: for at in place..links.len() {
            let link = links[at];
            if link.from != links[place].from {
                self.end = at;
                return;
            }
            self.note(link.to, at);
        }
    }

    // Notes the place of a link that comes to a node. Of a place of more than 32 bits it notes the lower ones.
    fn note(&mut self, node: u32, place: usize) {
        if let Some(noted) = self.places.get_mut(node as usize) {
            *noted = (place % (1 << 32)) as u32;
        }
    }

    /// Returns the place that was noted last of a link that comes to a node, or 0 where there is none.
    pub fn of(&self, node: u32) -> usize {
        match self.places.get(node as usize) {
            None => 0,
            Some(place) => *place as usize,
        }
    }
}
