ghost use Rattle.std.specs.Prelude.{◌≡◌, length};

use crate::memory::emptied;
use crate::node_index::NodeIndex;
use ch_overlay::{RowSource, SeeError, Seen};
use std::alloc::{AllocError, Global};

/// The answers of a source that were read, each node asked for once.
///
/// Its memory grows with the number of these nodes and with the greatest of them, and is kept for others.
#[derive(Drop)]
pub struct Rows {
    /// The nodes that were read.
    pub nodes: NodeIndex,
    /// The answer for each of them, in their order, or `None` where it was moved out.
    pub kept: Vec<Option<Seen>>,
    ghost paired: { length kept.items ≡ length nodes },
}

impl Rows {
    ghost use Rattle.std.specs.Prelude.{◌≡◌, ◌≢◌, ◌<◌, ℕ, IfOk, IfSome, IfNone, OnOk, OnErr, None, Some, slice_index};
    ghost use Rattle.ch_overlay.specs.declared.source.Seen.{Seen};
    ghost use Rattle.ch_overlay.specs.declared.source.SeeError.TheVariants.{Unseen};
    ghost use Rattle.ch_witness.specs.Kept.{kept_of, AllNamed, AreKept, AreListed, FindsRows, IsListed, IsReadAt, IsReadOn, OfTheirNodes, StandsAt};
    ghost use Rattle.ch_witness.specs.Places.{IsFirstAt};

    /// No answers. It takes no memory yet.
    pub fn new(alloc: Global) -> Rows
        ensures { (x : ℕ) → kept_of result x ≡ None }
    {
        Rows {
            nodes: NodeIndex::new(alloc),
            kept: Vec::new(alloc),
        }
    }

    /// Drops all answers, and keeps the memory for others.
    pub fn forget(&mut self)
        ensures { (x : ℕ) → kept_of self.new x ≡ None }
    {
        self.kept.clear();
        self.nodes.clear();
    }

    /// Returns the place of the answer for a node: of the one that is kept, or of what the source answers now, which
    /// is then kept. [`Rows::at`] shows it.
    ///
    /// `OutOfMemory` where memory runs out, `Unseen` where the source has no row of the node. What was kept
    /// before is kept on, and where there is no row the source is what it was.
    pub fn read<S: RowSource>(&mut self, source: &mut S, node: u32) -> Result<usize, SeeError>
        requires kept { AreKept S.bears (S.shows source.old) (S.bound_of source.old) (kept_of self.old) }
        ensures here { IfOk result (IsReadAt S.bears (S.shows source.new) (S.bound_of source.old) node self.new) }
        ensures read { IsReadOn S.bears (S.shows source.new) (S.bound_of source.new) (S.stays source.old source.new) (kept_of self.old) (kept_of self.new) }
        ensures found { AllNamed (S.whole source.old) (kept_of self.old) → S.whole source.old node → FindsRows Unseen (S.whole source.new) (kept_of self.new) result }
        ensures unseen { result ≡ Err Unseen → source.new ≡ source.old }
    {
        let found = self.nodes.find(node);
        if let Some(place) = self.known(node, found) {
            return Ok(place);
        }
        let seen = source.row_of(node)?;
        Ok(self.put(node, found, seen)?)
    }

    /// Returns the answer at a place.
    pub fn at(&self, place: usize) -> &Seen
        requires there { (seen : Seen) × StandsAt self.now place seen }
        ensures { StandsAt self.now place result.now }
    {
        self.kept[place].as_ref().unwrap()
    }

    /// Returns the answer that is kept for a node, or `None` where none is.
    pub fn get(&self, node: u32) -> Option<&Seen>
        ensures kept { IfSome result (λ seen. kept_of self.now node ≡ Some seen.now) }
        ensures none { IfNone result (kept_of self.now node ≡ None) }
    {
        let place = self.known(node, self.nodes.find(node))?;
        Some(self.at(place))
    }

    /// Moves out the answers that are kept for these nodes, in this order, each node's once and at its first place. Of
    /// those nodes no answer is kept any more. The list is made in the memory of an earlier one, whose items are dropped.
    pub fn take_listed(
        &mut self,
        nodes: &[u32],
        earlier: Vec<Seen>,
    ) -> Result<Vec<Seen>, AllocError>
        requires nodes { OfTheirNodes (kept_of self.old) }
        ensures { IfOk result (λ listed. AreListed (kept_of self.old) nodes.now listed.items) }
    {
        let mut listed = emptied(earlier, nodes.len())?;
        'nodes: for node in nodes {
            self.list(*node, &mut listed)?;
        }
        Ok(listed)
    }

    /// Moves the answer that is kept for a node, if any, to the end of a list.
    fn list(&mut self, node: u32, listed: &mut Vec<Seen>) -> Result<(), AllocError>
        ensures { OnOk result (IsListed (kept_of self.old) node listed.old.items (kept_of self.new) listed.new.items) }
    {
        if let Some(seen) = self.take(node) {
            listed.push(seen)?;
        }
        Ok(())
    }

    /// The answer that is kept for a node, if any. It is kept no more.
    fn take(&mut self, node: u32) -> Option<Seen>
        ensures taken { result ≡ kept_of self.old node }
        ensures here { kept_of self.new node ≡ None }
        ensures others { (x : ℕ) → x ≢ node → kept_of self.new x ≡ kept_of self.old x }
    {
        let place = self.nodes.find(node)?;
        self.kept[place].take()
    }

    /// Returns the place of the answer that is kept for a node, or `None` where none is. The node was looked for.
    fn known(&self, node: u32, found: Option<usize>) -> Option<usize>
        requires found { IfSome found (IsFirstAt self.now.nodes node) }
        requires absent { IfNone found ((k : ℕ) → k < length self.now.nodes → slice_index self.now.nodes k ≢ node) }
        ensures here { IfSome result (λ place. (seen : Seen) × StandsAt self.now place seen × (kept_of self.now node ≡ Some seen)) }
        ensures none { IfNone result (kept_of self.now node ≡ None) }
    {
        let place = found?;
        if self.kept[place].is_some() {
            return Some(place);
        }
        None
    }

    /// Keeps the answer for a node that was looked for and for which none is kept, and returns its place. Fails where
    /// memory runs out; what is kept is then what it was.
    fn put(&mut self, node: u32, found: Option<usize>, seen: Seen) -> Result<usize, AllocError>
        requires found { IfSome found (IsFirstAt self.old.nodes node) }
        requires absent { IfNone found ((k : ℕ) → k < length self.old.nodes → slice_index self.old.nodes k ≢ node) }
        ensures there { IfOk result (λ place. StandsAt self.new place seen) }
        ensures here { OnOk result (kept_of self.new node ≡ Some seen) }
        ensures others { (x : ℕ) → x ≢ node → kept_of self.new x ≡ kept_of self.old x }
        ensures stays { OnErr result ((x : ℕ) → kept_of self.new x ≡ kept_of self.old x) }
    {
        match found {
            Some(place) => {
                self.kept[place] = Some(seen);
                Ok(place)
            }
            None => self.push(node, seen),
        }
    }

    /// The same for a node that wasn't read.
    fn push(&mut self, node: u32, seen: Seen) -> Result<usize, AllocError>
        requires absent { (k : ℕ) → k < length self.old.nodes → slice_index self.old.nodes k ≢ node }
        ensures there { IfOk result (λ place. StandsAt self.new place seen) }
        ensures here { OnOk result (kept_of self.new node ≡ Some seen) }
        ensures others { (x : ℕ) → x ≢ node → kept_of self.new x ≡ kept_of self.old x }
        ensures stays { OnErr result ((x : ℕ) → kept_of self.new x ≡ kept_of self.old x) }
    {
        let place = self.kept.len();
        self.kept.reserve(1)?;
        self.nodes.push(node)?;
        self.kept.push_reserved(Some(seen));
        Ok(place)
    }
}
