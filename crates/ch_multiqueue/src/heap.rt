ghost use Rattle.std.specs.Prelude.{◌≡◌, [], ◌∷◌, ◌++◌, IfErr, IfNone, IfSome, OnErr, OnOk, IsPermutation};
ghost use Rattle.ch_multiqueue.specs.Items.{IsLeastOf};

use crate::item::Item;
use std::alloc::{AllocError, Global};
use std::cmp::Reverse;
use std::collections::BinaryHeap;
use std::marker::Model;

/// A sequential heap of items, the one behind a lock of the queue. A contract sees it as the list of its
/// items, in no particular order.
#[derive(Drop)]
pub struct Heap {
    entries: BinaryHeap<Reverse<Item>>,
}

impl Model for Heap {
    ghost use Rattle.std.specs.Prelude.{List};
    ghost use Rattle.std.specs.BinaryHeap.{heap_items, IsHeap};
    ghost use Rattle.ch_multiqueue.specs.declared.item.Item.{Item};
    ghost use Rattle.ch_multiqueue.specs.Entries.{entry_cmp, items_of};

    ghost Value = { List Item };

    ghost view = { λ h. items_of (heap_items h.entries) };

    ghost invariant = { λ h. IsHeap entry_cmp (heap_items h.entries) };
}

impl Heap {
    /// Returns a heap with no item. Takes no memory.
    pub fn new(alloc: Global) -> Heap
        ensures { result ≡ [] }
    {
        Heap {
            entries: BinaryHeap::new(alloc),
        }
    }

    /// Puts an item in. Fails only where memory runs out: the item is returned then, and the heap stays as it was.
    ///
    /// Takes time by the logarithm of the number of items.
    pub fn put(&mut self, item: Item) -> Result<(), Item>
        ensures put { OnOk result (IsPermutation (item ∷ self.old) self.new) }
        ensures back { IfErr result (λ refused. refused ≡ item) }
        ensures stays { OnErr result (self.new ≡ self.old) }
    {
        if let Err(_refused) = self.entries.push(Reverse(item)) {
            return Err(item);
        }
        Ok(())
    }

    /// Returns the least item, or `None` where the heap is empty.
    pub fn top(&self) -> Option<Item>
        ensures least { IfSome result (λ item. IsLeastOf self.now item) }
        ensures none { IfNone result (self.now ≡ []) }
    {
        let Reverse(item) = self.entries.peek()?;
        Some(*item)
    }

    /// Takes the least item out, or nothing where the heap is empty. Takes no memory, and time by the logarithm of
    /// the number of items.
    pub fn take(&mut self) -> Option<Item>
        ensures least { IfSome result (λ item. IsLeastOf self.old item) }
        ensures rest { IfSome result (λ item. IsPermutation self.old (item ∷ self.new)) }
        ensures none { IfNone result (self.old ≡ []) }
        ensures empty { IfNone result (self.new ≡ []) }
    {
        let Reverse(item) = self.entries.pop()?;
        Some(item)
    }

    /// Puts a copy of each item at the end of a list. The heap stays as it is, also where memory runs out.
    pub fn copy_into(&self, list: &mut Vec<Item>) -> Result<(), AllocError>
        ensures { OnOk result (list.new.items ≡ list.old.items ++ self.now) }
    {
        list.reserve(self.entries.len())?;
        'entries: for entry in self.entries.as_slice() {
            list.push(entry.0)?;
        }
        Ok(())
    }
}
