ghost use Rattle.std.specs.Prelude.{◌≡◌, ◌%◌, ◌<◌, ◌≤◌, ◌++◌, [], ◌∷◌, IfErr, IfNone, IfOk, IfSome, IsPermutation, OnErr, OnOk, vec_len, vec_capacity};
ghost use Rattle.ch_multiqueue.specs.Items.{IsLeastOf};
ghost use Rattle.ch_multiqueue.specs.Passes.{pass_of, word, moved_on, having_put, having_taken};

use crate::heap::Heap;
use crate::item::Item;
use rand_core::utils::NextWord;
use rand_pcg::Pcg32;
use std::alloc::{AllocError, Global};
use std::marker::Model;
use std::sync::{Mutex, Wait};

/// What a thread needs to push into a queue and to pop from it: a number of its own, a generator of random words, and
/// the account of what went through it.
///
/// The words are those of `Pcg32::new(seed, number)`, with the seed of the queue that made the pass. A `push` takes one
/// word, a `pop` two. As long as one pass alone is used, what is popped is determined by its words. The account keeps
/// each item that was put and each that was taken, 16 bytes each in lists that double, until the queue is closed.
#[derive(Drop)]
pub struct Pass {
    number: u32,
    generator: Pcg32,
    put: Vec<Item>,
    taken: Vec<Item>,
}

impl Model for Pass {
    ghost use Rattle.ch_multiqueue.specs.Passes;

    ghost Value = { Passes.Pass };

    ghost view = { λ p. record { number = p.number; generator = p.generator; put = p.put.items; taken = p.taken.items } };
}

impl Pass {
    /// The pass of this number, of a queue with this seed, before any word is drawn. Takes no memory.
    pub(crate) fn new(alloc: Global, seed: u64, number: u32) -> Pass
        ensures { result ≡ pass_of seed number }
    {
        Pass {
            number,
            generator: Pcg32::new(seed, u64::from(number)),
            put: Vec::new(alloc),
            taken: Vec::new(alloc),
        }
    }

    /// Which pass of its queue it is, in the order that they were made, from 0.
    pub fn number(&self) -> u32
        ensures { result ≡ self.now.number }
    {
        self.number
    }

    /// Returns the items that were put through it, in the order of the calls.
    pub fn put(&self) -> &[Item]
        ensures { result.now ≡ self.now.put }
    {
        self.put.as_slice()
    }

    /// Returns the items that were taken through it, in the order of the calls.
    pub fn taken(&self) -> &[Item]
        ensures { result.now ≡ self.now.taken }
    {
        self.taken.as_slice()
    }

    /// Draws one of this many heaps, by the next word.
    pub(crate) fn draw(&mut self, heaps: usize) -> usize
        requires some { 0 < heaps }
        requires few { heaps ≤ 256 }
        ensures place { result ≡ word self.old % heaps }
        ensures range { result < heaps }
        ensures moved { self.new ≡ moved_on self.old }
    {
        self.generator.next_word() as usize % heaps
    }

    /// Puts an item into the heap behind a lock, and into the account. Fails only where memory runs out: the item is
    /// returned then, and the account stays as it was. Under the lock it takes memory for the heap alone.
    pub(crate) fn put_behind<R: Wait>(
        &mut self,
        rt: &R,
        heap: &Mutex<Heap>,
        item: Item,
    ) -> Result<(), Item>
        ensures put { OnOk result (self.new ≡ having_put item self.old) }
        ensures refused { OnErr result (self.new ≡ self.old) }
        ensures back { IfErr result (λ refused. refused ≡ item) }
    {
        if let Err(_refused) = self.put.reserve(1) {
            return Err(item);
        }
        put_into(&mut *heap.lock(rt), &mut self.put, item)
    }

    /// Takes the least item out of the heap behind a lock, and into the account; nothing where the heap is empty. Takes
    /// memory for the account, before the lock; where that runs out, heap and account stay as they were.
    pub(crate) fn take_behind<R: Wait>(
        &mut self,
        rt: &R,
        heap: &Mutex<Heap>,
    ) -> Result<Option<Item>, AllocError>
        ensures taken { IfOk result (λ answer. self.new ≡ having_taken answer self.old) }
        ensures refused { OnErr result (self.new ≡ self.old) }
    {
        self.taken.reserve(1)?;
        Ok(take_into(&mut *heap.lock(rt), &mut self.taken))
    }
}

/// Puts an item into a heap, and into a list that has room for it. Fails only where memory runs out: the item is returned
/// then, and heap and list stay as they were.
fn put_into(heap: &mut Heap, list: &mut Vec<Item>, item: Item) -> Result<(), Item>
    requires room { vec_len list.old < vec_capacity list.old }
    ensures heap { OnOk result (IsPermutation (item ∷ heap.old) heap.new) }
    ensures list { OnOk result (list.new.items ≡ list.old.items ++ item ∷ []) }
    ensures back { IfErr result (λ refused. refused ≡ item) }
    ensures heap_stays { OnErr result (heap.new ≡ heap.old) }
    ensures list_stays { OnErr result (list.new ≡ list.old) }
{
    heap.put(item)?;
    list.push_reserved(item);
    Ok(())
}

/// Takes the least item out of a heap, and into a list that has room for it; nothing where the heap is empty.
fn take_into(heap: &mut Heap, list: &mut Vec<Item>) -> Option<Item>
    requires room { vec_len list.old < vec_capacity list.old }
    ensures some { IfSome result (λ item. IsPermutation heap.old (item ∷ heap.new)) }
    ensures least { IfSome result (λ item. IsLeastOf heap.old item) }
    ensures none { IfNone result (heap.old ≡ []) }
    ensures empty { IfNone result (heap.new ≡ []) }
    ensures list { IfSome result (λ item. list.new.items ≡ list.old.items ++ item ∷ []) }
    ensures list_stays { IfNone result (list.new ≡ list.old) }
{
    let item = heap.take()?;
    list.push_reserved(item);
    Some(item)
}
