ghost use Rattle.std.specs.Prelude.{◌≡◌, ◌+◌, ◌<◌, ◌≤◌, ◌↔◌, ◌⊎◌, AllPairs, IfErr, IfOk, IfSome, IsTrue, OnErr, OnOk};
ghost use Rattle.ch_multiqueue.specs.Closing.{IsAmong, IsEnd, IsLacking, IsLeft};
ghost use Rattle.ch_multiqueue.specs.Items.{IsNotAfter};
ghost use Rattle.ch_multiqueue.specs.Passes.{pass_of, moved_on, having_put, having_taken};

use crate::account::{gone_in_order, in_order, put_in_order, where_balanced};
use crate::better::{Better, better_of};
use crate::closed::Closed;
use crate::error::CloseError;
use crate::heap::Heap;
use crate::item::Item;
use crate::pass::Pass;
use std::alloc::{AllocError, Global};
use std::marker::Model;
use std::sync::{Mutex, Wait};

/// A relaxed priority queue, which threads share by reference, each with a [`Pass`] of its own.
///
/// It has 1 to 256 heaps, and at most 256 passes are made. Each heap keeps the room that its items once took, and beside
/// the heaps the accounts of the passes alone grow. A `pop` takes the top of one heap as it is when that heap is locked;
/// nothing is said of the order of the items that it gives, nor of how long a call waits for a lock.
#[derive(Drop)]
pub struct MultiQueue {
    heaps: Vec<Mutex<Heap>>,
    seed: u64,
    passes: u32,
}

impl Model for MultiQueue {
    ghost use Rattle.std.specs.Prelude.{◌<◌, ◌≤◌, length};
    ghost use Rattle.ch_multiqueue.specs.Passes.{Queue};

    ghost Value = { Queue };

    ghost view = { λ q. record { heaps = length q.heaps.items; passes = q.passes; seed = q.seed } };

    ghost invariant = { λ q. (0 < length q.heaps.items) × (length q.heaps.items ≤ 256) × (0 < q.passes) × (q.passes ≤ 256) };
}

impl MultiQueue {
    /// Returns an empty queue of this many heaps, and its first pass, which has the number 0.
    ///
    /// There are 1 to 256 heaps. Takes memory for the locks alone: a heap takes its own when items come.
    pub fn new(alloc: Global, heaps: u32, seed: u64) -> Result<(MultiQueue, Pass), AllocError>
        requires some { 0 < heaps }
        requires few { heaps ≤ 256 }
        ensures queue { IfOk result (λ made. made.0 ≡ record { heaps = heaps; passes = 1; seed = seed }) }
        ensures pass { IfOk result (λ made. made.1 ≡ pass_of seed 0) }
    {
        let mut locks = Vec::with_capacity(alloc, heaps as usize)?;
        'heaps: for _ in 0..heaps {
            locks.push_reserved(Mutex::new(Heap::new(alloc)));
        }
        let queue = MultiQueue {
            heaps: locks,
            seed,
            passes: 1,
        };
        Ok((queue, Pass::new(alloc, seed, 0)))
    }

    /// Returns the next pass. Passes are numbered from 0, in the order that they are made.
    ///
    /// Fewer than 256 passes were made so far. Where memory runs out, the queue is unchanged; today no memory is
    /// taken.
    pub fn pass(&mut self) -> Result<Pass, AllocError>
        requires { self.old.passes < 256 }
        ensures pass { IfOk result (λ pass. pass ≡ pass_of self.old.seed self.old.passes) }
        ensures made { OnOk result (self.new ≡ record self.old { passes = self.old.passes + 1 }) }
        ensures refused { OnErr result (self.new ≡ self.old) }
    {
        let pass = Pass::new(*self.heaps.allocator(), self.seed, self.passes);
        self.passes += 1;
        Ok(pass)
    }

    /// Returns the number of heaps.
    pub fn heaps(&self) -> usize
        ensures count { result ≡ self.now.heaps }
        ensures some { 0 < result }
        ensures few { result ≤ 256 }
    {
        self.heaps.len()
    }

    /// Puts an item into a heap that the pass draws, and into the account of the pass.
    ///
    /// Draws one word, also where it is refused. Fails only where memory runs out: the item is returned then, and the
    /// queue and the account are unchanged. It may wait for the heap's lock, and takes time by the logarithm of the number
    /// of items there. Under the lock it takes memory for the heap alone.
    pub fn push<R: Wait>(&self, rt: &R, pass: &mut Pass, item: Item) -> Result<(), Item>
        ensures put { OnOk result (pass.new ≡ having_put item (moved_on pass.old)) }
        ensures refused { OnErr result (pass.new ≡ moved_on pass.old) }
        ensures back { IfErr result (λ refused. refused ≡ item) }
    {
        let place = pass.draw(self.heaps());
        pass.put_behind(rt, &self.heaps[place], item)
    }

    /// Takes an item out: the better top of two heaps that the pass draws, or any top where those have none. None
    /// where each heap was found empty once.
    ///
    /// Draws two words, always. The tops are looked at one after the other, each under its heap's lock, and the better
    /// heap gives its top as it is when it is locked again; of two equal tops the first drawn counts. Where both
    /// heaps were empty, or the better one has become empty since, the heaps are gone through once from the first, and
    /// the first top found is taken. Takes memory for the account of the pass, before it locks a heap to take from; where
    /// that runs out, the queue and the account are unchanged.
    pub fn pop<R: Wait>(&self, rt: &R, pass: &mut Pass) -> Result<Option<Item>, AllocError>
        ensures taken { IfOk result (λ answer. pass.new ≡ having_taken answer (moved_on (moved_on pass.old))) }
        ensures refused { OnErr result (pass.new ≡ moved_on (moved_on pass.old)) }
    {
        let first = pass.draw(self.heaps());
        let second = pass.draw(self.heaps());
        if let Some(place) = self.choose(rt, first, second) {
            if let Some(item) = pass.take_behind(rt, &self.heaps[place])? {
                return Ok(Some(item));
            }
        }
        self.take_first_found(rt, pass)
    }

    /// Ends the queue, and returns what is left in it, in order: each item was put through one of the passes exactly as
    /// often as it was taken through one or is left.
    ///
    /// All passes that were made are to be given, in any order. Refused where one is missing, then where memory
    /// runs out, and then where the accounts of the passes don't agree with what is left, as with a pass of another
    /// queue; queue and passes are returned as they were. Takes memory for a copy of the accounts and twice the list,
    /// and the time to sort these.
    pub fn close(self, passes: Vec<Pass>) -> Result<Vec<Item>, (CloseError, MultiQueue, Vec<Pass>)>
        ensures ended { IsEnd result self passes (λ items. items.items) }
    {
        match self.end(passes) {
            Ok(closed) => Ok(closed.into_left()),
            Err(refused) => Err(refused),
        }
    }

    /// Does the same as [`close`](MultiQueue::close), and returns which queue it was, too.
    pub fn end(self, passes: Vec<Pass>) -> Result<Closed, (CloseError, MultiQueue, Vec<Pass>)>
        ensures closed { IfOk result (λ closed. closed.queue ≡ self) }
        ensures ended { IsEnd result self passes (λ closed. closed.left) }
    {
        let mut queue = self;
        let settled = queue.settle(passes.as_slice());
        queue.into_closed(passes, settled)
    }

    /// Ends the queue by what was settled, if no pass is missing.
    fn into_closed(
        self,
        passes: Vec<Pass>,
        settled: Result<Option<Vec<Item>>, AllocError>,
    ) -> Result<Closed, (CloseError, MultiQueue, Vec<Pass>)>
        requires { IfOk settled (λ left. IfSome left (λ items. IsLeft passes.items items.items)) }
        ensures closed { IfOk result (λ closed. closed.queue ≡ self) }
        ensures ended { IsEnd result self passes (λ closed. closed.left) }
    {
        let queue = self;
        if is_lacking(passes.as_slice(), queue.passes) {
            return Err((CloseError::PassMissing, queue, passes));
        }
        match settled {
            Ok(Some(left)) => Ok(Closed {
                heaps: queue.heaps.len(),
                passes: queue.passes,
                seed: queue.seed,
                left,
            }),
            Ok(None) => Err((CloseError::Mixed, queue, passes)),
            Err(_refused) => Err((CloseError::OutOfMemory, queue, passes)),
        }
    }

    /// Which of two heaps has the better top, or none where both are empty.
    fn choose<R: Wait>(&self, rt: &R, first: usize, second: usize) -> Option<usize>
        requires first { first < self.now.heaps }
        requires second { second < self.now.heaps }
        ensures { IfSome result (λ place. (place ≡ first) ⊎ (place ≡ second)) }
    {
        let top = self.top_of(rt, first);
        let other = self.top_of(rt, second);
        match better_of(top, other) {
            Better::First => Some(first),
            Better::Second => Some(second),
            Better::Neither => None,
        }
    }

    /// The top of a heap, under its lock.
    fn top_of<R: Wait>(&self, rt: &R, place: usize) -> Option<Item>
        requires { place < self.now.heaps }
    {
        self.heaps[place].lock(rt).top()
    }

    /// Goes through the heaps once, from the first, and takes the first top that is found. `None` where each heap was
    /// found empty.
    fn take_first_found<R: Wait>(&self, rt: &R, pass: &mut Pass) -> Result<Option<Item>, AllocError>
        ensures taken { IfOk result (λ answer. pass.new ≡ having_taken answer pass.old) }
        ensures refused { OnErr result (pass.new ≡ pass.old) }
    {
        'heaps: for place in 0..self.heaps() {
            if let Some(item) = pass.take_behind(rt, &self.heaps[place])? {
                return Ok(Some(item));
            }
        }
        Ok(None)
    }

    /// A list of what is left, in order, if the accounts of these passes agree with it. The queue stays as it is.
    fn settle(&mut self, passes: &[Pass]) -> Result<Option<Vec<Item>>, AllocError>
        ensures queue { self.new ≡ self.old }
        ensures left { IfOk result (λ left. IfSome left (λ items. IsLeft passes.now items.items)) }
    {
        let alloc = *self.heaps.allocator();
        let left = self.left()?;
        let put = put_in_order(alloc, passes)?;
        let gone = gone_in_order(alloc, passes, left.as_slice())?;
        Ok(where_balanced(left, put, gone))
    }

    /// A list of what is left, in order. The queue stays as it is.
    fn left(&mut self) -> Result<Vec<Item>, AllocError>
        ensures queue { self.new ≡ self.old }
        ensures sorted { IfOk result (λ items. AllPairs IsNotAfter items.items) }
    {
        let mut items = Vec::new(*self.heaps.allocator());
        'heaps: for heap in self.heaps.iter_mut() {
            heap.get_mut().copy_into(&mut items)?;
        }
        Ok(in_order(items))
    }
}

/// Whether one of the first `made` passes isn't among these.
fn is_lacking(passes: &[Pass], made: u32) -> bool
    ensures { IsTrue result ↔ IsLacking made passes.now }
{
    'numbers: for number in 0..made {
        if !has_number(passes, number) {
            return true;
        }
    }
    false
}

/// Whether the pass of this number is among these.
fn has_number(passes: &[Pass], number: u32) -> bool
    ensures { IsTrue result ↔ IsAmong number passes.now }
{
    passes.iter().any(|pass| pass.number() == number)
}
