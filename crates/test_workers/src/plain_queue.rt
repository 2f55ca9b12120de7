//! A queue of three heaps, used through one pass, does what three plain lists do by the same words.
use ch_multiqueue::{Item, MultiQueue, Pass};
use rand_core::utils::NextWord;
use rand_pcg::Pcg32;
use std::alloc::{AllocError, Global};
use std::sync::Wait;
use std::test::Fail;

/// Three lists without any order, and the words by which they are chosen: the rules of the queue without its heaps.
#[derive(Drop)]
struct PlainQueue {
    lists: Vec<Vec<Item>>,
    words: Pcg32,
}

/// Whether an item comes before another: by its key, and then by its node.
fn is_before(one: Item, other: Item) -> bool {
    one.key < other.key || one.key == other.key && one.node < other.node
}

/// The least item of a list, found by looking at each item.
fn least(list: &[Item]) -> Option<Item> {
    let mut best: Option<Item> = None;
    for item in list {
        best = match best {
            Some(known) if !is_before(*item, known) => best,
            _ => Some(*item),
        };
    }
    best
}

impl PlainQueue {
    /// Three empty lists, and the words of the first pass of a queue with this seed.
    fn new(alloc: Global, seed: u64) -> Result<PlainQueue, AllocError> {
        Ok(PlainQueue {
            lists: vec![in alloc; Vec::new(alloc), Vec::new(alloc), Vec::new(alloc)]?,
            words: Pcg32::new(seed, 0),
        })
    }

    /// One of the three lists, by the next word.
    fn draw(&mut self) -> usize {
        self.words.next_word() as usize % 3
    }

    /// Puts an item into the list that is drawn.
    fn push(&mut self, item: Item) -> Result<(), AllocError> {
        let drawn = self.draw();
        if let Some(list) = self.lists.get_mut(drawn) {
            list.push(item)?;
        }
        Ok(())
    }

    /// The least item of this list.
    fn least_of(&self, place: usize) -> Option<Item> {
        least(self.lists.get(place)?.as_slice())
    }

    /// Takes the least item out of this list.
    fn take_from(&mut self, place: usize) -> Option<Item> {
        let wanted = self.least_of(place)?;
        let list = self.lists.get_mut(place)?;
        let at = list.iter().position(|item| *item == wanted)?;
        Some(list.swap_remove(at))
    }

    /// Takes the better item of two lists that are drawn, and if both are empty that of the first list with an item.
    fn pop(&mut self) -> Option<Item> {
        let first = self.draw();
        let second = self.draw();
        let drawn = match (self.least_of(first), self.least_of(second)) {
            (Some(one), Some(other)) if is_before(other, one) => second,
            (None, Some(_)) => second,
            _ => first,
        };
        self.take_from(drawn)
            .or_else(|| self.take_from(0))
            .or_else(|| self.take_from(1))
            .or_else(|| self.take_from(2))
    }
}

/// Whether this turn pushes: of 450 turns 200 do, most of them early, so the last pops find nothing.
fn is_push(turn: u64) -> bool {
    if turn < 270 {
        turn % 3 != 2
    } else {
        turn % 9 == 0
    }
}

/// Whether the queue does in 450 turns what the plain one does. Keys come again, also with the same node. Counts what is popped.
fn go_together<R: Wait>(
    rt: &R,
    queue: &MultiQueue,
    pass: &mut Pass,
    plain: &mut PlainQueue,
    popped: &mut u32,
) -> Result<bool, AllocError> {
    let mut holds = true;
    'turns: for turn in 0..450u64 {
        if is_push(turn) {
            let item = Item {
                key: turn * 37 % 11,
                node: (turn % 2) as u32,
            };
            plain.push(item)?;
            holds &= queue.push(rt, pass, item).is_ok();
        } else {
            let wanted = plain.pop();
            *popped = popped.wrapping_add(u32::from(wanted.is_some()));
            holds &= queue.pop(rt, pass)? == wanted;
        }
    }
    Ok(holds)
}

#[test]
fn three_heaps_do_what_three_lists_do(rt: HostRuntime) -> Result<(), Fail> {
    let (queue, mut pass) = MultiQueue::new(rt.alloc(), 3, 5)?;
    let mut plain = PlainQueue::new(rt.alloc(), 5)?;
    let mut popped = 0u32;
    let holds = go_together(&rt, &queue, &mut pass, &mut plain, &mut popped)?;
    assert!(rt; holds & (popped == 200));
    Ok(())
}
