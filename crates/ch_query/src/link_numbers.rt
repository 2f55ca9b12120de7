ghost use Rattle.std.specs.Prelude.{◌≡◌, ◌<◌, length, replicate, slice_index, slice_set, IfOk};

use std::alloc::{AllocError, Global};
use std::marker::Model;

/// Numbers up to that of the links of a hierarchy, in a list whose length stays: places, or counts of links.
///
/// Each takes 4 bytes where there are fewer than 2^32 links, and else 8. What a caller has summed along links
/// ([`Search::climb_summed`](crate::Search::climb_summed)) are other numbers, in a list of its own.
#[derive(Drop)]
pub struct LinkNumbers {
    kept: KeptNumbers,
}

/// The list, in one of its two forms.
#[derive(Drop)]
pub enum KeptNumbers {
    /// In 4 bytes each.
    Short(Vec<u32>),
    /// In 8 bytes each.
    Long(Vec<usize>),
}

impl Model for LinkNumbers {
    ghost use Rattle.ch_query.specs.LinkNumbers.{NumberList, numbers_in};

    ghost Value = { NumberList };

    ghost view = { λ n. numbers_in n.kept };
}

impl LinkNumbers {
    /// Returns this many numbers, all of them 0, for a hierarchy that has this many links.
    ///
    /// Takes 4 bytes each, or 8 where there are 2^32 links or more.
    pub fn with_room(alloc: Global, count: usize, links: usize) -> Result<LinkNumbers, AllocError>
        ensures items { IfOk result (λ numbers. numbers.items ≡ replicate count 0) }
        ensures limit { IfOk result (λ numbers. links < numbers.limit) }
    {
        if links > u32::MAX as usize {
            let long = vec![in alloc; 0usize; count]?;
            return Ok(LinkNumbers {
                kept: KeptNumbers::Long(long),
            });
        }
        let short = vec![in alloc; 0u32; count]?;
        Ok(LinkNumbers {
            kept: KeptNumbers::Short(short),
        })
    }

    /// Returns how many numbers there are.
    pub fn len(&self) -> usize
        ensures { result ≡ length self.now.items }
    {
        match &self.kept {
            KeptNumbers::Short(numbers) => numbers.len(),
            KeptNumbers::Long(numbers) => numbers.len(),
        }
    }

    /// Returns the number at an index.
    pub fn get(&self, index: usize) -> usize
        requires { index < length self.now.items }
        ensures { result ≡ slice_index self.now.items index }
    {
        match &self.kept {
            KeptNumbers::Short(numbers) => numbers[index] as usize,
            KeptNumbers::Long(numbers) => numbers[index],
        }
    }

    /// Puts a number at an index.
    pub fn set(&mut self, index: usize, number: usize)
        requires index_in { index < length self.old.items }
        requires fits { number < self.old.limit }
        ensures items { self.new.items ≡ slice_set self.old.items index number }
        ensures limit { self.new.limit ≡ self.old.limit }
    {
        match &mut self.kept {
            KeptNumbers::Short(numbers) => numbers[index] = number as u32,
            KeptNumbers::Long(numbers) => numbers[index] = number,
        }
    }
}
