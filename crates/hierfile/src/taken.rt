ghost use Rattle.std.specs.Prelude.{◌≡◌, ◌==◌, ◌||◌, ◌<◌, ℕ, true, false, not, All, IfOk, OnOk, length, slice_index_or, slice_set};
ghost use Rattle.hierfile.specs.Taken.{AreMarksOf, AreTaken, HasPlaceOf, HasPlaces, is_taken};

use std::alloc::{AllocError, AllocFailed, Global};
use std::collections::BTreeSet;

/// The ranks are marked once as many of them have come as there are nodes, divided by this.
const SHARE: u32 = 16;

/// Which numbers have come as ranks of nodes.
///
/// It holds memory by how many have come, and not by how many nodes there are: the first ones are in a set, and only
/// when they are a sixteenth of the nodes each node has a mark of one byte.
#[derive(Drop)]
pub enum Taken {
    /// The ranks themselves.
    Few(BTreeSet<u32>),
    /// For each number below that of the nodes whether it is one of the ranks.
    Marks(Vec<bool>),
}

impl Taken {
    /// Takes one rank more, and returns whether it is new. It is looked for once.
    pub fn add(&mut self, rank: u32) -> Result<bool, AllocFailed<u32>>
        requires { HasPlaceOf self.old rank }
        ensures new { IfOk result (λ is_new. is_new ≡ not (is_taken self.old rank)) }
        ensures places { OnOk result ((nodes : ℕ) → HasPlaces nodes self.old → HasPlaces nodes self.new) }
        ensures added { OnOk result ((n : ℕ) → is_taken self.new n ≡ (is_taken self.old n || rank == n)) }
    {
        match self {
            Taken::Few(ranks) => ranks.insert(rank),
            Taken::Marks(marks) => Ok(mark(marks, rank as usize)),
        }
    }

    /// Goes over to marks where the ranks that have come, which are these, are many beside the nodes.
    pub fn mark_if_many(
        &mut self,
        alloc: Global,
        nodes: u32,
        ranks: &[u32],
    ) -> Result<(), AllocError>
        requires { AreTaken nodes self.old ranks.now }
        ensures { OnOk result (AreTaken nodes self.new ranks.now) }
    {
        if let Taken::Few(_) = self
            && ranks.len() >= (nodes / SHARE) as usize
        {
            *self = Taken::Marks(marks_of(alloc, nodes, ranks)?);
        }
        Ok(())
    }
}

// Marks a number, and returns whether it wasn't marked before.
fn mark(marks: &mut [bool], number: usize) -> bool
    requires { number < length marks.old }
    ensures new { result ≡ not (slice_index_or marks.old number false) }
    ensures marked { marks.new ≡ slice_set marks.old number true }
{
    let is_new = !marks[number];
    marks[number] = true;
    is_new
}

// For each number below that of the nodes whether it is one of these ranks.
fn marks_of(alloc: Global, nodes: u32, ranks: &[u32]) -> Result<Vec<bool>, AllocError>
    requires { All (λ r. r < nodes) ranks.now }
    ensures count { IfOk result (λ marks. length marks.items ≡ nodes) }
    ensures marks { IfOk result (λ marks. AreMarksOf ranks.now marks.items) }
{
    let mut marks = vec![in alloc; false; nodes as usize]?;
    'ranks: for rank in ranks {
        marks[*rank as usize] = true;
    }
    Ok(marks)
}
