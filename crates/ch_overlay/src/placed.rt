ghost use Rattle.std.specs.Prelude.{◌≡◌, ◌<◌, ◌≤◌, IfOk, AllPairs, length, map};
ghost use Rattle.std.specs.List.Sorted.{IsPartitionPoint, IsPermutation};
ghost use Rattle.ch_laws.specs.Contraction.{IsFor};
ghost use Rattle.ch_overlay.specs.Placing.{out_place, in_place, IsInOrder};

use ch_laws::{Entry, Middle, Shortcut};
use std::alloc::{AllocError, Global};

/// An entry for the row of the node `at`.
#[derive(Clone, Copy)]
pub struct Placed {
    pub at: u32,
    pub entry: Entry,
}

/// Entries for rows, in order, so that those for one row lie together.
#[derive(Drop)]
pub struct PlacedEntries {
    /// By the nodes of their rows, and then by their other nodes.
    pub placed: Vec<Placed>,
    /// The same entries without the nodes of their rows.
    pub entries: Vec<Entry>,
    ghost same: { entries.items ≡ map (λ p. p.entry) placed.items },
}

impl PlacedEntries {
    ghost use Rattle.std.specs.Prelude.{◌≡◌, ◌↔◌, Contains, IfOk};
    ghost use Rattle.ch_laws.specs.declared.entry.Entry.{Entry};
    ghost use Rattle.ch_laws.specs.Rows.{Rises};
    ghost use Rattle.ch_overlay.specs.Placing.{IsInOrder};

    /// These entries, which are in order.
    fn new(alloc: Global, placed: Vec<Placed>) -> Result<PlacedEntries, AllocError>
        ensures { IfOk result (λ new. new.placed ≡ placed) }
    {
        let entries = entries_of(alloc, placed.as_slice())?;
        Ok(PlacedEntries { placed, entries })
    }

    /// Returns the entries for the row of one node. Looks at few of the others.
    pub fn at(&self, node: u32) -> &[Entry]
        requires { IsInOrder self.now.placed.items }
        ensures rises { Rises result.now }
        ensures all { (e : Entry) → Contains result.now e ↔ Contains self.now.placed.items (record { at = node; entry = e }) }
    {
        let placed = self.placed.as_slice();
        let first = count_before(placed, node);
        let end = count_up_to(placed, node);
        &self.entries[first..end]
    }
}

/// Returns the entries of shortcuts in the rows of the nodes that they leave. `middle` is the contracted node.
pub fn out_entries(
    alloc: Global,
    middle: Middle,
    shortcuts: &[Shortcut],
) -> Result<PlacedEntries, AllocError>
    requires { AllPairs (λ p q. IsFor p q.from q.to → ⊥) shortcuts.now }
    ensures all { IfOk result (λ entries. IsPermutation (map (out_place middle) shortcuts.now) entries.placed.items) }
    ensures order { IfOk result (λ entries. IsInOrder entries.placed.items) }
{
    let entries = entries_out(alloc, middle, shortcuts)?;
    let placed = PlacedEntries::new(alloc, sorted(entries))?;
    Ok(placed)
}

/// Returns the entries of shortcuts in the rows of the nodes that they come to.
pub fn in_entries(
    alloc: Global,
    middle: Middle,
    shortcuts: &[Shortcut],
) -> Result<PlacedEntries, AllocError>
    requires { AllPairs (λ p q. IsFor p q.from q.to → ⊥) shortcuts.now }
    ensures all { IfOk result (λ entries. IsPermutation (map (in_place middle) shortcuts.now) entries.placed.items) }
    ensures order { IfOk result (λ entries. IsInOrder entries.placed.items) }
{
    let entries = entries_in(alloc, middle, shortcuts)?;
    let placed = PlacedEntries::new(alloc, sorted(entries))?;
    Ok(placed)
}

/// The entries of shortcuts in the rows of the nodes that they leave, in the order of the shortcuts.
fn entries_out(
    alloc: Global,
    middle: Middle,
    shortcuts: &[Shortcut],
) -> Result<Vec<Placed>, AllocError>
    ensures { IfOk result (λ entries. entries.items ≡ map (out_place middle) shortcuts.now) }
{
    let entry_of = |shortcut: &Shortcut| Placed {
        at: shortcut.from,
        entry: Entry {
            other: shortcut.to,
            cost: shortcut.cost,
            middle,
        },
    };
    shortcuts.iter().map(entry_of).collect(alloc)
}

/// The entries of shortcuts in the rows of the nodes that they come to, in the order of the shortcuts.
fn entries_in(
    alloc: Global,
    middle: Middle,
    shortcuts: &[Shortcut],
) -> Result<Vec<Placed>, AllocError>
    ensures { IfOk result (λ entries. entries.items ≡ map (in_place middle) shortcuts.now) }
{
    let entry_of = |shortcut: &Shortcut| Placed {
        at: shortcut.to,
        entry: Entry {
            other: shortcut.from,
            cost: shortcut.cost,
            middle,
        },
    };
    shortcuts.iter().map(entry_of).collect(alloc)
}

/// The same entries by the nodes of their rows, and then by the other nodes.
fn sorted(mut entries: Vec<Placed>) -> Vec<Placed>
    ensures all { IsPermutation entries.items result.items }
    ensures sorted { AllPairs (λ a b. (a.at ≤ b.at) × (a.at ≡ b.at → a.entry.other ≤ b.entry.other)) result.items }
{
    entries.sort_unstable_by_key(|placed| (placed.at, placed.entry.other));
    entries
}

/// How many entries are for rows of nodes below this one.
fn count_before(entries: &[Placed], node: u32) -> usize
    requires { IsInOrder entries.now }
    ensures bound { result ≤ length entries.now }
    ensures parted { IsPartitionPoint (λ p. p.at < node) (λ p. node ≤ p.at) entries.now result }
{
    entries.partition_point(|placed| placed.at < node)
}

/// How many entries are for rows of nodes below this one or of itself.
fn count_up_to(entries: &[Placed], node: u32) -> usize
    requires { IsInOrder entries.now }
    ensures bound { result ≤ length entries.now }
    ensures parted { IsPartitionPoint (λ p. p.at ≤ node) (λ p. node < p.at) entries.now result }
{
    entries.partition_point(|placed| placed.at <= node)
}

/// The entries alone, without the nodes of their rows.
fn entries_of(alloc: Global, placed: &[Placed]) -> Result<Vec<Entry>, AllocError>
    ensures { IfOk result (λ entries. entries.items ≡ map (λ p. p.entry) placed.now) }
{
    placed.iter().map(|placed| placed.entry).collect(alloc)
}
