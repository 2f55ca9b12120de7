ghost use Rattle.std.specs.Prelude.{◌≡◌, ℕ, ◌+◌, ◌<◌, ◌≤◌, ◌^◌, ◌-◌, cond, nat_eq, length, All, AllPairs, OnOk};
ghost use Rattle.ch_estimate.specs.Notes.{note_in, raised, is_among};

use crate::note::Note;
use std::alloc::AllocError;

/// The note of a node that was never named: depth 0, no contracted neighbours.
const NO_NOTE: Note = Note { depth: 0, gone: 0 };

/// The note of a node. One past the end of the list was never named.
pub(crate) fn note_of(notes: &[Note], node: u32) -> Note
    ensures { result ≡ note_in notes.now node }
{
    match notes.get(node as usize) {
        Some(note) => *note,
        None => NO_NOTE,
    }
}

/// Extends the list, where it is shorter, by notes of nodes that were never named, so that these nodes, which rise, are in
/// it. No note changes, also where memory for that is refused.
pub(crate) fn make_room(notes: &mut Vec<Note>, nodes: &[u32]) -> Result<(), AllocError>
    requires rising { AllPairs (λ x y. x < y) nodes.now }
    ensures same { (x : ℕ) → note_in notes.new.items x ≡ note_in notes.old.items x }
    ensures room { OnOk result (All (λ x. x < length notes.new.items) nodes.now) }
{
    let Some(last) = nodes.last() else {
        return Ok(());
    };
    let count = *last as usize + 1;
    if notes.len() < count {
        notes.resize(count, NO_NOTE)?;
    }
    Ok(())
}

/// Notes that a node in the list loses a neighbour of this depth.
fn lose(notes: &mut [Note], node: u32, depth: u32)
    requires room { node < length notes.old }
    requires deep { depth < 2 ^ 32 - 1 }
    requires few { (note_in notes.old node).gone < 2 ^ 32 - 1 }
    ensures notes { (x : ℕ) → note_in notes.new x ≡ cond (nat_eq x node) (raised depth (note_in notes.old x)) (note_in notes.old x) }
    ensures room { length notes.new ≡ length notes.old }
{
    let note = notes[node as usize];
    let lower = depth + 1;
    notes[node as usize] = Note {
        depth: if note.depth < lower {
            lower
        } else {
            note.depth
        },
        gone: note.gone + 1,
    };
}

/// Notes that these nodes, which rise and are in the list, lose a neighbour of this depth.
pub(crate) fn lose_all(notes: &mut [Note], nodes: &[u32], depth: u32)
    requires room { All (λ x. x < length notes.old) nodes.now }
    requires deep { depth < 2 ^ 32 - 1 }
    requires few { (x : ℕ) → (note_in notes.old x).gone < 2 ^ 32 - 1 }
    requires rising { AllPairs (λ x y. x < y) nodes.now }
    ensures notes { (x : ℕ) → note_in notes.new x ≡ cond (is_among nodes.now x) (raised depth (note_in notes.old x)) (note_in notes.old x) }
    ensures room { length notes.new ≡ length notes.old }
{
    'nodes: for i in 0..nodes.len() {
        lose(notes, nodes[i], depth);
    }
}
