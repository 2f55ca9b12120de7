ghost use Rattle.std.specs.Prelude.{◌≡◌, ◌+◌, ◌<◌, ◌∷◌, ◌++◌, IfOk, drop, length};
ghost use Rattle.domethyme_c.specs.Answers.{Answers, IsCount};
ghost use Rattle.domethyme_c.specs.Sets.{IsArcsAnswer, IsNumbersAnswer, arc_at, arcs_of};

use crate::code::{NO_HANDLE, NO_ROOM, OK, OUT_OF_MEMORY, numbers_code};
use crate::engine::Engine;
use crate::handle::Handle;
use crate::lengths::Pair;
use crate::route::write_all;
use ch_graph::Link;
use std::alloc::{AllocError, Global};

/// The number of links.
#[unsafe(no_mangle)]
pub extern "C" fn domethyme_links(alloc: Global, handle: &mut Handle, links: &mut usize) -> u32
    ensures kept { handle.new.held.hierarchy ≡ handle.old.held.hierarchy }
    ensures answer { Answers handle.old.held.hierarchy result (links.new ≡ links.old) (λ h. IsCount (length h.links) result links.new) }
{
    let Some(engine) = handle.take(alloc) else {
        return NO_HANDLE;
    };
    *links = engine.links().len();
    handle.put(alloc, engine);
    OK
}

/// The ends of each link without a middle, in order.
#[unsafe(no_mangle)]
pub extern "C" fn domethyme_arcs(
    alloc: Global,
    handle: &mut Handle,
    arcs: &mut [Pair],
    count: &mut usize,
) -> u32
    ensures kept { handle.new.held.hierarchy ≡ handle.old.held.hierarchy }
    ensures answer { Answers handle.old.held.hierarchy result ((arcs.new ≡ arcs.old) × (count.new ≡ count.old)) (λ h. IsArcsAnswer h result arcs.old arcs.new count.old count.new) }
{
    let Some(engine) = handle.take(alloc) else {
        return NO_HANDLE;
    };
    let code = answer_arcs(alloc, &engine, arcs, count);
    handle.put(alloc, engine);
    code
}

fn answer_arcs(alloc: Global, engine: &Engine, arcs: &mut [Pair], count: &mut usize) -> u32
    ensures answer { IsArcsAnswer engine.now result arcs.old arcs.new count.old count.new }
{
    match arcs_of(alloc, engine.links()) {
        Ok(found) => {
            *count = found.len();
            write_all(found.as_slice(), arcs)
        }
        Err(_) => OUT_OF_MEMORY,
    }
}

// The ends of each of some links without a middle.
#[tactic(auto, using(crate::proofs::Listed::arcs_more, crate::proofs::Listed::all_links))]
fn arcs_of(alloc: Global, links: &[Link]) -> Result<Vec<Pair>, AllocError>
    ensures { IfOk result (λ arcs. arcs.items ≡ arcs_of links.now) }
{
    let mut arcs = Vec::new(alloc);
    'links: for at in 0..links.len() {
        push_arc(links[at], &mut arcs)?;
    }
    Ok(arcs)
}

// Those of one link more.
fn push_arc(link: Link, arcs: &mut Vec<Pair>) -> Result<(), AllocError>
    ensures { IfOk result (λ _. arcs.new.items ≡ arcs.old.items ++ arc_at link link.middle) }
{
    match link.middle.node() {
        None => arcs.push(Pair {
            from: link.from,
            to: link.to,
        })?,
        Some(_) => {}
    }
    Ok(())
}

/// The set of the numbers that are given for the links without a middle.
#[unsafe(no_mangle)]
pub extern "C" fn domethyme_numbers(
    alloc: Global,
    handle: &mut Handle,
    numbers: &[u32],
    set: &mut [u64],
) -> u32
    ensures kept { handle.new.held.hierarchy ≡ handle.old.held.hierarchy }
    ensures answer { Answers handle.old.held.hierarchy result (set.new ≡ set.old) (λ h. IsNumbersAnswer h numbers.now result set.old set.new) }
{
    let Some(engine) = handle.take(alloc) else {
        return NO_HANDLE;
    };
    let code = answer_numbers(alloc, &engine, numbers, set);
    handle.put(alloc, engine);
    code
}

fn answer_numbers(alloc: Global, engine: &Engine, given: &[u32], set: &mut [u64]) -> u32
    ensures answer { IsNumbersAnswer engine.now given.now result set.old set.new }
{
    if set.len() <= engine.links().len() {
        return NO_ROOM;
    }
    match engine.numbers(alloc, given) {
        Ok(numbers) => {
            write_set(engine.digest(), numbers.as_slice(), set);
            OK
        }
        Err(error) => numbers_code(error),
    }
}

// Writes a digest and numbers at the beginning of an array.
fn write_set(digest: u64, numbers: &[u64], set: &mut [u64])
    requires { length numbers.now < length set.old }
    ensures { set.new ≡ (digest ∷ numbers.now) ++ drop (length numbers.now + 1) set.old }
{
    let count = numbers.len() + 1;
    set[0] = digest;
    set[1..count].copy_from_slice(numbers);
}
