ghost use Rattle.std.specs.Prelude.{◌≡◌, ◌↔◌, ◌*◌, ◌<◌, ◌≤◌, All, IfOk, IsTrue, length};
ghost use Rattle.ch_table.specs.Selection.{IsSelection};
ghost use Rattle.domethyme_c.specs.Answers.{AreNodes, Answers, IsLengthAnswer, IsLengthOrNone, IsLengthsAnswer, IsTableAnswer};

use crate::code::{NO_HANDLE, NO_LENGTH, NO_PATH, NO_ROOM, NODE_RANGE, OK, OUT_OF_MEMORY};
use crate::engine::Engine;
use crate::handle::Handle;
use ch_route::Selection;
use std::alloc::{AllocError, Global};

/// How many lengths a table has at most that is answered pair by pair.
const MAX_PAIRWISE: usize = 64;

/// Two nodes.
#[repr(C)]
#[derive(Clone, Copy)]
pub struct Pair {
    pub from: u32,
    pub to: u32,
}

/// The least length of a path.
#[unsafe(no_mangle)]
pub extern "C" fn domethyme_length(
    alloc: Global,
    handle: &mut Handle,
    from: u32,
    to: u32,
    length: &mut u64,
) -> u32
    ensures kept { handle.new.held.hierarchy ≡ handle.old.held.hierarchy }
    ensures answer { Answers handle.old.held.hierarchy result (length.new ≡ length.old) (λ h. IsLengthAnswer h from to result length.old length.new) }
{
    let Some(mut engine) = handle.take(alloc) else {
        return NO_HANDLE;
    };
    let code = answer_length(&mut engine, from, to, length);
    handle.put(alloc, engine);
    code
}

fn answer_length(engine: &mut Engine, from: u32, to: u32, length: &mut u64) -> u32
    ensures kept { engine.new ≡ engine.old }
    ensures answer { IsLengthAnswer engine.old from to result length.old length.new }
{
    if !engine.are_nodes(from, to) {
        return NODE_RANGE;
    }
    match engine.length(from, to) {
        Ok(Some(found)) => {
            *length = found;
            OK
        }
        Ok(None) => NO_PATH,
        Err(_) => OUT_OF_MEMORY,
    }
}

/// The least length for each pair.
#[unsafe(no_mangle)]
pub extern "C" fn domethyme_lengths(
    alloc: Global,
    handle: &mut Handle,
    pairs: &[Pair],
    lengths: &mut [u64],
) -> u32
    ensures kept { handle.new.held.hierarchy ≡ handle.old.held.hierarchy }
    ensures answer { Answers handle.old.held.hierarchy result (lengths.new ≡ lengths.old) (λ h. IsLengthsAnswer h pairs.now result lengths.old lengths.new) }
{
    let Some(mut engine) = handle.take(alloc) else {
        return NO_HANDLE;
    };
    let code = answer_pairs(&mut engine, pairs, lengths);
    handle.put(alloc, engine);
    code
}

fn answer_pairs(engine: &mut Engine, pairs: &[Pair], lengths: &mut [u64]) -> u32
    ensures kept { engine.new ≡ engine.old }
    ensures answer { IsLengthsAnswer engine.old pairs.now result lengths.old lengths.new }
{
    if lengths.len() < pairs.len() {
        return NO_ROOM;
    }
    if !have_nodes(engine, pairs) {
        return NODE_RANGE;
    }
    'pairs: for place in 0..pairs.len() {
        let pair = pairs[place];
        match length_or_none(engine, pair.from, pair.to) {
            Ok(length) => lengths[place] = length,
            Err(_) => return OUT_OF_MEMORY,
        }
    }
    OK
}

// Whether both are nodes, in each pair.
fn have_nodes(engine: &Engine, pairs: &[Pair]) -> bool
    ensures { IsTrue result ↔ All (λ (p : Pair). AreNodes engine.now p.from p.to) pairs.now }
{
    let count = engine.nodes();
    pairs
        .iter()
        .all(|pair| (pair.from < count) & (pair.to < count))
}

/// The least length from each source to each target, row by row.
#[unsafe(no_mangle)]
pub extern "C" fn domethyme_table(
    alloc: Global,
    handle: &mut Handle,
    sources: &[u32],
    targets: &[u32],
    lengths: &mut [u64],
) -> u32
    ensures kept { handle.new.held.hierarchy ≡ handle.old.held.hierarchy }
    ensures answer { Answers handle.old.held.hierarchy result (lengths.new ≡ lengths.old) (λ h. IsTableAnswer h sources.now targets.now result lengths.old lengths.new) }
{
    let Some(mut engine) = handle.take(alloc) else {
        return NO_HANDLE;
    };
    let code = answer_table(alloc, &mut engine, sources, targets, lengths);
    handle.put(alloc, engine);
    code
}

fn answer_table(
    alloc: Global,
    engine: &mut Engine,
    sources: &[u32],
    targets: &[u32],
    lengths: &mut [u64],
) -> u32
    ensures kept { engine.new ≡ engine.old }
    ensures answer { IsTableAnswer engine.old sources.now targets.now result lengths.old lengths.new }
{
    let Some(count) = sources.len().checked_mul(targets.len()) else {
        return NO_ROOM;
    };
    if lengths.len() < count {
        return NO_ROOM;
    }
    if !engine.has_all(sources) {
        return NODE_RANGE;
    }
    if count <= MAX_PAIRWISE {
        return answer_few(engine, sources, targets, count, lengths);
    }
    match engine.selection(alloc, targets) {
        Ok(selection) => fill_rows(engine, sources, &selection, lengths),
        Err(code) => code,
    }
}

// A table of few lengths, which has room. One with no targets lets the selection go.
fn answer_few(
    engine: &mut Engine,
    sources: &[u32],
    targets: &[u32],
    count: usize,
    lengths: &mut [u64],
) -> u32
    requires sources { All (λ v. v < length engine.old.ranks) sources.now }
    requires count { count ≡ length sources.now * length targets.now }
    requires room { count ≤ length lengths.old }
    ensures kept { engine.new ≡ engine.old }
    ensures answer { IsTableAnswer engine.old sources.now targets.now result lengths.old lengths.new }
{
    if targets.is_empty() {
        engine.forget_selection();
    }
    if !engine.has_all(targets) {
        return NODE_RANGE;
    }
    fill_pairs(engine, sources, targets, count, lengths)
}

// Row by row.
fn fill_rows(
    engine: &mut Engine,
    sources: &[u32],
    selection: &Selection,
    lengths: &mut [u64],
) -> u32
    requires sources { All (λ v. v < length engine.old.ranks) sources.now }
    requires selection { IsSelection engine.old selection.now }
    requires room { length sources.now * length selection.now.targets ≤ length lengths.old }
    ensures kept { engine.new ≡ engine.old }
    ensures answer { IsTableAnswer engine.old sources.now selection.now.targets result lengths.old lengths.new }
{
    match engine.lengths(sources, selection, lengths) {
        Ok(()) => OK,
        Err(_) => OUT_OF_MEMORY,
    }
}

// Pair by pair.
fn fill_pairs(
    engine: &mut Engine,
    sources: &[u32],
    targets: &[u32],
    count: usize,
    lengths: &mut [u64],
) -> u32
    requires sources { All (λ v. v < length engine.old.ranks) sources.now }
    requires targets { All (λ v. v < length engine.old.ranks) targets.now }
    requires count { count ≡ length sources.now * length targets.now }
    requires room { count ≤ length lengths.old }
    ensures kept { engine.new ≡ engine.old }
    ensures answer { IsTableAnswer engine.old sources.now targets.now result lengths.old lengths.new }
{
    'places: for place in 0..count {
        let source = sources[place / targets.len()];
        let target = targets[place % targets.len()];
        match length_or_none(engine, source, target) {
            Ok(length) => lengths[place] = length,
            Err(_) => return OUT_OF_MEMORY,
        }
    }
    OK
}

// The least length, or the number that stands for none.
fn length_or_none(engine: &mut Engine, from: u32, to: u32) -> Result<u64, AllocError>
    requires { AreNodes engine.old from to }
    ensures found { IfOk result (IsLengthOrNone engine.old from to) }
    ensures kept { engine.new ≡ engine.old }
{
    match engine.length(from, to)? {
        Some(length) => Ok(length),
        None => Ok(NO_LENGTH),
    }
}
