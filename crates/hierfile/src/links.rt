ghost use Rattle.std.specs.Prelude.{◌≡◌, ◌≢◌, ◌-◌, ◌*◌, ◌^◌, ◌<◌, ◌≤◌, ◌++◌, length, None, Some, All, AllPairs, IfSome, IfNone, IfOk, IfErr, IsTrue, OnOk, ℕ};
ghost use Rattle.std.specs.List.{flat_map};
ghost use Rattle.std.specs.Io.KnownBytes.{Consumes};
ghost use Rattle.ch_cost.specs.Cost.{◌⊕◌, same};
ghost use Rattle.ch_graph.specs.Hierarchy.{ComesBefore, IsLinkAt};
ghost use Rattle.ch_graph.specs.declared.link.Link.{Link};
ghost use Rattle.ch_graph.specs.LinkIndex.{IsIndexOf};
ghost use Rattle.ch_graph.specs.LinkHalves.{AreHalvesOf, ArePartsOf};
ghost use Rattle.hierfile.specs.Spelling.{arcs_bytes, arcs_size, link_bytes, link_size, middle_number};
ghost use Rattle.hierfile.specs.Fault.{cut, does_count, has_weight, is_in_order, link_fault, link_fault_at, links_fault, middle_fault, half_fault, first_along};
ghost use Rattle.hierfile.specs.Bytes.{IsCut, IsCutOrWhole, OfBytes, Tells, NoneBelow, AreTold, IsWritable};
ghost use Rattle.hierfile.specs.Reading.{Reads, ReadsValue, Refuses};

use crate::byte_reader::ByteReader;
use crate::error::HierError;
use crate::guesses::Guesses;
use ch_cost::{Cost, NarrowCost};
use ch_graph::{Link, LinkHalves, LinkId, LinkIndex, Middle, Parts, Version};
use counted_io::StepRead;
use std::alloc::Global;

/// The number that is written for no middle.
pub const NO_MIDDLE: u32 = u32::MAX;

/// Reads this many links, of a hierarchy of this version with these ranks and this bound.
pub fn read_links<R: StepRead>(
    alloc: Global,
    input: &mut ByteReader,
    reader: &mut R,
    version: Version,
    ranks: &[u32],
    bound: Cost,
    count: u64,
) -> Result<Vec<Link>, HierError>
    ensures count { IfOk result (λ links. length links.items ≡ count) }
    ensures faultless { IfOk result (λ links. NoneBelow count (link_fault_at version ranks.now bound links.items)) }
    ensures reads { Reads R.step R.remaining input.old input.new reader.old reader.new (λ links before after. Consumes before after (flat_map (link_bytes version) links.items))
        (Refuses (links_fault version ranks.now bound count) (IsCut (links_fault version ranks.now bound count)) (IsCutOrWhole (link_size version * count) (links_fault version ranks.now bound count))) result }
    ensures writable { IfOk result (λ links. All (IsWritable version) links.items) }
{
    let mut links = Vec::new(alloc);
    'links: for _ in 0..count {
        let link = read_link(input, reader, version)?;
        let earlier = links.last().copied();
        test_link(version, ranks, bound, earlier, &link)?;
        links.push(link)?;
    }
    Ok(links)
}

// Reads one link, all of its bytes at a time.
fn read_link<R: StepRead>(
    input: &mut ByteReader,
    reader: &mut R,
    version: Version,
) -> Result<Link, HierError>
    ensures reads { ReadsValue R.step R.remaining input.old input.new reader.old reader.new (link_bytes version) (cut (link_size version)) result }
    ensures writable { IfOk result (IsWritable version) }
{
    input.need(reader, link_size(version))?;
    Ok(waiting_link(input, version))
}

// How many bytes a link has.
fn link_size(version: Version) -> usize
    ensures { result ≡ link_size version }
{
    match version {
        Version::One => 20,
        Version::Two => 24,
    }
}

// Takes a link from the bytes that wait.
fn waiting_link(input: &mut ByteReader, version: Version) -> Link
    requires { link_size version ≤ length input.old.waiting }
    ensures taken { input.old.waiting ≡ link_bytes version result ++ input.new.waiting }
    ensures left { input.new.left ≡ input.old.left }
    ensures writable { IsWritable version result }
{
    let from = input.waiting_word();
    let to = input.waiting_word();
    let weight = input.waiting_long();
    let arcs = waiting_arcs(input, version);
    let middle = input.waiting_word();
    Link {
        from,
        to,
        cost: NarrowCost::of_walk(weight, arcs),
        middle: middle_of(middle),
    }
}

// Takes the arcs of a link, which are in files of version 2 alone.
fn waiting_arcs(input: &mut ByteReader, version: Version) -> u32
    requires { arcs_size version ≤ length input.old.waiting }
    ensures taken { input.old.waiting ≡ arcs_bytes version result ++ input.new.waiting }
    ensures left { input.new.left ≡ input.old.left }
    ensures told { AreTold version result }
{
    match version {
        Version::One => 0,
        Version::Two => input.waiting_word(),
    }
}

// The middle that this number represents.
fn middle_of(number: u32) -> Middle
    ensures number { middle_number result ≡ number }
    ensures node { IfSome result (λ m. m < 2 ^ 32 - 1) }
{
    if number == NO_MIDDLE {
        Middle::NONE
    } else {
        Middle::at(number)
    }
}

// Tests a link by itself, beside the one before it.
#[tactic(auto, unfolding(crate::specs::Fault::link_fault))]
fn test_link(
    version: Version,
    ranks: &[u32],
    bound: Cost,
    earlier: Option<Link>,
    link: &Link,
) -> Result<(), HierError>
    ensures told { Tells result (link_fault version ranks.now bound earlier link.now) }
{
    let nodes = ranks.len();
    if link.from as usize >= nodes || link.to as usize >= nodes || link.from == link.to {
        return Err(HierError::LinkEnds);
    }
    if !is_in_order(earlier, link) {
        return Err(HierError::LinkOrder);
    }
    if !has_weight(version, bound, link) {
        return Err(HierError::LinkWeight);
    }
    test_middle(ranks, link.from, link.to, link.middle.node())
}

// Whether a link's cost is within the bound, and counts what the version wants.
#[tactic(auto, unfolding(crate::specs::Fault::has_weight))]
fn has_weight(version: Version, bound: Cost, link: &Link) -> bool
    ensures { result ≡ has_weight version bound link.now }
{
    let cost = link.cost.cost();
    let (length, arcs) = (cost.length(), cost.arcs());
    (length <= bound.length()) & (arcs <= bound.arcs()) & does_count(version, link)
}

// Whether a link's cost counts what the version wants.
fn does_count(version: Version, link: &Link) -> bool
    ensures { result ≡ does_count version link.now }
{
    let cost = link.cost.cost();
    let (length, arcs) = (cost.length(), cost.arcs());
    match version {
        Version::One => (length > 0) & (arcs == 0),
        Version::Two => (arcs > 0) & (link.middle.node().is_some() | (arcs == 1)),
    }
}

// Whether a link comes after the one before it, if there is one.
fn is_in_order(earlier: Option<Link>, link: &Link) -> bool
    ensures { result ≡ is_in_order earlier link.now }
{
    match earlier {
        None => true,
        Some(earlier) => {
            earlier.from < link.from || (earlier.from == link.from && earlier.to < link.to)
        }
    }
}

// Tests a middle of a link between two nodes.
fn test_middle(ranks: &[u32], from: u32, to: u32, middle: Option<u32>) -> Result<(), HierError>
    requires from_in { from < length ranks.now }
    requires to_in { to < length ranks.now }
    ensures told { Tells result (middle_fault ranks.now from to middle) }
{
    let Some(middle) = middle else {
        return Ok(());
    };
    if middle as usize >= ranks.len() {
        return Err(HierError::MiddleRange);
    }
    let rank = ranks[middle as usize];
    if rank < ranks[from as usize] && rank < ranks[to as usize] {
        Ok(())
    } else {
        Err(HierError::MiddleRank)
    }
}

/// Finds the halves of each link with a middle, by the index of the links, and tests that they sum to its cost.
///
/// Takes 8 bytes a link, and 4 a node while it runs.
pub fn find_halves(
    alloc: Global,
    nodes: u32,
    links: &[Link],
    index: &LinkIndex,
) -> Result<LinkHalves, HierError>
    requires sorted { AllPairs ComesBefore links.now }
    requires index { IsIndexOf links.now index.now }
    ensures halves { IfOk result (AreHalvesOf links.now) }
    ensures faultless { OnOk result (first_along (half_fault links.now) links.now ≡ None) }
    ensures err { IfErr result (λ e. OfBytes e (first_along (half_fault links.now) links.now ≡ Some e)) }
    ensures no_read { IfErr result (λ e. e ≢ HierError.Read) }
{
    let mut halves = LinkHalves::with_room(alloc, links.len())?;
    let mut guesses = Guesses::new(alloc, nodes)?;
    'links: for place in 0..links.len() {
        guesses.note_links_beside(links, place);
        let parts = parts_of(links, index, &guesses, &links[place])?;
        halves.keep(LinkId(place), parts)?;
    }
    Ok(halves)
}

// What a link represents: its halves, or itself where it has no middle.
#[tactic(auto, unfolding(crate::specs::Fault::half_fault))]
fn parts_of(
    links: &[Link],
    index: &LinkIndex,
    guesses: &Guesses,
    link: &Link,
) -> Result<Parts, HierError>
    requires sorted { AllPairs ComesBefore links.now }
    requires index { IsIndexOf links.now index.now }
    ensures parts { IfOk result (ArePartsOf links.now link.now) }
    ensures told { Tells result (half_fault links.now link.now) }
{
    let Some(middle) = link.middle.node() else {
        return Ok(Parts::Arc(link.to));
    };
    let Some(first) = find_by(links, index, guesses, link.from, middle) else {
        return Err(HierError::HalfMissing);
    };
    let Some(second) = index.find(links, middle, link.to) else {
        return Err(HierError::HalfMissing);
    };
    let one = &links[first.0];
    let two = &links[second.0];
    if is_sum(link.cost.cost(), one.cost.cost(), two.cost.cost()) {
        Ok(Parts::Shortcut(first, second))
    } else {
        Err(HierError::HalfSum)
    }
}

// The place of the link from one node to another: the guess if it is right, else what the index finds.
fn find_by(
    links: &[Link],
    index: &LinkIndex,
    guesses: &Guesses,
    from: u32,
    to: u32,
) -> Option<LinkId>
    requires sorted { AllPairs ComesBefore links.now }
    requires index { IsIndexOf links.now index.now }
    ensures found { IfSome result (λ id. IsLinkAt links.now from to id.0) }
    ensures none { IfNone result ((place : ℕ) → IsLinkAt links.now from to place → ⊥) }
{
    let place = guesses.of(to);
    if is_link_at(links, place, from, to) {
        return Some(LinkId(place));
    }
    index.find(links, from, to)
}

// Whether there is a link at this place, and it leads from one node to another.
fn is_link_at(links: &[Link], place: usize, from: u32, to: u32) -> bool
    ensures { IsTrue result → IsLinkAt links.now from to place }
{
    let Some(link) = links.get(place) else {
        return false;
    };
    (link.from == from) & (link.to == to)
}

// Whether a cost is the sum of two, which may be of any size.
fn is_sum(whole: Cost, first: Cost, second: Cost) -> bool
    ensures { result ≡ same whole (first ⊕ second) }
{
    match first.plus_within(second, whole) {
        None => false,
        Some(sum) => whole == sum,
    }
}
