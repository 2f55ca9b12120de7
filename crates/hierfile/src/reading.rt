ghost use Rattle.std.specs.Prelude.{◌≡◌, ◌++◌, drop, min, None, IfOk, IfSome};
ghost use Rattle.std.specs.List.{flat_map};
ghost use Rattle.std.specs.Io.KnownBytes.{IsAtEnd};
ghost use Rattle.counted_io.specs.declared.TheConstants.{MOST_CALLS};
ghost use Rattle.ch_graph.specs.Hierarchy.{bound_arcs};
ghost use Rattle.hierfile.specs.Spelling.{magic_of, stem, word, long, link_bytes, bound_in};
ghost use Rattle.hierfile.specs.Fault.{magic_fault, head_fault, size_fault, body_fault, end_fault};
ghost use Rattle.hierfile.specs.Bytes.{HasNoneButHalves, HasNoneSoFar, Tells, IsBodyOf};
ghost use Rattle.hierfile.specs.Reading.{Reads, ReadsFile, ReadsValue, Refuses};

use crate::byte_reader::ByteReader;
use crate::error::HierError;
use crate::links::{find_halves, read_links};
use crate::ranks::read_ranks;
use ch_cost::Cost;
use ch_graph::{Hierarchy, LinkIndex, Version};
use counted_io::{MOST_CALLS, StepRead};
use std::alloc::Global;

/// What every file begins with, before the byte that has its version.
const STEM: [u8; 3] = *b"RCH";

/// The greatest number of nodes.
const MOST_NODES: u32 = 1 << 25;

/// The greatest weight of an arc.
const HEAVIEST: u64 = u32::MAX as u64;

// What the bytes behind the magic say.
#[derive(Clone, Copy)]
struct Head {
    nodes: u32,
    links: u64,
    bound: u64,
}

/// Reads a hierarchy from a file's bytes, of version 1 or 2, to the end of the reader.
///
/// On Ok the bytes were its spelling, and on an error this was their first fault: which bytes spell a hierarchy and how
/// faults are ordered is described in `docs/FORMATS.md`. A spelling has no fault, so only `Read` and `OutOfMemory` refuse
/// one. The hierarchy is of the version that the file begins with; costs of version 1 count no arcs. `Read` is returned
/// where the reader fails, also after 2^40 calls, and only where the bytes before have no fault but that they may end too
/// early; an interrupted call is tried again. `OutOfMemory` is returned where memory runs out, and only where the bytes
/// that were tested so far have no fault but that they may end too early, the halves of links aside, which are tested when
/// all links have come and there is room for them. All bytes that came were tested, but for at most 64 KiB that were read
/// ahead. Memory is taken as bytes come in, beside a buffer of 64 KiB: 4 bytes for each rank, and one for each node when a
/// sixteenth of the ranks has come, about 30 for each link, and then, when all links have come, 8 bytes for each node and
/// for each link, and 4 more for each node while halves are looked for. What the file announces takes none. Linear in the
/// bytes, but for a binary search for each link with a middle, among the links that leave the middle, or two where there
/// are more than 2^32 links, and one for each of the first ranks, among those before it.
pub fn read<R: StepRead>(alloc: Global, reader: &mut R) -> Result<Hierarchy, HierError>
    ensures reads { ReadsFile R.step R.remaining MOST_CALLS reader.old reader.new result }
{
    read_within(alloc, reader, MOST_CALLS)
}

/// Reads as [`read`] does, by this many calls of the reader, or 2^40 where they are more. After the last of them the
/// result is `Read`.
pub fn read_within<R: StepRead>(
    alloc: Global,
    reader: &mut R,
    calls: u64,
) -> Result<Hierarchy, HierError>
    ensures reads { ReadsFile R.step R.remaining (min calls MOST_CALLS) reader.old reader.new result }
{
    let mut input = ByteReader::new(alloc, calls)?;
    let version = read_magic(&mut input, reader)?;
    let head = read_head(&mut input, reader)?;
    let hierarchy = read_body(alloc, &mut input, reader, version, head)?;
    Ok(hierarchy)
}

// Reads the magic, and compares each byte as it comes. The last one gives the version.
fn read_magic<R: StepRead>(input: &mut ByteReader, reader: &mut R) -> Result<Version, HierError>
    ensures reads { ReadsValue R.step R.remaining input.old input.new reader.old reader.new magic_of magic_fault result }
{
    'bytes: for wanted in &STEM {
        let Some(byte) = input.byte(reader)? else {
            return Err(HierError::Truncated);
        };
        if byte != *wanted {
            return Err(HierError::BadMagic);
        }
    }
    let version = read_version(input, reader)?;
    Ok(version)
}

// Reads the last byte of a magic.
fn read_version<R: StepRead>(input: &mut ByteReader, reader: &mut R) -> Result<Version, HierError>
    ensures reads { ReadsValue R.step R.remaining input.old input.new reader.old reader.new (λ version. drop 3 (magic_of version)) (λ bytes. magic_fault (stem ++ bytes)) result }
{
    let Some(byte) = input.byte(reader)? else {
        return Err(HierError::Truncated);
    };
    match byte {
        b'1' => Ok(Version::One),
        b'2' => Ok(Version::Two),
        _ => Err(HierError::BadMagic),
    }
}

// Reads the numbers behind the magic.
fn read_head<R: StepRead>(input: &mut ByteReader, reader: &mut R) -> Result<Head, HierError>
    ensures sizes { IfOk result (λ head. size_fault head.nodes head.links head.bound ≡ None) }
    ensures reads { ReadsValue R.step R.remaining input.old input.new reader.old reader.new (λ head. word head.nodes ++ long head.links ++ long head.bound) head_fault result }
{
    let head = Head {
        nodes: input.word(reader)?,
        links: input.long(reader)?,
        bound: input.long(reader)?,
    };
    test_sizes(head)?;
    Ok(head)
}

// Tests the numbers behind the magic.
fn test_sizes(head: Head) -> Result<(), HierError>
    ensures told { Tells result (size_fault head.nodes head.links head.bound) }
{
    let nodes = u64::from(head.nodes);
    let others = nodes.saturating_sub(1);
    if head.nodes > MOST_NODES || head.links > nodes * others {
        return Err(HierError::TooBig);
    }
    if head.bound > others * HEAVIEST {
        return Err(HierError::BoundTooBig);
    }
    Ok(())
}

// Reads what follows the head, in a file of this version.
fn read_body<R: StepRead>(
    alloc: Global,
    input: &mut ByteReader,
    reader: &mut R,
    version: Version,
    head: Head,
) -> Result<Hierarchy, HierError>
    requires { size_fault head.nodes head.links head.bound ≡ None }
    ensures sizes { IfOk result (λ hierarchy. IsBodyOf hierarchy version head.nodes head.links head.bound) }
    ensures reads { Reads R.step R.remaining input.old input.new reader.old reader.new (λ hierarchy before _. IfSome before (λ bytes. bytes ≡ flat_map word hierarchy.ranks ++ flat_map (link_bytes version) hierarchy.links))
        (Refuses (body_fault version head.nodes head.links head.bound) (HasNoneSoFar (body_fault version head.nodes head.links head.bound)) (HasNoneButHalves (body_fault version head.nodes head.links head.bound))) result }
{
    let bound = bound_of(version, head);
    let ranks = read_ranks(alloc, input, reader, head.nodes)?;
    let links = read_links(
        alloc,
        input,
        reader,
        version,
        ranks.as_slice(),
        bound,
        head.links,
    )?;
    let all = links.as_slice();
    let index = LinkIndex::new(alloc, head.nodes, all)?;
    let halves = find_halves(alloc, head.nodes, all, &index)?;
    read_end(input, reader)?;
    Ok(Hierarchy::with_index(version, ranks, links, bound, index, halves))
}

// The bound of a hierarchy with this head.
fn bound_of(version: Version, head: Head) -> Cost
    ensures { result ≡ bound_in version head.nodes head.bound }
{
    let arcs = bound_arcs(version, head.nodes);
    Cost::of_walk(head.bound, u64::from(arcs))
}

// How many arcs the bound counts: in version 2 one fewer than there are nodes.
fn bound_arcs(version: Version, nodes: u32) -> u32
    ensures { result ≡ bound_arcs version nodes }
{
    match version {
        Version::One => 0,
        Version::Two => nodes.saturating_sub(1),
    }
}

// Sees that nothing follows.
fn read_end<R: StepRead>(input: &mut ByteReader, reader: &mut R) -> Result<(), HierError>
    ensures reads { Reads R.step R.remaining input.old input.new reader.old reader.new (λ _ before _. IsAtEnd before) (Refuses end_fault (λ came. end_fault came ≡ None) (λ came. end_fault came ≡ None)) result }
{
    match input.byte(reader)? {
        None => Ok(()),
        Some(_) => Err(HierError::Trailing),
    }
}
