ghost use Rattle.std.specs.Prelude.{◌≡◌, length, min, All};
ghost use Rattle.std.specs.List.{flat_map};
ghost use Rattle.hierfile.specs.Spelling.{bytes_of, word, long, head_bytes, link_bytes, middle_number};
ghost use Rattle.counted_io.specs.Sinks.{Puts};
ghost use Rattle.counted_io.specs.declared.TheConstants.{MOST_CALLS};
ghost use Rattle.ch_graph.specs.declared.version.Version.TheVariants.{Two};
ghost use Rattle.ch_graph.specs.Hierarchy.{version_number};
ghost use Rattle.hierfile.specs.Bytes.{IsWritable};
ghost use Rattle.hierfile.specs.Writing.{WritesFile};

use crate::links::NO_MIDDLE;
use byteorder::{BigEndian, ByteOrder};
use ch_graph::{Hierarchy, Link};
use counted_io::{MOST_CALLS, Sink, StepWrite, WriteFault};

/// Writes a hierarchy of version 2 to a file.
///
/// On Ok the writer took the spelling of the hierarchy, and on a fault its first `written` bytes. An interrupted call
/// of the writer is tried again; one that takes no byte is a failure, and so is the end of 2^40 calls. Takes no
/// memory, beside 8 KiB of the stack; linear in the size of the hierarchy.
pub fn write<W: StepWrite>(hierarchy: &Hierarchy, writer: &mut W) -> Result<(), WriteFault>
    requires { version_number hierarchy.now.version ≡ 2 }
    ensures writes { WritesFile W.step W.contents MOST_CALLS writer.old writer.new (bytes_of hierarchy.now) result }
{
    write_within(hierarchy, writer, MOST_CALLS)
}

/// Writes as [`write`] does, by this many calls of the writer, or 2^40 where they are more. After the last of them it has
/// failed.
pub fn write_within<W: StepWrite>(
    hierarchy: &Hierarchy,
    writer: &mut W,
    calls: u64,
) -> Result<(), WriteFault>
    requires { version_number hierarchy.now.version ≡ 2 }
    ensures writes { WritesFile W.step W.contents (min calls MOST_CALLS) writer.old writer.new (bytes_of hierarchy.now) result }
{
    let mut sink = Sink::new(calls);
    write_head(hierarchy, &mut sink, writer);
    write_ranks(hierarchy, &mut sink, writer);
    write_links(hierarchy.links(), &mut sink, writer);
    sink.finish(writer)
}

// Writes the magic of version 2, how many nodes and links there are, and the bound.
fn write_head<W: StepWrite>(hierarchy: &Hierarchy, sink: &mut Sink, writer: &mut W)
    ensures { Puts W.step W.contents sink.old sink.new writer.old writer.new (head_bytes Two (length hierarchy.now.ranks) (length hierarchy.now.links) hierarchy.now.bound) }
{
    sink.put(writer, b"RCH2");
    write_word(hierarchy.nodes(), sink, writer);
    write_long(hierarchy.links().len() as u64, sink, writer);
    write_long(hierarchy.bound().length(), sink, writer);
}

// Writes the rank of each node.
fn write_ranks<W: StepWrite>(hierarchy: &Hierarchy, sink: &mut Sink, writer: &mut W)
    ensures { Puts W.step W.contents sink.old sink.new writer.old writer.new (flat_map word hierarchy.now.ranks) }
{
    'nodes: for node in 0..hierarchy.nodes() {
        write_word(hierarchy.rank(node), sink, writer);
    }
}

// Writes each link, as version 2 has it, and stops once the writer has failed.
fn write_links<W: StepWrite>(links: &[Link], sink: &mut Sink, writer: &mut W)
    requires { All (IsWritable Two) links.now }
    ensures { Puts W.step W.contents sink.old sink.new writer.old writer.new (flat_map (link_bytes Two) links.now) }
{
    'links: for link in links {
        if sink.has_failed() {
            return;
        }
        write_link(link, sink, writer);
    }
}

// Writes one link, as version 2 has it.
fn write_link<W: StepWrite>(link: &Link, sink: &mut Sink, writer: &mut W)
    requires { IsWritable Two link.now }
    ensures { Puts W.step W.contents sink.old sink.new writer.old writer.new (link_bytes Two link.now) }
{
    write_word(link.from, sink, writer);
    write_word(link.to, sink, writer);
    let cost = link.cost.cost();
    write_long(cost.length(), sink, writer);
    write_word(cost.arcs() as u32, sink, writer);
    write_word(number_of(link.middle.node()), sink, writer);
}

// Writes a number of four bytes.
#[tactic(auto, unfolding(crate::specs::Spelling::word))]
fn write_word<W: StepWrite>(number: u32, sink: &mut Sink, writer: &mut W)
    ensures { Puts W.step W.contents sink.old sink.new writer.old writer.new (word number) }
{
    let mut bytes = [0; 4];
    BigEndian::write_u32(&mut bytes, number);
    sink.put(writer, &bytes);
}

// Writes a number of eight bytes.
#[tactic(auto, unfolding(crate::specs::Spelling::long))]
fn write_long<W: StepWrite>(number: u64, sink: &mut Sink, writer: &mut W)
    ensures { Puts W.step W.contents sink.old sink.new writer.old writer.new (long number) }
{
    let mut bytes = [0; 8];
    BigEndian::write_u64(&mut bytes, number);
    sink.put(writer, &bytes);
}

// The number that represents a middle.
fn number_of(middle: Option<u32>) -> u32
    ensures { result ≡ middle_number middle }
{
    match middle {
        None => NO_MIDDLE,
        Some(middle) => middle,
    }
}
