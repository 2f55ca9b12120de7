ghost use Rattle.std.specs.Prelude.{◌≡◌, ◌≤◌, ◌++◌, [], ◌∷◌, codes, decimal, drop, length};
ghost use Rattle.counted_io.specs.Sinks.{Puts};
ghost use Rattle.ch_answer.specs.Line.{named, route_fields, line_of};

use ch_route::Route;
use counted_io::{Sink, StepWrite};
use itoa::{Buffer, write_digits};

/// How many nodes are written at a time.
const INLINE_NODES: usize = 32;

/// How many bytes these take at most, at a space and ten digits for each.
const ROOM: usize = 352;

/// Puts the line that answers the pair by the route. Takes no memory.
pub fn put_line<W: StepWrite>(pair: (u32, u32), route: &Option<Route>, sink: &mut Sink, out: &mut W)
    ensures { Puts W.step W.contents sink.old sink.new out.old out.new (line_of pair route.now) }
{
    match route {
        Some(route) => {
            sink.put(out, b"r");
            put_nodes(&[pair.0, pair.1], sink, out);
            put_along(route.cost.length(), route.nodes.as_slice(), sink, out);
            sink.put(out, b"\n");
        }
        None => {
            sink.put(out, b"n");
            put_nodes(&[pair.0, pair.1], sink, out);
            sink.put(out, b"\n");
        }
    }
}

/// Puts a length, how many arcs there are from node to node, and the nodes. Takes no memory.
pub fn put_along<W: StepWrite>(length: u64, nodes: &[u32], sink: &mut Sink, out: &mut W)
    ensures { Puts W.step W.contents sink.old sink.new out.old out.new (route_fields length nodes.now) }
{
    put_number(length, sink, out);
    put_number(nodes.len().saturating_sub(1) as u64, sink, out);
    put_nodes(nodes, sink, out);
}

/// Puts the nodes as a line names them, numbered from 1, a space before each. Takes no memory.
pub fn put_nodes<W: StepWrite>(nodes: &[u32], sink: &mut Sink, out: &mut W)
    ensures { Puts W.step W.contents sink.old sink.new out.old out.new (named nodes.now) }
{
    let mut text = [0; ROOM];
    let mut at = 0;
    'pieces: while at < nodes.len() {
        let end = nodes.len().min(at + INLINE_NODES);
        let start = write_nodes(&nodes[at..end], &mut text);
        sink.put(out, &text[start..]);
        at = end;
    }
}

// Writes a few nodes as a line names them so that they end where the text ends, the last one first. Returns where they
// start.
fn write_nodes(nodes: &[u32], text: &mut [u8; ROOM]) -> usize
    requires { length nodes.now ≤ 32 }
    ensures within { result ≤ 352 }
    ensures written { drop result text.new ≡ named nodes.now }
{
    let mut left = nodes.len();
    let mut at = ROOM;
    'nodes: while left > 0 {
        left -= 1;
        at = write_digits(u64::from(nodes[left]) + 1, text, at) - 1;
        text[at] = b' ';
    }
    at
}

/// Puts a space and the number in decimals. Takes no memory.
pub fn put_number<W: StepWrite>(number: u64, sink: &mut Sink, out: &mut W)
    ensures { Puts W.step W.contents sink.old sink.new out.old out.new (codes " " ++ decimal number) }
{
    sink.put(out, b" ");
    sink.put(out, Buffer::new().format(number).as_bytes());
}
