ghost use Rattle.std.specs.Prelude.{◌≤◌, length};

use ch_graph::{Graph, Road};
use grfile::{
    GrError, GrErrorKind, GrReader, QueryReader, read_graph, read_graph_within, read_queries,
};
use std::alloc::Global;
use std::io;
use test_kit::Uneven;

/// What a text has to say.
#[derive(Clone, Copy)]
enum Wanted {
    Graph(u32, &'static [Road]),
    Pairs(&'static [(u32, u32)]),
    Fault(GrErrorKind, u64),
}

/// A text, and what it has to say.
type Case = (&'static [u8], Wanted);

const SEVEN: &[Road] = &[Road {
    from: 0,
    to: 1,
    weight: 7,
}];

const FREE: &[Road] = &[Road {
    from: 0,
    to: 1,
    weight: 0,
}];

const PARALLEL: &[Road] = &[
    Road {
        from: 0,
        to: 0,
        weight: 12,
    },
    Road {
        from: 0,
        to: 1,
        weight: 9,
    },
    Road {
        from: 0,
        to: 1,
        weight: 4,
    },
    Road {
        from: 0,
        to: 1,
        weight: 4_294_967_295,
    },
];

/// Blanks and line ends, then a weight of 0, loops and parallel arcs in order, then no arcs.
const GRAPHS: [Case; 11] = [
    (
        b"c x\r\n\r\np\tsp 02 01\r\na  1\t2 007 ",
        Wanted::Graph(2, SEVEN),
    ),
    (b"p sp 2 1\na 1 2 7", Wanted::Graph(2, SEVEN)),
    (b"p sp 2 1\na 1 2 7\n", Wanted::Graph(2, SEVEN)),
    (b"p sp 2 1\r\na 1 2 7\r", Wanted::Graph(2, SEVEN)),
    (
        b"\n\r\n \t \r\ncomment\n\tp  sp\t2 1\n c \xff 1\n\na 1 2 7\nc\xfe\r",
        Wanted::Graph(2, SEVEN),
    ),
    (
        b"p sp 000000000000000000000000000002 1\na 01 02 00000000000000000000000000000007",
        Wanted::Graph(2, SEVEN),
    ),
    // A weight of 0.
    (b"p sp 2 1\na 1 2 000", Wanted::Graph(2, FREE)),
    // Loops and parallel arcs, in order.
    (
        b"p sp 2 4\na 1 1 12\na 1 2 9\na 1 2 4\nc\na 1 2 4294967295\n",
        Wanted::Graph(2, PARALLEL),
    ),
    // No arcs.
    (b"p sp 0 0", Wanted::Graph(0, &[])),
    (b"p sp 1 0\n", Wanted::Graph(1, &[])),
    (b"p sp 33554432 0\n", Wanted::Graph(33_554_432, &[])),
];

/// Places of lines.
const PLACES: [Case; 19] = [
    (b"", Wanted::Fault(GrErrorKind::NoProblemLine, 0)),
    (b"c\n\n", Wanted::Fault(GrErrorKind::NoProblemLine, 2)),
    (b"a 1 2 7", Wanted::Fault(GrErrorKind::NoProblemLine, 1)),
    (b"a", Wanted::Fault(GrErrorKind::NoProblemLine, 1)),
    (
        b"p sp 2 1\np sp 2 1\n",
        Wanted::Fault(GrErrorKind::SecondProblemLine, 2),
    ),
    (
        b"p sp 2 0\nc\np",
        Wanted::Fault(GrErrorKind::SecondProblemLine, 3),
    ),
    (
        b"p sp 2 2\na 1 2 7\n",
        Wanted::Fault(GrErrorKind::ArcCount, 2),
    ),
    (
        b"p sp 2 2\na 1 2 7\nc",
        Wanted::Fault(GrErrorKind::ArcCount, 3),
    ),
    (
        b"p sp 2 0\na 1 2 7\n",
        Wanted::Fault(GrErrorKind::ArcCount, 2),
    ),
    (b"p sp 2 0\na\n", Wanted::Fault(GrErrorKind::ArcCount, 2)),
    (
        b"p sp 0 134217728\n",
        Wanted::Fault(GrErrorKind::ArcCount, 1),
    ),
    (
        b"p sp 2 1\na 1 3 7",
        Wanted::Fault(GrErrorKind::NodeRange, 2),
    ),
    (
        b"p sp 2 1\na 3 1 0",
        Wanted::Fault(GrErrorKind::NodeRange, 2),
    ),
    (
        b"p sp 2 1\na 0 2 x",
        Wanted::Fault(GrErrorKind::NotANumber, 2),
    ),
    (
        b"p sp 2 1\na 1 2",
        Wanted::Fault(GrErrorKind::FieldCount, 2),
    ),
    (
        b"p sp 2 1\nab 1 2 7",
        Wanted::Fault(GrErrorKind::UnknownLine, 2),
    ),
    (b"p max 2 1", Wanted::Fault(GrErrorKind::UnknownLine, 1)),
    (
        b"p sp 33554433 134217729",
        Wanted::Fault(GrErrorKind::TooManyNodes, 1),
    ),
    (
        b"p sp 2 134217729",
        Wanted::Fault(GrErrorKind::TooManyArcs, 1),
    ),
];

const PAIRS: [Case; 14] = [
    (
        b"c\np aux sp p2p 3\r\nq 1 3\n\nq\t3 3\r\nc\nq 2 01 ",
        Wanted::Pairs(&[(0, 2), (2, 2), (1, 0)]),
    ),
    (b"p aux sp p2p 0", Wanted::Pairs(&[])),
    (b"", Wanted::Fault(GrErrorKind::NoProblemLine, 0)),
    (b"q 1 1", Wanted::Fault(GrErrorKind::NoProblemLine, 1)),
    (b"p sp 2 1", Wanted::Fault(GrErrorKind::FieldCount, 1)),
    (b"p aux sp sp 1", Wanted::Fault(GrErrorKind::UnknownLine, 1)),
    (b"p aux sp p2p x", Wanted::Fault(GrErrorKind::NotANumber, 1)),
    (
        b"p aux sp p2p 134217729",
        Wanted::Fault(GrErrorKind::TooManyArcs, 1),
    ),
    (
        b"p aux sp p2p 1\na 1 1 1",
        Wanted::Fault(GrErrorKind::UnknownLine, 2),
    ),
    (
        b"p aux sp p2p 1\nq 1 4",
        Wanted::Fault(GrErrorKind::NodeRange, 2),
    ),
    (
        b"p aux sp p2p 1\nq 0 1",
        Wanted::Fault(GrErrorKind::NodeRange, 2),
    ),
    (
        b"p aux sp p2p 2\nq 1 1\n",
        Wanted::Fault(GrErrorKind::ArcCount, 2),
    ),
    (
        b"p aux sp p2p 1\nq 1 1\nq",
        Wanted::Fault(GrErrorKind::ArcCount, 3),
    ),
    (
        b"p aux sp p2p 1\nq 1",
        Wanted::Fault(GrErrorKind::FieldCount, 2),
    ),
];

fn is_fault(e: GrError, wanted: Wanted) -> bool {
    match wanted {
        Wanted::Fault(kind, line) => e.kind == kind && e.line == line,
        _ => false,
    }
}

/// Whether a graph is this one.
fn is_that_graph(graph: &Graph, wanted: Wanted) -> bool {
    match wanted {
        Wanted::Graph(nodes, arcs) => graph.nodes() == nodes && graph.arcs() == arcs,
        _ => false,
    }
}

fn is_graph(answer: Result<Graph, GrError>, wanted: Wanted) -> bool {
    match answer {
        Ok(graph) => is_that_graph(&graph, wanted),
        Err(error) => is_fault(error, wanted),
    }
}

/// Whether pairs are these.
fn are_those_pairs(pairs: &[(u32, u32)], wanted: Wanted) -> bool {
    match wanted {
        Wanted::Pairs(expected) => pairs == expected,
        _ => false,
    }
}

fn are_pairs(answer: Result<Vec<(u32, u32)>, GrError>, wanted: Wanted) -> bool {
    match answer {
        Ok(pairs) => are_those_pairs(pairs.as_slice(), wanted),
        Err(error) => is_fault(error, wanted),
    }
}

/// Feeds a text that is cut at this place, and byte by byte after it where it says so.
fn feed_graph(reader: &mut GrReader, text: &[u8], at: usize, by_bytes: bool) -> Result<(), GrError>
    requires { at ≤ length text.now }
{
    reader.feed(&text[..at])?;
    if !by_bytes {
        return reader.feed(&text[at..]);
    }
    for byte in &text[at..] {
        reader.feed(&[*byte])?;
    }
    Ok(())
}

/// The same of a text of pairs.
fn feed_pairs(
    reader: &mut QueryReader,
    text: &[u8],
    at: usize,
    by_bytes: bool,
) -> Result<(), GrError>
    requires { at ≤ length text.now }
{
    reader.feed(&text[..at])?;
    if !by_bytes {
        return reader.feed(&text[at..]);
    }
    for byte in &text[at..] {
        reader.feed(&[*byte])?;
    }
    Ok(())
}

/// The graph of a text that is fed so.
fn graph_cut(alloc: Global, text: &[u8], at: usize, by_bytes: bool) -> Result<Graph, GrError>
    requires { at ≤ length text.now }
{
    let mut reader = GrReader::new(alloc);
    feed_graph(&mut reader, text, at, by_bytes)?;
    reader.finish()
}

/// The pairs of three nodes of a text that is fed so.
fn pairs_cut(
    alloc: Global,
    text: &[u8],
    at: usize,
    by_bytes: bool,
) -> Result<Vec<(u32, u32)>, GrError>
    requires { at ≤ length text.now }
{
    let mut reader = QueryReader::new(alloc, 3);
    feed_pairs(&mut reader, text, at, by_bytes)?;
    reader.finish()
}

/// Whether the graph's text is read as it is said, whole or cut in two at any place, and byte by byte.
fn is_read(alloc: Global, (text, want): Case) -> bool {
    for at in 0..text.len() {
        if !is_graph(graph_cut(alloc, text, at, false), want) {
            return false;
        }
    }
    is_graph(graph_cut(alloc, text, 0, true), want)
}

/// Whether each of these texts is read as it is said.
fn is_each_read(alloc: Global, cases: &[Case]) -> bool {
    for case in cases {
        if !is_read(alloc, *case) {
            return false;
        }
    }
    true
}

#[test]
fn graphs_however_cut(rt: HostRuntime) {
    assert!(rt; is_each_read(rt.alloc(), &GRAPHS));
    assert!(rt; is_each_read(rt.alloc(), &PLACES));
}

/// Whether the query file is read as expected, whole or cut in two at any place, and byte by byte.
fn are_read(alloc: Global, (text, want): Case) -> bool {
    for at in 0..text.len() {
        if !are_pairs(pairs_cut(alloc, text, at, false), want) {
            return false;
        }
    }
    are_pairs(pairs_cut(alloc, text, 0, true), want)
}

/// Whether each of these query files is read as expected.
fn are_each_read(alloc: Global, cases: &[Case]) -> bool {
    for case in cases {
        if !are_read(alloc, *case) {
            return false;
        }
    }
    true
}

#[test]
fn pairs_however_cut(rt: HostRuntime) {
    assert!(rt; are_each_read(rt.alloc(), &PAIRS));
}

/// More calls than any reader here gets.
const MANY: u64 = 1 << 40;

/// Whether a reader that fails at this call, 0 for none, is read so by this many calls.
fn is_read_so(alloc: Global, text: &[u8], fails_at: u32, calls: u64, wanted: Wanted) -> bool {
    let mut reader = Uneven::new(text, 3, u64::from(fails_at));
    is_graph(read_graph_within(alloc, &mut reader, calls), wanted)
}

/// Whether the faults of a reader that fails, or may not be called again, are of the lines that were reached.
fn fails_at_lines(alloc: Global) -> bool {
    let text = b"c\n\nc y\n".as_slice();
    for (fails_at, before, line) in [
        (1, 0, 1),
        (2, 1, 1),
        (4, 3, 2),
        (5, 4, 3),
        (10, 9, 3),
        (11, 10, 4),
    ] {
        let wanted = Wanted::Fault(GrErrorKind::Read, line);
        if !is_read_so(alloc, text, fails_at, MANY, wanted)
            || !is_read_so(alloc, text, 0, before, wanted)
        {
            return false;
        }
    }
    true
}

/// Whether the fault of a line is reported by readers that fail behind it, and not by ones that fail in that line. They
/// give a byte at each call, and are interrupted at each third one.
fn faults_come_before(alloc: Global) -> bool {
    let text = b"c\nx\nc y\n".as_slice();
    let in_line = is_read_so(alloc, text, 5, MANY, Wanted::Fault(GrErrorKind::Read, 2));
    let fault = Wanted::Fault(GrErrorKind::UnknownLine, 2);
    let behind = is_read_so(alloc, text, 6, MANY, fault) & is_read_so(alloc, text, 8, MANY, fault);
    in_line & behind & are_read_before(alloc)
}

/// The same of a query file.
fn are_read_before(alloc: Global) -> bool {
    let text = b"c\nx\nc y\n".as_slice();
    let mut in_line = Uneven::new(text, 3, 5);
    let mut behind = Uneven::new(text, 3, 6);
    let read = Wanted::Fault(GrErrorKind::Read, 2);
    let fault = Wanted::Fault(GrErrorKind::UnknownLine, 2);
    are_pairs(read_queries(alloc, &mut in_line, 1), read)
        & are_pairs(read_queries(alloc, &mut behind, 1), fault)
}

#[test]
fn faults_come_before_a_failed_read(rt: HostRuntime) {
    assert!(rt; faults_come_before(rt.alloc()));
}

#[test]
fn readers(rt: HostRuntime) {
    let seven = Wanted::Graph(2, SEVEN);
    assert!(rt; is_read_so(rt.alloc(), b"p sp 2 1\na 1 2 7\n", 0, MANY, seven));
    assert!(rt; fails_at_lines(rt.alloc()));
    let mut failing = Uneven::new(b"p aux sp p2p 0".as_slice(), 3, 2);
    let read = read_queries(rt.alloc(), &mut failing, 1);
    assert!(rt; are_pairs(read, Wanted::Fault(GrErrorKind::Read, 1)));
    let mut text = b"p sp 2 1\na 1 2 7\n".as_slice();
    assert!(rt; is_graph(read_graph(rt.alloc(), &mut text), seven));
    let mut text = b"p aux sp p2p 1\nq 2 1\n".as_slice();
    let read = read_queries(rt.alloc(), &mut text, 2);
    assert!(rt; are_pairs(read, Wanted::Pairs(&[(1, 0)])));
}

#[test]
fn printed_refusals(rt: HostRuntime) -> io::Result<()> {
    let e = GrError {
        kind: GrErrorKind::WeightTooBig,
        line: 12,
    };
    assert!(rt; e.to_string(rt.alloc())?.as_str() == "WeightTooBig line 12");
    assert!(rt; e.kind.to_string(rt.alloc())?.as_str() == "WeightTooBig");
    let numbers = (
        GrErrorKind::OutOfMemory as u8,
        GrErrorKind::NodeRange as u8,
        GrErrorKind::WeightTooBig as u8,
        GrErrorKind::ArcCount as u8,
    );
    assert!(rt; numbers == (1, 8, 10, 13));
    Ok(())
}
