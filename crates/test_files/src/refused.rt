//! What the readers and the queries over a file return where one growth is refused: `tests/program/refusals` runs each test
//! once for each of its growths.
//!
//! A call that runs out of memory is made again, and has to give what it gives with ample memory. A growth of what a
//! test sets up ends the test with that error.
mod graphs;
mod routers;

ghost use Rattle.std.specs.Prelude.{◌≡◌, ◌<◌, length, IfOk, IfSome};
ghost use Rattle.ch_graph.specs.Unfolding.{Joined};

use crate::files::{
    BY_WAY_OF_0, BY_WAY_OF_0_1, MAGIC, MAGIC_1, ONE_ARC, ONE_ARC_1, ROW, ROW_1, bytes, cascade,
};
use ch_cost::Cost;
use ch_graph::{Graph, Hierarchy, LinkId, Road};
use ch_query::{Found, Search};
use ch_unpack::{UnpackError, unpack};
use grfile::{GrError, GrErrorKind, GrReader, QueryReader, read_graph_within, read_queries_within};
use hierfile::{HierError, read_within};
use std::alloc::{AllocError, Global};
use std::test::Fail;
use test_kit::Uneven;

/// More calls than any reader here gets.
const MANY: u64 = 1 << 40;

/// Readers that give a byte at each call: which calls are interrupted, by a number that divides theirs, which one fails, 0
/// for none, and how many there may be. Of one each call is interrupted, and the other fails at its second.
const FAILING: [(u64, u64, u64); 2] = [(1, 0, 3), (3, 2, MANY)];

/// The kind and the line of a fault, or none.
type Fault = Option<(GrErrorKind, u64)>;

/// Texts of graphs, each with the fault that it has or none: that of one arc, with blanks and line ends, and others.
const GRAPHS: [(&[u8], Fault); 14] = [
    (b"c x\r\n\r\np\tsp 02 01\r\na  1\t2 007 ", None),
    (b"", Some((GrErrorKind::NoProblemLine, 0))),
    (b"a 1 2 7", Some((GrErrorKind::NoProblemLine, 1))),
    (
        b"p sp 2 1\np sp 2 1\n",
        Some((GrErrorKind::SecondProblemLine, 2)),
    ),
    (b"p sp 2 1\na 1 2\n", Some((GrErrorKind::FieldCount, 2))),
    (b"p sp 2 1\na 1 2 x\n", Some((GrErrorKind::NotANumber, 2))),
    (
        b"p sp 2 1\na 1 2 4294967296\n",
        Some((GrErrorKind::WeightTooBig, 2)),
    ),
    (b"p sp 33554433 0\n", Some((GrErrorKind::TooManyNodes, 1))),
    (b"p sp 2 134217729\n", Some((GrErrorKind::TooManyArcs, 1))),
    (b"p sp 2 0\na 1 2 7\n", Some((GrErrorKind::ArcCount, 2))),
    (b"p sp 2 1\nb 1 2 7\n", Some((GrErrorKind::UnknownLine, 2))),
    (b"p sp 2 1\na 1 3 7\n", Some((GrErrorKind::NodeRange, 2))),
    (b"p sp 2 2\na 1 2 7\n", Some((GrErrorKind::ArcCount, 2))),
    (b"p max 2 1\nccc", Some((GrErrorKind::UnknownLine, 1))),
];

/// Texts of pairs of three nodes: that of the pair of 2 and 1, and others.
const PAIRS: [(&[u8], Fault); 8] = [
    (b"p aux sp p2p 1\nq 2 1\n", None),
    (b"c\np aux sp p2p 1\r\n\nq\t02 01 ", None),
    (b"p aux sp sp 1\n", Some((GrErrorKind::UnknownLine, 1))),
    (
        b"p aux sp p2p 1\na 1 1 1\n",
        Some((GrErrorKind::UnknownLine, 2)),
    ),
    (b"p sp 2 1\n", Some((GrErrorKind::FieldCount, 1))),
    (b"p aux sp p2p 1\nq 1\n", Some((GrErrorKind::FieldCount, 2))),
    (
        b"p aux sp p2p 1\nq 1 4\n",
        Some((GrErrorKind::NodeRange, 2)),
    ),
    (b"p aux sp p2p 2\nq 1 1\n", Some((GrErrorKind::ArcCount, 2))),
];

/// Files, as numbers of four bytes, each with what it is refused for or none: a row of three nodes with a shortcut by
/// way of the first, in both versions, with a wrong sum of the halves, and cut after its ranks.
const FILES: [(&[u32], Option<HierError>); 4] = [
    (&ROW, None),
    (&ROW_1, None),
    (
        &[
            MAGIC,
            3,
            0,
            3,
            0,
            6,
            0,
            1,
            2,
            0,
            2,
            0,
            3,
            1,
            u32::MAX,
            1,
            0,
            0,
            2,
            1,
            u32::MAX,
            1,
            2,
            0,
            4,
            2,
            0,
        ],
        Some(HierError::HalfSum),
    ),
    (&[MAGIC, 3, 0, 3, 0, 6, 0, 1, 2], Some(HierError::Truncated)),
];

/// Whether memory ran out.
fn lacks_memory(fault: Fault) -> bool {
    matches!(fault, Some((GrErrorKind::OutOfMemory, _)))
}

/// The fault of a result; where another graph was read than that of one arc, a fault that no text has.
fn graph_fault(answer: Result<Graph, GrError>) -> Fault {
    let (from, to, weight) = (0, 1, 7);
    match answer {
        Ok(graph) if graph.arcs() == [Road { from, to, weight }].as_slice() => None,
        Ok(_) => Some((GrErrorKind::Read, 0)),
        Err(error) => Some((error.kind, error.line)),
    }
}

/// The fault of a result; where other pairs were read than that of 2 and 1, a fault that no text has.
fn pairs_fault(answer: Result<Vec<(u32, u32)>, GrError>) -> Fault {
    match answer {
        Ok(pairs) if pairs.as_slice() == [(1, 0)].as_slice() => None,
        Ok(_) => Some((GrErrorKind::Read, 0)),
        Err(error) => Some((error.kind, error.line)),
    }
}

/// Feeds a text in pieces of five bytes. What is refused once has to be refused so again.
fn feed_graph(reader: &mut GrReader, text: &[u8]) -> Result<(), GrError> {
    for piece in text.chunks(5) {
        if let Err(error) = reader.feed(piece) {
            return if reader.feed(b"\n") == Err(error) {
                Ok(())
            } else {
                Err(GrError { line: 0, ..error })
            };
        }
    }
    Ok(())
}

/// The same of pairs.
fn feed_pairs(reader: &mut QueryReader, text: &[u8]) -> Result<(), GrError> {
    for piece in text.chunks(5) {
        if let Err(error) = reader.feed(piece) {
            return if reader.feed(b"\n") == Err(error) {
                Ok(())
            } else {
                Err(GrError { line: 0, ..error })
            };
        }
    }
    Ok(())
}

/// The graph of a text that is fed in pieces.
fn graph_in_pieces(alloc: Global, text: &[u8]) -> Result<Graph, GrError> {
    let mut reader = GrReader::new(alloc);
    feed_graph(&mut reader, text)?;
    reader.finish()
}

/// The pairs of a text that is fed in pieces.
fn pairs_in_pieces(alloc: Global, text: &[u8]) -> Result<Vec<(u32, u32)>, GrError> {
    let mut reader = QueryReader::new(alloc, 3);
    feed_pairs(&mut reader, text)?;
    reader.finish()
}

/// How a text is read: as a graph or as pairs, fed in pieces, by a reader of it, or by one that fails.
#[derive(Clone, Copy)]
enum Way {
    GraphInPieces,
    PairsInPieces,
    Graph,
    Pairs,
    GraphFailing(u64, u64, u64),
    PairsFailing(u64, u64, u64),
}

/// The fault of a text.
fn fault_once(alloc: Global, mut text: &[u8], way: Way) -> Fault {
    match way {
        Way::GraphInPieces => graph_fault(graph_in_pieces(alloc, text)),
        Way::PairsInPieces => pairs_fault(pairs_in_pieces(alloc, text)),
        Way::Graph => graph_fault(read_graph_within(alloc, &mut text, MANY)),
        Way::Pairs => pairs_fault(read_queries_within(alloc, &mut text, 3, MANY)),
        Way::GraphFailing(interrupted, fails_at, calls) => {
            let mut failing = Uneven::new(text, interrupted, fails_at);
            graph_fault(read_graph_within(alloc, &mut failing, calls))
        }
        Way::PairsFailing(interrupted, fails_at, calls) => {
            let mut failing = Uneven::new(text, interrupted, fails_at);
            pairs_fault(read_queries_within(alloc, &mut failing, 3, calls))
        }
    }
}

/// Whether a text has this fault; where memory runs out it is read again.
fn has_fault(alloc: Global, text: &[u8], way: Way, fault: Fault) -> bool {
    let once = fault_once(alloc, text, way);
    if lacks_memory(once) {
        fault_once(alloc, text, way) == fault
    } else {
        once == fault
    }
}

/// Whether each of these texts has its fault.
fn have_faults(alloc: Global, cases: &[(&[u8], Fault)], way: Way) -> bool {
    for (text, fault) in cases {
        if !has_fault(alloc, text, way, *fault) {
            return false;
        }
    }
    true
}

#[test]
fn graph_reader(rt: HostRuntime) {
    assert!(rt; have_faults(rt.alloc(), &GRAPHS, Way::GraphInPieces));
}

#[test]
fn query_reader(rt: HostRuntime) {
    assert!(rt; have_faults(rt.alloc(), &PAIRS, Way::PairsInPieces));
}

#[test]
fn read_graph(rt: HostRuntime) {
    assert!(rt; have_faults(rt.alloc(), &GRAPHS, Way::Graph));
    for (interrupted, fails_at, calls) in FAILING {
        let way = Way::GraphFailing(interrupted, fails_at, calls);
        let read = Some((GrErrorKind::Read, 1));
        assert!(rt; has_fault(rt.alloc(), b"p sp 2 1\na 1 2 7\n", way, read));
    }
}

#[test]
fn read_queries(rt: HostRuntime) {
    assert!(rt; have_faults(rt.alloc(), &PAIRS, Way::Pairs));
    for (interrupted, fails_at, calls) in FAILING {
        let way = Way::PairsFailing(interrupted, fails_at, calls);
        let read = Some((GrErrorKind::Read, 1));
        assert!(rt; has_fault(rt.alloc(), b"p aux sp p2p 1\nq 2 1\n", way, read));
    }
}

/// Feeds a problem line of another problem and then a long line in pieces, and returns the last result.
fn feed_long_line(reader: &mut GrReader) -> Result<(), GrError> {
    let mut answer = reader.feed(b"p max 2 1");
    if answer.is_ok() {
        answer = reader.feed(b"\n");
    }
    let piece = [b'c'; 1000];
    for _ in 0..1000 {
        answer = reader.feed(piece.as_slice());
    }
    answer
}

/// The last result of a reader that is fed so.
fn long_line(alloc: Global) -> Result<Graph, GrError> {
    let mut reader = GrReader::new(alloc);
    feed_long_line(&mut reader)?;
    reader.finish()
}

/// Returns the fault of the first line, or out of memory for that line and then its fault; never out of memory for the
/// second.
#[test]
fn before_a_long_line(rt: HostRuntime) {
    let mut fault = graph_fault(long_line(rt.alloc()));
    if fault == Some((GrErrorKind::OutOfMemory, 1)) {
        fault = graph_fault(long_line(rt.alloc()));
    }
    assert!(rt; fault == Some((GrErrorKind::UnknownLine, 1)));
}

/// A text in two pieces, and the first and last line that may run out of memory.
type Wanting = (&'static [u8], &'static [u8], u64, u64);

/// Texts of graphs without a fault, each in two pieces, and the first and last line that may run out of memory: those of
/// arcs, and those in which a piece ends.
const WANTING: [Wanting; 4] = [
    (b"c\nc\n\np sp 2 2\na 1 2 7\na 2 1 7\n", b"c\n", 5, 6),
    (b"c\nc\np sp 2", b" 0\nc\nc\n", 3, 3),
    (b"c\np sp 2 0\n", b"c\nc\nc x", 5, 5),
    (b"p sp 2 1\na 1 2", b" 7\nc\nc\n", 2, 2),
];

/// The same of query files for three nodes.
const PAIRS_WANTING: [Wanting; 2] = [
    (b"c\n\np aux sp p2p 2\nq 1 2\nq 2 1\n", b"c\n", 4, 5),
    (b"c\nc\np aux", b" sp p2p 0\nc\nc\n", 3, 3),
];

/// Whether nothing was refused, or memory for one of these lines and nothing where it is read again.
fn is_within(refused: Option<GrError>, again: Option<GrError>, first: u64, last: u64) -> bool {
    match refused {
        None => true,
        Some(
            GrError {
                kind: GrErrorKind::OutOfMemory,
                line,
            },
        ) => first <= line && line <= last && again.is_none(),
        Some(_) => false,
    }
}

/// Feeds a text of a graph in two pieces.
fn feed_two(reader: &mut GrReader, first: &[u8], second: &[u8]) -> Result<(), GrError> {
    reader.feed(first)?;
    reader.feed(second)
}

/// Why a text of a graph in two pieces is refused.
fn graph_refusal(alloc: Global, first: &[u8], second: &[u8]) -> Option<GrError> {
    let mut reader = GrReader::new(alloc);
    let fed = feed_two(&mut reader, first, second);
    let finished = reader.finish().err();
    fed.err().or(finished)
}

/// Feeds a text of pairs in two pieces.
fn feed_two_of_pairs(reader: &mut QueryReader, first: &[u8], second: &[u8]) -> Result<(), GrError> {
    reader.feed(first)?;
    reader.feed(second)
}

/// Why a text of pairs in two pieces is refused.
fn pairs_refusal(alloc: Global, first: &[u8], second: &[u8]) -> Option<GrError> {
    let mut reader = QueryReader::new(alloc, 3);
    let fed = feed_two_of_pairs(&mut reader, first, second);
    let finished = reader.finish().err();
    fed.err().or(finished)
}

/// Whether graphs run out of memory in their lines alone.
fn graphs_are_within(alloc: Global, cases: &[Wanting]) -> bool {
    for (text, rest, first, last) in cases {
        let refused = graph_refusal(alloc, text, rest);
        let again = graph_refusal(alloc, text, rest);
        if !is_within(refused, again, *first, *last) {
            return false;
        }
    }
    true
}

/// The same of pairs.
fn pairs_are_within(alloc: Global, cases: &[Wanting]) -> bool {
    for (text, rest, first, last) in cases {
        let refused = pairs_refusal(alloc, text, rest);
        let again = pairs_refusal(alloc, text, rest);
        if !is_within(refused, again, *first, *last) {
            return false;
        }
    }
    true
}

#[test]
fn lines_that_take_memory(rt: HostRuntime) {
    assert!(rt; graphs_are_within(rt.alloc(), &WANTING));
    assert!(rt; pairs_are_within(rt.alloc(), &PAIRS_WANTING));
}

/// Why a file is refused, or `None`; where it runs out of memory it is read again.
fn file_fault(alloc: Global, bytes: &[u8]) -> Option<HierError> {
    let fault = read_within(alloc, &mut { bytes }, MANY).err();
    if fault == Some(HierError::OutOfMemory) {
        read_within(alloc, &mut { bytes }, MANY).err()
    } else {
        fault
    }
}

/// The same of a reader that fails.
fn failing_fault(
    alloc: Global,
    bytes: &[u8],
    (interrupted, fails_at, calls): (u64, u64, u64),
) -> Option<HierError> {
    let fault = read_within(alloc, &mut Uneven::new(bytes, interrupted, fails_at), calls).err();
    if fault == Some(HierError::OutOfMemory) {
        read_within(alloc, &mut Uneven::new(bytes, interrupted, fails_at), calls).err()
    } else {
        fault
    }
}

/// Whether each of these files has its fault.
fn files_have_faults(
    alloc: Global,
    cases: &[(&[u32], Option<HierError>)],
) -> Result<bool, AllocError> {
    for (words, fault) in cases {
        let bytes = bytes(alloc, words)?;
        if file_fault(alloc, &bytes) != *fault {
            return Ok(false);
        }
    }
    Ok(true)
}

/// Whether the row isn't read by readers that fail.
fn row_is_not_read(alloc: Global) -> Result<bool, AllocError> {
    let row = bytes(alloc, &ROW)?;
    let [interrupted, failing] = FAILING.map(|failing| failing_fault(alloc, &row, failing));
    Ok((interrupted == Some(HierError::Read)) & (failing == Some(HierError::Read)))
}

#[test]
fn read_file(rt: HostRuntime) -> Result<(), Fail> {
    assert!(rt; files_have_faults(rt.alloc(), &FILES)?);
    assert!(rt; row_is_not_read(rt.alloc())?);
    Ok(())
}

/// Of 38 nodes each two are linked.
#[test]
fn read_a_cascade(rt: HostRuntime) -> Result<(), Fail> {
    let alloc = rt.alloc();
    let words = cascade(alloc, MAGIC_1)?;
    let bytes = bytes(alloc, &words)?;
    assert!(rt; file_fault(alloc, &bytes).is_none());
    Ok(())
}

/// The hierarchy of a file of these numbers.
fn hierarchy_of(alloc: Global, words: &[u32]) -> Result<Hierarchy, Fail> {
    let bytes = bytes(alloc, words)?;
    Ok(read_within(alloc, &mut bytes.as_slice(), MANY)?)
}

/// Whether a search of the hierarchy is made.
fn is_made(alloc: Global, hierarchy: &Hierarchy) -> bool {
    Search::new(alloc, hierarchy).is_ok()
}

/// The same of a file.
fn is_made_of(alloc: Global, words: &[u32]) -> Result<bool, Fail> {
    let hierarchy = hierarchy_of(alloc, words)?;
    Ok(is_made(alloc, &hierarchy) || is_made(alloc, &hierarchy))
}

#[test]
fn search(rt: HostRuntime) -> Result<(), Fail> {
    let cascade = cascade(rt.alloc(), MAGIC_1)?;
    for words in [ONE_ARC.as_slice(), ROW.as_slice(), cascade.as_slice()] {
        assert!(rt; is_made_of(rt.alloc(), words)?);
    }
    Ok(())
}

/// A search's result; where memory runs out it is made again.
fn found(search: &mut Search, source: u32, target: u32) -> Result<Option<Found>, AllocError>
    requires source_in { source < length search.old.ranks }
    requires target_in { target < length search.old.ranks }
    ensures joined { IfOk result (λ found. IfSome found (λ f. Joined search.old source f.links.items)) }
    ensures kept { search.new ≡ search.old }
{
    match search.distance(source, target) {
        Ok(found) => Ok(found),
        Err(AllocError) => search.distance(source, target),
    }
}

/// The nodes of links; where memory runs out they are asked for again.
fn nodes_of(
    alloc: Global,
    hierarchy: &Hierarchy,
    source: u32,
    links: &[LinkId],
) -> Result<Vec<u32>, UnpackError>
    requires source_in { source < length hierarchy.now.ranks }
    requires joined { Joined hierarchy.now source links.now }
{
    match unpack(alloc, hierarchy, source, links) {
        Ok(nodes) => Ok(nodes),
        Err(UnpackError::OutOfMemory) => unpack(alloc, hierarchy, source, links),
        Err(error) => Err(error),
    }
}

/// Whether links from 1 lead by way of 0 to 2.
fn are_round(alloc: Global, hierarchy: &Hierarchy, links: &[LinkId]) -> Result<bool, UnpackError>
    requires source_in { 1 < length hierarchy.now.ranks }
    requires joined { Joined hierarchy.now 1 links.now }
{
    let nodes = nodes_of(alloc, hierarchy, 1, links)?;
    Ok(nodes.as_slice() == [1u32, 0, 2].as_slice())
}

/// Whether a walk from 1 to 2 of three nodes is found, costs this, and leads by way of 0.
fn goes_round(
    alloc: Global,
    hierarchy: &Hierarchy,
    search: &mut Search,
    cost: Cost,
) -> Result<bool, Fail>
    requires same { search.old ≡ hierarchy.now }
    requires three { length hierarchy.now.ranks ≡ 3 }
    ensures kept { search.new ≡ search.old }
{
    match found(search, 1, 2)? {
        Some(walk) => { Ok((walk.cost == cost) & are_round(alloc, hierarchy, &walk.links)?) }
        None => Ok(false),
    }
}

/// Whether no walk is found between two nodes.
fn finds_none(search: &mut Search, source: u32, target: u32) -> Result<bool, AllocError>
    requires source_in { source < length search.old.ranks }
    requires target_in { target < length search.old.ranks }
{
    Ok(found(search, source, target)?.is_none())
}

/// Whether such a walk is found from 1 to 2 of three nodes, and none from 2 to 1.
fn goes_one_way(
    alloc: Global,
    hierarchy: &Hierarchy,
    search: &mut Search,
    cost: Cost,
) -> Result<bool, Fail>
    requires same { search.old ≡ hierarchy.now }
    requires three { length hierarchy.now.ranks ≡ 3 }
{
    let goes_round = goes_round(alloc, hierarchy, search, cost)?;
    Ok(goes_round & finds_none(search, 2, 1)?)
}

/// Whether there are three nodes, and a search goes one way, at this cost.
fn is_one_way(alloc: Global, hierarchy: &Hierarchy, cost: Cost) -> Result<bool, Fail> {
    if hierarchy.nodes() != 3 {
        return Ok(false);
    }
    let mut search = Search::new(alloc, hierarchy)?;
    goes_one_way(alloc, hierarchy, &mut search, cost)
}

/// Whether the row of a file is one way, at this cost.
fn row_is_one_way(alloc: Global, words: &[u32], cost: Cost) -> Result<bool, Fail> {
    let hierarchy = hierarchy_of(alloc, words)?;
    is_one_way(alloc, &hierarchy, cost)
}

#[test]
fn query_and_route(rt: HostRuntime) -> Result<(), Fail> {
    assert!(rt; row_is_one_way(rt.alloc(), &ROW, Cost::of_walk(5, 2))?);
    assert!(rt; row_is_one_way(rt.alloc(), &ROW_1, Cost::of_walk(5, 0))?);
    Ok(())
}

/// A search's results for a file of one arc.
fn goes_by_one_arc(search: &mut Search, cost: Cost) -> Result<bool, AllocError>
    requires two { length search.old.ranks ≡ 2 }
{
    let is_there = match found(search, 0, 1)? {
        Some(walk) => (walk.cost == cost) & (walk.links.as_slice() == [LinkId(0)].as_slice()),
        None => false,
    };
    Ok(is_there & finds_none(search, 1, 0)?)
}

/// Whether there are two nodes, and a search finds the arc, at this cost, and no way back.
fn has_one_arc(alloc: Global, hierarchy: &Hierarchy, cost: Cost) -> Result<bool, AllocError> {
    if hierarchy.nodes() != 2 {
        return Ok(false);
    }
    let mut search = Search::new(alloc, hierarchy)?;
    goes_by_one_arc(&mut search, cost)
}

/// The same of a file.
fn is_one_arc(alloc: Global, words: &[u32], cost: Cost) -> Result<bool, Fail> {
    let hierarchy = hierarchy_of(alloc, words)?;
    Ok(has_one_arc(alloc, &hierarchy, cost)?)
}

#[test]
fn query_of_one_arc(rt: HostRuntime) -> Result<(), Fail> {
    assert!(rt; is_one_arc(rt.alloc(), &ONE_ARC, Cost::of_walk(7, 1))?);
    assert!(rt; is_one_arc(rt.alloc(), &ONE_ARC_1, Cost::of_walk(7, 0))?);
    Ok(())
}

/// Two nodes, the cost of the least walk between them, and how many links it has.
#[derive(Clone, Copy)]
struct Long {
    source: u32,
    target: u32,
    cost: Cost,
    links: usize,
}

/// Whether this walk is found, and has too many arcs for a route.
fn is_too_long(
    alloc: Global,
    hierarchy: &Hierarchy,
    search: &mut Search,
    long: Long,
) -> Result<bool, Fail>
    requires same { search.old ≡ hierarchy.now }
    requires source_in { long.source < length hierarchy.now.ranks }
    requires target_in { long.target < length hierarchy.now.ranks }
{
    let Some(walk) = found(search, long.source, long.target)? else {
        return Ok(false);
    };
    let is_long = nodes_of(alloc, hierarchy, long.source, &walk.links).err()
        == Some(UnpackError::TooLong);
    Ok(is_long & (walk.cost == long.cost) & (walk.links.len() == long.links))
}

/// Whether there are these nodes, and a search finds such a walk.
fn goes_too_far(alloc: Global, hierarchy: &Hierarchy, long: Long) -> Result<bool, Fail> {
    if long.source >= hierarchy.nodes() || long.target >= hierarchy.nodes() {
        return Ok(false);
    }
    let mut search = Search::new(alloc, hierarchy)?;
    is_too_long(alloc, hierarchy, &mut search, long)
}

/// The same of a file.
fn has_too_long(alloc: Global, words: &[u32], long: Long) -> Result<bool, Fail> {
    let hierarchy = hierarchy_of(alloc, words)?;
    goes_too_far(alloc, &hierarchy, long)
}

/// Whether a walk from 1 to 3 that goes over node 0 twice, of this cost, is too long.
fn goes_over_0_twice(alloc: Global, words: &[u32], cost: Cost) -> Result<bool, Fail> {
    let (source, target, links) = (1, 3, 2);
    let long = Long {
        source,
        target,
        cost,
        links,
    };
    has_too_long(alloc, words, long)
}

#[test]
fn too_long_a_route(rt: HostRuntime) -> Result<(), Fail> {
    assert!(rt; goes_over_0_twice(rt.alloc(), &BY_WAY_OF_0, Cost::of_walk(4, 4))?);
    assert!(rt; goes_over_0_twice(rt.alloc(), &BY_WAY_OF_0_1, Cost::of_walk(4, 0))?);
    Ok(())
}

/// Of 38 nodes each two are linked, and the link from 37 to 36 represents 2^36 arcs.
#[test]
fn one_link_for_too_long_a_route(rt: HostRuntime) -> Result<(), Fail> {
    let words = cascade(rt.alloc(), MAGIC_1)?;
    let (source, target, cost, links) = (37, 36, Cost::of_walk(1 << 36, 0), 1);
    let long = Long {
        source,
        target,
        cost,
        links,
    };
    assert!(rt; has_too_long(rt.alloc(), &words, long)?);
    Ok(())
}
