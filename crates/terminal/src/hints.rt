use crate::fields::{field, is, is_item, is_number, number_of};
use crate::look::Look;
use crate::shown::Shown;
use crate::sorts::{ARC, PAIR, file_of, text_of};
use grfile::GrErrorKind;
use std::io::Write;

/// What is known of a text that was refused.
#[derive(Clone, Copy)]
pub(crate) struct Text<'a> {
    /// Whether it is a query file, and not a graph.
    pub(crate) is_pairs: bool,
    /// Whether it is a part of standard input, with the other text.
    pub(crate) is_joined: bool,
    /// How many nodes there are, if that is known.
    pub(crate) nodes: Option<u64>,
    /// What a second look at it found.
    pub(crate) look: &'a Look,
}

const GRAPH: &str =
    "expected: a first line \"p sp N M\", then M lines \"a U V W\"; comment lines begin with c";

const PAIRS: &str =
    "expected: a first line \"p aux sp p2p K\", then K lines \"q S T\"; comment lines begin with c";

const NUMBERS: &str =
    "numbers are whole and not negative, written by digits alone, and a weight is 0 to 4294967295";

/// What is expected in place of a fault.
fn expected(fault: GrErrorKind, is_pairs: bool) -> &'static str {
    match fault {
        GrErrorKind::NotANumber if is_pairs => "a node is a number, written by digits alone",
        GrErrorKind::NotANumber => NUMBERS,
        GrErrorKind::NodeRange => "nodes are numbered from 1",
        GrErrorKind::SecondProblemLine => "a text has one line that begins with p",
        GrErrorKind::WeightTooBig => "a weight is at most 4294967295: scale all weights",
        GrErrorKind::TooManyNodes => "the limit is 33554432 nodes",
        GrErrorKind::TooManyArcs => "the limit is 134217728 arcs, or pairs",
        _ if is_pairs => PAIRS,
        _ => GRAPH,
    }
}

/// Writes what is wrong with a text that has this fault, what was expected, and what may be done.
pub(crate) fn hint<E: Write>(fault: GrErrorKind, text: &Text<'_>, call: &str, err: &mut E) {
    if let Some(other) = other_sort(text) {
        let _ = writeln!(err, "  this is {other}, and the call is {call}");
        return;
    }
    let is_said = match fault {
        GrErrorKind::NodeRange => hint_of_node(text, err),
        GrErrorKind::ArcCount => hint_of_count(text, err),
        _ => false,
    };
    if is_said {
        return;
    }
    if let Some(file) = file_of(text.look.head.as_slice()) {
        let _ = writeln!(err, "  this {file}");
    } else if let Some(remark) = remark(fault, text) {
        let _ = writeln!(err, "  {remark}");
    }
    let _ = writeln!(err, "  {}", expected(fault, text.is_pairs));
}

// What the file is, or the line with the fault, if that is of another sort than the text.
fn other_sort(text: &Text<'_>) -> Option<&'static str> {
    if text.look.head.as_slice().starts_with(b"RCH") {
        return Some("a hierarchy that prepare made");
    }
    let wanted = if text.is_pairs { PAIR } else { ARC };
    text_of(text.look.line.as_slice()).filter(|sort| *sort != wanted)
}

const RETURNS: &str = "lines end with a line feed, and here with a carriage return alone";

const SCALE: &str = "scale all weights, as seconds to milliseconds or metres to centimetres";

// What stands out in a text of lines that has this fault.
fn remark(fault: GrErrorKind, text: &Text<'_>) -> Option<&'static str> {
    let (head, line) = (text.look.head.as_slice(), text.look.line.as_slice());
    let has_commas = line.contains(&b',') || line.contains(&b';');
    if has_returns_alone(head) {
        return Some(RETURNS);
    }
    match fault {
        GrErrorKind::NoProblemLine | GrErrorKind::SecondProblemLine if text.is_joined => {
            Some("a line that is % alone ends the graph, and the pairs follow")
        }
        GrErrorKind::NoProblemLine if text.look.is_seen && head.is_empty() => {
            Some("the file is empty")
        }
        GrErrorKind::UnknownLine | GrErrorKind::FieldCount if has_commas => {
            Some("fields are separated by spaces or tabs")
        }
        GrErrorKind::UnknownLine if is_number(field(line, 0)) => {
            Some("this looks like a list without the letters that begin each line")
        }
        GrErrorKind::NotANumber if line.contains(&b'-') => {
            Some("shortest paths need weights that aren't negative")
        }
        GrErrorKind::NotANumber if line.contains(&b'.') || has_commas => Some(SCALE),
        GrErrorKind::NodeRange if is(field(line, 1), "0") || is(field(line, 2), "0") => {
            Some("this file seems to number its nodes from 0")
        }
        _ => None,
    }
}

// Whether a text has the ends of lines that old systems had. Its last byte may be the first of two.
fn has_returns_alone(head: &[u8]) -> bool {
    let Some((_, before)) = head.split_last() else {
        return false;
    };
    before.contains(&b'\r') && !head.contains(&b'\n')
}

// Says which node of the line isn't there, if one is too great; whether it did.
fn hint_of_node<E: Write>(text: &Text<'_>, err: &mut E) -> bool {
    let Some(nodes) = text.nodes else {
        return false;
    };
    for place in 1..3usize {
        let node = field(text.look.line.as_slice(), place);
        if is(node, "0") {
            return false;
        }
        if number_of(node).unwrap_or(u64::MAX) > nodes {
            let (node, problem) = (Shown(node), Shown(text.look.problem.as_slice()));
            let _ = writeln!(err, "  node {node} isn't there: nodes are 1 to {nodes}");
            let _ = if text.is_pairs {
                writeln!(err, "  are these pairs for another network?")
            } else {
                writeln!(err, "  the line \"{problem}\" announces {nodes} nodes")
            };
            return true;
        }
    }
    false
}

// Says how many items there are and were announced, if the text could be seen; whether it did.
fn hint_of_count<E: Write>(text: &Text<'_>, err: &mut E) -> bool {
    let (place, item) = if text.is_pairs {
        (4, "q S T")
    } else {
        (3, "a U V W")
    };
    let wanted = number_of(field(text.look.problem.as_slice(), place)).unwrap_or(0);
    let last = u64::from(is_item(text.look.line.as_slice()));
    let found = text.look.items.saturating_add(last);
    let _ = if !text.look.is_seen {
        Ok(())
    } else if found > wanted {
        writeln!(
            err,
            "  this is one more than the {wanted} announced \"{item}\""
        )
    } else {
        writeln!(
            err,
            "  the text ends after {found} of {wanted} \"{item}\": is it cut?"
        )
    };
    text.look.is_seen
}
