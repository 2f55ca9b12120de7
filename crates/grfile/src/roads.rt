ghost use Rattle.std.specs.Prelude.{◌≡◌, IfSome};
ghost use Rattle.grfile.specs.PlainLines.{IsEntryBefore};
ghost use Rattle.grfile.specs.Roads.{graph_grammar, graph_size, size_in_range, road_of, road_in_range};

use crate::error::{GrError, GrErrorKind};
use crate::form::{Form, PlainLine, Size};
use crate::number::number_in;
use ch_graph::Road;
use text_lines::{Fields, after_letter, number_before};

/// The text of a graph: `p sp N M`, and then arcs `a U V W`.
#[derive(Clone, Copy)]
pub(crate) struct Roads;

impl Form for Roads {
    type Entry = Road;

    ghost grammar = { λ _. graph_grammar };

    fn letter(self) -> u8 {
        b'a'
    }

    fn size(self, line: u64, fields: Fields<'_>) -> Result<Size, GrError> {
        graph_size(line, fields)
    }

    fn entry(self, size: Size, line: u64, fields: Fields<'_>) -> Result<Road, GrError> {
        road_of(size.nodes, line, fields)
    }

    fn plain(self, size: Size, line: u64, text: &[u8]) -> Option<PlainLine<'_, Road>> {
        plain_road(size, line, text)
    }
}

fn graph_size(line: u64, fields: Fields<'_>) -> Result<Size, GrError>
    ensures { result ≡ graph_size line fields.entry }
{
    let Some((word, nodes, arcs)) = fields.three() else {
        return Err(GrErrorKind::FieldCount.at(line));
    };
    if word != b"sp".as_slice() {
        return Err(GrErrorKind::UnknownLine.at(line));
    }
    let nodes = number_in(line, nodes)?;
    let arcs = number_in(line, arcs)?;
    size_in_range(line, nodes, arcs)
}

fn size_in_range(line: u64, nodes: u64, arcs: u64) -> Result<Size, GrError>
    ensures { result ≡ size_in_range line nodes arcs }
{
    if nodes > 1 << 25 {
        return Err(GrErrorKind::TooManyNodes.at(line));
    }
    if arcs > 1 << 27 {
        return Err(GrErrorKind::TooManyArcs.at(line));
    }
    Ok(Size {
        nodes: nodes as u32,
        entries: arcs as u32,
    })
}

fn road_of(nodes: u32, line: u64, fields: Fields<'_>) -> Result<Road, GrError>
    ensures { result ≡ road_of nodes line fields.entry }
{
    let Some((from, to, weight)) = fields.three() else {
        return Err(GrErrorKind::FieldCount.at(line));
    };
    let from = number_in(line, from)?;
    let to = number_in(line, to)?;
    let weight = number_in(line, weight)?;
    road_in_range(nodes, line, from, to, weight)
}

fn road_in_range(nodes: u32, line: u64, from: u64, to: u64, weight: u64) -> Result<Road, GrError>
    ensures { result ≡ road_in_range nodes line from to weight }
{
    if from == 0 || from > u64::from(nodes) || to == 0 || to > u64::from(nodes) {
        return Err(GrErrorKind::NodeRange.at(line));
    }
    if weight > u64::from(u32::MAX) {
        return Err(GrErrorKind::WeightTooBig.at(line));
    }
    Ok(Road {
        from: (from - 1) as u32,
        to: (to - 1) as u32,
        weight: weight as u32,
    })
}

// What the plain line `a U V W` at the front of a text says, if there is one.
fn plain_road(size: Size, line: u64, text: &[u8]) -> Option<PlainLine<'_, Road>>
    ensures { IfSome result (λ found. IsEntryBefore graph_grammar size line text.now found.entry found.rest.now) }
{
    let numbers = after_letter(b'a', text)?;
    let from = number_before(b' ', numbers)?;
    let to = number_before(b' ', from.rest)?;
    let weight = number_before(b'\n', to.rest)?;
    match road_in_range(size.nodes, line, from.number, to.number, weight.number) {
        Ok(entry) => Some(PlainLine {
            entry,
            rest: weight.rest,
        }),
        Err(_) => None,
    }
}
