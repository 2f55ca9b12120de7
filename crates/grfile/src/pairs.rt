ghost use Rattle.std.specs.Prelude.{◌≡◌, ◌&&◌, IfSome, codes};
ghost use Rattle.grfile.specs.PlainLines.{IsEntryBefore};
ghost use Rattle.std.specs.Str.{bytes_eq};
ghost use Rattle.grfile.specs.Pairs.{pair_grammar, pairs_size, count_in_range, pair_of, pair_in_range};

use crate::error::{GrError, GrErrorKind};
use crate::form::{Form, PlainLine, Size};
use crate::number::number_in;
use text_lines::{Fields, after_letter, number_before};

/// The query file: `p aux sp p2p K`, and then pairs `q S T`.
#[derive(Clone, Copy)]
pub(crate) struct Pairs {
    /// How many nodes there are.
    pub(crate) nodes: u32,
}

impl Form for Pairs {
    type Entry = (u32, u32);

    ghost grammar = { λ pairs. pair_grammar pairs.nodes };

    fn letter(self) -> u8 {
        b'q'
    }

    fn size(self, line: u64, fields: Fields<'_>) -> Result<Size, GrError> {
        pairs_size(self.nodes, line, fields)
    }

    fn entry(self, size: Size, line: u64, fields: Fields<'_>) -> Result<(u32, u32), GrError> {
        pair_of(size.nodes, line, fields)
    }

    fn plain(self, size: Size, line: u64, text: &[u8]) -> Option<PlainLine<'_, (u32, u32)>> {
        plain_pair(self.nodes, size, line, text)
    }
}

fn pairs_size(nodes: u32, line: u64, fields: Fields<'_>) -> Result<Size, GrError>
    ensures { result ≡ pairs_size nodes line fields.entry }
{
    let Some((first, second, third, count)) = fields.four() else {
        return Err(GrErrorKind::FieldCount.at(line));
    };
    if !is_point_to_point(first, second, third) {
        return Err(GrErrorKind::UnknownLine.at(line));
    }
    let count = number_in(line, count)?;
    count_in_range(nodes, line, count)
}

// Whether the words are those that name the problem of pairs.
fn is_point_to_point(first: &[u8], second: &[u8], third: &[u8]) -> bool
    ensures { result ≡ (bytes_eq first.now (codes "aux") && bytes_eq second.now (codes "sp") && bytes_eq third.now (codes "p2p")) }
{
    first == b"aux".as_slice() && second == b"sp".as_slice() && third == b"p2p".as_slice()
}

fn count_in_range(nodes: u32, line: u64, count: u64) -> Result<Size, GrError>
    ensures { result ≡ count_in_range nodes line count }
{
    if count > 1 << 27 {
        return Err(GrErrorKind::TooManyArcs.at(line));
    }
    Ok(Size {
        nodes,
        entries: count as u32,
    })
}

/// Returns the pair that the fields behind the letter of this line name, of a graph of this many nodes, or the line's
/// fault. The pair is numbered from 0. Takes no memory.
pub fn pair_of(nodes: u32, line: u64, fields: Fields<'_>) -> Result<(u32, u32), GrError>
    ensures { result ≡ pair_of nodes line fields.entry }
{
    let Some((source, target)) = fields.two() else {
        return Err(GrErrorKind::FieldCount.at(line));
    };
    let source = number_in(line, source)?;
    let target = number_in(line, target)?;
    pair_in_range(nodes, line, source, target)
}

fn pair_in_range(nodes: u32, line: u64, source: u64, target: u64) -> Result<(u32, u32), GrError>
    ensures { result ≡ pair_in_range nodes line source target }
{
    if source == 0 || source > u64::from(nodes) || target == 0 || target > u64::from(nodes) {
        return Err(GrErrorKind::NodeRange.at(line));
    }
    Ok(((source - 1) as u32, (target - 1) as u32))
}

// What the plain line `q S T` at the front of a text says, if there is one.
fn plain_pair(nodes: u32, size: Size, line: u64, text: &[u8]) -> Option<PlainLine<'_, (u32, u32)>>
    ensures { IfSome result (λ found. IsEntryBefore (pair_grammar nodes) size line text.now found.entry found.rest.now) }
{
    let numbers = after_letter(b'q', text)?;
    let source = number_before(b' ', numbers)?;
    let target = number_before(b'\n', source.rest)?;
    match pair_in_range(size.nodes, line, source.number, target.number) {
        Ok(entry) => Some(PlainLine {
            entry,
            rest: target.rest,
        }),
        Err(_) => None,
    }
}
