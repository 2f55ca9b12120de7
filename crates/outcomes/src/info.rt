ghost use Rattle.std.specs.Prelude.{◌≡◌, ◌++◌, ℕ, List, length, OnOk, IfOk, IfErr, IfSome};
ghost use Rattle.std.specs.Io.KnownBytes.{Appends};
ghost use Rattle.hierfile.specs.Spelling.{bytes_of};
ghost use Rattle.outcomes.specs.Info.{fact, info, Informs, RefusesInfo};

use crate::cause::Cause;
use ch_graph::Hierarchy;
use counted_io::{MOST_CALLS, WriteCalls};
use itoa::{Buffer, Integer};
use std::alloc::{AllocError, Global};
use std::io::{Read, Write};

/// How many bytes of a file come before the ranks: the magic, the numbers of nodes and links, and the bound.
const HEAD: u128 = 24;

/// How many bytes a rank has.
const RANK: u128 = 4;

/// Writes what a hierarchy file has: its version, how many nodes and links, its bound, and how many bytes, each on a line
/// behind its name.
///
/// `hier` gives the file. It is read to its end, and refused where [`hierfile::read`] refuses it. Takes the time and memory
/// of that call, and memory for about a hundred bytes of text.
pub fn write_info<H: Read, W: Write>(alloc: Global, hier: &mut H, out: &mut W) -> Result<(), Cause>
    ensures informs { OnOk result (IfSome (H.remaining hier.old) (λ bytes. (text : List ℕ) × Informs bytes text × Appends (W.contents out.old) (W.contents out.new) text)) }
    ensures refused { IfErr result (RefusesInfo (H.remaining hier.old) (W.contents out.old) (W.contents out.new)) }
{
    let hierarchy = hierfile::read(alloc, hier)?;
    let _well_made = hierarchy.nodes();
    let mut text = Vec::new(alloc);
    push_info(&hierarchy, &mut text)?;
    WriteCalls::new(MOST_CALLS).write(out, text.as_slice())?;
    Ok(())
}

/// Appends what the file of a hierarchy has, or a part of it where memory runs out.
pub fn push_info(hierarchy: &Hierarchy, text: &mut Vec<u8>) -> Result<(), AllocError>
    ensures { OnOk result (text.new.items ≡ text.old.items ++ info hierarchy.now) }
{
    push_fact(b"version", hierarchy.version(), text)?;
    push_fact(b"nodes", hierarchy.nodes(), text)?;
    push_fact(b"links", hierarchy.links().len(), text)?;
    push_fact(b"bound", hierarchy.bound().length(), text)?;
    push_fact(b"bytes", size_of(hierarchy), text)?;
    Ok(())
}

// Appends a line with a name and a number, or a part of it where memory runs out.
fn push_fact<N: Integer>(name: &[u8], number: N, text: &mut Vec<u8>) -> Result<(), AllocError>
    ensures { OnOk result (text.new.items ≡ text.old.items ++ fact name.now (N.text number)) }
{
    text.extend_from_slice(name)?;
    text.push(b' ')?;
    text.extend_from_slice(Buffer::new().format(number).as_bytes())?;
    text.push(b'\n')?;
    Ok(())
}

// How many bytes the file of a hierarchy has. A link has 20 in version 1, and 4 more in version 2.
fn size_of(hierarchy: &Hierarchy) -> u128
    ensures { result ≡ length (bytes_of hierarchy.now) }
{
    let ranks = u128::from(hierarchy.nodes());
    let links = hierarchy.links().len() as u128;
    let version = u128::from(hierarchy.version());
    HEAD + RANK * ranks + (16 + 4 * version) * links
}
