ghost use Rattle.std.specs.Prelude.{◌≡◌, OnOk, IfOk, IfErr, length};
ghost use Rattle.std.specs.Io.KnownBytes.{Appends};
ghost use Rattle.ch_graph.specs.declared.version.Version.TheVariants.{One, Two};
ghost use Rattle.outcomes.specs.Written.{IfBothKnown};
ghost use Rattle.outcomes.specs.declared.cause.Cause.TheVariants.{OldVersion};
ghost use Rattle.ch_verify.specs.Verdict.{BreaksOff, RefusesCheck, Doubts, Judges, Says, verdict_line};

use crate::verdict::{Doubt, FileVerdict, Refutation};
use ch_check::{CheckError, Watch, check_watched, is_refuted_by};
use ch_graph::{Graph, Hierarchy};
use counted_io::{MOST_CALLS, WriteCalls};
use grfile::read_graph;
use outcomes::Cause;
use std::alloc::{AllocError, Global};
use std::io::{Read, Write};

/// Checks that the file of a hierarchy is right for the graph of a text, whoever made it.
///
/// `gr` gives the text of the graph and `hier` the file, which are read in this order, and `out` gets one line with what
/// was found. The watch sees how many nodes are checked. Nothing of the file is believed: if the verdict is
/// [`FileVerdict::Right`], it is one as `prepare` writes them of this text, and routes by it are shortest paths of the
/// graph. Where the check ends at a pair of nodes, their distance in the graph is compared with that in the hierarchy, and
/// if these differ the verdict is [`FileVerdict::Wrong`]. What a refutation and the doubt of the bound name is so of the
/// two.
///
/// A file of version 1, whose costs count no arcs, is refused ([`Cause::OldVersion`]). Nothing is written at a refusal,
/// unless it is the write that failed. Takes memory for the graph, the hierarchy and the rows of
/// [`check`](ch_check::check), whose time it takes too.
pub fn verify<G: Read, H: Read, W: Write, V: Watch>(
    alloc: Global,
    gr: &mut G,
    hier: &mut H,
    out: &mut W,
    watch: &V,
) -> Result<FileVerdict, Cause>
    ensures says { IfOk result (λ verdict. IfBothKnown (G.remaining gr.old) (H.remaining hier.old) (Says verdict)) }
    ensures written { IfOk result (λ verdict. Appends (W.contents out.old) (W.contents out.new) (verdict_line verdict)) }
    ensures refused { IfErr result (RefusesCheck (G.remaining gr.old) (H.remaining hier.old) (W.contents out.old) (W.contents out.new)) }
{
    let graph = match read_graph(alloc, gr) {
        Ok(graph) => graph,
        Err(fault) => return Err(Cause::of_graph(fault)),
    };
    let hierarchy = hierfile::read(alloc, hier)?;
    let _well_made = hierarchy.nodes();
    refuse_old(&hierarchy)?;
    let verdict = judge(alloc, &graph, &hierarchy, watch)?;
    match write_line(alloc, verdict, out) {
        Ok(()) => Ok(verdict),
        Err(error) => Err(error),
    }
}

// Refuses a hierarchy of version 1.
fn refuse_old(hierarchy: &Hierarchy) -> Result<(), Cause>
    ensures new { OnOk result (hierarchy.now.version ≡ Two) }
    ensures old { IfErr result (λ e. (e ≡ OldVersion) × (hierarchy.now.version ≡ One)) }
{
    if hierarchy.version() == 2 {
        Ok(())
    } else {
        Err(Cause::OldVersion)
    }
}

// Writes the line of a verdict.
fn write_line<W: Write>(alloc: Global, verdict: FileVerdict, out: &mut W) -> Result<(), Cause>
    ensures ok { OnOk result (Appends (W.contents out.old) (W.contents out.new) (verdict_line verdict)) }
    ensures err { IfErr result (BreaksOff verdict (W.contents out.old) (W.contents out.new)) }
{
    let line = format!(in alloc; "{verdict}\n")?;
    WriteCalls::new(MOST_CALLS).write(out, line.as_bytes())?;
    Ok(())
}

// What a check finds, and where it ends at a pair of nodes, whether their distance shows that the hierarchy is wrong.
fn judge<V: Watch>(
    alloc: Global,
    graph: &Graph,
    hierarchy: &Hierarchy,
    watch: &V,
) -> Result<FileVerdict, AllocError>
    requires { hierarchy.now.version ≡ Two }
    ensures { IfOk result (λ verdict. Judges verdict graph.now hierarchy.now) }
{
    let Err(error) = check_watched(alloc, graph, hierarchy, watch) else {
        return Ok(FileVerdict::Right);
    };
    match error {
        CheckError::OutOfMemory => Err(AllocError),
        CheckError::Nodes => Ok(FileVerdict::Wrong(Refutation::Nodes)),
        CheckError::Version => unreachable!(),
        CheckError::Bound => Ok(FileVerdict::NotShown(Doubt::Bound)),
        CheckError::Work => Ok(FileVerdict::NotShown(Doubt::Work)),
        CheckError::Way { via, from, to } => {
            refute(
                alloc,
                graph,
                hierarchy,
                (from, to),
                Doubt::Way { via, from, to },
            )
        }
        CheckError::Link { from, to } => {
            refute(
                alloc,
                graph,
                hierarchy,
                (from, to),
                Doubt::Link { from, to },
            )
        }
    }
}

// That the hierarchy is wrong, if the distance of the pair shows it, or else this doubt.
fn refute(
    alloc: Global,
    graph: &Graph,
    hierarchy: &Hierarchy,
    pair: (u32, u32),
    doubt: Doubt,
) -> Result<FileVerdict, AllocError>
    requires nodes { length hierarchy.now.ranks ≡ graph.now.nodes }
    requires doubt { Doubts doubt graph.now hierarchy.now }
    ensures { IfOk result (λ verdict. Judges verdict graph.now hierarchy.now) }
{
    let (from, to) = pair;
    if is_refuted_by(alloc, graph, hierarchy, from, to)? {
        return Ok(FileVerdict::Wrong(Refutation::Pair { from, to }));
    }
    Ok(FileVerdict::NotShown(doubt))
}
