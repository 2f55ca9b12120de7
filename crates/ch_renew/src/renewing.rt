ghost use Rattle.std.specs.Prelude.{◌≡◌, IfErr, IfOk, IsFalse, IsTrue, length};
ghost use Rattle.std.specs.Io.KnownBytes.{Keeps};
ghost use Rattle.ch_graph.specs.Hierarchy.{IsRight};
ghost use Rattle.ch_graph.specs.declared.version.Version.TheVariants.{Two};
ghost use Rattle.outcomes.specs.Written.{IfBothKnown, Writes};
ghost use Rattle.ch_renew.specs.Renewal.{HaveOtherNodes, RefusesRenewing, Renews, TellsRenewed};

use ch_check::Watch;
use ch_sequential::build_by_ranks;
use grfile::read_graph;
use outcomes::{Cause, Ending};
use std::alloc::Global;
use std::io::{Read, Write};

/// How many nodes a search for a way around a node settles at most. Where a hierarchy is prepared it is fewer, since nodes are
/// searched around more than once there.
const SETTLE: u32 = 256;

/// Makes the hierarchy of a graph by the ranks of another hierarchy.
///
/// `gr` gives the text of the graph and `hier` the file of the other hierarchy, of version 1 or 2, which are read whole in
/// this order, and `out` gets the file that is made. Nothing of the old file is believed: whoever made it, the new one is
/// right for the graph, and its bytes follow from the graph and the ranks. If the numbers of nodes differ, the outcome is
/// [`Ending::Wrong`]. Then nothing is written, and neither at a refusal, unless it is the write that failed. The watch
/// sees how many nodes are contracted.
///
/// Takes memory for the graph and the old hierarchy, which is dropped when its ranks are known, and then that of
/// [`build_by_ranks`](ch_sequential::build_by_ranks). A strange order of the nodes may take time and memory without limit.
pub fn renew<G: Read, H: Read, W: Write, V: Watch>(
    alloc: Global,
    gr: &mut G,
    hier: &mut H,
    out: &mut W,
    watch: &V,
) -> Ending
    ensures { TellsRenewed result (G.remaining gr.old) (H.remaining hier.old) (W.contents out.old) (W.contents out.new) }
{
    match renew_if_same(alloc, gr, hier, out, watch) {
        Ok(true) => Ending::Done,
        Ok(false) => Ending::Wrong,
        Err(cause) => Ending::Refused(cause),
    }
}

// Makes the hierarchy if the other one has as many nodes as the graph; whether it has.
fn renew_if_same<G: Read, H: Read, W: Write, V: Watch>(
    alloc: Global,
    gr: &mut G,
    hier: &mut H,
    out: &mut W,
    watch: &V,
) -> Result<bool, Cause>
    ensures done { IfOk result (λ same. IsTrue same → IfBothKnown (G.remaining gr.old) (H.remaining hier.old) (λ graph_text bytes. Writes (Renews graph_text bytes) (W.contents out.old) (W.contents out.new))) }
    ensures wrong { IfOk result (λ same. IsFalse same → IfBothKnown (G.remaining gr.old) (H.remaining hier.old) HaveOtherNodes × Keeps (W.contents out.old) (W.contents out.new)) }
    ensures refused { IfErr result (RefusesRenewing (G.remaining gr.old) (H.remaining hier.old) (W.contents out.old) (W.contents out.new)) }
{
    let graph = match read_graph(alloc, gr) {
        Ok(graph) => graph,
        Err(fault) => return Err(Cause::of_graph(fault)),
    };
    let old = hierfile::read(alloc, hier)?;
    let nodes = old.nodes();
    if nodes != graph.nodes() {
        return Ok(false);
    }
    let new = build_by_ranks(alloc, graph, old, SETTLE, watch)?;
    let _well_made = new.nodes();
    hierfile::write(&new, out)?;
    Ok(true)
}
