ghost use Rattle.std.specs.Prelude.{IfErr, IfOk, IfSome, Some};
ghost use Rattle.core.specs.Mem.{manually_drop_value};
ghost use Rattle.ch_graph.specs.Graph.{Graph};
ghost use Rattle.ch_graph.specs.Limits.{IsGraph};
ghost use Rattle.hierfile.specs.Bytes.{IsFaultOf};
ghost use Rattle.hierfile.specs.Fault.{first_fault};
ghost use Rattle.domethyme_c.specs.Answers.{IsFileFor};
ghost use Rattle.domethyme_c.specs.Towards.{AnswersTowards, IsOpenedTurned, IsTurnedFile};

use crate::code::{OK, code_of};
use crate::engine::{Engine, read_hierarchy};
use crate::handle::Handle;
use crate::opening::boxed;
use ch_turned::{turn, turned_is_right, walks_turn};
use hierfile::{HierError, hierarchies_have_one_spelling};
use std::alloc::Global;
use std::mem::ManuallyDrop;

/// Reads a hierarchy file that is in memory, and turns its hierarchy: what the handle says of lengths from a node is so of
/// lengths to it.
#[unsafe(no_mangle)]
pub extern "C" fn domethyme_open_turned(alloc: Global, handle: &mut Handle, bytes: &[u8]) -> u32
    ensures answer { IsOpenedTurned bytes.now result handle.new.held.hierarchy }
    ensures towards { (g : Graph) → IsGraph g → IsFileFor g bytes.now → IfSome handle.new.held.hierarchy (AnswersTowards g) }
{
    hierarchies_have_one_spelling();
    turned_is_right();
    walks_turn();
    handle.close(alloc);
    match read_turned(alloc, bytes) {
        Ok(engine) => {
            handle.put(alloc, engine);
            OK
        }
        Err(error) => code_of(error),
    }
}

// The engine of the turned hierarchy, on the heap.
fn read_turned(alloc: Global, bytes: &[u8]) -> Result<Box<ManuallyDrop<Engine>>, HierError>
    ensures ok { IfOk result (λ engine. IsTurnedFile bytes.now (manually_drop_value engine.value)) }
    ensures err { IfErr result (IsFaultOf first_fault (Some bytes.now)) }
{
    let hierarchy = read_hierarchy(alloc, bytes)?;
    let turned = turn(alloc, &hierarchy)?;
    drop(hierarchy);
    let engine = Engine::of(alloc, turned)?;
    let held = boxed(alloc, engine)?;
    Ok(held)
}
