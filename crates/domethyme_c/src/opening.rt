ghost use Rattle.std.specs.Prelude.{◌≡◌, IfOk, length, None, Option, Some};
ghost use Rattle.core.specs.Mem.{manually_drop_value};
ghost use Rattle.ch_graph.specs.Hierarchy.{version_number};
ghost use Rattle.domethyme_c.specs.Answers.{Answers, IsBeside, IsCount, IsOpened};

use crate::code::{NO_HANDLE, OK, OUT_OF_MEMORY, code_of};
use crate::engine::Engine;
use crate::handle::Handle;
use std::alloc::{AllocError, Global};
use std::mem::ManuallyDrop;

/// Reads a hierarchy file that is in memory.
#[unsafe(no_mangle)]
pub extern "C" fn domethyme_open(alloc: Global, handle: &mut Handle, bytes: &[u8]) -> u32
    ensures answer { IsOpened bytes.now result handle.new.held.hierarchy }
{
    handle.close(alloc);
    let engine = match Engine::read(alloc, bytes) {
        Ok(engine) => engine,
        Err(error) => return code_of(error),
    };
    match boxed(alloc, engine) {
        Ok(engine) => {
            handle.put(alloc, engine);
            OK
        }
        Err(_) => OUT_OF_MEMORY,
    }
}

/// Closes a handle and frees its memory.
#[unsafe(no_mangle)]
pub extern "C" fn domethyme_close(alloc: Global, handle: &mut Handle)
    ensures answer { handle.new.held.hierarchy ≡ None }
{
    handle.close(alloc);
}

/// Opens another handle of the same hierarchy.
#[unsafe(no_mangle)]
pub extern "C" fn domethyme_beside(alloc: Global, handle: &mut Handle, other: &mut Handle) -> u32
    ensures kept { handle.new.held.hierarchy ≡ handle.old.held.hierarchy }
    ensures answer { IsBeside handle.old.held.hierarchy result other.old.held.hierarchy other.new.held.hierarchy }
{
    let Some(mut engine) = handle.take(alloc) else {
        return NO_HANDLE;
    };
    let second = another(alloc, &mut engine);
    handle.put(alloc, engine);
    match second {
        Ok(second) => {
            other.put(alloc, second);
            OK
        }
        Err(_) => OUT_OF_MEMORY,
    }
}

/// The number of nodes.
#[unsafe(no_mangle)]
pub extern "C" fn domethyme_nodes(alloc: Global, handle: &mut Handle, nodes: &mut u32) -> u32
    ensures kept { handle.new.held.hierarchy ≡ handle.old.held.hierarchy }
    ensures answer { Answers handle.old.held.hierarchy result (nodes.new ≡ nodes.old) (λ h. IsCount (length h.ranks) result nodes.new) }
{
    let Some(engine) = handle.take(alloc) else {
        return NO_HANDLE;
    };
    *nodes = engine.nodes();
    handle.put(alloc, engine);
    OK
}

/// The version of the file.
#[unsafe(no_mangle)]
pub extern "C" fn domethyme_version(alloc: Global, handle: &mut Handle, version: &mut u32) -> u32
    ensures kept { handle.new.held.hierarchy ≡ handle.old.held.hierarchy }
    ensures answer { Answers handle.old.held.hierarchy result (version.new ≡ version.old) (λ h. IsCount (version_number h.version) result version.new) }
{
    let Some(engine) = handle.take(alloc) else {
        return NO_HANDLE;
    };
    *version = engine.version();
    handle.put(alloc, engine);
    OK
}

/// The engine on the heap.
pub(crate) fn boxed(alloc: Global, engine: Engine) -> Result<Box<ManuallyDrop<Engine>>, AllocError>
    ensures { IfOk result (λ b. manually_drop_value b.value ≡ engine) }
{
    match Box::new(alloc, ManuallyDrop::new(engine)) {
        Ok(engine) => Ok(engine),
        Err(refused) => {
            drop(ManuallyDrop::into_inner(refused.value));
            Err(AllocError)
        }
    }
}

// Another engine of the same hierarchy, on the heap.
fn another(alloc: Global, engine: &mut Engine) -> Result<Box<ManuallyDrop<Engine>>, AllocError>
    ensures kept { engine.new ≡ engine.old }
    ensures same { IfOk result (λ b. manually_drop_value b.value ≡ engine.old) }
{
    boxed(alloc, engine.beside()?)
}
