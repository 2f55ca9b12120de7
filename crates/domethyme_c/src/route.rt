ghost use Rattle.std.specs.Prelude.{◌≡◌};
ghost use Rattle.domethyme_c.specs.Answers.{Answers, IsRouteAnswer, IsWritten};

use crate::code::{NO_HANDLE, NO_PATH, NO_ROOM, NODE_RANGE, OK, OUT_OF_MEMORY, TOO_LONG};
use crate::engine::Engine;
use crate::handle::Handle;
use ch_route::UnpackError;
use std::alloc::Global;

/// How long a route is, and how many nodes it has.
#[repr(C)]
#[derive(Drop)]
pub struct RouteInfo {
    pub length: u64,
    pub nodes: usize,
}

/// A shortest path.
#[unsafe(no_mangle)]
pub extern "C" fn domethyme_route(
    alloc: Global,
    handle: &mut Handle,
    from: u32,
    to: u32,
    route: &mut RouteInfo,
    nodes: &mut [u32],
) -> u32
    ensures kept { handle.new.held.hierarchy ≡ handle.old.held.hierarchy }
    ensures answer { Answers handle.old.held.hierarchy result ((route.new ≡ route.old) × (nodes.new ≡ nodes.old)) (λ h. IsRouteAnswer h from to result route.old route.new nodes.old nodes.new) }
{
    let Some(mut engine) = handle.take(alloc) else {
        return NO_HANDLE;
    };
    let code = answer_route(&mut engine, (from, to), route, nodes);
    handle.put(alloc, engine);
    code
}

fn answer_route(
    engine: &mut Engine,
    pair: (u32, u32),
    info: &mut RouteInfo,
    nodes: &mut [u32],
) -> u32
    ensures kept { engine.new ≡ engine.old }
    ensures answer { IsRouteAnswer engine.old pair.0 pair.1 result info.old info.new nodes.old nodes.new }
{
    if !engine.are_nodes(pair.0, pair.1) {
        return NODE_RANGE;
    }
    match engine.route(pair.0, pair.1) {
        Ok(Some(route)) => {
            *info = RouteInfo {
                length: route.cost.length(),
                nodes: route.nodes.len(),
            };
            write_all(route.nodes.as_slice(), nodes)
        }
        Ok(None) => NO_PATH,
        Err(UnpackError::TooLong) => TOO_LONG,
        Err(UnpackError::OutOfMemory) => OUT_OF_MEMORY,
    }
}

/// Writes values at the beginning of an array, where they have room.
pub(crate) fn write_all<T: Copy>(values: &[T], room: &mut [T]) -> u32
    ensures { IsWritten values.now result room.old room.new }
{
    let count = values.len();
    if room.len() < count {
        return NO_ROOM;
    }
    room[..count].copy_from_slice(values);
    OK
}
