//! What a router returns where one growth is refused. One that couldn't be made is made again, and one that couldn't
//! answer is asked again: it has to return the same as with ample memory.

use crate::checked::{DRAWN, DRAWN_RANKS, hierarchy_of};
use ch_graph::Hierarchy;
use ch_route::{Route, Router, UnpackError};
use std::alloc::{AllocError, Global};
use std::test::Fail;

/// The route of a pair.
fn route(router: &mut Router<'_>, pair: (u32, u32)) -> Result<Option<Route>, UnpackError> {
    if pair.0 >= router.nodes() || pair.1 >= router.nodes() {
        return Ok(None);
    }
    match router.route(pair) {
        Err(UnpackError::OutOfMemory) => router.route(pair),
        answer => answer,
    }
}

/// Its length.
fn length(router: &mut Router<'_>, pair: (u32, u32)) -> Result<Option<u64>, AllocError> {
    if pair.0 >= router.nodes() || pair.1 >= router.nodes() {
        return Ok(None);
    }
    match router.length(pair) {
        Err(AllocError) => router.length(pair),
        answer => answer,
    }
}

/// Whether the drawn hierarchy leads from 0 to 3 over 1 and 4, at a length of 4.
fn is_drawn(router: &mut Router<'_>) -> Result<bool, Fail> {
    let Some(there) = route(router, (0, 3))? else {
        return Ok(false);
    };
    let is_long = length(router, (0, 3))? == Some(4);
    let is_none = length(router, (3, 0))?.is_none();
    Ok(is_long & is_none & (there.nodes.as_slice() == [0, 1, 4, 3].as_slice()))
}

/// The same by a router that is made again where it runs out of memory.
fn is_drawn_by(alloc: Global, hierarchy: &Hierarchy) -> Result<bool, Fail> {
    let mut router = match Router::new(alloc, hierarchy) {
        Ok(router) => router,
        Err(AllocError) => Router::new(alloc, hierarchy)?,
    };
    is_drawn(&mut router)
}

#[test]
fn router(rt: HostRuntime) -> Result<(), Fail> {
    let hierarchy = hierarchy_of(rt.alloc(), DRAWN_RANKS, DRAWN, (20, 4))?;
    assert!(rt; is_drawn_by(rt.alloc(), &hierarchy)?);
    Ok(())
}

/// The same by a router beside another one, which is dropped first. One that runs out of memory is made again.
fn is_drawn_beside(alloc: Global, hierarchy: &Hierarchy) -> Result<bool, Fail> {
    let first = match Router::new(alloc, hierarchy) {
        Ok(router) => router,
        Err(AllocError) => Router::new(alloc, hierarchy)?,
    };
    let mut router = match first.beside() {
        Ok(router) => router,
        Err(AllocError) => first.beside()?,
    };
    drop(first);
    is_drawn(&mut router)
}

#[test]
fn router_beside(rt: HostRuntime) -> Result<(), Fail> {
    let hierarchy = hierarchy_of(rt.alloc(), DRAWN_RANKS, DRAWN, (20, 4))?;
    assert!(rt; is_drawn_beside(rt.alloc(), &hierarchy)?);
    Ok(())
}

/// The lengths from 0 to 3 and back to 0, and what is behind them, by a selection that is made again where it runs out of
/// memory, and a call that is made again where it does: before, the row is as it was.
fn row(router: &mut Router<'_>) -> Result<[u64; 3], Fail> {
    let mut row = [9; 3];
    if router.nodes() < 4 {
        return Ok(row);
    }
    let selection = match router.select(&[3, 0]) {
        Ok(selection) => selection,
        Err(AllocError) => router.select(&[3, 0])?,
    };
    if let Err(AllocError) = router.lengths(&[0], &selection, &mut row, 0) {
        if row != [9; 3] {
            return Ok(row);
        }
        router.lengths(&[0], &selection, &mut row, 0)?;
    }
    Ok(row)
}

/// Whether the row of the drawn hierarchy is that, by a new router.
fn has_row(alloc: Global, hierarchy: &Hierarchy) -> Result<bool, Fail> {
    let mut router = match Router::new(alloc, hierarchy) {
        Ok(router) => router,
        Err(AllocError) => Router::new(alloc, hierarchy)?,
    };
    Ok(row(&mut router)? == [4, 0, 9])
}

#[test]
fn lengths(rt: HostRuntime) -> Result<(), Fail> {
    let hierarchy = hierarchy_of(rt.alloc(), DRAWN_RANKS, DRAWN, (20, 4))?;
    assert!(rt; has_row(rt.alloc(), &hierarchy)?);
    Ok(())
}
