use crate::files::row;
use ch_graph::Hierarchy;
use grfile::{GrError, GrErrorKind, read_graph_within, read_queries_within};
use hierfile::{HierError, WriteFault, read_within, write_within};
use std::alloc::{AllocError, Global};
use std::io::{self, ErrorKind, Read, Write};

/// A reader and writer that is interrupted each time.
#[derive(Drop)]
struct Interrupted {
    calls: u32,
}

impl Read for Interrupted {
    fn read(&mut self, _buf: &mut [u8]) -> io::Result<usize> {
        self.calls = self.calls.saturating_add(1);
        Err(io::Error::from(ErrorKind::Interrupted))
    }
}

impl Write for Interrupted {
    fn write(&mut self, _buf: &[u8]) -> io::Result<usize> {
        self.calls = self.calls.saturating_add(1);
        Err(io::Error::from(ErrorKind::Interrupted))
    }

    fn flush(&mut self) -> io::Result<()> {
        Ok(())
    }
}

/// Whether a hierarchy, which has to be of version 2, isn't written in three calls.
fn is_not_written(hierarchy: &Hierarchy, always: &mut Interrupted) -> bool {
    if hierarchy.version() != 2 {
        return false;
    }
    write_within(hierarchy, always, 3) == Err(WriteFault { written: 0 })
}

/// Whether the row is read from its file, and isn't written in three calls.
fn row_is_not_written(alloc: Global, always: &mut Interrupted) -> Result<bool, AllocError> {
    match row(alloc)? {
        Some(hierarchy) => Ok(is_not_written(&hierarchy, always)),
        None => Ok(false),
    }
}

/// Whether nothing is read in three calls each.
fn is_not_read(alloc: Global, always: &mut Interrupted) -> bool {
    let fault = GrError {
        kind: GrErrorKind::Read,
        line: 1,
    };
    let graph = read_graph_within(alloc, always, 3).err();
    let pairs = read_queries_within(alloc, always, 2, 3).err();
    let file = read_within(alloc, always, 3).err();
    (graph == Some(fault)) & (pairs == Some(fault)) & (file == Some(HierError::Read))
}

#[test]
fn interrupted_to_the_last_call(rt: HostRuntime) -> Result<(), AllocError> {
    let mut always = Interrupted { calls: 0 };
    let is_not_read = is_not_read(rt.alloc(), &mut always);
    let is_not_written = row_is_not_written(rt.alloc(), &mut always)?;
    assert!(rt; is_not_read & is_not_written & (always.calls == 12));
    Ok(())
}
