ghost use Rattle.std.specs.Prelude.{Some, option_map};

use crate::examples::{ONE_ARC, ONE_ARC_TEXT};
use crate::statuses::Broken;
use ch_workers::OpenGate;
use jobs::{Order, Preparation, Workers};
use performing::prepare_whole;
use std::alloc::{AllocError, Global};
use std::io::{self, ErrorKind, Read, Write};
use std::sync::Wait;
use std::test::Fail;
use std::thread::Threads;
use whole_file::Destination;

/// A destination in memory, which may refuse what is put there.
#[derive(Drop)]
struct Shelf {
    alloc: Global,
    stands: Option<Vec<u8>>,
    refuses: bool,
}

impl Destination for Shelf {
    type PendingFile = Vec<u8>;

    ghost stands = { λ shelf. Some (option_map (λ bytes. bytes.items) shelf.stands) };

    fn draft(&self) -> Result<Vec<u8>, AllocError> {
        Ok(Vec::new(self.alloc))
    }

    fn put(&mut self, draft: Vec<u8>) -> io::Result<()> {
        if self.refuses {
            return Err(io::Error::from(ErrorKind::Other));
        }
        self.stands = Some(draft);
        Ok(())
    }

    fn discard(&mut self, _draft: Vec<u8>) {}
}

/// A writer that takes this many bytes, and then fails.
#[derive(Drop)]
struct Narrow {
    room: usize,
}

impl Write for Narrow {
    fn write(&mut self, buf: &[u8]) -> io::Result<usize> {
        let taken = buf.len().min(self.room);
        if taken == 0 {
            return Err(io::Error::from(ErrorKind::Other));
        }
        self.room -= taken;
        Ok(taken)
    }

    fn flush(&mut self) -> io::Result<()> {
        Ok(())
    }
}

/// A destination whose drafts take this many bytes, and what became of them.
#[derive(Drop)]
struct Bench {
    room: usize,
    put: bool,
    discarded: bool,
}

impl Destination for Bench {
    type PendingFile = Narrow;

    fn draft(&self) -> Result<Narrow, AllocError> {
        Ok(Narrow { room: self.room })
    }

    fn put(&mut self, _draft: Narrow) -> io::Result<()> {
        self.put = true;
        Ok(())
    }

    fn discard(&mut self, _draft: Narrow) {
        self.discarded = true;
    }
}

/// To prepare without workers.
fn preparing() -> Preparation<'static> {
    Preparation {
        graph: "a.gr",
        out: "a.rch",
        workers: Some(Workers::none()),
        seed: 1,
        order: Order::Edges,
        stint: None,
        progress: false,
    }
}

/// Whether a preparation for this destination ends with this status and this line on standard error.
fn is_ended<G: Read, D: Destination, R: Threads + Wait + Sync>(
    rt: &R,
    alloc: Global,
    graph: &mut G,
    destination: &mut D,
    status: u8,
    line: &[u8],
) -> bool {
    let mut err = Vec::new(alloc);
    let ended = prepare_whole(rt, alloc, &preparing(), graph, destination, &OpenGate);
    (ended.report(&mut err) == status) & (err.as_slice() == line)
}

/// A graph's text, whether the destination refuses it, the status, what is there then, and the line on standard error.
type Put = (&'static [u8], bool, u8, &'static [u8], &'static [u8]);

const PUT: [Put; 3] = [
    (ONE_ARC_TEXT, false, 0, ONE_ARC, b""),
    (ONE_ARC_TEXT, true, 7, b"old", b"routecli: write\n"),
    (
        b"p sp 2 1\na 1 2\n",
        false,
        3,
        b"old",
        b"routecli: graph: FieldCount line 2\n",
    ),
];

/// Whether a preparation ends so where a file stands.
fn is_put<R: Threads + Wait + Sync>(
    rt: &R,
    alloc: Global,
    (mut graph, refuses, status, bytes, line): Put,
) -> Result<bool, AllocError> {
    let old = Vec::from_slice(alloc, b"old")?;
    let mut shelf = Shelf {
        alloc,
        stands: Some(old),
        refuses,
    };
    let is_ended = is_ended(rt, alloc, &mut graph, &mut shelf, status, line);
    Ok(is_ended & matches!(&shelf.stands, Some(file) if file.as_slice() == bytes))
}

/// Whether each of these does.
fn are_put<R: Threads + Wait + Sync>(
    rt: &R,
    alloc: Global,
    cases: &[Put],
) -> Result<bool, AllocError> {
    for case in cases {
        if !is_put(rt, alloc, *case)? {
            return Ok(false);
        }
    }
    Ok(true)
}

#[test]
fn what_stands_stays_until_the_file_is_whole(rt: HostRuntime) -> Result<(), Fail> {
    assert!(rt; are_put(&rt, rt.alloc(), &PUT)?);
    Ok(())
}

/// Whether a preparation whose reader fails puts nothing where nothing stands, and one behind it a file.
fn comes_where_nothing_stood<R: Threads + Wait + Sync>(rt: &R, alloc: Global) -> bool {
    let mut shelf = Shelf {
        alloc,
        stands: None,
        refuses: false,
    };
    let is_unread = is_ended(rt, alloc, &mut Broken, &mut shelf, 7, b"routecli: read\n");
    let is_empty = shelf.stands.is_none();
    let mut graph = ONE_ARC_TEXT;
    let is_put = is_ended(rt, alloc, &mut graph, &mut shelf, 0, b"");
    is_unread & is_empty & is_put & shelf.stands.is_some()
}

#[test]
fn a_file_comes_where_nothing_stood(rt: HostRuntime) {
    assert!(rt; comes_where_nothing_stood(&rt, rt.alloc()));
}

/// Whether a draft that takes this many bytes is put if it is whole, and else discarded.
fn is_discarded<R: Threads + Wait + Sync>(rt: &R, alloc: Global, room: usize) -> bool {
    let mut graph = ONE_ARC_TEXT;
    let mut bench = Bench {
        room,
        put: false,
        discarded: false,
    };
    let is_whole = room == ONE_ARC.len();
    let (status, line) = if is_whole {
        (0, b"".as_slice())
    } else {
        (7, b"routecli: write\n".as_slice())
    };
    let is_ended = is_ended(rt, alloc, &mut graph, &mut bench, status, line);
    is_ended & (bench.put == is_whole) & (bench.discarded != is_whole)
}

#[test]
fn a_draft_that_is_cut_is_discarded(rt: HostRuntime) {
    for room in [0, 1, 55, 56] {
        assert!(rt; is_discarded(&rt, rt.alloc(), room));
    }
}
