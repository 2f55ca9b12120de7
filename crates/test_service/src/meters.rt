use ch_workers::{Gate, Point};
use std::alloc::Global;
use std::io::Read;
use std::test::Fail;
use std::time::Clock;
use terminal::{Meter, ProgressLine, Watched, write_end, write_line};

/// Commits, nodes, milliseconds, and those of contraction, and the line that shows them.
const LINES: [([u64; 4], &[u8]); 9] = [
    (
        [1, 0, 999, 999],
        b"\x1b[?7l\r1 nodes contracted, 0 s\x1b[K\x1b[?7h",
    ),
    (
        [250, 1_000, 5_000, 4_999],
        b"\x1b[?7l\r25 %: 250 of 1000 nodes contracted, 5 s\x1b[K\x1b[?7h",
    ),
    (
        [250, 1_000, 9_999, 5_000],
        b"\x1b[?7l\r25 %: 250 of 1000 nodes contracted, 9 s, at least 15 s to go\x1b[K\x1b[?7h",
    ),
    (
        [499, 1_000, 61_500, 61_500],
        b"\x1b[?7l\r49 %: 499 of 1000 nodes contracted, 61 s, at least 61 s to go\x1b[K\x1b[?7h",
    ),
    (
        [500, 1_000, 61_500, 61_500],
        b"\x1b[?7l\r50 %: 500 of 1000 nodes contracted, 61 s\x1b[K\x1b[?7h",
    ),
    (
        [900, 1_000, 61_500, 61_500],
        b"\x1b[?7l\r90 %: 900 of 1000 nodes contracted, 61 s\x1b[K\x1b[?7h",
    ),
    (
        [0, 10, 6_000, 6_000],
        b"\x1b[?7l\r0 %: 0 of 10 nodes contracted, 6 s, at least 60 s to go\x1b[K\x1b[?7h",
    ),
    (
        [11, 10, 200, 0],
        b"\x1b[?7l\r100 %: 11 of 10 nodes contracted, 0 s\x1b[K\x1b[?7h",
    ),
    (
        [1, u64::MAX, u64::MAX, u64::MAX],
        b"\x1b[?7l\r0 %: 1 of 18446744073709551615 nodes contracted, 18446744073709551 s, at least 18446744073709551615 s to go\x1b[K\x1b[?7h",
    ),
];

#[test]
fn lines(rt: HostRuntime) {
    for ([done, nodes, millis, contracting], line) in LINES {
        let mut out = Vec::new(rt.alloc());
        let progress = ProgressLine {
            done,
            nodes,
            millis,
            contracting,
        };
        write_line(&mut out, &progress);
        assert!(rt; out.as_slice() == line);
    }
}

#[test]
fn what_was_made(rt: HostRuntime) {
    let mut out = Vec::new(rt.alloc());
    write_end(&mut out, "net.rch", 56, 2, 61_999);
    let line = b"net.rch: 56 bytes, a hierarchy of 2 nodes, prepared in 61 s\n";
    assert!(rt; out.as_slice() == line.as_slice());
}

/// Texts, and the number of nodes that each announces, 0 where there is none.
const TEXTS: [(&[u8], u64); 9] = [
    (b"p sp 25 12\na 1 2 3\n", 25),
    (b"c p sp 7 8\n\np sp 9 1\n", 9),
    (b" \tp\tsp  0033\t4\r\n", 33),
    (b"p sp 33554432 0", 33_554_432),
    (b"p sp 0 0\n", 0),
    (b"c only 12 remarks\n", 0),
    (b"a 1 2 3\n", 0),
    (b"p sp 5\np sp 6 1\n", 6),
    (b"", 0),
];

/// Whether a meter receives this number while the text is read in pieces of this many bytes, and the text is passed on.
fn is_told<R: Clock>(
    meter: &Meter<'_, R>,
    alloc: Global,
    text: &[u8],
    piece: usize,
    nodes: u64,
) -> Result<bool, Fail> {
    let mut reader = Watched::new(text, meter);
    let mut whole = Vec::new(alloc);
    let mut room = [0u8; 16];
    for _ in 0..100 {
        let count = reader.read(&mut room[..piece.min(16)])?;
        whole.extend_from_slice(&room[..count.min(16)])?;
    }
    Ok((meter.announced() == nodes) & (whole.as_slice() == text))
}

#[test]
fn nodes_are_announced(rt: HostRuntime) -> Result<(), Fail> {
    for (text, nodes) in TEXTS {
        for piece in [1, 3, 16] {
            let meter = Meter::new(&rt, rt.stderr(), true)?;
            assert!(rt; is_told(&meter, rt.alloc(), text, piece, nodes)?);
        }
    }
    Ok(())
}

#[test]
fn commits_are_counted(rt: HostRuntime) -> Result<(), Fail> {
    let meter = Meter::new(&rt, rt.stderr(), true)?;
    for point in [
        Point::Took,
        Point::Proposed,
        Point::Committed,
        Point::Refused,
        Point::Committed,
        Point::Done,
    ] {
        meter.pass(0, point);
    }
    assert!(rt; meter.done() == 2);
    Ok(())
}
