use std::io::Write;

/// For how many milliseconds of contraction nothing is said of the time that is left: the first pace says little.
const FIRST: u64 = 5_000;

/// From how many of a hundred nodes on nothing is said of it: the last ones take longest, so that the second half takes
/// several times as long as the first.
const LAST: u128 = 50;

/// How far a preparation has come.
#[derive(Clone, Copy)]
pub struct ProgressLine {
    /// How many nodes are contracted.
    pub done: u64,
    /// How many there are, or 0 if that isn't known.
    pub nodes: u64,
    /// How many milliseconds it has taken so far, with the reading of the graph.
    pub millis: u64,
    /// For how many of them nodes have been contracted.
    pub contracting: u64,
}

/// Writes how far a preparation has come, in one line, which takes the place of the line before.
///
/// The terminal is asked to cut the line at its right edge rather than wrap it, so that each line stays one. If the number
/// of nodes is known, the line has a percentage. From the sixth second of contraction on, up to the half of the nodes, it
/// has the least time that is left: that by the pace so far, while each later node takes longer.
pub fn write_line<W: Write>(out: &mut W, progress: &ProgressLine) {
    let ProgressLine { done, nodes, .. } = *progress;
    let seconds = progress.millis / 1_000;
    let _ = write!(out, "\x1b[?7l\r");
    if nodes == 0 {
        let _ = write!(out, "{done} nodes contracted, {seconds} s");
    } else {
        let percent = percent_of(done, nodes);
        let _ = write!(
            out,
            "{percent} %: {done} of {nodes} nodes contracted, {seconds} s"
        );
        if progress.contracting >= FIRST && percent < LAST {
            let left = seconds_left(done, nodes, progress.contracting);
            let _ = write!(out, ", at least {left} s to go");
        }
    }
    let _ = write!(out, "\x1b[K\x1b[?7h");
}

/// Writes what was made: the file, and how long that took.
pub fn write_end<W: Write>(out: &mut W, name: &str, bytes: u64, nodes: u64, millis: u64) {
    let seconds = millis / 1_000;
    let _ = writeln!(
        out,
        "{name}: {bytes} bytes, a hierarchy of {nodes} nodes, prepared in {seconds} s"
    );
}

// How many of a hundred, rounded down.
fn percent_of(done: u64, nodes: u64) -> u128 {
    let percent = u128::from(done) * 100 / u128::from(nodes.max(1));
    percent.min(100)
}

// How many seconds are left at the pace so far.
fn seconds_left(done: u64, nodes: u64, millis: u64) -> u64 {
    let left = nodes.saturating_sub(done);
    let product = u128::from(left) * u128::from(millis);
    let seconds = product.div_ceil(u128::from(done.max(1))) / 1_000;
    u64::try_from(seconds).unwrap_or(u64::MAX)
}
