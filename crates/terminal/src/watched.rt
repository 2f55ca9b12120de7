use crate::meter::Meter;
use std::io::{self, Read};
use std::time::Clock;

/// A reader of a graph's text that reports to a meter how many nodes the text announces. It gives what the reader behind
/// it gives, to the byte, and fails if that one does.
#[derive(Drop)]
pub struct Watched<'a, G, R> {
    graph: G,
    meter: &'a Meter<'a, R>,
    place: Scan,
}

/// How far the text was looked at, for the number of nodes in its line `p sp N M`.
#[derive(Clone, Copy, Debug, PartialEq, Eq)]
enum Scan {
    /// Between lines, or in the blanks at the head of one.
    Head,
    /// In a line of another kind.
    Other,
    /// In the line of the problem, with the number so far.
    Problem(u64),
    /// Behind the number.
    Behind,
}

impl Scan {
    // The place after one more byte.
    fn after(self, byte: u8) -> Scan {
        match (self, byte) {
            (Scan::Behind, _) => Scan::Behind,
            (_, b'\n') => Scan::Head,
            (Scan::Head, b' ' | b'\t') => Scan::Head,
            (Scan::Head, b'p') => Scan::Problem(0),
            (Scan::Head | Scan::Other, _) => Scan::Other,
            (Scan::Problem(number), _) => in_problem(number, byte),
        }
    }
}

// The place in the line of the problem after one more byte. The number is the first that isn't 0.
fn in_problem(number: u64, byte: u8) -> Scan {
    match byte {
        b'0'..=b'9' => {
            let digit = u64::from(byte.saturating_sub(b'0'));
            Scan::Problem(number.saturating_mul(10).saturating_add(digit))
        }
        _ if number > 0 => Scan::Behind,
        _ => Scan::Problem(0),
    }
}

impl<'a, G: Read, R: Clock> Watched<'a, G, R> {
    /// Returns the reader of a graph's text, which this meter watches.
    pub fn new(graph: G, meter: &'a Meter<'a, R>) -> Watched<'a, G, R> {
        Watched {
            graph,
            meter,
            place: Scan::Head,
        }
    }
}

// Looks at the next piece of the text from this place on, until the number is known, and returns the place behind it.
fn look_at<R: Clock>(meter: &Meter<'_, R>, mut place: Scan, piece: &[u8]) -> Scan {
    if place == Scan::Behind {
        return place;
    }
    for byte in piece {
        let before = place;
        place = before.after(*byte);
        if let (Scan::Problem(nodes), Scan::Behind) = (before, place) {
            meter.announce(nodes);
            return place;
        }
    }
    place
}

impl<G: Read, R: Clock> Read for Watched<'_, G, R> {
    ghost remaining = { λ w. G.remaining w.graph };

    fn read(&mut self, buf: &mut [u8]) -> io::Result<usize> {
        let count = self.graph.read(buf)?;
        if let Some(piece) = buf.get(..count) {
            self.place = look_at(self.meter, self.place, piece);
        }
        Ok(count)
    }
}
