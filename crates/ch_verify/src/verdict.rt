ghost use Rattle.std.specs.Prelude.{◌≡◌, ◌+◌, Some};
ghost use Rattle.ch_verify.specs.Verdict.{doubt_text, refutation_text, verdict_text};

use std::fmt;

/// What a check of a hierarchy's file against the text of a graph found.
///
/// What is shown of one is the line that the program prints. Nodes are numbered from 0 here, and from 1 in the line.
#[derive(Clone, Copy, Debug, PartialEq, Eq)]
pub enum FileVerdict {
    /// The hierarchy is right for the graph: all answers by it are least walks of the graph.
    Right,
    /// It isn't.
    Wrong(Refutation),
    /// It wasn't shown to be right. That is no proof that it is wrong.
    NotShown(Doubt),
}

/// What shows that a hierarchy isn't right for a graph.
#[derive(Clone, Copy, Debug, PartialEq, Eq)]
pub enum Refutation {
    /// It has another number of nodes than the graph.
    Nodes,
    /// Its distance from one node to another isn't that of the graph.
    Pair {
        /// Where the pair begins.
        from: u32,
        /// Where it ends.
        to: u32,
    },
}

/// Where a check ended that didn't show that a hierarchy is right.
#[derive(Clone, Copy, Debug, PartialEq, Eq)]
pub enum Doubt {
    /// The bound of the hierarchy isn't that of the graph.
    Bound,
    /// The check has settled more nodes than it may.
    Work,
    /// The hierarchy has no link that costs as little as the two arcs from one node to another by way of a third, and no
    /// way around the third that costs as little was found.
    Way {
        /// The third node.
        via: u32,
        /// Where the pair begins.
        from: u32,
        /// Where it ends.
        to: u32,
    },
    /// The link between two nodes isn't the arc that the contraction of the nodes in the order of their ranks leads to, or
    /// there is one of the two alone.
    Link {
        /// The node that it leaves.
        from: u32,
        /// The node that it comes to.
        to: u32,
    },
}

impl fmt::Display for FileVerdict {
    ghost output = { λ verdict. Some (verdict_text verdict) };

    fn fmt<W: fmt::Write>(&self, f: &mut fmt::Formatter<W>) -> fmt::Result {
        match self {
            FileVerdict::Right => write!(f, "right"),
            FileVerdict::Wrong(refutation) => write!(f, "wrong: {refutation}"),
            FileVerdict::NotShown(doubt) => write!(f, "not shown: {doubt}"),
        }
    }
}

impl fmt::Display for Refutation {
    ghost output = { λ refutation. Some (refutation_text refutation) };

    fn fmt<W: fmt::Write>(&self, f: &mut fmt::Formatter<W>) -> fmt::Result {
        match self {
            Refutation::Nodes => write!(f, "nodes"),
            Refutation::Pair { from, to } => write!(f, "pair {} {}", number(*from), number(*to)),
        }
    }
}

impl fmt::Display for Doubt {
    ghost output = { λ doubt. Some (doubt_text doubt) };

    fn fmt<W: fmt::Write>(&self, f: &mut fmt::Formatter<W>) -> fmt::Result {
        match self {
            Doubt::Bound => write!(f, "bound"),
            Doubt::Work => write!(f, "work"),
            Doubt::Way { via, from, to } => {
                write!(
                    f,
                    "way {} {} by {}",
                    number(*from),
                    number(*to),
                    number(*via)
                )
            }
            Doubt::Link { from, to } => write!(f, "link {} {}", number(*from), number(*to)),
        }
    }
}

// A node as a text names it, numbered from 1.
fn number(node: u32) -> u64
    ensures { result ≡ node + 1 }
{
    u64::from(node) + 1
}
