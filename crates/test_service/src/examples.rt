/// Two texts and what answers them.
#[derive(Clone, Copy)]
pub(crate) struct Example {
    pub(crate) graph: &'static [u8],
    pub(crate) pairs: &'static [u8],
    pub(crate) answers: &'static [u8],
}

/// The worked examples. The tie's answer is that of a hierarchy by the order of the numbers.
pub(crate) const EXAMPLES: [Example; 13] = [
    // One node and itself.
    Example {
        graph: b"p sp 1 0\n",
        pairs: b"p aux sp p2p 1\nq 1 1\n",
        answers: b"r 1 1 0 0 1\n",
    },
    // One arc, with and against it.
    Example {
        graph: ONE_ARC_TEXT,
        pairs: b"p aux sp p2p 2\nq 1 2\nq 2 1\n",
        answers: b"r 1 2 7 1 1 2\nn 2 1\n",
    },
    // Three nodes.
    Example {
        graph: ROW_TEXT,
        pairs: b"p aux sp p2p 3\nq 2 3\nq 2 1\nq 3 2\n",
        answers: b"r 2 3 5 2 2 1 3\nr 2 1 2 1 2 1\nn 3 2\n",
    },
    // A loop and parallel arcs.
    Example {
        graph: b"p sp 2 4\na 1 1 12\na 1 2 9\na 1 2 4\na 1 2 6\n",
        pairs: b"p aux sp p2p 1\nq 1 2\n",
        answers: b"r 1 2 4 1 1 2\n",
    },
    // The heaviest weight.
    Example {
        graph: b"p sp 2 1\na 1 2 4294967295\n",
        pairs: b"p aux sp p2p 1\nq 1 2\n",
        answers: b"r 1 2 4294967295 1 1 2\n",
    },
    // A length above 32 bits.
    Example {
        graph: HEAVIEST,
        pairs: b"p aux sp p2p 2\nq 3 4\nq 4 3\n",
        answers: b"r 3 4 8589934590 2 3 1 4\nn 4 3\n",
    },
    // A weight of 0, one way and both ways.
    Example {
        graph: b"p sp 2 1\na 1 2 0\n",
        pairs: b"p aux sp p2p 1\nq 1 2\n",
        answers: b"r 1 2 0 1 1 2\n",
    },
    Example {
        graph: FREE_TEXT,
        pairs: b"p aux sp p2p 2\nq 1 2\nq 1 1\n",
        answers: b"r 1 2 0 1 1 2\nr 1 1 0 0 1\n",
    },
    // An arc, and a way of the same length that has more arcs.
    Example {
        graph: FEWEST_TEXT,
        pairs: b"p aux sp p2p 1\nq 2 3\n",
        answers: b"r 2 3 5 1 2 3\n",
    },
    // Ways of three and of two arcs, equally long.
    Example {
        graph: b"p sp 5 5\na 4 2 1\na 2 3 1\na 3 5 1\na 4 1 2\na 1 5 1\n",
        pairs: b"p aux sp p2p 2\nq 4 5\nq 4 3\n",
        answers: b"r 4 5 3 2 4 1 5\nr 4 3 2 2 4 2 3\n",
    },
    // Two nodes of the highest ranks: the least way goes over one, and the searches from both ends meet at the other first.
    Example {
        graph: TWO_TOPS,
        pairs: b"p aux sp p2p 3\nq 1 2\nq 2 1\nq 3 2\n",
        answers: b"r 1 2 6 2 1 4 2\nn 2 1\nr 3 2 4 1 3 2\n",
    },
    // No pairs.
    Example {
        graph: b"p sp 3 0\n",
        pairs: b"p aux sp p2p 0\n",
        answers: b"",
    },
    // A tie of two ways.
    Example {
        graph: TIE,
        pairs: b"p aux sp p2p 2\nq 3 4\nq 4 3\n",
        answers: b"r 3 4 2 2 3 2 4\nn 4 3\n",
    },
];

/// How many of them have one shortest path for each pair: all but the last.
pub(crate) const UNTIED: usize = 12;

/// The text of the graph of one arc.
pub(crate) const ONE_ARC_TEXT: &[u8] = b"p sp 2 1\na 1 2 7\n";

/// The text of the row of three nodes.
pub(crate) const ROW_TEXT: &[u8] = b"p sp 3 2\na 2 1 2\na 1 3 3\n";

/// The text of two nodes, joined both ways by arcs of weight 0.
const FREE_TEXT: &[u8] = b"p sp 2 2\na 1 2 0\na 2 1 0\n";

/// The text of an arc from 2 to 3, and a way over 1 that is as long.
const FEWEST_TEXT: &[u8] = b"p sp 3 3\na 2 1 0\na 1 3 5\na 2 3 5\n";

/// Arcs of the greatest weight between four nodes; the way 3, 2, 1, 4 is heavy.
const HEAVIEST: &[u8] =
    b"p sp 4 4\na 3 1 4294967295\na 1 2 4294967295\na 2 1 4294967295\na 1 4 4294967295\n";

/// Arcs of weight 1 between four nodes; the ways 3, 1, 4 and 3, 2, 4 are equally long.
const TIE: &[u8] = b"p sp 4 4\na 3 1 1\na 1 4 1\na 3 2 1\na 2 4 1\n";

/// The text of ways from 1 to 2: over 4, of length 6, and over 3, of length 8.
const TWO_TOPS: &[u8] = b"p sp 4 4\na 1 3 4\na 3 2 4\na 1 4 5\na 4 2 1\n";

/// The file of the graph of no node.
pub(crate) const NO_NODE: &[u8] = b"RCH2\0\0\0\0\0\0\0\0\0\0\0\0\0\0\0\0\0\0\0\0";

/// The file of one arc of weight 7, from node 1 to node 2: two nodes, one link, bound 7, two ranks, the link.
pub(crate) const ONE_ARC: &[u8] =
    b"RCH2\0\0\0\x02\0\0\0\0\0\0\0\x01\0\0\0\0\0\0\0\x07\0\0\0\0\0\0\0\x01\
\0\0\0\0\0\0\0\x01\0\0\0\0\0\0\0\x07\0\0\0\x01\xff\xff\xff\xff";

/// The file of a row of three nodes, 2 to 1 of weight 2 and 1 to 3 of weight 3: its last link is the shortcut.
pub(crate) const ROW: &[u8] =
    b"RCH2\0\0\0\x03\0\0\0\0\0\0\0\x03\0\0\0\0\0\0\0\x06\0\0\0\0\0\0\0\x01\0\0\0\x02\
\0\0\0\0\0\0\0\x02\0\0\0\0\0\0\0\x03\0\0\0\x01\xff\xff\xff\xff\
\0\0\0\x01\0\0\0\0\0\0\0\0\0\0\0\x02\0\0\0\x01\xff\xff\xff\xff\
\0\0\0\x01\0\0\0\x02\0\0\0\0\0\0\0\x05\0\0\0\x02\0\0\0\0";
