use ch_rowbook::Book;
use std::marker::Brand;

/// A type that names a graph beside a book of rows, so that boards of this type are known to be of both.
///
/// The names are picked where a graph and a blank are at hand, at the call of a function that is generic in it; no value
/// of the type is ever made. Such a function, `fn work<S: Site>(.., blank: Blank, graph: Graph, ..)` with
/// `requires { S.graph ≡ graph }` and `requires { S.book ≡ name_of blank }`, has no `S` in the types of its signature.
/// Its caller passes [`Brand`], as `work::<Brand>(.., blank, graph, ..)`, and says in the file Invariants.antt of its own
/// proof that the names are those of the arguments:
///
/// ```text
/// abbrev pub ghosts-work-S-Book : goal.ghosts-work-S-Book
/// ghosts-work-S-Book a = record { book = name_of a.blank }
///
/// abbrev pub ghosts-work-S-Site : goal.ghosts-work-S-Site
/// ghosts-work-S-Site a = record { graph = a.graph }
/// ```
pub trait Site: Book {
    ghost use Rattle.ch_graph.specs.Graph.{Graph};

    /// The graph.
    ghost graph: { Graph };
}

/// Names the graph that its caller picks, and the graph without nodes where none is picked.
impl Site for Brand {
    ghost use Rattle.std.specs.Prelude.{[]};

    ghost graph = { record { nodes = 0; arcs = [] } };
}
