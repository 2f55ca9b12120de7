ghost use Rattle.ch_laws.specs.Theorems.{RowOfAlive, RowsAreState, RowsGoOn, RowsStart};

/// The row of an alive node has no rank, and its entries are the arcs of the remaining graph there. It does nothing
/// when it runs.
pub fn rows_of_alive_nodes_show_what_remains()
    ensures { RowOfAlive }
{}

/// The rows of all nodes and the order of contraction are the state.
pub fn rows_are_the_state()
    ensures { RowsAreState }
{}

/// Rows of least arcs, without middles, are the rows of the state before any contraction. It does nothing when it
/// runs.
pub fn rows_of_least_arcs_are_the_start()
    ensures { RowsStart }
{}

/// The rows of all nodes, changed as defined where a contraction touches them, are the rows of the next state. It does
/// nothing when it runs.
pub fn updated_rows_are_the_next()
    ensures { RowsGoOn }
{}
