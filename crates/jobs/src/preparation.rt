ghost use Rattle.std.specs.Prelude.{◌≡◌};
ghost use Rattle.jobs.specs.Orders.{orders_of, stint_of};

use crate::orders::{Order, Orders};
use crate::stint::Stint;
use crate::workers::Workers;

/// What a hierarchy is to be prepared of, where it is to be put, and how.
#[derive(Clone, Copy, Debug, PartialEq, Eq)]
pub struct Preparation<'a> {
    /// The file with the graph's text.
    pub graph: &'a str,
    /// The file that is made for the hierarchy.
    pub out: &'a str,
    /// How many workers contract the nodes. `None`: the calling thread does, by the rules of one worker.
    pub workers: Option<Workers>,
    /// The seed of the draws by which they choose nodes.
    pub seed: u64,
    /// Which nodes go first.
    pub order: Order,
    /// After how many commits a worker changes to another order; without a stint it keeps to the one.
    pub stint: Option<Stint>,
    /// Whether the user is shown how far it has come, at a terminal.
    pub progress: bool,
}

impl Preparation<'_> {
    /// Returns the orders that each worker uses, one after the other: the one that is asked for, and with stints then
    /// the others.
    pub fn orders(&self) -> Orders
        ensures { result ≡ orders_of self.now.order self.now.stint }
    {
        match self.stint {
            Some(_) => self.order.and_others(),
            None => self.order.alone(),
        }
    }

    /// Returns the number of commits that a worker makes by one order, where another is left: the longest stint, if
    /// none is asked for.
    pub fn stint(&self) -> Stint
        ensures { result.commits ≡ stint_of self.now.stint }
    {
        self.stint.unwrap_or(Stint::longest())
    }
}
