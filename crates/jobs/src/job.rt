ghost use Rattle.std.specs.Prelude.{◌≡◌, true, false, IfErr, IfOk};

use crate::preparation::Preparation;

/// What the program is asked for.
#[derive(Clone, Copy, Debug, PartialEq, Eq)]
pub enum Job<'a> {
    /// To answer pairs over a graph.
    Answer {
        /// The file with the graph's text.
        graph: &'a str,
        /// The query file.
        queries: &'a str,
    },
    /// To prepare a hierarchy of a graph.
    Prepare(Preparation<'a>),
    /// To answer pairs by a hierarchy.
    Route {
        /// The file of the hierarchy.
        hierarchy: &'a str,
        /// The query file.
        queries: &'a str,
    },
    /// To print what the file of a hierarchy has.
    Info {
        /// The file of the hierarchy.
        hierarchy: &'a str,
    },
    /// To check that a hierarchy is right for a graph.
    Check(Check<'a>),
    /// To make the hierarchy of a graph by the order of another hierarchy.
    Renew(Renewal<'a>),
}

/// Which hierarchy is to be checked against which graph.
#[derive(Clone, Copy, Debug, PartialEq, Eq)]
pub struct Check<'a> {
    /// The file with the graph's text.
    pub graph: &'a str,
    /// The file of the hierarchy.
    pub hierarchy: &'a str,
    /// Whether the user is shown how far it has come, at a terminal.
    pub progress: bool,
}

/// Of which graph a hierarchy is to be made by the order of which, and where it is to be put.
#[derive(Clone, Copy, Debug, PartialEq, Eq)]
pub struct Renewal<'a> {
    /// The file of the hierarchy that has the order.
    pub old: &'a str,
    /// The file with the graph's text.
    pub graph: &'a str,
    /// The file that is made for the hierarchy.
    pub out: &'a str,
    /// Whether the user is shown how far it has come, at a terminal.
    pub progress: bool,
}

/// What a command line asks for.
#[derive(Clone, Copy, Debug, PartialEq, Eq)]
pub struct Call<'a> {
    /// The job.
    pub job: Job<'a>,
    /// Whether a refusal is explained even if standard error is no terminal.
    pub explain: bool,
}

/// Why a command line names no job, with the text for the user.
#[derive(Debug, Drop)]
pub enum Stop {
    /// Help or the version was asked for.
    Told(String),
    /// The arguments were refused.
    Refused(String),
    /// An argument isn't text in UTF-8.
    NotText,
    /// The graph and the file that is made for its hierarchy are one file.
    OneFile,
    /// A worker is to change, with stints, from an order that takes no turns.
    OutOfTurn,
    /// Out of memory.
    OutOfMemory,
}

impl Job<'_> {
    ghost use Rattle.jobs.specs.Job.{is_joined, is_out_of_turn, names_one_file};
    ghost use Rattle.jobs.specs.declared.job.Stop.TheVariants.{OneFile, OutOfTurn};

    /// Whether a graph's text and that of the pairs are in one input, which is standard input: both files of
    /// `answer` are named `-`.
    pub fn is_joined(&self) -> bool
        ensures { result ≡ is_joined self.now }
    {
        match self {
            Job::Answer { graph, queries } => *graph == "-" && *queries == "-",
            Job::Prepare(_)
            | Job::Route { .. }
            | Job::Info { .. }
            | Job::Check(_)
            | Job::Renew(_) => false,
        }
    }

    /// Whether `prepare` or `renew` would make its file under the graph's own name.
    pub fn names_one_file(&self) -> bool
        ensures { result ≡ names_one_file self.now }
    {
        match self {
            Job::Prepare(preparation) => preparation.graph == preparation.out,
            Job::Renew(renewal) => renewal.graph == renewal.out,
            Job::Answer { .. } | Job::Route { .. } | Job::Info { .. } | Job::Check(_) => false,
        }
    }

    /// Returns the job, unless `prepare` or `renew` would make its file under the graph's own name: the hierarchy would
    /// take the place of the graph.
    pub fn of_two_files(self) -> Result<Self, Stop>
        ensures same { IfOk result (λ job. job ≡ self.entry) }
        ensures two { IfOk result (λ job. names_one_file job ≡ false) }
        ensures one { IfErr result (λ stop. (stop ≡ OneFile) × (names_one_file self.entry ≡ true)) }
    {
        if self.names_one_file() {
            Err(Stop::OneFile)
        } else {
            Ok(self)
        }
    }

    /// Whether workers are to change, with stints, from an order that takes no turns.
    pub fn is_out_of_turn(&self) -> bool
        ensures { result ≡ is_out_of_turn self.now }
    {
        match self {
            Job::Prepare(preparation) => {
                preparation.stint.is_some() && !preparation.order.takes_turns()
            }
            Job::Answer { .. }
            | Job::Route { .. }
            | Job::Info { .. }
            | Job::Check(_)
            | Job::Renew(_) => false,
        }
    }

    /// Returns the job, unless workers are to change, with stints, from an order that takes no turns.
    pub fn in_turn(self) -> Result<Self, Stop>
        ensures same { IfOk result (λ job. job ≡ self.entry) }
        ensures turns { IfOk result (λ job. is_out_of_turn job ≡ false) }
        ensures out { IfErr result (λ stop. (stop ≡ OutOfTurn) × (is_out_of_turn self.entry ≡ true)) }
    {
        if self.is_out_of_turn() {
            Err(Stop::OutOfTurn)
        } else {
            Ok(self)
        }
    }
}
