ghost use Rattle.std.specs.Prelude.{◌≡◌, true, false, IfOk};
ghost use Rattle.clap.specs.declared.builder.command.Command.TheViews.{out-Command};
ghost use Rattle.jobs.specs.Job.{is_out_of_turn, names_one_file};

use crate::version::VERSION;
use clap::error::ErrorKind;
use clap::{Arg, ArgAction, ArgMatches, Command, Error, value_parser};
use jobs::{Call, Check, Job, Order, Preparation, Renewal, Stint, Stop, Workers};
use std::alloc::{AllocError, Global};

/// Returns what the arguments of a command line ask for. The first one is the program's name.
///
/// Arguments that ask for help or the version, and arguments that are refused, stop with the text for the user. One name
/// for both files of `prepare` is refused: the hierarchy would take the place of the graph. So is a stint with an order
/// that takes no turns.
pub fn command(alloc: Global, words: &[String]) -> Result<Call<'_>, Stop>
    ensures files { IfOk result (λ call. names_one_file call.job ≡ false) }
    ensures turns { IfOk result (λ call. is_out_of_turn call.job ≡ false) }
{
    match read_words(alloc, words) {
        Ok(call) => of_two_files_in_turn(call),
        Err(error) => Err(stop_of(alloc, &error)),
    }
}

// The call, unless its job names one file twice, or has a stint and an order that takes no turns.
fn of_two_files_in_turn(call: Call<'_>) -> Result<Call<'_>, Stop>
    ensures files { IfOk result (λ call. names_one_file call.job ≡ false) }
    ensures turns { IfOk result (λ call. is_out_of_turn call.job ≡ false) }
{
    let job = call.job.of_two_files()?;
    let job = job.in_turn()?;
    Ok(Call { job, ..call })
}

// How the program stops at an error of the command line.
fn stop_of(alloc: Global, error: &Error) -> Stop {
    if error.kind() == ErrorKind::OutOfMemory {
        return Stop::OutOfMemory;
    }
    match error.to_string(alloc) {
        Ok(text) if error.use_stderr() => Stop::Refused(text),
        Ok(text) => Stop::Told(text),
        Err(_) => Stop::OutOfMemory,
    }
}

// What the arguments ask for, or the error that is shown to the user.
fn read_words(alloc: Global, words: &[String]) -> Result<Call<'_>, Error> {
    let program = program(alloc)?;
    let matches = program.try_get_matches_from(words)?;
    let Some((name, found)) = matches.subcommand() else {
        unreachable!()
    };
    match job_of(name, found) {
        Some(job) => {
            let explain = found.get_flag("explain");
            Ok(Call { job, explain })
        }
        None => Err(missing_value(alloc)?),
    }
}

// The job of a command by its name, if its files and the values of its options are there.
fn job_of<'a>(name: &str, found: &ArgMatches<'a>) -> Option<Job<'a>> {
    match name {
        "prepare" => preparing(found),
        "route" => routing(found),
        "info" => informing(found),
        "check" => checking(found),
        "renew" => renewing(found),
        _ => answering(found),
    }
}

fn preparing<'a>(found: &ArgMatches<'a>) -> Option<Job<'a>> {
    let (graph, out) = files_of(found, "GRAPH", "OUT")?;
    let workers = workers_of(found)?;
    let seed = found.get_one("seed")?;
    let order = Order::named(found.get_str("order")?)?;
    let stint = stint_of(found)?;
    let progress = found.get_flag("progress");
    Some(Job::Prepare(Preparation {
        graph,
        out,
        workers,
        seed,
        order,
        stint,
        progress,
    }))
}

fn routing<'a>(found: &ArgMatches<'a>) -> Option<Job<'a>> {
    let (hierarchy, queries) = files_of(found, "HIER", "QUERIES")?;
    Some(Job::Route { hierarchy, queries })
}

fn informing<'a>(found: &ArgMatches<'a>) -> Option<Job<'a>> {
    let hierarchy = found.get_str("HIER")?;
    Some(Job::Info { hierarchy })
}

fn checking<'a>(found: &ArgMatches<'a>) -> Option<Job<'a>> {
    let (graph, hierarchy) = files_of(found, "GRAPH", "HIER")?;
    let progress = found.get_flag("progress");
    Some(Job::Check(Check {
        graph,
        hierarchy,
        progress,
    }))
}

fn renewing<'a>(found: &ArgMatches<'a>) -> Option<Job<'a>> {
    let old = found.get_str("OLD")?;
    let (graph, out) = files_of(found, "GRAPH", "OUT")?;
    let progress = found.get_flag("progress");
    Some(Job::Renew(Renewal {
        old,
        graph,
        out,
        progress,
    }))
}

fn answering<'a>(found: &ArgMatches<'a>) -> Option<Job<'a>> {
    let (graph, queries) = files_of(found, "GRAPH", "QUERIES")?;
    Some(Job::Answer { graph, queries })
}

// The two files of these names, if both are there.
fn files_of<'a>(found: &ArgMatches<'a>, first: &str, second: &str) -> Option<(&'a str, &'a str)> {
    Some((found.get_str(first)?, found.get_str(second)?))
}

// How many workers are asked for, or that there are none but the calling thread, if that is so.
fn workers_of(found: &ArgMatches<'_>) -> Option<Option<Workers>> {
    if found.get_flag("sequential") {
        return Some(None);
    }
    let workers = Workers::new(found.get_one("workers")?)?;
    Some(Some(workers))
}

// The stint that is asked for, or that there is none, if that is so.
fn stint_of(found: &ArgMatches<'_>) -> Option<Option<Stint>> {
    if !found.contains_id("stint") {
        return Some(None);
    }
    let stint = Stint::new(found.get_one("stint")?)?;
    Some(Some(stint))
}

// The error of a command line without a value that is required.
fn missing_value(alloc: Global) -> Result<Error, AllocError> {
    let mut answer = answer(alloc)?;
    answer.error(
        ErrorKind::MissingRequiredArgument,
        "a file or the value of an option is missing",
    )
}

// The program's command line.
fn program<'a>(alloc: Global) -> Result<Command<'a>, AllocError>
    ensures local { IfOk result (λ program. (out-Command program).has_globals ≡ false) }
    ensures needs { IfOk result (λ program. (out-Command program).subcommand_required ≡ true) }
{
    let program = Command::new(alloc, "routecli")
        .version(VERSION)
        .about(
            "Finds shortest paths in a road graph: for each pair of nodes the length and the nodes of one",
        )
        .after_help(STATUSES);
    let program = with(program, answer(alloc))?;
    let program = with(program, prepare(alloc))?;
    let program = with(program, route(alloc))?;
    let program = with(program, info(alloc))?;
    let program = with(program, check(alloc))?;
    let program = with(program, renew(alloc))?;
    Ok(with_a_command(program))
}

// The command line with one more command, if that could be made.
fn with<'a>(
    program: Command<'a>,
    command: Result<Command<'a>, AllocError>,
) -> Result<Command<'a>, AllocError>
    requires program { (out-Command program).has_globals ≡ false }
    requires command { IfOk command (λ it. (out-Command it).has_globals ≡ false) }
    ensures { IfOk result (λ it. (out-Command it).has_globals ≡ false) }
{
    program.subcommand(command?)
}

// The command line, which is refused if its arguments name no command.
fn with_a_command(program: Command<'_>) -> Command<'_>
    ensures local { (out-Command result).has_globals ≡ (out-Command program.entry).has_globals }
    ensures needs { (out-Command result).subcommand_required ≡ true }
{
    program.subcommand_required(true)
}

fn answer<'a>(alloc: Global) -> Result<Command<'a>, AllocError>
    ensures { IfOk result (λ answer. (out-Command answer).has_globals ≡ false) }
{
    Command::new(alloc, "answer")
        .about(
            "Finds shortest paths in a small graph: r S T LENGTH ARCS and the nodes for each pair, or n S T if there is none",
        )
        .after_help(ANSWERING)
        .arg(explain(alloc))?
        .arg(file(alloc, "GRAPH", GRAPH))?
        .arg(file(alloc, "QUERIES", QUERIES))
}

fn prepare<'a>(alloc: Global) -> Result<Command<'a>, AllocError>
    ensures { IfOk result (λ prepare. (out-Command prepare).has_globals ≡ false) }
{
    preparation(alloc)?
        .arg(explain(alloc))?
        .arg(file(alloc, "GRAPH", GRAPH))?
        .arg(file(alloc, "OUT", OUT))
}

// The command to prepare, with what is chosen for that alone.
fn preparation<'a>(alloc: Global) -> Result<Command<'a>, AllocError>
    ensures { IfOk result (λ prepare. (out-Command prepare).has_globals ≡ false) }
{
    let sequential = sequential(alloc)?;
    Command::new(alloc, "prepare")
        .about("Prepares a hierarchy of a graph, from which route answers")
        .after_help(PREPARING)
        .arg(workers(alloc))?
        .arg(sequential)?
        .arg(seed(alloc))?
        .arg(order(alloc))?
        .arg(stint(alloc))?
        .arg(progress(alloc, PROGRESS))
}

fn route<'a>(alloc: Global) -> Result<Command<'a>, AllocError>
    ensures { IfOk result (λ route. (out-Command route).has_globals ≡ false) }
{
    Command::new(alloc, "route")
        .about("Finds shortest paths, as answer does, using a prepared hierarchy")
        .after_help(ROUTING)
        .arg(explain(alloc))?
        .arg(file(alloc, "HIER", HIER))?
        .arg(file(alloc, "QUERIES", QUERIES))
}

fn info<'a>(alloc: Global) -> Result<Command<'a>, AllocError>
    ensures { IfOk result (λ info. (out-Command info).has_globals ≡ false) }
{
    Command::new(alloc, "info")
        .about("Prints the version, nodes, links, bound and bytes of a prepared hierarchy")
        .after_help(INFORMING)
        .arg(explain(alloc))?
        .arg(file(alloc, "HIER", HIER))
}

fn check<'a>(alloc: Global) -> Result<Command<'a>, AllocError>
    ensures { IfOk result (λ check. (out-Command check).has_globals ≡ false) }
{
    Command::new(alloc, "check")
        .about(
            "Verifies that a hierarchy is right for a graph, whoever made it: if it prints right, that is proved",
        )
        .after_help(CHECKING)
        .arg(progress(alloc, CHECK_PROGRESS))?
        .arg(explain(alloc))?
        .arg(file(alloc, "GRAPH", GRAPH))?
        .arg(file(alloc, "HIER", CHECKED))
}

fn renew<'a>(alloc: Global) -> Result<Command<'a>, AllocError>
    ensures { IfOk result (λ renew. (out-Command renew).has_globals ≡ false) }
{
    Command::new(alloc, "renew")
        .about(
            "Prepares a hierarchy of a graph in the order of an old one, in less time than prepare",
        )
        .after_help(RENEWING)
        .arg(progress(alloc, PROGRESS))?
        .arg(explain(alloc))?
        .arg(file(alloc, "OLD", OLD))?
        .arg(file(alloc, "GRAPH", GRAPH))?
        .arg(file(alloc, "OUT", OUT))
}

// A file that has to be named.
fn file<'a>(alloc: Global, name: &'a str, help: &'a str) -> Arg<'a>
    ensures { result.global ≡ false }
{
    Arg::new(alloc, name)
        .help(help)
        .required(true)
        .action(ArgAction::Set)
}

// How many workers there are.
fn workers<'a>(alloc: Global) -> Arg<'a>
    ensures { result.global ≡ false }
{
    option(alloc, "workers", "K", WORKERS)
        .default_value("4")
        .value_parser(value_parser!(u32).range(0..=64))
}

// Whether the calling thread contracts the nodes, in place of workers.
fn sequential<'a>(alloc: Global) -> Result<Arg<'a>, AllocError>
    ensures { IfOk result (λ it. it.global ≡ false) }
{
    Arg::new(alloc, "sequential")
        .long("sequential")
        .help(SEQUENTIAL)
        .action(ArgAction::SetTrue)
        .conflicts_with("workers")
}

// The seed of their draws.
fn seed<'a>(alloc: Global) -> Arg<'a>
    ensures { result.global ≡ false }
{
    option(alloc, "seed", "S", SEED)
        .default_value("1")
        .value_parser(value_parser!(u64))
}

// The order in which they contract nodes.
fn order<'a>(alloc: Global) -> Arg<'a>
    ensures { result.global ≡ false }
{
    option(alloc, "order", "ORDER", Order::HELP)
        .default_value(Order::ALL[0].name())
        .value_parser(Order::NAMES.as_slice())
}

// How many commits they make by one order.
fn stint<'a>(alloc: Global) -> Arg<'a>
    ensures { result.global ≡ false }
{
    option(alloc, "stint", "C", STINT).value_parser(value_parser!(u64).range(1..=1_099_511_627_776))
}

// Whether the user is shown how far they are.
fn progress<'a>(alloc: Global, help: &'a str) -> Arg<'a>
    ensures { result.global ≡ false }
{
    Arg::new(alloc, "progress")
        .long("progress")
        .help(help)
        .action(ArgAction::SetTrue)
}

// Whether a refusal is explained without a terminal.
fn explain<'a>(alloc: Global) -> Arg<'a>
    ensures { result.global ≡ false }
{
    Arg::new(alloc, "explain")
        .long("explain")
        .help(EXPLAIN)
        .action(ArgAction::SetTrue)
}

// An option with a value.
fn option<'a>(alloc: Global, name: &'a str, value: &'a str, help: &'a str) -> Arg<'a>
    ensures { result.global ≡ false }
{
    Arg::new(alloc, name)
        .long(name)
        .value_name(value)
        .help(help)
        .action(ArgAction::Set)
}

const GRAPH: &str = "Graph file: p sp N M, and a line a U V W for each arc from U to V of weight W";

const QUERIES: &str = "Query file: p aux sp p2p K, and a line q S T for each pair";

const OUT: &str = "Hierarchy file to write, once the hierarchy is prepared";

const WORKERS: &str =
    "Number of threads that contract nodes, 0 to 64; with 0 the main thread contracts them in numerical order";

const SEQUENTIAL: &str =
    "Contract nodes on one thread, without shared state: makes the file of --workers 1, in less time and memory";

const SEED: &str = "Seed of the random choices, 0 to 18446744073709551615";

const STINT: &str =
    "Switch each thread to the next order after C contractions, 1 to 1099511627776: from the requested one through the others of edges, neighbours and depth; by default it keeps the requested one";

const PROGRESS: &str =
    "Show progress from the start (by default after a second) and what was made at the end, if standard error is a terminal";

const EXPLAIN: &str =
    "Explain errors in detail on standard error; the default at a terminal, or with ROUTECLI_EXPLAIN=1";

const HIER: &str = "Hierarchy file that prepare wrote";

const STATUSES: &str =
    "Exit status: 0 success, 2 command line, 3 graph file, 4 hierarchy file, 5 query file, 6 out of memory, 7 read or write failed, 8 threads disagree, 9 hierarchy is wrong, 10 not shown to be right\n\n\
Example: routecli prepare --order balanced net.gr net.rch && routecli route net.rch net.pairs";

const PREPARING: &str =
    "Recommended: balanced, whose answers are the fastest. The default is edges only for compatibility.\n\n\
Options never affect whether answers are right, only the time that preparing takes and the size of OUT.\n\n\
Example: routecli prepare --order balanced net.gr net.rch";

const ROUTING: &str = "Example: routecli route net.rch net.pairs\n\n\
With a first pair from node 1 to node 3 it may print r 1 3 700 2 1 2 3: the pair, the length, 2 arcs, and 3 nodes.";

const INFORMING: &str =
    "The file is read to its end, and refused if route refuses it; the bound is the greatest length that a path may have.\n\n\
Example: routecli info net.rch";

const CHECKED: &str = "Hierarchy file to check";

const CHECK_PROGRESS: &str =
    "Show progress from the start (by default after a second), if standard error is a terminal";

const CHECKING: &str =
    "It prints right, with status 0; wrong: and what shows that, with status 9; or not shown: and where, or that it took too much work, with status 10, which is no proof that the file is wrong.\n\n\
From a file that is right, route answers with shortest paths of GRAPH.\n\n\
Example: routecli check net.gr net.rch";

const OLD: &str = "Hierarchy file, of which only the order of the nodes is used";

const RENEWING: &str =
    "For new weights of a network: OLD is a hierarchy of the same nodes, and GRAPH has the new weights. With another number of nodes it ends with status 9, wrong: nodes.\n\n\
OLD never affects whether answers are right, only the time that this takes and the size of OUT.\n\n\
Example: routecli renew net.rch new.gr new.rch";

const ANSWERING: &str =
    "With - for both files, standard input has both texts, separated by a line that is %.\n\n\
It prepares the graph for every call: for more than a few thousand nodes use prepare once, and then route.\n\n\
Example: routecli answer net.gr net.pairs";
