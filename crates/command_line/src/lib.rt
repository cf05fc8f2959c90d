//! The command line of the program: its commands, their options and what they say of themselves.
#![tactic(auto)]

use clap::{Arg, ArgAction, Command, Error, value_parser};
use std::alloc::{AllocError, Global};

// A help's end, with where the files are that it names.
macro_rules! with_files {
    ($text:literal) => {
        concat!(
            $text,
            "\n\nThe files of docs and examples are those of a clone. Where maglev is installed they are below PREFIX/share/doc/maglev."
        )
    };
}

/// The end of the program's help.
const PROGRAM_HELP: &str =
    "With -v a command says more on standard error: maglev -v COMMAND .. does what maglev COMMAND -v .. does.";

/// The end of the help of `simulate`.
const SIMULATE_HELP: &str = with_files!(
    "Example: maglev simulate --list examples/failover.toml examples/failover.pcap sent.pcap

SCENARIO, INPUT and OUTPUT may be -, which is standard input or output. Where OUTPUT is standard output the report is printed on standard error. With --syn or --syn-after INPUT is read twice, so that it can be neither - nor a pipe.

Steps of a scenario, of balancers N, versions V, workers W and records P:
  install N V    N gets version V
  live [N ..]    from now on these balancers get packets, and no other
  take K         the next K records are delivered
  lose K         the next K records are read and lost
  again P        record P, counted from 0, is delivered again
  full N [W ..]  from now on these workers of N refuse packets, and no other
  hold N         N's workers serve nothing
  drain N        N's workers serve what waits, and go on
  restart N      N's workers begin anew, without what waits
In format 3 install and restart take * as N, which is each balancer, and take takes it as K, which is all that remain. There until T delivers what came less than T seconds after the first record, as in until 90 or until 0.5.

Faults, and what to do:
  OpenScenario, OpenInput      check the path, and who may read the file
  OpenOutput                   check the path; a file that is read can't be OUTPUT
  ReadScenario, Read           check the disk
  BadToml, BadFormat, BadKey   correct the scenario: docs/FORMATS.md has each key
  BadMember                    write NAME@ADDRESS or NAME@ADDRESS/down; from format 2 on also *W before /down, in format 3 also /drain for /down, and NAME alone for one of [servers]
  BadNumber, NumberTaken       give each version a number of its own, from 1; with --node the scenario has no balancer N
  DoubleService, DoubleName    give each service its address, protocol and port, each member its name
  TooMany                      take fewer members than slots, or fewer services or versions
  BadStep N                    correct step N, counted from 0
  ShortHeader, BadMagic, BadVersion, BadLink
                               convert INPUT: docs/USING.md has the commands
  TooLong                      shorten the scenario; or INPUT is damaged
  NoRandom                     let the program read random bytes of the system
  Write                        make room, or open standard output
  Memory                       allow more memory, or take fewer slots, versions and entries"
);

/// The end of the help of `run`.
const RUN_HELP: &str = with_files!(
    "Example: maglev run examples/failover.toml examples/failover.pcap sent.pcap

SCENARIO, INPUT and OUTPUT may be -, as for simulate. Steps are those of simulate but for full, hold and drain, which are BadStep. There is one more, which is BadStep in simulate: stop N, at which N's workers end before their next packet and begin anew, without what waits; in format 3 N may be * there too. With --splits events are numbered, and packets ordered, as in the run's history. That goes node by node: of each life first the node's commands and then the servings, worker by worker.

Faults are those of simulate, and:
  ThreadLost           allow more threads, or take fewer nodes and workers
  Foreign, RingLost, BookLost
                       report it as a bug: what the threads did isn't what was promised"
);

/// The end of the help of `explain`.
const EXPLAIN_HELP: &str = with_files!(
    "Example: maglev explain examples/failover.toml examples/failover.pcap 13 15

SCENARIO or INPUT may be -, which is standard input. Faults are those of simulate."
);

/// The end of the help of `plan`.
const PLAN_HELP: &str = with_files!(
    "Example: maglev plan examples/rolling.toml 1 2

Each service has a block. Of its slots that name another server, down counts those whose server isn't up any more, moved those whose server is; no table with the same counts changes fewer than least. Where a server drains in TO, drained counts the slots of such servers apart from down. Without TO the slots of the version FROM are printed alone. A version that lacks a service counts as one where it has no members.

With --order the servers that leave from FROM to TO are replaced one by one, and with each the next by name that joins. Each order in which they can be has a line: how many slots name another server though theirs stays, over all steps and services, and the servers. The fewest come first. Of more than six servers there is one order, whose every step moves the fewest.

SCENARIO may be -, which is standard input. Faults of the scenario are those of simulate. BadNumber comes also where it has no version FROM or TO."
);

/// The end of the help of `scenario`.
const SCENARIO_HELP: &str = with_files!(
    "Example: maglev scenario examples/rolling.pcap > scenario.toml

INPUT may be -, which is standard input. The scenario has a service for each address, protocol and port to which more than 5 packets went, the most frequent first. A destination that is the other direction of another one, as a client's port is, is left out: docs/FORMATS.md has the rule. Fill in the members of each, and play it with simulate. Faults are those of simulate for INPUT, NoRandom, Write and Memory."
);

/// The end of the help of `table`.
const TABLE_HELP: &str = with_files!(
    "Example: maglev table --size 7 --hash sum A B C

With --scenario FILE --version V the table is that of a service of the scenario's version V: --service names it where there are several.

Example: maglev table --scenario examples/failover.toml --version 1"
);

/// The end of the help of `compare`.
const COMPARE_HELP: &str = with_files!(
    "Example: maglev compare --size 7 --hash sum --old 'A@10.8.0.1 B@10.8.0.2' --new 'A@10.8.0.1 B@10.8.0.2/down'

With --scenario FILE --from V --to W the members are those of a service in the scenario's versions V and W: --service names it where there are several.

Example: maglev compare --scenario examples/failover.toml --from 1 --to 2"
);

/// The end of the help of `pick`.
const PICK_HELP: &str = with_files!(
    "The datagram is read from standard input.

Example: echo 4500001c000100004011aece0a000001c000020103e8003500080000 | maglev pick --size 7 --hash sum A B C

With --scenario FILE --version V the backend is the one that a new flow gets in the scenario's version V."
);

// Options are made out of line, since most of them stand in several commands.

#[inline(never)]
fn size<'a>(alloc: Global) -> Result<Arg<'a>, AllocError> {
    Arg::new(alloc, "size")
        .long("size")
        .value_name("M")
        .help("slots of the table: 7, 13, 251, 1021, 8191 or 65537")
        .action(ArgAction::Set)
        .value_parser(value_parser!(u32))
        .required_unless_present("described")
}

#[inline(never)]
fn hash<'a>(alloc: Global) -> Result<Arg<'a>, AllocError> {
    Arg::new(alloc, "hash")
        .long("hash")
        .value_name("H")
        .help("hash of names and flows: fnv, sha256 or sum")
        .action(ArgAction::Set)
        .required_unless_present("described")
}

// The scenario whose size, hash and members a table has.
#[inline(never)]
fn described<'a>(alloc: Global) -> Result<Arg<'a>, AllocError> {
    Arg::new(alloc, "described")
        .long("scenario")
        .value_name("FILE")
        .help("take the size, the hash and the members from a scenario")
        .action(ArgAction::Set)
        .conflicts_with("size")?
        .conflicts_with("hash")
}

// The same in place of names.
#[inline(never)]
fn with_names<'a>(alloc: Global) -> Result<Arg<'a>, AllocError> {
    described(alloc)?
        .requires_arg("version")?
        .conflicts_with("names")
}

// The same in place of two lists of members.
#[inline(never)]
fn with_members<'a>(alloc: Global) -> Result<Arg<'a>, AllocError> {
    described(alloc)?
        .requires_arg("from")?
        .requires_arg("to")?
        .conflicts_with("old")?
        .conflicts_with("new")
}

// A version of that scenario.
#[inline(never)]
fn version_by<'a>(
    alloc: Global,
    id: &'a str,
    name: &'a str,
    help: &'a str,
) -> Result<Arg<'a>, AllocError> {
    Arg::new(alloc, id)
        .long(id)
        .value_name(name)
        .help(help)
        .action(ArgAction::Set)
        .value_parser(value_parser!(u32))
        .requires_arg("described")?
        .conflicts_with("size")
}

#[inline(never)]
fn of_version<'a>(alloc: Global) -> Result<Arg<'a>, AllocError> {
    version_by(alloc, "version", "V", "number of the scenario's version")
}

#[inline(never)]
fn service<'a>(alloc: Global) -> Result<Arg<'a>, AllocError> {
    Arg::new(alloc, "service")
        .long("service")
        .value_name("S")
        .help("the scenario's service, as 192.0.2.1:80/tcp; the only one where it is left out")
        .action(ArgAction::Set)
        .requires_arg("described")?
        .conflicts_with("size")
}

#[inline(never)]
fn names<'a>(alloc: Global) -> Result<Arg<'a>, AllocError> {
    Arg::new(alloc, "names")
        .value_name("NAME")
        .help(
            "name of a backend: 1 to 32 letters, digits, '-' and '.', the first a letter or digit; NAME*W gives it a weight from 1 to 16",
        )
        .action(ArgAction::Append)
        .num_args(1..)
        .required_unless_present("described")
}

#[inline(never)]
fn no_check<'a>(alloc: Global) -> Arg<'a> {
    Arg::new(alloc, "no-check")
        .long("no-check")
        .help("don't test the header checksum")
        .action(ArgAction::SetTrue)
}

fn table<'a>(alloc: Global) -> Result<Command<'a>, AllocError> {
    let args = [
        size(alloc)?,
        hash(alloc)?,
        with_names(alloc)?,
        of_version(alloc)?,
        service(alloc)?,
        json(alloc),
        of_words(alloc),
        names(alloc)?,
    ];
    let args = Vec::from_array(alloc, args)?;
    begun(alloc, 0).after_help(TABLE_HELP).args(args)
}

fn pick<'a>(alloc: Global) -> Result<Command<'a>, AllocError> {
    let args = [
        size(alloc)?,
        hash(alloc)?,
        with_names(alloc)?,
        of_version(alloc)?,
        no_check(alloc),
        json(alloc),
        of_words(alloc),
        names(alloc)?,
    ];
    let args = Vec::from_array(alloc, args)?;
    begun(alloc, 1).after_help(PICK_HELP).args(args)
}

#[inline(never)]
fn members<'a>(alloc: Global, id: &'a str, help: &'a str) -> Result<Arg<'a>, AllocError> {
    Arg::new(alloc, id)
        .long(id)
        .value_name("MEMBERS")
        .help(help)
        .action(ArgAction::Set)
        .required_unless_present("described")
}

#[inline(never)]
fn old<'a>(alloc: Global) -> Result<Arg<'a>, AllocError> {
    let help =
        "members before: NAME@ADDRESS, then *W for a weight from 1 to 16, then /down where it is down, joined by single spaces";
    members(alloc, "old", help)
}

#[inline(never)]
fn new<'a>(alloc: Global) -> Result<Arg<'a>, AllocError> {
    members(alloc, "new", "members after")
}

fn compare<'a>(alloc: Global) -> Result<Command<'a>, AllocError> {
    let args = [
        size(alloc)?,
        hash(alloc)?,
        old(alloc)?,
        new(alloc)?,
        with_members(alloc)?,
        version_by(
            alloc,
            "from",
            "V",
            "number of the scenario's version before",
        )?,
        version_by(alloc, "to", "W", "number of the scenario's version after")?,
        service(alloc)?,
        json(alloc),
        of_words(alloc),
    ];
    let args = Vec::from_array(alloc, args)?;
    begun(alloc, 2).after_help(COMPARE_HELP).args(args)
}

#[inline(never)]
fn file<'a>(alloc: Global, id: &'a str, name: &'a str, help: &'a str) -> Arg<'a> {
    Arg::new(alloc, id)
        .value_name(name)
        .help(help)
        .required(true)
        .action(ArgAction::Set)
}

#[inline(never)]
fn scenario<'a>(alloc: Global) -> Arg<'a> {
    let help = "file of the scenario: TOML, at most 1,048,576 bytes";
    file(alloc, "scenario", "SCENARIO", help)
}

#[inline(never)]
fn input<'a>(alloc: Global) -> Arg<'a> {
    let help = "capture that is read: classic pcap of Ethernet or raw IP";
    file(alloc, "input", "INPUT", help)
}

#[inline(never)]
fn output<'a>(alloc: Global) -> Arg<'a> {
    let help = "capture that is written: what the cluster sends, in GRE";
    file(alloc, "output", "OUTPUT", help)
}

#[inline(never)]
fn event<'a>(alloc: Global, id: &'a str, name: &'a str) -> Arg<'a> {
    Arg::new(alloc, id)
        .value_name(name)
        .help("number of an event, from 0, as simulate --list prints it")
        .required(true)
        .action(ArgAction::Set)
        .value_parser(value_parser!(u64))
}

#[inline(never)]
fn verbose<'a>(alloc: Global, help: &'a str) -> Arg<'a> {
    Arg::new(alloc, "verbose")
        .short('v')
        .long("verbose")
        .help(help)
        .action(ArgAction::SetTrue)
}

// What a command without a scenario says more.
#[inline(never)]
fn of_words<'a>(alloc: Global) -> Arg<'a> {
    verbose(alloc, "say which word is wrong and what was expected")
}

// What a command with a scenario says more.
#[inline(never)]
fn of_places<'a>(alloc: Global) -> Arg<'a> {
    let help = "say where a fault is and what was expected, or warn of what may not be meant";
    verbose(alloc, help)
}

// What a command with a capture alone says more.
#[inline(never)]
fn of_captures<'a>(alloc: Global) -> Arg<'a> {
    verbose(alloc, "say where a fault is and what was expected")
}

#[inline(never)]
fn splits<'a>(alloc: Global) -> Arg<'a> {
    Arg::new(alloc, "splits")
        .long("splits")
        .help("print each flow that was split, and why, before the report")
        .action(ArgAction::SetTrue)
}

#[inline(never)]
fn places<'a>(alloc: Global) -> Arg<'a> {
    Arg::new(alloc, "where")
        .long("where")
        .help(
            "print the splits with where both packets were sent, when, and why the later one went elsewhere",
        )
        .action(ArgAction::SetTrue)
}

#[inline(never)]
fn summary<'a>(alloc: Global) -> Arg<'a> {
    Arg::new(alloc, "summary")
        .long("summary")
        .help(
            "print behind the report how many connections changed their server, how often, and why",
        )
        .action(ArgAction::SetTrue)
}

#[inline(never)]
fn syn<'a>(alloc: Global) -> Arg<'a> {
    Arg::new(alloc, "syn")
        .long("syn")
        .help(
            "count a flow that begins again, by a TCP SYN without ACK after FIN or RST, as another connection, for the splits and the summary",
        )
        .action(ArgAction::SetTrue)
}

#[inline(never)]
fn syn_after<'a>(alloc: Global) -> Arg<'a> {
    Arg::new(alloc, "syn-after")
        .long("syn-after")
        .value_name("SECONDS")
        .help(
            "the same, and a SYN also begins a flow again that had no segment for so long, as 60 or 0.5",
        )
        .action(ArgAction::Set)
}

#[inline(never)]
fn backends<'a>(alloc: Global) -> Arg<'a> {
    Arg::new(alloc, "per-backend")
        .long("per-backend")
        .help(
            "print behind the report how many packets, bytes and flows each backend got under each version",
        )
        .action(ArgAction::SetTrue)
}

#[inline(never)]
fn nodes<'a>(alloc: Global) -> Arg<'a> {
    Arg::new(alloc, "per-node")
        .long("per-node")
        .help("print behind the report what each balancer sent under each version")
        .action(ArgAction::SetTrue)
}

/// What may be done with records that a snap length cut.
const WAYS_WITH_CUT: [&str; 1] = ["pad"];

#[inline(never)]
fn cut<'a>(alloc: Global) -> Arg<'a> {
    Arg::new(alloc, "cut")
        .long("cut")
        .value_name("WAY")
        .help("play a record that a snap length cut as it was, with zeros where bytes are missing")
        .action(ArgAction::Set)
        .value_parser(WAYS_WITH_CUT.as_slice())
}

#[inline(never)]
fn progress<'a>(alloc: Global) -> Arg<'a> {
    Arg::new(alloc, "progress")
        .long("progress")
        .help(
            "show on standard error from the beginning on how far INPUT is read, also where that is a file; a terminal shows it without this, a pipe never",
        )
        .action(ArgAction::SetTrue)
}

#[inline(never)]
fn pace<'a>(alloc: Global) -> Arg<'a> {
    Arg::new(alloc, "pace")
        .long("pace")
        .help("wait for room where a ring is full, so that no packet is dropped for it")
        .action(ArgAction::SetTrue)
}

#[inline(never)]
fn json<'a>(alloc: Global) -> Arg<'a> {
    Arg::new(alloc, "json")
        .long("json")
        .help(
            "print JSON Lines: objects in place of lines, with the keys that docs/FORMATS.md lists",
        )
        .action(ArgAction::SetTrue)
}

#[inline(never)]
fn fail_above<'a>(alloc: Global) -> Arg<'a> {
    Arg::new(alloc, "fail-above")
        .long("fail-above")
        .value_name("SHARE")
        .help(
            "end with status 3 where a greater share of the connections changed their server, as 0.01; it prints the summary",
        )
        .action(ArgAction::Set)
}

#[inline(never)]
fn node<'a>(alloc: Global) -> Arg<'a> {
    Arg::new(alloc, "node")
        .long("node")
        .value_name("N")
        .help(
            "play balancer N's part of the run alone: what it sends, and its lines and counts; the parts are joined as docs/SCALING.md says",
        )
        .action(ArgAction::Set)
        .value_parser(value_parser!(u16))
}

#[inline(never)]
fn list<'a>(alloc: Global) -> Arg<'a> {
    Arg::new(alloc, "list")
        .long("list")
        .help("print each event and its outcome before the report")
        .action(ArgAction::SetTrue)
}

#[inline(never)]
fn list_two<'a>(alloc: Global) -> Arg<'a> {
    Arg::new(alloc, "list")
        .long("list")
        .help("print the two events and their outcomes first, as simulate --list does")
        .action(ArgAction::SetTrue)
}

#[inline(never)]
fn version<'a>(alloc: Global, id: &'a str, name: &'a str, help: &'a str) -> Arg<'a> {
    Arg::new(alloc, id)
        .value_name(name)
        .help(help)
        .action(ArgAction::Set)
        .value_parser(value_parser!(u32))
}

#[inline(never)]
fn in_orders<'a>(alloc: Global) -> Arg<'a> {
    Arg::new(alloc, "order")
        .long("order")
        .help("print in which orders servers can be replaced, and what each moves; it wants TO")
        .action(ArgAction::SetTrue)
}

fn plan<'a>(alloc: Global) -> Result<Command<'a>, AllocError> {
    let args = [
        in_orders(alloc),
        json(alloc),
        of_places(alloc),
        scenario(alloc),
        version(alloc, "from", "FROM", "number of the version before").required(true),
        version(alloc, "to", "TO", "number of the version after"),
    ];
    let args = Vec::from_array(alloc, args)?;
    begun(alloc, 3).after_help(PLAN_HELP).args(args)
}

fn sketch<'a>(alloc: Global) -> Result<Command<'a>, AllocError> {
    let args = [
        cut(alloc),
        progress(alloc),
        of_captures(alloc),
        input(alloc),
    ];
    let args = Vec::from_array(alloc, args)?;
    begun(alloc, 4).after_help(SCENARIO_HELP).args(args)
}

fn simulate<'a>(alloc: Global) -> Result<Command<'a>, AllocError> {
    let args = [
        list(alloc),
        splits(alloc),
        places(alloc),
        syn(alloc),
        syn_after(alloc),
        backends(alloc),
        nodes(alloc),
        summary(alloc),
        fail_above(alloc),
        node(alloc),
        cut(alloc),
        progress(alloc),
        json(alloc),
        of_places(alloc),
        scenario(alloc),
        input(alloc),
        output(alloc),
    ];
    let args = Vec::from_array(alloc, args)?;
    begun(alloc, 5).after_help(SIMULATE_HELP).args(args)
}

fn explain<'a>(alloc: Global) -> Result<Command<'a>, AllocError> {
    let args = [
        list_two(alloc),
        cut(alloc),
        progress(alloc),
        json(alloc),
        of_places(alloc),
        scenario(alloc),
        input(alloc),
        event(alloc, "one", "I"),
        event(alloc, "other", "J"),
    ];
    let args = Vec::from_array(alloc, args)?;
    begun(alloc, 6).after_help(EXPLAIN_HELP).args(args)
}

fn run<'a>(alloc: Global) -> Result<Command<'a>, AllocError> {
    let args = [
        splits(alloc),
        places(alloc),
        syn(alloc),
        syn_after(alloc),
        backends(alloc),
        nodes(alloc),
        summary(alloc),
        fail_above(alloc),
        cut(alloc),
        pace(alloc),
        progress(alloc),
        json(alloc),
        of_places(alloc),
        scenario(alloc),
        input(alloc),
        output(alloc),
    ];
    let args = Vec::from_array(alloc, args)?;
    begun(alloc, 7).after_help(RUN_HELP).args(args)
}

/// The commands in the order of the help.
const COMMANDS: [&str; 8] = [
    "table", "pick", "compare", "plan", "scenario", "simulate", "explain", "run",
];

// A command of a place without its arguments.
fn begun<'a>(alloc: Global, place: usize) -> Command<'a> {
    match place {
        0 => Command::new(alloc, "table").about(
            "Prints which backend each slot of a table names, and how many slots each backend has",
        ),
        1 => Command::new(alloc, "pick").about(
            "Reads one IPv4 datagram as hexadecimal text, and prints its flow, slot and backend, or why it is dropped",
        ),
        2 => Command::new(alloc, "compare").about(
            "Prints the slots that name another backend after a change of members",
        ),
        3 => Command::new(alloc, "plan").about(
            "Prints how many slots of each service change from one version of a scenario to another, and why",
        ),
        4 => Command::new(alloc, "scenario").about(
            "Prints a scenario to start from: a service for each frequent destination of a capture",
        ),
        5 => Command::new(alloc, "simulate").about(
            "Plays a scenario over a capture, writes what the cluster sends, and prints a report",
        ),
        6 => Command::new(alloc, "explain").about(
            "Plays a scenario over a capture, and prints why the packets of two events went where they went",
        ),
        _ => Command::new(alloc, "run").about(
            "Runs a scenario's cluster on threads over a capture, writes what the nodes send, node by node, and prints a report with an audit",
        ),
    }
}

// Whether some words name the command of a place.
fn is_named(words: &[String], place: usize) -> bool {
    match COMMANDS.get(place) {
        Some(name) => words.iter().any(|word| word.as_str() == *name),
        None => false,
    }
}

// The command at a place of the help.
fn command_at<'a>(alloc: Global, place: usize) -> Result<Command<'a>, AllocError> {
    match place {
        0 => table(alloc),
        1 => pick(alloc),
        2 => compare(alloc),
        3 => plan(alloc),
        4 => sketch(alloc),
        5 => simulate(alloc),
        6 => explain(alloc),
        _ => run(alloc),
    }
}

/// The command line of the program, for some words. A command that they don't name stands there without its arguments, which would
/// take memory.
pub fn command<'a>(alloc: Global, words: &[String]) -> Result<Command<'a>, Error> {
    let mut whole = Command::new(alloc, "maglev")
        .about("A cluster of layer 4 load balancers after Maglev (NSDI 2016), proved")
        .version("0.1.0")
        .after_help(PROGRAM_HELP)
        .subcommand_required(true);
    for place in 0..COMMANDS.len() {
        let one = if is_named(words, place) {
            command_at(alloc, place)?
        } else {
            begun(alloc, place)
        };
        whole = whole.subcommand(one)?;
    }
    Ok(whole)
}
