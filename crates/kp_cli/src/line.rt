//! Reads the command line.

ghost use Rattle.std.specs.Prelude.{◌≡◌, ◌<◌, ◌^◌, IfOk, IsSomeAnd, MatchOption, None, Some, codes, false, is_some};
ghost use Rattle.std.specs.Prelude.{map, string_bytes, true};
ghost use Rattle.std.specs.Option.{option_map};
ghost use Rattle.std.specs.Str.Parse.{IsNumeral, digits_value, without_leading_plus};
ghost use Rattle.clap.specs.Words.{App, FailsBy, Rule, app_of, fault_of, first_of, found_of, new_app, one_of, rows_of, rule_of};
ghost use Rattle.clap.specs.Words.{subcommand_of, subcommand_rows_of, with_rule, with_subcommand};
ghost use Rattle.clap.specs.declared.builder.command.Command.TheViews.{out-Command};
ghost use Rattle.kp_cli.specs.Line.{IsCallOf, IsRaceOf, NamesCall, NamesRace, file_rule, inspect_app, interval_rule, keep_rule, kpart, left_rule, pipe_app};
ghost use Rattle.kp_cli.specs.Line.{draw_app, from_rule, to_rule};
ghost use Rattle.kp_cli.specs.Line.{kpart_app, race_app, race_rule, racers_app, run_app, segment_rule};

use crate::Call;
use clap::builder::ValueParser;
use clap::{Arg, ArgMatches, Command, Error};
use kp_race::Plan;
use kp_types::{GREATEST_SEGMENT_BYTES, LEAST_SEGMENT_BYTES, MAX_INDEX_INTERVAL, MOST_NODES};
use std::alloc::{AllocError, Global};
use std::convert::AsStr;

/// The most nodes of a race.
const MOST_RACE_NODES: u64 = MOST_NODES as u64;

/// The most producers of a race. (Own rule.)
const MOST_PRODUCERS: u64 = 8;

/// The most batches of each producer of a race. (Own rule.)
const MOST_BATCHES: u64 = 10_000;

/// The most elections of a race. (Own rule.)
const MOST_MOVES: u64 = 1_000;

/// The greatest number of a line that can be named.
const LAST_LINE: u64 = u32::MAX as u64;

/// The version of the program, which `kpart --version` prints.
pub const VERSION: &str = "0.1.0";

fn file_argument<'a>(alloc: Global, help: &'a str) -> Arg<'a>
    ensures rule { rule_of result ≡ file_rule }
    ensures local { result.global ≡ false }
{
    Arg::new(alloc, "FILE").required(true).help(help)
}

fn segment_argument<'a>(alloc: Global) -> Arg<'a>
    ensures rule { rule_of result ≡ segment_rule }
    ensures local { result.global ≡ false }
{
    Arg::new(alloc, "segment")
        .long("segment")
        .value_name("S")
        .value_parser(ValueParser::unsigned(
            u64::from(LEAST_SEGMENT_BYTES),
            u64::from(GREATEST_SEGMENT_BYTES),
        ))
        .default_value("1073741824")
        .help("the most bytes of a segment")
}

fn interval_argument<'a>(alloc: Global) -> Arg<'a>
    ensures rule { rule_of result ≡ interval_rule }
    ensures local { result.global ≡ false }
{
    Arg::new(alloc, "interval")
        .long("interval")
        .value_name("I")
        .value_parser(ValueParser::unsigned(0, u64::from(MAX_INDEX_INTERVAL)))
        .default_value("4096")
        .help("the bytes between two entries of an index")
}

fn from_argument<'a>(alloc: Global) -> Arg<'a>
    ensures rule { rule_of result ≡ from_rule }
    ensures local { result.global ≡ false }
{
    Arg::new(alloc, "from")
        .long("from")
        .value_name("L")
        .value_parser(ValueParser::unsigned(1, LAST_LINE))
        .default_value("1")
        .help("the first line to draw")
}

fn to_argument<'a>(alloc: Global) -> Arg<'a>
    ensures rule { rule_of result ≡ to_rule }
    ensures local { result.global ≡ false }
{
    Arg::new(alloc, "to")
        .long("to")
        .value_name("L")
        .value_parser(ValueParser::unsigned(1, LAST_LINE))
        .default_value("4294967295")
        .help("the last line to draw")
}

fn left_argument<'a>(alloc: Global) -> Arg<'a>
    ensures rule { rule_of result ≡ left_rule }
    ensures local { result.global ≡ false }
{
    Arg::new(alloc, "from")
        .long("from")
        .value_name("FOLDER")
        .help("the folder that another run has left, to go on with its nodes")
}

fn keep_argument<'a>(alloc: Global) -> Arg<'a>
    ensures rule { rule_of result ≡ keep_rule }
    ensures local { result.global ≡ false }
{
    Arg::new(alloc, "keep")
        .long("keep")
        .value_name("FOLDER")
        .help("an empty folder, or a new one, to keep what the nodes leave in")
}

/// A number that has to be given.
fn number_argument<'a>(
    alloc: Global,
    name: &'a str,
    sign: &'a str,
    least: u64,
    greatest: u64,
    help: &'a str,
) -> Arg<'a>
    ensures rule { rule_of result ≡ race_rule name.now least greatest }
    ensures local { result.global ≡ false }
{
    Arg::new(alloc, name)
        .long(name)
        .value_name(sign)
        .value_parser(ValueParser::unsigned(least, greatest))
        .required(true)
        .help(help)
}

/// The command with one more argument, which is none of its subcommands', where memory was there for it so far. It has the `?` of
/// each argument, so that a way out drops a command here alone.
fn with_argument<'a>(
    command: Result<Command<'a>, AllocError>,
    argument: Arg<'a>,
) -> Result<Command<'a>, AllocError>
    requires { argument.global ≡ false }
    ensures rule { (app : App) (rule : Rule) → IfOk command.entry (λ c. app_of c ≡ app) → rule_of argument.entry ≡ rule
        → IfOk result (λ made. app_of made ≡ with_rule app rule) }
    ensures local { IfOk command.entry (λ c. (out-Command c).has_globals ≡ false)
        → IfOk result (λ made. (out-Command made).has_globals ≡ false) }
{
    command?.arg(argument)
}

/// A subcommand of this name, with no argument yet.
fn named_command<'a>(alloc: Global, name: &'a str, about: &'a str) -> Command<'a>
    ensures rule { app_of result ≡ new_app name.now }
    ensures local { (out-Command result).has_globals ≡ false }
{
    Command::new(alloc, name).about(about)
}

fn run_command<'a>(alloc: Global) -> Result<Command<'a>, AllocError>
    ensures rule { IfOk result (λ command. app_of command ≡ run_app) }
    ensures local { IfOk result (λ command. (out-Command command).has_globals ≡ false) }
{
    let command = named_command(alloc, "run", "Runs a script and prints its trace");
    let command = with_argument(Ok(command), file_argument(alloc, "the script to run"));
    let command = with_argument(command, left_argument(alloc));
    with_argument(command, keep_argument(alloc))
}

fn inspect_command<'a>(alloc: Global) -> Result<Command<'a>, AllocError>
    ensures rule { IfOk result (λ command. app_of command ≡ inspect_app) }
    ensures local { IfOk result (λ command. (out-Command command).has_globals ≡ false) }
{
    let about = "Reads a log and prints its batches, segments and tables";
    let command = named_command(alloc, "inspect", about);
    let command = with_argument(Ok(command), file_argument(alloc, "the log to read"));
    let command = with_argument(command, segment_argument(alloc));
    with_argument(command, interval_argument(alloc))
}

fn draw_command<'a>(alloc: Global) -> Result<Command<'a>, AllocError>
    ensures rule { IfOk result (λ command. app_of command ≡ draw_app) }
    ensures local { IfOk result (λ command. (out-Command command).has_globals ≡ false) }
{
    let about = "Runs a script and prints a picture of its run, an SVG";
    let command = named_command(alloc, "draw", about);
    let command = with_argument(Ok(command), file_argument(alloc, "the script to draw"));
    let command = with_argument(command, from_argument(alloc));
    with_argument(command, to_argument(alloc))
}

/// What a race is told of who takes part: `race --nodes N --producers P`.
fn racers_command<'a>(alloc: Global) -> Result<Command<'a>, AllocError>
    ensures rule { IfOk result (λ command. app_of command ≡ racers_app) }
    ensures local { IfOk result (λ command. (out-Command command).has_globals ≡ false) }
{
    let nodes = "how many nodes, from 1 to 7";
    let producers = "how many producers, from 1 to 8";
    let about =
        "Runs nodes, producers and elections in threads, and prints whether all nodes agree";
    let command = named_command(alloc, "race", about);
    let nodes = number_argument(alloc, "nodes", "N", 1, MOST_RACE_NODES, nodes);
    let command = with_argument(Ok(command), nodes);
    let producers = number_argument(alloc, "producers", "P", 1, MOST_PRODUCERS, producers);
    with_argument(command, producers)
}

fn race_command<'a>(alloc: Global) -> Result<Command<'a>, AllocError>
    ensures rule { IfOk result (λ command. app_of command ≡ race_app) }
    ensures local { IfOk result (λ command. (out-Command command).has_globals ≡ false) }
{
    let batches = "how many batches of one record by each producer, from 0 to 10000";
    let moves = "how many elections meanwhile, from 0 to 1000";
    let command = racers_command(alloc);
    let batches = number_argument(alloc, "batches", "B", 0, MOST_BATCHES, batches);
    let command = with_argument(command, batches);
    let moves = number_argument(alloc, "moves", "M", 0, MOST_MOVES, moves);
    with_argument(command, moves)
}

fn pipe_command<'a>(alloc: Global) -> Result<Command<'a>, AllocError>
    ensures rule { IfOk result (λ command. app_of command ≡ pipe_app) }
    ensures local { IfOk result (λ command. (out-Command command).has_globals ≡ false) }
{
    let about =
        "Plays a script's lines from standard input, and answers each before it reads the next one";
    let command = named_command(alloc, "pipe", about);
    with_argument(Ok(command), keep_argument(alloc))
}

/// The command with one more subcommand, where memory was there for both. It has the `?` of each, so that a way out drops a
/// command here alone.
fn add_subcommand<'a>(
    command: Result<Command<'a>, AllocError>,
    subcommand: Result<Command<'a>, AllocError>,
) -> Result<Command<'a>, AllocError>
    requires { IfOk subcommand (λ sub. (out-Command sub).has_globals ≡ false) }
    ensures { (app sub : App) → IfOk command.entry (λ c. app_of c ≡ app) → IfOk subcommand.entry (λ s. app_of s ≡ sub)
        → IfOk result (λ made. app_of made ≡ with_subcommand app sub.top) }
{
    let subcommand = subcommand?;
    command?.subcommand(subcommand)
}

/// The program, with no subcommand yet.
fn program<'a>(alloc: Global) -> Command<'a>
    ensures { app_of result ≡ kpart_app }
{
    Command::new(alloc, "kpart")
        .about("A replicated partition log with Kafka's replication rules")
        .version(VERSION)
        .subcommand_required(true)
}

fn whole_command<'a>(alloc: Global) -> Result<Command<'a>, AllocError>
    ensures { IfOk result (λ command. app_of command ≡ kpart) }
{
    let running = add_subcommand(Ok(program(alloc)), run_command(alloc));
    let reading = add_subcommand(running, inspect_command(alloc));
    let racing = add_subcommand(reading, race_command(alloc));
    let piping = add_subcommand(racing, pipe_command(alloc));
    add_subcommand(piping, draw_command(alloc))
}

/// The matches that clap has for `words`, of which the first is the program's name.
fn matches_of<'a, S: AsStr>(alloc: Global, words: &'a [S]) -> Result<ArgMatches<'a>, Error>
    ensures matches { IfOk result (λ m. subcommand_rows_of m
        ≡ subcommand_of kpart (map S.text words.entry.now)) }
    ensures kinds { FailsBy (fault_of kpart (map S.text words.entry.now)) result }
{
    let command = whole_command(alloc)?;
    command.try_get_matches_from(words)
}

/// The name of the subcommand that was used, and its matches.
fn entered<'a, 'm>(matches: &'m ArgMatches<'a>) -> Option<(&'a str, &'m ArgMatches<'a>)>
    ensures { MatchOption result (subcommand_rows_of matches.entry.now ≡ None)
        (λ p. subcommand_rows_of matches.entry.now ≡ Some (p.0.now, rows_of (found_of p.1.now))) }
{
    match matches.subcommand() {
        Some((name, found)) => Some((name, found)),
        None => None,
    }
}

fn file_value<'a>(found: &ArgMatches<'a>) -> &'a str
    requires { is_some (first_of (codes "FILE") (rows_of (found_of found.now))) ≡ true }
    ensures { first_of (codes "FILE") (rows_of (found_of found.entry.now)) ≡ Some result.now }
{
    match found.get_str("FILE") {
        Some(text) => text,
        None => unreachable!(),
    }
}

fn path_value(
    alloc: Global,
    found: &ArgMatches<'_>,
    name: &str,
) -> Result<Option<String>, AllocError>
    ensures { IfOk result (λ path. first_of name.now (rows_of (found_of found.now))
        ≡ option_map string_bytes path) }
{
    match found.get_str(name) {
        Some(path) => {
            let path = String::from_str(alloc, path)?;
            Ok(Some(path))
        }
        None => Ok(None),
    }
}

fn number_value(found: &ArgMatches<'_>, name: &str) -> u32
    requires { IsSomeAnd (one_of name.now (rows_of (found_of found.now))) (λ text.
        IsNumeral 10 (without_leading_plus text)
        × (digits_value 10 (without_leading_plus text) < 2 ^ 32)) }
    ensures { IsSomeAnd (one_of name.now (rows_of (found_of found.now))) (λ text.
        digits_value 10 (without_leading_plus text) ≡ result) }
{
    match found.get_one::<u32>(name) {
        Some(number) => number,
        None => unreachable!(),
    }
}

/// The race that these matches are.
fn race_in(found: &ArgMatches<'_>) -> Call
    requires { NamesRace (rows_of (found_of found.now)) }
    ensures { IsRaceOf (rows_of (found_of found.now)) result }
{
    Call::Race {
        nodes: number_value(found, "nodes") as u8,
        plan: Plan {
            producers: number_value(found, "producers") as u8,
            batches: number_value(found, "batches") as u16,
            moves: number_value(found, "moves") as u16,
        },
    }
}

fn call_in(alloc: Global, matches: &ArgMatches<'_>) -> Result<Call, AllocError>
    requires { NamesCall (subcommand_rows_of matches.now) }
    ensures { IfOk result (IsCallOf (subcommand_rows_of matches.now)) }
{
    let Some((name, found)) = entered(matches) else {
        unreachable!();
    };
    if name == "race" {
        return Ok(race_in(found));
    }
    if name == "pipe" {
        let keep = path_value(alloc, found, "keep")?;
        return Ok(Call::Pipe { keep });
    }
    let file = String::from_str(alloc, file_value(found))?;
    if name == "run" {
        let from = path_value(alloc, found, "from")?;
        let keep = path_value(alloc, found, "keep")?;
        Ok(Call::Run { file, from, keep })
    } else if name == "inspect" {
        Ok(Call::Inspect {
            file,
            segment_bytes: number_value(found, "segment"),
            index_interval: number_value(found, "interval"),
        })
    } else if name == "draw" {
        Ok(Call::Draw {
            file,
            from: number_value(found, "from"),
            to: number_value(found, "to"),
        })
    } else {
        unreachable!()
    }
}

/// The call that `words` ask for, of which the first is the program's name, as in `std::env::args`.
/// An error is clap's own, also for a number out of its range, or says that memory ran out; help that was
/// asked for is an error too.
pub fn call_of<S: AsStr>(alloc: Global, words: &[S]) -> Result<Call, Error>
    ensures call { IfOk result (IsCallOf (subcommand_of kpart (map S.text words.now))) }
    ensures kinds { FailsBy (fault_of kpart (map S.text words.now)) result }
{
    let matches = matches_of(alloc, words)?;
    let call = call_in(alloc, &matches)?;
    Ok(call)
}
