//! The command line, read by `clap`.

ghost use Rattle.std.specs.Prelude.{◌≡◌, IfOk, IfErr, Some, None, MatchOption, [], map, codes};
ghost use Rattle.std.specs.Prelude.{List, true, false};
ghost use Rattle.clap.specs.Words.{FailsBy, HasMatchesOf, app_of, fault_of, found_of, kind_of};
ghost use Rattle.clap.specs.Words.{App, Rule, Text, first_of, rows_of, rule_of, subcommand_rows_of};
ghost use Rattle.clap.specs.Words.{takes};
ghost use Rattle.osm_words.specs.CommandLine.{AreSizesIn, AreSizesOf, AreSoughtIn, AreSoughtOf};
ghost use Rattle.osm_words.specs.CommandLine.{HasNoEmptyWord, IsExtractIn, IsExtractOf, IsLimitIn};
ghost use Rattle.osm_words.specs.CommandLine.{IsLimitOf, IsOrderIn, IsOrderOf, with_command};
ghost use Rattle.osm_words.specs.CommandLine.{filled_rule, flag_rule, is_raised, keys_rule};
ghost use Rattle.osm_words.specs.CommandLine.{kinds_in, kinds_rule, options_in, options_of};
ghost use Rattle.osm_words.specs.CommandLine.{option_rule, osmrepl_app, program_app};
ghost use Rattle.osm_words.specs.CommandLine.{referred_rule, some_rule, time_rule, values_in};
ghost use Rattle.osm_words.specs.Steps.Commands.{HasValue, HasValues, HasWord, HasWords, IsCommand};
ghost use Rattle.osm_words.specs.Steps.Commands.{IsMade, rule_in, rules_of, times_of, words_of};

use crate::help;
use crate::orders::{Asked, Extract, Options, Order};
use clap::builder::ValueParser;
use clap::error::ErrorKind;
use clap::{Arg, ArgAction, ArgMatches, Command, Error};
use std::alloc::{AllocError, Global};

// All kinds, which stand for `--kinds` if it is left out.
const ALL_KINDS: &str = "nwr";

/// Reads what the words of the command line, with the program's name first, ask for. No word of the
/// order is empty except a time. An error is that of `clap`, which refuses the words or gives the
/// help or the version that they ask for. The values of the kinds, keys, limit, sizes, objects and
/// ids aren't checked here.
pub fn asked<'a>(alloc: Global, words: &'a [&'a str]) -> Result<Asked<'a>, Error>
    ensures order { IfOk result (λ a. IsOrderOf (map (λ s. s.now) words.entry.now) a.order) }
    ensures options { IfOk result
        (λ a. a.options ≡ options_of (map (λ s. s.now) words.entry.now)) }
    ensures extract { IfOk result
        (λ a. IsExtractOf (map (λ s. s.now) words.entry.now) a.extract) }
    ensures limit { IfOk result
        (λ a. IsLimitOf (map (λ s. s.now) words.entry.now) a.limit) }
    ensures sizes { IfOk result
        (λ a. AreSizesOf (map (λ s. s.now) words.entry.now) a.sizes) }
    ensures sought { IfOk result
        (λ a. AreSoughtOf (map (λ s. s.now) words.entry.now) a.sought.items) }
    ensures not_empty { IfOk result (λ a. HasNoEmptyWord a.order) }
    ensures taken { IfErr result (λ e. takes osmrepl_app (map (λ s. s.now) words.entry.now) ≡ true
        → kind_of e ≡ ErrorKind.OutOfMemory) }
    ensures kinds { FailsBy (fault_of osmrepl_app (map (λ s. s.now) words.entry.now)) result }
{
    let matches = matches(alloc, words)?;
    Ok(Asked {
        order: order_of(&matches),
        options: options_of(&matches),
        extract: extract_of(alloc, &matches)?,
        limit: limit_of(&matches),
        sizes: sizes_of(&matches),
        sought: sought_of(alloc, &matches)?,
    })
}

// The objects or ids of the command that was found.
fn sought_of<'a>(alloc: Global, matches: &ArgMatches<'a>) -> Result<Vec<&'a str>, AllocError>
    requires { IsCommand (subcommand_rows_of matches.now) }
    ensures { IfOk result (λ sought. AreSoughtIn (subcommand_rows_of matches.now) sought.items) }
{
    let Some((_, given)) = matches.subcommand() else {
        unreachable!()
    };
    values(alloc, given, "SOUGHT")
}

// The limit of the command that was found.
fn limit_of<'a>(matches: &ArgMatches<'a>) -> Option<&'a str>
    requires { IsCommand (subcommand_rows_of matches.now) }
    ensures { IsLimitIn (subcommand_rows_of matches.now) result }
{
    let Some((_, given)) = matches.subcommand() else {
        unreachable!()
    };
    optional(given, "LIMIT")
}

// The sizes of the command that was found.
fn sizes_of<'a>(matches: &ArgMatches<'a>) -> Option<&'a str>
    requires { IsCommand (subcommand_rows_of matches.now) }
    ensures { AreSizesIn (subcommand_rows_of matches.now) result }
{
    let Some((_, given)) = matches.subcommand() else {
        unreachable!()
    };
    optional(given, "SIZES")
}

// The kinds and keys of the command that was found.
fn extract_of<'a>(alloc: Global, matches: &ArgMatches<'a>) -> Result<Extract<'a>, AllocError>
    requires { IsCommand (subcommand_rows_of matches.now) }
    ensures { IfOk result (IsExtractIn (subcommand_rows_of matches.now)) }
{
    let Some((_, given)) = matches.subcommand() else {
        unreachable!()
    };
    Ok(Extract {
        kinds: kinds_of(given),
        keys: values(alloc, given, "KEY")?,
    })
}

// The letters of `--kinds`, or those of all kinds.
fn kinds_of<'a>(given: &ArgMatches<'a>) -> &'a str
    ensures { result.now ≡ kinds_in (rows_of (found_of given.now)) }
{
    match optional(given, "KINDS") {
        Some(kinds) => kinds,
        None => ALL_KINDS,
    }
}

// All values of a word that may have several, in their order.
fn values<'a>(alloc: Global, given: &ArgMatches<'a>, name: &str) -> Result<Vec<&'a str>, AllocError>
    ensures { IfOk result (λ values.
        map (λ value. value.now) values.items ≡ values_in name.now (rows_of (found_of given.now))) }
{
    match given.get_raw(name) {
        Some(values) => Vec::from_slice(alloc, values),
        None => Ok(Vec::new(alloc)),
    }
}

// The options of the command that was found.
fn options_of(matches: &ArgMatches<'_>) -> Options
    requires { IsCommand (subcommand_rows_of matches.now) }
    ensures { result ≡ options_in (subcommand_rows_of matches.now) }
{
    let Some((_, given)) = matches.subcommand() else {
        unreachable!()
    };
    Options {
        no_lock: is_raised(given, "no-lock"),
        any_time: is_raised(given, "any-time"),
        json: is_raised(given, "json"),
        quiet: is_raised(given, "quiet"),
    }
}

// The order for the command that was found, with its words.
fn order_of<'a>(matches: &ArgMatches<'a>) -> Order<'a>
    requires { IsCommand (subcommand_rows_of matches.now) }
    ensures order { IsOrderIn (subcommand_rows_of matches.now) result }
    ensures not_empty { HasNoEmptyWord result }
{
    let Some((name, given)) = matches.subcommand() else {
        unreachable!()
    };
    match name {
        "replay" => Order::Replay,
        "publish" => publish_of(given),
        "begin" => begin_of(given),
        "follow" => follow_of(given),
        "lag" => lag_of(given),
        "show" => show_of(given),
        "export" => export_of(given),
        "convert" => convert_of(given),
        "audit" => audit_of(given),
        "changes" => changes_of(given),
        "tally" => tally_of(given),
        "get" => get_of(given),
        "counts" => counts_of(given),
        "fingerprint" => fingerprint_of(given),
        _ => unreachable!(),
    }
}

fn publish_of<'a>(given: &ArgMatches<'a>) -> Order<'a>
    requires words { HasWords (rows_of (found_of given.now)) (words_of (codes "publish")) }
    requires times { HasValues (rows_of (found_of given.now)) (times_of (codes "publish")) }
    ensures order { IsOrderIn (Some (codes "publish", rows_of (found_of given.now))) result }
    ensures not_empty { HasNoEmptyWord result }
{
    let (dir, changes) = (nonempty(given, "DIR"), nonempty(given, "CHANGES"));
    let now = value(given, "TIME");
    match optional(given, "N") {
        None => Order::Publish { dir, changes, now },
        Some(sequence) => Order::PublishAs {
            dir,
            changes,
            now,
            sequence,
        },
    }
}

fn begin_of<'a>(given: &ArgMatches<'a>) -> Order<'a>
    requires { HasWords (rows_of (found_of given.now)) (words_of (codes "begin")) }
    ensures order { IsOrderIn (Some (codes "begin", rows_of (found_of given.now))) result }
    ensures not_empty { HasNoEmptyWord result }
{
    Order::Begin {
        base: nonempty(given, "BASE"),
        state: nonempty(given, "STATE"),
        save: nonempty(given, "SAVE"),
    }
}

fn follow_of<'a>(given: &ArgMatches<'a>) -> Order<'a>
    requires { HasWords (rows_of (found_of given.now)) (words_of (codes "follow")) }
    ensures order { IsOrderIn (Some (codes "follow", rows_of (found_of given.now))) result }
    ensures not_empty { HasNoEmptyWord result }
{
    Order::Follow {
        dir: nonempty(given, "DIR"),
        save: nonempty(given, "SAVE"),
    }
}

fn lag_of<'a>(given: &ArgMatches<'a>) -> Order<'a>
    requires { HasWords (rows_of (found_of given.now)) (words_of (codes "lag")) }
    ensures order { IsOrderIn (Some (codes "lag", rows_of (found_of given.now))) result }
    ensures not_empty { HasNoEmptyWord result }
{
    Order::Lag {
        dir: nonempty(given, "DIR"),
        save: nonempty(given, "SAVE"),
    }
}

fn show_of<'a>(given: &ArgMatches<'a>) -> Order<'a>
    requires { HasWords (rows_of (found_of given.now)) (words_of (codes "show")) }
    ensures order { IsOrderIn (Some (codes "show", rows_of (found_of given.now))) result }
    ensures not_empty { HasNoEmptyWord result }
{
    Order::Show {
        save: nonempty(given, "SAVE"),
    }
}

fn export_of<'a>(given: &ArgMatches<'a>) -> Order<'a>
    requires { HasWords (rows_of (found_of given.now)) (words_of (codes "export")) }
    ensures order { IsOrderIn (Some (codes "export", rows_of (found_of given.now))) result }
    ensures not_empty { HasNoEmptyWord result }
{
    Order::Export {
        save: nonempty(given, "SAVE"),
        output: nonempty(given, "OUT"),
    }
}

fn convert_of<'a>(given: &ArgMatches<'a>) -> Order<'a>
    requires { HasWords (rows_of (found_of given.now)) (words_of (codes "convert")) }
    ensures order { IsOrderIn (Some (codes "convert", rows_of (found_of given.now))) result }
    ensures not_empty { HasNoEmptyWord result }
{
    Order::Convert {
        input: nonempty(given, "IN"),
        output: nonempty(given, "OUT"),
    }
}

fn audit_of<'a>(given: &ArgMatches<'a>) -> Order<'a>
    requires { HasWords (rows_of (found_of given.now)) (words_of (codes "audit")) }
    ensures order { IsOrderIn (Some (codes "audit", rows_of (found_of given.now))) result }
    ensures not_empty { HasNoEmptyWord result }
{
    Order::Audit {
        dir: nonempty(given, "DIR"),
        from: optional(given, "N"),
        to: optional(given, "M"),
    }
}

fn changes_of<'a>(given: &ArgMatches<'a>) -> Order<'a>
    requires { HasWords (rows_of (found_of given.now)) (words_of (codes "changes")) }
    ensures order { IsOrderIn (Some (codes "changes", rows_of (found_of given.now))) result }
    ensures not_empty { HasNoEmptyWord result }
{
    let (dir, output) = (nonempty(given, "DIR"), nonempty(given, "OUT"));
    let (from, to) = (nonempty(given, "N"), nonempty(given, "M"));
    Order::Changes {
        dir,
        output,
        from,
        to,
    }
}

fn tally_of<'a>(given: &ArgMatches<'a>) -> Order<'a>
    requires { HasWords (rows_of (found_of given.now)) (words_of (codes "tally")) }
    ensures order { IsOrderIn (Some (codes "tally", rows_of (found_of given.now))) result }
    ensures not_empty { HasNoEmptyWord result }
{
    Order::Tally {
        dir: nonempty(given, "DIR"),
        from: nonempty(given, "N"),
        to: nonempty(given, "M"),
        by: optional(given, "BY"),
    }
}

fn get_of<'a>(given: &ArgMatches<'a>) -> Order<'a>
    requires { HasWords (rows_of (found_of given.now)) (words_of (codes "get")) }
    ensures order { IsOrderIn (Some (codes "get", rows_of (found_of given.now))) result }
    ensures not_empty { HasNoEmptyWord result }
{
    Order::Get {
        save: nonempty(given, "SAVE"),
        referred: is_raised(given, "r"),
    }
}

fn counts_of<'a>(given: &ArgMatches<'a>) -> Order<'a>
    requires { HasWords (rows_of (found_of given.now)) (words_of (codes "counts")) }
    ensures order { IsOrderIn (Some (codes "counts", rows_of (found_of given.now))) result }
    ensures not_empty { HasNoEmptyWord result }
{
    let by = optional(given, "BY");
    Order::Counts {
        save: nonempty(given, "SAVE"),
        by,
        csv: is_raised(given, "csv"),
    }
}

fn fingerprint_of<'a>(given: &ArgMatches<'a>) -> Order<'a>
    requires { HasWords (rows_of (found_of given.now)) (words_of (codes "fingerprint")) }
    ensures order { IsOrderIn (Some (codes "fingerprint", rows_of (found_of given.now))) result }
    ensures not_empty { HasNoEmptyWord result }
{
    Order::Fingerprint {
        save: nonempty(given, "SAVE"),
    }
}

// The value of a word that has one that isn't empty.
fn nonempty<'a>(given: &ArgMatches<'a>, name: &str) -> &'a str
    requires { HasWord (rows_of (found_of given.now)) name.now }
    ensures value { first_of name.now (rows_of (found_of given.now)) ≡ Some result.now }
    ensures not_empty { result.now ≡ [] → ⊥ }
{
    value(given, name)
}

// Whether a flag was given: its value is `true` then.
fn is_raised(given: &ArgMatches<'_>, name: &str) -> bool
    ensures { result ≡ is_raised name.now (rows_of (found_of given.now)) }
{
    match optional(given, name) {
        Some(value) => value == "true",
        None => false,
    }
}

// The first value of a word, if it has one.
fn optional<'a>(given: &ArgMatches<'a>, name: &str) -> Option<&'a str>
    ensures { MatchOption result (first_of name.now (rows_of (found_of given.now)) ≡ None)
        (λ value. first_of name.now (rows_of (found_of given.now)) ≡ Some value.now) }
{
    given.get_str(name)
}

// The value of a word that has one.
fn value<'a>(given: &ArgMatches<'a>, name: &str) -> &'a str
    requires { HasValue (rows_of (found_of given.now)) name.now }
    ensures { first_of name.now (rows_of (found_of given.now)) ≡ Some result.now }
{
    let Some(value) = given.get_str(name) else {
        unreachable!()
    };
    value
}

fn matches<'a>(alloc: Global, words: &'a [&'a str]) -> Result<ArgMatches<'a>, Error>
    ensures matches { IfOk result (HasMatchesOf osmrepl_app (map (λ s. s.now) words.entry.now)) }
    ensures taken { IfErr result (λ e. takes osmrepl_app (map (λ s. s.now) words.entry.now) ≡ true
        → kind_of e ≡ ErrorKind.OutOfMemory) }
    ensures kinds { FailsBy (fault_of osmrepl_app (map (λ s. s.now) words.entry.now)) result }
{
    let command = command(alloc)?;
    command.try_get_matches_from(words)
}

// A word or an option of a command, with what help says of it.
#[derive(Clone, Copy)]
enum Argument {
    // `NAME`, which has to be there.
    Word(&'static str, &'static str),
    // `NAME..`, at least one word.
    Each(&'static str, &'static str),
    // `NAME..`, any number of words.
    Sought(&'static str, &'static str),
    // `KEY..`, any number of words.
    Keys,
    // `--kinds KINDS`, which stands for all kinds if it is left out.
    Kinds,
    // `--now TIME`, which has to be there.
    Time,
    // `--LONG NAME`, which may be left out.
    Optional(&'static str, &'static str, &'static str),
    // The same, which help shows by a name of its own.
    Shown(&'static str, &'static str, &'static str, &'static str),
    // `--LONG NAME`, which has to be there.
    Needed(&'static str, &'static str, &'static str),
    // `--sizes SIZES`, which may be left out. Help doesn't say it: it is there for tests.
    Sizes,
    // `-r`, which has no value.
    Referred,
    // `--NAME`, which has no value.
    Flag(&'static str, &'static str),
}

// The words and options of each command, in their order in its help.
const PUBLISH: &[Argument] = &[
    Argument::Word("DIR", "The folder; it is made if it isn't there"),
    Argument::Word("CHANGES", "The changes, an OPL file"),
    Argument::Time,
    Argument::Optional(
        "sequence",
        "N",
        "The number of the sequence; the same command can then be run again",
    ),
    Argument::Flag(
        "any-time",
        "Takes a TIME more than a day ahead of the clock",
    ),
    NO_LOCK,
];

const BEGIN: &[Argument] = &[
    Argument::Word("BASE", "The data file that is read"),
    Argument::Word("STATE", "The state file of the sequence that BASE is at"),
    Argument::Word(
        "SAVE",
        "The save that is written; what it held before is replaced",
    ),
    Argument::Keys,
    Argument::Kinds,
    Argument::Flag(
        "any-time",
        "Takes a STATE more than eight days older than BASE",
    ),
    QUIET,
    NO_LOCK,
];

const FOLLOW: &[Argument] = &[
    DIR,
    Argument::Word("SAVE", "The save; if it isn't there, it begins at number 0"),
    Argument::Keys,
    Argument::Kinds,
    Argument::Optional("limit", "LIMIT", "The most numbers that this run takes"),
    Argument::Sizes,
    JSON,
    QUIET,
    NO_LOCK,
];

const LAG: &[Argument] = &[
    DIR,
    Argument::Word("SAVE", "The save; if it isn't there, it is at number 0"),
    JSON,
];

const SHOW: &[Argument] = &[SAVE, QUIET];

const EXPORT: &[Argument] = &[
    SAVE,
    Argument::Word("OUT", "The data file that is written"),
    QUIET,
];

const CONVERT: &[Argument] = &[
    Argument::Word("IN", "The file that is read"),
    Argument::Word("OUT", "The file that is written"),
];

const AUDIT: &[Argument] = &[
    DIR,
    Argument::Optional("from", "N", "The first number; 1 if it is left out"),
    Argument::Optional(
        "to",
        "M",
        "The last number; the folder's newest if it is left out",
    ),
    JSON,
    QUIET,
];

const CHANGES: &[Argument] = &[
    DIR,
    Argument::Word("OUT", "The change file that is written"),
    Argument::Keys,
    Argument::Kinds,
    FROM,
    TO,
    JSON,
    QUIET,
];

const TALLY: &[Argument] = &[
    DIR,
    FROM,
    TO,
    Argument::Shown(
        "by",
        "BY",
        "COLUMNS",
        "The columns: some of day, user, changeset and kind; day,user if it is left out",
    ),
    Argument::Flag("json", "Prints each row as a line of JSON"),
    QUIET,
];

const GET: &[Argument] = &[
    SAVE,
    Argument::Each(
        "OBJECT",
        "The objects, as n123, w123 or r123, or - for standard input",
    ),
    Argument::Referred,
    Argument::Flag("json", "Prints each object as a line of JSON"),
];

const COUNTS: &[Argument] = &[
    SAVE,
    Argument::Sought("ID", "The users or changesets; all if there is none"),
    Argument::Shown(
        "by",
        "BY",
        "COLUMN",
        "Whose counts: user or changeset; user if it is left out",
    ),
    Argument::Shown(
        "top",
        "LIMIT",
        "N",
        "Prints the N largest counts alone, the largest first",
    ),
    Argument::Flag("csv", "Prints the counts as CSV, with a head"),
    Argument::Flag("json", "Prints the counts as one line of JSON"),
];

const FINGERPRINT: &[Argument] = &[
    SAVE,
    Argument::Shown("keys", "LIMIT", "N", "Prints a line for each N objects too"),
    QUIET,
];

const DIR: Argument = Argument::Word("DIR", "The folder");

const SAVE: Argument = Argument::Word("SAVE", "The save");

const FROM: Argument = Argument::Needed("from", "N", "The first number");

const TO: Argument = Argument::Needed("to", "M", "The last number");

const JSON: Argument = Argument::Flag("json", "Prints one line of JSON, after a fault too");

const QUIET: Argument = Argument::Flag("quiet", "Shows no progress on a terminal");

const NO_LOCK: Argument = Argument::Flag(
    "no-lock",
    "Takes no lock; no other run may write there then",
);

fn command<'a>(alloc: Global) -> Result<Command<'a>, AllocError>
    ensures { IfOk result (λ c. app_of c ≡ osmrepl_app) }
{
    let command = added(Ok(program(alloc)), replay(alloc));
    let command = added(command, publish(alloc));
    let command = added(command, begin(alloc));
    let command = added(command, follow(alloc));
    let command = added(command, lag(alloc));
    let command = added(command, show(alloc));
    let command = added(command, export(alloc));
    let command = added(command, convert(alloc));
    let command = added(command, audit(alloc));
    let command = added(command, changes(alloc));
    let command = added(command, tally(alloc));
    let command = added(command, get(alloc));
    let command = added(command, counts(alloc));
    added(command, fingerprint(alloc))
}

// Adds a subcommand to the program. This is a function of its own so that the early returns of
// `command` don't each need a proof with a half-built command alive.
fn added<'a>(
    program: Result<Command<'a>, AllocError>,
    command: Result<Command<'a>, AllocError>,
) -> Result<Command<'a>, AllocError>
    ensures { (before : App) (name : Text) (rules : List Rule)
        → IfOk program.entry (λ c. app_of c ≡ before) → IfOk command.entry (IsMade name rules)
        → IfOk result (λ c. app_of c ≡ with_command before (name, rules)) }
{
    let program = program?;
    program.subcommand(command?)
}

fn program<'a>(alloc: Global) -> Command<'a>
    ensures app { app_of result ≡ program_app }
{
    Command::new(alloc, "osmrepl")
        .about(help::ABOUT)
        .after_help(help::EXAMPLES)
        .version("0.3.0")
        .subcommand_required(true)
}

fn replay<'a>(alloc: Global) -> Result<Command<'a>, AllocError>
    ensures { IfOk result (IsMade (codes "replay") (rules_of (codes "replay"))) }
{
    subcommand(alloc, "replay", help::REPLAY, help::SCRIPTS, &[])
}

fn publish<'a>(alloc: Global) -> Result<Command<'a>, AllocError>
    ensures { IfOk result (IsMade (codes "publish") (rules_of (codes "publish"))) }
{
    subcommand(alloc, "publish", help::PUBLISH, help::PUBLISHING, PUBLISH)
}

fn begin<'a>(alloc: Global) -> Result<Command<'a>, AllocError>
    ensures { IfOk result (IsMade (codes "begin") (rules_of (codes "begin"))) }
{
    subcommand(alloc, "begin", help::BEGIN, help::BEGINNING, BEGIN)
}

fn follow<'a>(alloc: Global) -> Result<Command<'a>, AllocError>
    ensures { IfOk result (IsMade (codes "follow") (rules_of (codes "follow"))) }
{
    subcommand(alloc, "follow", help::FOLLOW, help::FOLLOWING, FOLLOW)
}

fn lag<'a>(alloc: Global) -> Result<Command<'a>, AllocError>
    ensures { IfOk result (IsMade (codes "lag") (rules_of (codes "lag"))) }
{
    subcommand(alloc, "lag", help::LAG, help::LAGGING, LAG)
}

fn show<'a>(alloc: Global) -> Result<Command<'a>, AllocError>
    ensures { IfOk result (IsMade (codes "show") (rules_of (codes "show"))) }
{
    subcommand(alloc, "show", help::SHOW, help::SHOWING, SHOW)
}

fn export<'a>(alloc: Global) -> Result<Command<'a>, AllocError>
    ensures { IfOk result (IsMade (codes "export") (rules_of (codes "export"))) }
{
    subcommand(alloc, "export", help::EXPORT, help::EXPORTING, EXPORT)
}

fn convert<'a>(alloc: Global) -> Result<Command<'a>, AllocError>
    ensures { IfOk result (IsMade (codes "convert") (rules_of (codes "convert"))) }
{
    subcommand(alloc, "convert", help::CONVERT, help::CONVERTING, CONVERT)
}

fn audit<'a>(alloc: Global) -> Result<Command<'a>, AllocError>
    ensures { IfOk result (IsMade (codes "audit") (rules_of (codes "audit"))) }
{
    subcommand(alloc, "audit", help::AUDIT, help::AUDITING, AUDIT)
}

fn changes<'a>(alloc: Global) -> Result<Command<'a>, AllocError>
    ensures { IfOk result (IsMade (codes "changes") (rules_of (codes "changes"))) }
{
    subcommand(alloc, "changes", help::CHANGES, help::CHANGING, CHANGES)
}

fn tally<'a>(alloc: Global) -> Result<Command<'a>, AllocError>
    ensures { IfOk result (IsMade (codes "tally") (rules_of (codes "tally"))) }
{
    subcommand(alloc, "tally", help::TALLY, help::TALLYING, TALLY)
}

fn get<'a>(alloc: Global) -> Result<Command<'a>, AllocError>
    ensures { IfOk result (IsMade (codes "get") (rules_of (codes "get"))) }
{
    subcommand(alloc, "get", help::GET, help::GETTING, GET)
}

fn counts<'a>(alloc: Global) -> Result<Command<'a>, AllocError>
    ensures { IfOk result (IsMade (codes "counts") (rules_of (codes "counts"))) }
{
    subcommand(alloc, "counts", help::COUNTS, help::COUNTING, COUNTS)
}

fn fingerprint<'a>(alloc: Global) -> Result<Command<'a>, AllocError>
    ensures { IfOk result (IsMade (codes "fingerprint") (rules_of (codes "fingerprint"))) }
{
    subcommand(
        alloc,
        "fingerprint",
        help::FINGERPRINT,
        help::FINGERPRINTS,
        FINGERPRINT,
    )
}

// A command: its name, what help says of it, the end of its help, and its words and options.
fn subcommand<'a>(
    alloc: Global,
    name: &'a str,
    about: &'a str,
    after_help: &'a str,
    arguments: &[Argument],
) -> Result<Command<'a>, AllocError>
    ensures { IfOk result (IsMade name.now (map rule_in arguments.now)) }
{
    let mut command = Command::new(alloc, name)
        .about(about)
        .after_help(after_help);
    for word in arguments {
        command = command.arg(argument_of(alloc, word))?;
    }
    Ok(command)
}

fn argument_of<'a>(alloc: Global, argument: &Argument) -> Arg<'a>
    ensures rule { rule_of result ≡ rule_in argument.now }
    ensures local { result.global ≡ false }
{
    match *argument {
        Argument::Word(name, says) => filled(alloc, name, says).required(true),
        Argument::Each(name, says) => sought(alloc, name, says).required(true),
        Argument::Sought(name, says) => sought(alloc, name, says),
        Argument::Keys => keys(alloc),
        Argument::Kinds => kinds(alloc),
        Argument::Time => time(alloc),
        Argument::Optional(long, name, says) => filled(alloc, name, says).long(long),
        Argument::Shown(long, name, shown, says) => {
            filled(alloc, name, says).long(long).value_name(shown)
        }
        Argument::Needed(long, name, says) => filled(alloc, name, says).long(long).required(true),
        Argument::Sizes => sizes(alloc),
        Argument::Referred => referred(alloc),
        Argument::Flag(name, says) => flag(alloc, name, says),
    }
}

// A word that isn't empty.
fn filled<'a>(alloc: Global, name: &'a str, says: &'a str) -> Arg<'a>
    ensures rule { rule_of result ≡ filled_rule name.now }
    ensures local { result.global ≡ false }
    ensures help { result.help ≡ Some says.entry }
{
    Arg::new(alloc, name)
        .help(says)
        .value_parser(ValueParser::NonEmptyString)
}

// `--now TIME`, which has to be there.
fn time<'a>(alloc: Global) -> Arg<'a>
    ensures rule { rule_of result ≡ time_rule }
    ensures local { result.global ≡ false }
{
    Arg::new(alloc, "TIME")
        .long("now")
        .required(true)
        .help("The time of the sequence, as 2024-01-01T00:00:00Z")
}

// `--sizes SIZES`, which may be left out. Help doesn't say it: it is there for tests.
fn sizes<'a>(alloc: Global) -> Arg<'a>
    ensures rule { rule_of result ≡ option_rule (codes "sizes") (codes "SIZES") }
    ensures local { result.global ≡ false }
{
    let says = "SMALL:MOST, the bytes of a small save, and the most bytes of a journal";
    filled(alloc, "SIZES", says).long("sizes").hide(true)
}

// `NAME..`, any number of words that aren't empty.
fn sought<'a>(alloc: Global, name: &'a str, says: &'a str) -> Arg<'a>
    ensures rule { rule_of result ≡ some_rule }
    ensures local { result.global ≡ false }
{
    filled(alloc, "SOUGHT", says)
        .action(ArgAction::Append)
        .value_name(name)
}

// `-r`, which has no value.
fn referred<'a>(alloc: Global) -> Arg<'a>
    ensures rule { rule_of result ≡ referred_rule }
    ensures local { result.global ≡ false }
{
    Arg::new(alloc, "r")
        .short('r')
        .help("Prints the objects too that each refers to")
        .action(ArgAction::SetTrue)
}

// `KEY..`, any number of words that aren't empty.
fn keys<'a>(alloc: Global) -> Arg<'a>
    ensures rule { rule_of result ≡ keys_rule }
    ensures local { result.global ≡ false }
{
    let says = "Keeps only objects that have a tag with one of these keys; with none, all objects";
    filled(alloc, "KEY", says).action(ArgAction::Append)
}

// `--kinds KINDS`, which stands for all kinds if it is left out.
fn kinds<'a>(alloc: Global) -> Arg<'a>
    ensures rule { rule_of result ≡ kinds_rule }
    ensures local { result.global ≡ false }
{
    Arg::new(alloc, "KINDS")
        .long("kinds")
        .default_value(ALL_KINDS)
        .help("Keeps the objects of these kinds: some of n, w and r, in this order")
}

// `--NAME`, which has no value.
fn flag<'a>(alloc: Global, name: &'a str, says: &'a str) -> Arg<'a>
    ensures rule { rule_of result ≡ flag_rule name.now }
    ensures local { result.global ≡ false }
{
    Arg::new(alloc, name)
        .long(name)
        .help(says)
        .action(ArgAction::SetTrue)
}
