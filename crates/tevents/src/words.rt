ghost use Rattle.std.specs.Prelude.{◌≡◌, ◌≢◌, Err, IfOk, IfSome, [], codes, map, Some, None, false};
ghost use Rattle.std.specs.String.{string_bytes};
ghost use Rattle.clap.specs.Words.{rule_of, app_of, IsParsedFrom, rows_of, matches_of, IsPlainArg, found_of, first_value};
ghost use Rattle.clap.specs.Faults.{fault_of};
ghost use Rattle.clap.specs.declared.parser.matches.ArgMatches.{ArgMatches};
ghost use Rattle.tevents.specs.Words.{mode_rule, number_rule, mode_name, program, IsNumberArgument, IsGiven, Reads, IsSaid, Says, AreRefused};
ghost use Rattle.clap.specs.declared.builder.value_parser.ValueParser.TheVariants as vp;
ghost use Rattle.tevents.specs.declared.words.WordFault.TheVariants as faults;

use clap::builder::ValueParser;
use clap::error::ErrorKind;
use clap::{Arg, ArgAction, ArgMatches, Command, value_parser};
use std::alloc::{AllocError, Global};

/// What the program is to do.
#[derive(Clone, Copy, PartialEq, Eq, Debug)]
pub(crate) enum Mode {
    Serial,
    Run,
    Print,
    Gen,
    Check,
    Lift,
}

/// What the words of a call say: the mode, the budget of each search, and the number of a generated script.
#[derive(Clone, Copy)]
pub(crate) struct Words {
    pub(crate) mode: Mode,
    pub(crate) budget: u64,
    pub(crate) number: u64,
}

/// Why words aren't read: they say nothing, or want of memory.
pub(crate) enum WordFault {
    Refused,
    Memory,
}

fn mode_argument<'a>(alloc: Global) -> Arg<'a>
    ensures rule { rule_of result ≡ mode_rule }
    ensures plain { IsPlainArg result }
    ensures local { result.global ≡ false }
{
    Arg::new(alloc, "mode")
        .required(true)
        .action(ArgAction::Set)
}

// An option that takes a number of a range, and has a default.
fn number_argument<'a>(
    alloc: Global,
    name: &'static str,
    default: &'static str,
    range: ValueParser<'a>,
) -> Arg<'a>
    ensures rule { rule_of result ≡ number_rule name.now default.now range.entry }
    ensures plain { IsPlainArg result }
    ensures local { result.global ≡ false }
    ensures number { IsNumberArgument result name.now range.entry }
{
    Arg::new(alloc, name)
        .long(name)
        .default_value(default)
        .action(ArgAction::Set)
        .value_parser(range)
}

fn budget_range<'a>() -> ValueParser<'a>
    ensures { result ≡ vp.Unsigned 1 1000000 }
{
    value_parser!(u64).range(1..=1000000)
}

fn number_range<'a>() -> ValueParser<'a>
    ensures { result ≡ vp.Unsigned 0 999 }
{
    value_parser!(u64).range(0..=999)
}

// The command: a mode that is required, and two options of numbers.
fn command<'a>(alloc: Global) -> Result<Command<'a>, AllocError>
    ensures app { IfOk result (λ c. app_of c ≡ program) }
    ensures budget { IfOk result (λ c. (m : ArgMatches) → IsParsedFrom c m → IsGiven m (codes "budget") 1 1000000) }
    ensures number { IfOk result (λ c. (m : ArgMatches) → IsParsedFrom c m → IsGiven m (codes "number") 0 999) }
{
    let with_mode = Command::new(alloc, "tevents")
        .no_binary_name(true)
        .arg(mode_argument(alloc))?;
    let with_budget = with_mode.arg(number_argument(alloc, "budget", "100000", budget_range()))?;
    with_budget.arg(number_argument(alloc, "number", "0", number_range()))
}

// The matches of the words.
fn matches<'a>(alloc: Global, words: &'a [String]) -> Result<ArgMatches<'a>, WordFault>
    ensures budget { IfOk result (λ m. IsGiven m (codes "budget") 1 1000000) }
    ensures number { IfOk result (λ m. IsGiven m (codes "number") 0 999) }
    ensures rows { IfOk result (λ m. rows_of (found_of m) ≡ matches_of program (map string_bytes words.now)) }
    ensures taken { IfOk result (λ m. fault_of program (map string_bytes words.now) ≡ []) }
    ensures refused { result ≡ Err faults.Refused → fault_of program (map string_bytes words.now) ≢ [] }
{
    let Ok(command) = command(alloc) else {
        return Err(WordFault::Memory);
    };
    match command.try_get_matches_from(words) {
        Ok(matches) => Ok(matches),
        Err(error) => match error.kind() {
            ErrorKind::OutOfMemory => Err(WordFault::Memory),
            _ => Err(WordFault::Refused),
        },
    }
}

fn mode_of(text: &str) -> Option<Mode>
    ensures some { IfSome result (λ m. text.now ≡ mode_name m) }
    ensures none { result ≡ None → (m : Mode) → text.now ≢ mode_name m }
{
    match text {
        "serial" => Some(Mode::Serial),
        "run" => Some(Mode::Run),
        "print" => Some(Mode::Print),
        "gen" => Some(Mode::Gen),
        "check" => Some(Mode::Check),
        "lift" => Some(Mode::Lift),
        _ => None,
    }
}

// The number that an option has.
fn number(matches: &ArgMatches<'_>, name: &str, low: u64, high: u64) -> Option<u64>
    requires { IsGiven matches.now name.now low high }
    ensures reads { IfSome result (Reads matches.now name.now low high) }
    ensures some { result ≢ None }
{
    matches.get_one::<u64>(name)
}

fn said(matches: &ArgMatches<'_>) -> Option<Words>
    requires budget { IsGiven matches.now (codes "budget") 1 1000000 }
    requires number { IsGiven matches.now (codes "number") 0 999 }
    ensures some { IfSome result (IsSaid matches.now) }
    ensures none { result ≡ None → (m : Mode) → first_value (found_of matches.now) (codes "mode") ≢ Some (mode_name m) }
{
    let mode = mode_of(matches.get_str("mode")?)?;
    let budget = number(matches, "budget", 1, 1_000_000)?;
    let number = number(matches, "number", 0, 999)?;
    Some(Words {
        mode,
        budget,
        number,
    })
}

/// What the words say.
pub(crate) fn read_words(alloc: Global, words: &[String]) -> Result<Words, WordFault>
    ensures ok { IfOk result (Says (map string_bytes words.now)) }
    ensures refused { result ≡ Err faults.Refused → AreRefused (map string_bytes words.now) }
{
    match said(&matches(alloc, words)?) {
        Some(words) => Ok(words),
        None => Err(WordFault::Refused),
    }
}
