//! The command words.

ghost use Rattle.std.specs.Prelude.{◌≡◌, ◌≤◌, false, IfSome, MatchOption, IsTrue, unwrap_or, map, option_map};
ghost use Rattle.std.specs.String.{string_bytes};
ghost use Rattle.effects_top.specs.Words.{can_be_file, choice_of, least, most, is_of, number_within, number_of, number_alone, seen_said, AreInRange, choose, with_option, with_file, is_joined, IsJoinedOf, said_by, numbers_of, numbers_said, seen_command, asked_check, asked_listing, asked_run, asked};

use crate::made::MadeNumber;
use crate::token::decimal;
use fx_base::{Settings, Turns};

/// What an option chooses.
#[derive(Clone, Copy, Debug, PartialEq, Eq)]
pub enum Choice {
    Heap,
    Stack,
    Out,
    Budget,
    Domains,
    Turns,
}

/// What the command words ask for.
#[derive(Clone, Copy, Debug)]
pub enum Command<'a> {
    /// Whether the text of a file is a program.
    Check {
        file: &'a str,
    },
    /// The listing of the image of a file.
    Assemble {
        file: &'a str,
        settings: Settings,
    },
    /// A run of the program of a file.
    Run {
        file: &'a str,
        settings: Settings,
        turns: Turns,
    },
    /// The text of the made program of a number.
    Make {
        number: MadeNumber,
    },
    /// A run of the made program of a number.
    Demo {
        number: MadeNumber,
    },
}

// What words behind the command say.
#[derive(Clone, Copy, Debug)]
struct Said<'a> {
    file: Option<&'a str>,
    heap: Option<u64>,
    stack: Option<u64>,
    out: Option<u64>,
    budget: Option<u64>,
    domains: Option<u64>,
    turns: Option<u64>,
}

const NOTHING: Said<'static> = Said {
    file: None,
    heap: None,
    stack: None,
    out: None,
    budget: None,
    domains: None,
    turns: None,
};

fn is_file(word: &str) -> bool
    ensures { result ≡ can_be_file word.now }
{
    match word.as_bytes() {
        [] => false,
        [first, ..] => *first != b'-',
    }
}

fn choice_of(word: &str) -> Option<Choice>
    ensures { result ≡ choice_of word.now }
{
    match word {
        "--heap" => Some(Choice::Heap),
        "--stack" => Some(Choice::Stack),
        "--out" => Some(Choice::Out),
        "--budget" => Some(Choice::Budget),
        "--domains" => Some(Choice::Domains),
        "--turns" => Some(Choice::Turns),
        _ => None,
    }
}

fn least(choice: Choice) -> u64
    ensures { result ≡ least choice }
{
    match choice {
        Choice::Heap => 16_384,
        Choice::Stack => 256,
        Choice::Out => 1024,
        Choice::Budget | Choice::Domains | Choice::Turns => 1,
    }
}

fn most(choice: Choice) -> u64
    ensures { result ≡ most choice }
{
    match choice {
        Choice::Heap => 16_777_216,
        Choice::Stack => 1_048_576,
        Choice::Out => 67_108_864,
        Choice::Budget => 4_294_967_295,
        Choice::Domains => 8,
        Choice::Turns => 1_000_000,
    }
}

// The number that 1 to 10 decimal digits are, where it is in this range.
fn number_within(low: u64, high: u64, text: &str) -> Option<u64>
    ensures value { result ≡ number_within low high text.now }
    ensures range { IfSome result (λ n. (low ≤ n) × (n ≤ high)) }
{
    if text.is_empty() || text.len() > 10 {
        return None;
    }
    let number = decimal(text.as_bytes(), high)?;
    if low <= number { Some(number) } else { None }
}

// The number, where it is one of the choice.
fn number_of(choice: Choice, text: &str) -> Option<u64>
    ensures value { result ≡ number_of choice text.now }
    ensures range { IfSome result (λ n. IsTrue (is_of choice n)) }
{
    number_within(least(choice), most(choice), text)
}

// What was said, with the number for this field; none where one was said before.
macro_rules! said_once {
    ($said:expr, $field:ident, $value:expr) => {
        match $said.$field {
            Some(_) => None,
            None => Some(Said {
                $field: Some($value),
                ..*$said
            }),
        }
    };
}

fn choose<'a>(said: &Said<'a>, choice: Choice, number: u64) -> Option<Said<'a>>
    requires choice { IsTrue (is_of choice number) }
    requires range { AreInRange said.now }
    ensures said { option_map seen_said result ≡ choose choice number (seen_said said.now) }
    ensures range { IfSome result AreInRange }
{
    match choice {
        Choice::Heap => said_once!(said, heap, number),
        Choice::Stack => said_once!(said, stack, number),
        Choice::Out => said_once!(said, out, number),
        Choice::Budget => said_once!(said, budget, number),
        Choice::Domains => said_once!(said, domains, number),
        Choice::Turns => said_once!(said, turns, number),
    }
}

fn with_option<'a>(said: &Said<'a>, name: &str, text: &str) -> Option<Said<'a>>
    requires range { AreInRange said.now }
    ensures said { option_map seen_said result ≡ with_option name.now text.now (seen_said said.now) }
    ensures range { IfSome result AreInRange }
{
    let choice = choice_of(name)?;
    let number = number_of(choice, text)?;
    choose(said, choice, number)
}

fn with_file<'a>(said: &Said<'a>, file: &'a str) -> Option<Said<'a>>
    requires range { AreInRange said.now }
    ensures said { option_map seen_said result ≡ with_file file.now (seen_said said.now) }
    ensures range { IfSome result AreInRange }
{
    said_once!(said, file, file)
}

// What stands before and behind the first `=`.
fn joined_parts(word: &str) -> Option<(&str, &str)>
    ensures { MatchOption result (is_joined word.now ≡ false) (IsJoinedOf word.now) }
{
    word.split_once('=')
}

// What the words behind the command say, behind what was said before.
fn said_by<'a>(words: &'a [String], said: &Said<'a>) -> Option<Said<'a>>
    requires range { AreInRange said.now }
    ensures said { option_map seen_said result ≡ said_by (map string_bytes words.now) (seen_said said.now) }
    ensures range { IfSome result AreInRange }
{
    let Some((word, rest)) = words.split_first() else {
        return Some(*said);
    };
    if is_file(word.as_str()) {
        return said_by(rest, &with_file(said, word.as_str())?);
    }
    if let Some((name, text)) = joined_parts(word.as_str()) {
        return said_by(rest, &with_option(said, name, text)?);
    }
    let (text, rest) = rest.split_first()?;
    said_by(rest, &with_option(said, word.as_str(), text.as_str())?)
}

fn settings(said: &Said<'_>) -> Settings
    requires range { AreInRange said.now }
    ensures { numbers_of result ≡ numbers_said (seen_said said.now) }
{
    let usual = Settings::usual();
    Settings {
        heap: said.heap.unwrap_or(usual.heap),
        stack: said.stack.unwrap_or(usual.stack),
        out: said.out.unwrap_or(usual.out),
        budget: said.budget.unwrap_or(usual.budget),
        domains: said.domains.unwrap_or(4) as u32,
    }
}

fn turns(said: &Said<'_>) -> Turns
    requires range { AreInRange said.now }
    ensures { result.count ≡ unwrap_or said.now.turns 1000 }
{
    Turns {
        count: said.turns.unwrap_or(1000) as u32,
    }
}

// `check` takes a file and no options.
fn check(arguments: &[String]) -> Option<Command<'_>>
    ensures { option_map seen_command result ≡ asked_check (map string_bytes arguments.now) }
{
    match arguments {
        [file] => {
            if is_file(file.as_str()) {
                Some(Command::Check {
                    file: file.as_str(),
                })
            } else {
                None
            }
        }
        _ => None,
    }
}

fn assemble<'a>(said: &Said<'a>) -> Option<Command<'a>>
    requires range { AreInRange said.now }
    ensures { option_map seen_command result ≡ asked_listing (seen_said said.now) }
{
    if said.turns.is_some() {
        return None;
    }
    Some(Command::Assemble {
        file: said.file?,
        settings: settings(said),
    })
}

fn run<'a>(said: &Said<'a>) -> Option<Command<'a>>
    requires range { AreInRange said.now }
    ensures { option_map seen_command result ≡ asked_run (seen_said said.now) }
{
    Some(Command::Run {
        file: said.file?,
        settings: settings(said),
        turns: turns(said),
    })
}

// `make` and `demo` take the number of a made program and no options.
fn made_number(arguments: &[String]) -> Option<MadeNumber>
    ensures { option_map (λ n. n.count) result ≡ number_alone (map string_bytes arguments.now) }
{
    match arguments {
        [text] => {
            let count = number_within(1, 500, text.as_str())?;
            Some(MadeNumber {
                count: count as u32,
            })
        }
        _ => None,
    }
}

/// What the command words ask for; `None` where they have no reading.
///
/// ```text
/// words  = "check" FILE
///        | "asm" FILE option*  |  "run" FILE option*      an option may stand before FILE too
///        | "make" NUMBER  |  "demo" NUMBER                from 1 to 500
/// option = ("--heap" | "--stack" | "--out" | "--budget" | "--domains" | "--turns") NUMBER
/// ```
///
/// An option and its number are two words, or one with `=` between, and an option stands at most once.
/// `asm` takes no `--turns`.
pub fn command_of(words: &[String]) -> Option<Command<'_>>
    ensures { option_map seen_command result ≡ asked (map string_bytes words.now) }
{
    let (command, arguments) = words.split_first()?;
    match command.as_str() {
        "check" => check(arguments),
        "asm" => assemble(&said_by(arguments, &NOTHING)?),
        "run" => run(&said_by(arguments, &NOTHING)?),
        "make" => Some(Command::Make {
            number: made_number(arguments)?,
        }),
        "demo" => Some(Command::Demo {
            number: made_number(arguments)?,
        }),
        _ => None,
    }
}
