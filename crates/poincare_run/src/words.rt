//! The words of the command line.
ghost use Rattle.std.specs.Prelude.{◌≡◌, ◌<◌, ◌^◌, Bool, map, codes, string_bytes, option_map, option_and_then, IfOk, IfSome, Some};
ghost use Rattle.std.specs.List.{list_any};
ghost use Rattle.std.specs.Str.{bytes_eq};
ghost use Rattle.clap.specs.Simple.{app_of, with_rule};
ghost use Rattle.clap.specs.Matches.{first_value, found_of, one_text};
ghost use Rattle.clap.specs.Values.{bool_text};
ghost use Rattle.node_pool.specs.State.{IsPoolSize};
ghost use Rattle.poincare_run.specs.CommandLine.{command_line, number_in as number_named, option_named, values_named};
ghost use Rattle.poincare_run.specs.Options.{is_pool_size as is_pool_size_of, is_session_number as is_session_number_of, options_of, options_with as options_named};

use calc_commands::read_number;
use clap::error::ErrorKind;
use clap::{Arg, ArgAction, ArgMatches, Command};
use std::alloc::{AllocError, Global};

/// The bytes of a pool whose size no word names.
const DEFAULT_SIZE: u64 = 32_768;

/// What the words name.
#[derive(Clone, Copy)]
pub struct Values {
    pub pool: Option<u64>,
    pub interrupt: Option<u64>,
    pub generated: Option<u64>,
    pub draw: bool,
}

/// Where no word names one.
const NONE_NAMED: Values = Values {
    pool: None,
    interrupt: None,
    generated: None,
    draw: false,
};

/// What the words ask for.
#[derive(Clone, Copy)]
pub struct Options {
    /// The bytes of the pool.
    pub size: u32,
    /// After so many polls the first breaker that can be armed trips.
    pub interrupt: Option<u64>,
    /// The number of a generated session, which is answered in place of what is read.
    pub generated: Option<u32>,
    /// What is shown is drawn too.
    pub draw: bool,
}

/// What the words ask for, where they are a form of the command line. It is not inlined: what it keeps is off the machine's
/// stack when lines are answered.
#[inline(never)]
pub fn options_in(alloc: Global, words: &[String]) -> Result<Option<Options>, AllocError>
    ensures value { IfOk result (λ options. options ≡ options_of (map string_bytes words.now)) }
    ensures size { IfOk result (λ options. IfSome options (λ o. IsPoolSize o.size)) }
{
    // Most starts have no words, and then nothing is parsed.
    if words.is_empty() {
        return Ok(options_with(NONE_NAMED));
    }
    if has_separator(words) {
        return Ok(None);
    }
    match command(alloc)?.try_get_matches_from(words) {
        Ok(matches) => Ok(options_from(&matches)),
        Err(error) => match error.kind() {
            ErrorKind::OutOfMemory => Err(AllocError),
            _ => Ok(None),
        },
    }
}

/// Whether a word is the one behind which no word is an option.
fn has_separator(words: &[String]) -> bool
    ensures { result ≡ list_any (λ word. bytes_eq (string_bytes word) (codes "--")) words.now }
{
    words.iter().any(|word| word.as_str() == "--")
}

/// The command line: four options and nothing else, each at most once.
fn command<'a>(alloc: Global) -> Result<Command<'a>, AllocError>
    ensures { IfOk result (λ command. app_of command ≡ command_line) }
{
    let command = Command::new(alloc, "poincare")
        .no_binary_name(true)
        .disable_help_flag(true)
        .disable_version_flag(true);
    let command = with_option(alloc, command, "pool", ArgAction::Set)?;
    let command = with_option(alloc, command, "interrupt", ArgAction::Set)?;
    let command = with_option(alloc, command, "gen", ArgAction::Set)?;
    with_option(alloc, command, "draw", ArgAction::SetTrue)
}

/// The command with one more option.
fn with_option<'a>(
    alloc: Global,
    command: Command<'a>,
    name: &'a str,
    action: ArgAction,
) -> Result<Command<'a>, AllocError>
    ensures { IfOk result (λ more. app_of more ≡ with_rule (app_of command.entry) (option_named name.entry.now action)) }
{
    command.arg(Arg::new(alloc, name).long(name).action(action))
}

/// What the matches ask for, where each value is a number in range.
fn options_from(matches: &ArgMatches) -> Option<Options>
    ensures value { (drawn : Bool) → one_text (found_of matches.now) (codes "draw") ≡ Some (bool_text drawn)
        → result ≡ option_and_then options_named (values_named (first_value (found_of matches.now) (codes "pool"))
        (first_value (found_of matches.now) (codes "interrupt")) (first_value (found_of matches.now) (codes "gen")) drawn) }
    ensures size { IfSome result (λ o. IsPoolSize o.size) }
{
    options_with(Values {
        pool: number_in(matches.get_str("pool"))?,
        interrupt: number_in(matches.get_str("interrupt"))?,
        generated: number_in(matches.get_str("gen"))?,
        draw: matches.get_flag("draw"),
    })
}

/// The number that stands as a value, where a value is given.
fn number_in(text: Option<&str>) -> Option<Option<u64>>
    ensures { result ≡ number_named (option_map (λ s. s.now) text.entry) }
{
    match text {
        Some(text) => Some(Some(read_number(text.as_bytes())?)),
        None => Some(None),
    }
}

/// What numbers that are in range ask for.
fn options_with(values: Values) -> Option<Options>
    ensures value { result ≡ options_named values }
    ensures size { IfSome result (λ o. IsPoolSize o.size) }
{
    let size = values.pool.unwrap_or(DEFAULT_SIZE);
    if !is_pool_size(size) || !is_session_number(values.generated) {
        return None;
    }
    Some(Options {
        size: size as u32,
        interrupt: values.interrupt,
        generated: values.generated.map(|number| number as u32),
        draw: values.draw,
    })
}

/// A multiple of 8 from 64 to 524,280.
fn is_pool_size(size: u64) -> bool
    ensures { result ≡ is_pool_size_of size }
{
    (64..=524_280).contains(&size) && size % 8 == 0
}

fn is_session_number(number: Option<u64>) -> bool
    ensures { result ≡ is_session_number_of number }
{
    match number {
        Some(number) => number <= u64::from(u32::MAX),
        None => true,
    }
}
