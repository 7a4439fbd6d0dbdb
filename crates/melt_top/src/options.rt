//! The words after a command, as the parser of command lines reads them.
ghost use Rattle.std.specs.Prelude.{◌≡◌, [], codes, drop, length, ◌<◌, map, string_bytes, IfOk};
ghost use Rattle.std.specs.Bool.{OnFalse};
ghost use Rattle.std.specs.List.{list_any, AllByRecursion};
ghost use Rattle.clap.specs.Simple.{app_of, with_rule};
ghost use Rattle.clap.specs.Values.{kind_of};
ghost use Rattle.melt_top.specs.declared.options.WordsRefusal.TheVariants.{NoMemory};
ghost use Rattle.melt_top.specs.Words.{parts_options};
ghost use Rattle.melt_top.specs.Parses.{IsWord, Parses, asked_for, flag_rule, gen_names, names_of_verb};
ghost use Rattle.melt_top.specs.Parses.{option_rule, refusal_for, run_names, step_names, title_of};

use clap::error::ErrorKind;
use clap::{Arg, ArgAction, ArgMatches, Command, Error};
use std::alloc::{AllocError, Global};

/// What a command is called.
#[derive(Clone, Copy, Debug, PartialEq, Eq)]
pub enum Verb {
    Step,
    Run,
    Gen,
}

/// Why no options are read.
#[derive(Clone, Copy, Debug, thiserror::Error)]
pub enum WordsRefusal {
    #[error("these are no words of the command")]
    Usage,
    #[error("no memory is left for the words")]
    NoMemory,
}

impl From<AllocError> for WordsRefusal {
    ghost from_gives = { λ _ refusal. refusal ≡ NoMemory };

    fn from(_error: AllocError) -> WordsRefusal {
        WordsRefusal::NoMemory
    }
}

/// Whether some word is `--`. Nothing can stand after the options that it would part from them.
fn has_dashes(words: &[String]) -> bool
    ensures value { result ≡ list_any parts_options (map string_bytes words.now) }
    ensures words { OnFalse result (AllByRecursion IsWord (map string_bytes words.now)) }
{
    for word in words {
        if word.as_str() == "--" {
            return true;
        }
    }
    false
}

/// Why the parser refuses words.
fn refusal_of(error: &Error) -> WordsRefusal
    ensures { result ≡ refusal_for (kind_of error.now) }
{
    match error.kind() {
        ErrorKind::OutOfMemory => WordsRefusal::NoMemory,
        _ => WordsRefusal::Usage,
    }
}

/// The command with an option more, which takes one value.
fn with_option<'a>(
    alloc: Global,
    command: Command<'a>,
    name: &'a str,
) -> Result<Command<'a>, AllocError>
    ensures { IfOk result (λ more. app_of more ≡ with_rule (app_of command.entry) (option_rule name.now)) }
{
    let option = Arg::new(alloc, name).long(name).action(ArgAction::Set);
    command.arg(option)
}

/// The command with a flag more, which takes no value.
fn with_flag<'a>(
    alloc: Global,
    command: Command<'a>,
    name: &'a str,
) -> Result<Command<'a>, AllocError>
    ensures { IfOk result (λ more. app_of more ≡ with_rule (app_of command.entry) (flag_rule name.now)) }
{
    let flag = Arg::new(alloc, name).long(name).action(ArgAction::SetTrue);
    command.arg(flag)
}

/// The options with values that both ways to run a trace have.
fn run_options<'a>(alloc: Global, title: &'a str) -> Result<Command<'a>, AllocError>
    ensures { IfOk result (λ parser. app_of parser ≡ asked_for title.now (record run_names { flags = [] })) }
{
    let parser = Command::new(alloc, title).disable_help_flag(true);
    let parser = with_option(alloc, parser, "heap")?;
    let parser = with_option(alloc, parser, "forward")?;
    let parser = with_option(alloc, parser, "disk")?;
    let parser = with_option(alloc, parser, "mark")?;
    let parser = with_option(alloc, parser, "move")?;
    with_option(alloc, parser, "every")
}

fn step_parser<'a>(alloc: Global) -> Result<Command<'a>, AllocError>
    ensures { IfOk result (λ parser. app_of parser ≡ asked_for (codes "step") step_names) }
{
    let parser = run_options(alloc, "step")?;
    let parser = with_flag(alloc, parser, "quiet")?;
    let parser = with_flag(alloc, parser, "table")?;
    with_flag(alloc, parser, "log")
}

fn run_parser<'a>(alloc: Global) -> Result<Command<'a>, AllocError>
    ensures { IfOk result (λ parser. app_of parser ≡ asked_for (codes "run") run_names) }
{
    let parser = run_options(alloc, "run")?;
    let parser = with_flag(alloc, parser, "quiet")?;
    with_flag(alloc, parser, "table")
}

fn gen_parser<'a>(alloc: Global) -> Result<Command<'a>, AllocError>
    ensures { IfOk result (λ parser. app_of parser ≡ asked_for (codes "gen") gen_names) }
{
    let parser = Command::new(alloc, "gen").disable_help_flag(true);
    let parser = with_option(alloc, parser, "kind")?;
    let parser = with_option(alloc, parser, "seed")?;
    let parser = with_option(alloc, parser, "size")?;
    with_option(alloc, parser, "threads")
}

/// The parser for the options of a command. It knows no help, no version and no other words.
fn parser_for<'a>(alloc: Global, verb: Verb) -> Result<Command<'a>, AllocError>
    ensures { IfOk result (λ parser. app_of parser ≡ asked_for (title_of verb) (names_of_verb verb)) }
{
    match verb {
        Verb::Step => step_parser(alloc),
        Verb::Run => run_parser(alloc),
        Verb::Gen => gen_parser(alloc),
    }
}

/// What the words after the first one give to the options of this command.
pub fn options_given<'a>(
    alloc: Global,
    verb: Verb,
    words: &'a [String],
) -> Result<ArgMatches<'a>, WordsRefusal>
    requires { 0 < length words.now }
    ensures { Parses (names_of_verb verb) (drop 1 (map string_bytes words.entry.now)) result }
{
    // The parser would take `--` as an end of options; here nothing can come after them.
    if has_dashes(&words[1..]) {
        return Err(WordsRefusal::Usage);
    }
    let parser = parser_for(alloc, verb)?;
    match parser.try_get_matches_from(words) {
        Ok(options) => Ok(options),
        Err(error) => Err(refusal_of(&error)),
    }
}
