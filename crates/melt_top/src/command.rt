//! What the words after the program's name mean.
ghost use Rattle.std.specs.Prelude.{◌≡◌, ◌<◌, ◌≤◌, ◌⊎◌, drop, length};
ghost use Rattle.std.specs.Prelude.{map, option_and_then, option_map, string_bytes, IfOk, IfSome};
ghost use Rattle.melt_model.specs.Config.{InRanges};
ghost use Rattle.melt_text.specs.Numbers.{number_of};
ghost use Rattle.melt_top.specs.Command.{HasRanges, between, config_of, kind_named, meant, number_or, recipe_of};
ghost use Rattle.melt_top.specs.Command.{plain_texts_of, run_of, texts_of, threads_run};
ghost use Rattle.melt_top.specs.Words.{Given, given_of};
ghost use Rattle.melt_top.specs.Parses.{Has, gen_names, run_names, step_names};

use crate::options::{Verb, WordsRefusal, options_given};
use crate::text::Texts;
use clap::ArgMatches;
use melt_gen::Workload;
use melt_model::{Config, NoMemory};
use melt_text::read_number;
use std::alloc::Global;

/// The numbers of words that a heap may have.
const HEAP: Limits = Limits {
    low: 16,
    high: 4_194_304,
};

/// How many forwarding words a heap has.
const FORWARD: Limits = Limits {
    low: 1,
    high: 65_536,
};

/// The numbers of words that the disk may take.
const DISK: Limits = Limits {
    low: 2,
    high: 268_435_456,
};

/// Parts of a hundred.
const PART: Limits = Limits { low: 0, high: 100 };

/// How many operations may lie from one silent collection to the next.
const EVERY: Limits = Limits {
    low: 1,
    high: 1_048_576,
};

/// How many objects each thread makes in a trace that is made.
const SIZE: Limits = Limits {
    low: 1,
    high: 100_000,
};

const THREADS: Limits = Limits { low: 1, high: 8 };

/// A command of the program.
#[derive(Clone, Copy, Debug, PartialEq, Eq)]
pub enum Command {
    /// Runs a trace by its written order.
    Step(RunOptions),
    /// Runs a trace by real threads.
    Threads(RunOptions),
    /// Makes a trace.
    Gen(Recipe),
}

/// What a run is given beside its trace, and which of its texts are written.
#[derive(Clone, Copy, Debug, PartialEq, Eq)]
pub struct RunOptions {
    pub config: Config,
    pub texts: Texts,
}

/// What a trace is made of, with a size from 1 to 100,000 and 1 to 8 threads.
#[derive(Clone, Copy, Debug, PartialEq, Eq)]
pub struct Recipe {
    pub kind: Workload,
    pub seed: u64,
    pub size: u32,
    pub threads: u32,
}

/// The bounds of a number, both of them allowed.
#[derive(Clone, Copy)]
struct Limits {
    low: u32,
    high: u32,
}

impl Limits {
    /// The number that a word spells, where it is within the bounds.
    fn read(self, word: &str) -> Option<u32>
        ensures value { result ≡ between self.low self.high (number_of word.now) }
        ensures within { IfSome result (λ n. (self.low ≤ n) × (n ≤ self.high)) }
    {
        let number = u32::try_from(read_number(word.as_bytes())?).ok()?;
        (self.low <= number && number <= self.high).then_some(number)
    }

    /// The same of the value of an option, or another number where it was not given.
    fn read_or(self, value: Option<&str>, otherwise: u32) -> Option<u32>
        ensures value { result ≡ number_or self.low self.high otherwise (option_map (λ text. text.now) value.entry) }
        ensures within { IfSome result (λ n. ((self.low ≤ n) × (n ≤ self.high)) ⊎ (n ≡ otherwise)) }
    {
        match value {
            Some(word) => self.read(word),
            None => Some(otherwise),
        }
    }
}

/// What the options of `step` and `run` say of a run, or nothing, where a value is none of its option or the numbers do
/// not go together.
fn read_config(options: &ArgMatches<'_>) -> Option<Config>
    ensures value { (given : Given) → Has step_names options.now given → result ≡ config_of given }
    ensures threads { (given : Given) → Has run_names options.now given → result ≡ config_of given }
    ensures ranges { IfSome result InRanges }
{
    let config = Config {
        heap: HEAP.read_or(options.get_str("heap"), 65_536)?,
        forward: FORWARD.read_or(options.get_str("forward"), 1_024)?,
        disk: DISK.read_or(options.get_str("disk"), 16_777_216)?,
        mark: PART.read_or(options.get_str("mark"), 50)?,
        move_: PART.read_or(options.get_str("move"), 80)?,
        every: EVERY.read_or(options.get_str("every"), 0)?,
    };
    (config.mark <= config.move_).then_some(config)
}

/// Which texts the flags of `step` ask for.
fn read_texts(options: &ArgMatches<'_>) -> Texts
    ensures { (given : Given) → Has step_names options.now given → result ≡ texts_of given }
{
    Texts {
        quiet: options.get_flag("quiet"),
        table: options.get_flag("table"),
        log: options.get_flag("log"),
    }
}

/// Which texts the flags of `run` ask for.
fn read_plain_texts(options: &ArgMatches<'_>) -> Texts
    ensures { (given : Given) → Has run_names options.now given → result ≡ plain_texts_of given }
{
    Texts {
        quiet: options.get_flag("quiet"),
        table: options.get_flag("table"),
        // A run by threads stores no history, so there is no log to write.
        log: false,
    }
}

fn read_run(options: &ArgMatches<'_>) -> Option<RunOptions>
    ensures value { (given : Given) → Has step_names options.now given → result ≡ run_of given }
    ensures ranges { IfSome result (λ run. InRanges run.config) }
{
    Some(RunOptions {
        config: read_config(options)?,
        texts: read_texts(options),
    })
}

fn read_threads(options: &ArgMatches<'_>) -> Option<RunOptions>
    ensures value { (given : Given) → Has run_names options.now given → result ≡ threads_run given }
    ensures ranges { IfSome result (λ run. InRanges run.config) }
{
    Some(RunOptions {
        config: read_config(options)?,
        texts: read_plain_texts(options),
    })
}

/// The kind of work of this name.
fn kind_of(name: &str) -> Option<Workload>
    ensures { result ≡ kind_named name.now }
{
    match name {
        "list" => Some(Workload::List),
        "queue" => Some(Workload::Queue),
        "table" => Some(Workload::Table),
        "tree" => Some(Workload::Tree),
        _ => None,
    }
}

/// What the options of `gen` say of a trace, or nothing, where one is missing or a value is none of its option.
fn read_recipe(options: &ArgMatches<'_>) -> Option<Recipe>
    ensures value { (given : Given) → Has gen_names options.now given → result ≡ recipe_of given }
    ensures ranges { IfSome result (λ recipe. HasRanges (Command.Gen recipe)) }
{
    Some(Recipe {
        kind: kind_of(options.get_str("kind")?)?,
        seed: read_number(options.get_str("seed")?.as_bytes())?,
        size: SIZE.read(options.get_str("size")?)?,
        threads: THREADS.read(options.get_str("threads")?)?,
    })
}

fn step_command(alloc: Global, words: &[String]) -> Result<Option<Command>, NoMemory>
    requires { 0 < length words.now }
    ensures value { IfOk result (λ command. command
        ≡ option_map Command.Step (option_and_then run_of
        (given_of step_names (drop 1 (map string_bytes words.now))))) }
    ensures ranges { IfOk result (λ command. IfSome command HasRanges) }
{
    match options_given(alloc, Verb::Step, words) {
        Ok(options) => Ok(read_run(&options).map(Command::Step)),
        Err(WordsRefusal::Usage) => Ok(None),
        Err(WordsRefusal::NoMemory) => Err(NoMemory),
    }
}

fn threads_command(alloc: Global, words: &[String]) -> Result<Option<Command>, NoMemory>
    requires { 0 < length words.now }
    ensures value { IfOk result (λ command. command
        ≡ option_map Command.Threads (option_and_then threads_run
        (given_of run_names (drop 1 (map string_bytes words.now))))) }
    ensures ranges { IfOk result (λ command. IfSome command HasRanges) }
{
    match options_given(alloc, Verb::Run, words) {
        Ok(options) => Ok(read_threads(&options).map(Command::Threads)),
        Err(WordsRefusal::Usage) => Ok(None),
        Err(WordsRefusal::NoMemory) => Err(NoMemory),
    }
}

fn gen_command(alloc: Global, words: &[String]) -> Result<Option<Command>, NoMemory>
    requires { 0 < length words.now }
    ensures value { IfOk result (λ command. command
        ≡ option_map Command.Gen (option_and_then recipe_of
        (given_of gen_names (drop 1 (map string_bytes words.now))))) }
    ensures ranges { IfOk result (λ command. IfSome command HasRanges) }
{
    match options_given(alloc, Verb::Gen, words) {
        Ok(options) => Ok(read_recipe(&options).map(Command::Gen)),
        Err(WordsRefusal::Usage) => Ok(None),
        Err(WordsRefusal::NoMemory) => Err(NoMemory),
    }
}

/// The command that the words mean, or none: its name, and after it its options, each at most once with its value.
pub fn command_of(alloc: Global, words: &[String]) -> Result<Option<Command>, NoMemory>
    ensures value { IfOk result (λ command. command ≡ meant (map string_bytes words.now)) }
    ensures ranges { IfOk result (λ command. IfSome command HasRanges) }
{
    match words {
        [word, ..] if word.as_str() == "step" => step_command(alloc, words),
        [word, ..] if word.as_str() == "run" => threads_command(alloc, words),
        [word, ..] if word.as_str() == "gen" => gen_command(alloc, words),
        _ => Ok(None),
    }
}
