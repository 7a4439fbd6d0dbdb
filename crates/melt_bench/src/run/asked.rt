//! What the words after the command `run` ask for.
ghost use Rattle.std.specs.Prelude.{◌≡◌, ◌≤◌, ◌↔◌, map, string_bytes, IsTrue, IfOk, IfSome, OnErr};
ghost use Rattle.melt_model.specs.Config.{InRanges};
ghost use Rattle.melt_bench.specs.Asked.{with_named, with_setting, with_settings, with_word};

use crate::words::number_in;
use anyhow::{Context, Result, ensure};
use melt_model::Config;

/// What is asked for.
#[derive(Clone, Copy)]
pub struct Asked {
    pub config: Config,
    /// Whether the disk is the file `melt.stale` of the current folder, and not one in memory.
    pub is_on_file: bool,
    /// How many runs are made, of which each is told how long it took. At 0 there is one, and nothing is told of it.
    pub timed: u32,
}

/// What is asked for without a word: a run in a small heap, over a disk that it does not fill.
const NO_WORDS: Asked = Asked {
    config: Config {
        heap: 4_096,
        forward: 64,
        disk: 65_536,
        mark: 50,
        move_: 80,
        every: 0,
    },
    is_on_file: false,
    timed: 0,
};

/// The same numbers, with this one under this name.
fn with_setting(config: Config, name: &str, number: u32) -> Option<Config>
    ensures { result ≡ with_setting config name.now number }
{
    let mut config = config;
    match name {
        "heap" => config.heap = number,
        "forward" => config.forward = number,
        "disk" => config.disk = number,
        "mark" => config.mark = number,
        "move" => config.move_ = number,
        "every" => config.every = number,
        _ => return None,
    }
    Some(config)
}

/// The same, and how many runs are timed, or a number of the run.
fn with_named(asked: Asked, name: &str, number: u32) -> Option<Asked>
    ensures { result ≡ with_named asked name.now number }
{
    if name == "time" {
        return Some(Asked {
            timed: number,
            ..asked
        });
    }
    let config = with_setting(asked.config, name, number)?;
    Some(Asked { config, ..asked })
}

/// The same, and what one more word asks for: `file`, or a number by its name, as `heap=4096` or `time=9`.
fn with_word(asked: Asked, word: &str) -> Option<Asked>
    ensures { result ≡ with_word asked word.now }
{
    match word {
        "file" => Some(Asked {
            is_on_file: true,
            ..asked
        }),
        _ => {
            let (name, number) = word.split_once('=')?;
            with_named(asked, name, number_in(number)?)
        }
    }
}

fn is_within(low: u32, number: u32, high: u32) -> bool
    ensures { IsTrue result ↔ ((low ≤ number) × (number ≤ high)) }
{
    low <= number && number <= high
}

/// Whether a run takes these numbers.
fn is_in_ranges(config: Config) -> bool
    ensures { IsTrue result ↔ InRanges config }
{
    is_within(16, config.heap, 4_194_304)
        && is_within(1, config.forward, 65_536)
        && is_within(2, config.disk, 268_435_456)
        && is_within(config.mark, config.move_, 100)
        && config.every <= 1_048_576
}

/// What the words ask for together.
pub fn asked_by(words: &[String]) -> Result<Asked>
    ensures asks { IfOk result (λ asked. with_settings NO_WORDS (map string_bytes words.now) ≡ Some asked) }
    ensures ranges { IfOk result (λ asked. InRanges asked.config) }
    ensures refused { OnErr result (IfSome (with_settings NO_WORDS (map string_bytes words.now))
        (λ asked. InRanges asked.config → ⊥)) }
{
    let mut asked = NO_WORDS;
    for word in words {
        asked = with_word(asked, word).context(format_args!("{word:?} asks for nothing"))?;
    }
    ensure!(
        is_in_ranges(asked.config),
        "a number is too small or too large"
    );
    Ok(asked)
}
