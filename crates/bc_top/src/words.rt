ghost use Rattle.std.specs.Prelude.{◌≡◌, List, [], ◌∷◌, map, find, string_bytes};
ghost use Rattle.std.specs.Str.{bytes_eq};
ghost use Rattle.bc_top.specs.CommandWords.{command_named, scenario_number, top_command};

use text_io::number;

/// What words ask for.
#[derive(Clone, Copy, Debug, PartialEq, Eq)]
pub enum Command {
    /// The run of a scenario by its turns, on one thread.
    Replay,
    /// A run of a scenario by threads.
    Run,
    /// The summary of the run by turns of the scenario that this number makes.
    Gen(u32),
}

/// The most digits of the number of a scenario.
const DIGITS_MAX: usize = 10;

/// The command that the words name.
pub fn command_of(words: &[String]) -> Option<Command>
    ensures { result ≡ top_command (map string_bytes words.now) }
{
    match words {
        [word] => command_alone(word.as_str()),
        [word, number] => command_with(word.as_str(), number.as_str()),
        _ => None,
    }
}

/// The command whose word this is, of those that have one word.
fn command_alone(word: &str) -> Option<Command>
    ensures { result ≡ top_command (word.now ∷ []) }
{
    match word {
        "replay" => Some(Command::Replay),
        "run" => Some(Command::Run),
        _ => None,
    }
}

/// The command of a word and a number.
fn command_with(word: &str, number: &str) -> Option<Command>
    ensures { result ≡ top_command (word.now ∷ number.now ∷ []) }
{
    match word {
        "gen" => Some(Command::Gen(scenario_number(number)?)),
        _ => None,
    }
}

/// The number of a scenario.
fn scenario_number(word: &str) -> Option<u32>
    ensures { result ≡ scenario_number word.now }
{
    if word.len() > DIGITS_MAX {
        return None;
    }
    let n = number(word.as_bytes())?;
    u32::try_from(n).ok()
}
