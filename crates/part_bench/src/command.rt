//! The words of the command line.

ghost use Rattle.std.specs.Prelude.{◌≤◌};
ghost use Rattle.irt_base.specs.declared.limits.TheConstants.{MAX_WORDS};

use irt_base::limits::MAX_WORDS;

/// What is asked for.
#[derive(Clone, Copy)]
pub enum Command<'a> {
    /// One thread publishes and takes, in turn.
    OneThread(Publishing),
    /// One thread publishes, and another one takes.
    TwoThreads(Publishing),
    /// The routes of a plant file, so often.
    Routes { plant: &'a str, rounds: u32 },
}

/// So many publications, and as many takes.
#[derive(Clone, Copy)]
pub struct Publishing {
    /// The words (of 8 bytes) of a publication.
    pub words: u16,
    pub rounds: u32,
    ghost fits: { words ≤ MAX_WORDS },
}

/// The command of `one`, `two` or `routes`, a number of words or the name of a file, and a number of rounds.
pub fn command_of(arguments: &[String]) -> Option<Command<'_>> {
    let [kind, of, rounds] = arguments else {
        return None;
    };
    let rounds = rounds.as_str().parse::<u32>().ok()?;
    match kind.as_str() {
        "one" => Some(Command::OneThread(publishing_of(of, rounds)?)),
        "two" => Some(Command::TwoThreads(publishing_of(of, rounds)?)),
        "routes" => Some(Command::Routes {
            plant: of.as_str(),
            rounds,
        }),
        _ => None,
    }
}

/// Publications of a number of words, and so many rounds.
fn publishing_of(words: &String, rounds: u32) -> Option<Publishing> {
    let words = words.as_str().parse::<u16>().ok()?;
    if u32::from(words) > MAX_WORDS {
        return None;
    }
    Some(Publishing { words, rounds })
}
