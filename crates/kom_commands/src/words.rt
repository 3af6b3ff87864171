// The words of a command line.
ghost use Rattle.std.specs.Prelude.{[], ◌∷◌, MatchOption};
ghost use Rattle.kom_commands.specs.Words.{IsSpelled, IsRefused};

use crate::loads::load_of;
use crate::numbers::{AtPort, serve_of};
use crate::sweeps::{LONGEST_PASSWORD, sweep_of};
use kom_types::Words;

/// A command of the program.
#[derive(Clone, Copy, Debug)]
pub enum Command {
    /// Serves standard input and output, on a new server.
    Once,
    /// The same on the server that a store keeps.
    OnceOver,
    /// Serves that server at a port, by workers that serve a link at a time each, or many.
    Serve(AtPort),
    /// Makes a store.
    Init,
    /// Opens a store, and tells what it holds.
    Check,
    /// Loads a new server in memory with so many calls, and tells what they came to.
    Load(u32),
    /// Deletes the texts of a store that nobody keeps, by a session of this person.
    Sweep(u32),
}

/// The command that the words are, if they are one.
pub fn command_of(words: &Words) -> Option<Command>
    ensures { MatchOption result (IsRefused words.now) (IsSpelled words.now) }
{
    match words.len() {
        1 => command_alone(words.word(0)),
        2 => command_over(words.word(0), words.word(1)),
        3 => command_with(words.word(0), words.word(1), words.word(2)),
        4 => command_at(words.word(0), words.word(1), words.word(2), words.word(3)),
        _ => None,
    }
}

fn command_alone(word: &str) -> Option<Command>
    ensures { MatchOption result (IsRefused (word.now ∷ [])) (IsSpelled (word.now ∷ [])) }
{
    if word == "once" {
        Some(Command::Once)
    } else {
        None
    }
}

fn command_over(word: &str, store: &str) -> Option<Command>
    ensures { MatchOption result (IsRefused (word.now ∷ store.now ∷ []))
        (IsSpelled (word.now ∷ store.now ∷ [])) }
{
    if let Some(count) = load_of(word, store) {
        Some(Command::Load(count))
    } else if store.is_empty() {
        None
    } else if word == "once" {
        Some(Command::OnceOver)
    } else if word == "check" {
        Some(Command::Check)
    } else {
        None
    }
}

fn command_with(word: &str, store: &str, password: &str) -> Option<Command>
    ensures { MatchOption result (IsRefused (word.now ∷ store.now ∷ password.now ∷ []))
        (IsSpelled (word.now ∷ store.now ∷ password.now ∷ [])) }
{
    if store.is_empty() || LONGEST_PASSWORD < password.len() {
        None
    } else if word == "init" {
        Some(Command::Init)
    } else {
        None
    }
}

fn command_at(word: &str, store: &str, third: &str, fourth: &str) -> Option<Command>
    ensures { MatchOption result
        (IsRefused (word.now ∷ store.now ∷ third.now ∷ fourth.now ∷ []))
        (IsSpelled (word.now ∷ store.now ∷ third.now ∷ fourth.now ∷ [])) }
{
    if let Some(at) = serve_of(word, store, third, fourth) {
        return Some(Command::Serve(at));
    }
    match sweep_of(word, store, third, fourth) {
        Some(person) => Some(Command::Sweep(person)),
        None => None,
    }
}
