//! What a typed line asks for.
ghost use Rattle.std.specs.Prelude.{◌≡◌, ◌≤◌, length, take, drop, take_while};
ghost use Rattle.kom_types.specs.Grammar.{drop_while};
ghost use Rattle.kom_reader.specs.Commands.{is_blank, is_letter, behind_blanks, first_word};
ghost use Rattle.kom_reader.specs.Commands.{rest_of, command_of, command_by};

use crate::numbers::number_in;
use crate::words::{Choice, Word, word_of};

/// What a typed line asks for.
#[derive(Clone, Copy)]
pub enum Command {
    /// What comes next.
    Enter,
    /// A text.
    Text(u32),
    /// What a word says, of what stands behind it.
    Word(Word),
    /// Its first word fits several.
    Several,
    /// Its first word fits none.
    Unknown,
}

/// What a typed line asks for, by its first word.
pub fn command_of(line: &[u8]) -> Command
    ensures { result ≡ command_of line.now }
{
    let typed = first_word(line);
    if typed.is_empty() {
        return Command::Enter;
    }
    match number_in(typed) {
        Some(number) => Command::Text(number),
        None => command_by(word_of(typed)),
    }
}

fn command_by(choice: Choice) -> Command
    ensures { result ≡ command_by choice }
{
    match choice {
        Choice::None => Command::Unknown,
        Choice::One(word) => Command::Word(word),
        Choice::Several => Command::Several,
    }
}

/// The first word of a line.
pub fn first_word(line: &[u8]) -> &[u8]
    ensures { result.now ≡ first_word line.now }
{
    let line = behind_blanks(line);
    &line[..letters_at(line)]
}

/// What stands behind the first word of a line, and the blanks after it.
pub fn rest_of(line: &[u8]) -> &[u8]
    ensures { result.now ≡ rest_of line.now }
{
    let line = behind_blanks(line);
    behind_blanks(&line[letters_at(line)..])
}

fn behind_blanks(line: &[u8]) -> &[u8]
    ensures { result.now ≡ behind_blanks line.now }
{
    for (index, byte) in line.iter().enumerate() {
        if !is_blank(*byte) {
            return &line[index..];
        }
    }
    b""
}

/// How many bytes of a line stand before its first blank.
fn letters_at(line: &[u8]) -> usize
    ensures within { result ≤ length line.now }
    ensures taken { take result line.now ≡ take_while is_letter line.now }
    ensures left { drop result line.now ≡ drop_while is_letter line.now }
{
    for (index, byte) in line.iter().enumerate() {
        if is_blank(*byte) {
            return index;
        }
    }
    line.len()
}

fn is_blank(byte: u8) -> bool
    ensures { result ≡ is_blank byte }
{
    byte == b' ' || byte == b'\t' || byte == b'\r'
}
