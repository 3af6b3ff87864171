ghost use Rattle.std.specs.Prelude.{◌≡◌, ◌++◌, [], IfOk, OnOk, false, nat_lt};
ghost use Rattle.std.specs.Prelude.{if◌then◌else◌};
ghost use Rattle.std.specs.Option.{option_map_or};
ghost use Rattle.name_lookup.specs.Letters.{letters_of, letters_left, first_word, matches};
ghost use Rattle.name_lookup.specs.Steps.{IsStepOf, Passes, Bumps};

use crate::letters::Letters;
use kom_types::Memory;

/// What a walk along the order does at a name.
#[derive(Clone, Copy)]
pub(crate) enum Step {
    /// The pattern finds it.
    Found,
    /// It finds no name before the target.
    Seek,
    /// It finds no name any more.
    End,
}

/// What a walk does at a name, by the pattern's letters. The target is set where it is to seek one.
pub(crate) fn look_at(pattern: &[u8], name: &[u8], target: &mut Vec<u8>) -> Result<Step, Memory>
    ensures { IfOk result
        (λ step. IsStepOf step pattern.now (letters_of name.now) target.new.items) }
{
    target.clear();
    let mut letters = Letters::of(name);
    let mut rest = pattern;
    let mut start = 0;
    while let Some((asked, later)) = rest.split_first() {
        if *asked == b' ' {
            if !push_word(&mut letters, target)? {
                return Ok(without_letters(later));
            }
            start = target.len();
        } else {
            let letter = letters.next();
            if letter != Some(*asked) {
                if is_above(letter, *asked) {
                    return pass_word(start, target);
                }
                push_first(rest, target)?;
                return Ok(Step::Seek);
            }
            target.push(*asked)?;
        }
        rest = later;
    }
    Ok(Step::Found)
}

/// What a walk does where a pattern goes on and a name has ended.
fn without_letters(pattern: &[u8]) -> Step
    ensures { result ≡ (if matches pattern.now [] then Step.Found else Step.Seek) }
{
    for letter in pattern {
        if *letter != b' ' {
            return Step::Seek;
        }
    }
    Step::Found
}

/// Whether there is a letter, and it comes after the one that is asked for.
fn is_above(letter: Option<u8>, asked: u8) -> bool
    ensures { result ≡ option_map_or (nat_lt asked) letter false }
{
    match letter {
        Some(letter) => letter > asked,
        None => false,
    }
}

/// Adds the letters of the next word to others, with its blank. Whether it has one.
fn push_word(letters: &mut Letters, target: &mut Vec<u8>) -> Result<bool, Memory>
    ensures { IfOk result (λ ended. Passes ended (letters_left letters.old)
        (letters_left letters.new) target.old.items target.new.items) }
{
    while let Some(letter) = letters.next() {
        target.push(letter)?;
        if letter == b' ' {
            return Ok(true);
        }
    }
    Ok(false)
}

/// Adds the letters of a pattern's next word to others.
fn push_first(pattern: &[u8], target: &mut Vec<u8>) -> Result<(), Memory>
    ensures { OnOk result (target.new.items ≡ target.old.items ++ first_word pattern.now) }
{
    for letter in pattern {
        if *letter == b' ' {
            return Ok(());
        }
        target.push(*letter)?;
    }
    Ok(())
}

/// Makes of letters whose last blank stands before a place those that come after all that begin
/// with the letters up to there; or ends the walk, if no word stands before it.
fn pass_word(start: usize, target: &mut Vec<u8>) -> Result<Step, Memory>
    ensures { IfOk result (λ step. Bumps start target.old.items step target.new.items) }
{
    if start == 0 {
        return Ok(Step::End);
    }
    target.truncate(start - 1);
    target.push(b' ' + 1)?;
    Ok(Step::Seek)
}
