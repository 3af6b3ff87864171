ghost use Rattle.std.specs.Prelude.{◌≡◌, ◌∷◌, ◌++◌, ℕ, List, false};
ghost use Rattle.std.specs.Option.{option_to_list};
ghost use Rattle.name_lookup.specs.Letters.{letters_of, word_end, letters_after, letters_left};

use crate::alphabet::fold_byte;
use std::mem;

/// Where a byte stands: inside parentheses or not, and after a letter of a word or not.
#[derive(Drop)]
pub(crate) struct Place {
    inside: bool,
    in_word: bool,
}

impl Place {
    /// The letter that a byte adds, if any.
    fn step(&mut self, byte: u8) -> Option<u8>
        ensures { (bytes : List ℕ) → letters_after self.old (byte ∷ bytes)
            ≡ option_to_list result ++ letters_after self.new bytes }
    {
        if self.inside {
            self.inside = byte != b')';
            return None;
        }
        match byte {
            b'(' => {
                self.inside = true;
                None
            }
            b' ' | b'\t' | b'\r' => self.end_word(),
            _ => {
                self.in_word = true;
                Some(byte)
            }
        }
    }

    /// The blank after a word, if one ends here.
    fn end_word(&mut self) -> Option<u8>
        ensures blank { option_to_list result ≡ word_end self.old.in_word }
        ensures after { self.new ≡ record { inside = self.old.inside; in_word = false } }
    {
        mem::replace(&mut self.in_word, false).then_some(b' ')
    }
}

/// The letters of the words of a name or a pattern, small ones as capital ones, and a blank after
/// each word. What stands in parentheses is left out.
#[derive(Drop)]
pub(crate) struct Letters<'a> {
    rest: &'a [u8],
    place: Place,
}

impl<'a> Letters<'a> {
    pub(crate) fn of(name: &'a [u8]) -> Letters<'a>
        ensures { letters_left result ≡ letters_of name.now }
    {
        Letters {
            rest: name,
            place: Place {
                inside: false,
                in_word: false,
            },
        }
    }
}

impl Iterator for Letters<'_> {
    type Item = u8;

    ghost use Rattle.std.specs.Iterator.{YieldsFirst, item_count};
    ghost use Rattle.name_lookup.specs.Letters.{letters_left};

    ghost next_gives = { YieldsFirst letters_left };

    ghost remaining = { item_count letters_left };

    fn next(&mut self) -> Option<u8> {
        while let Some((byte, rest)) = self.rest.split_first() {
            self.rest = rest;
            if let Some(letter) = self.place.step(fold_byte(*byte)) {
                return Some(letter);
            }
        }
        self.place.end_word()
    }
}
