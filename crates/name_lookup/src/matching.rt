ghost use Rattle.std.specs.Prelude.{◌≡◌, map};
ghost use Rattle.kom_types.specs.Names.{fold};
ghost use Rattle.name_lookup.specs.Letters.{letters_of};
ghost use Rattle.name_lookup.specs.Order.{cmp_by, name_cmp, letters_cmp};

use crate::alphabet::fold_byte;
use crate::letters::Letters;
use crate::order::By;
use std::cmp::Ordering;

/// How a name stands to what is asked for.
pub(crate) fn compare(name: &[u8], asked: &[u8], by: By) -> Ordering
    ensures { result ≡ cmp_by by name.now asked.now }
{
    match by {
        By::Name => compare_names(name, asked),
        By::Letters => Letters::of(name).cmp(asked.iter().copied()),
    }
}

/// How two names stand to each other.
fn compare_names(name: &[u8], other: &[u8]) -> Ordering
    ensures { result ≡ name_cmp name.now other.now }
{
    match compare_letters(name, other) {
        Ordering::Less => Ordering::Less,
        Ordering::Equal => compare_bytes(name, other),
        Ordering::Greater => Ordering::Greater,
    }
}

/// How the letters of two names stand to each other.
fn compare_letters(name: &[u8], other: &[u8]) -> Ordering
    ensures { result ≡ letters_cmp (letters_of name.now) (letters_of other.now) }
{
    Letters::of(name).cmp(Letters::of(other))
}

/// How the bytes of two names stand to each other, in which small letters are capital ones.
fn compare_bytes(name: &[u8], other: &[u8]) -> Ordering
    ensures { result ≡ letters_cmp (map fold name.now) (map fold other.now) }
{
    let ours = name.iter().map(|byte| fold_byte(*byte));
    let theirs = other.iter().map(|byte| fold_byte(*byte));
    ours.cmp(theirs)
}
