ghost use Rattle.std.specs.Prelude.{◌≡◌};
ghost use Rattle.kom_types.specs.Names.{fold, clash, is_proper, is_name};

use crate::letters::Letters;

/// A byte of Latin-1 in which small letters are capital ones. (Protocol A, "get-collate-table".)
pub fn fold_byte(byte: u8) -> u8
    ensures { result ≡ fold byte }
{
    match byte {
        b'a'..=b'z' | 224..=246 | 248..=254 => byte - 32,
        _ => byte,
    }
}

/// Whether two names clash.
pub(crate) fn clashes(first: &[u8], second: &[u8]) -> bool
    ensures { result ≡ clash first.now second.now }
{
    let ours = first.iter().map(|byte| fold_byte(*byte));
    let theirs = second.iter().map(|byte| fold_byte(*byte));
    first.len() == second.len() && ours.zip(theirs).all(|(one, other)| one == other)
}

/// Whether some bytes may be a name: no control character, and at least one word.
pub fn is_name(name: &[u8]) -> bool
    ensures { result ≡ is_name name.now }
{
    name.iter().all(|byte| is_proper(*byte)) && Letters::of(name).next().is_some()
}

/// Whether a byte may stand in a name.
fn is_proper(byte: u8) -> bool
    ensures { result ≡ is_proper byte }
{
    matches!(byte, 32..=126 | 160..=255)
}
