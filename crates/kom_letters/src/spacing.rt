//! What is shown of a text, before its lines are cut.
ghost use Rattle.std.specs.Prelude.{◌≡◌, ◌≤◌, ◌<◌, ◌++◌, OnOk, IfOk, replicate};
ghost use Rattle.kom_letters.specs.Spacing.{piece_of, shown_letters};

use crate::{columns_of, shown_letter};
use std::alloc::{AllocError, Global};

// How many columns lie between the stops of tabs.
const STOP: usize = 8;

/// What is shown of letters, with tabs as blanks.
#[tactic(auto, using(crate::proofs::Steps::spaced_step, crate::proofs::Steps::spaced_end))]
pub(crate) fn space(alloc: Global, letters: &[char]) -> Result<Vec<char>, AllocError>
    ensures { IfOk result (λ shown. shown.items ≡ shown_letters 0 letters.now) }
{
    let mut out = Vec::new(alloc);
    let mut at = 0;
    for (i, c) in letters.iter().enumerate() {
        at = push_piece(&mut out, at, *c, &letters[i + 1..])?;
    }
    Ok(out)
}

#[tactic(auto, unfolding(crate::specs::Spacing::piece_of))]
fn push_piece(out: &mut Vec<char>, at: usize, c: char, rest: &[char]) -> Result<usize, AllocError>
    requires { at < 8 }
    ensures items { OnOk result (out.new.items ≡ out.old.items ++ (piece_of at c rest.now).0) }
    ensures next { IfOk result (λ next. next ≡ (piece_of at c rest.now).1) }
    ensures stop { IfOk result (λ next. next < 8) }
{
    if c == '\t' {
        push_blanks(out, STOP - at)?;
        return Ok(0);
    }
    if c == '\n' {
        out.push('\n')?;
        return Ok(0);
    }
    if c == '\r' && !rest.is_empty() && rest[0] == '\n' {
        return Ok(at);
    }
    let shown = shown_letter(c);
    out.push(shown)?;
    Ok((at + columns_of(shown)) % STOP)
}

fn push_blanks(out: &mut Vec<char>, count: usize) -> Result<(), AllocError>
    ensures { OnOk result (out.new.items ≡ out.old.items ++ replicate count 32) }
{
    for _i in 0..count {
        out.push(' ')?;
    }
    Ok(())
}
