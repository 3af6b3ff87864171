//! The lines of a text.
ghost use Rattle.std.specs.Prelude.{◌≡◌, ◌+◌, ◌^◌, ◌≤◌, ◌<◌, ◌++◌, ◌∷◌, [], IsTrue, OnOk, IfOk};
ghost use Rattle.kom_letters.specs.Kinds.{columns_of};
ghost use Rattle.kom_letters.specs.Lines.{word_fits, kept_behind, fits, as_laid, cursor, lay_out};

use crate::columns_of;
use crate::kinds::widens;
use std::alloc::AllocError;

/// Puts letters into lines, the first of which begins in a column.
#[tactic(auto, using(crate::proofs::Steps::laid_step, crate::proofs::Steps::laid_end))]
pub(crate) fn lay(
    out: &mut Vec<char>,
    columns: usize,
    first: usize,
    letters: &[char],
) -> Result<(), AllocError>
    requires wide { 20 ≤ columns }
    requires bound { columns < 2 ^ 16 }
    requires within { first ≤ columns }
    ensures { OnOk result (out.new.items ≡ out.old.items ++ lay_out columns first letters.now) }
{
    let mut at = first;
    for (i, c) in letters.iter().enumerate() {
        at = place(out, columns, at, *c, &letters[i + 1..])?;
    }
    Ok(())
}

#[tactic(auto, using(crate::proofs::Lays::blank_columns), unfolding(crate::specs::Lines::as_laid))]
fn place(
    out: &mut Vec<char>,
    columns: usize,
    at: usize,
    c: char,
    rest: &[char],
) -> Result<usize, AllocError>
    requires wide { 20 ≤ columns }
    requires bound { columns < 2 ^ 16 }
    requires within { at ≤ columns }
    ensures items { OnOk result (out.new.items ≡ out.old.items ++ as_laid columns at c rest.now) }
    ensures next { IfOk result (λ next. next ≡ cursor at (as_laid columns at c rest.now)) }
    ensures within { IfOk result (λ next. next ≤ columns) }
{
    if c == '\n' {
        begin_line(out)?;
        return Ok(1);
    }
    if fits(columns, at, c, rest) {
        out.push(c)?;
        return Ok(at + columns_of(c));
    }
    begin_line(out)?;
    if c == ' ' {
        return Ok(1);
    }
    out.push(c)?;
    Ok(1 + columns_of(c))
}

fn begin_line(out: &mut Vec<char>) -> Result<(), AllocError>
    ensures { OnOk result (out.new.items ≡ out.old.items ++ 10 ∷ 32 ∷ []) }
{
    out.push('\n')?;
    out.push(' ')?;
    Ok(())
}

fn fits(columns: usize, at: usize, c: char, rest: &[char]) -> bool
    requires bound { columns < 2 ^ 16 }
    requires within { at ≤ columns }
    ensures same { result ≡ fits columns at c rest.now }
    ensures within { IsTrue result → at + columns_of c ≤ columns }
{
    if columns < at + columns_of(c) + kept_behind(rest) {
        return false;
    }
    c != ' ' || word_fits(columns.saturating_sub(at).saturating_sub(1), rest)
}

fn kept_behind(rest: &[char]) -> usize
    ensures value { result ≡ kept_behind rest.now }
    ensures bound { result ≤ 1 }
{
    match rest {
        [c, ..] if widens(*c) => 1,
        _ => 0,
    }
}

#[tactic(auto, using(crate::proofs::Steps::word_step, crate::proofs::Steps::word_end))]
fn word_fits(room: usize, rest: &[char]) -> bool
    ensures { result ≡ word_fits room rest.now }
{
    let mut left = room;
    for c in rest {
        if *c == ' ' || *c == '\n' {
            return true;
        }
        let columns = columns_of(*c);
        if left < columns {
            return false;
        }
        left -= columns;
    }
    true
}
