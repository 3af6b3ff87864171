// What is measured. The k-th pair has k as its local and as its text.
ghost use Rattle.std.specs.Prelude.{◌≡◌, ◌+◌, ◌<◌, ◌^◌, length, IfOk};
ghost use Rattle.map_chain.specs.Pairs.{AllBelow};

use map_chain::{Chain, Memory};
use std::alloc::{AllocError, Global};

pub const LOOK_UPS: u32 = 10_000;

pub fn filled(alloc: Global, pairs: u32) -> Result<Chain, Memory>
    ensures length { IfOk result (λ chain. length chain.pairs ≡ pairs) }
    ensures below { IfOk result (λ chain. AllBelow pairs chain.pairs) }
{
    let mut chain = Chain::new(alloc);
    for local in 0..pairs {
        chain.append(local, local)?;
    }
    Ok(chain)
}

pub fn vector(alloc: Global, pairs: u32) -> Result<Vec<(u32, u32)>, AllocError>
    ensures { IfOk result (λ vector. length vector.items ≡ pairs) }
{
    let mut vector = Vec::new(alloc);
    for local in 0..pairs {
        vector.push((local, local))?;
    }
    Ok(vector)
}

pub fn up(chain: &Chain) -> u64 {
    let mut sum: u64 = 0;
    for (_, text) in chain.from(0) {
        sum = sum.wrapping_add(u64::from(text));
    }
    sum
}

pub fn down(chain: &Chain) -> u64 {
    let mut sum: u64 = 0;
    for (_, text) in chain.before(u32::MAX) {
        sum = sum.wrapping_add(u64::from(text));
    }
    sum
}

pub fn along(vector: &[(u32, u32)]) -> u64 {
    let mut sum: u64 = 0;
    for (_, text) in vector {
        sum = sum.wrapping_add(u64::from(*text));
    }
    sum
}

/// The texts of locals from the lowest on, drawn from so many.
pub fn found(chain: &Chain, lowest: u32, locals: u32) -> u64
    requires { 0 < locals }
{
    let mut state = 1;
    let mut sum: u64 = 0;
    for _ in 0..LOOK_UPS {
        let local = lowest.wrapping_add(next(&mut state, locals));
        sum = sum.wrapping_add(u64::from(chain.get(local).unwrap_or(0)));
    }
    sum
}

/// The next number of a fixed sequence, below a bound.
pub fn next(state: &mut u32, bound: u32) -> u32
    requires { 0 < bound }
    ensures { result < bound }
{
    *state = state.wrapping_mul(1664525).wrapping_add(1013904223);
    (*state >> 4) % bound
}

/// Adds a pair, unless there is one from its local on.
pub fn add(chain: &mut Chain, local: u32) -> Result<(), Memory> {
    let next = chain.from(local).next();
    match next {
        Some(_) => Ok(()),
        None => chain.append(local, local),
    }
}

/// So many calls that are drawn, of a chain of its own: appends, removals, look-ups, and room made
/// for more. Where memory is refused it goes on. The texts that were found, and how many are left.
pub fn at_random(alloc: Global, calls: u32) -> u64 {
    let mut chain = Chain::new(alloc);
    let mut state = 1;
    let mut last: u32 = 0;
    let mut sum: u64 = 0;
    for _ in 0..calls {
        let local = next(&mut state, last.max(1));
        let found = match next(&mut state, 8) {
            0 => u32::from(chain.reserve(local as usize % 200).is_ok()),
            1 => chain.get(local).unwrap_or(0),
            2 | 3 | 4 => chain.remove(local).unwrap_or(0),
            _ => {
                last = last.wrapping_add(u32::from(add(&mut chain, last).is_ok()));
                last
            }
        };
        sum = sum.wrapping_add(u64::from(found));
    }
    sum.wrapping_add(chain.len() as u64)
}

/// For each of so many locals from the first on, takes out the pair at half of it and adds one at
/// the end. The texts that were taken out.
pub fn renewed(chain: &mut Chain, first: u32, count: u32) -> u64
    requires above { AllBelow first chain.old.pairs }
    requires fits { first + count < 2 ^ 32 }
{
    let mut sum: u64 = 0;
    for local in first..first + count {
        sum = sum.wrapping_add(u64::from(chain.remove(local / 2).unwrap_or(0)));
        let Ok(()) = chain.append(local, local) else {
            return sum;
        };
    }
    sum
}

pub fn thin(chain: &mut Chain, pairs: u32) {
    for half in 0..pairs.div_ceil(2) {
        chain.remove(2 * half);
    }
}

/// Takes out all pairs but those of every 64th local.
pub fn thin_out(chain: &mut Chain, pairs: u32) {
    for local in 0..pairs {
        if local % 64 != 0 {
            chain.remove(local);
        }
    }
}

pub fn empty(chain: &mut Chain, pairs: u32) {
    for back in 1..=pairs {
        chain.remove(pairs - back);
    }
}
