// Chains that grow side by side, so that the blocks of each lie scattered among those of others.
ghost use Rattle.std.specs.Prelude.{◌<◌};

use super::measures::{LOOK_UPS, add, next};
use map_chain::{Chain, Memory};
use std::alloc::Global;

/// How many chains grow side by side.
const CHAINS: u32 = 16;

/// How many pairs are walked upward.
const STEPS: usize = 255;

pub fn filled(alloc: Global, pairs: u32) -> Result<Vec<Chain>, Memory> {
    let mut chains = Vec::new(alloc);
    for _ in 0..CHAINS {
        chains.push(Chain::new(alloc))?;
    }
    for local in 0..pairs {
        for chain in &mut chains {
            add(chain, local)?;
        }
    }
    Ok(chains)
}

/// The number of a chain that is drawn.
fn drawn(state: &mut u32) -> usize {
    next(state, CHAINS) as usize
}

/// The texts of locals below a bound.
pub fn found(chains: &[Chain], locals: u32) -> u64
    requires { 0 < locals }
{
    let mut state = 1;
    let mut sum: u64 = 0;
    for _ in 0..LOOK_UPS {
        let local = next(&mut state, locals);
        if let Some(chain) = chains.get(drawn(&mut state)) {
            sum = sum.wrapping_add(u64::from(chain.get(local).unwrap_or(0)));
        }
    }
    sum
}

/// The texts of 255 pairs each from locals below a bound on.
pub fn walked(chains: &[Chain], locals: u32) -> u64
    requires { 0 < locals }
{
    let mut state = 1;
    let mut sum: u64 = 0;
    for _ in 0..LOOK_UPS {
        let local = next(&mut state, locals);
        if let Some(chain) = chains.get(drawn(&mut state)) {
            for (_, text) in chain.from(local).take(STEPS) {
                sum = sum.wrapping_add(u64::from(text));
            }
        }
    }
    sum
}

/// Takes pairs out whose locals are below a bound. Their texts.
pub fn removed(chains: &mut [Chain], locals: u32) -> u64
    requires { 0 < locals }
{
    let mut state = 1;
    let mut sum: u64 = 0;
    for _ in 0..LOOK_UPS {
        let local = next(&mut state, locals);
        if let Some(chain) = chains.get_mut(drawn(&mut state)) {
            sum = sum.wrapping_add(u64::from(chain.remove(local).unwrap_or(0)));
        }
    }
    sum
}
