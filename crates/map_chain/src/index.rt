//! The index of the blocks of a chain.
ghost use Rattle.std.specs.Prelude.{◌≡◌, ◌<◌, ◌≤◌, [], length, slice_index};
ghost use Rattle.map_chain.specs.Keys.{IsNearest, IsAmong};

use crate::nodes::Place;
use std::alloc::Global;

/// The place of each block, and its key: at most every local in the block, and above every local in
/// the blocks before it. A search reads the keys, which lie together, and then one block or two.
#[derive(Drop)]
pub(crate) struct Index {
    pub(crate) places: Vec<Place>,
    pub(crate) keys: Vec<u32>,
    // How many keys there are for each local in the later half of the keys, times 2^32. It only
    // says where a search begins.
    pub(crate) density: u32,
}

impl Index {
    pub(crate) fn new(alloc: Global) -> Index
        ensures { (result.places.items ≡ []) × (result.keys.items ≡ []) }
    {
        Index {
            places: Vec::new(alloc),
            keys: Vec::new(alloc),
            density: 0,
        }
    }

    /// The number of the last key that is not above this local, or of the first key.
    pub(crate) fn nearest(&self, local: u32) -> usize
        requires { 0 < length self.now.keys.items }
        ensures { IsNearest local self.now.keys.items result }
    {
        let keys = &self.keys;
        let guess = guess(keys, self.density, local);
        if guess == 0 || keys[guess] <= local {
            search_up(keys, local, guess)
        } else {
            search_down(keys, local, guess)
        }
    }

    /// How far a local is above the key of the i-th block: its place there if no local is missing.
    pub(crate) fn above_key(&self, i: usize, local: u32) -> usize {
        match self.keys.get(i) {
            Some(key) => local.saturating_sub(*key) as usize,
            None => 0,
        }
    }
}

/// How many keys there are for each local in the later half of the keys, times 2^32.
pub(crate) fn density_of(keys: &[u32]) -> u32 {
    let half = keys.len() / 2;
    let (Some(middle), Some(last)) = (keys.get(half), keys.last()) else {
        return 0;
    };
    let span = u64::from(last.saturating_sub(*middle)).max(1);
    let steps = ((keys.len() - 1 - half) as u64).min(u64::from(u32::MAX));
    ((steps << 32) / span).min(u64::from(u32::MAX)) as u32
}

// The number that a local's key would have if all keys were as far apart, counted from the last.
fn guess(keys: &[u32], density: u32, local: u32) -> usize
    requires { 0 < length keys.now }
    ensures { result < length keys.now }
{
    let last = keys.len() - 1;
    let below = u64::from(keys[last].saturating_sub(local));
    let back = (below * u64::from(density)).div_ceil(1 << 32);
    last.saturating_sub(back as usize)
}

// The nearest key from this one on, by steps that grow eightfold.
fn search_up(keys: &[u32], local: u32, from: usize) -> usize
    requires within { from < length keys.now }
    requires reached { 0 < from → slice_index keys.now from ≤ local }
    ensures { IsNearest local keys.now result }
{
    let mut low = from;
    let mut step = 1;
    while step < keys.len() - low && keys[low + step] <= local {
        low += step;
        step *= 8;
    }
    halve(keys, local, low, step.min(keys.len() - low))
}

// The nearest key before this one, by steps that grow eightfold.
fn search_down(keys: &[u32], local: u32, from: usize) -> usize
    requires within { (0 < from) × (from < length keys.now) }
    requires passed { local < slice_index keys.now from }
    ensures { IsNearest local keys.now result }
{
    let mut high = from;
    let mut step = 1;
    while step < high && local < keys[high - step] {
        high -= step;
        step *= 8;
    }
    let span = step.min(high);
    halve(keys, local, high - span, span)
}

// The nearest of `span` keys from the one at `at` on.
fn halve(keys: &[u32], local: u32, at: usize, span: usize) -> usize
    requires { IsAmong local keys.now at span }
    ensures { IsNearest local keys.now result }
{
    let mut at = at;
    let mut span = span;
    while span > 1 {
        let half = span / 2;
        if keys[at + half] <= local {
            at += half;
            span -= half;
        } else {
            span = half;
        }
    }
    at
}
