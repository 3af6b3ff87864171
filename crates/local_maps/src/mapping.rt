//! How a part of the texts is told: dense, where no local number is missing, or sparse.
ghost use Rattle.std.specs.Prelude.{◌≡◌, ◌<◌, ◌^◌, map, IfOk};
ghost use Rattle.kom_types.specs.Mappings.{goes_on_from, block_of, after_last, first_of};
ghost use Rattle.local_maps.specs.Parts.{IsMappingOf, mapping_below};

use kom_types::{Block, LocalText, Mapping, Memory, Numbers, Sequence};
use std::alloc::Global;

/// The mapping upwards of the pairs that were taken: the first ones of those that are shown from
/// `first` on. `later` says whether more are shown after them, and `next` is the next local number
/// that will be drawn. (Protocol A, "local-to-global" and "map-created-texts".)
pub fn upward(
    alloc: Global,
    taken: Vec<LocalText>,
    later: bool,
    next: u32,
    first: u32,
) -> Result<Mapping, Memory>
    ensures { IfOk result (IsMappingOf taken.items later next first) }
{
    let end = if later {
        after_last(first, taken.as_slice())
    } else {
        first.max(next)
    };
    Ok(Mapping {
        begin: first,
        end,
        later_texts_exist: later,
        block: block_of(alloc, taken)?,
    })
}

/// The mapping downwards of the pairs that were taken: the last ones below `end`. `later` says
/// whether there are more before them. (Protocol A, "local-to-global-reverse".)
pub(crate) fn downward(
    alloc: Global,
    taken: Vec<LocalText>,
    later: bool,
    end: u32,
) -> Result<Mapping, Memory>
    ensures { IfOk result (λ mapping. mapping ≡ mapping_below taken.items later end) }
{
    let begin = if later {
        first_of(end, taken.as_slice())
    } else {
        1
    };
    Ok(Mapping {
        begin,
        end,
        later_texts_exist: later,
        block: block_of(alloc, taken)?,
    })
}

/// The number after the last pair, or this one if there is none. After the greatest number there is
/// none, so no pair follows it.
fn after_last(least: u32, pairs: &[LocalText]) -> u32
    ensures { after_last least pairs.now < 2 ^ 32 → result ≡ after_last least pairs.now }
{
    match pairs.last() {
        Some(pair) => pair.local.saturating_add(1),
        None => least,
    }
}

/// The number of the first pair, or this one if there is none.
fn first_of(end: u32, pairs: &[LocalText]) -> u32
    ensures { result ≡ first_of end pairs.now }
{
    match pairs.first() {
        Some(pair) => pair.local,
        None => end,
    }
}

/// The pairs in the form in which they are told.
fn block_of(alloc: Global, pairs: Vec<LocalText>) -> Result<Block, Memory>
    ensures { IfOk result (λ block. block ≡ block_of pairs.items) }
{
    match pairs.split_first() {
        Some((one, more)) if goes_on_from(one.local, more) => Ok(Block::Dense {
            first: one.local,
            texts: texts_of(alloc, pairs.as_slice())?,
        }),
        _ => Ok(Block::Sparse(Sequence::of(pairs))),
    }
}

/// Whether no local number is missing between these, nor after this one.
fn goes_on_from(local: u32, pairs: &[LocalText]) -> bool
    ensures { result ≡ goes_on_from local pairs.now }
{
    let mut last = local;
    for pair in pairs {
        if u64::from(pair.local) != u64::from(last) + 1 {
            return false;
        }
        last = pair.local;
    }
    true
}

fn texts_of(alloc: Global, pairs: &[LocalText]) -> Result<Numbers, Memory>
    ensures { IfOk result (λ texts. texts ≡ map (λ pair. pair.text) pairs.now) }
{
    Ok(Numbers::of(pairs.iter().map(|pair| pair.text).collect(alloc)?))
}
