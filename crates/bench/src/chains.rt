// A chain of pairs beside a vector of the same pairs, and 16 chains that grew side by side.
ghost use Rattle.std.specs.Prelude.{◌<◌};
ghost use Rattle.bench.specs.Words.{AsksForSome};

mod measures;
mod side_by_side;

use crate::request::Request;
use crate::watch::Watch;
use map_chain::Chain;
use std::alloc::Global;
use std::io;
use std::rt::Clock;

const FEW_PAIRS: u32 = 1000;

/// How many pairs are the last ones.
const LAST: u32 = 64;

/// How many pairs are taken out and added, at most.
const RENEWED: u32 = 10_000;

/// How wide the name of a measure is beside its time.
const WIDTH: usize = 40;

/// Measures the calls of chains.
pub fn measure<R: Print + Clock>(rt: &R, alloc: Global, request: Request) -> io::Result<()>
    requires { AsksForSome request }
{
    let pairs = request.count_or(FEW_PAIRS);
    measure_one(rt, alloc, request, pairs)?;
    measure_side_by_side(rt, alloc, request, pairs)
}

fn measure_one<R: Print + Clock>(
    rt: &R,
    alloc: Global,
    request: Request,
    pairs: u32,
) -> io::Result<()>
    requires { 0 < pairs }
{
    let mut watch = Watch::start(rt, request.told(), WIDTH)?;
    let Ok(mut chain) = measures::filled(alloc, pairs) else {
        return Err(io::ErrorKind::OutOfMemory.into());
    };
    watch.tell(rt, "append", chain.len() as u64)?;
    let vector = measures::vector(alloc, pairs)?;
    watch.tell(rt, "push to a vector", vector.len() as u64)?;
    watch.tell(rt, "walk up", measures::up(&chain))?;
    watch.tell(rt, "walk down", measures::down(&chain))?;
    watch.tell(rt, "walk a vector", measures::along(&vector))?;
    look_ups(rt, &mut watch, &chain, pairs)?;
    let more = RENEWED.min(u32::MAX - pairs);
    let renewed = measures::renewed(&mut chain, pairs, more);
    watch.tell(rt, "remove in the middle, append", renewed)?;
    let all = pairs + more;
    measures::thin(&mut chain, all);
    watch.tell(rt, "remove every second", chain.len() as u64)?;
    measures::empty(&mut chain, all);
    watch.tell(rt, "remove the rest downward", chain.len() as u64)
}

fn look_ups<R: Print + Clock>(
    rt: &R,
    watch: &mut Watch,
    chain: &Chain,
    pairs: u32,
) -> io::Result<()>
    requires { 0 < pairs }
{
    let last = pairs.min(LAST);
    watch.tell(
        rt,
        "get of the last 64",
        measures::found(chain, pairs - last, last),
    )?;
    watch.tell(rt, "get anywhere", measures::found(chain, 0, pairs))
}

fn measure_side_by_side<R: Print + Clock>(
    rt: &R,
    alloc: Global,
    request: Request,
    pairs: u32,
) -> io::Result<()>
    requires { 0 < pairs }
{
    let mut watch = Watch::start(rt, request.told(), WIDTH)?;
    watch.tell(rt, "calls at random", measures::at_random(alloc, pairs))?;
    let Ok(mut chains) = side_by_side::filled(alloc, pairs) else {
        return Err(io::ErrorKind::OutOfMemory.into());
    };
    watch.tell(rt, "16 chains side by side", chains.len() as u64)?;
    let found = side_by_side::found(&chains, pairs);
    watch.tell(rt, "10000 gets in the 16", found)?;
    let walked = side_by_side::walked(&chains, pairs);
    watch.tell(rt, "10000 walks of 255 pairs in the 16", walked)?;
    let removed = side_by_side::removed(&mut chains, pairs);
    watch.tell(rt, "10000 removals in the 16", removed)?;
    if let Some(chain) = chains.first_mut() {
        measures::thin_out(chain, pairs);
        watch.tell(rt, "remove all but every 64th of one", chain.len() as u64)?;
        watch.tell(rt, "walk up the rest", measures::up(chain))?;
    }
    Ok(())
}
