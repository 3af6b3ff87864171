// How an image is made from a record of steps.
ghost use Rattle.std.specs.Prelude.{◌≡◌, ◌≢◌, ◌≤◌, ◌∷◌, [], length, take, drop, All, IfOk, OnOk};
ghost use Rattle.kom_disk.specs.Disk.{overwritten};
ghost use Rattle.kom_disk.specs.Steps.{bytes_after, torn_after, LeftBy, EndsSynced};
ghost use Rattle.kom_disk.specs.declared.tear.Tear.TheVariants.{Nothing};
ghost use Rattle.kom_disk.specs.declared.step.Step.TheVariants.{Sync};

use crate::memory_disk::overwrite;
use crate::step::Step;
use crate::tear::{Tear, tear_cut, tear_write};
use std::alloc::{AllocError, Global};

/// How many of the steps come up to the last sync.
pub fn synced(steps: &[Step]) -> usize
    ensures within { result ≤ length steps.now }
    ensures synced { EndsSynced (take result steps.now) }
    ensures none_after { All (λ step. step ≢ Sync) (drop result steps.now) }
{
    let mut end = steps.len();
    while end > 0 {
        if let Step::Sync = steps[end - 1] {
            return end;
        }
        end -= 1;
    }
    0
}

/// The bytes after these steps.
pub fn replayed(alloc: Global, start: &[u8], steps: &[Step]) -> Result<Vec<u8>, AllocError>
    ensures { IfOk result (λ bytes. bytes.items ≡ bytes_after start.now steps.now) }
{
    let mut bytes = start.to_vec(alloc)?;
    for step in steps {
        replay_step(&mut bytes, step)?;
    }
    Ok(bytes)
}

fn replay_step(bytes: &mut Vec<u8>, step: &Step) -> Result<(), AllocError>
    ensures { OnOk result (bytes.new.items ≡ bytes_after bytes.old.items (step.now ∷ [])) }
{
    match step {
        Step::Write(at, from) => replay_write(bytes, *at, from),
        Step::Cut(len) => {
            bytes.truncate(*len);
            Ok(())
        }
        Step::Sync | Step::Pass => Ok(()),
    }
}

// A write that begins past the end adds to it.
fn replay_write(bytes: &mut Vec<u8>, at: usize, from: &[u8]) -> Result<(), AllocError>
    ensures { OnOk result (bytes.new.items ≡ overwritten bytes.old.items at from.now) }
{
    bytes.reserve(from.len())?;
    let at = at.min(bytes.len());
    overwrite(bytes, at, from);
    Ok(())
}

/// What is left of these steps, none of them a sync: the first writes and cuts of them torn as
/// `each` lists it, and the later ones by the kinds that `choice` picks.
pub fn torn(
    stable: Vec<u8>,
    steps: &[Step],
    each: &[Tear],
    choice: u64,
) -> Result<Vec<u8>, AllocError>
    requires { All (λ step. step ≢ Sync) steps.now }
    ensures image { IfOk result
        (λ image. torn_after (λ was. was ≡ stable.items) stable.items steps.now image.items) }
    ensures stable { each.now ≡ [] → choice ≡ 0
        → IfOk result (λ image. image.items ≡ stable.items) }
{
    let mut image = stable;
    let mut place = 0;
    for step in steps {
        tear_step(each, choice, place, &mut image, step)?;
        place = next_place(place, step);
    }
    Ok(image)
}

// The place of the next write or cut among them.
fn next_place(place: usize, step: &Step) -> usize {
    match step {
        Step::Write(..) | Step::Cut(_) => place.saturating_add(1),
        Step::Sync | Step::Pass => place,
    }
}

fn tear_step(
    each: &[Tear],
    choice: u64,
    place: usize,
    bytes: &mut Vec<u8>,
    step: &Step,
) -> Result<(), AllocError>
    requires { step.now ≢ Sync }
    ensures left { OnOk result (LeftBy step.now bytes.old.items bytes.new.items) }
    ensures nothing { each.now ≡ [] → choice ≡ 0 → OnOk result (bytes.new.items ≡ bytes.old.items) }
{
    match step {
        Step::Write(at, from) => {
            let tear = pick(each, choice, place, from.len());
            tear_write(tear, bytes, *at, from)
        }
        Step::Cut(len) => {
            let tear = pick(each, choice, place, bytes.len().saturating_sub(*len));
            tear_cut(tear, bytes, *len);
            Ok(())
        }
        Step::Sync | Step::Pass => Ok(()),
    }
}

// How the write or the cut of this place is torn, which is one of n bytes. Below 8 a choice picks
// one kind for all of them, and a greater one a kind for each.
fn pick(each: &[Tear], choice: u64, place: usize, n: usize) -> Tear
    ensures { each.now ≡ [] → choice ≡ 0 → result ≡ Nothing }
{
    match each.get(place) {
        Some(tear) => *tear,
        None => {
            let rest = if place < 21 {
                choice >> (3 * (place + 1))
            } else {
                0
            };
            Tear::of(choice % 8 + rest % 8, n)
        }
    }
}
