//! The images of a disk in memory, made from its calls.
ghost use Rattle.std.specs.Prelude.{◌≡◌, ◌≤◌, ◌+◌, ℕ, List, true, length, take, drop, fold, vec_len, IfOk, OnOk};
ghost use Rattle.std.specs.List.{list_all};
ghost use Rattle.vf_disk.specs.Memory.{is_change as change_test, is_settled as settled_test};
ghost use Rattle.vf_disk.specs.State.{settled, state_of, after, filled_in};
ghost use Rattle.vf_disk.specs.Replay.{make, mark};

use crate::Step;
use crate::overwrite::overwrite;
use std::alloc::Global;
use vf_base::NoMemory;

/// The number of calls up to and with the last sync.
pub(crate) fn last_sync(steps: &[Step]) -> usize
    ensures within { result ≤ length steps.now }
    ensures base { (first : List ℕ) → state_of first (take result steps.now) ≡ settled (state_of first (take result steps.now)).shown }
    ensures changes { list_all change_test (drop result steps.now) ≡ true }
{
    let mut count = steps.len();
    while count > 0 {
        if !is_change(&steps[count - 1]) {
            return count;
        }
        count -= 1;
    }
    count
}

/// Whether nothing was written or cut since the last sync.
pub(crate) fn is_settled(steps: &[Step]) -> bool
    ensures { result ≡ settled_test steps.now }
{
    match steps.split_last() {
        Some((last, _)) => !is_change(last),
        None => true,
    }
}

fn is_change(step: &Step) -> bool
    ensures { result ≡ change_test step.now }
{
    match step {
        Step::Wrote { .. } | Step::CutTo { .. } => true,
        Step::Synced => false,
    }
}

/// What a read gives after these calls.
pub(crate) fn shown_by(alloc: Global, first: &[u8], steps: &[Step]) -> Result<Vec<u8>, NoMemory>
    ensures { IfOk result (λ image. image.items ≡ (state_of first.now steps.now).shown) }
{
    let mut image = first.to_vec(alloc)?;
    for step in steps {
        show(&mut image, step)?;
    }
    Ok(image)
}

/// Makes a call that succeeded.
fn show(image: &mut Vec<u8>, step: &Step) -> Result<(), NoMemory>
    ensures { OnOk result ((s : _) → s.shown ≡ image.old.items → (after s step.now).shown ≡ image.new.items) }
{
    match step {
        Step::Wrote {
            at,
            octets,
            good: true,
        } => {
            let at = (*at).min(image.len() as u64) as usize;
            overwrite(image, at, octets.as_slice())
        }
        Step::CutTo { length, good: true } => {
            image.truncate((*length).min(image.len() as u64) as usize);
            Ok(())
        }
        Step::Wrote { .. } | Step::CutTo { .. } | Step::Synced => Ok(()),
    }
}

/// Makes these calls, also those that failed.
pub(crate) fn make_all(image: &mut Vec<u8>, steps: &[Step]) -> Result<(), NoMemory>
    ensures { OnOk result (image.new.items ≡ fold make image.old.items steps.now) }
{
    for step in steps {
        make_one(image, step)?;
    }
    Ok(())
}

fn make_one(image: &mut Vec<u8>, step: &Step) -> Result<(), NoMemory>
    ensures { OnOk result (image.new.items ≡ make image.old.items step.now) }
{
    match step {
        Step::Wrote { at, octets, .. } => {
            let at = *at as usize;
            if image.len() < at {
                image.resize(at, 0)?;
            }
            overwrite(image, at, octets.as_slice())
        }
        Step::CutTo { length, .. } => {
            image.truncate(*length as usize);
            Ok(())
        }
        Step::Synced => Ok(()),
    }
}

/// Puts one octet into the ranges of the writes, as far as the image goes.
pub(crate) fn mark_all(image: &mut Vec<u8>, octet: u8, steps: &[Step])
    ensures { image.new.items ≡ fold (mark octet) image.old.items steps.now }
{
    for step in steps {
        mark_one(image, octet, step);
    }
}

fn mark_one(image: &mut Vec<u8>, octet: u8, step: &Step)
    ensures { image.new.items ≡ mark octet image.old.items step.now }
{
    if let Step::Wrote { at, octets, .. } = step {
        let length = image.len();
        let from = (*at as usize).min(length);
        let count = octets.len().min(length - from);
        image[from..from + count].fill(octet);
    }
}
