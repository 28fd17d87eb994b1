//! Whether a crash may leave an image, going by the calls since the last sync.
ghost use Rattle.std.specs.Prelude.{◌≡◌, ◌↔◌, ◌≤◌, ◌<◌, ◌||◌, ℕ, IsTrue, true, false, nat_le, length, fold, slice_index};
ghost use Rattle.std.specs.List.{list_all, list_any};
ghost use Rattle.vf_disk.specs.Memory.{is_change};
ghost use Rattle.vf_disk.specs.State.{IsImage, after, settled};
ghost use Rattle.vf_disk.specs.Replay.{covers as covers_test, longer, reaches as reaches_test, shorter};

use crate::Step;

/// Whether a crash may leave the image after these writes and cuts, which follow a sync of those octets.
pub(crate) fn is_admitted(synced: &[u8], changes: &[Step], image: &[u8]) -> bool
    requires { list_all is_change changes.now ≡ true }
    ensures { IsTrue result ↔ IsImage (fold after (settled synced.now) changes.now) image.now }
{
    let least = least_length(synced.len(), changes);
    if image.len() < least || !is_reached(synced.len(), changes, image.len()) {
        return false;
    }
    keeps(synced, changes, image, least)
}

/// The least length that the disk had or was to have, where it had this one at first.
fn least_length(first: usize, changes: &[Step]) -> usize
    ensures value { result ≡ fold shorter first changes.now }
    ensures within { result ≤ first }
{
    let mut least = first;
    for step in changes {
        least = least_after(least, step);
    }
    least
}

fn least_after(least: usize, step: &Step) -> usize
    ensures value { result ≡ shorter least step.now }
    ensures within { result ≤ least }
{
    match step {
        Step::CutTo { length, .. } => (least as u64).min(*length) as usize,
        Step::Wrote { .. } | Step::Synced => least,
    }
}

/// Whether the disk had or was to have so many octets or more, where it had the first number at first.
fn is_reached(first: usize, changes: &[Step], count: usize) -> bool
    ensures { result ≡ (nat_le count first || list_any (reaches_test count) changes.now) }
{
    let stood = count <= first;
    stood || is_written(changes, count)
}

fn is_written(changes: &[Step], count: usize) -> bool
    ensures { result ≡ list_any (reaches_test count) changes.now }
{
    changes.iter().any(|step| reaches(count, step))
}

fn reaches(count: usize, step: &Step) -> bool
    ensures { result ≡ reaches_test count step.now }
{
    match step {
        Step::Wrote { at, octets, .. } => (count as u64).saturating_sub(*at) <= octets.len() as u64,
        Step::CutTo { .. } | Step::Synced => false,
    }
}

/// Whether the image has the synced octets below a length, but for the ranges of the writes.
fn keeps(synced: &[u8], changes: &[Step], image: &[u8], least: usize) -> bool
    requires synced { least ≤ length synced.now }
    requires image { least ≤ length image.now }
    ensures { IsTrue result ↔ ((place : ℕ) → place < least → list_any (covers_test place) changes.now ≡ false → slice_index image.now place ≡ slice_index synced.now place) }
{
    for place in 0..least {
        if image[place] != synced[place] && !is_covered(place, changes) {
            return false;
        }
    }
    true
}

fn is_covered(place: usize, changes: &[Step]) -> bool
    ensures { result ≡ list_any (covers_test place) changes.now }
{
    changes.iter().any(|step| covers(place, step))
}

fn covers(place: usize, step: &Step) -> bool
    ensures { result ≡ covers_test place step.now }
{
    match step {
        Step::Wrote { at, octets, .. } => {
            *at <= place as u64 && place as u64 - *at < octets.len() as u64
        }
        Step::CutTo { .. } | Step::Synced => false,
    }
}
