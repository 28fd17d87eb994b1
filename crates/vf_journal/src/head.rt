//! Reading what stands before the areas of a journal.
ghost use Rattle.std.specs.Prelude.{◌≡◌, ◌<◌, ◌≤◌, ℕ, List, Some, length as size_of, min, option_map, IfOk, OnOk};
ghost use Rattle.vf_disk.specs.Disk.{LeavesShown, greatest_length};
ghost use Rattle.vf_journal.specs.Answers.{HeadAnswers, HeadCauses, is_fault, not_a_store};
ghost use Rattle.vf_journal.specs.Image.{difference};
ghost use Rattle.vf_journal.specs.Layout.{first_start, header as header_of, place_named};
ghost use Rattle.vf_journal.specs.Looking.{IsLookedAt, IsSyncedAndLookedAt};
ghost use Rattle.vf_journal.specs.Reading.{BeginsWith};

use crate::JournalError;
use crate::device::{measure, read_at};
use crate::layout::{FIRST_START, HEADER, SELECTOR, anchor_place};
use byteorder::{BigEndian, ByteOrder};
use vf_disk::Disk;

/// What the octets before the areas say of a disk that holds a journal.
#[derive(Clone, Copy)]
pub(crate) struct Head {
    /// The second anchor is selected.
    pub second: bool,
    /// The start of the area that the selected anchor names.
    pub start: u64,
    /// The number of octets of the disk.
    pub length: u64,
}

/// The first place where octets differ from the header, or end before it does.
fn header_fault(octets: &[u8]) -> Option<JournalError>
    ensures { result ≡ option_map not_a_store (difference 0 header_of octets.now) }
{
    for place in 0..HEADER.len() {
        let expected = HEADER[place];
        let ends = octets.len() <= place;
        if ends {
            return Some(JournalError::NotAStore {
                at: place as u64,
                found: None,
                expected,
            });
        }
        let found = octets[place];
        if found != expected {
            return Some(JournalError::NotAStore {
                at: place as u64,
                found: Some(found),
                expected,
            });
        }
    }
    None
}

/// The place that eight octets name.
#[tactic(auto, unfolding(crate::specs::Layout::place_named))]
fn named_place(octets: &[u8]) -> u64
    requires { 8 ≤ size_of octets.now }
    ensures { result ≡ place_named octets.now }
{
    BigEndian::read_u64(octets)
}

/// Judges a disk of so many octets by those before its areas, or by all where it has fewer.
fn head_of(octets: &[u8], length: u64) -> Result<Head, JournalError>
    requires { size_of octets.now ≡ min first_start length }
    ensures found { (image : List ℕ) → BeginsWith octets.now length image → HeadAnswers image result }
    ensures placed { IfOk result (λ head. (first_start ≤ head.start) × (head.start < length) × (head.length ≡ length)) }
    ensures causes { (faults : ℕ) → HeadCauses faults faults result }
{
    if let Some(error) = header_fault(octets) {
        return Err(error);
    }
    if length <= FIRST_START {
        return Err(JournalError::NotAStore {
            at: length,
            found: None,
            expected: 0,
        });
    }
    let second = octets[SELECTOR as usize] != 0;
    let at = anchor_place(second);
    let (_, anchor) = octets.split_at(at as usize);
    let start = named_place(anchor);
    if start < FIRST_START || length <= start {
        return Err(JournalError::NotAStore {
            at,
            found: None,
            expected: 0,
        });
    }
    Ok(Head {
        second,
        start,
        length,
    })
}

/// Reads the octets before the areas of a disk of so many octets, and judges the disk by them.
fn read_head<D: Disk>(disk: &mut D, length: u64) -> Result<Head, JournalError>
    requires { length ≡ D.size disk.old }
    ensures found { (image : List ℕ) → D.shown disk.old ≡ Some image → HeadAnswers image result }
    ensures placed { IfOk result (λ head. (first_start ≤ head.start) × (head.start < length) × (head.length ≡ length)) }
    ensures looks { IsLookedAt D.shown D.size D.may_leave D.moment D.left_since D.plan D.state D.lack_count (is_fault result) disk.old disk.new }
    ensures causes { HeadCauses (D.fault_count disk.old) (D.fault_count disk.new) result }
{
    let count = length.min(FIRST_START) as usize;
    let mut octets = [0; FIRST_START as usize];
    read_at(disk, 0, &mut octets[..count])?;
    let head = head_of(&octets[..count], length)?;
    Ok(head)
}

/// Measures a disk, reads the octets before its areas, and judges it by them.
fn find_head<D: Disk>(disk: &mut D) -> Result<Head, JournalError>
    ensures found { (image : List ℕ) → D.shown disk.old ≡ Some image → HeadAnswers image result }
    ensures placed { IfOk result (λ head. (first_start ≤ head.start) × (head.start < head.length)) }
    ensures length { IfOk result (λ head. (head.length ≡ D.size disk.old) × (head.length ≤ greatest_length)) }
    ensures looks { IsLookedAt D.shown D.size D.may_leave D.moment D.left_since D.plan D.state D.lack_count (is_fault result) disk.old disk.new }
    ensures causes { HeadCauses (D.fault_count disk.old) (D.fault_count disk.new) result }
{
    let length = measure(disk)?;
    let head = read_head(disk, length)?;
    Ok(head)
}

/// Syncs a disk, and judges it by the octets before its areas.
pub(crate) fn sync_and_judge<D: Disk>(disk: &mut D) -> Result<Head, JournalError>
    ensures found { (image : List ℕ) → D.shown disk.old ≡ Some image → HeadAnswers image result }
    ensures placed { IfOk result (λ head. (first_start ≤ head.start) × (head.start < head.length)) }
    ensures length { IfOk result (λ head. (head.length ≡ D.size disk.new) × (head.length ≤ greatest_length)) }
    ensures synced { OnOk result (LeavesShown (D.shown disk.new) (D.may_leave disk.new)) }
    ensures looks { IsSyncedAndLookedAt D.shown D.size D.may_leave D.moment D.left_since D.plan D.state D.lack_count (is_fault result) disk.old disk.new }
    ensures causes { HeadCauses (D.fault_count disk.old) (D.fault_count disk.new) result }
{
    disk.sync()?;
    let head = find_head(disk)?;
    Ok(head)
}
