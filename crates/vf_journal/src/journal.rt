ghost use Rattle.std.specs.Prelude.{◌≡◌, ◌+◌, ◌-◌, ◌<◌, ◌≤◌, ◌⊎◌, [], ◌∷◌, ◌++◌, ℕ, List, None, Some, IsSome, OnOk, OnErr, IfOk, IfSome, length, is_err, max, not};
ghost use Rattle.vf_disk.specs.Disk.{LeavesOnly, LeavesShown, greatest_length};
ghost use Rattle.vf_journal.specs.Answers.{AppendAnswers, AppendCalls, FaultAlone, IsUntouched, OpenAnswers, OpenCauses, is_fault};
ghost use Rattle.vf_disk.specs.Calls.{MakesChanges};
ghost use Rattle.vf_disk.specs.Steps.{MakesSteps};
ghost use Rattle.vf_journal.specs.Layout.{new_journal};
ghost use Rattle.vf_journal.specs.Looking.{IsSyncedAndLookedAt};
ghost use Rattle.vf_journal.specs.Records.{IsArea, IsEntry, area_with, entry_of, longest};
ghost use Rattle.vf_journal.specs.Image.{Holds, HoldsEither, IsNoneOrNew, records_of};
ghost use Rattle.vf_journal.specs.Writes.{Shows, append_steps, appended, create_steps, prepare_steps, prepared as prepared_on, switch_steps, switched};

use crate::area::Area;
use crate::device::{write_both_synced, write_parts_synced, write_synced};
use crate::head::sync_and_judge;
use crate::layout::{
    FIRST_START, MOST_LATER_OCTETS, MOST_RECORD_OCTETS, REST, SELECTOR, anchor_place, selector,
};
use crate::reading::read_records;
use crate::{JournalError, Placing};
use std::alloc::Global;
use std::marker::Model;
use vf_base::Octets;
use vf_disk::{Disk, Parts};

/// Where a journal stands on its disk, which every call is handed. After `DiskFault` it is spent: the disk has to be
/// opened again.
#[derive(Drop)]
pub struct Journal {
    second: bool,
    area: Area,
    limit: u64,
    prepared: Option<Area>,
}

impl Model for Journal {
    ghost use Rattle.vf_journal.specs.JournalState.{IsSound, JournalState};

    ghost Value = { JournalState };

    ghost view = { λ journal. record { second = journal.second; area = journal.area; limit = journal.limit; prepared = journal.prepared } };

    ghost invariant = { λ journal. IsSound journal.area journal.prepared };
}

impl Journal {
    ghost use Rattle.vf_journal.specs.JournalState.{HasPrepared, IsWithin, StandsOn, after_append, after_prepare, after_switch, is_due, new_area, new_start, placing};

    /// Makes a journal without records on an empty disk, in six calls. A crash at any moment leaves no journal, or
    /// that one.
    pub fn create<D: Disk>(disk: &mut D) -> Result<(), JournalError>
        requires { D.size disk.old ≡ 0 }
        ensures made { (octets : List ℕ) → D.shown disk.old ≡ Some octets → OnOk result (D.shown disk.new ≡ Some new_journal) }
        ensures seen { (octets : List ℕ) → D.shown disk.old ≡ Some octets → Shows (D.shown disk.new) IsNoneOrNew }
        ensures size { OnOk result (D.size disk.new ≡ 34) }
        ensures synced { OnOk result (LeavesShown (D.shown disk.new) (D.may_leave disk.new)) }
        ensures any_moment { (octets : List ℕ) → D.shown disk.old ≡ Some octets → LeavesShown (D.shown disk.old) (D.may_leave disk.old) → LeavesOnly D.moment D.left_since disk.old disk.new IsNoneOrNew }
        ensures calls { MakesChanges 6 (D.plan disk.old) (D.plan disk.new) (is_err result) }
        ensures steps { MakesSteps (create_steps) (D.plan disk.old) (D.plan disk.new) (D.state disk.old) (D.state disk.new) (is_err result) (D.lack_count disk.old) (D.lack_count disk.new) }
        ensures causes { FaultAlone (D.fault_count disk.old) (D.fault_count disk.new) result }
    {
        // The header is whole only with the last write, when all else stands on the disk.
        write_synced(disk, 0, &[0])?;
        write_synced(disk, 1, &REST)?;
        write_synced(disk, 0, b"F")?;
        Ok(())
    }

    /// Syncs a disk and reads the journal on it, whose area is to end within `limit` octets. Puts the octets of its
    /// records after those in `records`, the oldest first; after an error none. One call of the disk is a sync, and
    /// the others look.
    ///
    /// `NotAStore` comes where the first 16 octets differ from the header, at the first such place; where they agree
    /// and the disk has fewer than 34 octets, at its length; and where the selected anchor is misplaced, since it
    /// names a place below 33 or one that isn't below the disk's length, at the anchor's place, 17 or 25, with `found`
    /// `None` and `expected` 0.
    pub fn open<D: Disk>(
        alloc: Global,
        disk: &mut D,
        limit: u64,
        records: &mut Vec<Octets>,
    ) -> Result<Journal, JournalError>
        ensures answers { (image : List ℕ) → D.shown disk.old ≡ Some image → OpenAnswers image limit result }
        ensures records { (image : List ℕ) → D.shown disk.old ≡ Some image → OnOk result (records.new.items ≡ records.old.items ++ records_of image) }
        ensures kept { OnErr result (records.new.items ≡ records.old.items) }
        ensures limit { IfOk result (λ journal. journal.limit ≡ limit) }
        ensures stands { (image : List ℕ) (held : List (List ℕ)) → D.shown disk.old ≡ Some image → Holds image held → IfOk result (λ journal. StandsOn D.shown D.may_leave journal disk.new held) }
        ensures within { IfOk result (λ journal. IsWithin journal (D.size disk.new)) }
        ensures synced { OnOk result (LeavesShown (D.shown disk.new) (D.may_leave disk.new)) }
        ensures looks { IsSyncedAndLookedAt D.shown D.size D.may_leave D.moment D.left_since D.plan D.state D.lack_count (is_fault result) disk.old disk.new }
        ensures causes { OpenCauses (D.fault_count disk.old) (D.fault_count disk.new) result }
    {
        let head = sync_and_judge(disk)?;
        let area = read_records(alloc, disk, head.start, head.length, records)?;
        Ok(Journal {
            second: head.second,
            area,
            limit,
            prepared: None,
        })
    }

    /// The start and the end of the selected area, in octets; the end is the place after its closed gate.
    pub fn area(&self) -> (u64, u64)
        ensures { result ≡ (self.now.area.start, self.now.area.end) }
    {
        (self.area.start, self.area.end)
    }

    /// The limit: no record is written that ends past so many octets.
    pub fn limit(&self) -> u64
        ensures { result ≡ self.now.limit }
    {
        self.limit
    }

    /// Whether a switch to a new area is due before a record of `length` octets is appended: the later records of the
    /// area have more than 4,096 octets and more than the first one, or the record would end past the limit.
    pub fn is_due(&self, length: u64) -> bool
        requires { length ≤ longest }
        ensures { result ≡ is_due self.now length }
    {
        self.area.later > MOST_LATER_OCTETS && self.area.first < self.area.later
            || self.area.end + length + 5 > self.limit
    }

    /// Where a record of `length` octets is to stand, when a record that makes all tables has `snapshot` octets:
    /// whether a switch to a new area comes first, and where the record ends.
    pub fn plan(&self, length: u64, snapshot: u64) -> Placing
        requires length { length ≤ longest }
        requires snapshot { snapshot ≤ greatest_length }
        ensures { result ≡ placing self.now length snapshot }
    {
        let end = self.area.end + length + 5;
        if self.is_due(length) && snapshot <= MOST_RECORD_OCTETS {
            let count = snapshot + 6;
            let start = self.new_start(count);
            if start + count <= self.limit {
                return Placing {
                    switch: Some(start),
                    end: start + count + length + 5,
                };
            }
        }
        Placing { switch: None, end }
    }

    /// The start of a new area of so many octets.
    fn new_start(&self, count: u64) -> u64
        requires { count ≤ longest + 6 }
        ensures { result ≡ new_start self.now count }
    {
        if FIRST_START + count <= self.area.start {
            FIRST_START
        } else {
            self.area.end
        }
    }

    /// Appends a record, which is handed in its built form: its length in four octets, the record, and the octet 0.
    /// In four calls, or in none where the record would end past the limit. A crash at any moment leaves the records
    /// with the new one or without.
    pub fn append<D: Disk>(&mut self, disk: &mut D, entry: &Parts) -> Result<(), JournalError>
        requires entry { IsEntry entry.now.items }
        requires within { IsWithin self.old (D.size disk.old) }
        ensures ok { OnOk result ((item : List ℕ) (records : List (List ℕ)) → entry.now.items ≡ entry_of item → StandsOn D.shown D.may_leave self.old disk.old records
            → StandsOn D.shown D.may_leave self.new disk.new (records ++ item ∷ [])) }
        ensures shown { (image : List ℕ) → D.shown disk.old ≡ Some image → OnOk result (D.shown disk.new ≡ Some (appended image self.old.area.end entry.now.items)) }
        ensures seen { (item : List ℕ) (records : List (List ℕ)) → entry.now.items ≡ entry_of item → StandsOn D.shown D.may_leave self.old disk.old records
            → Shows (D.shown disk.new) (HoldsEither records (records ++ item ∷ [])) }
        ensures size { OnOk result (D.size disk.new ≡ max (D.size disk.old) (self.old.area.end + length entry.now.items)) }
        ensures any_moment { (item : List ℕ) (records : List (List ℕ)) → entry.now.items ≡ entry_of item → StandsOn D.shown D.may_leave self.old disk.old records
            → LeavesOnly D.moment D.left_since disk.old disk.new (HoldsEither records (records ++ item ∷ [])) }
        ensures moved { OnOk result (self.new ≡ after_append self.old (length entry.now.items - 5)) }
        ensures limit { self.new.limit ≡ self.old.limit }
        ensures err { OnErr result (self.new ≡ self.old) }
        ensures full { IsUntouched disk.old disk.new result }
        ensures within { IsWithin self.new (D.size disk.new) }
        ensures calls { AppendCalls (D.plan disk.old) (D.plan disk.new) result }
        ensures steps { self.old.area.end + length entry.now.items ≤ self.old.limit → MakesSteps (append_steps self.old.area.end entry.now.items) (D.plan disk.old) (D.plan disk.new) (D.state disk.old) (D.state disk.new) (is_err result) (D.lack_count disk.old) (D.lack_count disk.new) }
        ensures causes { AppendAnswers (self.old.area.end + length entry.now.items) self.old.limit (D.fault_count disk.old) (D.fault_count disk.new) result }
    {
        let end = self.area.end + entry.len() as u64;
        if end > self.limit {
            return Err(JournalError::Full {
                length: end,
                limit: self.limit,
            });
        }
        write_parts_synced(disk, self.area.end, entry)?;
        write_synced(disk, self.area.end - 1, &[1])?;
        self.area = self.area.with(entry.len() as u64 - 5);
        self.prepared = None;
        Ok(())
    }

    /// Writes an area of one record, in its built form, beside the selected one, and the anchor that isn't selected,
    /// in three calls. The area is to end within the limit. A crash at any moment leaves the records as they are.
    pub fn prepare<D: Disk>(&mut self, disk: &mut D, area: &Parts) -> Result<(), JournalError>
        requires area { IsArea area.now.items }
        requires planned { new_start self.old (length area.now.items) + length area.now.items ≤ self.old.limit }
        requires within { IsWithin self.old (D.size disk.old) }
        ensures ok { OnOk result ((item : List ℕ) (records : List (List ℕ)) → area.now.items ≡ area_with item → StandsOn D.shown D.may_leave self.old disk.old records
            → StandsOn D.shown D.may_leave self.new disk.new records × HasPrepared D.shown self.new disk.new item) }
        ensures shown { (image : List ℕ) → D.shown disk.old ≡ Some image → OnOk result (D.shown disk.new ≡ Some (prepared_on image (new_start self.old (length area.now.items)) area.now.items (not self.old.second))) }
        ensures seen { (records : List (List ℕ)) → StandsOn D.shown D.may_leave self.old disk.old records → Shows (D.shown disk.new) (λ image. Holds image records) }
        ensures size { OnOk result (D.size disk.new ≡ max (D.size disk.old) (new_start self.old (length area.now.items) + length area.now.items)) }
        ensures any_moment { (records : List (List ℕ)) → StandsOn D.shown D.may_leave self.old disk.old records
            → LeavesOnly D.moment D.left_since disk.old disk.new (λ image. Holds image records) }
        ensures moved { OnOk result (self.new ≡ after_prepare self.old (length area.now.items)) }
        ensures limit { self.new.limit ≡ self.old.limit }
        ensures err { OnErr result (self.new ≡ self.old) }
        ensures within { IsWithin self.new (D.size disk.new) }
        ensures calls { MakesChanges 3 (D.plan disk.old) (D.plan disk.new) (is_err result) }
        ensures steps { MakesSteps (prepare_steps (new_start self.old (length area.now.items)) area.now.items (not self.old.second)) (D.plan disk.old) (D.plan disk.new) (D.state disk.old) (D.state disk.new) (is_err result) (D.lack_count disk.old) (D.lack_count disk.new) }
        ensures causes { FaultAlone (D.fault_count disk.old) (D.fault_count disk.new) result }
    {
        let count = area.len() as u64;
        let start = self.new_start(count);
        let anchor = start.to_be_bytes();
        write_both_synced(disk, start, area, anchor_place(!self.second), &anchor)?;
        self.prepared = Some(Area {
            start,
            end: start + count,
            first: count - 6,
            later: 0,
        });
        Ok(())
    }

    /// Selects the area that the last call prepared, in two calls. A crash at any moment leaves the records of the
    /// area before, or those of that one.
    pub fn switch<D: Disk>(&mut self, disk: &mut D) -> Result<(), JournalError>
        requires prepared { IsSome self.old.prepared }
        requires within { IsWithin self.old (D.size disk.old) }
        ensures ok { OnOk result ((item : List ℕ) (records : List (List ℕ)) → StandsOn D.shown D.may_leave self.old disk.old records → HasPrepared D.shown self.old disk.old item
            → StandsOn D.shown D.may_leave self.new disk.new (item ∷ [])) }
        ensures shown { (image : List ℕ) → D.shown disk.old ≡ Some image → OnOk result (D.shown disk.new ≡ Some (switched image (not self.old.second))) }
        ensures seen { (item : List ℕ) (records : List (List ℕ)) → StandsOn D.shown D.may_leave self.old disk.old records → HasPrepared D.shown self.old disk.old item
            → Shows (D.shown disk.new) (HoldsEither records (item ∷ [])) }
        ensures size { OnOk result (D.size disk.new ≡ D.size disk.old) }
        ensures any_moment { (item : List ℕ) (records : List (List ℕ)) → StandsOn D.shown D.may_leave self.old disk.old records → HasPrepared D.shown self.old disk.old item
            → LeavesOnly D.moment D.left_since disk.old disk.new (HoldsEither records (item ∷ [])) }
        ensures moved { OnOk result (IfSome self.old.prepared (λ area. self.new ≡ after_switch self.old area)) }
        ensures limit { self.new.limit ≡ self.old.limit }
        ensures err { OnErr result (self.new ≡ self.old) }
        ensures within { IsWithin self.new (D.size disk.new) }
        ensures calls { MakesChanges 2 (D.plan disk.old) (D.plan disk.new) (is_err result) }
        ensures steps { MakesSteps (switch_steps (not self.old.second)) (D.plan disk.old) (D.plan disk.new) (D.state disk.old) (D.state disk.new) (is_err result) (D.lack_count disk.old) (D.lack_count disk.new) }
        ensures causes { FaultAlone (D.fault_count disk.old) (D.fault_count disk.new) result }
    {
        let Some(area) = self.prepared else {
            unreachable!()
        };
        write_synced(disk, SELECTOR, &[selector(!self.second)])?;
        self.second = !self.second;
        self.area = area;
        self.prepared = None;
        Ok(())
    }
}
