//! What a commit writes, over the calls of the journal; no memory is taken here.
ghost use Rattle.std.specs.Prelude.{◌≡◌, ◌+◌, ◌-◌, ◌≤◌, ◌++◌, ◌∷◌, [], ℕ, List, None, Some, OnOk, OnErr, is_err, length, not};
ghost use Rattle.std.specs.Option.{option_map};
ghost use Rattle.vf_disk.specs.Disk.{LeavesOnly};
ghost use Rattle.vf_disk.specs.Steps.{MakesSteps};
ghost use Rattle.vf_journal.specs.Answers.{FaultAlone};
ghost use Rattle.vf_journal.specs.JournalState.{IsWithin, after_append, after_prepare, after_switch, new_area, new_start};
ghost use Rattle.vf_journal.specs.Records.{IsArea, IsEntry};
ghost use Rattle.vf_journal.specs.Writes.{Shows, append_steps, prepare_steps, switch_steps};
ghost use Rattle.vf_store.specs.Commit.{IsAreaOf, IsEntryOf, IsWritable, Leads, after_move, end_of, written_steps};
ghost use Rattle.vf_store.specs.Represented.{Represents, RepresentsEither};
ghost use Rattle.vf_store.specs.StoreState.{TablesStand};
ghost use Rattle.vf_tables.specs.declared.tables.Tables.{Tables};

use crate::StoreError;
use vf_disk::{Disk, Parts};
use vf_journal::Journal;

/// Moves the journal to an area of one record, which makes the tables that stand, in five calls. The area is to end
/// within the limit. A crash at any moment leaves an image that represents these tables.
fn move_over<D: Disk>(journal: &mut Journal, disk: &mut D, area: &Parts) -> Result<(), StoreError>
    requires area { IsArea area.now.items }
    requires limit { new_start journal.old (length area.now.items) + length area.now.items ≤ journal.old.limit }
    requires within { IsWithin journal.old (D.size disk.old) }
    ensures ok { OnOk result ((tables : Tables) → IsAreaOf tables area.now.items → TablesStand D.shown D.may_leave journal.old disk.old tables
        → TablesStand D.shown D.may_leave journal.new disk.new tables) }
    ensures seen { (tables : Tables) → IsAreaOf tables area.now.items → TablesStand D.shown D.may_leave journal.old disk.old tables
        → Shows (D.shown disk.new) (λ image. Represents image tables) }
    ensures any_moment { (tables : Tables) → IsAreaOf tables area.now.items → TablesStand D.shown D.may_leave journal.old disk.old tables
        → LeavesOnly D.moment D.left_since disk.old disk.new (λ image. Represents image tables) }
    ensures moved { OnOk result (journal.new ≡ after_switch (after_prepare journal.old (length area.now.items)) (new_area journal.old (length area.now.items))) }
    ensures limit { journal.new.limit ≡ journal.old.limit }
    ensures within { IsWithin journal.new (D.size disk.new) }
    ensures steps { MakesSteps (prepare_steps (new_start journal.old (length area.now.items)) area.now.items (not journal.old.second) ++ switch_steps (not journal.old.second)) (D.plan disk.old) (D.plan disk.new)
        (D.state disk.old) (D.state disk.new) (is_err result) (D.lack_count disk.old) (D.lack_count disk.new) }
    ensures causes { FaultAlone (D.fault_count disk.old) (D.fault_count disk.new) result }
{
    journal.prepare(disk, area)?;
    journal.switch(disk)?;
    Ok(())
}

/// Appends a record in its built form, in four calls. It is to end within the limit. A crash at any moment leaves an
/// image that represents the tables before it or after it.
fn append<D: Disk>(journal: &mut Journal, disk: &mut D, entry: &Parts) -> Result<(), StoreError>
    requires entry { IsEntry entry.now.items }
    requires limit { journal.old.area.end + length entry.now.items ≤ journal.old.limit }
    requires within { IsWithin journal.old (D.size disk.old) }
    ensures ok { OnOk result ((before after : Tables) → IsEntryOf before after entry.now.items → TablesStand D.shown D.may_leave journal.old disk.old before
        → TablesStand D.shown D.may_leave journal.new disk.new after) }
    ensures seen { (before after : Tables) → IsEntryOf before after entry.now.items → TablesStand D.shown D.may_leave journal.old disk.old before
        → Shows (D.shown disk.new) (RepresentsEither before after) }
    ensures any_moment { (before after : Tables) → IsEntryOf before after entry.now.items → TablesStand D.shown D.may_leave journal.old disk.old before
        → LeavesOnly D.moment D.left_since disk.old disk.new (RepresentsEither before after) }
    ensures moved { OnOk result (journal.new ≡ after_append journal.old (length entry.now.items - 5)) }
    ensures limit { journal.new.limit ≡ journal.old.limit }
    ensures within { IsWithin journal.new (D.size disk.new) }
    ensures steps { MakesSteps (append_steps journal.old.area.end entry.now.items) (D.plan disk.old) (D.plan disk.new) (D.state disk.old) (D.state disk.new) (is_err result) (D.lack_count disk.old) (D.lack_count disk.new) }
    ensures causes { FaultAlone (D.fault_count disk.old) (D.fault_count disk.new) result }
{
    journal.append(disk, entry)?;
    Ok(())
}

/// Appends a record in its built form, after a move to an area where one is given.
pub(crate) fn write<D: Disk>(
    journal: &mut Journal,
    disk: &mut D,
    area: &Option<Parts>,
    entry: &Parts,
) -> Result<(), StoreError>
    requires writable { IsWritable journal.old (option_map (λ octets. octets.items) area.now) entry.now.items }
    requires within { IsWithin journal.old (D.size disk.old) }
    ensures ok { OnOk result ((before after : Tables) → Leads (option_map (λ octets. octets.items) area.now) entry.now.items before after → TablesStand D.shown D.may_leave journal.old disk.old before
        → TablesStand D.shown D.may_leave journal.new disk.new after) }
    ensures seen { (before after : Tables) → Leads (option_map (λ octets. octets.items) area.now) entry.now.items before after → TablesStand D.shown D.may_leave journal.old disk.old before
        → Shows (D.shown disk.new) (RepresentsEither before after) }
    ensures any_moment { (before after : Tables) → Leads (option_map (λ octets. octets.items) area.now) entry.now.items before after → TablesStand D.shown D.may_leave journal.old disk.old before
        → LeavesOnly D.moment D.left_since disk.old disk.new (RepresentsEither before after) }
    ensures moved { OnOk result (journal.new ≡ after_append (after_move journal.old (option_map (λ octets. octets.items) area.now)) (length entry.now.items - 5)) }
    ensures limit { journal.new.limit ≡ journal.old.limit }
    ensures within { IsWithin journal.new (D.size disk.new) }
    ensures steps { MakesSteps (written_steps journal.old (option_map (λ octets. octets.items) area.now) entry.now.items) (D.plan disk.old) (D.plan disk.new) (D.state disk.old) (D.state disk.new) (is_err result) (D.lack_count disk.old) (D.lack_count disk.new) }
    ensures causes { FaultAlone (D.fault_count disk.old) (D.fault_count disk.new) result }
{
    if let Some(area) = area {
        move_over(journal, disk, area)?;
        append(journal, disk, entry)?;
        return Ok(());
    }
    append(journal, disk, entry)?;
    Ok(())
}
