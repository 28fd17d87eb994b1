//! Opening: the journal's records, and the tables to which they lead.
ghost use Rattle.std.specs.Prelude.{◌≡◌, ℕ, List, Some, IfOk, OnOk};
ghost use Rattle.vf_disk.specs.Disk.{LeavesShown};
ghost use Rattle.vf_journal.specs.Answers.{OpenCauses, is_fault};
ghost use Rattle.vf_journal.specs.Image.{records_of};
ghost use Rattle.vf_journal.specs.JournalState.{IsWithin, when_opened};
ghost use Rattle.vf_journal.specs.Looking.{IsSyncedAndLookedAt};
ghost use Rattle.vf_store.specs.Answers.{OpenAnswers};
ghost use Rattle.vf_store.specs.Represented.{Represents, after_record, read_from};
ghost use Rattle.vf_store.specs.StoreState.{TablesStand};
ghost use Rattle.vf_tables.specs.Entries.{no_tables};
ghost use Rattle.vf_tables.specs.Making.{IsMade};
ghost use Rattle.vf_tables.specs.declared.tables.Tables.{Tables as TablesMeant};

use crate::StoreError;
use std::alloc::Global;
use vf_base::{NoMemory, Octets};
use vf_disk::Disk;
use vf_journal::{Journal, held_is_read};
use vf_tables::Doubled;

/// Brings the tables on by a record; `false` exactly where it isn't of the grammar, and then they stay.
#[tactic(auto, unfolding(crate::specs::Represented::after_record))]
fn take_record(alloc: Global, tables: &mut Doubled, octets: &Octets) -> Result<bool, NoMemory>
    ensures { IfOk result (λ is_made. IsMade (after_record tables.old octets.now) tables.old tables.new is_made) }
{
    let Some(changes) = vf_store_record::read(alloc, octets)? else {
        return Ok(false);
    };
    let is_made = tables.make(alloc, changes.as_slice())?;
    Ok(is_made)
}

/// The tables to which records lead, before the first one that isn't of the grammar.
fn tables_of(alloc: Global, records: &[Octets]) -> Result<Doubled, NoMemory>
    ensures { IfOk result (λ tables. tables ≡ read_from records.now no_tables) }
{
    let mut tables = Doubled::new(alloc);
    for record in records {
        if !take_record(alloc, &mut tables, record)? {
            return Ok(tables);
        }
    }
    Ok(tables)
}

/// Reads the journal on a disk and the tables to which its records lead.
pub(crate) fn read<D: Disk>(
    alloc: Global,
    disk: &mut D,
    limit: u64,
) -> Result<(Journal, Doubled), StoreError>
    ensures answers { (image : List ℕ) → D.shown disk.old ≡ Some image → OpenAnswers image result }
    ensures tables { (image : List ℕ) → D.shown disk.old ≡ Some image → IfOk result (λ found. found.1 ≡ read_from (records_of image) no_tables) }
    ensures stands { (image : List ℕ) (tables : TablesMeant) → D.shown disk.old ≡ Some image → Represents image tables
        → IfOk result (λ found. (found.1 ≡ tables) × TablesStand D.shown D.may_leave found.0 disk.new tables) }
    ensures limit { IfOk result (λ found. found.0.limit ≡ limit) }
    ensures journal { (image : List ℕ) → D.shown disk.old ≡ Some image → IfOk result (λ found. found.0 ≡ when_opened image limit) }
    ensures within { IfOk result (λ found. IsWithin found.0 (D.size disk.new)) }
    ensures synced { OnOk result (LeavesShown (D.shown disk.new) (D.may_leave disk.new)) }
    ensures looks { IsSyncedAndLookedAt D.shown D.size D.may_leave D.moment D.left_since D.plan D.state D.lack_count (is_fault result) disk.old disk.new }
    ensures causes { OpenCauses (D.fault_count disk.old) (D.fault_count disk.new) result }
{
    held_is_read();
    let mut records = Vec::new(alloc);
    let journal = Journal::open(alloc, disk, limit, &mut records)?;
    let tables = tables_of(alloc, records.as_slice())?;
    Ok((journal, tables))
}
