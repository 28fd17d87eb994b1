ghost use Rattle.std.specs.Prelude.{◌≡◌, ◌<◌, ℕ, List, Some, IfOk, IfSome, OnOk, is_err, option_copied};
ghost use Rattle.vf_disk.specs.Calls.{MakesChanges};
ghost use Rattle.vf_disk.specs.Disk.{LeavesOnly, LeavesShown};
ghost use Rattle.vf_disk.specs.Plans.{sooner};
ghost use Rattle.vf_disk.specs.Steps.{MakesSteps};
ghost use Rattle.vf_journal.specs.Answers.{FaultAlone, OpenCauses, is_fault};
ghost use Rattle.vf_journal.specs.Image.{records_of};
ghost use Rattle.vf_journal.specs.JournalState.{IsWithin, when_opened};
ghost use Rattle.vf_journal.specs.Layout.{new_journal};
ghost use Rattle.vf_journal.specs.Looking.{IsSyncedAndLookedAt};
ghost use Rattle.vf_journal.specs.Writes.{Shows, create_steps};
ghost use Rattle.vf_store.specs.Answers.{CommitAnswers, CommitSteps, OpenAnswers};
ghost use Rattle.vf_store.specs.Commit.{AreFitting, after_commit, commit_steps, placed};
ghost use Rattle.vf_store.specs.Counts.{counts_of};
ghost use Rattle.vf_store.specs.Represented.{IsNoneOrNew, Represents, RepresentsEither, read_from};
ghost use Rattle.vf_store.specs.StoreState.{IsRepresented, answer_of, disk_of};
ghost use Rattle.vf_tables.specs.Changes.{after_all};
ghost use Rattle.vf_tables.specs.Entries.{docket_of, file_of, no_tables, task_of, user_of};
ghost use Rattle.vf_tables.specs.declared.tables.Tables.{Tables as TablesMeant};

use crate::commit::commit_on;
use crate::reading::read;
use crate::{Counts, StoreError};
use std::alloc::Global;
use std::marker::Model;
use vf_attr::File;
use vf_base::Name;
use vf_disk::{Disk, MemoryDisk};
use vf_journal::{Journal, new_holds_none};
use vf_tables::{Changes, Docket, Doubled, Tables, Task, User};

/// Tables on a disk. After `DiskFault` it is spent: the disk has to be opened again.
#[derive(Drop)]
pub struct Store<D: Disk> {
    disk: D,
    journal: Journal,
    tables: Doubled,
}

impl<D: Disk> Model for Store<D> {
    ghost use Rattle.vf_journal.specs.JournalState.{IsWithin};
    ghost use Rattle.vf_store.specs.StoreState.{StoreState};

    ghost Value = { StoreState D };

    ghost view = { λ store. record { disk = store.disk; journal = store.journal; tables = store.tables } };

    ghost invariant = { λ store. IsWithin store.journal (D.size store.disk) };
}

impl<D: Disk> Store<D> {
    /// Makes a store of empty tables on an empty disk, in six calls. A crash at any moment leaves no store, or that one.
    pub fn create(disk: &mut D) -> Result<(), StoreError>
        requires { D.size disk.old ≡ 0 }
        ensures made { (octets : List ℕ) → D.shown disk.old ≡ Some octets → OnOk result (D.shown disk.new ≡ Some new_journal) }
        ensures represents { Represents new_journal no_tables }
        ensures seen { (octets : List ℕ) → D.shown disk.old ≡ Some octets → Shows (D.shown disk.new) IsNoneOrNew }
        ensures synced { OnOk result (LeavesShown (D.shown disk.new) (D.may_leave disk.new)) }
        ensures any_moment { (octets : List ℕ) → D.shown disk.old ≡ Some octets → LeavesShown (D.shown disk.old) (D.may_leave disk.old) → LeavesOnly D.moment D.left_since disk.old disk.new IsNoneOrNew }
        ensures calls { MakesChanges 6 (D.plan disk.old) (D.plan disk.new) (is_err result) }
        ensures steps { MakesSteps (create_steps) (D.plan disk.old) (D.plan disk.new) (D.state disk.old) (D.state disk.new) (is_err result) (D.lack_count disk.old) (D.lack_count disk.new) }
        ensures causes { FaultAlone (D.fault_count disk.old) (D.fault_count disk.new) result }
    {
        new_holds_none();
        Journal::create(disk)?;
        Ok(())
    }

    /// Opens the store on a disk, whose records are to end within `limit` octets. The disk is synced, and otherwise only
    /// looked at: while it is opened a crash leaves what one before might have left. Of records that aren't of the grammar
    /// none counts, nor any after it. Strings of 4,096 octets and more are parts of the records, which stay in memory with
    /// them.
    ///
    /// `NotAStore` comes where the first 16 octets differ from the header, at the first such place; where they agree and
    /// the disk has fewer than 34 octets, at its length; and where the selected anchor is misplaced, at its place, 17 or
    /// 25. With an error the disk is given back.
    pub fn open(alloc: Global, disk: D, limit: u64) -> Result<Store<D>, (D, StoreError)>
        ensures answers { (image : List ℕ) → D.shown disk ≡ Some image → OpenAnswers image (answer_of result) }
        ensures tables { (image : List ℕ) → D.shown disk ≡ Some image → IfOk result (λ store. store.tables ≡ read_from (records_of image) no_tables) }
        ensures represented { (image : List ℕ) (tables : TablesMeant) → D.shown disk ≡ Some image → Represents image tables
            → IfOk result (λ store. (store.tables ≡ tables) × IsRepresented D.shown D.may_leave store) }
        ensures any_moment { (tables : TablesMeant) → ((image : List ℕ) → D.may_leave disk image → Represents image tables)
            → LeavesOnly D.moment D.left_since disk (disk_of result) (λ image. Represents image tables) }
        ensures limit { IfOk result (λ store. store.journal.limit ≡ limit) }
        ensures journal { (image : List ℕ) → D.shown disk ≡ Some image → IfOk result (λ store. store.journal ≡ when_opened image limit) }
        ensures synced { IfOk result (λ store. LeavesShown (D.shown store.disk) (D.may_leave store.disk)) }
        ensures looks { IsSyncedAndLookedAt D.shown D.size D.may_leave D.moment D.left_since D.plan D.state D.lack_count (is_fault (answer_of result)) disk (disk_of result) }
        ensures causes { OpenCauses (D.fault_count disk) (D.fault_count (disk_of result)) (answer_of result) }
    {
        let mut disk = disk;
        match read(alloc, &mut disk, limit) {
            Ok((journal, tables)) => Ok(Store {
                disk,
                journal,
                tables,
            }),
            Err(error) => Err((disk, error)),
        }
    }

    /// The tables.
    pub fn tables(&self) -> &Tables
        ensures { result.now ≡ self.now.tables }
    {
        self.tables.tables()
    }

    /// How much the tables have; the octets of files are kept in sum.
    pub fn counts(&self) -> Counts
        ensures { result ≡ counts_of self.now.tables }
    {
        let tables = self.tables.tables();
        Counts {
            files: tables.files.len() as u64,
            octets: tables.files.octets(),
            dockets: tables.dockets.len() as u64,
            tasks: tables.tasks.len() as u64,
            users: tables.users.len() as u64,
        }
    }

    /// The user of this identity; `None` exactly where there is none.
    pub fn user(&self, identity: &Name) -> Option<&User>
        ensures { option_copied result ≡ user_of identity.now self.now.tables }
    {
        self.tables.tables().user(identity)
    }

    /// The file of this name; `None` exactly where there is none.
    pub fn file(&self, name: &Name) -> Option<&File>
        ensures { option_copied result ≡ file_of name.now self.now.tables }
    {
        self.tables.tables().file(name)
    }

    /// The docket of this identity and activity; `None` exactly where there is none.
    pub fn docket(&self, identity: &Name, activity: u32) -> Option<&Docket>
        ensures { option_copied result ≡ docket_of identity.now activity self.now.tables }
    {
        self.tables.tables().docket(identity, activity)
    }

    /// The task of this activity; `None` exactly where there is none.
    pub fn task(&self, activity: u32) -> Option<&Task>
        ensures { option_copied result ≡ task_of activity self.now.tables }
    {
        self.tables.tables().task(activity)
    }

    /// Makes all of the changes or none, in one record, after a switch to another area where one is due and possible. A
    /// crash at any moment leaves an image that represents the tables before or after, and after `Ok` those after. This
    /// holds of changes of which each fits the tables before it, where those after all are valid.
    ///
    /// `Full` comes where the record would end past the limit; then, and where memory is wanting, all is as before. A record
    /// has at most 4,294,967,295 octets: for a longer one memory is wanting. After `DiskFault` the store is spent.
    pub fn commit(&mut self, alloc: Global, changes: Changes) -> Result<(), StoreError>
        ensures tables { OnOk result (self.new.tables ≡ after_all self.old.tables changes) }
        ensures represented { AreFitting self.old.tables changes → IsRepresented D.shown D.may_leave self.old → OnOk result (IsRepresented D.shown D.may_leave self.new) }
        ensures seen { AreFitting self.old.tables changes → IsRepresented D.shown D.may_leave self.old
            → Shows (D.shown self.new.disk) (RepresentsEither self.old.tables (after_all self.old.tables changes)) }
        ensures any_moment { AreFitting self.old.tables changes → IsRepresented D.shown D.may_leave self.old
            → LeavesOnly D.moment D.left_since self.old.disk self.new.disk (RepresentsEither self.old.tables (after_all self.old.tables changes)) }
        ensures answers { CommitAnswers self.old self.new (placed self.old.journal self.old.tables changes).end self.old.journal.limit (D.fault_count self.old.disk) (D.fault_count self.new.disk) result }
        ensures steps { CommitSteps (commit_steps self.old.journal self.old.tables changes) (D.plan self.old.disk) (D.plan self.new.disk) (D.state self.old.disk) (D.state self.new.disk) (D.lack_count self.old.disk) (D.lack_count self.new.disk) result }
        ensures journal { OnOk result (self.new.journal ≡ after_commit self.old.journal self.old.tables changes) }
        ensures limit { self.new.journal.limit ≡ self.old.journal.limit }
    {
        self.commit_over(alloc, changes, None)
    }

    /// Lends a second of the tables, where the store has one, in which changes are made before they are committed. While it
    /// is away, a commit costs a copy of the tables.
    pub fn lend(&mut self) -> Option<Tables>
        ensures lent { IfSome result (λ second. second ≡ self.old.tables) }
        ensures same { self.new ≡ self.old }
    {
        self.tables.lend()
    }

    /// Takes the second of the tables back, as it was lent.
    pub fn give_back(&mut self, second: Option<Tables>)
        requires { IfSome second (λ second. second ≡ self.old.tables) }
        ensures { self.new ≡ self.old }
    {
        self.tables.give_back(second);
    }

    /// Makes the changes as `commit` does. Where they are made in the second of the tables that was lent, it is what `ahead`
    /// is, and the tables aren't copied.
    pub fn commit_over(
        &mut self,
        alloc: Global,
        changes: Changes,
        ahead: Option<Tables>,
    ) -> Result<(), StoreError>
        requires { IfSome ahead (λ next. next ≡ after_all self.old.tables changes) }
        ensures tables { OnOk result (self.new.tables ≡ after_all self.old.tables changes) }
        ensures represented { AreFitting self.old.tables changes → IsRepresented D.shown D.may_leave self.old → OnOk result (IsRepresented D.shown D.may_leave self.new) }
        ensures seen { AreFitting self.old.tables changes → IsRepresented D.shown D.may_leave self.old
            → Shows (D.shown self.new.disk) (RepresentsEither self.old.tables (after_all self.old.tables changes)) }
        ensures any_moment { AreFitting self.old.tables changes → IsRepresented D.shown D.may_leave self.old
            → LeavesOnly D.moment D.left_since self.old.disk self.new.disk (RepresentsEither self.old.tables (after_all self.old.tables changes)) }
        ensures answers { CommitAnswers self.old self.new (placed self.old.journal self.old.tables changes).end self.old.journal.limit (D.fault_count self.old.disk) (D.fault_count self.new.disk) result }
        ensures steps { CommitSteps (commit_steps self.old.journal self.old.tables changes) (D.plan self.old.disk) (D.plan self.new.disk) (D.state self.old.disk) (D.state self.new.disk) (D.lack_count self.old.disk) (D.lack_count self.new.disk) result }
        ensures journal { OnOk result (self.new.journal ≡ after_commit self.old.journal self.old.tables changes) }
        ensures limit { self.new.journal.limit ≡ self.old.journal.limit }
    {
        commit_on(
            alloc,
            &mut self.journal,
            &mut self.disk,
            &mut self.tables,
            &changes,
            ahead,
        )?;
        Ok(())
    }

    /// The journal stands within the disk. It does nothing.
    pub fn lies_within(&self)
        ensures { IsWithin self.now.journal (D.size self.now.disk) }
    {
        let _journal = &self.journal;
    }

    /// The disk.
    pub fn close(self) -> D
        ensures { result ≡ self.disk }
    {
        self.disk
    }
}

impl Store<MemoryDisk> {
    /// Lets the `call`-th write or sync of the disk from now, and every call after it, fail, unless a stop that is planned
    /// already comes sooner.
    pub fn stop(&mut self, call: u32)
        requires { 0 < call }
        ensures { self.new ≡ record self.old { disk = record self.old.disk { plan = record self.old.disk.plan { until_stop = Some (sooner call self.old.disk.plan.until_stop) } } } }
    {
        self.disk.stop(call);
    }
}
