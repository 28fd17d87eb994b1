//! The changes by which a store keeps a task as it stands (profile).
ghost use Rattle.std.specs.Prelude.{◌≡◌, ◌++◌, ◌<◌, IfOk, length};
ghost use Rattle.vf_initiator.specs.Says.{activity_kept};
ghost use Rattle.vf_initiator.specs.Gathering.{common, marked};
ghost use Rattle.vf_initiator.specs.Keeping.{changes_of, changes_since, cut_change, mark_of, row_change, stages_from};

use crate::conduct::Conduct;
use crate::given::Given;
use crate::mark::Mark;
use crate::progress::Progress;
use crate::stage::Stage;
use crate::{Doing, TaskError};
use std::alloc::Global;
use vf_base::NoMemory;
use vf_tables::{Change, Changes};

impl Conduct {
    /// The activity under which the task is kept: none where it has none, or ended.
    pub(crate) fn kept(&self, activity: Option<u32>) -> Option<u32>
        ensures { result ≡ activity_kept self.now.stage activity }
    {
        match self.stage {
            Stage::Over(Doing::Ended) => None,
            Stage::Over(Doing::Failed(TaskError::Refused(_))) => None,
            _ => activity,
        }
    }

    /// How the task is kept now, from which on changes are told.
    pub(crate) fn mark(&mut self, given: &Given) -> Mark
        ensures mark { result ≡ mark_of given.now self.old }
        ensures marked { self.new ≡ record self.old { gathered = marked self.old.gathered } }
    {
        self.gathered.mark();
        Mark {
            kept: self.kept(given.assignment.activity),
            progress: self.progress,
        }
    }

    /// Appends the changes since a mark: its row where it differs, a cut of its pieces to those that are still the same, and
    /// then each piece after them; or the task is dropped.
    pub(crate) fn put_changes(
        &self,
        alloc: Global,
        given: &Given,
        mark: Mark,
        changes: &mut Changes,
    ) -> Result<(), NoMemory>
        ensures { IfOk result (λ done. changes.new ≡ changes.old ++ changes_since given.now mark self.now) }
    {
        let Some(activity) = mark.kept else {
            return Ok(());
        };
        if self.kept(mark.kept).is_none() {
            return changes.push(Change::DropTask { activity });
        }
        self.put_differences(alloc, given, activity, mark, changes)
    }

    /// Appends the changes of a task that is kept on.
    fn put_differences(
        &self,
        alloc: Global,
        given: &Given,
        activity: u32,
        mark: Mark,
        changes: &mut Changes,
    ) -> Result<(), NoMemory>
        ensures { IfOk result (λ done. changes.new ≡ changes.old ++ changes_of given.now mark self.now activity) }
    {
        self.put_row(alloc, given, activity, mark.progress, changes)?;
        let standing = self.gathered.standing();
        self.put_cut(activity, standing, changes)?;
        self.put_stages(alloc, activity, standing, changes)?;
        Ok(())
    }

    /// Appends the row of the task where it differs from what it was.
    fn put_row(
        &self,
        alloc: Global,
        given: &Given,
        activity: u32,
        before: Progress,
        changes: &mut Changes,
    ) -> Result<(), NoMemory>
        ensures { IfOk result (λ done. changes.new ≡ changes.old ++ row_change given.now activity before self.now.progress) }
    {
        if self.progress == before {
            return Ok(());
        }
        let plan = given.assignment.row(alloc, activity, self.progress)?;
        changes.push(Change::PutTask { plan })
    }

    /// Appends a cut where fewer pieces stand than were kept.
    fn put_cut(&self, activity: u32, standing: usize, changes: &mut Changes) -> Result<(), NoMemory>
        requires few { standing < 4294967296 }
        requires standing { standing ≡ common self.now.gathered.kept self.now.gathered.pieces }
        ensures { IfOk result (λ done. changes.new ≡ changes.old ++ cut_change activity standing (length self.now.gathered.kept)) }
    {
        if !self.gathered.is_cut() {
            return Ok(());
        }
        let point = standing as u32;
        changes.push(Change::CutTask { activity, point })
    }

    /// Appends a change for each piece after so many.
    fn put_stages(
        &self,
        alloc: Global,
        activity: u32,
        standing: usize,
        changes: &mut Changes,
    ) -> Result<(), NoMemory>
        ensures { IfOk result (λ done. changes.new ≡ changes.old ++ stages_from activity standing self.now.gathered.pieces) }
    {
        for place in standing..self.gathered.pieces() {
            let elements = self.gathered.piece(alloc, place)?;
            let point = (place + 1) as u32;
            changes.push(Change::StageTask {
                activity,
                point,
                elements,
            })?;
        }
        Ok(())
    }
}
