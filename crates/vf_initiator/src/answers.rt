//! What an initiator does with each message: one step of the table.
ghost use Rattle.std.specs.Prelude.{◌≡◌, IfOk};
ghost use Rattle.vf_initiator.specs.Rows.{ended, ended_so, hears, is_over as over, out_of_place, placed, refused_with, rows};
ghost use Rattle.vf_initiator.specs.Steps.{Answers, Follows};

use crate::conduct::{Conduct, Setting};
use crate::given::Given;
use crate::heard::Heard;
use crate::stage::Stage;
use crate::{Doing, TaskError};
use std::alloc::Global;
use vf_base::{Diagnostic, NoMemory};
use vf_stack::Request;

impl Conduct {
    pub(crate) fn is_over(&self) -> bool
        ensures { result ≡ over self.now.stage }
    {
        matches!(self.stage, Stage::Over(_))
    }

    /// The task ends, or fails.
    pub(crate) fn end(&mut self, doing: Doing)
        ensures { self.new ≡ ended doing self.old }
    {
        self.stage = Stage::Over(doing);
    }

    /// The task ends with a diagnostic.
    pub(crate) fn refuse(&mut self, diagnostic: Diagnostic)
        ensures { self.new ≡ refused_with diagnostic self.old }
    {
        self.end(Doing::Failed(TaskError::Refused(diagnostic)));
    }

    /// The task ends so.
    pub(crate) fn end_so(&mut self, outcome: Option<Diagnostic>)
        ensures { self.new ≡ ended_so outcome self.old }
    {
        match outcome {
            None => self.end(Doing::Ended),
            Some(diagnostic) => self.refuse(diagnostic),
        }
    }

    /// Takes a message, and appends what is sent for it.
    pub(crate) fn hear(
        &mut self,
        alloc: Global,
        given: &Given,
        setting: Setting,
        heard: Heard,
        said: &mut Vec<Request>,
    ) -> Result<(), NoMemory>
        ensures { IfOk result (λ done. Follows (hears given.now setting self.old heard) said.old.items said.new.items self.new) }
    {
        if self.is_over() {
            return Ok(());
        }
        match heard {
            Heard::Faulty { layer, name, at } => {
                self.end(Doing::Failed(TaskError::PeerFault { layer, name, at }));
                Ok(())
            }
            Heard::Aborted { number } => {
                self.end(Doing::Failed(TaskError::PeerAbort { number }));
                Ok(())
            }
            heard => self.take_place(alloc, given, setting, heard, said),
        }
    }

    /// A message that is in its place, or isn't.
    fn take_place(
        &mut self,
        alloc: Global,
        given: &Given,
        setting: Setting,
        heard: Heard,
        said: &mut Vec<Request>,
    ) -> Result<(), NoMemory>
        ensures { IfOk result (λ done. Follows (placed self.old (rows given.now setting self.old heard)) said.old.items said.new.items self.new) }
    {
        let is_good = self.answer(alloc, given, setting, heard, said)?;
        if is_good {
            self.good = self.good.saturating_add(1);
        } else {
            self.end_out_of_place();
        }
        Ok(())
    }

    /// A message wasn't in its place.
    pub(crate) fn end_out_of_place(&mut self)
        ensures { self.new ≡ out_of_place self.old }
    {
        let after = self.good;
        self.end(Doing::Failed(TaskError::OutOfPlace { after }));
    }

    /// The row of a message by the stage; false where there is none.
    fn answer(
        &mut self,
        alloc: Global,
        given: &Given,
        setting: Setting,
        heard: Heard,
        said: &mut Vec<Request>,
    ) -> Result<bool, NoMemory>
        ensures { IfOk result (λ is_good. Answers (rows given.now setting self.old heard) said.old.items said.new.items self.old self.new is_good) }
    {
        match self.stage {
            Stage::Associating => self.associating(alloc, given, setting, &heard, said),
            Stage::Recovering => self.recovering(alloc, given, setting, &heard, said),
            Stage::Selecting => self.selecting(alloc, given, &heard, said),
            Stage::Opening => self.opening(alloc, given, setting, &heard, said),
            Stage::Sending(sent) => self.sending(alloc, given, setting, sent, &heard, said),
            Stage::Receiving => self.receiving(alloc, heard, said),
            Stage::Received { diagnostic } => self.received(alloc, diagnostic, &heard, said),
            Stage::Closing { outcome } => self.closing(alloc, outcome, &heard, said),
            Stage::Deselecting { outcome } => self.deselecting(alloc, outcome, &heard, said),
            Stage::Terminating { outcome } => Ok(self.terminating(outcome, &heard)),
            Stage::Over(_) => Ok(false),
        }
    }
}
