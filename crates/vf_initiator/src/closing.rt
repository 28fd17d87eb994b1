//! From the end of a transfer to the end of the task: F-CLOSE, F-DESELECT and F-TERMINATE.
ghost use Rattle.std.specs.Prelude.{◌≡◌, IfOk, List};
ghost use Rattle.vf_stack.specs.declared.request.Request.{Request as RequestMeant};
ghost use Rattle.vf_initiator.specs.Rows as rows;
ghost use Rattle.vf_initiator.specs.Steps.{Answers, Follows};

use crate::conduct::Conduct;
use crate::heard::Heard;
use crate::requests::{abort, item, terminate};
use crate::stage::Stage;
use std::alloc::Global;
use vf_base::{Diagnostic, NoMemory};
use vf_pdu::Pdu;
use vf_stack::Request;
use vf_tables::Phase;

/// The diagnostic of an outcome that is kept as its number.
pub(crate) fn outcome_of(number: u16) -> Option<Diagnostic>
    ensures { result ≡ rows.outcome_of number }
{
    if number == 0 {
        return None;
    }
    Some(Diagnostic {
        number,
        first: 0,
        second: 0,
    })
}

/// The number as which an outcome is kept.
fn number_of_outcome(outcome: Option<Diagnostic>) -> u16
    ensures { result ≡ rows.number_of_outcome outcome }
{
    match outcome {
        None => 0,
        Some(diagnostic) => diagnostic.number,
    }
}

impl Conduct {
    /// The transfer has an outcome, and the file is to be closed.
    pub(crate) fn conclude(
        &mut self,
        alloc: Global,
        outcome: Option<Diagnostic>,
        said: &mut Vec<Request>,
    ) -> Result<(), NoMemory>
        ensures { IfOk result (λ done. Follows (rows.concludes self.old outcome) said.old.items said.new.items self.new) }
    {
        said.push(item(alloc, Pdu::CloseRequest)?)?;
        self.progress.outcome = number_of_outcome(outcome);
        self.progress.phase = Phase::Concluded;
        self.stage = Stage::Closing { outcome };
        Ok(())
    }

    pub(crate) fn closing(
        &mut self,
        alloc: Global,
        outcome: Option<Diagnostic>,
        heard: &Heard,
        said: &mut Vec<Request>,
    ) -> Result<bool, NoMemory>
        ensures { IfOk result (λ is_good. Answers (rows.closing self.old outcome heard.now) said.old.items said.new.items self.old self.new is_good) }
    {
        let Heard::Closed { diagnostic } = heard else {
            return Ok(false);
        };
        if let Some(diagnostic) = *diagnostic {
            said.push(abort(alloc)?)?;
            self.refuse(diagnostic);
            return Ok(true);
        }
        said.push(item(alloc, Pdu::DeselectRequest)?)?;
        self.stage = Stage::Deselecting { outcome };
        Ok(true)
    }

    pub(crate) fn deselecting(
        &mut self,
        alloc: Global,
        outcome: Option<Diagnostic>,
        heard: &Heard,
        said: &mut Vec<Request>,
    ) -> Result<bool, NoMemory>
        ensures { IfOk result (λ is_good. Answers (rows.deselecting self.old outcome heard.now) said.old.items said.new.items self.old self.new is_good) }
    {
        let Heard::Deselected { diagnostic } = heard else {
            return Ok(false);
        };
        if let Some(diagnostic) = *diagnostic {
            said.push(abort(alloc)?)?;
            self.refuse(diagnostic);
            return Ok(true);
        }
        said.push(terminate(alloc)?)?;
        self.stage = Stage::Terminating { outcome };
        Ok(true)
    }

    /// The task ends with its outcome.
    pub(crate) fn terminating(&mut self, outcome: Option<Diagnostic>, heard: &Heard) -> bool
        ensures { (said : List RequestMeant) → Answers (rows.terminating self.old outcome heard.now) said said self.old self.new result }
    {
        if !matches!(heard, Heard::Terminated) {
            return false;
        }
        self.end_so(outcome);
        true
    }
}
