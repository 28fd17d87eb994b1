//! The answers to F-SELECT, F-CREATE and F-OPEN.
ghost use Rattle.std.specs.Prelude.{◌≡◌, IfOk};
ghost use Rattle.vf_initiator.specs.Rows as rows;
ghost use Rattle.vf_initiator.specs.Steps.{Answers, Follows};

use crate::conduct::{Conduct, Setting};
use crate::given::Given;
use crate::heard::Heard;
use crate::requests::{abort, open, read, terminate, write};
use crate::stage::Stage;
use std::alloc::Global;
use vf_base::{Diagnostic, NoMemory};
use vf_stack::Request;
use vf_tables::{Phase, Way};

impl Conduct {
    /// The file is selected, and to be opened; or it isn't, and the task is refused.
    pub(crate) fn selecting(
        &mut self,
        alloc: Global,
        given: &Given,
        heard: &Heard,
        said: &mut Vec<Request>,
    ) -> Result<bool, NoMemory>
        ensures { IfOk result (λ is_good. Answers (rows.selecting given.now self.old heard.now) said.old.items said.new.items self.old self.new is_good) }
    {
        let Some(answer) = selection_in(given.assignment.way, heard) else {
            return Ok(false);
        };
        if let Some(diagnostic) = answer {
            said.push(terminate(alloc)?)?;
            self.refuse(diagnostic);
            return Ok(true);
        }
        said.push(open(alloc, &given.assignment)?)?;
        self.progress.phase = Phase::Open;
        self.stage = Stage::Opening;
        Ok(true)
    }

    /// The file is open, and the transfer begins; or it isn't, and the task is refused.
    pub(crate) fn opening(
        &mut self,
        alloc: Global,
        given: &Given,
        setting: Setting,
        heard: &Heard,
        said: &mut Vec<Request>,
    ) -> Result<bool, NoMemory>
        ensures { IfOk result (λ is_good. Answers (rows.opening given.now setting self.old heard.now) said.old.items said.new.items self.old self.new is_good) }
    {
        let Heard::Opened { diagnostic } = heard else {
            return Ok(false);
        };
        if let Some(diagnostic) = *diagnostic {
            said.push(abort(alloc)?)?;
            self.refuse(diagnostic);
            return Ok(true);
        }
        self.transfer(alloc, given, setting, said)?;
        Ok(true)
    }

    /// The transfer begins from the start.
    pub(crate) fn transfer(
        &mut self,
        alloc: Global,
        given: &Given,
        setting: Setting,
        said: &mut Vec<Request>,
    ) -> Result<(), NoMemory>
        ensures { IfOk result (λ done. Follows (rows.transfers given.now setting self.old) said.old.items said.new.items self.new) }
    {
        match given.assignment.way {
            Way::Put => {
                said.push(write(alloc, &given.assignment)?)?;
                self.send_from(alloc, given, setting, 0, said)
            }
            Way::Get => {
                said.push(read(alloc, &given.assignment)?)?;
                self.stage = Stage::Receiving;
                Ok(())
            }
        }
    }
}

/// The answer to F-CREATE of a put, or to F-SELECT of a get: its diagnostic, if there is one.
fn selection_in(way: Way, heard: &Heard) -> Option<Option<Diagnostic>>
    ensures { result ≡ rows.selection_in way heard.now }
{
    match way {
        Way::Put => match heard {
            Heard::Created { diagnostic } => Some(*diagnostic),
            _ => None,
        },
        Way::Get => match heard {
            Heard::Selected { diagnostic } => Some(*diagnostic),
            _ => None,
        },
    }
}
