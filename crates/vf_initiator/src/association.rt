//! The answer to F-INITIALIZE.
ghost use Rattle.std.specs.Prelude.{◌≡◌, ◌++◌, IfOk};
ghost use Rattle.vf_initiator.specs.Rows as rows;
ghost use Rattle.vf_initiator.specs.Steps.{Answers, Follows};

use crate::conduct::{Agreed, Conduct, Setting};
use crate::given::Given;
use crate::heard::Heard;
use crate::requests::{abort, recover, select};
use crate::stage::Stage;
use std::alloc::Global;
use vf_base::NoMemory;
use vf_stack::Request;
use vf_tables::Way;

/// The functional units restart and recovery.
const CHECK_UNITS: u16 = 192;

impl Conduct {
    /// The association is accepted, and the task begins or is recovered; or it isn't, and the task is refused.
    pub(crate) fn associating(
        &mut self,
        alloc: Global,
        given: &Given,
        setting: Setting,
        heard: &Heard,
        said: &mut Vec<Request>,
    ) -> Result<bool, NoMemory>
        ensures { IfOk result (λ is_good. Answers (rows.associating given.now setting self.old heard.now) said.old.items said.new.items self.old self.new is_good) }
    {
        match heard {
            Heard::Accepted {
                diagnostic: None,
                units,
                window,
            } => {
                self.agreed = Agreed {
                    checks: given.assignment.activity.is_some() && *units & CHECK_UNITS != 0,
                    window: *window,
                };
                self.associated(alloc, given, setting, said)?;
                Ok(true)
            }
            Heard::Accepted {
                diagnostic: Some(diagnostic),
                ..
            } => {
                said.push(abort(alloc)?)?;
                self.refuse(*diagnostic);
                Ok(true)
            }
            Heard::Refused {
                diagnostic: Some(diagnostic),
            } => {
                self.refuse(*diagnostic);
                Ok(true)
            }
            _ => Ok(false),
        }
    }

    /// A task that was kept is recovered, any other begins.
    fn associated(
        &mut self,
        alloc: Global,
        given: &Given,
        setting: Setting,
        said: &mut Vec<Request>,
    ) -> Result<(), NoMemory>
        ensures { IfOk result (λ done. Follows (rows.associated given.now setting self.old) said.old.items said.new.items self.new) }
    {
        if !given.assignment.is_resumed {
            return self.select(alloc, given, said);
        }
        let Some(activity) = given.assignment.activity else {
            return self.select(alloc, given, said);
        };
        if given.assignment.way == Way::Get && setting.token {
            said.push(Request::Pass)?;
        }
        said.push(recover(alloc, activity, self.progress)?)?;
        self.stage = Stage::Recovering;
        Ok(())
    }

    /// The file is to be selected.
    pub(crate) fn select(
        &mut self,
        alloc: Global,
        given: &Given,
        said: &mut Vec<Request>,
    ) -> Result<(), NoMemory>
        ensures { IfOk result (λ done. Follows (rows.selects given.now self.old) said.old.items said.new.items self.new) }
    {
        said.push(select(alloc, &given.assignment)?)?;
        self.stage = Stage::Selecting;
        Ok(())
    }
}
