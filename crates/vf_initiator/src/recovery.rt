//! The answer to F-RECOVER (ISO 8571-3; what goes on and what begins anew is profile).
ghost use Rattle.std.specs.Prelude.{◌≡◌, IfOk};
ghost use Rattle.vf_initiator.specs.Rows as rows;
ghost use Rattle.vf_initiator.specs.Steps.{Answers, Follows};

use crate::closing::outcome_of;
use crate::conduct::{Conduct, Setting};
use crate::given::Given;
use crate::heard::Heard;
use crate::progress::Progress;
use crate::requests::terminate;
use crate::stage::Stage;
use std::alloc::Global;
use vf_base::{Diagnostic, NoMemory};
use vf_stack::Request;
use vf_tables::{MOST_TRANSFERS, Phase, Way};

/// The other end keeps nothing of the activity.
const DOCKET_UNKNOWN: u16 = 27;

impl Conduct {
    pub(crate) fn recovering(
        &mut self,
        alloc: Global,
        given: &Given,
        setting: Setting,
        heard: &Heard,
        said: &mut Vec<Request>,
    ) -> Result<bool, NoMemory>
        ensures { IfOk result (λ is_good. Answers (rows.recovering given.now setting self.old heard.now) said.old.items said.new.items self.old self.new is_good) }
    {
        let Heard::Recovered {
            diagnostic,
            number,
            point,
            moving,
            last,
        } = heard
        else {
            return Ok(false);
        };
        if let Some(diagnostic) = *diagnostic {
            self.not_recovered(alloc, given, diagnostic, said)?;
            return Ok(true);
        }
        if *moving {
            return self.going_on(alloc, given, setting, *number, *point, said);
        }
        self.standing(alloc, given, setting, *number, *last, said)
    }

    /// The other end keeps nothing: a task that is concluded ends, any other begins anew. Any other diagnostic refuses the
    /// task.
    fn not_recovered(
        &mut self,
        alloc: Global,
        given: &Given,
        diagnostic: Diagnostic,
        said: &mut Vec<Request>,
    ) -> Result<(), NoMemory>
        ensures { IfOk result (λ done. Follows (rows.not_recovered given.now self.old diagnostic) said.old.items said.new.items self.new) }
    {
        if diagnostic.number != DOCKET_UNKNOWN {
            said.push(terminate(alloc)?)?;
            self.refuse(diagnostic);
            return Ok(());
        }
        if self.progress.phase == Phase::Concluded {
            said.push(terminate(alloc)?)?;
            let outcome = outcome_of(self.progress.outcome);
            self.stage = Stage::Terminating { outcome };
            return Ok(());
        }
        self.progress = Progress::new();
        self.gathered.cut(alloc, 0)?;
        self.select(alloc, given, said)
    }

    /// The transfer that is kept is under way: it goes on after a checkpoint that both ends keep.
    fn going_on(
        &mut self,
        alloc: Global,
        given: &Given,
        setting: Setting,
        number: u32,
        point: u32,
        said: &mut Vec<Request>,
    ) -> Result<bool, NoMemory>
        ensures { IfOk result (λ is_good. Answers (rows.going_on given.now setting self.old number point) said.old.items said.new.items self.old self.new is_good) }
    {
        if number != self.progress.number || point > self.progress.point {
            return Ok(false);
        }
        self.progress.point = point;
        match given.assignment.way {
            Way::Put => self.send_from(alloc, given, setting, point, said)?,
            Way::Get => {
                self.gathered.cut(alloc, point as usize)?;
                self.progress.phase = Phase::Open;
                self.stage = Stage::Receiving;
            }
        }
        Ok(true)
    }

    /// No transfer is under way, and the next one of the other end has this number.
    fn standing(
        &mut self,
        alloc: Global,
        given: &Given,
        setting: Setting,
        number: u32,
        last: u16,
        said: &mut Vec<Request>,
    ) -> Result<bool, NoMemory>
        ensures { IfOk result (λ is_good. Answers (rows.standing given.now setting self.old number last) said.old.items said.new.items self.old self.new is_good) }
    {
        if number == self.progress.number {
            self.begin_anew(alloc, given, setting, said)?;
            return Ok(true);
        }
        if u64::from(number) != u64::from(self.progress.number) + 1 {
            return Ok(false);
        }
        if given.assignment.way == Way::Put || is_whole(self.progress.phase) {
            self.conclude(alloc, outcome_of(last), said)?;
            return Ok(true);
        }
        if number > MOST_TRANSFERS {
            return Ok(false);
        }
        self.progress.number = number;
        self.begin_anew(alloc, given, setting, said)?;
        Ok(true)
    }

    /// A transfer of the number that is kept begins from the start.
    fn begin_anew(
        &mut self,
        alloc: Global,
        given: &Given,
        setting: Setting,
        said: &mut Vec<Request>,
    ) -> Result<(), NoMemory>
        ensures { IfOk result (λ done. Follows (rows.begins_anew given.now setting self.old) said.old.items said.new.items self.new) }
    {
        self.progress.point = 0;
        if given.assignment.way == Way::Get {
            self.progress.phase = Phase::Open;
        }
        self.gathered.cut(alloc, 0)?;
        self.transfer(alloc, given, setting, said)
    }
}

/// All elements of a get are kept.
fn is_whole(phase: Phase) -> bool
    ensures { result ≡ rows.is_whole phase }
{
    matches!(phase, Phase::Whole | Phase::Concluded)
}
