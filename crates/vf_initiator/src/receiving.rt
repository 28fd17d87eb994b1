//! The values of a get, its checkpoints, and the end of its data.
ghost use Rattle.std.specs.Prelude.{◌≡◌, IfOk};
ghost use Rattle.vf_initiator.specs.Rows as rows;
ghost use Rattle.vf_initiator.specs.Steps.{Answers};

use crate::conduct::Conduct;
use crate::heard::Heard;
use crate::requests::item;
use crate::stage::Stage;
use std::alloc::Global;
use vf_base::{Diagnostic, NoMemory};
use vf_pdu::Pdu;
use vf_stack::Request;
use vf_tables::{MOST_POINT, Phase};

impl Conduct {
    pub(crate) fn receiving(
        &mut self,
        alloc: Global,
        heard: Heard,
        said: &mut Vec<Request>,
    ) -> Result<bool, NoMemory>
        ensures { IfOk result (λ is_good. Answers (rows.receiving self.old heard) said.old.items said.new.items self.old self.new is_good) }
    {
        match heard {
            Heard::Value(element) => {
                if !self.gathered.has_room(&element) {
                    return Ok(false);
                }
                self.gathered.value(element)?;
                Ok(true)
            }
            Heard::Check { serial } => self.checked(serial, said),
            Heard::DataEnded { diagnostic } => {
                self.gathered.keep()?;
                self.progress.phase = Phase::Whole;
                said.push(item(alloc, Pdu::TransferEndRequest)?)?;
                self.stage = Stage::Received { diagnostic };
                Ok(true)
            }
            _ => Ok(false),
        }
    }

    /// A checkpoint: what has come is kept, and it is acknowledged.
    fn checked(&mut self, serial: u32, said: &mut Vec<Request>) -> Result<bool, NoMemory>
        ensures { IfOk result (λ is_good. Answers (rows.checked self.old serial) said.old.items said.new.items self.old self.new is_good) }
    {
        if self.progress.point >= MOST_POINT {
            return Ok(false);
        }
        self.gathered.keep()?;
        self.progress.point += 1;
        said.push(Request::Acknowledge { serial })?;
        Ok(true)
    }

    /// The transfer is ended: with the diagnostic of this answer, else with that of the end of the data.
    pub(crate) fn received(
        &mut self,
        alloc: Global,
        data_end: Option<Diagnostic>,
        heard: &Heard,
        said: &mut Vec<Request>,
    ) -> Result<bool, NoMemory>
        ensures { IfOk result (λ is_good. Answers (rows.received self.old data_end heard.now) said.old.items said.new.items self.old self.new is_good) }
    {
        let Heard::TransferEnded { diagnostic } = heard else {
            return Ok(false);
        };
        self.conclude(alloc, diagnostic.or(data_end), said)?;
        Ok(true)
    }
}
