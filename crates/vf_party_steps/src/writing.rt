//! A party that sends the values of a write (ISO 8571-3, F-WRITE).
ghost use Rattle.std.specs.Prelude.{◌≡◌, ◌&&◌, IfErr, IfOk, nat_le};
ghost use Rattle.vf_elements.specs.declared.message.Message.TheVariants as messages;
ghost use Rattle.vf_filestore.specs.Tables.{operation_of as operation_meant};
ghost use Rattle.vf_party_steps.specs.Moving.{stage_of_writing};
ghost use Rattle.vf_party_steps.specs.Represents.{IsOpen};
ghost use Rattle.vf_party_steps.specs.Steps.{IsStep};
ghost use Rattle.vf_party_steps.specs.Writes.{IsWriting, fields_at, moving_of, put_docket as put_meant};
ghost use Rattle.vf_pdu.specs.PduNumbers.{number_of};
ghost use Rattle.vf_transfer.specs.Checks.{offered};

use crate::dockets::{Underway, fields_of};
use crate::received::Received;
use crate::step::one_change;
use crate::{Open, Step, StepError};
use std::alloc::Global;
use vf_base::{Diagnostic, Element, FaduId, Moment, NoMemory};
use vf_elements::Stage;
use vf_locks::Locks;
use vf_pdu::Pdu;
use vf_pdu_fields::WriteOperation;
use vf_regime_effects::{Write, selected, write_given};
use vf_regime_refusals::Association;
use vf_tables::{Change, Changes, Direction, Operation, Regime, Tables};
use vf_tree::octets_of;

/// A party with an open file, in which a write is under way.
#[derive(Drop)]
pub struct Writing {
    pub(crate) regimes: Open,
    pub(crate) operation: WriteOperation,
    pub(crate) fadu: FaduId,
    /// What its request was given.
    pub(crate) given: vf_regime_effects::Writing,
    pub(crate) received: Received,
    /// The octets of the strings of all values that stand.
    pub(crate) octets: u64,
    /// The check of the last recovery, else 0: no restart goes back before it.
    pub(crate) start: u32,
    /// The end of the values, with the initiator's diagnostic.
    pub(crate) ended: Option<Option<Diagnostic>>,
}

impl Open {
    /// Takes a WriteRequest (ISO 8571-3, F-WRITE), to which nothing is said: a write is under way, which performs nothing
    /// where 11, 33, 13, 18 or 19 refuses it. Without memory the state is given back as it was.
    pub fn write(
        self,
        alloc: Global,
        request: Pdu,
        moment: Moment,
        serial: u32,
        token: bool,
        sync: bool,
        tables: &Tables,
        locks: &mut Locks,
    ) -> Result<Step<Writing>, (Open, StepError)>
        requires { number_of request ≡ 33 }
        ensures consequence { IsStep IsOpen IsWriting tables.now locks.old locks.new self (record { moment = moment; serial = serial; token = token; sync = sync }) (messages.Pdu request) result }
        ensures kept { IfErr result (λ back. back.0 ≡ self) }
        ensures memory { IfErr result (λ back. back.1 ≡ StepError.NoMemory) }
    {
        let Pdu::WriteRequest { operation, fadu } = request else {
            unreachable!()
        };
        let write = Write {
            operation,
            fadu,
            position: self.regime.position,
        };
        let file = selected(&tables.files, &self.selected.selection.file);
        let units = self.selected.associated.association.units;
        let given = write_given(file, units, self.regime.mode, write);
        let moving = moving(operation, fadu, given, 0);
        let Ok(fields) = fields_of(alloc, &self, moving) else {
            return Err((self, StepError::NoMemory));
        };
        let Ok(changes) = put_docket(alloc, fields) else {
            return Err((self, StepError::NoMemory));
        };
        let state = Writing {
            regimes: self,
            operation,
            fadu,
            given,
            received: Received::new(alloc),
            octets: 0,
            start: 0,
            ended: None,
        };
        Ok(Step {
            state,
            said: Vec::new(alloc),
            changes,
        })
    }
}

impl Writing {
    /// The stage of the party (ISO 8571-4): its transfer may end once the end of the values came.
    pub fn stage(&self) -> Stage
        ensures { result ≡ stage_of_writing self.now }
    {
        if self.ended.is_some() {
            return Stage::Written;
        }
        Stage::Writing
    }

    pub fn association(&self) -> &Association
        ensures { result.now ≡ self.now.regimes.selected.associated.association }
    {
        &self.regimes.selected.associated.association
    }

    /// The activity of a recoverable open.
    pub fn activity(&self) -> Option<u32>
        ensures { result ≡ self.now.regimes.regime.activity }
    {
        self.regimes.regime.activity
    }

    /// The number of the last check that stands.
    pub fn check_number(&self) -> u32
        ensures { result ≡ offered self.now.received.checks }
    {
        self.received.point()
    }

    /// Whether this check stands and isn't before the last recovery, or is the point of that: a restart names no other.
    pub fn is_known(&self, check: u32) -> bool
        ensures { result ≡ (nat_le self.now.start check && nat_le check (offered self.now.received.checks)) }
    {
        self.start <= check && check <= self.received.point()
    }

    /// The values that stand.
    pub fn values(&self) -> &[Element]
        ensures { result.now ≡ self.now.received.values }
    {
        self.received.values()
    }

    /// The octets of the strings of all values that stand.
    pub fn octets(&self) -> u64
        ensures { result ≡ self.now.octets }
    {
        self.octets
    }

    /// Takes an element (ISO 8571-3, F-DATA), to which nothing is said: it is the next value. One with which their octets
    /// pass 18,446,744,073,709,551,615 wants memory, and so does each that comes without any; then the state is given back
    /// as it was.
    pub fn element(
        mut self,
        alloc: Global,
        element: Element,
        moment: Moment,
        serial: u32,
        token: bool,
        sync: bool,
        tables: &Tables,
        locks: &mut Locks,
    ) -> Result<Step<Writing>, (Writing, StepError)>
        ensures consequence { IsStep IsWriting IsWriting tables.now locks.old locks.new self (record { moment = moment; serial = serial; token = token; sync = sync }) (messages.Element element) result }
        ensures kept { IfErr result (λ back. back.0 ≡ self) }
        ensures memory { IfErr result (λ back. back.1 ≡ StepError.NoMemory) }
    {
        let Some(octets) = self.octets.checked_add(octets_of(&element)) else {
            return Err((self, StepError::NoMemory));
        };
        let Ok(()) = self.received.value(element) else {
            return Err((self, StepError::NoMemory));
        };
        self.octets = octets;
        Ok(Step {
            state: self,
            said: Vec::new(alloc),
            changes: Changes::new(alloc),
        })
    }

    /// Takes the end of the values (ISO 8571-3, F-DATA-END), with the initiator's diagnostic where it gives the write up;
    /// nothing is said to it.
    pub fn data_end(
        mut self,
        alloc: Global,
        request: Pdu,
        moment: Moment,
        serial: u32,
        token: bool,
        sync: bool,
        tables: &Tables,
        locks: &mut Locks,
    ) -> Result<Step<Writing>, (Writing, StepError)>
        requires { number_of request ≡ 34 }
        ensures consequence { IsStep IsWriting IsWriting tables.now locks.old locks.new self (record { moment = moment; serial = serial; token = token; sync = sync }) (messages.Pdu request) result }
        ensures kept { IfErr result (λ back. back.0 ≡ self) }
        ensures memory { IfErr result (λ back. back.1 ≡ StepError.NoMemory) }
    {
        let Pdu::DataEnd { diagnostic } = request else {
            unreachable!()
        };
        self.ended = Some(diagnostic);
        Ok(Step {
            state: self,
            said: Vec::new(alloc),
            changes: Changes::new(alloc),
        })
    }

    /// The fields of the docket of its open, with this as its last check.
    pub(crate) fn fields_at(&self, alloc: Global, point: u32) -> Result<Option<Regime>, NoMemory>
        ensures { IfOk result (λ fields. fields ≡ fields_at self.now point) }
    {
        let moving = moving(self.operation, self.fadu, self.given, point);
        let fields = fields_of(alloc, &self.regimes, moving)?;
        Ok(fields)
    }
}

/// What a docket has of a write.
fn moving(
    operation: WriteOperation,
    fadu: FaduId,
    given: vf_regime_effects::Writing,
    point: u32,
) -> Underway
    ensures { result ≡ moving_of operation fadu given point }
{
    let refused = match given {
        vf_regime_effects::Writing::Refused { number, .. } => number,
        vf_regime_effects::Writing::Granted => 0,
    };
    Underway {
        direction: Direction::Write {
            operation: operation_of(operation),
        },
        fadu,
        refused,
        point,
        version: 0,
    }
}

fn operation_of(operation: WriteOperation) -> Operation
    ensures { result ≡ operation_meant operation }
{
    match operation {
        WriteOperation::Insert => Operation::Insert,
        WriteOperation::Replace => Operation::Replace,
        WriteOperation::Extend => Operation::Extend,
    }
}

/// A docket has these fields, where there is one.
pub(crate) fn put_docket(alloc: Global, fields: Option<Regime>) -> Result<Changes, NoMemory>
    ensures { IfOk result (λ changes. changes ≡ put_meant fields) }
{
    let Some(regime) = fields else {
        return Ok(Changes::new(alloc));
    };
    let changes = one_change(alloc, Change::PutDocket { regime })?;
    Ok(changes)
}
