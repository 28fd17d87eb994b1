//! A write that goes on after a recovery (ISO 8571-3, F-RECOVER; profile).
ghost use Rattle.std.specs.Prelude.{◌≡◌, ◌++◌, ◌∷◌, [], List, IfErr, IfOk, None, OnOk, Some, take, true};
ghost use Rattle.vf_base.specs.declared.element.Element.{Element as Of};
ghost use Rattle.vf_elements.specs.declared.message.Message.TheVariants as messages;
ghost use Rattle.vf_elements.specs.declared.message.Said.TheVariants as answers;
ghost use Rattle.vf_party_steps.specs.Recoveries.{IsFilled, TakesUpKept, cut_to as cut_to_meant, given_by as given_by_meant, write_by as write_by_meant, writing_by};
ghost use Rattle.vf_party_steps.specs.Writes.{IsWriting};
ghost use Rattle.vf_pdu.specs.declared.pdu.Pdu.TheVariants as pdus;
ghost use Rattle.vf_tables.specs.declared.docket.Direction.TheVariants.{Write};

use crate::checking::put_and_cut;
use crate::found_docket::holder_of;
use crate::received::Received;
use crate::recovered_open::{reopened, take_hold};
use crate::step::one_said;
use crate::{Associated, Said, Step, Writing};
use std::alloc::Global;
use vf_base::{Element, Elements, Moment, NoMemory};
use vf_locks::Locks;
use vf_pdu::Pdu;
use vf_pdu_fields::WriteOperation;
use vf_tables::{Changes, Docket, Operation, Pieces, Regime, Tables};

impl Associated {
    /// Takes up a docket in which a write is under way: it goes on after the smaller of the point that is asked for and
    /// that of the docket, whose pieces before it are its values.
    pub(crate) fn take_up_write(
        self,
        alloc: Global,
        activity: u32,
        number: u32,
        point: u32,
        docket: &Docket,
        operation: Operation,
        moment: Moment,
        serial: u32,
        token: bool,
        sync: bool,
        tables: &Tables,
        locks: &mut Locks,
    ) -> Result<Step<Writing>, Associated>
        requires { docket.now.regime.direction ≡ Write operation }
        ensures consequence { TakesUpKept IsWriting tables.now locks.old locks.new self (record { moment = moment; serial = serial; token = token; sync = sync }) activity number (messages.Pdu (pdus.RecoverRequest activity number point)) docket.now result }
        ensures kept { IfErr result (λ back. back ≡ self) }
    {
        let check = point.min(docket.regime.point);
        let Ok(holder) = holder_of(alloc, &self.association.identity, activity) else {
            return Err(self);
        };
        let Ok(done) = resume(alloc, &docket.regime, check) else {
            return Err(self);
        };
        let link = self.association.link;
        let state = written_on(alloc, self, docket, operation, check)?;
        take_hold(&docket.regime.file, &holder, link, locks);
        Ok(Step {
            state,
            said: done.0,
            changes: done.1,
        })
    }
}

/// What is said where a write goes on after this check, and what changes.
fn resume(alloc: Global, regime: &Regime, check: u32) -> Result<(Vec<Said>, Changes), NoMemory>
    ensures said { IfOk result (λ done. done.0.items ≡ answers.Pdu (pdus.RecoverResponse None (Some regime.now.number) check true 0) ∷ []) }
    ensures changes { IfOk result (λ done. done.1 ≡ cut_to_meant regime.now check) }
{
    let answer = Pdu::RecoverResponse {
        diagnostic: None,
        number: Some(regime.number),
        point: check,
        moving: true,
        last: 0,
    };
    let changes = cut_to(alloc, regime, check)?;
    let said = one_said(alloc, Said::Pdu(answer))?;
    Ok((said, changes))
}

/// The write of a docket after this check, of this party; without memory the party is given back.
fn written_on(
    alloc: Global,
    associated: Associated,
    docket: &Docket,
    operation: Operation,
    check: u32,
) -> Result<Writing, Associated>
    ensures made { IfOk result (λ made. made ≡ writing_by associated docket.now.regime operation check made.received) }
    ensures filled { IfOk result (λ made. IsFilled made.received (take check docket.now.staged) []) }
    ensures err { IfErr result (λ back. back ≡ associated) }
{
    let Ok(received) = refilled(alloc, first_pieces(&docket.staged, check)) else {
        return Err(associated);
    };
    let Ok(octets) = received.octets() else {
        return Err(associated);
    };
    let regimes = reopened(alloc, associated, &docket.regime)?;
    Ok(Writing {
        regimes,
        operation: write_by(operation),
        fadu: docket.regime.fadu,
        given: given_by(docket.regime.refused),
        received,
        octets,
        start: check,
        ended: None,
    })
}

fn write_by(operation: Operation) -> WriteOperation
    ensures { result ≡ write_by_meant operation }
{
    match operation {
        Operation::Insert => WriteOperation::Insert,
        Operation::Replace => WriteOperation::Replace,
        Operation::Extend => WriteOperation::Extend,
    }
}

/// What the request of a write was given, by the number of the diagnostic that refuses it or 0; a docket doesn't keep the
/// file's version then, and nothing looks at it.
fn given_by(refused: u16) -> vf_regime_effects::Writing
    ensures { result ≡ given_by_meant refused }
{
    if refused == 0 {
        return vf_regime_effects::Writing::Granted;
    }
    vf_regime_effects::Writing::Refused {
        version: 0,
        number: refused,
    }
}

/// The pieces before this check.
fn first_pieces(pieces: &Pieces, check: u32) -> &[Elements]
    ensures { result.now ≡ take check pieces.now }
{
    let pieces = pieces.as_slice();
    let (first, _) = pieces.split_at((check as usize).min(pieces.len()));
    first
}

/// What a write has received that takes these pieces again, a check after each.
fn refilled(alloc: Global, pieces: &[Elements]) -> Result<Received, NoMemory>
    ensures { IfOk result (λ received. IsFilled received pieces.now []) }
{
    let mut received = Received::new(alloc);
    for piece in pieces {
        take_piece(alloc, &mut received, piece.as_slice())?;
    }
    Ok(received)
}

/// Takes the values of a piece, and a check after them.
fn take_piece(alloc: Global, received: &mut Received, piece: &[Element]) -> Result<(), NoMemory>
    ensures { OnOk result ((pieces : List (List Of)) → IsFilled received.old pieces [] → IsFilled received.new (pieces ++ piece.now ∷ []) []) }
{
    for element in piece {
        let value = element.copy(alloc)?;
        received.value(value)?;
    }
    received.check()?;
    Ok(())
}

/// The changes of a docket whose write goes on after this check.
fn cut_to(alloc: Global, regime: &Regime, check: u32) -> Result<Changes, NoMemory>
    ensures { IfOk result (λ changes. changes ≡ cut_to_meant regime.now check) }
{
    if check >= regime.point {
        return Ok(Changes::new(alloc));
    }
    let mut fields = regime.copy(alloc)?;
    fields.point = check;
    let changes = put_and_cut(alloc, fields, check)?;
    Ok(changes)
}
