//! A read that goes on after a recovery (ISO 8571-3, F-RECOVER; profile).
ghost use Rattle.std.specs.Prelude.{◌≡◌, IfErr, IfOk, Some, true, option_copied};
ghost use Rattle.vf_elements.specs.declared.message.Message.TheVariants as messages;
ghost use Rattle.vf_party_steps.specs.Recoveries.{SaysAgain, TakesUpKept, again as again_meant, put_at as put_at_meant, read_by as read_by_meant, shown_as};
ghost use Rattle.vf_party_steps.specs.Reads.{IsReading};
ghost use Rattle.vf_pdu.specs.declared.pdu.Pdu.TheVariants.{RecoverRequest};
ghost use Rattle.vf_tables.specs.declared.docket.Direction.TheVariants.{Read};
ghost use Rattle.vf_filestore.specs.History.{Refused};
ghost use Rattle.vf_regime_effects.specs.Meanings.{given_of_reading};
ghost use Rattle.vf_tree.specs.Acts.{Reads, does, shown_of};

use crate::due::Due;
use crate::found_docket::holder_of;
use crate::recovered_open::{reopened, take_hold};
use crate::step::{one_change, one_said};
use crate::{Associated, Reading, Said, Step};
use std::alloc::Global;
use vf_attr::File;
use vf_base::{Context, FaduId, Moment, NoMemory};
use vf_locks::Locks;
use vf_pdu::Pdu;
use vf_regime_effects::{Reading as Given, selected};
use vf_regime_refusals::Association;
use vf_tables::{Change, Changes, Docket, Regime, Tables};
use vf_tree::TreeError;

impl Associated {
    /// Takes up a docket in which a read is under way: it goes on after the smaller of the point that is asked for and
    /// that of the docket, with what the file shows again, which is as it was.
    pub(crate) fn take_up_read(
        self,
        alloc: Global,
        activity: u32,
        number: u32,
        point: u32,
        docket: &Docket,
        context: Context,
        moment: Moment,
        serial: u32,
        token: bool,
        sync: bool,
        tables: &Tables,
        locks: &mut Locks,
    ) -> Result<Step<Reading>, Associated>
        requires directed { docket.now.regime.direction ≡ Read context }
        requires may_send { token ≡ true }
        ensures consequence { TakesUpKept IsReading tables.now locks.old locks.new self (record { moment = moment; serial = serial; token = token; sync = sync }) activity number (messages.Pdu (RecoverRequest activity number point)) docket.now result }
        ensures kept { IfErr result (λ back. back ≡ self) }
    {
        let check = point.min(docket.regime.point);
        let Ok(holder) = holder_of(alloc, &self.association.identity, activity) else {
            return Err(self);
        };
        let file = selected(&tables.files, &docket.regime.file);
        let Ok(given) = read_by(alloc, file, &docket.regime, context) else {
            return Err(self);
        };
        let association = &self.association;
        let Ok(resumed) = resume(alloc, association, &docket.regime, &given, check, serial) else {
            return Err(self);
        };
        let link = self.association.link;
        let opened = reopened(alloc, self, &docket.regime)?;
        take_hold(&docket.regime.file, &holder, link, locks);
        let Resumed {
            due,
            shown,
            changes,
        } = resumed;
        let state = Reading {
            opened,
            fadu: docket.regime.fadu,
            context,
            given,
            check: due.check,
            point: check,
            start: check,
            shown,
        };
        Ok(Step {
            state,
            said: due.said,
            changes,
        })
    }
}

/// What comes of a read that goes on.
#[derive(Drop)]
struct Resumed {
    /// What is said, and how far the read has come with it.
    due: Due,
    /// The end of the values is said.
    shown: bool,
    changes: Changes,
}

/// What comes of a read that goes on after this check, of what its request was given.
fn resume(
    alloc: Global,
    association: &Association,
    regime: &Regime,
    given: &Given,
    check: u32,
    serial: u32,
) -> Result<Resumed, NoMemory>
    ensures says { IfOk result (λ resumed. SaysAgain association.now regime.now given.now check serial resumed.due resumed.shown) }
    ensures changes { IfOk result (λ resumed. resumed.changes ≡ put_at_meant regime.now check) }
{
    let changes = put_at(alloc, regime, check)?;
    let answer = Pdu::RecoverResponse {
        diagnostic: None,
        number: Some(regime.number),
        point: check,
        moving: true,
        last: 0,
    };
    let said = one_said(alloc, Said::Pdu(answer))?;
    let mut due = Due {
        said,
        check,
        unacknowledged: 0,
        serial: u64::from(serial),
    };
    let shown = due.say(alloc, association, given)?;
    Ok(Resumed {
        due,
        shown,
        changes,
    })
}

/// What the request of a read was given.
fn read_by(
    alloc: Global,
    file: Option<&File>,
    regime: &Regime,
    context: Context,
) -> Result<Given, NoMemory>
    ensures { IfOk result (λ given. given_of_reading given ≡ read_by_meant (option_copied file.entry) regime.now context) }
{
    if regime.refused != 0 {
        return Ok(Given::Refused {
            version: regime.version,
            number: regime.refused,
        });
    }
    let Some(file) = file else {
        return Ok(Given::Refused {
            version: regime.version,
            number: 0,
        });
    };
    let given = show_again(alloc, file, regime, context)?;
    Ok(given)
}

/// What the file shows again that is as it was; that it shows nothing can't be then.
fn show_again(
    alloc: Global,
    file: &File,
    regime: &Regime,
    context: Context,
) -> Result<Given, NoMemory>
    ensures { IfOk result (λ given. given_of_reading given ≡ shown_as regime.now.version (shown_of (does file.now.tree regime.now.position (Reads (again_meant regime.now.fadu) context)))) }
{
    match file
        .tree
        .shown(alloc, regime.position, again(regime.fadu), context)
    {
        Ok((elements, position)) => Ok(Given::Showed {
            version: regime.version,
            elements,
            position,
        }),
        Err(TreeError::NoMemory) => Err(NoMemory),
        Err(TreeError::Outside) => Ok(nothing_again(regime)),
        Err(TreeError::NotFound) => Ok(nothing_again(regime)),
        Err(TreeError::BadContext) => Ok(nothing_again(regime)),
    }
}

fn nothing_again(regime: &Regime) -> Given
    ensures { given_of_reading result ≡ Refused regime.now.version 0 }
{
    Given::Refused {
        version: regime.version,
        number: 0,
    }
}

/// What means from the position after a read what the identity meant before it.
fn again(fadu: FaduId) -> FaduId
    ensures { result ≡ again_meant fadu }
{
    match fadu {
        FaduId::Next => FaduId::Current,
        FaduId::Previous => FaduId::Current,
        fadu => fadu,
    }
}

/// The changes of a docket whose read goes on after this check.
fn put_at(alloc: Global, regime: &Regime, check: u32) -> Result<Changes, NoMemory>
    ensures { IfOk result (λ changes. changes ≡ put_at_meant regime.now check) }
{
    if check >= regime.point {
        return Ok(Changes::new(alloc));
    }
    let mut fields = regime.copy(alloc)?;
    fields.point = check;
    let changes = one_change(alloc, Change::PutDocket { regime: fields })?;
    Ok(changes)
}
