//! The requests of an initiator (ISO 8571-3; which of them it makes, and with which fields, is profile).
ghost use Rattle.std.specs.Prelude.{◌≡◌, IfOk};
ghost use Rattle.vf_initiator.specs.Asking as asking;

use crate::Plan;
use crate::assignment::Assignment;
use crate::progress::Progress;
use std::alloc::Global;
use vf_base::{Actions, Contents, Context, Element, FaduId, NoMemory, Oid, Sequence, copy_option};
use vf_pdu::{Boxed, Pdu};
use vf_pdu_fields::WriteOperation;
use vf_stack::{Item, Request};
use vf_tables::Way;

/// The window that is proposed.
const WINDOW: u16 = 4;

/// Read, write, file access and limited management.
const UNITS: u16 = 15;

/// The same, restart and recovery.
const RECOVERABLE_UNITS: u16 = 207;

/// A PDU in P-DATA.
pub(crate) fn item(alloc: Global, pdu: Pdu) -> Result<Request, NoMemory>
    ensures { IfOk result (λ request. request ≡ asking.item pdu) }
{
    let pdu = Boxed::new(alloc, pdu)?;
    Ok(Request::Item(Item::Pdu(pdu)))
}

/// A data element; its octets are shared.
pub(crate) fn value(alloc: Global, element: &Element) -> Result<Request, NoMemory>
    ensures { IfOk result (λ request. request ≡ asking.value element.now) }
{
    let element = element.copy(alloc)?;
    Ok(Request::Item(Item::Element(element)))
}

/// F-INITIALIZE. With an activity restart and recovery are asked for, and the session's sync is proposed.
pub(crate) fn associate(
    alloc: Global,
    plan: &Plan,
    assignment: &Assignment,
) -> Result<Request, NoMemory>
    ensures { IfOk result (λ request. request ≡ asking.associate plan.now assignment.now) }
{
    let identity = assignment.identity.copy(alloc)?;
    let password = copy_option(alloc, &plan.password)?;
    let sync = assignment.activity.is_some();
    let pdu = Pdu::InitializeRequest {
        units: if sync { RECOVERABLE_UNITS } else { UNITS },
        identity: Some(identity),
        password,
        window: WINDOW,
    };
    let pdu = Boxed::new(alloc, pdu)?;
    Ok(Request::Associate { sync, pdu })
}

/// The contents type of a document type, with its defaults.
fn contents(alloc: Global, kind: u8) -> Result<Contents, NoMemory>
    ensures { IfOk result (λ contents. contents ≡ asking.contents kind) }
{
    let Ok(kind) = Oid::of(alloc, &[1, 0, 8571, 5, u32::from(kind)]) else {
        return Err(NoMemory);
    };
    Ok(Contents {
        kind,
        class: 25,
        longest: 0,
        significance: 0,
    })
}

/// F-CREATE of a file that may be there, or F-SELECT.
pub(crate) fn select(alloc: Global, assignment: &Assignment) -> Result<Request, NoMemory>
    ensures { IfOk result (λ request. request ≡ asking.select assignment.now) }
{
    let name = assignment.file.copy(alloc)?;
    let requested = Actions {
        value: assignment.mode(),
    };
    match assignment.way {
        Way::Get => item(
            alloc,
            Pdu::SelectRequest {
                name,
                requested,
                controls: None,
                password: None,
            },
        ),
        Way::Put => {
            let contents = contents(alloc, assignment.kind)?;
            item(
                alloc,
                Pdu::CreateRequest {
                    over: 1,
                    name,
                    contents,
                    permitted: Actions { value: 255 },
                    terms: Sequence::new(alloc),
                    requested,
                    controls: None,
                    password: None,
                },
            )
        }
    }
}

/// F-RECOVER of the transfer that is kept.
pub(crate) fn recover(alloc: Global, activity: u32, progress: Progress) -> Result<Request, NoMemory>
    ensures { IfOk result (λ request. request ≡ asking.recover activity progress) }
{
    item(
        alloc,
        Pdu::RecoverRequest {
            activity,
            number: progress.number,
            point: progress.point,
        },
    )
}

/// F-OPEN, recoverable with an activity.
pub(crate) fn open(alloc: Global, assignment: &Assignment) -> Result<Request, NoMemory>
    ensures { IfOk result (λ request. request ≡ asking.open_file assignment.now) }
{
    item(
        alloc,
        Pdu::OpenRequest {
            mode: assignment.mode(),
            contents: None,
            controls: None,
            activity: assignment.activity,
        },
    )
}

/// F-READ of the whole file.
pub(crate) fn read(alloc: Global, assignment: &Assignment) -> Result<Request, NoMemory>
    ensures { IfOk result (λ request. request ≡ asking.read assignment.now) }
{
    let context = if assignment.kind == 2 {
        Context::FA
    } else {
        Context::UA
    };
    item(
        alloc,
        Pdu::ReadRequest {
            fadu: FaduId::Begin,
            context,
        },
    )
}

/// F-WRITE of the whole file, or of records after the others.
pub(crate) fn write(alloc: Global, assignment: &Assignment) -> Result<Request, NoMemory>
    ensures { IfOk result (λ request. request ≡ asking.write assignment.now) }
{
    let (operation, fadu) = if assignment.kind == 2 {
        (WriteOperation::Insert, FaduId::End)
    } else {
        (WriteOperation::Replace, FaduId::Begin)
    };
    item(alloc, Pdu::WriteRequest { operation, fadu })
}

/// F-TERMINATE.
pub(crate) fn terminate(alloc: Global) -> Result<Request, NoMemory>
    ensures { IfOk result (λ request. request ≡ asking.terminate) }
{
    let pdu = Boxed::new(alloc, Pdu::TerminateRequest)?;
    Ok(Request::Release { pdu })
}

/// F-U-ABORT with number 0.
pub(crate) fn abort(alloc: Global) -> Result<Request, NoMemory>
    ensures { IfOk result (λ request. request ≡ asking.abort) }
{
    let pdu = Boxed::new(alloc, Pdu::UserAbort { number: 0 })?;
    Ok(Request::Abort { pdu: Some(pdu) })
}
