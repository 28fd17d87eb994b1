//! What is said on a link, in its order (ISO 8571-3): an association, a file that is made and opened, all of its contents written,
//! and the way back.
ghost use Rattle.std.specs.Prelude.{◌≡◌, ◌∷◌, [], IfOk, None};
ghost use Rattle.vf_cli_generate.specs.Requests.{create as create_meant, initialize as initialize_meant, of_pdu, open_file, value as value_meant, write as write_meant};
ghost use Rattle.vf_pdu.specs.declared.pdu.Pdu.TheVariants as pdus;
ghost use Rattle.vf_stack.specs.declared.request.Request.TheVariants as requests;

use std::alloc::Global;
use vf_base::{
    Actions, BaseError, Contents, Element, FaduId, Name, NoMemory, Octets, Oid, Sequence,
};
use vf_pdu::{Boxed, Pdu};
use vf_pdu_fields::WriteOperation;
use vf_stack::{Item, Request};

/// Read, write, file access and limited management.
const UNITS: u16 = 15;

/// The action replace, as a set.
const REPLACE: u8 = 4;

/// F-INITIALIZE, in the name of nobody.
pub(crate) fn initialize(alloc: Global) -> Result<Request, NoMemory>
    ensures { IfOk result (λ request. request ≡ initialize_meant) }
{
    let pdu = Pdu::InitializeRequest {
        units: UNITS,
        identity: None,
        password: None,
        window: 1,
    };
    Ok(Request::Associate {
        sync: false,
        pdu: Boxed::new(alloc, pdu)?,
    })
}

fn item(alloc: Global, pdu: Pdu) -> Result<Request, NoMemory>
    ensures { IfOk result (λ request. request ≡ of_pdu pdu) }
{
    let pdu = Boxed::new(alloc, pdu)?;
    Ok(Request::Item(Item::Pdu(pdu)))
}

/// FTAM-3.
fn contents(alloc: Global) -> Result<Contents, BaseError>
    ensures { IfOk result (λ contents. contents ≡ record { kind = 1 ∷ 0 ∷ 8571 ∷ 5 ∷ 3 ∷ []; class = 25; longest = 0; significance = 0 }) }
{
    let kind = Oid::of(alloc, &[1, 0, 8571, 5, 3])?;
    Ok(Contents {
        kind,
        class: 25,
        longest: 0,
        significance: 0,
    })
}

/// F-CREATE of a file, which is selected where it is there.
pub(crate) fn create(alloc: Global, name: Name) -> Result<Request, NoMemory>
    ensures { IfOk result (λ request. request ≡ create_meant name) }
{
    let Ok(contents) = contents(alloc) else {
        return Err(NoMemory);
    };
    item(
        alloc,
        Pdu::CreateRequest {
            over: 1,
            name,
            contents,
            permitted: Actions { value: 255 },
            terms: Sequence::new(alloc),
            requested: Actions { value: REPLACE },
            controls: None,
            password: None,
        },
    )
}

/// F-OPEN, to replace what the file has.
pub(crate) fn open_file(alloc: Global) -> Result<Request, NoMemory>
    ensures { IfOk result (λ request. request ≡ open_file) }
{
    item(
        alloc,
        Pdu::OpenRequest {
            mode: REPLACE,
            contents: None,
            controls: None,
            activity: None,
        },
    )
}

/// F-WRITE of all of the file.
pub(crate) fn write(alloc: Global) -> Result<Request, NoMemory>
    ensures { IfOk result (λ request. request ≡ write_meant) }
{
    item(
        alloc,
        Pdu::WriteRequest {
            operation: WriteOperation::Replace,
            fadu: FaduId::Begin,
        },
    )
}

/// A string of the contents.
pub(crate) fn value(alloc: Global, octets: &[u8]) -> Result<Request, NoMemory>
    ensures { IfOk result (λ request. request ≡ value_meant octets.now) }
{
    let octets = Octets::of(alloc, octets)?;
    Ok(Request::Item(Item::Element(Element::Binary { octets })))
}

/// F-DATA-END.
pub(crate) fn data_end(alloc: Global) -> Result<Request, NoMemory>
    ensures { IfOk result (λ request. request ≡ of_pdu (pdus.DataEnd None)) }
{
    item(alloc, Pdu::DataEnd { diagnostic: None })
}

/// F-TRANSFER-END.
pub(crate) fn transfer_end(alloc: Global) -> Result<Request, NoMemory>
    ensures { IfOk result (λ request. request ≡ of_pdu pdus.TransferEndRequest) }
{
    item(alloc, Pdu::TransferEndRequest)
}

/// F-CLOSE.
pub(crate) fn close(alloc: Global) -> Result<Request, NoMemory>
    ensures { IfOk result (λ request. request ≡ of_pdu pdus.CloseRequest) }
{
    item(alloc, Pdu::CloseRequest)
}

/// F-DESELECT.
pub(crate) fn deselect(alloc: Global) -> Result<Request, NoMemory>
    ensures { IfOk result (λ request. request ≡ of_pdu pdus.DeselectRequest) }
{
    item(alloc, Pdu::DeselectRequest)
}

/// F-TERMINATE.
pub(crate) fn terminate(alloc: Global) -> Result<Request, NoMemory>
    ensures { IfOk result (λ request. request ≡ requests.Release pdus.TerminateRequest) }
{
    let pdu = Boxed::new(alloc, Pdu::TerminateRequest)?;
    Ok(Request::Release { pdu })
}
