//! Entries of tables, copied, and tables that are changed.
use crate::records::changes_of;
use std::alloc::Global;
use std::test::Fail;
use vf_base::{Actions, BaseError, Control, Controls, FaduId, Name, NoMemory, Octets, Sequence};
use vf_tables::{Direction, Docket, Doubled, Phase, Pieces, Plan, Regime, Task, User, Way};

fn user(alloc: Global) -> Result<User, BaseError> {
    let identity = Name::of(alloc, b"ann")?;
    let password = Octets::of(alloc, b"pw")?;
    Ok(User {
        identity,
        password: Some(password),
    })
}

fn regime(alloc: Global) -> Result<Regime, BaseError> {
    let identity = Name::of(alloc, b"ann")?;
    let file = Name::of(alloc, b"a")?;
    Ok(Regime {
        identity,
        activity: 7,
        file,
        requested: Actions { value: 5 },
        controls: Controls {
            each: [Control::Shared; 8],
        },
        mode: Actions { value: 4 },
        password: None,
        position: 0,
        number: 2,
        last: 0,
        window: 3,
        direction: Direction::Idle,
        fadu: FaduId::Begin,
        refused: 0,
        point: 1,
        ended: false,
        version: 0,
    })
}

fn plan(alloc: Global) -> Result<Plan, BaseError> {
    let file = Name::of(alloc, b"a")?;
    let identity = Name::of(alloc, b"ann")?;
    Ok(Plan {
        activity: 7,
        way: Way::Put,
        kind: 3,
        every: 8,
        file,
        identity,
        number: 1,
        point: 2,
        phase: Phase::Open,
        outcome: 0,
    })
}

/// One empty piece.
fn pieces(alloc: Global) -> Result<Pieces, NoMemory> {
    let mut pieces = Pieces::new(alloc);
    pieces.push(Sequence::new(alloc))?;
    Ok(pieces)
}

fn docket(alloc: Global) -> Result<Docket, BaseError> {
    let regime = regime(alloc)?;
    let staged = pieces(alloc)?;
    Ok(Docket { regime, staged })
}

fn task(alloc: Global) -> Result<Task, BaseError> {
    let plan = plan(alloc)?;
    let staged = pieces(alloc)?;
    Ok(Task { plan, staged })
}

#[test]
fn a_user_is_copied(rt: HostRuntime) -> Result<(), Fail> {
    let user = user(rt.alloc())?;
    let copy = user.copy(rt.alloc())?;
    assert!(rt; copy.identity == user.identity && copy.password.is_some());
    Ok(())
}

#[test]
fn a_docket_is_copied_with_its_pieces(rt: HostRuntime) -> Result<(), Fail> {
    let docket = docket(rt.alloc())?;
    let copy = docket.copy(rt.alloc())?;
    assert!(rt; copy.regime.activity == 7 && copy.regime.window == 3 && copy.staged.len() == 1);
    Ok(())
}

#[test]
fn a_task_is_copied_with_its_pieces(rt: HostRuntime) -> Result<(), Fail> {
    let task = task(rt.alloc())?;
    let copy = task.copy(rt.alloc())?;
    assert!(rt; copy.plan.point == 2 && copy.staged.len() == 1);
    Ok(())
}

/// Records that put the user `ann`, and that put `bob` and drop the file `a`, or do one of these alone.
const PUT_ANN: &[u8] = b"\0\0\0\x01\x01\0\x03ann\0";

const PUT_BOB_DROP_A: &[u8] = b"\0\0\0\x02\x01\0\x03bob\0\x04\0\x01a";

const DROP_A: &[u8] = b"\0\0\0\x01\x04\0\x01a";

const PUT_BOB: &[u8] = b"\0\0\0\x01\x01\0\x03bob\0";

/// Records for tables without files that have `ann`, one after another: whether each is made, and how many users there
/// are then.
const MADE: [(&[u8], bool, usize); 6] = [
    (DROP_A, false, 1),
    (PUT_ANN, true, 1),
    (PUT_BOB_DROP_A, false, 1),
    (PUT_BOB, true, 2),
    (DROP_A, false, 2),
    (PUT_ANN, true, 2),
];

/// Makes the changes of a record, and tells whether they were made.
fn makes(alloc: Global, tables: &mut Doubled, record: &[u8]) -> Result<bool, Fail> {
    let changes = changes_of(alloc, record)?;
    let is_made = tables.make(alloc, changes.as_slice())?;
    Ok(is_made)
}

/// Puts the user `ann`.
fn put_ann(alloc: Global, tables: &mut Doubled) -> Result<(), Fail> {
    let changes = changes_of(alloc, PUT_ANN)?;
    tables.apply(alloc, changes.as_slice())?;
    Ok(())
}

/// Whether each of the records is made as told, of tables to which `ann` is put.
fn are_made(alloc: Global, tables: &mut Doubled) -> Result<bool, Fail> {
    put_ann(alloc, tables)?;
    for (record, wanted, users) in MADE {
        let is_made = makes(alloc, tables, record)?;
        if is_made != wanted || tables.tables().users.len() != users {
            return Ok(false);
        }
    }
    Ok(true)
}

/// The same of tables that are just made, which stand in no other function: a function in which they live is slow to prove.
fn are_made_of_new(alloc: Global) -> Result<bool, Fail> {
    let mut tables = Doubled::new(alloc);
    are_made(alloc, &mut tables)
}

#[test]
fn changes_that_do_not_fit_leave_the_tables(rt: HostRuntime) -> Result<(), Fail> {
    assert!(rt; are_made_of_new(rt.alloc())?);
    Ok(())
}
