//! Rows of both ends' messages: what the other end says, or the octets that come from it, and after `=` what it is told then,
//! after `|` the changes of the kept task, and after `!` how the task stands, where it isn't going on. The other end is a called
//! stack.
use std::alloc::Global;
use std::test::Fail;
use vf_initiator::{KeptTask, Plan};
use vf_tables::Tables;

mod ends;
mod octets;
mod requests;
mod shown;
mod tasks;

use ends::{Ends, keep};
use tasks::plan_of;

/// Three strings, a check behind every second one, without an activity.
const PUT: &str = "
put 3 2 - 040131 040132 040133
dial = -A00D80010F81056775657374830104
Accept-:A10681010F820104 = AA12800101810161A207800528C27B0503850104
Item:AB00 = B203800104
Item:B309A107800528C27B0503 = BF2103800102 b31 b32 b33 BF2200 BF2300
Item:BF2400 = B400
Item:B500 = A800
Item:A900 = A200
Released:A300 =  ! ended
";

/// With activity 7 and a window of 1, broken after check 1 was acknowledged, and recovered.
const PUT_RECOVERED: &str = "
put 3 1 7 040131 040132 040133
dial = +A00E800200CF81056775657374830104
Accept+:A107810200CF820101 = AA12800101810161A207800528C27B0503850104
Item:AB00 = B206800104830107 | 1.0.Open.0
Item:B309A107800528C27B0503 = BF2103800102 b31 check1
Acknowledge1 = b32 check2 | 1.1.Open.0
dial = +A00E800200CF81056775657374830104
Accept+:A107810200CF820104 = BA09800107810101820101
Item:BB098101018201018301FF = b32 check1 b33 BF2200 BF2300
Acknowledge1 =  | 1.2.Open.0
Item:BF2400 = B400 | 1.2.Concluded.0
Item:B500 = A800
Item:A900 = A200
Released:A300 =  | drop ! ended
";

/// The same, where the other end performed the transfer before the connection broke, and refused it.
const PUT_REFUSED: &str = "
put 3 1 7 040131 040132
dial = +A00E800200CF81056775657374830104
Accept+:A107810200CF820104 = AA12800101810161A207800528C27B0503850104
Item:AB00 = B206800104830107 | 1.0.Open.0
Item:B309A107800528C27B0503 = BF2103800102 b31 check1 b32 BF2200 BF2300
Acknowledge1 =  | 1.1.Open.0
dial = +A00E800200CF81056775657374830104
Accept+:A107810200CF820104 = BA09800107810101820101
Item:BB06810102840117 = B400 | 1.1.Concluded.23
dial = +A00E800200CF81056775657374830104
Accept+:A107810200CF820104 = BA09800107810101820101
Item:BB05A00380011B = A200
Released:A300 =  | drop ! refused 23 0 0
";

/// A get that broke behind a check, and was recovered there; and its end, which is told on a third connection.
const GET: &str = "
get 3 64 7
dial = +A00E800200CF81056775657374830104
Accept+:A107810200CF820104 = A606800161810101
Item:A700 = B206800101830107 | 1.0.Open.0
Item:B309A107800528C27B0503 = BF2000
Item:040131 =
Check1 = ack1 | 1.1.Open.0 stage1:1
Item:040132 =
elements = b31 b32
dial = +A00E800200CF81056775657374830104
Accept+:A107810200CF820104 = BA09800107810101820101
Item:BB098101018201018301FF =
elements = b31
Item:040132 =
Item:040133 =
Item:BF2200 = BF2300 | 1.1.Whole.0 stage2:2
dial = +A00E800200CF81056775657374830104
Accept+:A107810200CF820104 = BA09800107810101820101
Item:BB03810102 = B400 | 1.1.Concluded.0
Item:B500 = A800
Item:A900 = A200
elements = b31 b32 b33
Released:A300 =  | drop ! ended
";

/// A get that goes on before the check that it keeps; one that reads anew, since the other end has concluded the transfer; and
/// one of which the other end keeps nothing.
const GET_BEHIND: &str = "
get 3 64 7
dial = +A00E800200CF81056775657374830104
Accept+:A107810200CF820104 = A606800161810101
Item:A700 = B206800101830107 | 1.0.Open.0
Item:B309A107800528C27B0503 = BF2000
Item:040131 =
Check1 = ack1 | 1.1.Open.0 stage1:1
dial = +A00E800200CF81056775657374830104
Accept+:A107810200CF820104 = BA09800107810101820101
Item:BB068101018301FF =  | 1.0.Open.0 cut0
Item:040134 =
Check1 = ack1 | 1.1.Open.0 stage1:1
dial = +A00E800200CF81056775657374830104
Accept+:A107810200CF820104 = BA09800107810101820101
Item:BB03810102 = BF2000 | 2.0.Open.0 cut0
dial = +A00E800200CF81056775657374830104
Accept+:A107810200CF820104 = BA06800107810102
Item:BB05A00380011B = A606800161810101 | 1.0.New.0
";

/// A get that goes on before the check that it keeps, where all up to that check comes at once: nothing is changed where it is
/// the same as what is kept.
const GET_AGAIN: &str = "
get 3 64 7
dial = +A00E800200CF81056775657374830104
Accept+:A107810200CF820104 = A606800161810101
Item:A700 = B206800101830107 | 1.0.Open.0
Item:B309A107800528C27B0503 = BF2000
Item:040131 =
Check1 = ack1 | 1.1.Open.0 stage1:1
dial = +A00E800200CF81056775657374830104
Accept+:A107810200CF820104 = BA09800107810101820101
Item:BB068101018301FF & Item:040131 & Check1 = ack1
elements = b31
dial = +A00E800200CF81056775657374830104
Accept+:A107810200CF820104 = BA09800107810101820101
Item:BB068101018301FF & Item:040134 & Check1 = ack1 | cut0 stage1:1
";

/// A put of lines, which takes the place of the file's contents, and a get of records, which asks for the file's units.
const KINDS: &str = "
put 1 5 - 190131 190132
dial = -A00D80010F81056775657374830104
Accept-:A10681010F820104 = AA12800101810161A207800528C27B0501850104
Item:AB00 = B203800104
Item:B300 = BF2103800102 t31 t32 BF2200 BF2300
get 2 1 -
dial = -A00D80010F81056775657374830104
Accept-:A10681010F820104 = A606800161810101
Item:A700 = B203800101
Item:B300 = BF2003810101
Item:6000 =
Item:190131 =
Item:BF2200 = BF2300
Item:BF2400 = B400
Item:B500 = A800
Item:A900 = A200
elements = d t31
Released:A300 =  ! ended
";

/// Refusals.
const REFUSED: &str = "
put 3 1 7 040131
dial = +A00E800200CF81056775657374830104
Refuse:A105A003800124 =  | drop ! refused 36 0 0
put 3 1 7 040131
dial = +A00E800200CF81056775657374830104
Accept+:A105A003800124 = A400 | drop ! refused 36 0 0
put 3 1 - 040131
dial = -A00D80010F81056775657374830104
Accept-:A10681010F820104 = AA12800101810161A207800528C27B0503850104
Item:AB05A003800118 = A200 ! refused 24 0 0
put 2 1 - 6000 190131
dial = -A00D80010F81056775657374830104
Accept-:A10681010F820104 = AA12800101810161A207800528C27B0502850102
Item:AB00 = B203800102
Item:B308A006800110820101 = A400 ! refused 16 0 1
put 2 1 - 6000 190131
dial = -A00D80010F81056775657374830104
Accept-:A10681010F820104 = AA12800101810161A207800528C27B0502850102
Item:AB00 = B203800102
Item:B300 = BF21068001018101FF d t31 BF2200 BF2300
Item:BF2405A003800117 = B400
Item:B500 = A800
Item:A900 = A200
Released:A300 =  ! refused 23 0 0
";

/// What is out of place, at fault, or an abort.
const FAILED: &str = "
put 3 1 - 040131
dial = -A00D80010F81056775657374830104
Refuse:A103810100 =  ! out of place 0
put 3 1 - 040131
dial = -A00D80010F81056775657374830104
Accept-:A10681010F820104 = AA12800101810161A207800528C27B0503850104
Item:A700 =  ! out of place 1
put 3 1 - 040131
dial = -A00D80010F81056775657374830104
Abort =  ! abort 0
put 3 1 - 040131
dial = -A00D80010F81056775657374830104
Accept-:A10681010F820104 = AA12800101810161A207800528C27B0503850104
Abort:A50380016A =  ! abort 106
put 3 1 - 040131
dial = -A00D80010F81056775657374830104
octets 0400 =  ! fault Transport Version 11
put 3 1 - 040131
dial = -A00D80010F81056775657374830104
octets 0300000B06800001000100 =  ! out of place 0
get 3 1 -
dial = -A00D80010F81056775657374830104
Accept-:A10681010F820104 = A606800161810101
Item:A700 = B203800101
Item:B300 = BF2000
Item:040131 =
Item:BF2200 = BF2300
Item:040131 =  ! out of place 5
";

/// What stands while rows are read.
#[derive(Drop)]
struct Rows {
    tables: Tables,
    /// The plan of a task before its first connection.
    plan: Option<Plan>,
    ends: Option<Ends>,
    pieces: usize,
    text: String,
}

impl Rows {
    fn new(alloc: Global, pieces: usize) -> Result<Rows, Fail> {
        let text = String::from_str(alloc, "\n")?;
        Ok(Rows {
            tables: Tables::new(alloc),
            plan: None,
            ends: None,
            pieces,
            text,
        })
    }

    /// A task begins.
    fn begin(&mut self, alloc: Global, words: &str) -> Result<(), Fail> {
        self.tables = Tables::new(alloc);
        self.ends = None;
        self.plan = Some(plan_of(alloc, words)?);
        self.put(words, "")
    }

    fn put(&mut self, row: &str, shown: &str) -> Result<(), Fail> {
        self.text.push_str(row)?;
        self.text.push_str(shown)?;
        self.text.push('\n')?;
        Ok(())
    }

    /// The task is kept before its first connection.
    fn keep(&mut self, alloc: Global) -> Result<(), Fail> {
        match &self.plan {
            Some(plan) => keep(alloc, plan, &mut self.tables),
            None => Ok(()),
        }
    }

    /// The ends of the task's first connection, or of one after another that broke.
    fn next_ends(&mut self, alloc: Global) -> Result<Option<Ends>, Fail> {
        if let Some(plan) = self.plan.take() {
            return dialled(alloc, plan, None, self.pieces);
        }
        match self.ends.take() {
            Some(ends) => dialled(alloc, ends.broke(), self.tables.task(7), self.pieces),
            None => Ok(None),
        }
    }

    /// A new connection.
    fn dial(&mut self, alloc: Global) -> Result<(), Fail> {
        self.keep(alloc)?;
        self.ends = self.next_ends(alloc)?;
        match &mut self.ends {
            Some(ends) => ends.connect(alloc),
            None => Ok(()),
        }
    }

    /// A row of a connection.
    fn step(&mut self, alloc: Global, step: &str) -> Result<(), Fail> {
        let mut shown = String::from_str(alloc, " =")?;
        let mut said = String::new(alloc);
        if step == "dial" {
            self.dial(alloc)?;
        }
        let asked = if step == "dial" { "" } else { step };
        if let Some(ends) = &mut self.ends {
            ends.row(alloc, asked, &mut self.tables, &mut said)?;
        }
        if !said.is_empty() {
            shown.push(' ')?;
            shown.push_str(said.as_str())?;
        }
        self.put(step, shown.as_str())
    }

    fn row(&mut self, alloc: Global, row: &str) -> Result<(), Fail> {
        if row.is_empty() {
            return Ok(());
        }
        match row.split_once(" =") {
            Some((step, _)) => self.step(alloc, step),
            None => self.begin(alloc, row),
        }
    }
}

fn dialled(
    alloc: Global,
    plan: Plan,
    kept: Option<&KeptTask>,
    pieces: usize,
) -> Result<Option<Ends>, Fail> {
    match Ends::dial(alloc, plan, kept, pieces) {
        Ok(ends) => Ok(Some(ends)),
        Err(fault) => Err(fault),
    }
}

/// Appends what comes of rows.
fn run(alloc: Global, rows: &str, all: &mut Rows) -> Result<(), Fail> {
    for row in rows.lines() {
        all.row(alloc, row)?;
    }
    are_same(all.text.as_str(), rows)
}

/// Whether what came of rows is as they stand.
fn are_same(found: &str, rows: &str) -> Result<(), Fail> {
    for (line, expected) in found.lines().zip(rows.lines()) {
        if line != expected {
            return Err(Fail::new(line));
        }
    }
    if found.len() != rows.len() {
        return Err(Fail::new("another number of lines"));
    }
    Ok(())
}

/// Rows come out as they stand, so many octets at a time.
fn stand(alloc: Global, rows: &str, pieces: usize) -> Result<(), Fail> {
    let mut all = Rows::new(alloc, pieces)?;
    run(alloc, rows, &mut all)
}

#[test]
fn tasks_are_done(rt: HostRuntime) -> Result<(), Fail> {
    for rows in [
        PUT,
        PUT_RECOVERED,
        PUT_REFUSED,
        GET,
        GET_BEHIND,
        KINDS,
        REFUSED,
        FAILED,
    ] {
        for pieces in [1, 7, 100_000] {
            stand(rt.alloc(), rows, pieces)?;
        }
    }
    Ok(())
}

#[test]
fn what_comes_again_changes_nothing(rt: HostRuntime) -> Result<(), Fail> {
    stand(rt.alloc(), GET_AGAIN, 100_000)
}
