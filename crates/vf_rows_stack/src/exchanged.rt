//! Two ends that send each other the messages of a dialogue: what each tells, in whatever pieces the packets come.
use crate::end::End;
use crate::rows::{Rows, put_rows};
use std::alloc::Global;
use std::process::Abort;
use std::test::Fail;

/// A write with checks, acknowledgements and a restart: requests of the calling end (`>`) and of the called one (`<`), and
/// what each tells the other.
const WRITE: &str = "
> Associate+:A007800200CF830104 = Associate true 0
< Accept+:A107810200CF820104 = Accepted true 1
> Item:AA0F800101810161A207800528C27B0503 = Item 10
< Item:AB00 = Item 11
> Item:B206800104830107 = Item 18
< Item:B309A107800528C27B0503 = Item 19
> Item:BF2103800102 = Item 33
> Item:04027631 = String 4 7631
> Item:04027632 = String 4 7632
> Check1 = Check 1
< Acknowledge1 = Acknowledged 1
> Item:04027633 = String 4 7633
> Item:04027634 = String 4 7634
> Check2 = Check 2
> Item:04027635 = String 4 7635
> Restart2:BF2703800101 = Restart 2 39
< Restarted2:BF2803800101 = Restarted 2 40
> Item:04027733 = String 4 7733
> Check2 = Check 2
< Acknowledge2 = Acknowledged 2
> Item:BF2200 = Item 34
> Item:BF2300 = Item 35
< Item:BF2400 = Item 36
> Item:B400 = Item 20
< Item:B500 = Item 21
> Item:A800 = Item 8
< Item:A900 = Item 9
> Release:A200 = Release 2
< Released:A300 = Released 3
";

/// A file replaced and read, without sync.
const READ: &str = "
> Associate-:A00380010F = Associate false 0
< Accept-:A10381010F = Accepted false 1
> Item:AA0F810161A207800528C27B0503850105 = Item 10
< Item:AB00 = Item 11
> Item:B203800105 = Item 18
< Item:B309A107800528C27B0503 = Item 19
> Item:BF2103800102 = Item 33
> Item:04026869 = String 4 6869
> Item:BF2200 = Item 34
> Item:BF2300 = Item 35
< Item:BF2400 = Item 36
> Item:BF2000 = Item 32
< Item:04026869 = String 4 6869
< Item:BF2200 = Item 34
> Item:BF2300 = Item 35
< Item:BF2400 = Item 36
> Cancel:BF2500 = Item 37
< Cancelled:BF2600 = Item 38
> Item:B400 = Item 20
< Item:B500 = Item 21
> Abort:A403800107 = Abort 4
";

/// The two ends of an association, how many octets each takes at a time, and the rows with what they tell.
#[derive(Drop)]
struct Ends {
    calling: End,
    called: End,
    pieces: usize,
    /// The rows so far.
    text: String,
}

/// One end takes what the other has sent.
fn deliver(alloc: Global, from: &mut End, to: &mut End, pieces: usize) -> Result<(), Fail> {
    to.take(alloc, from.sent.as_slice(), pieces)?;
    from.sent.clear();
    Ok(())
}

/// One end sends a request, and the other one takes its packets.
fn tell(
    alloc: Global,
    from: &mut End,
    to: &mut End,
    request: &str,
    pieces: usize,
) -> Result<(), Fail> {
    from.say(alloc, request)?;
    deliver(alloc, from, to, pieces)
}

impl Ends {
    fn new(alloc: Global, name: &str, pieces: usize) -> Result<Ends, Fail> {
        let calling = End::new(alloc, name)?;
        let called = End::new(alloc, "called")?;
        Ok(Ends {
            calling,
            called,
            pieces,
            text: String::new(alloc),
        })
    }

    /// The CR and its CC.
    fn connect(&mut self, alloc: Global) -> Result<(), Fail> {
        deliver(alloc, &mut self.calling, &mut self.called, self.pieces)?;
        deliver(alloc, &mut self.called, &mut self.calling, self.pieces)
    }

    /// The request of a row.
    fn take(&mut self, alloc: Global, row: &str) -> Result<(), Fail> {
        if let Some(request) = row.strip_prefix("> ") {
            return tell(
                alloc,
                &mut self.calling,
                &mut self.called,
                request,
                self.pieces,
            );
        }
        if let Some(request) = row.strip_prefix("< ") {
            return tell(
                alloc,
                &mut self.called,
                &mut self.calling,
                request,
                self.pieces,
            );
        }
        Ok(())
    }

    /// Appends the request of a row with what it tells both ends.
    fn put_request(&mut self, alloc: Global, request: &str) -> Result<(), Fail> {
        self.take(alloc, request)?;
        let (calling, called) = (self.calling.told.as_str(), self.called.told.as_str());
        let row = format!(in alloc; "{request} = {calling}{called}\n")?;
        self.text.push_str(row.as_str())?;
        self.calling.told.clear();
        self.called.told.clear();
        Ok(())
    }
}

impl Rows for Ends {
    fn put_row(&mut self, alloc: Global, row: &str) -> Result<(), Fail> {
        match row.split_once(" = ") {
            Some((request, _)) => self.put_request(alloc, request),
            None => Ok(()),
        }
    }
}

/// Rows tell what stands in them, once the ends are connected.
fn go_on(rt: &impl Abort, alloc: Global, ends: &mut Ends, rows: &str) -> Result<(), Fail> {
    ends.text.push('\n')?;
    ends.connect(alloc)?;
    put_rows(alloc, ends, rows)?;
    assert_eq!(rt;
        ends.text.as_str(),
        rows,
        "{} octets at a time",
        ends.pieces
    );
    Ok(())
}

/// The same of new ends, of which the calling one has this name. They are lent, so that there is one way on which they are dropped.
fn assert_rows(
    rt: &impl Abort,
    alloc: Global,
    name: &str,
    rows: &str,
    pieces: usize,
) -> Result<(), Fail> {
    let mut ends = Ends::new(alloc, name, pieces)?;
    go_on(rt, alloc, &mut ends, rows)
}

#[test]
fn a_write_and_a_read_are_told(rt: HostRuntime) -> Result<(), Fail> {
    for (name, rows) in [("sync", WRITE), ("plain", READ)] {
        for pieces in [1, 7, 64, 100_000] {
            assert_rows(&rt, rt.alloc(), name, rows, pieces)?;
        }
    }
    Ok(())
}
