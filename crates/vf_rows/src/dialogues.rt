//! What `dialogue` prints.
use crate::call::{Printed, call};
use crate::rows::{Row, lines_of, row_of};
use crate::sips::sipped;
use std::alloc::Global;
use std::test::Fail;
use vf_base::{NoMemory, SliceSource};

/// Dialogues from their beginning.
const ROWS: &str = "
0 =
0 A00380010F/A603800161/AA0C810161A207800528C27B0503/A800/A603800161/A800/A200/ = A10381010F/A705A00380010B/AB00/A900/A700/A900/A300/
# A file of this name is there, and the party goes on.
0 A00380010F/AA0C810161A207800528C27B0503/A800/AA0C810161A207800528C27B0503/A603800161/ = A10381010F/AB00/A900/AB05A00380010C/A700/
# Files are told apart by their names.
0 A00380010F/AA0C810161A207800528C27B0503/A800/AA0C810162A207800528C27B0503/A800/A603800163/A603800162/ = A10381010F/AB00/A900/AB00/A900/A705A00380010B/A700/
# Any spelling of a request; a value that is no request; octets that no value begins with, at the octet that shows it; a message that isn't whole is nothing.
0 A0808001/0F0000/ = A10381010F/
7 A00380010F/B400/ = A10381010F/A503800166/
7 A00380010F/A60380FF61/ = A10381010F/A506800165810103/
0 A080/ =
0 A0/ =
0 A00380010F/A60380/ = A10381010F/
# Values of the grammar that are no message: of a form, out of range, in another order, twice, absent, of a tag that no message has.
7 A0048002000F/ = A503800165/
7 A00680010F830100/ = A506800165810103/
7 A00683010180010F/ = A506800165810101/
7 A00680010F80010F/ = A506800165810101/
7 A000/ = A503800165/
7 A00380010F/AA00/ = A10381010F/A506800165810101/
7 9F2900/ = A503800165/
7 BF2900/ = A503800165/
7 A00380010F/240404000200/ = A10381010F/A506800165810101/
# Other functional units, and another window.
0 A003800107/A200/ = A103810107/A300/
0 A00680010F830102/A200/ = A10681010F820102/A300/
# Restart and recovery need a session, of which there is none here.
0 A005800300FFFF/A200/ = A10381013F/A300/
# A text file is created, and nothing is deleted that wasn't requested so.
0 A00380010F/AA0C810162A207800528C27B0501/ = A10381010F/AB00/
0 A00380010F/AA0F810161A207800528C27B0503850105/AC00/A800/ = A10381010F/AB00/AD05A00380010D/A900/
# A file that is deleted is gone.
0 A00380010F/AA10810161A207800528C27B050385020080/AC00/A603800161/ = A10381010F/AB00/AD00/A705A00380010B/
# A default that is spelled out is none.
0 A00680010F830101/A200/ = A10381010F/A300/
0 A00380010F/A606800161810100/ = A10381010F/A705A00380010B/
0 A00380010F/AA0F810161A20A800528C27B0503810119/ = A10381010F/AB00/
# Messages that their stage doesn't take.
7 A200/ = A503800166/
7 A00380010F/160161/ = A10381010F/A503800166/
7 A00380010F/AC00/ = A10381010F/A503800166/
7 A00380010F/B603800101/ = A10381010F/A503800166/
7 A400/ = A503800166/
7 A300/ = A503800166/
7 040100/ = A503800166/
7 A00380010F/A00380010F/ = A10381010F/A503800166/
7 A00380010F/A300/ = A10381010F/A503800166/
7 A00380010F/A800/ = A10381010F/A503800166/
7 A00380010F/AA0C810161A207800528C27B0503/A200/ = A10381010F/AB00/A503800166/
# An abort that is heard has no answer, and the party is gone.
11 A00380010F/A400/A200/x/ = A10381010F/bad line 4/
0 A00380010F/A503800165/A200/ = A10381010F/
# Bad lines, and what was answered before them.
11 / = bad line 1/
11 0/ = bad line 1/
11 A00/ = bad line 1/
11 A0\r/ = bad line 1/
11 0aFF/ = bad line 1/
11 FG/ = bad line 1/
11 0 0A/ = bad line 1/
11 A0038001/a2/A2/ = bad line 2/
11 A0/03/A6 = bad line 3/
11 A00380010F/a2/ = A10381010F/bad line 2/
11 A00380010F/A2 00/ = A10381010F/bad line 2/
11 A00380010F//A200/ = A10381010F/bad line 2/
11 A00380010F/A200F/ = A10381010F/bad line 2/
11 A00380010F/A200 = A10381010F/bad line 2/
# After an abort nothing is read; after a terminate lines are looked at for their form alone.
7 A00380010F/B400/a2/ = A10381010F/A503800166/
0 A00380010F/A200A00380010F/B400/ = A10381010F/A300/
11 A00380010F/A200/A000/x/ = A10381010F/A300/bad line 4/
";

/// Whether this was printed, with the row's status.
fn is_printed(found: &Printed, row: Row<'_>, printed: &[u8]) -> bool {
    found.status == row.status && found.octets() == printed
}

/// Whether a row holds where its octets come so many at once, or as many as are asked for.
fn holds(alloc: Global, row: Row<'_>) -> Result<bool, NoMemory> {
    let sent = lines_of(alloc, row.sent)?;
    let printed = lines_of(alloc, row.printed)?;
    for most in [1, 2, 3, 64, usize::MAX] {
        let found = sipped(alloc, sent.as_slice(), most)?;
        if !is_printed(&found, row, printed.as_slice()) {
            return Ok(false);
        }
    }
    Ok(true)
}

#[test]
fn lines_in_and_out(rt: HostRuntime) -> Result<(), Fail> {
    let mut count = 0_u32;
    for line in ROWS.lines() {
        if let Some(row) = row_of(line) {
            assert!(rt; holds(rt.alloc(), row)?, "{line}");
            count = count.saturating_add(1);
        }
    }
    assert_eq!(rt; count, 58);
    Ok(())
}

/// A dialogue in one line, and what is printed of it.
const DIGITS: &str = "A00380010FA603800161AA0C810161A207800528C27B0503A800A603800161A800A200";

const REPLIES: &str = "A10381010F\nA705A00380010B\nAB00\nA900\nA700\nA900\nA300\n";

/// The dialogue with all octets before the cut in one line, and each other one in a line of its own.
fn cut_at(alloc: Global, cut: usize) -> Result<Vec<u8>, NoMemory> {
    let mut text = Vec::new(alloc);
    for (place, digit) in DIGITS.as_bytes().iter().enumerate() {
        if place > 0 && place % 2 == 0 && place / 2 >= cut {
            text.push(b'\n')?;
        }
        text.push(*digit)?;
    }
    text.push(b'\n')?;
    Ok(text)
}

#[test]
fn messages_cut_anywhere(rt: HostRuntime) -> Result<(), NoMemory> {
    for cut in 0..=DIGITS.len() / 2 {
        let text = cut_at(rt.alloc(), cut)?;
        let mut input = SliceSource::new(text.as_slice(), Vec::new(rt.alloc()));
        let found = call(rt.alloc(), "dialogue", &mut input, Vec::new(rt.alloc()))?;
        assert!(rt; found.status == 0, "{cut}");
        assert!(rt; found.octets() == REPLIES.as_bytes(), "{cut}");
    }
    Ok(())
}
