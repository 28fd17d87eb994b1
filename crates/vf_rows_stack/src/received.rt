//! Octets that come to one end and what it sends, with what they tell and all that is sent.
use crate::end::End;
use crate::octets::show_all;
use crate::shown::put_comma;
use std::alloc::Global;
use std::process::Abort;
use std::test::Fail;

/// An end, the octets that come to it, and the requests that it sends, each after `>`; then what they tell. All octets that
/// the end sent follow `>`; for the calling end its CR, which it sends first.
const ROWS: &str = "
called 0300000B06E00000000100 = > 0300000B06D00001000100
called 0300000B06E00000000100 0300000902F0800100 = Fault Session State 0, ended > 0300000B06D00001000100
called 0300000B06E00000000100 0300000902F0800100 0300000B06E00000000100 = Fault Session State 0, ended > 0300000B06D00001000100
called 0300000B06E00000000100 0300000B06800000000000 = ended > 0300000B06D00001000100
called 03000003 = Fault Transport Length 3, ended
called 0400 = Fault Transport Version 0, ended
called 0300000B06E00000000100 0300000702F000 = Fault Transport Length 15, ended > 0300000B06D00001000100
called 0300000B06E00000000100 0300000802F080FF = Fault Session Code 0, ended > 0300000B06D00001000100
called 0300000B06E00000000100 0300005F02F0800D5614020002C150314EA003800101A247A423300F0201010604520100013004060251013010020103060528C27B02013004060251016120301E020101A0196017A107060528C27B0101BE0C280A020103A005A00380010F = Associate false 0 > 0300000B06D00001000100
called 0300000B06E00000000100 0300005F02F0800D5614020002C150314EA003800101A247A423300F0201010604520100013004060251013010020103060528C27B02013004060251016120301E020101A0196017A107060528C27B0101BE0C280A020103A005A00380010F 0300000C02F0801903110105 = Associate false 0, Abort, ended > 0300000B06D00001000100
called 0300000B06E00000000100 0300005F02F0800D5614020002C150314EA003800101A247A423300F0201010604520100013004060251013010020103060528C27B02013004060251016120301E020101A0196017A107060528C27B0101BE0C280A020103A005A603800161 = Fault Ftam Unknown 0, ended > 0300000B06D00001000100
called 0300000B06E00000000100 0300005E02F0800D5514020002C14F314EA003800101A247A423300F0201010604520100013004060251013010020103060528C27B02013004060251016120301E020101A0196017A107060528C27B0101BE0C280A020103A005A0038001 = Fault Upper Grammar 79, ended > 0300000B06D00001000100
called 0300000B06E00000000100 0300000C02F0801903110105 = Abort, ended > 0300000B06D00001000100
calling 0300000B06D00001000100 = > 0300000B06E00000000100
calling 0300000B06E00000000100 = Fault Transport State 4, ended > 0300000B06E00000000100
called 0300000B06E00000000100 0300000902F0800100 >Abort >Abort = Fault Session State 0, no, ended > 0300000B06D000010001000300000C02F0801903110105
called 0300000B06E00000000100 0300005F02F0800D5614020002C150314EA003800101A247A423300F0201010604520100013004060251013010020103060528C27B02013004060251016120301E020101A0196017A107060528C27B0101BE0C280A020103A005A00380010F >Abort:A503800165 >Abort = Associate false 0, no, ended > 0300000B06D000010001000300000C02F0801903110105
called 0300000B06E00000000100 0300005F02F0800D5614020002C150314EA003800101A247A423300F0201010604520100013004060251013010020103060528C27B02013004060251016120301E020101A0196017A107060528C27B0101BE0C280A020103A005A00380010F >Accept-:A10381010F 0300001902F08001000100610C300A020103A005A603800161 >Item:A705A00380010B = Associate false 0, Item 6 > 0300000B06D000010001000300006202F0800E59050613010016010214020002C14B3149A003800101A242A512300780010081025101300780010081025101612C302A020101A0256123A107060528C27B0101A203020100A305A103020100BE0C280A020103A005A10381010F0300001B02F08001000100610E300C020103A007A705A00380010B
";

/// What an end was told, whether it is ended, and what it has sent.
fn shown(alloc: Global, end: &End) -> Result<String, Fail> {
    let mut text = String::from_str(alloc, end.told.as_str())?;
    if end.stack.ended() {
        put_comma(&mut text)?;
        text.push_str("ended")?;
    }
    if !end.sent.is_empty() {
        text.push_str(" > ")?;
        show_all(alloc, end.sent.as_slice(), &mut text)?;
    }
    Ok(text)
}

/// The same after steps of the end, whose octets come so many at a time.
fn shown_after(alloc: Global, end: &mut End, steps: &str, pieces: usize) -> Result<String, Fail> {
    let mut parts = steps.split('>');
    end.hear(alloc, parts.next().unwrap_or(""), pieces)?;
    for part in parts {
        end.step(alloc, part, pieces)?;
    }
    shown(alloc, end)
}

/// The same for the end that a row names.
fn answer(alloc: Global, name: &str, steps: &str, pieces: usize) -> Result<String, Fail> {
    let mut end = End::new(alloc, name)?;
    shown_after(alloc, &mut end, steps, pieces)
}

/// A row holds, its octets so many at a time.
fn assert_row(rt: &impl Abort, alloc: Global, given: &str, expected: &str) -> Result<(), Fail> {
    let (name, steps) = given.split_once(' ').unwrap_or((given, ""));
    for pieces in [1, 5, 1000] {
        let found = answer(alloc, name, steps, pieces)?;
        assert_eq!(rt; found.as_str().trim(), expected.trim(), "{given}");
    }
    Ok(())
}

#[test]
fn octets_are_received(rt: HostRuntime) -> Result<(), Fail> {
    let mut count = 0_u32;
    for row in ROWS.lines() {
        if let Some((given, expected)) = row.split_once(" =") {
            assert_row(&rt, rt.alloc(), given, expected)?;
            count = count.saturating_add(1);
        }
    }
    assert_eq!(rt; count, 18);
    Ok(())
}
