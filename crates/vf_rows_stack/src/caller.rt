//! A calling end that a script keeps on its link, and the called end that it talks with: the lines of what it hears.
use crate::end::End;
use crate::octets::octets_of;
use crate::rows::{Rows, put_rows};
use std::alloc::Global;
use std::process::Abort;
use std::test::Fail;
use vf_base::Sequence;
use vf_ber::read;
use vf_cli_calling::{Caller, append_octets, append_shut};
use vf_elements::{Message, message_of};

/// A file written with checks: what the calling end says (`>`) with what the called one is told, and what that one says (`<`) with
/// the lines. The check of serial number 1 is the first of its transfer, and after a restart that of number 2 the first of the next.
const WRITE: &str = "
> said A007800200CF830104 = Associate true 0
< Accept+:A107810200CF820104 = reply 7 A107810200CF820104;
> said AA0F800101810161A207800528C27B0503 B206800104830107 = Item 10, Item 18
> said A107810200CF820104 = 
> said BF2103800102 04027631 = Item 33, String 4 7631
> check = Check 1
< Acknowledge1 = ack 7 1;
> check = Check 2
> restart 1 = Restart 2 39
< Restarted2:BF2803800101 = reply 7 BF2803800101;
> said BF2200 BF2300 = Item 34, Item 35
< Item:BF2400 = reply 7 BF2400;
> said BF2103800102 = Item 33
> check = Check 2
< Acknowledge2 = ack 7 1;
> pass = 
> check = 
";

/// A file read with a check.
const READ: &str = "
> said A007800200CF830104 = Associate true 0
< Accept+:A107810200CF820104 = reply 7 A107810200CF820104;
> said BF2000 = Item 32
> pass = 
< Item:04026869 & Check1 & Item:04027070 = reply 7 04026869;check 7 1;reply 7 04027070;
> ack 2 = 
> ack 1 = Acknowledged 1
";

/// A write that goes on after its first check: the next one is its second.
const RECOVERED: &str = "
> said A007800200CF830104 = Associate true 0
< Accept+:A107810200CF820104 = reply 7 A107810200CF820104;
> said BA09800107810103820101 = Item 26
< Item:BB098101038201018301FF = reply 7 BB098101038201018301FF;
> check = Check 1
< Acknowledge1 = ack 7 2;
> ack 2 = 
";

/// Both ends, and the lines of what the calling one hears.
#[derive(Drop)]
struct Conversation {
    caller: Caller,
    called: End,
    /// How many octets come at a time.
    pieces: usize,
    lines: Vec<u8>,
    /// The rows so far.
    text: String,
}

/// The messages of words of digits.
fn messages_of(alloc: Global, words: &str) -> Result<Vec<Message>, Fail> {
    let mut messages = Vec::new(alloc);
    for word in words.split_whitespace() {
        let octets = octets_of(alloc, word)?;
        let (value, _) = read(alloc, octets.as_slice())?;
        messages.push(message_of(alloc, &value)?)?;
    }
    Ok(messages)
}

/// What the calling end says by its words.
fn say(alloc: Global, caller: &mut Caller, words: &str, octets: &mut Vec<u8>) -> Result<(), Fail> {
    let (word, rest) = words.split_once(' ').unwrap_or((words, ""));
    match word {
        "said" => {
            let messages = messages_of(alloc, rest)?;
            caller.say_all(alloc, messages.as_slice(), octets)?;
        }
        "check" => caller.check(alloc, octets)?,
        "ack" => caller.acknowledge(alloc, rest.parse::<u32>()?, octets)?,
        "restart" => caller.restart(alloc, rest.parse::<u32>()?, octets)?,
        "pass" => caller.pass(alloc, octets)?,
        _ => return Err(Fail::new("a calling end says nothing so")),
    }
    Ok(())
}

/// A called end to which these octets came.
fn called_with(alloc: Global, octets: &[u8], pieces: usize) -> Result<End, Fail> {
    let mut called = End::new(alloc, "called")?;
    called.take(alloc, octets, pieces)?;
    Ok(called)
}

impl Conversation {
    /// The called end has the CR, and its CC isn't heard yet.
    fn begin(alloc: Global, pieces: usize) -> Result<Conversation, Fail> {
        let mut octets = Vec::new(alloc);
        let caller = Caller::new(alloc, true, &mut octets)?;
        let called = called_with(alloc, octets.as_slice(), pieces)?;
        Ok(Conversation {
            caller,
            called,
            pieces,
            lines: Vec::new(alloc),
            text: String::new(alloc),
        })
    }

    /// What the called end has sent is heard.
    fn hear(&mut self, alloc: Global) -> Result<(), Fail> {
        for piece in self.called.sent.chunks(self.pieces.max(1)) {
            self.caller.hear(alloc, 7, piece, &mut self.lines)?;
        }
        self.called.sent.clear();
        Ok(())
    }

    fn take(&mut self, alloc: Global, row: &str) -> Result<(), Fail> {
        if let Some(words) = row.strip_prefix("> ") {
            let mut octets = Vec::new(alloc);
            say(alloc, &mut self.caller, words, &mut octets)?;
            return self.called.take(alloc, octets.as_slice(), self.pieces);
        }
        if let Some(words) = row.strip_prefix("< ") {
            for word in words.split(" & ") {
                self.called.say(alloc, word)?;
            }
        }
        self.hear(alloc)
    }

    /// Appends the words of a row with what they tell.
    fn put_words(&mut self, alloc: Global, words: &str) -> Result<(), Fail> {
        self.take(alloc, words)?;
        self.text.push_str(format!(in alloc; "{words} = {}", self.called.told)?.as_str())?;
        for octet in &self.lines {
            self.text.push(if *octet == b'\n' {
                ';'
            } else {
                char::from(*octet)
            })?;
        }
        self.text.push('\n')?;
        self.called.told.clear();
        self.lines.clear();
        Ok(())
    }
}

impl Rows for Conversation {
    fn put_row(&mut self, alloc: Global, row: &str) -> Result<(), Fail> {
        match row.split_once(" = ") {
            Some((words, _)) => self.put_words(alloc, words),
            None => Ok(()),
        }
    }
}

/// Rows tell what stands in them, once the CC is heard.
fn go_on(rt: &impl Abort, alloc: Global, talk: &mut Conversation, rows: &str) -> Result<(), Fail> {
    talk.text.push('\n')?;
    talk.hear(alloc)?;
    put_rows(alloc, talk, rows)?;
    assert_eq!(rt;
        talk.text.as_str(),
        rows,
        "{} octets at a time",
        talk.pieces
    );
    Ok(())
}

/// The same of a new conversation, which is lent, so that there is one way on which it is dropped.
fn assert_rows(rt: &impl Abort, alloc: Global, rows: &str, pieces: usize) -> Result<(), Fail> {
    let mut talk = Conversation::begin(alloc, pieces)?;
    go_on(rt, alloc, &mut talk, rows)
}

#[test]
fn calling_ends_say_and_hear(rt: HostRuntime) -> Result<(), Fail> {
    for rows in [WRITE, READ, RECOVERED] {
        for pieces in [1, 7, 100_000] {
            assert_rows(&rt, rt.alloc(), rows, pieces)?;
        }
    }
    Ok(())
}

#[test]
fn links_have_lines(rt: HostRuntime) -> Result<(), Fail> {
    let mut text = Vec::new(rt.alloc());
    append_octets(rt.alloc(), 12, &[0, 171], &mut text)?;
    append_octets(rt.alloc(), 12, &[], &mut text)?;
    append_shut(rt.alloc(), 12, &mut text)?;
    assert_eq!(rt; text.as_slice(), b"octets 12 00AB\nshut 12\n".as_slice());
    Ok(())
}
