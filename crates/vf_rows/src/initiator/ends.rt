//! An initiator, the store's tables in which its task is kept, and the other end.
use crate::initiator::octets::octets_of;
use crate::initiator::requests::request_of;
use crate::initiator::shown::{show_changes, show_doing, show_elements, show_told};
use crate::initiator::tasks::kept_first;
use std::alloc::Global;
use std::test::Fail;
use vf_base::Sequence;
use vf_initiator::{Doing, Initiator, KeptTask, Plan};
use vf_stack::Stack;
use vf_tables::{Changes, Tables};

/// Where so many octets are taken at a time, their answer waits.
const WAITING: usize = 7;

/// The initiator of one connection, and the other end.
#[derive(Drop)]
pub(crate) struct Ends {
    initiator: Initiator,
    peer: Stack,
    /// How many octets the initiator takes at a time.
    pieces: usize,
    doing: Doing,
    changes: Changes,
    /// What the initiator has sent.
    sent: Vec<u8>,
    /// What the other end was told.
    told: String,
}

impl Ends {
    /// A new connection, on which nothing has come yet.
    pub(crate) fn dial(
        alloc: Global,
        plan: Plan,
        kept: Option<&KeptTask>,
        pieces: usize,
    ) -> Result<Ends, Fail> {
        let mut sent = Vec::new(alloc);
        let initiator = Initiator::begin(alloc, plan, kept, &mut sent)?;
        match Stack::called(alloc) {
            Ok(peer) => Ok(Ends {
                initiator,
                peer,
                pieces,
                doing: Doing::Going,
                changes: Sequence::new(alloc),
                sent,
                told: String::new(alloc),
            }),
            Err(error) => Err(Fail::from(error)),
        }
    }

    /// The request for the connection comes to the other end, and its answer back.
    pub(crate) fn connect(&mut self, alloc: Global) -> Result<(), Fail> {
        let answers = self.deliver(alloc)?;
        self.take(alloc, answers.as_slice())?;
        let _answers = self.deliver(alloc)?;
        Ok(())
    }

    /// What the initiator has sent comes to the other end, which answers so.
    fn deliver(&mut self, alloc: Global) -> Result<Vec<u8>, Fail> {
        let mut answers = Vec::new(alloc);
        let mut told = Vec::new(alloc);
        self.peer
            .feed(self.sent.as_slice(), &mut told, &mut answers)?;
        self.sent.clear();
        show_told(alloc, told.as_slice(), &mut self.told)?;
        Ok(answers)
    }

    /// The initiator takes octets.
    fn take(&mut self, alloc: Global, octets: &[u8]) -> Result<(), Fail> {
        for piece in octets.chunks(self.pieces.max(1)) {
            self.doing = if self.pieces == WAITING {
                self.take_waiting(alloc, piece)?
            } else {
                self.initiator
                    .take(alloc, piece, &mut self.changes, &mut self.sent)?
            };
        }
        Ok(())
    }

    /// The same, where the answer may wait, and is spelled a request at a time.
    fn take_waiting(&mut self, alloc: Global, piece: &[u8]) -> Result<Doing, Fail> {
        let doing = self
            .initiator
            .take_waiting(alloc, piece, &mut self.changes, &mut self.sent)?;
        for _ in 0..1000 {
            let most = self.sent.len().saturating_add(1);
            if !self.initiator.say(alloc, most, &mut self.sent)? {
                return Ok(doing);
            }
        }
        Err(Fail::from("the answer is too long"))
    }

    /// What the other end says.
    fn say(&mut self, alloc: Global, word: &str, octets: &mut Vec<u8>) -> Result<(), Fail> {
        let request = request_of(alloc, word)?;
        if !self.peer.may(&request) {
            return Err(Fail::from("the other end may not say this"));
        }
        self.peer.send(alloc, &request, octets)?;
        Ok(())
    }

    /// Octets that come to the initiator: digits, or what the other end says, one or more things with `&` between them.
    fn step(&mut self, alloc: Global, step: &str) -> Result<(), Fail> {
        let mut octets = Vec::new(alloc);
        if let Some(digits) = step.strip_prefix("octets ") {
            octets = octets_of(alloc, digits)?;
        } else {
            for word in step.split(" & ") {
                self.say(alloc, word, &mut octets)?;
            }
        }
        self.take(alloc, octets.as_slice())?;
        self.deliver(alloc)?;
        Ok(())
    }

    /// A step, with what the other end was told of it, the changes in the tables, and how the task stands.
    pub(crate) fn row(
        &mut self,
        alloc: Global,
        step: &str,
        tables: &mut Tables,
        text: &mut String,
    ) -> Result<(), Fail> {
        if step == "elements" {
            return show_elements(alloc, self.initiator.elements().as_slice(), text);
        }
        if !step.is_empty() {
            self.step(alloc, step)?;
        }
        text.push_str(self.told.as_str())?;
        self.told.clear();
        if self.changes.len() > 0 {
            text.push_str(" |")?;
            show_changes(alloc, self.changes.as_slice(), text)?;
        }
        change(alloc, self.changes.as_slice(), tables)?;
        self.changes = Sequence::new(alloc);
        if self.doing != Doing::Going {
            text.push_str(" !")?;
            show_doing(alloc, self.doing, text)?;
        }
        Ok(())
    }

    /// The connection broke.
    pub(crate) fn broke(self) -> Plan {
        self.initiator.broke()
    }
}

/// Makes changes, each of which fits the tables before it, and which leave valid tables.
fn change(alloc: Global, changes: &[vf_tables::Change], tables: &mut Tables) -> Result<(), Fail> {
    match tables.made(alloc, changes)? {
        Some(made) => {
            *tables = made;
            Ok(())
        }
        None => Err(Fail::from("changes that make no tables")),
    }
}

/// Keeps a task with an activity.
pub(crate) fn keep(alloc: Global, plan: &Plan, tables: &mut Tables) -> Result<(), Fail> {
    let changes = kept_first(alloc, plan)?;
    change(alloc, changes.as_slice(), tables)
}
