//! The links of an incarnation of the responder: what comes on them, and what is heard.
ghost use Rattle.std.specs.Option.{option_map};
ghost use Rattle.std.specs.Prelude.{◌≡◌, ◌∷◌, [], IfOk};
ghost use Rattle.vf_base.specs.declared.events.ScriptEvent.TheVariants as script;
ghost use Rattle.vf_cli_replay.specs.Running.{Begins, Comes, Running, Speaks, arrival_of, events_by, events_of, moment_of};
ghost use Rattle.vf_cli_replay.specs.Standing.{HasCome, HasHappened, HasSpoken, Stands};

use crate::halt::{Halt, halt_of};
use crate::hearing::{hear_all, put};
use crate::saying::say;
use indexmap::IndexMap;
use std::alloc::Global;
use vf_base::{Moment, NoMemory};
use vf_cli_calling::Caller;
use vf_cli_script::{Act, LinkKind, LinkLine};
use vf_disk::MemoryDisk;
use vf_responder::{Event, Responder};

/// The links of an incarnation.
pub(crate) struct Links {
    pub(crate) responder: Responder<MemoryDisk>,
    /// The calling ends, by their links.
    pub(crate) callers: IndexMap<u32, Caller>,
}

impl Drop for Links {
    fn drop(self) {
        let Links { responder, callers } = self;
        drop(responder);
        drop(callers);
    }
}

/// The first moment.
fn first_moment() -> Moment
    ensures { result ≡ 0 }
{
    let Ok(moment) = Moment::of(0) else {
        unreachable!()
    };
    moment
}

impl Links {
    /// What the lines tell happens, one after another; says whether the incarnation ends by one of them.
    pub(crate) fn happen_all(
        &mut self,
        alloc: Global,
        lines: &[LinkLine],
        text: &mut Vec<u8>,
    ) -> Result<Option<Halt>, NoMemory>
        ensures { (running : Running) → Stands self.old running
            → IfOk result (HasHappened running (events_of lines.now) text.old.items self.old.responder.store self.new text.new.items) }
    {
        for line in lines {
            let halted = self.happens(alloc, line, text)?;
            if let Some(halt) = halted {
                return Ok(Some(halt));
            }
        }
        Ok(None)
    }

    /// The disk of the responder, as it is then.
    pub(crate) fn close(self) -> MemoryDisk
        ensures { result ≡ self.responder.store.disk }
    {
        let Links {
            responder,
            callers: _,
        } = self;
        responder.close()
    }

    /// Something happens on a link; says whether the incarnation ends by it.
    fn happens(
        &mut self,
        alloc: Global,
        line: &LinkLine,
        text: &mut Vec<u8>,
    ) -> Result<Option<Halt>, NoMemory>
        ensures happens { (running : Running) → Stands self.old running
            → IfOk result (HasHappened running (events_by line.now.link line.now.act) text.old.items self.old.responder.store self.new text.new.items) }
        ensures limit { self.new.responder.store.journal.limit ≡ self.old.responder.store.journal.limit }
    {
        let link = line.link;
        match &line.act {
            Act::Arrive(kind) => self.arrive(alloc, link, *kind, text),
            Act::Octets { moment, octets } => {
                self.come(alloc, link, *moment, octets.as_slice(), text)
            }
            Act::End => self.end(alloc, link, text),
            Act::Said { moment, .. } => self.says(alloc, link, *moment, &line.act, text),
            Act::Check { moment } => self.says(alloc, link, *moment, &line.act, text),
            Act::Acknowledge { moment, .. } => self.says(alloc, link, *moment, &line.act, text),
            Act::Restart { moment, .. } => self.says(alloc, link, *moment, &line.act, text),
            Act::Pass { moment } => self.says(alloc, link, *moment, &line.act, text),
        }
    }

    /// A link arrives.
    fn arrive(
        &mut self,
        alloc: Global,
        link: u32,
        kind: LinkKind,
        text: &mut Vec<u8>,
    ) -> Result<Option<Halt>, NoMemory>
        ensures happens { (running : Running) → Stands self.old running
            → IfOk result (HasHappened running (arrival_of link kind) text.old.items self.old.responder.store self.new text.new.items) }
        ensures limit { self.new.responder.store.journal.limit ≡ self.old.responder.store.journal.limit }
    {
        match kind {
            LinkKind::Raw => self.arrived(alloc, link, text),
            LinkKind::Plain => self.call(alloc, link, false, text),
            LinkKind::Sync => self.call(alloc, link, true, text),
        }
    }

    /// A link arrives with a calling end.
    fn call(
        &mut self,
        alloc: Global,
        link: u32,
        sync: bool,
        text: &mut Vec<u8>,
    ) -> Result<Option<Halt>, NoMemory>
        ensures happens { (running : Running) → Stands self.old running
            → IfOk result (HasHappened running (Comes (script.Arrived link) ∷ Begins link sync ∷ []) text.old.items self.old.responder.store self.new text.new.items) }
        ensures limit { self.new.responder.store.journal.limit ≡ self.old.responder.store.journal.limit }
    {
        let halted = self.arrived(alloc, link, text)?;
        match halted {
            None => self.begin(alloc, link, sync, text),
            Some(halt) => Ok(Some(halt)),
        }
    }

    /// The first octets of a calling end come, at moment 0.
    fn begin(
        &mut self,
        alloc: Global,
        link: u32,
        sync: bool,
        text: &mut Vec<u8>,
    ) -> Result<Option<Halt>, NoMemory>
        ensures happens { (running : Running) → Stands self.old running
            → IfOk result (HasHappened running (Begins link sync ∷ []) text.old.items self.old.responder.store self.new text.new.items) }
        ensures limit { self.new.responder.store.journal.limit ≡ self.old.responder.store.journal.limit }
    {
        let mut octets = Vec::new(alloc);
        let caller = Caller::new(alloc, sync, &mut octets)?;
        put(&mut self.callers, link, caller)?;
        self.come(alloc, link, first_moment(), octets.as_slice(), text)
    }

    /// The calling end of a link says something, where there is one.
    fn says(
        &mut self,
        alloc: Global,
        link: u32,
        moment: Moment,
        act: &Act,
        text: &mut Vec<u8>,
    ) -> Result<Option<Halt>, NoMemory>
        ensures happens { (running : Running) → Stands self.old running → moment ≡ moment_of act.now
            → IfOk result (HasHappened running (Speaks link act.now ∷ []) text.old.items self.old.responder.store self.new text.new.items) }
        ensures limit { self.new.responder.store.journal.limit ≡ self.old.responder.store.journal.limit }
    {
        let spoken = self.speak(alloc, link, act)?;
        let Some(octets) = spoken else {
            return Ok(None);
        };
        self.come(alloc, link, moment, octets.as_slice(), text)
    }

    /// The octets of what the calling end of a link says, where there is one.
    fn speak(&mut self, alloc: Global, link: u32, act: &Act) -> Result<Option<Vec<u8>>, NoMemory>
        ensures spoken { (running : Running) → Stands self.old running → IfOk result (λ octets. HasSpoken running link act.now (option_map (λ octets. octets.items) octets) self.new) }
        ensures responder { self.new.responder ≡ self.old.responder }
    {
        let Some(caller) = self.callers.swap_remove(&link) else {
            return Ok(None);
        };
        let mut caller = caller;
        let mut octets = Vec::new(alloc);
        say(alloc, &mut caller, act, &mut octets)?;
        put(&mut self.callers, link, caller)?;
        Ok(Some(octets))
    }

    /// A link arrives at the responder, and what that says is heard.
    fn arrived(
        &mut self,
        alloc: Global,
        link: u32,
        text: &mut Vec<u8>,
    ) -> Result<Option<Halt>, NoMemory>
        ensures comes { (running : Running) → Stands self.old running
            → IfOk result (HasCome running (script.Arrived link) text.old.items self.old.responder.store self.new text.new.items) }
        ensures limit { self.new.responder.store.journal.limit ≡ self.old.responder.store.journal.limit }
    {
        let mut replies = Vec::new(alloc);
        // The checker looks for the type of the moments in an event among those of the function.
        let _moment = first_moment();
        match self
            .responder
            .deliver(alloc, Event::Arrived { link }, &mut replies)
        {
            Ok(()) => {
                hear_all(alloc, &mut self.callers, replies.as_slice(), text)?;
                Ok(None)
            }
            Err(error) => {
                let halt = halt_of(error)?;
                Ok(Some(halt))
            }
        }
    }

    /// Octets come to the responder on a link.
    fn come(
        &mut self,
        alloc: Global,
        link: u32,
        moment: Moment,
        octets: &[u8],
        text: &mut Vec<u8>,
    ) -> Result<Option<Halt>, NoMemory>
        ensures comes { (running : Running) → Stands self.old running
            → IfOk result (HasCome running (script.Octets link moment octets.now) text.old.items self.old.responder.store self.new text.new.items) }
        ensures limit { self.new.responder.store.journal.limit ≡ self.old.responder.store.journal.limit }
    {
        let mut replies = Vec::new(alloc);
        let event = Event::Octets {
            link,
            moment,
            octets,
        };
        match self.responder.deliver(alloc, event, &mut replies) {
            Ok(()) => {
                hear_all(alloc, &mut self.callers, replies.as_slice(), text)?;
                Ok(None)
            }
            Err(error) => {
                let halt = halt_of(error)?;
                Ok(Some(halt))
            }
        }
    }

    /// A link has ended.
    fn end(
        &mut self,
        alloc: Global,
        link: u32,
        text: &mut Vec<u8>,
    ) -> Result<Option<Halt>, NoMemory>
        ensures comes { (running : Running) → Stands self.old running
            → IfOk result (HasCome running (script.Ended link) text.old.items self.old.responder.store self.new text.new.items) }
        ensures limit { self.new.responder.store.journal.limit ≡ self.old.responder.store.journal.limit }
    {
        let mut replies = Vec::new(alloc);
        // The checker looks for the type of the moments in an event among those of the function.
        let _moment = first_moment();
        match self
            .responder
            .deliver(alloc, Event::Ended { link }, &mut replies)
        {
            Ok(()) => {
                hear_all(alloc, &mut self.callers, replies.as_slice(), text)?;
                Ok(None)
            }
            Err(error) => {
                let halt = halt_of(error)?;
                Ok(Some(halt))
            }
        }
    }
}
