//! What a responder keeps: links arrive and end.
ghost use Rattle.std.specs.Map.{lookup};
ghost use Rattle.std.specs.Prelude.{◌≡◌, ◌≤◌, ◌++◌, ◌+◌, ◌∷◌, [], List, None, OnErr, OnOk, length, nat_eq};
ghost use Rattle.vf_base.specs.declared.events.ScriptEvent.TheVariants as script;
ghost use Rattle.vf_responder.specs.Represents.{Does, kept_of};
ghost use Rattle.vf_responder.specs.Run.{trail};
ghost use Rattle.vf_responder.specs.declared.event.Reply.{Reply as ReplyMeant};

use crate::event::Reply;
use crate::link::Link;
use crate::replies::speak;
use crate::spoken::Spoken;
use indexmap::IndexMap;
use std::alloc::Global;
use vf_base::NoMemory;
use vf_disk::Disk;
use vf_locks::Locks;
use vf_store::Store;

/// So many links stand at most.
const MOST_LINKS: usize = 64;

/// What a responder keeps.
#[derive(Drop)]
pub(crate) struct Keeping<D: Disk> {
    pub(crate) store: Store<D>,
    pub(crate) locks: Locks,
    /// Those that stand, by their numbers. The one whose octets are heard is taken out meanwhile.
    pub(crate) links: IndexMap<u32, Link>,
}

/// Puts a link after those that stand, of which none has its number.
pub(crate) fn put(links: &mut IndexMap<u32, Link>, link: Link) -> Result<(), NoMemory>
    ensures entries { OnOk result (lookup (nat_eq link.number) links.old.entries ≡ None → links.new.entries ≡ links.old.entries ++ (link.number, link) ∷ []) }
    ensures length { OnOk result (length links.new.entries ≤ length links.old.entries + 1) }
    ensures err { OnErr result (length links.new.entries ≤ length links.old.entries) }
{
    let before = links.insert(link.number, link)?;
    drop(before);
    Ok(())
}

impl<D: Disk> Keeping<D> {
    /// A link arrives; it is shut at once where 64 stand.
    pub(crate) fn arrive(
        &mut self,
        alloc: Global,
        number: u32,
        replies: &mut Vec<Reply>,
    ) -> Result<(), NoMemory>
        ensures answers { OnOk result (Does (trail (script.Arrived number)) (kept_of self.old) replies.old.items (kept_of self.new) replies.new.items) }
        ensures store { self.new.store ≡ self.old.store }
        ensures bound { length self.old.links.entries ≤ 64 → length self.new.links.entries ≤ 64 }
        ensures err { OnErr result (replies.new.items ≡ replies.old.items) }
    {
        if self.links.contains_key(&number) {
            return Ok(());
        }
        if self.links.len() >= MOST_LINKS {
            speak(number, Spoken::new(alloc), true, replies)?;
            return Ok(());
        }
        let link = Link::arrived(alloc, number)?;
        put(&mut self.links, link)?;
        Ok(())
    }

    /// A link has ended; its party is gone.
    pub(crate) fn end(&mut self, number: u32)
        ensures answers { (replies : List ReplyMeant) → Does (trail (script.Ended number)) (kept_of self.old) replies (kept_of self.new) replies }
        ensures store { self.new.store ≡ self.old.store }
        ensures bound { length self.new.links.entries ≤ length self.old.links.entries }
    {
        let Some(link) = self.links.swap_remove(&number) else {
            return;
        };
        link.end(&mut self.locks);
    }
}
