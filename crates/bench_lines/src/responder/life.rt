//! A life by its words: what comes on links, in order, and what fails.
//!
//! `+1` is an arrival of link 1, `1<0300` octets on it, `1@60<0300` the same at this moment, `1<0300*5` the octets five times,
//! `-1` the end of the link. `disk=5` lets the fifth call of the disk fail, `next=5` and `send=5` those of the links, `stop=5`
//! the fifth write or sync, which count from the opening on, and all later ones. `limit=100` is where records have to end.
//! `user=ann:7077` is a user of a store that is made, with the octets of a password; `user=bob` has none.
use crate::fault::Fault;
use crate::reading::octets_in;
use std::alloc::Global;
use vf_base::{Moment, Name, Octets, ScriptEvent};
use vf_tables::{Change, Changes, User};

/// What fails, by the numbers of calls; 0 where nothing does.
#[derive(Clone, Copy)]
pub struct Plan {
    pub disk: u64,
    pub next: u64,
    pub send: u64,
    pub stop: u32,
    pub limit: u64,
}

#[derive(Drop)]
pub struct Life {
    pub plan: Plan,
    pub events: Vec<ScriptEvent>,
}

impl Plan {
    fn new() -> Plan {
        Plan {
            disk: 0,
            next: 0,
            send: 0,
            stop: 0,
            limit: 1_073_741_824,
        }
    }

    pub fn set(&mut self, name: &str, number: u64) -> Result<(), Fault> {
        match name {
            "disk" => self.disk = number,
            "next" => self.next = number,
            "send" => self.send = number,
            "stop" => self.stop = u32::try_from(number).ok().ok_or(Fault::Line)?,
            "limit" => self.limit = number,
            _ => return Err(Fault::Line),
        }
        Ok(())
    }
}

/// A number in a list, if it isn't 0.
pub fn listed(alloc: Global, number: u64) -> Result<Vec<u64>, Fault> {
    let mut list = Vec::new(alloc);
    if number > 0 {
        list.push(number)?;
    }
    Ok(list)
}

fn link_of(word: &str) -> Result<u32, Fault> {
    word.parse::<u32>().ok().ok_or(Fault::Line)
}

fn number_of(word: &str) -> Result<u64, Fault> {
    word.parse::<u64>().ok().ok_or(Fault::Line)
}

/// The octets of digits, as often as a number after `*` says.
fn octets_of(alloc: Global, word: &str) -> Result<Octets, Fault> {
    let (digits, count) = word.split_once('*').unwrap_or((word, "1"));
    let count = number_of(count)?;
    let once = octets_in(alloc, digits.as_bytes())?;
    let mut all = Vec::new(alloc);
    for _ in 0..count {
        all.extend_from_slice(once.as_slice())?;
    }
    Ok(Octets::from_vec(all)?)
}

/// Octets that come, by the words before and after `<`.
fn octets_event(alloc: Global, place: &str, word: &str) -> Result<ScriptEvent, Fault> {
    let (link, seconds) = place.split_once('@').unwrap_or((place, "0"));
    let link = link_of(link)?;
    let moment = Moment::of(number_of(seconds)?).ok().ok_or(Fault::Line)?;
    let octets = octets_of(alloc, word)?;
    Ok(ScriptEvent::Octets {
        link,
        moment,
        octets,
    })
}

fn event_of(alloc: Global, word: &str) -> Result<ScriptEvent, Fault> {
    if let Some(link) = word.strip_prefix('+') {
        let link = link_of(link)?;
        return Ok(ScriptEvent::Arrived { link });
    }
    if let Some(link) = word.strip_prefix('-') {
        let link = link_of(link)?;
        return Ok(ScriptEvent::Ended { link });
    }
    let (place, word) = word.split_once('<').ok_or(Fault::Line)?;
    octets_event(alloc, place, word)
}

fn password_of(alloc: Global, digits: Option<&str>) -> Result<Option<Octets>, Fault> {
    match digits {
        Some(digits) => Ok(Some(octets_of(alloc, digits)?)),
        None => Ok(None),
    }
}

fn user_of(alloc: Global, word: &str) -> Result<User, Fault> {
    let mut parts = word.split(':');
    let name = parts.next().unwrap_or("");
    let password = password_of(alloc, parts.next())?;
    match Name::of(alloc, name.as_bytes()) {
        Ok(identity) => Ok(User { identity, password }),
        Err(_) => Err(Fault::Line),
    }
}

/// What the users are made by that words have.
pub fn users_in(alloc: Global, words: &str) -> Result<Changes, Fault> {
    let mut users = Changes::new(alloc);
    for word in words.split(' ') {
        if let Some(word) = word.strip_prefix("user=") {
            let user = user_of(alloc, word)?;
            users.push(Change::PutUser { user })?;
        }
    }
    Ok(users)
}

impl Life {
    fn word(&mut self, alloc: Global, word: &str) -> Result<(), Fault> {
        if word.is_empty() || word.starts_with("user=") {
            return Ok(());
        }
        if let Some((name, number)) = word.split_once('=') {
            let number = number_of(number)?;
            return self.plan.set(name, number);
        }
        let event = event_of(alloc, word)?;
        self.events.push(event)?;
        Ok(())
    }

    /// The life of these words, without its users.
    pub fn of(alloc: Global, words: &str) -> Result<Life, Fault> {
        let mut life = Life {
            plan: Plan::new(),
            events: Vec::new(alloc),
        };
        for word in words.split(' ') {
            life.word(alloc, word)?;
        }
        Ok(life)
    }
}

/// An event; octets as far as so many are left, of which these are taken.
fn front_of(alloc: Global, event: &ScriptEvent, left: &mut usize) -> Result<ScriptEvent, Fault> {
    match event {
        ScriptEvent::Arrived { link } => Ok(ScriptEvent::Arrived { link: *link }),
        ScriptEvent::Ended { link } => Ok(ScriptEvent::Ended { link: *link }),
        ScriptEvent::Octets {
            link,
            moment,
            octets,
        } => {
            let count = octets.len().min(*left);
            *left = left.saturating_sub(count);
            let (front, _) = octets.as_slice().split_at(count);
            Ok(ScriptEvent::Octets {
                link: *link,
                moment: *moment,
                octets: Octets::of(alloc, front)?,
            })
        }
    }
}

/// How many octets come in all.
pub fn octets_in_all(events: &[ScriptEvent]) -> usize {
    let mut count: usize = 0;
    for event in events {
        if let ScriptEvent::Octets { octets, .. } = event {
            count = count.saturating_add(octets.len());
        }
    }
    count
}

/// Appends the events up to so many octets.
fn put_front(
    alloc: Global,
    events: &[ScriptEvent],
    count: usize,
    front: &mut Vec<ScriptEvent>,
) -> Result<(), Fault> {
    let mut left = count;
    for event in events {
        let event = front_of(alloc, event, &mut left)?;
        front.push(event)?;
        if left == 0 {
            break;
        }
    }
    Ok(())
}

/// The links that arrive.
fn arriving(alloc: Global, events: &[ScriptEvent]) -> Result<Vec<u32>, Fault> {
    let mut links = Vec::new(alloc);
    for event in events {
        if let ScriptEvent::Arrived { link } = event {
            links.push(*link)?;
        }
    }
    Ok(links)
}

/// The events up to so many octets, and then the end of each link that arrived.
pub fn broken_after(
    alloc: Global,
    events: &[ScriptEvent],
    count: usize,
) -> Result<Vec<ScriptEvent>, Fault> {
    let mut front = Vec::new(alloc);
    put_front(alloc, events, count, &mut front)?;
    let links = arriving(alloc, front.as_slice())?;
    for link in links {
        front.push(ScriptEvent::Ended { link })?;
    }
    Ok(front)
}
