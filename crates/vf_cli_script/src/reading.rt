//! A script as far as its lines were taken.
ghost use Rattle.std.specs.Prelude.{◌≡◌, Some, None, IfOk, OnOk, nat_eq};
ghost use Rattle.std.specs.Option.{option_map};
ghost use Rattle.indexmap.specs.IndexMap.{get};
ghost use Rattle.vf_cli_script.specs.Readings.{if_good, progress_of};
ghost use Rattle.vf_cli_script.specs.Scripts.{begun, is_apt, is_apt_on as apt_on, is_raw as raw_test, is_welcome, last_of as last_meant, lives_of, script_of, suits as suits_meant, with_last as last_added, with_life, with_line, with_statement, with_user};

use crate::arrivals::arrivals_in;
use crate::line::{Act, LinkKind, LinkLine, Statement, Stop};
use crate::script::{Life, Script};
use indexmap::IndexMap;
use std::alloc::Global;
use vf_base::{NoMemory, Sequence};
use vf_tables::{MOST_USERS, User, Users};

/// The records of a store end within so many octets, where a script has no other limit (profile).
const USUAL_LIMIT: u64 = 1_073_741_824;

/// What the lines so far have told.
pub(crate) struct Reading {
    users: Users,
    /// The incarnations that are over.
    lives: Sequence<Life>,
    /// The one that things happen in.
    life: Option<Life>,
    /// That of the incarnations to come.
    limit: u64,
    /// The end that each link of the incarnation arrives with, by its number.
    arrivals: IndexMap<u32, LinkKind>,
    /// The last link that has arrived in the incarnation, or 0.
    last: u32,
}

impl Drop for Reading {
    fn drop(self) {
        let Reading {
            users,
            lives,
            life,
            limit: _,
            arrivals,
            last: _,
        } = self;
        drop(users);
        drop(lives);
        drop(life);
        drop(arrivals);
    }
}

impl Reading {
    pub(crate) fn new(alloc: Global) -> Reading
        ensures { progress_of result ≡ begun }
    {
        Reading {
            users: Users::new(alloc),
            lives: Sequence::new(alloc),
            life: None,
            limit: USUAL_LIMIT,
            arrivals: IndexMap::new(alloc),
            last: 0,
        }
    }

    /// Takes what a line says, before these others; `false` where the line is bad.
    pub(crate) fn take(
        &mut self,
        alloc: Global,
        statement: Statement,
        later: &[Option<Statement>],
    ) -> Result<bool, NoMemory>
        ensures { IfOk result (λ good. with_statement (progress_of self.old) (Some statement) later.now ≡ if_good good (progress_of self.new)) }
    {
        match statement {
            Statement::Limit(limit) => {
                self.limit = limit;
                Ok(true)
            }
            Statement::User(user) => self.add_user(user),
            Statement::Life(stop) => {
                self.begin_life(alloc, stop, later)?;
                Ok(true)
            }
            Statement::Link(line) => self.add_line(line),
        }
    }

    /// The script whose lines these were.
    pub(crate) fn end(mut self) -> Result<Script, NoMemory>
        ensures { IfOk result (λ script. script ≡ script_of (progress_of self)) }
    {
        self.end_life()?;
        let Reading {
            users,
            lives,
            life,
            limit: _,
            arrivals,
            last: _,
        } = self;
        drop(life);
        drop(arrivals);
        Ok(Script { users, lives })
    }

    fn add_user(&mut self, user: User) -> Result<bool, NoMemory>
        ensures { IfOk result (λ good. with_user (progress_of self.old) user ≡ if_good good (progress_of self.new)) }
    {
        if !self.welcomes(&user) {
            return Ok(false);
        }
        self.users.push(user)?;
        Ok(true)
    }

    /// Whether a user may come.
    fn welcomes(&self, user: &User) -> bool
        ensures { result ≡ is_welcome (progress_of self.now) user.now }
    {
        self.life.is_none()
            && self.users.len() < MOST_USERS
            && self.users.with_name(&user.identity).is_none()
    }

    /// Begins an incarnation before these statements. The one before is over.
    fn begin_life(
        &mut self,
        alloc: Global,
        stop: Option<Stop>,
        later: &[Option<Statement>],
    ) -> Result<(), NoMemory>
        ensures { OnOk result (progress_of self.new ≡ with_life (progress_of self.old) stop later.now) }
    {
        let arrivals = arrivals_in(alloc, later)?;
        self.end_life()?;
        self.life = Some(Life {
            limit: self.limit,
            stop,
            lines: Sequence::new(alloc),
        });
        self.arrivals = arrivals;
        self.last = 0;
        Ok(())
    }

    fn end_life(&mut self) -> Result<(), NoMemory>
        ensures { OnOk result (self.new ≡ record self.old { lives = lives_of self.old.lives self.old.life; life = None }) }
    {
        if let Some(life) = self.life.take() {
            self.lives.push(life)?;
        }
        Ok(())
    }

    /// Something happens on a link, if it may.
    fn add_line(&mut self, line: LinkLine) -> Result<bool, NoMemory>
        ensures { IfOk result (λ good. with_line (progress_of self.old) line ≡ if_good good (progress_of self.new)) }
    {
        if !self.is_apt(&line) {
            return Ok(false);
        }
        self.last = last_of(&line, self.last);
        self.keep(line)?;
        Ok(true)
    }

    /// Whether a line may come.
    fn is_apt(&self, line: &LinkLine) -> bool
        ensures { result ≡ is_apt (progress_of self.now) line.now }
    {
        self.life.is_some() && is_apt_on(kind_at(&self.arrivals, line.link), line, self.last)
    }

    /// Puts a line behind the others of the incarnation.
    fn keep(&mut self, line: LinkLine) -> Result<(), NoMemory>
        ensures { OnOk result (self.new ≡ record self.old { life = option_map (last_added line) self.old.life }) }
    {
        if let Some(life) = self.life.take() {
            self.life = Some(with_last(life, line)?);
        }
        Ok(())
    }
}

/// An incarnation with a line behind its others.
fn with_last(mut life: Life, line: LinkLine) -> Result<Life, NoMemory>
    ensures { IfOk result (λ made. made ≡ last_added line life) }
{
    life.lines.push(line)?;
    Ok(life)
}

fn is_apt_on(kind: Option<LinkKind>, line: &LinkLine, last: u32) -> bool
    ensures { result ≡ apt_on kind line.now last }
{
    match kind {
        Some(kind) => suits(line, kind, last),
        None => false,
    }
}

fn kind_at(arrivals: &IndexMap<u32, LinkKind>, link: u32) -> Option<LinkKind>
    ensures { result ≡ get nat_eq arrivals.now link }
{
    arrivals.get(&link).copied()
}

/// Whether a line is one on a link with an end of this kind. Links arrive by rising numbers.
fn suits(line: &LinkLine, kind: LinkKind, last: u32) -> bool
    ensures { result ≡ suits_meant line.now kind last }
{
    match &line.act {
        Act::Arrive(_) => line.link > last,
        Act::Octets { .. } => is_raw(kind),
        Act::End => true,
        Act::Said { .. } => !is_raw(kind),
        Act::Check { .. } => !is_raw(kind),
        Act::Acknowledge { .. } => !is_raw(kind),
        Act::Restart { .. } => !is_raw(kind),
        Act::Pass { .. } => !is_raw(kind),
    }
}

fn is_raw(kind: LinkKind) -> bool
    ensures { result ≡ raw_test kind }
{
    matches!(kind, LinkKind::Raw)
}

/// The last link that has arrived after a line.
fn last_of(line: &LinkLine, last: u32) -> u32
    ensures { result ≡ last_meant line.now last }
{
    match &line.act {
        Act::Arrive(_) => line.link,
        Act::Octets { .. } => last,
        Act::Said { .. } => last,
        Act::Check { .. } => last,
        Act::Acknowledge { .. } => last,
        Act::Restart { .. } => last,
        Act::Pass { .. } => last,
        Act::End => last,
    }
}
