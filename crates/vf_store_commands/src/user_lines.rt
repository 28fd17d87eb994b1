//! The users whom lines tell.
ghost use Rattle.std.specs.Prelude.{◌≡◌, ◌≢◌, ◌==◌, ◌<◌, ◌≤◌, ◌+◌, ℕ, true, List, [], ◌∷◌, Some, IfOk, IsErrOf, length, option_copied};
ghost use Rattle.std.specs.List.{list_any, position};
ghost use Rattle.vf_tables.specs.Entries.{is_user};
ghost use Rattle.vf_base.specs.Faults.{HasRisen, NeverFalls};
ghost use Rattle.vf_base.specs.Streams.{IsAtEnd};
ghost use Rattle.vf_store_commands.specs.Reading.{Ends, EndsWith, IsUsers, Takes, Tells, most_progress, progress};
ghost use Rattle.vf_store_commands.specs.UserLines.{may_join as may_join_test, parted as parted_meant, tab, user_told};

use std::alloc::Global;
use std::marker::Model;
use vf_base::{BaseError, Failed, Name, NoMemory, Octets, Source};
use vf_tables::{MOST_PASSWORD_OCTETS, MOST_USERS, User, Users};

/// A line of a user has at most so many octets: a name, a tab and a password.
pub(crate) const MOST_LINE_OCTETS: usize = 511;

const LINE_FEED: u8 = 10;

const TAB: u8 = 9;

/// What an input tells.
#[derive(Drop)]
pub(crate) enum Told {
    /// These users, one a line.
    Users(Users),
    /// The line of this number, from 1, is the first one that is bad.
    Bad(usize),
}

/// Why no input was read to its end.
#[derive(Clone, Copy)]
pub(crate) enum ReadError {
    /// The input failed.
    Failed,
    /// Memory is wanting.
    NoMemory,
}

impl From<Failed> for ReadError {
    ghost use Rattle.std.specs.Prelude.{◌≡◌};
    ghost use Rattle.vf_store_commands.specs.declared.user_lines.ReadError.TheVariants as errors;

    ghost from_gives = { λ _ error. error ≡ errors.Failed };

    fn from(_error: Failed) -> ReadError {
        ReadError::Failed
    }
}

impl From<NoMemory> for ReadError {
    ghost use Rattle.std.specs.Prelude.{◌≡◌};
    ghost use Rattle.vf_store_commands.specs.declared.user_lines.ReadError.TheVariants as errors;

    ghost from_gives = { λ _ error. error ≡ errors.NoMemory };

    fn from(_error: NoMemory) -> ReadError {
        ReadError::NoMemory
    }
}

/// Lines as their octets come.
struct UserLines {
    /// The users of the lines that have ended.
    users: Users,
    /// The octets of the line that hasn't.
    line: Vec<u8>,
}

impl Drop for UserLines {
    fn drop(self) {
        let UserLines { users, line } = self;
        drop(users);
        drop(line);
    }
}

impl Model for UserLines {
    ghost use Rattle.vf_store_commands.specs.Reading.{IsTaken, Taken};

    ghost Value = { Taken };

    ghost view = { λ lines. record { users = lines.users; line = lines.line.items } };

    ghost invariant = { λ lines. IsTaken (record { users = lines.users; line = lines.line.items }) };
}

impl UserLines {
    fn new(alloc: Global) -> UserLines
        ensures { result ≡ record { users = []; line = [] } }
    {
        UserLines {
            users: Users::new(alloc),
            line: Vec::new(alloc),
        }
    }

    /// Takes an octet within a line; `false` where the line is too long.
    fn add(&mut self, octet: u8) -> Result<bool, NoMemory>
        requires { octet ≢ 10 }
        ensures takes { IfOk result (λ good. Takes self.old (octet ∷ []) self.new good) }
        ensures progress { IfOk result (λ good. good ≡ true → progress self.old < progress self.new) }
        ensures within { progress self.new ≤ most_progress }
    {
        if self.line.len() == MOST_LINE_OCTETS {
            return Ok(false);
        }
        self.line.push(octet)?;
        Ok(true)
    }

    /// Takes the user of the line, which ends; `false` where it is bad.
    fn end_line(&mut self, alloc: Global) -> Result<bool, NoMemory>
        ensures takes { IfOk result (λ good. Takes self.old (10 ∷ []) self.new good) }
        ensures last { IfOk result (λ good. self.old.line ≢ [] → EndsWith self.old self.new good) }
        ensures progress { IfOk result (λ good. good ≡ true → progress self.old < progress self.new) }
        ensures within { progress self.new ≤ most_progress }
    {
        let Some(user) = user_of_line(alloc, self.line.as_slice())? else {
            return Ok(false);
        };
        if !may_join(self.users.as_slice(), &user) {
            return Ok(false);
        }
        self.users.push(user)?;
        self.line.clear();
        Ok(true)
    }

    /// Takes an octet; `false` where it ends or goes on a line that is bad.
    fn take_octet(&mut self, alloc: Global, octet: u8) -> Result<bool, NoMemory>
        ensures takes { IfOk result (λ good. Takes self.old (octet ∷ []) self.new good) }
        ensures progress { IfOk result (λ good. good ≡ true → progress self.old < progress self.new) }
        ensures within { progress self.new ≤ most_progress }
    {
        if octet == LINE_FEED {
            return self.end_line(alloc);
        }
        self.add(octet)
    }

    /// Takes the octets of a block; `false` where they end or go on a line that is bad.
    fn take(&mut self, alloc: Global, block: &[u8]) -> Result<bool, NoMemory>
        requires { progress self.old ≤ most_progress }
        ensures takes { IfOk result (λ good. Takes self.old block.now self.new good) }
        ensures progress { IfOk result (λ good. good ≡ true → progress self.old + length block.now ≤ progress self.new) }
        ensures within { progress self.new ≤ most_progress }
    {
        for octet in block {
            let good = self.take_octet(alloc, *octet)?;
            if !good {
                return Ok(false);
            }
        }
        Ok(true)
    }

    /// What is told where the input ends.
    fn end(self, alloc: Global) -> Result<Told, NoMemory>
        ensures { IfOk result (λ told. Ends self told) }
    {
        let mut lines = self;
        if lines.line.is_empty() {
            return Ok(Told::Users(lines.into_users()));
        }
        if lines.end_line(alloc)? {
            return Ok(Told::Users(lines.into_users()));
        }
        Ok(lines.bad())
    }

    /// That the line which hasn't ended is bad.
    fn bad(&self) -> Told
        ensures { result ≡ Told.Bad (length self.now.users + 1) }
    {
        Told::Bad(self.users.len() + 1)
    }

    fn into_users(self) -> Users
        ensures { result ≡ self.users }
    {
        let UserLines { users, line: _ } = self;
        users
    }
}

/// The user that a line tells, if it tells one.
fn user_of_line(alloc: Global, line: &[u8]) -> Result<Option<User>, NoMemory>
    ensures { IfOk result (λ user. user ≡ user_told line.now) }
{
    let (identity, password) = parted(line);
    let identity = match Name::of(alloc, identity) {
        Ok(identity) => identity,
        Err(BaseError::NoMemory) => return Err(NoMemory),
        Err(_) => return Ok(None),
    };
    let Some(password) = password else {
        return Ok(Some(User {
            identity,
            password: None,
        }));
    };
    if password.is_empty() || password.len() > MOST_PASSWORD_OCTETS {
        return Ok(None);
    }
    let password = Some(Octets::of(alloc, password)?);
    Ok(Some(User { identity, password }))
}

/// Where the first tab of a line stands, if there is one.
fn place_of_tab(line: &[u8]) -> Option<usize>
    ensures { result ≡ position (λ octet. octet == tab) line.now }
{
    line.iter().position(|octet| *octet == TAB)
}

/// What stands before the first tab of a line, and what stands after it, where there is one.
fn parted(line: &[u8]) -> (&[u8], Option<&[u8]>)
    ensures before { result.0.now ≡ (parted_meant line.now).before }
    ensures after { option_copied result.1 ≡ (parted_meant line.now).after }
{
    let Some(place) = place_of_tab(line) else {
        return (line, None);
    };
    let (before, _) = line.split_at(place);
    let (_, after) = line.split_at(place + 1);
    (before, Some(after))
}

/// Whether one of these users has the identity.
fn is_among(users: &[User], identity: &Name) -> bool
    ensures { result ≡ list_any (is_user identity.now) users.now }
{
    users.iter().any(|user| *identity == user.identity)
}

/// Whether a user may stand after others.
fn may_join(users: &[User], user: &User) -> bool
    ensures { result ≡ may_join_test users.now user.now }
{
    if users.len() >= MOST_USERS {
        return false;
    }
    !is_among(users, &user.identity)
}

/// Octets of the input that are read at a time.
const BLOCK: usize = 4_096;

fn room_for_a_block(alloc: Global) -> Result<Vec<u8>, NoMemory>
    ensures { IfOk result (λ room. 0 < length room.items) }
{
    let mut room = Vec::new(alloc);
    room.resize(BLOCK, 0)?;
    Ok(room)
}

/// Reads the lines of the input: to its end, or into the first line that is bad.
pub(crate) fn read_users<I: Source>(alloc: Global, input: &mut I) -> Result<Told, ReadError>
    ensures tells { (octets : List ℕ) → I.left input.old ≡ Some octets → IfOk result (λ told. Tells octets told) }
    ensures end { IfOk result (λ told. IsUsers told → IsAtEnd (I.left input.new)) }
    ensures falls { NeverFalls (I.fault_count input.old) (I.fault_count input.new) }
    ensures failed { IsErrOf result ReadError.Failed → HasRisen (I.fault_count input.old) (I.fault_count input.new) }
{
    let mut block = room_for_a_block(alloc)?;
    read_lines(alloc, input, block.as_mut_slice())
}

/// The same, as many octets at a time as the block has.
fn read_lines<I: Source>(alloc: Global, input: &mut I, block: &mut [u8]) -> Result<Told, ReadError>
    requires { 0 < length block.old }
    ensures tells { (octets : List ℕ) → I.left input.old ≡ Some octets → IfOk result (λ told. Tells octets told) }
    ensures end { IfOk result (λ told. IsUsers told → IsAtEnd (I.left input.new)) }
    ensures falls { NeverFalls (I.fault_count input.old) (I.fault_count input.new) }
    ensures failed { IsErrOf result ReadError.Failed → HasRisen (I.fault_count input.old) (I.fault_count input.new) }
{
    let mut lines = UserLines::new(alloc);
    loop {
        let count = input.read(block)?;
        if count == 0 {
            let told = lines.end(alloc)?;
            return Ok(told);
        }
        if !lines.take(alloc, &block[..count])? {
            return Ok(lines.bad());
        }
    }
}
