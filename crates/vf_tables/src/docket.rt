ghost use Rattle.std.specs.Prelude.{◌≡◌, IfOk};

use crate::Pieces;
use std::alloc::Global;
use vf_base::{Actions, Context, Controls, Duplicate, FaduId, Name, NoMemory, Octets, copy_option};

/// What a write does at the FADU that it names (ISO 8571-3, F-WRITE; the numbers are profile).
#[derive(Clone, Copy, Debug, PartialEq, Eq)]
pub enum Operation {
    Insert = 1,
    Replace = 2,
    Extend = 3,
}

/// Which transfer is under way in a recoverable regime.
#[derive(Clone, Copy, PartialEq, Eq)]
pub enum Direction {
    Idle,
    Read { context: Context },
    Write { operation: Operation },
}

/// What is kept of a recoverable open regime while it stands and after it broke (ISO 8571-3, docket; which fields it
/// has is profile). Where no transfer is under way, and for what the one under way keeps no value of, a field is 0.
pub struct Regime {
    /// Who opened it.
    pub identity: Name,
    /// The initiator's number for it, 1 to 2,147,483,647.
    pub activity: u32,
    /// The file.
    pub file: Name,
    /// The actions that the selection requested.
    pub requested: Actions,
    /// Those of the open for the actions 0 to 4, and those of the selection for 5 to 7.
    pub controls: Controls,
    /// The actions of the open.
    pub mode: Actions,
    /// That of the selection, at most 255 octets.
    pub password: Option<Octets>,
    /// The position in the file.
    pub position: u32,
    /// The number of the transfer under way or of the next one, 1 to 1,000,001.
    pub number: u32,
    /// The outcome of the transfer before: 0, or the number of its diagnostic.
    pub last: u16,
    /// The checkpoints that may be open at once.
    pub window: u16,
    pub direction: Direction,
    /// The FADU that the transfer under way names.
    pub fadu: FaduId,
    /// The number of the diagnostic by which the transfer under way performs nothing, or 0.
    pub refused: u16,
    /// The last checkpoint of the transfer under way that is acknowledged.
    pub point: u32,
    /// The data of the transfer under way have ended.
    pub ended: bool,
    /// The version of the file that a read under way shows.
    pub version: u32,
}

impl Drop for Regime {
    fn drop(self) {
        let Regime {
            identity,
            activity: _,
            file,
            requested: _,
            controls: _,
            mode: _,
            password,
            position: _,
            number: _,
            last: _,
            window: _,
            direction: _,
            fadu: _,
            refused: _,
            point: _,
            ended: _,
            version: _,
        } = self;
        drop(identity);
        drop(file);
        drop(password);
    }
}

impl Regime {
    /// The same regime; the octets are shared.
    pub fn copy(&self, alloc: Global) -> Result<Regime, NoMemory>
        ensures { IfOk result (λ regime. regime ≡ self.now) }
    {
        let identity = self.identity.copy(alloc)?;
        let file = self.file.copy(alloc)?;
        let password = copy_option(alloc, &self.password)?;
        Ok(Regime {
            identity,
            activity: self.activity,
            file,
            requested: self.requested,
            controls: self.controls,
            mode: self.mode,
            password,
            position: self.position,
            number: self.number,
            last: self.last,
            window: self.window,
            direction: self.direction,
            fadu: self.fadu,
            refused: self.refused,
            point: self.point,
            ended: self.ended,
            version: self.version,
        })
    }
}

/// A regime with the elements that a write under way has received, in pieces: each holds what stands between an
/// acknowledged checkpoint and the one before it.
#[derive(Drop)]
pub struct Docket {
    pub regime: Regime,
    pub staged: Pieces,
}

impl Docket {
    /// The same docket; the octets are shared.
    pub fn copy(&self, alloc: Global) -> Result<Docket, NoMemory>
        ensures { IfOk result (λ docket. docket ≡ self.now) }
    {
        let regime = self.regime.copy(alloc)?;
        let staged = self.staged.copy(alloc)?;
        Ok(Docket { regime, staged })
    }
}

impl Duplicate for Docket {
    fn duplicate(&self, alloc: Global) -> Result<Docket, NoMemory> {
        let made = self.copy(alloc)?;
        Ok(made)
    }
}
