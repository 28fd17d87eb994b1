//! A script: its users, and its incarnations with what happens in them.
ghost use Rattle.std.specs.Prelude.{◌≡◌, ◌≤◌, List, ℕ, Some, IfOk, IsErrOf, length};
ghost use Rattle.vf_base.specs.Faults.{HasRisen, NeverFalls};
ghost use Rattle.vf_base.specs.Streams.{IsAtEnd};
ghost use Rattle.vf_cli_script.specs.Scripts.{IfScript, IsTold, begun, script_from, told_by as told_meant};
ghost use Rattle.vf_cli_script.specs.declared.input.TheConstants.{INPUT_LIMIT};

use crate::input::{ReadError, read_all};
use crate::line::{LinkLine, Statement, Stop};
use crate::lines::{statements_in, take_out};
use crate::reading::Reading;
use std::alloc::Global;
use vf_base::{NoMemory, Sequence, Source};
use vf_tables::Users;

/// An incarnation of the responder.
#[derive(Drop)]
pub struct Life {
    /// The store ends within so many octets.
    pub limit: u64,
    /// Where it stops, if it does.
    pub stop: Option<Stop>,
    /// What happens on its links, in its order.
    pub lines: Sequence<LinkLine>,
}

/// A script.
#[derive(Drop)]
pub struct Script {
    /// The users of the new store, whose names differ, 256 at most.
    pub users: Users,
    /// The incarnations, one after another.
    pub lives: Sequence<Life>,
}

/// What an input is.
#[derive(Drop)]
pub enum Told {
    Script(Script),
    /// The first line that is bad has this number, from 1.
    Bad(usize),
}

/// What octets are.
fn told_by(alloc: Global, octets: &[u8]) -> Result<Told, NoMemory>
    ensures told { IfOk result (λ told. IsTold (told_meant octets.now) told) }
    ensures whole { IfOk result (λ told. IfScript told (length octets.now ≤ INPUT_LIMIT)) }
{
    let mut statements = statements_in(alloc, octets)?;
    let told = told_from(alloc, statements.as_mut_slice())?;
    Ok(told)
}

/// What lines are by what they say. Each statement is taken out.
fn told_from(alloc: Global, statements: &mut [Option<Statement>]) -> Result<Told, NoMemory>
    ensures { IfOk result (λ told. IsTold (script_from begun 0 statements.old) told) }
{
    let mut reading = Reading::new(alloc);
    for place in 0..statements.len() {
        let Some(statement) = take_out(statements, place) else {
            return Ok(Told::Bad(place + 1));
        };
        let (_, later) = statements.split_at(place + 1);
        let good = reading.take(alloc, statement, later)?;
        if !good {
            return Ok(Told::Bad(place + 1));
        }
    }
    let script = reading.end()?;
    Ok(Told::Script(script))
}

/// Reads a script (profile), to its end or to the octet behind the most that one may have.
pub fn read_script<I: Source>(alloc: Global, input: &mut I) -> Result<Told, ReadError>
    ensures told { (octets : List ℕ) → I.left input.old ≡ Some octets → IfOk result (λ told. IsTold (told_meant octets) told) }
    ensures some { IfOk result (λ told. (octets : List ℕ) × IsTold (told_meant octets) told) }
    ensures end { IfOk result (λ told. IfScript told (IsAtEnd (I.left input.new))) }
    ensures falls { NeverFalls (I.fault_count input.old) (I.fault_count input.new) }
    ensures cause { IsErrOf result ReadError.Failed → HasRisen (I.fault_count input.old) (I.fault_count input.new) }
{
    let octets = read_all(alloc, input)?;
    let told = told_by(alloc, octets.as_slice())?;
    Ok(told)
}
