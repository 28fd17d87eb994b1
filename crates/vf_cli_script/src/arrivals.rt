//! The links that arrive in an incarnation.
ghost use Rattle.std.specs.Prelude.{◌≡◌, [], ◌∷◌, ℕ, IfOk, OnOk, nat_eq};
ghost use Rattle.std.specs.Option.{option_or};
ghost use Rattle.indexmap.specs.IndexMap.{get};
ghost use Rattle.vf_cli_script.specs.Scripts.{arrival_of, arrivals_of, kind_in};

use crate::line::{Act, LinkKind, LinkLine, Statement};
use indexmap::IndexMap;
use std::alloc::Global;
use vf_base::NoMemory;

/// The ends that links arrive with, by their numbers, in the statements before the next incarnation.
pub(crate) fn arrivals_in(
    alloc: Global,
    statements: &[Option<Statement>],
) -> Result<IndexMap<u32, LinkKind>, NoMemory>
    ensures { IfOk result (λ arrivals. get nat_eq arrivals ≡ kind_in (arrivals_of statements.now)) }
{
    let mut arrivals = IndexMap::new(alloc);
    for statement in statements {
        match statement {
            Some(Statement::Life(_)) => return Ok(arrivals),
            Some(Statement::Link(line)) => note(line, &mut arrivals)?,
            Some(Statement::Limit(_)) => (),
            Some(Statement::User(_)) => (),
            None => (),
        }
    }
    Ok(arrivals)
}

/// Notes a link that arrives; where it did so before, the first time counts.
fn note(line: &LinkLine, arrivals: &mut IndexMap<u32, LinkKind>) -> Result<(), NoMemory>
    ensures { OnOk result ((link : ℕ) → get nat_eq arrivals.new link ≡ option_or (get nat_eq arrivals.old link) (kind_in (arrival_of line.now.link line.now.act []) link)) }
{
    match &line.act {
        Act::Arrive(kind) => note_arrival(line.link, *kind, arrivals),
        Act::Octets { .. } => Ok(()),
        Act::Said { .. } => Ok(()),
        Act::Check { .. } => Ok(()),
        Act::Acknowledge { .. } => Ok(()),
        Act::Restart { .. } => Ok(()),
        Act::Pass { .. } => Ok(()),
        Act::End => Ok(()),
    }
}

fn note_arrival(
    link: u32,
    kind: LinkKind,
    arrivals: &mut IndexMap<u32, LinkKind>,
) -> Result<(), NoMemory>
    ensures { OnOk result ((other : ℕ) → get nat_eq arrivals.new other ≡ option_or (get nat_eq arrivals.old other) (kind_in ((link, kind) ∷ []) other)) }
{
    if arrivals.contains_key(&link) {
        return Ok(());
    }
    arrivals.insert(link, kind)?;
    Ok(())
}
