//! An input as lines.
ghost use Rattle.std.specs.Prelude.{◌≡◌, ◌+◌, ◌<◌, ◌&&◌, IfOk, drop, length, min, nat_eq, slice_get, Some};
ghost use Rattle.std.specs.List.{position};
ghost use Rattle.vf_cli_script.specs.Scripts.{is_feed, statements_in as statements_meant};

use crate::input::INPUT_LIMIT;
use crate::line::Statement;
use crate::statement::statement_of;
use std::alloc::Global;
use vf_base::NoMemory;

/// What the lines of an input say, `None` where one is outside the grammar. A line that has no end is outside it, and so is the
/// first one that ends after the limit of an input, which is the last that counts.
pub(crate) fn statements_in(
    alloc: Global,
    octets: &[u8],
) -> Result<Vec<Option<Statement>>, NoMemory>
    ensures { IfOk result (λ statements. statements.items ≡ statements_meant octets.now) }
{
    let mut statements = Vec::new(alloc);
    let (within, beyond) = octets.split_at(count_within(octets.len()));
    let mut rest = within;
    while let Some(place) = place_of_feed(rest) {
        let (line, later) = rest.split_at(place);
        let (_, later) = later.split_at(1);
        let statement = statement_of(alloc, line)?;
        statements.push(statement)?;
        rest = later;
    }
    if are_empty(rest, beyond) {
        return Ok(statements);
    }
    statements.push(None)?;
    Ok(statements)
}

/// How many octets of an input of so many count.
fn count_within(len: usize) -> usize
    ensures { result ≡ min len INPUT_LIMIT }
{
    len.min(INPUT_LIMIT)
}

fn are_empty(one: &[u8], other: &[u8]) -> bool
    ensures { result ≡ (nat_eq (length one.now) 0 && nat_eq (length other.now) 0) }
{
    one.is_empty() && other.is_empty()
}

fn place_of_feed(text: &[u8]) -> Option<usize>
    ensures { result ≡ position is_feed text.now }
{
    text.iter().position(|octet| *octet == b'\n')
}

/// The statement at this place, which is taken out.
pub(crate) fn take_out(statements: &mut [Option<Statement>], place: usize) -> Option<Statement>
    requires { place < length statements.old }
    ensures out { slice_get statements.old place ≡ Some result }
    ensures later { drop (place + 1) statements.new ≡ drop (place + 1) statements.old }
{
    statements[place].take()
}
