//! What inputs are: scripts, or lines of which one is bad.
use crate::rows::lines_of;
use std::alloc::Global;
use std::process::Abort;
use vf_base::{NoMemory, SliceSource};
use vf_cli_script::{ReadError, Script, Told, read_script, statement_of};

/// An input, whose lines end with `/`, and what it is: how many users, incarnations and things on links a script has, or the
/// number of its first bad line.
const INPUTS: &str = "
                                                    | 0 users 0 lives 0 lines
limit 0/user ann 7077/user bob 70/life/             | 2 users 1 lives 0 lines
life/arrive 1 plain/said 1 0 A00380010F/end 1/life 5 fill 0A/arrive 1 raw/octets 1 9 0300/ | 0 users 2 lives 5 lines
life 6 keep/said 2 0 A200A200/arrive 2 sync/check 2 1/ack 2 1 0/restart 2 1 7/pass 2 1/    | 0 users 1 lives 6 lines
life/                                               | 0 users 1 lives 0 lines
life                                                | bad 1
/                                                   | bad 1
life /                                              | bad 1
life 0 keep/                                        | bad 1
life 1 fill 0a/                                     | bad 1
limit 18446744073709551616/                         | bad 1
limit 07/                                           | bad 1
user ann 707/                                       | bad 1
user ann/                                           | bad 1
user ann 70/user ann 71/                            | bad 2
life/user ann 70/                                   | bad 2
end 1/life/arrive 1 raw/                            | bad 1
life/arrive 1 raw/life/end 1/                       | bad 4
life/arrive 2 raw/arrive 2 raw/                     | bad 3
life/arrive 1 raw/said 1 0 A200/                    | bad 3
life/arrive 1 sync/octets 1 0 A200/                 | bad 3
life/arrive 1 sync/said 1 0 A2/                     | bad 3
life/arrive 1 sync/check 1 253402300800/            | bad 3
life/arrive 1 sync/ack 1 0 1000001/                 | bad 3
";

/// Inputs of which the first read fails.
const FAILING: &str = "
life/                                               | failed
";

/// A script by its counts.
fn counts_of(alloc: Global, script: &Script) -> Result<String, NoMemory> {
    let users = script.users.len();
    let lives = script.lives.len();
    let mut lines = 0_usize;
    for life in script.lives.as_slice() {
        lines = lines.saturating_add(life.lines.len());
    }
    let text = format!(in alloc; "{users} users {lives} lives {lines} lines")?;
    Ok(text)
}

/// What was read, in words. It is lent, since a function that owns a script is slow to prove for each way out of it.
fn words_for(alloc: Global, read: &Result<Told, ReadError>) -> Result<String, NoMemory> {
    let text = match read {
        Ok(Told::Script(script)) => return counts_of(alloc, script),
        Ok(Told::Bad(number)) => format!(in alloc; "bad {number}")?,
        Err(ReadError::Failed) => String::from_str(alloc, "failed")?,
        Err(ReadError::NoMemory) => return Err(NoMemory),
    };
    Ok(text)
}

/// What an input of these octets is, of which the read of a number fails, from 1.
fn told_by(alloc: Global, octets: &[u8], failing: u64) -> Result<String, NoMemory> {
    let failing = [failing].to_vec(alloc)?;
    let mut input = SliceSource::new(octets, failing);
    let read = read_script(alloc, &mut input);
    words_for(alloc, &read)
}

/// Whether an input is what its row tells.
fn holds(alloc: Global, input: &str, told: &str, failing: u64) -> Result<bool, NoMemory> {
    let octets = lines_of(alloc, input.trim())?;
    let found = told_by(alloc, octets.as_slice(), failing)?;
    Ok(found.as_str() == told.trim())
}

/// Whether each row holds, and how many there are.
fn assert_rows(
    rt: &impl Abort,
    alloc: Global,
    rows: &str,
    failing: u64,
    many: u32,
) -> Result<(), NoMemory> {
    let mut count = 0_u32;
    for line in rows.lines() {
        if let Some((input, told)) = line.split_once('|') {
            assert!(rt; holds(alloc, input, told, failing)?, "{line}");
            count = count.saturating_add(1);
        }
    }
    assert_eq!(rt; count, many);
    Ok(())
}

#[test]
fn inputs_are_read(rt: HostRuntime) -> Result<(), NoMemory> {
    assert_rows(&rt, rt.alloc(), INPUTS, 0, 24)?;
    assert_rows(&rt, rt.alloc(), FAILING, 1, 1)
}

/// Whether a line says something.
fn says(alloc: Global, line: &[u8]) -> Result<bool, NoMemory> {
    let statement = statement_of(alloc, line)?;
    Ok(statement.is_some())
}

#[test]
fn a_line_says_something(rt: HostRuntime) -> Result<(), NoMemory> {
    assert!(rt; says(rt.alloc(), b"life 3 lose")?);
    assert!(rt; !says(rt.alloc(), b"life 3 loses")?);
    Ok(())
}
