//! The contents of files, and all that is said to make them.
ghost use Rattle.std.specs.Prelude.{◌≡◌, ◌<◌, ◌≤◌, ◌++◌, IfOk, OnOk, length, map};
ghost use Rattle.vf_cli_generate.specs.Drawing.{after_file, contents_after, digit as digit_meant, name_of as name_meant, strings_of};
ghost use Rattle.vf_cli_generate.specs.Requests.{requests_for as requests_meant, value as value_meant};

use crate::numbers::Numbers;
use crate::requests::{
    close, create, data_end, deselect, initialize, open_file, terminate, transfer_end, value, write,
};
use std::alloc::Global;
use vf_base::{Name, NoMemory};
use vf_stack::Request;

/// A file has fewer octets than this.
const SIZES: u32 = 4_096;

/// A string has so many octets, the last one of a file fewer.
const STRING: usize = 512;

/// A digit of a number, at a place of this value.
fn digit(number: u32, place: u32) -> u8
    requires { 0 < place }
    ensures { result ≡ digit_meant number place }
{
    b'0' + (number / place % 10) as u8
}

/// The name of a file, by its number: `f` and four digits.
fn name_of(alloc: Global, number: u32) -> Result<Name, NoMemory>
    ensures { IfOk result (λ name. name ≡ name_meant number) }
{
    let text = [
        b'f',
        digit(number, 1_000),
        digit(number, 100),
        digit(number, 10),
        digit(number, 1),
    ];
    match Name::of(alloc, &text) {
        Ok(name) => Ok(name),
        Err(_) => Err(NoMemory),
    }
}

/// The contents of a file: how many octets it has is drawn, and then each of them.
fn draw(alloc: Global, numbers: &mut Numbers) -> Result<Vec<u8>, NoMemory>
    ensures contents { IfOk result (λ octets. octets.items ≡ contents_after numbers.old.last) }
    ensures size { IfOk result (λ octets. length octets.items ≤ 4096) }
    ensures last { IfOk result (λ octets. numbers.new.last ≡ after_file numbers.old.last) }
{
    let size = numbers.next(SIZES);
    let mut octets = Vec::new(alloc);
    for _ in 0..size {
        octets.push(numbers.next(256) as u8)?;
    }
    Ok(octets)
}

/// Appends the strings of contents, each 512 octets, the last one shorter.
fn push_values(alloc: Global, octets: &[u8], requests: &mut Vec<Request>) -> Result<(), NoMemory>
    requires { length octets.now ≤ 4096 }
    ensures { OnOk result (requests.new.items ≡ requests.old.items ++ map value_meant (strings_of octets.now)) }
{
    let count = (octets.len() + (STRING - 1)) / STRING;
    let mut rest = octets;
    for _ in 0..count {
        let (string, later) = rest.split_at(rest.len().min(STRING));
        requests.push(value(alloc, string)?)?;
        rest = later;
    }
    Ok(())
}

/// All that is said to make and write a file.
fn requests_for(alloc: Global, name: Name, octets: &[u8]) -> Result<Vec<Request>, NoMemory>
    requires { length octets.now ≤ 4096 }
    ensures { IfOk result (λ requests. requests.items ≡ requests_meant name octets.now) }
{
    let mut requests = Vec::new(alloc);
    requests.push(initialize(alloc)?)?;
    requests.push(create(alloc, name)?)?;
    requests.push(open_file(alloc)?)?;
    requests.push(write(alloc)?)?;
    push_values(alloc, octets, &mut requests)?;
    requests.push(data_end(alloc)?)?;
    requests.push(transfer_end(alloc)?)?;
    requests.push(close(alloc)?)?;
    requests.push(deselect(alloc)?)?;
    requests.push(terminate(alloc)?)?;
    Ok(requests)
}

/// All that is said to make and write the file of this number, whose contents are drawn.
pub(crate) fn drawn(
    alloc: Global,
    number: u32,
    numbers: &mut Numbers,
) -> Result<Vec<Request>, NoMemory>
    ensures requests { IfOk result (λ requests. requests.items ≡ requests_meant (name_meant number) (contents_after numbers.old.last)) }
    ensures last { IfOk result (λ requests. numbers.new.last ≡ after_file numbers.old.last) }
{
    let name = name_of(alloc, number)?;
    let octets = draw(alloc, numbers)?;
    requests_for(alloc, name, octets.as_slice())
}
