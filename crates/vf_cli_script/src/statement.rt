//! Lines as what they say.
ghost use Rattle.std.specs.Prelude.{◌≡◌, ◌≤◌, IfOk, IfSome, length, option_copied};
ghost use Rattle.vf_ber.specs.Views.{tree_of};
ghost use Rattle.vf_cli_script.specs.Statements.{IsLess, act_of_four as four_act_meant, act_of_three as three_act_meant, filled_form as filled_meant, form_of as form_meant, kind_of as kind_meant, life_of as life_meant, message_of as message_meant, messages_in as messages_meant, octets_act as octets_act_meant, of_four as four_meant, of_one as one_meant, of_three as three_meant, of_two as two_meant, on_link as link_meant, said_act as said_act_meant, statement_of as statement_meant, user_of as user_meant, value_of as value_meant};
ghost use Rattle.vf_cli_script.specs.Words.{is_word};

use crate::line::{Act, LinkKind, LinkLine, Statement, Stop};
use crate::numbers::{count_in, moment_in, number_in, point_in};
use crate::pairs::{octet_in, octets_in};
use crate::words::words_of;
use std::alloc::Global;
use vf_base::{BaseError, Name, NoMemory, Octets, Sequence};
use vf_ber::{BerError, Value, octets_have_a_reading, octets_have_one_reading};
use vf_disk::CrashForm;
use vf_elements::Message;
use vf_pdu_fields::PduError;
use vf_tables::{MOST_PASSWORD_OCTETS, User};

/// What a line says, without its line feed; `None` exactly where it is outside the grammar (profile).
pub fn statement_of(alloc: Global, line: &[u8]) -> Result<Option<Statement>, NoMemory>
    ensures { IfOk result (λ statement. statement ≡ statement_meant line.now) }
{
    let Some(words) = words_of(alloc, line)? else {
        return Ok(None);
    };
    match words.as_slice() {
        [name] => Ok(of_one(*name)),
        [name, first] => Ok(of_two(*name, *first)),
        [name, first, second] => of_three(alloc, *name, *first, *second),
        [name, first, second, third] => of_four(alloc, *name, *first, *second, *third),
        _ => Ok(None),
    }
}

/// Whether two words are the same.
fn is(one: &[u8], other: &[u8]) -> bool
    ensures { result ≡ is_word one.now other.now }
{
    one == other
}

fn of_one(name: &[u8]) -> Option<Statement>
    ensures { result ≡ one_meant name.now }
{
    if is(name, b"life") {
        return Some(Statement::Life(None));
    }
    None
}

fn of_two(name: &[u8], first: &[u8]) -> Option<Statement>
    ensures { result ≡ two_meant name.now first.now }
{
    if is(name, b"limit") {
        let limit = number_in(first, 18_446_744_073_709_551_615)?;
        return Some(Statement::Limit(limit));
    }
    if is(name, b"end") {
        return on_link(first, Some(Act::End));
    }
    None
}

fn of_three(
    alloc: Global,
    name: &[u8],
    first: &[u8],
    second: &[u8],
) -> Result<Option<Statement>, NoMemory>
    ensures { IfOk result (λ statement. statement ≡ three_meant name.now first.now second.now) }
{
    if is(name, b"user") {
        return user_of(alloc, first, second);
    }
    if is(name, b"life") {
        return Ok(life_of(first, form_of(second)));
    }
    Ok(on_link(first, act_of_three(name, second)))
}

/// What happens on a link, by the words beside its number.
fn act_of_three(name: &[u8], second: &[u8]) -> Option<Act>
    ensures { result ≡ three_act_meant name.now second.now }
{
    if is(name, b"arrive") {
        let kind = kind_of(second)?;
        return Some(Act::Arrive(kind));
    }
    if is(name, b"check") {
        let moment = moment_in(second)?;
        return Some(Act::Check { moment });
    }
    if is(name, b"pass") {
        let moment = moment_in(second)?;
        return Some(Act::Pass { moment });
    }
    None
}

fn of_four(
    alloc: Global,
    name: &[u8],
    first: &[u8],
    second: &[u8],
    third: &[u8],
) -> Result<Option<Statement>, NoMemory>
    ensures { IfOk result (λ statement. statement ≡ four_meant name.now first.now second.now third.now) }
{
    if is(name, b"life") {
        return Ok(life_of(first, filled_form(second, third)));
    }
    if is(name, b"octets") {
        let act = octets_act(alloc, second, third)?;
        return Ok(on_link(first, act));
    }
    if is(name, b"said") {
        let act = said_act(alloc, second, third)?;
        return Ok(on_link(first, act));
    }
    Ok(on_link(first, act_of_four(name, second, third)))
}

fn act_of_four(name: &[u8], second: &[u8], third: &[u8]) -> Option<Act>
    ensures { result ≡ four_act_meant name.now second.now third.now }
{
    if is(name, b"ack") {
        let moment = moment_in(second)?;
        let point = point_in(third)?;
        return Some(Act::Acknowledge { moment, point });
    }
    if is(name, b"restart") {
        let moment = moment_in(second)?;
        let point = point_in(third)?;
        return Some(Act::Restart { moment, point });
    }
    None
}

fn on_link(link: &[u8], act: Option<Act>) -> Option<Statement>
    ensures { result ≡ link_meant link.now act }
{
    let link = count_in(link)?;
    let act = act?;
    Some(Statement::Link(LinkLine { link, act }))
}

fn user_of(alloc: Global, name: &[u8], digits: &[u8]) -> Result<Option<Statement>, NoMemory>
    ensures { IfOk result (λ statement. statement ≡ user_meant name.now digits.now) }
{
    let identity = match Name::of(alloc, name) {
        Ok(identity) => identity,
        Err(BaseError::NoMemory) => return Err(NoMemory),
        Err(_) => return Ok(None),
    };
    let Some(password) = octets_in(alloc, digits)? else {
        return Ok(None);
    };
    if password.len() > MOST_PASSWORD_OCTETS {
        return Ok(None);
    }
    Ok(Some(Statement::User(User {
        identity,
        password: Some(password),
    })))
}

fn life_of(call: &[u8], form: Option<CrashForm>) -> Option<Statement>
    ensures { result ≡ life_meant call.now form }
{
    let call = count_in(call)?;
    let form = form?;
    Some(Statement::Life(Some(Stop { call, form })))
}

fn form_of(word: &[u8]) -> Option<CrashForm>
    ensures { result ≡ form_meant word.now }
{
    if is(word, b"keep") {
        return Some(CrashForm::Keep);
    }
    if is(word, b"lose") {
        return Some(CrashForm::Lose);
    }
    None
}

fn filled_form(word: &[u8], digits: &[u8]) -> Option<CrashForm>
    ensures { result ≡ filled_meant word.now digits.now }
{
    if !is(word, b"fill") {
        return None;
    }
    let octet = octet_in(digits)?;
    Some(CrashForm::Fill(octet))
}

fn kind_of(word: &[u8]) -> Option<LinkKind>
    ensures { result ≡ kind_meant word.now }
{
    if is(word, b"raw") {
        return Some(LinkKind::Raw);
    }
    if is(word, b"plain") {
        return Some(LinkKind::Plain);
    }
    if is(word, b"sync") {
        return Some(LinkKind::Sync);
    }
    None
}

fn octets_act(alloc: Global, moment: &[u8], digits: &[u8]) -> Result<Option<Act>, NoMemory>
    ensures { IfOk result (λ act. act ≡ octets_act_meant moment.now digits.now) }
{
    let Some(moment) = moment_in(moment) else {
        return Ok(None);
    };
    let Some(octets) = octets_in(alloc, digits)? else {
        return Ok(None);
    };
    Ok(Some(Act::Octets { moment, octets }))
}

fn said_act(alloc: Global, moment: &[u8], digits: &[u8]) -> Result<Option<Act>, NoMemory>
    ensures { IfOk result (λ act. act ≡ said_act_meant moment.now digits.now) }
{
    let Some(moment) = moment_in(moment) else {
        return Ok(None);
    };
    let Some(octets) = octets_in(alloc, digits)? else {
        return Ok(None);
    };
    let Some(messages) = messages_in(alloc, &octets)? else {
        return Ok(None);
    };
    Ok(Some(Act::Said { moment, messages }))
}

/// The messages whose values octets are; `None` exactly where they are no values, or one means no message.
fn messages_in(alloc: Global, octets: &Octets) -> Result<Option<Sequence<Message>>, NoMemory>
    ensures { IfOk result (λ messages. messages ≡ messages_meant octets.now) }
{
    let mut messages = Sequence::new(alloc);
    let mut rest = octets.as_slice();
    while rest.len() > 0 {
        let Some((value, used)) = value_in(alloc, rest)? else {
            return Ok(None);
        };
        let Some(message) = message_in(alloc, &value)? else {
            return Ok(None);
        };
        messages.push(message)?;
        let (_, later) = rest.split_at(used);
        rest = later;
    }
    Ok(Some(messages))
}

/// The value that octets begin with, and how many octets it has, at least one.
fn value_in(alloc: Global, octets: &[u8]) -> Result<Option<(Value, usize)>, NoMemory>
    ensures value { IfOk result (λ read. value_meant read octets.now) }
    ensures within { IfOk result (λ read. IfSome read (λ read. IsLess read.1 octets.now)) }
{
    octets_have_a_reading();
    octets_have_one_reading();
    match vf_ber::read(alloc, octets) {
        Ok(read) => Ok(Some(read)),
        Err(BerError::Short) => Ok(None),
        Err(BerError::Bad { .. }) => Ok(None),
        Err(BerError::Deep { .. }) => Ok(None),
        Err(BerError::Long { .. }) => Ok(None),
        Err(BerError::NoMemory) => Err(NoMemory),
    }
}

fn message_in(alloc: Global, value: &Value) -> Result<Option<Message>, NoMemory>
    ensures { IfOk result (λ message. message ≡ message_meant (tree_of value.now)) }
{
    match vf_elements::message_of(alloc, value) {
        Ok(message) => Ok(Some(message)),
        Err(PduError::NoMemory) => Err(NoMemory),
        Err(_) => Ok(None),
    }
}
