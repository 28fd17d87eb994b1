//! What a store keeps, in words.
//!
//! A file: `{a 3:25:0:0 p255 v2 c0:guest m0:guest [4:6869]}`, its name, its document type with class, longest string and
//! significance, the permitted actions, the version, the stamps of creation, modification (`m`), reading (`r`) and change of
//! attributes (`h`), and each data unit with its strings; a term is `t` with identity, actions and password. A docket:
//! `(guest 7 a q5 k10100000 o5 z0 n1 l0 write:Replace:Begin:0:1 [4:6869])`, identity, activity, file, requested actions,
//! controls, mode, position, next number, last outcome, and the transfer with its FADU, its diagnostic and its point, of a
//! read with its version; a password stands after `s`.
use crate::responder::deliver::put_octets;
use crate::text::Text;
use std::alloc::Global;
use vf_attr::{File, Stamp};
use vf_base::{Contents, Control, Controls, Element, FaduId, Name, Octets, Term};
use vf_tables::{Direction, Docket, Regime, Tables, User};

fn put_name(before: &str, name: &Name, out: &mut Text) {
    out.put(before);
    out.put_octets(name.as_slice());
}

fn put_password(before: &str, password: &Option<Octets>, out: &mut Text) {
    if let Some(octets) = password {
        out.put(before);
        put_octets(octets.as_slice(), out);
    }
}

fn put_string(class: u8, octets: &[u8], out: &mut Text) {
    out.put_number("", u64::from(class), ":");
    put_octets(octets, out);
}

fn put_element(element: &Element, out: &mut Text) {
    match element {
        Element::Text { class, octets } => put_string(*class, octets.as_slice(), out),
        Element::Binary { octets } => put_string(4, octets.as_slice(), out),
        Element::Descriptor { name, filled } => put_descriptor(name, *filled, out),
        Element::Enter => out.put("Enter"),
        Element::Exit => out.put("Exit"),
    }
}

fn put_descriptor(name: &Option<Name>, filled: bool, out: &mut Text) {
    out.put(if filled { "D+" } else { "D-" });
    if let Some(name) = name {
        put_name("", name, out);
    }
}

/// Appends elements in brackets.
fn put_elements(elements: &[Element], out: &mut Text) {
    out.put(" [");
    for element in elements {
        out.put(" ");
        put_element(element, out);
    }
    out.put("]");
}

fn put_stamp(before: &str, stamp: &Stamp, out: &mut Text) {
    out.put_number(before, stamp.moment.seconds(), "");
    put_name(":", &stamp.identity, out);
}

fn put_maybe(before: &str, stamp: &Option<Stamp>, out: &mut Text) {
    if let Some(stamp) = stamp {
        put_stamp(before, stamp, out);
    }
}

fn put_contents(contents: &Contents, out: &mut Text) {
    let number = contents.kind.arcs().last().copied().unwrap_or(0);
    out.put_number(" ", u64::from(number), "");
    out.put_number(":", u64::from(contents.class), "");
    out.put_number(":", u64::from(contents.longest), "");
    out.put_number(":", u64::from(contents.significance), "");
}

fn put_terms(terms: &[Term], out: &mut Text) {
    for term in terms {
        out.put(" t");
        if let Some(identity) = &term.identity {
            put_name("", identity, out);
        }
        out.put_number(":", u64::from(term.actions.value), "");
        put_password(":", &term.password, out);
    }
}

fn put_units(file: &File, out: &mut Text) {
    for unit in file.tree.units() {
        put_elements(unit.as_slice(), out);
    }
}

fn put_file(file: &File, out: &mut Text) {
    put_name("{", &file.name, out);
    put_contents(&file.contents, out);
    out.put_number(" p", u64::from(file.permitted.value), "");
    put_terms(file.terms.as_slice(), out);
    out.put_number(" v", u64::from(file.version), "");
    put_stamp(" c", &file.created, out);
    put_maybe(" m", &file.modified, out);
    put_maybe(" r", &file.read, out);
    put_maybe(" h", &file.changed, out);
    put_units(file, out);
    out.put("} ");
}

fn digit_of(control: Control) -> &'static str {
    match control {
        Control::NotRequired => "0",
        Control::Shared => "1",
        Control::Exclusive => "2",
        Control::NoAccess => "3",
    }
}

fn put_controls(controls: Controls, out: &mut Text) {
    out.put(" k");
    for control in controls.each {
        out.put(digit_of(control));
    }
}

fn put_fadu(alloc: Global, fadu: FaduId, out: &mut Text) {
    match fadu {
        FaduId::Number(number) => out.put_number("", u64::from(number), ""),
        named => out.put_made(format!(in alloc; "{named:?}")),
    }
}

/// Appends the way of a transfer under way.
fn put_direction(alloc: Global, direction: Direction, out: &mut Text) {
    match direction {
        Direction::Idle => out.put(" idle"),
        Direction::Read { context } => out.put_made(format!(in alloc; " read:{context:?}:")),
        Direction::Write { operation } => out.put_made(format!(in alloc; " write:{operation:?}:")),
    }
}

/// Appends the transfer: its way, its FADU, its diagnostic and its point, and of a read the version.
fn put_transfer(alloc: Global, regime: &Regime, out: &mut Text) {
    put_direction(alloc, regime.direction, out);
    if regime.direction == Direction::Idle {
        return;
    }
    put_fadu(alloc, regime.fadu, out);
    out.put_number(":", u64::from(regime.refused), "");
    out.put_number(":", u64::from(regime.point), "");
    if let Direction::Read { .. } = regime.direction {
        out.put_number(":", u64::from(regime.version), "");
    }
}

/// Appends who opened the file, how, and by what.
fn put_opened(regime: &Regime, out: &mut Text) {
    put_name("(", &regime.identity, out);
    out.put_number(" ", u64::from(regime.activity), "");
    put_name(" ", &regime.file, out);
    out.put_number(" q", u64::from(regime.requested.value), "");
    put_controls(regime.controls, out);
    out.put_number(" o", u64::from(regime.mode.value), "");
    put_password(" s", &regime.password, out);
}

/// Appends a docket. What is 0 in every row is told where it isn't.
fn put_docket(alloc: Global, docket: &Docket, out: &mut Text) {
    let regime = &docket.regime;
    put_opened(regime, out);
    out.put_number(" z", u64::from(regime.position), "");
    out.put_number(" n", u64::from(regime.number), "");
    out.put_number(" l", u64::from(regime.last), "");
    put_transfer(alloc, regime, out);
    for piece in docket.staged.as_slice() {
        put_elements(piece.as_slice(), out);
    }
    if regime.window != 0 || regime.ended {
        out.put(" window or end");
    }
    out.put(") ");
}

fn put_users(users: &[User], out: &mut Text) {
    for user in users {
        put_name("<", &user.identity, out);
        put_password(" ", &user.password, out);
        out.put("> ");
    }
}

/// Appends the users, the files and the dockets.
pub fn put_tables(alloc: Global, tables: &Tables, out: &mut Text) {
    put_users(tables.users.as_slice(), out);
    for file in tables.files.as_slice() {
        put_file(file, out);
    }
    for docket in tables.dockets.as_slice() {
        put_docket(alloc, docket, out);
    }
}
