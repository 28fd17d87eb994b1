ghost use Rattle.std.specs.Prelude.{◌≡◌, ◌↔◌, [], ◌∷◌, IsTrue, option_copied};
ghost use Rattle.vf_attr.specs.Access.{granted as granted_meant, is_met as met_meant, is_of as of_meant, may as may_meant, missing, open_terms, sets_of, terms_of};
ghost use Rattle.vf_base.specs.declared.action.Actions.{Actions};

use crate::{AccessError, File};
use vf_base::{Actions, Name, Octets, Term};

/// Whether an identity that gives a password, or none, may do these actions to a file.
///
/// `NotPermitted` exactly where an action isn't permitted on the file. Where the file has terms, those without an
/// identity and those of this one count: `Denied` exactly where some action is in none of them, and otherwise
/// `BadPassword` exactly where some action is in none of them whose password is absent or the one given.
pub fn may(
    file: &File,
    who: &Name,
    password: Option<&Octets>,
    actions: Actions,
) -> Result<(), AccessError>
    ensures { result ≡ may_meant file.now who.now (option_copied password.entry) actions }
{
    if !includes(file.permitted, actions) {
        return Err(AccessError::NotPermitted);
    }
    granted(file.terms.as_slice(), who, password, actions)
}

/// What terms grant; none grant all.
fn granted(
    terms: &[Term],
    who: &Name,
    password: Option<&Octets>,
    actions: Actions,
) -> Result<(), AccessError>
    ensures { result ≡ granted_meant terms.now who.now (option_copied password.entry) actions }
{
    if terms.is_empty() {
        return Ok(());
    }
    if !includes(actions_of(terms, who), actions) {
        return Err(AccessError::Denied);
    }
    if !includes(open_actions_of(terms, who, password), actions) {
        return Err(AccessError::BadPassword);
    }
    Ok(())
}

/// Whether each of the actions is in the set.
fn includes(set: Actions, actions: Actions) -> bool
    ensures { IsTrue result ↔ (missing (set ∷ []) actions ≡ []) }
{
    actions.value & set.value == actions.value
}

/// The actions in the terms that count for an identity.
fn actions_of(terms: &[Term], who: &Name) -> Actions
    ensures { (wanted : Actions) → missing (result ∷ []) wanted ≡ missing (sets_of (terms_of who.now terms.now)) wanted }
{
    let mut value = 0;
    for term in terms {
        if is_of(term, who) {
            value |= term.actions.value;
        }
    }
    Actions { value }
}

/// The actions in those of them whose password is met.
fn open_actions_of(terms: &[Term], who: &Name, password: Option<&Octets>) -> Actions
    ensures { (wanted : Actions) → missing (result ∷ []) wanted ≡ missing (sets_of (open_terms who.now (option_copied password.entry) terms.now)) wanted }
{
    let mut value = 0;
    for term in terms {
        if is_of(term, who) && is_met(term, password) {
            value |= term.actions.value;
        }
    }
    Actions { value }
}

fn is_of(term: &Term, who: &Name) -> bool
    ensures { result ≡ of_meant who.now term.now.identity }
{
    match &term.identity {
        Some(identity) => identity == who,
        None => true,
    }
}

fn is_met(term: &Term, password: Option<&Octets>) -> bool
    ensures { result ≡ met_meant term.now.password (option_copied password.entry) }
{
    match (&term.password, password) {
        (Some(wanted), Some(given)) => wanted == given,
        (Some(_), None) => false,
        (None, _) => true,
    }
}
