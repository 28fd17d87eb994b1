ghost use Rattle.std.specs.Prelude.{◌≡◌};
ghost use Rattle.std.specs.List.{position_from, zip};
ghost use Rattle.vf_base.specs.declared.action.Control.{Control};
ghost use Rattle.vf_locks.specs.Clash.{clash, lowest_clash};

use vf_base::{Action, Control, Controls};

const ACTIONS: [Action; 8] = [
    Action::Read,
    Action::Insert,
    Action::Replace,
    Action::Extend,
    Action::Erase,
    Action::ReadAttribute,
    Action::ChangeAttribute,
    Action::Delete,
];

/// Whether the two controls on one action clash.
pub fn clashes(one: Control, other: Control) -> bool
    ensures { result ≡ clash one other }
{
    match one {
        Control::NotRequired => false,
        Control::Shared => matches!(other, Control::Exclusive | Control::NoAccess),
        Control::Exclusive => !matches!(other, Control::NotRequired),
        Control::NoAccess => matches!(other, Control::Shared | Control::Exclusive),
    }
}

/// The lowest action on which the controls clash.
pub fn lowest_clashing(wanted: &Controls, held: &Controls) -> Option<Action>
    ensures { result ≡ lowest_clash wanted.now held.now }
{
    let place = first_clash(wanted, held)?;
    ACTIONS.get(place).copied()
}

fn first_clash(wanted: &Controls, held: &Controls) -> Option<usize>
    ensures { result ≡ position_from (λ (pair : Control × Control). clash pair.0 pair.1) 0 (zip wanted.now.each held.now.each) }
{
    let mut pairs = wanted.each.iter().zip(held.each.iter());
    pairs.position(|(one, other)| clashes(*one, *other))
}
