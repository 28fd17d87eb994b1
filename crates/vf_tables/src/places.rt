//! Dockets and tasks found by their keys, one after another: there are few of them.
ghost use Rattle.std.specs.Prelude.{◌≡◌, find, option_copied};
ghost use Rattle.std.specs.List.{position};
ghost use Rattle.vf_tables.specs.Entries.{is_docket, is_task};

use crate::{Docket, Task};
use vf_base::Name;

pub(crate) fn docket_in<'a>(
    dockets: &'a [Docket],
    identity: &Name,
    activity: u32,
) -> Option<&'a Docket>
    ensures { option_copied result ≡ find (is_docket identity.now activity) dockets.now }
{
    dockets.iter().find(|docket| *identity == docket.regime.identity
        && activity == docket.regime.activity)
}

pub(crate) fn task_in(tasks: &[Task], activity: u32) -> Option<&Task>
    ensures { option_copied result ≡ find (is_task activity) tasks.now }
{
    tasks.iter().find(|task| activity == task.plan.activity)
}

pub(crate) fn place_of_docket(dockets: &[Docket], identity: &Name, activity: u32) -> Option<usize>
    ensures { result ≡ position (is_docket identity.now activity) dockets.now }
{
    dockets.iter().position(|docket| *identity == docket.regime.identity
        && activity == docket.regime.activity)
}

pub(crate) fn place_of_task(tasks: &[Task], activity: u32) -> Option<usize>
    ensures { result ≡ position (is_task activity) tasks.now }
{
    tasks.iter().position(|task| activity == task.plan.activity)
}
