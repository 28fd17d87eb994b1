ghost use Rattle.std.specs.Prelude.{◌≡◌, ◌++◌, ◌∷◌, [], IfOk, option_copied};
ghost use Rattle.vf_initiator.specs.Assignments.{given_of, kept_values, values_of};
ghost use Rattle.vf_transfer.specs.Transfer.{joined};

use crate::assignment::Assignment;
use crate::{Plan, Task};
use std::alloc::Global;
use vf_base::{Element, Elements, NoMemory, Sequence};
use vf_tables::{Task as KeptTask, Way};

/// What an initiator is given: the plan, which it hands back in the end, and what it makes of it with the kept task.
pub(crate) struct Given {
    pub(crate) plan: Plan,
    pub(crate) assignment: Assignment,
    /// The values of a put that is kept, which stand for those of the plan.
    pub(crate) kept_values: Option<Elements>,
}

impl Drop for Given {
    fn drop(self) {
        let Given {
            plan,
            assignment,
            kept_values,
        } = self;
        drop(plan);
        drop(assignment);
        drop(kept_values);
    }
}

impl Given {
    pub(crate) fn of(alloc: Global, plan: Plan, kept: Option<&KeptTask>) -> Result<Given, NoMemory>
        ensures { IfOk result (λ made. made ≡ given_of plan (option_copied kept.entry)) }
    {
        let assignment = Assignment::of(alloc, &plan, kept)?;
        let kept_values = values_kept(alloc, assignment.way, kept)?;
        Ok(Given {
            plan,
            assignment,
            kept_values,
        })
    }

    /// The plan that it was made of.
    pub(crate) fn into_plan(self) -> Plan
        ensures { result ≡ self.plan }
    {
        let Given {
            plan,
            assignment,
            kept_values,
        } = self;
        drop(assignment);
        drop(kept_values);
        plan
    }

    /// What a put is to send.
    pub(crate) fn values(&self) -> &[Element]
        ensures { result.now ≡ values_of self.now }
    {
        match &self.kept_values {
            Some(values) => values.as_slice(),
            None => match &self.plan.task {
                Task::Put { elements, .. } => elements.as_slice(),
                Task::Get { .. } => &[],
            },
        }
    }
}

/// The values of a put that is kept.
fn values_kept(
    alloc: Global,
    way: Way,
    kept: Option<&KeptTask>,
) -> Result<Option<Elements>, NoMemory>
    ensures { IfOk result (λ made. made ≡ kept_values way (option_copied kept.entry)) }
{
    let Some(task) = kept else {
        return Ok(None);
    };
    match way {
        Way::Get => Ok(None),
        Way::Put => {
            let values = join(alloc, task.staged.as_slice())?;
            Ok(Some(values))
        }
    }
}

/// Lists one after another.
pub(crate) fn join(alloc: Global, lists: &[Elements]) -> Result<Elements, NoMemory>
    ensures { IfOk result (λ made. made ≡ joined lists.now) }
{
    let mut all = Sequence::new(alloc);
    for list in lists {
        append(alloc, list.as_slice(), &mut all)?;
    }
    Ok(all)
}

/// Puts elements after others; their octets are shared.
pub(crate) fn append(
    alloc: Global,
    elements: &[Element],
    all: &mut Elements,
) -> Result<(), NoMemory>
    ensures { IfOk result (λ done. all.new ≡ all.old ++ elements.now) }
{
    for element in elements {
        let element = element.copy(alloc)?;
        all.push(element)?;
    }
    Ok(())
}
