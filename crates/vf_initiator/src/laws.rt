//! Laws on the definitions, each the contract of a function that does nothing.
ghost use Rattle.std.specs.Prelude.{ℕ, Bool, List, Option};
ghost use Rattle.vf_initiator.specs.Examples.{Examples};
ghost use Rattle.vf_initiator.specs.Keepable.{BeginsKept, StandsAsKept, TakesKept};
ghost use Rattle.vf_initiator.specs.Talking.{Talk};
ghost use Rattle.vf_initiator.specs.declared.given.Given.{Given};
ghost use Rattle.vf_initiator.specs.declared.plan.Plan.{Plan};
ghost use Rattle.vf_tables.specs.declared.task.Task.{Task as KeptTask};

/// Worked examples of what an initiator says.
pub fn examples_compute()
    ensures { Examples }
{}

/// A task with an activity is kept (profile). Where a store may keep it as a connection begins, it may keep it as it stands
/// after each call, and the changes of the call fit valid tables that keep it as it stood: they lead from these to valid ones
/// that keep it as it stands then, all else unchanged, or that don't keep it any more where it ended.
pub fn tasks_are_kept()
    ensures same { (plan : Plan) (task : KeptTask) (activity : ℕ) → StandsAsKept plan task activity }
    ensures begun { (plan : Plan) (task : Option KeptTask) (activity : ℕ) → BeginsKept plan task activity }
    ensures taken { (given : Given) (offer : Bool) (activity : ℕ) (talk : Talk) (piece octets : List ℕ) (talk' : Talk) → TakesKept given offer activity talk piece octets talk' }
{}
