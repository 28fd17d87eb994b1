//! Examples, each the contract of a function that does nothing.
ghost use Rattle.vf_filestore.specs.RowsOfAttributes.{RowsOfAttributes};
ghost use Rattle.vf_filestore.specs.RowsOfChanges.{RowsOfChanges};
ghost use Rattle.vf_filestore.specs.RowsOfControls.{RowsOfControls};
ghost use Rattle.vf_filestore.specs.RowsOfGroups.{RowsOfGroups};
ghost use Rattle.vf_filestore.specs.RowsOfOpens.{RowsOfOpens};
ghost use Rattle.vf_filestore.specs.RowsOfRandom.{RowsOfRandom};
ghost use Rattle.vf_filestore.specs.RowsOfReads.{RowsOfReads};
ghost use Rattle.vf_filestore.specs.RowsOfRecovery.{RowsOfRecovery};
ghost use Rattle.vf_filestore.specs.RowsOfWrites.{RowsOfWrites};

/// What runs with users, access control, attributes and their changes come to.
pub fn attributes_compute()
    ensures { RowsOfAttributes }
{}

/// Which changes messages make, and that they lead from what was kept to what is kept.
pub fn changes_compute()
    ensures { RowsOfChanges }
{}

/// What runs of several links come to whose controls clash.
pub fn controls_compute()
    ensures { RowsOfControls }
{}

/// What groups come to.
pub fn groups_compute()
    ensures { RowsOfGroups }
{}

/// What selections, creations and opens come to, and which refusal goes first.
pub fn opens_compute()
    ensures { RowsOfOpens }
{}

/// What runs come to that were drawn at random, as another model (bench/filestore) makes them.
pub fn random_runs_compute()
    ensures { RowsOfRandom }
{}

/// What reads come to, with checks and without.
pub fn reads_compute()
    ensures { RowsOfReads }
{}

/// What recoveries come to after breaks and stops, and that a break and a stop change nothing that a store keeps.
pub fn recovery_computes()
    ensures { RowsOfRecovery }
{}

/// What writes come to, with checks, restarts and cancels.
pub fn writes_compute()
    ensures { RowsOfWrites }
{}
