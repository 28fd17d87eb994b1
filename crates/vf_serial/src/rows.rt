//! Examples, each the contract of a function that does nothing.
ghost use Rattle.vf_serial.specs.RowsOfAppends.{RowsOfAppends};
ghost use Rattle.vf_serial.specs.RowsOfRandom.{RowsOfRandom};

/// What two systems come to that append to one file under exclusive control, one of which breaks and comes back.
pub fn appends_compute()
    ensures { RowsOfAppends }
{}

/// What runs come to that were drawn at random, as another program (bench/serial) tells of their files.
pub fn random_runs_compute()
    ensures { RowsOfRandom }
{}
