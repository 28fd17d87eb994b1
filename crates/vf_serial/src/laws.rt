//! Laws of the definitions, each the contract of a function that does nothing.
ghost use Rattle.std.specs.Prelude.{ℕ};
ghost use Rattle.vf_serial.specs.FileModel.{FilesAreSerial};
ghost use Rattle.vf_serial.specs.Laws.{RunsAreOrderly, RunsAreSerial, RunsPerform};
ghost use Rattle.vf_serial.specs.Schedule.{Commute, LeavesTheSame, ShowAlike, ShowsTheSame};

/// Operations of any kind on any world: what each leaves and shows, and which are apart.
pub trait Performing {
    type Operation;

    type World;

    /// What an operation of a regime leaves.
    ghost step: { ℕ → Self.Operation → Self.World → Self.World };

    /// When an operation of a regime shows what it showed in the run.
    ghost shows: { ℕ → Self.Operation → Self.World → Type 0 };

    /// Which operations may change places.
    ghost apart: { Self.Operation → Self.Operation → Type 0 };

    /// They leave the same.
    ghost commute: { Commute step apart };

    /// They show the same.
    ghost show_alike: { ShowAlike step shows apart };
}

/// A schedule in which each regime ceases once, and each operation is apart from those of other regimes while its own
/// holds, leaves and shows in the serial order what it leaves and shows in its own.
pub fn schedules_are_serial<P: Performing>()
    ensures leaves { LeavesTheSame P.step P.apart }
    ensures shows { ShowsTheSame P.step P.shows P.apart }
{}

/// So does such a schedule of one file, whose operations are apart where neither changes the contents: the contents and
/// the elements that each read showed are those of the serial order.
pub fn files_are_serial()
    ensures { FilesAreSerial }
{}

/// In every run, with breaks, stops, recoveries and dropped dockets, the schedule of each file all of whose open regimes
/// isolate is such a one: each regime ceases once, and each operation is apart from those of other regimes while its own
/// holds.
pub fn runs_are_orderly()
    ensures { RunsAreOrderly }
{}

/// In every run the operations of each file, performed in their own order, show what was shown, and leave the contents
/// that the file has.
pub fn runs_perform()
    ensures { RunsPerform }
{}

/// So, of each file all of whose open regimes isolate, each read showed, and the contents are, what its operations give
/// one regime after another, in the order in which these ceased to hold.
pub fn runs_are_serial()
    ensures { RunsAreSerial }
{}
