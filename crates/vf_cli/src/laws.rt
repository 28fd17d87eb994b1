//! A law on the words of tasks.
ghost use Rattle.vf_cli.specs.TaskWords.{TasksAreInRange};

/// The numbers and the password of a task that words tell are in their ranges, as a task over a dial wants them.
pub fn tasks_are_in_range()
    ensures { TasksAreInRange }
{}
