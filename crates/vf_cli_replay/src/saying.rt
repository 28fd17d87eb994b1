//! What a line of a script has the calling end of its link say.
ghost use Rattle.std.specs.Prelude.{OnOk};
ghost use Rattle.vf_cli_calling.specs.Calling.{Calling};
ghost use Rattle.vf_cli_calling.specs.Represents.{Represents, Speaks};
ghost use Rattle.vf_cli_replay.specs.Saying.{SaysLine};

use std::alloc::Global;
use vf_base::NoMemory;
use vf_cli_calling::Caller;
use vf_cli_script::Act;

/// A calling end says what a line has it say, where it may, and its octets are appended.
pub(crate) fn say(
    alloc: Global,
    caller: &mut Caller,
    act: &Act,
    octets: &mut Vec<u8>,
) -> Result<(), NoMemory>
    // Of every calling end that this one represents.
    ensures { (calling : Calling) → Represents caller.old calling → OnOk result (Speaks (SaysLine calling act.now) octets.old.items caller.new octets.new.items) }
{
    match act {
        Act::Said { messages, .. } => caller.say_all(alloc, messages.as_slice(), octets),
        Act::Check { .. } => caller.check(alloc, octets),
        Act::Acknowledge { point, .. } => caller.acknowledge(alloc, *point, octets),
        Act::Restart { point, .. } => caller.restart(alloc, *point, octets),
        Act::Pass { .. } => caller.pass(alloc, octets),
        Act::Arrive(_) => Ok(()),
        Act::Octets { .. } => Ok(()),
        Act::End => Ok(()),
    }
}
