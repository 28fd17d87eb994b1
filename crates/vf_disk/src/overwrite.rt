ghost use Rattle.std.specs.Prelude.{◌≡◌, ◌≤◌, ◌<◌, ◌^◌, ◌+◌, length, vec_len, OnOk, OnErr};
ghost use Rattle.vf_disk.specs.Disk.{overwritten};
ghost use Rattle.vf_disk.specs.State.{lengthened};

use std::alloc::AllocError;
use vf_base::NoMemory;

/// Puts octets over those at a place and past the end; without memory all stays as it is.
pub(crate) fn overwrite(old: &mut Vec<u8>, at: usize, octets: &[u8]) -> Result<(), NoMemory>
    requires { at ≤ vec_len old.old }
    ensures ok { OnOk result (old.new.items ≡ overwritten old.old.items at octets.now) }
    ensures err { OnErr result (old.new.items ≡ old.old.items) }
{
    let over = octets.len().min(old.len() - at);
    let (inside, past) = octets.split_at(over);
    old.extend_from_slice(past)?;
    old[at..at + over].copy_from_slice(inside);
    Ok(())
}
