ghost use Rattle.std.specs.Prelude.{◌≡◌, ◌≤◌, List, ℕ, length, IfOk, OnOk, OnErr, IsErrOf};
ghost use Rattle.vf_base.specs.Faults.{HasRisen, NeverFalls};
ghost use Rattle.vf_base.specs.Streams.{HasRead, IsAtEnd};

use crate::{ReadFault, Source};
use std::alloc::Global;

/// Reads a source to its end, or until more than `limit` octets have come.
pub fn read_up_to<S: Source>(
    alloc: Global,
    source: &mut S,
    limit: usize,
) -> Result<Vec<u8>, ReadFault>
    ensures octets { IfOk result (λ octets. HasRead (S.left source.old) (S.left source.new) octets.items) }
    ensures end { IfOk result (λ octets. length octets.items ≤ limit → IsAtEnd (S.left source.new)) }
    ensures lost { OnErr result ((prefix : List ℕ) × HasRead (S.left source.old) (S.left source.new) prefix) }
    ensures ok { OnOk result (S.fault_count source.new ≡ S.fault_count source.old) }
    ensures falls { NeverFalls (S.fault_count source.old) (S.fault_count source.new) }
    ensures failed { IsErrOf result ReadFault.Failed → HasRisen (S.fault_count source.old) (S.fault_count source.new) }
{
    let mut octets = Vec::new(alloc);
    let mut piece = [0; 4096];
    while octets.len() <= limit {
        let Ok(count) = source.read(&mut piece) else {
            return Err(ReadFault::Failed);
        };
        if count == 0 {
            return Ok(octets);
        }
        if octets.extend_from_slice(&piece[..count]).is_err() {
            return Err(ReadFault::NoMemory);
        }
    }
    Ok(octets)
}
