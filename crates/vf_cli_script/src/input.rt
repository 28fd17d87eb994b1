//! The octets of an input.
ghost use Rattle.std.specs.Prelude.{◌≡◌, ◌<◌, ◌≤◌, ◌++◌, List, ℕ, Some, IfOk, IsErrOf, OnOk, length};
ghost use Rattle.vf_base.specs.Faults.{HasRisen, NeverFalls};
ghost use Rattle.vf_base.specs.Streams.{IsAtEnd};
ghost use Rattle.vf_cli_script.specs.Inputs.{IsFront};
ghost use Rattle.vf_cli_script.specs.declared.input.TheConstants.{INPUT_LIMIT};

use std::alloc::Global;
use vf_base::{Failed, NoMemory, Source};

/// The octets of a script, line feeds among them, after which no line may end (profile).
pub(crate) const INPUT_LIMIT: usize = 67_108_864;

/// The octets that are read at once.
const BLOCK: usize = 65_536;

/// Why an input couldn't be read.
#[derive(Clone, Copy, Debug, PartialEq, Eq)]
pub enum ReadError {
    /// The source failed, and its count rose in this call.
    Failed,
    /// Memory is wanting.
    NoMemory,
}

impl From<NoMemory> for ReadError {
    ghost use Rattle.std.specs.Prelude.{◌≡◌};
    ghost use Rattle.vf_cli_script.specs.declared.input.ReadError.TheVariants as errors;

    ghost from_gives = { λ _ error. error ≡ errors.NoMemory };

    fn from(_error: NoMemory) -> ReadError {
        ReadError::NoMemory
    }
}

impl From<Failed> for ReadError {
    ghost use Rattle.std.specs.Prelude.{◌≡◌};
    ghost use Rattle.vf_cli_script.specs.declared.input.ReadError.TheVariants as errors;

    ghost from_gives = { λ _ error. error ≡ errors.Failed };

    fn from(_error: Failed) -> ReadError {
        ReadError::Failed
    }
}

/// The octets of an input to its end, or the first ones where it has more than a script may have.
pub(crate) fn read_all<I: Source>(alloc: Global, input: &mut I) -> Result<Vec<u8>, ReadError>
    ensures octets { (all : List ℕ) → I.left input.old ≡ Some all → IfOk result (λ octets. IsFront octets.items all) }
    ensures end { IfOk result (λ octets. length octets.items ≤ INPUT_LIMIT → IsAtEnd (I.left input.new)) }
    ensures falls { NeverFalls (I.fault_count input.old) (I.fault_count input.new) }
    ensures failed { IsErrOf result ReadError.Failed → HasRisen (I.fault_count input.old) (I.fault_count input.new) }
{
    let mut block = block(alloc)?;
    let mut octets = Vec::new(alloc);
    while octets.len() <= INPUT_LIMIT {
        let count = input.read(block.as_mut_slice())?;
        if count == 0 {
            return Ok(octets);
        }
        append(&block[..count], &mut octets)?;
    }
    Ok(octets)
}

/// Room for the octets that are read at once.
fn block(alloc: Global) -> Result<Vec<u8>, NoMemory>
    ensures { IfOk result (λ block. 0 < length block.items) }
{
    let mut block = Vec::new(alloc);
    block.resize(BLOCK, 0)?;
    Ok(block)
}

fn append(more: &[u8], octets: &mut Vec<u8>) -> Result<(), NoMemory>
    ensures { OnOk result (octets.new.items ≡ octets.old.items ++ more.now) }
{
    octets.extend_from_slice(more)?;
    Ok(())
}
