//! Stamps as they are shown.
ghost use Rattle.std.specs.Prelude.{◌≡◌, IfOk};
ghost use Rattle.std.specs.Option.{option_map};
ghost use Rattle.vf_filestore.specs.Replies.{asked_for, asked_option as asked_option_meant, stamp_text};

use crate::numbers::is_asked;
use std::alloc::Global;
use vf_base::NoMemory;
use vf_pdu_parameters::Stamp as ShownStamp;

/// A stamp, where its attribute is asked for.
pub(crate) fn asked_stamp(
    alloc: Global,
    names: u16,
    number: u16,
    stamp: &vf_attr::Stamp,
) -> Result<Option<ShownStamp>, NoMemory>
    ensures { IfOk result (λ shown. shown ≡ asked_for names number (stamp_text stamp.now)) }
{
    if !is_asked(names, number) {
        return Ok(None);
    }
    let shown = shown_stamp(alloc, stamp)?;
    Ok(Some(shown))
}

/// A stamp, where its attribute is asked for and there.
pub(crate) fn asked_option(
    alloc: Global,
    names: u16,
    number: u16,
    stamp: &Option<vf_attr::Stamp>,
) -> Result<Option<ShownStamp>, NoMemory>
    ensures { IfOk result (λ shown. shown ≡ asked_option_meant names number (option_map stamp_text stamp.now)) }
{
    match stamp {
        Some(stamp) => {
            let shown = asked_stamp(alloc, names, number, stamp)?;
            Ok(shown)
        }
        None => Ok(None),
    }
}

/// The date and time as text, and the identity, whose octets are shared.
fn shown_stamp(alloc: Global, stamp: &vf_attr::Stamp) -> Result<ShownStamp, NoMemory>
    ensures { IfOk result (λ shown. shown ≡ stamp_text stamp.now) }
{
    let date = stamp.moment.text(alloc)?;
    let identity = stamp.identity.copy(alloc)?;
    Ok(ShownStamp { date, identity })
}
