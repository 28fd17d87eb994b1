//! The controls of one holder on each action (ISO 8571-2, concurrency control).
ghost use Rattle.std.specs.Prelude.{◌≡◌, None};
ghost use Rattle.vf_filestore.specs.Controls.{attribute_controls as attributes_meant, attributes_usable as attributes_usable_meant, content_controls as contents_meant, contents_usable as contents_usable_meant, control_for as control_meant, is_usable as usable_meant, joined as joined_meant, not_opened as not_opened_meant};

use crate::access::has;
use vf_base::{Action, Actions, Control, Controls};
use vf_pdu_fields::{AttributeControls, ContentControls};

/// The controls of a selection: those that came with it, or shared for the actions that are asked for and not required
/// for the others (profile).
pub fn attribute_controls(
    requested: Actions,
    controls: Option<AttributeControls>,
) -> AttributeControls
    ensures { result ≡ attributes_meant requested controls }
{
    match controls {
        Some(controls) => controls,
        None => AttributeControls {
            read_attribute: control_for(requested, Action::ReadAttribute),
            change_attribute: control_for(requested, Action::ChangeAttribute),
            delete: control_for(requested, Action::Delete),
        },
    }
}

/// The controls of an open: those that came with it, or shared for the actions of its mode and not required for the
/// others (profile).
pub fn content_controls(mode: Actions, controls: Option<ContentControls>) -> ContentControls
    ensures { result ≡ contents_meant mode controls }
{
    match controls {
        Some(controls) => controls,
        None => ContentControls {
            read: control_for(mode, Action::Read),
            insert: control_for(mode, Action::Insert),
            replace: control_for(mode, Action::Replace),
            extend: control_for(mode, Action::Extend),
            erase: control_for(mode, Action::Erase),
        },
    }
}

/// Those of a file that is selected and not open.
pub fn not_opened() -> ContentControls
    ensures { result ≡ not_opened_meant }
{
    ContentControls {
        read: Control::NotRequired,
        insert: Control::NotRequired,
        replace: Control::NotRequired,
        extend: Control::NotRequired,
        erase: Control::NotRequired,
    }
}

/// Both together, in the order of the actions.
pub fn joined(contents: ContentControls, attributes: AttributeControls) -> Controls
    ensures { result ≡ joined_meant contents attributes }
{
    Controls {
        each: [
            contents.read,
            contents.insert,
            contents.replace,
            contents.extend,
            contents.erase,
            attributes.read_attribute,
            attributes.change_attribute,
            attributes.delete,
        ],
    }
}

/// The control that stands for an absent one.
fn control_for(asked: Actions, action: Action) -> Control
    ensures { result ≡ control_meant asked action }
{
    if has(asked, action) {
        return Control::Shared;
    }
    Control::NotRequired
}

/// Whether each action of a selection has a control by which its holder may do it.
pub(crate) fn attributes_usable(asked: Actions, controls: AttributeControls) -> bool
    ensures { result ≡ attributes_usable_meant asked controls }
{
    is_usable(asked, Action::ReadAttribute, controls.read_attribute)
        && is_usable(asked, Action::ChangeAttribute, controls.change_attribute)
        && is_usable(asked, Action::Delete, controls.delete)
}

/// Whether each action of an open has such a control.
pub(crate) fn contents_usable(asked: Actions, controls: ContentControls) -> bool
    ensures { result ≡ contents_usable_meant asked controls }
{
    is_usable(asked, Action::Read, controls.read)
        && is_usable(asked, Action::Insert, controls.insert)
        && is_usable(asked, Action::Replace, controls.replace)
        && is_usable(asked, Action::Extend, controls.extend)
        && is_usable(asked, Action::Erase, controls.erase)
}

/// Whether an action is not asked for, or its holder may do it.
fn is_usable(asked: Actions, action: Action, control: Control) -> bool
    ensures { result ≡ usable_meant asked action control }
{
    !has(asked, action) || matches!(control, Control::Shared | Control::Exclusive)
}
