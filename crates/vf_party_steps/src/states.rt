ghost use Rattle.std.specs.Prelude.{◌≡◌};

use vf_base::Actions;
use vf_pdu_fields::ContentControls;
use vf_regime_refusals::{Association, Selection};

/// A party with an association and no selected file.
#[derive(Drop)]
pub struct Associated {
    pub(crate) association: Association,
}

/// A party with a selected file that isn't open.
#[derive(Drop)]
pub struct Selected {
    pub(crate) associated: Associated,
    pub(crate) selection: Selection,
}

/// A party with an open file, in which no transfer is under way.
#[derive(Drop)]
pub struct Open {
    pub(crate) selected: Selected,
    pub(crate) regime: OpenRegime,
}

/// What is kept of an open regime beside its selection (ISO 8571-3, F-OPEN).
#[derive(Drop)]
pub(crate) struct OpenRegime {
    pub(crate) mode: Actions,
    pub(crate) controls: ContentControls,
    /// With one the open is recoverable.
    pub(crate) activity: Option<u32>,
    /// The position in the file, in units.
    pub(crate) position: u32,
    /// How many transfers are concluded, at most 1,000,000.
    pub(crate) done: u32,
    /// How the last of them ended: 0, or the number of its diagnostic.
    pub(crate) last: u16,
}

impl Associated {
    pub fn association(&self) -> &Association
        ensures { result.now ≡ self.now.association }
    {
        &self.association
    }
}

impl Selected {
    pub fn association(&self) -> &Association
        ensures { result.now ≡ self.now.associated.association }
    {
        &self.associated.association
    }
}

impl Open {
    pub fn association(&self) -> &Association
        ensures { result.now ≡ self.now.selected.associated.association }
    {
        &self.selected.associated.association
    }

    /// The activity of a recoverable open.
    pub fn activity(&self) -> Option<u32>
        ensures { result ≡ self.now.regime.activity }
    {
        self.regime.activity
    }

    /// How many transfers are concluded.
    pub fn done(&self) -> u32
        ensures { result ≡ self.now.regime.done }
    {
        self.regime.done
    }
}
