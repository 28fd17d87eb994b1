use vf_base::{Actions, Name, Octets};
use vf_pdu_fields::AttributeControls;

/// Who is at the other end of a link, and what was agreed with it (ISO 8571-3, F-INITIALIZE).
#[derive(Drop)]
pub struct Association {
    /// The number of the link.
    pub link: u32,
    pub identity: Name,
    /// The functional units, in sum.
    pub units: u16,
    /// How many checks may be open at once, 1 to 16.
    pub window: u16,
}

/// A selected file, by its name, and what was asked for it (ISO 8571-3, F-SELECT).
#[derive(Drop)]
pub struct Selection {
    pub file: Name,
    pub requested: Actions,
    /// Those that came with the request, or those that stand for absent ones.
    pub controls: AttributeControls,
    /// At most 255 octets.
    pub password: Option<Octets>,
}
