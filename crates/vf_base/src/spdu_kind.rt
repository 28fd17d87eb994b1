/// The session protocol data units (ISO 8327) that this profile has.
#[derive(Clone, Copy, Debug, PartialEq, Eq)]
pub enum SpduKind {
    CN,
    AC,
    RF,
    FN,
    DN,
    AB,
    AA,
    DT,
    GT,
    MIP,
    MIA,
    RS,
    RA,
}
