/// Why a request was refused (ISO 8571-3, diagnostic; the numbers are this profile's).
#[derive(Clone, Copy, Debug, PartialEq, Eq)]
pub struct Diagnostic {
    /// 1 to 65535.
    pub number: u16,
    pub first: i64,
    pub second: i64,
}
