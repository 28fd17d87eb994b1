use vf_base::Octets;

/// A string that is shared, after so many short octets since the one before it.
#[derive(Drop)]
pub(crate) struct Part {
    pub(crate) before: usize,
    pub(crate) octets: Octets,
}
