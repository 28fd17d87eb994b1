//! Laws of transfers, each the contract of a function that does nothing.
ghost use Rattle.vf_transfer.specs.Laws.{OffersLast, PointStands, Recovers, SendsNext};

/// The next value of an end that sends joins its transfer.
pub fn next_joins()
    ensures { SendsNext }
{}

/// The number of checks that an end has offered is that of the last check of its transfer that stands.
pub fn last_is_offered()
    ensures { OffersLast }
{}

/// The last check that is acknowledged stands, where acknowledgements and restarts are of checks that stood.
pub fn point_stands()
    ensures { PointStands }
{}

/// What stands once a transfer went on after a restart or a recovery at a check: what stood before the check, and
/// what stands of the later entries.
pub fn recovers()
    ensures { Recovers }
{}
