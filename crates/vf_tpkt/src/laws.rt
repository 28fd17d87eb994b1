//! Laws of the definitions, each the contract of a function that does nothing.
ghost use Rattle.std.specs.Prelude.{◌≡◌, ℕ, List, ◌++◌, ◌≤◌, length};
ghost use Rattle.vf_tpkt.specs.Receiving.{Kept, Progress, onward, preceded, receives};
ghost use Rattle.vf_tpkt.specs.Sending.{ReceivesSent};
ghost use Rattle.vf_tpkt.specs.Stream.{HoldsTpdus, reading};
ghost use Rattle.vf_tpkt.specs.declared.phase.Side.{Side};
ghost use Rattle.vf_tpkt.specs.Greeting.{ConnectsCalled, ConnectsCalling};

/// A stream tells what its parts tell, one after the other, wherever it is cut.
pub fn pieces_tell_all()
    ensures { (kept : Kept) (a b : List ℕ) → onward kept (a ++ b) ≡ preceded (onward kept a).units (onward kept a).answers (onward (onward kept a).kept b) }
{}

/// What one end sends of a TSDU the other end, where the connection stands, receives as this TSDU and nothing else.
pub fn sent_is_received()
    ensures { (p : Progress) (most : ℕ) (tsdu more : List ℕ) → ReceivesSent p most tsdu more }
{}

/// The called end answers the CR that the calling end sends by a CC, at which both stand, with DT of the greatest size.
pub fn ends_connect()
    ensures called { ConnectsCalled }
    ensures calling { ConnectsCalling }
{}

/// Each stream of octets is the packets of a list of TPDUs, each allowed after those before it, and then a rest or a
/// fault; its units and answers, and what is kept of it, are filters on that list.
pub fn stream_holds_tpdus()
    ensures { (side : Side) (stream : List ℕ) → HoldsTpdus side stream }
{}

/// Packet by packet, by what the connection then is, a stream tells what the list of its TPDUs tells.
pub fn packets_tell_the_reading()
    ensures { (side : Side) (stream : List ℕ) → receives side stream ≡ reading side stream }
{}
