//! Laws of an association, each the contract of a function that does nothing.
ghost use Rattle.std.specs.Prelude.{ℕ, ◌++◌, ◌≤◌, Bool, List, length};
ghost use Rattle.vf_session.specs.declared.units.SessionSay.{SessionSay};
ghost use Rattle.vf_stack.specs.Mutual.{IsAnsweredSo, IsReceived, IsRequestReceived, MeansOneContext, TellsItself};
ghost use Rattle.vf_stack.specs.declared.indication.Indication.{Indication};
ghost use Rattle.vf_stack.specs.declared.request.Request.{Request};
ghost use Rattle.vf_session.specs.declared.units.TokenSide.{TokenSide};
ghost use Rattle.vf_stack.specs.Association.{Association, end_of};
ghost use Rattle.vf_stack.specs.Few.{FewTellLast};
ghost use Rattle.vf_stack.specs.Ranges.{TellsRead};
ghost use Rattle.vf_stack.specs.Represents.{Kept};
ghost use Rattle.vf_stack.specs.Pieces.{AreCut, TellOnce, TellsByOctets, TellsInPieces};
ghost use Rattle.vf_stack.specs.Examples.{CarriageExamples, ReceivedExamples};
ghost use Rattle.vf_tpkt.specs.Stream.{reading as stream_read};
ghost use Rattle.vf_tpkt.specs.Wanting.{TellsOnce};
ghost use Rattle.vf_upper.specs.declared.contexts.Offer.{Offer};

/// A stream tells what its pieces tell, one after the other, wherever it is cut.
pub fn pieces_tell_all()
    ensures pieces { (own : TokenSide) (a : Association) (first second : List ℕ) → TellsInPieces own a first second }
    ensures octets { (own : TokenSide) (a : Association) (first second : List ℕ) → AreCut own a first second }
{}

/// What octets tell one by one is what they tell as a piece.
pub fn octets_tell_the_piece()
    ensures { (own : TokenSide) (a : Association) (octet : ℕ) (octets : List ℕ) → TellsByOctets own a octet octets }
{}

/// Of octets by which transport tells one thing at most, wherever they are cut, either those before the cut tell nothing or
/// those after it do.
pub fn octets_tell_once()
    ensures { (own : TokenSide) (a : Association) (most : ℕ) (first second : List ℕ) → TellsOnce (stream_read (end_of own) a.stream).kept most → length (first ++ second) ≤ most → TellOnce own a first second }
{}

/// Examples of what is received: the definitions compute what each comes to.
pub fn examples_compute()
    ensures received { ReceivedExamples }
    ensures carriage { CarriageExamples }
{}

/// What one end may send the other receives, where both agree by session and nothing is on its way: a unit that tells
/// indications and no fault is received as these and nothing else.
pub fn sent_is_received()
    ensures { (own : TokenSide) (offer far_offer : Bool) (a far : Association) (most : ℕ) (unit : SessionSay) (told : List Indication) → IsReceived own offer far_offer a far most unit told }
{}

/// So the packets that `send` appends for a request that `may` permits: the other end, where both agree and nothing is on
/// its way, receives them as the indications that the unit tells, and nothing else.
pub fn requests_are_received()
    ensures { (own : TokenSide) (offer far_offer : Bool) (a far : Association) (request : Request) (told : List Indication) → IsRequestReceived own offer far_offer a far request told }
{}

/// An identifier of a context means after an association request what it means in it (ISO 8823), and to the calling end by
/// the results of the answer, also where several proposals have it, of which the first counts (profile).
pub fn identifiers_mean_one_context()
    ensures requested { (offers : List Offer) → MeansOneContext offers }
    ensures answered { (offers : List Offer) → IsAnsweredSo offers }
{}

/// A request that `may` permits is received as itself, where both ends agree, have the same contexts, and nothing is on its
/// way: the packets that `send` appends tell the other end the indication of the request's name with the request's PDU or
/// element, its number and its sync, and nothing else (ISO 8571-4). F-CANCEL and its response are data where sync isn't
/// agreed, and the token passes without an indication.
pub fn requests_tell_themselves()
    ensures { (own : TokenSide) (offer far_offer : Bool) (a far : Association) (request : Request) → TellsItself own offer far_offer a far request }
{}

/// Of at most as many octets as a packet lacks the last alone tells something, or one that ends receiving; those before it
/// only lengthen the stream.
pub fn few_octets_tell_last()
    ensures { (kept : Kept) (a : Association) (octets : List ℕ) → FewTellLast kept a octets }
{}

/// What octets tell was read: the PDU of each indication, and its element, have each field in its range (ISO 8571-4), and its
/// serial number has six digits (ISO 8327).
pub fn told_was_read()
    ensures { (own : TokenSide) (a : Association) (octets : List ℕ) → TellsRead own a octets }
{}
