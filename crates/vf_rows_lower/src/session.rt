//! A session that goes on by data.
use vf_session::{Session, TokenSide};

#[test]
fn data_leave_a_session_as_it_was(rt: HostRuntime) {
    for offer in [false, true] {
        let mut session = Session::calling(offer);
        session.join_data();
        assert_eq!(rt; session.next_serial(), 1);
        assert!(rt; session.side() == TokenSide::Initiator && !session.has_token());
    }
}
