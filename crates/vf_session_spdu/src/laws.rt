//! Laws of reading and writing, each the contract of a function that does nothing.
ghost use Rattle.vf_session_spdu.specs.Spelling.{ReadsAlone, ReadsAfter};
ghost use Rattle.vf_session_spdu.specs.declared.spdu.Spdu.{Spdu};

/// Whoever reads an SPDU that was written, alone or after a GT, reads it as what it was.
pub fn written_is_read_again()
    ensures alone { (spdu : Spdu) → ReadsAlone spdu }
    ensures after { (gt spdu : Spdu) → ReadsAfter gt spdu }
{}
