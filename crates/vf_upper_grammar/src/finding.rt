//! Finding of user data.
ghost use Rattle.std.specs.Prelude.{◌≡◌, []};
ghost use Rattle.vf_upper_grammar.specs.MarkViews.{Gives, marks_of};
ghost use Rattle.vf_upper_grammar.specs.Types.{user_data_of, found_in};

use crate::marks::{Marks, Stop};
use crate::table::user_data;
use crate::walk::typed;
use std::alloc::Global;
use vf_base::{Octets, SpduKind};

/// Finds what the user data of an SPDU of this kind say (ISO 8823, 8.2; ISO 8650-1, 9; profile), in the order of
/// octets. `At` is the place of the first octet that is a fault of the form; where it is given, or memory is wanting,
/// what was found before it may be among the marks. The contents of values are shared with the user data.
pub fn find(
    alloc: Global,
    carrier: SpduKind,
    octets: &Octets,
    found: &mut Marks,
) -> Result<(), Stop>
    requires { marks_of found.old ≡ [] }
    ensures { Gives result (marks_of found.new) (found_in (user_data_of carrier) octets.now) }
{
    let Some(field) = user_data(carrier) else {
        return Err(Stop::At(0));
    };
    typed(alloc, carrier, field, octets, octets.as_slice(), found)
}
