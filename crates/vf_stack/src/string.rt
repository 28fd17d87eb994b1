//! Elements that are one string, which are nearly all that is sent by number: what stands before the string in its TSDU is put at
//! once, and its octets are copied into its packet from where they stand.
ghost use Rattle.std.specs.Prelude.{◌≡◌, IfOk, IfSome, OnErr};
ghost use Rattle.vf_ber.specs.Tree.{plain};
ghost use Rattle.vf_elements.specs.ElementValue.{value as element_value};
ghost use Rattle.vf_stack.specs.Represents.{standing_of};
ghost use Rattle.vf_stack.specs.Sends.{PutsHead, unit_kept};
ghost use Rattle.vf_upper.specs.Written.{universal};

use crate::exchange::KeptExchange;
use crate::placing::element_id;
use crate::unit::PLAIN;
use crate::{Item, Request};
use vf_base::{Element, NoMemory, Octets};
use vf_upper::put_front;

/// The universal class of binary contents: OCTET STRING.
const OCTET_STRING: u8 = 4;

/// The universal class and the octets of an element that is a string.
fn string_of(element: &Element) -> Option<(u8, &Octets)>
    ensures { IfSome result (λ string. element_value element.now ≡ plain (universal string.0) string.1.now) }
{
    match element {
        Element::Text { class, octets } => Some((*class, octets)),
        Element::Binary { octets } => Some((OCTET_STRING, octets)),
        Element::Descriptor { .. } => None,
        Element::Enter => None,
        Element::Exit => None,
    }
}

/// The element of a request.
fn element_of(request: &Request) -> Option<&Element>
    ensures { IfSome result (λ element. request.now ≡ Request.Item (Item.Element element.now)) }
{
    match request {
        Request::Item(Item::Element(element)) => Some(element),
        _ => None,
    }
}

impl KeptExchange {
    /// Appends what stands before the string of a request in its TSDU, where it is P-DATA of one string that is spelled so; answers
    /// its octets. Without them nothing is appended.
    pub(crate) fn put_before<'a>(
        &self,
        request: &'a Request,
        head: &mut Vec<u8>,
    ) -> Result<Option<&'a Octets>, NoMemory>
        ensures { IfOk result (λ string. IfSome string (λ octets. PutsHead self.now request.now octets.now head.old.items head.new.items)) }
    {
        let Some(element) = element_of(request) else {
            return Ok(None);
        };
        let Some((class, octets)) = string_of(element) else {
            return Ok(None);
        };
        let context = element_id(self.accepted.as_slice(), element);
        head.reserve(23)?;
        head.extend_from_slice(&PLAIN)?;
        if put_front(context, class, octets.len(), head)? {
            Ok(Some(octets))
        } else {
            Ok(None)
        }
    }
}
