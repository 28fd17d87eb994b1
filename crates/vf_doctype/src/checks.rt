ghost use Rattle.std.specs.Prelude.{◌≡◌, length, MatchResult, Some, None};
ghost use Rattle.std.specs.List.{list_all};
ghost use Rattle.vf_doctype.specs.Checks.{fault, fits as fits_meant, has_length as length_meant, is_octet as octet_meant, takes as takes_meant};

use crate::DocError;
use crate::doc_type::{DocType, Kind};
use vf_base::{Element, MOST_STRING_OCTETS, Octets};

impl DocType {
    /// Whether an element is one of the document type, alone.
    ///
    /// `BadElement` for an element that it doesn't take, then `TooLong` for a string of another length. Answers no
    /// want of memory.
    pub fn check(&self, element: &Element) -> Result<(), DocError>
        ensures { MatchResult result (λ _. fault self.now element.now ≡ None) (λ error. fault self.now element.now ≡ Some error) }
    {
        if !takes(self, element) {
            return Err(DocError::BadElement);
        }
        if !has_length(self, element) {
            return Err(DocError::TooLong);
        }
        Ok(())
    }
}

fn takes(doc: &DocType, element: &Element) -> bool
    ensures { result ≡ takes_meant doc.now element.now }
{
    match element {
        Element::Descriptor { .. } => doc.kind == Kind::Ftam2,
        Element::Enter | Element::Exit => false,
        Element::Text { class, octets } => {
            doc.kind != Kind::Ftam3 && *class == doc.class && is_string(*class, octets.as_slice())
        }
        Element::Binary { .. } => doc.kind == Kind::Ftam3,
    }
}

fn is_string(class: u8, octets: &[u8]) -> bool
    ensures { result ≡ list_all (octet_meant class) octets.now }
{
    octets.iter().all(|octet| is_octet(class, *octet))
}

fn is_octet(class: u8, octet: u8) -> bool
    ensures { result ≡ octet_meant class octet }
{
    match class {
        22 => octet <= 0x7f,
        26 => (0x20..=0x7e).contains(&octet),
        _ => true,
    }
}

fn has_length(doc: &DocType, element: &Element) -> bool
    ensures { result ≡ length_meant doc.now element.now }
{
    match element {
        Element::Text { octets, .. } | Element::Binary { octets } => fits(doc, octets),
        _ => true,
    }
}

fn fits(doc: &DocType, octets: &Octets) -> bool
    ensures { result ≡ fits_meant doc.now (length octets.now) }
{
    let count = octets.len();
    let longest = doc.longest as usize;
    count <= MOST_STRING_OCTETS as usize
        && (longest == 0 || count <= longest)
        && (!doc.is_fixed || count == longest)
}
