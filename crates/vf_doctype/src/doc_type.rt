ghost use Rattle.std.specs.Prelude.{◌≡◌};
ghost use Rattle.vf_doctype.specs.DocumentTypes.{constraint_of, doc_type, has_parameters as parameters_meant, is_class as class_meant, kind_of as kind_meant};

use vf_base::{Constraint, Contents, MOST_STRING_OCTETS};

/// The document types of this profile.
#[derive(Clone, Copy, PartialEq, Eq)]
pub(crate) enum Kind {
    /// Unstructured text.
    Ftam1,
    /// Sequential text.
    Ftam2,
    /// Unstructured binary.
    Ftam3,
}

/// A document type with its parameters.
#[derive(Clone, Copy)]
pub struct DocType {
    pub(crate) kind: Kind,
    /// The universal class of text.
    pub(crate) class: u8,
    /// The most octets of a string; 0 where there is no such limit.
    pub(crate) longest: u32,
    /// Whether each string has the longest length.
    pub(crate) is_fixed: bool,
}

impl DocType {
    /// The document type of a contents type. There is none exactly where the kind isn't FTAM-1, FTAM-2 or FTAM-3, the
    /// class isn't 22, 25, 26 or 27, `longest` is above 65,536, the significance is above 2, or it is 1 while
    /// `longest` is 0.
    pub fn of(contents: &Contents) -> Option<DocType>
        ensures { result ≡ doc_type contents.now }
    {
        if !has_parameters(contents) {
            return None;
        }
        let kind = kind_of(contents.kind.arcs())?;
        Some(DocType {
            kind,
            class: contents.class,
            longest: contents.longest,
            is_fixed: contents.significance == 1,
        })
    }

    /// The constraint set of a file of this document type.
    pub fn constraint(&self) -> Constraint
        ensures { result ≡ constraint_of self.now.kind }
    {
        match self.kind {
            Kind::Ftam1 | Kind::Ftam3 => Constraint::Unstructured,
            Kind::Ftam2 => Constraint::SequentialFlat,
        }
    }
}

fn has_parameters(contents: &Contents) -> bool
    ensures { result ≡ parameters_meant contents.now }
{
    is_class(contents.class)
        && contents.longest <= MOST_STRING_OCTETS
        && contents.significance <= 2
        && !(contents.significance == 1 && contents.longest == 0)
}

fn is_class(class: u8) -> bool
    ensures { result ≡ class_meant class }
{
    class == 22 || class == 25 || class == 26 || class == 27
}

fn kind_of(arcs: &[u32]) -> Option<Kind>
    ensures { result ≡ kind_meant arcs.now }
{
    if arcs == [1, 0, 8571, 5, 1].as_slice() {
        Some(Kind::Ftam1)
    } else if arcs == [1, 0, 8571, 5, 2].as_slice() {
        Some(Kind::Ftam2)
    } else if arcs == [1, 0, 8571, 5, 3].as_slice() {
        Some(Kind::Ftam3)
    } else {
        None
    }
}
