use crate::{Element, Sequence, Term};

/// The data elements of a transfer, or of what is shown, in order.
pub type Elements = Sequence<Element>;

/// A data unit of a file: the elements of its strings, in order.
pub type DataUnit = Sequence<Element>;

/// An access control list.
pub type Terms = Sequence<Term>;
