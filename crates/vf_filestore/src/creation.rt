use vf_base::{Actions, Contents, Name, Terms};

/// The attributes of a file that is to be created.
#[derive(Drop)]
pub struct NewFile {
    pub name: Name,
    pub contents: Contents,
    pub permitted: Actions,
    pub terms: Terms,
}
