use crate::{Plan, Regime, User};
use vf_attr::{Attributes, File};
use vf_base::{Elements, Name, Sequence};

/// A change of what a filestore keeps.
#[derive(Drop)]
pub enum Change {
    /// The user stands in the place of the one of its identity, or after all others.
    PutUser {
        user: User,
    },
    /// The file stands in the place of the one of its name, or after all others.
    PutFile {
        file: File,
    },
    /// The file `old` has this name and these attributes; its contents stay.
    PutAttributes {
        old: Name,
        name: Name,
        attributes: Attributes,
    },
    DropFile {
        name: Name,
    },
    /// The docket of this identity and activity has these fields, and its staged pieces stay; or a docket with them
    /// and without pieces stands after all others.
    PutDocket {
        regime: Regime,
    },
    /// A docket gets one more piece, of the elements between the checkpoints `first` and `last`.
    Stage {
        identity: Name,
        activity: u32,
        first: u32,
        last: u32,
        elements: Elements,
    },
    /// The pieces of a docket after a checkpoint go.
    CutStage {
        identity: Name,
        activity: u32,
        point: u32,
    },
    DropDocket {
        identity: Name,
        activity: u32,
    },
    /// The task of this activity has these fields, and its pieces stay; or a task with them and without pieces stands
    /// after all others.
    PutTask {
        plan: Plan,
    },
    /// A task gets one more piece: of a get it ends at the checkpoint `point`, of a put it has point 0.
    StageTask {
        activity: u32,
        point: u32,
        elements: Elements,
    },
    /// The pieces of a task after a checkpoint go.
    CutTask {
        activity: u32,
        point: u32,
    },
    DropTask {
        activity: u32,
    },
}

/// Changes in the order in which they are made.
pub type Changes = Sequence<Change>;
