//! What a filestore keeps (ISO 8571-2 and -3): its users, its files, the dockets of its recoverable regimes and the
//! tasks of its initiator, and the changes of these.
#![tactic(auto)]

mod change;
mod changes;
mod docket;
mod doubled;
mod entries;
mod files;
mod fitting;
mod laws;
mod limits;
mod making;
mod pieces;
mod places;
mod snapshot;
mod tables;
mod task;
mod user;
mod validity;

pub use change::{Change, Changes};
pub use docket::{Direction, Docket, Operation, Regime};
pub use doubled::Doubled;
pub use entries::Entries;
pub use files::Files;
pub use laws::{kept_stay, snapshot_makes};
pub use limits::{
    MOST_ACTIVITY, MOST_DOCKETS, MOST_EVERY, MOST_FILES, MOST_FILESTORE_OCTETS,
    MOST_PASSWORD_OCTETS, MOST_POINT, MOST_SURVIVING_ELEMENTS, MOST_SURVIVING_OCTETS, MOST_TASKS,
    MOST_TERMS, MOST_TRANSFERS, MOST_USERS,
};
pub use pieces::Pieces;
pub use tables::{Dockets, Tables, Tasks, Users};
pub use task::{Phase, Plan, Task, Way};
pub use user::User;
