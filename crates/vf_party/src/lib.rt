//! One party of the filestore, in its innermost regime (ISO 8571-4): what comes of each message, by the step of its typed
//! state that takes it.
#![tactic(auto)]

mod aborting;
mod apart;
mod asked;
mod copies;
mod departing;
mod grouping;
mod hearing;
mod items;
mod outcomes;
mod party;
mod quiet;
mod refusals;
mod selecting;
mod setting;
mod taking_group;
mod taking_idle;
mod taking_quiet;
mod taking_reading;
mod taking_regime;
mod taking_writing;
mod tried;
mod trying;
mod writing_on;

pub use hearing::Answered;
pub use party::{Grouping, Outcome, Party};
pub use quiet::Quiet;
pub use setting::Setting;
pub use vf_party_steps::{
    Associated, Idle, Message, Open, Reading, Recovered, Said, Selected, Step, StepError, Writing,
};
