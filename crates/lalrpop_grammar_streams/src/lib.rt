//! Readers and writers that remember their failure, with bounds on what they read and on how often they are called.
#![tactic(auto)]

mod error;
mod sink;
mod source;
mod watch;
mod watched;
mod whole;

pub use error::SourceError;
pub use sink::Sink;
pub use source::Source;
pub use watch::{MAX_BYTES, MAX_CALLS, Watch};
pub use watched::Watched;
pub use whole::{read_all, write_all};
