//! Where keys are met: each repeat, group and lookaround has a rule, which stands where the key is first met.

mod first;
mod laws;
mod meeting;
mod spans;
mod walk;

pub use laws::{key_places_stay_between, key_spans_are_places};
pub use meeting::{MetKey, note_keys_met};
pub use spans::key_spans;
