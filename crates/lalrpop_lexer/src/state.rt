//! The states of an automaton.

use crate::kind::NfaIndex;

/// A state of an automaton: the pattern that the words which lead to it belong to, if any. Where its edges lead stands in the
/// automaton's tables.
#[derive(Drop)]
pub struct State {
    pub(crate) accepts: Option<NfaIndex>,
}
