//! Laws of the lexer's definitions.

use lalrpop_lexer_pattern::sets_are_their_members;
use lalrpop_lexer_regex::escapes_are_read_back;
use lalrpop_lexer_scan::{cuts_are_unique, tokens_fill_their_text};

#[test]
fn laws_are_called() {
    sets_are_their_members();
    escapes_are_read_back();
    cuts_are_unique();
    tokens_fill_their_text();
}
