//! POSIX classes: how they are written, and their ranges by their names.

ghost use Rattle.std.specs.Prelude.{◌≡◌, ℕ, ◌<◌, ◌≤◌, length, not, position, IfSome, option_map};
ghost use Rattle.std.specs.Char.{is_ascii_alphabetic};
ghost use Rattle.lalrpop_lexer_regex.specs.Posix.{caret_at, other_ranges, posix_name_at, posix_at, posix_ranges, word_ranges};

use crate::classes::text::{after, first};
use lalrpop_lexer_pattern::Range;

/// Whether a caret comes first, and the text after it.
pub(crate) fn caret(text: &[char]) -> (bool, &[char])
    ensures value { (result.0, result.1.now) ≡ caret_at text.now }
    ensures shorter { length result.1.now ≤ length text.now }
{
    match after('^', text) {
        Some(rest) => (true, rest),
        None => (false, text),
    }
}

/// The index of the first character that is no letter.
fn end_of_letters(text: &[char]) -> Option<usize>
    ensures value { result ≡ position (λ c. not (is_ascii_alphabetic c)) text.now }
    ensures within { IfSome result (λ at. at < length text.now) }
{
    text.iter()
        .position(|character| !character.is_ascii_alphabetic())
}

/// Letters in front of `:]`, and the text after that.
#[tactic(auto, unfolding(crate::specs::Posix::posix_name_at))]
fn posix_name(text: &[char]) -> Option<(&[char], &[char])>
    ensures value { option_map (λ x. (x.0.now, x.1.now)) result ≡ posix_name_at text.now }
    ensures shorter { IfSome result (λ x. length x.1.now < length text.now) }
{
    match end_of_letters(text) {
        None => None,
        Some(end) => {
            if end == 0 {
                return None;
            }
            let (name, close) = text.split_at(end);
            match after(':', close) {
                None => None,
                Some(bracket) => match after(']', bracket) {
                    None => None,
                    Some(rest) => Some((name, rest)),
                },
            }
        }
    }
}

/// Whether a POSIX class is negated, its name, and the text after it, where the text after `[` begins with one.
#[tactic(auto, unfolding(crate::specs::Posix::posix_at))]
pub(crate) fn posix(text: &[char]) -> Option<((bool, &[char]), &[char])>
    ensures value { option_map (λ x. ((x.0.0, x.0.1.now), x.1.now)) result ≡ posix_at text.now }
    ensures shorter { IfSome result (λ x. length x.1.now < length text.now) }
{
    match after(':', text) {
        None => None,
        Some(inner) => {
            let (negated, letters) = caret(inner);
            match posix_name(letters) {
                None => None,
                Some((name, rest)) => Some(((negated, name), rest)),
            }
        }
    }
}

static ALNUM: [Range; 3] = [
    Range {
        start: 0x30,
        end: 0x39,
    },
    Range {
        start: 0x41,
        end: 0x5A,
    },
    Range {
        start: 0x61,
        end: 0x7A,
    },
];

static ALPHA: [Range; 2] = [
    Range {
        start: 0x41,
        end: 0x5A,
    },
    Range {
        start: 0x61,
        end: 0x7A,
    },
];

static ASCII: [Range; 1] = [Range {
    start: 0x00,
    end: 0x7F,
}];

static BLANK: [Range; 2] = [
    Range {
        start: 0x09,
        end: 0x09,
    },
    Range {
        start: 0x20,
        end: 0x20,
    },
];

static CNTRL: [Range; 2] = [
    Range {
        start: 0x00,
        end: 0x1F,
    },
    Range {
        start: 0x7F,
        end: 0x7F,
    },
];

static DIGIT: [Range; 1] = [Range {
    start: 0x30,
    end: 0x39,
}];

static GRAPH: [Range; 1] = [Range {
    start: 0x21,
    end: 0x7E,
}];

static LOWER: [Range; 1] = [Range {
    start: 0x61,
    end: 0x7A,
}];

static PRINT: [Range; 1] = [Range {
    start: 0x20,
    end: 0x7E,
}];

static PUNCT: [Range; 4] = [
    Range {
        start: 0x21,
        end: 0x2F,
    },
    Range {
        start: 0x3A,
        end: 0x40,
    },
    Range {
        start: 0x5B,
        end: 0x60,
    },
    Range {
        start: 0x7B,
        end: 0x7E,
    },
];

static SPACE: [Range; 2] = [
    Range {
        start: 0x09,
        end: 0x0D,
    },
    Range {
        start: 0x20,
        end: 0x20,
    },
];

static UPPER: [Range; 1] = [Range {
    start: 0x41,
    end: 0x5A,
}];

static WORD: [Range; 4] = [
    Range {
        start: 0x30,
        end: 0x39,
    },
    Range {
        start: 0x41,
        end: 0x5A,
    },
    Range {
        start: 0x5F,
        end: 0x5F,
    },
    Range {
        start: 0x61,
        end: 0x7A,
    },
];

static XDIGIT: [Range; 3] = [
    Range {
        start: 0x30,
        end: 0x39,
    },
    Range {
        start: 0x41,
        end: 0x46,
    },
    Range {
        start: 0x61,
        end: 0x66,
    },
];

/// The ranges of a POSIX class by its name.
#[tactic(auto, unfolding(crate::specs::Posix::posix_ranges))]
pub(crate) fn posix_ranges(name: &[char]) -> Option<&'static [Range]>
    ensures { option_map (λ ranges. ranges.now) result ≡ posix_ranges name.now }
{
    word_ranges(name).or_else(|| other_ranges(name))
}

/// The ranges of a class of letters, digits and the underscore.
#[tactic(auto, unfolding(crate::specs::Posix::word_ranges))]
fn word_ranges(name: &[char]) -> Option<&'static [Range]>
    ensures { option_map (λ ranges. ranges.now) result ≡ word_ranges name.now }
{
    if name == ['a', 'l', 'n', 'u', 'm'].as_slice() {
        return Some(&ALNUM);
    }
    if name == ['a', 'l', 'p', 'h', 'a'].as_slice() {
        return Some(&ALPHA);
    }
    if name == ['d', 'i', 'g', 'i', 't'].as_slice() {
        return Some(&DIGIT);
    }
    if name == ['l', 'o', 'w', 'e', 'r'].as_slice() {
        return Some(&LOWER);
    }
    if name == ['u', 'p', 'p', 'e', 'r'].as_slice() {
        return Some(&UPPER);
    }
    if name == ['w', 'o', 'r', 'd'].as_slice() {
        return Some(&WORD);
    }
    if name == ['x', 'd', 'i', 'g', 'i', 't'].as_slice() {
        return Some(&XDIGIT);
    }
    None
}

/// The ranges of a class that has other characters.
#[tactic(auto, unfolding(crate::specs::Posix::other_ranges))]
fn other_ranges(name: &[char]) -> Option<&'static [Range]>
    ensures { option_map (λ ranges. ranges.now) result ≡ other_ranges name.now }
{
    if name == ['a', 's', 'c', 'i', 'i'].as_slice() {
        return Some(&ASCII);
    }
    if name == ['b', 'l', 'a', 'n', 'k'].as_slice() {
        return Some(&BLANK);
    }
    if name == ['c', 'n', 't', 'r', 'l'].as_slice() {
        return Some(&CNTRL);
    }
    if name == ['g', 'r', 'a', 'p', 'h'].as_slice() {
        return Some(&GRAPH);
    }
    if name == ['p', 'r', 'i', 'n', 't'].as_slice() {
        return Some(&PRINT);
    }
    if name == ['p', 'u', 'n', 'c', 't'].as_slice() {
        return Some(&PUNCT);
    }
    if name == ['s', 'p', 'a', 'c', 'e'].as_slice() {
        return Some(&SPACE);
    }
    None
}
