//! Ranges of numbers that an edge reads.

use crate::check::check;
use lalrpop_lexer::nfa::Test;

#[test]
fn ranges_by_each_constructor(rt: HostRuntime) {
    let digits = Test::new(48..=57);
    check(
        &rt,
        (digits.start(), digits.end(), digits.len()) == (48, 57, 10),
    );
    check(&rt, Test::byte(65) == Test::char('A'));
    check(&rt, Test::inclusive_byte_range(48, 57) == digits);
    check(&rt, Test::inclusive_range('0', '9') == digits);
    check(&rt, Test::exclusive_range('0', ':') == digits);
}

#[test]
fn questions_of_a_range(rt: HostRuntime) {
    let digits = Test::inclusive_range('0', '9');
    let none = Test::new(5..=4);
    check(&rt, Test::char('x').is_char() & !digits.is_char());
    check(&rt, none.is_empty() & !digits.is_empty());
    check(&rt, digits.contains_u32(57) & !digits.contains_u32(58));
    check(&rt, digits.contains_char('0') & !digits.contains_char('a'));
    check(&rt, digits.intersects(&Test::inclusive_range('9', 'z')));
    check(&rt, !digits.intersects(&none));
    check(&rt, digits.is_disjoint(&Test::char('a')));
    check(&rt, digits < Test::char('1'));
}
