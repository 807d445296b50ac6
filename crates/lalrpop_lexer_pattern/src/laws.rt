//! A law of sets of characters: their ranges and their members determine each other.

ghost use Rattle.std.specs.Prelude.{◌≡◌, ◌↔◌, ◌≤◌, ℕ, Bool, true, List};
ghost use Rattle.lalrpop_lexer_pattern.specs.Ranges.{InRanges, IsCanonical};
ghost use Rattle.lalrpop_lexer_pattern.specs.Sets.{ranges_of, IsRising};
ghost use Rattle.lalrpop_lexer_pattern.specs.declared.class.Range.{Range};

/// A law of sets of characters: the ranges of a test are canonical and hold the code points that pass it, and no two
/// lists of ascending ranges within Unicode, with gaps between, have the same members.
pub fn sets_are_their_members()
    ensures members { (p : ℕ → Bool) (c : ℕ) → InRanges (ranges_of p) c ↔ ((c ≤ 0x10_FFFF) × (p c ≡ true)) }
    ensures canonical { (p : ℕ → Bool) → IsCanonical (ranges_of p) }
    ensures unique { (rs ss : List Range) → IsRising rs → IsRising ss → ((c : ℕ) → InRanges rs c ↔ InRanges ss c) → rs ≡ ss }
{}
