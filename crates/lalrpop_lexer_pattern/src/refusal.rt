//! The first thing in a pattern tree that no automaton is made for.

ghost use Rattle.std.specs.Prelude.{◌≡◌, map};
ghost use Rattle.lalrpop_lexer_pattern.specs.Matches.{concat_all};
ghost use Rattle.lalrpop_lexer_pattern.specs.Meaning.{meaning};
ghost use Rattle.lalrpop_lexer_pattern.specs.Refused.{refusal};

use crate::tree::Hir;

/// What no automaton is made for.
#[derive(Clone, Copy, Debug, PartialEq, Eq)]
pub enum Refusal {
    /// A group with a name.
    NamedCaptures,
    /// A repetition that takes as few as can be.
    NonGreedy,
    /// An assertion of where in the text the pattern stands, such as at its start or at a word boundary.
    LookAround,
}

impl Hir {
    /// The first thing in the tree that no automaton is made for, none if there is no such thing.
    ///
    /// What stands in a greedy repetition of at most no times is not looked at.
    #[cycle(refusal)]
    pub fn refusal(&self) -> Option<Refusal>
        ensures { result ≡ refusal (meaning self.now) }
    {
        let mut tree = self;
        loop {
            match tree {
                Hir::Empty => return None,
                Hir::Literal(_) => return None,
                Hir::Class(_) => return None,
                Hir::Look(_) => return Some(Refusal::LookAround),
                Hir::Capture { name, sub } => {
                    if name.is_some() {
                        return Some(Refusal::NamedCaptures);
                    }
                    tree = sub;
                }
                Hir::Repetition { repeats, sub } => {
                    if !repeats.greedy {
                        return Some(Refusal::NonGreedy);
                    }
                    if repeats.max == Some(0) {
                        return None;
                    }
                    tree = sub;
                }
                Hir::Concat(subs) => return first_refusal(subs),
                Hir::Alternation(subs) => return first_refusal(subs),
            }
        }
    }
}

/// The first refusal of some trees, in their order.
#[cycle(refusal)]
fn first_refusal(subs: &[Hir]) -> Option<Refusal>
    ensures { result ≡ refusal (concat_all (map meaning subs.now)) }
{
    for i in 0..subs.len() {
        let found = subs[i].refusal();
        if found.is_some() {
            return found;
        }
    }
    None
}
