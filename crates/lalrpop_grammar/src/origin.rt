//! Where an alternative comes from.

ghost use Rattle.std.specs.Prelude.{◌≡◌, IfOk};

use lalrpop_grammar_symbols::{List, NonterminalString, Symbol, clone_symbols};
use std::alloc::{AllocError, Global};

/// The written choice that an alternative or a production stands for.
#[derive(PartialEq, Eq)]
pub enum Origin {
    /// The production that is added for a public rule.
    Start,
    /// An alternative as it is written.
    Alternative {
        /// The rule that it stands in.
        rule: NonterminalString,
        /// The arguments, in an instance of a macro.
        args: List<Symbol>,
        /// Which of the rule's alternatives it is, counted from 0.
        place: u32,
    },
    /// From a level to the next tighter one.
    PassDown,
    /// The last element of `X+`.
    PlusOne,
    /// One more element of `X+`.
    PlusMore,
    /// `X*` with no element.
    StarNone,
    /// `X*` with elements.
    StarSome,
    /// `X?` without its symbol.
    OptNone,
    /// `X?` with its symbol.
    OptSome,
    /// A group.
    Group,
    /// `@L` or `@R`.
    Look,
}

impl Drop for Origin {
    /// Drops what it holds: where it is owned, that is one call.
    fn drop(self) {
        match self {
            Origin::Start => {}
            Origin::Alternative {
                rule: _rule,
                args: _args,
                place: _,
            } => {}
            Origin::PassDown => {}
            Origin::PlusOne => {}
            Origin::PlusMore => {}
            Origin::StarNone => {}
            Origin::StarSome => {}
            Origin::OptNone => {}
            Origin::OptSome => {}
            Origin::Group => {}
            Origin::Look => {}
        }
    }
}

impl Origin {
    /// A copy that equals it.
    pub fn try_clone(&self, alloc: Global) -> Result<Origin, AllocError>
        ensures { IfOk result (λ copy. copy ≡ self.now) }
    {
        match self {
            Origin::Start => Ok(Origin::Start),
            Origin::Alternative { rule, args, place } => Ok(Origin::Alternative {
                rule: rule.try_clone()?,
                args: clone_symbols(alloc, args.as_slice())?,
                place: *place,
            }),
            Origin::PassDown => Ok(Origin::PassDown),
            Origin::PlusOne => Ok(Origin::PlusOne),
            Origin::PlusMore => Ok(Origin::PlusMore),
            Origin::StarNone => Ok(Origin::StarNone),
            Origin::StarSome => Ok(Origin::StarSome),
            Origin::OptNone => Ok(Origin::OptNone),
            Origin::OptSome => Ok(Origin::OptSome),
            Origin::Group => Ok(Origin::Group),
            Origin::Look => Ok(Origin::Look),
        }
    }
}
