//! Laws of the limits that parsers are given, and of parsers by both ways.

ghost use Rattle.std.specs.Prelude.{◌≡◌};
ghost use Rattle.lalrpop_grammar.specs.Views.{grammar_view};
ghost use Rattle.lalrpop_grammar_repr.specs.declared.methods.Method.TheVariants.{Canonical};
ghost use Rattle.lalrpop_norm_theory.specs.Premises.{IsReadGrammar};
ghost use Rattle.lalrpop_run_parser.specs.Limits.{KeepsAnswers, TellsFaultsFirst};
ghost use Rattle.lalrpop_run_parser.specs.Parsers.{HasTableBy};
ghost use Rattle.lalrpop_run_parser.specs.TwoWays.{AnswerAlike};

use crate::parser::Parser;
use lalrpop_run_theory::answers::one_written_tree;

impl<'p> Parser<'p> {
    /// The law that a greater limit changes no other answer: of any two results that say what `parse` says, under a limit and under a
    /// greater one, the first, where it is neither `Limit` nor `Memory`, is the second, where that isn't `Memory`.
    pub fn raising_the_limit(&self)
        ensures { IsReadGrammar (grammar_view self.now.prepared.written) → KeepsAnswers self.now }
    {
        // the law and what is known of the grammar
        one_written_tree();
        self.prepared.known();
    }

    /// The law of both ways: two parsers of one prepared grammar, by whichever methods, answer a text alike under one limit, but where it
    /// is no sentence and one of the two answers `Limit`. Of want of memory nothing is said.
    pub fn answers_as(&self, other: &Parser<'_>)
        ensures { other.now.prepared ≡ self.now.prepared → IsReadGrammar (grammar_view self.now.prepared.written)
            → AnswerAlike self.now other.now }
    {
        // the law and what is known of the grammar
        one_written_tree();
        self.prepared.known();
    }

    /// The law that canonical states tell a fault before the limit: a text that has all its tokens, and is no sentence, isn't answered
    /// `Limit` where some sentence that begins with the tokens before the fault has an expanded tree of at most `limit` leaves and
    /// nodes. The fault is the first token with which the tokens begin no sentence, or else the end.
    pub fn canonical_states_tell_faults(&self)
        ensures { IsReadGrammar (grammar_view self.now.prepared.written)
            → HasTableBy Canonical self.now.prepared self.now.table self.now.count → TellsFaultsFirst self.now }
    {
        // what is known of the grammar
        self.prepared.known();
    }
}
