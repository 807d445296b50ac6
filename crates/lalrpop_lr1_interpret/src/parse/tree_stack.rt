//! What the stack of a parse holds.

use lalrpop_grammar::ScanToken;
use lalrpop_grammar_repr::Production;
use std::alloc::AllocError;

/// What a parse makes: it stands for a list of trees over tokens, and grows by a leaf, or by a node over the last of its trees.
pub trait TreeStack<'g>: Sized {
    ghost use Rattle.std.specs.Prelude.{◌≡◌, ◌++◌, ◌∷◌, [], List, OnOk};
    ghost use Rattle.lalrpop_grammar.specs.Trees.{Token};
    ghost use Rattle.lalrpop_grammar.specs.Views.{token_view};
    ghost use Rattle.lalrpop_grammar_symbols.specs.Views.{span_view, terminal_view};
    ghost use Rattle.lalrpop_lr1_theory.specs.Productions.{Production};
    ghost use Rattle.lalrpop_lr1_theory.specs.Spans.{SpannedForest, leaf_at, node_at, none_at, without_spans};
    ghost use Rattle.lalrpop_lr1_theory.specs.Trees.{roots};
    ghost use Rattle.lalrpop_lr1_core.specs.Views.{production_view};
    ghost use Rattle.lalrpop_lr1_interpret.specs.Stacks.{HasChildren, ◌beside◌};

    // What it was given when it was made, as tables in which it looks up: no call changes it.
    ghost Given: { Type 0 } = { Unit {0} };

    ghost given: { Self → Self.Given };

    // It stands for these trees, the first at the bottom, and over these tokens.
    ghost stands: { Self → SpannedForest → List Token → Type 0 };

    /// Puts a leaf beside the trees.
    fn leaf(&mut self, token: &ScanToken<'_>) -> Result<(), AllocError>
        ensures leaf_stands { (ts : SpannedForest) (ks : List Token) → stands self.old ts ks
            → OnOk result (stands self.new
            (ts beside leaf_at (terminal_view token.now.terminal) (span_view token.now.span) none_at)
            (ks ++ token_view token.now ∷ [])) }
        ensures same { Self.given self.new ≡ Self.given self.old };

    /// Puts a node over the last of the trees, as many as the production has symbols.
    fn node(&mut self, production: &'g Production) -> Result<(), AllocError>
        requires { HasChildren (stands self.old) (production_view production.now) }
        ensures node_stands { (kept children : SpannedForest) (ks : List Token) → stands self.old (kept beside children) ks
            → roots (without_spans children) ≡ (production_view production.now).right
            → OnOk result (stands self.new (kept beside node_at (production_view production.now) children none_at) ks) }
        ensures same { Self.given self.new ≡ Self.given self.old };
}

/// A stack of nothing: of a parse it keeps no tree.
#[derive(Clone, Copy)]
pub struct NoTrees;

impl<'g> TreeStack<'g> for NoTrees {
    ghost given = { λ _. tt };

    ghost stands = { λ _ _ _. Unit {0} };

    fn leaf(&mut self, _: &ScanToken<'_>) -> Result<(), AllocError> {
        Ok(())
    }

    fn node(&mut self, _: &'g Production) -> Result<(), AllocError> {
        Ok(())
    }
}
