//! The rules that are no macros, as calls.

ghost use Rattle.std.specs.Prelude.{◌≡◌, ◌++◌, IfOk, OnOk, None, map};
ghost use Rattle.lalrpop_grammar_symbols.specs.Symbols.{Closed, Closeds};
ghost use Rattle.lalrpop_grammar.specs.Views.{grammar_view, nonterminal_view};
ghost use Rattle.lalrpop_grammar.specs.WrittenGrammar.{rules_of};
ghost use Rattle.lalrpop_grammar_rules.specs.Views.{closed_view};
ghost use Rattle.lalrpop_norm_keys.specs.FoundCalls.{plain_call_of, plain_calls};

use lalrpop_grammar::{Grammar, NonterminalData};
use lalrpop_grammar_rules::closed::{ClosedSymbol, Shared};
use lalrpop_grammar_symbols::{Atom, List};
use std::alloc::{AllocError, Global};

/// The call of a rule without arguments.
fn plain_call(alloc: Global, name: &Atom) -> Result<ClosedSymbol, AllocError>
    ensures { IfOk result (λ call. closed_view call ≡ Closed.call name.now Closeds.none None) }
{
    let name = name.try_clone()?;
    let args = Shared::new(alloc, List::new(alloc))?;
    Ok(ClosedSymbol::Call(name, args, None))
}

/// Puts the call of the rule behind the others, where it is no macro.
fn add_plain_call(
    alloc: Global,
    rule: &NonterminalData,
    calls: &mut List<ClosedSymbol>,
) -> Result<(), AllocError>
    ensures { OnOk result (map closed_view calls.new ≡ map closed_view calls.old
        ++ plain_call_of (nonterminal_view rule.now) (nonterminal_view rule.now).parameters) }
{
    match rule.args.as_slice() {
        [] => calls.push(plain_call(alloc, &rule.name.0)?),
        [_, ..] => Ok(()),
    }
}

/// The calls of the grammar's rules that are no macros.
pub(crate) fn plain_rules(
    alloc: Global,
    grammar: &Grammar,
) -> Result<List<ClosedSymbol>, AllocError>
    ensures { IfOk result (λ calls. map closed_view calls ≡ plain_calls (rules_of (grammar_view grammar.now).items)) }
{
    let mut calls = List::new(alloc);
    for rule in grammar.rules() {
        add_plain_call(alloc, rule, &mut calls)?;
    }
    Ok(calls)
}
