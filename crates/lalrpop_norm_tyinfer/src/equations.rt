//! What gives rules their types: one equation for a declared type, or one for each alternative without user code.

ghost use Rattle.std.specs.Prelude.{◌≡◌, ◌++◌, IfOk, OnOk, map};
ghost use Rattle.lalrpop_grammar.specs.Views.{alternative_view, grammar_view, nonterminal_view};
ghost use Rattle.lalrpop_norm_tyinfer.specs.Equations.{equations_of_alternatives, equations_of_rule, is_default_action, type_equations};
ghost use Rattle.lalrpop_norm_tyinfer.specs.ProgramViews.{equation_view};

use lalrpop_grammar::types::TypeRef;
use lalrpop_grammar::{Alternative, Grammar, NonterminalData};
use lalrpop_grammar_symbols::Symbol;
use std::alloc::{AllocError, Global};

/// Where a rule's type comes from.
#[derive(Clone, Copy)]
pub(crate) enum TypeSource<'g> {
    /// From the type that it declares.
    Declared(&'g TypeRef),
    /// From the symbols of an alternative without user code.
    Symbols(&'g [Symbol]),
}

/// The rule has the type that the source gives.
#[derive(Clone, Copy)]
pub(crate) struct Equation<'g> {
    /// The rule.
    pub(crate) rule: &'g NonterminalData,
    /// Where its type comes from.
    pub(crate) source: TypeSource<'g>,
}

/// Whether the alternative has no user code.
fn is_default(alternative: &Alternative) -> bool
    ensures { result ≡ is_default_action (alternative_view alternative.now).action }
{
    alternative.action.is_none()
}

/// Adds the equations of the rule's alternatives.
fn add_alternatives<'g>(
    rule: &'g NonterminalData,
    made: &mut Vec<Equation<'g>>,
) -> Result<(), AllocError>
    ensures { OnOk result (map equation_view made.new.items ≡ map equation_view made.old.items
        ++ equations_of_alternatives (nonterminal_view rule.now) (nonterminal_view rule.now).alternatives) }
{
    for alternative in rule.alternatives.as_slice() {
        if is_default(alternative) {
            let source = TypeSource::Symbols(alternative.expr.as_slice());
            made.push(Equation { rule, source })?;
        }
    }
    Ok(())
}

/// Adds the equations of the rule.
fn add_equations<'g>(
    rule: &'g NonterminalData,
    made: &mut Vec<Equation<'g>>,
) -> Result<(), AllocError>
    ensures { OnOk result (map equation_view made.new.items
        ≡ map equation_view made.old.items ++ equations_of_rule (nonterminal_view rule.now)) }
{
    match &rule.type_decl {
        None => add_alternatives(rule, made),
        Some(written) => {
            let source = TypeSource::Declared(written);
            made.push(Equation { rule, source })?;
            Ok(())
        }
    }
}

/// The equations of the grammar's rules, in order.
pub(crate) fn equations<'g>(
    alloc: Global,
    grammar: &'g Grammar,
) -> Result<Vec<Equation<'g>>, AllocError>
    ensures { IfOk result (λ made. map equation_view made.items ≡ type_equations (grammar_view grammar.now)) }
{
    let mut made = Vec::new(alloc);
    for rule in grammar.rules() {
        add_equations(rule, &mut made)?;
    }
    Ok(made)
}
