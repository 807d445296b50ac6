//! Whether the condition of a macro's alternative holds for given arguments, and what may be wrong with it.

ghost use Rattle.std.specs.Prelude.{◌≡◌, ◌↔◌, IfErr, IfOk, IsTrue, OnOk, Some, option_map};
ghost use Rattle.lalrpop_grammar.specs.Views.{condition_view};
ghost use Rattle.lalrpop_grammar_language.specs.Closing.{parameter_value};
ghost use Rattle.lalrpop_grammar_language.specs.Conditions.{Holds};
ghost use Rattle.lalrpop_grammar_rules.specs.RuleTable.{rules_with};
ghost use Rattle.lalrpop_grammar_rules.specs.Scopes.{binding_view};
ghost use Rattle.lalrpop_norm_keys.specs.MacroFaults.{IsAskable, IsQuotedLiteral, TellsOfAlternative, told_fault_of};
ghost use Rattle.lalrpop_grammar_rules.specs.Views.{closed_view};

use lalrpop_grammar::Condition;
use lalrpop_grammar_repr::{NormError, NormErrorKind, NormFault};
use lalrpop_grammar_rules::Rules;
use lalrpop_grammar_rules::closed::{
    Binding, Bound, ClosedSymbol, ConditionFault, Finder, bound_to, holds,
};
use lalrpop_grammar_symbols::{Span, TerminalLiteral, TerminalString};
use std::alloc::Global;

/// Whether the symbol is a quoted literal.
fn is_quoted(symbol: &ClosedSymbol) -> bool
    ensures { IsTrue result ↔ IsQuotedLiteral (Some (closed_view symbol.now)) }
{
    match symbol {
        ClosedSymbol::Terminal(terminal) => match terminal {
            TerminalString::Literal(literal) => match literal {
                TerminalLiteral::Quoted(_) => true,
                TerminalLiteral::Regex(_) => false,
            },
            TerminalString::Bare(_) => false,
            TerminalString::Error => false,
        },
        _ => false,
    }
}

/// Whether the condition's parameter is bound to a quoted literal.
fn is_of_literal(binding: Binding<'_>, condition: &Condition) -> bool
    ensures { IsTrue result
        ↔ IsQuotedLiteral (parameter_value (binding_view binding.entry) condition.now.lhs.0) }
{
    match bound_to(binding, &condition.lhs.0) {
        Bound::To(symbol) => is_quoted(symbol),
        Bound::Free => false,
        Bound::Unclear => false,
    }
}

/// What is told of a condition at that place for which it isn't known whether it holds.
pub fn told_fault(fault: ConditionFault, span: Span) -> NormFault
    ensures { result ≡ told_fault_of fault span }
{
    match fault {
        ConditionFault::NotRead => NormFault::Norm(NormError {
            kind: NormErrorKind::ConditionPattern,
            span,
        }),
        ConditionFault::Refused => NormFault::ConditionLimit,
        ConditionFault::Memory => NormFault::Memory,
    }
}

/// Whether the condition holds for what the parameters are bound to; without one, it does.
///
/// # Errors
///
/// It is on something else than a quoted literal, or its pattern isn't read, or the search for the pattern is refused, or memory
/// runs out.
pub(crate) fn ask_condition<F: Finder>(
    alloc: Global,
    finder: &F,
    rules: &Rules<'_>,
    binding: Binding<'_>,
    condition: &Option<Condition>,
) -> Result<bool, NormFault>
    ensures exact { IfOk result (λ yes. IsTrue yes
        ↔ Holds (rules_with (F.finds finder.now) rules.now) (binding_view binding.entry)
        (option_map condition_view condition.now)) }
    ensures askable { OnOk result (IsAskable (F.finds finder.now) (F.too_deep finder.now)
        (binding_view binding.entry) (option_map condition_view condition.now)) }
    ensures fault { IfErr result (TellsOfAlternative (F.finds finder.now) (F.too_deep finder.now)
        (binding_view binding.entry) (option_map condition_view condition.now)) }
{
    let Some(found) = condition else {
        return Ok(true);
    };
    if !is_of_literal(binding, found) {
        return Err(NormFault::Norm(NormError {
            kind: NormErrorKind::ConditionOnOther,
            span: found.span,
        }));
    }
    match holds(alloc, finder, rules, binding, condition) {
        Ok(yes) => Ok(yes),
        Err(fault) => Err(told_fault(fault, found.span)),
    }
}
