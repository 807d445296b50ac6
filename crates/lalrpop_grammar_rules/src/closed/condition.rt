//! Conditions of alternatives on a macro's parameters.

ghost use Rattle.std.specs.Prelude.{◌≡◌, ◌↔◌, ℕ, Bool, IfErr, IfOk, IsTrue, List, Option, Some, option_map};
ghost use Rattle.std.specs.Option.{option_copied};
ghost use Rattle.lalrpop_grammar.specs.Views.{condition_view, condition_op_view};
ghost use Rattle.lalrpop_grammar_language.specs.Closing.{parameter_value};
ghost use Rattle.lalrpop_grammar_language.specs.Conditions.{Holds, HoldsOf, PassesTest};
ghost use Rattle.lalrpop_grammar_rules.specs.Finding.{IsFault, IsFinding, IsNotKnown, IsReadFor, IsReadIn, IsReadPattern, IsReadWhereAsked, IsRefusal, IsUndecided, quoted_text_in};
ghost use Rattle.lalrpop_grammar_rules.specs.Scopes.{binding_view};
ghost use Rattle.lalrpop_grammar_rules.specs.RuleTable.{rules_with};
ghost use Rattle.lalrpop_grammar_rules.specs.Views.{closed_view};

use crate::Rules;
use crate::closed::binding::{Binding, Bound, bound_to};
use crate::closed::closed_symbol::ClosedSymbol;
use crate::closed::comparing::same_name;
use lalrpop_grammar::{Condition, ConditionOp};
use lalrpop_grammar_symbols::{Atom, TerminalLiteral, TerminalString};
use std::alloc::{AllocError, AllocFailed, Global};

/// What a search for a pattern in a text says.
#[derive(Clone, Copy, PartialEq, Eq)]
pub enum Finding {
    /// The pattern is found somewhere.
    Found,
    /// The pattern is found nowhere.
    Missing,
    /// It is no pattern, or one that is nested too deep.
    NotRead,
    /// It is a pattern, but the search for it is refused.
    Refused,
}

/// Something that searches texts for patterns.
pub trait Finder {
    /// Whether the pattern is found anywhere in the text; none where it is no pattern.
    ghost finds: { Self → List ℕ → List ℕ → Option Bool };

    /// Whether the pattern is nested deeper than it is read.
    ghost too_deep: { Self → List ℕ → Bool };

    /// Whether the pattern is found anywhere in the text.
    fn find(&self, alloc: Global, pattern: &str, text: &str) -> Result<Finding, AllocError>
        ensures { IfOk result (IsFinding (finds self.now pattern.now text.now) (too_deep self.now pattern.now)) };
}

/// Why it isn't known whether a condition holds.
#[derive(Clone, Copy, Debug, PartialEq, Eq)]
pub enum ConditionFault {
    /// Its pattern isn't read.
    NotRead,
    /// Its pattern is read, but the search for it is refused.
    Refused,
    /// Memory ran out.
    Memory,
}

impl From<AllocError> for ConditionFault {
    ghost use Rattle.std.specs.Prelude.{◌≡◌};
    ghost use Rattle.lalrpop_grammar_rules.specs.declared.closed.condition.ConditionFault.TheVariants.{Memory};

    ghost from_gives = { λ _ e. e ≡ Memory };

    fn from(_error: AllocError) -> ConditionFault {
        ConditionFault::Memory
    }
}

impl<T: Drop> From<AllocFailed<T>> for ConditionFault {
    ghost use Rattle.std.specs.Prelude.{◌≡◌};
    ghost use Rattle.lalrpop_grammar_rules.specs.declared.closed.condition.ConditionFault.TheVariants.{Memory};

    ghost from_gives = { λ _ e. e ≡ Memory };

    fn from(_error: AllocFailed<T>) -> ConditionFault {
        ConditionFault::Memory
    }
}

/// Whether the condition holds for what the parameters are bound to; without one, it does.
///
/// # Errors
///
/// `NotRead` and `Refused` come only where it is a search for a pattern, the first where the pattern isn't read, the second where it
/// is. So where an answer is given, the pattern of a search was read.
pub fn holds<F: Finder>(
    alloc: Global,
    finder: &F,
    rules: &Rules<'_>,
    binding: Binding<'_>,
    condition: &Option<Condition>,
) -> Result<bool, ConditionFault>
    ensures exact { IfOk result (λ yes. IsTrue yes
        ↔ Holds (rules_with (F.finds finder.now) rules.now) (binding_view binding.entry)
        (option_map condition_view condition.now)) }
    ensures read { IfOk result (λ _. IsReadWhereAsked (F.finds finder.now) (F.too_deep finder.now)
        (binding_view binding.entry) (option_map condition_view condition.now)) }
    ensures fault { IfErr result (IsFault (F.finds finder.now) (F.too_deep finder.now)
        (binding_view binding.entry) (option_map condition_view condition.now)) }
{
    match condition {
        Some(condition) => passes(alloc, finder, rules, binding, condition),
        None => Ok(true),
    }
}

/// Whether the condition holds for what the parameters are bound to.
fn passes<F: Finder>(
    alloc: Global,
    finder: &F,
    rules: &Rules<'_>,
    binding: Binding<'_>,
    condition: &Condition,
) -> Result<bool, ConditionFault>
    ensures exact { IfOk result (λ yes. IsTrue yes
        ↔ HoldsOf (rules_with (F.finds finder.now) rules.now) (condition_view condition.now)
        (parameter_value (binding_view binding.entry) condition.now.lhs.0)) }
    ensures read { IfOk result (λ _. IsReadIn (F.finds finder.now) (F.too_deep finder.now)
        (condition_view condition.now) (parameter_value (binding_view binding.entry) condition.now.lhs.0)) }
    ensures fault { IfErr result (IsUndecided (F.finds finder.now) (F.too_deep finder.now)
        (condition_view condition.now) (parameter_value (binding_view binding.entry) condition.now.lhs.0)) }
{
    match bound_to(binding, &condition.lhs.0) {
        Bound::To(symbol) => match text_of_quoted(symbol) {
            Some(text) => { passes_on(alloc, finder, rules, condition.op, text, &condition.rhs) }
            None => Ok(false),
        },
        Bound::Free => Ok(false),
        Bound::Unclear => Ok(false),
    }
}

/// The text, where the symbol is a quoted literal.
fn text_of_quoted(symbol: &ClosedSymbol) -> Option<&Atom>
    ensures { option_copied result ≡ quoted_text_in (closed_view symbol.now) }
{
    match symbol {
        ClosedSymbol::Terminal(terminal) => match terminal {
            TerminalString::Literal(literal) => match literal {
                TerminalLiteral::Quoted(text) => Some(text),
                TerminalLiteral::Regex(_) => None,
            },
            TerminalString::Bare(_) => None,
            TerminalString::Error => None,
        },
        _ => None,
    }
}

/// Whether the literal's text passes the test.
fn passes_on<F: Finder>(
    alloc: Global,
    finder: &F,
    rules: &Rules<'_>,
    op: ConditionOp,
    text: &Atom,
    against: &Atom,
) -> Result<bool, ConditionFault>
    ensures exact { IfOk result (λ yes. IsTrue yes
        ↔ PassesTest (rules_with (F.finds finder.now) rules.now) (condition_op_view op) text.now against.now) }
    ensures read { IfOk result (λ _. IsReadFor (F.finds finder.now) (F.too_deep finder.now)
        (condition_op_view op) against.now text.now) }
    ensures fault { IfErr result (IsRefusal (F.finds finder.now) (F.too_deep finder.now)
        (condition_op_view op) against.now text.now) }
{
    match op {
        ConditionOp::Equals => Ok(same_name(text, against)),
        ConditionOp::NotEquals => Ok(!same_name(text, against)),
        ConditionOp::Match => is_found(alloc, finder, text, against),
        ConditionOp::NotMatch => {
            let found = is_found(alloc, finder, text, against)?;
            Ok(!found)
        }
    }
}

/// Whether the pattern is found anywhere in the text.
fn is_found<F: Finder>(
    alloc: Global,
    finder: &F,
    text: &Atom,
    pattern: &Atom,
) -> Result<bool, ConditionFault>
    ensures exact { IfOk result (λ yes. F.finds finder.now pattern.now text.now ≡ Some yes) }
    ensures read { IfOk result (λ _. IsReadPattern (F.finds finder.now pattern.now text.now)
        (F.too_deep finder.now pattern.now)) }
    ensures fault { IfErr result (IsNotKnown (F.finds finder.now) (F.too_deep finder.now)
        pattern.now text.now) }
{
    match finder.find(alloc, pattern.as_str(), text.as_str())? {
        Finding::Found => Ok(true),
        Finding::Missing => Ok(false),
        Finding::NotRead => Err(ConditionFault::NotRead),
        Finding::Refused => Err(ConditionFault::Refused),
    }
}
