//! The search for the types of rules.

ghost use Rattle.std.specs.Prelude.{◌≡◌, ◌+◌, ◌≤◌, IfErr, IfOk, OnOk, MatchOption, MatchResult, vec_len};
ghost use Rattle.lalrpop_grammar_language.specs.Among.{Among};
ghost use Rattle.lalrpop_grammar.specs.Views.{nonterminal_view};
ghost use Rattle.lalrpop_norm_tyinfer.specs.GroundViews.{type_repr_view};
ghost use Rattle.lalrpop_norm_tyinfer.specs.Equations.{Agrees, AllAgree, GivesType, type_equations, untyped_equations};
ghost use Rattle.lalrpop_norm_tyinfer.specs.Searching.{AreGivenEquations, IsDisagreement, IsNewType, IsOpenEquation, IsRightSoFar, left_to_search};
ghost use Rattle.lalrpop_norm_tyinfer.specs.TypeFaults.{IsTypeFault};
ghost use Rattle.lalrpop_norm_tyinfer.specs.ProgramViews.{AreEquations, IsRightTable, equation_view, grammar_of, names_view, rule_types};

use crate::equations::Equation;
use crate::ground::{RuleTypes, source_type};
use crate::names::Names;
use crate::progress::{GrammarEquations, Progress};
use crate::same::same_type;
use crate::waiting::Waiting;
use lalrpop_grammar::NonterminalData;
use lalrpop_grammar_repr::{NormError, NormErrorKind, NormFault, TypeRepr};
use lalrpop_grammar_symbols::Atom;
use std::alloc::{AllocError, Global};

/// The type, where the rule has none by the table, and nothing where it has this one.
fn new_type(
    rule: &NonterminalData,
    ty: TypeRepr,
    table: &RuleTypes,
) -> Result<Option<TypeRepr>, NormFault>
    ensures { MatchResult result (λ found. IsNewType (rule_types table.now rule.now.name.0) (type_repr_view ty) found)
        (IsDisagreement (rule_types table.now rule.now.name.0) (type_repr_view ty) (nonterminal_view rule.now)) }
{
    match table.get(&rule.name) {
        None => Ok(Some(ty)),
        Some(known) => {
            if same_type(known, &ty) {
                Ok(None)
            } else {
                Err(NormFault::Norm(NormError {
                    kind: NormErrorKind::TypesDisagree,
                    span: rule.span,
                }))
            }
        }
    }
}

/// The type that the equation gives its rule, where the rule has none by the table yet.
fn check_equation(
    alloc: Global,
    names: &Names<'_>,
    equation: &Equation<'_>,
    table: &RuleTypes,
) -> Result<Option<TypeRepr>, NormFault>
    requires of_grammar { Among (type_equations (grammar_of names.now)) (equation_view equation.now) }
    requires right { IsRightTable (grammar_of names.now) (rule_types table.now) }
    ensures found { IfOk result (λ found. MatchOption found
        (Agrees (names_view names.now) (rule_types table.now) (equation_view equation.now))
        (λ ty. GivesType (names_view names.now) (rule_types table.now) (equation_view equation.now) (type_repr_view ty))) }
    ensures fault { IfErr result (IsTypeFault (grammar_of names.now)) }
{
    match source_type(alloc, names, table, equation.source)? {
        None => Ok(None),
        Some(ty) => new_type(equation.rule, ty, table),
    }
}

/// Puts the type that the equation gives into the table, and its rule to those whose types are new.
fn put_type<'g>(
    given: GrammarEquations<'_, 'g>,
    equation: &Equation<'g>,
    ty: TypeRepr,
    progress: &mut Progress<'g>,
) -> Result<(), AllocError>
    requires of_grammar { Among (type_equations (grammar_of given.names.now)) (equation_view equation.now) }
    requires right { IsRightSoFar given progress.old }
    requires gives { GivesType (names_view given.names.now) (rule_types progress.old.table) (equation_view equation.now)
        (type_repr_view ty) }
    ensures right { OnOk result (IsRightSoFar given.entry progress.new) }
    ensures fewer { OnOk result (untyped_equations (rule_types progress.new.table) (type_equations (grammar_of given.entry.names.now)) + 1
        ≤ untyped_equations (rule_types progress.old.table) (type_equations (grammar_of given.entry.names.now))) }
    ensures one { OnOk result (vec_len progress.new.typed ≡ vec_len progress.old.typed + 1) }
{
    progress.table.insert(equation.rule.name.try_clone()?, ty)?;
    progress.typed.push(&equation.rule.name.0)?;
    Ok(())
}

/// Puts the type that the equation gives into the table, where its rule has none yet.
fn settle<'g>(
    alloc: Global,
    given: GrammarEquations<'_, 'g>,
    equation: &Equation<'g>,
    progress: &mut Progress<'g>,
) -> Result<(), NormFault>
    requires of_grammar { Among (type_equations (grammar_of given.names.now)) (equation_view equation.now) }
    requires right { IsRightSoFar given progress.old }
    ensures right { OnOk result (IsRightSoFar given.entry progress.new) }
    ensures work { OnOk result (left_to_search given.entry progress.new ≤ left_to_search given.entry progress.old) }
    ensures fault { IfErr result (IsTypeFault (grammar_of given.entry.names.now)) }
{
    match check_equation(alloc, given.names, equation, &progress.table)? {
        None => Ok(()),
        Some(ty) => {
            put_type(given, equation, ty, progress)?;
            Ok(())
        }
    }
}

/// Asks the equation of this number, or lets it wait for a rule without type that it names.
fn visit<'g>(
    alloc: Global,
    given: GrammarEquations<'_, 'g>,
    number: usize,
    progress: &mut Progress<'g>,
) -> Result<(), NormFault>
    requires of_grammar { AreGivenEquations given }
    requires right { IsRightSoFar given progress.old }
    ensures right { OnOk result (IsRightSoFar given.entry progress.new) }
    ensures work { OnOk result (left_to_search given.entry progress.new ≤ left_to_search given.entry progress.old) }
    ensures fault { IfErr result (IsTypeFault (grammar_of given.entry.names.now)) }
{
    if let Some(name) = progress.waiting.next_missing(number, &progress.table)? {
        progress.waiting.add(alloc, name, number)?;
        return Ok(());
    }
    match given.equations.get(number) {
        None => Ok(()),
        Some(equation) => settle(alloc, given, equation, progress),
    }
}

/// Asks the equations that waited for the rule.
fn wake<'g>(
    alloc: Global,
    given: GrammarEquations<'_, 'g>,
    name: &Atom,
    progress: &mut Progress<'g>,
) -> Result<(), NormFault>
    requires of_grammar { AreGivenEquations given }
    requires right { IsRightSoFar given progress.old }
    ensures right { OnOk result (IsRightSoFar given.entry progress.new) }
    ensures work { OnOk result (left_to_search given.entry progress.new ≤ left_to_search given.entry progress.old) }
    ensures fault { IfErr result (IsTypeFault (grammar_of given.entry.names.now)) }
{
    if let Some(numbers) = progress.waiting.take(name) {
        for number in numbers.as_slice() {
            visit(alloc, given, *number, progress)?;
        }
    }
    Ok(())
}

/// Goes on from the rules whose types are new, until none is.
fn spread<'g>(
    alloc: Global,
    given: GrammarEquations<'_, 'g>,
    progress: &mut Progress<'g>,
) -> Result<(), NormFault>
    requires of_grammar { AreGivenEquations given }
    requires right { IsRightSoFar given progress.old }
    ensures right { OnOk result (IsRightSoFar given.entry progress.new) }
    ensures work { OnOk result (left_to_search given.entry progress.new ≤ left_to_search given.entry progress.old) }
    ensures done { OnOk result (vec_len progress.new.typed ≡ 0) }
    ensures fault { IfErr result (IsTypeFault (grammar_of given.entry.names.now)) }
{
    while let Some(name) = progress.typed.pop() {
        wake(alloc, given, name, progress)?;
    }
    Ok(())
}

/// Asks each equation once.
fn visit_all<'g>(
    alloc: Global,
    given: GrammarEquations<'_, 'g>,
    progress: &mut Progress<'g>,
) -> Result<(), NormFault>
    requires of_grammar { AreGivenEquations given }
    requires right { IsRightSoFar given progress.old }
    ensures right { OnOk result (IsRightSoFar given.entry progress.new) }
    ensures fault { IfErr result (IsTypeFault (grammar_of given.entry.names.now)) }
{
    for number in 0..given.equations.len() {
        visit(alloc, given, number, progress)?;
    }
    Ok(())
}

/// The first equation that gives its rule a type that has none by the table, with that type.
fn open_equation<'g>(
    alloc: Global,
    given: GrammarEquations<'_, 'g>,
    table: &RuleTypes,
) -> Result<Option<(Equation<'g>, TypeRepr)>, NormFault>
    requires of_grammar { AreGivenEquations given }
    requires right { IsRightTable (grammar_of given.names.now) (rule_types table.now) }
    ensures found { IfOk result (λ found. MatchOption found
        (AllAgree (names_view given.entry.names.now) (rule_types table.now) (type_equations (grammar_of given.entry.names.now)))
        (λ found. IsOpenEquation given.entry.names.now (rule_types table.now) found.0 (type_repr_view found.1))) }
    ensures fault { IfErr result (IsTypeFault (grammar_of given.entry.names.now)) }
{
    for equation in given.equations {
        if let Some(ty) = check_equation(alloc, given.names, equation, table)? {
            return Ok(Some((*equation, ty)));
        }
    }
    Ok(None)
}

/// Fills the table until all equations agree with it. What waits for no rule without type was asked before, so that no equation
/// is found open here but where one was missed.
fn settle_all<'g>(
    alloc: Global,
    given: GrammarEquations<'_, 'g>,
    progress: &mut Progress<'g>,
) -> Result<(), NormFault>
    requires of_grammar { AreGivenEquations given }
    requires right { IsRightSoFar given progress.old }
    requires done { vec_len progress.old.typed ≡ 0 }
    ensures right { OnOk result (IsRightSoFar given.entry progress.new) }
    ensures agree { OnOk result (AllAgree (names_view given.entry.names.now) (rule_types progress.new.table)
        (type_equations (grammar_of given.entry.names.now))) }
    ensures fault { IfErr result (IsTypeFault (grammar_of given.entry.names.now)) }
{
    'settling: loop {
        match open_equation(alloc, given, &progress.table)? {
            None => return Ok(()),
            Some((equation, ty)) => {
                put_type(given, &equation, ty, progress)?;
                spread(alloc, given, progress)?;
            }
        }
    }
}

/// The types of the grammar's rules: of each rule that has one.
pub(crate) fn inferred_types<'g>(
    alloc: Global,
    names: &Names<'g>,
    equations: &[Equation<'g>],
) -> Result<RuleTypes, NormFault>
    requires { AreEquations names.now equations.now }
    ensures right { IfOk result (λ table. IsRightTable (grammar_of names.now) (rule_types table)) }
    ensures agree { IfOk result (λ table.
        AllAgree (names_view names.now) (rule_types table) (type_equations (grammar_of names.now))) }
    ensures fault { IfErr result (IsTypeFault (grammar_of names.now)) }
{
    let given = GrammarEquations { names, equations };
    let mut progress = Progress {
        table: RuleTypes::new(alloc),
        typed: Vec::new(alloc),
        waiting: Waiting::new(alloc, names, equations)?,
    };
    visit_all(alloc, given, &mut progress)?;
    spread(alloc, given, &mut progress)?;
    settle_all(alloc, given, &mut progress)?;
    Ok(progress.table)
}
