//! The pass as a whole.

ghost use Rattle.std.specs.Prelude.{◌≡◌, ◌≤◌, ◌^◌, [], Bool, IfErr, IfOk, Option, map};
ghost use Rattle.lalrpop_grammar_symbols.specs.Symbols.{Text};
ghost use Rattle.lalrpop_grammar.specs.Items.{first_in, intern_in};
ghost use Rattle.lalrpop_grammar.specs.Views.{grammar_view, origin_view};
ghost use Rattle.lalrpop_grammar.specs.WrittenGrammar.{rules_of};
ghost use Rattle.lalrpop_grammar_repr.specs.Algorithms.{has_lalr};
ghost use Rattle.lalrpop_norm_theory.specs.Between.{grammar_between};
ghost use Rattle.lalrpop_norm_lower.specs.Lowered.{IsLowerable, IsLowered, KeepsTheRest, entries_or_none};
ghost use Rattle.lalrpop_norm_lower.specs.LoweredLists.{count_actions, lowered_definitions, lowered_origins, rules_with_starts};
ghost use Rattle.lalrpop_norm_lower.specs.LoweredLists.{start_name_entries, start_type_entries};
ghost use Rattle.lalrpop_norm_lower.specs.LowerFaults.{HasFewActions, IsLowerFault};
ghost use Rattle.lalrpop_norm_lower.specs.MadeLists.{AreMadeNonterminals, IsMadeOfLists, IsMadeTerminalSet, put_names};
ghost use Rattle.lalrpop_norm_lower.specs.RuleLists.{rules_at};
ghost use Rattle.lalrpop_norm_lower.specs.TableReadiness.{IsReadyForTables};
ghost use Rattle.lalrpop_norm_tyinfer.specs.TerminalTypes.{HasTerminalTypes};

use crate::actions::{
    add_rule_definitions, add_rule_origins, add_start_definitions, add_start_origins,
};
use crate::maps::put_all;
use crate::numbers::has_too_many_actions;
use crate::productions::{add_rules, add_starts};
use crate::starts::{start_names, start_rules, start_types};
use crate::terminals::terminal_set;
use lalrpop_grammar::{Grammar, MatchEntry, NonterminalData, Origin};
use lalrpop_grammar_repr::{
    ActionFnDefn, Algorithm, Grammar as LoweredGrammar, Map, NonterminalData as LoweredData,
    NormError, NormErrorKind, NormFault, NormResult, Session, Types, read_algorithm,
};
use lalrpop_grammar_symbols::{Atom, List, NonterminalString};
use std::alloc::{AllocError, Global};

/// A lowered grammar, with what its productions stand for and how its tokens are read.
#[derive(Drop)]
pub struct Normalized {
    /// The grammar of plain productions.
    pub grammar: LoweredGrammar,
    /// For the number of each action the written choice that its production stands for.
    pub origins: List<Origin>,
    /// The entries of the tokenizer, in order.
    pub entries: List<MatchEntry>,
}

/// The nonterminals with their productions: the starts of these rules, and the grammar's rules.
fn lower_nonterminals(
    alloc: Global,
    grammar: &Grammar,
    starts: &[&NonterminalData],
) -> Result<Map<NonterminalString, LoweredData>, AllocError>
    requires few { count_actions (rules_of (grammar_view grammar.now).items) ≤ 2 ^ 32 }
    requires starts { rules_at starts.now ≡ rules_with_starts (rules_of (grammar_view grammar.now).items) }
    ensures { IfOk result (λ made. AreMadeNonterminals (grammar_view grammar.now) made) }
{
    let mut entries = Vec::new(alloc);
    add_starts(alloc, &grammar.prefix, starts, &mut entries)?;
    add_rules(alloc, grammar, starts.len(), &mut entries)?;
    let mut nonterminals = Map::new(alloc);
    put_all(entries, &mut nonterminals)?;
    Ok(nonterminals)
}

/// What the actions do, by their numbers.
fn lower_definitions(
    alloc: Global,
    grammar: &Grammar,
    starts: &[&NonterminalData],
    types: &Types,
) -> Result<List<ActionFnDefn>, AllocError>
    requires { rules_at starts.now ≡ rules_with_starts (rules_of (grammar_view grammar.now).items) }
    ensures { IfOk result (λ made. made
        ≡ lowered_definitions types.now.nonterminal_types (rules_of (grammar_view grammar.now).items)) }
{
    let mut made = List::new(alloc);
    add_start_definitions(alloc, starts, types, &mut made)?;
    add_rule_definitions(alloc, grammar, types, &mut made)?;
    Ok(made)
}

/// Which choices the actions stand for, by their numbers.
fn lower_origins(
    alloc: Global,
    grammar: &Grammar,
    starts: &[&NonterminalData],
) -> Result<List<Origin>, AllocError>
    requires { rules_at starts.now ≡ rules_with_starts (rules_of (grammar_view grammar.now).items) }
    ensures { IfOk result (λ made. map origin_view made ≡ lowered_origins (rules_of (grammar_view grammar.now).items)) }
{
    let mut made = List::new(alloc);
    add_start_origins(starts, &mut made)?;
    add_rule_origins(alloc, grammar, &mut made)?;
    Ok(made)
}

/// The names of the starts, by those of their rules.
fn lower_starts(
    alloc: Global,
    prefix: &Atom,
    starts: &[&NonterminalData],
) -> Result<Map<NonterminalString, NonterminalString>, AllocError>
    ensures { IfOk result (λ made. made ≡ put_names [] (start_name_entries prefix.now (rules_at starts.now))) }
{
    let mut made = Map::new(alloc);
    put_all(start_names(alloc, prefix, starts)?, &mut made)?;
    Ok(made)
}

/// The types with those of the starts.
fn lower_types(
    alloc: Global,
    prefix: &Atom,
    starts: &[&NonterminalData],
    types: Types,
) -> Result<Types, AllocError>
    ensures terminals { IfOk result (λ made. made.terminal_types ≡ types.terminal_types) }
    ensures nonterminals { IfOk result (λ made. made.nonterminal_types ≡ put_names types.nonterminal_types
        (start_type_entries types.nonterminal_types prefix.now (rules_at starts.now))) }
{
    let entries = start_types(alloc, prefix, starts, &types)?;
    let mut made = types;
    put_all(entries, &mut made.nonterminal_types)?;
    Ok(made)
}

/// How tables are built: an attribute of the grammar may say so.
fn lower_algorithm(grammar: &Grammar) -> Algorithm
    ensures { result.lalr ≡ has_lalr grammar.now.attributes }
{
    let mut algorithm = Algorithm { lalr: false };
    read_algorithm(grammar.attributes.as_slice(), &mut algorithm);
    algorithm
}

/// The entries of the grammar's tokenizer.
fn tokenizer_entries(alloc: Global, grammar: &Grammar) -> Result<List<MatchEntry>, AllocError>
    ensures { IfOk result (λ made. made ≡ entries_or_none (first_in intern_in grammar.now.items)) }
{
    match grammar.intern_token() {
        None => Ok(List::new(alloc)),
        Some(tokens) => Ok(tokens.try_clone(alloc)?.into_entries()),
    }
}

/// The grammar of plain productions: the starts of these rules, and the grammar's rules.
fn lower_parts(
    alloc: Global,
    grammar: &Grammar,
    starts: &[&NonterminalData],
    types: Types,
) -> Result<LoweredGrammar, AllocError>
    requires few { count_actions (rules_of (grammar_view grammar.now).items) ≤ 2 ^ 32 }
    requires starts { rules_at starts.now ≡ rules_with_starts (rules_of (grammar_view grammar.now).items) }
    ensures nonterminals { IfOk result (λ made. AreMadeNonterminals (grammar_view grammar.now) made.nonterminals) }
    ensures starts { IfOk result (λ made. made.start_nonterminals ≡ put_names []
        (start_name_entries grammar.now.prefix (rules_with_starts (rules_of (grammar_view grammar.now).items)))) }
    ensures definitions { IfOk result (λ made. made.action_fn_defns
        ≡ lowered_definitions types.nonterminal_types (rules_of (grammar_view grammar.now).items)) }
    ensures terminal_types { IfOk result (λ made. made.types.terminal_types ≡ types.terminal_types) }
    ensures nonterminal_types { IfOk result (λ made. made.types.nonterminal_types ≡ put_names types.nonterminal_types
        (start_type_entries types.nonterminal_types grammar.now.prefix
        (rules_with_starts (rules_of (grammar_view grammar.now).items)))) }
    ensures terminals { IfOk result (λ made. IsMadeTerminalSet types.terminal_types made.terminals) }
    ensures prefix { IfOk result (λ made. made.prefix ≡ grammar.now.prefix) }
    ensures algorithm { IfOk result (λ made. made.algorithm.lalr ≡ has_lalr grammar.now.attributes) }
{
    let action_fn_defns = lower_definitions(alloc, grammar, starts, &types)?;
    let terminals = terminal_set(alloc, &types.terminal_types)?;
    let types = lower_types(alloc, &grammar.prefix, starts, types)?;
    Ok(LoweredGrammar {
        prefix: grammar.prefix.try_clone()?,
        terminals,
        start_nonterminals: lower_starts(alloc, &grammar.prefix, starts)?,
        nonterminals: lower_nonterminals(alloc, grammar, starts)?,
        action_fn_defns,
        types,
        algorithm: lower_algorithm(grammar),
    })
}

/// The lowered grammar, where there is a number for each action.
fn lower_grammar(alloc: Global, grammar: &Grammar, types: Types) -> Result<Normalized, AllocError>
    requires { count_actions (rules_of (grammar_view grammar.now).items) ≤ 2 ^ 32 }
    ensures made { IfOk result (λ made. IsMadeOfLists (grammar_view grammar.now) types made) }
    ensures kept { IfOk result (λ made. KeepsTheRest grammar.now made) }
{
    let starts = start_rules(alloc, grammar)?;
    let origins = lower_origins(alloc, grammar, starts.as_slice())?;
    let lowered = lower_parts(alloc, grammar, starts.as_slice(), types)?;
    Ok(Normalized {
        grammar: lowered,
        origins,
        entries: tokenizer_entries(alloc, grammar)?,
    })
}

/// Lowers an expanded grammar to plain productions: one for each alternative of each rule, with an action of its own, and for
/// each public rule a start, which is named by the prefix and the rule's name and produces the rule alone. `types` has the
/// types of rules and of terminals. Nothing of it depends on the session. Whatever grammar is lowered, tables can be made of what
/// comes out: its terminals are numbered by their places, and each production stands under its name and has one of its actions.
///
/// # Errors
///
/// The grammar has more than 2^32 starts and alternatives together: `TooManyActions`, with the grammar's span. And memory
/// runs out.
pub fn lower(
    alloc: Global,
    _session: &Session,
    grammar: Grammar,
    types: Types,
) -> NormResult<Normalized>
    ensures lowered { IfOk result (λ made. (finds : Text → Text → Option Bool) → IsLowerable finds (grammar_view grammar) types
        → IsLowered (grammar_between finds (grammar_view grammar)) (grammar_view grammar) types made) }
    ensures kept { IfOk result (λ made. KeepsTheRest grammar made) }
    ensures ready { IfOk result (λ made. HasTerminalTypes (grammar_view grammar) types.terminal_types
        → IsReadyForTables made.grammar) }
    ensures few { IfOk result (λ made. HasFewActions (grammar_view grammar)) }
    ensures fault { IfErr result (IsLowerFault (grammar_view grammar)) }
{
    if has_too_many_actions(&grammar) {
        return Err(NormFault::Norm(NormError {
            kind: NormErrorKind::TooManyActions,
            span: grammar.span,
        }));
    }
    Ok(lower_grammar(alloc, &grammar, types)?)
}
