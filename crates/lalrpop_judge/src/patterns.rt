//! The patterns for which a grammar's conditions search, each of them compiled once.

ghost use Rattle.lalrpop_judge.specs.Compiled.{IsCompiledTable, IsCompiledTable-prop};

use crate::compiled::CompiledPattern;
use lalrpop_grammar::{Alternative, Atom, Condition, ConditionOp, Grammar, NonterminalData};
use lalrpop_grammar_rules::cfg_active;
use lalrpop_grammar_rules::closed::{Finder, Finding};
use lalrpop_grammar_rules::search::PatternFinder;
use std::alloc::{AllocError, Global};
use std::collections::HashMap;

/// The patterns for which the conditions of enabled alternatives search, by their texts.
#[derive(Drop)]
pub(crate) struct CompiledPatterns<'g> {
    by_text: HashMap<&'g str, CompiledPattern>,
    ghost right: { IsCompiledTable by_text } by { IsCompiledTable-prop by_text },
}

impl<'g> CompiledPatterns<'g> {
    /// Those of the alternatives that the features enable.
    pub(crate) fn new(
        alloc: Global,
        grammar: &'g Grammar,
        features: &[Atom],
    ) -> Result<CompiledPatterns<'g>, AllocError> {
        let mut patterns = CompiledPatterns {
            by_text: HashMap::new(alloc),
        };
        for rule in grammar.rules() {
            patterns.add_rule(alloc, features, rule)?;
        }
        Ok(patterns)
    }

    /// Adds those of the rule, where it is enabled.
    fn add_rule(
        &mut self,
        alloc: Global,
        features: &[Atom],
        rule: &'g NonterminalData,
    ) -> Result<(), AllocError> {
        if !cfg_active(features, rule.attributes.as_slice()) {
            return Ok(());
        }
        for alternative in rule.alternatives.as_slice() {
            self.add_alternative(alloc, features, alternative)?;
        }
        Ok(())
    }

    /// Adds that of the alternative, where it is enabled and its condition is a search.
    fn add_alternative(
        &mut self,
        alloc: Global,
        features: &[Atom],
        alternative: &'g Alternative,
    ) -> Result<(), AllocError> {
        if !cfg_active(features, alternative.attributes.as_slice()) {
            return Ok(());
        }
        match &alternative.condition {
            Some(condition) => self.add_condition(alloc, condition),
            None => Ok(()),
        }
    }

    /// Adds that of the condition, where it is a search.
    fn add_condition(&mut self, alloc: Global, condition: &'g Condition) -> Result<(), AllocError> {
        match condition.op {
            ConditionOp::Match => self.add_pattern(alloc, condition.rhs.as_str()),
            ConditionOp::NotMatch => self.add_pattern(alloc, condition.rhs.as_str()),
            ConditionOp::Equals => Ok(()),
            ConditionOp::NotEquals => Ok(()),
        }
    }

    /// Adds the pattern, unless it stands there.
    fn add_pattern(&mut self, alloc: Global, pattern: &'g str) -> Result<(), AllocError> {
        if self.by_text.contains_key(pattern) {
            return Ok(());
        }
        let compiled = CompiledPattern::new(alloc, pattern)?;
        self.by_text.insert(pattern, compiled)?;
        Ok(())
    }
}

impl<'g> Finder for CompiledPatterns<'g> {
    ghost use Rattle.lalrpop_grammar_rules.specs.Search.{finds as finds_in, is_too_deep};

    ghost finds = { λ patterns. finds_in };

    ghost too_deep = { λ patterns. is_too_deep };

    fn find(&self, alloc: Global, pattern: &str, text: &str) -> Result<Finding, AllocError> {
        match self.by_text.get(pattern) {
            Some(compiled) => compiled.find_in(alloc, text),
            None => PatternFinder.find(alloc, pattern, text),
        }
    }
}
