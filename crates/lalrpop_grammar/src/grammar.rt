//! A written grammar and its items.

ghost use Rattle.std.specs.Prelude.{◌≡◌, ◌↔◌, IfOk, IsTrue};

use crate::extern_token::{EnumToken, ExternToken};
use crate::intern_token::InternToken;
use crate::match_token::MatchToken;
use crate::nonterminal::NonterminalData;
use crate::types::{Attribute, clone_attributes};
use lalrpop_grammar_symbols::{Atom, List, Span};
use std::alloc::{AllocError, Global};

/// One item of a grammar.
#[derive(PartialEq, Eq, Drop)]
pub enum GrammarItem {
    /// A match block.
    MatchToken(MatchToken),
    /// An extern block.
    ExternToken(ExternToken),
    /// The tokenizer's entries.
    InternToken(InternToken),
    /// A rule or a macro.
    Nonterminal(NonterminalData),
    /// An import, as text.
    Use(Atom),
}

/// A grammar as it is written.
#[derive(PartialEq, Eq, Drop)]
pub struct Grammar {
    /// A run of underscores with which no name of the grammar begins.
    pub prefix: Atom,
    /// Where it is written.
    pub span: Span,
    /// The parameters of the parser, as text.
    pub parameters: Atom,
    /// The type parameters of the parser, as text.
    pub type_parameters: Atom,
    /// The where clauses of the parser, as text.
    pub where_clauses: Atom,
    /// Its attributes, in order.
    pub attributes: List<Attribute>,
    /// Its items, in order.
    pub items: List<GrammarItem>,
}

impl GrammarItem {
    ghost use Rattle.std.specs.Option.{option_copied};
    ghost use Rattle.lalrpop_grammar.specs.Items.{IsMacro, nonterminal_in, match_in, extern_in, intern_in};

    /// Whether it is a macro.
    pub fn is_macro_def(&self) -> bool
        ensures { IsTrue result ↔ IsMacro self.now }
    {
        match self.as_nonterminal() {
            Some(data) => data.is_macro_def(),
            None => false,
        }
    }

    /// The rule, where it is one.
    pub fn as_nonterminal(&self) -> Option<&NonterminalData>
        ensures { option_copied result ≡ nonterminal_in self.now }
    {
        match self {
            GrammarItem::Nonterminal(data) => Some(data),
            _ => None,
        }
    }

    /// The match block, where it is one.
    pub fn as_match_token(&self) -> Option<&MatchToken>
        ensures { option_copied result ≡ match_in self.now }
    {
        match self {
            GrammarItem::MatchToken(block) => Some(block),
            _ => None,
        }
    }

    /// The extern block, where it is one.
    pub fn as_extern_token(&self) -> Option<&ExternToken>
        ensures { option_copied result ≡ extern_in self.now }
    {
        match self {
            GrammarItem::ExternToken(block) => Some(block),
            _ => None,
        }
    }

    /// The tokenizer's entries, where it holds them.
    pub fn as_intern_token(&self) -> Option<&InternToken>
        ensures { option_copied result ≡ intern_in self.now }
    {
        match self {
            GrammarItem::InternToken(entries) => Some(entries),
            _ => None,
        }
    }

    /// A copy that equals it.
    pub fn try_clone(&self, alloc: Global) -> Result<GrammarItem, AllocError>
        ensures { IfOk result (λ copy. copy ≡ self.now) }
    {
        match self {
            GrammarItem::MatchToken(block) => Ok(GrammarItem::MatchToken(block.try_clone(alloc)?)),
            GrammarItem::ExternToken(block) => Ok(GrammarItem::ExternToken(block.try_clone(
                alloc,
            )?)),
            GrammarItem::InternToken(entries) => {
                Ok(GrammarItem::InternToken(entries.try_clone(alloc)?))
            }
            GrammarItem::Nonterminal(data) => Ok(GrammarItem::Nonterminal(data.try_clone(alloc)?)),
            GrammarItem::Use(text) => Ok(GrammarItem::Use(text.try_clone()?)),
        }
    }
}

impl Grammar {
    ghost use Rattle.std.specs.Option.{option_copied};
    ghost use Rattle.lalrpop_grammar.specs.Items.{first_in, match_in, extern_in, intern_in, enum_in};

    /// The first match block, where there is one.
    pub fn match_token(&self) -> Option<&MatchToken>
        ensures { option_copied result ≡ first_in match_in self.now.items }
    {
        for item in self.items.as_slice() {
            if let Some(block) = item.as_match_token() {
                return Some(block);
            }
        }
        None
    }

    /// The first extern block, where there is one.
    pub fn extern_token(&self) -> Option<&ExternToken>
        ensures { option_copied result ≡ first_in extern_in self.now.items }
    {
        for item in self.items.as_slice() {
            if let Some(block) = item.as_extern_token() {
                return Some(block);
            }
        }
        None
    }

    /// The first tokenizer's entries, where there are any.
    pub fn intern_token(&self) -> Option<&InternToken>
        ensures { option_copied result ≡ first_in intern_in self.now.items }
    {
        for item in self.items.as_slice() {
            if let Some(entries) = item.as_intern_token() {
                return Some(entries);
            }
        }
        None
    }

    /// The first extern block's enum, where there is one.
    pub fn enum_token(&self) -> Option<&EnumToken>
        ensures { option_copied result ≡ enum_in (first_in extern_in self.now.items) }
    {
        match self.extern_token() {
            Some(block) => block.enum_token.as_ref(),
            None => None,
        }
    }

    /// A copy that equals it.
    pub fn try_clone(&self, alloc: Global) -> Result<Grammar, AllocError>
        ensures { IfOk result (λ copy. copy ≡ self.now) }
    {
        Ok(Grammar {
            prefix: self.prefix.try_clone()?,
            span: self.span,
            parameters: self.parameters.try_clone()?,
            type_parameters: self.type_parameters.try_clone()?,
            where_clauses: self.where_clauses.try_clone()?,
            attributes: clone_attributes(alloc, self.attributes.as_slice())?,
            items: clone_items(alloc, self.items.as_slice())?,
        })
    }
}

fn clone_items(alloc: Global, items: &[GrammarItem]) -> Result<List<GrammarItem>, AllocError>
    ensures { IfOk result (λ copy. copy ≡ items.now) }
{
    let mut copy = List::new(alloc);
    for item in items {
        copy.push(item.try_clone(alloc)?)?;
    }
    Ok(copy)
}
