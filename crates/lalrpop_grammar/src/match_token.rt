//! Match blocks, which say how a text is cut into tokens.

ghost use Rattle.std.specs.Prelude.{◌≡◌, ◌∷◌, ◌++◌, [], IfOk, OnOk, OnErr};

use lalrpop_grammar_symbols::{List, Span, TerminalLiteral, TerminalString};
use std::alloc::{AllocError, Global};

/// What an entry's matches become.
#[derive(PartialEq, Eq, Drop)]
pub enum MatchMapping {
    /// Tokens with this terminal.
    Terminal(TerminalString),
    /// Nothing: they are skipped.
    Skip,
}

/// One entry of a match block.
#[derive(PartialEq, Eq, Drop)]
pub enum MatchItem {
    /// `_`: all literals that aren't listed.
    CatchAll(Span),
    /// A literal that stands for itself.
    Unmapped(TerminalLiteral, Span),
    /// `literal => name` or `literal => { }`.
    Mapped(TerminalLiteral, MatchMapping, Span),
}

/// One group of entries, which share a precedence.
#[derive(PartialEq, Eq, Drop)]
pub struct MatchContents {
    /// The entries, in order.
    pub items: List<MatchItem>,
}

/// A match block.
#[derive(PartialEq, Eq)]
pub struct MatchToken {
    /// The groups, the first with the greatest precedence.
    pub contents: List<MatchContents>,
    /// Where it is written.
    pub span: Span,
}

impl Drop for MatchToken {
    /// Drops what it holds: where it is owned, that is one call.
    fn drop(self) {
        let MatchToken {
            contents: _contents,
            span: _,
        } = self;
    }
}

impl MatchMapping {
    /// A copy that equals it.
    pub fn try_clone(&self) -> Result<MatchMapping, AllocError>
        ensures { IfOk result (λ copy. copy ≡ self.now) }
    {
        match self {
            MatchMapping::Terminal(terminal) => {
                Ok(MatchMapping::Terminal(terminal.try_clone()?))
            }
            MatchMapping::Skip => Ok(MatchMapping::Skip),
        }
    }
}

impl MatchItem {
    ghost use Rattle.lalrpop_grammar.specs.Items.{span_of};

    /// Where the entry is written.
    pub fn span(&self) -> Span
        ensures { result ≡ span_of self.now }
    {
        match self {
            MatchItem::CatchAll(span) => *span,
            MatchItem::Unmapped(_, span) => *span,
            MatchItem::Mapped(_, _, span) => *span,
        }
    }

    /// A copy that equals it.
    pub fn try_clone(&self) -> Result<MatchItem, AllocError>
        ensures { IfOk result (λ copy. copy ≡ self.now) }
    {
        match self {
            MatchItem::CatchAll(span) => Ok(MatchItem::CatchAll(*span)),
            MatchItem::Unmapped(literal, span) => {
                Ok(MatchItem::Unmapped(literal.try_clone()?, *span))
            }
            MatchItem::Mapped(literal, mapping, span) => {
                let literal = literal.try_clone()?;
                Ok(MatchItem::Mapped(literal, mapping.try_clone()?, *span))
            }
        }
    }
}

impl MatchContents {
    /// A copy that equals it.
    pub fn try_clone(&self, alloc: Global) -> Result<MatchContents, AllocError>
        ensures { IfOk result (λ copy. copy ≡ self.now) }
    {
        let mut items = List::new(alloc);
        for item in self.items.as_slice() {
            items.push(item.try_clone()?)?;
        }
        Ok(MatchContents { items })
    }
}

impl MatchToken {
    /// A block with one group.
    pub fn new(alloc: Global, contents: MatchContents, span: Span) -> Result<MatchToken, AllocError>
        ensures groups { IfOk result (λ block. block.contents ≡ contents ∷ []) }
        ensures place { IfOk result (λ block. block.span ≡ span) }
    {
        let mut groups = List::new(alloc);
        groups.push(contents)?;
        Ok(MatchToken {
            contents: groups,
            span,
        })
    }

    /// One more group behind the others. After a refusal the block is as before.
    pub fn add(&mut self, contents: MatchContents) -> Result<(), AllocError>
        ensures ok { OnOk result (self.new.contents ≡ self.old.contents ++ contents ∷ []) }
        ensures err { OnErr result (self.new.contents ≡ self.old.contents) }
        ensures place { self.new.span ≡ self.old.span }
    {
        self.contents.push(contents)
    }

    /// A copy that equals it.
    pub fn try_clone(&self, alloc: Global) -> Result<MatchToken, AllocError>
        ensures { IfOk result (λ copy. copy ≡ self.now) }
    {
        let mut contents = List::new(alloc);
        for group in self.contents.as_slice() {
            contents.push(group.try_clone(alloc)?)?;
        }
        Ok(MatchToken {
            contents,
            span: self.span,
        })
    }
}
