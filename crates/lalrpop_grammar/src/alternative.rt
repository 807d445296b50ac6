//! Alternatives of a rule.

ghost use Rattle.std.specs.Prelude.{◌≡◌, IfOk};

use crate::condition::Condition;
use crate::origin::Origin;
use crate::types::{Attribute, clone_attributes};
use lalrpop_grammar_symbols::{Atom, List, Span, Symbol, clone_symbols};
use std::alloc::{AllocError, Global};

/// What an alternative does when it is reduced.
#[derive(PartialEq, Eq)]
pub enum ActionKind {
    /// `=> code`.
    User(Atom),
    /// `=>? code`, which may fail.
    Fallible(Atom),
    /// The place of the next token.
    Lookahead,
    /// The place of the last token.
    Lookbehind,
}

impl Drop for ActionKind {
    /// Drops what it holds: where it is owned, that is one call.
    fn drop(self) {
        match self {
            ActionKind::User(_part) => {}
            ActionKind::Fallible(_part) => {}
            ActionKind::Lookahead => {}
            ActionKind::Lookbehind => {}
        }
    }
}

/// One alternative of a rule.
#[derive(PartialEq, Eq)]
pub struct Alternative {
    /// Where it is written.
    pub span: Span,
    /// Its symbols, in order.
    pub expr: List<Symbol>,
    /// When it is there, in a macro.
    pub condition: Option<Condition>,
    /// What it does; without one the chosen symbols' values are its value.
    pub action: Option<ActionKind>,
    /// Its attributes, in order.
    pub attributes: List<Attribute>,
    /// The written choice that it stands for.
    pub origin: Origin,
}

impl Drop for Alternative {
    /// Drops what it holds: where it is owned, that is one call.
    fn drop(self) {
        let Alternative {
            span: _,
            expr: _expr,
            condition: _condition,
            action: _action,
            attributes: _attributes,
            origin: _origin,
        } = self;
    }
}

impl ActionKind {
    /// A copy that equals it.
    pub fn try_clone(&self) -> Result<ActionKind, AllocError>
        ensures { IfOk result (λ copy. copy ≡ self.now) }
    {
        match self {
            ActionKind::User(code) => Ok(ActionKind::User(code.try_clone()?)),
            ActionKind::Fallible(code) => Ok(ActionKind::Fallible(code.try_clone()?)),
            ActionKind::Lookahead => Ok(ActionKind::Lookahead),
            ActionKind::Lookbehind => Ok(ActionKind::Lookbehind),
        }
    }
}

impl Alternative {
    /// A copy that equals it.
    pub fn try_clone(&self, alloc: Global) -> Result<Alternative, AllocError>
        ensures { IfOk result (λ copy. copy ≡ self.now) }
    {
        let expr = clone_symbols(alloc, self.expr.as_slice())?;
        let attributes = clone_attributes(alloc, self.attributes.as_slice())?;
        let origin = self.origin.try_clone(alloc)?;
        let condition = clone_condition(&self.condition)?;
        Ok(Alternative {
            span: self.span,
            expr,
            condition,
            action: clone_action(&self.action)?,
            attributes,
            origin,
        })
    }
}

fn clone_condition(condition: &Option<Condition>) -> Result<Option<Condition>, AllocError>
    ensures { IfOk result (λ copy. copy ≡ condition.now) }
{
    match condition {
        None => Ok(None),
        Some(condition) => Ok(Some(condition.try_clone()?)),
    }
}

fn clone_action(action: &Option<ActionKind>) -> Result<Option<ActionKind>, AllocError>
    ensures { IfOk result (λ copy. copy ≡ action.now) }
{
    match action {
        None => Ok(None),
        Some(action) => Ok(Some(action.try_clone()?)),
    }
}
