//! The actions of productions: their numbers, and what each of them does.

ghost use Rattle.std.specs.Prelude.{◌≡◌, ◌<◌, ◌^◌, IfOk};

use crate::production::{Symbol, clone_symbols};
use lalrpop_grammar::{Atom, List, TypeRepr};
use std::alloc::{AllocError, Global};

/// The number of an action.
#[derive(Clone, Copy, Debug, PartialEq, Eq, PartialOrd, Ord, Hash)]
pub struct ActionFn(u32);

/// What an action does.
#[derive(Debug, PartialEq, Eq)]
pub struct ActionFnDefn {
    /// Whether its code may fail, as behind `=>?`.
    pub fallible: bool,
    /// The type of what it gives.
    pub ret_type: TypeRepr,
    /// Where its code comes from.
    pub kind: ActionFnDefnKind,
}

impl Drop for ActionFnDefn {
    /// Drops what it holds: where it is owned, that is one call.
    fn drop(self) {
        let ActionFnDefn {
            fallible: _,
            ret_type: _ret_type,
            kind: _kind,
        } = self;
    }
}

/// Where an action's code comes from.
#[derive(Debug, PartialEq, Eq, Drop)]
pub enum ActionFnDefnKind {
    /// From the alternative.
    User(UserActionFnDefn),
    /// From other actions, those of the productions that were inlined.
    Inline(InlineActionFnDefn),
    /// From `@L` or `@R`.
    Lookaround(LookaroundActionFnDefn),
}

/// The action of an alternative.
#[derive(Debug, PartialEq, Eq, Drop)]
pub struct UserActionFnDefn {
    /// The code, where some is written.
    pub code: Option<Atom>,
}

/// The action of `@L` or `@R`.
#[derive(Clone, Copy, Debug, PartialEq, Eq)]
pub enum LookaroundActionFnDefn {
    /// That of `@L`.
    Lookahead,
    /// That of `@R`.
    Lookbehind,
}

/// An action made of others, for a production in which symbols were inlined.
#[derive(Debug, PartialEq, Eq, Drop)]
pub struct InlineActionFnDefn {
    /// The action of the production before.
    pub action: ActionFn,
    /// What became of each symbol of the production before.
    pub symbols: List<InlinedSymbol>,
}

/// What became of a symbol.
#[derive(Debug, PartialEq, Eq, Drop)]
pub enum InlinedSymbol {
    /// It was kept.
    Original(Symbol),
    /// It was inlined: by the production of this action, with these symbols.
    Inlined(ActionFn, List<Symbol>),
}

impl ActionFn {
    /// The action of this number.
    pub fn new(index: usize) -> ActionFn
        requires { index < 2 ^ 32 }
        ensures { result.0 ≡ index }
    {
        ActionFn(index as u32)
    }

    /// The number.
    pub fn index(self) -> usize
        ensures { result ≡ self.0 }
    {
        let ActionFn(number) = self;
        number as usize
    }
}

impl ActionFnDefn {
    /// A copy that equals it.
    pub fn try_clone(&self, alloc: Global) -> Result<ActionFnDefn, AllocError>
        ensures { IfOk result (λ copy. copy ≡ self.now) }
    {
        Ok(ActionFnDefn {
            fallible: self.fallible,
            ret_type: self.ret_type.try_clone(alloc)?,
            kind: self.kind.try_clone(alloc)?,
        })
    }
}

impl ActionFnDefnKind {
    /// A copy that equals it.
    pub fn try_clone(&self, alloc: Global) -> Result<ActionFnDefnKind, AllocError>
        ensures { IfOk result (λ copy. copy ≡ self.now) }
    {
        match self {
            ActionFnDefnKind::User(user) => Ok(ActionFnDefnKind::User(user.try_clone()?)),
            ActionFnDefnKind::Inline(inline) => {
                Ok(ActionFnDefnKind::Inline(inline.try_clone(alloc)?))
            }
            ActionFnDefnKind::Lookaround(look) => Ok(ActionFnDefnKind::Lookaround(*look)),
        }
    }
}

impl UserActionFnDefn {
    /// A copy that equals it.
    pub fn try_clone(&self) -> Result<UserActionFnDefn, AllocError>
        ensures { IfOk result (λ copy. copy ≡ self.now) }
    {
        match &self.code {
            None => Ok(UserActionFnDefn { code: None }),
            Some(code) => Ok(UserActionFnDefn {
                code: Some(code.try_clone()?),
            }),
        }
    }
}

impl InlineActionFnDefn {
    /// A copy that equals it.
    pub fn try_clone(&self, alloc: Global) -> Result<InlineActionFnDefn, AllocError>
        ensures { IfOk result (λ copy. copy ≡ self.now) }
    {
        Ok(InlineActionFnDefn {
            action: self.action,
            symbols: clone_inlined(alloc, self.symbols.as_slice())?,
        })
    }
}

impl InlinedSymbol {
    /// A copy that equals it.
    pub fn try_clone(&self, alloc: Global) -> Result<InlinedSymbol, AllocError>
        ensures { IfOk result (λ copy. copy ≡ self.now) }
    {
        match self {
            InlinedSymbol::Original(symbol) => Ok(InlinedSymbol::Original(symbol.try_clone()?)),
            InlinedSymbol::Inlined(action, symbols) => Ok(InlinedSymbol::Inlined(
                *action,
                clone_symbols(alloc, symbols.as_slice())?,
            )),
        }
    }
}

fn clone_inlined(
    alloc: Global,
    symbols: &[InlinedSymbol],
) -> Result<List<InlinedSymbol>, AllocError>
    ensures { IfOk result (λ copy. copy ≡ symbols.now) }
{
    let mut copy = List::new(alloc);
    for symbol in symbols {
        copy.push(symbol.try_clone(alloc)?)?;
    }
    Ok(copy)
}
