//! Extern blocks, which say how tokens of the user's own are seen.

ghost use Rattle.std.specs.Prelude.{◌≡◌, IfOk};
ghost use Rattle.std.specs.Str.{bytes_eq};

use lalrpop_grammar_symbols::{Atom, List, Span, TerminalString};
use std::alloc::{AllocError, Global};

/// `type Location = usize;` in an extern block.
#[derive(PartialEq, Eq, Drop)]
pub struct AssociatedType {
    /// The name that is given a type.
    pub name: Atom,
    /// The type, as text.
    pub type_text: Atom,
}

/// `"+" => Token::Plus` in an extern block's enum.
#[derive(PartialEq, Eq, Drop)]
pub struct Conversion {
    /// The terminal.
    pub from: TerminalString,
    /// The pattern of the user's tokens that have it, as text.
    pub to: Atom,
}

/// `enum Token { .. }` in an extern block.
#[derive(PartialEq, Eq)]
pub struct EnumToken {
    /// The conversions, in order.
    pub conversions: List<Conversion>,
    /// The tokens' type, as text.
    pub type_text: Atom,
}

impl Drop for EnumToken {
    /// Drops what it holds: where it is owned, that is one call.
    fn drop(self) {
        let EnumToken {
            conversions: _conversions,
            type_text: _type_text,
        } = self;
    }
}

/// An extern block.
#[derive(PartialEq, Eq)]
pub struct ExternToken {
    /// Where it is written.
    pub span: Span,
    /// The types that it names, in order.
    pub associated_types: List<AssociatedType>,
    /// The user's own tokens, where it has them.
    pub enum_token: Option<EnumToken>,
}

impl Drop for ExternToken {
    /// Drops what it holds: where it is owned, that is one call.
    fn drop(self) {
        let ExternToken {
            span: _,
            associated_types: _associated_types,
            enum_token: _enum_token,
        } = self;
    }
}

impl AssociatedType {
    /// A copy that equals it.
    pub fn try_clone(&self) -> Result<AssociatedType, AllocError>
        ensures { IfOk result (λ copy. copy ≡ self.now) }
    {
        Ok(AssociatedType {
            name: self.name.try_clone()?,
            type_text: self.type_text.try_clone()?,
        })
    }
}

impl Conversion {
    /// A copy that equals it.
    pub fn try_clone(&self) -> Result<Conversion, AllocError>
        ensures { IfOk result (λ copy. copy ≡ self.now) }
    {
        Ok(Conversion {
            from: self.from.try_clone()?,
            to: self.to.try_clone()?,
        })
    }
}

impl EnumToken {
    /// A copy that equals it.
    pub fn try_clone(&self, alloc: Global) -> Result<EnumToken, AllocError>
        ensures { IfOk result (λ copy. copy ≡ self.now) }
    {
        let mut conversions = List::new(alloc);
        for conversion in self.conversions.as_slice() {
            conversions.push(conversion.try_clone()?)?;
        }
        Ok(EnumToken {
            conversions,
            type_text: self.type_text.try_clone()?,
        })
    }
}

impl ExternToken {
    ghost use Rattle.std.specs.Option.{option_copied};
    ghost use Rattle.lalrpop_grammar.specs.Items.{type_of_name};

    /// The first associated type of that name, where there is one.
    pub fn associated_type(&self, name: &Atom) -> Option<&AssociatedType>
        ensures { option_copied result ≡ type_of_name name.now self.now.associated_types }
    {
        for associated in self.associated_types.as_slice() {
            if is_named(associated, name) {
                return Some(associated);
            }
        }
        None
    }

    /// A copy that equals it.
    pub fn try_clone(&self, alloc: Global) -> Result<ExternToken, AllocError>
        ensures { IfOk result (λ copy. copy ≡ self.now) }
    {
        Ok(ExternToken {
            span: self.span,
            associated_types: clone_associated(alloc, self.associated_types.as_slice())?,
            enum_token: clone_enum(alloc, &self.enum_token)?,
        })
    }
}

fn is_named(associated: &AssociatedType, name: &Atom) -> bool
    ensures { result ≡ bytes_eq associated.now.name name.now }
{
    associated.name.as_str() == name.as_str()
}

fn clone_associated(
    alloc: Global,
    types: &[AssociatedType],
) -> Result<List<AssociatedType>, AllocError>
    ensures { IfOk result (λ copy. copy ≡ types.now) }
{
    let mut copy = List::new(alloc);
    for associated in types {
        copy.push(associated.try_clone()?)?;
    }
    Ok(copy)
}

fn clone_enum(alloc: Global, token: &Option<EnumToken>) -> Result<Option<EnumToken>, AllocError>
    ensures { IfOk result (λ copy. copy ≡ token.now) }
{
    match token {
        None => Ok(None),
        Some(token) => Ok(Some(token.try_clone(alloc)?)),
    }
}
