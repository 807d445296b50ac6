//! Attributes, as `#[cfg(feature = "x")]`.

ghost use Rattle.std.specs.Prelude.{◌≡◌, IfOk};

use lalrpop_grammar_symbols::{Atom, List, Span};
use std::alloc::{AllocError, Global};

/// An attribute of a grammar, a rule or an alternative.
#[cycle(attribute)]
#[derive(Debug, PartialEq, Eq, Drop)]
pub struct Attribute {
    /// Where it is written.
    pub span: Span,
    /// Its name.
    pub id: Atom,
    /// What stands behind the name.
    pub arg: AttributeArg,
}

/// What stands behind an attribute's name.
#[cycle(attribute)]
#[derive(Debug, PartialEq, Eq, Drop)]
pub enum AttributeArg {
    /// Nothing.
    Empty,
    /// `(a, b)`: attributes in parentheses.
    Paren(List<Attribute>),
    /// `= "text"`.
    Equal(Atom),
}

impl Attribute {
    ghost use Rattle.std.specs.Option.{option_map};
    ghost use Rattle.lalrpop_grammar.specs.Attributes.{equal_of, text_pair_view};

    /// The name and the text of `name = "text"`, where it has that shape.
    pub fn get_arg_equal(&self) -> Option<(&Atom, &Atom)>
        ensures { option_map text_pair_view result ≡ equal_of self.now }
    {
        match &self.arg {
            AttributeArg::Equal(text) => Some((&self.id, text)),
            AttributeArg::Empty | AttributeArg::Paren(_) => None,
        }
    }

    /// A copy that equals it.
    #[cycle(try_clone_attributes)]
    pub fn try_clone(&self, alloc: Global) -> Result<Attribute, AllocError>
        ensures { IfOk result (λ copy. copy ≡ self.now) }
    {
        Ok(Attribute {
            span: self.span,
            id: self.id.try_clone()?,
            arg: self.arg.try_clone(alloc)?,
        })
    }
}

impl AttributeArg {
    /// A copy that equals it.
    #[cycle(try_clone_attributes)]
    pub fn try_clone(&self, alloc: Global) -> Result<AttributeArg, AllocError>
        ensures { IfOk result (λ copy. copy ≡ self.now) }
    {
        match self {
            AttributeArg::Empty => Ok(AttributeArg::Empty),
            AttributeArg::Paren(parts) => {
                Ok(AttributeArg::Paren(clone_attributes(alloc, parts.as_slice())?))
            }
            AttributeArg::Equal(text) => Ok(AttributeArg::Equal(text.try_clone()?)),
        }
    }
}

/// Copies of the attributes, in order.
#[cycle(try_clone_attributes)]
pub fn clone_attributes(
    alloc: Global,
    attributes: &[Attribute],
) -> Result<List<Attribute>, AllocError>
    ensures { IfOk result (λ copy. copy ≡ attributes.now) }
{
    let mut copy = List::new(alloc);
    for attribute in attributes {
        copy.push(attribute.try_clone(alloc)?)?;
    }
    Ok(copy)
}
