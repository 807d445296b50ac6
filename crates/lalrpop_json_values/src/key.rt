//! The keys of the format.

ghost use Rattle.std.specs.Prelude.{◌≡◌};
ghost use Rattle.lalrpop_json_values.specs.Key.{key_text};

/// A key of the format.
#[derive(Clone, Copy, Debug, PartialEq, Eq)]
pub enum Key {
    /// What an alternative does.
    Action,
    /// The alternatives of a rule.
    Alternatives,
    /// What stands behind an attribute.
    Arg,
    /// Parameters or arguments.
    Args,
    /// The associated types of an extern block.
    Associated,
    /// Attributes.
    Attributes,
    /// A bare name.
    Bare,
    /// The entry for all literals that aren't listed.
    CatchAll,
    /// The trees below a tree.
    Children,
    /// When an alternative is there.
    Condition,
    /// The levels of a match block.
    Contents,
    /// How the user's tokens are seen.
    Conversions,
    /// The tokens of an extern block.
    Enum,
    /// The text of an attribute.
    Equal,
    /// The symbols of an alternative or a group.
    Expr,
    /// The user's code that may fail.
    Fallible,
    /// What a token of the user is.
    From,
    /// The trees of a group.
    Group,
    /// A name in a type.
    Id,
    /// The items of a grammar.
    Items,
    /// Which form a grammar item or a symbol has.
    Kind,
    /// The parameter of a condition.
    Lhs,
    /// The lifetime of a reference type.
    Lifetime,
    /// The trees of a repetition.
    List,
    /// The literal of an entry.
    Literal,
    /// A tree of `@L` or `@R`.
    Look,
    /// What an entry's matches become.
    Map,
    /// Whether `mut` stands there.
    Mutable,
    /// A name.
    Name,
    /// A sign.
    Op,
    /// The tree of an option.
    Opt,
    /// The parameters of the parser.
    Parameters,
    /// The attributes inside an attribute.
    Paren,
    /// The path of a type.
    Path,
    /// Which alternative of its rule.
    Place,
    /// Where a rule may be used.
    PubIn,
    /// The text of a quoted literal.
    Quoted,
    /// What a reference type refers to.
    Ref,
    /// The text of a regular expression.
    Regex,
    /// What a parameter is tested against.
    Rhs,
    /// The rule of a tree.
    Rule,
    /// Where a thing is written.
    Span,
    /// A symbol.
    Symbol,
    /// A terminal.
    Terminal,
    /// A text.
    Text,
    /// The pattern of a token of the user.
    To,
    /// The types of a tuple.
    Tuple,
    /// The type of a rule.
    DeclaredType,
    /// The type parameters of the parser.
    TypeParameters,
    /// The user's code.
    User,
    /// Who may use a rule.
    Visibility,
    /// The where clauses of the parser.
    WhereClauses,
}

impl Key {
    /// The key as it stands in the JSON text.
    #[tactic(auto, unfolding(crate::specs::Key::key_text))]
    pub fn text(self) -> &'static str
        ensures { result.now ≡ key_text self }
    {
        match self {
            Key::Action => "action",
            Key::Alternatives => "alternatives",
            Key::Arg => "arg",
            Key::Args => "args",
            Key::Associated => "associated",
            Key::Attributes => "attributes",
            Key::Bare => "bare",
            Key::CatchAll => "catch_all",
            Key::Children => "children",
            Key::Condition => "condition",
            Key::Contents => "contents",
            Key::Conversions => "conversions",
            Key::Enum => "enum",
            Key::Equal => "equal",
            Key::Expr => "expr",
            Key::Fallible => "fallible",
            Key::From => "from",
            Key::Group => "group",
            Key::Id => "id",
            Key::Items => "items",
            Key::Kind => "kind",
            Key::Lhs => "lhs",
            Key::Lifetime => "lifetime",
            Key::List => "list",
            Key::Literal => "literal",
            Key::Look => "look",
            Key::Map => "map",
            Key::Mutable => "mutable",
            Key::Name => "name",
            Key::Op => "op",
            Key::Opt => "opt",
            Key::Parameters => "parameters",
            Key::Paren => "paren",
            Key::Path => "path",
            Key::Place => "place",
            Key::PubIn => "pub_in",
            Key::Quoted => "quoted",
            Key::Ref => "ref",
            Key::Regex => "regex",
            Key::Rhs => "rhs",
            Key::Rule => "rule",
            Key::Span => "span",
            Key::Symbol => "symbol",
            Key::Terminal => "terminal",
            Key::Text => "text",
            Key::To => "to",
            Key::Tuple => "tuple",
            Key::DeclaredType => "type",
            Key::TypeParameters => "type_parameters",
            Key::User => "user",
            Key::Visibility => "visibility",
            Key::WhereClauses => "where_clauses",
        }
    }
}
