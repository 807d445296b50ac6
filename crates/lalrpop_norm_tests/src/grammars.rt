//! Written grammars as JSON, sessions, and what the passes make of them.

use lalrpop_grammar::{Atom, Grammar};
use lalrpop_json_grammar::read_grammar;
use lalrpop_norm::{
    LiteralPlaces, Session, expand_macros, expand_precedence, remove_disabled_decls, resolve,
    token_check,
};
use serde_json::Value;
use std::alloc::Global;
use std::process::Abort;

/// `pub L = Comma<"n">; Comma<T> = { <(<T> ",")*> <T?> };`, with spans in this text.
pub(crate) const COMMAS: &str =
    r#"{"attributes":[],"items":[{"alternatives":[{"action":null,"attributes":[],"condition":null,"expr":[{"args":[{"kind":"terminal","span":[14,17],"terminal":{"quoted":"n"}}],"kind":"macro","name":"Comma","span":[8,18]}],"span":[7,18]}],"args":[],"attributes":[],"kind":"rule","name":"L","span":[0,5],"type":null,"visibility":"pub"},{"alternatives":[{"action":null,"attributes":[],"condition":null,"expr":[{"kind":"choose","span":[33,45],"symbol":{"kind":"repeat","op":"*","span":[34,44],"symbol":{"expr":[{"kind":"choose","span":[35,38],"symbol":{"kind":"id","name":"T","span":[36,37]}},{"kind":"terminal","span":[39,42],"terminal":{"quoted":","}}],"kind":"group","span":[34,43]}}},{"kind":"choose","span":[46,50],"symbol":{"kind":"repeat","op":"?","span":[47,49],"symbol":{"kind":"id","name":"T","span":[47,48]}}}],"span":[31,50]}],"args":["T"],"attributes":[],"kind":"rule","name":"Comma","span":[20,25],"type":null,"visibility":"priv"}],"parameters":"","span":[0,53],"type_parameters":"","where_clauses":""}"#;

/// `match { "n" => N, _ } pub S = A N Id<"x"> => s; #[cfg(feature = "f")] D = "d" => d; A = { "a" => a, #[cfg(feature = "f")] "b"
/// => b }; #[inline] #[cfg(not(feature = "f"))] Id<T>: #T# = T;`
pub(crate) const FEATURED: &str =
    r#"{"attributes":[],"items":[{"contents":[[{"literal":{"quoted":"n"},"map":{"bare":"N"},"span":[8,16]},{"catch_all":[18,19]}]],"kind":"match","span":[0,5]},{"alternatives":[{"action":{"user":"s"},"attributes":[],"condition":null,"expr":[{"kind":"id","name":"A","span":[30,31]},{"kind":"id","name":"N","span":[32,33]},{"args":[{"kind":"terminal","span":[37,40],"terminal":{"quoted":"x"}}],"kind":"macro","name":"Id","span":[34,41]}],"span":[29,41]}],"args":[],"attributes":[],"kind":"rule","name":"S","span":[22,27],"type":null,"visibility":"pub"},{"alternatives":[{"action":{"user":"d"},"attributes":[],"condition":null,"expr":[{"kind":"terminal","span":[74,77],"terminal":{"quoted":"d"}}],"span":[73,77]}],"args":[],"attributes":[{"arg":{"paren":[{"arg":{"equal":"f"},"id":"feature","span":[54,67]}]},"id":"cfg","span":[50,68]}],"kind":"rule","name":"D","span":[70,71],"type":null,"visibility":"priv"},{"alternatives":[{"action":{"user":"a"},"attributes":[],"condition":null,"expr":[{"kind":"terminal","span":[90,93],"terminal":{"quoted":"a"}}],"span":[88,93]},{"action":{"user":"b"},"attributes":[{"arg":{"paren":[{"arg":{"equal":"f"},"id":"feature","span":[106,119]}]},"id":"cfg","span":[102,120]}],"condition":null,"expr":[{"kind":"terminal","span":[122,125],"terminal":{"quoted":"b"}}],"span":[98,125]}],"args":[],"attributes":[],"kind":"rule","name":"A","span":[84,85],"type":null,"visibility":"priv"},{"alternatives":[{"action":null,"attributes":[],"condition":null,"expr":[{"kind":"id","name":"T","span":[184,185]}],"span":[183,185]}],"args":["T"],"attributes":[{"arg":null,"id":"inline","span":[136,142]},{"arg":{"paren":[{"arg":{"paren":[{"arg":{"equal":"f"},"id":"feature","span":[154,167]}]},"id":"not","span":[150,168]}]},"id":"cfg","span":[146,169]}],"kind":"rule","name":"Id","span":[171,173],"type":{"symbol":{"kind":"id","name":"T","span":[179,180]}},"visibility":"priv"}],"parameters":"","span":[0,186],"type_parameters":"","where_clauses":""}"#;

/// What is left of it where no feature is on, with the same spans: `match { "n" => N, _ } pub S = A N Id<"x"> => s; A = { "a" => a };
/// #[inline] Id<T>: #T# = T;`
pub(crate) const LEFT: &str =
    r#"{"attributes":[],"items":[{"contents":[[{"literal":{"quoted":"n"},"map":{"bare":"N"},"span":[8,16]},{"catch_all":[18,19]}]],"kind":"match","span":[0,5]},{"alternatives":[{"action":{"user":"s"},"attributes":[],"condition":null,"expr":[{"kind":"id","name":"A","span":[30,31]},{"kind":"id","name":"N","span":[32,33]},{"args":[{"kind":"terminal","span":[37,40],"terminal":{"quoted":"x"}}],"kind":"macro","name":"Id","span":[34,41]}],"span":[29,41]}],"args":[],"attributes":[],"kind":"rule","name":"S","span":[22,27],"type":null,"visibility":"pub"},{"alternatives":[{"action":{"user":"a"},"attributes":[],"condition":null,"expr":[{"kind":"terminal","span":[90,93],"terminal":{"quoted":"a"}}],"span":[88,93]}],"args":[],"attributes":[],"kind":"rule","name":"A","span":[84,85],"type":null,"visibility":"priv"},{"alternatives":[{"action":null,"attributes":[],"condition":null,"expr":[{"kind":"id","name":"T","span":[184,185]}],"span":[183,185]}],"args":["T"],"attributes":[{"arg":null,"id":"inline","span":[136,142]}],"kind":"rule","name":"Id","span":[171,173],"type":{"symbol":{"kind":"id","name":"T","span":[179,180]}},"visibility":"priv"}],"parameters":"","span":[0,186],"type_parameters":"","where_clauses":""}"#;

/// `pub E: () = { #[precedence(level = "1")] "n" => (), #[precedence(level = "2")] #[assoc(side = "left")] E "+" E => () }; T: () = E
/// => ();`
pub(crate) const LEVELS: &str =
    r#"{"attributes":[],"items":[{"alternatives":[{"action":{"user":"()"},"attributes":[{"arg":{"paren":[{"arg":{"equal":"1"},"id":"level","span":[27,38]}]},"id":"precedence","span":[16,39]}],"condition":null,"expr":[{"kind":"terminal","span":[41,44],"terminal":{"quoted":"n"}}],"span":[12,44]},{"action":{"user":"()"},"attributes":[{"arg":{"paren":[{"arg":{"equal":"2"},"id":"level","span":[65,76]}]},"id":"precedence","span":[54,77]},{"arg":{"paren":[{"arg":{"equal":"left"},"id":"side","span":[87,100]}]},"id":"assoc","span":[81,101]}],"condition":null,"expr":[{"kind":"id","name":"E","span":[103,104]},{"kind":"terminal","span":[105,108],"terminal":{"quoted":"+"}},{"kind":"id","name":"E","span":[109,110]}],"span":[50,110]}],"args":[],"attributes":[],"kind":"rule","name":"E","span":[0,5],"type":{"tuple":[]},"visibility":"pub"},{"alternatives":[{"action":{"user":"()"},"attributes":[],"condition":null,"expr":[{"kind":"id","name":"E","span":[128,129]}],"span":[127,129]}],"args":[],"attributes":[],"kind":"rule","name":"T","span":[120,121],"type":{"tuple":[]},"visibility":"priv"}],"parameters":"","span":[0,136],"type_parameters":"","where_clauses":""}"#;

/// `pub S = M<"ax">; M<K> = { "a" if K ~~ "^a", "b" if K !~ "^a" };`
pub(crate) const CONDITIONS: &str =
    r#"{"attributes":[],"items":[{"alternatives":[{"action":null,"attributes":[],"condition":null,"expr":[{"args":[{"kind":"terminal","span":[10,14],"terminal":{"quoted":"ax"}}],"kind":"macro","name":"M","span":[8,15]}],"span":[7,15]}],"args":[],"attributes":[],"kind":"rule","name":"S","span":[0,5],"type":null,"visibility":"pub"},{"alternatives":[{"action":null,"attributes":[],"condition":{"lhs":"K","op":"~~","rhs":"^a","span":[33,42]},"expr":[{"kind":"terminal","span":[26,29],"terminal":{"quoted":"a"}}],"span":[24,42]},{"action":null,"attributes":[],"condition":{"lhs":"K","op":"!~","rhs":"^a","span":[51,60]},"expr":[{"kind":"terminal","span":[44,47],"terminal":{"quoted":"b"}}],"span":[42,60]}],"args":["K"],"attributes":[],"kind":"rule","name":"M","span":[17,18],"type":null,"visibility":"priv"}],"parameters":"","span":[0,63],"type_parameters":"","where_clauses":""}"#;

/// `#![LALR] pub S: usize = { <@L> "a" => l, "b" =>? f };`
pub(crate) const ACTIONS: &str =
    r#"{"attributes":[{"arg":null,"id":"LALR","span":[3,7]}],"items":[{"alternatives":[{"action":{"user":"l"},"attributes":[],"condition":null,"expr":[{"kind":"choose","span":[26,30],"symbol":{"kind":"lookahead","span":[27,29]}},{"kind":"terminal","span":[31,34],"terminal":{"quoted":"a"}}],"span":[24,34]},{"action":{"fallible":"f"},"attributes":[],"condition":null,"expr":[{"kind":"terminal","span":[41,44],"terminal":{"quoted":"b"}}],"span":[39,44]}],"args":[],"attributes":[],"kind":"rule","name":"S","span":[9,14],"type":{"id":"usize"},"visibility":"pub"}],"parameters":"","span":[0,53],"type_parameters":"","where_clauses":""}"#;

/// `pub S: a::B<&'a mut T, &dyn X, ()> = => s; T: (A, #S#) = => t;`
pub(crate) const TYPED: &str =
    r#"{"attributes":[],"items":[{"alternatives":[{"action":{"user":"s"},"attributes":[],"condition":null,"expr":[],"span":[0,0]}],"args":[],"attributes":[],"kind":"rule","name":"S","span":[0,0],"type":{"args":[{"lifetime":"'a","mutable":true,"ref":{"id":"T"}},{"lifetime":null,"mutable":false,"ref":{"text":"dyn X"}},{"tuple":[]}],"path":"a::B"},"visibility":"pub"},{"alternatives":[{"action":{"user":"t"},"attributes":[],"condition":null,"expr":[],"span":[0,0]}],"args":[],"attributes":[],"kind":"rule","name":"T","span":[0,0],"type":{"tuple":[{"id":"A"},{"symbol":{"kind":"id","name":"S","span":[0,0]}}]},"visibility":"priv"}],"parameters":"","span":[0,0],"type_parameters":"","where_clauses":""}"#;

/// How deep macros may stand in macros.
pub(crate) const MACRO_LIMIT: u16 = 200;

/// The JSON value. It is boxed, as all that is large here: a box is dropped by one call.
fn json_value(rt: &impl Abort, alloc: Global, text: &str) -> Box<Value> {
    let value = Value::from_str(alloc, text).expect(rt, "JSON");
    Box::new(alloc, value).expect(rt, "memory")
}

/// The grammar that the JSON spells.
pub(crate) fn grammar_of(rt: &impl Abort, alloc: Global, text: &str) -> Box<Grammar> {
    let value = json_value(rt, alloc, text);
    let grammar = read_grammar(alloc, &value).expect(rt, "a grammar");
    Box::new(alloc, grammar).expect(rt, "memory")
}

/// A session in which no feature is on.
pub(crate) fn plain_session(alloc: Global) -> Session {
    Session {
        features: Vec::new(alloc),
        macro_recursion_limit: MACRO_LIMIT,
    }
}

/// A session in which the feature f is on.
pub(crate) fn featured_session(rt: &impl Abort, alloc: Global) -> Session {
    let feature = Atom::new(alloc, "f").expect(rt, "memory");
    Session {
        features: vec![in alloc; feature].expect(rt, "memory"),
        macro_recursion_limit: MACRO_LIMIT,
    }
}

/// The grammar without what is disabled under the session.
pub(crate) fn enabled_grammar(
    rt: &impl Abort,
    alloc: Global,
    session: &Session,
    text: &str,
) -> Box<Grammar> {
    let grammar = grammar_of(rt, alloc, text);
    let enabled = remove_disabled_decls(alloc, session, Box::into_inner(grammar));
    Box::new(alloc, enabled.expect(rt, "memory")).expect(rt, "memory")
}

/// The grammar, in which nothing is disabled, with its names resolved.
pub(crate) fn resolved_grammar(rt: &impl Abort, alloc: Global, text: &str) -> Box<Grammar> {
    let grammar = grammar_of(rt, alloc, text);
    let resolved = resolve(alloc, Box::into_inner(grammar)).expect(rt, "resolved names");
    Box::new(alloc, resolved).expect(rt, "memory")
}

/// The same with a rule for each level.
pub(crate) fn leveled_grammar(rt: &impl Abort, alloc: Global, text: &str) -> Box<Grammar> {
    let resolved = resolved_grammar(rt, alloc, text);
    let leveled = expand_precedence(alloc, Box::into_inner(resolved)).expect(rt, "levels");
    Box::new(alloc, leveled).expect(rt, "memory")
}

/// The same with its macros expanded.
pub(crate) fn expanded_grammar(rt: &impl Abort, alloc: Global, text: &str) -> Box<Grammar> {
    let leveled = leveled_grammar(rt, alloc, text);
    let expanded = expand_macros(alloc, Box::into_inner(leveled), MACRO_LIMIT).expect(rt, "macros");
    Box::new(alloc, expanded).expect(rt, "memory")
}

/// Where the literals of the grammar, in which nothing is disabled, stand first.
pub(crate) fn places_of(rt: &impl Abort, alloc: Global, text: &str) -> Box<LiteralPlaces> {
    let grammar = grammar_of(rt, alloc, text);
    let places = LiteralPlaces::new(alloc, &grammar).expect(rt, "memory");
    Box::new(alloc, places).expect(rt, "memory")
}

/// The expanded grammar with the tokenizer's entries behind its items.
pub(crate) fn checked_grammar(rt: &impl Abort, alloc: Global, text: &str) -> Box<Grammar> {
    let places = places_of(rt, alloc, text);
    let expanded = expanded_grammar(rt, alloc, text);
    let checked = token_check::validate(alloc, Box::into_inner(expanded), &places);
    Box::new(alloc, checked.expect(rt, "entries")).expect(rt, "memory")
}
