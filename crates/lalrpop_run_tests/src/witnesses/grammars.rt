//! Grammars as JSON. All spans are `[0,0]`, rules have the type `()`, alternatives the user action `()`.

/// `pub S = Op "x"; #[inline] Op = { "a", "a" }`
pub(crate) const INLINED: &str =
    r#"{"attributes":[],"items":[{"alternatives":[{"action":{"user":"()"},"attributes":[],"condition":null,"expr":[{"kind":"id","name":"Op","span":[0,0]},{"kind":"terminal","span":[0,0],"terminal":{"quoted":"x"}}],"span":[0,0]}],"args":[],"attributes":[],"kind":"rule","name":"S","span":[0,0],"type":{"tuple":[]},"visibility":"pub"},{"alternatives":[{"action":{"user":"()"},"attributes":[],"condition":null,"expr":[{"kind":"terminal","span":[0,0],"terminal":{"quoted":"a"}}],"span":[0,0]},{"action":{"user":"()"},"attributes":[],"condition":null,"expr":[{"kind":"terminal","span":[0,0],"terminal":{"quoted":"a"}}],"span":[0,0]}],"args":[],"attributes":[{"arg":null,"id":"inline","span":[0,0]}],"kind":"rule","name":"Op","span":[0,0],"type":{"tuple":[]},"visibility":"priv"}],"parameters":"","span":[0,0],"type_parameters":"","where_clauses":""}"#;

/// `pub E = { "n", E "+" E, E "*" E }`
pub(crate) const OPERATORS: &str =
    r#"{"attributes":[],"items":[{"alternatives":[{"action":{"user":"()"},"attributes":[],"condition":null,"expr":[{"kind":"terminal","span":[0,0],"terminal":{"quoted":"n"}}],"span":[0,0]},{"action":{"user":"()"},"attributes":[],"condition":null,"expr":[{"kind":"id","name":"E","span":[0,0]},{"kind":"terminal","span":[0,0],"terminal":{"quoted":"+"}},{"kind":"id","name":"E","span":[0,0]}],"span":[0,0]},{"action":{"user":"()"},"attributes":[],"condition":null,"expr":[{"kind":"id","name":"E","span":[0,0]},{"kind":"terminal","span":[0,0],"terminal":{"quoted":"*"}},{"kind":"id","name":"E","span":[0,0]}],"span":[0,0]}],"args":[],"attributes":[],"kind":"rule","name":"E","span":[0,0],"type":{"tuple":[]},"visibility":"pub"}],"parameters":"","span":[0,0],"type_parameters":"","where_clauses":""}"#;

/// `pub E = { "n", E "+" E }`
pub(crate) const SUMS: &str =
    r#"{"attributes":[],"items":[{"alternatives":[{"action":{"user":"()"},"attributes":[],"condition":null,"expr":[{"kind":"terminal","span":[0,0],"terminal":{"quoted":"n"}}],"span":[0,0]},{"action":{"user":"()"},"attributes":[],"condition":null,"expr":[{"kind":"id","name":"E","span":[0,0]},{"kind":"terminal","span":[0,0],"terminal":{"quoted":"+"}},{"kind":"id","name":"E","span":[0,0]}],"span":[0,0]}],"args":[],"attributes":[],"kind":"rule","name":"E","span":[0,0],"type":{"tuple":[]},"visibility":"pub"}],"parameters":"","span":[0,0],"type_parameters":"","where_clauses":""}"#;
