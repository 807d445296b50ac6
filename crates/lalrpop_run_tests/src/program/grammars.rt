//! Grammars and trees as JSON. All spans of grammars are `[0,0]`, rules have the type `()`, alternatives the user action
//! `()`.

/// `pub S = { "a" S, "b" }`
pub(crate) const LISTS: &str =
    r#"{"attributes":[],"items":[{"alternatives":[{"action":{"user":"()"},"attributes":[],"condition":null,"expr":[{"kind":"terminal","span":[0,0],"terminal":{"quoted":"a"}},{"kind":"id","name":"S","span":[0,0]}],"span":[0,0]},{"action":{"user":"()"},"attributes":[],"condition":null,"expr":[{"kind":"terminal","span":[0,0],"terminal":{"quoted":"b"}}],"span":[0,0]}],"args":[],"attributes":[],"kind":"rule","name":"S","span":[0,0],"type":{"tuple":[]},"visibility":"pub"}],"parameters":"","span":[0,0],"type_parameters":"","where_clauses":""}"#;

/// `S#0("a", S#1("b"))`
pub(crate) const ONE_STEP: &str =
    r#"{"args":[],"children":[{"span":[0,1],"terminal":{"quoted":"a"},"text":"a"},{"args":[],"children":[{"span":[1,2],"terminal":{"quoted":"b"},"text":"b"}],"place":1,"rule":"S"}],"place":0,"rule":"S"}"#;

/// `pub S = r"a$"`, whose literal is refused.
pub(crate) const REFUSED: &str =
    r#"{"attributes":[],"items":[{"alternatives":[{"action":{"user":"()"},"attributes":[],"condition":null,"expr":[{"kind":"terminal","span":[0,0],"terminal":{"regex":"a$"}}],"span":[0,0]}],"args":[],"attributes":[],"kind":"rule","name":"S","span":[0,0],"type":{"tuple":[]},"visibility":"pub"}],"parameters":"","span":[0,0],"type_parameters":"","where_clauses":""}"#;

/// No grammar: its attributes are no list.
pub(crate) const MISSHAPEN: &str =
    r#"{"attributes":null,"items":[],"parameters":"","span":[0,0],"type_parameters":"","where_clauses":""}"#;

/// `pub Expr = { level 1 Num, level 2 left Expr "*" Expr, level 3 left Expr "+" Expr }; Num = r"[0-9]+"`
pub(crate) const CALCULATOR: &str =
    r##"{"attributes":[],"items":[{"alternatives":[{"action":{"user":"()"},"attributes":[{"arg":{"paren":[{"arg":{"equal":"1"},"id":"level","span":[0,0]}]},"id":"precedence","span":[0,0]}],"condition":null,"expr":[{"kind":"id","name":"Num","span":[0,0]}],"span":[0,0]},{"action":{"user":"()"},"attributes":[{"arg":{"paren":[{"arg":{"equal":"2"},"id":"level","span":[0,0]}]},"id":"precedence","span":[0,0]},{"arg":{"paren":[{"arg":{"equal":"left"},"id":"side","span":[0,0]}]},"id":"assoc","span":[0,0]}],"condition":null,"expr":[{"kind":"id","name":"Expr","span":[0,0]},{"kind":"terminal","span":[0,0],"terminal":{"quoted":"*"}},{"kind":"id","name":"Expr","span":[0,0]}],"span":[0,0]},{"action":{"user":"()"},"attributes":[{"arg":{"paren":[{"arg":{"equal":"3"},"id":"level","span":[0,0]}]},"id":"precedence","span":[0,0]},{"arg":{"paren":[{"arg":{"equal":"left"},"id":"side","span":[0,0]}]},"id":"assoc","span":[0,0]}],"condition":null,"expr":[{"kind":"id","name":"Expr","span":[0,0]},{"kind":"terminal","span":[0,0],"terminal":{"quoted":"+"}},{"kind":"id","name":"Expr","span":[0,0]}],"span":[0,0]}],"args":[],"attributes":[],"kind":"rule","name":"Expr","span":[0,0],"type":{"tuple":[]},"visibility":"pub"},{"alternatives":[{"action":{"user":"()"},"attributes":[],"condition":null,"expr":[{"kind":"terminal","span":[0,0],"terminal":{"regex":"[0-9]+"}}],"span":[0,0]}],"args":[],"attributes":[],"kind":"rule","name":"Num","span":[0,0],"type":{"tuple":[]},"visibility":"priv"}],"parameters":"","span":[0,0],"type_parameters":"","where_clauses":""}"##;

/// `pub S = Op "x"; inline Op = { "a", "a" }`
pub(crate) const INLINED: &str =
    r#"{"attributes":[],"items":[{"alternatives":[{"action":{"user":"()"},"attributes":[],"condition":null,"expr":[{"kind":"id","name":"Op","span":[0,0]},{"kind":"terminal","span":[0,0],"terminal":{"quoted":"x"}}],"span":[0,0]}],"args":[],"attributes":[],"kind":"rule","name":"S","span":[0,0],"type":{"tuple":[]},"visibility":"pub"},{"alternatives":[{"action":{"user":"()"},"attributes":[],"condition":null,"expr":[{"kind":"terminal","span":[0,0],"terminal":{"quoted":"a"}}],"span":[0,0]},{"action":{"user":"()"},"attributes":[],"condition":null,"expr":[{"kind":"terminal","span":[0,0],"terminal":{"quoted":"a"}}],"span":[0,0]}],"args":[],"attributes":[{"arg":null,"id":"inline","span":[0,0]}],"kind":"rule","name":"Op","span":[0,0],"type":{"tuple":[]},"visibility":"priv"}],"parameters":"","span":[0,0],"type_parameters":"","where_clauses":""}"#;
