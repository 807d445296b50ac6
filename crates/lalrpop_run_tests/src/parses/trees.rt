//! Written trees as JSON.

/// The tree of the list `ab`, with the other alternative in each of its places.
pub(crate) const SWAPPED_LIST: &str =
    r#"{"args":[],"children":[{"span":[0,1],"terminal":{"quoted":"a"},"text":"a"},{"args":[],"children":[{"span":[1,2],"terminal":{"quoted":"b"},"text":"b"}],"place":0,"rule":"S"}],"place":1,"rule":"S"}"#;

/// The token `b` alone.
pub(crate) const LEAF: &str = r#"{"span":[0,1],"terminal":{"quoted":"b"},"text":"b"}"#;

/// 1, and behind a star the sum of 2 and 3.
pub(crate) const PRODUCT_OF_SUM: &str =
    r#"{"args":[],"children":[{"args":[],"children":[{"args":[],"children":[{"span":[0,1],"terminal":{"regex":"[0-9]+"},"text":"1"}],"place":0,"rule":"Num"}],"place":0,"rule":"Expr"},{"span":[1,2],"terminal":{"quoted":"*"},"text":"*"},{"args":[],"children":[{"args":[],"children":[{"args":[],"children":[{"span":[2,3],"terminal":{"regex":"[0-9]+"},"text":"2"}],"place":0,"rule":"Num"}],"place":0,"rule":"Expr"},{"span":[3,4],"terminal":{"quoted":"+"},"text":"+"},{"args":[],"children":[{"args":[],"children":[{"span":[4,5],"terminal":{"regex":"[0-9]+"},"text":"3"}],"place":0,"rule":"Num"}],"place":0,"rule":"Expr"}],"place":2,"rule":"Expr"}],"place":1,"rule":"Expr"}"#;

/// 1, and behind a plus sign the sum of 2 and 3.
pub(crate) const SUM_OF_SUM: &str =
    r#"{"args":[],"children":[{"args":[],"children":[{"args":[],"children":[{"span":[0,1],"terminal":{"regex":"[0-9]+"},"text":"1"}],"place":0,"rule":"Num"}],"place":0,"rule":"Expr"},{"span":[1,2],"terminal":{"quoted":"+"},"text":"+"},{"args":[],"children":[{"args":[],"children":[{"args":[],"children":[{"span":[2,3],"terminal":{"regex":"[0-9]+"},"text":"2"}],"place":0,"rule":"Num"}],"place":0,"rule":"Expr"},{"span":[3,4],"terminal":{"quoted":"+"},"text":"+"},{"args":[],"children":[{"args":[],"children":[{"span":[4,5],"terminal":{"regex":"[0-9]+"},"text":"3"}],"place":0,"rule":"Num"}],"place":0,"rule":"Expr"}],"place":2,"rule":"Expr"}],"place":2,"rule":"Expr"}"#;
