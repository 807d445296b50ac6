//! Laws of written grammars and trees, and of the format.

use lalrpop_grammar_language::{
    labels_have_one_side, leaves_fix_trees, tokens_are_leaves, trees_correspond,
};
use lalrpop_json_grammar::print_law::prints_tell_trees_apart;
use lalrpop_json_grammar::{grammar_laws, tree_laws};

#[test]
fn laws_are_called() {
    trees_correspond();
    tokens_are_leaves();
    labels_have_one_side();
    leaves_fix_trees();
    grammar_laws();
    tree_laws();
    prints_tell_trees_apart();
}
