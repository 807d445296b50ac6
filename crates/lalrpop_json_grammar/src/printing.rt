//! How written trees are printed.

ghost use Rattle.std.specs.Prelude.{◌≡◌, [], ◌∷◌, ◌++◌, Some, None, IfOk, OnOk, MatchOption, string_bytes, option_map, replicate, codes};
ghost use Rattle.std.specs.Fmt.{WritesOnOk};
ghost use Rattle.lalrpop_grammar_symbols.specs.Parts.{texts_of_symbols};
ghost use Rattle.lalrpop_grammar.specs.Views.{tree_view};
ghost use Rattle.lalrpop_grammar.specs.Walks.{children};
ghost use Rattle.lalrpop_grammar.specs.WalkViews.{list_view};
ghost use Rattle.lalrpop_json_grammar.specs.Printing.{arguments_text, head_text, tree_text};
ghost use Rattle.lalrpop_json_grammar.specs.PrintedRows.{opening_text, closing_text, row_to_come, held_in, IsLeaf};

use lalrpop_grammar::{NonterminalString, Symbol, WrittenTree};
use lalrpop_json_values::JsonText;
use std::alloc::{AllocError, Global};
use std::fmt::{self, Display, Formatter, Write};
use std::slice;

/// A tree that is printed: `Rule<X, Y>#place(a, b)` for a rule, `[a, b]` for a list, `(a, b)` for a group, `?()` or
/// `?(a)` for an option, the text as a JSON string for a token, `@` for `@L` and `@R`.
///
/// However deep the tree is, printing takes no more of the stack: what is still to come stands on the heap. Where memory
/// for that is refused, `fmt` fails.
#[derive(Clone, Copy)]
pub struct TreeText<'t>(pub &'t WrittenTree);

impl Display for TreeText<'_> {
    ghost output = { λ t. Some (tree_text (tree_view t.0.now)) };

    fn fmt<W: Write>(&self, f: &mut Formatter<W>) -> fmt::Result {
        write_tree(self.0, f)
    }
}

/// The printed tree, as `TreeText` has it.
pub fn print_tree(alloc: Global, tree: &WrittenTree) -> Result<String, AllocError>
    ensures { IfOk result (λ text. string_bytes text ≡ tree_text (tree_view tree.now)) }
{
    TreeText(tree).to_string(alloc)
}

/// A row of trees of which some are still to be printed.
#[derive(Clone, Copy)]
struct Row<'t> {
    /// What is written before the first of them.
    before: &'static str,
    /// The trees that are still to come.
    trees: &'t [WrittenTree],
    /// What is written after the last.
    closing: &'static str,
}

/// Writes a tree. Options around the whole of it are counted: they have no list that could give a stack its memory.
fn write_tree<W: Write>(tree: &WrittenTree, f: &mut Formatter<W>) -> fmt::Result
    ensures { WritesOnOk W.write_str_gives f.old result (tree_text (tree_view tree.now)) f.new }
{
    let mut inner = tree;
    let mut options = 0usize;
    while let Some(held) = held_by(inner) {
        f.write_str("?(")?;
        options = options.checked_add(1).ok_or(fmt::Error)?;
        inner = held;
    }
    write_bare(inner, f)?;
    write_closings(options, f)
}

/// The tree that an option holds.
fn held_by(tree: &WrittenTree) -> Option<&WrittenTree>
    ensures { option_map (λ t. tree_view t.now) result ≡ held_in (tree_view tree.now) }
{
    match tree {
        WrittenTree::Opt(Some(held)) => Some(held.get()),
        WrittenTree::Rule { .. }
        | WrittenTree::List(_)
        | WrittenTree::Opt(None)
        | WrittenTree::Group(_)
        | WrittenTree::Terminal { .. }
        | WrittenTree::Look => None,
    }
}

/// Writes the brackets that close so many options.
fn write_closings<W: Write>(options: usize, f: &mut Formatter<W>) -> fmt::Result
    ensures { WritesOnOk W.write_str_gives f.old result (replicate options 41) f.new }
{
    for _i in 0..options {
        f.write_str(")")?;
    }
    Ok(())
}

/// Writes a tree that is no option around another. Its list gives the stack of rows its memory; a leaf needs none.
fn write_bare<W: Write>(tree: &WrittenTree, f: &mut Formatter<W>) -> fmt::Result
    requires { held_in (tree_view tree.now) ≡ None }
    ensures { WritesOnOk W.write_str_gives f.old result (tree_text (tree_view tree.now)) f.new }
{
    write_opening(tree, f)?;
    match allocator(tree) {
        Some(alloc) => write_rows(alloc, row_below(tree), f),
        None => Ok(()),
    }
}

/// What gives memory to the list of the trees right below, where there is one.
fn allocator(tree: &WrittenTree) -> Option<Global>
    ensures { MatchOption result (held_in (tree_view tree.now) ≡ None → IsLeaf (tree_view tree.now)) (λ _. Unit {0}) }
{
    match tree {
        WrittenTree::Rule { children, .. } => Some(children.allocator()),
        WrittenTree::List(trees) | WrittenTree::Group(trees) => Some(trees.allocator()),
        WrittenTree::Opt(_) | WrittenTree::Terminal { .. } | WrittenTree::Look => None,
    }
}

/// Writes what of a row is still to come. The rows that are open stand on a stack, the innermost last, so that no depth of
/// the tree is too much.
fn write_rows<W: Write>(alloc: Global, outermost: Row<'_>, f: &mut Formatter<W>) -> fmt::Result
    ensures { WritesOnOk W.write_str_gives f.old result (row_to_come outermost.entry) f.new }
{
    let mut pending = Vec::new(alloc);
    open_row(&mut pending, outermost)?;
    while let Some(row) = pending.pop() {
        let Some((first, others)) = row.trees.split_first() else {
            f.write_str(row.closing)?;
            continue;
        };
        write_first(row, first, f)?;
        open_row(&mut pending, row_after(row, others))?;
        open_row(&mut pending, row_below(first))?;
    }
    Ok(())
}

/// Writes what comes before the first tree of a row, and this tree up to its opening bracket.
fn write_first<W: Write>(row: Row<'_>, first: &WrittenTree, f: &mut Formatter<W>) -> fmt::Result
    ensures { WritesOnOk W.write_str_gives f.old result
        (row.entry.before.now ++ opening_text (tree_view first.now)) f.new }
{
    f.write_str(row.before)?;
    write_opening(first, f)
}

/// Puts a row on the stack.
fn open_row<'t>(pending: &mut Vec<Row<'t>>, row: Row<'t>) -> fmt::Result
    ensures { OnOk result (pending.new.items ≡ pending.old.items ++ row.entry ∷ []) }
{
    pending.push(row).map_err(|_| fmt::Error)
}

/// What is left of a row once its first tree is written.
fn row_after<'t>(row: Row<'t>, others: &'t [WrittenTree]) -> Row<'t>
    ensures before { result.before.now ≡ codes ", " }
    ensures trees { result.trees.now ≡ others.entry.now }
    ensures closing { result.closing.now ≡ row.entry.closing.now }
{
    Row {
        before: ", ",
        trees: others,
        closing: row.closing,
    }
}

/// The row of the trees right below, which of a leaf is empty.
fn row_below(tree: &WrittenTree) -> Row<'_>
    ensures before { result.before.now ≡ [] }
    ensures trees { list_view result.trees ≡ children (tree_view tree.now) }
    ensures closing { result.closing.now ≡ closing_text (tree_view tree.now) }
{
    match tree {
        WrittenTree::Rule { children, .. } => whole_row(children.as_slice(), ")"),
        WrittenTree::List(trees) => whole_row(trees.as_slice(), "]"),
        WrittenTree::Opt(Some(held)) => whole_row(slice::from_ref(held.get()), ")"),
        WrittenTree::Group(trees) => whole_row(trees.as_slice(), ")"),
        WrittenTree::Opt(None) | WrittenTree::Terminal { .. } | WrittenTree::Look => {
            whole_row(&[], "")
        }
    }
}

/// A row of which no tree is written yet.
fn whole_row<'t>(trees: &'t [WrittenTree], closing: &'static str) -> Row<'t>
    ensures before { result.before.now ≡ [] }
    ensures trees { result.trees.now ≡ trees.entry.now }
    ensures closing { result.closing.now ≡ closing.entry.now }
{
    Row {
        before: "",
        trees,
        closing,
    }
}

/// Writes what comes before the trees right below: a leaf whole, another tree up to its opening bracket.
fn write_opening<W: Write>(tree: &WrittenTree, f: &mut Formatter<W>) -> fmt::Result
    ensures { WritesOnOk W.write_str_gives f.old result (opening_text (tree_view tree.now)) f.new }
{
    match tree {
        WrittenTree::Rule {
            rule,
            args,
            place,
            ..
        } => {
            write_head(rule, args.as_slice(), *place, f)?;
            f.write_str("(")
        }
        WrittenTree::List(_) => f.write_str("["),
        WrittenTree::Opt(None) => f.write_str("?()"),
        WrittenTree::Opt(Some(_)) => f.write_str("?("),
        WrittenTree::Group(_) => f.write_str("("),
        WrittenTree::Terminal { text, .. } => JsonText(text.as_str()).fmt(f),
        WrittenTree::Look => f.write_str("@"),
    }
}

fn write_head<W: Write>(
    rule: &NonterminalString,
    args: &[Symbol],
    place: u32,
    f: &mut Formatter<W>,
) -> fmt::Result
    ensures { WritesOnOk W.write_str_gives f.old result
        (head_text rule.now.0 (texts_of_symbols args.now) place) f.new }
{
    rule.fmt(f)?;
    write_arguments(args, f)?;
    write!(f, "#{place}")
}

fn write_arguments<W: Write>(args: &[Symbol], f: &mut Formatter<W>) -> fmt::Result
    ensures { WritesOnOk W.write_str_gives f.old result (arguments_text (texts_of_symbols args.now)) f.new }
{
    if args.is_empty() {
        return Ok(());
    }
    f.write_str("<")?;
    for (i, arg) in args.iter().enumerate() {
        if i > 0 {
            f.write_str(", ")?;
        }
        arg.fmt(f)?;
    }
    f.write_str(">")
}
