//! The ways to LR(1) states.
ghost use Rattle.std.specs.Prelude.{◌≡◌};
ghost use Rattle.lalrpop_run_options.specs.Method.{IsMethodNamed, IsMethodWord};

use lalrpop_grammar_repr::methods::Method;

/// The words that name methods, in the order of `Method`.
pub(crate) static METHOD_WORDS: [&str; 2] = ["lane", "canonical"];

/// The method that `word` names, with this number of copies where that has one.
pub(crate) fn from_word(word: &str, copies: usize) -> Method
    requires { IsMethodWord word.now }
    ensures { IsMethodNamed word.now copies result }
{
    match word {
        "lane" => Method::Lane { copies },
        "canonical" => Method::Canonical,
        _ => unreachable!(),
    }
}
