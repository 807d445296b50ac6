//! The tasks of the program.
ghost use Rattle.std.specs.Prelude.{◌≡◌};
ghost use Rattle.lalrpop_run_options.specs.Task.{IsTaskWord, word_of};

/// What the program is asked to do: its first positional word.
#[derive(Clone, Copy, Debug, PartialEq, Eq)]
pub enum Task {
    /// Whether a tree is one of the grammar's.
    Judge,
    /// The tokens of a text.
    Tokens,
    /// Whether a grammar has a parser.
    Check,
    /// The tree of a text.
    Parse,
    /// The report of a grammar's tables.
    Report,
}

/// The words that name tasks, in the order of `Task`.
pub(crate) static TASK_WORDS: [&str; 5] = ["judge", "tokens", "check", "parse", "report"];

impl Task {
    /// The word that names the task.
    pub fn word(self) -> &'static str
        ensures { result.now ≡ word_of self }
    {
        match self {
            Task::Judge => "judge",
            Task::Tokens => "tokens",
            Task::Check => "check",
            Task::Parse => "parse",
            Task::Report => "report",
        }
    }

    /// The task that `word` names.
    pub(crate) fn from_word(word: &str) -> Task
        requires { IsTaskWord word.now }
        ensures { word_of result ≡ word.now }
    {
        match word {
            "judge" => Task::Judge,
            "tokens" => Task::Tokens,
            "check" => Task::Check,
            "parse" => Task::Parse,
            "report" => Task::Report,
            _ => unreachable!(),
        }
    }
}
