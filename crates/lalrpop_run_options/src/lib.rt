//! The words of the program: what they ask for, and with which options.
#![tactic(auto)]

mod command;
mod fault;
mod found;
mod hidden;
mod method;
mod settings;
mod task;
mod words;

pub use fault::OptionsError;
pub use lalrpop_grammar_repr::methods::Method;
pub use settings::Options;
pub use task::Task;
pub use words::options;
