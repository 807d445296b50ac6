//! The cases of a file.

use crate::files::fields::list_of;
use crate::files::tally::Tally;
use anyhow::{Context, Result};
use serde_json::Value;
use std::alloc::Global;
use std::fmt::Display;
use std::fs;
use std::rt::Files;

/// A kind of cases.
pub trait TableCase {
    /// Whether the case that the value spells is right; if not, what differs is told.
    fn is_right<R: Alloc<A = Global> + Print>(rt: &R, case: &Value) -> Result<bool>;
}

/// The text of the file.
fn read_text<R: Alloc<A = Global> + Files>(rt: &R, file: &str) -> Result<String> {
    let text = fs::read_to_string(rt, file).context(format_args!("reading {file}"))?;
    Ok(text)
}

/// The value that the file's text spells.
fn read_value<R: Alloc<A = Global> + Files>(rt: &R, file: &str) -> Result<Value> {
    let text = read_text(rt, file)?;
    Ok(Value::from_str(rt.alloc(), text.as_str()).context(format_args!("{file}"))?)
}

/// How many cases are right of those that the file lists; each of the others tells what differs.
pub fn run_cases<C: TableCase, R: Alloc<A = Global> + Files + Print>(
    rt: &R,
    file: &str,
) -> Result<Tally> {
    let cases = read_value(rt, file)?;
    run_values::<C, R>(rt, file, &cases)
}

/// The same of the cases that the value lists.
fn run_values<C: TableCase, R: Alloc<A = Global> + Print>(
    rt: &R,
    file: &str,
    cases: &Value,
) -> Result<Tally> {
    let mut tally = Tally::new();
    for (place, case) in list_of(cases)?.iter().enumerate() {
        let passed = C::is_right(rt, case).context(format_args!(
            "{file}: case {place}, counted from 0"
        ))?;
        tally = tally.and(passed);
    }
    Ok(tally)
}

/// Whether the answer is the one that is wanted; if not, both are told under the case's name.
pub fn compare(rt: &impl Print, name: &str, wanted: &Value, answer: &Value) -> Result<bool> {
    let right = *answer == *wanted;
    if !right {
        tell(rt, name, wanted, answer)?;
    }
    Ok(right)
}

/// Tells what was wanted of the case and what came.
pub fn tell<W: Display, A: Display>(
    rt: &impl Print,
    name: &str,
    wanted: &W,
    answer: &A,
) -> Result<()> {
    println!(rt; "{name}\n  wanted {wanted}\n  got    {answer}")?;
    Ok(())
}
