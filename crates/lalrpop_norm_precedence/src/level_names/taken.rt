//! The texts that names have taken.

ghost use Rattle.lalrpop_norm_precedence.specs.TakenTimes.{AreSmallTimes, times_in};

use lalrpop_grammar_symbols::Atom;
use std::alloc::{AllocError, Global};
use std::collections::BTreeMap;

/// How often each text is taken.
#[derive(Drop)]
pub struct TakenTexts {
    times: BTreeMap<Atom, u64>,
    pub ghost small: { AreSmallTimes (times_in times) },
}

impl TakenTexts {
    ghost use Rattle.std.specs.Prelude.{◌≡◌, ◌+◌, IfOk, OnOk};
    ghost use Rattle.lalrpop_norm_precedence.specs.GivenNames.{once_more};
    ghost use Rattle.lalrpop_norm_precedence.specs.TakenViews.{taken_times};

    /// No text is taken.
    pub fn new(alloc: Global) -> TakenTexts
        ensures { taken_times result ≡ (λ text. 0) }
    {
        TakenTexts {
            times: BTreeMap::new(alloc),
        }
    }

    /// How often the text is taken.
    fn times_of(&self, text: &Atom) -> u64
        ensures { result ≡ taken_times self.now text.now }
    {
        self.times.get(text).copied().unwrap_or(0)
    }

    /// Takes the text once more, and tells how often it is taken then. More often than a number can say, no memory would hold.
    pub fn take(&mut self, text: &Atom) -> Result<u64, AllocError>
        ensures number { IfOk result (λ times. times ≡ taken_times self.new text.now) }
        ensures before { IfOk result (λ times. times ≡ taken_times self.old text.now + 1) }
        ensures taken { OnOk result (taken_times self.new ≡ once_more text.now (taken_times self.old)) }
    {
        let Some(times) = self.times_of(text).checked_add(1) else {
            return Err(AllocError);
        };
        self.times.insert(text.try_clone()?, times)?;
        Ok(times)
    }
}
