//! The certificates of all conflicts, in slots that are filled one token after the other, since completions are searched once for a token.

ghost use Rattle.std.specs.Prelude.{◌≡◌, ◌<◌, ◌↔◌, ℕ, IfOk, IsTrue, OnOk, Some, length, map, set};
ghost use Rattle.lalrpop_sets.specs.TokensLeft.{token_seen};
ghost use Rattle.lalrpop_sets.specs.declared.token.Token.TheVariants as seen;
ghost use Rattle.lalrpop_lr1_paths.specs.CompletionSearches.{IsAnyCompletion};
ghost use Rattle.lalrpop_lr1_counterexamples.specs.ShownMoves.{IsNextCompletion, next_of, next_ways};
ghost use Rattle.lalrpop_lr1_counterexamples.specs.StandingConflicts.{next_of_token};
ghost use Rattle.lalrpop_lr1_counterexamples.specs.ShownStates.{AreShownConflicts, AreStepsOut};
ghost use Rattle.lalrpop_lr1_counterexamples.specs.Slots.{AreFilledBefore, AreFilledBelow, AreLeastTokens, AreCertificateSlots, IsFilled, StayFilled};

use crate::certificates::one::certificate_before;
use crate::certificates::room::ask_for_room;
use crate::certificates::shown::ShownConflicts;
use crate::shown_laws::{
    AnyCompletion, EndCompletion, NextCompletion, WantedCompletion, WantedSteps,
};
use lalrpop_grammar_symbols::TerminalString;
use lalrpop_judge::certificates::Certificate;
use lalrpop_sets::TokenRef;
use std::alloc::{AllocError, Global};

/// Whether two tokens are one.
pub(crate) fn is_same_token(a: TokenRef<'_>, b: TokenRef<'_>) -> bool
    ensures { IsTrue result ↔ (token_seen a.entry ≡ token_seen b.entry) }
{
    match a {
        TokenRef::Eof => matches!(b, TokenRef::Eof),
        TokenRef::Error => matches!(b, TokenRef::Error),
        TokenRef::Terminal(terminal) => match b {
            TokenRef::Terminal(other) => *terminal == *other,
            TokenRef::Eof | TokenRef::Error => false,
        },
    }
}

/// So many slots in which nothing stands.
fn empty_slots<'g>(
    alloc: Global,
    shown: &ShownConflicts<'_, 'g>,
) -> Result<Vec<Option<Certificate<'g>>>, AllocError>
    ensures { IfOk result (λ slots. AreCertificateSlots shown.now slots.items) }
{
    let mut slots = Vec::with_capacity(alloc, shown.conflicts.len())?;
    for number in 0..shown.conflicts.len() {
        slots.push(None)?;
    }
    Ok(slots)
}

/// What stands in the slots, all of which are filled.
fn filled_slots<'g>(
    alloc: Global,
    slots: Vec<Option<Certificate<'g>>>,
) -> Result<Vec<Certificate<'g>>, AllocError>
    requires { AreFilledBelow slots.items (length slots.items) }
    ensures { IfOk result (λ all. map Some all.items ≡ slots.entry.items) }
{
    let mut all = Vec::with_capacity(alloc, slots.len())?;
    for slot in slots {
        match slot {
            Some(certificate) => all.push(certificate)?,
            None => unreachable!(),
        }
    }
    Ok(all)
}

/// Whether some certificate stands in the slot.
fn is_filled(slots: &[Option<Certificate<'_>>], number: usize) -> bool
    requires { number < length slots.now }
    ensures { IsTrue result → IsFilled slots.now number }
{
    match &slots[number] {
        Some(_) => true,
        None => false,
    }
}

/// Puts the certificate into the slot.
fn fill_slot<'g>(
    slots: &mut Vec<Option<Certificate<'g>>>,
    number: usize,
    certificate: Certificate<'g>,
)
    requires { number < length slots.old.items }
    ensures { slots.new.items ≡ set slots.old.items number (Some certificate.entry) }
{
    slots[number] = Some(certificate);
}

/// Fills the slots of the conflicts with this least token.
fn fill_slots<'g>(
    alloc: Global,
    shown: &ShownConflicts<'_, 'g>,
    any: &AnyCompletion<'_, '_, 'g>,
    next: &NextCompletion<'_, '_, '_, 'g>,
    tokens: &[TokenRef<'_>],
    token: TokenRef<'_>,
    slots: &mut Vec<Option<Certificate<'g>>>,
) -> Result<(), AllocError>
    requires shown { AreShownConflicts shown.now }
    requires any { IsAnyCompletion any.now }
    requires steps { AreStepsOut shown.now any.now.ways.now }
    requires next { IsNextCompletion next.now }
    requires ways { next_ways next.now ≡ any.now.ways.now }
    requires tokens { AreLeastTokens shown.now tokens.now }
    requires token { next_of_token (token_seen token) ≡ next_of next.now }
    requires slots { AreCertificateSlots shown.now slots.old.items }
    ensures slots { OnOk result (AreCertificateSlots shown.now slots.new.items) }
    ensures stay { OnOk result (StayFilled slots.old.items slots.new.items) }
    ensures filled { OnOk result (AreFilledBefore tokens.now token.entry slots.new.items (length tokens.now)) }
{
    for number in 0..tokens.len() {
        let other = tokens[number];
        if is_same_token(other, token) {
            let certificate = certificate_before(alloc, shown, any, next, other, number)?;
            fill_slot(slots, number, certificate);
        }
    }
    Ok(())
}

/// Searches the completions before the token's terminal, and fills the slots of the conflicts with this least token.
fn fill_for_terminal<'g>(
    alloc: Global,
    shown: &ShownConflicts<'_, 'g>,
    any: &AnyCompletion<'_, '_, 'g>,
    tokens: &[TokenRef<'_>],
    terminal: &TerminalString,
    token: TokenRef<'_>,
    slots: &mut Vec<Option<Certificate<'g>>>,
) -> Result<(), AllocError>
    requires shown { AreShownConflicts shown.now }
    requires any { IsAnyCompletion any.now }
    requires steps { AreStepsOut shown.now any.now.ways.now }
    requires tokens { AreLeastTokens shown.now tokens.now }
    requires terminal { token_seen token ≡ seen.Terminal terminal.now }
    requires slots { AreCertificateSlots shown.now slots.old.items }
    ensures slots { OnOk result (AreCertificateSlots shown.now slots.new.items) }
    ensures stay { OnOk result (StayFilled slots.old.items slots.new.items) }
    ensures filled { OnOk result (AreFilledBefore tokens.now token.entry slots.new.items (length tokens.now)) }
{
    let steps = WantedSteps::new(alloc, any, terminal)?;
    let next = NextCompletion::Terminal(WantedCompletion::new(alloc, &steps)?);
    fill_slots(alloc, shown, any, &next, tokens, token, slots)
}

/// Searches the completions before the token, and fills the slots of the conflicts with this least token.
fn fill_for_token<'g>(
    alloc: Global,
    shown: &ShownConflicts<'_, 'g>,
    any: &AnyCompletion<'_, '_, 'g>,
    tokens: &[TokenRef<'_>],
    token: TokenRef<'_>,
    slots: &mut Vec<Option<Certificate<'g>>>,
) -> Result<(), AllocError>
    requires shown { AreShownConflicts shown.now }
    requires any { IsAnyCompletion any.now }
    requires steps { AreStepsOut shown.now any.now.ways.now }
    requires tokens { AreLeastTokens shown.now tokens.now }
    requires slots { AreCertificateSlots shown.now slots.old.items }
    ensures slots { OnOk result (AreCertificateSlots shown.now slots.new.items) }
    ensures stay { OnOk result (StayFilled slots.old.items slots.new.items) }
    ensures filled { OnOk result (AreFilledBefore tokens.now token.entry slots.new.items (length tokens.now)) }
{
    match token {
        TokenRef::Terminal(terminal) => {
            fill_for_terminal(alloc, shown, any, tokens, terminal, token, slots)
        }
        TokenRef::Eof | TokenRef::Error => {
            let next = NextCompletion::End(EndCompletion::new(alloc, any.ways())?);
            fill_slots(alloc, shown, any, &next, tokens, token, slots)
        }
    }
}

/// The certificates of the conflicts.
pub(crate) fn all_certificates<'g>(
    alloc: Global,
    shown: &ShownConflicts<'_, 'g>,
    any: &AnyCompletion<'_, '_, 'g>,
) -> Result<Vec<Certificate<'g>>, AllocError>
    requires shown { AreShownConflicts shown.now }
    requires any { IsAnyCompletion any.now }
    requires steps { AreStepsOut shown.now any.now.ways.now }
    ensures { IfOk result (λ all. AreCertificateSlots shown.now (map Some all.items)) }
{
    let found = shown.least_tokens(alloc)?;
    let tokens = found.as_slice();
    ask_for_room(alloc, shown, any, tokens)?;
    let mut slots = empty_slots(alloc, shown)?;
    for number in 0..tokens.len() {
        let token = tokens[number];
        if !is_filled(slots.as_slice(), number) {
            fill_for_token(alloc, shown, any, tokens, token, &mut slots)?;
        }
    }
    let all = filled_slots(alloc, slots)?;
    Ok(all)
}
