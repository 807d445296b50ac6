//! The certificate of one conflict.

ghost use Rattle.std.specs.Prelude.{◌≡◌, ◌<◌, IfOk, length, option_map};
ghost use Rattle.lalrpop_grammar_symbols.specs.Views.{terminal_view};
ghost use Rattle.lalrpop_sets.specs.TokensLeft.{token_seen};
ghost use Rattle.lalrpop_judge.specs.CertificateViews.{certificate_view};
ghost use Rattle.lalrpop_judge.specs.MoveViews.{move_view};
ghost use Rattle.lalrpop_lr1_paths.specs.CompletionSearches.{IsAnyCompletion};
ghost use Rattle.lalrpop_lr1_counterexamples.specs.ShownMoves.{IsNextCompletion, next_of, next_ways};
ghost use Rattle.lalrpop_lr1_counterexamples.specs.StandingConflicts.{next_of_token};
ghost use Rattle.lalrpop_lr1_counterexamples.specs.ConflictCertificates.{move_of_action};
ghost use Rattle.lalrpop_lr1_counterexamples.specs.MadeCertificates.{AreMovesAt, CanBeMade, IsMadeCertificate};
ghost use Rattle.lalrpop_lr1_counterexamples.specs.ShownStates.{AreShownConflicts, AreStepsOut, IsCertificateAt, IsLeastToken};

use crate::certificates::shown::ShownConflicts;
use crate::conflict_laws::{ConflictMoves, conflict_moves, standing_conflicts_have_moves};
use crate::shown_laws::{
    AnyCompletion, NextCompletion, made_trees, only_tree, shown_moves_can_be_made,
    shown_trees_make_the_move,
};
use lalrpop_grammar_symbols::TerminalString;
use lalrpop_judge::certificates::{Certificate, Move};
use lalrpop_lr1_core::{Action, Conflict};
use lalrpop_sets::{TokenRef, TokenSet};
use std::alloc::{AllocError, Global};

/// The terminal that comes next; none where it is the end.
fn next_terminal(token: TokenRef<'_>) -> Result<Option<TerminalString>, AllocError>
    ensures { IfOk result (λ next. option_map terminal_view next ≡ next_of_token (token_seen token.entry)) }
{
    match token {
        TokenRef::Terminal(terminal) => Ok(Some(terminal.try_clone()?)),
        TokenRef::Eof | TokenRef::Error => Ok(None),
    }
}

/// The move that the action does.
fn action_move(action: &Action<'_>) -> Result<Move, AllocError>
    ensures { IfOk result (λ named. move_view named ≡ move_of_action action.now) }
{
    match action {
        Action::Shift(terminal, _) => Ok(Move::Shift(terminal.try_clone()?)),
        Action::Reduce(production) => Ok(Move::Reduce(production.action)),
    }
}

/// What comes next, and the move that the action does.
fn next_and_move(
    token: TokenRef<'_>,
    action: &Action<'_>,
) -> Result<(Option<TerminalString>, Move), AllocError>
    ensures next { IfOk result (λ made. option_map terminal_view made.0 ≡ next_of_token (token_seen token.entry)) }
    ensures action { IfOk result (λ made. move_view made.1 ≡ move_of_action action.now) }
{
    let next = next_terminal(token)?;
    let other = action_move(action)?;
    Ok((next, other))
}

/// The certificate whose trees the moves build.
fn made_certificate<'g>(
    alloc: Global,
    conflict: &Conflict<'g, TokenSet>,
    token: TokenRef<'_>,
    moves: &ConflictMoves<'g>,
) -> Result<Certificate<'g>, AllocError>
    requires { CanBeMade moves.now }
    ensures { IfOk result (λ c. IsMadeCertificate conflict.now (next_of_token (token_seen token.entry)) moves.now (certificate_view c)) }
{
    let shared = made_trees(alloc, moves.shared.as_slice(), 0)?;
    let tree1 = only_tree(alloc, moves.reducing.as_slice(), 0)?;
    let tree2 = only_tree(alloc, moves.other.as_slice(), 0)?;
    let (next, move2) = next_and_move(token, &conflict.action)?;
    Ok(Certificate {
        shared,
        next,
        move1: Move::Reduce(conflict.production.action),
        tree1,
        move2,
        tree2,
    })
}

/// The moves that show the conflict with the number, before what comes next.
fn moves_before<'g>(
    alloc: Global,
    shown: &ShownConflicts<'_, 'g>,
    any: &AnyCompletion<'_, '_, 'g>,
    next: &NextCompletion<'_, '_, '_, 'g>,
    token: TokenRef<'_>,
    number: usize,
) -> Result<ConflictMoves<'g>, AllocError>
    requires shown { AreShownConflicts shown.now }
    requires any { IsAnyCompletion any.now }
    requires steps { AreStepsOut shown.now any.now.ways.now }
    requires next { IsNextCompletion next.now }
    requires ways { next_ways next.now ≡ any.now.ways.now }
    requires number { number < length shown.now.conflicts.now }
    requires least { IsLeastToken shown.now number token }
    requires token { next_of_token (token_seen token) ≡ next_of next.now }
    ensures { IfOk result (AreMovesAt shown.now any.now.ways.now (next_of next.now) number) }
{
    // no moves are missing that show a conflict which stands
    standing_conflicts_have_moves();
    let conflict = shown.conflict(number);
    let state = shown.state(conflict.state.0);
    match conflict_moves(alloc, next, any, conflict.state.0, state, conflict)? {
        Some(moves) => Ok(moves),
        None => unreachable!(),
    }
}

/// The certificate of the conflict with the number, before what comes next.
pub(crate) fn certificate_before<'g>(
    alloc: Global,
    shown: &ShownConflicts<'_, 'g>,
    any: &AnyCompletion<'_, '_, 'g>,
    next: &NextCompletion<'_, '_, '_, 'g>,
    token: TokenRef<'_>,
    number: usize,
) -> Result<Certificate<'g>, AllocError>
    requires shown { AreShownConflicts shown.now }
    requires any { IsAnyCompletion any.now }
    requires steps { AreStepsOut shown.now any.now.ways.now }
    requires next { IsNextCompletion next.now }
    requires ways { next_ways next.now ≡ any.now.ways.now }
    requires number { number < length shown.now.conflicts.now }
    requires least { IsLeastToken shown.now number token }
    requires token { next_of_token (token_seen token) ≡ next_of next.now }
    ensures { IfOk result (λ c. IsCertificateAt shown.now number (certificate_view c)) }
{
    // what the moves show, and that trees can be made of them
    shown_moves_can_be_made();
    shown_trees_make_the_move();
    let moves = moves_before(alloc, shown, any, next, token, number)?;
    let certificate = made_certificate(alloc, shown.conflict(number), token, &moves)?;
    Ok(certificate)
}
