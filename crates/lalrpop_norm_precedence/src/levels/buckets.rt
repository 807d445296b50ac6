//! The alternatives of a rule by their levels.

ghost use Rattle.std.specs.Prelude.{◌≡◌, ℕ, [], ◌∷◌, None, IfOk, OnOk, map, option_map, unwrap_or};
ghost use Rattle.std.specs.BTreeMap.{Updates, get};
ghost use Rattle.std.specs.Ordering.{nat_cmp};
ghost use Rattle.lalrpop_grammar.specs.Views.{alternative_view};
ghost use Rattle.lalrpop_grammar_rules.specs.Ranks.{rank_view};
ghost use Rattle.lalrpop_norm_precedence.specs.LevelBuckets.{PutsRanked, bucket_at, of_level, ranked_from};
ghost use Rattle.lalrpop_norm_precedence.specs.NamedAlternatives.{
  alternative_by_naming,
  naming_view,
  ranked_alternative_view,
};

use crate::levels::alternatives::{OccurrenceNames, RankedAlternative, leveled_alternatives};
use lalrpop_grammar::Alternative;
use lalrpop_grammar_rules::{Rank, rank_after};
use lalrpop_grammar_symbols::List;
use std::alloc::{AllocError, Global};
use std::collections::BTreeMap;

/// The alternatives of a rule by their levels, those of each level in order.
pub(crate) type Buckets<'g> = BTreeMap<u32, List<RankedAlternative<'g>>>;

/// Takes out what there is of the level.
fn take_bucket<'g>(
    alloc: Global,
    level: u32,
    buckets: &mut Buckets<'g>,
) -> List<RankedAlternative<'g>>
    ensures value { result ≡ unwrap_or (get nat_cmp buckets.old level) [] }
    ensures rest { Updates nat_cmp buckets.old buckets.new level None }
{
    buckets.remove(&level).unwrap_or(List::new(alloc))
}

/// Puts the alternative behind the others of its level.
fn put_ranked<'g>(
    alloc: Global,
    ranked: RankedAlternative<'g>,
    buckets: &mut Buckets<'g>,
) -> Result<(), AllocError>
    ensures { OnOk result (PutsRanked buckets.old buckets.new (ranked_alternative_view ranked.entry ∷ [])) }
{
    let level = ranked.rank.level;
    let mut bucket = take_bucket(alloc, level, buckets);
    bucket.push(ranked)?;
    buckets.insert(level, bucket)?;
    Ok(())
}

/// Puts the alternative of that rank behind the others of its level, where it has one.
fn put_alternative<'g>(
    alloc: Global,
    alternative: &'g Alternative,
    rank: Option<Rank>,
    buckets: &mut Buckets<'g>,
) -> Result<(), AllocError>
    ensures { OnOk result (PutsRanked buckets.old buckets.new
        ((alternative_view alternative.now, option_map rank_view rank) ∷ [])) }
{
    match rank {
        None => Ok(()),
        Some(rank) => put_ranked(alloc, RankedAlternative { alternative, rank }, buckets),
    }
}

/// The alternatives of a rule with levels, by their levels.
pub(crate) fn by_levels<'g>(
    alloc: Global,
    alternatives: &'g [Alternative],
) -> Result<Buckets<'g>, AllocError>
    ensures { IfOk result (λ buckets. (j : ℕ)
        → bucket_at buckets j ≡ of_level j (ranked_from None (map alternative_view alternatives.now))) }
{
    let mut buckets = BTreeMap::new(alloc);
    let mut last = None;
    for alternative in alternatives {
        last = rank_after(last, alternative.attributes.as_slice());
        put_alternative(alloc, alternative, last, &mut buckets)?;
    }
    Ok(buckets)
}

/// The alternatives of the level as they stand in its rule, in order.
pub(crate) fn alternatives_at(
    alloc: Global,
    names: &OccurrenceNames<'_>,
    level: u32,
    buckets: &Buckets<'_>,
) -> Result<List<Alternative>, AllocError>
    ensures { IfOk result (λ made. map alternative_view made
        ≡ map (alternative_by_naming (naming_view names.now)) (bucket_at buckets.now level)) }
{
    match buckets.get(&level) {
        Some(bucket) => leveled_alternatives(alloc, names, bucket.as_slice()),
        None => Ok(List::new(alloc)),
    }
}
