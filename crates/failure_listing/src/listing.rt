// Failures in their order, each once.
ghost use Rattle.std.specs.Prelude.{◌≡◌, All, Contains, IfOk, None, map};
ghost use Rattle.meaning_operands.specs.Failures as meaning;
ghost use Rattle.meaning_warnings.specs.Listing.{IsListing};
ghost use Rattle.failure_listing.specs.Ranks.{KeepsRank, are_one, is_repeated, kept_behind, rank_of};

use sparse_model::{Failure, FailureList};
use std::alloc::{AllocError, Global};

/// The failures by token, rule and part; of those that agree in all three the first.
pub fn in_order(alloc: Global, failures: &FailureList) -> Result<FailureList, AllocError>
    ensures lists { IfOk result (λ listing. (seen : Failure → meaning.Failure) → KeepsRank seen
        → IsListing (map seen failures.now) (map seen listing)) }
    ensures found { IfOk result (λ listing. All (Contains failures.now) listing) }
{
    let mut sorted = Vec::from_slice(alloc, failures.as_slice())?;
    sorted.sort_by_key(|failure| rank(failure))?;
    let kept = without_repeats(alloc, sorted.as_slice())?;
    Ok(FailureList::from_vec(kept))
}

// By what failures are ordered.
fn rank(failure: &Failure) -> (u32, u8, u16)
    ensures { result ≡ rank_of failure.now }
{
    (failure.token, failure.rule.number(), failure.part)
}

// Each of the sorted failures that isn't one with the kept one before it.
fn without_repeats(alloc: Global, sorted: &[Failure]) -> Result<Vec<Failure>, AllocError>
    ensures { IfOk result (λ kept. kept.items ≡ kept_behind None sorted.now) }
{
    let mut kept = Vec::new(alloc);
    let mut last = None;
    let mut left = sorted;
    'failures: while let Some((failure, others)) = left.split_first() {
        if !is_repeated(last, *failure) {
            kept.push(*failure)?;
            last = Some(*failure);
        }
        left = others;
    }
    Ok(kept)
}

fn is_repeated(last: Option<Failure>, failure: Failure) -> bool
    ensures { result ≡ is_repeated last failure }
{
    match last {
        Some(last) => are_one(last, failure),
        None => false,
    }
}

fn are_one(failure: Failure, other: Failure) -> bool
    ensures { result ≡ are_one failure other }
{
    rank(&failure).cmp(&rank(&other)).is_eq()
}
