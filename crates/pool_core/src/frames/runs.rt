//! Lists of runs.

ghost use Rattle.std.specs.Prelude.{◌≡◌};
ghost use Rattle.phys_frames.specs.Memory.{first_frames};
ghost use Rattle.pool_core.specs.PoolFramesValues.{are_different, are_rising_from, has_run};

use ho_base::numbers::Pfn;
use phys_frames::Folio;

/// Whether no run stands twice. It goes over the list once where the runs rise, and else compares each two of them.
#[tactic(auto, using(crate::proofs::PoolAsking::rising_differ))]
pub(crate) fn are_all_different(runs: &[Pfn]) -> bool
    ensures { result ≡ are_different runs.now }
{
    if are_rising(runs) {
        return true;
    }
    are_compared_different(runs)
}

/// Whether no two folios begin at one frame. It goes over the list once where they rise, and else compares each two
/// of them.
#[tactic(auto, using(crate::proofs::PoolAsking::rising_differ))]
pub(crate) fn are_folios_different(folios: &[Folio]) -> bool
    ensures { result ≡ are_different (first_frames folios.now) }
{
    if are_folios_rising(folios) {
        return true;
    }
    are_compared_folios_different(folios)
}

/// Whether each run begins at a higher frame than the one before.
#[tactic(auto, using(crate::proofs::PoolAsking::rises_not, crate::proofs::PoolAsking::rises_on, crate::proofs::PoolAsking::rises_end))]
fn are_rising(runs: &[Pfn]) -> bool
    ensures { result ≡ are_rising_from 0 runs.now }
{
    let mut left = runs;
    let mut from = 0u64;
    while let Some((run, rest)) = left.split_first() {
        if u64::from(run.0) < from {
            return false;
        }
        from = u64::from(run.0) + 1;
        left = rest;
    }
    true
}

/// Whether each folio begins at a higher frame than the one before.
#[tactic(auto, using(crate::proofs::PoolAsking::rises_not, crate::proofs::PoolAsking::rises_on, crate::proofs::PoolAsking::folios_end))]
fn are_folios_rising(folios: &[Folio]) -> bool
    ensures { result ≡ are_rising_from 0 (first_frames folios.now) }
{
    let mut left = folios;
    let mut from = 0u64;
    while let Some((folio, rest)) = left.split_first() {
        let run = folio.first();
        if u64::from(run.0) < from {
            return false;
        }
        from = u64::from(run.0) + 1;
        left = rest;
    }
    true
}

/// Whether no run stands twice, by comparing each two of them.
#[tactic(auto, using(crate::proofs::PoolAsking::repeats, crate::proofs::PoolAsking::goes_on, crate::proofs::PoolAsking::none_repeats))]
fn are_compared_different(runs: &[Pfn]) -> bool
    ensures { result ≡ are_different runs.now }
{
    let mut left = runs;
    while let Some((run, rest)) = left.split_first() {
        if is_among(rest, *run) {
            return false;
        }
        left = rest;
    }
    true
}

/// Whether no two folios begin at one frame, by comparing each two of them.
#[tactic(auto, using(crate::proofs::PoolAsking::repeats, crate::proofs::PoolAsking::goes_on, crate::proofs::PoolAsking::no_folio_repeats))]
fn are_compared_folios_different(folios: &[Folio]) -> bool
    ensures { result ≡ are_different (first_frames folios.now) }
{
    let mut left = folios;
    while let Some((folio, rest)) = left.split_first() {
        if begins_one_of(rest, folio.first()) {
            return false;
        }
        left = rest;
    }
    true
}

/// Whether a run is one of these.
#[tactic(auto, unfolding(crate::specs::PoolFramesValues::has_run))]
fn is_among(runs: &[Pfn], run: Pfn) -> bool
    ensures { result ≡ has_run run.0 runs.now }
{
    runs.iter().any(|r| r.0 == run.0)
}

/// Whether a frame is the first of one of these folios.
#[tactic(auto, unfolding(crate::specs::PoolFramesValues::has_run))]
fn begins_one_of(folios: &[Folio], first: Pfn) -> bool
    ensures { result ≡ has_run first.0 (first_frames folios.now) }
{
    folios.iter().map(|f| f.first()).any(|r| r.0 == first.0)
}
