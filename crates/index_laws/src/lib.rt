//! What an index of conflicts has to do with runs: a lane that has noted what a run reads and writes has the points of
//! the scheme.
//!
//! What is proved stands in docs/PROMISES.md.
#![tactic(auto)]

ghost use Rattle.std.specs.Prelude.{◌≡◌, ◌≢◌, ◌<◌, ◌++◌, ◌∷◌, [], ℕ, ℤ, true, List, map, length, replicate, slice_set, None, Some};
ghost use Rattle.std.specs.List.{AllByRecursion};
ghost use Rattle.txn_runs.specs.Run.{Read, Writes};
ghost use Rattle.forest_model.specs.Point.{point};
ghost use Rattle.conflict_index.specs.Index.{Read as Noted, forgotten, point as point_noted, is_sooner, with_read, with_write};
ghost use Rattle.access_sets.specs.Entries.{entries};
ghost use Rattle.index_laws.specs.Noted.{noted, written, lane_of_run};

/// The point of noted reads against noted writes is that of the reads against the writes.
pub fn noted_points()
    ensures { (rs : List Read) (ws : Writes) → point_noted (noted rs) (written ws) ≡ point rs ws }
{}

/// A lane that has noted a run goes on with it: where nothing was read or written, nothing is noted; a read of an item
/// that the run hasn't read, behind its other reads, and a write are one call each. Whoever notes a run anew notes its reads in
/// their order and its entries in theirs.
pub fn noted_steps()
    ensures none { (items : ℕ) → lane_of_run [] (replicate items None) ≡ forgotten }
    ensures read { (rs : List Read) (r : Read) (ws : Writes) → AllByRecursion (λ x. (x.1 ≢ r.1) × (is_sooner (x.0, x.1) (r.0, r.1) ≡ true)) rs
        → with_read (lane_of_run rs ws) (r.0, r.1) ≡ lane_of_run (rs ++ r ∷ []) ws }
    ensures write { (rs : List Read) (ws : Writes) (item : ℕ) (v : ℤ) → item < length ws → with_write (lane_of_run rs ws) item ≡ lane_of_run rs (slice_set ws item (Some v)) }
    ensures last_write { (reads : List Noted) (items : List ℕ) (item : ℕ) → AllByRecursion (λ i. i < item) items
        → with_write (record { reads = reads; writes = items }) item ≡ record { reads = reads; writes = items ++ item ∷ [] } }
    ensures entries { (ws : Writes) → written ws ≡ map (λ (e : ℕ × ℤ). e.0) (entries 0 ws) }
{}
