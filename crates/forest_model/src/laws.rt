// The laws of the definitions. Each function stands for the clauses of its contract, and does nothing.

ghost use Rattle.std.specs.Prelude.{◌≡◌, ◌≢◌, ◌<◌, ◌≤◌, ◌+◌, ◌-◌, ◌^◌, ◌++◌, ℕ, suc, min, List, [], ◌∷◌, Option, Ok, Some, None, true, false, length, map, IfOk, IfSome, IsTrue, is_ok, is_some, find, nat_le, option_map};
ghost use Rattle.std.specs.List.{AllByRecursion, list_any};
ghost use Rattle.std.specs.List.Sorted.{IsPermutation, IsSortedBy};
ghost use Rattle.txn_runs.specs.Bounds.{steps_max};
ghost use Rattle.txn_runs.specs.Run.{Tables, after};
ghost use Rattle.txn_runs.specs.Serial.{outcome_of, outcomes, last_tables};
ghost use Rattle.txn_runs.specs.declared.program.Program.{Program};
ghost use Rattle.block_rule.specs.declared.role.Role.{Role};
ghost use Rattle.block_rule.specs.declared.role.Role.TheVariants.{Optimistic, Guard};
ghost use Rattle.block_rule.specs.declared.role.Row.{Row};
ghost use Rattle.txn_runs.specs.Kind.{kind_of};
ghost use Rattle.txn_runs.specs.declared.kind.Kind.TheVariants.{Ended};
ghost use Rattle.forest_model.specs.declared.did.Did.TheVariants.{Committed, Stepped, Nothing};
ghost use Rattle.journal_core.specs.declared.entry.Entry.TheVariants.{Withdrawn};
ghost use Rattle.journal_core.specs.Journal.{is_live, replies, committed_programs};
ghost use Rattle.forest_model.specs.Runs.{is_done, is_local};
ghost use Rattle.forest_model.specs.Forest.{Started, Forest, program, length_of, point_of, wanted, find_started};
ghost use Rattle.forest_model.specs.Choose.{greatest_up_to};
ghost use Rattle.forest_model.specs.Point.{Conflict, is_sooner, wanted_of};
ghost use Rattle.forest_model.specs.Settle.{stands_for, positions_in, settled_shadows};
ghost use Rattle.forest_model.specs.Cut.{survives, survivors, heir, resumed_by, after_cut};
ghost use Rattle.forest_model.specs.Origin.{is_kept, furthest, origin, successor, position_of, placed, placed_of, AreApart, from_origin, waiting_at};
ghost use Rattle.forest_model.specs.Pick.{pick};
ghost use Rattle.forest_model.specs.Stays.{stays_on};
ghost use Rattle.forest_model.specs.Sound.{IsSound, IsIdle, IsHome, is_wanted, last_point, LeavesLists, KeepsStarted, KeepsOthers};
ghost use Rattle.forest_model.specs.Events.{begin, seal, step, commit, withdraw, cut, resumes, others_cut};
ghost use Rattle.forest_model.specs.Grown.{IsGrown, IsLonger, HasBegun, commit_entry, seal_entries};
ghost use Rattle.forest_model.specs.Jobs.{Job, is_out_at, moved, take_pick, recall, give};
ghost use Rattle.forest_model.specs.World.{World, Held, Event, Recall, happens, all_happen, opened, IsHeld, IsFit};
ghost use Rattle.forest_model.specs.Work.{work};
ghost use Rattle.forest_model.specs.Drain.{run_from, run_idle, after_commit, step_row, first_ended, state_of, gate_step, drain_from, drain_step, drain_rest, drain, until_from, until_commit};
ghost use Rattle.forest_model.specs.Laws.{Survival, JobsLand, IsCommitted, IsReset, StandsAt, is_step, is_step_or_commit};

/// Each event keeps soundness, from any sound forest, for every number of shadows and lanes. In a sound forest each
/// started transaction has its optimistic shadow and at most k shadows in all, and where its optimistic shadow has
/// run to the end its commit is never refused. The committed outcomes and the present tables are those of the committed
/// programs, run alone one after another in the order of the journal. Where nobody is started nobody is live.
pub fn soundness()
    ensures begins { (f : Forest) (p : Program) (deadline : ℕ) → IsSound f → IfOk (begin f p deadline) (λ answer. IsSound answer.1) }
    ensures seals { (f : Forest) → IsSound f → IsSound (seal f) }
    ensures steps { (f : Forest) (t : ℕ) (role : Role) → IsSound f → IfOk (step f t role) (λ answer. IsSound answer.1) }
    ensures commits { (f : Forest) (t : ℕ) → IsSound f → IfOk (commit f t) IsSound }
    ensures withdraws { (f : Forest) (t : ℕ) → IsSound f → IfOk (withdraw f t) IsSound }
    ensures takes { (f : Forest) → IsSound f → IsSound (take_pick f) }
    ensures gives { (f : Forest) (x : Held) → IsSound f → IsHeld f x → IfSome (give f x.job) IsSound }
    ensures recalls { (f : Forest) → IsSound f → IsSound (recall f) }
    ensures few { (f : Forest) → IsSound f → 1 ≤ f.k → AllByRecursion (λ r. suc (length r.shadows) ≤ f.k) f.started }
    ensures serial { (f : Forest) → IsSound f → (replies f.journal ≡ outcomes f.opening (committed_programs f.journal)) × (f.tables ≡ last_tables f.opening (committed_programs f.journal)) }
    ensures nobody { (f : Forest) (t : ℕ) → IsSound f → 1 ≤ f.lanes → f.started ≡ [] → is_live f.journal t ≡ false }
    ensures never_refused { (f : Forest) (t : ℕ) (u : Started) → is_live f.journal t ≡ true → find_started f.started t ≡ Some u → u.position ≡ length_of f u → IsTrue (is_ok (commit f t)) }
{}

/// Each event keeps the opening tables and only lengthens the journal, by the entry that it records if it records one, and so does
/// each list of events, also a refused one among them, and each run and drain.
pub fn growing()
    ensures begins { (f : Forest) (p : Program) (deadline : ℕ) → IfOk (begin f p deadline) (λ answer. HasBegun f answer.1 answer.0 deadline p) }
    ensures seals { (f : Forest) → IsGrown f (seal f) (seal_entries f) }
    ensures steps { (f : Forest) (t : ℕ) (role : Role) → IfOk (step f t role) (λ answer. IsGrown f answer.1 []) }
    ensures commits { (f : Forest) (t : ℕ) → IfOk (commit f t) (λ g. IsGrown f g (commit_entry f t ∷ [])) }
    ensures withdraws { (f : Forest) (t : ℕ) → IfOk (withdraw f t) (λ g. IsGrown f g (Withdrawn t ∷ [])) }
    ensures takes { (f : Forest) → IsGrown f (take_pick f) [] }
    ensures gives { (f : Forest) (job : Job) → IfSome (give f job) (λ g. IsGrown f g []) }
    ensures recalls { (f : Forest) → IsGrown f (recall f) [] }
    ensures event { (w : World) (e : Event) → IsLonger w.forest (happens w e).forest }
    ensures events { (w : World) (events : List Event) → IsLonger w.forest (all_happen events w).forest }
    ensures runs { (f : Forest) → IsGrown f (run_idle f).1 [] }
    ensures gates { (f : Forest) → IsLonger f (gate_step f).1 }
    ensures drain_steps { (f : Forest) → IsLonger f (drain_step f).1 }
    ensures drains { (f : Forest) → IsLonger f (drain f).1 }
{}

/// Jobs: whatever events there are and however many jobs are out, the forest stays sound and each job stays a run of
/// its transaction's program. A job that is stored has the state of the present run at its position, however many
/// commits came between; one that is stored in an optimistic shadow changes no other shadow.
pub fn jobs()
    ensures event { (w : World) (e : Event) → IsFit w → IsFit (happens w e) }
    ensures events { (w : World) (events : List Event) → IsFit w → IsFit (all_happen events w) }
    ensures from_start { (tables : Tables) (k lanes : ℕ) (events : List Event) → IsFit (all_happen events (opened tables k lanes)) }
    ensures lands { JobsLand }
    ensures leaves { (f g : Forest) (x : Held) (r : Started) → IsSound f → IsHeld f x → find_started f.started x.job.number ≡ Some r → is_out_at x.job.from r.position r.out ≡ true → give f x.job ≡ Some g → map (λ (y : Started). y.shadows) g.started ≡ map (λ (y : Started). y.shadows) f.started }
{}

/// What survives a commit is the same run over the new tables. The cut is the point against a transaction that is
/// done; against any other there is none.
pub fn survival()
    ensures survivors { Survival }
    ensures cut { (f : Forest) (u r : Started) → u.position ≡ length_of f u → is_done (outcome_of (program f u) f.tables) ≡ true → cut f u r ≡ point_of f r u }
    ensures no_cut { (f : Forest) (u r : Started) → is_done (outcome_of (program f u) f.tables) ≡ false → cut f u r ≡ None }
{}

/// What an event leaves as it was. Settling leaves the shadows that stand for what is wanted after the event; a begin
/// leaves all that is started; a guard's step, and a job that is stored in a shadow that waits, leave all other
/// transactions, and the job moves that one shadow alone.
pub fn untouched()
    ensures begins { (f : Forest) (p : Program) (deadline : ℕ) → IsSound f → IfOk (begin f p deadline) (λ answer. KeepsStarted f answer.1) }
    ensures steps { (f : Forest) (t : ℕ) → IsSound f → IfOk (step f t Optimistic) (λ answer. LeavesLists f.started answer.1) }
    ensures guards { (f : Forest) (t u : ℕ) → IfOk (step f t (Guard u)) (λ answer. KeepsOthers t f answer.1) }
    ensures commits { (f : Forest) (t : ℕ) (u : Started) → IsSound f → find_started f.started t ≡ Some u → IfOk (commit f t) (λ g. LeavesLists (others_cut f u) g) }
    ensures withdraws { (f : Forest) (t : ℕ) → IsSound f → IfOk (withdraw f t) (λ g. LeavesLists f.started g) }
    ensures gives { (f g : Forest) (job : Job) (r : Started) → find_started f.started job.number ≡ Some r → is_out_at job.from r.position r.out ≡ false → give f job ≡ Some g → (find_started g.started job.number ≡ option_map (λ ss. record r { shadows = ss }) (moved job.from job.reached r.shadows)) × KeepsOthers job.number f g }
{}

/// Whom a commit takes back: who is resumed stands at the place that is told, and any other one stands where it stood. A
/// withdrawal takes nobody back.
pub fn resuming()
    ensures back { (f g : Forest) (t v : ℕ) (u r : Started) (p : ℕ) → IsCommitted f t u v r g → resumes f u r ≡ Some (v, p) → StandsAt g v p }
    ensures on { (f g : Forest) (t v : ℕ) (u r : Started) → IsCommitted f t u v r g → resumes f u r ≡ None → StandsAt g v r.position }
    ensures withdraws { (f g : Forest) (t v : ℕ) (r : Started) → withdraw f t ≡ Ok g → find_started f.started v ≡ Some r → v ≢ t → StandsAt g v r.position }
{}

/// What a commit costs another transaction in an idle forest. A reader with a shadow for the writer goes back to
/// exactly its point; any other reader to the last point that it wants, or to its start; who has no point, or
/// whose writer is not done, goes on.
pub fn reset()
    ensures wanted { (f g : Forest) (t v : ℕ) (u r : Started) (p : ℕ) → IsReset f t u v r g → is_done (outcome_of (program f u) f.tables) ≡ true → point_of f r u ≡ Some p → is_wanted (wanted f r) u.number ≡ true → (resumes f u r ≡ Some (v, p)) × StandsAt g v p }
    ensures others { (f g : Forest) (t v : ℕ) (u r : Started) (p : ℕ) → IsReset f t u v r g → is_done (outcome_of (program f u) f.tables) ≡ true → point_of f r u ≡ Some p → is_wanted (wanted f r) u.number ≡ false → (resumes f u r ≡ Some (v, last_point (wanted f r))) × StandsAt g v (last_point (wanted f r)) }
    ensures no_point { (f g : Forest) (t v : ℕ) (u r : Started) → IsReset f t u v r g → is_done (outcome_of (program f u) f.tables) ≡ true → point_of f r u ≡ None → (resumes f u r ≡ None) × StandsAt g v r.position }
    ensures not_done { (f g : Forest) (t v : ℕ) (u r : Started) → IsReset f t u v r g → is_done (outcome_of (program f u) f.tables) ≡ false → (resumes f u r ≡ None) × StandsAt g v r.position }
{}

/// The step of the pick is never refused, and each step leaves less work, so steps of the pick come to an end. If
/// all were at home the forest is idle then. Such a run is a list of steps, as many as it tells. Within the limits they
/// are fewer than 2 to the 64th power.
pub fn idling()
    ensures accepted { (f : Forest) (row : Row) → IsSound f → pick f ≡ Some row → IsTrue (is_ok (step f row.txn row.role)) }
    ensures lowers { (f : Forest) (t : ℕ) (role : Role) → IsSound f → IfOk (step f t role) (λ answer. work answer.1 < work f) }
    ensures home { (f : Forest) (t : ℕ) (role : Role) → IsHome f → IfOk (step f t role) (λ answer. IsHome answer.1) }
    ensures recalled { (f : Forest) → IsHome (recall f) }
    ensures unrolled { (f : Forest) → IsSound f → run_idle f ≡ run_from (pick f) f run_idle }
    ensures sound { (f : Forest) → IsSound f → IsSound (run_idle f).1 }
    ensures idle { (f : Forest) → IsSound f → IsHome f → IsIdle (run_idle f).1 }
    ensures bounded { (f : Forest) → IsSound f → (run_idle f).0 + work (run_idle f).1 ≤ work f }
    ensures events { (w : World) → (es : List Event) × ((all_happen es w ≡ record w { forest = (run_idle w.forest).1 }) × ((length es ≡ (run_idle w.forest).0) × AllByRecursion (λ e. is_step e ≡ true) es)) }
    ensures fits { (f : Forest) → IsSound f → f.k ≤ 8 → f.lanes ≤ 64 → AllByRecursion (λ r. steps_max (program f r) ≤ 100000) f.started → (run_idle f).0 < 2 ^ 64 }
{}

/// The pick stays. After a local step of an optimistic shadow that was picked, which has not ended by it, it is picked again; and
/// so is a shadow that waits, after any step by which it does not come to its point. Nobody comes to an end by these steps.
pub fn staying()
    ensures optimistic { (f : Forest) (row : Row) (r : Started) → IsSound f → pick f ≡ Some row → row.role ≡ Optimistic → find_started f.started row.txn ≡ Some r → is_local (after (program f r) f.tables r.position) ≡ true → suc r.position < length_of f r → pick (step_row f row) ≡ Some row }
    ensures guard { (f : Forest) (row : Row) (u : ℕ) (r : Started) → IsSound f → pick f ≡ Some row → row.role ≡ Guard u → find_started f.started row.txn ≡ Some r → stays_on u r.shadows (wanted f r) ≡ true → pick (step_row f row) ≡ Some row }
    ensures local_ends_nobody { (f : Forest) (row : Row) (r : Started) → IsSound f → pick f ≡ Some row → row.role ≡ Optimistic → find_started f.started row.txn ≡ Some r → is_local (after (program f r) f.tables r.position) ≡ true → suc r.position < length_of f r → first_ended (step_row f row) ≡ first_ended f }
    ensures guard_ends_nobody { (f : Forest) (row : Row) (u : ℕ) (r : Started) → IsSound f → pick f ≡ Some row → row.role ≡ Guard u → find_started f.started row.txn ≡ Some r → first_ended (step_row f row) ≡ first_ended f }
{}

/// A drain is a recall and then a list of commits and steps, until nothing is left to do. Afterwards nobody is live. After its steps
/// up to the next commit somebody has ended or there is no pick, and it goes on from there.
pub fn draining()
    ensures unrolled { (f : Forest) → IsSound f → drain_rest f ≡ drain_from (drain_step f).0 (drain_step f).1 drain_rest }
    ensures sound { (f : Forest) → IsSound f → IsSound (drain f).1 }
    ensures events { (w : World) → (es : List Event) × ((all_happen es (happens w Recall) ≡ record w { forest = (drain w.forest).1 }) × AllByRecursion (λ e. is_step_or_commit e ≡ true) es) }
    ensures empty { (f : Forest) (t : ℕ) → IsSound f → 1 ≤ f.lanes → is_live (drain f).1.journal t ≡ false }
    ensures until { (f : Forest) → IsSound f → until_commit f ≡ until_from (drain_step f).0 f (drain_step f).1 until_commit }
    ensures stops { (f : Forest) → IsSound f → first_ended (until_commit f).1 ≡ None → pick (until_commit f).1 ≡ None }
    ensures goes_on { (f : Forest) → IsSound f → drain_rest f ≡ ((until_commit f).0 + (drain_rest (until_commit f).1).0, (drain_rest (until_commit f).1).1) }
{}

/// One step under a gate: the commit of the first by priority that has ended, and it is accepted; else the pick's step,
/// where it reads the tables or writes; else nothing.
pub fn gating()
    ensures commits { (f : Forest) (t : ℕ) → first_ended f ≡ Some t → gate_step f ≡ (Committed t, after_commit f (commit f t)) }
    ensures accepted { (f : Forest) (t : ℕ) → IsSound f → first_ended f ≡ Some t → IsTrue (is_ok (commit f t)) }
    ensures steps { (f : Forest) (row : Row) → first_ended f ≡ None → pick f ≡ Some row → is_local (state_of f row) ≡ false → gate_step f ≡ (Stepped row.txn row.role, step_row f row) }
    ensures acts { (f : Forest) (row : Row) → IsSound f → pick f ≡ Some row → kind_of (state_of f row) ≢ Ended }
    ensures leaves_local { (f : Forest) (row : Row) → first_ended f ≡ None → pick f ≡ Some row → is_local (state_of f row) ≡ true → gate_step f ≡ (Nothing, f) }
    ensures without_pick { (f : Forest) → first_ended f ≡ None → pick f ≡ None → gate_step f ≡ (Nothing, f) }
    ensures sound { (f : Forest) → IsSound f → IsSound (gate_step f).1 }
{}

/// The wanted of a list of conflicts are its first `k - 1` by point and then by guard, or all where there are fewer: the
/// wanted and some rest are the same conflicts in that order.
pub fn wanting()
    ensures { (xs : List Conflict) (k : ℕ) → (rest : List Conflict) × IsPermutation xs (wanted_of xs k ++ rest) × IsSortedBy is_sooner (wanted_of xs k ++ rest) × (length (wanted_of xs k) ≡ min (k - 1) (length xs)) }
{}

/// Where the state of a shadow comes from, by roles and positions, is where settling and a cut take it from: what
/// is kept is what settling finds; a copy stands where the furthest stands that is not past the point; the heir
/// of a cut is the furthest survivor. In a sound forest no two of a transaction's shadows wait for one guard, nor do they
/// after a cut; so a role names one shadow, and each shadow that settling gives is the one that is kept, the copy or the
/// fresh one that `origin` tells, and who is resumed by a cut goes on from the shadow that `successor` tells.
pub fn origins()
    ensures kept { (r : Started) (u p : ℕ) → list_any (is_kept u p) (placed_of r) ≡ is_some (find (stands_for (u, p)) r.shadows) }
    ensures copies { (r : Started) (limit : ℕ) → position_of (furthest (placed_of r) limit) ≡ greatest_up_to limit (positions_in (Some r)) }
    ensures heirs { (r : Started) (cut : ℕ) → nat_le r.position cut ≡ false → furthest (placed_of r) cut ≡ option_map placed (heir (survivors (Some cut) r.shadows)) }
    ensures apart { (f : Forest) → IsSound f → AllByRecursion (λ r. AreApart r.shadows) f.started }
    ensures cut_apart { (r : Started) (cut : Option ℕ) → AreApart r.shadows → AreApart (after_cut cut r).shadows }
    ensures settles { (r : Started) (ws : List Conflict) → AreApart r.shadows → map Some (settled_shadows (Some r) ws) ≡ map (λ (w : Conflict). from_origin (origin (placed_of r) w.0 w.1) r w) ws }
    ensures resumes { (r : Started) (cut : ℕ) → AreApart r.shadows → survives (Some cut) r.position ≡ false → after_cut (Some cut) r ≡ resumed_by (waiting_at (successor (placed_of r) cut) r.shadows) r (survivors (Some cut) r.shadows) }
{}
