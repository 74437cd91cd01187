// Worked histories, computed by the definitions. Each function stands for the clauses of its contract, and does nothing.

ghost use Rattle.std.specs.Prelude.{[], ◌∷◌, pos, None, Some};
ghost use Rattle.txn_runs.specs.declared.outcome.Outcome.TheVariants.{Done, Failed};
ghost use Rattle.block_rule.specs.declared.standing.Standing.TheVariants.{Runnable, Blocked, Ended};
ghost use Rattle.journal_core.specs.declared.entry.Entry.TheVariants.{Began, Committed, Withdrawn};
ghost use Rattle.forest_model.specs.Events.{Unknown, NotStarted, NoShadow, HasEnded, IsBlocked, NotEnded};
ghost use Rattle.forest_model.specs.World.{opened};
ghost use Rattle.forest_model.specs.Programs.{nothing, reader, writer, late_reader, two_reader, late_two_reader, three_reader, own_reader, twice_reader, failing_writer, crosses};
ghost use Rattle.forest_model.specs.Told.{Run, Drain, Show, Refused, Starts, Waits, At, Ends, Leaves, Makes, Drains, Looks, IsTold};
ghost use Rattle.forest_model.specs.Worked.{items, begins, steps, steps_for, commits, withdraws, stands, waits_at};

/// Histories of one reader and one writer: the lines, what each is answered, and the journal and the tables at the end. Where
/// nothing else is said the table has four items, which are 0.
pub fn worked_conflicts()
    // with one shadow a reader whose item was written starts anew
    ensures restart { IsTold (opened (items 0 0) 1 2)
        (begins reader 10 ∷ begins (writer 0 5) 20 ∷ steps 1 ∷ steps 2 ∷ commits 2 ∷ Show 1 ∷ Run
        ∷ commits 1 ∷ [])
        (Starts 1 ∷ Starts 2 ∷ At 1 ∷ At 1 ∷ Ends (Done []) ((1, 0) ∷ []) None
        ∷ Looks (stands 0 Runnable ∷ []) ∷ Makes 2 ∷ Ends (Done (pos 5 ∷ [])) [] None ∷ [])
        (Began 1 10 reader ∷ Began 2 20 (writer 0 5) ∷ Committed 2 (Done [])
        ∷ Committed 1 (Done (pos 5 ∷ [])) ∷ [])
        (items 5 0) }
    // a write gives the reader a shadow in front of its read
    ensures write_rule { IsTold (opened (items 0 0) 2 2)
        (begins reader 10 ∷ begins (writer 0 5) 20 ∷ steps 1 ∷ steps 2 ∷ Show 1 ∷ [])
        (Starts 1 ∷ Starts 2 ∷ At 1 ∷ At 1 ∷ Looks (stands 1 Runnable ∷ waits_at 2 0 0 Blocked ∷ [])
        ∷ [])
        (Began 1 10 reader ∷ Began 2 20 (writer 0 5) ∷ [])
        (items 0 0) }
    // a read behind the write leaves a copy in front of it, and the writer's commit promotes the copy
    ensures promotion { IsTold (opened (items 0 0) 2 2)
        (begins late_reader 10 ∷ begins (writer 0 5) 20 ∷ steps 2 ∷ steps 1 ∷ steps 1 ∷ Show 1
        ∷ commits 2 ∷ Show 1 ∷ Run ∷ commits 1 ∷ [])
        (Starts 1 ∷ Starts 2 ∷ At 1 ∷ At 1 ∷ At 2
        ∷ Looks (stands 2 Runnable ∷ waits_at 2 1 1 Blocked ∷ [])
        ∷ Ends (Done []) ((1, 1) ∷ []) None ∷ Looks (stands 1 Runnable ∷ []) ∷ Makes 2
        ∷ Ends (Done (pos 5 ∷ [])) [] None ∷ [])
        (Began 1 10 late_reader ∷ Began 2 20 (writer 0 5) ∷ Committed 2 (Done [])
        ∷ Committed 1 (Done (pos 5 ∷ [])) ∷ [])
        (items 5 0) }
    // of two that read what the other writes either may be committed, and the other one goes back to its read
    ensures crossed { IsTold (opened (items 0 0) 2 2)
        (begins (crosses 0 1) 10 ∷ begins (crosses 1 0) 20 ∷ steps 1 ∷ steps 2 ∷ steps 1 ∷ steps 2
        ∷ Show 1 ∷ Show 2 ∷ commits 1 ∷ Show 2 ∷ Run ∷ commits 2 ∷ [])
        (Starts 1 ∷ Starts 2 ∷ At 1 ∷ At 1 ∷ At 2 ∷ At 2
        ∷ Looks (stands 2 Ended ∷ waits_at 2 0 0 Blocked ∷ [])
        ∷ Looks (stands 2 Ended ∷ waits_at 1 0 0 Blocked ∷ []) ∷ Ends (Done []) ((2, 0) ∷ []) None
        ∷ Looks (stands 0 Runnable ∷ []) ∷ Makes 2 ∷ Ends (Done []) [] None ∷ [])
        (Began 1 10 (crosses 0 1) ∷ Began 2 20 (crosses 1 0) ∷ Committed 1 (Done [])
        ∷ Committed 2 (Done []) ∷ [])
        (items 1 1) }
{}

/// The same of a reader with two writers, and of what its list keeps and gives up.
pub fn worked_lists()
    // what blocks latest goes first
    ensures latest_first { IsTold (opened (items 0 0) 2 3)
        (begins two_reader 10 ∷ begins (writer 1 7) 20 ∷ begins (writer 0 9) 30 ∷ steps 1 ∷ steps 1
        ∷ steps 2 ∷ Show 1 ∷ steps 3 ∷ Show 1 ∷ commits 2 ∷ Show 1 ∷ [])
        (Starts 1 ∷ Starts 2 ∷ Starts 3 ∷ At 1 ∷ At 2 ∷ At 1
        ∷ Looks (stands 2 Runnable ∷ waits_at 2 0 1 Runnable ∷ []) ∷ At 1
        ∷ Looks (stands 2 Runnable ∷ waits_at 3 0 0 Blocked ∷ [])
        ∷ Ends (Done []) ((1, 0) ∷ []) None ∷ Looks (stands 0 Runnable ∷ []) ∷ [])
        (Began 1 10 two_reader ∷ Began 2 20 (writer 1 7) ∷ Began 3 30 (writer 0 9)
        ∷ Committed 2 (Done []) ∷ [])
        (items 0 7) }
    // with a third shadow there is one for each writer
    ensures both_guards { IsTold (opened (items 0 0) 3 3)
        (begins two_reader 10 ∷ begins (writer 1 7) 20 ∷ begins (writer 0 9) 30 ∷ steps 1 ∷ steps 1
        ∷ steps 2 ∷ steps 3 ∷ Run ∷ Show 1 ∷ commits 2 ∷ Show 1 ∷ [])
        (Starts 1 ∷ Starts 2 ∷ Starts 3 ∷ At 1 ∷ At 2 ∷ At 1 ∷ At 1 ∷ Makes 2
        ∷ Looks (stands 3 Ended ∷ waits_at 3 0 0 Blocked ∷ waits_at 2 1 1 Blocked ∷ [])
        ∷ Ends (Done []) ((1, 1) ∷ []) None
        ∷ Looks (stands 1 Runnable ∷ waits_at 3 0 0 Blocked ∷ []) ∷ [])
        (Began 1 10 two_reader ∷ Began 2 20 (writer 1 7) ∷ Began 3 30 (writer 0 9)
        ∷ Committed 2 (Done []) ∷ [])
        (items 0 7) }
    // after a withdrawal the list is filled up from the furthest copy
    ensures refill { IsTold (opened (items 0 0) 2 3)
        (begins late_two_reader 10 ∷ begins (writer 1 7) 20 ∷ begins (writer 0 9) 30 ∷ steps 2
        ∷ steps 1 ∷ steps 1 ∷ steps 1 ∷ steps 3 ∷ steps_for 1 3 ∷ withdraws 3 ∷ Show 1 ∷ [])
        (Starts 1 ∷ Starts 2 ∷ Starts 3 ∷ At 1 ∷ At 1 ∷ At 2 ∷ At 3 ∷ At 1 ∷ At 1 ∷ Leaves None
        ∷ Looks (stands 3 Runnable ∷ waits_at 2 1 2 Runnable ∷ []) ∷ [])
        (Began 1 10 late_two_reader ∷ Began 2 20 (writer 1 7) ∷ Began 3 30 (writer 0 9) ∷ Withdrawn 3
        ∷ [])
        (items 0 0) }
    // 2 fails and is committed: its shadow, which survives, is what the shadow for 3 is copied from
    ensures survivor { IsTold (opened (items 0 0) 3 4)
        (begins three_reader 10 ∷ begins (failing_writer 1) 20 ∷ begins (writer 2 3) 30
        ∷ begins (writer 0 9) 40 ∷ steps 2 ∷ steps 2 ∷ steps 3 ∷ steps 4 ∷ steps 1 ∷ steps 1 ∷ steps 1
        ∷ steps 1 ∷ Show 1 ∷ commits 2 ∷ Show 1 ∷ [])
        (Starts 1 ∷ Starts 2 ∷ Starts 3 ∷ Starts 4 ∷ At 1 ∷ At 2 ∷ At 1 ∷ At 1 ∷ At 1 ∷ At 2 ∷ At 3
        ∷ At 4 ∷ Looks (stands 4 Runnable ∷ waits_at 4 1 1 Blocked ∷ waits_at 2 2 2 Blocked ∷ [])
        ∷ Ends (Failed (pos 7)) [] None
        ∷ Looks (stands 4 Runnable ∷ waits_at 4 1 1 Blocked ∷ waits_at 3 2 3 Runnable ∷ []) ∷ [])
        (Began 1 10 three_reader ∷ Began 2 20 (failing_writer 1) ∷ Began 3 30 (writer 2 3)
        ∷ Began 4 40 (writer 0 9) ∷ Committed 2 (Failed (pos 7)) ∷ [])
        (items 0 0) }
{}

/// The same of what is a read of the tables, and of a writer that fails.
pub fn worked_reads()
    // a read of what the run itself has written is no read of the tables
    ensures own_read { IsTold (opened (items 0 0) 2 2)
        (begins own_reader 10 ∷ begins (writer 0 5) 20 ∷ steps 1 ∷ steps 1 ∷ steps 2 ∷ commits 2
        ∷ Show 1 ∷ Run ∷ commits 1 ∷ [])
        (Starts 1 ∷ Starts 2 ∷ At 1 ∷ At 2 ∷ At 1 ∷ Ends (Done []) [] None
        ∷ Looks (stands 2 Runnable ∷ []) ∷ Makes 1 ∷ Ends (Done (pos 1 ∷ [])) [] None ∷ [])
        (Began 1 10 own_reader ∷ Began 2 20 (writer 0 5) ∷ Committed 2 (Done [])
        ∷ Committed 1 (Done (pos 1 ∷ [])) ∷ [])
        (items 1 0) }
    // a second read gives what the first one gave; item 0 is 3
    ensures repeated_read { IsTold (opened (items 3 0) 2 2)
        (begins twice_reader 10 ∷ begins (writer 1 9) 20 ∷ steps 1 ∷ steps 2 ∷ commits 2 ∷ Run
        ∷ commits 1 ∷ [])
        (Starts 1 ∷ Starts 2 ∷ At 1 ∷ At 1 ∷ Ends (Done []) [] None ∷ Makes 3
        ∷ Ends (Done (pos 6 ∷ [])) [] None ∷ [])
        (Began 1 10 twice_reader ∷ Began 2 20 (writer 1 9) ∷ Committed 2 (Done [])
        ∷ Committed 1 (Done (pos 6 ∷ [])) ∷ [])
        (items 3 9) }
    // the second read of an item is no point; item 0 is 3
    ensures second_read { IsTold (opened (items 3 0) 2 2)
        (begins twice_reader 10 ∷ begins (writer 0 5) 20 ∷ steps 1 ∷ steps 1 ∷ steps 2 ∷ Show 1 ∷ [])
        (Starts 1 ∷ Starts 2 ∷ At 1 ∷ At 2 ∷ At 1
        ∷ Looks (stands 2 Runnable ∷ waits_at 2 0 0 Blocked ∷ []) ∷ [])
        (Began 1 10 twice_reader ∷ Began 2 20 (writer 0 5) ∷ [])
        (items 3 0) }
    // a writer that fails gives its reader a shadow, and takes nothing back
    ensures failure { IsTold (opened (items 0 0) 2 2)
        (begins (failing_writer 0) 10 ∷ begins reader 20 ∷ steps 2 ∷ steps 1 ∷ steps 1 ∷ Show 2
        ∷ commits 1 ∷ Show 2 ∷ Run ∷ commits 2 ∷ [])
        (Starts 1 ∷ Starts 2 ∷ At 1 ∷ At 1 ∷ At 2
        ∷ Looks (stands 1 Runnable ∷ waits_at 1 0 0 Blocked ∷ []) ∷ Ends (Failed (pos 7)) [] None
        ∷ Looks (stands 1 Runnable ∷ []) ∷ Makes 1 ∷ Ends (Done (pos 0 ∷ [])) [] None ∷ [])
        (Began 1 10 (failing_writer 0) ∷ Began 2 20 reader ∷ Committed 1 (Failed (pos 7))
        ∷ Committed 2 (Done (pos 0 ∷ [])) ∷ [])
        (items 0 0) }
{}

/// The same of refusals, and of who starts when a lane becomes free.
pub fn worked_orders()
    // each refusal, in the order in which they are tried
    ensures refusals { IsTold (opened (items 0 0) 2 2)
        (begins reader 10 ∷ begins (writer 0 5) 20 ∷ begins nothing 30 ∷ steps 1 ∷ steps 2
        ∷ steps_for 1 2 ∷ steps_for 1 3 ∷ steps 2 ∷ commits 1 ∷ steps 3 ∷ commits 3 ∷ steps 9
        ∷ commits 9 ∷ [])
        (Starts 1 ∷ Starts 2 ∷ Waits 3 ∷ At 1 ∷ At 1 ∷ Refused IsBlocked ∷ Refused NoShadow
        ∷ Refused HasEnded ∷ Refused NotEnded ∷ Refused NotStarted ∷ Refused NotStarted
        ∷ Refused Unknown ∷ Refused Unknown ∷ [])
        (Began 1 10 reader ∷ Began 2 20 (writer 0 5) ∷ Began 3 30 nothing ∷ [])
        (items 0 0) }
    // a lane that becomes free goes to the waiting transaction with the least deadline; there is no table
    ensures priorities { IsTold (opened [] 1 1)
        (begins nothing 30 ∷ begins nothing 20 ∷ begins nothing 10 ∷ Drain ∷ [])
        (Starts 1 ∷ Waits 2 ∷ Waits 3 ∷ Drains (1 ∷ 3 ∷ 2 ∷ []) ∷ [])
        (Began 1 30 nothing ∷ Began 2 20 nothing ∷ Began 3 10 nothing ∷ Committed 1 (Done [])
        ∷ Committed 3 (Done []) ∷ Committed 2 (Done []) ∷ [])
        [] }
    // the same by single commits, which tell who starts
    ensures priorities_by_hand { IsTold (opened [] 1 1)
        (begins nothing 30 ∷ begins nothing 20 ∷ begins nothing 10 ∷ commits 1 ∷ commits 3
        ∷ commits 2 ∷ [])
        (Starts 1 ∷ Waits 2 ∷ Waits 3 ∷ Ends (Done []) [] (Some 3) ∷ Ends (Done []) [] (Some 2)
        ∷ Ends (Done []) [] None ∷ [])
        (Began 1 30 nothing ∷ Began 2 20 nothing ∷ Began 3 10 nothing ∷ Committed 1 (Done [])
        ∷ Committed 3 (Done []) ∷ Committed 2 (Done []) ∷ [])
        [] }
{}
