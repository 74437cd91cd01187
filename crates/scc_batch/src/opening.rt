// The forest of a batch, before any of its programs runs.
ghost use Rattle.std.specs.Prelude.{◌≡◌, ◌≤◌, ◌<◌, ◌+◌, ◌∷◌, ◌++◌, [], false, length, IfOk, OnOk};
ghost use Rattle.std.specs.List.{All};
ghost use Rattle.journal_core.specs.Journal.{began, is_sealed};
ghost use Rattle.journal_core.specs.declared.entry.Entry.TheVariants.{Sealed, Began};
ghost use Rattle.forest_model.specs.Forest.{Forest as ForestOf};
ghost use Rattle.scc_batch.specs.Opened.{HasBegun, IsWithin};

use batch_input::Request;
use item_table::Table;
use shadow_forest::Forest;
use std::alloc::{AllocError, Global};

// A forest over these tables in which these programs, at most 20,000, began in this order, and no more may begin, with k shadows a
// transaction or as many below it as there is memory for. `AllocError` for want of memory.
pub(crate) fn opened(
    alloc: Global,
    table: Table,
    requests: Vec<Request>,
    k: u32,
    lanes: u32,
) -> Result<Forest, AllocError>
    requires shadows { (1 ≤ k) × (k ≤ 8) }
    requires lanes { (1 ≤ lanes) × (lanes ≤ 64) }
    requires few { length requests.items ≤ 20000 }
    requires within { All (IsWithin (length table)) requests.items }
    ensures { IfOk result (λ f. HasBegun table requests.items (Sealed ∷ []) f.numbers) }
{
    let mut forest = Forest::open_lean(alloc, table, k, lanes)?;
    begin_all(&mut forest, requests)?;
    forest.seal();
    Ok(forest)
}

// All begin, in order, in a forest in which nothing happened.
fn begin_all(forest: &mut Forest, requests: Vec<Request>) -> Result<(), AllocError>
    requires fresh { forest.old.numbers.journal ≡ [] }
    requires items { length forest.old.numbers.tables ≡ length forest.old.numbers.opening }
    requires few { length requests.items ≤ 20000 }
    requires within { All (IsWithin (length forest.old.numbers.opening)) requests.items }
    ensures { OnOk result (HasBegun forest.old.numbers.opening requests.items [] forest.new.numbers) }
{
    for request in requests {
        begin_next(forest, request)?;
    }
    Ok(())
}

// One more begins.
fn begin_next(forest: &mut Forest, request: Request) -> Result<(), AllocError>
    requires items { length forest.old.numbers.tables ≡ length forest.old.numbers.opening }
    requires within { IsWithin (length forest.old.numbers.opening) request }
    requires open { is_sealed forest.old.numbers.journal ≡ false }
    requires few { began forest.old.numbers.journal < 20000 }
    ensures opening { forest.new.numbers.opening ≡ forest.old.numbers.opening }
    ensures journal { OnOk result (forest.new.numbers.journal ≡ forest.old.numbers.journal ++ Began (began forest.old.numbers.journal + 1) request.deadline request.program ∷ []) }
    ensures items { length forest.new.numbers.tables ≡ length forest.new.numbers.opening }
{
    let result = match forest.begin(request.program, request.deadline) {
        Ok(_) => Ok(()),
        Err(_) => Err(AllocError),
    };
    // that the number of items stays comes with the journal
    let _ = forest.journal();
    result
}
