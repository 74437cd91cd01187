// Laws of logs.

ghost use Rattle.std.specs.Prelude.{◌≡◌, ℕ, List, length};
ghost use Rattle.txn_runs.specs.Run.{Tables, Read};
ghost use Rattle.txn_runs.specs.Reads.{IsLog, Agrees};
ghost use Rattle.access_sets.specs.Log.{AreBelow};

/// To each log there are tables of as many items as it has room for, which have what was read.
pub fn agreeing_tables()
    ensures { (room : ℕ) (reads : List Read) → IsLog reads → AreBelow room reads → (tables : Tables) × (length tables ≡ room) × Agrees tables reads }
{}
