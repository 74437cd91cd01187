// Laws of the definitions.
ghost use Rattle.std.specs.Prelude.{◌≡◌, ℕ, List, Ok};
ghost use Rattle.txn_names.specs.Tables.{Named, IsNames};
ghost use Rattle.txn_runs.specs.Bounds.{IsProgram, wides};
ghost use Rattle.txn_runs.specs.declared.program.Stmt.{Stmt};
ghost use Rattle.txn_syntax.specs.Reads.{read_of};
ghost use Rattle.txn_spelling.specs.Canonical.{canonical};
ghost use Rattle.txn_spelling.specs.Strangers.{strangers};

/// The tables of a program that was read are those of the names, and its literals have 64 bits.
pub fn read_programs()
    ensures tables { (names : List Named) (bytes : List ℕ) (body : List Stmt) → read_of names bytes ≡ Ok body → strangers names body ≡ 0 }
    ensures literals { (names : List Named) (bytes : List ℕ) (body : List Stmt) → read_of names bytes ≡ Ok body → wides body ≡ 0 }
{}

/// What the canonical spelling of a program within the limits is read as: that program and no other. The tables of the program
/// are those of the names.
pub fn canonical_spelling()
    ensures { (names : List Named) (body : List Stmt) → IsNames names → IsProgram body → strangers names body ≡ 0 → read_of names (canonical names body) ≡ Ok body }
{}
