// Laws of the nodes of a program.

ghost use Rattle.std.specs.Prelude.{◌≡◌, ◌≢◌, ℕ, ◌+◌, List, [], length};
ghost use Rattle.txn_runs.specs.declared.outcome.End.TheVariants.{Going};
ghost use Rattle.txn_runs.specs.declared.program.Stmt.{Stmt};
ghost use Rattle.txn_runs.specs.Bounds.{size};
ghost use Rattle.txn_runs.specs.Run.{Tables, Running};
ghost use Rattle.txn_code.specs.declared.node.Node.{Node};
ghost use Rattle.txn_code.specs.Flow.{Stands};
ghost use Rattle.txn_code.specs.Nodes.{nodes_of};
ghost use Rattle.txn_code.specs.Steps.{MakesStep, IsEnd};

/// The first node, in no loop, stands for the whole program. The node that stands for what is left of a run makes the run's
/// next step, and the end stands where nothing is left.
pub fn node_steps()
    ensures begins { (body : List Stmt) → Stands (nodes_of body) 0 [] body }
    ensures steps { (nodes : List Node) (at : ℕ) (counters : List ℕ) (tables : Tables) (n : ℕ) (s : Running) → Stands nodes at counters s.rest → s.end ≡ Going → s.rest ≢ [] → MakesStep nodes at counters tables n s }
    ensures ends { (nodes : List Node) (at : ℕ) (counters : List ℕ) → Stands nodes at counters [] → IsEnd nodes at }
{}

/// Programs with the same nodes are the same, and a program has a node for each of its statements, and one for the end.
pub fn same_nodes()
    ensures long { (body : List Stmt) → length (nodes_of body) ≡ size body + 1 }
    ensures same { (a b : List Stmt) → nodes_of a ≡ nodes_of b → a ≡ b }
{}
