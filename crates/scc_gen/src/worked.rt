// Worked texts. The function stands for the clauses of its contract, and does nothing.
ghost use Rattle.scc_gen.specs.Worked.{TenDraws, TwoPrograms};

/// The definition of the text, computed for the seed 7: ten draws, and the text of two programs.
pub fn worked_texts()
    ensures draws { TenDraws }
    ensures text { TwoPrograms }
{}
