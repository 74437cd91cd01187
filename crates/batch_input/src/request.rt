use txn_syntax::Program;

/// A program that is to run, with its deadline, at most 1,000,000,000,000.
#[derive(Drop)]
pub struct Request {
    pub deadline: u64,
    pub program: Program,
}
