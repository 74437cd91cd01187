// The programs of requests, without their deadlines.
ghost use Rattle.std.specs.Prelude.{◌≡◌, IfOk};
ghost use Rattle.batch_input.specs.Input.{programs_of};

use batch_input::Request;
use std::alloc::{AllocError, Global};
use txn_runs::Program;

// The programs, in the order of their lines. `AllocError` for want of memory.
pub(crate) fn programs_in(alloc: Global, requests: Vec<Request>) -> Result<Vec<Program>, AllocError>
    ensures { IfOk result (λ programs. programs.items ≡ programs_of requests.items) }
{
    let mut programs = Vec::new(alloc);
    for request in requests {
        programs.push(request.program)?;
    }
    Ok(programs)
}
