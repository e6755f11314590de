//! Sessions of a gate.

ghost use Rattle.std.specs.Prelude.{◌≡◌, IfOk, IfErr, OnOk};
ghost use Rattle.cedar_evaluator_requests.specs.Views.{request_of};
ghost use Rattle.cedar_gate.specs.Courses.{InEachCourseAt};
ghost use Rattle.cedar_gate.specs.Gates.{IsSetupOf, accepted_in};
ghost use Rattle.cedar_gate_model.specs.Session.{Setup, at_start};
ghost use Rattle.cedar_gate_openings.specs.Faults.{opens, IsOpenFault};
ghost use Rattle.cedar_gate_sessions.specs.Courses.{Stands};
ghost use Rattle.cedar_gate_sessions.specs.Sessions.{IsAt, IsSetup, gate_of};

use crate::gate::Gate;
use cedar_evaluator_requests::Request;
use cedar_gate_openings::{OpenFault, context_is_made};
use cedar_gate_sessions::SessionAt;
use std::alloc::Global;

/// A session of one request at a gate, which it borrows.
pub type Session<'g> = SessionAt<'g, Gate<'g, 'g, 'g>>;

impl Gate<'_, '_, '_> {
    /// Opens a session of this request, of which parts may be unknown.
    ///
    /// # Errors
    ///
    /// 1 the name of an unknown in the context holds a double quote, 2 it is that of a variable; or out of memory.
    pub fn open(&self, alloc: Global, request: Request) -> Result<Session<'_>, OpenFault>
        ensures gate { IfOk result (λ e. gate_of e ≡ self.entry.now) }
        ensures at { IfOk result (λ e. (x : Setup) → IsSetup IsSetupOf x self.entry.now request → IsAt IsSetupOf x at_start e) }
        ensures stands { IfOk result (λ e. InEachCourseAt self.entry.now request (λ c. Stands IsSetupOf accepted_in c at_start e)) }
        ensures opens { OnOk result (opens (request_of request)) }
        ensures refused { IfErr result (IsOpenFault (request_of request)) }
    {
        context_is_made(&request);
        SessionAt::open(alloc, self, request)
    }
}
