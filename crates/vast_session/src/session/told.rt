//! What is told of a line that is in the form and gave nothing.

ghost use Rattle.std.specs.Prelude.{◌≡◌, IfOk, Some, string_bytes};
ghost use Rattle.vast_session.specs.Internal.Session.{IsToldAs, IsToldOf, made_number};

use crate::explain::{explained, uses_skipped};
use crate::fault::{Fault, LineFault};
use crate::session::Session;
use std::alloc::AllocError;
use vast_calls::Call;
use vast_script::StepFault;

impl Session {
    /// The fault of a line that is in the form.
    pub(super) fn told(
        &self,
        line: usize,
        text: &str,
        call: &str,
        made: Option<&Call>,
        cause: StepFault,
    ) -> Fault
        ensures memory { IsToldAs cause result }
        ensures told { IsToldOf line call.now (made_number self.now made.entry) (Some cause)
            result }
    {
        if let StepFault::Memory = cause {
            return Fault::Memory;
        }
        match self.explained(line, text, call, made, cause) {
            Ok(fault) => Fault::Line(fault),
            Err(_) => Fault::Memory,
        }
    }

    /// The number of the call, if it is one.
    fn number_of(&self, made: Option<&Call>) -> Option<usize>
        ensures { result ≡ made_number self.now made.entry }
    {
        match made {
            Some(_) => Some(self.counted()),
            None => None,
        }
    }

    fn explained(
        &self,
        line: usize,
        text: &str,
        call: &str,
        made: Option<&Call>,
        cause: StepFault,
    ) -> Result<LineFault, AllocError>
        ensures line { IfOk result (λ fault. fault.line ≡ line) }
        ensures call { IfOk result (λ fault. string_bytes fault.call ≡ call.now) }
        ensures step { IfOk result (λ fault. fault.step ≡ made_number self.now made.entry) }
        ensures cause { IfOk result (λ fault. fault.cause ≡ Some cause) }
    {
        let known = self.known();
        let is_missing = matches!(cause, StepFault::NoAnswer);
        let follows = is_missing && uses_skipped(known, text)?;
        Ok(LineFault {
            line,
            column: None,
            call: String::from_str(known.alloc, call)?,
            step: self.number_of(made),
            words: explained(known, &self.file, &self.answers, text, made, &cause)?,
            cause: Some(cause),
            follows,
        })
    }
}
