//! Packed calls over the answers so far.

ghost use Rattle.std.specs.Prelude.{◌≡◌, IfErr, IfOk, IfSome, MatchResult, None, Ok, OnErr, OnOk, false, true};
ghost use Rattle.xlsynth_vast.specs.Registers.{HasUnused};
ghost use Rattle.vast_session.specs.PackedCalls.{IsToldOfPacked};
ghost use Rattle.vast_session.specs.PackedFronts.{GaveFront, GivesFront, IsToldOfFront, RunsAll};
ghost use Rattle.vast_session.specs.Session.{IsFileLeft, IsLeft, IsMade, IsSame, IsSameFile, IsSameKnown};
ghost use Rattle.vast_session.specs.declared.fault.Fault.TheVariants.{Memory};
ghost use Rattle.vast_calls.specs.declared.line.Call.TheVariants.{Step as StepCall};
ghost use Rattle.vast_session.specs.Internal.PackedCalls.{GavePacked, MadeAt, IsToldMispacked, TakesPacked, given_by};
ghost use Rattle.vast_calls.specs.PackedCalls.{IsUnpacked};

use crate::fault::{Fault, mispacked};
use crate::selects::keep_select;
use crate::session::{LineResult, Session};
use std::alloc::AllocError;
use vast_calls::{
    Action, Call, Misfit, PackedCall, Place, Problem, place_front, split_call, step_at, unpacked,
};
use vast_script::{StepFault, replay_step};
use vast_steps::Step;

impl Session {
    /// Takes the packed call at the front, and returns what it gave with what stands after it. Its number in the input is
    /// `number`.
    ///
    /// # Errors
    /// The call's fault. The file, the answers and the names are then as before, and the call is not counted.
    #[tactic(auto, using(crate::proofs::PackedSessions::fronts))]
    pub fn packed<'b>(
        &mut self,
        number: usize,
        bytes: &'b [u8],
    ) -> Result<(LineResult<'static>, &'b [u8]), Fault>
        ensures takes { MatchResult result
            (λ given. GivesFront self.old self.new bytes.now given.0 given.1.now)
            (IsLeft self.old self.new) }
        ensures unseen { IfErr result (λ fault. HasUnused self.old.file self.new.file) }
        ensures told { IfErr result (IsToldOfFront self.old self.new number bytes.now) }
    {
        let Some((call, behind)) = split_call(bytes) else {
            let left = bytes.len();
            let problem = Problem::NoLength;
            let alloc = self.file.allocator();
            return Err(mispacked(alloc, number, left, "", Misfit { left, problem }));
        };
        match self.packed_call(number, call) {
            Ok(given) => Ok((given, behind)),
            Err(fault) => Err(fault),
        }
    }

    /// Makes the packed call at the front where it is a step that is not refused, and returns what stands after it; `None`
    /// of any other, of which nothing changed. What this hands back is small, where a fault is large.
    ///
    /// # Errors
    /// Out of memory; the file's tree, the answers and the names are then as before.
    #[tactic(auto, using(crate::proofs::MadeSteps::fronts))]
    pub fn made_step<'b>(
        &mut self,
        number: usize,
        bytes: &'b [u8],
    ) -> Result<Option<&'b [u8]>, AllocError>
        ensures made { IfOk result (λ made. IfSome made
            (λ behind. GaveFront self.old self.new bytes.now behind.now)) }
        ensures same { result ≡ Ok None → IsSame self.old self.new }
        ensures left { OnErr result (IsLeft self.old self.new Memory) }
    {
        let Some((call, behind)) = split_call(bytes) else {
            return Ok(None);
        };
        match self.made_call(number, call) {
            Ok(true) => Ok(Some(behind)),
            Ok(false) => Ok(None),
            Err(error) => Err(error),
        }
    }

    /// The same of a call's bytes; whether it was made. Each group of calls has its own code here, in which a step takes as
    /// much room as those of the group.
    #[tactic(auto, using(crate::proofs::MadeSteps::calls))]
    fn made_call(&mut self, number: usize, bytes: &[u8]) -> Result<bool, AllocError>
        ensures made { result ≡ Ok true → GavePacked self.old self.new bytes.now }
        ensures same { result ≡ Ok false → IsSame self.old self.new }
        ensures left { OnErr result (IsLeft self.old self.new Memory) }
    {
        let Some((place, arguments)) = place_front(bytes) else {
            return Ok(false);
        };
        match place {
            Place::Operator(at) => self.made_at(number, Place::Operator(at), arguments),
            Place::Expression(at) => self.made_at(number, Place::Expression(at), arguments),
            Place::DataType(at) => self.made_at(number, Place::DataType(at), arguments),
            Place::Module(at) => self.made_at(number, Place::Module(at), arguments),
            Place::Loop(at) => self.made_at(number, Place::Loop(at), arguments),
            Place::Statement(at) => self.made_at(number, Place::Statement(at), arguments),
            Place::Artifact(at) => self.made_at(number, Place::Artifact(at), arguments),
            Place::Question(_) | Place::Helper(_) => Ok(false),
        }
    }

    /// The same of the call of this place, over the arguments.
    #[inline(always)]
    #[tactic(auto, using(crate::proofs::MadeSteps::places))]
    fn made_at(&mut self, number: usize, place: Place, arguments: &[u8]) -> Result<bool, AllocError>
        ensures made { result ≡ Ok true →
            MadeAt self.old self.new place arguments.now }
        ensures same { result ≡ Ok false → IsSame self.old self.new }
        ensures left { OnErr result (IsLeft self.old self.new Memory) }
    {
        let Ok(step) = step_at(self.known(), place, arguments) else {
            return Ok(false);
        };
        self.made_by(number, &step)
    }

    /// Makes the step and keeps its answer; whether it is not refused.
    #[inline(always)]
    #[tactic(auto, using(crate::proofs::MadeSteps::made))]
    fn made_by(&mut self, number: usize, step: &Step) -> Result<bool, AllocError>
        ensures made { result ≡ Ok true → IsMade self.old self.new (StepCall step.now) }
        ensures known { IsSameKnown self.old self.new }
        ensures same { result ≡ Ok false → IsSameFile self.old self.new }
        ensures left { OnErr result (IsFileLeft self.old self.new Memory) }
    {
        self.answers.reserve(1)?;
        self.selects.reserve(1)?;
        match replay_step(&mut self.file, &self.answers, step) {
            Ok(answer) => {
                keep_select(&mut self.selects, answer, number);
                self.answers.push_reserved(answer);
                Ok(true)
            }
            Err(StepFault::Memory) => Err(AllocError),
            Err(_) => Ok(false),
        }
    }

    /// Takes packed calls, up to the first at fault. They are numbered from 1.
    #[tactic(auto, using(crate::proofs::PackedSessions::running))]
    ///
    /// # Errors
    /// The fault of that call. What the calls before it made stays.
    pub fn packed_calls(&mut self, calls: &[u8]) -> Result<(), Fault>
        ensures { OnOk result (RunsAll self.old self.new calls.now) }
    {
        let mut rest = calls;
        let mut number: usize = 0;
        while !rest.is_empty() {
            number = number.saturating_add(1);
            match self.packed(number, rest) {
                Ok((_, behind)) => rest = behind,
                Err(fault) => return Err(fault),
            }
        }
        Ok(())
    }

    /// Takes a packed call: its bytes, without how many they are.
    #[tactic(auto, using(crate::proofs::PackedSessions::packed))]
    fn packed_call(&mut self, number: usize, bytes: &[u8]) -> Result<LineResult<'static>, Fault>
        ensures takes { TakesPacked self.old self.new bytes.now result }
        ensures unseen { IfErr result (λ fault. HasUnused self.old.file self.new.file) }
        ensures told { IfErr result (IsToldOfPacked self.old self.new number bytes.now) }
    {
        let packed = self.unpack(number, bytes)?;
        let given = self.act(number, bytes, &packed);
        drop(packed);
        given
    }

    /// Makes or answers what the bytes are.
    #[tactic(auto, using(crate::proofs::PackedSessions::packed))]
    fn act(
        &mut self,
        number: usize,
        bytes: &[u8],
        packed: &PackedCall,
    ) -> Result<LineResult<'static>, Fault>
        requires { IsUnpacked self.old.skipped.items bytes.now packed.now }
        ensures takes { TakesPacked self.old self.new bytes.now result }
        ensures unseen { IfErr result (λ fault. HasUnused self.old.file self.new.file) }
        ensures told { IfErr result (IsToldOfPacked self.old self.new number bytes.now) }
    {
        let call = packed.call;
        match &packed.action {
            Action::Ask(question) => {
                let value = self.ask(number, "", call, question)?;
                Ok(LineResult::Answer { call, value })
            }
            Action::Call(made) => {
                let step = self.counted();
                self.make(number, "", None, call, made)?;
                Ok(given(made, step, call))
            }
        }
    }

    #[tactic(auto, using(crate::proofs::PackedSessions::read_packed))]
    fn unpack(&self, number: usize, bytes: &[u8]) -> Result<PackedCall, Fault>
        ensures { MatchResult result
            (IsUnpacked self.now.skipped.items bytes.now) (IsToldMispacked number bytes.now) }
    {
        match unpacked(self.known(), bytes) {
            Ok(packed) => Ok(packed),
            Err(read) => {
                let alloc = self.file.allocator();
                Err(mispacked(alloc, number, bytes.len(), read.call, read.misfit))
            }
        }
    }
}

/// What a call gave that is counted.
fn given(made: &Call, number: usize, call: &'static str) -> LineResult<'static>
    ensures { result ≡ given_by number call.entry made.now }
{
    match made {
        Call::Step(_) => LineResult::Step { number, call },
        Call::Helper(_) => LineResult::Helper { number, call },
    }
}
