//! Packed calls.

ghost use Rattle.std.specs.Prelude.{◌≡◌, IfOk, IfSome, MatchResult, Some};
ghost use Rattle.vast_calls.specs.PackedCalls.{IsCallFront, IsCallSplit, IsPlaceFront, IsStepAt, IsUnpacked, NamesPacked};
ghost use Rattle.vast_calls.specs.CallNumbers.{name_at};

use crate::arguments::{Arguments, Known, Rest};
use crate::calls::make_step;
use crate::line::{Action, Misread, action_of};
use crate::packed::number_front;
use crate::problem::{Misfit, Problem};
use crate::table::numbered::Place;
use vast_steps::Step;

/// A packed call.
#[derive(Drop)]
pub struct PackedCall {
    /// The call's name, its sign included.
    pub call: &'static str,
    /// What it does.
    pub action: Action,
}

/// Reads a packed call.
///
/// # Errors
/// Where the bytes are no call, and out of memory.
#[tactic(auto, using(crate::proofs::CallFronts::unpacking))]
pub fn unpacked(known: Known<'_>, bytes: &[u8]) -> Result<PackedCall, Misread<'static>>
    ensures { MatchResult result
        (IsUnpacked known.entry.skipped.now bytes.now)
        (λ read. NamesPacked bytes.now read.call.now) }
{
    let (place, call, behind) = match call_front(bytes) {
        Ok(front) => front,
        Err(misfit) => return Err(Misread { call: "", misfit }),
    };
    let mut arguments = Arguments::new(known, Rest::Packed(behind));
    match action_of(place, &mut arguments) {
        Ok(action) => Ok(PackedCall { call, action }),
        Err(misfit) => Err(Misread { call, misfit }),
    }
}

/// The first call's bytes, which stand after how many they are, and what stands after them.
#[inline(always)]
#[tactic(auto, using(crate::proofs::CallFronts::splitting))]
pub fn split_call(bytes: &[u8]) -> Option<(&[u8], &[u8])>
    ensures { IfSome result (λ split. IsCallSplit bytes.now split.0.now split.1.now) }
{
    let Some((length, behind)) = number_front(bytes) else {
        return None;
    };
    behind.split_at_checked(length)
}

/// The call whose number stands at the front, and what stands after that.
#[inline(always)]
pub fn place_front(bytes: &[u8]) -> Option<(Place, &[u8])>
    ensures { IfSome result (λ read. IsPlaceFront bytes.now read.0 read.1.now) }
{
    let Some((number, behind)) = number_front(bytes) else {
        return None;
    };
    match Place::numbered(number) {
        Some(place) => Some((place, behind)),
        None => None,
    }
}

/// The step of this place, over the arguments of a packed call.
///
/// # Errors
/// Where the place is no step's or the bytes are not its arguments, and out of memory.
#[inline(always)]
#[tactic(auto, using(crate::proofs::CallFronts::steps))]
pub fn step_at(known: Known<'_>, place: Place, arguments: &[u8]) -> Result<Step, Misfit>
    ensures { IfOk result (IsStepAt known.entry.skipped.now place arguments.now) }
{
    let mut arguments = Arguments::new(known, Rest::Packed(arguments));
    make_step(place, &mut arguments)
}

/// The call whose number stands at the front, its name, and what stands after that.
#[tactic(auto, using(crate::proofs::CallRows::named))]
fn call_front(bytes: &[u8]) -> Result<(Place, &'static str, &[u8]), Misfit>
    ensures place { IfOk result (λ read. name_at read.0 ≡ Some read.1.now) }
    ensures front { IfOk result (λ read. IsCallFront bytes.now read.1.now read.2.now) }
{
    let left = bytes.len();
    let problem = Problem::NoCall;
    let Some((number, behind)) = number_front(bytes) else {
        return Err(Misfit { left, problem });
    };
    let Some(place) = Place::numbered(number) else {
        return Err(Misfit { left, problem });
    };
    match place.row() {
        Some(row) => Ok((place, row.name(), behind)),
        None => Err(Misfit { left, problem }),
    }
}
