//! The words of errors.

use std::alloc::{AllocError, AllocFailed};
use std::test::Fail;
use xlsynth_vast::{FileIds, VastError, VastFault, VastFile, VastFileType};

#[test]
fn want_of_memory_is_said_in_words(rt: HostRuntime) -> Result<(), Fail> {
    let fault = VastFault::Memory(AllocError);
    assert_eq!(rt; fault.to_string(rt.alloc())?.as_str(), "out of memory");
    Ok(())
}

#[test]
fn a_refusal_is_said_in_its_own_words(rt: HostRuntime) -> Result<(), Fail> {
    let error = VastError(String::from_str(rt.alloc(), "no such form")?);
    assert_eq!(rt; error.to_string(rt.alloc())?.as_str(), "no such form");
    let fault = VastFault::Refused(error);
    assert_eq!(rt; fault.to_string(rt.alloc())?.as_str(), "no such form");
    Ok(())
}

#[test]
fn spent_ids_are_said_in_words(rt: HostRuntime) -> Result<(), Fail> {
    let mut ids = FileIds::after(u64::MAX);
    let words = match VastFile::new(rt.alloc(), VastFileType::Verilog, &mut ids) {
        Ok(_) => String::new(rt.alloc()),
        Err(spent) => spent.to_string(rt.alloc())?,
    };
    assert_eq!(rt; words.as_str(), "file ids are spent");
    assert!(rt; ids.is_spent());
    Ok(())
}

#[test]
fn a_refusal_is_copied(rt: HostRuntime) -> Result<(), Fail> {
    let error = VastError(String::from_str(rt.alloc(), "no")?);
    let copy = error.clone(rt.alloc())?;
    assert!(rt; copy == error);
    Ok(())
}
