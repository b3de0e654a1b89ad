// Memory is refused once, at each growth in turn (`tools/memory.sh`): the call answers `NoMemory`, and the next is
// right.

use crate::accessors::is_every_form;
use crate::parts::made_again;
use crate::samples::EVERY_FORM;
use certificate::{CertFault, Certificate, ReadFault, read, read_from};
use memory_devices::Bytes;
use std::alloc::Global;
use std::test::Fail;

/// A call that makes the certificate of `EVERY_FORM`.
#[derive(Clone, Copy)]
enum Call {
    Read,
    ReadFrom,
    Of,
}

/// What a call answers: the certificate, that memory was refused, or something else.
#[derive(Clone, Copy, PartialEq, Eq)]
enum Told {
    Made,
    Refused,
    Wrong,
}

fn told_of(certificate: &Certificate) -> Told {
    if is_every_form(certificate) {
        Told::Made
    } else {
        Told::Wrong
    }
}

fn told_of_fault(is_refused: bool) -> Told {
    if is_refused {
        Told::Refused
    } else {
        Told::Wrong
    }
}

fn told_of_read(alloc: Global) -> Told {
    match read(alloc, EVERY_FORM.as_bytes()) {
        Ok(certificate) => told_of(&certificate),
        Err(fault) => told_of_fault(fault == CertFault::NoMemory),
    }
}

/// The source gives a hundred bytes at once.
fn told_of_read_from(alloc: Global) -> Told {
    match read_from(
        alloc,
        &mut Bytes::failing(EVERY_FORM.as_bytes(), 100, u64::MAX),
    ) {
        Ok(certificate) => told_of(&certificate),
        Err(fault) => told_of_fault(fault == ReadFault::NoMemory),
    }
}

fn told_of_parts(alloc: Global, certificate: &Certificate) -> Told {
    match made_again(alloc, certificate) {
        Ok(made) => told_of(&made),
        Err(fault) => told_of_fault(fault == CertFault::NoMemory),
    }
}

fn told_of_made(alloc: Global) -> Told {
    match read(alloc, EVERY_FORM.as_bytes()) {
        Ok(certificate) => told_of_parts(alloc, &certificate),
        Err(fault) => told_of_fault(fault == CertFault::NoMemory),
    }
}

fn told_by(alloc: Global, call: Call) -> Told {
    match call {
        Call::Read => told_of_read(alloc),
        Call::ReadFrom => told_of_read_from(alloc),
        Call::Of => told_of_made(alloc),
    }
}

const CALLS: &[(Call, &str)] = &[
    (Call::Read, "refused in read"),
    (Call::ReadFrom, "refused in read_from"),
    (Call::Of, "refused in Certificate::of, or before it"),
];

/// A refused call is repeated.
#[test]
fn made_by_each(rt: HostRuntime) -> Result<(), Fail> {
    for &(call, report) in CALLS {
        let mut told = told_by(rt.alloc(), call);
        if told == Told::Refused {
            println!(rt; "{report}")?;
            told = told_by(rt.alloc(), call);
        }
        assert!(rt; told == Told::Made);
    }
    Ok(())
}
