// How often a device failed, and why.

ghost use Rattle.texts.specs.Device.{HasGrown};

use std::fmt::{Display, Formatter};
use std::{fmt, io};
use texts::DeviceFault;

/// What was tried when a device failed.
#[derive(Clone, Copy)]
pub enum DeviceCall {
    Open,
    Read,
    Create,
    Write,
    /// The whole file should take its name.
    Rename,
}

impl Display for DeviceCall {
    fn fmt<W: fmt::Write>(&self, f: &mut Formatter<W>) -> fmt::Result {
        f.pad(match self {
            DeviceCall::Open => "open",
            DeviceCall::Read => "read",
            DeviceCall::Create => "create",
            DeviceCall::Write => "write",
            DeviceCall::Rename => "replace",
        })
    }
}

/// Why a device failed.
#[derive(Clone, Copy)]
pub struct Failure {
    pub call: DeviceCall,
    /// What the system says; None where it took no bytes and said nothing.
    pub error: Option<io::Error>,
}

/// How often a device failed, at most 2^64 - 1, and why it did first.
#[derive(Drop)]
pub(crate) struct Failures {
    pub(crate) count: u64,
    pub(crate) first: Option<Failure>,
}

impl Failures {
    /// No failure.
    pub(crate) fn none() -> Failures {
        Failures {
            count: 0,
            first: None,
        }
    }

    /// Counts one more.
    pub(crate) fn fail(&mut self, call: DeviceCall, error: Option<io::Error>) -> DeviceFault
        ensures { HasGrown self.old.count self.new.count }
    {
        self.count = self.count.saturating_add(1);
        if self.first.is_none() {
            self.first = Some(Failure { call, error });
        }
        DeviceFault
    }
}
