// Devices in memory that can fail at a chosen call, for tests.
#![tactic(auto)]

mod devices;

pub use devices::{Bytes, Taken};
