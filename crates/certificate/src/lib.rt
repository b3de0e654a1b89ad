// Reads certificates from their text, whole or in pieces, and writes them (docs/CERTIFICATE.md).
#![tactic(auto)]

mod pieces;
mod reading;
mod writing;

pub use abs_state::Mode;
pub use cert_contents::{Certificate, Parts, RowId, migrate, migrate_to};
pub use cert_form::CertFault;
pub use cert_lines::{BoardMap, Proc, ProcKind, Row, RowRef, Split, Version};
pub use pieces::{ReadFault, read_from};
pub use reading::read;
pub use texts::{DeviceFault, Sink, Source};
pub use writing::write;
