// Reads a certificate from a source, piece by piece.

ghost use Rattle.std.specs.Prelude.{◌≡◌, ◌≢◌, ℕ, [], Some, IfOk, Err};
ghost use Rattle.cert_form.specs.Contents.{CertificateView};
ghost use Rattle.cert_form.specs.Form.{IsInForm};
ghost use Rattle.cert_form.specs.Text.{HasTooMany, IsFirstBadLine, text_of};
ghost use Rattle.certificate.specs.Pieces.{GivesAll, GivesSome, IsReadUnless, OfBytes, read_fault};
ghost use Rattle.texts.specs.Device.{HasFailed, CountsNoFailure};

use crate::reading::LONGEST_LINE;
use cert_contents::{Certificate, Reader};
use cert_form::CertFault;
use std::alloc::Global;
use texts::{Incoming, LineEnd, LineFault, Source};
use thiserror::Error;

/// Why no certificate was read from a source.
#[derive(Clone, Copy, Debug, Error, PartialEq, Eq)]
pub enum ReadFault {
    /// The number, counted from 1, of the first line with which the lines so far begin no certificate.
    #[error("bad certificate line {0}")]
    Line(u64),
    /// The lines before this one begin a certificate, and this one is out of form only because a count is above its
    /// limit.
    #[error("bad certificate limit")]
    Limit,
    /// Memory was refused, for a part of the certificate or for one of its lines.
    #[error("out of memory")]
    NoMemory,
    /// The source failed.
    #[error("the certificate cannot be read")]
    Read,
}

impl From<CertFault> for ReadFault {
    ghost from_gives = { λ fault e. e ≡ read_fault fault };

    fn from(fault: CertFault) -> ReadFault {
        match fault {
            CertFault::Line(number) => ReadFault::Line(number),
            CertFault::Limit => ReadFault::Limit,
            CertFault::NoMemory => ReadFault::NoMemory,
        }
    }
}

/// Reads a certificate from a source, in pieces as the source gives them. It answers what `read` answers for all bytes
/// of the source. It takes memory for the lists, the rows with their shapes, and one line.
///
/// # Errors
///
/// `Line` and `Limit` come as in `read`. A line is judged once its line feed, its 1,048,576th byte or the end of the
/// source was read; nothing is read after that before its fault is answered. `Read` comes where the source failed.
/// `NoMemory` comes where memory was refused for a byte of a line, or for a line of a list.
pub fn read_from<R: Source>(alloc: Global, input: &mut R) -> Result<Certificate, ReadFault>
    // Ok: the certificate is in form, and the source gave its text and has no bytes left.
    ensures form { IfOk result IsInForm }
    ensures found { IfOk result (λ c. GivesAll (R.state input.old) (text_of c) (R.state input.new)) }
    // The text of a certificate in form gives this certificate, unless memory is refused or the source fails.
    ensures only { (c : CertificateView) → IsInForm c → (R.state input.old).bytes ≡ Some (text_of c)
        → IsReadUnless result c }
    // Which bytes give the other faults.
    ensures line { (n : ℕ) → result ≡ Err (ReadFault.Line n)
        → OfBytes (R.state input.old).bytes (IsFirstBadLine n) }
    ensures limit { result ≡ Err ReadFault.Limit → OfBytes (R.state input.old).bytes HasTooMany }
    // Memory is first taken for the line that a byte begins, so the source had at least one byte.
    ensures memory { result ≡ Err ReadFault.NoMemory
        → OfBytes (R.state input.old).bytes (λ bytes. bytes ≢ []) }
    // Where the source did not fail, it gave a prefix of its bytes and still has the rest.
    ensures taken { result ≢ Err ReadFault.Read
        → GivesSome (R.state input.old) (R.state input.new) }
    // The answer is `Read` exactly where the source counted a failure.
    ensures quiet { result ≢ Err ReadFault.Read
        → CountsNoFailure (R.state input.old) (R.state input.new) }
    ensures failed { result ≡ Err ReadFault.Read
        → HasFailed (R.state input.old) (R.state input.new) }
{
    let mut reader = Reader::new(alloc);
    let mut incoming = Incoming::new();
    let mut line = Vec::new(alloc);
    loop {
        match incoming.next_long_line(input, &mut line, LONGEST_LINE) {
            Ok(LineEnd::Feed) => reader.line(line.as_slice())?,
            Ok(LineEnd::Bad) => return Err(ReadFault::from(reader.bad_line())),
            Ok(LineEnd::Nothing) => return Ok(reader.end()?),
            Err(LineFault::Read) => return Err(ReadFault::Read),
            Err(LineFault::NoMemory) => return Err(ReadFault::NoMemory),
        }
    }
}
