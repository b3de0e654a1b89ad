// Reads a certificate from a whole text.

ghost use Rattle.std.specs.Prelude.{◌≡◌, ℕ, IfOk, IsOkUnless};
ghost use Rattle.cert_form.specs.Contents.{CertificateView};
ghost use Rattle.cert_form.specs.Form.{IsInForm};
ghost use Rattle.cert_form.specs.Text.{HasHead, HasTooMany, IsFirstBadLine, text_of};

use cert_contents::{Certificate, Reader};
use cert_form::CertFault;
use std::alloc::Global;
use texts::split_once;

/// The longest line, without its line feed: a line is judged at its 1,048,576th byte.
pub(crate) const LONGEST_LINE: usize = 1_048_575;

/// Reads a certificate from its text (docs/CERTIFICATE.md). It takes memory for the lists and for the rows with their
/// shapes.
///
/// # Errors
///
/// The first fault, line by line (docs/CERTIFICATE.md, "What is refused"). `Line` has the number, counted from 1, of
/// the first line with which the lines so far begin no certificate. A missing line, one without its line feed, and
/// anything after the last line count as such a line. `Limit` comes where that line is out of form only because a count
/// is above its limit. `NoMemory` comes where memory was refused for a line of a list, so only after the line of the
/// budget.
pub fn read(alloc: Global, bytes: &[u8]) -> Result<Certificate, CertFault>
    // Ok: the certificate is in form, and the bytes are its text.
    ensures found { IfOk result (λ c. IsInForm c × (bytes.now ≡ text_of c)) }
    // The text of a certificate in form gives this certificate, unless memory is refused.
    ensures only { (c : CertificateView) → IsInForm c → bytes.now ≡ text_of c
        → IsOkUnless result CertFault.NoMemory × IfOk result (λ read. read ≡ c) }
    // Which bytes give the other faults.
    ensures line { (n : ℕ) → result ≡ Err (CertFault.Line n) → IsFirstBadLine n bytes.now }
    ensures limit { result ≡ Err CertFault.Limit → HasTooMany bytes.now }
    // Only the lists take memory, and they come after the budget.
    ensures memory { result ≡ Err CertFault.NoMemory → HasHead bytes.now }
{
    let mut reader = Reader::new(alloc);
    let mut rest = bytes;
    while let Some((line, after)) = split_once(rest, b'\n') {
        if line.len() > LONGEST_LINE {
            return Err(reader.bad_line());
        }
        reader.line(line)?;
        rest = after;
    }
    if !rest.is_empty() {
        return Err(reader.bad_line());
    }
    reader.end()
}
