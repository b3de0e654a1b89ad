// Migration to a later version.

ghost use Rattle.std.specs.Prelude.{◌≡◌, IfOk};
ghost use Rattle.cert_form.specs.Migrated.{migrated, migrated_to, with_flag_parts};
ghost use Rattle.cert_form.specs.Form.{IsInForm};

use crate::value::Certificate;
use cert_form::migrated_version;
use cert_lines::Version;
use std::alloc::AllocError;

/// The certificate in version 2 (docs/CERTIFICATE.md, "To version 2"). From version 1 it gets the Galaxian board, no
/// cells and none armed; everything else stays. A certificate of version 2 or 3 stays as it is. No memory is taken.
pub fn migrate(certificate: Certificate) -> Certificate
    ensures value { result ≡ migrated certificate }
    ensures form { IsInForm result }
{
    let mut draft = certificate.into_draft();
    let version = migrated_version(draft.version);
    draft.version = version;
    Certificate { draft }
}

/// The certificate in this version, or as it is if its own is later (docs/CERTIFICATE.md, "Migration"). For version 3
/// it gets flag parts in place of its flag facts. It fails only where memory for these is refused.
pub fn migrate_to(version: Version, certificate: Certificate) -> Result<Certificate, AllocError>
    ensures value { IfOk result (λ c. c ≡ migrated_to version certificate) }
    ensures form { IfOk result (λ c. IsInForm c) }
{
    match version {
        Version::One => {
            certificate.is_in_form();
            Ok(certificate)
        }
        Version::Two => Ok(migrate(certificate)),
        Version::Three => with_flag_parts(migrate(certificate)),
    }
}

/// The certificate in version 3, with flag parts in place of its flag facts. It fails where memory for these is
/// refused.
fn with_flag_parts(certificate: Certificate) -> Result<Certificate, AllocError>
    ensures value { IfOk result (λ c. c ≡ with_flag_parts certificate) }
    ensures form { IfOk result (λ c. IsInForm c) }
{
    let mut draft = certificate.into_draft();
    draft.version = Version::Three;
    draft.rows.use_flag_parts()?;
    Ok(Certificate { draft })
}
