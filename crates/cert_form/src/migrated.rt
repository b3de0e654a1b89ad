// The version to which a certificate is migrated.

ghost use Rattle.std.specs.Prelude.{◌≡◌};
ghost use Rattle.cert_form.specs.Migrated.{migrated_version};

use cert_lines::Version;

/// Version 2 for version 1, and a later version itself (docs/CERTIFICATE.md, "To version 2").
pub fn migrated_version(version: Version) -> Version
    ensures { result ≡ migrated_version version }
{
    match version {
        Version::One | Version::Two => Version::Two,
        Version::Three => Version::Three,
    }
}
