// What the checker accepted.

ghost use Rattle.std.specs.Prelude.{◌≡◌, ◌<◌, ℕ, IfOk, length};
ghost use Rattle.std.specs.List.{All};
ghost use Rattle.address_map.specs.Starts.{is_start};
ghost use Rattle.board_step.specs.Safe.{Safe};
ghost use Rattle.board_step.specs.State.{AreBytes};
ghost use Rattle.cert_checker.specs.CodeOf.{IsCodeOf};
ghost use Rattle.cert_checker.specs.Means.{Means};
ghost use Rattle.cert_form.specs.Contents.{map_of_board};
ghost use Rattle.cert_lines.specs.declared.row.Row.{Row};
ghost use Rattle.check_laws.specs.Acceptance.{Accepts};
ghost use Rattle.check_laws.specs.Profile.{certified_profile, has_row, nmi_time};

use address_map::{Map, Rom, Starts};
use certificate::Certificate;
use code_map::CodeMap;
use std::alloc::{AllocError, Global};
use std::marker::Model;

/// A ROM with the certificate that the checker accepted for it, and the instructions that start at its rows. The
/// invariant keeps what `check` proved: every run of the board on this ROM is safe.
#[derive(Drop)]
pub struct Accepted<'r> {
    rom: Rom<'r>,
    map: Map,
    certificate: Certificate,
    code: CodeMap<'r>,
}

impl<'r> Model for Accepted<'r> {
    ghost use Rattle.std.specs.Prelude.{◌≡◌};
    ghost use Rattle.board_step.specs.Safe.{Safe};
    ghost use Rattle.cert_checker.specs.Certified.{AcceptedView};
    ghost use Rattle.cert_checker.specs.CodeOf.{IsCodeOf};
    ghost use Rattle.cert_form.specs.Contents.{map_of_board};
    ghost use Rattle.check_laws.specs.Acceptance.{Accepts};
    ghost use Rattle.check_laws.specs.Profile.{certified_profile, nmi_time};

    ghost Value = { AcceptedView };

    ghost view = { λ a. record { rom = a.rom; certificate = a.certificate } };

    ghost invariant = { λ a. Accepts a.rom a.certificate × Safe (certified_profile a.rom a.certificate) (nmi_time a.certificate)
        × (a.map ≡ map_of_board a.certificate) × IsCodeOf record { rom = a.rom; certificate = a.certificate } a.code };
}

/// A law: the elements of a slice of bytes are bytes.
fn bytes_are_in_range(bytes: &[u8])
    ensures { AreBytes bytes.now }
{}

/// A law: what acceptance means.
pub(crate) fn acceptance_means(rom: &[u8], certificate: &Certificate)
    requires { Accepts rom.now certificate.now }
    ensures { Means rom.now certificate.now }
{
    bytes_are_in_range(rom);
    certificate.is_in_form();
}

/// The set of the rows' addresses.
fn starts_of(certificate: &Certificate) -> Starts
    requires { All (λ (row : Row). row.address < 0x4000) certificate.now.rows }
    ensures { (address : ℕ) → is_start result address ≡ has_row certificate.now.rows address }
{
    let mut starts = Starts::new();
    for id in 0..certificate.row_count() {
        if let Some(row) = certificate.row(id) {
            starts.insert(row.address);
        }
    }
    starts
}

impl<'r> Accepted<'r> {
    /// Keeps an accepted certificate with its ROM, and decodes the instructions at its rows. The error is refused
    /// memory.
    pub(crate) fn of(
        alloc: Global,
        rom: &'r [u8],
        certificate: Certificate,
    ) -> Result<Accepted<'r>, AllocError>
        requires { Accepts rom.now certificate }
        ensures kept { IfOk result (λ accepted. (accepted.rom ≡ rom.now)
            × (accepted.certificate ≡ certificate)) }
    {
        acceptance_means(rom, &certificate);
        let (Some(own), Some(lent)) = (Rom::of(rom), Rom::of(rom)) else {
            unreachable!();
        };
        let map = certificate.board().map(own.len());
        let code = CodeMap::of(alloc, lent, starts_of(&certificate))?;
        Ok(Accepted {
            rom: own,
            map,
            certificate,
            code,
        })
    }

    /// The certificate that was accepted.
    pub fn certificate(&self) -> &Certificate
        ensures value { result.now ≡ self.now.certificate }
        ensures accepted { Accepts self.now.rom result.now }
    {
        &self.certificate
    }

    /// The certificate that was accepted, without the rest.
    pub fn into_certificate(self) -> Certificate
        ensures { result ≡ self.entry.certificate }
    {
        self.certificate
    }

    /// The ROM for which the certificate was accepted.
    pub fn rom(&self) -> &Rom<'r>
        ensures value { result.now ≡ self.now.rom }
        ensures safe { Safe (certified_profile result.now self.now.certificate)
            (nmi_time self.now.certificate) }
    {
        &self.rom
    }

    /// The address map of the board that the certificate names.
    pub fn map(&self) -> &Map
        ensures value { result.now ≡ map_of_board self.now.certificate }
        ensures length { result.now.rom_len ≡ length self.now.rom }
    {
        &self.map
    }

    /// The instructions that start at the certificate's rows, decoded once.
    pub fn code(&self) -> &CodeMap<'r>
        ensures { IsCodeOf self.now result.now }
    {
        &self.code
    }
}
