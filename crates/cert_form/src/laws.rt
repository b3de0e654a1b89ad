// Laws of the order of lines, and of the texts of certificates.

ghost use Rattle.std.specs.Prelude.{◌≡◌, ◌≤◌, length, take};
ghost use Rattle.cert_lines.specs.Line.{IsLine};
ghost use Rattle.cert_lines.specs.declared.line.Line.{Line};
ghost use Rattle.cert_form.specs.Contents.{CertificateView};
ghost use Rattle.cert_form.specs.Form.{IsCertificate, IsInForm};
ghost use Rattle.cert_form.specs.Reader.{IsProgress, MayFollow, NoneGoesOn, ReaderView, lines_read};
ghost use Rattle.cert_form.specs.Text.{lines_of, text_of};

/// A law: no two certificates have the same text, even if counts above their limits are allowed.
pub fn texts_tell_certificates()
    ensures { (c d : CertificateView) → IsCertificate c → IsCertificate d → text_of c ≡ text_of d
        → c ≡ d }
{}

/// A law: the lines that were read are the first ones of some certificate in form.
pub fn lines_read_begin_a_certificate()
    ensures { (p : ReaderView) → IsProgress p
        → (c : CertificateView) × IsInForm c × (length (lines_read p) ≤ length (lines_of c)) × (take (length (lines_read p)) (lines_of c) ≡ lines_read p) }
{}

/// A law: a line that is out of form, or that may not come next, is the next one of no certificate.
pub fn other_lines_begin_none()
    ensures { (p : ReaderView) (line : Line) → IsProgress p
        → (IsLine p.contents.version line → MayFollow p line → ⊥) → NoneGoesOn (lines_read p) line }
{}
