// The limits of a certificate (docs/CERTIFICATE.md, "Limits").

ghost use Rattle.std.specs.Prelude.{◌≡◌};
ghost use Rattle.cert_form.specs.Form.{CELL_LIMIT as Cells, INLINE_LIMIT as Inlines, PROC_LIMIT as Procs, ROW_LIMIT as Rows, SPLIT_LIMIT as Splits};

/// How many procedures a certificate may have.
pub const PROC_LIMIT: usize = 1_024;

/// How many splits a certificate may have.
pub const SPLIT_LIMIT: usize = 1_024;

/// How many inline calls a certificate may have.
pub const INLINE_LIMIT: usize = 1_024;

/// How many kept cells a certificate may have.
pub const CELL_LIMIT: usize = 256;

/// How many rows a certificate may have.
pub const ROW_LIMIT: usize = 65_535;

/// A law: the constants are the numbers of the definitions.
pub fn limits_of_a_certificate()
    ensures procs { PROC_LIMIT ≡ Procs }
    ensures splits { SPLIT_LIMIT ≡ Splits }
    ensures inlines { INLINE_LIMIT ≡ Inlines }
    ensures cells { CELL_LIMIT ≡ Cells }
    ensures rows { ROW_LIMIT ≡ Rows }
{}
