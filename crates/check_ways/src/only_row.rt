// Whether only one row stands at an address. Such a row is asked, whatever it says.

ghost use Rattle.std.specs.Prelude.{◌↔◌, IsTrue};
ghost use Rattle.check_ways.specs.Pays.{AreOne, IsLone};

use call_graph::ProcId;
use cert_contents::Certificate;
use check_cover::split_at;

/// Whether at most one row of the procedure is at the address, and no split. Such a row is asked, whatever it says
/// (docs/CHECKER.md, "Paying").
pub fn is_lone(certificate: &Certificate, proc: ProcId, address: u16) -> bool
    ensures { IsTrue result ↔ IsLone certificate.now proc address }
{
    split_at(certificate, proc, address).is_none() && has_one_row(certificate, proc, address)
}

fn has_one_row(certificate: &Certificate, proc: ProcId, address: u16) -> bool
    ensures { IsTrue result ↔ AreOne certificate.now proc address }
{
    let rows = certificate.rows_at(proc, address);
    rows.end.saturating_sub(rows.start) <= 1
}
