// Sets the bounds of a certificate that was made without them.

ghost use Rattle.cert_writer.specs.Same.{SaysTheSame};

use crate::calls::RankedDepth;
use crate::fault::WriterFault;
use crate::layout::Layout;
use analysis::Flow;
use certificate::Certificate;
use loop_bounds::Linear;

/// Sets the depths of the procedures, and the times of the timed ones. A depth above 65,535 bytes is a limit.
pub(crate) fn set_bounds(
    certificate: &mut Certificate,
    flow: &Flow,
    layout: &Layout,
    under: &[RankedDepth],
    times: &[u32],
) -> Result<(), WriterFault>
    ensures { SaysTheSame certificate.old certificate.new }
{
    for id in 0..under.len() {
        let Ok(depth) = u16::try_from(under[id].depth) else {
            return Err(WriterFault::Limit);
        };
        let time = if flow.is_timed(layout.proc_at(id)) {
            Some(times.get(id).copied().unwrap_or(0))
        } else {
            None
        };
        if !certificate.set_bounds(id.min(65_535) as u16, depth, time) {
            return Err(WriterFault::Limit);
        }
    }
    Ok(())
}

/// Sets the potentials of the rows that have one.
pub(crate) fn set_potentials(
    certificate: &mut Certificate,
    potentials: &[Option<Linear>],
) -> Result<(), WriterFault>
    ensures { SaysTheSame certificate.old certificate.new }
{
    for id in 0..certificate.row_count() {
        if let Some(potential) = potentials.get(id as usize).copied().flatten() {
            if !certificate.set_potential(id, potential) {
                return Err(WriterFault::Limit);
            }
        }
    }
    Ok(())
}
