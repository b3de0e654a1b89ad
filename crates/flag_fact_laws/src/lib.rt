// A law: a flag fact, and the flag parts that stand for it in a later version of a certificate, say the same of the
// machine (docs/CERTIFICATE.md, "To version 3").
#![tactic(auto)]

mod meaning;

pub use meaning::flag_fact_is_its_parts;
