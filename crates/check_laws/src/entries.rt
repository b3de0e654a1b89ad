// Laws: main code, the NMI routine and callees begin at rows.

ghost use Rattle.check_laws.specs.EntriesLaws.{MainBeginsAtARow, NmiBeginsAtARow, CalleesBeginAtARow};

/// A law: main code begins at a row, whatever the pairs hold, if no NMI may come and it has no words yet.
pub fn main_begins_at_a_row()
    ensures { MainBeginsAtARow }
{}

/// A law: the NMI routine begins at a row, with each pair its own origin, if each kept cell holds a byte of its range.
pub fn nmi_begins_at_a_row()
    ensures { NmiBeginsAtARow }
{}

/// A law: a callee begins at a row, with each pair its own origin, if the caller's state at the call holds.
pub fn callees_begin_at_a_row()
    ensures { CalleesBeginAtARow }
{}
