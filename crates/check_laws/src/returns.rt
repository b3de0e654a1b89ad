// Laws: a jump leads to a row, and a call comes back to one.

ghost use Rattle.check_laws.specs.ReturnsLaws.{WaysLeadToARow, RestartsLeadToMain, CallsComeBackCame, CallsComeBackLands};

/// A law: a jump of an activation leads to a row that holds. A restart leads to a row of main that holds without words,
/// whatever the pairs were at an entry.
pub fn ways_lead_to_a_row()
    ensures goes_on { WaysLeadToARow }
    ensures restarts { RestartsLeadToMain }
{}

/// A law: a call comes back to a row of the caller, wherever the callee left, with the words that the caller had at the
/// call. The values after it come from those before by the effect of the call with the callee's run.
pub fn calls_come_back()
    ensures came { CallsComeBackCame }
    ensures lands { CallsComeBackLands }
{}
