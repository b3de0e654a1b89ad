// Laws: what rows pay, at the values that activations see.

ghost use Rattle.check_laws.specs.PayingLaws.{WaysArePaid, ExitsArePaid, EntriesAreInTime, WorthIsBounded};

/// A law: if a row pays for the way to another row, its worth before the way is at least the cost of the way plus the
/// other row's worth after it.
pub fn ways_are_paid()
    ensures { WaysArePaid }
{}

/// A law: a row that pays a cost is worth at least that cost where it holds.
pub fn exits_are_paid()
    ensures { ExitsArePaid }
{}

/// A law: at the entry the worth of a row that keeps its procedure's time, plus the T-states before the entry, is at
/// most that time.
pub fn entries_are_in_time()
    ensures { EntriesAreInTime }
{}

/// A law: where it holds, a row of a certificate is worth at least -197,605,000,000 T-states.
pub fn worth_is_bounded()
    ensures { WorthIsBounded }
{}
