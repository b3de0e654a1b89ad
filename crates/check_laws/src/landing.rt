// Laws: a covered state that arrives lands at a row.

ghost use Rattle.check_laws.specs.LandingLaws.{CoveredStatesLand, CoveredAddressesHaveRows};

/// A law: a state that arrives, holds of the machine and is covered lands: some row at its address holds of the
/// machine, and so do its facts. A split at the address changes nothing in this.
pub fn covered_states_land()
    ensures { CoveredStatesLand }
{}

/// A law: there is a row at each address where a state is covered whose pairs hold of some registers.
pub fn covered_addresses_have_rows()
    ensures { CoveredAddressesHaveRows }
{}
