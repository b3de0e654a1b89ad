// What no command line can show of the commands: the order in which they use devices, devices that fail, memory that is
// refused, and single functions of resets and summaries. The rest is in tests/cases and tools/program.sh.
#![tactic(auto)]

#[cfg(test)]
mod checks_over;
#[cfg(test)]
mod commands_over;
#[cfg(test)]
mod device_order;
#[cfg(test)]
mod failures;
#[cfg(test)]
mod memory;
#[cfg(test)]
mod samples;
#[cfg(test)]
mod summaries;
