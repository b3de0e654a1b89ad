// The tests of z80_alu, z80_decode, t_states and disassembly.
#![tactic(auto)]

#[cfg(test)]
mod alu;
#[cfg(test)]
mod code_texts;
#[cfg(test)]
mod codes;
#[cfg(test)]
mod costs;
#[cfg(test)]
mod decode;
#[cfg(test)]
mod pages;
#[cfg(test)]
mod text_parts;
