// The parts of a report on memory: the bytes of the ROM, RAM, stores, and the NMI enable.
#![tactic(auto)]

mod enable;
mod ram_map;
mod rom_map;
mod stores;

pub use enable::add_enable;
pub use ram_map::add_ram;
pub use rom_map::add_rom;
pub use stores::add_stores;
