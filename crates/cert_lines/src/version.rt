// The version of a certificate's text, and the board that it names.

ghost use Rattle.std.specs.Prelude.{◌+◌, ◌≡◌, ◌≤◌, ◌<◌, ◌↔◌, IsTrue, length};
ghost use Rattle.texts.specs.Numbers.{Always, Reads};
ghost use Rattle.address_map.specs.Boards.{galaxian, raised};
ghost use Rattle.cert_lines.specs.Version.{board_name, flag_form, names_board, work_start_of};
ghost use Rattle.cert_lines.specs.BoardMaps.{map_named};

use address_map::Map;
use cert_flags::FlagForm;

/// The version of a certificate's text (docs/CERTIFICATE.md).
#[derive(Clone, Copy, PartialEq, Eq)]
pub enum Version {
    /// For the Galaxian board, without kept cells.
    One,
    /// Names the board's map, and may have kept cells.
    Two,
    /// As version 2, with flag parts in place of a flag fact.
    Three,
}

impl Version {
    /// Whether the version names the board's map. It then may have kept cells, and each row says how many are armed.
    pub fn names_board(self) -> bool
        ensures { result ≡ names_board self }
    {
        match self {
            Version::One => false,
            Version::Two | Version::Three => true,
        }
    }

    /// The form of the FLAG field in the version's rows.
    pub fn flag_form(self) -> FlagForm
        ensures { result ≡ flag_form self }
    {
        match self {
            Version::One | Version::Two => FlagForm::Fact,
            Version::Three => FlagForm::Parts,
        }
    }
}

/// How many addresses the stack and the kept cells may use: the first 400h of work RAM.
pub const WORK_LEN: u16 = 0x400;

/// The address maps that a certificate can name (docs/BOARD.md, "Addresses").
#[derive(Clone, Copy, PartialEq, Eq)]
pub enum BoardMap {
    Galaxian,
    Raised,
}

impl BoardMap {
    /// Every board, the one that needs no name first.
    pub const ALL: [BoardMap; 2] = [BoardMap::Galaxian, BoardMap::Raised];

    /// The map with this name, for a ROM of 1 to 16,384 bytes.
    pub fn map(self, rom_len: u16) -> Map
        requires some { 1 ≤ rom_len }
        requires fits { rom_len ≤ 0x4000 }
        ensures value { result ≡ map_named self rom_len }
        ensures length { result.rom_len ≡ rom_len }
    {
        match self {
            BoardMap::Galaxian => Map::galaxian(rom_len),
            BoardMap::Raised => Map::raised(rom_len),
        }
    }

    /// The name, in a certificate and in annotations.
    pub fn name(self) -> &'static [u8]
        ensures value { result.now ≡ board_name self }
        ensures short { length result.now ≤ 8 }
    {
        match self {
            BoardMap::Galaxian => b"galaxian",
            BoardMap::Raised => b"raised",
        }
    }

    /// The board of a name, or None where no board has it.
    pub fn named(name: &[u8]) -> Option<BoardMap>
        ensures { Reads board_name Always name.now result }
    {
        if name == BoardMap::Galaxian.name() {
            Some(BoardMap::Galaxian)
        } else if name == BoardMap::Raised.name() {
            Some(BoardMap::Raised)
        } else {
            None
        }
    }

    /// Whether an address is one of those that the stack and the kept cells may use.
    pub fn is_in_work(self, address: u16) -> bool
        ensures { IsTrue result
            ↔ ((work_start_of self ≤ address) × (address < work_start_of self + 1024)) }
    {
        let start = self.work_start();
        start <= address && address - start < WORK_LEN
    }

    /// The first address of work RAM, 4000 or 8000.
    pub fn work_start(self) -> u16
        ensures { result ≡ work_start_of self }
    {
        match self {
            BoardMap::Galaxian => 0x4000,
            BoardMap::Raised => 0x8000,
        }
    }
}
