// ROMs and certificates for the tests, and what the commands print of them.

use std::alloc::{AllocError, Global};

/// LD SP,4400H; JP 0003H
pub const JUMP: &[u8] = &[0x31, 0x00, 0x44, 0xC3, 0x03, 0x00];

/// LD SP,4400H; LD A,12H; LD (nn),A to 4000, to 5000 and 57FF, and to 5800, 5901 and 5FFF; JR -2
pub const STORES: &[u8] = &[
    0x31, 0x00, 0x44, 0x3E, 0x12, 0x32, 0x00, 0x40, 0x32, 0x00, 0x50, 0x32, 0xFF, 0x57, 0x32, 0x00,
    0x58, 0x32, 0x01, 0x59, 0x32, 0xFF, 0x5F, 0x18, 0xFE,
];

/// The text of a certificate (docs/CERTIFICATE.md). It takes the length of the ROM in bytes, the stack's region, main's
/// depth in bytes (0 if none is given), and the address and mode of each row.
macro_rules! certificate_text {
    ($len:literal, $region:literal, depth $depth:literal, $($row:literal),*) => {
        concat!(
            "galcert 1\nrom ", $len, "\nstack ", $region, "\nbudget -\nproc main 0000 0 ", $depth, " -\n",
            $("row 0 ", $row, " * * * * * * * * * * - - - -\n",)*
            "end\n"
        )
    };
    ($len:literal, $region:literal, $($row:literal),*) => {
        certificate_text!($len, $region, depth 0, $($row),*)
    };
}

/// The text of a certificate (docs/CERTIFICATE.md). It takes the version and the lines before the rows. Each row of
/// main has its address and mode (and in version 2 its armed cells), its ranges of AF, BC, DE and HL, and its last four
/// fields. Each row of another procedure has its procedure too. Those rows keep IX, IY and the alternate set unchanged.
macro_rules! rows_text {
    ($version:literal, $head:literal; $($main:literal $pairs:literal $rest:literal),*; $($row:literal $own:literal $last:literal),*) => {
        concat!(
            "galcert ", $version, "\n", $head, "\n",
            $("row 0 ", $main, " ", $pairs, " * * * * * * ", $rest, "\n",)*
            $("row ", $row, " ", $own, " *@IX *@IY *@AF' *@BC' *@DE' *@HL' ", $last, "\n",)*
            "end\n"
        )
    };
}

pub(crate) use rows_text;

/// The certificate of `STORES`.
pub const STORES_CERTIFICATE: &str = certificate_text!(
    25,
    "4380 4400",
    "0000 u",
    "0003 s",
    "0005 s",
    "0008 s",
    "000B s",
    "000E s",
    "0011 s",
    "0014 s",
    "0017 s"
);

/// The certificate of `JUMP`.
pub const JUMP_CERTIFICATE: &str = certificate_text!(6, "4380 4400", "0000 u", "0003 s");

/// What `verify` prints for main with depth 0, a stack of 128 bytes and no NMI routine.
pub const TABLE: &str = "accepted\nmain 0000 depth     0 time      -\nstack 0 of 128\nnmi none\n";

/// The certificate of `JUMP` without the row of the second instruction.
pub const ROW_MISSING: &str = certificate_text!(6, "4380 4400", "0000 u");

/// Annotations with a stack of 128 bytes.
pub const STACK: &str = "low = 0x4380\ntop = 0x4400\n";

/// An input of three events of `JUMP`, after a reset that fills with 00.
pub const JUMP_INPUT: &[u8] = b"reset 0 00\n3 00 00 00 00 00 00 0\n";

/// What `run` prints for three events of `JUMP` after that reset.
pub const THREE: &str = "done 3 30 0003 4400\nregs 0000 0000 0000 0000 0000 0000\nsum 0 0 0\n";

/// LD SP,4400H; CALL 0008H; JR -2; and from 0008 PUSH BC; LD B,3; POP BC; RET
pub const SAVE: &[u8] = &[
    0x31, 0x00, 0x44, 0xCD, 0x08, 0x00, 0x18, 0xFE, 0xC5, 0x06, 0x03, 0xC1, 0xC9,
];

/// The certificate of `SAVE`.
pub const SAVE_CERTIFICATE: &str = rows_text!(
    1, "rom 13\nstack 4380 4400\nbudget -\nproc main 0000 1 4 -\nproc sub 0008 0 4 -";
    "0000 u" "* * * *" "- - - -",
    "0003 s" "* * * *" "- - - -",
    "0006 s" "* * * *" "- - - -";
    "1 0008 s" "*@AF *@BC *@DE *@HL" "- - - -",
    "1 0009 s" "*@AF *@BC *@DE *@HL" "- - *@BC -",
    "1 000B s" "*@AF 0300-03FF:03-03:00-FF *@DE *@HL" "- - *@BC -",
    "1 000C s" "*@AF *@BC *@DE *@HL" "- - - -"
);

/// What `verify` prints for it.
pub const SAVE_TABLE: &str = "accepted\nmain 0000 depth     4 time      -\n\
    sub  0008 depth     4 time      -\nstack 4 of 128\nnmi none\n";

/// A ROM with main code from 0000 and an NMI routine from 0066. The bytes between them are 0.
pub fn with_routine(alloc: Global, main: &[u8], routine: &[u8]) -> Result<Vec<u8>, AllocError> {
    let mut rom = Vec::from_slice(alloc, main)?;
    rom.resize(0x66, 0)?;
    rom.extend_from_slice(routine)?;
    Ok(rom)
}
