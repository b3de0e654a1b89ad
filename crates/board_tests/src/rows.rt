// The rows of `machine`, worked by hand from the manual.

use board_step::Trap;

/// AF BC DE HL IX IY SP AF' BC' DE' HL' before each program.
pub(crate) const BEFORE: [u16; 11] = [
    0x1234, 0x0102, 0x0304, 0x4010, 0x4100, 0x4200, 0x43F0, 0x5678, 0x1112, 0x1314, 0x1516,
];

/// The program and its steps; what differs from BEFORE after them, by its index in `words_of`; PC, the T-states, and
/// bytes of work RAM.
pub(crate) type Row = (
    &'static [u8],
    u32,
    &'static [(usize, u16)],
    u16,
    u32,
    &'static [(u16, u8)],
);

#[rattlefmt::skip]
pub(crate) const BY_HAND: &[Row] = &[
    // EX (SP),HL
    (&[0xE3], 1, &[(3, 0x9A93)], 1, 19, &[(0x3F0, 0x10), (0x3F1, 0x40)]),
    // EX DE,HL
    (&[0xEB], 1, &[(2, 0x4010), (3, 0x0304)], 1, 4, &[]),
    // EXX twice, with LD BC,7777 in between
    (&[0xD9, 0x01, 0x77, 0x77, 0xD9], 3, &[(8, 0x7777)], 5, 18, &[]),
    // EX AF,AF'
    (&[0x08], 1, &[(0, 0x5678), (7, 0x1234)], 1, 4, &[]),
    // PUSH AF; POP IX
    (&[0xF5, 0xDD, 0xE1], 2, &[(4, 0x1234)], 3, 25, &[(0x3EF, 0x12), (0x3EE, 0x34)]),
    // PUSH IX; POP AF
    (&[0xDD, 0xE5, 0xF1], 2, &[(0, 0x4100)], 3, 25, &[(0x3EF, 0x41), (0x3EE, 0x00)]),
    // CALL 0005; RET
    (&[0xCD, 0x05, 0x00, 0x00, 0x00, 0xC9], 2, &[], 3, 27, &[(0x3EF, 0x00), (0x3EE, 0x03)]),
    // RST 08
    (&[0xCF], 1, &[(6, 0x43EE)], 8, 11, &[(0x3EF, 0x00), (0x3EE, 0x01)]),
    // EI; RETN
    (&[0xFB, 0xED, 0x45], 2, &[(6, 0x43F2), (11, 0x0003)], 0x9A93, 18, &[]),
    // DI; RETN
    (&[0xF3, 0xED, 0x45], 2, &[(6, 0x43F2)], 0x9A93, 18, &[]),
    // EI; DI
    (&[0xFB, 0xF3], 2, &[], 2, 8, &[]),
    // SCF; SBC HL,HL
    (&[0x37, 0xED, 0x62], 2, &[(0, 0x1293), (3, 0xFFFF)], 3, 19, &[]),
    // RLD of 73
    (&[0xED, 0x6F], 1, &[(0, 0x1704)], 2, 18, &[(0x010, 0x32)]),
    // LD A,73; CPIR finds it
    (&[0x3E, 0x73, 0xED, 0xB1], 2, &[(0, 0x7346), (1, 0x0101), (3, 0x4011)], 4, 23, &[]),
    // CPIR does not find it, and repeats
    (&[0xED, 0xB1], 1, &[(0, 0x1296), (1, 0x0101), (3, 0x4011)], 0, 21, &[]),
    // LD BC,1; CPIR does not find it, and ends
    (&[0x01, 0x01, 0x00, 0xED, 0xB1], 2, &[(0, 0x1292), (1, 0x0000), (3, 0x4011)], 5, 26, &[]),
    // LD (4100),SP
    (&[0xED, 0x73, 0x00, 0x41], 1, &[], 4, 20, &[(0x100, 0xF0), (0x101, 0x43)]),
    // LD A,(7800)
    (&[0x3A, 0x00, 0x78], 1, &[(0, 0xAA34)], 3, 13, &[]),
    // LD A,(6000); LD A,(6800); LD A,(7000): each is the first read of its event
    (&[0x3A, 0x00, 0x60], 1, &[(0, 0x1034)], 3, 13, &[]),
    (&[0x3A, 0xFF, 0x6F], 1, &[(0, 0x1134)], 3, 13, &[]),
    (&[0x3A, 0x01, 0x70], 1, &[(0, 0x9234)], 3, 13, &[]),
    // LD (7801),A: the pitch keeps nothing
    (&[0x32, 0x01, 0x78], 1, &[], 3, 13, &[]),
    // LD HL,(FFFF): the open byte at FFFF, and the ROM's first byte
    (&[0x2A, 0xFF, 0xFF], 1, &[(3, 0x2AAA)], 3, 16, &[]),
    // LD HL,(8000): two open bytes
    (&[0x2A, 0x00, 0x80], 1, &[(3, 0xBBAA)], 3, 16, &[]),
    // LD HL,(67FF): IN0 and then IN1
    (&[0x2A, 0xFF, 0x67], 1, &[(3, 0x2110)], 3, 16, &[]),
    // across the ends of the zones: work RAM, open, video RAM, object RAM, IN0 (IN1 is in the row before), IN2, open,
    // open
    (&[0x2A, 0xFF, 0x3F], 1, &[(3, 0x03AA)], 3, 16, &[]),
    (&[0x2A, 0xFF, 0x47], 1, &[(3, 0xBBFC)], 3, 16, &[]),
    (&[0x2A, 0xFF, 0x4F], 1, &[(3, 0x01AA)], 3, 16, &[]),
    (&[0x2A, 0xFF, 0x57], 1, &[(3, 0x6DFC)], 3, 16, &[]),
    (&[0x2A, 0xFF, 0x5F], 1, &[(3, 0x206D)], 3, 16, &[]),
    (&[0x2A, 0xFF, 0x6F], 1, &[(3, 0xA211)], 3, 16, &[]),
    (&[0x2A, 0xFF, 0x77], 1, &[(3, 0xBB92)], 3, 16, &[]),
    (&[0x2A, 0xFF, 0x7F], 1, &[(3, 0xBBAA)], 3, 16, &[]),
    // LD HL,(0002): the ROM's last byte, and the open byte after it, which is the second read
    (&[0x2A, 0x02, 0x00], 1, &[(3, 0xBB00)], 3, 16, &[]),
    // LD SP,67FF; POP BC, LD SP,6FFF; EX (SP),HL, and LD SP,5FFF; RET: the second byte takes the second inputs
    (&[0x31, 0xFF, 0x67, 0xC1], 2, &[(1, 0x2110), (6, 0x6801)], 4, 20, &[]),
    (&[0x31, 0xFF, 0x6F, 0xE3], 2, &[(3, 0xA211), (6, 0x6FFF)], 4, 29, &[]),
    (&[0x31, 0xFF, 0x5F, 0xC9], 2, &[(6, 0x6001)], 0x206D, 20, &[]),
    // LD (58FE),A; LD HL,(5FFE), and LD (5B00),A; LD HL,(5E00): object RAM repeats every 100h
    (&[0x32, 0xFE, 0x58, 0x2A, 0xFE, 0x5F], 2, &[(3, 0x6D12)], 6, 29, &[]),
    (&[0x32, 0x00, 0x5B, 0x2A, 0x00, 0x5E], 2, &[(3, 0x6D12)], 6, 29, &[]),
    // LD B,0; DJNZ to itself
    (&[0x06, 0x00, 0x10, 0xFE], 2, &[(1, 0xFF02)], 2, 20, &[]),
    // LD BC,2; LD D,41; LDIR, one turn
    (&[0x01, 0x02, 0x00, 0x16, 0x41, 0xED, 0xB0], 3,
     &[(0, 0x1204), (1, 0x0001), (2, 0x4105), (3, 0x4011)], 5, 38, &[(0x104, 0x73), (0x105, 0x26)]),
    // the second turn
    (&[0x01, 0x02, 0x00, 0x16, 0x41, 0xED, 0xB0], 4,
     &[(0, 0x1200), (1, 0x0000), (2, 0x4106), (3, 0x4012)], 7, 54, &[(0x104, 0x73), (0x105, 0x7A)]),
    // HALT, and two idle turns
    (&[0x76], 3, &[], 1, 12, &[]),
    // LD R,A; LD A,R
    (&[0xED, 0x4F, 0xED, 0x5F], 2, &[(0, 0x5C00)], 4, 18, &[]),
    // LD I,A; LD A,0; LD A,I
    (&[0xED, 0x47, 0x3E, 0x00, 0xED, 0x57], 3, &[(0, 0x1200), (11, 0x1200)], 6, 25, &[]),
    // LD (4400),HL: a mirror of work RAM
    (&[0x22, 0x00, 0x44], 1, &[], 3, 16, &[(0x000, 0x10), (0x001, 0x40)]),
];

/// A program, its steps, and the trap at the last of them.
pub(crate) type TrapRow = (&'static [u8], u32, Option<Trap>);

// The stack region is 4380 to 43FF, and the ROM ends after the program.
pub(crate) const TRAPS: &[TrapRow] = &[
    // no byte, and one byte of LD A,n
    (&[0x00], 2, Some(Trap::FetchOutside)),
    (&[0x3E], 1, Some(Trap::FetchOutside)),
    // SLL B
    (&[0xCB, 0x30], 1, Some(Trap::Undocumented)),
    // LD (0000),A; LD (3FFF),A; LD (8000),A
    (&[0x32, 0x00, 0x00], 1, Some(Trap::WriteRom)),
    (&[0x32, 0xFF, 0x3F], 1, Some(Trap::WriteUnmapped)),
    (&[0x32, 0x00, 0x80], 1, Some(Trap::WriteUnmapped)),
    // LD (3FFF),HL; LD (47FF),HL; LD (FFFF),HL: one of two bytes; the first trap in their order is reported
    (&[0x22, 0xFF, 0x3F], 1, Some(Trap::WriteUnmapped)),
    (&[0x22, 0xFF, 0x47], 1, Some(Trap::WriteUnmapped)),
    (&[0x22, 0xFF, 0xFF], 1, Some(Trap::WriteRom)),
    // LD SP,43FF; POP BC, and EX (SP),HL: the second byte
    (&[0x31, 0xFF, 0x43, 0xC1], 2, Some(Trap::StackOutside)),
    (&[0x31, 0xFF, 0x43, 0xE3], 2, Some(Trap::StackOutside)),
    // LD SP,4381; PUSH BC, and RST 08: the second byte
    (&[0x31, 0x81, 0x43, 0xC5], 2, Some(Trap::StackOutside)),
    (&[0x31, 0x81, 0x43, 0xCF], 2, Some(Trap::StackOutside)),
    // LD SP,0000; PUSH BC: a push into an unmapped zone is no data write
    (&[0x31, 0x00, 0x00, 0xC5], 2, Some(Trap::StackOutside)),
    // LD SP,4400; RET; and RET Z, which is not taken
    (&[0x31, 0x00, 0x44, 0xC9], 2, Some(Trap::StackOutside)),
    (&[0x31, 0x00, 0x44, 0xC8], 2, None),
    // OUT (00),A; LD HL,0000; INI, which would write to the ROM
    (&[0xD3, 0x00], 1, Some(Trap::IoSpace)),
    (&[0x21, 0x00, 0x00, 0xED, 0xA2], 2, Some(Trap::IoSpace)),
    // CALL 0000, with room for its word
    (&[0xCD, 0x00, 0x00], 1, None),
];
