// A program with lines of each kind (tests/cases/listings.toml has its listing).

use cert_checker::check;
use certificate::read;
use listing::{ListFault, write_listing};
use std::alloc::Global;
use symbols::Symbols;
use texts::Sink;

/// The program, as hexadecimal digits: LD SP,4400h; LD HL,0090h; LD DE,4020h; LD BC,3; LDIR; LD HL,4000h; LD (4010h),HL
/// as ED 63; LD A,1; LD (7001h),A; JR -2; C9. From 001D SRL A; JR 002A. From 0028 ADD A,A; RET Z; INC A; RET. From 0066
/// PUSH AF; PUSH HL; LD HL,0090h; LD A,(HL); RST 28h; CP 5; CALL C,001Dh; LD (4010h),A; POP HL; POP AF; RETN. At 0090
/// 01 02 41 FF. All else is 00.
const PARTS: [(u16, &str); 4] = [
    (
        0x0000,
        "310044219000112040010300EDB0210040ED6310403E0132017018FEC9CB3F1809",
    ),
    (0x0028, "87C83CC9"),
    (0x0066, "F5E52190007EEFFE05DC1D00321040E1F1ED45"),
    (0x0090, "010241FF"),
];

/// The length of the program in bytes.
const LEN: usize = 148;

/// A name of 60 letters, for which no column has room, at the entry of two procedures and in RAM; and shorter ones.
pub(crate) const NAMES: &str = "\
    idle equ $001a\n\
    abcdefghijklmnopqrstuvwxyzabcdefghijklmnopqrstuvwxyzabcdefgh equ $001d\n\
    bcdefghijklmnopqrstuvwxyzabcdefghijklmnopqrstuvwxyzabcdefghi equ $0028\n\
    nmi equ $0066\n\
    table equ $0090\n\
    cdefghijklmnopqrstuvwxyzabcdefghijklmnopqrstuvwxyzabcdefghij equ $4010\n";

/// Its certificate, in which each `..` stands for the pairs that no row changes.
const CERTIFICATE: &str = "\
    galcert 1\n\
    rom 148\n\
    stack 4380 4400\n\
    budget 1000\n\
    proc main 0000 0 0 -\n\
    proc nmi 0066 1 8 189\n\
    proc sub 001D 0 2 34\n\
    proc sub 0028 0 2 23\n\
    row 0 0000 u * * * * * * * * * * - - - -\n\
    row 0 0003 s * * * * * * * * * * - - - -\n\
    row 0 0006 s * * * 0090-0090:00-00:90-90 * * * * * * - - - -\n\
    row 0 0009 s * * 4020-4020:40-40:20-20 0090-0090:00-00:90-90 * * * * * * - - - -\n\
    row 0 000C s * 0001-0003:00-00:01-03 4020-4022:40-40:20-22 * * * * * * * - -16419+1*BC+1*DE - -\n\
    row 0 000E s * 0000-0000:00-00:00-00 4021-4023:40-40:21-23 * * * * * * * - - - -\n\
    row 0 0011 s * 0000-0000:00-00:00-00 4021-4023:40-40:21-23 4000-4000:40-40:00-00 * * * * * * - - - -\n\
    row 0 0015 s * 0000-0000:00-00:00-00 4021-4023:40-40:21-23 4000-4000:40-40:00-00 * * * * * * - - - -\n\
    row 0 0017 s 0100-01FF:01-01:00-FF 0000-0000:00-00:00-00 4021-4023:40-40:21-23 4000-4000:40-40:00-00 * * * * * * - - - -\n\
    row 0 001A n 0100-01FF:01-01:00-FF 0000-0000:00-00:00-00 4021-4023:40-40:21-23 4000-4000:40-40:00-00 * * * * * * - - - -\n\
    row 1 0066 n *@AF *@BC *@DE *@HL .. - - - 178\n\
    row 1 0067 n *@AF *@BC *@DE *@HL .. - - *@AF 167\n\
    row 1 0068 n *@AF *@BC *@DE *@HL .. - - *@AF,*@HL 156\n\
    row 1 006B n *@AF *@BC *@DE 0090-0090:00-00:90-90 .. - - *@AF,*@HL 146\n\
    row 1 006C n 0100-01FF:01-01:00-FF *@BC *@DE 0090-0090:00-00:90-90 .. - - *@AF,*@HL 139\n\
    row 1 006D n 0300-03FF:03-03:00-FF *@BC *@DE 0090-0090:00-00:90-90 .. - - *@AF,*@HL 105\n\
    row 1 006F n 0300-03FF:03-03:00-FF *@BC *@DE 0090-0090:00-00:90-90 .. c05 - *@AF,*@HL 98\n\
    row 1 0072 n 0200-02FF:02-02:00-FF *@BC *@DE 0090-0090:00-00:90-90 .. - - *@AF,*@HL 47\n\
    row 1 0075 n 0200-02FF:02-02:00-FF *@BC *@DE 0090-0090:00-00:90-90 .. - - *@AF,*@HL 34\n\
    row 1 0076 n 0200-02FF:02-02:00-FF *@BC *@DE *@HL .. - - *@AF 24\n\
    row 1 0077 n *@AF *@BC *@DE *@HL .. - - - 14\n\
    row 2 001D n 0300-03FF:03-03:00-FF@AF *@BC *@DE 0090-0090:00-00:90-90@HL .. - - - 34\n\
    row 2 001F n 0100-01FF:01-01:00-FF *@BC *@DE 0090-0090:00-00:90-90@HL .. - - - 26\n\
    row 2 002A n 0100-01FF:01-01:00-FF *@BC *@DE 0090-0090:00-00:90-90@HL .. - - - 14\n\
    row 2 002B n 0200-02FF:02-02:00-FF *@BC *@DE 0090-0090:00-00:90-90@HL .. zA - - 10\n\
    row 3 0028 n 0100-01FF:01-01:00-FF@AF *@BC *@DE 0090-0090:00-00:90-90@HL .. - - - 23\n\
    row 3 0029 n 0200-02FF:02-02:00-FF *@BC *@DE 0090-0090:00-00:90-90@HL .. zA - - 19\n\
    row 3 002A n 0200-02FF:02-02:00-FF *@BC *@DE 0090-0090:00-00:90-90@HL .. zA - - 14\n\
    row 3 002B n 0300-03FF:03-03:00-FF *@BC *@DE 0090-0090:00-00:90-90@HL .. zA - - 10\n\
    end\n\
    ";

/// The bytes of the program. None where memory was refused.
fn rom(alloc: Global) -> Option<Vec<u8>> {
    let mut bytes = Vec::new(alloc);
    for _ in 0..LEN {
        bytes.push(0u8).ok()?;
    }
    for (address, digits) in PARTS {
        let mut place = usize::from(address);
        for pair in digits.as_bytes().chunks(2) {
            let text = str::from_utf8(pair).ok()?;
            let byte = bytes.get_mut(place)?;
            *byte = u8::from_str_radix(text, 16).ok()?;
            place = place.saturating_add(1);
        }
    }
    Some(bytes)
}

/// Writes the listing of the program with these names. None where memory was refused before.
pub(crate) fn write_sample<W: Sink>(
    alloc: Global,
    names: &str,
    out: &mut W,
) -> Option<Result<(), ListFault>> {
    let rom = rom(alloc)?;
    let mut text = String::new(alloc);
    let mut is_first = true;
    for part in CERTIFICATE.split("..") {
        if !is_first {
            text.push_str("*@IX *@IY *@AF' *@BC' *@DE' *@HL'").ok()?;
        }
        is_first = false;
        text.push_str(part).ok()?;
    }
    let certificate = read(alloc, text.as_bytes()).ok()?;
    let accepted = check(alloc, rom.as_slice(), certificate).ok()?;
    let symbols = Symbols::read(alloc, names.as_bytes()).ok()?;
    Some(write_listing(alloc, &accepted, &symbols, out))
}
