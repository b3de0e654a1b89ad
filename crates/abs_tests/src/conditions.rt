// The conditions that instructions make, one row or more for each line of the table, and the parts of a row that they
// leave as conditions.
use crate::reading::{code_of, columns_of, parts_of};
use crate::refined_rows::{are_parts, first_wrong};
use address_map::Rom;
use board_fetch::fetch;
use flag_conditions::conditions;
use flag_letters::FlagParts;
use intervals::ByteRange;

/// HL is 0002: it addresses a byte of the ROM if the row has three bytes, and an unknown byte otherwise.
const SUMS: &str = "\
ADD A,B            | 80 00    | HL:0002 | -   | before:c255-1*A-1*B after:z0+1*A,s127-1*A,c0+1*A-1*B
ADD A,B, C set     | 80 00    | HL:0002 | c-1 | before:c255-1*A-1*B after:z0+1*A,s127-1*A,c0+1*A-1*B
ADD A,A            | 87 00    | HL:0002 | -   | before:c255-2*A after:z0+1*A,s127-1*A
ADD A,07           | C6 07    | HL:0002 | -   | before:c248-1*A after:z0+1*A,s127-1*A,c-7+1*A
ADD A,(HL) unknown | 86 00    | HL:0002 | -   | before:- after:z0+1*A,s127-1*A
ADD A,(HL) of 40   | 86 00 40 | HL:0002 | -   | before:c191-1*A after:z0+1*A,s127-1*A,c-64+1*A
ADC A,B            | 88 00    | HL:0002 | -   | before:- after:z0+1*A,s127-1*A
ADC A,B, C clear   | 88 00    | HL:0002 | c0  | before:c255-1*A-1*B after:z0+1*A,s127-1*A,c0+1*A-1*B
ADC A,B, C set     | 88 00    | HL:0002 | c-1 | before:c254-1*A-1*B after:z0+1*A,s127-1*A
ADC A,A, C clear   | 8F 00    | HL:0002 | c0  | before:c255-2*A after:z0+1*A,s127-1*A
ADC A,A, C set     | 8F 00    | HL:0002 | c-1 | before:c254-2*A after:z0+1*A,s127-1*A
ADC A,07, C clear  | CE 07    | HL:0002 | c0  | before:c248-1*A after:z0+1*A,s127-1*A,c-7+1*A
ADC A,07, C set    | CE 07    | HL:0002 | c-1 | before:c247-1*A after:z0+1*A,s127-1*A
";

/// With the carry Z tells nothing of A - L - 1, as 256 gives 0 too.
const DIFFERENCES: &str = "\
SUB L            | 95 00    | HL:0002 | -   | before:c0+1*A-1*L,z0+1*A-1*L after:z0+1*A,s127-1*A,c255-1*A-1*L
SUB L, C set     | 95 00    | HL:0002 | c-1 | before:c0+1*A-1*L,z0+1*A-1*L after:z0+1*A,s127-1*A,c255-1*A-1*L
SUB A            | 97 00    | HL:0002 | -   | before:c0,z0 after:z0+1*A,s127-1*A
SUB 07           | D6 07    | HL:0002 | -   | before:c-7+1*A,z-7+1*A after:z0+1*A,s127-1*A,c248-1*A
SUB (HL) unknown | 96 00    | HL:0002 | -   | before:- after:z0+1*A,s127-1*A
SUB (HL) of 40   | 96 00 40 | HL:0002 | -   | before:c-64+1*A,z-64+1*A after:z0+1*A,s127-1*A,c191-1*A
SBC A,L          | 9D 00    | HL:0002 | -   | before:- after:z0+1*A,s127-1*A
SBC A,L, C clear | 9D 00    | HL:0002 | c0  | before:c0+1*A-1*L,z0+1*A-1*L after:z0+1*A,s127-1*A,c255-1*A-1*L
SBC A,L, C set   | 9D 00    | HL:0002 | c-1 | before:c-1+1*A-1*L after:z0+1*A,s127-1*A
SBC A,A, C clear | 9F 00    | HL:0002 | c0  | before:c0,z0 after:z0+1*A,s127-1*A
SBC A,A, C set   | 9F 00    | HL:0002 | c-1 | before:c-1 after:z0+1*A,s127-1*A
SBC A,07, C set  | DE 07    | HL:0002 | c-1 | before:c-8+1*A after:z0+1*A,s127-1*A
CP H             | BC 00    | HL:0002 | -   | before:c0+1*A-1*H,z0+1*A-1*H after:-
CP H, C set      | BC 00    | HL:0002 | c-1 | before:c0+1*A-1*H,z0+1*A-1*H after:-
CP A             | BF 00    | HL:0002 | -   | before:c0,z0 after:-
CP (HL) unknown  | BE 00    | HL:0002 | -   | before:- after:-
CP (HL) of 40    | BE 00 40 | HL:0002 | -   | before:c-64+1*A,z-64+1*A after:-
NEG              | ED 44    | HL:0002 | -   | before:c0-1*A,z0+1*A after:z0+1*A,s127-1*A
";

const LOGIC: &str = "\
AND B            | A0 00    | HL:0002 | - | before:c0 after:z0+1*A,s127-1*A
AND A            | A7 00    | HL:0002 | - | before:c0,z0+1*A,s127-1*A after:z0+1*A,s127-1*A
AND 80           | E6 80    | HL:0002 | - | before:c0,b-128+1*A after:z0+1*A,s127-1*A
AND 81           | E6 81    | HL:0002 | - | before:c0 after:z0+1*A,s127-1*A
AND 40           | E6 40    | HL:0002 | - | before:c0 after:z0+1*A,s127-1*A
AND (HL) unknown | A6 00    | HL:0002 | - | before:c0 after:z0+1*A,s127-1*A
OR D             | B2 00    | HL:0002 | - | before:c0,z0+256*A+1*D,z0+1*A+256*D after:z0+1*A,s127-1*A
OR A             | B7 00    | HL:0002 | - | before:c0,z0+1*A,s127-1*A after:z0+1*A,s127-1*A
OR 07            | F6 07    | HL:0002 | - | before:c0 after:z0+1*A,s127-1*A
OR (HL) of 40    | B6 00 40 | HL:0002 | - | before:c0 after:z0+1*A,s127-1*A
XOR E            | AB 00    | HL:0002 | - | before:c0,z0+1*A-1*E after:z0+1*A,s127-1*A
XOR A            | AF 00    | HL:0002 | - | before:c0,z0 after:z0+1*A,s127-1*A
XOR 07           | EE 07    | HL:0002 | - | before:c0,z-7+1*A after:z0+1*A,s127-1*A
XOR (HL) unknown | AE 00    | HL:0002 | - | before:c0 after:z0+1*A,s127-1*A
XOR (HL) of 40   | AE 00 40 | HL:0002 | - | before:c0,z-64+1*A after:z0+1*A,s127-1*A
";

const SINGLE: &str = "\
INC A      | 3C 00 | HL:0002 | - | before:- after:z0+1*A,s127-1*A
INC L      | 2C 00 | HL:0002 | - | before:- after:z0+1*L,s127-1*L
DEC H      | 25 00 | HL:0002 | - | before:- after:z0+1*H,s127-1*H
INC (HL)   | 34 00 | HL:0002 | - | before:- after:-
SCF        | 37 00 | HL:0002 | - | before:c-1 after:-
CPL        | 2F 00 | HL:0002 | - | before:- after:-
LD A,B     | 78 00 | HL:0002 | - | before:- after:-
INC BC     | 03 00 | HL:0002 | - | before:- after:-
RLCA       | 07 00 | HL:0002 | - | before:c127-1*A after:-
RLA        | 17 00 | HL:0002 | - | before:c127-1*A after:-
RRCA       | 0F 00 | HL:0002 | - | before:- after:-
RRA        | 1F 00 | HL:0002 | - | before:- after:-
RLC B      | CB 00 | HL:0002 | - | before:c127-1*B after:z0+1*B,s127-1*B
RL C       | CB 11 | HL:0002 | - | before:c127-1*C after:z0+1*C,s127-1*C
SLA D      | CB 22 | HL:0002 | - | before:c127-1*D after:z0+1*D,s127-1*D
RRC E      | CB 0B | HL:0002 | - | before:- after:z0+1*E,s127-1*E
RR H       | CB 1C | HL:0002 | - | before:- after:z0+1*H,s127-1*H
SRA L      | CB 2D | HL:0002 | - | before:- after:z0+1*L,s127-1*L
SRL A      | CB 3F | HL:0002 | - | before:- after:z0+1*A,s127-1*A
RLC (HL)   | CB 06 | HL:0002 | - | before:- after:-
BIT 7,B    | CB 78 | HL:0002 | - | before:b-128+1*B after:-
BIT 7,(HL) | CB 7E | HL:0002 | - | before:- after:-
BIT 6,A    | CB 77 | HL:0002 | - | before:- after:-
DAA        | 27 00 | HL:0002 | - | before:- after:z0+1*A,s127-1*A
RLD        | ED 6F | HL:0002 | - | before:- after:z0+1*A,s127-1*A
RRD        | ED 67 | HL:0002 | - | before:- after:z0+1*A,s127-1*A
LD A,I     | ED 57 | HL:0002 | - | before:- after:z0+1*A,s127-1*A
LD A,R     | ED 5F | HL:0002 | - | before:- after:z0+1*A,s127-1*A
LD I,A     | ED 47 | HL:0002 | - | before:- after:-
";

const WORDS: &str = "\
ADD HL,BC          | 09 00 | HL:0002 | -   | before:c65535-1*BC-1*HL after:c0-1*BC+1*HL
ADD HL,BC, C set   | 09 00 | HL:0002 | c-1 | before:c65535-1*BC-1*HL after:c0-1*BC+1*HL
ADD HL,DE          | 19 00 | HL:0002 | -   | before:c65535-1*DE-1*HL after:c0-1*DE+1*HL
ADD HL,HL          | 29 00 | HL:0002 | -   | before:c65535-2*HL after:-
ADD HL,SP          | 39 00 | HL:0002 | -   | before:- after:-
ADD IX,DE          | DD 19 | HL:0002 | -   | before:c65535-1*DE-1*IX after:c0-1*DE+1*IX
ADD IX,IX          | DD 29 | HL:0002 | -   | before:c65535-2*IX after:-
ADD IX,SP          | DD 39 | HL:0002 | -   | before:- after:-
ADD IY,BC          | FD 09 | HL:0002 | -   | before:c65535-1*BC-1*IY after:c0-1*BC+1*IY
ADD IY,IY          | FD 29 | HL:0002 | -   | before:c65535-2*IY after:-
ADC HL,DE          | ED 5A | HL:0002 | -   | before:- after:z0+1*HL,s127-1*H
ADC HL,DE, C clear | ED 5A | HL:0002 | c0  | before:c65535-1*DE-1*HL after:z0+1*HL,s127-1*H
ADC HL,DE, C set   | ED 5A | HL:0002 | c-1 | before:c65534-1*DE-1*HL after:z0+1*HL,s127-1*H
ADC HL,HL, C set   | ED 6A | HL:0002 | c-1 | before:c65534-2*HL after:z0+1*HL,s127-1*H
ADC HL,SP, C clear | ED 7A | HL:0002 | c0  | before:- after:z0+1*HL,s127-1*H
SBC HL,BC          | ED 42 | HL:0002 | -   | before:- after:z0+1*HL,s127-1*H
SBC HL,BC, C clear | ED 42 | HL:0002 | c0  | before:c0-1*BC+1*HL,z0-1*BC+1*HL after:z0+1*HL,s127-1*H
SBC HL,BC, C set   | ED 42 | HL:0002 | c-1 | before:c-1-1*BC+1*HL after:z0+1*HL,s127-1*H
SBC HL,HL, C clear | ED 62 | HL:0002 | c0  | before:c0,z0 after:z0+1*HL,s127-1*H
SBC HL,HL, C set   | ED 62 | HL:0002 | c-1 | before:c-1 after:z0+1*HL,s127-1*H
SBC HL,SP, C clear | ED 72 | HL:0002 | c0  | before:- after:z0+1*HL,s127-1*H
";

/// Where HL is unknown. CCF turns each part of C, and drops one that would leave the limits. Of the parts that tell the
/// carry of ADC A,B the first counts.
const OTHERS: &str = "\
CP 40   | FE 40 |  | - | before:c-64+1*A,z-64+1*A after:-
SUB C   | 91 00 |  | - | before:c0+1*A-1*C,z0+1*A-1*C after:z0+1*A,s127-1*A,c255-1*A-1*C
OR C    | B1 00 |  | - | before:c0,z0+256*A+1*C,z0+1*A+256*C after:z0+1*A,s127-1*A
BIT 7,A | CB 7F |  | - | before:b-128+1*A after:-
DEC C keeps the part of C and ends that of Z | 0D 00 |  | c-64+1*L,z-64+1*L | before:c-64+1*L after:z0+1*C,s127-1*C
CCF turns the part of C                      | 3F 00 |  | c-64+1*L,z-64+1*L | before:c63-1*L,z-64+1*L after:-
CCF turns each part of C within the limits   | 3F 00 |  | c-64+1*L,s7+1*IY,c1000000000,c-1,c-1000000000 \
    | before:c63-1*L,s7+1*IY,c0,c999999999
C is set              | 88 00 | A:0A-14 | c-21+1*A          | before:c254-1*A-1*B
C is clear            | 88 00 | A:0A-14 | c-10+1*A          | before:c255-1*A-1*B
undecided             | 88 00 | A:0A-14 | c-20+1*A          | before:-
undecided, then set   | 88 00 | A:0A-14 | c-20+1*A,c-21+1*A | before:c254-1*A-1*B
clear, then set       | 88 00 | A:0A-14 | c-10+1*A,c-21+1*A | before:c255-1*A-1*B
Z and S tell no carry | 88 00 | A:0A-14 | z-1,b-1,s-1       | before:-
";

/// One part with each letter.
const OF_EACH_LETTER: &[u8] = b"z7+1*IY,b7+1*IY,c7+1*IY,s7+1*IY";

/// The columns are names of instructions, their bytes, and the conditions before each of them: the parts above whose
/// flags it does not change, and its own.
const KEPT: &str = "\
ADD A,(HL); CP (HL); DAA; ADC HL,BC; SBC HL,BC  | 86; BE; 27; ED 4A; ED 42          | -
ADC A,(HL); SUB (HL); SBC A,(HL); RLC (HL)      | 8E; 96; 9E; CB 06                 | -
RRC B; RL (HL); RR B; SLA (HL); SRA B           | CB 08; CB 16; CB 18; CB 26; CB 28 | -
SRL A; POP AF; EX AF,AF'                        | CB 3F; F1; 08                     | -
NEG                                             | ED 44                             | c0-1*A,z0+1*A
AND (HL); XOR (HL); OR (HL)                     | A6; AE; B6                        | c0
INC B; DEC (HL); LD A,I; LD A,R; CPI            | 04; 35; ED 57; ED 5F; ED A1       | c7+1*IY
CPD; CPIR; CPDR; RLD; RRD                       | ED A9; ED B1; ED B9; ED 6F; ED 67 | c7+1*IY
BIT 6,A; BIT 7,(HL)                             | CB 77; CB 7E                      | c7+1*IY
SCF                                             | 37                                | z7+1*IY,b7+1*IY,s7+1*IY,c-1
ADD HL,SP; ADD IX,SP; ADD IY,SP; RRCA; RRA      | 39; DD 39; FD 39; 0F; 1F          | z7+1*IY,b7+1*IY,s7+1*IY
RLCA; RLA                                       | 07; 17                            | z7+1*IY,b7+1*IY,s7+1*IY,c127-1*A
NOP; LD A,B; LD (HL),01; INC BC; DEC HL; INC IX | 00; 78; 36 01; 03; 2B; DD 23      | z7+1*IY,b7+1*IY,c7+1*IY,s7+1*IY
EX DE,HL; EXX; CPL; PUSH AF; POP BC; SET 0,A    | EB; D9; 2F; F5; C1; CB C7         | z7+1*IY,b7+1*IY,c7+1*IY,s7+1*IY
RES 7,(HL); LDI; LDIR; LD I,A; LD R,A           | CB BE; ED A0; ED B0; ED 47; ED 4F | z7+1*IY,b7+1*IY,c7+1*IY,s7+1*IY
JP nn; JR C; JP (HL); DJNZ; RET NZ              | C3 00 00; 38 00; E9; 10 00; C0    | z7+1*IY,b7+1*IY,c7+1*IY,s7+1*IY
HALT                                            | 76                                | z7+1*IY,b7+1*IY,c7+1*IY,s7+1*IY
";

/// Whether an instruction has these conditions before it. No byte in work and no carry are known.
fn keeps(code: &[u8], parts: &FlagParts, kept: &str) -> bool {
    let Some(rom) = Rom::of(code) else {
        return false;
    };
    match fetch(&rom, 0) {
        Ok((instr, _)) => {
            let told = conditions(&instr, ByteRange::full(), parts, None);
            are_parts(told.before(), kept.as_bytes())
        }
        Err(_) => false,
    }
}

fn each_keeps(row: &str) -> bool {
    let columns = columns_of(row);
    let ([_, codes, kept], Some(parts)) = (columns.as_slice(), parts_of(OF_EACH_LETTER)) else {
        return false;
    };
    for code in codes.split(';') {
        let is_kept = match code_of(code) {
            Some(code) => keeps(code.as_slice(), &parts, kept),
            None => false,
        };
        if !is_kept {
            return false;
        }
    }
    true
}

#[test]
fn are_told_and_kept(rt: HostRuntime) {
    let wrong = first_wrong(
        rt.alloc(),
        &[SUMS, DIFFERENCES, LOGIC, SINGLE, WORDS, OTHERS],
    );
    assert!(rt; wrong.is_none(), "{wrong:?}");
    for row in KEPT.lines() {
        assert!(rt; each_keeps(row), "{row}");
    }
}
