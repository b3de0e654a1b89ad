// The abstract step: memory, registers, flag facts, the stack, and what tests restrict.
use crate::plain_rows::{first_wrong, writes_are_right};

/// The enable is at 7001, 7009 and so on. An odd byte may enable, and LD (nn),HL writes L and then H.
const ENABLES: &str = "\
LD (7000),HL | 22 00 70 | main | HL:0001-0101:00-01:01-01 | jump to=0003 t=16 mode:n
LD (7000),HL | 22 00 70 | main | HL:0201                  | jump to=0003 t=16 mode:s
LD (7001),HL | 22 01 70 | main | HL:0201                  | jump to=0003 t=16 mode:n
LD (77F8),HL | 22 F8 77 | main | HL:0101                  | jump to=0003 t=16 mode:n
LD (7002),HL | 22 02 70 | main | HL:0101                  | jump to=0003 t=16 mode:s
LD (4000),HL | 22 00 40 | main | HL:0101                  | jump to=0003 t=16 mode:s
";

/// The columns are the name, the ROM, the state, and the addresses that are written with their bytes.
const WRITES: &str = "\
LD (7000),HL | 22 00 70 | HL:0001-0101:00-01:01-01 | 7000:01 7001:00-01
LD (7000),HL | 22 00 70 | HL:0201                  | 7000:01 7001:02
LD (7001),HL | 22 01 70 | HL:0201                  | 7001:01 7002:02
LD (77F8),HL | 22 F8 77 | HL:0101                  | 77F8:01 77F9:01
LD (7002),HL | 22 02 70 | HL:0101                  | 7002:01 7003:01
LD (4000),HL | 22 00 40 | HL:0101                  | 4000:01 4001:01
";

/// Work RAM is at 4000 with a mirror at 4400, or at 8000 with one at 8400. 3A is the code of LD A,(nn) at 0000. A write
/// arms the next cell if its byte lies in the range of the cell.
const CELLS: &str = "\
LD A,(4005) | 3A 05 40 | cells  | armed:1         | jump to=0003 t=13 A:10-20
LD A,(4405) | 3A 05 44 | cells  | armed:1         | jump to=0003 t=13 A:10-20
LD A,(4005) | 3A 05 40 | cells  | armed:0         | jump to=0003 t=13 A:00-FF
LD A,(4006) | 3A 06 40 | cells  | armed:1         | jump to=0003 t=13 A:00-FF
LD A,(4406) | 3A 06 44 | cells  | armed:2         | jump to=0003 t=13 A:00
LD A,(5005) | 3A 05 50 | cells  | armed:2         | jump to=0003 t=13 A:00-FF
LD A,(8005) | 3A 05 80 | raised | armed:1         | jump to=0003 t=13 A:10-20
LD A,(8405) | 3A 05 84 | raised | armed:1         | jump to=0003 t=13 A:10-20
LD A,(4005) | 3A 05 40 | raised | armed:1         | jump to=0003 t=13 A:00-FF
LD A,(0000) | 3A 00 00 | cells  | armed:1         | jump to=0003 t=13 A:3A
LD A,(0003) | 3A 03 00 | cells  | armed:1         | jump to=0003 t=13 A:00-FF
LD (4005),A | 32 05 40 | cells  | armed:0 A:10-20 | jump to=0003 t=13 armed:1
LD (4405),A | 32 05 44 | cells  | armed:0 A:11    | jump to=0003 t=13 armed:1
LD (4005),A | 32 05 40 | cells  | armed:0 A:10-21 | jump to=0003 t=13 armed:0
LD (4006),A | 32 06 40 | cells  | armed:0 A:00    | jump to=0003 t=13 armed:0
LD (4006),A | 32 06 40 | cells  | armed:1 A:00    | jump to=0003 t=13 armed:2
LD (4005),A | 32 05 40 | cells  | armed:1 A:FF    | jump to=0003 t=13 armed:1
";

/// The ROM is read from the least to the greatest of the bytes that HL may address.
const OF_ROM: &str = "\
LD A,(HL) | 7E 05 09 03 | main | HL:0001-0003 | jump to=0001 t=7 A:03-09
LD A,(HL) | 7E 05 09 03 | main | HL:0001-0002 | jump to=0001 t=7 A:05-09
LD A,(HL) | 7E 05 09 03 | main | HL:0000      | jump to=0001 t=7 A:7E
LD A,(HL) | 7E 05 09 03 | main | HL:0001-0004 | jump to=0001 t=7 A:00-FF
";

/// If C may be FF, INC C may wrap; if BC may be 0, DEC BC may wrap.
const COUNTS: &str = "\
INC C           | 0C | main | C:00-0F      | jump to=0001 t=4 C:01-10 fact:zC B=B C=C+1 BC=?
INC C may wrap  | 0C | main |              | jump to=0001 t=4 fact:zC C=?
INC BC          | 03 | main | BC:0100-01F0 | jump to=0001 t=6 BC:0101-01F1 BC=BC+1 B=#0001 C=?
DEC BC may wrap | 0B | main |              | jump to=0001 t=6 BC=?
";

/// A flag fact of B ends where the flags or B are written. The top slot is 1234. CP tells a fact of A, and F may be any
/// after it, so AF has no origin.
const FACTS: &str = "\
POP AF    | F1    | main | fact:zB shape:1234-1234:12-12:34-34 | jump to=0001 t=10 fact:- AF:1234 shape:-
EX AF,AF' | 08    | main | fact:zB shape:1234-1234:12-12:34-34 | jump to=0001 t=4 fact:-
POP BC    | C1    | main | fact:zB shape:1234-1234:12-12:34-34 | jump to=0001 t=10 fact:- BC:1234 shape:-
EXX       | D9    | main | fact:zB shape:1234-1234:12-12:34-34 | jump to=0001 t=4 fact:-
LD B,B    | 40    | main | fact:zB shape:1234-1234:12-12:34-34 | jump to=0001 t=4 fact:-
SCF       | 37    | main | fact:zB shape:1234-1234:12-12:34-34 | jump to=0001 t=4 fact:-
POP DE    | D1    | main | fact:zB shape:1234-1234:12-12:34-34 | jump to=0001 t=10 fact:zB DE:1234 shape:-
LD C,B    | 48    | main | fact:zB shape:1234-1234:12-12:34-34 | jump to=0001 t=4 fact:zB
LD A,C    | 79    | main | fact:zB shape:1234-1234:12-12:34-34 | jump to=0001 t=4 fact:zB
INC HL    | 23    | main | fact:zB shape:1234-1234:12-12:34-34 | jump to=0001 t=6 fact:zB
EX DE,HL  | EB    | main | fact:zB shape:1234-1234:12-12:34-34 | jump to=0001 t=4 fact:zB
NOP       | 00    | main | fact:zB shape:1234-1234:12-12:34-34 | jump to=0001 t=4 fact:zB
CP 10     | FE 10 | main | AF:0000-FFFF:05-20:00-FF@AF BC:*@BC | jump to=0002 t=7 A:05-20 BC:*@BC fact:c10 A=A
";

/// BC is the value at the entry, from 1000 to 1FFF. Ranges and origin move with the word, and the variables follow it.
const WORDS: &str = "\
PUSH BC    | C5 | main | BC:1000-1FFF:10-1F:00-FF@BC \
    | jump to=0001 t=11 shape:1000-1FFF:10-1F:00-FF@BC s0=BC s0h=B s0l=C
POP DE     | D1 | main | BC:1000-1FFF:10-1F:00-FF@BC shape:1000-1FFF:10-1F:00-FF@BC \
    | jump to=0001 t=10 DE:1000-1FFF:10-1F:00-FF@BC shape:- DE=s0 D=s0h E=s0l
EX (SP),HL | E3 | main | HL:1000-1FFF:10-1F:00-FF@BC shape:2000-2FFF:20-2F:00-FF \
    | jump to=0001 t=19 HL:2000-2FFF shape:1000-1FFF:10-1F:00-FF@BC HL=s0 s0=HL s0h=H s0l=L
";

/// What is refused, even where Z makes a call infeasible.
const REFUSED: &str = "\
PUSH BC                     | C5       | main | mode:u                                      | StackUnset
POP DE                      | D1       | main |                                             | StackShape
EX (SP),HL                  | E3       | main |                                             | StackShape
PUSH BC, the 65th word      | C5       | main | slots:64                                    | StackShape
RET of main                 | C9       | main |                                             | StackShape
RET NZ to one of two words  | C0       | main | B:00-08 fact:zB shape:1234-1235:12-12:34-35 | StackShape
CALL Z,0100                 | CC 00 01 | main | mode:u B:01-08 fact:zB                      | StackUnset
JP (HL) to one of two words | E9       | main | HL:0123-0124                                | NotCovered
";

/// Z says whether B is 0. The successor at the callee has the caller's state. RET of a callee is an exit on an empty
/// shape; on a slot with one word it jumps there. LD SP of main makes the mode s and the shape empty. Elsewhere it does
/// nothing here.
const WAYS: &str = "\
CALL Z,0100 | CC 00 01 | main | B:00-08 fact:zB shape:1000-1FFF:10-1F:00-FF@BC \
    | taken call to=0100 t=17 B:00 shape:1000-1FFF:10-1F:00-FF@BC slot=none | passed jump to=0003 t=10 B:01-08
RET NZ      | C0       | sub  | B:00-08 fact:zB | taken exit to=0000 t=11 B:01-08 | passed jump to=0001 t=5 B:00
RET NZ      | C0       | sub  | B:00-08 fact:zB shape:1234-1234:12-12:34-34 | taken jump to=1234 t=11 B:01-08 shape:- \
    | passed jump to=0001 t=5 B:00 shape:1234-1234:12-12:34-34
JP (HL)     | E9       | main | HL:0123 | jump to=0123 t=4 HL=#0123
LD SP,4400  | 31 00 44 | main | mode:u shape:1000-1FFF:10-1F:00-FF@BC | jump to=0003 t=10 mode:s shape:-
LD SP,4400  | 31 00 44 | sub  | mode:u shape:1000-1FFF:10-1F:00-FF@BC \
    | jump to=0003 t=10 mode:u shape:1000-1FFF:10-1F:00-FF@BC
";

/// The flag fact says with what A was compared. Where A may not be so, there is no successor.
const AFTER_CP: &str = "\
JR Z  | 28 10 | main | A:05-20 fact:c10 | taken jump to=0012 t=12 A:10    | passed jump to=0002 t=7 A:05-20
JR NZ | 20 10 | main | A:05-20 fact:c10 | taken jump to=0012 t=12 A:05-20 | passed jump to=0002 t=7 A:10
JR C  | 38 10 | main | A:05-20 fact:c10 | taken jump to=0012 t=12 A:05-0F | passed jump to=0002 t=7 A:10-20
JR NC | 30 10 | main | A:05-20 fact:c10 | taken jump to=0012 t=12 A:10-20 | passed jump to=0002 t=7 A:05-0F
JR NZ | 20 10 | main | A:10-20 fact:c10 | taken jump to=0012 t=12 A:11-20 | passed jump to=0002 t=7 A:10
JR C  | 38 10 | main | A:05-20 fact:c00 | passed jump to=0002 t=7 A:05-20
JR NC | 30 10 | main | A:05-0F fact:c10 | passed jump to=0002 t=7 A:05-0F
JR Z  | 28 10 | main | A:10 fact:c11    | passed jump to=0002 t=7 A:10
JR NZ | 20 10 | main | A:10 fact:c10    | passed jump to=0002 t=7 A:10
";

/// The cut of C makes the normal form: the word from 0105 to 0109. CPIR also ends where it finds the byte, so BC may be
/// any then. Only where it repeats BC is not 0.
const CUT: &str = "\
JR NZ | 20 10 | main | BC:0105-02FF:01-01:03-09 fact:zC | taken jump to=0012 t=12 BC:0105-0109:01-01:03-09
DJNZ  | 10 FE | main | B:01-08 | taken jump to=0000 t=13 B:01-07 B=B-1 C=C BC=? | passed jump to=0002 t=8 B:00 B=#0000
DJNZ  | 10 FE | main | B:01    | passed jump to=0002 t=8 B:00
DJNZ  | 10 FE | main | B:00    | taken jump to=0000 t=13 B:FF B=#00FF
LDIR  | ED B0 | main | BC:0001-0005 DE:4000 HL:0010-0013 fact:zA \
    | taken jump to=0000 t=21 BC:0001-0004 DE:4001 HL:0011-0014 fact:- BC=BC-1 B=#0000 C=? DE=#4001 HL=HL+1 A=A \
    | passed jump to=0002 t=16 BC:0000 DE:4001 HL:0011-0014 fact:- BC=#0000
LDIR  | ED B0 | main | BC:0001 | passed jump to=0002 t=16 BC:0000 mode:n
LDIR  | ED B0 | main | BC:0002 | taken jump to=0000 t=21 BC:0001 mode:n
LDIR  | ED B0 | main | BC:0000 | taken jump to=0000 t=21 BC:FFFF mode:n
CPIR  | ED B1 | main | BC:0001-0005 | taken jump to=0000 t=21 BC:0001-0004 AF:* | passed jump to=0002 t=16 BC:0000-0004
";

#[test]
fn steps(rt: HostRuntime) {
    let memory = first_wrong(rt.alloc(), &[ENABLES, CELLS, OF_ROM]);
    assert!(rt; memory.is_none(), "{memory:?}");
    let registers = first_wrong(rt.alloc(), &[COUNTS, FACTS, AFTER_CP, CUT]);
    assert!(rt; registers.is_none(), "{registers:?}");
    let stack = first_wrong(rt.alloc(), &[WORDS, REFUSED, WAYS]);
    assert!(rt; stack.is_none(), "{stack:?}");
    for row in WRITES.lines() {
        assert!(rt; writes_are_right(rt.alloc(), row), "{row}");
    }
}
