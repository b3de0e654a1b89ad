// Linear effects, one row or more for each line of the table, and the ranges that they leave.
use crate::refined_rows::first_wrong;

/// There is a linear effect where all sums lie in one window: none wraps, or all do. A carry counts only at ADC.
const SUMS: &str = "\
ADD A,0A                  | C6 0A | A:00-F5         | -   | A=10+1*A
ADD A,0A, C set           | C6 0A | A:00-F5         | c-1 | A=10+1*A
ADD A,0A: wraps           | C6 0A | A:F6-FF         | -   | A=-246+1*A
ADD A,0A: may wrap        | C6 0A | A:F5-F6         | -   | none
ADD A,B                   | 80 00 | A:00-37 B:64-C8 | -   | A=0+1*A+1*B
ADD A,B: may wrap         | 80 00 | A:00-38 B:64-C8 | -   | none
ADD A,B: wraps            | 80 00 | A:9C-C8 B:64-C8 | -   | A=-256+1*A+1*B
ADD A,A                   | 87 00 | A:00-7F         | -   | A=0+2*A
ADD A,A: wraps            | 87 00 | A:80-FF         | -   | A=-256+2*A
ADD A,A: may wrap         | 87 00 | A:7F-80         | -   | none
ADC A,0A                  | CE 0A | A:00-F5         | -   | none
ADC A,0A, C clear         | CE 0A | A:00-F5         | c0  | A=10+1*A
ADC A,0A, C set           | CE 0A | A:00-F4         | c-1 | A=11+1*A
ADC A,0A, C set: may wrap | CE 0A | A:00-F5         | c-1 | none
ADC A,0A, C set: wraps    | CE 0A | A:F5-FF         | c-1 | A=-245+1*A
CPL                       | 2F 00 |                 | -   | A=255-1*A
LD A,B                    | 78 00 | A:01-02         | -   | none
INC A                     | 3C 00 | A:01-02         | -   | none
";

const DIFFERENCES: &str = "\
SUB 0A                      | D6 0A | A:0A-FF         | -   | A=-10+1*A
SUB 0A, C set               | D6 0A | A:0A-FF         | c-1 | A=-10+1*A
SUB 0A: borrows             | D6 0A | A:00-09         | -   | A=246+1*A
SUB 0A: may borrow          | D6 0A | A:09-0A         | -   | none
SUB B                       | 90 00 | A:14-1E B:0A-14 | -   | A=0+1*A-1*B
SUB B: may borrow           | 90 00 | A:13-1E B:0A-14 | -   | none
SUB A                       | 97 00 |                 | -   | A=0
SBC A,0A                    | DE 0A | A:0B-FF         | -   | none
SBC A,0A, C clear           | DE 0A | A:0A-FF         | c0  | A=-10+1*A
SBC A,0A, C set             | DE 0A | A:0B-FF         | c-1 | A=-11+1*A
SBC A,0A, C set: may borrow | DE 0A | A:0A-FF         | c-1 | none
SBC A,0A, C set: borrows    | DE 0A | A:00-0A         | c-1 | A=245+1*A
SBC A,A                     | 9F 00 |                 | -   | none
SBC A,A, C clear            | 9F 00 |                 | c0  | A=0
SBC A,A, C set              | 9F 00 |                 | c-1 | A=255
CP 0A: changes no variable  | FE 0A | A:0A-FF         | -   | none
NEG                         | ED 44 | A:01-FF         | -   | A=256-1*A
NEG: of 0 it is 0, not 256  | ED 44 |                 | -   | none
";

/// The bits that A may have are 3 up to 3, and 7 up to 7.
const LOGIC: &str = "\
AND A  | A7 00 |                 | - | A=0+1*A
OR A   | B7 00 |                 | - | A=0+1*A
AND 03 | E6 03 | A:00-03         | - | A=0+1*A
AND 03 | E6 03 | A:00-04         | - | none
AND 07 | E6 07 | A:00-04         | - | A=0+1*A
AND 06 | E6 06 | A:00-04         | - | none
AND 87 | E6 87 | A:02-07         | - | A=0+1*A
AND 05 | E6 05 | A:00-03         | - | none
AND FF | E6 FF |                 | - | A=0+1*A
OR 04  | F6 04 | A:00-03         | - | A=4+1*A
OR 04  | F6 04 | A:00-04         | - | none
XOR 04 | EE 04 | A:00-03         | - | A=4+1*A
XOR 04 | EE 04 | A:00-04         | - | none
XOR 05 | EE 05 | A:00-03         | - | none
AND B  | A0 00 | A:00-03 B:07    | - | A=0+1*A
AND B  | A0 00 | A:00-03 B:06-07 | - | none
OR B   | B0 00 | A:00-03 B:50    | - | A=80+1*A
OR B   | B0 00 | A:00-03 B:50-54 | - | none
XOR B  | A8 00 | A:00-03 B:50    | - | A=80+1*A
";

const WORD_SUMS: &str = "\
ADD HL,BC                  | 09 00 | HL:4000-4010 BC:0000-0005 | -   | HL=0+1*BC+1*HL
ADD HL,BC, C set           | 09 00 | HL:4000-4010 BC:0000-0005 | c-1 | HL=0+1*BC+1*HL
ADD HL,BC: wraps           | 09 00 | HL:F000-FFFF BC:1000      | -   | HL=-65536+1*BC+1*HL
ADD HL,BC: may wrap        | 09 00 | HL:EFFF-F000 BC:1000      | -   | none
ADD HL,DE                  | 19 00 | HL:4000-4010 DE:0000-0005 | -   | HL=0+1*DE+1*HL
ADD HL,HL                  | 29 00 | HL:0000-7FFF              | -   | HL=0+2*HL
ADD HL,HL: may wrap        | 29 00 | HL:0000-8000              | -   | none
ADD HL,SP                  | 39 00 | HL:0000-0001              | -   | none
ADD IX,DE                  | DD 19 | IX:4300-4310 DE:0004      | -   | IX=0+1*DE+1*IX
ADD IX,IX                  | DD 29 | IX:1000-2000              | -   | IX=0+2*IX
ADD IX,SP                  | DD 39 | IX:0000-0001              | -   | none
ADD IY,BC                  | FD 09 | IY:1000-2000 BC:0000-0005 | -   | IY=0+1*BC+1*IY
ADD IY,IY: wraps           | FD 29 | IY:8000-9000              | -   | IY=-65536+2*IY
ADC HL,DE                  | ED 5A | HL:0000-000A DE:0000-0005 | -   | none
ADC HL,DE, C clear         | ED 5A | HL:0000-000A DE:0000-0005 | c0  | HL=0+1*DE+1*HL
ADC HL,DE, C set           | ED 5A | HL:0000-000A DE:0000-0005 | c-1 | HL=1+1*DE+1*HL
ADC HL,DE, C clear         | ED 5A | HL:0000-FFF0 DE:0000-000F | c0  | HL=0+1*DE+1*HL
ADC HL,DE, C set: may wrap | ED 5A | HL:0000-FFF0 DE:0000-000F | c-1 | none
ADC HL,HL, C set           | ED 6A | HL:0000-7FFF              | c-1 | HL=1+2*HL
ADC HL,SP, C clear         | ED 7A | HL:0000-0001              | c0  | none
";

const WORD_DIFFERENCES: &str = "\
SBC HL,BC                    | ED 42 | HL:000A-0014 BC:0000-0005 | -   | none
SBC HL,BC, C clear           | ED 42 | HL:000A-0014 BC:0000-000A | c0  | HL=0-1*BC+1*HL
SBC HL,BC, C set             | ED 42 | HL:000A-0014 BC:0000-0009 | c-1 | HL=-1-1*BC+1*HL
SBC HL,BC, C set: may borrow | ED 42 | HL:000A-0014 BC:0000-000A | c-1 | none
SBC HL,BC, C clear: borrows  | ED 42 | HL:000A-0014 BC:0015-001E | c0  | HL=65536-1*BC+1*HL
SBC HL,HL                    | ED 62 |                           | -   | none
SBC HL,HL, C clear           | ED 62 |                           | c0  | HL=0
SBC HL,HL, C set             | ED 62 |                           | c-1 | HL=65535
SBC HL,SP, C clear           | ED 72 | HL:000A-0014              | c0  | none
INC HL                       | 23 00 | HL:000A-0014              | -   | none
EX DE,HL                     | EB 00 | HL:000A-0014              | -   | none
";

/// Where HL is 0002 or 0003, (HL) is 10 or 20. The table of results alone gives 50 to 7F after OR 50.
const RANGES: &str = "\
SUB 0A                           | D6 0A       | A:0A-14              | -   | A=-10+1*A | A:00-0A fact:zA
SUB 0A: may borrow               | D6 0A       | A:09-14              | -   | none      | A:00-FF fact:zA
OR 50                            | F6 50       | A:00-03              | -   | A=80+1*A  | A:50-53 fact:zA
OR 51: A may have bit 0          | F6 51       | A:00-03              | -   | none
ADC A,(HL), C set                | 8E 00 10 20 | A:00 HL:0002-0003    | c-1 | none      | A:11-21 fact:zA
ADC A,(HL)                       | 8E 00 10 20 | A:00 HL:0002-0003    | -   |           | A:10-21 fact:zA
ADC A,(HL), C set                | 8E 00 10 10 | A:00 HL:0002-0003    | c-1 |           | A:11 A=#0011 moved.A=? fact:zA
OR A                             | B7 00       | A:05-09              | -   |           | A:05-09 fact:zA
AND A                            | A7 00       | A:05-09              | -   |           | A:05-09 fact:zA
OR 50                            | F6 50       | A:01-02              | -   |           | A:51-52 fact:zA
XOR 50                           | EE 50       | A:01-02              | -   |           | A:51-52 fact:zA
ADC A,(HL), C clear              | 8E 00 10 20 | A:01-02 HL:0002-0003 | c0  |           | A:11-22 fact:zA
ADC A,(HL), C set                | 8E 00 10 20 | A:01-02 HL:0002-0003 | c-1 |           | A:12-23 fact:zA
ADC A,(HL)                       | 8E 00 10 20 | A:01-02 HL:0002-0003 | -   |           | A:11-23 fact:zA
SBC A,(HL), C clear              | 9E 00 10 20 | A:40 HL:0002-0003    | c0  |           | A:20-30 fact:zA
SBC A,(HL), C set                | 9E 00 10 20 | A:40 HL:0002-0003    | c-1 |           | A:1F-2F fact:zA
SBC A,(HL)                       | 9E 00 10 20 | A:40 HL:0002-0003    | -   |           | A:1F-30 fact:zA
SBC A,(HL), C clear: both borrow | 9E 00 10 20 | A:00-0F HL:0002-0003 | c0  |           | A:E0-FF fact:zA
SBC A,(HL), C clear: one borrows | 9E 00 10 20 | A:00-10 HL:0002-0003 | c0  |           | A:00-FF fact:zA
SBC A,(HL), C set: both borrow   | 9E 00 10 20 | A:00-10 HL:0002-0003 | c-1 |           | A:DF-FF fact:zA
";

#[test]
fn are_made(rt: HostRuntime) {
    let wrong = first_wrong(
        rt.alloc(),
        &[
            SUMS,
            DIFFERENCES,
            LOGIC,
            WORD_SUMS,
            WORD_DIFFERENCES,
            RANGES,
        ],
    );
    assert!(rt; wrong.is_none(), "{wrong:?}");
}
