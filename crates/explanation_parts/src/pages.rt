// The pages that `galcert explain NUMBER` prints: what a reason means, a small ROM that has it, remedies.

/// The page of a reason, by its number (docs/CHECKER.md, "The table of reasons"); None for a number that no reason has.
pub fn page(number: u8) -> Option<&'static str> {
    Some(match number {
        1 => PAGE_1,
        2 => PAGE_2,
        3 => PAGE_3,
        4 => PAGE_4,
        5 => PAGE_5,
        6 => PAGE_6,
        7 => PAGE_7,
        8 => PAGE_8,
        9 => PAGE_9,
        10 => PAGE_10,
        11 => PAGE_11,
        12 => PAGE_12,
        13 => PAGE_13,
        14 => PAGE_14,
        15 => PAGE_15,
        16 => PAGE_16,
        17 => PAGE_17,
        18 => PAGE_18,
        19 => PAGE_19,
        20 => PAGE_20,
        21 => PAGE_21,
        22 => PAGE_22,
        _ => return None,
    })
}

const PAGE_1: &str = "\
1 Rom\n\
\n\
The ROM has no byte or more than 16,384, or not as many as the certificate\n\
says.\n\
\n\
A ROM that has it: (no bytes)\n\
\n\
\x20   0000  [1 Rom]\n\
\n\
Check the file: is it the ROM, uncompressed, and the one that the certificate\n\
was made for?\n";

const PAGE_2: &str = "\
2 Region\n\
\n\
The stack's region does not lie in work RAM, or is empty, or a kept cell lies\n\
in it: not w <= low < top <= w + 400h, where w is 4000 (8000 on the raised\n\
board).\n\
\n\
A ROM that has it: 31 00 44  LD SP,4400h / 18 FE  JR, with low = 0x4400 and top = 0x4380\n\
\n\
\x20   0000  [2 Region]\n\
\n\
Set `top` to the word of LD SP,nn and `low` below it by what the stack needs.\n";

const PAGE_3: &str = "\
3 Entry\n\
\n\
The first row of main asks for something that a reset does not give, or that\n\
of the NMI routine for something that an interrupted program does not give.\n\
Nothing is known at either.\n\
\n\
A ROM that has it: 31 00 44  LD SP,4400h / 18 FE  JR, with a fact at 0000\n\
\n\
\x20   0000  [3 Entry]\n\
\n\
Leave out the fact or the split at this address.\n";

const PAGE_4: &str = "\
4 Decode\n\
\n\
No documented instruction stands here: the bytes are data, or the ROM ends\n\
within them.\n\
\n\
A ROM that has it: 31 00 44  LD SP,4400h / DD DD\n\
\n\
\x20   0003  [4 Decode]\n\
\n\
End the path before it by JR, JP or RET. After a CALL whose callee takes the\n\
text that follows, mark the call `inline`.\n\
\n\
Rewritings: docs/HABITS.md, 3.\n";

const PAGE_5: &str = "\
5 IoSpace\n\
\n\
IN and OUT: the board has nothing in the I/O space.\n\
\n\
A ROM that has it: 31 00 44  LD SP,4400h / DB 00  IN A,(0)\n\
\n\
\x20   0003  [5 IoSpace]\n\
\n\
Ports are memory: `LD A,(6000h)`. Was the program written for another board?\n\
\n\
Rewritings: docs/HABITS.md, 3.\n";

const PAGE_6: &str = "\
6 WriteRom\n\
\n\
A store may hit the ROM.\n\
\n\
A ROM that has it: 31 00 44  LD SP,4400h / 32 00 00  LD (0000h),A\n\
\n\
\x20   0003  [6 WriteRom]\n\
\n\
Bound the pointer: a `fact` in a loop that counts, a `split` at a table, AND\n\
or CP before an index.\n\
\n\
Rewritings: docs/HABITS.md, 4 and 5.\n";

const PAGE_7: &str = "\
7 WriteUnmapped\n\
\n\
A store may hit an address where nothing is.\n\
\n\
A ROM that has it: 31 00 44  LD SP,4400h / 32 00 48  LD (4800h),A\n\
\n\
\x20   0003  [7 WriteUnmapped]\n\
\n\
As for 6. Does the loop run one address too far?\n\
\n\
Rewritings: docs/HABITS.md, 4 and 5.\n";

const PAGE_8: &str = "\
8 StackOverwrite\n\
\n\
A store may hit the stack's region. Main may store there only with nothing on\n\
the stack.\n\
\n\
A ROM that has it: 31 00 44  LD SP,4400h / C5  PUSH BC / 32 FE 43  LD (43FEh),A\n\
\n\
\x20   0004  [8 StackOverwrite]\n\
\n\
As for 6; or raise `low`, if the stack needs less. Clear all RAM before the\n\
first CALL.\n\
\n\
Rewritings: docs/HABITS.md, 4 and 5.\n";

const PAGE_9: &str = "\
9 StackUnset\n\
\n\
The stack is used before LD SP,nn.\n\
\n\
A ROM that has it: C5  PUSH BC\n\
\n\
\x20   0000  [9 StackUnset]\n\
\n\
Let LD SP,nn be one of the first instructions.\n\
\n\
Rewritings: docs/HABITS.md, 1.\n";

const PAGE_10: &str = "\
10 StackShape\n\
\n\
A POP or EX (SP) takes a word that this procedure did not push, RET finds\n\
something other than one address on top, main returns, or more than 64 words\n\
are pushed.\n\
\n\
A ROM that has it: 31 00 44  LD SP,4400h / C1  POP BC\n\
\n\
\x20   0003  [10 StackShape]\n\
\n\
A callee that takes its return address: mark its calls `inline`. A return to a\n\
pushed address: it has to be one address.\n\
\n\
Rewritings: docs/HABITS.md, 7 and 8.\n";

const PAGE_11: &str = "\
11 StackDepth\n\
\n\
The stack needs more bytes than the region has: main with the NMI routine over\n\
it.\n\
\n\
A ROM that has it: 31 00 44  LD SP,4400h / C5 C5  PUSH BC, PUSH BC / 18 FE  JR, with low = 0x43FE\n\
\n\
\x20   0000  [11 StackDepth]\n\
\n\
Lower `low` to what the explanation says.\n";

const PAGE_12: &str = "\
12 NotCovered\n\
\n\
A step leads to a state that no row has: a range, an origin, a fact or the\n\
shape of the stack differs there; or JP (HL) goes to more than one address.\n\
\n\
A ROM that has it: 31 00 44  LD SP,4400h / 2A 00 40  LD HL,(4000h) / E9  JP (HL)\n\
\n\
\x20   0006  [12 NotCovered]\n\
\n\
At a jump table a `split` by the index. Leave out a fact that dies: one whose\n\
variable becomes constant there, as BC after LDIR.\n\
\n\
Rewritings: docs/HABITS.md, 6 and 7.\n";

const PAGE_13: &str = "\
13 Rank\n\
\n\
Procedures call one another in a cycle. `check` answers `recursion`; `verify`\n\
finds a callee whose rank is not below its caller's.\n\
\n\
A ROM that has it: 31 00 44  LD SP,4400h / CD 06 00  CALL 0006h / CD 06 00  CALL 0006h / C9\n\
\n\
\x20   recursion\n\
\n\
No annotation helps: let the procedure return, and call it again from outside.\n\
\n\
Rewritings: docs/HABITS.md, 8.\n";

const PAGE_14: &str = "\
14 SavedRegister\n\
\n\
The NMI routine returns and a register pair need not be what it was when the\n\
NMI came; or LD I,A stands in it.\n\
\n\
A ROM that has it: 31 00 44 18 FE, and at 0066  3C  INC A / ED 45  RETN\n\
\n\
\x20   0067  [14 SavedRegister]\n\
\n\
Push the pair at the beginning, pop it at the end.\n\
\n\
Rewritings: docs/HABITS.md, 2.\n";

const PAGE_15: &str = "\
15 NmiBeforeStack\n\
\n\
A store may enable NMIs while SP is unset.\n\
\n\
A ROM that has it: 3E 01  LD A,1 / 32 01 70  LD (7001h),A\n\
\n\
\x20   0002  [15 NmiBeforeStack]\n\
\n\
LD SP,nn comes first.\n\
\n\
Rewritings: docs/HABITS.md, 1.\n";

const PAGE_16: &str = "\
16 NmiMissing\n\
\n\
A store may enable NMIs, and no NMI routine is annotated. A store enables them\n\
if 7001 (or another latch number 1 from 7000 to 77FF) lies in its range and\n\
its byte may be odd.\n\
\n\
A ROM that has it: 31 00 44  LD SP,4400h / 3E 01  LD A,1 / 32 01 70  LD (7001h),A\n\
\n\
\x20   0005  [16 NmiMissing]\n\
\n\
Say `nmi = true` and `budget`; or bound the store if it ought not to enable\n\
anything.\n\
\n\
Rewritings: docs/HABITS.md, 2.\n";

const PAGE_17: &str = "\
17 Time\n\
\n\
A row of the NMI routine, or of what it calls, has fewer T-states left than it\n\
needs: a loop whose counter does not go down, or a loop within a loop.\n\
`unbounded`: a loop has no counter at all.\n\
\n\
A ROM that has it: 31 00 44 3E 01 32 01 70 18 FE, and at 0066  F5  PUSH AF / C5  PUSH BC /\n\
0E 03  LD C,3 / 06 04  LD B,4 / 10 FE  DJNZ 006Ch / 0D  DEC C / 20 F9  JR NZ,006Ah /\n\
C1  POP BC / F1  POP AF / ED 45  RETN, with loops at 006A by C and at 006C by B\n\
\n\
\x20   006A  [17 Time]\n\
\n\
`loop = [{ at = 0x6C, counter = \"B\" }]` bounds one loop; of two loops within one\n\
another a `split` by the counter of the outer one.\n\
\n\
Rewritings: docs/HABITS.md, 9.\n";

const PAGE_18: &str = "\
18 Budget\n\
\n\
The NMI routine takes more T-states than the budget, or the budget is above\n\
50,665.\n\
\n\
A ROM that has it: 31 00 44 3E 01 32 01 70 18 FE, and at 0066  F5  PUSH AF / C5  PUSH BC /\n\
06 F0  LD B,F0h / 10 FE  DJNZ 006Ah / C1  POP BC / F1  POP AF / ED 45  RETN, with a loop at\n\
006A by B and budget = 3000\n\
\n\
\x20   0066  [18 Budget]\n\
\n\
Raise `budget`; above 50,665 shorten the routine.\n\
\n\
Rewritings: docs/HABITS.md, 9.\n";

const PAGE_19: &str = "\
19 HaltInNmi\n\
\n\
HALT in the NMI routine or in what it calls: no NMI comes there.\n\
\n\
A ROM that has it: 31 00 44 18 FE, and at 0066  76  HALT\n\
\n\
\x20   0066  [19 HaltInNmi]\n\
\n\
HALT stands in main.\n\
\n\
Rewritings: docs/HABITS.md, 2.\n";

const PAGE_20: &str = "\
20 SpWrite\n\
\n\
SP is written otherwise than by LD SP,nn of main with the region's top.\n\
\n\
A ROM that has it: 31 F0 43  LD SP,43F0h, with top = 0x4400\n\
\n\
\x20   0000  [20 SpWrite]\n\
\n\
Set `top` to the word of LD SP,nn. Restart by a return to main, not by LD SP.\n\
Compiled C: docs/C.md.\n\
\n\
Rewritings: docs/HABITS.md, 8.\n";

const PAGE_21: &str = "\
21 CellRange\n\
\n\
A store may put a byte into a kept cell that is not in its range.\n\
\n\
A ROM that has it: 31 00 44  LD SP,4400h / AF  XOR A / 32 00 40  LD (4000h),A / 3C  INC A /\n\
32 01 70  LD (7001h),A / 21 00 40  LD HL,4000h / 34  INC (HL) / 18 FD  JR 000Eh, and at 0066\n\
F5 F1 ED 45, with a cell at 4000 from 0 to 2\n\
\n\
\x20   000E  [21 CellRange]\n\
\n\
Load the byte, change and test it in A, and store it once.\n\
\n\
Rewritings: docs/HABITS.md, 10.\n";

const PAGE_22: &str = "\
22 CellUnarmed\n\
\n\
NMIs may be enabled before each kept cell was stored.\n\
\n\
A ROM that has it: 31 00 44  LD SP,4400h / 3E 01  LD A,1 / 32 01 70  LD (7001h),A /\n\
18 FE  JR, and at 0066  F5 F1 ED 45, with a cell at 4000 from 0 to 2\n\
\n\
\x20   0005  [22 CellUnarmed]\n\
\n\
Store each cell, in the order of the annotations' addresses, before the NMI\n\
enable.\n\
\n\
Rewritings: docs/HABITS.md, 1.\n";
