// What parts leave of A and L where the test of a jump, a call or a return holds, and where it does not. An outcome
// without a successor never comes.
use crate::refined_rows::first_wrong;

/// One value is left where A equals it. Elsewhere it is cut from either end of A, and from no other place. A part
/// without A holds always or never.
const EQUAL: &str = "\
JP Z  | CA 00 00 |         | z-8+1*A  |  | taken A:08            | passed A:00-FF
JP NZ | C2 00 00 |         | z-8+1*A  |  | taken A:00-FF         | passed A:08
JP Z  | CA 00 00 | A:08-14 | z-8+1*A  |  | taken A:08            | passed A:09-14
JP NZ | C2 00 00 | A:01-08 | z-8+1*A  |  | taken A:01-07         | passed A:08
JP Z  | CA 00 00 | A:08    | z-8+1*A  |  | taken A:08
JP Z  | CA 00 00 | A:09-14 | z-8+1*A  |  | passed A:09-14
JP Z  | CA 00 00 | A:08-14 | z-16+2*A |  | taken A:08            | passed A:09-14
JP Z  | CA 00 00 | A:08-14 | z-17+2*A |  | passed A:08-14
JP NZ | C2 00 00 | A:08-14 | z16-2*A  |  | taken A:09-14         | passed A:08
JP Z  | CA 00 00 |         | z0       |  | taken A:00-FF
JP Z  | CA 00 00 |         | z3       |  | passed A:00-FF
JR NZ | 20 10    | A:01-08 | z-8+1*A  |  | taken A:01-07 L:00-FF | passed A:08 L:00-FF
JR NZ | 20 10    | A:09-14 | z-8+1*A  |  | taken A:09-14 L:00-FF
";

/// Where A is below a value, and where it is not.
const BELOW: &str = "\
JP Z   | CA 00 00 |         | b-128+1*A |  | taken A:00-7F         | passed A:80-FF
JP NZ  | C2 00 00 |         | b-128+1*A |  | taken A:80-FF         | passed A:00-7F
JP C   | DA 00 00 |         | c-64+1*A  |  | taken A:00-3F         | passed A:40-FF
JP NC  | D2 00 00 |         | c-64+1*A  |  | taken A:40-FF         | passed A:00-3F
JP C   | DA 00 00 |         | c191-1*A  |  | taken A:C0-FF         | passed A:00-BF
JP M   | FA 00 00 |         | s127-1*A  |  | taken A:80-FF         | passed A:00-7F
JP P   | F2 00 00 |         | s127-1*A  |  | taken A:00-7F         | passed A:80-FF
JR C   | 38 00 00 |         | c-64+1*A  |  | taken A:00-3F         | passed A:40-FF
CALL C | DC 00 00 |         | c-64+1*A  |  | taken A:00-3F         | passed A:40-FF
RET M  | F8 00 00 |         | s127-1*A  |  | taken A:80-FF         | passed A:00-7F
JP C   | DA 00 00 |         | c-10+3*A  |  | taken A:00-03         | passed A:04-FF
JP C   | DA 00 00 | A:40-46 | c-64+1*A  |  | passed A:40-46
JP C   | DA 00 00 | A:3C-3F | c-64+1*A  |  | taken A:3C-3F
JP C   | DA 00 00 |         | c-1       |  | taken A:00-FF
JP C   | DA 00 00 |         | c0        |  | passed A:00-FF
RET Z  | C8 00    |         | b-128+1*A |  | taken A:00-7F L:00-FF | passed A:80-FF L:00-FF
";

/// A part says nothing of a test of another flag.
const OTHER_FLAGS: &str = "\
JP Z  | CA 00 00 |  | c-64+1*A |  | taken A:00-FF | passed A:00-FF
JP Z  | CA 00 00 |  | s-64+1*A |  | taken A:00-FF | passed A:00-FF
JP NZ | C2 00 00 |  | c-64+1*A |  | taken A:00-FF | passed A:00-FF
JP C  | DA 00 00 |  | z-8+1*A  |  | taken A:00-FF | passed A:00-FF
JP C  | DA 00 00 |  | b-64+1*A |  | taken A:00-FF | passed A:00-FF
JP C  | DA 00 00 |  | s-64+1*A |  | taken A:00-FF | passed A:00-FF
JP NC | D2 00 00 |  | s-64+1*A |  | taken A:00-FF | passed A:00-FF
JP M  | FA 00 00 |  | z-8+1*A  |  | taken A:00-FF | passed A:00-FF
JP M  | FA 00 00 |  | b-64+1*A |  | taken A:00-FF | passed A:00-FF
JP M  | FA 00 00 |  | c-64+1*A |  | taken A:00-FF | passed A:00-FF
JP P  | F2 00 00 |  | c-64+1*A |  | taken A:00-FF | passed A:00-FF
JP PE | EA 00 00 |  | z-8+1*A  |  | taken A:00-FF | passed A:00-FF
JP PE | EA 00 00 |  | b-64+1*A |  | taken A:00-FF | passed A:00-FF
JP PE | EA 00 00 |  | c-64+1*A |  | taken A:00-FF | passed A:00-FF
JP PE | EA 00 00 |  | s-64+1*A |  | taken A:00-FF | passed A:00-FF
JP PO | E2 00 00 |  | z-8+1*A  |  | taken A:00-FF | passed A:00-FF
JP PO | E2 00 00 |  | s-64+1*A |  | taken A:00-FF | passed A:00-FF
";

/// Of two variables each is cut. At NZ a value is cut only if the other variable has one value. Each part sees what the
/// one before it left, and one that never holds drops the outcome.
const SEVERAL: &str = "\
JP C   | DA 00 00 | A:0A-14 L:00-0F | c0+1*A-1*L          |  | taken A:0A-0E L:0B-0F | passed A:0A-14 L:00-0F
JP C   | DA 00 00 | A:00-14 L:0A-1E | c0+1*A-1*L          |  | taken A:00-14 L:0A-1E | passed A:0A-14 L:0A-14
JP Z   | CA 00 00 | A:05-14 L:05-06 | z0+1*A-1*L          |  | taken A:05-06 L:05-06 | passed A:05-14 L:05-06
JP Z   | CA 00 00 | A:05-14 L:05    | z0+1*A-1*L          |  | taken A:05 L:05       | passed A:06-14 L:05
JP C   | DA 00 00 |                 | c-64+1*A,c0-1*A+1*L |  | taken A:01-3F L:00-3E | passed A:40-FF L:40-FF
JP C   | DA 00 00 |                 | c0-1*A+1*L,c-64+1*A |  | taken A:01-3F L:00-FE | passed A:40-FF L:00-FF
JP C   | DA 00 00 |                 | c-64+1*A,c0         |  | passed A:40-FF
RET NC | D0 00    |                 | c-64+1*L,c191-1*A   |  | taken A:00-BF L:40-FF | passed A:C0-FF L:00-3F
";

#[test]
fn are_left(rt: HostRuntime) {
    let wrong = first_wrong(rt.alloc(), &[EQUAL, BELOW, OTHER_FLAGS, SEVERAL]);
    assert!(rt; wrong.is_none(), "{wrong:?}");
}
