// Texts of certificates (docs/CERTIFICATE.md).

/// LD SP,4400h and a jump to itself: the certificate of version 1.
pub const JUMP: &str = "galcert 1\n\
    rom 6\n\
    stack 4380 4400\n\
    budget -\n\
    proc main 0000 0 0 -\n\
    row 0 0000 u * * * * * * * * * * - - - -\n\
    row 0 0003 s * * * * * * * * * * - - - -\n\
    end\n";

/// The same in version 2.
pub const JUMP_OF_TWO: &str = "galcert 2\n\
    rom 6\n\
    map galaxian\n\
    stack 4380 4400\n\
    budget -\n\
    proc main 0000 0 0 -\n\
    row 0 0000 u 0 * * * * * * * * * * - - - -\n\
    row 0 0003 s 0 * * * * * * * * * * - - - -\n\
    end\n";

/// Every line and every field of version 2, each with a number of its own.
pub const EVERY_FORM: &str = "galcert 2\n\
    rom 300\n\
    map raised\n\
    stack 8380 83FE\n\
    budget 7000\n\
    proc main 0000 3 16 -\n\
    proc nmi 0066 1 24 6500\n\
    proc sub 0020 2 10 -\n\
    proc sub 0100 0 2 1000000000\n\
    split 0 0003 B\n\
    split 0 0010 L\n\
    split 3 0003 A\n\
    inline 0007\n\
    inline 00FE\n\
    cell 8000 12 34\n\
    cell 83FF 00 09\n\
    row 0 0000 u 0 * * * * * * * * * * - - - -\n\
    row 0 0003 s 1 0012-FFED:01-FE:13-EC@HL *@AF 0001-0002:03-04:05-06 * * * * * * *@BC' zB - 1234-5678:12-56:34-78@IX,* -\n\
    row 0 0003 s 2 * * * * * * * * * * c5A -5+2*B-3*HL,7,0+1*s0h-1000000*s1l *,*@DE' -\n\
    row 1 0066 n 2 *@AF *@BC *@DE *@HL *@IX *@IY *@AF' *@BC' *@DE' *@HL' - - - -1000000000+999999*A-1*BC+4*IY\n\
    row 3 0100 n 2 * * * * * * * * * * zL 1-2*E * 15+13*s0\n\
    end\n";

/// Every kind of line of version 3, each letter of a flag part, and rows with no, one and eight flag parts.
pub const EVERY_PART: &str = "galcert 3\n\
    rom 300\n\
    map raised\n\
    stack 8380 83FE\n\
    budget 7000\n\
    proc main 0000 3 16 -\n\
    proc nmi 0066 1 24 6500\n\
    proc sub 0020 2 10 -\n\
    split 0 0003 B\n\
    inline 0007\n\
    cell 8000 12 34\n\
    row 0 0000 u 0 * * * * * * * * * * - - - -\n\
    row 0 0003 s 1 * * * * * * * * * * z0+1*s0h-1*s1l 7 *,*@IX -\n\
    row 0 0003 s 1 * * * * * * * * * * \
    z0,b-128+1*A,c-64+1*L,s127-1*A,c-64+1*L,z1000000000,c-1000000000-1000000*IY,z1+1*A-2*BC+3*s0 - * -\n\
    row 1 0066 n 1 * * * * * * * * * * - - - 20\n\
    end\n";
