//! Programs whose outcomes on many records are known.

/// Rejects with the first byte, and with 1,000 more where that is above 99.
pub(crate) static NUMBERS: &str =
    "mov64 r0, 0; jlt64 r2, 1, +3; ld8 r0, [r1+0]; jle64 r0, 99, +1; add64 r0, 1000; exit";

/// Stores the first byte, and emits it from the stack where it is even; else rejects with it.
pub(crate) static BYTES: &str = "\
    mov64 r0, 0; jlt64 r2, 1, +24; ld8 r0, [r1+0]; mov64 r7, r0; stx8 [r10-1], r0; mov64 r8, 1; add64 r8, 1; \
    add64 r7, r8; sub64 r7, r8; mul64 r8, 3; xor64 r7, r8; xor64 r7, r8; mov64 r8, 1; add64 r8, 1; add64 r7, r8; \
    sub64 r7, r8; lsh64 r7, 1; rsh64 r7, 1; and64 r7, 1; jeq64 r7, 1, +6; mov64 r2, r10; add64 r2, -1; mov64 r1, 0; \
    mov64 r3, 1; call 4; exit; exit";

/// Does the same, mostly by what is done record by record: so a block runs each to its end at once.
pub(crate) static STORES: &str = "\
    mov64 r0, 0; jlt64 r2, 1, +11; ld8 r0, [r1+0]; stx8 [r10-1], r0; stx8 [r10-2], r0; ld8 r7, [r10-2]; and64 r7, 1; \
    jeq64 r7, 1, +5; mov64 r2, r10; add64 r2, -1; mov64 r1, 0; mov64 r3, 1; call 4; exit";

/// Rejects with what it reads from a key of eight bytes: by half words where the second is below 128, and
/// else by words.
pub(crate) static KEYS: &str = "\
    mov64 r0, 0; jlt64 r4, 8, +13; imm64 r0, 81985529216486895; ld64 r6, [r3+0]; ld8 r7, [r3+1]; jlt64 r7, 128, +2; \
    ld32 r8, [r3+4]; ja +2; ld16 r8, [r3+2]; add64 r8, 1; lds8 r9, [r3+3]; xor64 r0, r6; add64 r0, r8; add64 r0, r9; \
    exit";

/// Rejects with a number that it computes with operations and tests of 32 bits, from a key of eight bytes.
pub(crate) static WORDS: &str = "\
    mov64 r0, 0; jlt64 r4, 8, +12; ld64 r6, [r3+0]; mov32 r7, r6; mov32 r8, -1; add32 r7, -1640531527; xor32 r7, r8; \
    mul32 r7, 16777619; jlt32 r7, -2147483648, +1; add32 r7, 1; jslt32 r7, 0, +1; mod64 r7, 10007; add64 r7, 1; \
    mov64 r0, r7; exit";

/// Emits the record as it is once, and again where its first byte is above 99. Where it is above 199, there is no such
/// output, and the answer is the code.
pub(crate) static WHOLES: &str = "\
    mov64 r0, 0; jlt64 r2, 1, +9; ld8 r6, [r1+0]; mov64 r1, 0; jlt64 r6, 200, +1; mov64 r1, 1; call 3; \
    jlt64 r6, 100, +3; jge64 r6, 200, +2; mov64 r1, 0; call 3; exit";
