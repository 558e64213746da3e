//! The programs: lines that come first, and lines that come again and again.

/// A program of one kind of instruction. It ends with EXIT after the last repetition.
#[derive(Clone, Copy)]
pub struct Kind {
    pub name: &'static str,
    pub head: &'static str,
    pub body: &'static str,
    /// How often the body is there.
    pub times: usize,
    /// How often a round runs it on each record.
    pub runs: u32,
}

/// One instruction on a record, and long programs of one instruction.
pub static PLAIN: [Kind; 4] = [
    Kind {
        name: "short",
        head: "mov64 r0, 0\njlt64 r2, 1, +1\n",
        body: "ld8 r0, [r1+0]\n",
        times: 1,
        runs: 256,
    },
    Kind {
        name: "sums",
        head: "mov64 r0, 0\njlt64 r2, 1, +4093\n",
        body: "add64 r0, r2\n",
        times: 4093,
        runs: 1,
    },
    Kind {
        name: "loads",
        head: "mov64 r0, 0\njlt64 r2, 1, +4093\n",
        body: "ld8 r0, [r1+0]\n",
        times: 4093,
        runs: 1,
    },
    Kind {
        name: "jumps",
        head: "mov64 r0, 0\njlt64 r2, 1, +4093\n",
        body: "jeq64 r2, 70000, +0\n",
        times: 4093,
        runs: 1,
    },
];

/// Long programs of arithmetic.
pub static ARITHMETIC: [Kind; 6] = [
    Kind {
        name: "arithmetic of 32 bits",
        head: "mov64 r0, 7\nmov64 r6, 123456789\n",
        body: "add32 r0, r6\nmul32 r0, 1000003\nxor32 r0, r6\nsub32 r0, 99\nor32 r0, 1\nand32 r0, -5\nneg32 r0\nmov32 r7, r0\n",
        times: 511,
        runs: 1,
    },
    Kind {
        name: "quotients",
        head: "mov64 r6, -1234567891\nmov64 r7, 37\n",
        body: "mov64 r0, r6\ndiv64 r0, r7\nmod64 r0, 1000\nmov32 r8, r6\ndiv32 r8, r7\nmod32 r8, 9\n",
        times: 682,
        runs: 1,
    },
    Kind {
        name: "signed quotients",
        head: "mov64 r6, -1234567891\nmov64 r7, -37\n",
        body: "mov64 r0, r6\nsdiv64 r0, r7\nsmod64 r0, 1000\nmov32 r8, r6\nsdiv32 r8, r7\nsmod32 r8, -9\n",
        times: 682,
        runs: 1,
    },
    Kind {
        name: "shifts",
        head: "mov64 r0, -1\nmov64 r6, 3\n",
        body: "lsh64 r0, 5\nrsh64 r0, r6\narsh64 r0, 1\nlsh32 r0, r6\nrsh32 r0, 2\narsh32 r0, r6\n",
        times: 682,
        runs: 1,
    },
    Kind {
        name: "sign extensions",
        head: "mov64 r6, -77\n",
        body: "movsx64.8 r0, r6\nmovsx64.16 r0, r6\nmovsx64.32 r0, r6\nmovsx32.8 r0, r6\nmovsx32.16 r0, r6\n",
        times: 818,
        runs: 1,
    },
    Kind {
        name: "byte orders",
        head: "mov64 r0, -77\n",
        body: "le64 r0\nbe64 r0\nswap64 r0\nle32 r0\nbe32 r0\nswap32 r0\nle16 r0\nbe16 r0\nswap16 r0\n",
        times: 454,
        runs: 1,
    },
];

/// Long programs of loads and stores, of jumps, of wide numbers and of calls.
pub static OTHERS: [Kind; 8] = [
    Kind {
        name: "stack",
        head: "mov64 r6, -77\n",
        body: "st8 [r10-1], 5\nst16 [r10-4], 600\nst32 [r10-8], -7\nst64 [r10-16], 1\nstx8 [r10-17], r6\nstx16 [r10-20], r6\nstx32 [r10-24], r6\nstx64 [r10-32], r6\nld8 r0, [r10-1]\nld16 r0, [r10-4]\nld32 r0, [r10-8]\nld64 r0, [r10-16]\n",
        times: 341,
        runs: 1,
    },
    Kind {
        name: "signed loads",
        head: "mov64 r0, 0\njge64 r2, 16, +1\nexit\n",
        body: "lds8 r0, [r1+3]\nlds16 r0, [r1+5]\nlds32 r0, [r1+8]\n",
        times: 1364,
        runs: 1,
    },
    Kind {
        name: "jumps of 32 bits and signed",
        head: "mov64 r0, 0\nmov64 r6, -5\n",
        body: "jeq32 r6, 3, +0\njne32 r6, r0, +0\njgt32 r6, 9, +0\njset32 r6, 4, +0\njsgt64 r6, 0, +0\njsle64 r6, r0, +0\njslt32 r6, 0, +0\njsge32 r6, r0, +0\n",
        times: 511,
        runs: 1,
    },
    Kind {
        name: "wide numbers",
        head: "mov64 r0, 0\n",
        body: "imm64 r0, 1311768467463790320\n",
        times: 2047,
        runs: 1,
    },
    Kind {
        name: "refused calls",
        head: "mov64 r0, 0\n",
        body: "mov64 r1, 1\ncall 3\n",
        times: 2047,
        runs: 1,
    },
    Kind {
        name: "1 emission",
        head: "mov64 r0, 0\n",
        body: "mov64 r1, 0\ncall 3\n",
        times: 1,
        runs: 256,
    },
    Kind {
        name: "1 emission by address",
        head: "mov64 r3, r2\nmov64 r2, r1\n",
        body: "mov64 r1, 0\ncall 4\n",
        times: 1,
        runs: 256,
    },
    Kind {
        name: "16 emissions",
        head: "mov64 r0, 0\n",
        body: "mov64 r1, 0\ncall 3\n",
        times: 16,
        runs: 64,
    },
];
