//! Arithmetic on a register and an immediate.

use crate::Case;

/// Cases of `addi`.
pub const ADDI: [Case; 4] = [
    Case {
        word: 0x0073_0293,
        before: "pc 00001000\nx[5] 00000009\nx[6] 00000005\n",
        after: "pc 00001004\nx[5] 0000000c\nx[6] 00000005\n",
    },
    Case {
        word: 0x7ff3_0293,
        before: "pc 00001000\nx[5] 00000009\nx[6] 80000000\n",
        after: "pc 00001004\nx[5] 800007ff\nx[6] 80000000\n",
    },
    Case {
        word: 0xfff0_0293,
        before: "pc 00001000\nx[0] 5a5a5a5a\nx[5] 00000003\n",
        after: "pc 00001004\nx[0] 5a5a5a5a\nx[5] ffffffff\n",
    },
    Case {
        word: 0x0053_0013,
        before: "pc 00001000\nx[6] 00000003\n",
        after: "pc 00001004\nx[6] 00000003\n",
    },
];

/// Cases of `slti`.
pub const SLTI: [Case; 4] = [
    Case {
        word: 0x0073_2293,
        before: "pc 00001000\nx[5] 00000009\nx[6] 00000005\n",
        after: "pc 00001004\nx[5] 00000001\nx[6] 00000005\n",
    },
    Case {
        word: 0x7ff3_2293,
        before: "pc 00001000\nx[5] 00000009\nx[6] 80000000\n",
        after: "pc 00001004\nx[5] 00000001\nx[6] 80000000\n",
    },
    Case {
        word: 0xfff0_2293,
        before: "pc 00001000\nx[0] 5a5a5a5a\nx[5] 00000003\n",
        after: "pc 00001004\nx[0] 5a5a5a5a\n",
    },
    Case {
        word: 0x0053_2013,
        before: "pc 00001000\nx[6] 00000003\n",
        after: "pc 00001004\nx[6] 00000003\n",
    },
];

/// Cases of `sltiu`.
pub const SLTIU: [Case; 4] = [
    Case {
        word: 0x0073_3293,
        before: "pc 00001000\nx[5] 00000009\nx[6] 00000005\n",
        after: "pc 00001004\nx[5] 00000001\nx[6] 00000005\n",
    },
    Case {
        word: 0x7ff3_3293,
        before: "pc 00001000\nx[5] 00000009\nx[6] 80000000\n",
        after: "pc 00001004\nx[6] 80000000\n",
    },
    Case {
        word: 0xfff0_3293,
        before: "pc 00001000\nx[0] 5a5a5a5a\nx[5] 00000003\n",
        after: "pc 00001004\nx[0] 5a5a5a5a\nx[5] 00000001\n",
    },
    Case {
        word: 0x0053_3013,
        before: "pc 00001000\nx[6] 00000003\n",
        after: "pc 00001004\nx[6] 00000003\n",
    },
];

/// Cases of `xori`.
pub const XORI: [Case; 4] = [
    Case {
        word: 0x0073_4293,
        before: "pc 00001000\nx[5] 00000009\nx[6] 00000005\n",
        after: "pc 00001004\nx[5] 00000002\nx[6] 00000005\n",
    },
    Case {
        word: 0x7ff3_4293,
        before: "pc 00001000\nx[5] 00000009\nx[6] 80000000\n",
        after: "pc 00001004\nx[5] 800007ff\nx[6] 80000000\n",
    },
    Case {
        word: 0xfff0_4293,
        before: "pc 00001000\nx[0] 5a5a5a5a\nx[5] 00000003\n",
        after: "pc 00001004\nx[0] 5a5a5a5a\nx[5] ffffffff\n",
    },
    Case {
        word: 0x0053_4013,
        before: "pc 00001000\nx[6] 00000003\n",
        after: "pc 00001004\nx[6] 00000003\n",
    },
];

/// Cases of `ori`.
pub const ORI: [Case; 4] = [
    Case {
        word: 0x0073_6293,
        before: "pc 00001000\nx[5] 00000009\nx[6] 00000005\n",
        after: "pc 00001004\nx[5] 00000007\nx[6] 00000005\n",
    },
    Case {
        word: 0x7ff3_6293,
        before: "pc 00001000\nx[5] 00000009\nx[6] 80000000\n",
        after: "pc 00001004\nx[5] 800007ff\nx[6] 80000000\n",
    },
    Case {
        word: 0xfff0_6293,
        before: "pc 00001000\nx[0] 5a5a5a5a\nx[5] 00000003\n",
        after: "pc 00001004\nx[0] 5a5a5a5a\nx[5] ffffffff\n",
    },
    Case {
        word: 0x0053_6013,
        before: "pc 00001000\nx[6] 00000003\n",
        after: "pc 00001004\nx[6] 00000003\n",
    },
];

/// Cases of `andi`.
pub const ANDI: [Case; 4] = [
    Case {
        word: 0x0073_7293,
        before: "pc 00001000\nx[5] 00000009\nx[6] 00000005\n",
        after: "pc 00001004\nx[5] 00000005\nx[6] 00000005\n",
    },
    Case {
        word: 0x7ff3_7293,
        before: "pc 00001000\nx[5] 00000009\nx[6] 80000000\n",
        after: "pc 00001004\nx[6] 80000000\n",
    },
    Case {
        word: 0xfff0_7293,
        before: "pc 00001000\nx[0] 5a5a5a5a\nx[5] 00000003\n",
        after: "pc 00001004\nx[0] 5a5a5a5a\n",
    },
    Case {
        word: 0x0053_7013,
        before: "pc 00001000\nx[6] 00000003\n",
        after: "pc 00001004\nx[6] 00000003\n",
    },
];

/// Cases of `slli`.
pub const SLLI: [Case; 4] = [
    Case {
        word: 0x0003_1293,
        before: "pc 00001000\nx[5] 00000009\nx[6] 89abcdef\n",
        after: "pc 00001004\nx[5] 89abcdef\nx[6] 89abcdef\n",
    },
    Case {
        word: 0x0043_1293,
        before: "pc 00001000\nx[5] 00000009\nx[6] 89abcdef\n",
        after: "pc 00001004\nx[5] 9abcdef0\nx[6] 89abcdef\n",
    },
    Case {
        word: 0x01e3_1293,
        before: "pc 00001000\nx[6] 7fffffff\n",
        after: "pc 00001004\nx[5] c0000000\nx[6] 7fffffff\n",
    },
    Case {
        word: 0x0033_1013,
        before: "pc 00001000\nx[6] 00000037\n",
        after: "pc 00001004\nx[6] 00000037\n",
    },
];

/// Cases of `srli`.
pub const SRLI: [Case; 4] = [
    Case {
        word: 0x0003_5293,
        before: "pc 00001000\nx[5] 00000009\nx[6] 89abcdef\n",
        after: "pc 00001004\nx[5] 89abcdef\nx[6] 89abcdef\n",
    },
    Case {
        word: 0x0043_5293,
        before: "pc 00001000\nx[5] 00000009\nx[6] 89abcdef\n",
        after: "pc 00001004\nx[5] 089abcde\nx[6] 89abcdef\n",
    },
    Case {
        word: 0x01e3_5293,
        before: "pc 00001000\nx[6] 7fffffff\n",
        after: "pc 00001004\nx[5] 00000001\nx[6] 7fffffff\n",
    },
    Case {
        word: 0x0033_5013,
        before: "pc 00001000\nx[6] 00000037\n",
        after: "pc 00001004\nx[6] 00000037\n",
    },
];

/// Cases of `srai`.
pub const SRAI: [Case; 4] = [
    Case {
        word: 0x4003_5293,
        before: "pc 00001000\nx[5] 00000009\nx[6] 89abcdef\n",
        after: "pc 00001004\nx[5] 89abcdef\nx[6] 89abcdef\n",
    },
    Case {
        word: 0x4043_5293,
        before: "pc 00001000\nx[5] 00000009\nx[6] 89abcdef\n",
        after: "pc 00001004\nx[5] f89abcde\nx[6] 89abcdef\n",
    },
    Case {
        word: 0x41e3_5293,
        before: "pc 00001000\nx[6] 7fffffff\n",
        after: "pc 00001004\nx[5] 00000001\nx[6] 7fffffff\n",
    },
    Case {
        word: 0x4033_5013,
        before: "pc 00001000\nx[6] 00000037\n",
        after: "pc 00001004\nx[6] 00000037\n",
    },
];
