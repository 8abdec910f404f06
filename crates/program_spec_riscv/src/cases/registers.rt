//! Arithmetic on two registers.

use crate::Case;

/// Cases of `add`.
pub const ADD: [Case; 4] = [
    Case {
        word: 0x0073_02b3,
        before: "pc 00001000\nx[5] 00000009\nx[6] 00000005\nx[7] 00000005\n",
        after: "pc 00001004\nx[5] 0000000a\nx[6] 00000005\nx[7] 00000005\n",
    },
    Case {
        word: 0x0073_03b3,
        before: "pc 00001000\nx[5] 00000009\nx[6] 80000000\nx[7] 7fffffff\n",
        after: "pc 00001004\nx[5] 00000009\nx[6] 80000000\nx[7] ffffffff\n",
    },
    Case {
        word: 0x0010_02b3,
        before: "pc 00001000\nx[0] 5a5a5a5a\nx[1] 00000000\nx[5] 00000009\n",
        after: "pc 00001004\nx[0] 5a5a5a5a\n",
    },
    Case {
        word: 0x01ff_8fb3,
        before: "pc 00001000\nx[31] fffffffe\n",
        after: "pc 00001004\nx[31] fffffffc\n",
    },
];

/// Cases of `sub`.
pub const SUB: [Case; 4] = [
    Case {
        word: 0x4073_02b3,
        before: "pc 00001000\nx[5] 00000009\nx[6] 00000005\nx[7] 00000005\n",
        after: "pc 00001004\nx[6] 00000005\nx[7] 00000005\n",
    },
    Case {
        word: 0x4073_03b3,
        before: "pc 00001000\nx[5] 00000009\nx[6] 80000000\nx[7] 7fffffff\n",
        after: "pc 00001004\nx[5] 00000009\nx[6] 80000000\nx[7] 00000001\n",
    },
    Case {
        word: 0x4010_02b3,
        before: "pc 00001000\nx[0] 5a5a5a5a\nx[1] 00000000\nx[5] 00000009\n",
        after: "pc 00001004\nx[0] 5a5a5a5a\n",
    },
    Case {
        word: 0x41ff_8fb3,
        before: "pc 00001000\nx[31] fffffffe\n",
        after: "pc 00001004\n",
    },
];

/// Cases of `sll`.
pub const SLL: [Case; 4] = [
    Case {
        word: 0x0073_12b3,
        before: "pc 00001000\nx[5] 00000009\nx[6] 89abcdef\nx[7] 00000000\n",
        after: "pc 00001004\nx[5] 89abcdef\nx[6] 89abcdef\n",
    },
    Case {
        word: 0x0073_13b3,
        before: "pc 00001000\nx[5] 00000009\nx[6] 89abcdef\nx[7] ffffffe4\n",
        after: "pc 00001004\nx[5] 00000009\nx[6] 89abcdef\nx[7] 9abcdef0\n",
    },
    Case {
        word: 0x0000_92b3,
        before: "pc 00001000\nx[0] 5a5a5a5a\nx[1] f0000013\nx[5] 00000009\n",
        after: "pc 00001004\nx[0] 5a5a5a5a\nx[1] f0000013\nx[5] f0000013\n",
    },
    Case {
        word: 0x01ff_9fb3,
        before: "pc 00001000\nx[31] fffffffe\n",
        after: "pc 00001004\nx[31] 80000000\n",
    },
];

/// Cases of `slt`.
pub const SLT: [Case; 4] = [
    Case {
        word: 0x0073_22b3,
        before: "pc 00001000\nx[5] 00000009\nx[6] 00000005\nx[7] 00000005\n",
        after: "pc 00001004\nx[6] 00000005\nx[7] 00000005\n",
    },
    Case {
        word: 0x0073_23b3,
        before: "pc 00001000\nx[5] 00000009\nx[6] 80000000\nx[7] 7fffffff\n",
        after: "pc 00001004\nx[5] 00000009\nx[6] 80000000\nx[7] 00000001\n",
    },
    Case {
        word: 0x0010_22b3,
        before: "pc 00001000\nx[0] 5a5a5a5a\nx[1] 00000000\nx[5] 00000009\n",
        after: "pc 00001004\nx[0] 5a5a5a5a\n",
    },
    Case {
        word: 0x01ff_afb3,
        before: "pc 00001000\nx[31] fffffffe\n",
        after: "pc 00001004\n",
    },
];

/// Cases of `sltu`.
pub const SLTU: [Case; 4] = [
    Case {
        word: 0x0073_32b3,
        before: "pc 00001000\nx[5] 00000009\nx[6] 00000005\nx[7] 00000005\n",
        after: "pc 00001004\nx[6] 00000005\nx[7] 00000005\n",
    },
    Case {
        word: 0x0073_33b3,
        before: "pc 00001000\nx[5] 00000009\nx[6] 80000000\nx[7] 7fffffff\n",
        after: "pc 00001004\nx[5] 00000009\nx[6] 80000000\n",
    },
    Case {
        word: 0x0010_32b3,
        before: "pc 00001000\nx[0] 5a5a5a5a\nx[1] 00000000\nx[5] 00000009\n",
        after: "pc 00001004\nx[0] 5a5a5a5a\n",
    },
    Case {
        word: 0x01ff_bfb3,
        before: "pc 00001000\nx[31] fffffffe\n",
        after: "pc 00001004\n",
    },
];

/// Cases of `xor`.
pub const XOR: [Case; 4] = [
    Case {
        word: 0x0073_42b3,
        before: "pc 00001000\nx[5] 00000009\nx[6] 00000005\nx[7] 00000005\n",
        after: "pc 00001004\nx[6] 00000005\nx[7] 00000005\n",
    },
    Case {
        word: 0x0073_43b3,
        before: "pc 00001000\nx[5] 00000009\nx[6] 80000000\nx[7] 7fffffff\n",
        after: "pc 00001004\nx[5] 00000009\nx[6] 80000000\nx[7] ffffffff\n",
    },
    Case {
        word: 0x0010_42b3,
        before: "pc 00001000\nx[0] 5a5a5a5a\nx[1] 00000000\nx[5] 00000009\n",
        after: "pc 00001004\nx[0] 5a5a5a5a\n",
    },
    Case {
        word: 0x01ff_cfb3,
        before: "pc 00001000\nx[31] fffffffe\n",
        after: "pc 00001004\n",
    },
];

/// Cases of `srl`.
pub const SRL: [Case; 4] = [
    Case {
        word: 0x0073_52b3,
        before: "pc 00001000\nx[5] 00000009\nx[6] 89abcdef\nx[7] 00000000\n",
        after: "pc 00001004\nx[5] 89abcdef\nx[6] 89abcdef\n",
    },
    Case {
        word: 0x0073_53b3,
        before: "pc 00001000\nx[5] 00000009\nx[6] 89abcdef\nx[7] ffffffe4\n",
        after: "pc 00001004\nx[5] 00000009\nx[6] 89abcdef\nx[7] 089abcde\n",
    },
    Case {
        word: 0x0000_d2b3,
        before: "pc 00001000\nx[0] 5a5a5a5a\nx[1] f0000013\nx[5] 00000009\n",
        after: "pc 00001004\nx[0] 5a5a5a5a\nx[1] f0000013\nx[5] f0000013\n",
    },
    Case {
        word: 0x01ff_dfb3,
        before: "pc 00001000\nx[31] fffffffe\n",
        after: "pc 00001004\nx[31] 00000003\n",
    },
];

/// Cases of `sra`.
pub const SRA: [Case; 4] = [
    Case {
        word: 0x4073_52b3,
        before: "pc 00001000\nx[5] 00000009\nx[6] 89abcdef\nx[7] 00000000\n",
        after: "pc 00001004\nx[5] 89abcdef\nx[6] 89abcdef\n",
    },
    Case {
        word: 0x4073_53b3,
        before: "pc 00001000\nx[5] 00000009\nx[6] 89abcdef\nx[7] ffffffe4\n",
        after: "pc 00001004\nx[5] 00000009\nx[6] 89abcdef\nx[7] f89abcde\n",
    },
    Case {
        word: 0x4000_d2b3,
        before: "pc 00001000\nx[0] 5a5a5a5a\nx[1] f0000013\nx[5] 00000009\n",
        after: "pc 00001004\nx[0] 5a5a5a5a\nx[1] f0000013\nx[5] f0000013\n",
    },
    Case {
        word: 0x41ff_dfb3,
        before: "pc 00001000\nx[31] fffffffe\n",
        after: "pc 00001004\nx[31] ffffffff\n",
    },
];

/// Cases of `or`.
pub const OR: [Case; 4] = [
    Case {
        word: 0x0073_62b3,
        before: "pc 00001000\nx[5] 00000009\nx[6] 00000005\nx[7] 00000005\n",
        after: "pc 00001004\nx[5] 00000005\nx[6] 00000005\nx[7] 00000005\n",
    },
    Case {
        word: 0x0073_63b3,
        before: "pc 00001000\nx[5] 00000009\nx[6] 80000000\nx[7] 7fffffff\n",
        after: "pc 00001004\nx[5] 00000009\nx[6] 80000000\nx[7] ffffffff\n",
    },
    Case {
        word: 0x0010_62b3,
        before: "pc 00001000\nx[0] 5a5a5a5a\nx[1] 00000000\nx[5] 00000009\n",
        after: "pc 00001004\nx[0] 5a5a5a5a\n",
    },
    Case {
        word: 0x01ff_efb3,
        before: "pc 00001000\nx[31] fffffffe\n",
        after: "pc 00001004\nx[31] fffffffe\n",
    },
];

/// Cases of `and`.
pub const AND: [Case; 4] = [
    Case {
        word: 0x0073_72b3,
        before: "pc 00001000\nx[5] 00000009\nx[6] 00000005\nx[7] 00000005\n",
        after: "pc 00001004\nx[5] 00000005\nx[6] 00000005\nx[7] 00000005\n",
    },
    Case {
        word: 0x0073_73b3,
        before: "pc 00001000\nx[5] 00000009\nx[6] 80000000\nx[7] 7fffffff\n",
        after: "pc 00001004\nx[5] 00000009\nx[6] 80000000\n",
    },
    Case {
        word: 0x0010_72b3,
        before: "pc 00001000\nx[0] 5a5a5a5a\nx[1] 00000000\nx[5] 00000009\n",
        after: "pc 00001004\nx[0] 5a5a5a5a\n",
    },
    Case {
        word: 0x01ff_ffb3,
        before: "pc 00001000\nx[31] fffffffe\n",
        after: "pc 00001004\nx[31] fffffffe\n",
    },
];
