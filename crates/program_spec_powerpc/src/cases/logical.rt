//! Logical operations.

use crate::Case;

/// Cases of `andi.`.
pub const ANDI_RC: [Case; 4] = [
    Case {
        word: 0x7064_f0f0,
        before: "pc 00001000\ngpr[3] 1234ff00\n",
        after: "pc 00001004\ngpr[3] 1234ff00\ngpr[4] 0000f000\ncr[1] 1\n",
    },
    Case {
        word: 0x7000_0000,
        before: "pc 00001000\ngpr[0] 80000001\ncr[0] 1\ncr[1] 1\n",
        after: "pc 00001004\ncr[2] 1\n",
    },
    Case {
        word: 0x73ff_ffff,
        before: "pc 00001000\ngpr[31] ffffffff\nxer[SO] 1\n",
        after: "pc 00001004\ngpr[31] 0000ffff\ncr[1] 1\ncr[3] 1\nxer[SO] 1\n",
    },
    Case {
        word: 0x7060_8000,
        before: "pc 00001000\ngpr[3] 80008000\n",
        after: "pc 00001004\ngpr[0] 00008000\ngpr[3] 80008000\ncr[1] 1\n",
    },
];

/// Cases of `andis.`.
pub const ANDIS_RC: [Case; 4] = [
    Case {
        word: 0x7464_f0f0,
        before: "pc 00001000\ngpr[3] 1234ff00\n",
        after: "pc 00001004\ngpr[3] 1234ff00\ngpr[4] 10300000\ncr[1] 1\n",
    },
    Case {
        word: 0x7400_0000,
        before: "pc 00001000\ngpr[0] 80000001\ncr[0] 1\ncr[1] 1\n",
        after: "pc 00001004\ncr[2] 1\n",
    },
    Case {
        word: 0x77ff_ffff,
        before: "pc 00001000\ngpr[31] ffffffff\nxer[SO] 1\n",
        after: "pc 00001004\ngpr[31] ffff0000\ncr[0] 1\ncr[3] 1\nxer[SO] 1\n",
    },
    Case {
        word: 0x7460_8000,
        before: "pc 00001000\ngpr[3] 80008000\n",
        after: "pc 00001004\ngpr[0] 80000000\ngpr[3] 80008000\ncr[0] 1\n",
    },
];

/// Cases of `ori`.
pub const ORI: [Case; 4] = [
    Case {
        word: 0x6064_f0f0,
        before: "pc 00001000\ngpr[3] 1234ff00\n",
        after: "pc 00001004\ngpr[3] 1234ff00\ngpr[4] 1234fff0\n",
    },
    Case {
        word: 0x6000_0000,
        before: "pc 00001000\ngpr[0] 80000001\ncr[0] 1\ncr[1] 1\n",
        after: "pc 00001004\ngpr[0] 80000001\ncr[0] 1\ncr[1] 1\n",
    },
    Case {
        word: 0x63ff_ffff,
        before: "pc 00001000\ngpr[31] ffffffff\nxer[SO] 1\n",
        after: "pc 00001004\ngpr[31] ffffffff\nxer[SO] 1\n",
    },
    Case {
        word: 0x6060_8000,
        before: "pc 00001000\ngpr[3] 80008000\n",
        after: "pc 00001004\ngpr[0] 80008000\ngpr[3] 80008000\n",
    },
];

/// Cases of `oris`.
pub const ORIS: [Case; 4] = [
    Case {
        word: 0x6464_f0f0,
        before: "pc 00001000\ngpr[3] 1234ff00\n",
        after: "pc 00001004\ngpr[3] 1234ff00\ngpr[4] f2f4ff00\n",
    },
    Case {
        word: 0x6400_0000,
        before: "pc 00001000\ngpr[0] 80000001\ncr[0] 1\ncr[1] 1\n",
        after: "pc 00001004\ngpr[0] 80000001\ncr[0] 1\ncr[1] 1\n",
    },
    Case {
        word: 0x67ff_ffff,
        before: "pc 00001000\ngpr[31] ffffffff\nxer[SO] 1\n",
        after: "pc 00001004\ngpr[31] ffffffff\nxer[SO] 1\n",
    },
    Case {
        word: 0x6460_8000,
        before: "pc 00001000\ngpr[3] 80008000\n",
        after: "pc 00001004\ngpr[0] 80008000\ngpr[3] 80008000\n",
    },
];

/// Cases of `xori`.
pub const XORI: [Case; 4] = [
    Case {
        word: 0x6864_f0f0,
        before: "pc 00001000\ngpr[3] 1234ff00\n",
        after: "pc 00001004\ngpr[3] 1234ff00\ngpr[4] 12340ff0\n",
    },
    Case {
        word: 0x6800_0000,
        before: "pc 00001000\ngpr[0] 80000001\ncr[0] 1\ncr[1] 1\n",
        after: "pc 00001004\ngpr[0] 80000001\ncr[0] 1\ncr[1] 1\n",
    },
    Case {
        word: 0x6bff_ffff,
        before: "pc 00001000\ngpr[31] ffffffff\nxer[SO] 1\n",
        after: "pc 00001004\ngpr[31] ffff0000\nxer[SO] 1\n",
    },
    Case {
        word: 0x6860_8000,
        before: "pc 00001000\ngpr[3] 80008000\n",
        after: "pc 00001004\ngpr[0] 80000000\ngpr[3] 80008000\n",
    },
];

/// Cases of `xoris`.
pub const XORIS: [Case; 4] = [
    Case {
        word: 0x6c64_f0f0,
        before: "pc 00001000\ngpr[3] 1234ff00\n",
        after: "pc 00001004\ngpr[3] 1234ff00\ngpr[4] e2c4ff00\n",
    },
    Case {
        word: 0x6c00_0000,
        before: "pc 00001000\ngpr[0] 80000001\ncr[0] 1\ncr[1] 1\n",
        after: "pc 00001004\ngpr[0] 80000001\ncr[0] 1\ncr[1] 1\n",
    },
    Case {
        word: 0x6fff_ffff,
        before: "pc 00001000\ngpr[31] ffffffff\nxer[SO] 1\n",
        after: "pc 00001004\ngpr[31] 0000ffff\nxer[SO] 1\n",
    },
    Case {
        word: 0x6c60_8000,
        before: "pc 00001000\ngpr[3] 80008000\n",
        after: "pc 00001004\ngpr[0] 00008000\ngpr[3] 80008000\n",
    },
];

/// Cases of `and`.
pub const AND: [Case; 3] = [
    Case {
        word: 0x7c64_2838,
        before: "pc 00001000\ngpr[3] 0ff0cc33\ngpr[5] 3c5aaa55\n",
        after: "pc 00001004\ngpr[3] 0ff0cc33\ngpr[4] 0c508811\ngpr[5] 3c5aaa55\n",
    },
    Case {
        word: 0x7c63_1838,
        before: "pc 00001000\ngpr[3] 80000000\nxer[SO] 1\n",
        after: "pc 00001004\ngpr[3] 80000000\nxer[SO] 1\n",
    },
    Case {
        word: 0x7c1f_f038,
        before: "pc 00001000\ngpr[0] ffffffff\ngpr[30] 00000000\ncr[0] 1\ncr[1] 1\ncr[2] 1\ncr[3] 1\n",
        after: "pc 00001004\ngpr[0] ffffffff\ncr[0] 1\ncr[1] 1\ncr[2] 1\ncr[3] 1\n",
    },
];

/// Cases of `and.`.
pub const AND_RC: [Case; 3] = [
    Case {
        word: 0x7c64_2839,
        before: "pc 00001000\ngpr[3] 0ff0cc33\ngpr[5] 3c5aaa55\n",
        after: "pc 00001004\ngpr[3] 0ff0cc33\ngpr[4] 0c508811\ngpr[5] 3c5aaa55\ncr[1] 1\n",
    },
    Case {
        word: 0x7c63_1839,
        before: "pc 00001000\ngpr[3] 80000000\nxer[SO] 1\n",
        after: "pc 00001004\ngpr[3] 80000000\ncr[0] 1\ncr[3] 1\nxer[SO] 1\n",
    },
    Case {
        word: 0x7c1f_f039,
        before: "pc 00001000\ngpr[0] ffffffff\ngpr[30] 00000000\ncr[0] 1\ncr[1] 1\ncr[2] 1\ncr[3] 1\n",
        after: "pc 00001004\ngpr[0] ffffffff\ncr[2] 1\n",
    },
];

/// Cases of `or`.
pub const OR: [Case; 3] = [
    Case {
        word: 0x7c64_2b78,
        before: "pc 00001000\ngpr[3] 0ff0cc33\ngpr[5] 3c5aaa55\n",
        after: "pc 00001004\ngpr[3] 0ff0cc33\ngpr[4] 3ffaee77\ngpr[5] 3c5aaa55\n",
    },
    Case {
        word: 0x7c63_1b78,
        before: "pc 00001000\ngpr[3] 80000000\nxer[SO] 1\n",
        after: "pc 00001004\ngpr[3] 80000000\nxer[SO] 1\n",
    },
    Case {
        word: 0x7c1f_f378,
        before: "pc 00001000\ngpr[0] ffffffff\ngpr[30] 00000000\ncr[0] 1\ncr[1] 1\ncr[2] 1\ncr[3] 1\n",
        after: "pc 00001004\ngpr[0] ffffffff\ngpr[31] ffffffff\ncr[0] 1\ncr[1] 1\ncr[2] 1\ncr[3] 1\n",
    },
];

/// Cases of `or.`.
pub const OR_RC: [Case; 3] = [
    Case {
        word: 0x7c64_2b79,
        before: "pc 00001000\ngpr[3] 0ff0cc33\ngpr[5] 3c5aaa55\n",
        after: "pc 00001004\ngpr[3] 0ff0cc33\ngpr[4] 3ffaee77\ngpr[5] 3c5aaa55\ncr[1] 1\n",
    },
    Case {
        word: 0x7c63_1b79,
        before: "pc 00001000\ngpr[3] 80000000\nxer[SO] 1\n",
        after: "pc 00001004\ngpr[3] 80000000\ncr[0] 1\ncr[3] 1\nxer[SO] 1\n",
    },
    Case {
        word: 0x7c1f_f379,
        before: "pc 00001000\ngpr[0] ffffffff\ngpr[30] 00000000\ncr[0] 1\ncr[1] 1\ncr[2] 1\ncr[3] 1\n",
        after: "pc 00001004\ngpr[0] ffffffff\ngpr[31] ffffffff\ncr[0] 1\n",
    },
];

/// Cases of `xor`.
pub const XOR: [Case; 3] = [
    Case {
        word: 0x7c64_2a78,
        before: "pc 00001000\ngpr[3] 0ff0cc33\ngpr[5] 3c5aaa55\n",
        after: "pc 00001004\ngpr[3] 0ff0cc33\ngpr[4] 33aa6666\ngpr[5] 3c5aaa55\n",
    },
    Case {
        word: 0x7c63_1a78,
        before: "pc 00001000\ngpr[3] 80000000\nxer[SO] 1\n",
        after: "pc 00001004\nxer[SO] 1\n",
    },
    Case {
        word: 0x7c1f_f278,
        before: "pc 00001000\ngpr[0] ffffffff\ngpr[30] 00000000\ncr[0] 1\ncr[1] 1\ncr[2] 1\ncr[3] 1\n",
        after: "pc 00001004\ngpr[0] ffffffff\ngpr[31] ffffffff\ncr[0] 1\ncr[1] 1\ncr[2] 1\ncr[3] 1\n",
    },
];

/// Cases of `xor.`.
pub const XOR_RC: [Case; 3] = [
    Case {
        word: 0x7c64_2a79,
        before: "pc 00001000\ngpr[3] 0ff0cc33\ngpr[5] 3c5aaa55\n",
        after: "pc 00001004\ngpr[3] 0ff0cc33\ngpr[4] 33aa6666\ngpr[5] 3c5aaa55\ncr[1] 1\n",
    },
    Case {
        word: 0x7c63_1a79,
        before: "pc 00001000\ngpr[3] 80000000\nxer[SO] 1\n",
        after: "pc 00001004\ncr[2] 1\ncr[3] 1\nxer[SO] 1\n",
    },
    Case {
        word: 0x7c1f_f279,
        before: "pc 00001000\ngpr[0] ffffffff\ngpr[30] 00000000\ncr[0] 1\ncr[1] 1\ncr[2] 1\ncr[3] 1\n",
        after: "pc 00001004\ngpr[0] ffffffff\ngpr[31] ffffffff\ncr[0] 1\n",
    },
];

/// Cases of `nand`.
pub const NAND: [Case; 3] = [
    Case {
        word: 0x7c64_2bb8,
        before: "pc 00001000\ngpr[3] 0ff0cc33\ngpr[5] 3c5aaa55\n",
        after: "pc 00001004\ngpr[3] 0ff0cc33\ngpr[4] f3af77ee\ngpr[5] 3c5aaa55\n",
    },
    Case {
        word: 0x7c63_1bb8,
        before: "pc 00001000\ngpr[3] 80000000\nxer[SO] 1\n",
        after: "pc 00001004\ngpr[3] 7fffffff\nxer[SO] 1\n",
    },
    Case {
        word: 0x7c1f_f3b8,
        before: "pc 00001000\ngpr[0] ffffffff\ngpr[30] 00000000\ncr[0] 1\ncr[1] 1\ncr[2] 1\ncr[3] 1\n",
        after: "pc 00001004\ngpr[0] ffffffff\ngpr[31] ffffffff\ncr[0] 1\ncr[1] 1\ncr[2] 1\ncr[3] 1\n",
    },
];

/// Cases of `nand.`.
pub const NAND_RC: [Case; 3] = [
    Case {
        word: 0x7c64_2bb9,
        before: "pc 00001000\ngpr[3] 0ff0cc33\ngpr[5] 3c5aaa55\n",
        after: "pc 00001004\ngpr[3] 0ff0cc33\ngpr[4] f3af77ee\ngpr[5] 3c5aaa55\ncr[0] 1\n",
    },
    Case {
        word: 0x7c63_1bb9,
        before: "pc 00001000\ngpr[3] 80000000\nxer[SO] 1\n",
        after: "pc 00001004\ngpr[3] 7fffffff\ncr[1] 1\ncr[3] 1\nxer[SO] 1\n",
    },
    Case {
        word: 0x7c1f_f3b9,
        before: "pc 00001000\ngpr[0] ffffffff\ngpr[30] 00000000\ncr[0] 1\ncr[1] 1\ncr[2] 1\ncr[3] 1\n",
        after: "pc 00001004\ngpr[0] ffffffff\ngpr[31] ffffffff\ncr[0] 1\n",
    },
];

/// Cases of `nor`.
pub const NOR: [Case; 3] = [
    Case {
        word: 0x7c64_28f8,
        before: "pc 00001000\ngpr[3] 0ff0cc33\ngpr[5] 3c5aaa55\n",
        after: "pc 00001004\ngpr[3] 0ff0cc33\ngpr[4] c0051188\ngpr[5] 3c5aaa55\n",
    },
    Case {
        word: 0x7c63_18f8,
        before: "pc 00001000\ngpr[3] 80000000\nxer[SO] 1\n",
        after: "pc 00001004\ngpr[3] 7fffffff\nxer[SO] 1\n",
    },
    Case {
        word: 0x7c1f_f0f8,
        before: "pc 00001000\ngpr[0] ffffffff\ngpr[30] 00000000\ncr[0] 1\ncr[1] 1\ncr[2] 1\ncr[3] 1\n",
        after: "pc 00001004\ngpr[0] ffffffff\ncr[0] 1\ncr[1] 1\ncr[2] 1\ncr[3] 1\n",
    },
];

/// Cases of `nor.`.
pub const NOR_RC: [Case; 3] = [
    Case {
        word: 0x7c64_28f9,
        before: "pc 00001000\ngpr[3] 0ff0cc33\ngpr[5] 3c5aaa55\n",
        after: "pc 00001004\ngpr[3] 0ff0cc33\ngpr[4] c0051188\ngpr[5] 3c5aaa55\ncr[0] 1\n",
    },
    Case {
        word: 0x7c63_18f9,
        before: "pc 00001000\ngpr[3] 80000000\nxer[SO] 1\n",
        after: "pc 00001004\ngpr[3] 7fffffff\ncr[1] 1\ncr[3] 1\nxer[SO] 1\n",
    },
    Case {
        word: 0x7c1f_f0f9,
        before: "pc 00001000\ngpr[0] ffffffff\ngpr[30] 00000000\ncr[0] 1\ncr[1] 1\ncr[2] 1\ncr[3] 1\n",
        after: "pc 00001004\ngpr[0] ffffffff\ncr[2] 1\n",
    },
];

/// Cases of `eqv`.
pub const EQV: [Case; 3] = [
    Case {
        word: 0x7c64_2a38,
        before: "pc 00001000\ngpr[3] 0ff0cc33\ngpr[5] 3c5aaa55\n",
        after: "pc 00001004\ngpr[3] 0ff0cc33\ngpr[4] cc559999\ngpr[5] 3c5aaa55\n",
    },
    Case {
        word: 0x7c63_1a38,
        before: "pc 00001000\ngpr[3] 80000000\nxer[SO] 1\n",
        after: "pc 00001004\ngpr[3] ffffffff\nxer[SO] 1\n",
    },
    Case {
        word: 0x7c1f_f238,
        before: "pc 00001000\ngpr[0] ffffffff\ngpr[30] 00000000\ncr[0] 1\ncr[1] 1\ncr[2] 1\ncr[3] 1\n",
        after: "pc 00001004\ngpr[0] ffffffff\ncr[0] 1\ncr[1] 1\ncr[2] 1\ncr[3] 1\n",
    },
];

/// Cases of `eqv.`.
pub const EQV_RC: [Case; 3] = [
    Case {
        word: 0x7c64_2a39,
        before: "pc 00001000\ngpr[3] 0ff0cc33\ngpr[5] 3c5aaa55\n",
        after: "pc 00001004\ngpr[3] 0ff0cc33\ngpr[4] cc559999\ngpr[5] 3c5aaa55\ncr[0] 1\n",
    },
    Case {
        word: 0x7c63_1a39,
        before: "pc 00001000\ngpr[3] 80000000\nxer[SO] 1\n",
        after: "pc 00001004\ngpr[3] ffffffff\ncr[0] 1\ncr[3] 1\nxer[SO] 1\n",
    },
    Case {
        word: 0x7c1f_f239,
        before: "pc 00001000\ngpr[0] ffffffff\ngpr[30] 00000000\ncr[0] 1\ncr[1] 1\ncr[2] 1\ncr[3] 1\n",
        after: "pc 00001004\ngpr[0] ffffffff\ncr[2] 1\n",
    },
];

/// Cases of `andc`.
pub const ANDC: [Case; 3] = [
    Case {
        word: 0x7c64_2878,
        before: "pc 00001000\ngpr[3] 0ff0cc33\ngpr[5] 3c5aaa55\n",
        after: "pc 00001004\ngpr[3] 0ff0cc33\ngpr[4] 03a04422\ngpr[5] 3c5aaa55\n",
    },
    Case {
        word: 0x7c63_1878,
        before: "pc 00001000\ngpr[3] 80000000\nxer[SO] 1\n",
        after: "pc 00001004\nxer[SO] 1\n",
    },
    Case {
        word: 0x7c1f_f078,
        before: "pc 00001000\ngpr[0] ffffffff\ngpr[30] 00000000\ncr[0] 1\ncr[1] 1\ncr[2] 1\ncr[3] 1\n",
        after: "pc 00001004\ngpr[0] ffffffff\ngpr[31] ffffffff\ncr[0] 1\ncr[1] 1\ncr[2] 1\ncr[3] 1\n",
    },
];

/// Cases of `andc.`.
pub const ANDC_RC: [Case; 3] = [
    Case {
        word: 0x7c64_2879,
        before: "pc 00001000\ngpr[3] 0ff0cc33\ngpr[5] 3c5aaa55\n",
        after: "pc 00001004\ngpr[3] 0ff0cc33\ngpr[4] 03a04422\ngpr[5] 3c5aaa55\ncr[1] 1\n",
    },
    Case {
        word: 0x7c63_1879,
        before: "pc 00001000\ngpr[3] 80000000\nxer[SO] 1\n",
        after: "pc 00001004\ncr[2] 1\ncr[3] 1\nxer[SO] 1\n",
    },
    Case {
        word: 0x7c1f_f079,
        before: "pc 00001000\ngpr[0] ffffffff\ngpr[30] 00000000\ncr[0] 1\ncr[1] 1\ncr[2] 1\ncr[3] 1\n",
        after: "pc 00001004\ngpr[0] ffffffff\ngpr[31] ffffffff\ncr[0] 1\n",
    },
];

/// Cases of `orc`.
pub const ORC: [Case; 3] = [
    Case {
        word: 0x7c64_2b38,
        before: "pc 00001000\ngpr[3] 0ff0cc33\ngpr[5] 3c5aaa55\n",
        after: "pc 00001004\ngpr[3] 0ff0cc33\ngpr[4] cff5ddbb\ngpr[5] 3c5aaa55\n",
    },
    Case {
        word: 0x7c63_1b38,
        before: "pc 00001000\ngpr[3] 80000000\nxer[SO] 1\n",
        after: "pc 00001004\ngpr[3] ffffffff\nxer[SO] 1\n",
    },
    Case {
        word: 0x7c1f_f338,
        before: "pc 00001000\ngpr[0] ffffffff\ngpr[30] 00000000\ncr[0] 1\ncr[1] 1\ncr[2] 1\ncr[3] 1\n",
        after: "pc 00001004\ngpr[0] ffffffff\ngpr[31] ffffffff\ncr[0] 1\ncr[1] 1\ncr[2] 1\ncr[3] 1\n",
    },
];

/// Cases of `orc.`.
pub const ORC_RC: [Case; 3] = [
    Case {
        word: 0x7c64_2b39,
        before: "pc 00001000\ngpr[3] 0ff0cc33\ngpr[5] 3c5aaa55\n",
        after: "pc 00001004\ngpr[3] 0ff0cc33\ngpr[4] cff5ddbb\ngpr[5] 3c5aaa55\ncr[0] 1\n",
    },
    Case {
        word: 0x7c63_1b39,
        before: "pc 00001000\ngpr[3] 80000000\nxer[SO] 1\n",
        after: "pc 00001004\ngpr[3] ffffffff\ncr[0] 1\ncr[3] 1\nxer[SO] 1\n",
    },
    Case {
        word: 0x7c1f_f339,
        before: "pc 00001000\ngpr[0] ffffffff\ngpr[30] 00000000\ncr[0] 1\ncr[1] 1\ncr[2] 1\ncr[3] 1\n",
        after: "pc 00001004\ngpr[0] ffffffff\ngpr[31] ffffffff\ncr[0] 1\n",
    },
];

/// Cases of `extsb`.
pub const EXTSB: [Case; 4] = [
    Case {
        word: 0x7c64_0774,
        before: "pc 00001000\ngpr[3] 0000007f\nxer[SO] 0\n",
        after: "pc 00001004\ngpr[3] 0000007f\ngpr[4] 0000007f\n",
    },
    Case {
        word: 0x7c63_0774,
        before: "pc 00001000\ngpr[3] 00000080\nxer[SO] 1\n",
        after: "pc 00001004\ngpr[3] ffffff80\nxer[SO] 1\n",
    },
    Case {
        word: 0x7c60_0774,
        before: "pc 00001000\ngpr[3] ffffff00\nxer[SO] 0\n",
        after: "pc 00001004\ngpr[3] ffffff00\n",
    },
    Case {
        word: 0x7c64_0774,
        before: "pc 00001000\ngpr[3] 12345681\nxer[SO] 1\n",
        after: "pc 00001004\ngpr[3] 12345681\ngpr[4] ffffff81\nxer[SO] 1\n",
    },
];

/// Cases of `extsb.`.
pub const EXTSB_RC: [Case; 4] = [
    Case {
        word: 0x7c64_0775,
        before: "pc 00001000\ngpr[3] 0000007f\nxer[SO] 0\n",
        after: "pc 00001004\ngpr[3] 0000007f\ngpr[4] 0000007f\ncr[1] 1\n",
    },
    Case {
        word: 0x7c63_0775,
        before: "pc 00001000\ngpr[3] 00000080\nxer[SO] 1\n",
        after: "pc 00001004\ngpr[3] ffffff80\ncr[0] 1\ncr[3] 1\nxer[SO] 1\n",
    },
    Case {
        word: 0x7c60_0775,
        before: "pc 00001000\ngpr[3] ffffff00\nxer[SO] 0\n",
        after: "pc 00001004\ngpr[3] ffffff00\ncr[2] 1\n",
    },
    Case {
        word: 0x7c64_0775,
        before: "pc 00001000\ngpr[3] 12345681\nxer[SO] 1\n",
        after: "pc 00001004\ngpr[3] 12345681\ngpr[4] ffffff81\ncr[0] 1\ncr[3] 1\nxer[SO] 1\n",
    },
];

/// Cases of `extsh`.
pub const EXTSH: [Case; 4] = [
    Case {
        word: 0x7c64_0734,
        before: "pc 00001000\ngpr[3] 00007fff\nxer[SO] 0\n",
        after: "pc 00001004\ngpr[3] 00007fff\ngpr[4] 00007fff\n",
    },
    Case {
        word: 0x7c63_0734,
        before: "pc 00001000\ngpr[3] 00008000\nxer[SO] 1\n",
        after: "pc 00001004\ngpr[3] ffff8000\nxer[SO] 1\n",
    },
    Case {
        word: 0x7c60_0734,
        before: "pc 00001000\ngpr[3] ffff0000\nxer[SO] 0\n",
        after: "pc 00001004\ngpr[3] ffff0000\n",
    },
    Case {
        word: 0x7c64_0734,
        before: "pc 00001000\ngpr[3] 12348001\nxer[SO] 1\n",
        after: "pc 00001004\ngpr[3] 12348001\ngpr[4] ffff8001\nxer[SO] 1\n",
    },
];

/// Cases of `extsh.`.
pub const EXTSH_RC: [Case; 4] = [
    Case {
        word: 0x7c64_0735,
        before: "pc 00001000\ngpr[3] 00007fff\nxer[SO] 0\n",
        after: "pc 00001004\ngpr[3] 00007fff\ngpr[4] 00007fff\ncr[1] 1\n",
    },
    Case {
        word: 0x7c63_0735,
        before: "pc 00001000\ngpr[3] 00008000\nxer[SO] 1\n",
        after: "pc 00001004\ngpr[3] ffff8000\ncr[0] 1\ncr[3] 1\nxer[SO] 1\n",
    },
    Case {
        word: 0x7c60_0735,
        before: "pc 00001000\ngpr[3] ffff0000\nxer[SO] 0\n",
        after: "pc 00001004\ngpr[3] ffff0000\ncr[2] 1\n",
    },
    Case {
        word: 0x7c64_0735,
        before: "pc 00001000\ngpr[3] 12348001\nxer[SO] 1\n",
        after: "pc 00001004\ngpr[3] 12348001\ngpr[4] ffff8001\ncr[0] 1\ncr[3] 1\nxer[SO] 1\n",
    },
];

/// Cases of `cntlzw`.
pub const CNTLZW: [Case; 4] = [
    Case {
        word: 0x7c64_0034,
        before: "pc 00001000\ngpr[3] 00000000\nxer[SO] 0\n",
        after: "pc 00001004\ngpr[4] 00000020\n",
    },
    Case {
        word: 0x7c63_0034,
        before: "pc 00001000\ngpr[3] 00000001\nxer[SO] 1\n",
        after: "pc 00001004\ngpr[3] 0000001f\nxer[SO] 1\n",
    },
    Case {
        word: 0x7c60_0034,
        before: "pc 00001000\ngpr[3] 80000000\nxer[SO] 0\n",
        after: "pc 00001004\ngpr[3] 80000000\n",
    },
    Case {
        word: 0x7c63_0034,
        before: "pc 00001000\ngpr[3] 40000000\nxer[SO] 0\n",
        after: "pc 00001004\ngpr[3] 00000001\n",
    },
];

/// Cases of `cntlzw.`.
pub const CNTLZW_RC: [Case; 4] = [
    Case {
        word: 0x7c64_0035,
        before: "pc 00001000\ngpr[3] 00000000\nxer[SO] 0\n",
        after: "pc 00001004\ngpr[4] 00000020\ncr[1] 1\n",
    },
    Case {
        word: 0x7c63_0035,
        before: "pc 00001000\ngpr[3] 00000001\nxer[SO] 1\n",
        after: "pc 00001004\ngpr[3] 0000001f\ncr[1] 1\ncr[3] 1\nxer[SO] 1\n",
    },
    Case {
        word: 0x7c60_0035,
        before: "pc 00001000\ngpr[3] 80000000\nxer[SO] 0\n",
        after: "pc 00001004\ngpr[3] 80000000\ncr[2] 1\n",
    },
    Case {
        word: 0x7c63_0035,
        before: "pc 00001000\ngpr[3] 40000000\nxer[SO] 0\n",
        after: "pc 00001004\ngpr[3] 00000001\ncr[1] 1\n",
    },
];
