//! The condition register, and comparisons.

use crate::Case;

/// Cases of `crand`.
pub const CRAND: [Case; 4] = [
    Case {
        word: 0x4c1e_fa02,
        before: "pc 00001000\ncr[29] 1\n",
        after: "pc 00001004\ncr[29] 1\n",
    },
    Case {
        word: 0x4c1e_fa02,
        before: "pc 00001000\ncr[29] 1\ncr[31] 1\n",
        after: "pc 00001004\ncr[29] 1\ncr[31] 1\n",
    },
    Case {
        word: 0x4c1e_fa02,
        before: "pc 00001000\ncr[29] 1\ncr[30] 1\ncr[31] 1\n",
        after: "pc 00001004\ncr[0] 1\ncr[29] 1\ncr[30] 1\ncr[31] 1\n",
    },
    Case {
        word: 0x4ca5_2a02,
        before: "pc 00001000\ncr[5] 1\n",
        after: "pc 00001004\ncr[5] 1\n",
    },
];

/// Cases of `cror`.
pub const CROR: [Case; 4] = [
    Case {
        word: 0x4c1e_fb82,
        before: "pc 00001000\ncr[29] 1\n",
        after: "pc 00001004\ncr[29] 1\n",
    },
    Case {
        word: 0x4c1e_fb82,
        before: "pc 00001000\ncr[29] 1\ncr[31] 1\n",
        after: "pc 00001004\ncr[0] 1\ncr[29] 1\ncr[31] 1\n",
    },
    Case {
        word: 0x4c1e_fb82,
        before: "pc 00001000\ncr[29] 1\ncr[30] 1\ncr[31] 1\n",
        after: "pc 00001004\ncr[0] 1\ncr[29] 1\ncr[30] 1\ncr[31] 1\n",
    },
    Case {
        word: 0x4ca5_2b82,
        before: "pc 00001000\ncr[5] 1\n",
        after: "pc 00001004\ncr[5] 1\n",
    },
];

/// Cases of `crxor`.
pub const CRXOR: [Case; 4] = [
    Case {
        word: 0x4c1e_f982,
        before: "pc 00001000\ncr[29] 1\n",
        after: "pc 00001004\ncr[29] 1\n",
    },
    Case {
        word: 0x4c1e_f982,
        before: "pc 00001000\ncr[29] 1\ncr[31] 1\n",
        after: "pc 00001004\ncr[0] 1\ncr[29] 1\ncr[31] 1\n",
    },
    Case {
        word: 0x4c1e_f982,
        before: "pc 00001000\ncr[29] 1\ncr[30] 1\ncr[31] 1\n",
        after: "pc 00001004\ncr[29] 1\ncr[30] 1\ncr[31] 1\n",
    },
    Case {
        word: 0x4ca5_2982,
        before: "pc 00001000\ncr[5] 1\n",
        after: "pc 00001004\n",
    },
];

/// Cases of `crnand`.
pub const CRNAND: [Case; 4] = [
    Case {
        word: 0x4c1e_f9c2,
        before: "pc 00001000\ncr[29] 1\n",
        after: "pc 00001004\ncr[0] 1\ncr[29] 1\n",
    },
    Case {
        word: 0x4c1e_f9c2,
        before: "pc 00001000\ncr[29] 1\ncr[31] 1\n",
        after: "pc 00001004\ncr[0] 1\ncr[29] 1\ncr[31] 1\n",
    },
    Case {
        word: 0x4c1e_f9c2,
        before: "pc 00001000\ncr[29] 1\ncr[30] 1\ncr[31] 1\n",
        after: "pc 00001004\ncr[29] 1\ncr[30] 1\ncr[31] 1\n",
    },
    Case {
        word: 0x4ca5_29c2,
        before: "pc 00001000\ncr[5] 1\n",
        after: "pc 00001004\n",
    },
];

/// Cases of `crnor`.
pub const CRNOR: [Case; 4] = [
    Case {
        word: 0x4c1e_f842,
        before: "pc 00001000\ncr[29] 1\n",
        after: "pc 00001004\ncr[0] 1\ncr[29] 1\n",
    },
    Case {
        word: 0x4c1e_f842,
        before: "pc 00001000\ncr[29] 1\ncr[31] 1\n",
        after: "pc 00001004\ncr[29] 1\ncr[31] 1\n",
    },
    Case {
        word: 0x4c1e_f842,
        before: "pc 00001000\ncr[29] 1\ncr[30] 1\ncr[31] 1\n",
        after: "pc 00001004\ncr[29] 1\ncr[30] 1\ncr[31] 1\n",
    },
    Case {
        word: 0x4ca5_2842,
        before: "pc 00001000\ncr[5] 1\n",
        after: "pc 00001004\n",
    },
];

/// Cases of `creqv`.
pub const CREQV: [Case; 4] = [
    Case {
        word: 0x4c1e_fa42,
        before: "pc 00001000\ncr[29] 1\n",
        after: "pc 00001004\ncr[0] 1\ncr[29] 1\n",
    },
    Case {
        word: 0x4c1e_fa42,
        before: "pc 00001000\ncr[29] 1\ncr[31] 1\n",
        after: "pc 00001004\ncr[29] 1\ncr[31] 1\n",
    },
    Case {
        word: 0x4c1e_fa42,
        before: "pc 00001000\ncr[29] 1\ncr[30] 1\ncr[31] 1\n",
        after: "pc 00001004\ncr[0] 1\ncr[29] 1\ncr[30] 1\ncr[31] 1\n",
    },
    Case {
        word: 0x4ca5_2a42,
        before: "pc 00001000\ncr[5] 1\n",
        after: "pc 00001004\ncr[5] 1\n",
    },
];

/// Cases of `crandc`.
pub const CRANDC: [Case; 4] = [
    Case {
        word: 0x4c1e_f902,
        before: "pc 00001000\ncr[29] 1\n",
        after: "pc 00001004\ncr[29] 1\n",
    },
    Case {
        word: 0x4c1e_f902,
        before: "pc 00001000\ncr[29] 1\ncr[31] 1\n",
        after: "pc 00001004\ncr[29] 1\ncr[31] 1\n",
    },
    Case {
        word: 0x4c1e_f902,
        before: "pc 00001000\ncr[29] 1\ncr[30] 1\ncr[31] 1\n",
        after: "pc 00001004\ncr[29] 1\ncr[30] 1\ncr[31] 1\n",
    },
    Case {
        word: 0x4ca5_2902,
        before: "pc 00001000\ncr[5] 1\n",
        after: "pc 00001004\n",
    },
];

/// Cases of `crorc`.
pub const CRORC: [Case; 4] = [
    Case {
        word: 0x4c1e_fb42,
        before: "pc 00001000\ncr[29] 1\n",
        after: "pc 00001004\ncr[0] 1\ncr[29] 1\n",
    },
    Case {
        word: 0x4c1e_fb42,
        before: "pc 00001000\ncr[29] 1\ncr[31] 1\n",
        after: "pc 00001004\ncr[29] 1\ncr[31] 1\n",
    },
    Case {
        word: 0x4c1e_fb42,
        before: "pc 00001000\ncr[29] 1\ncr[30] 1\ncr[31] 1\n",
        after: "pc 00001004\ncr[0] 1\ncr[29] 1\ncr[30] 1\ncr[31] 1\n",
    },
    Case {
        word: 0x4ca5_2b42,
        before: "pc 00001000\ncr[5] 1\n",
        after: "pc 00001004\ncr[5] 1\n",
    },
];

/// Cases of `mcrf`.
pub const MCRF: [Case; 4] = [
    Case {
        word: 0x4c1c_0000,
        before: "pc 00001000\ncr[1] 1\ncr[28] 1\ncr[30] 1\ncr[31] 1\n",
        after: "pc 00001004\ncr[0] 1\ncr[2] 1\ncr[3] 1\ncr[28] 1\ncr[30] 1\ncr[31] 1\n",
    },
    Case {
        word: 0x4f80_0000,
        before: "pc 00001000\ncr[0] 1\ncr[3] 1\ncr[29] 1\n",
        after: "pc 00001004\ncr[0] 1\ncr[3] 1\ncr[28] 1\ncr[31] 1\n",
    },
    Case {
        word: 0x4d8c_0000,
        before: "pc 00001000\ncr[12] 1\ncr[15] 1\n",
        after: "pc 00001004\ncr[12] 1\ncr[15] 1\n",
    },
    Case {
        word: 0x4c88_0000,
        before: "pc 00001000\ncr[4] 1\ncr[5] 1\ncr[6] 1\ncr[7] 1\n",
        after: "pc 00001004\n",
    },
];

/// Cases of `cmpi`.
pub const CMPI: [Case; 4] = [
    Case {
        word: 0x2c04_0002,
        before: "pc 00001000\ngpr[4] 00000001\nxer[SO] 0\n",
        after: "pc 00001004\ngpr[4] 00000001\ncr[0] 1\n",
    },
    Case {
        word: 0x2d9f_8000,
        before: "pc 00001000\ngpr[31] ffff8000\nxer[SO] 0\n",
        after: "pc 00001004\ngpr[31] ffff8000\ncr[14] 1\n",
    },
    Case {
        word: 0x2f80_7fff,
        before: "pc 00001000\ngpr[0] 00007fff\nxer[SO] 0\n",
        after: "pc 00001004\ngpr[0] 00007fff\ncr[30] 1\n",
    },
    Case {
        word: 0x2c04_ffff,
        before: "pc 00001000\ngpr[4] 80000000\nxer[SO] 0\n",
        after: "pc 00001004\ngpr[4] 80000000\ncr[0] 1\n",
    },
];

/// Cases of `cmp`.
pub const CMP: [Case; 4] = [
    Case {
        word: 0x7c04_2800,
        before: "pc 00001000\ngpr[4] 00000001\ngpr[5] 00000002\ncr[28] 1\ncr[29] 1\ncr[30] 1\ncr[31] 1\nxer[SO] 0\n",
        after: "pc 00001004\ngpr[4] 00000001\ngpr[5] 00000002\ncr[0] 1\ncr[28] 1\ncr[29] 1\ncr[30] 1\ncr[31] 1\n",
    },
    Case {
        word: 0x7d84_2800,
        before: "pc 00001000\ngpr[4] 00000005\ngpr[5] 00000005\ncr[28] 1\ncr[29] 1\ncr[30] 1\ncr[31] 1\nxer[SO] 0\n",
        after: "pc 00001004\ngpr[4] 00000005\ngpr[5] 00000005\ncr[14] 1\ncr[28] 1\ncr[29] 1\ncr[30] 1\ncr[31] 1\n",
    },
    Case {
        word: 0x7f84_2800,
        before: "pc 00001000\ngpr[4] 7fffffff\ngpr[5] 80000000\nxer[SO] 0\n",
        after: "pc 00001004\ngpr[4] 7fffffff\ngpr[5] 80000000\ncr[29] 1\n",
    },
    Case {
        word: 0x7d00_0000,
        before: "pc 00001000\ngpr[0] 00000009\n",
        after: "pc 00001004\ngpr[0] 00000009\ncr[10] 1\n",
    },
];

/// Cases of `cmpli`.
pub const CMPLI: [Case; 4] = [
    Case {
        word: 0x2804_0002,
        before: "pc 00001000\ngpr[4] 00000001\nxer[SO] 0\n",
        after: "pc 00001004\ngpr[4] 00000001\ncr[0] 1\n",
    },
    Case {
        word: 0x299f_8000,
        before: "pc 00001000\ngpr[31] ffff8000\nxer[SO] 0\n",
        after: "pc 00001004\ngpr[31] ffff8000\ncr[13] 1\n",
    },
    Case {
        word: 0x2b80_ffff,
        before: "pc 00001000\ngpr[0] 0000ffff\nxer[SO] 0\n",
        after: "pc 00001004\ngpr[0] 0000ffff\ncr[30] 1\n",
    },
    Case {
        word: 0x2804_8000,
        before: "pc 00001000\ngpr[4] 00007fff\nxer[SO] 0\n",
        after: "pc 00001004\ngpr[4] 00007fff\ncr[0] 1\n",
    },
];

/// Cases of `cmpl`.
pub const CMPL: [Case; 4] = [
    Case {
        word: 0x7c04_2840,
        before: "pc 00001000\ngpr[4] 00000001\ngpr[5] 00000002\ncr[28] 1\ncr[29] 1\ncr[30] 1\ncr[31] 1\nxer[SO] 0\n",
        after: "pc 00001004\ngpr[4] 00000001\ngpr[5] 00000002\ncr[0] 1\ncr[28] 1\ncr[29] 1\ncr[30] 1\ncr[31] 1\n",
    },
    Case {
        word: 0x7d84_2840,
        before: "pc 00001000\ngpr[4] 00000005\ngpr[5] 00000005\ncr[28] 1\ncr[29] 1\ncr[30] 1\ncr[31] 1\nxer[SO] 0\n",
        after: "pc 00001004\ngpr[4] 00000005\ngpr[5] 00000005\ncr[14] 1\ncr[28] 1\ncr[29] 1\ncr[30] 1\ncr[31] 1\n",
    },
    Case {
        word: 0x7f84_2840,
        before: "pc 00001000\ngpr[4] 7fffffff\ngpr[5] 80000000\nxer[SO] 0\n",
        after: "pc 00001004\ngpr[4] 7fffffff\ngpr[5] 80000000\ncr[28] 1\n",
    },
    Case {
        word: 0x7d00_0040,
        before: "pc 00001000\ngpr[0] 00000009\n",
        after: "pc 00001004\ngpr[0] 00000009\ncr[10] 1\n",
    },
];

/// Cases of `mtcrf`.
pub const MTCRF: [Case; 10] = [
    Case {
        word: 0x7c60_1120,
        before: "pc 00001000\ngpr[3] 9d6b5a3c\ncr[28] 1\ncr[29] 1\ncr[30] 1\ncr[31] 1\n",
        after: "pc 00001004\ngpr[3] 9d6b5a3c\ncr[28] 1\ncr[29] 1\n",
    },
    Case {
        word: 0x7c60_2120,
        before: "pc 00001000\ngpr[3] 9d6b5a3c\ncr[28] 1\ncr[29] 1\ncr[30] 1\ncr[31] 1\n",
        after: "pc 00001004\ngpr[3] 9d6b5a3c\ncr[26] 1\ncr[27] 1\ncr[28] 1\ncr[29] 1\ncr[30] 1\ncr[31] 1\n",
    },
    Case {
        word: 0x7c60_4120,
        before: "pc 00001000\ngpr[3] 9d6b5a3c\ncr[28] 1\ncr[29] 1\ncr[30] 1\ncr[31] 1\n",
        after: "pc 00001004\ngpr[3] 9d6b5a3c\ncr[20] 1\ncr[22] 1\ncr[28] 1\ncr[29] 1\ncr[30] 1\ncr[31] 1\n",
    },
    Case {
        word: 0x7c60_8120,
        before: "pc 00001000\ngpr[3] 9d6b5a3c\ncr[28] 1\ncr[29] 1\ncr[30] 1\ncr[31] 1\n",
        after: "pc 00001004\ngpr[3] 9d6b5a3c\ncr[17] 1\ncr[19] 1\ncr[28] 1\ncr[29] 1\ncr[30] 1\ncr[31] 1\n",
    },
    Case {
        word: 0x7c61_0120,
        before: "pc 00001000\ngpr[3] 9d6b5a3c\ncr[28] 1\ncr[29] 1\ncr[30] 1\ncr[31] 1\n",
        after: "pc 00001004\ngpr[3] 9d6b5a3c\ncr[12] 1\ncr[14] 1\ncr[15] 1\ncr[28] 1\ncr[29] 1\ncr[30] 1\ncr[31] 1\n",
    },
    Case {
        word: 0x7c64_0120,
        before: "pc 00001000\ngpr[3] 9d6b5a3c\ncr[28] 1\ncr[29] 1\ncr[30] 1\ncr[31] 1\n",
        after: "pc 00001004\ngpr[3] 9d6b5a3c\ncr[4] 1\ncr[5] 1\ncr[7] 1\ncr[28] 1\ncr[29] 1\ncr[30] 1\ncr[31] 1\n",
    },
    Case {
        word: 0x7c68_0120,
        before: "pc 00001000\ngpr[3] 9d6b5a3c\ncr[28] 1\ncr[29] 1\ncr[30] 1\ncr[31] 1\n",
        after: "pc 00001004\ngpr[3] 9d6b5a3c\ncr[0] 1\ncr[3] 1\ncr[28] 1\ncr[29] 1\ncr[30] 1\ncr[31] 1\n",
    },
    Case {
        word: 0x7fef_f120,
        before: "pc 00001000\ngpr[31] 80000001\n",
        after: "pc 00001004\ngpr[31] 80000001\ncr[0] 1\ncr[31] 1\n",
    },
    Case {
        word: 0x7fe0_0120,
        before: "pc 00001000\ngpr[31] ffffffff\ncr[5] 1\n",
        after: "pc 00001004\ngpr[31] ffffffff\ncr[5] 1\n",
    },
    Case {
        word: 0x7fe8_1120,
        before: "pc 00001000\ngpr[31] 6789abcd\ncr[0] 1\ncr[15] 1\ncr[31] 1\n",
        after: "pc 00001004\ngpr[31] 6789abcd\ncr[1] 1\ncr[2] 1\ncr[15] 1\ncr[28] 1\ncr[29] 1\ncr[31] 1\n",
    },
];

/// Cases of `mfcr`.
pub const MFCR: [Case; 4] = [
    Case {
        word: 0x7c60_0026,
        before: "pc 00001000\ngpr[3] 00000009\ncr[0] 1\ncr[31] 1\n",
        after: "pc 00001004\ngpr[3] 80000001\ncr[0] 1\ncr[31] 1\n",
    },
    Case {
        word: 0x7c00_0026,
        before: "pc 00001000\ncr[1] 1\ncr[6] 1\ncr[11] 1\ncr[16] 1\ncr[21] 1\ncr[26] 1\n",
        after: "pc 00001004\ngpr[0] 42108420\ncr[1] 1\ncr[6] 1\ncr[11] 1\ncr[16] 1\ncr[21] 1\ncr[26] 1\n",
    },
    Case {
        word: 0x7c80_0026,
        before: "pc 00001000\ncr[2] 1\ncr[3] 1\ncr[6] 1\ncr[7] 1\ncr[10] 1\ncr[11] 1\ncr[14] 1\ncr[15] 1\ncr[18] 1\ncr[19] 1\ncr[22] 1\ncr[23] 1\ncr[26] 1\ncr[27] 1\ncr[30] 1\ncr[31] 1\n",
        after: "pc 00001004\ngpr[4] 33333333\ncr[2] 1\ncr[3] 1\ncr[6] 1\ncr[7] 1\ncr[10] 1\ncr[11] 1\ncr[14] 1\ncr[15] 1\ncr[18] 1\ncr[19] 1\ncr[22] 1\ncr[23] 1\ncr[26] 1\ncr[27] 1\ncr[30] 1\ncr[31] 1\n",
    },
    Case {
        word: 0x7c80_0026,
        before: "pc 00001000\ncr[16] 1\ncr[17] 1\ncr[18] 1\ncr[19] 1\ncr[20] 1\ncr[21] 1\ncr[22] 1\ncr[23] 1\ncr[24] 1\ncr[25] 1\ncr[26] 1\ncr[27] 1\ncr[28] 1\ncr[29] 1\ncr[30] 1\ncr[31] 1\n",
        after: "pc 00001004\ngpr[4] 0000ffff\ncr[16] 1\ncr[17] 1\ncr[18] 1\ncr[19] 1\ncr[20] 1\ncr[21] 1\ncr[22] 1\ncr[23] 1\ncr[24] 1\ncr[25] 1\ncr[26] 1\ncr[27] 1\ncr[28] 1\ncr[29] 1\ncr[30] 1\ncr[31] 1\n",
    },
];
