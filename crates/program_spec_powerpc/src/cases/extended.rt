//! Sums and differences with a carry in.

use crate::Case;

/// Cases of `adde`.
pub const ADDE: [Case; 4] = [
    Case {
        word: 0x7c64_2914,
        before: "pc 00001000\ngpr[4] ffffffff\ngpr[5] 00000000\nxer[CA] 0\n",
        after: "pc 00001004\ngpr[3] ffffffff\ngpr[4] ffffffff\n",
    },
    Case {
        word: 0x7c1f_f114,
        before: "pc 00001000\ngpr[30] 00000000\ngpr[31] 7fffffff\nxer[SO] 1\nxer[CA] 0\n",
        after: "pc 00001004\ngpr[0] 7fffffff\ngpr[31] 7fffffff\nxer[SO] 1\n",
    },
    Case {
        word: 0x7c84_2914,
        before: "pc 00001000\ngpr[4] 80000000\ngpr[5] ffffffff\nxer[OV] 1\nxer[CA] 0\n",
        after: "pc 00001004\ngpr[4] 7fffffff\ngpr[5] ffffffff\nxer[OV] 1\nxer[CA] 1\n",
    },
    Case {
        word: 0x7c64_2114,
        before: "pc 00001000\ngpr[4] ffffffff\nxer[SO] 1\nxer[OV] 1\nxer[CA] 1\n",
        after: "pc 00001004\ngpr[3] ffffffff\ngpr[4] ffffffff\nxer[SO] 1\nxer[OV] 1\nxer[CA] 1\n",
    },
];

/// Cases of `adde.`.
pub const ADDE_RC: [Case; 4] = [
    Case {
        word: 0x7c64_2915,
        before: "pc 00001000\ngpr[4] ffffffff\ngpr[5] 00000000\nxer[SO] 1\nxer[CA] 0\n",
        after: "pc 00001004\ngpr[3] ffffffff\ngpr[4] ffffffff\ncr[0] 1\ncr[3] 1\nxer[SO] 1\n",
    },
    Case {
        word: 0x7c1f_f115,
        before: "pc 00001000\ngpr[30] 00000000\ngpr[31] 7fffffff\nxer[OV] 1\nxer[CA] 0\n",
        after: "pc 00001004\ngpr[0] 7fffffff\ngpr[31] 7fffffff\ncr[1] 1\nxer[OV] 1\n",
    },
    Case {
        word: 0x7c84_2915,
        before: "pc 00001000\ngpr[4] 80000000\ngpr[5] ffffffff\nxer[SO] 1\nxer[OV] 1\nxer[CA] 0\n",
        after: "pc 00001004\ngpr[4] 7fffffff\ngpr[5] ffffffff\ncr[1] 1\ncr[3] 1\nxer[SO] 1\nxer[OV] 1\nxer[CA] 1\n",
    },
    Case {
        word: 0x7c64_2115,
        before: "pc 00001000\ngpr[4] ffffffff\nxer[CA] 1\n",
        after: "pc 00001004\ngpr[3] ffffffff\ngpr[4] ffffffff\ncr[0] 1\nxer[CA] 1\n",
    },
];

/// Cases of `addeo`.
pub const ADDE_OE: [Case; 4] = [
    Case {
        word: 0x7c64_2d14,
        before: "pc 00001000\ngpr[4] ffffffff\ngpr[5] 00000000\nxer[SO] 1\nxer[CA] 0\n",
        after: "pc 00001004\ngpr[3] ffffffff\ngpr[4] ffffffff\nxer[SO] 1\n",
    },
    Case {
        word: 0x7c1f_f514,
        before: "pc 00001000\ngpr[30] 00000000\ngpr[31] 7fffffff\nxer[OV] 1\nxer[CA] 0\n",
        after: "pc 00001004\ngpr[0] 7fffffff\ngpr[31] 7fffffff\n",
    },
    Case {
        word: 0x7c84_2d14,
        before: "pc 00001000\ngpr[4] 80000000\ngpr[5] ffffffff\nxer[SO] 1\nxer[OV] 1\nxer[CA] 0\n",
        after: "pc 00001004\ngpr[4] 7fffffff\ngpr[5] ffffffff\nxer[SO] 1\nxer[OV] 1\nxer[CA] 1\n",
    },
    Case {
        word: 0x7c64_2514,
        before: "pc 00001000\ngpr[4] ffffffff\nxer[CA] 1\n",
        after: "pc 00001004\ngpr[3] ffffffff\ngpr[4] ffffffff\nxer[CA] 1\n",
    },
];

/// Cases of `addeo.`.
pub const ADDE_OE_RC: [Case; 4] = [
    Case {
        word: 0x7c64_2d15,
        before: "pc 00001000\ngpr[4] ffffffff\ngpr[5] 00000000\nxer[OV] 1\nxer[CA] 0\n",
        after: "pc 00001004\ngpr[3] ffffffff\ngpr[4] ffffffff\ncr[0] 1\n",
    },
    Case {
        word: 0x7c1f_f515,
        before: "pc 00001000\ngpr[30] 00000000\ngpr[31] 7fffffff\nxer[SO] 1\nxer[OV] 1\nxer[CA] 0\n",
        after: "pc 00001004\ngpr[0] 7fffffff\ngpr[31] 7fffffff\ncr[1] 1\ncr[3] 1\nxer[SO] 1\n",
    },
    Case {
        word: 0x7c84_2d15,
        before: "pc 00001000\ngpr[4] 80000000\ngpr[5] ffffffff\nxer[CA] 0\n",
        after: "pc 00001004\ngpr[4] 7fffffff\ngpr[5] ffffffff\ncr[1] 1\ncr[3] 1\nxer[SO] 1\nxer[OV] 1\nxer[CA] 1\n",
    },
    Case {
        word: 0x7c64_2515,
        before: "pc 00001000\ngpr[4] ffffffff\nxer[SO] 1\nxer[CA] 1\n",
        after: "pc 00001004\ngpr[3] ffffffff\ngpr[4] ffffffff\ncr[0] 1\ncr[3] 1\nxer[SO] 1\nxer[CA] 1\n",
    },
];

/// Cases of `subfe`.
pub const SUBFE: [Case; 4] = [
    Case {
        word: 0x7c64_2910,
        before: "pc 00001000\ngpr[4] 00000005\ngpr[5] 00000005\nxer[CA] 0\n",
        after: "pc 00001004\ngpr[3] ffffffff\ngpr[4] 00000005\ngpr[5] 00000005\n",
    },
    Case {
        word: 0x7c1f_f110,
        before: "pc 00001000\ngpr[30] 80000000\ngpr[31] 00000000\nxer[SO] 1\nxer[CA] 0\n",
        after: "pc 00001004\ngpr[0] 7fffffff\ngpr[30] 80000000\nxer[SO] 1\nxer[CA] 1\n",
    },
    Case {
        word: 0x7c84_2910,
        before: "pc 00001000\ngpr[4] 80000000\ngpr[5] 7fffffff\nxer[OV] 1\nxer[CA] 0\n",
        after: "pc 00001004\ngpr[4] fffffffe\ngpr[5] 7fffffff\nxer[OV] 1\n",
    },
    Case {
        word: 0x7ca4_2910,
        before: "pc 00001000\ngpr[4] ffffffff\ngpr[5] 00000000\nxer[SO] 1\nxer[OV] 1\nxer[CA] 1\n",
        after: "pc 00001004\ngpr[4] ffffffff\ngpr[5] 00000001\nxer[SO] 1\nxer[OV] 1\n",
    },
];

/// Cases of `subfe.`.
pub const SUBFE_RC: [Case; 4] = [
    Case {
        word: 0x7c64_2911,
        before: "pc 00001000\ngpr[4] 00000005\ngpr[5] 00000005\nxer[SO] 1\nxer[CA] 0\n",
        after: "pc 00001004\ngpr[3] ffffffff\ngpr[4] 00000005\ngpr[5] 00000005\ncr[0] 1\ncr[3] 1\nxer[SO] 1\n",
    },
    Case {
        word: 0x7c1f_f111,
        before: "pc 00001000\ngpr[30] 80000000\ngpr[31] 00000000\nxer[OV] 1\nxer[CA] 0\n",
        after: "pc 00001004\ngpr[0] 7fffffff\ngpr[30] 80000000\ncr[1] 1\nxer[OV] 1\nxer[CA] 1\n",
    },
    Case {
        word: 0x7c84_2911,
        before: "pc 00001000\ngpr[4] 80000000\ngpr[5] 7fffffff\nxer[SO] 1\nxer[OV] 1\nxer[CA] 0\n",
        after: "pc 00001004\ngpr[4] fffffffe\ngpr[5] 7fffffff\ncr[0] 1\ncr[3] 1\nxer[SO] 1\nxer[OV] 1\n",
    },
    Case {
        word: 0x7ca4_2911,
        before: "pc 00001000\ngpr[4] ffffffff\ngpr[5] 00000000\nxer[CA] 1\n",
        after: "pc 00001004\ngpr[4] ffffffff\ngpr[5] 00000001\ncr[1] 1\n",
    },
];

/// Cases of `subfeo`.
pub const SUBFE_OE: [Case; 4] = [
    Case {
        word: 0x7c64_2d10,
        before: "pc 00001000\ngpr[4] 00000005\ngpr[5] 00000005\nxer[SO] 1\nxer[CA] 0\n",
        after: "pc 00001004\ngpr[3] ffffffff\ngpr[4] 00000005\ngpr[5] 00000005\nxer[SO] 1\n",
    },
    Case {
        word: 0x7c1f_f510,
        before: "pc 00001000\ngpr[30] 80000000\ngpr[31] 00000000\nxer[OV] 1\nxer[CA] 0\n",
        after: "pc 00001004\ngpr[0] 7fffffff\ngpr[30] 80000000\nxer[SO] 1\nxer[OV] 1\nxer[CA] 1\n",
    },
    Case {
        word: 0x7c84_2d10,
        before: "pc 00001000\ngpr[4] 80000000\ngpr[5] 7fffffff\nxer[SO] 1\nxer[OV] 1\nxer[CA] 0\n",
        after: "pc 00001004\ngpr[4] fffffffe\ngpr[5] 7fffffff\nxer[SO] 1\nxer[OV] 1\n",
    },
    Case {
        word: 0x7ca4_2d10,
        before: "pc 00001000\ngpr[4] ffffffff\ngpr[5] 00000000\nxer[CA] 1\n",
        after: "pc 00001004\ngpr[4] ffffffff\ngpr[5] 00000001\n",
    },
];

/// Cases of `subfeo.`.
pub const SUBFE_OE_RC: [Case; 4] = [
    Case {
        word: 0x7c64_2d11,
        before: "pc 00001000\ngpr[4] 00000005\ngpr[5] 00000005\nxer[OV] 1\nxer[CA] 0\n",
        after: "pc 00001004\ngpr[3] ffffffff\ngpr[4] 00000005\ngpr[5] 00000005\ncr[0] 1\n",
    },
    Case {
        word: 0x7c1f_f511,
        before: "pc 00001000\ngpr[30] 80000000\ngpr[31] 00000000\nxer[SO] 1\nxer[OV] 1\nxer[CA] 0\n",
        after: "pc 00001004\ngpr[0] 7fffffff\ngpr[30] 80000000\ncr[1] 1\ncr[3] 1\nxer[SO] 1\nxer[OV] 1\nxer[CA] 1\n",
    },
    Case {
        word: 0x7c84_2d11,
        before: "pc 00001000\ngpr[4] 80000000\ngpr[5] 7fffffff\nxer[CA] 0\n",
        after: "pc 00001004\ngpr[4] fffffffe\ngpr[5] 7fffffff\ncr[0] 1\ncr[3] 1\nxer[SO] 1\nxer[OV] 1\n",
    },
    Case {
        word: 0x7ca4_2d11,
        before: "pc 00001000\ngpr[4] ffffffff\ngpr[5] 00000000\nxer[SO] 1\nxer[CA] 1\n",
        after: "pc 00001004\ngpr[4] ffffffff\ngpr[5] 00000001\ncr[1] 1\ncr[3] 1\nxer[SO] 1\n",
    },
];

/// Cases of `addme`.
pub const ADDME: [Case; 4] = [
    Case {
        word: 0x7c64_01d4,
        before: "pc 00001000\ngpr[4] 00000000\nxer[CA] 0\n",
        after: "pc 00001004\ngpr[3] ffffffff\n",
    },
    Case {
        word: 0x7c1f_01d4,
        before: "pc 00001000\ngpr[31] ffffffff\nxer[SO] 1\nxer[CA] 0\n",
        after: "pc 00001004\ngpr[0] fffffffe\ngpr[31] ffffffff\nxer[SO] 1\nxer[CA] 1\n",
    },
    Case {
        word: 0x7c84_01d4,
        before: "pc 00001000\ngpr[4] 80000000\nxer[OV] 1\nxer[CA] 0\n",
        after: "pc 00001004\ngpr[4] 7fffffff\nxer[OV] 1\nxer[CA] 1\n",
    },
    Case {
        word: 0x7fe0_01d4,
        before: "pc 00001000\ngpr[0] 7fffffff\nxer[SO] 1\nxer[OV] 1\nxer[CA] 1\n",
        after: "pc 00001004\ngpr[0] 7fffffff\ngpr[31] 7fffffff\nxer[SO] 1\nxer[OV] 1\nxer[CA] 1\n",
    },
];

/// Cases of `addme.`.
pub const ADDME_RC: [Case; 4] = [
    Case {
        word: 0x7c64_01d5,
        before: "pc 00001000\ngpr[4] 00000000\nxer[SO] 1\nxer[CA] 0\n",
        after: "pc 00001004\ngpr[3] ffffffff\ncr[0] 1\ncr[3] 1\nxer[SO] 1\n",
    },
    Case {
        word: 0x7c1f_01d5,
        before: "pc 00001000\ngpr[31] ffffffff\nxer[OV] 1\nxer[CA] 0\n",
        after: "pc 00001004\ngpr[0] fffffffe\ngpr[31] ffffffff\ncr[0] 1\nxer[OV] 1\nxer[CA] 1\n",
    },
    Case {
        word: 0x7c84_01d5,
        before: "pc 00001000\ngpr[4] 80000000\nxer[SO] 1\nxer[OV] 1\nxer[CA] 0\n",
        after: "pc 00001004\ngpr[4] 7fffffff\ncr[1] 1\ncr[3] 1\nxer[SO] 1\nxer[OV] 1\nxer[CA] 1\n",
    },
    Case {
        word: 0x7fe0_01d5,
        before: "pc 00001000\ngpr[0] 7fffffff\nxer[CA] 1\n",
        after: "pc 00001004\ngpr[0] 7fffffff\ngpr[31] 7fffffff\ncr[1] 1\nxer[CA] 1\n",
    },
];

/// Cases of `addmeo`.
pub const ADDME_OE: [Case; 4] = [
    Case {
        word: 0x7c64_05d4,
        before: "pc 00001000\ngpr[4] 00000000\nxer[SO] 1\nxer[CA] 0\n",
        after: "pc 00001004\ngpr[3] ffffffff\nxer[SO] 1\n",
    },
    Case {
        word: 0x7c1f_05d4,
        before: "pc 00001000\ngpr[31] ffffffff\nxer[OV] 1\nxer[CA] 0\n",
        after: "pc 00001004\ngpr[0] fffffffe\ngpr[31] ffffffff\nxer[CA] 1\n",
    },
    Case {
        word: 0x7c84_05d4,
        before: "pc 00001000\ngpr[4] 80000000\nxer[SO] 1\nxer[OV] 1\nxer[CA] 0\n",
        after: "pc 00001004\ngpr[4] 7fffffff\nxer[SO] 1\nxer[OV] 1\nxer[CA] 1\n",
    },
    Case {
        word: 0x7fe0_05d4,
        before: "pc 00001000\ngpr[0] 7fffffff\nxer[CA] 1\n",
        after: "pc 00001004\ngpr[0] 7fffffff\ngpr[31] 7fffffff\nxer[CA] 1\n",
    },
];

/// Cases of `addmeo.`.
pub const ADDME_OE_RC: [Case; 4] = [
    Case {
        word: 0x7c64_05d5,
        before: "pc 00001000\ngpr[4] 00000000\nxer[OV] 1\nxer[CA] 0\n",
        after: "pc 00001004\ngpr[3] ffffffff\ncr[0] 1\n",
    },
    Case {
        word: 0x7c1f_05d5,
        before: "pc 00001000\ngpr[31] ffffffff\nxer[SO] 1\nxer[OV] 1\nxer[CA] 0\n",
        after: "pc 00001004\ngpr[0] fffffffe\ngpr[31] ffffffff\ncr[0] 1\ncr[3] 1\nxer[SO] 1\nxer[CA] 1\n",
    },
    Case {
        word: 0x7c84_05d5,
        before: "pc 00001000\ngpr[4] 80000000\nxer[CA] 0\n",
        after: "pc 00001004\ngpr[4] 7fffffff\ncr[1] 1\ncr[3] 1\nxer[SO] 1\nxer[OV] 1\nxer[CA] 1\n",
    },
    Case {
        word: 0x7fe0_05d5,
        before: "pc 00001000\ngpr[0] 7fffffff\nxer[SO] 1\nxer[CA] 1\n",
        after: "pc 00001004\ngpr[0] 7fffffff\ngpr[31] 7fffffff\ncr[1] 1\ncr[3] 1\nxer[SO] 1\nxer[CA] 1\n",
    },
];

/// Cases of `subfme`.
pub const SUBFME: [Case; 4] = [
    Case {
        word: 0x7c64_01d0,
        before: "pc 00001000\ngpr[4] 00000000\nxer[CA] 0\n",
        after: "pc 00001004\ngpr[3] fffffffe\nxer[CA] 1\n",
    },
    Case {
        word: 0x7c1f_01d0,
        before: "pc 00001000\ngpr[31] ffffffff\nxer[SO] 1\nxer[CA] 0\n",
        after: "pc 00001004\ngpr[0] ffffffff\ngpr[31] ffffffff\nxer[SO] 1\n",
    },
    Case {
        word: 0x7c84_01d0,
        before: "pc 00001000\ngpr[4] 80000000\nxer[OV] 1\nxer[CA] 0\n",
        after: "pc 00001004\ngpr[4] 7ffffffe\nxer[OV] 1\nxer[CA] 1\n",
    },
    Case {
        word: 0x7fe0_01d0,
        before: "pc 00001000\ngpr[0] 7fffffff\nxer[SO] 1\nxer[OV] 1\nxer[CA] 1\n",
        after: "pc 00001004\ngpr[0] 7fffffff\ngpr[31] 80000000\nxer[SO] 1\nxer[OV] 1\nxer[CA] 1\n",
    },
];

/// Cases of `subfme.`.
pub const SUBFME_RC: [Case; 4] = [
    Case {
        word: 0x7c64_01d1,
        before: "pc 00001000\ngpr[4] 00000000\nxer[SO] 1\nxer[CA] 0\n",
        after: "pc 00001004\ngpr[3] fffffffe\ncr[0] 1\ncr[3] 1\nxer[SO] 1\nxer[CA] 1\n",
    },
    Case {
        word: 0x7c1f_01d1,
        before: "pc 00001000\ngpr[31] ffffffff\nxer[OV] 1\nxer[CA] 0\n",
        after: "pc 00001004\ngpr[0] ffffffff\ngpr[31] ffffffff\ncr[0] 1\nxer[OV] 1\n",
    },
    Case {
        word: 0x7c84_01d1,
        before: "pc 00001000\ngpr[4] 80000000\nxer[SO] 1\nxer[OV] 1\nxer[CA] 0\n",
        after: "pc 00001004\ngpr[4] 7ffffffe\ncr[1] 1\ncr[3] 1\nxer[SO] 1\nxer[OV] 1\nxer[CA] 1\n",
    },
    Case {
        word: 0x7fe0_01d1,
        before: "pc 00001000\ngpr[0] 7fffffff\nxer[CA] 1\n",
        after: "pc 00001004\ngpr[0] 7fffffff\ngpr[31] 80000000\ncr[0] 1\nxer[CA] 1\n",
    },
];

/// Cases of `subfmeo`.
pub const SUBFME_OE: [Case; 4] = [
    Case {
        word: 0x7c64_05d0,
        before: "pc 00001000\ngpr[4] 00000000\nxer[SO] 1\nxer[CA] 0\n",
        after: "pc 00001004\ngpr[3] fffffffe\nxer[SO] 1\nxer[CA] 1\n",
    },
    Case {
        word: 0x7c1f_05d0,
        before: "pc 00001000\ngpr[31] ffffffff\nxer[OV] 1\nxer[CA] 0\n",
        after: "pc 00001004\ngpr[0] ffffffff\ngpr[31] ffffffff\n",
    },
    Case {
        word: 0x7c84_05d0,
        before: "pc 00001000\ngpr[4] 80000000\nxer[SO] 1\nxer[OV] 1\nxer[CA] 0\n",
        after: "pc 00001004\ngpr[4] 7ffffffe\nxer[SO] 1\nxer[CA] 1\n",
    },
    Case {
        word: 0x7fe0_05d0,
        before: "pc 00001000\ngpr[0] 7fffffff\nxer[CA] 1\n",
        after: "pc 00001004\ngpr[0] 7fffffff\ngpr[31] 80000000\nxer[CA] 1\n",
    },
];

/// Cases of `subfmeo.`.
pub const SUBFME_OE_RC: [Case; 4] = [
    Case {
        word: 0x7c64_05d1,
        before: "pc 00001000\ngpr[4] 00000000\nxer[OV] 1\nxer[CA] 0\n",
        after: "pc 00001004\ngpr[3] fffffffe\ncr[0] 1\nxer[CA] 1\n",
    },
    Case {
        word: 0x7c1f_05d1,
        before: "pc 00001000\ngpr[31] ffffffff\nxer[SO] 1\nxer[OV] 1\nxer[CA] 0\n",
        after: "pc 00001004\ngpr[0] ffffffff\ngpr[31] ffffffff\ncr[0] 1\ncr[3] 1\nxer[SO] 1\n",
    },
    Case {
        word: 0x7c84_05d1,
        before: "pc 00001000\ngpr[4] 80000000\nxer[CA] 0\n",
        after: "pc 00001004\ngpr[4] 7ffffffe\ncr[1] 1\nxer[CA] 1\n",
    },
    Case {
        word: 0x7fe0_05d1,
        before: "pc 00001000\ngpr[0] 7fffffff\nxer[SO] 1\nxer[CA] 1\n",
        after: "pc 00001004\ngpr[0] 7fffffff\ngpr[31] 80000000\ncr[0] 1\ncr[3] 1\nxer[SO] 1\nxer[CA] 1\n",
    },
];

/// Cases of `addze`.
pub const ADDZE: [Case; 4] = [
    Case {
        word: 0x7c64_0194,
        before: "pc 00001000\ngpr[4] 00000000\nxer[CA] 0\n",
        after: "pc 00001004\n",
    },
    Case {
        word: 0x7c1f_0194,
        before: "pc 00001000\ngpr[31] ffffffff\nxer[SO] 1\nxer[CA] 0\n",
        after: "pc 00001004\ngpr[0] ffffffff\ngpr[31] ffffffff\nxer[SO] 1\n",
    },
    Case {
        word: 0x7c84_0194,
        before: "pc 00001000\ngpr[4] 80000000\nxer[OV] 1\nxer[CA] 0\n",
        after: "pc 00001004\ngpr[4] 80000000\nxer[OV] 1\n",
    },
    Case {
        word: 0x7fe0_0194,
        before: "pc 00001000\ngpr[0] 7fffffff\nxer[SO] 1\nxer[OV] 1\nxer[CA] 1\n",
        after: "pc 00001004\ngpr[0] 7fffffff\ngpr[31] 80000000\nxer[SO] 1\nxer[OV] 1\n",
    },
];

/// Cases of `addze.`.
pub const ADDZE_RC: [Case; 4] = [
    Case {
        word: 0x7c64_0195,
        before: "pc 00001000\ngpr[4] 00000000\nxer[SO] 1\nxer[CA] 0\n",
        after: "pc 00001004\ncr[2] 1\ncr[3] 1\nxer[SO] 1\n",
    },
    Case {
        word: 0x7c1f_0195,
        before: "pc 00001000\ngpr[31] ffffffff\nxer[OV] 1\nxer[CA] 0\n",
        after: "pc 00001004\ngpr[0] ffffffff\ngpr[31] ffffffff\ncr[0] 1\nxer[OV] 1\n",
    },
    Case {
        word: 0x7c84_0195,
        before: "pc 00001000\ngpr[4] 80000000\nxer[SO] 1\nxer[OV] 1\nxer[CA] 0\n",
        after: "pc 00001004\ngpr[4] 80000000\ncr[0] 1\ncr[3] 1\nxer[SO] 1\nxer[OV] 1\n",
    },
    Case {
        word: 0x7fe0_0195,
        before: "pc 00001000\ngpr[0] 7fffffff\nxer[CA] 1\n",
        after: "pc 00001004\ngpr[0] 7fffffff\ngpr[31] 80000000\ncr[0] 1\n",
    },
];

/// Cases of `addzeo`.
pub const ADDZE_OE: [Case; 4] = [
    Case {
        word: 0x7c64_0594,
        before: "pc 00001000\ngpr[4] 00000000\nxer[SO] 1\nxer[CA] 0\n",
        after: "pc 00001004\nxer[SO] 1\n",
    },
    Case {
        word: 0x7c1f_0594,
        before: "pc 00001000\ngpr[31] ffffffff\nxer[OV] 1\nxer[CA] 0\n",
        after: "pc 00001004\ngpr[0] ffffffff\ngpr[31] ffffffff\n",
    },
    Case {
        word: 0x7c84_0594,
        before: "pc 00001000\ngpr[4] 80000000\nxer[SO] 1\nxer[OV] 1\nxer[CA] 0\n",
        after: "pc 00001004\ngpr[4] 80000000\nxer[SO] 1\n",
    },
    Case {
        word: 0x7fe0_0594,
        before: "pc 00001000\ngpr[0] 7fffffff\nxer[CA] 1\n",
        after: "pc 00001004\ngpr[0] 7fffffff\ngpr[31] 80000000\nxer[SO] 1\nxer[OV] 1\n",
    },
];

/// Cases of `addzeo.`.
pub const ADDZE_OE_RC: [Case; 4] = [
    Case {
        word: 0x7c64_0595,
        before: "pc 00001000\ngpr[4] 00000000\nxer[OV] 1\nxer[CA] 0\n",
        after: "pc 00001004\ncr[2] 1\n",
    },
    Case {
        word: 0x7c1f_0595,
        before: "pc 00001000\ngpr[31] ffffffff\nxer[SO] 1\nxer[OV] 1\nxer[CA] 0\n",
        after: "pc 00001004\ngpr[0] ffffffff\ngpr[31] ffffffff\ncr[0] 1\ncr[3] 1\nxer[SO] 1\n",
    },
    Case {
        word: 0x7c84_0595,
        before: "pc 00001000\ngpr[4] 80000000\nxer[CA] 0\n",
        after: "pc 00001004\ngpr[4] 80000000\ncr[0] 1\n",
    },
    Case {
        word: 0x7fe0_0595,
        before: "pc 00001000\ngpr[0] 7fffffff\nxer[SO] 1\nxer[CA] 1\n",
        after: "pc 00001004\ngpr[0] 7fffffff\ngpr[31] 80000000\ncr[0] 1\ncr[3] 1\nxer[SO] 1\nxer[OV] 1\n",
    },
];

/// Cases of `subfze`.
pub const SUBFZE: [Case; 4] = [
    Case {
        word: 0x7c64_0190,
        before: "pc 00001000\ngpr[4] 00000000\nxer[CA] 0\n",
        after: "pc 00001004\ngpr[3] ffffffff\n",
    },
    Case {
        word: 0x7c1f_0190,
        before: "pc 00001000\ngpr[31] ffffffff\nxer[SO] 1\nxer[CA] 0\n",
        after: "pc 00001004\ngpr[31] ffffffff\nxer[SO] 1\n",
    },
    Case {
        word: 0x7c84_0190,
        before: "pc 00001000\ngpr[4] 80000000\nxer[OV] 1\nxer[CA] 0\n",
        after: "pc 00001004\ngpr[4] 7fffffff\nxer[OV] 1\n",
    },
    Case {
        word: 0x7fe0_0190,
        before: "pc 00001000\ngpr[0] 7fffffff\nxer[SO] 1\nxer[OV] 1\nxer[CA] 1\n",
        after: "pc 00001004\ngpr[0] 7fffffff\ngpr[31] 80000001\nxer[SO] 1\nxer[OV] 1\n",
    },
];

/// Cases of `subfze.`.
pub const SUBFZE_RC: [Case; 4] = [
    Case {
        word: 0x7c64_0191,
        before: "pc 00001000\ngpr[4] 00000000\nxer[SO] 1\nxer[CA] 0\n",
        after: "pc 00001004\ngpr[3] ffffffff\ncr[0] 1\ncr[3] 1\nxer[SO] 1\n",
    },
    Case {
        word: 0x7c1f_0191,
        before: "pc 00001000\ngpr[31] ffffffff\nxer[OV] 1\nxer[CA] 0\n",
        after: "pc 00001004\ngpr[31] ffffffff\ncr[2] 1\nxer[OV] 1\n",
    },
    Case {
        word: 0x7c84_0191,
        before: "pc 00001000\ngpr[4] 80000000\nxer[SO] 1\nxer[OV] 1\nxer[CA] 0\n",
        after: "pc 00001004\ngpr[4] 7fffffff\ncr[1] 1\ncr[3] 1\nxer[SO] 1\nxer[OV] 1\n",
    },
    Case {
        word: 0x7fe0_0191,
        before: "pc 00001000\ngpr[0] 7fffffff\nxer[CA] 1\n",
        after: "pc 00001004\ngpr[0] 7fffffff\ngpr[31] 80000001\ncr[0] 1\n",
    },
];

/// Cases of `subfzeo`.
pub const SUBFZE_OE: [Case; 4] = [
    Case {
        word: 0x7c64_0590,
        before: "pc 00001000\ngpr[4] 00000000\nxer[SO] 1\nxer[CA] 0\n",
        after: "pc 00001004\ngpr[3] ffffffff\nxer[SO] 1\n",
    },
    Case {
        word: 0x7c1f_0590,
        before: "pc 00001000\ngpr[31] ffffffff\nxer[OV] 1\nxer[CA] 0\n",
        after: "pc 00001004\ngpr[31] ffffffff\n",
    },
    Case {
        word: 0x7c84_0590,
        before: "pc 00001000\ngpr[4] 80000000\nxer[SO] 1\nxer[OV] 1\nxer[CA] 0\n",
        after: "pc 00001004\ngpr[4] 7fffffff\nxer[SO] 1\n",
    },
    Case {
        word: 0x7fe0_0590,
        before: "pc 00001000\ngpr[0] 7fffffff\nxer[CA] 1\n",
        after: "pc 00001004\ngpr[0] 7fffffff\ngpr[31] 80000001\n",
    },
];

/// Cases of `subfzeo.`.
pub const SUBFZE_OE_RC: [Case; 4] = [
    Case {
        word: 0x7c64_0591,
        before: "pc 00001000\ngpr[4] 00000000\nxer[OV] 1\nxer[CA] 0\n",
        after: "pc 00001004\ngpr[3] ffffffff\ncr[0] 1\n",
    },
    Case {
        word: 0x7c1f_0591,
        before: "pc 00001000\ngpr[31] ffffffff\nxer[SO] 1\nxer[OV] 1\nxer[CA] 0\n",
        after: "pc 00001004\ngpr[31] ffffffff\ncr[2] 1\ncr[3] 1\nxer[SO] 1\n",
    },
    Case {
        word: 0x7c84_0591,
        before: "pc 00001000\ngpr[4] 80000000\nxer[CA] 0\n",
        after: "pc 00001004\ngpr[4] 7fffffff\ncr[1] 1\n",
    },
    Case {
        word: 0x7fe0_0591,
        before: "pc 00001000\ngpr[0] 7fffffff\nxer[SO] 1\nxer[CA] 1\n",
        after: "pc 00001004\ngpr[0] 7fffffff\ngpr[31] 80000001\ncr[0] 1\ncr[3] 1\nxer[SO] 1\n",
    },
];
