//! Sums and differences without a carry in.

use crate::Case;

/// Cases of `addi`.
pub const ADDI: [Case; 4] = [
    Case {
        word: 0x3860_0005,
        before: "pc 00001000\ngpr[0] 00007777\n",
        after: "pc 00001004\ngpr[0] 00007777\ngpr[3] 00000005\n",
    },
    Case {
        word: 0x381f_8000,
        before: "pc 00001000\ngpr[31] 00007fff\n",
        after: "pc 00001004\ngpr[0] ffffffff\ngpr[31] 00007fff\n",
    },
    Case {
        word: 0x3884_0001,
        before: "pc 00001000\ngpr[4] ffffffff\nxer[CA] 0\n",
        after: "pc 00001004\n",
    },
    Case {
        word: 0x38a6_7fff,
        before: "pc 00001000\ngpr[6] 7fffffff\n",
        after: "pc 00001004\ngpr[5] 80007ffe\ngpr[6] 7fffffff\n",
    },
];

/// Cases of `addis`.
pub const ADDIS: [Case; 3] = [
    Case {
        word: 0x3c60_8000,
        before: "pc 00001000\ngpr[0] 00000001\n",
        after: "pc 00001004\ngpr[0] 00000001\ngpr[3] 80000000\n",
    },
    Case {
        word: 0x3c84_0001,
        before: "pc 00001000\ngpr[4] ffff8000\n",
        after: "pc 00001004\ngpr[4] 00008000\n",
    },
    Case {
        word: 0x3ffe_7fff,
        before: "pc 00001000\ngpr[30] 12345678\n",
        after: "pc 00001004\ngpr[30] 12345678\ngpr[31] 92335678\n",
    },
];

/// Cases of `addic`.
pub const ADDIC: [Case; 4] = [
    Case {
        word: 0x3064_0001,
        before: "pc 00001000\ngpr[4] ffffffff\n",
        after: "pc 00001004\ngpr[4] ffffffff\nxer[CA] 1\n",
    },
    Case {
        word: 0x3000_ffff,
        before: "pc 00001000\ngpr[0] 00000000\nxer[SO] 1\nxer[CA] 1\n",
        after: "pc 00001004\ngpr[0] ffffffff\nxer[SO] 1\n",
    },
    Case {
        word: 0x3063_ffff,
        before: "pc 00001000\ngpr[3] 80000000\ncr[0] 1\ncr[1] 1\ncr[2] 1\ncr[3] 1\n",
        after: "pc 00001004\ngpr[3] 7fffffff\ncr[0] 1\ncr[1] 1\ncr[2] 1\ncr[3] 1\nxer[CA] 1\n",
    },
    Case {
        word: 0x3064_8000,
        before: "pc 00001000\ngpr[4] 00008000\n",
        after: "pc 00001004\ngpr[4] 00008000\nxer[CA] 1\n",
    },
];

/// Cases of `addic.`.
pub const ADDIC_RC: [Case; 4] = [
    Case {
        word: 0x3464_0001,
        before: "pc 00001000\ngpr[4] ffffffff\n",
        after: "pc 00001004\ngpr[4] ffffffff\ncr[2] 1\nxer[CA] 1\n",
    },
    Case {
        word: 0x3400_ffff,
        before: "pc 00001000\ngpr[0] 00000000\nxer[SO] 1\nxer[CA] 1\n",
        after: "pc 00001004\ngpr[0] ffffffff\ncr[0] 1\ncr[3] 1\nxer[SO] 1\n",
    },
    Case {
        word: 0x3463_ffff,
        before: "pc 00001000\ngpr[3] 80000000\ncr[0] 1\ncr[1] 1\ncr[2] 1\ncr[3] 1\n",
        after: "pc 00001004\ngpr[3] 7fffffff\ncr[1] 1\nxer[CA] 1\n",
    },
    Case {
        word: 0x3464_8000,
        before: "pc 00001000\ngpr[4] 00008000\n",
        after: "pc 00001004\ngpr[4] 00008000\ncr[2] 1\nxer[CA] 1\n",
    },
];

/// Cases of `subfic`.
pub const SUBFIC: [Case; 4] = [
    Case {
        word: 0x2064_0005,
        before: "pc 00001000\ngpr[4] 00000005\n",
        after: "pc 00001004\ngpr[4] 00000005\nxer[CA] 1\n",
    },
    Case {
        word: 0x2064_0005,
        before: "pc 00001000\ngpr[4] 00000006\nxer[CA] 1\n",
        after: "pc 00001004\ngpr[3] ffffffff\ngpr[4] 00000006\n",
    },
    Case {
        word: 0x2000_ffff,
        before: "pc 00001000\ngpr[0] ffffffff\n",
        after: "pc 00001004\nxer[CA] 1\n",
    },
    Case {
        word: 0x2064_0000,
        before: "pc 00001000\ngpr[4] 80000000\nxer[OV] 1\nxer[CA] 1\n",
        after: "pc 00001004\ngpr[3] 80000000\ngpr[4] 80000000\nxer[OV] 1\n",
    },
];

/// Cases of `add`.
pub const ADD: [Case; 4] = [
    Case {
        word: 0x7c64_2a14,
        before: "pc 00001000\ngpr[4] 12345678\ngpr[5] 0fedcba8\n",
        after: "pc 00001004\ngpr[3] 22222220\ngpr[4] 12345678\ngpr[5] 0fedcba8\n",
    },
    Case {
        word: 0x7c84_2a14,
        before: "pc 00001000\ngpr[4] 7fffffff\ngpr[5] 00000001\nxer[OV] 1\nxer[CA] 1\n",
        after: "pc 00001004\ngpr[4] 80000000\ngpr[5] 00000001\nxer[OV] 1\nxer[CA] 1\n",
    },
    Case {
        word: 0x7fe0_0a14,
        before: "pc 00001000\ngpr[0] 00000000\ngpr[1] 00000000\n",
        after: "pc 00001004\n",
    },
    Case {
        word: 0x7c1f_f214,
        before: "pc 00001000\ngpr[30] 00000001\ngpr[31] 7ffffffe\nxer[OV] 1\nxer[CA] 1\n",
        after: "pc 00001004\ngpr[0] 7fffffff\ngpr[30] 00000001\ngpr[31] 7ffffffe\nxer[OV] 1\nxer[CA] 1\n",
    },
];

/// Cases of `add.`.
pub const ADD_RC: [Case; 4] = [
    Case {
        word: 0x7c64_2a15,
        before: "pc 00001000\ngpr[4] 12345678\ngpr[5] 0fedcba8\nxer[SO] 1\n",
        after: "pc 00001004\ngpr[3] 22222220\ngpr[4] 12345678\ngpr[5] 0fedcba8\ncr[1] 1\ncr[3] 1\nxer[SO] 1\n",
    },
    Case {
        word: 0x7c84_2a15,
        before: "pc 00001000\ngpr[4] 7fffffff\ngpr[5] 00000001\nxer[SO] 1\nxer[OV] 1\nxer[CA] 1\n",
        after: "pc 00001004\ngpr[4] 80000000\ngpr[5] 00000001\ncr[0] 1\ncr[3] 1\nxer[SO] 1\nxer[OV] 1\nxer[CA] 1\n",
    },
    Case {
        word: 0x7fe0_0a15,
        before: "pc 00001000\ngpr[0] 00000000\ngpr[1] 00000000\nxer[SO] 1\n",
        after: "pc 00001004\ncr[2] 1\ncr[3] 1\nxer[SO] 1\n",
    },
    Case {
        word: 0x7c1f_f215,
        before: "pc 00001000\ngpr[30] 00000001\ngpr[31] 7ffffffe\nxer[SO] 1\nxer[OV] 1\nxer[CA] 1\n",
        after: "pc 00001004\ngpr[0] 7fffffff\ngpr[30] 00000001\ngpr[31] 7ffffffe\ncr[1] 1\ncr[3] 1\nxer[SO] 1\nxer[OV] 1\nxer[CA] 1\n",
    },
];

/// Cases of `addo`.
pub const ADD_OE: [Case; 4] = [
    Case {
        word: 0x7c64_2e14,
        before: "pc 00001000\ngpr[4] 12345678\ngpr[5] 0fedcba8\nxer[SO] 1\n",
        after: "pc 00001004\ngpr[3] 22222220\ngpr[4] 12345678\ngpr[5] 0fedcba8\nxer[SO] 1\n",
    },
    Case {
        word: 0x7c84_2e14,
        before: "pc 00001000\ngpr[4] 7fffffff\ngpr[5] 00000001\nxer[SO] 1\nxer[OV] 1\nxer[CA] 1\n",
        after: "pc 00001004\ngpr[4] 80000000\ngpr[5] 00000001\nxer[SO] 1\nxer[OV] 1\nxer[CA] 1\n",
    },
    Case {
        word: 0x7fe0_0e14,
        before: "pc 00001000\ngpr[0] 00000000\ngpr[1] 00000000\nxer[SO] 1\n",
        after: "pc 00001004\nxer[SO] 1\n",
    },
    Case {
        word: 0x7c1f_f614,
        before: "pc 00001000\ngpr[30] 00000001\ngpr[31] 7ffffffe\nxer[SO] 1\nxer[OV] 1\nxer[CA] 1\n",
        after: "pc 00001004\ngpr[0] 7fffffff\ngpr[30] 00000001\ngpr[31] 7ffffffe\nxer[SO] 1\nxer[CA] 1\n",
    },
];

/// Cases of `addo.`.
pub const ADD_OE_RC: [Case; 4] = [
    Case {
        word: 0x7c64_2e15,
        before: "pc 00001000\ngpr[4] 12345678\ngpr[5] 0fedcba8\nxer[OV] 1\nxer[CA] 1\n",
        after: "pc 00001004\ngpr[3] 22222220\ngpr[4] 12345678\ngpr[5] 0fedcba8\ncr[1] 1\nxer[CA] 1\n",
    },
    Case {
        word: 0x7c84_2e15,
        before: "pc 00001000\ngpr[4] 7fffffff\ngpr[5] 00000001\n",
        after: "pc 00001004\ngpr[4] 80000000\ngpr[5] 00000001\ncr[0] 1\ncr[3] 1\nxer[SO] 1\nxer[OV] 1\n",
    },
    Case {
        word: 0x7fe0_0e15,
        before: "pc 00001000\ngpr[0] 00000000\ngpr[1] 00000000\nxer[OV] 1\nxer[CA] 1\n",
        after: "pc 00001004\ncr[2] 1\nxer[CA] 1\n",
    },
    Case {
        word: 0x7c1f_f615,
        before: "pc 00001000\ngpr[30] 00000001\ngpr[31] 7ffffffe\n",
        after: "pc 00001004\ngpr[0] 7fffffff\ngpr[30] 00000001\ngpr[31] 7ffffffe\ncr[1] 1\n",
    },
];

/// Cases of `subf`.
pub const SUBF: [Case; 4] = [
    Case {
        word: 0x7c64_2850,
        before: "pc 00001000\ngpr[4] 00000005\ngpr[5] 00000007\n",
        after: "pc 00001004\ngpr[3] 00000002\ngpr[4] 00000005\ngpr[5] 00000007\n",
    },
    Case {
        word: 0x7c84_2850,
        before: "pc 00001000\ngpr[4] 00000001\ngpr[5] 80000000\nxer[OV] 1\nxer[CA] 1\n",
        after: "pc 00001004\ngpr[4] 7fffffff\ngpr[5] 80000000\nxer[OV] 1\nxer[CA] 1\n",
    },
    Case {
        word: 0x7fe0_0850,
        before: "pc 00001000\ngpr[0] 00000000\ngpr[1] 00000000\n",
        after: "pc 00001004\n",
    },
    Case {
        word: 0x7c1f_f050,
        before: "pc 00001000\ngpr[30] 00000000\ngpr[31] 80000000\nxer[OV] 1\nxer[CA] 1\n",
        after: "pc 00001004\ngpr[0] 80000000\ngpr[31] 80000000\nxer[OV] 1\nxer[CA] 1\n",
    },
];

/// Cases of `subf.`.
pub const SUBF_RC: [Case; 4] = [
    Case {
        word: 0x7c64_2851,
        before: "pc 00001000\ngpr[4] 00000005\ngpr[5] 00000007\nxer[SO] 1\n",
        after: "pc 00001004\ngpr[3] 00000002\ngpr[4] 00000005\ngpr[5] 00000007\ncr[1] 1\ncr[3] 1\nxer[SO] 1\n",
    },
    Case {
        word: 0x7c84_2851,
        before: "pc 00001000\ngpr[4] 00000001\ngpr[5] 80000000\nxer[SO] 1\nxer[OV] 1\nxer[CA] 1\n",
        after: "pc 00001004\ngpr[4] 7fffffff\ngpr[5] 80000000\ncr[1] 1\ncr[3] 1\nxer[SO] 1\nxer[OV] 1\nxer[CA] 1\n",
    },
    Case {
        word: 0x7fe0_0851,
        before: "pc 00001000\ngpr[0] 00000000\ngpr[1] 00000000\nxer[SO] 1\n",
        after: "pc 00001004\ncr[2] 1\ncr[3] 1\nxer[SO] 1\n",
    },
    Case {
        word: 0x7c1f_f051,
        before: "pc 00001000\ngpr[30] 00000000\ngpr[31] 80000000\nxer[SO] 1\nxer[OV] 1\nxer[CA] 1\n",
        after: "pc 00001004\ngpr[0] 80000000\ngpr[31] 80000000\ncr[0] 1\ncr[3] 1\nxer[SO] 1\nxer[OV] 1\nxer[CA] 1\n",
    },
];

/// Cases of `subfo`.
pub const SUBF_OE: [Case; 4] = [
    Case {
        word: 0x7c64_2c50,
        before: "pc 00001000\ngpr[4] 00000005\ngpr[5] 00000007\nxer[SO] 1\n",
        after: "pc 00001004\ngpr[3] 00000002\ngpr[4] 00000005\ngpr[5] 00000007\nxer[SO] 1\n",
    },
    Case {
        word: 0x7c84_2c50,
        before: "pc 00001000\ngpr[4] 00000001\ngpr[5] 80000000\nxer[SO] 1\nxer[OV] 1\nxer[CA] 1\n",
        after: "pc 00001004\ngpr[4] 7fffffff\ngpr[5] 80000000\nxer[SO] 1\nxer[OV] 1\nxer[CA] 1\n",
    },
    Case {
        word: 0x7fe0_0c50,
        before: "pc 00001000\ngpr[0] 00000000\ngpr[1] 00000000\nxer[SO] 1\n",
        after: "pc 00001004\nxer[SO] 1\n",
    },
    Case {
        word: 0x7c1f_f450,
        before: "pc 00001000\ngpr[30] 00000000\ngpr[31] 80000000\nxer[SO] 1\nxer[OV] 1\nxer[CA] 1\n",
        after: "pc 00001004\ngpr[0] 80000000\ngpr[31] 80000000\nxer[SO] 1\nxer[OV] 1\nxer[CA] 1\n",
    },
];

/// Cases of `subfo.`.
pub const SUBF_OE_RC: [Case; 4] = [
    Case {
        word: 0x7c64_2c51,
        before: "pc 00001000\ngpr[4] 00000005\ngpr[5] 00000007\nxer[OV] 1\nxer[CA] 1\n",
        after: "pc 00001004\ngpr[3] 00000002\ngpr[4] 00000005\ngpr[5] 00000007\ncr[1] 1\nxer[CA] 1\n",
    },
    Case {
        word: 0x7c84_2c51,
        before: "pc 00001000\ngpr[4] 00000001\ngpr[5] 80000000\n",
        after: "pc 00001004\ngpr[4] 7fffffff\ngpr[5] 80000000\ncr[1] 1\ncr[3] 1\nxer[SO] 1\nxer[OV] 1\n",
    },
    Case {
        word: 0x7fe0_0c51,
        before: "pc 00001000\ngpr[0] 00000000\ngpr[1] 00000000\nxer[OV] 1\nxer[CA] 1\n",
        after: "pc 00001004\ncr[2] 1\nxer[CA] 1\n",
    },
    Case {
        word: 0x7c1f_f451,
        before: "pc 00001000\ngpr[30] 00000000\ngpr[31] 80000000\n",
        after: "pc 00001004\ngpr[0] 80000000\ngpr[31] 80000000\ncr[0] 1\ncr[3] 1\nxer[SO] 1\nxer[OV] 1\n",
    },
];

/// Cases of `addc`.
pub const ADDC: [Case; 4] = [
    Case {
        word: 0x7c64_2814,
        before: "pc 00001000\ngpr[4] 12345678\ngpr[5] 0fedcba8\n",
        after: "pc 00001004\ngpr[3] 22222220\ngpr[4] 12345678\ngpr[5] 0fedcba8\n",
    },
    Case {
        word: 0x7c84_2814,
        before: "pc 00001000\ngpr[4] 7fffffff\ngpr[5] 00000001\nxer[OV] 1\nxer[CA] 1\n",
        after: "pc 00001004\ngpr[4] 80000000\ngpr[5] 00000001\nxer[OV] 1\n",
    },
    Case {
        word: 0x7fe0_0814,
        before: "pc 00001000\ngpr[0] 00000000\ngpr[1] 00000000\n",
        after: "pc 00001004\n",
    },
    Case {
        word: 0x7c1f_f014,
        before: "pc 00001000\ngpr[30] 00000001\ngpr[31] 7ffffffe\nxer[OV] 1\nxer[CA] 1\n",
        after: "pc 00001004\ngpr[0] 7fffffff\ngpr[30] 00000001\ngpr[31] 7ffffffe\nxer[OV] 1\n",
    },
];

/// Cases of `addc.`.
pub const ADDC_RC: [Case; 4] = [
    Case {
        word: 0x7c64_2815,
        before: "pc 00001000\ngpr[4] 12345678\ngpr[5] 0fedcba8\nxer[SO] 1\n",
        after: "pc 00001004\ngpr[3] 22222220\ngpr[4] 12345678\ngpr[5] 0fedcba8\ncr[1] 1\ncr[3] 1\nxer[SO] 1\n",
    },
    Case {
        word: 0x7c84_2815,
        before: "pc 00001000\ngpr[4] 7fffffff\ngpr[5] 00000001\nxer[SO] 1\nxer[OV] 1\nxer[CA] 1\n",
        after: "pc 00001004\ngpr[4] 80000000\ngpr[5] 00000001\ncr[0] 1\ncr[3] 1\nxer[SO] 1\nxer[OV] 1\n",
    },
    Case {
        word: 0x7fe0_0815,
        before: "pc 00001000\ngpr[0] 00000000\ngpr[1] 00000000\nxer[SO] 1\n",
        after: "pc 00001004\ncr[2] 1\ncr[3] 1\nxer[SO] 1\n",
    },
    Case {
        word: 0x7c1f_f015,
        before: "pc 00001000\ngpr[30] 00000001\ngpr[31] 7ffffffe\nxer[SO] 1\nxer[OV] 1\nxer[CA] 1\n",
        after: "pc 00001004\ngpr[0] 7fffffff\ngpr[30] 00000001\ngpr[31] 7ffffffe\ncr[1] 1\ncr[3] 1\nxer[SO] 1\nxer[OV] 1\n",
    },
];

/// Cases of `addco`.
pub const ADDC_OE: [Case; 4] = [
    Case {
        word: 0x7c64_2c14,
        before: "pc 00001000\ngpr[4] 12345678\ngpr[5] 0fedcba8\nxer[SO] 1\n",
        after: "pc 00001004\ngpr[3] 22222220\ngpr[4] 12345678\ngpr[5] 0fedcba8\nxer[SO] 1\n",
    },
    Case {
        word: 0x7c84_2c14,
        before: "pc 00001000\ngpr[4] 7fffffff\ngpr[5] 00000001\nxer[SO] 1\nxer[OV] 1\nxer[CA] 1\n",
        after: "pc 00001004\ngpr[4] 80000000\ngpr[5] 00000001\nxer[SO] 1\nxer[OV] 1\n",
    },
    Case {
        word: 0x7fe0_0c14,
        before: "pc 00001000\ngpr[0] 00000000\ngpr[1] 00000000\nxer[SO] 1\n",
        after: "pc 00001004\nxer[SO] 1\n",
    },
    Case {
        word: 0x7c1f_f414,
        before: "pc 00001000\ngpr[30] 00000001\ngpr[31] 7ffffffe\nxer[SO] 1\nxer[OV] 1\nxer[CA] 1\n",
        after: "pc 00001004\ngpr[0] 7fffffff\ngpr[30] 00000001\ngpr[31] 7ffffffe\nxer[SO] 1\n",
    },
];

/// Cases of `addco.`.
pub const ADDC_OE_RC: [Case; 4] = [
    Case {
        word: 0x7c64_2c15,
        before: "pc 00001000\ngpr[4] 12345678\ngpr[5] 0fedcba8\nxer[OV] 1\nxer[CA] 1\n",
        after: "pc 00001004\ngpr[3] 22222220\ngpr[4] 12345678\ngpr[5] 0fedcba8\ncr[1] 1\n",
    },
    Case {
        word: 0x7c84_2c15,
        before: "pc 00001000\ngpr[4] 7fffffff\ngpr[5] 00000001\n",
        after: "pc 00001004\ngpr[4] 80000000\ngpr[5] 00000001\ncr[0] 1\ncr[3] 1\nxer[SO] 1\nxer[OV] 1\n",
    },
    Case {
        word: 0x7fe0_0c15,
        before: "pc 00001000\ngpr[0] 00000000\ngpr[1] 00000000\nxer[OV] 1\nxer[CA] 1\n",
        after: "pc 00001004\ncr[2] 1\n",
    },
    Case {
        word: 0x7c1f_f415,
        before: "pc 00001000\ngpr[30] 00000001\ngpr[31] 7ffffffe\n",
        after: "pc 00001004\ngpr[0] 7fffffff\ngpr[30] 00000001\ngpr[31] 7ffffffe\ncr[1] 1\n",
    },
];

/// Cases of `subfc`.
pub const SUBFC: [Case; 4] = [
    Case {
        word: 0x7c64_2810,
        before: "pc 00001000\ngpr[4] 00000005\ngpr[5] 00000007\n",
        after: "pc 00001004\ngpr[3] 00000002\ngpr[4] 00000005\ngpr[5] 00000007\nxer[CA] 1\n",
    },
    Case {
        word: 0x7c84_2810,
        before: "pc 00001000\ngpr[4] 00000001\ngpr[5] 80000000\nxer[OV] 1\nxer[CA] 1\n",
        after: "pc 00001004\ngpr[4] 7fffffff\ngpr[5] 80000000\nxer[OV] 1\nxer[CA] 1\n",
    },
    Case {
        word: 0x7fe0_0810,
        before: "pc 00001000\ngpr[0] 00000000\ngpr[1] 00000000\n",
        after: "pc 00001004\nxer[CA] 1\n",
    },
    Case {
        word: 0x7c1f_f010,
        before: "pc 00001000\ngpr[30] 00000000\ngpr[31] 80000000\nxer[OV] 1\nxer[CA] 1\n",
        after: "pc 00001004\ngpr[0] 80000000\ngpr[31] 80000000\nxer[OV] 1\n",
    },
];

/// Cases of `subfc.`.
pub const SUBFC_RC: [Case; 4] = [
    Case {
        word: 0x7c64_2811,
        before: "pc 00001000\ngpr[4] 00000005\ngpr[5] 00000007\nxer[SO] 1\n",
        after: "pc 00001004\ngpr[3] 00000002\ngpr[4] 00000005\ngpr[5] 00000007\ncr[1] 1\ncr[3] 1\nxer[SO] 1\nxer[CA] 1\n",
    },
    Case {
        word: 0x7c84_2811,
        before: "pc 00001000\ngpr[4] 00000001\ngpr[5] 80000000\nxer[SO] 1\nxer[OV] 1\nxer[CA] 1\n",
        after: "pc 00001004\ngpr[4] 7fffffff\ngpr[5] 80000000\ncr[1] 1\ncr[3] 1\nxer[SO] 1\nxer[OV] 1\nxer[CA] 1\n",
    },
    Case {
        word: 0x7fe0_0811,
        before: "pc 00001000\ngpr[0] 00000000\ngpr[1] 00000000\nxer[SO] 1\n",
        after: "pc 00001004\ncr[2] 1\ncr[3] 1\nxer[SO] 1\nxer[CA] 1\n",
    },
    Case {
        word: 0x7c1f_f011,
        before: "pc 00001000\ngpr[30] 00000000\ngpr[31] 80000000\nxer[SO] 1\nxer[OV] 1\nxer[CA] 1\n",
        after: "pc 00001004\ngpr[0] 80000000\ngpr[31] 80000000\ncr[0] 1\ncr[3] 1\nxer[SO] 1\nxer[OV] 1\n",
    },
];

/// Cases of `subfco`.
pub const SUBFC_OE: [Case; 4] = [
    Case {
        word: 0x7c64_2c10,
        before: "pc 00001000\ngpr[4] 00000005\ngpr[5] 00000007\nxer[SO] 1\n",
        after: "pc 00001004\ngpr[3] 00000002\ngpr[4] 00000005\ngpr[5] 00000007\nxer[SO] 1\nxer[CA] 1\n",
    },
    Case {
        word: 0x7c84_2c10,
        before: "pc 00001000\ngpr[4] 00000001\ngpr[5] 80000000\nxer[SO] 1\nxer[OV] 1\nxer[CA] 1\n",
        after: "pc 00001004\ngpr[4] 7fffffff\ngpr[5] 80000000\nxer[SO] 1\nxer[OV] 1\nxer[CA] 1\n",
    },
    Case {
        word: 0x7fe0_0c10,
        before: "pc 00001000\ngpr[0] 00000000\ngpr[1] 00000000\nxer[SO] 1\n",
        after: "pc 00001004\nxer[SO] 1\nxer[CA] 1\n",
    },
    Case {
        word: 0x7c1f_f410,
        before: "pc 00001000\ngpr[30] 00000000\ngpr[31] 80000000\nxer[SO] 1\nxer[OV] 1\nxer[CA] 1\n",
        after: "pc 00001004\ngpr[0] 80000000\ngpr[31] 80000000\nxer[SO] 1\nxer[OV] 1\n",
    },
];

/// Cases of `subfco.`.
pub const SUBFC_OE_RC: [Case; 4] = [
    Case {
        word: 0x7c64_2c11,
        before: "pc 00001000\ngpr[4] 00000005\ngpr[5] 00000007\nxer[OV] 1\nxer[CA] 1\n",
        after: "pc 00001004\ngpr[3] 00000002\ngpr[4] 00000005\ngpr[5] 00000007\ncr[1] 1\nxer[CA] 1\n",
    },
    Case {
        word: 0x7c84_2c11,
        before: "pc 00001000\ngpr[4] 00000001\ngpr[5] 80000000\n",
        after: "pc 00001004\ngpr[4] 7fffffff\ngpr[5] 80000000\ncr[1] 1\ncr[3] 1\nxer[SO] 1\nxer[OV] 1\nxer[CA] 1\n",
    },
    Case {
        word: 0x7fe0_0c11,
        before: "pc 00001000\ngpr[0] 00000000\ngpr[1] 00000000\nxer[OV] 1\nxer[CA] 1\n",
        after: "pc 00001004\ncr[2] 1\nxer[CA] 1\n",
    },
    Case {
        word: 0x7c1f_f411,
        before: "pc 00001000\ngpr[30] 00000000\ngpr[31] 80000000\n",
        after: "pc 00001004\ngpr[0] 80000000\ngpr[31] 80000000\ncr[0] 1\ncr[3] 1\nxer[SO] 1\nxer[OV] 1\n",
    },
];

/// Cases of `neg`.
pub const NEG: [Case; 4] = [
    Case {
        word: 0x7c64_00d0,
        before: "pc 00001000\ngpr[4] 00000000\n",
        after: "pc 00001004\n",
    },
    Case {
        word: 0x7c1f_00d0,
        before: "pc 00001000\ngpr[31] 00000001\nxer[SO] 1\n",
        after: "pc 00001004\ngpr[0] ffffffff\ngpr[31] 00000001\nxer[SO] 1\n",
    },
    Case {
        word: 0x7c84_00d0,
        before: "pc 00001000\ngpr[4] 80000000\nxer[OV] 1\nxer[CA] 1\n",
        after: "pc 00001004\ngpr[4] 80000000\nxer[OV] 1\nxer[CA] 1\n",
    },
    Case {
        word: 0x7fe0_00d0,
        before: "pc 00001000\ngpr[0] ffffffff\nxer[SO] 1\nxer[OV] 1\nxer[CA] 1\n",
        after: "pc 00001004\ngpr[0] ffffffff\ngpr[31] 00000001\nxer[SO] 1\nxer[OV] 1\nxer[CA] 1\n",
    },
];

/// Cases of `neg.`.
pub const NEG_RC: [Case; 4] = [
    Case {
        word: 0x7c64_00d1,
        before: "pc 00001000\ngpr[4] 00000000\nxer[SO] 1\n",
        after: "pc 00001004\ncr[2] 1\ncr[3] 1\nxer[SO] 1\n",
    },
    Case {
        word: 0x7c1f_00d1,
        before: "pc 00001000\ngpr[31] 00000001\nxer[OV] 1\nxer[CA] 1\n",
        after: "pc 00001004\ngpr[0] ffffffff\ngpr[31] 00000001\ncr[0] 1\nxer[OV] 1\nxer[CA] 1\n",
    },
    Case {
        word: 0x7c84_00d1,
        before: "pc 00001000\ngpr[4] 80000000\nxer[SO] 1\nxer[OV] 1\nxer[CA] 1\n",
        after: "pc 00001004\ngpr[4] 80000000\ncr[0] 1\ncr[3] 1\nxer[SO] 1\nxer[OV] 1\nxer[CA] 1\n",
    },
    Case {
        word: 0x7fe0_00d1,
        before: "pc 00001000\ngpr[0] ffffffff\n",
        after: "pc 00001004\ngpr[0] ffffffff\ngpr[31] 00000001\ncr[1] 1\n",
    },
];

/// Cases of `nego`.
pub const NEG_OE: [Case; 4] = [
    Case {
        word: 0x7c64_04d0,
        before: "pc 00001000\ngpr[4] 00000000\nxer[SO] 1\n",
        after: "pc 00001004\nxer[SO] 1\n",
    },
    Case {
        word: 0x7c1f_04d0,
        before: "pc 00001000\ngpr[31] 00000001\nxer[OV] 1\nxer[CA] 1\n",
        after: "pc 00001004\ngpr[0] ffffffff\ngpr[31] 00000001\nxer[CA] 1\n",
    },
    Case {
        word: 0x7c84_04d0,
        before: "pc 00001000\ngpr[4] 80000000\nxer[SO] 1\nxer[OV] 1\nxer[CA] 1\n",
        after: "pc 00001004\ngpr[4] 80000000\nxer[SO] 1\nxer[OV] 1\nxer[CA] 1\n",
    },
    Case {
        word: 0x7fe0_04d0,
        before: "pc 00001000\ngpr[0] ffffffff\n",
        after: "pc 00001004\ngpr[0] ffffffff\ngpr[31] 00000001\n",
    },
];

/// Cases of `nego.`.
pub const NEG_OE_RC: [Case; 4] = [
    Case {
        word: 0x7c64_04d1,
        before: "pc 00001000\ngpr[4] 00000000\nxer[OV] 1\nxer[CA] 1\n",
        after: "pc 00001004\ncr[2] 1\nxer[CA] 1\n",
    },
    Case {
        word: 0x7c1f_04d1,
        before: "pc 00001000\ngpr[31] 00000001\nxer[SO] 1\nxer[OV] 1\nxer[CA] 1\n",
        after: "pc 00001004\ngpr[0] ffffffff\ngpr[31] 00000001\ncr[0] 1\ncr[3] 1\nxer[SO] 1\nxer[CA] 1\n",
    },
    Case {
        word: 0x7c84_04d1,
        before: "pc 00001000\ngpr[4] 80000000\n",
        after: "pc 00001004\ngpr[4] 80000000\ncr[0] 1\ncr[3] 1\nxer[SO] 1\nxer[OV] 1\n",
    },
    Case {
        word: 0x7fe0_04d1,
        before: "pc 00001000\ngpr[0] ffffffff\nxer[SO] 1\n",
        after: "pc 00001004\ngpr[0] ffffffff\ngpr[31] 00000001\ncr[1] 1\ncr[3] 1\nxer[SO] 1\n",
    },
];
