//! Products and quotients.

use crate::Case;

/// Cases of `mulli`.
pub const MULLI: [Case; 3] = [
    Case {
        word: 0x1c64_fffd,
        before: "pc 00001000\ngpr[4] 00000007\n",
        after: "pc 00001004\ngpr[3] ffffffeb\ngpr[4] 00000007\n",
    },
    Case {
        word: 0x1c84_7fff,
        before: "pc 00001000\ngpr[4] 12345678\n",
        after: "pc 00001004\ngpr[4] 1907a988\n",
    },
    Case {
        word: 0x1c00_8000,
        before: "pc 00001000\ngpr[0] 80000001\n",
        after: "pc 00001004\ngpr[0] ffff8000\n",
    },
];

/// Cases of `mulhw`.
pub const MULHW: [Case; 4] = [
    Case {
        word: 0x7c64_2896,
        before: "pc 00001000\ngpr[4] 80000000\ngpr[5] 80000000\n",
        after: "pc 00001004\ngpr[3] 40000000\ngpr[4] 80000000\ngpr[5] 80000000\n",
    },
    Case {
        word: 0x7c84_2896,
        before: "pc 00001000\ngpr[4] ffffffff\ngpr[5] ffffffff\nxer[SO] 1\n",
        after: "pc 00001004\ngpr[5] ffffffff\nxer[SO] 1\n",
    },
    Case {
        word: 0x7c04_2896,
        before: "pc 00001000\ngpr[4] 7fffffff\ngpr[5] ffffffff\nxer[OV] 1\nxer[CA] 1\n",
        after: "pc 00001004\ngpr[0] ffffffff\ngpr[4] 7fffffff\ngpr[5] ffffffff\nxer[OV] 1\nxer[CA] 1\n",
    },
    Case {
        word: 0x7c84_2896,
        before: "pc 00001000\ngpr[4] 00000000\ngpr[5] 00000005\n",
        after: "pc 00001004\ngpr[5] 00000005\n",
    },
];

/// Cases of `mulhw.`.
pub const MULHW_RC: [Case; 4] = [
    Case {
        word: 0x7c64_2897,
        before: "pc 00001000\ngpr[4] 80000000\ngpr[5] 80000000\n",
        after: "pc 00001004\ngpr[3] 40000000\ngpr[4] 80000000\ngpr[5] 80000000\ncr[1] 1\n",
    },
    Case {
        word: 0x7c84_2897,
        before: "pc 00001000\ngpr[4] ffffffff\ngpr[5] ffffffff\nxer[SO] 1\n",
        after: "pc 00001004\ngpr[5] ffffffff\ncr[2] 1\ncr[3] 1\nxer[SO] 1\n",
    },
    Case {
        word: 0x7c04_2897,
        before: "pc 00001000\ngpr[4] 7fffffff\ngpr[5] ffffffff\nxer[OV] 1\nxer[CA] 1\n",
        after: "pc 00001004\ngpr[0] ffffffff\ngpr[4] 7fffffff\ngpr[5] ffffffff\ncr[0] 1\nxer[OV] 1\nxer[CA] 1\n",
    },
    Case {
        word: 0x7c84_2897,
        before: "pc 00001000\ngpr[4] 00000000\ngpr[5] 00000005\n",
        after: "pc 00001004\ngpr[5] 00000005\ncr[2] 1\n",
    },
];

/// Cases of `mulhwu`.
pub const MULHWU: [Case; 4] = [
    Case {
        word: 0x7c64_2816,
        before: "pc 00001000\ngpr[4] 80000000\ngpr[5] 80000000\n",
        after: "pc 00001004\ngpr[3] 40000000\ngpr[4] 80000000\ngpr[5] 80000000\n",
    },
    Case {
        word: 0x7c84_2816,
        before: "pc 00001000\ngpr[4] ffffffff\ngpr[5] ffffffff\nxer[SO] 1\n",
        after: "pc 00001004\ngpr[4] fffffffe\ngpr[5] ffffffff\nxer[SO] 1\n",
    },
    Case {
        word: 0x7c04_2816,
        before: "pc 00001000\ngpr[4] 7fffffff\ngpr[5] ffffffff\nxer[OV] 1\nxer[CA] 1\n",
        after: "pc 00001004\ngpr[0] 7ffffffe\ngpr[4] 7fffffff\ngpr[5] ffffffff\nxer[OV] 1\nxer[CA] 1\n",
    },
    Case {
        word: 0x7c84_2816,
        before: "pc 00001000\ngpr[4] 00000000\ngpr[5] 00000005\n",
        after: "pc 00001004\ngpr[5] 00000005\n",
    },
];

/// Cases of `mulhwu.`.
pub const MULHWU_RC: [Case; 4] = [
    Case {
        word: 0x7c64_2817,
        before: "pc 00001000\ngpr[4] 80000000\ngpr[5] 80000000\n",
        after: "pc 00001004\ngpr[3] 40000000\ngpr[4] 80000000\ngpr[5] 80000000\ncr[1] 1\n",
    },
    Case {
        word: 0x7c84_2817,
        before: "pc 00001000\ngpr[4] ffffffff\ngpr[5] ffffffff\nxer[SO] 1\n",
        after: "pc 00001004\ngpr[4] fffffffe\ngpr[5] ffffffff\ncr[0] 1\ncr[3] 1\nxer[SO] 1\n",
    },
    Case {
        word: 0x7c04_2817,
        before: "pc 00001000\ngpr[4] 7fffffff\ngpr[5] ffffffff\nxer[OV] 1\nxer[CA] 1\n",
        after: "pc 00001004\ngpr[0] 7ffffffe\ngpr[4] 7fffffff\ngpr[5] ffffffff\ncr[1] 1\nxer[OV] 1\nxer[CA] 1\n",
    },
    Case {
        word: 0x7c84_2817,
        before: "pc 00001000\ngpr[4] 00000000\ngpr[5] 00000005\n",
        after: "pc 00001004\ngpr[5] 00000005\ncr[2] 1\n",
    },
];

/// Cases of `mullw`.
pub const MULLW: [Case; 4] = [
    Case {
        word: 0x7c64_29d6,
        before: "pc 00001000\ngpr[4] 00000007\ngpr[5] fffffffd\n",
        after: "pc 00001004\ngpr[3] ffffffeb\ngpr[4] 00000007\ngpr[5] fffffffd\n",
    },
    Case {
        word: 0x7c84_29d6,
        before: "pc 00001000\ngpr[4] 00010000\ngpr[5] ffff8000\nxer[OV] 1\nxer[CA] 1\n",
        after: "pc 00001004\ngpr[4] 80000000\ngpr[5] ffff8000\nxer[OV] 1\nxer[CA] 1\n",
    },
    Case {
        word: 0x7fe0_09d6,
        before: "pc 00001000\ngpr[0] ffffffff\ngpr[1] ffffffff\n",
        after: "pc 00001004\ngpr[0] ffffffff\ngpr[1] ffffffff\ngpr[31] 00000001\n",
    },
    Case {
        word: 0x7c1f_f1d6,
        before: "pc 00001000\ngpr[30] 00000001\ngpr[31] 7fffffff\nxer[OV] 1\nxer[CA] 1\n",
        after: "pc 00001004\ngpr[0] 7fffffff\ngpr[30] 00000001\ngpr[31] 7fffffff\nxer[OV] 1\nxer[CA] 1\n",
    },
];

/// Cases of `mullw.`.
pub const MULLW_RC: [Case; 4] = [
    Case {
        word: 0x7c64_29d7,
        before: "pc 00001000\ngpr[4] 00000007\ngpr[5] fffffffd\nxer[SO] 1\n",
        after: "pc 00001004\ngpr[3] ffffffeb\ngpr[4] 00000007\ngpr[5] fffffffd\ncr[0] 1\ncr[3] 1\nxer[SO] 1\n",
    },
    Case {
        word: 0x7c84_29d7,
        before: "pc 00001000\ngpr[4] 00010000\ngpr[5] ffff8000\nxer[SO] 1\nxer[OV] 1\nxer[CA] 1\n",
        after: "pc 00001004\ngpr[4] 80000000\ngpr[5] ffff8000\ncr[0] 1\ncr[3] 1\nxer[SO] 1\nxer[OV] 1\nxer[CA] 1\n",
    },
    Case {
        word: 0x7fe0_09d7,
        before: "pc 00001000\ngpr[0] ffffffff\ngpr[1] ffffffff\nxer[SO] 1\n",
        after: "pc 00001004\ngpr[0] ffffffff\ngpr[1] ffffffff\ngpr[31] 00000001\ncr[1] 1\ncr[3] 1\nxer[SO] 1\n",
    },
    Case {
        word: 0x7c1f_f1d7,
        before: "pc 00001000\ngpr[30] 00000001\ngpr[31] 7fffffff\nxer[SO] 1\nxer[OV] 1\nxer[CA] 1\n",
        after: "pc 00001004\ngpr[0] 7fffffff\ngpr[30] 00000001\ngpr[31] 7fffffff\ncr[1] 1\ncr[3] 1\nxer[SO] 1\nxer[OV] 1\nxer[CA] 1\n",
    },
];

/// Cases of `mullwo`.
pub const MULLW_OE: [Case; 4] = [
    Case {
        word: 0x7c64_2dd6,
        before: "pc 00001000\ngpr[4] 00000007\ngpr[5] fffffffd\nxer[SO] 1\n",
        after: "pc 00001004\ngpr[3] ffffffeb\ngpr[4] 00000007\ngpr[5] fffffffd\nxer[SO] 1\n",
    },
    Case {
        word: 0x7c84_2dd6,
        before: "pc 00001000\ngpr[4] 00010000\ngpr[5] ffff8000\nxer[SO] 1\nxer[OV] 1\nxer[CA] 1\n",
        after: "pc 00001004\ngpr[4] 80000000\ngpr[5] ffff8000\nxer[SO] 1\nxer[CA] 1\n",
    },
    Case {
        word: 0x7fe0_0dd6,
        before: "pc 00001000\ngpr[0] ffffffff\ngpr[1] ffffffff\nxer[SO] 1\n",
        after: "pc 00001004\ngpr[0] ffffffff\ngpr[1] ffffffff\ngpr[31] 00000001\nxer[SO] 1\n",
    },
    Case {
        word: 0x7c1f_f5d6,
        before: "pc 00001000\ngpr[30] 00000001\ngpr[31] 7fffffff\nxer[SO] 1\nxer[OV] 1\nxer[CA] 1\n",
        after: "pc 00001004\ngpr[0] 7fffffff\ngpr[30] 00000001\ngpr[31] 7fffffff\nxer[SO] 1\nxer[CA] 1\n",
    },
];

/// Cases of `mullwo.`.
pub const MULLW_OE_RC: [Case; 4] = [
    Case {
        word: 0x7c64_2dd7,
        before: "pc 00001000\ngpr[4] 00000007\ngpr[5] fffffffd\nxer[OV] 1\nxer[CA] 1\n",
        after: "pc 00001004\ngpr[3] ffffffeb\ngpr[4] 00000007\ngpr[5] fffffffd\ncr[0] 1\nxer[CA] 1\n",
    },
    Case {
        word: 0x7c84_2dd7,
        before: "pc 00001000\ngpr[4] 00010000\ngpr[5] ffff8000\n",
        after: "pc 00001004\ngpr[4] 80000000\ngpr[5] ffff8000\ncr[0] 1\n",
    },
    Case {
        word: 0x7fe0_0dd7,
        before: "pc 00001000\ngpr[0] ffffffff\ngpr[1] ffffffff\nxer[OV] 1\nxer[CA] 1\n",
        after: "pc 00001004\ngpr[0] ffffffff\ngpr[1] ffffffff\ngpr[31] 00000001\ncr[1] 1\nxer[CA] 1\n",
    },
    Case {
        word: 0x7c1f_f5d7,
        before: "pc 00001000\ngpr[30] 00000001\ngpr[31] 7fffffff\n",
        after: "pc 00001004\ngpr[0] 7fffffff\ngpr[30] 00000001\ngpr[31] 7fffffff\ncr[1] 1\n",
    },
];

/// Cases of `divw`.
pub const DIVW: [Case; 4] = [
    Case {
        word: 0x7c64_2bd6,
        before: "pc 00001000\ngpr[4] 00000007\ngpr[5] 00000002\n",
        after: "pc 00001004\ngpr[3] 00000003\ngpr[4] 00000007\ngpr[5] 00000002\n",
    },
    Case {
        word: 0x7c84_2bd6,
        before: "pc 00001000\ngpr[4] 00000007\ngpr[5] fffffffe\nxer[OV] 1\nxer[CA] 1\n",
        after: "pc 00001004\ngpr[4] fffffffd\ngpr[5] fffffffe\nxer[OV] 1\nxer[CA] 1\n",
    },
    Case {
        word: 0x7c64_2bd6,
        before: "pc 00001000\ngpr[4] 80000000\ngpr[5] 00000001\nxer[SO] 1\n",
        after: "pc 00001004\ngpr[3] 80000000\ngpr[4] 80000000\ngpr[5] 00000001\nxer[SO] 1\n",
    },
    Case {
        word: 0x7ca4_2bd6,
        before: "pc 00001000\ngpr[4] 80000000\ngpr[5] 00000000\n",
        after: "pc 00001004\ngpr[4] 80000000\n",
    },
];

/// Cases of `divw.`.
pub const DIVW_RC: [Case; 4] = [
    Case {
        word: 0x7c64_2bd7,
        before: "pc 00001000\ngpr[4] 00000007\ngpr[5] 00000002\nxer[SO] 1\n",
        after: "pc 00001004\ngpr[3] 00000003\ngpr[4] 00000007\ngpr[5] 00000002\ncr[1] 1\ncr[3] 1\nxer[SO] 1\n",
    },
    Case {
        word: 0x7c84_2bd7,
        before: "pc 00001000\ngpr[4] 00000007\ngpr[5] fffffffe\nxer[SO] 1\nxer[OV] 1\nxer[CA] 1\n",
        after: "pc 00001004\ngpr[4] fffffffd\ngpr[5] fffffffe\ncr[0] 1\ncr[3] 1\nxer[SO] 1\nxer[OV] 1\nxer[CA] 1\n",
    },
    Case {
        word: 0x7c64_2bd7,
        before: "pc 00001000\ngpr[4] 80000000\ngpr[5] 00000001\nxer[OV] 1\nxer[CA] 1\n",
        after: "pc 00001004\ngpr[3] 80000000\ngpr[4] 80000000\ngpr[5] 00000001\ncr[0] 1\nxer[OV] 1\nxer[CA] 1\n",
    },
    Case {
        word: 0x7ca4_2bd7,
        before: "pc 00001000\ngpr[4] 80000000\ngpr[5] 00000000\nxer[SO] 1\n",
        after: "pc 00001004\ngpr[4] 80000000\ncr[2] 1\ncr[3] 1\nxer[SO] 1\n",
    },
];

/// Cases of `divwo`.
pub const DIVW_OE: [Case; 4] = [
    Case {
        word: 0x7c64_2fd6,
        before: "pc 00001000\ngpr[4] 00000007\ngpr[5] 00000002\nxer[SO] 1\n",
        after: "pc 00001004\ngpr[3] 00000003\ngpr[4] 00000007\ngpr[5] 00000002\nxer[SO] 1\n",
    },
    Case {
        word: 0x7c84_2fd6,
        before: "pc 00001000\ngpr[4] 00000007\ngpr[5] fffffffe\nxer[SO] 1\nxer[OV] 1\nxer[CA] 1\n",
        after: "pc 00001004\ngpr[4] fffffffd\ngpr[5] fffffffe\nxer[SO] 1\nxer[CA] 1\n",
    },
    Case {
        word: 0x7c64_2fd6,
        before: "pc 00001000\ngpr[4] 80000000\ngpr[5] 00000001\nxer[OV] 1\nxer[CA] 1\n",
        after: "pc 00001004\ngpr[3] 80000000\ngpr[4] 80000000\ngpr[5] 00000001\nxer[CA] 1\n",
    },
    Case {
        word: 0x7ca4_2fd6,
        before: "pc 00001000\ngpr[4] 80000000\ngpr[5] 00000000\nxer[SO] 1\n",
        after: "pc 00001004\ngpr[4] 80000000\nxer[SO] 1\nxer[OV] 1\n",
    },
];

/// Cases of `divwo.`.
pub const DIVW_OE_RC: [Case; 4] = [
    Case {
        word: 0x7c64_2fd7,
        before: "pc 00001000\ngpr[4] 00000007\ngpr[5] 00000002\nxer[OV] 1\nxer[CA] 1\n",
        after: "pc 00001004\ngpr[3] 00000003\ngpr[4] 00000007\ngpr[5] 00000002\ncr[1] 1\nxer[CA] 1\n",
    },
    Case {
        word: 0x7c84_2fd7,
        before: "pc 00001000\ngpr[4] 00000007\ngpr[5] fffffffe\n",
        after: "pc 00001004\ngpr[4] fffffffd\ngpr[5] fffffffe\ncr[0] 1\n",
    },
    Case {
        word: 0x7c64_2fd7,
        before: "pc 00001000\ngpr[4] 80000000\ngpr[5] 00000001\nxer[SO] 1\nxer[OV] 1\nxer[CA] 1\n",
        after: "pc 00001004\ngpr[3] 80000000\ngpr[4] 80000000\ngpr[5] 00000001\ncr[0] 1\ncr[3] 1\nxer[SO] 1\nxer[CA] 1\n",
    },
    Case {
        word: 0x7ca4_2fd7,
        before: "pc 00001000\ngpr[4] 80000000\ngpr[5] 00000000\nxer[OV] 1\nxer[CA] 1\n",
        after: "pc 00001004\ngpr[4] 80000000\ncr[2] 1\ncr[3] 1\nxer[SO] 1\nxer[OV] 1\nxer[CA] 1\n",
    },
];

/// Cases of `divwu`.
pub const DIVWU: [Case; 4] = [
    Case {
        word: 0x7c64_2b96,
        before: "pc 00001000\ngpr[4] 00000007\ngpr[5] 00000002\n",
        after: "pc 00001004\ngpr[3] 00000003\ngpr[4] 00000007\ngpr[5] 00000002\n",
    },
    Case {
        word: 0x7c1f_f396,
        before: "pc 00001000\ngpr[30] 00000002\ngpr[31] fffffff9\nxer[SO] 1\n",
        after: "pc 00001004\ngpr[0] 7ffffffc\ngpr[30] 00000002\ngpr[31] fffffff9\nxer[SO] 1\n",
    },
    Case {
        word: 0x7ca4_2b96,
        before: "pc 00001000\ngpr[4] 00000005\ngpr[5] 00000000\nxer[SO] 1\nxer[OV] 1\nxer[CA] 1\n",
        after: "pc 00001004\ngpr[4] 00000005\nxer[SO] 1\nxer[OV] 1\nxer[CA] 1\n",
    },
    Case {
        word: 0x7c64_2396,
        before: "pc 00001000\ngpr[4] ffffffff\nxer[SO] 1\n",
        after: "pc 00001004\ngpr[3] 00000001\ngpr[4] ffffffff\nxer[SO] 1\n",
    },
];

/// Cases of `divwu.`.
pub const DIVWU_RC: [Case; 4] = [
    Case {
        word: 0x7c64_2b97,
        before: "pc 00001000\ngpr[4] 00000007\ngpr[5] 00000002\nxer[SO] 1\n",
        after: "pc 00001004\ngpr[3] 00000003\ngpr[4] 00000007\ngpr[5] 00000002\ncr[1] 1\ncr[3] 1\nxer[SO] 1\n",
    },
    Case {
        word: 0x7c1f_f397,
        before: "pc 00001000\ngpr[30] 00000002\ngpr[31] fffffff9\nxer[OV] 1\nxer[CA] 1\n",
        after: "pc 00001004\ngpr[0] 7ffffffc\ngpr[30] 00000002\ngpr[31] fffffff9\ncr[1] 1\nxer[OV] 1\nxer[CA] 1\n",
    },
    Case {
        word: 0x7ca4_2b97,
        before: "pc 00001000\ngpr[4] 00000005\ngpr[5] 00000000\n",
        after: "pc 00001004\ngpr[4] 00000005\ncr[2] 1\n",
    },
    Case {
        word: 0x7c64_2397,
        before: "pc 00001000\ngpr[4] ffffffff\nxer[OV] 1\nxer[CA] 1\n",
        after: "pc 00001004\ngpr[3] 00000001\ngpr[4] ffffffff\ncr[1] 1\nxer[OV] 1\nxer[CA] 1\n",
    },
];

/// Cases of `divwuo`.
pub const DIVWU_OE: [Case; 4] = [
    Case {
        word: 0x7c64_2f96,
        before: "pc 00001000\ngpr[4] 00000007\ngpr[5] 00000002\nxer[SO] 1\n",
        after: "pc 00001004\ngpr[3] 00000003\ngpr[4] 00000007\ngpr[5] 00000002\nxer[SO] 1\n",
    },
    Case {
        word: 0x7c1f_f796,
        before: "pc 00001000\ngpr[30] 00000002\ngpr[31] fffffff9\nxer[OV] 1\nxer[CA] 1\n",
        after: "pc 00001004\ngpr[0] 7ffffffc\ngpr[30] 00000002\ngpr[31] fffffff9\nxer[CA] 1\n",
    },
    Case {
        word: 0x7ca4_2f96,
        before: "pc 00001000\ngpr[4] 00000005\ngpr[5] 00000000\n",
        after: "pc 00001004\ngpr[4] 00000005\nxer[SO] 1\nxer[OV] 1\n",
    },
    Case {
        word: 0x7c64_2796,
        before: "pc 00001000\ngpr[4] ffffffff\nxer[OV] 1\nxer[CA] 1\n",
        after: "pc 00001004\ngpr[3] 00000001\ngpr[4] ffffffff\nxer[CA] 1\n",
    },
];

/// Cases of `divwuo.`.
pub const DIVWU_OE_RC: [Case; 4] = [
    Case {
        word: 0x7c64_2f97,
        before: "pc 00001000\ngpr[4] 00000007\ngpr[5] 00000002\nxer[OV] 1\nxer[CA] 1\n",
        after: "pc 00001004\ngpr[3] 00000003\ngpr[4] 00000007\ngpr[5] 00000002\ncr[1] 1\nxer[CA] 1\n",
    },
    Case {
        word: 0x7c1f_f797,
        before: "pc 00001000\ngpr[30] 00000002\ngpr[31] fffffff9\nxer[SO] 1\nxer[OV] 1\nxer[CA] 1\n",
        after: "pc 00001004\ngpr[0] 7ffffffc\ngpr[30] 00000002\ngpr[31] fffffff9\ncr[1] 1\ncr[3] 1\nxer[SO] 1\nxer[CA] 1\n",
    },
    Case {
        word: 0x7ca4_2f97,
        before: "pc 00001000\ngpr[4] 00000005\ngpr[5] 00000000\nxer[SO] 1\n",
        after: "pc 00001004\ngpr[4] 00000005\ncr[2] 1\ncr[3] 1\nxer[SO] 1\nxer[OV] 1\n",
    },
    Case {
        word: 0x7c64_2797,
        before: "pc 00001000\ngpr[4] ffffffff\nxer[SO] 1\nxer[OV] 1\nxer[CA] 1\n",
        after: "pc 00001004\ngpr[3] 00000001\ngpr[4] ffffffff\ncr[1] 1\ncr[3] 1\nxer[SO] 1\nxer[CA] 1\n",
    },
];
