//! Rotations and shifts.

use crate::Case;

/// Cases of `rlwinm`.
pub const RLWINM: [Case; 4] = [
    Case {
        word: 0x5464_003e,
        before: "pc 00001000\ngpr[3] 89abcdef\nxer[SO] 0\n",
        after: "pc 00001004\ngpr[3] 89abcdef\ngpr[4] 89abcdef\n",
    },
    Case {
        word: 0x5464_0800,
        before: "pc 00001000\ngpr[3] 89abcdef\nxer[SO] 0\n",
        after: "pc 00001004\ngpr[3] 89abcdef\n",
    },
    Case {
        word: 0x5464_2782,
        before: "pc 00001000\ngpr[3] 89abcdef\nxer[SO] 0\n",
        after: "pc 00001004\ngpr[3] 89abcdef\ngpr[4] 80000000\n",
    },
    Case {
        word: 0x5463_d840,
        before: "pc 00001000\ngpr[3] 89abcdef\nxer[SO] 1\n",
        after: "pc 00001004\ngpr[3] 7c4d5e6f\nxer[SO] 1\n",
    },
];

/// Cases of `rlwinm.`.
pub const RLWINM_RC: [Case; 4] = [
    Case {
        word: 0x5464_003f,
        before: "pc 00001000\ngpr[3] 89abcdef\nxer[SO] 0\n",
        after: "pc 00001004\ngpr[3] 89abcdef\ngpr[4] 89abcdef\ncr[0] 1\n",
    },
    Case {
        word: 0x5464_0801,
        before: "pc 00001000\ngpr[3] 89abcdef\nxer[SO] 0\n",
        after: "pc 00001004\ngpr[3] 89abcdef\ncr[2] 1\n",
    },
    Case {
        word: 0x5464_2783,
        before: "pc 00001000\ngpr[3] 89abcdef\nxer[SO] 0\n",
        after: "pc 00001004\ngpr[3] 89abcdef\ngpr[4] 80000000\ncr[0] 1\n",
    },
    Case {
        word: 0x5463_d841,
        before: "pc 00001000\ngpr[3] 89abcdef\nxer[SO] 1\n",
        after: "pc 00001004\ngpr[3] 7c4d5e6f\ncr[1] 1\ncr[3] 1\nxer[SO] 1\n",
    },
];

/// Cases of `rlwnm`.
pub const RLWNM: [Case; 4] = [
    Case {
        word: 0x5c64_283e,
        before: "pc 00001000\ngpr[3] 89abcdef\ngpr[5] 00000000\nxer[SO] 0\n",
        after: "pc 00001004\ngpr[3] 89abcdef\ngpr[4] 89abcdef\n",
    },
    Case {
        word: 0x5c64_2800,
        before: "pc 00001000\ngpr[3] 89abcdef\ngpr[5] 00000041\nxer[SO] 0\n",
        after: "pc 00001004\ngpr[3] 89abcdef\ngpr[5] 00000041\n",
    },
    Case {
        word: 0x5c64_2f82,
        before: "pc 00001000\ngpr[3] 89abcdef\ngpr[5] 00000084\nxer[SO] 0\n",
        after: "pc 00001004\ngpr[3] 89abcdef\ngpr[4] 80000000\ngpr[5] 00000084\n",
    },
    Case {
        word: 0x5c65_2840,
        before: "pc 00001000\ngpr[3] 89abcdef\ngpr[5] 000000fb\nxer[SO] 1\n",
        after: "pc 00001004\ngpr[3] 89abcdef\ngpr[5] 7c4d5e6f\nxer[SO] 1\n",
    },
];

/// Cases of `rlwnm.`.
pub const RLWNM_RC: [Case; 4] = [
    Case {
        word: 0x5c64_283f,
        before: "pc 00001000\ngpr[3] 89abcdef\ngpr[5] 00000000\nxer[SO] 0\n",
        after: "pc 00001004\ngpr[3] 89abcdef\ngpr[4] 89abcdef\ncr[0] 1\n",
    },
    Case {
        word: 0x5c64_2801,
        before: "pc 00001000\ngpr[3] 89abcdef\ngpr[5] 00000041\nxer[SO] 0\n",
        after: "pc 00001004\ngpr[3] 89abcdef\ngpr[5] 00000041\ncr[2] 1\n",
    },
    Case {
        word: 0x5c64_2f83,
        before: "pc 00001000\ngpr[3] 89abcdef\ngpr[5] 00000084\nxer[SO] 0\n",
        after: "pc 00001004\ngpr[3] 89abcdef\ngpr[4] 80000000\ngpr[5] 00000084\ncr[0] 1\n",
    },
    Case {
        word: 0x5c65_2841,
        before: "pc 00001000\ngpr[3] 89abcdef\ngpr[5] 000000fb\nxer[SO] 1\n",
        after: "pc 00001004\ngpr[3] 89abcdef\ngpr[5] 7c4d5e6f\ncr[1] 1\ncr[3] 1\nxer[SO] 1\n",
    },
];

/// Cases of `rlwimi`.
pub const RLWIMI: [Case; 4] = [
    Case {
        word: 0x5064_003e,
        before: "pc 00001000\ngpr[3] 89abcdef\ngpr[4] 13579bdf\nxer[SO] 0\n",
        after: "pc 00001004\ngpr[3] 89abcdef\ngpr[4] 89abcdef\n",
    },
    Case {
        word: 0x5064_0800,
        before: "pc 00001000\ngpr[3] 89abcdef\ngpr[4] 13579bdf\nxer[SO] 0\n",
        after: "pc 00001004\ngpr[3] 89abcdef\ngpr[4] 13579bdf\n",
    },
    Case {
        word: 0x5064_2782,
        before: "pc 00001000\ngpr[3] 89abcdef\ngpr[4] 13579bdf\nxer[SO] 0\n",
        after: "pc 00001004\ngpr[3] 89abcdef\ngpr[4] 93579bdc\n",
    },
    Case {
        word: 0x5064_d840,
        before: "pc 00001000\ngpr[3] 89abcdef\ngpr[4] 13579bdf\nxer[SO] 1\n",
        after: "pc 00001004\ngpr[3] 89abcdef\ngpr[4] 7c4d5e6f\nxer[SO] 1\n",
    },
];

/// Cases of `rlwimi.`.
pub const RLWIMI_RC: [Case; 4] = [
    Case {
        word: 0x5064_003f,
        before: "pc 00001000\ngpr[3] 89abcdef\ngpr[4] 13579bdf\nxer[SO] 0\n",
        after: "pc 00001004\ngpr[3] 89abcdef\ngpr[4] 89abcdef\ncr[0] 1\n",
    },
    Case {
        word: 0x5064_0801,
        before: "pc 00001000\ngpr[3] 89abcdef\ngpr[4] 13579bdf\nxer[SO] 0\n",
        after: "pc 00001004\ngpr[3] 89abcdef\ngpr[4] 13579bdf\ncr[1] 1\n",
    },
    Case {
        word: 0x5064_2783,
        before: "pc 00001000\ngpr[3] 89abcdef\ngpr[4] 13579bdf\nxer[SO] 0\n",
        after: "pc 00001004\ngpr[3] 89abcdef\ngpr[4] 93579bdc\ncr[0] 1\n",
    },
    Case {
        word: 0x5064_d841,
        before: "pc 00001000\ngpr[3] 89abcdef\ngpr[4] 13579bdf\nxer[SO] 1\n",
        after: "pc 00001004\ngpr[3] 89abcdef\ngpr[4] 7c4d5e6f\ncr[1] 1\ncr[3] 1\nxer[SO] 1\n",
    },
];

/// Cases of `slw`.
pub const SLW: [Case; 4] = [
    Case {
        word: 0x7c64_2830,
        before: "pc 00001000\ngpr[3] 89abcdef\ngpr[5] 00000000\nxer[SO] 0\nxer[CA] 0\n",
        after: "pc 00001004\ngpr[3] 89abcdef\ngpr[4] 89abcdef\n",
    },
    Case {
        word: 0x7c65_2830,
        before: "pc 00001000\ngpr[3] 89abcdef\ngpr[5] 0000001f\nxer[SO] 1\nxer[CA] 0\n",
        after: "pc 00001004\ngpr[3] 89abcdef\ngpr[5] 80000000\nxer[SO] 1\n",
    },
    Case {
        word: 0x7c65_2830,
        before: "pc 00001000\ngpr[3] 89abcdef\ngpr[5] 0000003f\nxer[SO] 0\nxer[CA] 1\n",
        after: "pc 00001004\ngpr[3] 89abcdef\nxer[CA] 1\n",
    },
    Case {
        word: 0x7c65_2830,
        before: "pc 00001000\ngpr[3] 89abcdef\ngpr[5] ffffffc4\nxer[SO] 0\nxer[CA] 0\n",
        after: "pc 00001004\ngpr[3] 89abcdef\ngpr[5] 9abcdef0\n",
    },
];

/// Cases of `slw.`.
pub const SLW_RC: [Case; 4] = [
    Case {
        word: 0x7c64_2831,
        before: "pc 00001000\ngpr[3] 89abcdef\ngpr[5] 00000000\nxer[SO] 0\nxer[CA] 0\n",
        after: "pc 00001004\ngpr[3] 89abcdef\ngpr[4] 89abcdef\ncr[0] 1\n",
    },
    Case {
        word: 0x7c65_2831,
        before: "pc 00001000\ngpr[3] 89abcdef\ngpr[5] 0000001f\nxer[SO] 1\nxer[CA] 0\n",
        after: "pc 00001004\ngpr[3] 89abcdef\ngpr[5] 80000000\ncr[0] 1\ncr[3] 1\nxer[SO] 1\n",
    },
    Case {
        word: 0x7c65_2831,
        before: "pc 00001000\ngpr[3] 89abcdef\ngpr[5] 0000003f\nxer[SO] 0\nxer[CA] 1\n",
        after: "pc 00001004\ngpr[3] 89abcdef\ncr[2] 1\nxer[CA] 1\n",
    },
    Case {
        word: 0x7c65_2831,
        before: "pc 00001000\ngpr[3] 89abcdef\ngpr[5] ffffffc4\nxer[SO] 0\nxer[CA] 0\n",
        after: "pc 00001004\ngpr[3] 89abcdef\ngpr[5] 9abcdef0\ncr[0] 1\n",
    },
];

/// Cases of `srw`.
pub const SRW: [Case; 4] = [
    Case {
        word: 0x7c64_2c30,
        before: "pc 00001000\ngpr[3] 89abcdef\ngpr[5] 00000000\nxer[SO] 0\nxer[CA] 0\n",
        after: "pc 00001004\ngpr[3] 89abcdef\ngpr[4] 89abcdef\n",
    },
    Case {
        word: 0x7c65_2c30,
        before: "pc 00001000\ngpr[3] 89abcdef\ngpr[5] 0000001f\nxer[SO] 1\nxer[CA] 0\n",
        after: "pc 00001004\ngpr[3] 89abcdef\ngpr[5] 00000001\nxer[SO] 1\n",
    },
    Case {
        word: 0x7c65_2c30,
        before: "pc 00001000\ngpr[3] 89abcdef\ngpr[5] 0000003f\nxer[SO] 0\nxer[CA] 1\n",
        after: "pc 00001004\ngpr[3] 89abcdef\nxer[CA] 1\n",
    },
    Case {
        word: 0x7c65_2c30,
        before: "pc 00001000\ngpr[3] 89abcdef\ngpr[5] ffffffc4\nxer[SO] 0\nxer[CA] 0\n",
        after: "pc 00001004\ngpr[3] 89abcdef\ngpr[5] 089abcde\n",
    },
];

/// Cases of `srw.`.
pub const SRW_RC: [Case; 4] = [
    Case {
        word: 0x7c64_2c31,
        before: "pc 00001000\ngpr[3] 89abcdef\ngpr[5] 00000000\nxer[SO] 0\nxer[CA] 0\n",
        after: "pc 00001004\ngpr[3] 89abcdef\ngpr[4] 89abcdef\ncr[0] 1\n",
    },
    Case {
        word: 0x7c65_2c31,
        before: "pc 00001000\ngpr[3] 89abcdef\ngpr[5] 0000001f\nxer[SO] 1\nxer[CA] 0\n",
        after: "pc 00001004\ngpr[3] 89abcdef\ngpr[5] 00000001\ncr[1] 1\ncr[3] 1\nxer[SO] 1\n",
    },
    Case {
        word: 0x7c65_2c31,
        before: "pc 00001000\ngpr[3] 89abcdef\ngpr[5] 0000003f\nxer[SO] 0\nxer[CA] 1\n",
        after: "pc 00001004\ngpr[3] 89abcdef\ncr[2] 1\nxer[CA] 1\n",
    },
    Case {
        word: 0x7c65_2c31,
        before: "pc 00001000\ngpr[3] 89abcdef\ngpr[5] ffffffc4\nxer[SO] 0\nxer[CA] 0\n",
        after: "pc 00001004\ngpr[3] 89abcdef\ngpr[5] 089abcde\ncr[1] 1\n",
    },
];

/// Cases of `srawi`.
pub const SRAWI: [Case; 4] = [
    Case {
        word: 0x7c64_0670,
        before: "pc 00001000\ngpr[3] 89abcdef\nxer[SO] 0\nxer[CA] 1\n",
        after: "pc 00001004\ngpr[3] 89abcdef\ngpr[4] 89abcdef\n",
    },
    Case {
        word: 0x7c60_fe70,
        before: "pc 00001000\ngpr[3] 89abcdef\nxer[SO] 1\nxer[CA] 1\n",
        after: "pc 00001004\ngpr[0] ffffffff\ngpr[3] 89abcdef\nxer[SO] 1\nxer[CA] 1\n",
    },
    Case {
        word: 0x7c60_2e70,
        before: "pc 00001000\ngpr[3] fffffff0\nxer[SO] 0\nxer[CA] 0\n",
        after: "pc 00001004\ngpr[0] ffffffff\ngpr[3] fffffff0\nxer[CA] 1\n",
    },
    Case {
        word: 0x7c60_2670,
        before: "pc 00001000\ngpr[3] 0000000f\nxer[SO] 0\nxer[CA] 1\n",
        after: "pc 00001004\ngpr[3] 0000000f\n",
    },
];

/// Cases of `srawi.`.
pub const SRAWI_RC: [Case; 4] = [
    Case {
        word: 0x7c64_0671,
        before: "pc 00001000\ngpr[3] 89abcdef\nxer[SO] 0\nxer[CA] 1\n",
        after: "pc 00001004\ngpr[3] 89abcdef\ngpr[4] 89abcdef\ncr[0] 1\n",
    },
    Case {
        word: 0x7c60_fe71,
        before: "pc 00001000\ngpr[3] 89abcdef\nxer[SO] 1\nxer[CA] 1\n",
        after: "pc 00001004\ngpr[0] ffffffff\ngpr[3] 89abcdef\ncr[0] 1\ncr[3] 1\nxer[SO] 1\nxer[CA] 1\n",
    },
    Case {
        word: 0x7c60_2e71,
        before: "pc 00001000\ngpr[3] fffffff0\nxer[SO] 0\nxer[CA] 0\n",
        after: "pc 00001004\ngpr[0] ffffffff\ngpr[3] fffffff0\ncr[0] 1\nxer[CA] 1\n",
    },
    Case {
        word: 0x7c60_2671,
        before: "pc 00001000\ngpr[3] 0000000f\nxer[SO] 0\nxer[CA] 1\n",
        after: "pc 00001004\ngpr[3] 0000000f\ncr[2] 1\n",
    },
];

/// Cases of `sraw`.
pub const SRAW: [Case; 6] = [
    Case {
        word: 0x7c64_2e30,
        before: "pc 00001000\ngpr[3] 89abcdef\ngpr[5] 00000000\nxer[SO] 0\nxer[CA] 0\n",
        after: "pc 00001004\ngpr[3] 89abcdef\ngpr[4] 89abcdef\n",
    },
    Case {
        word: 0x7c64_2e30,
        before: "pc 00001000\ngpr[3] 89abcdef\ngpr[5] 00000020\nxer[SO] 1\nxer[CA] 1\n",
        after: "pc 00001004\ngpr[3] 89abcdef\ngpr[4] ffffffff\ngpr[5] 00000020\nxer[SO] 1\nxer[CA] 1\n",
    },
    Case {
        word: 0x7c64_2e30,
        before: "pc 00001000\ngpr[3] 89abcdef\ngpr[5] 00000040\nxer[SO] 1\nxer[CA] 0\n",
        after: "pc 00001004\ngpr[3] 89abcdef\ngpr[4] 89abcdef\ngpr[5] 00000040\nxer[SO] 1\n",
    },
    Case {
        word: 0x7c64_2e30,
        before: "pc 00001000\ngpr[3] 7fffffff\ngpr[5] 00000004\nxer[CA] 1\n",
        after: "pc 00001004\ngpr[3] 7fffffff\ngpr[4] 07ffffff\ngpr[5] 00000004\n",
    },
    Case {
        word: 0x7c64_2e30,
        before: "pc 00001000\ngpr[3] 80000000\ngpr[5] 0000001f\nxer[CA] 1\n",
        after: "pc 00001004\ngpr[3] 80000000\ngpr[4] ffffffff\ngpr[5] 0000001f\n",
    },
    Case {
        word: 0x7c64_2e30,
        before: "pc 00001000\ngpr[3] 7fffffff\ngpr[5] 00000020\nxer[CA] 1\n",
        after: "pc 00001004\ngpr[3] 7fffffff\ngpr[5] 00000020\n",
    },
];

/// Cases of `sraw.`.
pub const SRAW_RC: [Case; 4] = [
    Case {
        word: 0x7c64_2e31,
        before: "pc 00001000\ngpr[3] 89abcdef\ngpr[5] 00000000\nxer[SO] 0\nxer[CA] 0\n",
        after: "pc 00001004\ngpr[3] 89abcdef\ngpr[4] 89abcdef\ncr[0] 1\n",
    },
    Case {
        word: 0x7c65_2e31,
        before: "pc 00001000\ngpr[3] 89abcdef\ngpr[5] 0000003f\nxer[SO] 0\nxer[CA] 1\n",
        after: "pc 00001004\ngpr[3] 89abcdef\ngpr[5] ffffffff\ncr[0] 1\nxer[CA] 1\n",
    },
    Case {
        word: 0x7c64_2e31,
        before: "pc 00001000\ngpr[3] fffffff0\ngpr[5] 00000004\nxer[CA] 1\n",
        after: "pc 00001004\ngpr[3] fffffff0\ngpr[4] ffffffff\ngpr[5] 00000004\ncr[0] 1\n",
    },
    Case {
        word: 0x7c64_2e31,
        before: "pc 00001000\ngpr[3] 7fffffff\ngpr[5] 00000020\nxer[CA] 1\n",
        after: "pc 00001004\ngpr[3] 7fffffff\ngpr[5] 00000020\ncr[2] 1\n",
    },
];
