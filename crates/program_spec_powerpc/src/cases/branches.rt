//! Branches.

use crate::Case;

/// Cases of `b`.
pub const B: [Case; 6] = [
    Case {
        word: 0x4800_0008,
        before: "pc 00001000\nspr[LR] 00000044\n",
        after: "pc 00001008\nspr[LR] 00000044\n",
    },
    Case {
        word: 0x4bff_fff0,
        before: "pc 00001000\nspr[LR] 00000044\n",
        after: "pc 00000ff0\nspr[LR] 00000044\n",
    },
    Case {
        word: 0x49ff_fffd,
        before: "pc 00001000\nspr[LR] 00000044\n",
        after: "pc 02000ffc\nspr[LR] 00001004\n",
    },
    Case {
        word: 0x4a00_0000,
        before: "pc 00001000\nspr[LR] 00000044\n",
        after: "pc fe001000\nspr[LR] 00000044\n",
    },
    Case {
        word: 0x4bff_fffe,
        before: "pc 00001000\nspr[LR] 00000044\n",
        after: "pc fffffffc\nspr[LR] 00000044\n",
    },
    Case {
        word: 0x4800_0005,
        before: "pc fffffffc\nspr[LR] 00000044\n",
        after: "pc 00000000\n",
    },
];

/// Cases of `bc`.
pub const BC: [Case; 24] = [
    Case {
        word: 0x4002_0010,
        before: "pc 00001000\nspr[CTR] 00000000\n",
        after: "pc 00001010\nspr[CTR] ffffffff\n",
    },
    Case {
        word: 0x4022_0010,
        before: "pc 00001000\nspr[CTR] 00000000\n",
        after: "pc 00001010\nspr[CTR] ffffffff\n",
    },
    Case {
        word: 0x4042_0010,
        before: "pc 00001000\ncr[2] 1\nspr[CTR] 00000000\n",
        after: "pc 00001004\ncr[2] 1\nspr[CTR] ffffffff\n",
    },
    Case {
        word: 0x4062_0010,
        before: "pc 00001000\nspr[CTR] 00000001\n",
        after: "pc 00001010\n",
    },
    Case {
        word: 0x4082_0010,
        before: "pc 00001000\ncr[2] 1\nspr[CTR] 00000001\n",
        after: "pc 00001004\ncr[2] 1\nspr[CTR] 00000001\n",
    },
    Case {
        word: 0x40a2_0010,
        before: "pc 00001000\nspr[CTR] 00000002\n",
        after: "pc 00001010\nspr[CTR] 00000002\n",
    },
    Case {
        word: 0x40c2_0010,
        before: "pc 00001000\ncr[2] 1\nspr[CTR] 00000002\n",
        after: "pc 00001004\ncr[2] 1\nspr[CTR] 00000002\n",
    },
    Case {
        word: 0x4102_0010,
        before: "pc 00001000\nspr[CTR] 00000000\n",
        after: "pc 00001004\nspr[CTR] ffffffff\n",
    },
    Case {
        word: 0x4122_0010,
        before: "pc 00001000\ncr[2] 1\nspr[CTR] 00000000\n",
        after: "pc 00001010\ncr[2] 1\nspr[CTR] ffffffff\n",
    },
    Case {
        word: 0x4142_0010,
        before: "pc 00001000\nspr[CTR] 00000001\n",
        after: "pc 00001004\n",
    },
    Case {
        word: 0x4162_0010,
        before: "pc 00001000\ncr[2] 1\nspr[CTR] 00000001\n",
        after: "pc 00001010\ncr[2] 1\n",
    },
    Case {
        word: 0x4182_0010,
        before: "pc 00001000\nspr[CTR] 00000002\n",
        after: "pc 00001004\nspr[CTR] 00000002\n",
    },
    Case {
        word: 0x41a2_0010,
        before: "pc 00001000\ncr[2] 1\nspr[CTR] 00000002\n",
        after: "pc 00001010\ncr[2] 1\nspr[CTR] 00000002\n",
    },
    Case {
        word: 0x41e2_0010,
        before: "pc 00001000\nspr[CTR] 00000000\n",
        after: "pc 00001004\n",
    },
    Case {
        word: 0x4202_0010,
        before: "pc 00001000\nspr[CTR] 00000001\n",
        after: "pc 00001004\n",
    },
    Case {
        word: 0x4242_0010,
        before: "pc 00001000\nspr[CTR] 00000002\n",
        after: "pc 00001004\nspr[CTR] 00000001\n",
    },
    Case {
        word: 0x42a2_0010,
        before: "pc 00001000\ncr[2] 1\nspr[CTR] 00000000\n",
        after: "pc 00001010\ncr[2] 1\n",
    },
    Case {
        word: 0x42e2_0010,
        before: "pc 00001000\ncr[2] 1\nspr[CTR] 00000001\n",
        after: "pc 00001010\ncr[2] 1\nspr[CTR] 00000001\n",
    },
    Case {
        word: 0x4322_0010,
        before: "pc 00001000\ncr[2] 1\nspr[CTR] 00000002\n",
        after: "pc 00001010\ncr[2] 1\nspr[CTR] 00000001\n",
    },
    Case {
        word: 0x4382_0010,
        before: "pc 00001000\nspr[CTR] 00000000\n",
        after: "pc 00001010\n",
    },
    Case {
        word: 0x43c2_0010,
        before: "pc 00001000\nspr[CTR] 00000001\n",
        after: "pc 00001010\nspr[CTR] 00000001\n",
    },
    Case {
        word: 0x419f_fffd,
        before: "pc 00001000\ncr[31] 1\nspr[CTR] 00000007\n",
        after: "pc 00000ffc\ncr[31] 1\nspr[LR] 00001004\nspr[CTR] 00000007\n",
    },
    Case {
        word: 0x419f_000f,
        before: "pc 00001000\ncr[0] 1\ncr[30] 1\n",
        after: "pc 00001004\ncr[0] 1\ncr[30] 1\nspr[LR] 00001004\n",
    },
    Case {
        word: 0x401e_fff4,
        before: "pc 00001000\ncr[31] 1\nspr[CTR] 00000003\n",
        after: "pc 00000ff4\ncr[31] 1\nspr[CTR] 00000002\n",
    },
];

/// Cases of `bclr`.
pub const BCLR: [Case; 12] = [
    Case {
        word: 0x4c1f_0020,
        before: "pc 00001000\nspr[LR] 00002003\nspr[CTR] 00000000\n",
        after: "pc 00002000\nspr[LR] 00002003\nspr[CTR] ffffffff\n",
    },
    Case {
        word: 0x4c5f_0020,
        before: "pc 00001000\nspr[LR] 00002003\nspr[CTR] 00000002\n",
        after: "pc 00001004\nspr[LR] 00002003\nspr[CTR] 00000001\n",
    },
    Case {
        word: 0x4cdf_0020,
        before: "pc 00001000\nspr[LR] 00002003\nspr[CTR] 00000002\n",
        after: "pc 00002000\nspr[LR] 00002003\nspr[CTR] 00000002\n",
    },
    Case {
        word: 0x4d5f_0020,
        before: "pc 00001000\nspr[LR] 00002003\nspr[CTR] 00000001\n",
        after: "pc 00001004\nspr[LR] 00002003\n",
    },
    Case {
        word: 0x4ddf_0020,
        before: "pc 00001000\nspr[LR] 00002003\nspr[CTR] 00000001\n",
        after: "pc 00001004\nspr[LR] 00002003\nspr[CTR] 00000001\n",
    },
    Case {
        word: 0x4e5f_0020,
        before: "pc 00001000\ncr[31] 1\nspr[LR] 00002003\nspr[CTR] 00000001\n",
        after: "pc 00002000\ncr[31] 1\nspr[LR] 00002003\n",
    },
    Case {
        word: 0x4edf_0020,
        before: "pc 00001000\nspr[LR] 00002003\nspr[CTR] 00000000\n",
        after: "pc 00002000\nspr[LR] 00002003\n",
    },
    Case {
        word: 0x4f5f_0020,
        before: "pc 00001000\ncr[31] 1\nspr[LR] 00002003\nspr[CTR] 00000000\n",
        after: "pc 00001004\ncr[31] 1\nspr[LR] 00002003\nspr[CTR] ffffffff\n",
    },
    Case {
        word: 0x4fdf_0020,
        before: "pc 00001000\ncr[31] 1\nspr[LR] 00002003\nspr[CTR] 00000000\n",
        after: "pc 00002000\ncr[31] 1\nspr[LR] 00002003\n",
    },
    Case {
        word: 0x4c40_0021,
        before: "pc 00001000\nspr[LR] 00003001\nspr[CTR] 00000001\n",
        after: "pc 00003000\nspr[LR] 00001004\n",
    },
    Case {
        word: 0x4e80_0021,
        before: "pc 00001000\nspr[LR] fffffffe\nspr[CTR] 00000009\n",
        after: "pc fffffffc\nspr[LR] 00001004\nspr[CTR] 00000009\n",
    },
    Case {
        word: 0x4fe0_0021,
        before: "pc 00001000\nspr[LR] fffffffe\nspr[CTR] 00000009\n",
        after: "pc fffffffc\nspr[LR] 00001004\nspr[CTR] 00000009\n",
    },
];

/// Cases of `bcctr`.
pub const BCCTR: [Case; 6] = [
    Case {
        word: 0x4c9f_0420,
        before: "pc 00001000\nspr[LR] 00000044\nspr[CTR] 00002003\n",
        after: "pc 00002000\nspr[LR] 00000044\nspr[CTR] 00002003\n",
    },
    Case {
        word: 0x4cff_0420,
        before: "pc 00001000\nspr[LR] 00000044\nspr[CTR] 00002003\n",
        after: "pc 00002000\nspr[LR] 00000044\nspr[CTR] 00002003\n",
    },
    Case {
        word: 0x4ddf_0421,
        before: "pc 00001000\ncr[31] 1\nspr[LR] 00000044\nspr[CTR] 00002003\n",
        after: "pc 00002000\ncr[31] 1\nspr[LR] 00001004\nspr[CTR] 00002003\n",
    },
    Case {
        word: 0x4ebf_0421,
        before: "pc 00001000\ncr[31] 1\nspr[LR] 00000044\nspr[CTR] 00002003\n",
        after: "pc 00002000\ncr[31] 1\nspr[LR] 00001004\nspr[CTR] 00002003\n",
    },
    Case {
        word: 0x4fbf_0420,
        before: "pc 00001000\nspr[LR] 00000044\nspr[CTR] 00002003\n",
        after: "pc 00002000\nspr[LR] 00000044\nspr[CTR] 00002003\n",
    },
    Case {
        word: 0x4c80_0421,
        before: "pc 00001000\ncr[0] 1\nspr[CTR] ffffffff\n",
        after: "pc 00001004\ncr[0] 1\nspr[LR] 00001004\nspr[CTR] ffffffff\n",
    },
];
