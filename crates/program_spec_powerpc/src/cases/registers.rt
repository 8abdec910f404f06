//! Moves to and from special purpose registers.

use crate::Case;

/// Cases of `mtxer`.
pub const MTXER: [Case; 4] = [
    Case {
        word: 0x7c61_03a6,
        before: "pc 00001000\ngpr[3] 00000000\nxer[SO] 1\nxer[CA] 1\nspr[XCOUNT] 00000055\n",
        after: "pc 00001004\n",
    },
    Case {
        word: 0x7c61_03a6,
        before: "pc 00001000\ngpr[3] 80000000\nspr[XCOUNT] 00000055\n",
        after: "pc 00001004\ngpr[3] 80000000\nxer[SO] 1\n",
    },
    Case {
        word: 0x7c61_03a6,
        before: "pc 00001000\ngpr[3] 20000000\nspr[XCOUNT] 00000055\n",
        after: "pc 00001004\ngpr[3] 20000000\nxer[CA] 1\n",
    },
    Case {
        word: 0x7c61_03a6,
        before: "pc 00001000\ngpr[3] 1fffff80\nspr[XCOUNT] 00000055\n",
        after: "pc 00001004\ngpr[3] 1fffff80\n",
    },
];

/// Cases of `mtlr`.
pub const MTLR: [Case; 2] = [
    Case {
        word: 0x7fe8_03a6,
        before: "pc 00001000\ngpr[31] ffffffff\nspr[CTR] 00000003\n",
        after: "pc 00001004\ngpr[31] ffffffff\nspr[LR] ffffffff\nspr[CTR] 00000003\n",
    },
    Case {
        word: 0x7c08_03a6,
        before: "pc 00001000\ngpr[0] 00000000\nspr[LR] 00000008\n",
        after: "pc 00001004\n",
    },
];

/// Cases of `mtctr`.
pub const MTCTR: [Case; 2] = [
    Case {
        word: 0x7fe9_03a6,
        before: "pc 00001000\ngpr[31] 80000003\nspr[LR] 00000003\n",
        after: "pc 00001004\ngpr[31] 80000003\nspr[LR] 00000003\nspr[CTR] 80000003\n",
    },
    Case {
        word: 0x7c09_03a6,
        before: "pc 00001000\ngpr[0] 00000000\nspr[CTR] 00000008\n",
        after: "pc 00001004\n",
    },
];

/// Cases of `mfxer`.
pub const MFXER: [Case; 4] = [
    Case {
        word: 0x7c61_02a6,
        before: "pc 00001000\ngpr[3] 00000009\nxer[SO] 1\nspr[XCOUNT] 00000000\n",
        after: "pc 00001004\ngpr[3] 80000000\nxer[SO] 1\n",
    },
    Case {
        word: 0x7c61_02a6,
        before: "pc 00001000\ngpr[3] 00000009\nxer[OV] 1\nspr[XCOUNT] 00000001\n",
        after: "pc 00001004\ngpr[3] 40000001\nxer[OV] 1\nspr[XCOUNT] 00000001\n",
    },
    Case {
        word: 0x7c61_02a6,
        before: "pc 00001000\ngpr[3] 00000009\nxer[CA] 1\nspr[XCOUNT] 0000007f\n",
        after: "pc 00001004\ngpr[3] 2000007f\nxer[CA] 1\nspr[XCOUNT] 0000007f\n",
    },
    Case {
        word: 0x7c61_02a6,
        before: "pc 00001000\ngpr[3] 00000009\nspr[XCOUNT] ffffffaa\n",
        after: "pc 00001004\ngpr[3] 0000002a\nspr[XCOUNT] ffffffaa\n",
    },
];

/// Cases of `mflr`.
pub const MFLR: [Case; 2] = [
    Case {
        word: 0x7fe8_02a6,
        before: "pc 00001000\nspr[LR] fffffffc\nspr[CTR] 00000001\n",
        after: "pc 00001004\ngpr[31] fffffffc\nspr[LR] fffffffc\nspr[CTR] 00000001\n",
    },
    Case {
        word: 0x7c08_02a6,
        before: "pc 00001000\ngpr[0] 00000009\nspr[CTR] 00000001\n",
        after: "pc 00001004\nspr[CTR] 00000001\n",
    },
];

/// Cases of `mfctr`.
pub const MFCTR: [Case; 2] = [
    Case {
        word: 0x7fe9_02a6,
        before: "pc 00001000\nspr[LR] 00000001\nspr[CTR] fffffffc\n",
        after: "pc 00001004\ngpr[31] fffffffc\nspr[LR] 00000001\nspr[CTR] fffffffc\n",
    },
    Case {
        word: 0x7c09_02a6,
        before: "pc 00001000\ngpr[0] 00000009\nspr[LR] 00000001\n",
        after: "pc 00001004\nspr[LR] 00000001\n",
    },
];
