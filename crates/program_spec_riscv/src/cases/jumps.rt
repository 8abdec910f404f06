//! Upper immediates, jumps and branches.

use crate::Case;

/// Cases of `lui`.
pub const LUI: [Case; 4] = [
    Case {
        word: 0x1234_52b7,
        before: "pc 00001000\n",
        after: "pc 00001004\nx[5] 12345000\n",
    },
    Case {
        word: 0xffff_ffb7,
        before: "pc 00001000\nx[31] 00000007\n",
        after: "pc 00001004\nx[31] fffff000\n",
    },
    Case {
        word: 0x8000_00b7,
        before: "pc 80000ffc\n",
        after: "pc 80001000\nx[1] 80000000\n",
    },
    Case {
        word: 0x0000_0337,
        before: "pc 00001000\n",
        after: "pc 00001004\n",
    },
];

/// Cases of `auipc`.
pub const AUIPC: [Case; 4] = [
    Case {
        word: 0x1234_5297,
        before: "pc 00001000\n",
        after: "pc 00001004\nx[5] 12346000\n",
    },
    Case {
        word: 0xffff_ff97,
        before: "pc 00001000\nx[31] 00000007\n",
        after: "pc 00001004\n",
    },
    Case {
        word: 0x8000_0097,
        before: "pc 80000ffc\n",
        after: "pc 80001000\nx[1] 00000ffc\n",
    },
    Case {
        word: 0x0000_0317,
        before: "pc 00001000\n",
        after: "pc 00001004\nx[6] 00001000\n",
    },
];

/// Cases of `jal`.
pub const JAL: [Case; 4] = [
    Case {
        word: 0x0080_00ef,
        before: "pc 00001000\nx[1] 00000009\n",
        after: "pc 00001008\nx[1] 00001004\n",
    },
    Case {
        word: 0x801f_f0ef,
        before: "pc 00001000\nx[1] 00000009\n",
        after: "pc 00000800\nx[1] 00001004\n",
    },
    Case {
        word: 0x8000_00ef,
        before: "pc 00001000\nx[1] 00000009\n",
        after: "pc fff01000\nx[1] 00001004\n",
    },
    Case {
        word: 0x0040_0fef,
        before: "pc fffffffc\n",
        after: "pc 00000000\n",
    },
];

/// Cases of `jalr`.
pub const JALR: [Case; 4] = [
    Case {
        word: 0x0002_80e7,
        before: "pc 00001000\nx[5] 00002000\n",
        after: "pc 00002000\nx[1] 00001004\nx[5] 00002000\n",
    },
    Case {
        word: 0xffc2_82e7,
        before: "pc 00001000\nx[5] 00002003\n",
        after: "pc 00001ffe\nx[5] 00001004\n",
    },
    Case {
        word: 0x7ff0_00e7,
        before: "pc 00001000\n",
        after: "pc 000007fe\nx[1] 00001004\n",
    },
    Case {
        word: 0x0001_00e7,
        before: "pc fffffffc\nx[2] 00003001\n",
        after: "pc 00003000\nx[2] 00003001\n",
    },
];

/// Cases of `beq`.
pub const BEQ: [Case; 4] = [
    Case {
        word: 0x0041_8863,
        before: "pc 00001000\nx[3] 00000005\nx[4] 00000005\n",
        after: "pc 00001010\nx[3] 00000005\nx[4] 00000005\n",
    },
    Case {
        word: 0x0041_8163,
        before: "pc 00001000\nx[3] 00000007\nx[4] 00000007\n",
        after: "pc 00001002\nx[3] 00000007\nx[4] 00000007\n",
    },
    Case {
        word: 0x8041_80e3,
        before: "pc 00001000\nx[3] 00000007\nx[4] 00000007\n",
        after: "pc 00000800\nx[3] 00000007\nx[4] 00000007\n",
    },
    Case {
        word: 0xfe31_8ce3,
        before: "pc 00000000\nx[3] 00000007\n",
        after: "pc fffffff8\nx[3] 00000007\n",
    },
];

/// Cases of `bne`.
pub const BNE: [Case; 4] = [
    Case {
        word: 0x0041_9863,
        before: "pc 00001000\nx[3] 00000005\nx[4] 00000005\n",
        after: "pc 00001004\nx[3] 00000005\nx[4] 00000005\n",
    },
    Case {
        word: 0x0041_9163,
        before: "pc 00001000\nx[3] 00000007\nx[4] 00000008\n",
        after: "pc 00001002\nx[3] 00000007\nx[4] 00000008\n",
    },
    Case {
        word: 0x8041_90e3,
        before: "pc 00001000\nx[3] 00000007\nx[4] 00000008\n",
        after: "pc 00000800\nx[3] 00000007\nx[4] 00000008\n",
    },
    Case {
        word: 0xfe31_9ce3,
        before: "pc 00000000\nx[3] 00000007\n",
        after: "pc 00000004\nx[3] 00000007\n",
    },
];

/// Cases of `blt`.
pub const BLT: [Case; 4] = [
    Case {
        word: 0x0041_c863,
        before: "pc 00001000\nx[3] 00000005\nx[4] 00000005\n",
        after: "pc 00001004\nx[3] 00000005\nx[4] 00000005\n",
    },
    Case {
        word: 0x0041_c163,
        before: "pc 00001000\nx[3] ffffffff\nx[4] 00000001\n",
        after: "pc 00001002\nx[3] ffffffff\nx[4] 00000001\n",
    },
    Case {
        word: 0x8041_c0e3,
        before: "pc 00001000\nx[3] ffffffff\nx[4] 00000001\n",
        after: "pc 00000800\nx[3] ffffffff\nx[4] 00000001\n",
    },
    Case {
        word: 0xfe31_cce3,
        before: "pc 00000000\nx[3] 00000007\n",
        after: "pc 00000004\nx[3] 00000007\n",
    },
];

/// Cases of `bge`.
pub const BGE: [Case; 4] = [
    Case {
        word: 0x0041_d863,
        before: "pc 00001000\nx[3] 00000005\nx[4] 00000005\n",
        after: "pc 00001010\nx[3] 00000005\nx[4] 00000005\n",
    },
    Case {
        word: 0x0041_d163,
        before: "pc 00001000\nx[3] 00000001\nx[4] ffffffff\n",
        after: "pc 00001002\nx[3] 00000001\nx[4] ffffffff\n",
    },
    Case {
        word: 0x8041_d0e3,
        before: "pc 00001000\nx[3] 00000001\nx[4] ffffffff\n",
        after: "pc 00000800\nx[3] 00000001\nx[4] ffffffff\n",
    },
    Case {
        word: 0xfe31_dce3,
        before: "pc 00000000\nx[3] 00000007\n",
        after: "pc fffffff8\nx[3] 00000007\n",
    },
];

/// Cases of `bltu`.
pub const BLTU: [Case; 4] = [
    Case {
        word: 0x0041_e863,
        before: "pc 00001000\nx[3] 00000005\nx[4] 00000005\n",
        after: "pc 00001004\nx[3] 00000005\nx[4] 00000005\n",
    },
    Case {
        word: 0x0041_e163,
        before: "pc 00001000\nx[3] 00000001\nx[4] ffffffff\n",
        after: "pc 00001002\nx[3] 00000001\nx[4] ffffffff\n",
    },
    Case {
        word: 0x8041_e0e3,
        before: "pc 00001000\nx[3] 00000001\nx[4] ffffffff\n",
        after: "pc 00000800\nx[3] 00000001\nx[4] ffffffff\n",
    },
    Case {
        word: 0xfe31_ece3,
        before: "pc 00000000\nx[3] 00000007\n",
        after: "pc 00000004\nx[3] 00000007\n",
    },
];

/// Cases of `bgeu`.
pub const BGEU: [Case; 4] = [
    Case {
        word: 0x0041_f863,
        before: "pc 00001000\nx[3] 00000005\nx[4] 00000005\n",
        after: "pc 00001010\nx[3] 00000005\nx[4] 00000005\n",
    },
    Case {
        word: 0x0041_f163,
        before: "pc 00001000\nx[3] ffffffff\nx[4] 00000001\n",
        after: "pc 00001002\nx[3] ffffffff\nx[4] 00000001\n",
    },
    Case {
        word: 0x8041_f0e3,
        before: "pc 00001000\nx[3] ffffffff\nx[4] 00000001\n",
        after: "pc 00000800\nx[3] ffffffff\nx[4] 00000001\n",
    },
    Case {
        word: 0xfe31_fce3,
        before: "pc 00000000\nx[3] 00000007\n",
        after: "pc fffffff8\nx[3] 00000007\n",
    },
];
