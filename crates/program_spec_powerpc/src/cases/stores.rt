//! Stores.

use crate::Case;

/// Cases of `stb`.
pub const STB: [Case; 4] = [
    Case {
        word: 0x9864_0004,
        before: "pc 00001000\ngpr[3] 12345678\ngpr[4] 00002000\nmem[00002003] ff\nmem[00002004] ff\nmem[00002005] ff\nmem[00002006] ff\nmem[00002007] ff\nmem[00002008] ff\n",
        after: "pc 00001004\ngpr[3] 12345678\ngpr[4] 00002000\nmem[00002003] ff\nmem[00002004] 78\nmem[00002005] ff\nmem[00002006] ff\nmem[00002007] ff\nmem[00002008] ff\n",
    },
    Case {
        word: 0x9884_fffe,
        before: "pc 00001000\ngpr[4] 00002000\n",
        after: "pc 00001004\ngpr[4] 00002000\n",
    },
    Case {
        word: 0x9800_7fff,
        before: "pc 00001000\ngpr[0] 8899aabb\n",
        after: "pc 00001004\ngpr[0] 8899aabb\nmem[00007fff] bb\n",
    },
    Case {
        word: 0x9801_0008,
        before: "pc 00001000\ngpr[0] c3d2e1f0\ngpr[1] 00002000\n",
        after: "pc 00001004\ngpr[0] c3d2e1f0\ngpr[1] 00002000\nmem[00002008] f0\n",
    },
];

/// Cases of `stbx`.
pub const STBX: [Case; 3] = [
    Case {
        word: 0x7c64_29ae,
        before: "pc 00001000\ngpr[3] 12345678\ngpr[4] 00002000\ngpr[5] fffffffe\n",
        after: "pc 00001004\ngpr[3] 12345678\ngpr[4] 00002000\ngpr[5] fffffffe\nmem[00001ffe] 78\n",
    },
    Case {
        word: 0x7ca0_29ae,
        before: "pc 00001000\ngpr[0] 00000100\ngpr[5] 00003004\n",
        after: "pc 00001004\ngpr[0] 00000100\ngpr[5] 00003004\nmem[00003004] 04\n",
    },
    Case {
        word: 0x7c1f_f1ae,
        before: "pc 00001000\ngpr[0] a1b2c3d4\ngpr[30] ffffffff\ngpr[31] ffffffff\n",
        after: "pc 00001004\ngpr[0] a1b2c3d4\ngpr[30] ffffffff\ngpr[31] ffffffff\nmem[fffffffe] d4\n",
    },
];

/// Cases of `stbu`.
pub const STBU: [Case; 3] = [
    Case {
        word: 0x9c7f_0004,
        before: "pc 00001000\ngpr[3] 12345678\ngpr[31] 00002000\n",
        after: "pc 00001004\ngpr[3] 12345678\ngpr[31] 00002004\nmem[00002004] 78\n",
    },
    Case {
        word: 0x9c21_fff0,
        before: "pc 00001000\ngpr[1] 00002010\n",
        after: "pc 00001004\ngpr[1] 00002000\nmem[00002000] 10\n",
    },
    Case {
        word: 0x9c04_8000,
        before: "pc 00001000\ngpr[0] a1b2c3d4\ngpr[4] 00007ffe\n",
        after: "pc 00001004\ngpr[0] a1b2c3d4\ngpr[4] fffffffe\nmem[fffffffe] d4\n",
    },
];

/// Cases of `stbux`.
pub const STBUX: [Case; 3] = [
    Case {
        word: 0x7c7f_29ee,
        before: "pc 00001000\ngpr[3] 12345678\ngpr[5] 00000010\ngpr[31] 00002000\n",
        after: "pc 00001004\ngpr[3] 12345678\ngpr[5] 00000010\ngpr[31] 00002010\nmem[00002010] 78\n",
    },
    Case {
        word: 0x7c84_29ee,
        before: "pc 00001000\ngpr[4] 00002000\ngpr[5] fffffff0\n",
        after: "pc 00001004\ngpr[4] 00001ff0\ngpr[5] fffffff0\n",
    },
    Case {
        word: 0x7ca4_29ee,
        before: "pc 00001000\ngpr[4] fffffff0\ngpr[5] 0000000e\n",
        after: "pc 00001004\ngpr[4] fffffffe\ngpr[5] 0000000e\nmem[fffffffe] 0e\n",
    },
];

/// Cases of `sth`.
pub const STH: [Case; 4] = [
    Case {
        word: 0xb064_0004,
        before: "pc 00001000\ngpr[3] 12345678\ngpr[4] 00002000\nmem[00002003] ff\nmem[00002004] ff\nmem[00002005] ff\nmem[00002006] ff\nmem[00002007] ff\nmem[00002008] ff\n",
        after: "pc 00001004\ngpr[3] 12345678\ngpr[4] 00002000\nmem[00002003] ff\nmem[00002004] 56\nmem[00002005] 78\nmem[00002006] ff\nmem[00002007] ff\nmem[00002008] ff\n",
    },
    Case {
        word: 0xb084_fffe,
        before: "pc 00001000\ngpr[4] 00002000\n",
        after: "pc 00001004\ngpr[4] 00002000\nmem[00001ffe] 20\n",
    },
    Case {
        word: 0xb000_7fff,
        before: "pc 00001000\ngpr[0] 8899aabb\n",
        after: "pc 00001004\ngpr[0] 8899aabb\nmem[00007fff] aa\nmem[00008000] bb\n",
    },
    Case {
        word: 0xb001_0008,
        before: "pc 00001000\ngpr[0] c3d2e1f0\ngpr[1] 00002000\n",
        after: "pc 00001004\ngpr[0] c3d2e1f0\ngpr[1] 00002000\nmem[00002008] e1\nmem[00002009] f0\n",
    },
];

/// Cases of `sthx`.
pub const STHX: [Case; 3] = [
    Case {
        word: 0x7c64_2b2e,
        before: "pc 00001000\ngpr[3] 12345678\ngpr[4] 00002000\ngpr[5] fffffffe\n",
        after: "pc 00001004\ngpr[3] 12345678\ngpr[4] 00002000\ngpr[5] fffffffe\nmem[00001ffe] 56\nmem[00001fff] 78\n",
    },
    Case {
        word: 0x7ca0_2b2e,
        before: "pc 00001000\ngpr[0] 00000100\ngpr[5] 00003004\n",
        after: "pc 00001004\ngpr[0] 00000100\ngpr[5] 00003004\nmem[00003004] 30\nmem[00003005] 04\n",
    },
    Case {
        word: 0x7c1f_f32e,
        before: "pc 00001000\ngpr[0] a1b2c3d4\ngpr[30] ffffffff\ngpr[31] ffffffff\n",
        after: "pc 00001004\ngpr[0] a1b2c3d4\ngpr[30] ffffffff\ngpr[31] ffffffff\nmem[fffffffe] c3\nmem[ffffffff] d4\n",
    },
];

/// Cases of `sthu`.
pub const STHU: [Case; 3] = [
    Case {
        word: 0xb47f_0004,
        before: "pc 00001000\ngpr[3] 12345678\ngpr[31] 00002000\n",
        after: "pc 00001004\ngpr[3] 12345678\ngpr[31] 00002004\nmem[00002004] 56\nmem[00002005] 78\n",
    },
    Case {
        word: 0xb421_fff0,
        before: "pc 00001000\ngpr[1] 00002010\n",
        after: "pc 00001004\ngpr[1] 00002000\nmem[00002000] 20\nmem[00002001] 10\n",
    },
    Case {
        word: 0xb404_8000,
        before: "pc 00001000\ngpr[0] a1b2c3d4\ngpr[4] 00007ffe\n",
        after: "pc 00001004\ngpr[0] a1b2c3d4\ngpr[4] fffffffe\nmem[fffffffe] c3\nmem[ffffffff] d4\n",
    },
];

/// Cases of `sthux`.
pub const STHUX: [Case; 3] = [
    Case {
        word: 0x7c7f_2b6e,
        before: "pc 00001000\ngpr[3] 12345678\ngpr[5] 00000010\ngpr[31] 00002000\n",
        after: "pc 00001004\ngpr[3] 12345678\ngpr[5] 00000010\ngpr[31] 00002010\nmem[00002010] 56\nmem[00002011] 78\n",
    },
    Case {
        word: 0x7c84_2b6e,
        before: "pc 00001000\ngpr[4] 00002000\ngpr[5] fffffff0\n",
        after: "pc 00001004\ngpr[4] 00001ff0\ngpr[5] fffffff0\nmem[00001ff0] 20\n",
    },
    Case {
        word: 0x7ca4_2b6e,
        before: "pc 00001000\ngpr[4] fffffff0\ngpr[5] 0000000e\n",
        after: "pc 00001004\ngpr[4] fffffffe\ngpr[5] 0000000e\nmem[ffffffff] 0e\n",
    },
];

/// Cases of `stw`.
pub const STW: [Case; 4] = [
    Case {
        word: 0x9064_0004,
        before: "pc 00001000\ngpr[3] 12345678\ngpr[4] 00002000\nmem[00002003] ff\nmem[00002004] ff\nmem[00002005] ff\nmem[00002006] ff\nmem[00002007] ff\nmem[00002008] ff\n",
        after: "pc 00001004\ngpr[3] 12345678\ngpr[4] 00002000\nmem[00002003] ff\nmem[00002004] 12\nmem[00002005] 34\nmem[00002006] 56\nmem[00002007] 78\nmem[00002008] ff\n",
    },
    Case {
        word: 0x9084_fffe,
        before: "pc 00001000\ngpr[4] 00002000\n",
        after: "pc 00001004\ngpr[4] 00002000\nmem[00002000] 20\n",
    },
    Case {
        word: 0x9000_7fff,
        before: "pc 00001000\ngpr[0] 8899aabb\n",
        after: "pc 00001004\ngpr[0] 8899aabb\nmem[00007fff] 88\nmem[00008000] 99\nmem[00008001] aa\nmem[00008002] bb\n",
    },
    Case {
        word: 0x9001_0008,
        before: "pc 00001000\ngpr[0] c3d2e1f0\ngpr[1] 00002000\n",
        after: "pc 00001004\ngpr[0] c3d2e1f0\ngpr[1] 00002000\nmem[00002008] c3\nmem[00002009] d2\nmem[0000200a] e1\nmem[0000200b] f0\n",
    },
];

/// Cases of `stwx`.
pub const STWX: [Case; 3] = [
    Case {
        word: 0x7c64_292e,
        before: "pc 00001000\ngpr[3] 12345678\ngpr[4] 00002000\ngpr[5] fffffffe\n",
        after: "pc 00001004\ngpr[3] 12345678\ngpr[4] 00002000\ngpr[5] fffffffe\nmem[00001ffe] 12\nmem[00001fff] 34\nmem[00002000] 56\nmem[00002001] 78\n",
    },
    Case {
        word: 0x7ca0_292e,
        before: "pc 00001000\ngpr[0] 00000100\ngpr[5] 00003004\n",
        after: "pc 00001004\ngpr[0] 00000100\ngpr[5] 00003004\nmem[00003006] 30\nmem[00003007] 04\n",
    },
    Case {
        word: 0x7c1f_f12e,
        before: "pc 00001000\ngpr[0] a1b2c3d4\ngpr[30] ffffffff\ngpr[31] ffffffff\n",
        after: "pc 00001004\ngpr[0] a1b2c3d4\ngpr[30] ffffffff\ngpr[31] ffffffff\nmem[00000000] c3\nmem[00000001] d4\nmem[fffffffe] a1\nmem[ffffffff] b2\n",
    },
];

/// Cases of `stwu`.
pub const STWU: [Case; 3] = [
    Case {
        word: 0x947f_0004,
        before: "pc 00001000\ngpr[3] 12345678\ngpr[31] 00002000\n",
        after: "pc 00001004\ngpr[3] 12345678\ngpr[31] 00002004\nmem[00002004] 12\nmem[00002005] 34\nmem[00002006] 56\nmem[00002007] 78\n",
    },
    Case {
        word: 0x9421_fff0,
        before: "pc 00001000\ngpr[1] 00002010\n",
        after: "pc 00001004\ngpr[1] 00002000\nmem[00002002] 20\nmem[00002003] 10\n",
    },
    Case {
        word: 0x9404_8000,
        before: "pc 00001000\ngpr[0] a1b2c3d4\ngpr[4] 00007ffe\n",
        after: "pc 00001004\ngpr[0] a1b2c3d4\ngpr[4] fffffffe\nmem[00000000] c3\nmem[00000001] d4\nmem[fffffffe] a1\nmem[ffffffff] b2\n",
    },
];

/// Cases of `stwux`.
pub const STWUX: [Case; 3] = [
    Case {
        word: 0x7c7f_296e,
        before: "pc 00001000\ngpr[3] 12345678\ngpr[5] 00000010\ngpr[31] 00002000\n",
        after: "pc 00001004\ngpr[3] 12345678\ngpr[5] 00000010\ngpr[31] 00002010\nmem[00002010] 12\nmem[00002011] 34\nmem[00002012] 56\nmem[00002013] 78\n",
    },
    Case {
        word: 0x7c84_296e,
        before: "pc 00001000\ngpr[4] 00002000\ngpr[5] fffffff0\n",
        after: "pc 00001004\ngpr[4] 00001ff0\ngpr[5] fffffff0\nmem[00001ff2] 20\n",
    },
    Case {
        word: 0x7ca4_296e,
        before: "pc 00001000\ngpr[4] fffffff0\ngpr[5] 0000000e\n",
        after: "pc 00001004\ngpr[4] fffffffe\ngpr[5] 0000000e\nmem[00000001] 0e\n",
    },
];

/// Cases of `sthbrx`.
pub const STHBRX: [Case; 3] = [
    Case {
        word: 0x7c64_2f2c,
        before: "pc 00001000\ngpr[3] 12345678\ngpr[4] 00002000\ngpr[5] fffffffe\n",
        after: "pc 00001004\ngpr[3] 12345678\ngpr[4] 00002000\ngpr[5] fffffffe\nmem[00001ffe] 78\nmem[00001fff] 56\n",
    },
    Case {
        word: 0x7ca0_2f2c,
        before: "pc 00001000\ngpr[0] 00000100\ngpr[5] 00003004\n",
        after: "pc 00001004\ngpr[0] 00000100\ngpr[5] 00003004\nmem[00003004] 04\nmem[00003005] 30\n",
    },
    Case {
        word: 0x7c1f_f72c,
        before: "pc 00001000\ngpr[0] a1b2c3d4\ngpr[30] ffffffff\ngpr[31] ffffffff\n",
        after: "pc 00001004\ngpr[0] a1b2c3d4\ngpr[30] ffffffff\ngpr[31] ffffffff\nmem[fffffffe] d4\nmem[ffffffff] c3\n",
    },
];

/// Cases of `stwbrx`.
pub const STWBRX: [Case; 3] = [
    Case {
        word: 0x7c64_2d2c,
        before: "pc 00001000\ngpr[3] 12345678\ngpr[4] 00002000\ngpr[5] fffffffe\n",
        after: "pc 00001004\ngpr[3] 12345678\ngpr[4] 00002000\ngpr[5] fffffffe\nmem[00001ffe] 78\nmem[00001fff] 56\nmem[00002000] 34\nmem[00002001] 12\n",
    },
    Case {
        word: 0x7ca0_2d2c,
        before: "pc 00001000\ngpr[0] 00000100\ngpr[5] 00003004\n",
        after: "pc 00001004\ngpr[0] 00000100\ngpr[5] 00003004\nmem[00003004] 04\nmem[00003005] 30\n",
    },
    Case {
        word: 0x7c1f_f52c,
        before: "pc 00001000\ngpr[0] a1b2c3d4\ngpr[30] ffffffff\ngpr[31] ffffffff\n",
        after: "pc 00001004\ngpr[0] a1b2c3d4\ngpr[30] ffffffff\ngpr[31] ffffffff\nmem[00000000] b2\nmem[00000001] a1\nmem[fffffffe] d4\nmem[ffffffff] c3\n",
    },
];

/// Cases of `stmw`.
pub const STMW: [Case; 4] = [
    Case {
        word: 0xbfa1_fffc,
        before: "pc 00001000\ngpr[1] 00002004\ngpr[29] 01020304\ngpr[30] 05060708\ngpr[31] 090a0b0c\n",
        after: "pc 00001004\ngpr[1] 00002004\ngpr[29] 01020304\ngpr[30] 05060708\ngpr[31] 090a0b0c\nmem[00002000] 01\nmem[00002001] 02\nmem[00002002] 03\nmem[00002003] 04\nmem[00002004] 05\nmem[00002005] 06\nmem[00002006] 07\nmem[00002007] 08\nmem[00002008] 09\nmem[00002009] 0a\nmem[0000200a] 0b\nmem[0000200b] 0c\n",
    },
    Case {
        word: 0xbfff_0000,
        before: "pc 00001000\ngpr[31] 00002000\n",
        after: "pc 00001004\ngpr[31] 00002000\nmem[00002002] 20\n",
    },
    Case {
        word: 0xbfc0_fffa,
        before: "pc 00001000\ngpr[0] 00002000\ngpr[30] a1a2a3a4\ngpr[31] b1b2b3b4\n",
        after: "pc 00001004\ngpr[0] 00002000\ngpr[30] a1a2a3a4\ngpr[31] b1b2b3b4\nmem[00000000] b3\nmem[00000001] b4\nmem[fffffffa] a1\nmem[fffffffb] a2\nmem[fffffffc] a3\nmem[fffffffd] a4\nmem[fffffffe] b1\nmem[ffffffff] b2\n",
    },
    Case {
        word: 0xbc02_0000,
        before: "pc 00001000\ngpr[0] 10203040\ngpr[1] 11213141\ngpr[2] ffffffc0\ngpr[3] 13233343\ngpr[4] 14243444\ngpr[5] 15253545\ngpr[6] 16263646\ngpr[7] 17273747\ngpr[8] 18283848\ngpr[9] 19293949\ngpr[10] 1a2a3a4a\ngpr[11] 1b2b3b4b\ngpr[12] 1c2c3c4c\ngpr[13] 1d2d3d4d\ngpr[14] 1e2e3e4e\ngpr[15] 1f2f3f4f\ngpr[16] 20304050\ngpr[17] 21314151\ngpr[18] 22324252\ngpr[19] 23334353\ngpr[20] 24344454\ngpr[21] 25354555\ngpr[22] 26364656\ngpr[23] 27374757\ngpr[24] 28384858\ngpr[25] 29394959\ngpr[26] 2a3a4a5a\ngpr[27] 2b3b4b5b\ngpr[28] 2c3c4c5c\ngpr[29] 2d3d4d5d\ngpr[30] 2e3e4e5e\ngpr[31] 2f3f4f5f\n",
        after: "pc 00001004\ngpr[0] 10203040\ngpr[1] 11213141\ngpr[2] ffffffc0\ngpr[3] 13233343\ngpr[4] 14243444\ngpr[5] 15253545\ngpr[6] 16263646\ngpr[7] 17273747\ngpr[8] 18283848\ngpr[9] 19293949\ngpr[10] 1a2a3a4a\ngpr[11] 1b2b3b4b\ngpr[12] 1c2c3c4c\ngpr[13] 1d2d3d4d\ngpr[14] 1e2e3e4e\ngpr[15] 1f2f3f4f\ngpr[16] 20304050\ngpr[17] 21314151\ngpr[18] 22324252\ngpr[19] 23334353\ngpr[20] 24344454\ngpr[21] 25354555\ngpr[22] 26364656\ngpr[23] 27374757\ngpr[24] 28384858\ngpr[25] 29394959\ngpr[26] 2a3a4a5a\ngpr[27] 2b3b4b5b\ngpr[28] 2c3c4c5c\ngpr[29] 2d3d4d5d\ngpr[30] 2e3e4e5e\ngpr[31] 2f3f4f5f\nmem[00000000] 20\nmem[00000001] 30\nmem[00000002] 40\nmem[00000003] 50\nmem[00000004] 21\nmem[00000005] 31\nmem[00000006] 41\nmem[00000007] 51\nmem[00000008] 22\nmem[00000009] 32\nmem[0000000a] 42\nmem[0000000b] 52\nmem[0000000c] 23\nmem[0000000d] 33\nmem[0000000e] 43\nmem[0000000f] 53\nmem[00000010] 24\nmem[00000011] 34\nmem[00000012] 44\nmem[00000013] 54\nmem[00000014] 25\nmem[00000015] 35\nmem[00000016] 45\nmem[00000017] 55\nmem[00000018] 26\nmem[00000019] 36\nmem[0000001a] 46\nmem[0000001b] 56\nmem[0000001c] 27\nmem[0000001d] 37\nmem[0000001e] 47\nmem[0000001f] 57\nmem[00000020] 28\nmem[00000021] 38\nmem[00000022] 48\nmem[00000023] 58\nmem[00000024] 29\nmem[00000025] 39\nmem[00000026] 49\nmem[00000027] 59\nmem[00000028] 2a\nmem[00000029] 3a\nmem[0000002a] 4a\nmem[0000002b] 5a\nmem[0000002c] 2b\nmem[0000002d] 3b\nmem[0000002e] 4b\nmem[0000002f] 5b\nmem[00000030] 2c\nmem[00000031] 3c\nmem[00000032] 4c\nmem[00000033] 5c\nmem[00000034] 2d\nmem[00000035] 3d\nmem[00000036] 4d\nmem[00000037] 5d\nmem[00000038] 2e\nmem[00000039] 3e\nmem[0000003a] 4e\nmem[0000003b] 5e\nmem[0000003c] 2f\nmem[0000003d] 3f\nmem[0000003e] 4f\nmem[0000003f] 5f\nmem[ffffffc0] 10\nmem[ffffffc1] 20\nmem[ffffffc2] 30\nmem[ffffffc3] 40\nmem[ffffffc4] 11\nmem[ffffffc5] 21\nmem[ffffffc6] 31\nmem[ffffffc7] 41\nmem[ffffffc8] ff\nmem[ffffffc9] ff\nmem[ffffffca] ff\nmem[ffffffcb] c0\nmem[ffffffcc] 13\nmem[ffffffcd] 23\nmem[ffffffce] 33\nmem[ffffffcf] 43\nmem[ffffffd0] 14\nmem[ffffffd1] 24\nmem[ffffffd2] 34\nmem[ffffffd3] 44\nmem[ffffffd4] 15\nmem[ffffffd5] 25\nmem[ffffffd6] 35\nmem[ffffffd7] 45\nmem[ffffffd8] 16\nmem[ffffffd9] 26\nmem[ffffffda] 36\nmem[ffffffdb] 46\nmem[ffffffdc] 17\nmem[ffffffdd] 27\nmem[ffffffde] 37\nmem[ffffffdf] 47\nmem[ffffffe0] 18\nmem[ffffffe1] 28\nmem[ffffffe2] 38\nmem[ffffffe3] 48\nmem[ffffffe4] 19\nmem[ffffffe5] 29\nmem[ffffffe6] 39\nmem[ffffffe7] 49\nmem[ffffffe8] 1a\nmem[ffffffe9] 2a\nmem[ffffffea] 3a\nmem[ffffffeb] 4a\nmem[ffffffec] 1b\nmem[ffffffed] 2b\nmem[ffffffee] 3b\nmem[ffffffef] 4b\nmem[fffffff0] 1c\nmem[fffffff1] 2c\nmem[fffffff2] 3c\nmem[fffffff3] 4c\nmem[fffffff4] 1d\nmem[fffffff5] 2d\nmem[fffffff6] 3d\nmem[fffffff7] 4d\nmem[fffffff8] 1e\nmem[fffffff9] 2e\nmem[fffffffa] 3e\nmem[fffffffb] 4e\nmem[fffffffc] 1f\nmem[fffffffd] 2f\nmem[fffffffe] 3f\nmem[ffffffff] 4f\n",
    },
];
