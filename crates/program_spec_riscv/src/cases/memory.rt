//! Loads and stores.

use crate::Case;

/// Cases of `lb`.
pub const LB: [Case; 4] = [
    Case {
        word: 0x0043_0283,
        before: "pc 00001000\nx[6] 00002000\nmem[00002004] 7f\nmem[00002005] 80\nmem[00002006] 81\nmem[00002007] 82\nmem[00002008] 03\n",
        after: "pc 00001004\nx[5] 0000007f\nx[6] 00002000\nmem[00002004] 7f\nmem[00002005] 80\nmem[00002006] 81\nmem[00002007] 82\nmem[00002008] 03\n",
    },
    Case {
        word: 0x8003_0303,
        before: "pc 00001000\nx[6] 00002800\nmem[00002000] 80\nmem[00002001] ff\nmem[00002002] 7e\nmem[00002003] 01\n",
        after: "pc 00001004\nx[6] ffffff80\nmem[00002000] 80\nmem[00002001] ff\nmem[00002002] 7e\nmem[00002003] 01\n",
    },
    Case {
        word: 0x7ff0_0f83,
        before: "pc 00001000\nx[0] 5a5a5a5a\nx[31] 00000005\nmem[000007ff] fe\nmem[00000800] 7f\nmem[00000801] 80\nmem[00000802] 81\n",
        after: "pc 00001004\nx[0] 5a5a5a5a\nx[31] fffffffe\nmem[000007ff] fe\nmem[00000800] 7f\nmem[00000801] 80\nmem[00000802] 81\n",
    },
    Case {
        word: 0x0003_0003,
        before: "pc 00001000\nx[0] 5a5a5a5a\nx[6] 00002000\nmem[00002000] 01\nmem[00002001] 02\nmem[00002002] 03\nmem[00002003] 04\n",
        after: "pc 00001004\nx[0] 5a5a5a5a\nx[6] 00002000\nmem[00002000] 01\nmem[00002001] 02\nmem[00002002] 03\nmem[00002003] 04\n",
    },
];

/// Cases of `lh`.
pub const LH: [Case; 4] = [
    Case {
        word: 0x0043_1283,
        before: "pc 00001000\nx[6] 00002000\nmem[00002004] 7f\nmem[00002005] 80\nmem[00002006] 81\nmem[00002007] 82\nmem[00002008] 03\n",
        after: "pc 00001004\nx[5] ffff807f\nx[6] 00002000\nmem[00002004] 7f\nmem[00002005] 80\nmem[00002006] 81\nmem[00002007] 82\nmem[00002008] 03\n",
    },
    Case {
        word: 0x8003_1303,
        before: "pc 00001000\nx[6] 00002800\nmem[00002000] 80\nmem[00002001] ff\nmem[00002002] 7e\nmem[00002003] 01\n",
        after: "pc 00001004\nx[6] ffffff80\nmem[00002000] 80\nmem[00002001] ff\nmem[00002002] 7e\nmem[00002003] 01\n",
    },
    Case {
        word: 0x7ff0_1f83,
        before: "pc 00001000\nx[0] 5a5a5a5a\nx[31] 00000005\nmem[000007ff] fe\nmem[00000800] 7f\nmem[00000801] 80\nmem[00000802] 81\n",
        after: "pc 00001004\nx[0] 5a5a5a5a\nx[31] 00007ffe\nmem[000007ff] fe\nmem[00000800] 7f\nmem[00000801] 80\nmem[00000802] 81\n",
    },
    Case {
        word: 0x0003_1003,
        before: "pc 00001000\nx[0] 5a5a5a5a\nx[6] 00002000\nmem[00002000] 01\nmem[00002001] 02\nmem[00002002] 03\nmem[00002003] 04\n",
        after: "pc 00001004\nx[0] 5a5a5a5a\nx[6] 00002000\nmem[00002000] 01\nmem[00002001] 02\nmem[00002002] 03\nmem[00002003] 04\n",
    },
];

/// Cases of `lw`.
pub const LW: [Case; 4] = [
    Case {
        word: 0x0043_2283,
        before: "pc 00001000\nx[6] 00002000\nmem[00002004] 7f\nmem[00002005] 80\nmem[00002006] 81\nmem[00002007] 82\nmem[00002008] 03\n",
        after: "pc 00001004\nx[5] 8281807f\nx[6] 00002000\nmem[00002004] 7f\nmem[00002005] 80\nmem[00002006] 81\nmem[00002007] 82\nmem[00002008] 03\n",
    },
    Case {
        word: 0x8003_2303,
        before: "pc 00001000\nx[6] 00002800\nmem[00002000] 80\nmem[00002001] ff\nmem[00002002] 7e\nmem[00002003] 01\n",
        after: "pc 00001004\nx[6] 017eff80\nmem[00002000] 80\nmem[00002001] ff\nmem[00002002] 7e\nmem[00002003] 01\n",
    },
    Case {
        word: 0x7ff0_2f83,
        before: "pc 00001000\nx[0] 5a5a5a5a\nx[31] 00000005\nmem[000007ff] fe\nmem[00000800] 7f\nmem[00000801] 80\nmem[00000802] 81\n",
        after: "pc 00001004\nx[0] 5a5a5a5a\nx[31] 81807ffe\nmem[000007ff] fe\nmem[00000800] 7f\nmem[00000801] 80\nmem[00000802] 81\n",
    },
    Case {
        word: 0x0003_2003,
        before: "pc 00001000\nx[0] 5a5a5a5a\nx[6] 00002000\nmem[00002000] 01\nmem[00002001] 02\nmem[00002002] 03\nmem[00002003] 04\n",
        after: "pc 00001004\nx[0] 5a5a5a5a\nx[6] 00002000\nmem[00002000] 01\nmem[00002001] 02\nmem[00002002] 03\nmem[00002003] 04\n",
    },
];

/// Cases of `lbu`.
pub const LBU: [Case; 4] = [
    Case {
        word: 0x0043_4283,
        before: "pc 00001000\nx[6] 00002000\nmem[00002004] 7f\nmem[00002005] 80\nmem[00002006] 81\nmem[00002007] 82\nmem[00002008] 03\n",
        after: "pc 00001004\nx[5] 0000007f\nx[6] 00002000\nmem[00002004] 7f\nmem[00002005] 80\nmem[00002006] 81\nmem[00002007] 82\nmem[00002008] 03\n",
    },
    Case {
        word: 0x8003_4303,
        before: "pc 00001000\nx[6] 00002800\nmem[00002000] 80\nmem[00002001] ff\nmem[00002002] 7e\nmem[00002003] 01\n",
        after: "pc 00001004\nx[6] 00000080\nmem[00002000] 80\nmem[00002001] ff\nmem[00002002] 7e\nmem[00002003] 01\n",
    },
    Case {
        word: 0x7ff0_4f83,
        before: "pc 00001000\nx[0] 5a5a5a5a\nx[31] 00000005\nmem[000007ff] fe\nmem[00000800] 7f\nmem[00000801] 80\nmem[00000802] 81\n",
        after: "pc 00001004\nx[0] 5a5a5a5a\nx[31] 000000fe\nmem[000007ff] fe\nmem[00000800] 7f\nmem[00000801] 80\nmem[00000802] 81\n",
    },
    Case {
        word: 0x0003_4003,
        before: "pc 00001000\nx[0] 5a5a5a5a\nx[6] 00002000\nmem[00002000] 01\nmem[00002001] 02\nmem[00002002] 03\nmem[00002003] 04\n",
        after: "pc 00001004\nx[0] 5a5a5a5a\nx[6] 00002000\nmem[00002000] 01\nmem[00002001] 02\nmem[00002002] 03\nmem[00002003] 04\n",
    },
];

/// Cases of `lhu`.
pub const LHU: [Case; 4] = [
    Case {
        word: 0x0043_5283,
        before: "pc 00001000\nx[6] 00002000\nmem[00002004] 7f\nmem[00002005] 80\nmem[00002006] 81\nmem[00002007] 82\nmem[00002008] 03\n",
        after: "pc 00001004\nx[5] 0000807f\nx[6] 00002000\nmem[00002004] 7f\nmem[00002005] 80\nmem[00002006] 81\nmem[00002007] 82\nmem[00002008] 03\n",
    },
    Case {
        word: 0x8003_5303,
        before: "pc 00001000\nx[6] 00002800\nmem[00002000] 80\nmem[00002001] ff\nmem[00002002] 7e\nmem[00002003] 01\n",
        after: "pc 00001004\nx[6] 0000ff80\nmem[00002000] 80\nmem[00002001] ff\nmem[00002002] 7e\nmem[00002003] 01\n",
    },
    Case {
        word: 0x7ff0_5f83,
        before: "pc 00001000\nx[0] 5a5a5a5a\nx[31] 00000005\nmem[000007ff] fe\nmem[00000800] 7f\nmem[00000801] 80\nmem[00000802] 81\n",
        after: "pc 00001004\nx[0] 5a5a5a5a\nx[31] 00007ffe\nmem[000007ff] fe\nmem[00000800] 7f\nmem[00000801] 80\nmem[00000802] 81\n",
    },
    Case {
        word: 0x0003_5003,
        before: "pc 00001000\nx[0] 5a5a5a5a\nx[6] 00002000\nmem[00002000] 01\nmem[00002001] 02\nmem[00002002] 03\nmem[00002003] 04\n",
        after: "pc 00001004\nx[0] 5a5a5a5a\nx[6] 00002000\nmem[00002000] 01\nmem[00002001] 02\nmem[00002002] 03\nmem[00002003] 04\n",
    },
];

/// Cases of `sb`.
pub const SB: [Case; 4] = [
    Case {
        word: 0x0053_0223,
        before: "pc 00001000\nx[5] 12345678\nx[6] 00002000\nmem[00002003] ff\nmem[00002004] ff\nmem[00002005] ff\nmem[00002006] ff\nmem[00002007] ff\nmem[00002008] ff\n",
        after: "pc 00001004\nx[5] 12345678\nx[6] 00002000\nmem[00002003] ff\nmem[00002004] 78\nmem[00002005] ff\nmem[00002006] ff\nmem[00002007] ff\nmem[00002008] ff\n",
    },
    Case {
        word: 0x8063_0023,
        before: "pc 00001000\nx[6] 00002800\n",
        after: "pc 00001004\nx[6] 00002800\n",
    },
    Case {
        word: 0xfe00_8fa3,
        before: "pc 00001000\nx[0] 5a5a5a5a\nx[1] 00000000\nmem[00000000] 22\nmem[00000001] 33\nmem[00000002] 44\nmem[00000003] 55\nmem[ffffffff] 11\n",
        after: "pc 00001004\nx[0] 5a5a5a5a\nmem[00000000] 22\nmem[00000001] 33\nmem[00000002] 44\nmem[00000003] 55\n",
    },
    Case {
        word: 0x0220_8023,
        before: "pc 00001000\nx[1] 00003000\nx[2] fafbfcfd\n",
        after: "pc 00001004\nx[1] 00003000\nx[2] fafbfcfd\nmem[00003020] fd\n",
    },
];

/// Cases of `sh`.
pub const SH: [Case; 4] = [
    Case {
        word: 0x0053_1223,
        before: "pc 00001000\nx[5] 12345678\nx[6] 00002000\nmem[00002003] ff\nmem[00002004] ff\nmem[00002005] ff\nmem[00002006] ff\nmem[00002007] ff\nmem[00002008] ff\n",
        after: "pc 00001004\nx[5] 12345678\nx[6] 00002000\nmem[00002003] ff\nmem[00002004] 78\nmem[00002005] 56\nmem[00002006] ff\nmem[00002007] ff\nmem[00002008] ff\n",
    },
    Case {
        word: 0x8063_1023,
        before: "pc 00001000\nx[6] 00002800\n",
        after: "pc 00001004\nx[6] 00002800\nmem[00002001] 28\n",
    },
    Case {
        word: 0xfe00_9fa3,
        before: "pc 00001000\nx[0] 5a5a5a5a\nx[1] 00000000\nmem[00000000] 22\nmem[00000001] 33\nmem[00000002] 44\nmem[00000003] 55\nmem[ffffffff] 11\n",
        after: "pc 00001004\nx[0] 5a5a5a5a\nmem[00000001] 33\nmem[00000002] 44\nmem[00000003] 55\n",
    },
    Case {
        word: 0x0220_9023,
        before: "pc 00001000\nx[1] 00003000\nx[2] fafbfcfd\n",
        after: "pc 00001004\nx[1] 00003000\nx[2] fafbfcfd\nmem[00003020] fd\nmem[00003021] fc\n",
    },
];

/// Cases of `sw`.
pub const SW: [Case; 4] = [
    Case {
        word: 0x0053_2223,
        before: "pc 00001000\nx[5] 12345678\nx[6] 00002000\nmem[00002003] ff\nmem[00002004] ff\nmem[00002005] ff\nmem[00002006] ff\nmem[00002007] ff\nmem[00002008] ff\n",
        after: "pc 00001004\nx[5] 12345678\nx[6] 00002000\nmem[00002003] ff\nmem[00002004] 78\nmem[00002005] 56\nmem[00002006] 34\nmem[00002007] 12\nmem[00002008] ff\n",
    },
    Case {
        word: 0x8063_2023,
        before: "pc 00001000\nx[6] 00002800\n",
        after: "pc 00001004\nx[6] 00002800\nmem[00002001] 28\n",
    },
    Case {
        word: 0xfe00_afa3,
        before: "pc 00001000\nx[0] 5a5a5a5a\nx[1] 00000000\nmem[00000000] 22\nmem[00000001] 33\nmem[00000002] 44\nmem[00000003] 55\nmem[ffffffff] 11\n",
        after: "pc 00001004\nx[0] 5a5a5a5a\nmem[00000003] 55\n",
    },
    Case {
        word: 0x0220_a023,
        before: "pc 00001000\nx[1] 00003000\nx[2] fafbfcfd\n",
        after: "pc 00001004\nx[1] 00003000\nx[2] fafbfcfd\nmem[00003020] fd\nmem[00003021] fc\nmem[00003022] fb\nmem[00003023] fa\n",
    },
];
