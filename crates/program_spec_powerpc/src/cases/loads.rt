//! Loads.

use crate::Case;

/// Cases of `lbz`.
pub const LBZ: [Case; 4] = [
    Case {
        word: 0x8864_0004,
        before: "pc 00001000\ngpr[3] 00000007\ngpr[4] 00002000\nmem[00002004] 80\nmem[00002005] f1\nmem[00002006] 7e\nmem[00002007] 01\nmem[00002008] 02\nmem[00002009] 03\nmem[0000200a] 04\nmem[0000200b] 05\n",
        after: "pc 00001004\ngpr[3] 00000080\ngpr[4] 00002000\nmem[00002004] 80\nmem[00002005] f1\nmem[00002006] 7e\nmem[00002007] 01\nmem[00002008] 02\nmem[00002009] 03\nmem[0000200a] 04\nmem[0000200b] 05\n",
    },
    Case {
        word: 0x8884_fffe,
        before: "pc 00001000\ngpr[4] 00002000\nmem[00001ffe] 80\nmem[00001fff] f1\nmem[00002000] 7e\nmem[00002001] 01\nmem[00002002] 02\nmem[00002003] 03\nmem[00002004] 04\nmem[00002005] 05\n",
        after: "pc 00001004\ngpr[4] 00000080\nmem[00001ffe] 80\nmem[00001fff] f1\nmem[00002000] 7e\nmem[00002001] 01\nmem[00002002] 02\nmem[00002003] 03\nmem[00002004] 04\nmem[00002005] 05\n",
    },
    Case {
        word: 0x8be0_8000,
        before: "pc 00001000\nmem[ffff8000] 7f\nmem[ffff8001] 81\nmem[ffff8002] 82\nmem[ffff8003] 83\n",
        after: "pc 00001004\ngpr[31] 0000007f\nmem[ffff8000] 7f\nmem[ffff8001] 81\nmem[ffff8002] 82\nmem[ffff8003] 83\n",
    },
    Case {
        word: 0x8801_0008,
        before: "pc 00001000\ngpr[1] 00002000\nmem[00002008] ff\nmem[00002009] 7e\nmem[0000200a] 01\nmem[0000200b] 80\n",
        after: "pc 00001004\ngpr[0] 000000ff\ngpr[1] 00002000\nmem[00002008] ff\nmem[00002009] 7e\nmem[0000200a] 01\nmem[0000200b] 80\n",
    },
];

/// Cases of `lbzx`.
pub const LBZX: [Case; 4] = [
    Case {
        word: 0x7c64_28ae,
        before: "pc 00001000\ngpr[4] 00002000\ngpr[5] fffffffe\nmem[00001ffe] 80\nmem[00001fff] f1\nmem[00002000] 7e\nmem[00002001] 01\nmem[00002002] 02\nmem[00002003] 03\nmem[00002004] 04\nmem[00002005] 05\n",
        after: "pc 00001004\ngpr[3] 00000080\ngpr[4] 00002000\ngpr[5] fffffffe\nmem[00001ffe] 80\nmem[00001fff] f1\nmem[00002000] 7e\nmem[00002001] 01\nmem[00002002] 02\nmem[00002003] 03\nmem[00002004] 04\nmem[00002005] 05\n",
    },
    Case {
        word: 0x7ca0_28ae,
        before: "pc 00001000\ngpr[0] 00000100\ngpr[5] 00003000\nmem[00003000] 7f\nmem[00003001] 82\nmem[00003002] 83\nmem[00003003] 84\n",
        after: "pc 00001004\ngpr[0] 00000100\ngpr[5] 0000007f\nmem[00003000] 7f\nmem[00003001] 82\nmem[00003002] 83\nmem[00003003] 84\n",
    },
    Case {
        word: 0x7c1f_00ae,
        before: "pc 00001000\ngpr[0] 00000003\ngpr[31] fffffffe\nmem[00000001] 81\nmem[00000002] 80\nmem[00000003] ff\nmem[00000004] 7e\n",
        after: "pc 00001004\ngpr[0] 00000081\ngpr[31] fffffffe\nmem[00000001] 81\nmem[00000002] 80\nmem[00000003] ff\nmem[00000004] 7e\n",
    },
    Case {
        word: 0x7ffe_f0ae,
        before: "pc 00001000\ngpr[30] 7fffffff\nmem[00000000] 01\nmem[00000001] 80\nmem[fffffffe] ff\nmem[ffffffff] fe\n",
        after: "pc 00001004\ngpr[30] 7fffffff\ngpr[31] 000000ff\nmem[00000000] 01\nmem[00000001] 80\nmem[fffffffe] ff\nmem[ffffffff] fe\n",
    },
];

/// Cases of `lbzu`.
pub const LBZU: [Case; 3] = [
    Case {
        word: 0x8c7f_0004,
        before: "pc 00001000\ngpr[31] 00002000\nmem[00002004] 80\nmem[00002005] f1\nmem[00002006] 7e\nmem[00002007] 01\nmem[00002008] 02\nmem[00002009] 03\nmem[0000200a] 04\nmem[0000200b] 05\n",
        after: "pc 00001004\ngpr[3] 00000080\ngpr[31] 00002004\nmem[00002004] 80\nmem[00002005] f1\nmem[00002006] 7e\nmem[00002007] 01\nmem[00002008] 02\nmem[00002009] 03\nmem[0000200a] 04\nmem[0000200b] 05\n",
    },
    Case {
        word: 0x8fe1_8000,
        before: "pc 00001000\ngpr[1] 00009000\nmem[00001000] 7f\nmem[00001001] 81\nmem[00001002] 82\nmem[00001003] 83\n",
        after: "pc 00001004\ngpr[1] 00001000\ngpr[31] 0000007f\nmem[00001000] 7f\nmem[00001001] 81\nmem[00001002] 82\nmem[00001003] 83\n",
    },
    Case {
        word: 0x8c04_0002,
        before: "pc 00001000\ngpr[4] fffffffe\nmem[00000000] 80\nmem[00000001] f1\nmem[00000002] 7e\nmem[00000003] 01\nmem[00000004] 02\nmem[00000005] 03\nmem[00000006] 04\nmem[00000007] 05\n",
        after: "pc 00001004\ngpr[0] 00000080\nmem[00000000] 80\nmem[00000001] f1\nmem[00000002] 7e\nmem[00000003] 01\nmem[00000004] 02\nmem[00000005] 03\nmem[00000006] 04\nmem[00000007] 05\n",
    },
];

/// Cases of `lbzux`.
pub const LBZUX: [Case; 3] = [
    Case {
        word: 0x7c7f_28ee,
        before: "pc 00001000\ngpr[5] 00000010\ngpr[31] 00002000\nmem[00002010] 80\nmem[00002011] f1\nmem[00002012] 7e\nmem[00002013] 01\nmem[00002014] 02\nmem[00002015] 03\nmem[00002016] 04\nmem[00002017] 05\n",
        after: "pc 00001004\ngpr[3] 00000080\ngpr[5] 00000010\ngpr[31] 00002010\nmem[00002010] 80\nmem[00002011] f1\nmem[00002012] 7e\nmem[00002013] 01\nmem[00002014] 02\nmem[00002015] 03\nmem[00002016] 04\nmem[00002017] 05\n",
    },
    Case {
        word: 0x7ca4_28ee,
        before: "pc 00001000\ngpr[4] 00002000\ngpr[5] fffffff0\nmem[00001ff0] 7f\nmem[00001ff1] 82\nmem[00001ff2] 83\nmem[00001ff3] 84\n",
        after: "pc 00001004\ngpr[4] 00001ff0\ngpr[5] 0000007f\nmem[00001ff0] 7f\nmem[00001ff1] 82\nmem[00001ff2] 83\nmem[00001ff3] 84\n",
    },
    Case {
        word: 0x7c01_08ee,
        before: "pc 00001000\ngpr[1] 80000001\nmem[00000002] 81\nmem[00000003] 80\nmem[00000004] ff\nmem[00000005] 7e\n",
        after: "pc 00001004\ngpr[0] 00000081\ngpr[1] 00000002\nmem[00000002] 81\nmem[00000003] 80\nmem[00000004] ff\nmem[00000005] 7e\n",
    },
];

/// Cases of `lhz`.
pub const LHZ: [Case; 4] = [
    Case {
        word: 0xa064_0004,
        before: "pc 00001000\ngpr[3] 00000007\ngpr[4] 00002000\nmem[00002004] 80\nmem[00002005] f1\nmem[00002006] 7e\nmem[00002007] 01\nmem[00002008] 02\nmem[00002009] 03\nmem[0000200a] 04\nmem[0000200b] 05\n",
        after: "pc 00001004\ngpr[3] 000080f1\ngpr[4] 00002000\nmem[00002004] 80\nmem[00002005] f1\nmem[00002006] 7e\nmem[00002007] 01\nmem[00002008] 02\nmem[00002009] 03\nmem[0000200a] 04\nmem[0000200b] 05\n",
    },
    Case {
        word: 0xa084_fffe,
        before: "pc 00001000\ngpr[4] 00002000\nmem[00001ffe] 80\nmem[00001fff] f1\nmem[00002000] 7e\nmem[00002001] 01\nmem[00002002] 02\nmem[00002003] 03\nmem[00002004] 04\nmem[00002005] 05\n",
        after: "pc 00001004\ngpr[4] 000080f1\nmem[00001ffe] 80\nmem[00001fff] f1\nmem[00002000] 7e\nmem[00002001] 01\nmem[00002002] 02\nmem[00002003] 03\nmem[00002004] 04\nmem[00002005] 05\n",
    },
    Case {
        word: 0xa3e0_8000,
        before: "pc 00001000\nmem[ffff8000] 7f\nmem[ffff8001] 81\nmem[ffff8002] 82\nmem[ffff8003] 83\n",
        after: "pc 00001004\ngpr[31] 00007f81\nmem[ffff8000] 7f\nmem[ffff8001] 81\nmem[ffff8002] 82\nmem[ffff8003] 83\n",
    },
    Case {
        word: 0xa001_0008,
        before: "pc 00001000\ngpr[1] 00002000\nmem[00002008] ff\nmem[00002009] 7e\nmem[0000200a] 01\nmem[0000200b] 80\n",
        after: "pc 00001004\ngpr[0] 0000ff7e\ngpr[1] 00002000\nmem[00002008] ff\nmem[00002009] 7e\nmem[0000200a] 01\nmem[0000200b] 80\n",
    },
];

/// Cases of `lhzx`.
pub const LHZX: [Case; 4] = [
    Case {
        word: 0x7c64_2a2e,
        before: "pc 00001000\ngpr[4] 00002000\ngpr[5] fffffffe\nmem[00001ffe] 80\nmem[00001fff] f1\nmem[00002000] 7e\nmem[00002001] 01\nmem[00002002] 02\nmem[00002003] 03\nmem[00002004] 04\nmem[00002005] 05\n",
        after: "pc 00001004\ngpr[3] 000080f1\ngpr[4] 00002000\ngpr[5] fffffffe\nmem[00001ffe] 80\nmem[00001fff] f1\nmem[00002000] 7e\nmem[00002001] 01\nmem[00002002] 02\nmem[00002003] 03\nmem[00002004] 04\nmem[00002005] 05\n",
    },
    Case {
        word: 0x7ca0_2a2e,
        before: "pc 00001000\ngpr[0] 00000100\ngpr[5] 00003000\nmem[00003000] 7f\nmem[00003001] 82\nmem[00003002] 83\nmem[00003003] 84\n",
        after: "pc 00001004\ngpr[0] 00000100\ngpr[5] 00007f82\nmem[00003000] 7f\nmem[00003001] 82\nmem[00003002] 83\nmem[00003003] 84\n",
    },
    Case {
        word: 0x7c1f_022e,
        before: "pc 00001000\ngpr[0] 00000003\ngpr[31] fffffffe\nmem[00000001] 81\nmem[00000002] 80\nmem[00000003] ff\nmem[00000004] 7e\n",
        after: "pc 00001004\ngpr[0] 00008180\ngpr[31] fffffffe\nmem[00000001] 81\nmem[00000002] 80\nmem[00000003] ff\nmem[00000004] 7e\n",
    },
    Case {
        word: 0x7ffe_f22e,
        before: "pc 00001000\ngpr[30] 7fffffff\nmem[00000000] 01\nmem[00000001] 80\nmem[fffffffe] ff\nmem[ffffffff] fe\n",
        after: "pc 00001004\ngpr[30] 7fffffff\ngpr[31] 0000fffe\nmem[00000000] 01\nmem[00000001] 80\nmem[fffffffe] ff\nmem[ffffffff] fe\n",
    },
];

/// Cases of `lhzu`.
pub const LHZU: [Case; 3] = [
    Case {
        word: 0xa47f_0004,
        before: "pc 00001000\ngpr[31] 00002000\nmem[00002004] 80\nmem[00002005] f1\nmem[00002006] 7e\nmem[00002007] 01\nmem[00002008] 02\nmem[00002009] 03\nmem[0000200a] 04\nmem[0000200b] 05\n",
        after: "pc 00001004\ngpr[3] 000080f1\ngpr[31] 00002004\nmem[00002004] 80\nmem[00002005] f1\nmem[00002006] 7e\nmem[00002007] 01\nmem[00002008] 02\nmem[00002009] 03\nmem[0000200a] 04\nmem[0000200b] 05\n",
    },
    Case {
        word: 0xa7e1_8000,
        before: "pc 00001000\ngpr[1] 00009000\nmem[00001000] 7f\nmem[00001001] 81\nmem[00001002] 82\nmem[00001003] 83\n",
        after: "pc 00001004\ngpr[1] 00001000\ngpr[31] 00007f81\nmem[00001000] 7f\nmem[00001001] 81\nmem[00001002] 82\nmem[00001003] 83\n",
    },
    Case {
        word: 0xa404_0002,
        before: "pc 00001000\ngpr[4] fffffffe\nmem[00000000] 80\nmem[00000001] f1\nmem[00000002] 7e\nmem[00000003] 01\nmem[00000004] 02\nmem[00000005] 03\nmem[00000006] 04\nmem[00000007] 05\n",
        after: "pc 00001004\ngpr[0] 000080f1\nmem[00000000] 80\nmem[00000001] f1\nmem[00000002] 7e\nmem[00000003] 01\nmem[00000004] 02\nmem[00000005] 03\nmem[00000006] 04\nmem[00000007] 05\n",
    },
];

/// Cases of `lhzux`.
pub const LHZUX: [Case; 3] = [
    Case {
        word: 0x7c7f_2a6e,
        before: "pc 00001000\ngpr[5] 00000010\ngpr[31] 00002000\nmem[00002010] 80\nmem[00002011] f1\nmem[00002012] 7e\nmem[00002013] 01\nmem[00002014] 02\nmem[00002015] 03\nmem[00002016] 04\nmem[00002017] 05\n",
        after: "pc 00001004\ngpr[3] 000080f1\ngpr[5] 00000010\ngpr[31] 00002010\nmem[00002010] 80\nmem[00002011] f1\nmem[00002012] 7e\nmem[00002013] 01\nmem[00002014] 02\nmem[00002015] 03\nmem[00002016] 04\nmem[00002017] 05\n",
    },
    Case {
        word: 0x7ca4_2a6e,
        before: "pc 00001000\ngpr[4] 00002000\ngpr[5] fffffff0\nmem[00001ff0] 7f\nmem[00001ff1] 82\nmem[00001ff2] 83\nmem[00001ff3] 84\n",
        after: "pc 00001004\ngpr[4] 00001ff0\ngpr[5] 00007f82\nmem[00001ff0] 7f\nmem[00001ff1] 82\nmem[00001ff2] 83\nmem[00001ff3] 84\n",
    },
    Case {
        word: 0x7c01_0a6e,
        before: "pc 00001000\ngpr[1] 80000001\nmem[00000002] 81\nmem[00000003] 80\nmem[00000004] ff\nmem[00000005] 7e\n",
        after: "pc 00001004\ngpr[0] 00008180\ngpr[1] 00000002\nmem[00000002] 81\nmem[00000003] 80\nmem[00000004] ff\nmem[00000005] 7e\n",
    },
];

/// Cases of `lha`.
pub const LHA: [Case; 4] = [
    Case {
        word: 0xa864_0004,
        before: "pc 00001000\ngpr[3] 00000007\ngpr[4] 00002000\nmem[00002004] 80\nmem[00002005] f1\nmem[00002006] 7e\nmem[00002007] 01\nmem[00002008] 02\nmem[00002009] 03\nmem[0000200a] 04\nmem[0000200b] 05\n",
        after: "pc 00001004\ngpr[3] ffff80f1\ngpr[4] 00002000\nmem[00002004] 80\nmem[00002005] f1\nmem[00002006] 7e\nmem[00002007] 01\nmem[00002008] 02\nmem[00002009] 03\nmem[0000200a] 04\nmem[0000200b] 05\n",
    },
    Case {
        word: 0xa884_fffe,
        before: "pc 00001000\ngpr[4] 00002000\nmem[00001ffe] 80\nmem[00001fff] f1\nmem[00002000] 7e\nmem[00002001] 01\nmem[00002002] 02\nmem[00002003] 03\nmem[00002004] 04\nmem[00002005] 05\n",
        after: "pc 00001004\ngpr[4] ffff80f1\nmem[00001ffe] 80\nmem[00001fff] f1\nmem[00002000] 7e\nmem[00002001] 01\nmem[00002002] 02\nmem[00002003] 03\nmem[00002004] 04\nmem[00002005] 05\n",
    },
    Case {
        word: 0xabe0_8000,
        before: "pc 00001000\nmem[ffff8000] 7f\nmem[ffff8001] 81\nmem[ffff8002] 82\nmem[ffff8003] 83\n",
        after: "pc 00001004\ngpr[31] 00007f81\nmem[ffff8000] 7f\nmem[ffff8001] 81\nmem[ffff8002] 82\nmem[ffff8003] 83\n",
    },
    Case {
        word: 0xa801_0008,
        before: "pc 00001000\ngpr[1] 00002000\nmem[00002008] ff\nmem[00002009] 7e\nmem[0000200a] 01\nmem[0000200b] 80\n",
        after: "pc 00001004\ngpr[0] ffffff7e\ngpr[1] 00002000\nmem[00002008] ff\nmem[00002009] 7e\nmem[0000200a] 01\nmem[0000200b] 80\n",
    },
];

/// Cases of `lhax`.
pub const LHAX: [Case; 4] = [
    Case {
        word: 0x7c64_2aae,
        before: "pc 00001000\ngpr[4] 00002000\ngpr[5] fffffffe\nmem[00001ffe] 80\nmem[00001fff] f1\nmem[00002000] 7e\nmem[00002001] 01\nmem[00002002] 02\nmem[00002003] 03\nmem[00002004] 04\nmem[00002005] 05\n",
        after: "pc 00001004\ngpr[3] ffff80f1\ngpr[4] 00002000\ngpr[5] fffffffe\nmem[00001ffe] 80\nmem[00001fff] f1\nmem[00002000] 7e\nmem[00002001] 01\nmem[00002002] 02\nmem[00002003] 03\nmem[00002004] 04\nmem[00002005] 05\n",
    },
    Case {
        word: 0x7ca0_2aae,
        before: "pc 00001000\ngpr[0] 00000100\ngpr[5] 00003000\nmem[00003000] 7f\nmem[00003001] 82\nmem[00003002] 83\nmem[00003003] 84\n",
        after: "pc 00001004\ngpr[0] 00000100\ngpr[5] 00007f82\nmem[00003000] 7f\nmem[00003001] 82\nmem[00003002] 83\nmem[00003003] 84\n",
    },
    Case {
        word: 0x7c1f_02ae,
        before: "pc 00001000\ngpr[0] 00000003\ngpr[31] fffffffe\nmem[00000001] 81\nmem[00000002] 80\nmem[00000003] ff\nmem[00000004] 7e\n",
        after: "pc 00001004\ngpr[0] ffff8180\ngpr[31] fffffffe\nmem[00000001] 81\nmem[00000002] 80\nmem[00000003] ff\nmem[00000004] 7e\n",
    },
    Case {
        word: 0x7ffe_f2ae,
        before: "pc 00001000\ngpr[30] 7fffffff\nmem[00000000] 01\nmem[00000001] 80\nmem[fffffffe] ff\nmem[ffffffff] fe\n",
        after: "pc 00001004\ngpr[30] 7fffffff\ngpr[31] fffffffe\nmem[00000000] 01\nmem[00000001] 80\nmem[fffffffe] ff\nmem[ffffffff] fe\n",
    },
];

/// Cases of `lhau`.
pub const LHAU: [Case; 3] = [
    Case {
        word: 0xac7f_0004,
        before: "pc 00001000\ngpr[31] 00002000\nmem[00002004] 80\nmem[00002005] f1\nmem[00002006] 7e\nmem[00002007] 01\nmem[00002008] 02\nmem[00002009] 03\nmem[0000200a] 04\nmem[0000200b] 05\n",
        after: "pc 00001004\ngpr[3] ffff80f1\ngpr[31] 00002004\nmem[00002004] 80\nmem[00002005] f1\nmem[00002006] 7e\nmem[00002007] 01\nmem[00002008] 02\nmem[00002009] 03\nmem[0000200a] 04\nmem[0000200b] 05\n",
    },
    Case {
        word: 0xafe1_8000,
        before: "pc 00001000\ngpr[1] 00009000\nmem[00001000] 7f\nmem[00001001] 81\nmem[00001002] 82\nmem[00001003] 83\n",
        after: "pc 00001004\ngpr[1] 00001000\ngpr[31] 00007f81\nmem[00001000] 7f\nmem[00001001] 81\nmem[00001002] 82\nmem[00001003] 83\n",
    },
    Case {
        word: 0xac04_0002,
        before: "pc 00001000\ngpr[4] fffffffe\nmem[00000000] 80\nmem[00000001] f1\nmem[00000002] 7e\nmem[00000003] 01\nmem[00000004] 02\nmem[00000005] 03\nmem[00000006] 04\nmem[00000007] 05\n",
        after: "pc 00001004\ngpr[0] ffff80f1\nmem[00000000] 80\nmem[00000001] f1\nmem[00000002] 7e\nmem[00000003] 01\nmem[00000004] 02\nmem[00000005] 03\nmem[00000006] 04\nmem[00000007] 05\n",
    },
];

/// Cases of `lhaux`.
pub const LHAUX: [Case; 3] = [
    Case {
        word: 0x7c7f_2aee,
        before: "pc 00001000\ngpr[5] 00000010\ngpr[31] 00002000\nmem[00002010] 80\nmem[00002011] f1\nmem[00002012] 7e\nmem[00002013] 01\nmem[00002014] 02\nmem[00002015] 03\nmem[00002016] 04\nmem[00002017] 05\n",
        after: "pc 00001004\ngpr[3] ffff80f1\ngpr[5] 00000010\ngpr[31] 00002010\nmem[00002010] 80\nmem[00002011] f1\nmem[00002012] 7e\nmem[00002013] 01\nmem[00002014] 02\nmem[00002015] 03\nmem[00002016] 04\nmem[00002017] 05\n",
    },
    Case {
        word: 0x7ca4_2aee,
        before: "pc 00001000\ngpr[4] 00002000\ngpr[5] fffffff0\nmem[00001ff0] 7f\nmem[00001ff1] 82\nmem[00001ff2] 83\nmem[00001ff3] 84\n",
        after: "pc 00001004\ngpr[4] 00001ff0\ngpr[5] 00007f82\nmem[00001ff0] 7f\nmem[00001ff1] 82\nmem[00001ff2] 83\nmem[00001ff3] 84\n",
    },
    Case {
        word: 0x7c01_0aee,
        before: "pc 00001000\ngpr[1] 80000001\nmem[00000002] 81\nmem[00000003] 80\nmem[00000004] ff\nmem[00000005] 7e\n",
        after: "pc 00001004\ngpr[0] ffff8180\ngpr[1] 00000002\nmem[00000002] 81\nmem[00000003] 80\nmem[00000004] ff\nmem[00000005] 7e\n",
    },
];

/// Cases of `lwz`.
pub const LWZ: [Case; 4] = [
    Case {
        word: 0x8064_0004,
        before: "pc 00001000\ngpr[3] 00000007\ngpr[4] 00002000\nmem[00002004] 80\nmem[00002005] f1\nmem[00002006] 7e\nmem[00002007] 01\nmem[00002008] 02\nmem[00002009] 03\nmem[0000200a] 04\nmem[0000200b] 05\n",
        after: "pc 00001004\ngpr[3] 80f17e01\ngpr[4] 00002000\nmem[00002004] 80\nmem[00002005] f1\nmem[00002006] 7e\nmem[00002007] 01\nmem[00002008] 02\nmem[00002009] 03\nmem[0000200a] 04\nmem[0000200b] 05\n",
    },
    Case {
        word: 0x8084_fffe,
        before: "pc 00001000\ngpr[4] 00002000\nmem[00001ffe] 80\nmem[00001fff] f1\nmem[00002000] 7e\nmem[00002001] 01\nmem[00002002] 02\nmem[00002003] 03\nmem[00002004] 04\nmem[00002005] 05\n",
        after: "pc 00001004\ngpr[4] 80f17e01\nmem[00001ffe] 80\nmem[00001fff] f1\nmem[00002000] 7e\nmem[00002001] 01\nmem[00002002] 02\nmem[00002003] 03\nmem[00002004] 04\nmem[00002005] 05\n",
    },
    Case {
        word: 0x83e0_8000,
        before: "pc 00001000\nmem[ffff8000] 7f\nmem[ffff8001] 81\nmem[ffff8002] 82\nmem[ffff8003] 83\n",
        after: "pc 00001004\ngpr[31] 7f818283\nmem[ffff8000] 7f\nmem[ffff8001] 81\nmem[ffff8002] 82\nmem[ffff8003] 83\n",
    },
    Case {
        word: 0x8001_0008,
        before: "pc 00001000\ngpr[1] 00002000\nmem[00002008] ff\nmem[00002009] 7e\nmem[0000200a] 01\nmem[0000200b] 80\n",
        after: "pc 00001004\ngpr[0] ff7e0180\ngpr[1] 00002000\nmem[00002008] ff\nmem[00002009] 7e\nmem[0000200a] 01\nmem[0000200b] 80\n",
    },
];

/// Cases of `lwzx`.
pub const LWZX: [Case; 4] = [
    Case {
        word: 0x7c64_282e,
        before: "pc 00001000\ngpr[4] 00002000\ngpr[5] fffffffe\nmem[00001ffe] 80\nmem[00001fff] f1\nmem[00002000] 7e\nmem[00002001] 01\nmem[00002002] 02\nmem[00002003] 03\nmem[00002004] 04\nmem[00002005] 05\n",
        after: "pc 00001004\ngpr[3] 80f17e01\ngpr[4] 00002000\ngpr[5] fffffffe\nmem[00001ffe] 80\nmem[00001fff] f1\nmem[00002000] 7e\nmem[00002001] 01\nmem[00002002] 02\nmem[00002003] 03\nmem[00002004] 04\nmem[00002005] 05\n",
    },
    Case {
        word: 0x7ca0_282e,
        before: "pc 00001000\ngpr[0] 00000100\ngpr[5] 00003000\nmem[00003000] 7f\nmem[00003001] 82\nmem[00003002] 83\nmem[00003003] 84\n",
        after: "pc 00001004\ngpr[0] 00000100\ngpr[5] 7f828384\nmem[00003000] 7f\nmem[00003001] 82\nmem[00003002] 83\nmem[00003003] 84\n",
    },
    Case {
        word: 0x7c1f_002e,
        before: "pc 00001000\ngpr[0] 00000003\ngpr[31] fffffffe\nmem[00000001] 81\nmem[00000002] 80\nmem[00000003] ff\nmem[00000004] 7e\n",
        after: "pc 00001004\ngpr[0] 8180ff7e\ngpr[31] fffffffe\nmem[00000001] 81\nmem[00000002] 80\nmem[00000003] ff\nmem[00000004] 7e\n",
    },
    Case {
        word: 0x7ffe_f02e,
        before: "pc 00001000\ngpr[30] 7fffffff\nmem[00000000] 01\nmem[00000001] 80\nmem[fffffffe] ff\nmem[ffffffff] fe\n",
        after: "pc 00001004\ngpr[30] 7fffffff\ngpr[31] fffe0180\nmem[00000000] 01\nmem[00000001] 80\nmem[fffffffe] ff\nmem[ffffffff] fe\n",
    },
];

/// Cases of `lwzu`.
pub const LWZU: [Case; 3] = [
    Case {
        word: 0x847f_0004,
        before: "pc 00001000\ngpr[31] 00002000\nmem[00002004] 80\nmem[00002005] f1\nmem[00002006] 7e\nmem[00002007] 01\nmem[00002008] 02\nmem[00002009] 03\nmem[0000200a] 04\nmem[0000200b] 05\n",
        after: "pc 00001004\ngpr[3] 80f17e01\ngpr[31] 00002004\nmem[00002004] 80\nmem[00002005] f1\nmem[00002006] 7e\nmem[00002007] 01\nmem[00002008] 02\nmem[00002009] 03\nmem[0000200a] 04\nmem[0000200b] 05\n",
    },
    Case {
        word: 0x87e1_8000,
        before: "pc 00001000\ngpr[1] 00009000\nmem[00001000] 7f\nmem[00001001] 81\nmem[00001002] 82\nmem[00001003] 83\n",
        after: "pc 00001004\ngpr[1] 00001000\ngpr[31] 7f818283\nmem[00001000] 7f\nmem[00001001] 81\nmem[00001002] 82\nmem[00001003] 83\n",
    },
    Case {
        word: 0x8404_0002,
        before: "pc 00001000\ngpr[4] fffffffe\nmem[00000000] 80\nmem[00000001] f1\nmem[00000002] 7e\nmem[00000003] 01\nmem[00000004] 02\nmem[00000005] 03\nmem[00000006] 04\nmem[00000007] 05\n",
        after: "pc 00001004\ngpr[0] 80f17e01\nmem[00000000] 80\nmem[00000001] f1\nmem[00000002] 7e\nmem[00000003] 01\nmem[00000004] 02\nmem[00000005] 03\nmem[00000006] 04\nmem[00000007] 05\n",
    },
];

/// Cases of `lwzux`.
pub const LWZUX: [Case; 3] = [
    Case {
        word: 0x7c7f_286e,
        before: "pc 00001000\ngpr[5] 00000010\ngpr[31] 00002000\nmem[00002010] 80\nmem[00002011] f1\nmem[00002012] 7e\nmem[00002013] 01\nmem[00002014] 02\nmem[00002015] 03\nmem[00002016] 04\nmem[00002017] 05\n",
        after: "pc 00001004\ngpr[3] 80f17e01\ngpr[5] 00000010\ngpr[31] 00002010\nmem[00002010] 80\nmem[00002011] f1\nmem[00002012] 7e\nmem[00002013] 01\nmem[00002014] 02\nmem[00002015] 03\nmem[00002016] 04\nmem[00002017] 05\n",
    },
    Case {
        word: 0x7ca4_286e,
        before: "pc 00001000\ngpr[4] 00002000\ngpr[5] fffffff0\nmem[00001ff0] 7f\nmem[00001ff1] 82\nmem[00001ff2] 83\nmem[00001ff3] 84\n",
        after: "pc 00001004\ngpr[4] 00001ff0\ngpr[5] 7f828384\nmem[00001ff0] 7f\nmem[00001ff1] 82\nmem[00001ff2] 83\nmem[00001ff3] 84\n",
    },
    Case {
        word: 0x7c01_086e,
        before: "pc 00001000\ngpr[1] 80000001\nmem[00000002] 81\nmem[00000003] 80\nmem[00000004] ff\nmem[00000005] 7e\n",
        after: "pc 00001004\ngpr[0] 8180ff7e\ngpr[1] 00000002\nmem[00000002] 81\nmem[00000003] 80\nmem[00000004] ff\nmem[00000005] 7e\n",
    },
];

/// Cases of `lhbrx`.
pub const LHBRX: [Case; 4] = [
    Case {
        word: 0x7c64_2e2c,
        before: "pc 00001000\ngpr[4] 00002000\ngpr[5] fffffffe\nmem[00001ffe] 80\nmem[00001fff] f1\nmem[00002000] 7e\nmem[00002001] 01\nmem[00002002] 02\nmem[00002003] 03\nmem[00002004] 04\nmem[00002005] 05\n",
        after: "pc 00001004\ngpr[3] 0000f180\ngpr[4] 00002000\ngpr[5] fffffffe\nmem[00001ffe] 80\nmem[00001fff] f1\nmem[00002000] 7e\nmem[00002001] 01\nmem[00002002] 02\nmem[00002003] 03\nmem[00002004] 04\nmem[00002005] 05\n",
    },
    Case {
        word: 0x7ca0_2e2c,
        before: "pc 00001000\ngpr[0] 00000100\ngpr[5] 00003000\nmem[00003000] 7f\nmem[00003001] 82\nmem[00003002] 83\nmem[00003003] 84\n",
        after: "pc 00001004\ngpr[0] 00000100\ngpr[5] 0000827f\nmem[00003000] 7f\nmem[00003001] 82\nmem[00003002] 83\nmem[00003003] 84\n",
    },
    Case {
        word: 0x7c1f_062c,
        before: "pc 00001000\ngpr[0] 00000003\ngpr[31] fffffffe\nmem[00000001] 81\nmem[00000002] 80\nmem[00000003] ff\nmem[00000004] 7e\n",
        after: "pc 00001004\ngpr[0] 00008081\ngpr[31] fffffffe\nmem[00000001] 81\nmem[00000002] 80\nmem[00000003] ff\nmem[00000004] 7e\n",
    },
    Case {
        word: 0x7ffe_f62c,
        before: "pc 00001000\ngpr[30] 7fffffff\nmem[00000000] 01\nmem[00000001] 80\nmem[fffffffe] ff\nmem[ffffffff] fe\n",
        after: "pc 00001004\ngpr[30] 7fffffff\ngpr[31] 0000feff\nmem[00000000] 01\nmem[00000001] 80\nmem[fffffffe] ff\nmem[ffffffff] fe\n",
    },
];

/// Cases of `lwbrx`.
pub const LWBRX: [Case; 4] = [
    Case {
        word: 0x7c64_2c2c,
        before: "pc 00001000\ngpr[4] 00002000\ngpr[5] fffffffe\nmem[00001ffe] 80\nmem[00001fff] f1\nmem[00002000] 7e\nmem[00002001] 01\nmem[00002002] 02\nmem[00002003] 03\nmem[00002004] 04\nmem[00002005] 05\n",
        after: "pc 00001004\ngpr[3] 017ef180\ngpr[4] 00002000\ngpr[5] fffffffe\nmem[00001ffe] 80\nmem[00001fff] f1\nmem[00002000] 7e\nmem[00002001] 01\nmem[00002002] 02\nmem[00002003] 03\nmem[00002004] 04\nmem[00002005] 05\n",
    },
    Case {
        word: 0x7ca0_2c2c,
        before: "pc 00001000\ngpr[0] 00000100\ngpr[5] 00003000\nmem[00003000] 7f\nmem[00003001] 82\nmem[00003002] 83\nmem[00003003] 84\n",
        after: "pc 00001004\ngpr[0] 00000100\ngpr[5] 8483827f\nmem[00003000] 7f\nmem[00003001] 82\nmem[00003002] 83\nmem[00003003] 84\n",
    },
    Case {
        word: 0x7c1f_042c,
        before: "pc 00001000\ngpr[0] 00000003\ngpr[31] fffffffe\nmem[00000001] 81\nmem[00000002] 80\nmem[00000003] ff\nmem[00000004] 7e\n",
        after: "pc 00001004\ngpr[0] 7eff8081\ngpr[31] fffffffe\nmem[00000001] 81\nmem[00000002] 80\nmem[00000003] ff\nmem[00000004] 7e\n",
    },
    Case {
        word: 0x7ffe_f42c,
        before: "pc 00001000\ngpr[30] 7fffffff\nmem[00000000] 01\nmem[00000001] 80\nmem[fffffffe] ff\nmem[ffffffff] fe\n",
        after: "pc 00001004\ngpr[30] 7fffffff\ngpr[31] 8001feff\nmem[00000000] 01\nmem[00000001] 80\nmem[fffffffe] ff\nmem[ffffffff] fe\n",
    },
];

/// Cases of `lmw`.
pub const LMW: [Case; 4] = [
    Case {
        word: 0xbba1_0000,
        before: "pc 00001000\ngpr[1] 00002000\nmem[00002000] 01\nmem[00002001] 02\nmem[00002002] 03\nmem[00002003] 04\nmem[00002004] 05\nmem[00002005] 06\nmem[00002006] 07\nmem[00002007] 08\nmem[00002008] 09\nmem[00002009] 0a\nmem[0000200a] 0b\nmem[0000200b] 0c\n",
        after: "pc 00001004\ngpr[1] 00002000\ngpr[29] 01020304\ngpr[30] 05060708\ngpr[31] 090a0b0c\nmem[00002000] 01\nmem[00002001] 02\nmem[00002002] 03\nmem[00002003] 04\nmem[00002004] 05\nmem[00002005] 06\nmem[00002006] 07\nmem[00002007] 08\nmem[00002008] 09\nmem[00002009] 0a\nmem[0000200a] 0b\nmem[0000200b] 0c\n",
    },
    Case {
        word: 0xbbfe_fffc,
        before: "pc 00001000\ngpr[30] 00002000\ngpr[31] 00000005\nmem[00001ffc] 81\nmem[00001ffd] 02\nmem[00001ffe] 03\nmem[00001fff] 04\n",
        after: "pc 00001004\ngpr[30] 00002000\ngpr[31] 81020304\nmem[00001ffc] 81\nmem[00001ffd] 02\nmem[00001ffe] 03\nmem[00001fff] 04\n",
    },
    Case {
        word: 0xbbe0_0008,
        before: "pc 00001000\ngpr[0] 00002000\nmem[00000008] 81\nmem[00000009] 02\nmem[0000000a] 03\nmem[0000000b] 04\n",
        after: "pc 00001004\ngpr[0] 00002000\ngpr[31] 81020304\nmem[00000008] 81\nmem[00000009] 02\nmem[0000000a] 03\nmem[0000000b] 04\n",
    },
    Case {
        word: 0xb820_0100,
        before: "pc 00001000\ngpr[0] dead0000\ngpr[1] dead0001\ngpr[2] dead0002\ngpr[3] dead0003\ngpr[4] dead0004\ngpr[5] dead0005\ngpr[6] dead0006\ngpr[7] dead0007\ngpr[8] dead0008\ngpr[9] dead0009\ngpr[10] dead000a\ngpr[11] dead000b\ngpr[12] dead000c\ngpr[13] dead000d\ngpr[14] dead000e\ngpr[15] dead000f\ngpr[16] dead0010\ngpr[17] dead0011\ngpr[18] dead0012\ngpr[19] dead0013\ngpr[20] dead0014\ngpr[21] dead0015\ngpr[22] dead0016\ngpr[23] dead0017\ngpr[24] dead0018\ngpr[25] dead0019\ngpr[26] dead001a\ngpr[27] dead001b\ngpr[28] dead001c\ngpr[29] dead001d\ngpr[30] dead001e\ngpr[31] dead001f\nmem[00000100] 80\nmem[00000101] 01\nmem[00000102] 00\nmem[00000103] 01\nmem[00000104] 80\nmem[00000105] 02\nmem[00000106] 00\nmem[00000107] 02\nmem[00000108] 80\nmem[00000109] 03\nmem[0000010a] 00\nmem[0000010b] 03\nmem[0000010c] 80\nmem[0000010d] 04\nmem[0000010e] 00\nmem[0000010f] 04\nmem[00000110] 80\nmem[00000111] 05\nmem[00000112] 00\nmem[00000113] 05\nmem[00000114] 80\nmem[00000115] 06\nmem[00000116] 00\nmem[00000117] 06\nmem[00000118] 80\nmem[00000119] 07\nmem[0000011a] 00\nmem[0000011b] 07\nmem[0000011c] 80\nmem[0000011d] 08\nmem[0000011e] 00\nmem[0000011f] 08\nmem[00000120] 80\nmem[00000121] 09\nmem[00000122] 00\nmem[00000123] 09\nmem[00000124] 80\nmem[00000125] 0a\nmem[00000126] 00\nmem[00000127] 0a\nmem[00000128] 80\nmem[00000129] 0b\nmem[0000012a] 00\nmem[0000012b] 0b\nmem[0000012c] 80\nmem[0000012d] 0c\nmem[0000012e] 00\nmem[0000012f] 0c\nmem[00000130] 80\nmem[00000131] 0d\nmem[00000132] 00\nmem[00000133] 0d\nmem[00000134] 80\nmem[00000135] 0e\nmem[00000136] 00\nmem[00000137] 0e\nmem[00000138] 80\nmem[00000139] 0f\nmem[0000013a] 00\nmem[0000013b] 0f\nmem[0000013c] 80\nmem[0000013d] 10\nmem[0000013e] 00\nmem[0000013f] 10\nmem[00000140] 80\nmem[00000141] 11\nmem[00000142] 00\nmem[00000143] 11\nmem[00000144] 80\nmem[00000145] 12\nmem[00000146] 00\nmem[00000147] 12\nmem[00000148] 80\nmem[00000149] 13\nmem[0000014a] 00\nmem[0000014b] 13\nmem[0000014c] 80\nmem[0000014d] 14\nmem[0000014e] 00\nmem[0000014f] 14\nmem[00000150] 80\nmem[00000151] 15\nmem[00000152] 00\nmem[00000153] 15\nmem[00000154] 80\nmem[00000155] 16\nmem[00000156] 00\nmem[00000157] 16\nmem[00000158] 80\nmem[00000159] 17\nmem[0000015a] 00\nmem[0000015b] 17\nmem[0000015c] 80\nmem[0000015d] 18\nmem[0000015e] 00\nmem[0000015f] 18\nmem[00000160] 80\nmem[00000161] 19\nmem[00000162] 00\nmem[00000163] 19\nmem[00000164] 80\nmem[00000165] 1a\nmem[00000166] 00\nmem[00000167] 1a\nmem[00000168] 80\nmem[00000169] 1b\nmem[0000016a] 00\nmem[0000016b] 1b\nmem[0000016c] 80\nmem[0000016d] 1c\nmem[0000016e] 00\nmem[0000016f] 1c\nmem[00000170] 80\nmem[00000171] 1d\nmem[00000172] 00\nmem[00000173] 1d\nmem[00000174] 80\nmem[00000175] 1e\nmem[00000176] 00\nmem[00000177] 1e\nmem[00000178] 80\nmem[00000179] 1f\nmem[0000017a] 00\nmem[0000017b] 1f\n",
        after: "pc 00001004\ngpr[0] dead0000\ngpr[1] 80010001\ngpr[2] 80020002\ngpr[3] 80030003\ngpr[4] 80040004\ngpr[5] 80050005\ngpr[6] 80060006\ngpr[7] 80070007\ngpr[8] 80080008\ngpr[9] 80090009\ngpr[10] 800a000a\ngpr[11] 800b000b\ngpr[12] 800c000c\ngpr[13] 800d000d\ngpr[14] 800e000e\ngpr[15] 800f000f\ngpr[16] 80100010\ngpr[17] 80110011\ngpr[18] 80120012\ngpr[19] 80130013\ngpr[20] 80140014\ngpr[21] 80150015\ngpr[22] 80160016\ngpr[23] 80170017\ngpr[24] 80180018\ngpr[25] 80190019\ngpr[26] 801a001a\ngpr[27] 801b001b\ngpr[28] 801c001c\ngpr[29] 801d001d\ngpr[30] 801e001e\ngpr[31] 801f001f\nmem[00000100] 80\nmem[00000101] 01\nmem[00000103] 01\nmem[00000104] 80\nmem[00000105] 02\nmem[00000107] 02\nmem[00000108] 80\nmem[00000109] 03\nmem[0000010b] 03\nmem[0000010c] 80\nmem[0000010d] 04\nmem[0000010f] 04\nmem[00000110] 80\nmem[00000111] 05\nmem[00000113] 05\nmem[00000114] 80\nmem[00000115] 06\nmem[00000117] 06\nmem[00000118] 80\nmem[00000119] 07\nmem[0000011b] 07\nmem[0000011c] 80\nmem[0000011d] 08\nmem[0000011f] 08\nmem[00000120] 80\nmem[00000121] 09\nmem[00000123] 09\nmem[00000124] 80\nmem[00000125] 0a\nmem[00000127] 0a\nmem[00000128] 80\nmem[00000129] 0b\nmem[0000012b] 0b\nmem[0000012c] 80\nmem[0000012d] 0c\nmem[0000012f] 0c\nmem[00000130] 80\nmem[00000131] 0d\nmem[00000133] 0d\nmem[00000134] 80\nmem[00000135] 0e\nmem[00000137] 0e\nmem[00000138] 80\nmem[00000139] 0f\nmem[0000013b] 0f\nmem[0000013c] 80\nmem[0000013d] 10\nmem[0000013f] 10\nmem[00000140] 80\nmem[00000141] 11\nmem[00000143] 11\nmem[00000144] 80\nmem[00000145] 12\nmem[00000147] 12\nmem[00000148] 80\nmem[00000149] 13\nmem[0000014b] 13\nmem[0000014c] 80\nmem[0000014d] 14\nmem[0000014f] 14\nmem[00000150] 80\nmem[00000151] 15\nmem[00000153] 15\nmem[00000154] 80\nmem[00000155] 16\nmem[00000157] 16\nmem[00000158] 80\nmem[00000159] 17\nmem[0000015b] 17\nmem[0000015c] 80\nmem[0000015d] 18\nmem[0000015f] 18\nmem[00000160] 80\nmem[00000161] 19\nmem[00000163] 19\nmem[00000164] 80\nmem[00000165] 1a\nmem[00000167] 1a\nmem[00000168] 80\nmem[00000169] 1b\nmem[0000016b] 1b\nmem[0000016c] 80\nmem[0000016d] 1c\nmem[0000016f] 1c\nmem[00000170] 80\nmem[00000171] 1d\nmem[00000173] 1d\nmem[00000174] 80\nmem[00000175] 1e\nmem[00000177] 1e\nmem[00000178] 80\nmem[00000179] 1f\nmem[0000017b] 1f\n",
    },
];
