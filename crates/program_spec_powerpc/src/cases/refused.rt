//! Words that are no instruction.

/// For each guard and each reserved bit a word that it refuses, and words of instructions that are left out.
pub const REFUSED: [u32; 231] = [
    0x8c60_0004, // lbzu: RA is 0
    0x8c63_0004, // lbzu: RA is RT
    0xa460_0004, // lhzu: RA is 0
    0xa463_0004, // lhzu: RA is RT
    0xac60_0004, // lhau: RA is 0
    0xac63_0004, // lhau: RA is RT
    0x8460_0004, // lwzu: RA is 0
    0x8463_0004, // lwzu: RA is RT
    0x7c60_28ee, // lbzux: RA is 0
    0x7fff_28ee, // lbzux: RA is RT
    0x7c60_2a6e, // lhzux: RA is 0
    0x7fff_2a6e, // lhzux: RA is RT
    0x7c60_2aee, // lhaux: RA is 0
    0x7fff_2aee, // lhaux: RA is RT
    0x7c60_286e, // lwzux: RA is 0
    0x7fff_286e, // lwzux: RA is RT
    0x9c60_0004, // stbu: RA is 0
    0xb460_0004, // sthu: RA is 0
    0x9460_0004, // stwu: RA is 0
    0x7c60_29ee, // stbux: RA is 0
    0x7c60_2b6e, // sthux: RA is 0
    0x7c60_296e, // stwux: RA is 0
    0xb800_0000, // lmw: RA is not below RT
    0xb863_0000, // lmw: RA is not below RT
    0xb864_0000, // lmw: RA is not below RT
    0xbbff_0000, // lmw: RA is not below RT
    0xbbdf_0000, // lmw: RA is not below RT
    0x2cc4_0005, // cmpi: bit 9
    0x2ca4_0005, // cmpi: bit 10
    0x28c4_0005, // cmpli: bit 9
    0x28a4_0005, // cmpli: bit 10
    0x7cc4_2800, // cmp: bit 9
    0x7ca4_2800, // cmp: bit 10
    0x7c84_2801, // cmp: bit 31
    0x7cc4_2840, // cmpl: bit 9
    0x7ca4_2840, // cmpl: bit 10
    0x7c84_2841, // cmpl: bit 31
    0x4cc8_0000, // mcrf: bit 9
    0x4ca8_0000, // mcrf: bit 10
    0x4c8a_0000, // mcrf: bit 14
    0x4c89_0000, // mcrf: bit 15
    0x4c88_8000, // mcrf: bit 16
    0x4c88_4000, // mcrf: bit 17
    0x4c88_2000, // mcrf: bit 18
    0x4c88_1000, // mcrf: bit 19
    0x4c88_0800, // mcrf: bit 20
    0x4c88_0001, // mcrf: bit 31
    0x4c22_1a03, // crand: bit 31
    0x4c22_1b83, // cror: bit 31
    0x4c22_1983, // crxor: bit 31
    0x4c22_19c3, // crnand: bit 31
    0x4c22_1843, // crnor: bit 31
    0x4c22_1a43, // creqv: bit 31
    0x4c22_1903, // crandc: bit 31
    0x4c22_1b43, // crorc: bit 31
    0x4e80_8020, // bclr: bit 16
    0x4e80_4020, // bclr: bit 17
    0x4e80_2020, // bclr: bit 18
    0x4e80_1020, // bclr: bit 19
    0x4e80_0820, // bclr: bit 20
    0x4e80_8420, // bcctr: bit 16
    0x4e80_4420, // bcctr: bit 17
    0x4e80_2420, // bcctr: bit 18
    0x4e80_1420, // bcctr: bit 19
    0x4e80_0c20, // bcctr: bit 20
    0x4e00_8021, // bclr: bit 16
    0x4e00_4021, // bclr: bit 17
    0x4e00_2021, // bclr: bit 18
    0x4e00_1021, // bclr: bit 19
    0x4e00_0821, // bclr: bit 20
    0x4c00_0420, // bcctr: BO 0 decrements CTR
    0x4c40_0420, // bcctr: BO 2 decrements CTR
    0x4d00_0420, // bcctr: BO 8 decrements CTR
    0x4d40_0420, // bcctr: BO 10 decrements CTR
    0x4e00_0420, // bcctr: BO 16 decrements CTR
    0x4e40_0420, // bcctr: BO 18 decrements CTR
    0x4f00_0420, // bcctr: BO 24 decrements CTR
    0x4f40_0420, // bcctr: BO 26 decrements CTR
    0x7c64_282f, // lwzx: bit 31
    0x7c64_286f, // lwzux: bit 31
    0x7c64_28af, // lbzx: bit 31
    0x7c64_28ef, // lbzux: bit 31
    0x7c64_292f, // stwx: bit 31
    0x7c64_296f, // stwux: bit 31
    0x7c64_29af, // stbx: bit 31
    0x7c64_29ef, // stbux: bit 31
    0x7c64_2a2f, // lhzx: bit 31
    0x7c64_2a6f, // lhzux: bit 31
    0x7c64_2aaf, // lhax: bit 31
    0x7c64_2aef, // lhaux: bit 31
    0x7c64_2b2f, // sthx: bit 31
    0x7c64_2b6f, // sthux: bit 31
    0x7c64_2c2d, // lwbrx: bit 31
    0x7c64_2d2d, // stwbrx: bit 31
    0x7c64_2e2d, // lhbrx: bit 31
    0x7c64_2f2d, // sthbrx: bit 31
    0x7c64_80d0, // neg: bit 16
    0x7c64_40d0, // neg: bit 17
    0x7c64_20d0, // neg: bit 18
    0x7c64_10d0, // neg: bit 19
    0x7c64_08d0, // neg: bit 20
    0x7c64_81d4, // addme: bit 16
    0x7c64_41d4, // addme: bit 17
    0x7c64_21d4, // addme: bit 18
    0x7c64_11d4, // addme: bit 19
    0x7c64_09d4, // addme: bit 20
    0x7c64_81d0, // subfme: bit 16
    0x7c64_41d0, // subfme: bit 17
    0x7c64_21d0, // subfme: bit 18
    0x7c64_11d0, // subfme: bit 19
    0x7c64_09d0, // subfme: bit 20
    0x7c64_8194, // addze: bit 16
    0x7c64_4194, // addze: bit 17
    0x7c64_2194, // addze: bit 18
    0x7c64_1194, // addze: bit 19
    0x7c64_0994, // addze: bit 20
    0x7c64_8190, // subfze: bit 16
    0x7c64_4190, // subfze: bit 17
    0x7c64_2190, // subfze: bit 18
    0x7c64_1190, // subfze: bit 19
    0x7c64_0990, // subfze: bit 20
    0x7c64_2c16, // mulhwu: bit 21
    0x7c64_2c96, // mulhw: bit 21
    0x7c64_8774, // extsb: bit 16
    0x7c64_4774, // extsb: bit 17
    0x7c64_2774, // extsb: bit 18
    0x7c64_1774, // extsb: bit 19
    0x7c64_0f74, // extsb: bit 20
    0x7c64_8734, // extsh: bit 16
    0x7c64_4734, // extsh: bit 17
    0x7c64_2734, // extsh: bit 18
    0x7c64_1734, // extsh: bit 19
    0x7c64_0f34, // extsh: bit 20
    0x7c64_8034, // cntlzw: bit 16
    0x7c64_4034, // cntlzw: bit 17
    0x7c64_2034, // cntlzw: bit 18
    0x7c64_1034, // cntlzw: bit 19
    0x7c64_0834, // cntlzw: bit 20
    0x7c61_83a6, // mtxer: bit 16
    0x7c61_43a6, // mtxer: bit 17
    0x7c61_23a6, // mtxer: bit 18
    0x7c61_13a6, // mtxer: bit 19
    0x7c61_0ba6, // mtxer: bit 20
    0x7c61_03a7, // mtxer: bit 31
    0x7c68_83a6, // mtlr: bit 16
    0x7c68_43a6, // mtlr: bit 17
    0x7c68_23a6, // mtlr: bit 18
    0x7c68_13a6, // mtlr: bit 19
    0x7c68_0ba6, // mtlr: bit 20
    0x7c68_03a7, // mtlr: bit 31
    0x7c69_83a6, // mtctr: bit 16
    0x7c69_43a6, // mtctr: bit 17
    0x7c69_23a6, // mtctr: bit 18
    0x7c69_13a6, // mtctr: bit 19
    0x7c69_0ba6, // mtctr: bit 20
    0x7c69_03a7, // mtctr: bit 31
    0x7c61_82a6, // mfxer: bit 16
    0x7c61_42a6, // mfxer: bit 17
    0x7c61_22a6, // mfxer: bit 18
    0x7c61_12a6, // mfxer: bit 19
    0x7c61_0aa6, // mfxer: bit 20
    0x7c61_02a7, // mfxer: bit 31
    0x7c68_82a6, // mflr: bit 16
    0x7c68_42a6, // mflr: bit 17
    0x7c68_22a6, // mflr: bit 18
    0x7c68_12a6, // mflr: bit 19
    0x7c68_0aa6, // mflr: bit 20
    0x7c68_02a7, // mflr: bit 31
    0x7c69_82a6, // mfctr: bit 16
    0x7c69_42a6, // mfctr: bit 17
    0x7c69_22a6, // mfctr: bit 18
    0x7c69_12a6, // mfctr: bit 19
    0x7c69_0aa6, // mfctr: bit 20
    0x7c69_02a7, // mfctr: bit 31
    0x7c78_0120, // mtcrf: bit 11
    0x7c68_0920, // mtcrf: bit 20
    0x7c68_0121, // mtcrf: bit 31
    0x7c70_0026, // mfcr: bit 11
    0x7c68_0026, // mfcr: bit 12
    0x7c64_0026, // mfcr: bit 13
    0x7c62_0026, // mfcr: bit 14
    0x7c61_0026, // mfcr: bit 15
    0x7c60_8026, // mfcr: bit 16
    0x7c60_4026, // mfcr: bit 17
    0x7c60_2026, // mfcr: bit 18
    0x7c60_1026, // mfcr: bit 19
    0x7c60_0826, // mfcr: bit 20
    0x7c60_0027, // mfcr: bit 31
    0x7c60_03a6, // mtspr 0
    0x7c62_03a6, // mtspr 2
    0x7c6a_03a6, // mtspr 10
    0x7c7a_03a6, // mtspr 26
    0x7c7f_03a6, // mtspr 31
    0x7c60_02a6, // mfspr 0
    0x7c62_02a6, // mfspr 2
    0x7c6a_02a6, // mfspr 10
    0x7c7a_02a6, // mfspr 26
    0x7c7f_02a6, // mfspr 31
    0x0000_0000, // no opcode
    0x4400_0002, // sc
    0x0c83_0000, // twi
    0x7c83_2808, // tw
    0x7c64_2828, // lwarx
    0x7c64_292d, // stwcx.
    0x7c64_042a, // lswx
    0x7c64_24aa, // lswi
    0x7c64_052a, // stswx
    0x7c64_25aa, // stswi
    0x7c00_04ac, // sync
    0x7c00_06ac, // eieio
    0x4c00_012c, // isync
    0x7c00_28ac, // dcbf
    0x7c00_286c, // dcbst
    0x7c00_222c, // dcbt
    0x7c00_27ec, // dcbz
    0x7c00_27ac, // icbi
    0x7c6c_42e6, // mftb
    0x7c80_0400, // mcrxr
    0x7c60_00a6, // mfmsr
    0x7c60_0124, // mtmsr
    0x4c00_0064, // rfi
    0xc064_0000, // lfs
    0xd064_0000, // stfs
    0xfc64_282a, // fadd
    0x1064_2a80, // a vector instruction
    0xe864_0000, // ld
    0xf864_0000, // std
    0x7864_0000, // rldicl
    0x7c64_03fe, // no extended opcode
    0x4c00_0002, // no extended opcode
    0xffff_ffff, // no opcode
];
