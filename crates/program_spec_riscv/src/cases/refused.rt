//! Words that are no instruction.

/// For each guard and each reserved bit a word that it refuses, and words of instructions that are left out.
pub const REFUSED: [u32; 115] = [
    0x0002_90e7, // jalr: funct3 1
    0x0002_a0e7, // jalr: funct3 2
    0x0002_b0e7, // jalr: funct3 3
    0x0002_c0e7, // jalr: funct3 4
    0x0002_d0e7, // jalr: funct3 5
    0x0002_e0e7, // jalr: funct3 6
    0x0002_f0e7, // jalr: funct3 7
    0x0020_a463, // branch: funct3 2
    0x0020_b463, // branch: funct3 3
    0x0081_3083, // load: funct3 3
    0x0081_6083, // load: funct3 6
    0x0081_7083, // load: funct3 7
    0x0020_b423, // store: funct3 3
    0x0020_c423, // store: funct3 4
    0x0020_d423, // store: funct3 5
    0x0020_e423, // store: funct3 6
    0x0020_f423, // store: funct3 7
    0x0231_1093, // slli: bit 25
    0x0431_1093, // slli: bit 26
    0x0831_1093, // slli: bit 27
    0x1031_1093, // slli: bit 28
    0x2031_1093, // slli: bit 29
    0x4031_1093, // slli: bit 30
    0x8031_1093, // slli: bit 31
    0x0231_5093, // srli: bit 25
    0x0431_5093, // srli: bit 26
    0x0831_5093, // srli: bit 27
    0x1031_5093, // srli: bit 28
    0x2031_5093, // srli: bit 29
    0x8031_5093, // srli: bit 31
    0x4231_5093, // srai: bit 25
    0x4431_5093, // srai: bit 26
    0x4831_5093, // srai: bit 27
    0x5031_5093, // srai: bit 28
    0x6031_5093, // srai: bit 29
    0xc031_5093, // srai: bit 31
    0x0231_00b3, // add: bit 25
    0x0431_00b3, // add: bit 26
    0x0831_00b3, // add: bit 27
    0x1031_00b3, // add: bit 28
    0x2031_00b3, // add: bit 29
    0x8031_00b3, // add: bit 31
    0x4231_00b3, // sub: bit 25
    0x4431_00b3, // sub: bit 26
    0x4831_00b3, // sub: bit 27
    0x5031_00b3, // sub: bit 28
    0x6031_00b3, // sub: bit 29
    0xc031_00b3, // sub: bit 31
    0x0231_10b3, // sll: bit 25
    0x0431_10b3, // sll: bit 26
    0x0831_10b3, // sll: bit 27
    0x1031_10b3, // sll: bit 28
    0x2031_10b3, // sll: bit 29
    0x4031_10b3, // sll: bit 30
    0x8031_10b3, // sll: bit 31
    0x0231_20b3, // slt: bit 25
    0x0431_20b3, // slt: bit 26
    0x0831_20b3, // slt: bit 27
    0x1031_20b3, // slt: bit 28
    0x2031_20b3, // slt: bit 29
    0x4031_20b3, // slt: bit 30
    0x8031_20b3, // slt: bit 31
    0x0231_30b3, // sltu: bit 25
    0x0431_30b3, // sltu: bit 26
    0x0831_30b3, // sltu: bit 27
    0x1031_30b3, // sltu: bit 28
    0x2031_30b3, // sltu: bit 29
    0x4031_30b3, // sltu: bit 30
    0x8031_30b3, // sltu: bit 31
    0x0231_40b3, // xor: bit 25
    0x0431_40b3, // xor: bit 26
    0x0831_40b3, // xor: bit 27
    0x1031_40b3, // xor: bit 28
    0x2031_40b3, // xor: bit 29
    0x4031_40b3, // xor: bit 30
    0x8031_40b3, // xor: bit 31
    0x0231_50b3, // srl: bit 25
    0x0431_50b3, // srl: bit 26
    0x0831_50b3, // srl: bit 27
    0x1031_50b3, // srl: bit 28
    0x2031_50b3, // srl: bit 29
    0x8031_50b3, // srl: bit 31
    0x4231_50b3, // sra: bit 25
    0x4431_50b3, // sra: bit 26
    0x4831_50b3, // sra: bit 27
    0x5031_50b3, // sra: bit 28
    0x6031_50b3, // sra: bit 29
    0xc031_50b3, // sra: bit 31
    0x0231_60b3, // or: bit 25
    0x0431_60b3, // or: bit 26
    0x0831_60b3, // or: bit 27
    0x1031_60b3, // or: bit 28
    0x2031_60b3, // or: bit 29
    0x4031_60b3, // or: bit 30
    0x8031_60b3, // or: bit 31
    0x0231_70b3, // and: bit 25
    0x0431_70b3, // and: bit 26
    0x0831_70b3, // and: bit 27
    0x1031_70b3, // and: bit 28
    0x2031_70b3, // and: bit 29
    0x4031_70b3, // and: bit 30
    0x8031_70b3, // and: bit 31
    0x0000_0000, // no opcode
    0xffff_ffff, // no opcode
    0x0ff0_000f, // fence
    0x0000_100f, // fence.i
    0x0000_0073, // ecall
    0x0010_0073, // ebreak
    0xc000_2573, // csrrs
    0x3020_0073, // mret
    0x0005_2087, // flw
    0x0000_003b, // addw
    0x0050_0290, // no 32-bit instruction
    0x0050_0292, // no 32-bit instruction
    0x0050_0291, // no 32-bit instruction
];
