//! How many cases each mnemonic has.

use super::cases::{REFUSED, immediates, jumps, memory, registers};

const COUNTS: [(&str, usize, usize); 37] = [
    ("lui", jumps::LUI.len(), 4),
    ("auipc", jumps::AUIPC.len(), 4),
    ("jal", jumps::JAL.len(), 4),
    ("jalr", jumps::JALR.len(), 4),
    ("beq", jumps::BEQ.len(), 4),
    ("bne", jumps::BNE.len(), 4),
    ("blt", jumps::BLT.len(), 4),
    ("bge", jumps::BGE.len(), 4),
    ("bltu", jumps::BLTU.len(), 4),
    ("bgeu", jumps::BGEU.len(), 4),
    ("lb", memory::LB.len(), 4),
    ("lh", memory::LH.len(), 4),
    ("lw", memory::LW.len(), 4),
    ("lbu", memory::LBU.len(), 4),
    ("lhu", memory::LHU.len(), 4),
    ("sb", memory::SB.len(), 4),
    ("sh", memory::SH.len(), 4),
    ("sw", memory::SW.len(), 4),
    ("addi", immediates::ADDI.len(), 4),
    ("slti", immediates::SLTI.len(), 4),
    ("sltiu", immediates::SLTIU.len(), 4),
    ("xori", immediates::XORI.len(), 4),
    ("ori", immediates::ORI.len(), 4),
    ("andi", immediates::ANDI.len(), 4),
    ("slli", immediates::SLLI.len(), 4),
    ("srli", immediates::SRLI.len(), 4),
    ("srai", immediates::SRAI.len(), 4),
    ("add", registers::ADD.len(), 4),
    ("sub", registers::SUB.len(), 4),
    ("sll", registers::SLL.len(), 4),
    ("slt", registers::SLT.len(), 4),
    ("sltu", registers::SLTU.len(), 4),
    ("xor", registers::XOR.len(), 4),
    ("srl", registers::SRL.len(), 4),
    ("sra", registers::SRA.len(), 4),
    ("or", registers::OR.len(), 4),
    ("and", registers::AND.len(), 4),
];

#[test]
fn cases_of_each_mnemonic(rt: HostRuntime) {
    for (mnemonic, count, want) in &COUNTS {
        assert_eq!(rt; count, want, "{mnemonic}");
    }
}

#[test]
fn refused_words(rt: HostRuntime) {
    assert_eq!(rt; REFUSED.len(), 115);
}
