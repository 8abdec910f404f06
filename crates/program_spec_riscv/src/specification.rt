//! The text.
ghost use Rattle.std.specs.Prelude.{◌≡◌};

/// The specification of RV32I, the base integer instructions of the RISC-V unprivileged manual.
///
/// It is a machine: it has an instruction type, a state, `interpInstr` and a decode section for words as numbers, whose
/// bytes stand in memory with the least significant first.
pub const TEXT: &str = "\
// RV32I: the base integer instructions of the RISC-V unprivileged manual.
//
// Instructions have the names of the manual and stand in its order. Register 0 is the number 0: it is not read from the
// map, and a write to it is dropped. An instruction first reads rs1 as a, then rs2 as b. It ends with the next state:
// the next address, the registers and the memory. The pieces of an offset that the manual scatters over the word are
// named by the bit of the offset where they begin.

map Reg [INT5 -> INT32] default 0;
map Mem [INT32 -> INT8] default 0;
type State = State(pc: INT32, x: Reg, mem: Mem);

type Instr =
// Upper immediates.
    Lui(rd: INT5, imm: INT20) | Auipc(rd: INT5, imm: INT20)
// Jumps.
  | Jal(rd: INT5, j20: INT1, j10: INT10, j11: INT1, j19: INT8)
  | Jalr(rd: INT5, rs1: INT5, imm: INT12)
// Branches.
  | Beq(b12: INT1, b10: INT6, rs1: INT5, rs2: INT5, b4: INT4, b11: INT1)
  | Bne(b12: INT1, b10: INT6, rs1: INT5, rs2: INT5, b4: INT4, b11: INT1)
  | Blt(b12: INT1, b10: INT6, rs1: INT5, rs2: INT5, b4: INT4, b11: INT1)
  | Bge(b12: INT1, b10: INT6, rs1: INT5, rs2: INT5, b4: INT4, b11: INT1)
  | Bltu(b12: INT1, b10: INT6, rs1: INT5, rs2: INT5, b4: INT4, b11: INT1)
  | Bgeu(b12: INT1, b10: INT6, rs1: INT5, rs2: INT5, b4: INT4, b11: INT1)
// Loads.
  | Lb(rd: INT5, rs1: INT5, imm: INT12) | Lh(rd: INT5, rs1: INT5, imm: INT12) | Lw(rd: INT5, rs1: INT5, imm: INT12)
  | Lbu(rd: INT5, rs1: INT5, imm: INT12) | Lhu(rd: INT5, rs1: INT5, imm: INT12)
// Stores.
  | Sb(hi: INT7, rs1: INT5, rs2: INT5, lo: INT5) | Sh(hi: INT7, rs1: INT5, rs2: INT5, lo: INT5)
  | Sw(hi: INT7, rs1: INT5, rs2: INT5, lo: INT5)
// Arithmetic on a register and an immediate.
  | Addi(rd: INT5, rs1: INT5, imm: INT12) | Slti(rd: INT5, rs1: INT5, imm: INT12)
  | Sltiu(rd: INT5, rs1: INT5, imm: INT12) | Xori(rd: INT5, rs1: INT5, imm: INT12)
  | Ori(rd: INT5, rs1: INT5, imm: INT12) | Andi(rd: INT5, rs1: INT5, imm: INT12)
  | Slli(rd: INT5, rs1: INT5, sh: INT5) | Srli(rd: INT5, rs1: INT5, sh: INT5) | Srai(rd: INT5, rs1: INT5, sh: INT5)
// Arithmetic on two registers.
  | Add(rd: INT5, rs1: INT5, rs2: INT5) | Sub(rd: INT5, rs1: INT5, rs2: INT5) | Sll(rd: INT5, rs1: INT5, rs2: INT5)
  | Slt(rd: INT5, rs1: INT5, rs2: INT5) | Sltu(rd: INT5, rs1: INT5, rs2: INT5) | Xor(rd: INT5, rs1: INT5, rs2: INT5)
  | Srl(rd: INT5, rs1: INT5, rs2: INT5) | Sra(rd: INT5, rs1: INT5, rs2: INT5) | Or(rd: INT5, rs1: INT5, rs2: INT5)
  | And(rd: INT5, rs1: INT5, rs2: INT5);

// The offset of a branch: bits 12, 11, 10 to 5 and 4 to 1 of a signed number of 13 bits.
fun offset(b12: INT1, b11: INT1, b10: INT6, b4: INT4) -> INT32 =
  shl(sext(b12, 32), 12:32) + shl(zext(b11, 32), 11:32) + shl(zext(b10, 32), 5:32) + shl(zext(b4, 32), 1:32);

// Two bytes as a half-word, and four as a word, the least significant first.
fun half(b0: INT8, b1: INT8) -> INT16 = zext(b0, 16) + shl(zext(b1, 16), 8:16);
fun word(b0: INT8, b1: INT8, b2: INT8, b3: INT8) -> INT32 =
  zext(b0, 32) + shl(zext(b1, 32), 8:32) + shl(zext(b2, 32), 16:32) + shl(zext(b3, 32), 24:32);

fun interpInstr(i: Instr, s: State) -> State = match s with { State(pc, x, mem) => match i with {

  // Upper immediates.
  Lui(rd, imm) => State(pc + 4:32, if rd == 0:5 then x else x[rd := shl(zext(imm, 32), 12:32)], mem);
  Auipc(rd, imm) => State(pc + 4:32, if rd == 0:5 then x else x[rd := pc + shl(zext(imm, 32), 12:32)], mem);

  // Jumps.
  Jal(rd, j20, j10, j11, j19) =>
    State(pc + shl(sext(j20, 32), 20:32) + shl(zext(j19, 32), 12:32)
        + shl(zext(j11, 32), 11:32) + shl(zext(j10, 32), 1:32),
      if rd == 0:5 then x else x[rd := pc + 4:32], mem);
  Jalr(rd, rs1, imm) => let a = if rs1 == 0:5 then 0:32 else x[rs1] in
    State(a + sext(imm, 32) & 0xfffffffe:32, if rd == 0:5 then x else x[rd := pc + 4:32], mem);

  // Branches.
  Beq(b12, b10, rs1, rs2, b4, b11) =>
    let a = if rs1 == 0:5 then 0:32 else x[rs1] in let b = if rs2 == 0:5 then 0:32 else x[rs2] in
    State(if a == b then pc + offset(b12, b11, b10, b4) else pc + 4:32, x, mem);
  Bne(b12, b10, rs1, rs2, b4, b11) =>
    let a = if rs1 == 0:5 then 0:32 else x[rs1] in let b = if rs2 == 0:5 then 0:32 else x[rs2] in
    State(if a != b then pc + offset(b12, b11, b10, b4) else pc + 4:32, x, mem);
  Blt(b12, b10, rs1, rs2, b4, b11) =>
    let a = if rs1 == 0:5 then 0:32 else x[rs1] in let b = if rs2 == 0:5 then 0:32 else x[rs2] in
    State(if lts(a, b) then pc + offset(b12, b11, b10, b4) else pc + 4:32, x, mem);
  Bge(b12, b10, rs1, rs2, b4, b11) =>
    let a = if rs1 == 0:5 then 0:32 else x[rs1] in let b = if rs2 == 0:5 then 0:32 else x[rs2] in
    State(if les(b, a) then pc + offset(b12, b11, b10, b4) else pc + 4:32, x, mem);
  Bltu(b12, b10, rs1, rs2, b4, b11) =>
    let a = if rs1 == 0:5 then 0:32 else x[rs1] in let b = if rs2 == 0:5 then 0:32 else x[rs2] in
    State(if ltu(a, b) then pc + offset(b12, b11, b10, b4) else pc + 4:32, x, mem);
  Bgeu(b12, b10, rs1, rs2, b4, b11) =>
    let a = if rs1 == 0:5 then 0:32 else x[rs1] in let b = if rs2 == 0:5 then 0:32 else x[rs2] in
    State(if leu(b, a) then pc + offset(b12, b11, b10, b4) else pc + 4:32, x, mem);

  // Loads. The memory is read also where the write is dropped.
  Lb(rd, rs1, imm) => let a = if rs1 == 0:5 then 0:32 else x[rs1] in
    let v = sext(mem[a + sext(imm, 32)], 32) in
    State(pc + 4:32, if rd == 0:5 then x else x[rd := v], mem);
  Lh(rd, rs1, imm) => let a = if rs1 == 0:5 then 0:32 else x[rs1] in let ea = a + sext(imm, 32) in
    let v = sext(half(mem[ea], mem[ea + 1:32]), 32) in
    State(pc + 4:32, if rd == 0:5 then x else x[rd := v], mem);
  Lw(rd, rs1, imm) => let a = if rs1 == 0:5 then 0:32 else x[rs1] in let ea = a + sext(imm, 32) in
    let v = word(mem[ea], mem[ea + 1:32], mem[ea + 2:32], mem[ea + 3:32]) in
    State(pc + 4:32, if rd == 0:5 then x else x[rd := v], mem);
  Lbu(rd, rs1, imm) => let a = if rs1 == 0:5 then 0:32 else x[rs1] in
    let v = zext(mem[a + sext(imm, 32)], 32) in
    State(pc + 4:32, if rd == 0:5 then x else x[rd := v], mem);
  Lhu(rd, rs1, imm) => let a = if rs1 == 0:5 then 0:32 else x[rs1] in let ea = a + sext(imm, 32) in
    let v = zext(half(mem[ea], mem[ea + 1:32]), 32) in
    State(pc + 4:32, if rd == 0:5 then x else x[rd := v], mem);

  // Stores.
  Sb(hi, rs1, rs2, lo) =>
    let a = if rs1 == 0:5 then 0:32 else x[rs1] in let b = if rs2 == 0:5 then 0:32 else x[rs2] in
    State(pc + 4:32, x, mem[a + shl(sext(hi, 32), 5:32) + zext(lo, 32) := trunc(b, 8)]);
  Sh(hi, rs1, rs2, lo) =>
    let a = if rs1 == 0:5 then 0:32 else x[rs1] in let b = if rs2 == 0:5 then 0:32 else x[rs2] in
    let ea = a + shl(sext(hi, 32), 5:32) + zext(lo, 32) in
    State(pc + 4:32, x, mem[ea := trunc(b, 8)][ea + 1:32 := trunc(shru(b, 8:32), 8)]);
  Sw(hi, rs1, rs2, lo) =>
    let a = if rs1 == 0:5 then 0:32 else x[rs1] in let b = if rs2 == 0:5 then 0:32 else x[rs2] in
    let ea = a + shl(sext(hi, 32), 5:32) + zext(lo, 32) in
    State(pc + 4:32, x, mem[ea := trunc(b, 8)][ea + 1:32 := trunc(shru(b, 8:32), 8)]
      [ea + 2:32 := trunc(shru(b, 16:32), 8)][ea + 3:32 := trunc(shru(b, 24:32), 8)]);

  // Arithmetic on a register and an immediate.
  Addi(rd, rs1, imm) => let a = if rs1 == 0:5 then 0:32 else x[rs1] in
    State(pc + 4:32, if rd == 0:5 then x else x[rd := a + sext(imm, 32)], mem);
  Slti(rd, rs1, imm) => let a = if rs1 == 0:5 then 0:32 else x[rs1] in
    State(pc + 4:32, if rd == 0:5 then x else x[rd := if lts(a, sext(imm, 32)) then 1:32 else 0:32], mem);
  Sltiu(rd, rs1, imm) => let a = if rs1 == 0:5 then 0:32 else x[rs1] in
    State(pc + 4:32, if rd == 0:5 then x else x[rd := if ltu(a, sext(imm, 32)) then 1:32 else 0:32], mem);
  Xori(rd, rs1, imm) => let a = if rs1 == 0:5 then 0:32 else x[rs1] in
    State(pc + 4:32, if rd == 0:5 then x else x[rd := a ^ sext(imm, 32)], mem);
  Ori(rd, rs1, imm) => let a = if rs1 == 0:5 then 0:32 else x[rs1] in
    State(pc + 4:32, if rd == 0:5 then x else x[rd := a | sext(imm, 32)], mem);
  Andi(rd, rs1, imm) => let a = if rs1 == 0:5 then 0:32 else x[rs1] in
    State(pc + 4:32, if rd == 0:5 then x else x[rd := a & sext(imm, 32)], mem);
  Slli(rd, rs1, sh) => let a = if rs1 == 0:5 then 0:32 else x[rs1] in
    State(pc + 4:32, if rd == 0:5 then x else x[rd := shl(a, zext(sh, 32))], mem);
  Srli(rd, rs1, sh) => let a = if rs1 == 0:5 then 0:32 else x[rs1] in
    State(pc + 4:32, if rd == 0:5 then x else x[rd := shru(a, zext(sh, 32))], mem);
  Srai(rd, rs1, sh) => let a = if rs1 == 0:5 then 0:32 else x[rs1] in
    State(pc + 4:32, if rd == 0:5 then x else x[rd := shrs(a, zext(sh, 32))], mem);

  // Arithmetic on two registers.
  Add(rd, rs1, rs2) =>
    let a = if rs1 == 0:5 then 0:32 else x[rs1] in let b = if rs2 == 0:5 then 0:32 else x[rs2] in
    State(pc + 4:32, if rd == 0:5 then x else x[rd := a + b], mem);
  Sub(rd, rs1, rs2) =>
    let a = if rs1 == 0:5 then 0:32 else x[rs1] in let b = if rs2 == 0:5 then 0:32 else x[rs2] in
    State(pc + 4:32, if rd == 0:5 then x else x[rd := a - b], mem);
  Sll(rd, rs1, rs2) =>
    let a = if rs1 == 0:5 then 0:32 else x[rs1] in let b = if rs2 == 0:5 then 0:32 else x[rs2] in
    State(pc + 4:32, if rd == 0:5 then x else x[rd := shl(a, b & 31:32)], mem);
  Slt(rd, rs1, rs2) =>
    let a = if rs1 == 0:5 then 0:32 else x[rs1] in let b = if rs2 == 0:5 then 0:32 else x[rs2] in
    State(pc + 4:32, if rd == 0:5 then x else x[rd := if lts(a, b) then 1:32 else 0:32], mem);
  Sltu(rd, rs1, rs2) =>
    let a = if rs1 == 0:5 then 0:32 else x[rs1] in let b = if rs2 == 0:5 then 0:32 else x[rs2] in
    State(pc + 4:32, if rd == 0:5 then x else x[rd := if ltu(a, b) then 1:32 else 0:32], mem);
  Xor(rd, rs1, rs2) =>
    let a = if rs1 == 0:5 then 0:32 else x[rs1] in let b = if rs2 == 0:5 then 0:32 else x[rs2] in
    State(pc + 4:32, if rd == 0:5 then x else x[rd := a ^ b], mem);
  Srl(rd, rs1, rs2) =>
    let a = if rs1 == 0:5 then 0:32 else x[rs1] in let b = if rs2 == 0:5 then 0:32 else x[rs2] in
    State(pc + 4:32, if rd == 0:5 then x else x[rd := shru(a, b & 31:32)], mem);
  Sra(rd, rs1, rs2) =>
    let a = if rs1 == 0:5 then 0:32 else x[rs1] in let b = if rs2 == 0:5 then 0:32 else x[rs2] in
    State(pc + 4:32, if rd == 0:5 then x else x[rd := shrs(a, b & 31:32)], mem);
  Or(rd, rs1, rs2) =>
    let a = if rs1 == 0:5 then 0:32 else x[rs1] in let b = if rs2 == 0:5 then 0:32 else x[rs2] in
    State(pc + 4:32, if rd == 0:5 then x else x[rd := a | b], mem);
  And(rd, rs1, rs2) =>
    let a = if rs1 == 0:5 then 0:32 else x[rs1] in let b = if rs2 == 0:5 then 0:32 else x[rs2] in
    State(pc + 4:32, if rd == 0:5 then x else x[rd := a & b], mem);
}; };

// Each row has the 32 bits from the most significant on.
decode {
  [imm:20 rd:5 0x37:7] => Lui(rd, imm);
  [imm:20 rd:5 0x17:7] => Auipc(rd, imm);
  [j20:1 j10:10 j11:1 j19:8 rd:5 0x6f:7] => Jal(rd, j20, j10, j11, j19);
  [imm:12 rs1:5 0:3 rd:5 0x67:7] => Jalr(rd, rs1, imm);

  [b12:1 b10:6 rs2:5 rs1:5 0:3 b4:4 b11:1 0x63:7] => Beq(b12, b10, rs1, rs2, b4, b11);
  [b12:1 b10:6 rs2:5 rs1:5 1:3 b4:4 b11:1 0x63:7] => Bne(b12, b10, rs1, rs2, b4, b11);
  [b12:1 b10:6 rs2:5 rs1:5 4:3 b4:4 b11:1 0x63:7] => Blt(b12, b10, rs1, rs2, b4, b11);
  [b12:1 b10:6 rs2:5 rs1:5 5:3 b4:4 b11:1 0x63:7] => Bge(b12, b10, rs1, rs2, b4, b11);
  [b12:1 b10:6 rs2:5 rs1:5 6:3 b4:4 b11:1 0x63:7] => Bltu(b12, b10, rs1, rs2, b4, b11);
  [b12:1 b10:6 rs2:5 rs1:5 7:3 b4:4 b11:1 0x63:7] => Bgeu(b12, b10, rs1, rs2, b4, b11);

  [imm:12 rs1:5 0:3 rd:5 0x03:7] => Lb(rd, rs1, imm);
  [imm:12 rs1:5 1:3 rd:5 0x03:7] => Lh(rd, rs1, imm);
  [imm:12 rs1:5 2:3 rd:5 0x03:7] => Lw(rd, rs1, imm);
  [imm:12 rs1:5 4:3 rd:5 0x03:7] => Lbu(rd, rs1, imm);
  [imm:12 rs1:5 5:3 rd:5 0x03:7] => Lhu(rd, rs1, imm);

  [hi:7 rs2:5 rs1:5 0:3 lo:5 0x23:7] => Sb(hi, rs1, rs2, lo);
  [hi:7 rs2:5 rs1:5 1:3 lo:5 0x23:7] => Sh(hi, rs1, rs2, lo);
  [hi:7 rs2:5 rs1:5 2:3 lo:5 0x23:7] => Sw(hi, rs1, rs2, lo);

  [imm:12 rs1:5 0:3 rd:5 0x13:7] => Addi(rd, rs1, imm);
  [imm:12 rs1:5 2:3 rd:5 0x13:7] => Slti(rd, rs1, imm);
  [imm:12 rs1:5 3:3 rd:5 0x13:7] => Sltiu(rd, rs1, imm);
  [imm:12 rs1:5 4:3 rd:5 0x13:7] => Xori(rd, rs1, imm);
  [imm:12 rs1:5 6:3 rd:5 0x13:7] => Ori(rd, rs1, imm);
  [imm:12 rs1:5 7:3 rd:5 0x13:7] => Andi(rd, rs1, imm);
  [0:7 sh:5 rs1:5 1:3 rd:5 0x13:7] => Slli(rd, rs1, sh);
  [0:7 sh:5 rs1:5 5:3 rd:5 0x13:7] => Srli(rd, rs1, sh);
  [0x20:7 sh:5 rs1:5 5:3 rd:5 0x13:7] => Srai(rd, rs1, sh);

  [0:7 rs2:5 rs1:5 0:3 rd:5 0x33:7] => Add(rd, rs1, rs2);
  [0x20:7 rs2:5 rs1:5 0:3 rd:5 0x33:7] => Sub(rd, rs1, rs2);
  [0:7 rs2:5 rs1:5 1:3 rd:5 0x33:7] => Sll(rd, rs1, rs2);
  [0:7 rs2:5 rs1:5 2:3 rd:5 0x33:7] => Slt(rd, rs1, rs2);
  [0:7 rs2:5 rs1:5 3:3 rd:5 0x33:7] => Sltu(rd, rs1, rs2);
  [0:7 rs2:5 rs1:5 4:3 rd:5 0x33:7] => Xor(rd, rs1, rs2);
  [0:7 rs2:5 rs1:5 5:3 rd:5 0x33:7] => Srl(rd, rs1, rs2);
  [0x20:7 rs2:5 rs1:5 5:3 rd:5 0x33:7] => Sra(rd, rs1, rs2);
  [0:7 rs2:5 rs1:5 6:3 rd:5 0x33:7] => Or(rd, rs1, rs2);
  [0:7 rs2:5 rs1:5 7:3 rd:5 0x33:7] => And(rd, rs1, rs2);
}
";

/// `TEXT`.
pub fn text() -> &'static str
    ensures { result.now ≡ TEXT.now }
{
    TEXT
}
