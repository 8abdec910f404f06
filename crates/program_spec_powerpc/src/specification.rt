//! The text.
ghost use Rattle.std.specs.Prelude.{◌≡◌};

/// The specification of PowerPC's 32-bit integer instructions, of User Instruction Set Architecture, Book I.
///
/// It is a machine: it has an instruction type, a state, `interpInstr` and a decode section for words in big-endian order.
pub const TEXT: &str = "\
// PowerPC: the 32-bit integer instructions of User Instruction Set Architecture, Book I.
//
// Instructions and their fields have the names of Book I and stand in its order. Bits of words are numbered from the
// most significant, which is bit 0. Where Book I has (RA|0) an instruction begins with `let b` and does not read
// register 0. It ends with the next state: the next address, the general purpose registers, the condition register,
// the fixed-point exception register, the special purpose registers and the memory.

type SprName = LR | CTR | XCOUNT;
type XerName = SO | OV | CA;
map Gpr [INT5 -> INT32] default 0;
map Cr [INT5 -> INT1] default 0;
map Xer [XerName -> INT1] default 0;
map Spr [SprName -> INT32] default 0;
map Mem [INT32 -> INT8] default 0;
type State = State(pc: INT32, gpr: Gpr, cr: Cr, xer: Xer, spr: Spr, mem: Mem);

type Instr =
// Branches. bo0 to bo3 are the bits of BO; those with Dec have bo2 = 0 and decrement CTR.
    B(li: INT24, aa: INT1, lk: INT1)
  | Bc(bo0: INT1, bo1: INT1, bi: INT5, bd: INT14, aa: INT1, lk: INT1)
  | BcDec(bo0: INT1, bo1: INT1, bo3: INT1, bi: INT5, bd: INT14, aa: INT1, lk: INT1)
  | Bclr(bo0: INT1, bo1: INT1, bi: INT5, lk: INT1)
  | BclrDec(bo0: INT1, bo1: INT1, bo3: INT1, bi: INT5, lk: INT1)
  | Bcctr(bo0: INT1, bo1: INT1, bi: INT5, lk: INT1)
// Condition register.
  | Crand(bt: INT5, ba: INT5, bb: INT5) | Cror(bt: INT5, ba: INT5, bb: INT5)
  | Crxor(bt: INT5, ba: INT5, bb: INT5) | Crnand(bt: INT5, ba: INT5, bb: INT5)
  | Crnor(bt: INT5, ba: INT5, bb: INT5) | Creqv(bt: INT5, ba: INT5, bb: INT5)
  | Crandc(bt: INT5, ba: INT5, bb: INT5) | Crorc(bt: INT5, ba: INT5, bb: INT5)
  | Mcrf(bf: INT3, bfa: INT3)
// Loads.
  | Lbz(rt: INT5, ra: INT5, d: INT16) | Lbzx(rt: INT5, ra: INT5, rb: INT5)
  | Lbzu(rt: INT5, ra: INT5, d: INT16) | Lbzux(rt: INT5, ra: INT5, rb: INT5)
  | Lhz(rt: INT5, ra: INT5, d: INT16) | Lhzx(rt: INT5, ra: INT5, rb: INT5)
  | Lhzu(rt: INT5, ra: INT5, d: INT16) | Lhzux(rt: INT5, ra: INT5, rb: INT5)
  | Lha(rt: INT5, ra: INT5, d: INT16) | Lhax(rt: INT5, ra: INT5, rb: INT5)
  | Lhau(rt: INT5, ra: INT5, d: INT16) | Lhaux(rt: INT5, ra: INT5, rb: INT5)
  | Lwz(rt: INT5, ra: INT5, d: INT16) | Lwzx(rt: INT5, ra: INT5, rb: INT5)
  | Lwzu(rt: INT5, ra: INT5, d: INT16) | Lwzux(rt: INT5, ra: INT5, rb: INT5)
// Stores.
  | Stb(rs: INT5, ra: INT5, d: INT16) | Stbx(rs: INT5, ra: INT5, rb: INT5)
  | Stbu(rs: INT5, ra: INT5, d: INT16) | Stbux(rs: INT5, ra: INT5, rb: INT5)
  | Sth(rs: INT5, ra: INT5, d: INT16) | Sthx(rs: INT5, ra: INT5, rb: INT5)
  | Sthu(rs: INT5, ra: INT5, d: INT16) | Sthux(rs: INT5, ra: INT5, rb: INT5)
  | Stw(rs: INT5, ra: INT5, d: INT16) | Stwx(rs: INT5, ra: INT5, rb: INT5)
  | Stwu(rs: INT5, ra: INT5, d: INT16) | Stwux(rs: INT5, ra: INT5, rb: INT5)
// Loads and stores with bytes reversed, and of several registers.
  | Lhbrx(rt: INT5, ra: INT5, rb: INT5) | Lwbrx(rt: INT5, ra: INT5, rb: INT5)
  | Sthbrx(rs: INT5, ra: INT5, rb: INT5) | Stwbrx(rs: INT5, ra: INT5, rb: INT5)
  | Lmw(rt: INT5, ra: INT5, d: INT16) | Stmw(rs: INT5, ra: INT5, d: INT16)
// Arithmetic. addic and addic. are one constructor.
  | Addi(rt: INT5, ra: INT5, si: INT16) | Addis(rt: INT5, ra: INT5, si: INT16)
  | Add(rt: INT5, ra: INT5, rb: INT5, oe: INT1, rc: INT1)
  | Subf(rt: INT5, ra: INT5, rb: INT5, oe: INT1, rc: INT1)
  | Addic(rt: INT5, ra: INT5, si: INT16, rc: INT1) | Subfic(rt: INT5, ra: INT5, si: INT16)
  | Addc(rt: INT5, ra: INT5, rb: INT5, oe: INT1, rc: INT1)
  | Subfc(rt: INT5, ra: INT5, rb: INT5, oe: INT1, rc: INT1)
  | Adde(rt: INT5, ra: INT5, rb: INT5, oe: INT1, rc: INT1)
  | Subfe(rt: INT5, ra: INT5, rb: INT5, oe: INT1, rc: INT1)
  | Addme(rt: INT5, ra: INT5, oe: INT1, rc: INT1) | Subfme(rt: INT5, ra: INT5, oe: INT1, rc: INT1)
  | Addze(rt: INT5, ra: INT5, oe: INT1, rc: INT1) | Subfze(rt: INT5, ra: INT5, oe: INT1, rc: INT1)
  | Neg(rt: INT5, ra: INT5, oe: INT1, rc: INT1)
  | Mulli(rt: INT5, ra: INT5, si: INT16)
  | Mullw(rt: INT5, ra: INT5, rb: INT5, oe: INT1, rc: INT1)
  | Mulhw(rt: INT5, ra: INT5, rb: INT5, rc: INT1) | Mulhwu(rt: INT5, ra: INT5, rb: INT5, rc: INT1)
  | Divw(rt: INT5, ra: INT5, rb: INT5, oe: INT1, rc: INT1)
  | Divwu(rt: INT5, ra: INT5, rb: INT5, oe: INT1, rc: INT1)
// Comparisons.
  | Cmpi(bf: INT3, ra: INT5, si: INT16) | Cmp(bf: INT3, ra: INT5, rb: INT5)
  | Cmpli(bf: INT3, ra: INT5, ui: INT16) | Cmpl(bf: INT3, ra: INT5, rb: INT5)
// Logical. andi. and andis. always set condition register field 0.
  | Andi(rs: INT5, ra: INT5, ui: INT16) | Andis(rs: INT5, ra: INT5, ui: INT16)
  | Ori(rs: INT5, ra: INT5, ui: INT16) | Oris(rs: INT5, ra: INT5, ui: INT16)
  | Xori(rs: INT5, ra: INT5, ui: INT16) | Xoris(rs: INT5, ra: INT5, ui: INT16)
  | And(rs: INT5, ra: INT5, rb: INT5, rc: INT1) | Or(rs: INT5, ra: INT5, rb: INT5, rc: INT1)
  | Xor(rs: INT5, ra: INT5, rb: INT5, rc: INT1) | Nand(rs: INT5, ra: INT5, rb: INT5, rc: INT1)
  | Nor(rs: INT5, ra: INT5, rb: INT5, rc: INT1) | Eqv(rs: INT5, ra: INT5, rb: INT5, rc: INT1)
  | Andc(rs: INT5, ra: INT5, rb: INT5, rc: INT1) | Orc(rs: INT5, ra: INT5, rb: INT5, rc: INT1)
  | Extsb(rs: INT5, ra: INT5, rc: INT1) | Extsh(rs: INT5, ra: INT5, rc: INT1)
  | Cntlzw(rs: INT5, ra: INT5, rc: INT1)
// Rotations and shifts.
  | Rlwinm(rs: INT5, ra: INT5, sh: INT5, mb: INT5, me: INT5, rc: INT1)
  | Rlwnm(rs: INT5, ra: INT5, rb: INT5, mb: INT5, me: INT5, rc: INT1)
  | Rlwimi(rs: INT5, ra: INT5, sh: INT5, mb: INT5, me: INT5, rc: INT1)
  | Slw(rs: INT5, ra: INT5, rb: INT5, rc: INT1) | Srw(rs: INT5, ra: INT5, rb: INT5, rc: INT1)
  | Srawi(rs: INT5, ra: INT5, sh: INT5, rc: INT1) | Sraw(rs: INT5, ra: INT5, rb: INT5, rc: INT1)
// Moves to and from system registers. fxm0 to fxm7 are the bits of FXM.
  | Mtxer(rs: INT5) | Mtlr(rs: INT5) | Mtctr(rs: INT5) | Mfxer(rt: INT5) | Mflr(rt: INT5) | Mfctr(rt: INT5)
  | Mtcrf(rs: INT5, fxm0: INT1, fxm1: INT1, fxm2: INT1, fxm3: INT1,
      fxm4: INT1, fxm5: INT1, fxm6: INT1, fxm7: INT1)
  | Mfcr(rt: INT5);

// Four bytes as a word, and two as a half-word, the most significant first.
fun word(b0: INT8, b1: INT8, b2: INT8, b3: INT8) -> INT32 =
  shl(zext(b0, 32), 24:32) + shl(zext(b1, 32), 16:32) + shl(zext(b2, 32), 8:32) + zext(b3, 32);
fun half(b0: INT8, b1: INT8) -> INT16 = shl(zext(b0, 16), 8:16) + zext(b1, 16);

// The memory with a word, or the low half of a word, at ea and on, the most significant byte first.
fun store_word(mem: Mem, ea: INT32, v: INT32) -> Mem =
  mem[ea := trunc(shru(v, 24:32), 8)][ea + 1:32 := trunc(shru(v, 16:32), 8)]
     [ea + 2:32 := trunc(shru(v, 8:32), 8)][ea + 3:32 := trunc(v, 8)];
fun store_half(mem: Mem, ea: INT32, v: INT32) -> Mem =
  mem[ea := trunc(shru(v, 8:32), 8)][ea + 1:32 := trunc(v, 8)];

// lmw and stmw from register r on: one turn per register.
fun load_words(gpr: Gpr, mem: Mem, r: INT5, ea: INT32) -> Gpr =
  let gpr = gpr[r := word(mem[ea], mem[ea + 1:32], mem[ea + 2:32], mem[ea + 3:32])] in
  if r == 31:5 then gpr else load_words(gpr, mem, r + 1:5, ea + 4:32);
fun store_words(gpr: Gpr, mem: Mem, r: INT5, ea: INT32) -> Mem =
  let mem = store_word(mem, ea, gpr[r]) in
  if r == 31:5 then mem else store_words(gpr, mem, r + 1:5, ea + 4:32);

// Condition register field 0 for a result: negative, positive, zero, summary overflow.
fun cr0(cr: Cr, r: INT32, so: INT1) -> Cr =
  cr[0:5 := if lts(r, 0:32) then 1:1 else 0:1][1:5 := if lts(0:32, r) then 1:1 else 0:1]
    [2:5 := if r == 0:32 then 1:1 else 0:1][3:5 := so];

// Condition register field bf for a comparison: less, greater, equal, summary overflow.
fun compared(cr: Cr, bf: INT3, lt: BOOL, gt: BOOL, eq: BOOL, so: INT1) -> Cr =
  let f = shl(zext(bf, 5), 2:5) in
  cr[f := if lt then 1:1 else 0:1][f + 1:5 := if gt then 1:1 else 0:1]
    [f + 2:5 := if eq then 1:1 else 0:1][f + 3:5 := so];

// OV is o, and SO becomes 1 where o is.
fun set_overflow(xer: Xer, o: BOOL) -> Xer = if o then xer[OV := 1:1][SO := 1:1] else xer[OV := 0:1];

// Whether the signed sum x + y + c does not fit: 33 bits hold it.
fun sum_overflows(x: INT32, y: INT32, c: INT1) -> BOOL =
  leu(0x100000000:33, sext(x, 33) + sext(y, 33) + zext(c, 33) + 0x80000000:33);

// CA is the carry of the unsigned sum x + y + c, and with oe the overflow of the signed sum is set.
fun set_carry(xer: Xer, x: INT32, y: INT32, c: INT1, oe: INT1) -> Xer =
  let xer = xer[CA := if ltu(0xffffffff:33, zext(x, 33) + zext(y, 33) + zext(c, 33)) then 1:1 else 0:1] in
  if oe == 1:1 then set_overflow(xer, sum_overflows(x, y, c)) else xer;

// Ones from bit mb to bit me, wrapping around where mb is greater.
fun mask(mb: INT5, me: INT5) -> INT32 =
  let from = shru(0xffffffff:32, zext(mb, 32)) in let to = shl(0xffffffff:32, 31:32 - zext(me, 32)) in
  if leu(mb, me) then from & to else from | to;

// n and the number of leading zeros of x, at most 32.
fun clz(x: INT32, n: INT32) -> INT32 =
  if n == 32:32 then n else if lts(x, 0:32) then n else clz(shl(x, 1:32), n + 1:32);

// The condition register with the low four bits of v in the field at f.
fun with_field(cr: Cr, f: INT5, v: INT32) -> Cr =
  cr[f := trunc(shru(v, 3:32), 1)][f + 1:5 := trunc(shru(v, 2:32), 1)]
    [f + 2:5 := trunc(shru(v, 1:32), 1)][f + 3:5 := trunc(v, 1)];

// The condition register as a word.
fun cr_word(cr: Cr) -> INT32 =
  shl(zext(cr[0:5], 32), 31:32) + shl(zext(cr[1:5], 32), 30:32) + shl(zext(cr[2:5], 32), 29:32)
  + shl(zext(cr[3:5], 32), 28:32) + shl(zext(cr[4:5], 32), 27:32) + shl(zext(cr[5:5], 32), 26:32)
  + shl(zext(cr[6:5], 32), 25:32) + shl(zext(cr[7:5], 32), 24:32) + shl(zext(cr[8:5], 32), 23:32)
  + shl(zext(cr[9:5], 32), 22:32) + shl(zext(cr[10:5], 32), 21:32) + shl(zext(cr[11:5], 32), 20:32)
  + shl(zext(cr[12:5], 32), 19:32) + shl(zext(cr[13:5], 32), 18:32) + shl(zext(cr[14:5], 32), 17:32)
  + shl(zext(cr[15:5], 32), 16:32) + shl(zext(cr[16:5], 32), 15:32) + shl(zext(cr[17:5], 32), 14:32)
  + shl(zext(cr[18:5], 32), 13:32) + shl(zext(cr[19:5], 32), 12:32) + shl(zext(cr[20:5], 32), 11:32)
  + shl(zext(cr[21:5], 32), 10:32) + shl(zext(cr[22:5], 32), 9:32) + shl(zext(cr[23:5], 32), 8:32)
  + shl(zext(cr[24:5], 32), 7:32) + shl(zext(cr[25:5], 32), 6:32) + shl(zext(cr[26:5], 32), 5:32)
  + shl(zext(cr[27:5], 32), 4:32) + shl(zext(cr[28:5], 32), 3:32) + shl(zext(cr[29:5], 32), 2:32)
  + shl(zext(cr[30:5], 32), 1:32) + zext(cr[31:5], 32);

fun interpInstr(i: Instr, s: State) -> State = match s with { State(pc, gpr, cr, xer, spr, mem) => match i with {

  // Branches.
  B(li, aa, lk) =>
    State((if aa == 1:1 then 0:32 else pc) + shl(sext(li, 32), 2:32),
      gpr, cr, xer, if lk == 1:1 then spr[LR := pc + 4:32] else spr, mem);
  Bc(bo0, bo1, bi, bd, aa, lk) =>
    State(if bo0 == 1:1 || cr[bi] == bo1
        then (if aa == 1:1 then 0:32 else pc) + shl(sext(bd, 32), 2:32) else pc + 4:32,
      gpr, cr, xer, if lk == 1:1 then spr[LR := pc + 4:32] else spr, mem);
  BcDec(bo0, bo1, bo3, bi, bd, aa, lk) => let ctr = spr[CTR] - 1:32 in let spr = spr[CTR := ctr] in
    State(if (if bo3 == 1:1 then ctr == 0:32 else ctr != 0:32) && (bo0 == 1:1 || cr[bi] == bo1)
        then (if aa == 1:1 then 0:32 else pc) + shl(sext(bd, 32), 2:32) else pc + 4:32,
      gpr, cr, xer, if lk == 1:1 then spr[LR := pc + 4:32] else spr, mem);
  Bclr(bo0, bo1, bi, lk) =>
    State(if bo0 == 1:1 || cr[bi] == bo1 then spr[LR] & 0xfffffffc:32 else pc + 4:32,
      gpr, cr, xer, if lk == 1:1 then spr[LR := pc + 4:32] else spr, mem);
  BclrDec(bo0, bo1, bo3, bi, lk) => let ctr = spr[CTR] - 1:32 in let spr = spr[CTR := ctr] in
    State(if (if bo3 == 1:1 then ctr == 0:32 else ctr != 0:32) && (bo0 == 1:1 || cr[bi] == bo1)
        then spr[LR] & 0xfffffffc:32 else pc + 4:32,
      gpr, cr, xer, if lk == 1:1 then spr[LR := pc + 4:32] else spr, mem);
  Bcctr(bo0, bo1, bi, lk) =>
    State(if bo0 == 1:1 || cr[bi] == bo1 then spr[CTR] & 0xfffffffc:32 else pc + 4:32,
      gpr, cr, xer, if lk == 1:1 then spr[LR := pc + 4:32] else spr, mem);

  // Condition register.
  Crand(bt, ba, bb)  => State(pc + 4:32, gpr, cr[bt := cr[ba] & cr[bb]], xer, spr, mem);
  Cror(bt, ba, bb)   => State(pc + 4:32, gpr, cr[bt := cr[ba] | cr[bb]], xer, spr, mem);
  Crxor(bt, ba, bb)  => State(pc + 4:32, gpr, cr[bt := cr[ba] ^ cr[bb]], xer, spr, mem);
  Crnand(bt, ba, bb) => State(pc + 4:32, gpr, cr[bt := ~(cr[ba] & cr[bb])], xer, spr, mem);
  Crnor(bt, ba, bb)  => State(pc + 4:32, gpr, cr[bt := ~(cr[ba] | cr[bb])], xer, spr, mem);
  Creqv(bt, ba, bb)  => State(pc + 4:32, gpr, cr[bt := ~(cr[ba] ^ cr[bb])], xer, spr, mem);
  Crandc(bt, ba, bb) => State(pc + 4:32, gpr, cr[bt := cr[ba] & ~cr[bb]], xer, spr, mem);
  Crorc(bt, ba, bb)  => State(pc + 4:32, gpr, cr[bt := cr[ba] | ~cr[bb]], xer, spr, mem);
  Mcrf(bf, bfa) => let f = shl(zext(bf, 5), 2:5) in let g = shl(zext(bfa, 5), 2:5) in
    State(pc + 4:32, gpr, cr[f := cr[g]][f + 1:5 := cr[g + 1:5]][f + 2:5 := cr[g + 2:5]][f + 3:5 := cr[g + 3:5]],
      xer, spr, mem);

  // Loads.
  Lbz(rt, ra, d)   => let b = if ra == 0:5 then 0:32 else gpr[ra] in
    State(pc + 4:32, gpr[rt := zext(mem[b + sext(d, 32)], 32)], cr, xer, spr, mem);
  Lbzx(rt, ra, rb) => let b = if ra == 0:5 then 0:32 else gpr[ra] in
    State(pc + 4:32, gpr[rt := zext(mem[b + gpr[rb]], 32)], cr, xer, spr, mem);
  Lbzu(rt, ra, d)  => let ea = gpr[ra] + sext(d, 32) in
    State(pc + 4:32, gpr[rt := zext(mem[ea], 32)][ra := ea], cr, xer, spr, mem);
  Lbzux(rt, ra, rb) => let ea = gpr[ra] + gpr[rb] in
    State(pc + 4:32, gpr[rt := zext(mem[ea], 32)][ra := ea], cr, xer, spr, mem);
  Lhz(rt, ra, d)   => let b = if ra == 0:5 then 0:32 else gpr[ra] in let ea = b + sext(d, 32) in
    State(pc + 4:32, gpr[rt := zext(half(mem[ea], mem[ea + 1:32]), 32)], cr, xer, spr, mem);
  Lhzx(rt, ra, rb) => let b = if ra == 0:5 then 0:32 else gpr[ra] in let ea = b + gpr[rb] in
    State(pc + 4:32, gpr[rt := zext(half(mem[ea], mem[ea + 1:32]), 32)], cr, xer, spr, mem);
  Lhzu(rt, ra, d)  => let ea = gpr[ra] + sext(d, 32) in
    State(pc + 4:32, gpr[rt := zext(half(mem[ea], mem[ea + 1:32]), 32)][ra := ea], cr, xer, spr, mem);
  Lhzux(rt, ra, rb) => let ea = gpr[ra] + gpr[rb] in
    State(pc + 4:32, gpr[rt := zext(half(mem[ea], mem[ea + 1:32]), 32)][ra := ea], cr, xer, spr, mem);
  Lha(rt, ra, d)   => let b = if ra == 0:5 then 0:32 else gpr[ra] in let ea = b + sext(d, 32) in
    State(pc + 4:32, gpr[rt := sext(half(mem[ea], mem[ea + 1:32]), 32)], cr, xer, spr, mem);
  Lhax(rt, ra, rb) => let b = if ra == 0:5 then 0:32 else gpr[ra] in let ea = b + gpr[rb] in
    State(pc + 4:32, gpr[rt := sext(half(mem[ea], mem[ea + 1:32]), 32)], cr, xer, spr, mem);
  Lhau(rt, ra, d)  => let ea = gpr[ra] + sext(d, 32) in
    State(pc + 4:32, gpr[rt := sext(half(mem[ea], mem[ea + 1:32]), 32)][ra := ea], cr, xer, spr, mem);
  Lhaux(rt, ra, rb) => let ea = gpr[ra] + gpr[rb] in
    State(pc + 4:32, gpr[rt := sext(half(mem[ea], mem[ea + 1:32]), 32)][ra := ea], cr, xer, spr, mem);
  Lwz(rt, ra, d)   => let b = if ra == 0:5 then 0:32 else gpr[ra] in let ea = b + sext(d, 32) in
    State(pc + 4:32, gpr[rt := word(mem[ea], mem[ea + 1:32], mem[ea + 2:32], mem[ea + 3:32])], cr, xer, spr, mem);
  Lwzx(rt, ra, rb) => let b = if ra == 0:5 then 0:32 else gpr[ra] in let ea = b + gpr[rb] in
    State(pc + 4:32, gpr[rt := word(mem[ea], mem[ea + 1:32], mem[ea + 2:32], mem[ea + 3:32])], cr, xer, spr, mem);
  Lwzu(rt, ra, d)  => let ea = gpr[ra] + sext(d, 32) in
    State(pc + 4:32, gpr[rt := word(mem[ea], mem[ea + 1:32], mem[ea + 2:32], mem[ea + 3:32])][ra := ea],
      cr, xer, spr, mem);
  Lwzux(rt, ra, rb) => let ea = gpr[ra] + gpr[rb] in
    State(pc + 4:32, gpr[rt := word(mem[ea], mem[ea + 1:32], mem[ea + 2:32], mem[ea + 3:32])][ra := ea],
      cr, xer, spr, mem);

  // Stores.
  Stb(rs, ra, d)   => let b = if ra == 0:5 then 0:32 else gpr[ra] in
    State(pc + 4:32, gpr, cr, xer, spr, mem[b + sext(d, 32) := trunc(gpr[rs], 8)]);
  Stbx(rs, ra, rb) => let b = if ra == 0:5 then 0:32 else gpr[ra] in
    State(pc + 4:32, gpr, cr, xer, spr, mem[b + gpr[rb] := trunc(gpr[rs], 8)]);
  Stbu(rs, ra, d)  => let ea = gpr[ra] + sext(d, 32) in
    State(pc + 4:32, gpr[ra := ea], cr, xer, spr, mem[ea := trunc(gpr[rs], 8)]);
  Stbux(rs, ra, rb) => let ea = gpr[ra] + gpr[rb] in
    State(pc + 4:32, gpr[ra := ea], cr, xer, spr, mem[ea := trunc(gpr[rs], 8)]);
  Sth(rs, ra, d)   => let b = if ra == 0:5 then 0:32 else gpr[ra] in
    State(pc + 4:32, gpr, cr, xer, spr, store_half(mem, b + sext(d, 32), gpr[rs]));
  Sthx(rs, ra, rb) => let b = if ra == 0:5 then 0:32 else gpr[ra] in
    State(pc + 4:32, gpr, cr, xer, spr, store_half(mem, b + gpr[rb], gpr[rs]));
  Sthu(rs, ra, d)  => let ea = gpr[ra] + sext(d, 32) in
    State(pc + 4:32, gpr[ra := ea], cr, xer, spr, store_half(mem, ea, gpr[rs]));
  Sthux(rs, ra, rb) => let ea = gpr[ra] + gpr[rb] in
    State(pc + 4:32, gpr[ra := ea], cr, xer, spr, store_half(mem, ea, gpr[rs]));
  Stw(rs, ra, d)   => let b = if ra == 0:5 then 0:32 else gpr[ra] in
    State(pc + 4:32, gpr, cr, xer, spr, store_word(mem, b + sext(d, 32), gpr[rs]));
  Stwx(rs, ra, rb) => let b = if ra == 0:5 then 0:32 else gpr[ra] in
    State(pc + 4:32, gpr, cr, xer, spr, store_word(mem, b + gpr[rb], gpr[rs]));
  Stwu(rs, ra, d)  => let ea = gpr[ra] + sext(d, 32) in
    State(pc + 4:32, gpr[ra := ea], cr, xer, spr, store_word(mem, ea, gpr[rs]));
  Stwux(rs, ra, rb) => let ea = gpr[ra] + gpr[rb] in
    State(pc + 4:32, gpr[ra := ea], cr, xer, spr, store_word(mem, ea, gpr[rs]));

  // Loads and stores with bytes reversed, and of several registers.
  Lhbrx(rt, ra, rb) => let b = if ra == 0:5 then 0:32 else gpr[ra] in let ea = b + gpr[rb] in
    State(pc + 4:32, gpr[rt := zext(half(mem[ea + 1:32], mem[ea]), 32)], cr, xer, spr, mem);
  Lwbrx(rt, ra, rb) => let b = if ra == 0:5 then 0:32 else gpr[ra] in let ea = b + gpr[rb] in
    State(pc + 4:32, gpr[rt := word(mem[ea + 3:32], mem[ea + 2:32], mem[ea + 1:32], mem[ea])], cr, xer, spr, mem);
  Sthbrx(rs, ra, rb) => let b = if ra == 0:5 then 0:32 else gpr[ra] in let ea = b + gpr[rb] in let v = gpr[rs] in
    State(pc + 4:32, gpr, cr, xer, spr, mem[ea := trunc(v, 8)][ea + 1:32 := trunc(shru(v, 8:32), 8)]);
  Stwbrx(rs, ra, rb) => let b = if ra == 0:5 then 0:32 else gpr[ra] in let ea = b + gpr[rb] in let v = gpr[rs] in
    State(pc + 4:32, gpr, cr, xer, spr, mem[ea := trunc(v, 8)][ea + 1:32 := trunc(shru(v, 8:32), 8)]
      [ea + 2:32 := trunc(shru(v, 16:32), 8)][ea + 3:32 := trunc(shru(v, 24:32), 8)]);
  Lmw(rt, ra, d)  => let b = if ra == 0:5 then 0:32 else gpr[ra] in
    State(pc + 4:32, load_words(gpr, mem, rt, b + sext(d, 32)), cr, xer, spr, mem);
  Stmw(rs, ra, d) => let b = if ra == 0:5 then 0:32 else gpr[ra] in
    State(pc + 4:32, gpr, cr, xer, spr, store_words(gpr, mem, rs, b + sext(d, 32)));

  // Arithmetic. A sum has the summands x, y and c; a difference is a sum with the complement of x.
  Addi(rt, ra, si)  => let b = if ra == 0:5 then 0:32 else gpr[ra] in
    State(pc + 4:32, gpr[rt := b + sext(si, 32)], cr, xer, spr, mem);
  Addis(rt, ra, si) => let b = if ra == 0:5 then 0:32 else gpr[ra] in
    State(pc + 4:32, gpr[rt := b + shl(sext(si, 32), 16:32)], cr, xer, spr, mem);
  Add(rt, ra, rb, oe, rc) => let x = gpr[ra] in let y = gpr[rb] in let r = x + y in
    let xer = if oe == 1:1 then set_overflow(xer, sum_overflows(x, y, 0:1)) else xer in
    State(pc + 4:32, gpr[rt := r], if rc == 1:1 then cr0(cr, r, xer[SO]) else cr, xer, spr, mem);
  Subf(rt, ra, rb, oe, rc) => let x = gpr[ra] in let y = gpr[rb] in let r = y - x in
    let xer = if oe == 1:1 then set_overflow(xer, sum_overflows(~x, y, 1:1)) else xer in
    State(pc + 4:32, gpr[rt := r], if rc == 1:1 then cr0(cr, r, xer[SO]) else cr, xer, spr, mem);
  Addic(rt, ra, si, rc) => let x = gpr[ra] in let y = sext(si, 32) in let r = x + y in
    let xer = set_carry(xer, x, y, 0:1, 0:1) in
    State(pc + 4:32, gpr[rt := r], if rc == 1:1 then cr0(cr, r, xer[SO]) else cr, xer, spr, mem);
  Subfic(rt, ra, si) => let x = gpr[ra] in let y = sext(si, 32) in
    State(pc + 4:32, gpr[rt := y - x], cr, set_carry(xer, ~x, y, 1:1, 0:1), spr, mem);
  Addc(rt, ra, rb, oe, rc) => let x = gpr[ra] in let y = gpr[rb] in let r = x + y in
    let xer = set_carry(xer, x, y, 0:1, oe) in
    State(pc + 4:32, gpr[rt := r], if rc == 1:1 then cr0(cr, r, xer[SO]) else cr, xer, spr, mem);
  Subfc(rt, ra, rb, oe, rc) => let x = gpr[ra] in let y = gpr[rb] in let r = y - x in
    let xer = set_carry(xer, ~x, y, 1:1, oe) in
    State(pc + 4:32, gpr[rt := r], if rc == 1:1 then cr0(cr, r, xer[SO]) else cr, xer, spr, mem);
  Adde(rt, ra, rb, oe, rc) => let x = gpr[ra] in let y = gpr[rb] in let c = xer[CA] in
    let r = x + y + zext(c, 32) in let xer = set_carry(xer, x, y, c, oe) in
    State(pc + 4:32, gpr[rt := r], if rc == 1:1 then cr0(cr, r, xer[SO]) else cr, xer, spr, mem);
  Subfe(rt, ra, rb, oe, rc) => let x = ~gpr[ra] in let y = gpr[rb] in let c = xer[CA] in
    let r = x + y + zext(c, 32) in let xer = set_carry(xer, x, y, c, oe) in
    State(pc + 4:32, gpr[rt := r], if rc == 1:1 then cr0(cr, r, xer[SO]) else cr, xer, spr, mem);
  Addme(rt, ra, oe, rc) => let x = gpr[ra] in let c = xer[CA] in
    let r = x + 0xffffffff:32 + zext(c, 32) in let xer = set_carry(xer, x, 0xffffffff:32, c, oe) in
    State(pc + 4:32, gpr[rt := r], if rc == 1:1 then cr0(cr, r, xer[SO]) else cr, xer, spr, mem);
  Subfme(rt, ra, oe, rc) => let x = ~gpr[ra] in let c = xer[CA] in
    let r = x + 0xffffffff:32 + zext(c, 32) in let xer = set_carry(xer, x, 0xffffffff:32, c, oe) in
    State(pc + 4:32, gpr[rt := r], if rc == 1:1 then cr0(cr, r, xer[SO]) else cr, xer, spr, mem);
  Addze(rt, ra, oe, rc) => let x = gpr[ra] in let c = xer[CA] in
    let r = x + zext(c, 32) in let xer = set_carry(xer, x, 0:32, c, oe) in
    State(pc + 4:32, gpr[rt := r], if rc == 1:1 then cr0(cr, r, xer[SO]) else cr, xer, spr, mem);
  Subfze(rt, ra, oe, rc) => let x = ~gpr[ra] in let c = xer[CA] in
    let r = x + zext(c, 32) in let xer = set_carry(xer, x, 0:32, c, oe) in
    State(pc + 4:32, gpr[rt := r], if rc == 1:1 then cr0(cr, r, xer[SO]) else cr, xer, spr, mem);
  Neg(rt, ra, oe, rc) => let x = gpr[ra] in let r = -x in
    let xer = if oe == 1:1 then set_overflow(xer, x == 0x80000000:32) else xer in
    State(pc + 4:32, gpr[rt := r], if rc == 1:1 then cr0(cr, r, xer[SO]) else cr, xer, spr, mem);
  Mulli(rt, ra, si) => State(pc + 4:32, gpr[rt := gpr[ra] * sext(si, 32)], cr, xer, spr, mem);
  Mullw(rt, ra, rb, oe, rc) => let x = gpr[ra] in let y = gpr[rb] in let r = x * y in
    let xer = if oe == 1:1
      then set_overflow(xer, leu(0x100000000:64, sext(x, 64) * sext(y, 64) + 0x80000000:64)) else xer in
    State(pc + 4:32, gpr[rt := r], if rc == 1:1 then cr0(cr, r, xer[SO]) else cr, xer, spr, mem);
  Mulhw(rt, ra, rb, rc)  => let r = mulhs(gpr[ra], gpr[rb]) in
    State(pc + 4:32, gpr[rt := r], if rc == 1:1 then cr0(cr, r, xer[SO]) else cr, xer, spr, mem);
  Mulhwu(rt, ra, rb, rc) => let r = mulhu(gpr[ra], gpr[rb]) in
    State(pc + 4:32, gpr[rt := r], if rc == 1:1 then cr0(cr, r, xer[SO]) else cr, xer, spr, mem);
  Divw(rt, ra, rb, oe, rc) => let x = gpr[ra] in let y = gpr[rb] in
    let o = y == 0:32 || y == 0xffffffff:32 && x == 0x80000000:32 in
    let r = if o then 0:32 else divs(x, y) in
    let xer = if oe == 1:1 then set_overflow(xer, o) else xer in
    State(pc + 4:32, gpr[rt := r], if rc == 1:1 then cr0(cr, r, xer[SO]) else cr, xer, spr, mem);
  Divwu(rt, ra, rb, oe, rc) => let x = gpr[ra] in let y = gpr[rb] in let r = divu(x, y) in
    let xer = if oe == 1:1 then set_overflow(xer, y == 0:32) else xer in
    State(pc + 4:32, gpr[rt := r], if rc == 1:1 then cr0(cr, r, xer[SO]) else cr, xer, spr, mem);

  // Comparisons.
  Cmpi(bf, ra, si) => let x = gpr[ra] in let y = sext(si, 32) in
    State(pc + 4:32, gpr, compared(cr, bf, lts(x, y), lts(y, x), x == y, xer[SO]), xer, spr, mem);
  Cmp(bf, ra, rb) => let x = gpr[ra] in let y = gpr[rb] in
    State(pc + 4:32, gpr, compared(cr, bf, lts(x, y), lts(y, x), x == y, xer[SO]), xer, spr, mem);
  Cmpli(bf, ra, ui) => let x = gpr[ra] in let y = zext(ui, 32) in
    State(pc + 4:32, gpr, compared(cr, bf, ltu(x, y), ltu(y, x), x == y, xer[SO]), xer, spr, mem);
  Cmpl(bf, ra, rb) => let x = gpr[ra] in let y = gpr[rb] in
    State(pc + 4:32, gpr, compared(cr, bf, ltu(x, y), ltu(y, x), x == y, xer[SO]), xer, spr, mem);

  // Logical.
  Andi(rs, ra, ui)  => let r = gpr[rs] & zext(ui, 32) in
    State(pc + 4:32, gpr[ra := r], cr0(cr, r, xer[SO]), xer, spr, mem);
  Andis(rs, ra, ui) => let r = gpr[rs] & shl(zext(ui, 32), 16:32) in
    State(pc + 4:32, gpr[ra := r], cr0(cr, r, xer[SO]), xer, spr, mem);
  Ori(rs, ra, ui)   => State(pc + 4:32, gpr[ra := gpr[rs] | zext(ui, 32)], cr, xer, spr, mem);
  Oris(rs, ra, ui)  => State(pc + 4:32, gpr[ra := gpr[rs] | shl(zext(ui, 32), 16:32)], cr, xer, spr, mem);
  Xori(rs, ra, ui)  => State(pc + 4:32, gpr[ra := gpr[rs] ^ zext(ui, 32)], cr, xer, spr, mem);
  Xoris(rs, ra, ui) => State(pc + 4:32, gpr[ra := gpr[rs] ^ shl(zext(ui, 32), 16:32)], cr, xer, spr, mem);
  And(rs, ra, rb, rc)  => let r = gpr[rs] & gpr[rb] in
    State(pc + 4:32, gpr[ra := r], if rc == 1:1 then cr0(cr, r, xer[SO]) else cr, xer, spr, mem);
  Or(rs, ra, rb, rc)   => let r = gpr[rs] | gpr[rb] in
    State(pc + 4:32, gpr[ra := r], if rc == 1:1 then cr0(cr, r, xer[SO]) else cr, xer, spr, mem);
  Xor(rs, ra, rb, rc)  => let r = gpr[rs] ^ gpr[rb] in
    State(pc + 4:32, gpr[ra := r], if rc == 1:1 then cr0(cr, r, xer[SO]) else cr, xer, spr, mem);
  Nand(rs, ra, rb, rc) => let r = ~(gpr[rs] & gpr[rb]) in
    State(pc + 4:32, gpr[ra := r], if rc == 1:1 then cr0(cr, r, xer[SO]) else cr, xer, spr, mem);
  Nor(rs, ra, rb, rc)  => let r = ~(gpr[rs] | gpr[rb]) in
    State(pc + 4:32, gpr[ra := r], if rc == 1:1 then cr0(cr, r, xer[SO]) else cr, xer, spr, mem);
  Eqv(rs, ra, rb, rc)  => let r = ~(gpr[rs] ^ gpr[rb]) in
    State(pc + 4:32, gpr[ra := r], if rc == 1:1 then cr0(cr, r, xer[SO]) else cr, xer, spr, mem);
  Andc(rs, ra, rb, rc) => let r = gpr[rs] & ~gpr[rb] in
    State(pc + 4:32, gpr[ra := r], if rc == 1:1 then cr0(cr, r, xer[SO]) else cr, xer, spr, mem);
  Orc(rs, ra, rb, rc)  => let r = gpr[rs] | ~gpr[rb] in
    State(pc + 4:32, gpr[ra := r], if rc == 1:1 then cr0(cr, r, xer[SO]) else cr, xer, spr, mem);
  Extsb(rs, ra, rc)  => let r = sext(trunc(gpr[rs], 8), 32) in
    State(pc + 4:32, gpr[ra := r], if rc == 1:1 then cr0(cr, r, xer[SO]) else cr, xer, spr, mem);
  Extsh(rs, ra, rc)  => let r = sext(trunc(gpr[rs], 16), 32) in
    State(pc + 4:32, gpr[ra := r], if rc == 1:1 then cr0(cr, r, xer[SO]) else cr, xer, spr, mem);
  Cntlzw(rs, ra, rc) => let r = clz(gpr[rs], 0:32) in
    State(pc + 4:32, gpr[ra := r], if rc == 1:1 then cr0(cr, r, xer[SO]) else cr, xer, spr, mem);

  // Rotations and shifts.
  Rlwinm(rs, ra, sh, mb, me, rc) => let r = rotl(gpr[rs], zext(sh, 32)) & mask(mb, me) in
    State(pc + 4:32, gpr[ra := r], if rc == 1:1 then cr0(cr, r, xer[SO]) else cr, xer, spr, mem);
  Rlwnm(rs, ra, rb, mb, me, rc)  => let r = rotl(gpr[rs], gpr[rb] & 31:32) & mask(mb, me) in
    State(pc + 4:32, gpr[ra := r], if rc == 1:1 then cr0(cr, r, xer[SO]) else cr, xer, spr, mem);
  Rlwimi(rs, ra, sh, mb, me, rc) => let m = mask(mb, me) in
    let r = rotl(gpr[rs], zext(sh, 32)) & m | gpr[ra] & ~m in
    State(pc + 4:32, gpr[ra := r], if rc == 1:1 then cr0(cr, r, xer[SO]) else cr, xer, spr, mem);
  Slw(rs, ra, rb, rc) => let r = shl(gpr[rs], gpr[rb] & 63:32) in
    State(pc + 4:32, gpr[ra := r], if rc == 1:1 then cr0(cr, r, xer[SO]) else cr, xer, spr, mem);
  Srw(rs, ra, rb, rc) => let r = shru(gpr[rs], gpr[rb] & 63:32) in
    State(pc + 4:32, gpr[ra := r], if rc == 1:1 then cr0(cr, r, xer[SO]) else cr, xer, spr, mem);
  Srawi(rs, ra, sh, rc) => let x = gpr[rs] in let n = zext(sh, 32) in let r = shrs(x, n) in
    let xer = xer[CA := if lts(x, 0:32) && shl(r, n) != x then 1:1 else 0:1] in
    State(pc + 4:32, gpr[ra := r], if rc == 1:1 then cr0(cr, r, xer[SO]) else cr, xer, spr, mem);
  Sraw(rs, ra, rb, rc)  => let x = gpr[rs] in let n = gpr[rb] & 63:32 in let r = shrs(x, n) in
    let xer = xer[CA := if lts(x, 0:32) && shl(r, n) != x then 1:1 else 0:1] in
    State(pc + 4:32, gpr[ra := r], if rc == 1:1 then cr0(cr, r, xer[SO]) else cr, xer, spr, mem);

  // Moves to and from system registers.
  Mtxer(rs) => let v = gpr[rs] in
    State(pc + 4:32, gpr, cr,
      xer[SO := trunc(shru(v, 31:32), 1)][OV := trunc(shru(v, 30:32), 1)][CA := trunc(shru(v, 29:32), 1)],
      spr[XCOUNT := v & 0x7f:32], mem);
  Mtlr(rs)  => State(pc + 4:32, gpr, cr, xer, spr[LR := gpr[rs]], mem);
  Mtctr(rs) => State(pc + 4:32, gpr, cr, xer, spr[CTR := gpr[rs]], mem);
  Mfxer(rt) =>
    State(pc + 4:32, gpr[rt := shl(zext(xer[SO], 32), 31:32) + shl(zext(xer[OV], 32), 30:32)
      + shl(zext(xer[CA], 32), 29:32) + (spr[XCOUNT] & 0x7f:32)], cr, xer, spr, mem);
  Mflr(rt)  => State(pc + 4:32, gpr[rt := spr[LR]], cr, xer, spr, mem);
  Mfctr(rt) => State(pc + 4:32, gpr[rt := spr[CTR]], cr, xer, spr, mem);
  Mtcrf(rs, fxm0, fxm1, fxm2, fxm3, fxm4, fxm5, fxm6, fxm7) =>
    let cr = if fxm0 == 1:1 then with_field(cr, 0:5, shru(gpr[rs], 28:32)) else cr in
    let cr = if fxm1 == 1:1 then with_field(cr, 4:5, shru(gpr[rs], 24:32)) else cr in
    let cr = if fxm2 == 1:1 then with_field(cr, 8:5, shru(gpr[rs], 20:32)) else cr in
    let cr = if fxm3 == 1:1 then with_field(cr, 12:5, shru(gpr[rs], 16:32)) else cr in
    let cr = if fxm4 == 1:1 then with_field(cr, 16:5, shru(gpr[rs], 12:32)) else cr in
    let cr = if fxm5 == 1:1 then with_field(cr, 20:5, shru(gpr[rs], 8:32)) else cr in
    let cr = if fxm6 == 1:1 then with_field(cr, 24:5, shru(gpr[rs], 4:32)) else cr in
    let cr = if fxm7 == 1:1 then with_field(cr, 28:5, gpr[rs]) else cr in
    State(pc + 4:32, gpr, cr, xer, spr, mem);
  Mfcr(rt) => State(pc + 4:32, gpr[rt := cr_word(cr)], cr, xer, spr, mem);
}; };

// Each row has the 32 bits from bit 0 on. Reserved bits are 0; bits of BO that have no effect are hints.
decode {
  [18:6 li:24 aa:1 lk:1] => B(li, aa, lk);
  [16:6 bo0:1 bo1:1 1:1 hint:2 bi:5 bd:14 aa:1 lk:1] => Bc(bo0, bo1, bi, bd, aa, lk);
  [16:6 bo0:1 bo1:1 0:1 bo3:1 hint:1 bi:5 bd:14 aa:1 lk:1] => BcDec(bo0, bo1, bo3, bi, bd, aa, lk);
  [19:6 bo0:1 bo1:1 1:1 hint:2 bi:5 0:5 16:10 lk:1] => Bclr(bo0, bo1, bi, lk);
  [19:6 bo0:1 bo1:1 0:1 bo3:1 hint:1 bi:5 0:5 16:10 lk:1] => BclrDec(bo0, bo1, bo3, bi, lk);
  [19:6 bo0:1 bo1:1 1:1 hint:2 bi:5 0:5 528:10 lk:1] => Bcctr(bo0, bo1, bi, lk);

  [19:6 bt:5 ba:5 bb:5 257:10 0:1] => Crand(bt, ba, bb);
  [19:6 bt:5 ba:5 bb:5 449:10 0:1] => Cror(bt, ba, bb);
  [19:6 bt:5 ba:5 bb:5 193:10 0:1] => Crxor(bt, ba, bb);
  [19:6 bt:5 ba:5 bb:5 225:10 0:1] => Crnand(bt, ba, bb);
  [19:6 bt:5 ba:5 bb:5 33:10 0:1] => Crnor(bt, ba, bb);
  [19:6 bt:5 ba:5 bb:5 289:10 0:1] => Creqv(bt, ba, bb);
  [19:6 bt:5 ba:5 bb:5 129:10 0:1] => Crandc(bt, ba, bb);
  [19:6 bt:5 ba:5 bb:5 417:10 0:1] => Crorc(bt, ba, bb);
  [19:6 bf:3 0:2 bfa:3 0:2 0:5 0:10 0:1] => Mcrf(bf, bfa);

  [34:6 rt:5 ra:5 d:16] => Lbz(rt, ra, d);
  [31:6 rt:5 ra:5 rb:5 87:10 0:1] => Lbzx(rt, ra, rb);
  [35:6 rt:5 ra:5 d:16] when ra != 0, ra != rt => Lbzu(rt, ra, d);
  [31:6 rt:5 ra:5 rb:5 119:10 0:1] when ra != 0, ra != rt => Lbzux(rt, ra, rb);
  [40:6 rt:5 ra:5 d:16] => Lhz(rt, ra, d);
  [31:6 rt:5 ra:5 rb:5 279:10 0:1] => Lhzx(rt, ra, rb);
  [41:6 rt:5 ra:5 d:16] when ra != 0, ra != rt => Lhzu(rt, ra, d);
  [31:6 rt:5 ra:5 rb:5 311:10 0:1] when ra != 0, ra != rt => Lhzux(rt, ra, rb);
  [42:6 rt:5 ra:5 d:16] => Lha(rt, ra, d);
  [31:6 rt:5 ra:5 rb:5 343:10 0:1] => Lhax(rt, ra, rb);
  [43:6 rt:5 ra:5 d:16] when ra != 0, ra != rt => Lhau(rt, ra, d);
  [31:6 rt:5 ra:5 rb:5 375:10 0:1] when ra != 0, ra != rt => Lhaux(rt, ra, rb);
  [32:6 rt:5 ra:5 d:16] => Lwz(rt, ra, d);
  [31:6 rt:5 ra:5 rb:5 23:10 0:1] => Lwzx(rt, ra, rb);
  [33:6 rt:5 ra:5 d:16] when ra != 0, ra != rt => Lwzu(rt, ra, d);
  [31:6 rt:5 ra:5 rb:5 55:10 0:1] when ra != 0, ra != rt => Lwzux(rt, ra, rb);

  [38:6 rs:5 ra:5 d:16] => Stb(rs, ra, d);
  [31:6 rs:5 ra:5 rb:5 215:10 0:1] => Stbx(rs, ra, rb);
  [39:6 rs:5 ra:5 d:16] when ra != 0 => Stbu(rs, ra, d);
  [31:6 rs:5 ra:5 rb:5 247:10 0:1] when ra != 0 => Stbux(rs, ra, rb);
  [44:6 rs:5 ra:5 d:16] => Sth(rs, ra, d);
  [31:6 rs:5 ra:5 rb:5 407:10 0:1] => Sthx(rs, ra, rb);
  [45:6 rs:5 ra:5 d:16] when ra != 0 => Sthu(rs, ra, d);
  [31:6 rs:5 ra:5 rb:5 439:10 0:1] when ra != 0 => Sthux(rs, ra, rb);
  [36:6 rs:5 ra:5 d:16] => Stw(rs, ra, d);
  [31:6 rs:5 ra:5 rb:5 151:10 0:1] => Stwx(rs, ra, rb);
  [37:6 rs:5 ra:5 d:16] when ra != 0 => Stwu(rs, ra, d);
  [31:6 rs:5 ra:5 rb:5 183:10 0:1] when ra != 0 => Stwux(rs, ra, rb);

  [31:6 rt:5 ra:5 rb:5 790:10 0:1] => Lhbrx(rt, ra, rb);
  [31:6 rt:5 ra:5 rb:5 534:10 0:1] => Lwbrx(rt, ra, rb);
  [31:6 rs:5 ra:5 rb:5 918:10 0:1] => Sthbrx(rs, ra, rb);
  [31:6 rs:5 ra:5 rb:5 662:10 0:1] => Stwbrx(rs, ra, rb);
  [46:6 rt:5 ra:5 d:16] when ra < rt => Lmw(rt, ra, d);
  [47:6 rs:5 ra:5 d:16] => Stmw(rs, ra, d);

  [14:6 rt:5 ra:5 si:16] => Addi(rt, ra, si);
  [15:6 rt:5 ra:5 si:16] => Addis(rt, ra, si);
  [31:6 rt:5 ra:5 rb:5 oe:1 266:9 rc:1] => Add(rt, ra, rb, oe, rc);
  [31:6 rt:5 ra:5 rb:5 oe:1 40:9 rc:1] => Subf(rt, ra, rb, oe, rc);
  [12:6 rt:5 ra:5 si:16] => Addic(rt, ra, si, 0:1);
  [13:6 rt:5 ra:5 si:16] => Addic(rt, ra, si, 1:1);
  [8:6 rt:5 ra:5 si:16] => Subfic(rt, ra, si);
  [31:6 rt:5 ra:5 rb:5 oe:1 10:9 rc:1] => Addc(rt, ra, rb, oe, rc);
  [31:6 rt:5 ra:5 rb:5 oe:1 8:9 rc:1] => Subfc(rt, ra, rb, oe, rc);
  [31:6 rt:5 ra:5 rb:5 oe:1 138:9 rc:1] => Adde(rt, ra, rb, oe, rc);
  [31:6 rt:5 ra:5 rb:5 oe:1 136:9 rc:1] => Subfe(rt, ra, rb, oe, rc);
  [31:6 rt:5 ra:5 0:5 oe:1 234:9 rc:1] => Addme(rt, ra, oe, rc);
  [31:6 rt:5 ra:5 0:5 oe:1 232:9 rc:1] => Subfme(rt, ra, oe, rc);
  [31:6 rt:5 ra:5 0:5 oe:1 202:9 rc:1] => Addze(rt, ra, oe, rc);
  [31:6 rt:5 ra:5 0:5 oe:1 200:9 rc:1] => Subfze(rt, ra, oe, rc);
  [31:6 rt:5 ra:5 0:5 oe:1 104:9 rc:1] => Neg(rt, ra, oe, rc);
  [7:6 rt:5 ra:5 si:16] => Mulli(rt, ra, si);
  [31:6 rt:5 ra:5 rb:5 oe:1 235:9 rc:1] => Mullw(rt, ra, rb, oe, rc);
  [31:6 rt:5 ra:5 rb:5 0:1 75:9 rc:1] => Mulhw(rt, ra, rb, rc);
  [31:6 rt:5 ra:5 rb:5 0:1 11:9 rc:1] => Mulhwu(rt, ra, rb, rc);
  [31:6 rt:5 ra:5 rb:5 oe:1 491:9 rc:1] => Divw(rt, ra, rb, oe, rc);
  [31:6 rt:5 ra:5 rb:5 oe:1 459:9 rc:1] => Divwu(rt, ra, rb, oe, rc);

  [11:6 bf:3 0:2 ra:5 si:16] => Cmpi(bf, ra, si);
  [31:6 bf:3 0:2 ra:5 rb:5 0:10 0:1] => Cmp(bf, ra, rb);
  [10:6 bf:3 0:2 ra:5 ui:16] => Cmpli(bf, ra, ui);
  [31:6 bf:3 0:2 ra:5 rb:5 32:10 0:1] => Cmpl(bf, ra, rb);

  [28:6 rs:5 ra:5 ui:16] => Andi(rs, ra, ui);
  [29:6 rs:5 ra:5 ui:16] => Andis(rs, ra, ui);
  [24:6 rs:5 ra:5 ui:16] => Ori(rs, ra, ui);
  [25:6 rs:5 ra:5 ui:16] => Oris(rs, ra, ui);
  [26:6 rs:5 ra:5 ui:16] => Xori(rs, ra, ui);
  [27:6 rs:5 ra:5 ui:16] => Xoris(rs, ra, ui);
  [31:6 rs:5 ra:5 rb:5 28:10 rc:1] => And(rs, ra, rb, rc);
  [31:6 rs:5 ra:5 rb:5 444:10 rc:1] => Or(rs, ra, rb, rc);
  [31:6 rs:5 ra:5 rb:5 316:10 rc:1] => Xor(rs, ra, rb, rc);
  [31:6 rs:5 ra:5 rb:5 476:10 rc:1] => Nand(rs, ra, rb, rc);
  [31:6 rs:5 ra:5 rb:5 124:10 rc:1] => Nor(rs, ra, rb, rc);
  [31:6 rs:5 ra:5 rb:5 284:10 rc:1] => Eqv(rs, ra, rb, rc);
  [31:6 rs:5 ra:5 rb:5 60:10 rc:1] => Andc(rs, ra, rb, rc);
  [31:6 rs:5 ra:5 rb:5 412:10 rc:1] => Orc(rs, ra, rb, rc);
  [31:6 rs:5 ra:5 0:5 954:10 rc:1] => Extsb(rs, ra, rc);
  [31:6 rs:5 ra:5 0:5 922:10 rc:1] => Extsh(rs, ra, rc);
  [31:6 rs:5 ra:5 0:5 26:10 rc:1] => Cntlzw(rs, ra, rc);

  [21:6 rs:5 ra:5 sh:5 mb:5 me:5 rc:1] => Rlwinm(rs, ra, sh, mb, me, rc);
  [23:6 rs:5 ra:5 rb:5 mb:5 me:5 rc:1] => Rlwnm(rs, ra, rb, mb, me, rc);
  [20:6 rs:5 ra:5 sh:5 mb:5 me:5 rc:1] => Rlwimi(rs, ra, sh, mb, me, rc);
  [31:6 rs:5 ra:5 rb:5 24:10 rc:1] => Slw(rs, ra, rb, rc);
  [31:6 rs:5 ra:5 rb:5 536:10 rc:1] => Srw(rs, ra, rb, rc);
  [31:6 rs:5 ra:5 sh:5 824:10 rc:1] => Srawi(rs, ra, sh, rc);
  [31:6 rs:5 ra:5 rb:5 792:10 rc:1] => Sraw(rs, ra, rb, rc);

  [31:6 rs:5 1:5 0:5 467:10 0:1] => Mtxer(rs);
  [31:6 rs:5 8:5 0:5 467:10 0:1] => Mtlr(rs);
  [31:6 rs:5 9:5 0:5 467:10 0:1] => Mtctr(rs);
  [31:6 rt:5 1:5 0:5 339:10 0:1] => Mfxer(rt);
  [31:6 rt:5 8:5 0:5 339:10 0:1] => Mflr(rt);
  [31:6 rt:5 9:5 0:5 339:10 0:1] => Mfctr(rt);
  [31:6 rs:5 0:1 fxm0:1 fxm1:1 fxm2:1 fxm3:1 fxm4:1 fxm5:1 fxm6:1 fxm7:1 0:1 144:10 0:1]
    => Mtcrf(rs, fxm0, fxm1, fxm2, fxm3, fxm4, fxm5, fxm6, fxm7);
  [31:6 rt:5 0:5 0:5 19:10 0:1] => Mfcr(rt);
}
";

/// `TEXT`.
pub fn text() -> &'static str
    ensures { result.now ≡ TEXT.now }
{
    TEXT
}
