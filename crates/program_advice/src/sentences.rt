//! The sentences of codes. The tables of docs/LANGUAGE.md and docs/FORMATS.md have the same: `tools/codes --check` compares them.

ghost use Rattle.std.specs.Prelude.{◌≡◌, IfSome, bytes_eq, true};

/// What a code says, and what to do.
#[derive(Clone, Copy)]
pub struct Sentence {
    /// The code of a fault, as `T1`, the head of a line, as `calls spent`, or an option, as `--at`.
    pub code: &'static str,
    /// Of a fault what it is, of an option which values it takes.
    pub says: &'static str,
    /// What to do; it may be empty.
    pub advice: &'static str,
}

/// The sentence of a code, where the table has one.
pub fn sentence_of(code: &str) -> Option<Sentence>
    ensures { IfSome result (λ sentence. bytes_eq sentence.code.now code.now ≡ true) }
{
    if let Some(sentence) = of_text(code) {
        return Some(sentence);
    }
    if let Some(sentence) = of_rule(code) {
        return Some(sentence);
    }
    if let Some(sentence) = of_input(code) {
        return Some(sentence);
    }
    if let Some(sentence) = of_table(code) {
        return Some(sentence);
    }
    if let Some(sentence) = of_line(code) {
        return Some(sentence);
    }
    of_option(code)
}

/// The sentence of a code among these.
fn find_sentence(sentences: &[Sentence], code: &str) -> Option<Sentence>
    ensures { IfSome result (λ sentence. bytes_eq sentence.code.now code.now ≡ true) }
{
    sentences
        .iter()
        .copied()
        .find(|sentence| sentence.code == code)
}

/// The sentences of faults of a specification that has no tree, and of its decode rows and limits.
const TOKENS: [Sentence; 10] = [
    Sentence {
        code: "L1",
        says: "a byte that begins no token",
        advice: "take it out; a comment begins with `//`",
    },
    Sentence {
        code: "L2",
        says: "a name of more than 64 bytes",
        advice: "shorten it",
    },
    Sentence {
        code: "L3",
        says: "a run of letters, digits and `_` that begins with a digit and is no number below 2^64",
        advice: "begin a name with a letter or `_`, and hex digits with `0x`",
    },
    Sentence {
        code: "P1",
        says: "the first token with which no specification goes on; where the text ends too early, its end",
        advice: "see \"Grammar\"; often a mark is missing before it, as a `;` or a `)`",
    },
    Sentence {
        code: "P2",
        says: "the first token that stands in more than 256 levels",
        advice: "make a part of it a function of its own",
    },
    Sentence {
        code: "T10",
        says: "a machine without a datatype `State` of the form that \"Machines\" gives: one constructor, the counter first, no map type twice",
        advice: "give the counter 32 bits, and one constructor; a library needs no `State`",
    },
    Sentence {
        code: "T11",
        says: "a machine without a function `interpInstr` of an `Instr` and a `State` to a `State`",
        advice: "take `i: Instr` and `s: State`, and answer a `State`",
    },
    Sentence {
        code: "T12",
        says: "a decode row whose widths do not sum to 32 or have a 0. Or one with a number that does not fit, an unknown field, or a guard on two widths. Or one with another constructor than of `Instr`, or wrong arguments",
        advice: "see \"Decode rows\"",
    },
    Sentence {
        code: "T13",
        says: "a row that agrees with an earlier one on all bits that both fix",
        advice: "fix another bit; guards do not tell rows apart",
    },
    Sentence {
        code: "T14",
        says: "more than a limit allows",
        advice: "split it",
    },
];

/// The sentence of such a fault.
fn of_text(code: &str) -> Option<Sentence>
    ensures { IfSome result (λ sentence. bytes_eq sentence.code.now code.now ≡ true) }
{
    find_sentence(&TOKENS, code)
}

/// The sentences of faults of a specification that has a tree.
const RULES: [Sentence; 9] = [
    Sentence {
        code: "T1",
        says: "a name of a type, variable, function or constructor that nothing declares",
        advice: "declare it, or mend the spelling",
    },
    Sentence {
        code: "T2",
        says: "a name that was declared before: of a type or map type, a constructor, a function, a parameter, a field. Or of a variable of the same pattern, or a field of the same decode row. Or a second `decode`",
        advice: "rename one; `let` and patterns may hide outer names",
    },
    Sentence {
        code: "T3",
        says: "a part of another type than is wanted there",
        advice: "use `zext`, `sext` or `trunc`, or another literal",
    },
    Sentence {
        code: "T4",
        says: "a wrong count of arguments, of a call, a constructor or a pattern",
        advice: "give as many as are declared",
    },
    Sentence {
        code: "T5",
        says: "a width outside 1 to 64, or more than 32 for a key. Or a number that does not fit its width, or a cast the wrong way",
        advice: "choose a width that fits",
    },
    Sentence {
        code: "T6",
        says: "a datatype that contains itself, directly or through others",
        advice: "use a map",
    },
    Sentence {
        code: "T7",
        says: "a function with a call of its own group outside tail position",
        advice: "pass what is still to be done as an argument",
    },
    Sentence {
        code: "T8",
        says: "a match that some value meets no arm of, with an example",
        advice: "add an arm",
    },
    Sentence {
        code: "T9",
        says: "an arm that no value reaches, numbered from 0",
        advice: "take it out, or move it up",
    },
];

/// The sentence of such a fault.
fn of_rule(code: &str) -> Option<Sentence>
    ensures { IfSome result (λ sentence. bytes_eq sentence.code.now code.now ≡ true) }
{
    find_sentence(&RULES, code)
}

/// The sentences of faults of code and of entries.
const INPUTS: [Sentence; 11] = [
    Sentence {
        code: "I1",
        says: "the bytes of a part are no multiple of 4",
        advice: "a word has four: see how the file was made",
    },
    Sentence {
        code: "I2",
        says: "there are more than 1,048,576 bytes up to this part",
        advice: "leave out what is not run",
    },
    Sentence {
        code: "I3",
        says: "a part reaches past the end of memory, 2^32",
        advice: "a lower `--at`, or a lower address behind `@`",
    },
    Sentence {
        code: "I4",
        says: "an address is no multiple of 4",
        advice: "mend `--at`, or the address behind `@`",
    },
    Sentence {
        code: "I5",
        says: "the part has an address in common with an earlier one",
        advice: "put it elsewhere, by the address behind its `@`",
    },
    Sentence {
        code: "E1",
        says: "the line has none of these forms",
        advice: "write it as `pc 1000`, `x[10] 2a`, `x[*] 0`, `mem[2000..] 00ff10`, `x[3] any` or `x[3] 0..ff`",
    },
    Sentence {
        code: "E2",
        says: "an unknown field, a map without a key, a word with one, or a key that the map has not. Or a run past the last key, or of other cells than INT8",
        advice: "the fields are those of `State` in the specification; a map takes a key, as `x[10]`",
    },
    Sentence {
        code: "E3",
        says: "a number that does not fit",
        advice: "hex digits without `0x`, below 2 to the width of the cell",
    },
    Sentence {
        code: "E4",
        says: "the cell was given before",
        advice: "leave one of the lines out",
    },
    Sentence {
        code: "E5",
        says: "no line is faulty, and none gives the counter one number",
        advice: "give it one, as `pc 1000`, by the name of the first field of `State`",
    },
    Sentence {
        code: "E6",
        says: "`emulate` needs single numbers, and the line of this cell is the first that gives more",
        advice: "give the cell one number, or `analyse`",
    },
];

/// The sentence of such a fault.
fn of_input(code: &str) -> Option<Sentence>
    ensures { IfSome result (λ sentence. bytes_eq sentence.code.now code.now ≡ true) }
{
    find_sentence(&INPUTS, code)
}

/// The sentences of faults of tables and claims, and of tables that are rejected.
const TABLES: [Sentence; 10] = [
    Sentence {
        code: "X1",
        says: "the line is not what the format allows there, or ends without a line feed. Or an address behind `at` or `next`, or among stamps, is that of no code word; or cells are out of order, or more than 256 in a map; or a row adds nothing",
        advice: "let `analyse` or `convert` write it; \"Tables\" has the lines and their order",
    },
    Sentence {
        code: "X2",
        says: "the table is over another base than `--base`",
        advice: "give the `--base` that the line names",
    },
    Sentence {
        code: "X3",
        says: "the line has another order of bytes, or another part of the code, than the words",
        advice: "give the `--order`, `--at` and CODE that the table was made with",
    },
    Sentence {
        code: "rejected entry",
        says: "at the entry's counter, which is code, stands no block, or its element does not absorb that of the entry",
        advice: "ask where the table comes from; `analyse` makes one that is closed",
    },
    Sentence {
        code: "rejected targets",
        says: "the instruction at A goes to other addresses than its `next` and `exit` lines say; or its block is left open, without `--open` or otherwise than its last line says",
        advice: "ask where the table comes from; `analyse` makes one that is closed",
    },
    Sentence {
        code: "rejected use",
        says: "it reads otherwise than its `use` lines say",
        advice: "ask where the table comes from; `analyse` makes one that is closed",
    },
    Sentence {
        code: "rejected open",
        says: "the instruction at A goes to B, where no block stands, or its element does not absorb the one that comes from A",
        advice: "ask where the table comes from; `analyse` makes one that is closed",
    },
    Sentence {
        code: "K1",
        says: "the line has none of these forms; or LO is greater than HI; or a number is 2^w or more for a cell of width w",
        advice: "write it as `ADDRESS CELL in LO..HI`, `ADDRESS eq TERM TERM ..`, `ADDRESS CELL != HEX` or `ADDRESS never`",
    },
    Sentence {
        code: "K2",
        says: "the address is that of no code word; or the cell is none of the states', as the counter; or, over a base with `affine`, a cell of a sum is not tracked",
        advice: "an address that `list` writes, and a cell of `State` but the counter",
    },
    Sentence {
        code: "K3",
        says: "no part of the base tells of such a claim: a sum over a base without `affine`, a range or `!=` over `affine` alone",
        advice: "for a sum a table over a base with `affine`, for the others over any other",
    },
];

/// The sentence of such a fault or line.
fn of_table(code: &str) -> Option<Sentence>
    ensures { IfSome result (λ sentence. bytes_eq sentence.code.now code.now ≡ true) }
{
    find_sentence(&TABLES, code)
}

/// The sentences of other lines.
const LINES: [Sentence; 8] = [
    Sentence {
        code: "cannot read",
        says: "the file could not be read: it is missing, or a folder, or a read failed",
        advice: "look at the name, and at the rights of the file",
    },
    Sentence {
        code: "stop undecodable",
        says: "the emulator met a word without decoding",
        advice: "`list` the code: data among it, another `--order`, or an instruction that the specification lacks",
    },
    Sentence {
        code: "undecodable",
        says: "an analysis comes to a word without decoding, or a table lists one",
        advice: "`list` the code: data among it, another `--order`, or an instruction that the specification lacks",
    },
    Sentence {
        code: "targets",
        says: "in an analysis, or by a table, the instruction at A may go to more addresses than `--limit`",
        advice: "a base with sets (`kset+..`); an entry that says where to return to; a larger `--limit` for a table of jumps. `docs/GUIDE.md`, \"No table, or a coarse one\"",
    },
    Sentence {
        code: "stop calls",
        says: "a step of the emulator had no turn left",
        advice: "`--calls`, or a loop that does not end",
    },
    Sentence {
        code: "calls spent",
        says: "a `call` had no turn left",
        advice: "`--calls`, or a loop that does not end",
    },
    Sentence {
        code: "too long",
        says: "the file has more bytes than its limit: 262,144 of a specification, 1,048,576 of code, 65,536 of an entry and of claims, 67,108,864 of a table",
        advice: "split it, or take less of it",
    },
    Sentence {
        code: "no memory",
        says: "memory ran out, or an evaluation went deeper than 1,200 levels, of which an if, a match or a call takes two or more",
        advice: "more memory; a base with fewer parts; branches and calls that nest less",
    },
];

/// The sentence of such a line.
fn of_line(code: &str) -> Option<Sentence>
    ensures { IfSome result (λ sentence. bytes_eq sentence.code.now code.now ≡ true) }
{
    find_sentence(&LINES, code)
}

/// The sentences of options.
const OPTIONS: [Sentence; 9] = [
    Sentence {
        code: "--at",
        says: "1 to 8 hex digits: the address of the first code word",
        advice: "",
    },
    Sentence {
        code: "--order",
        says: "`big` or `little`: how the bytes of a code word follow",
        advice: "",
    },
    Sentence {
        code: "--steps",
        says: "0 to 4294967295: steps of the run at most",
        advice: "",
    },
    Sentence {
        code: "--calls",
        says: "1 to 65536: turns of an activation at most. A call of a function begins one, with its body as the first turn; each call back to the function or its group is one more (`docs/LANGUAGE.md`, \"Evaluation\")",
        advice: "",
    },
    Sentence {
        code: "--base",
        says: "the kind of abstract words (\"Tables\"); of `slice` one with `defuse`",
        advice: "",
    },
    Sentence {
        code: "--limit",
        says: "1 to 4096: addresses at most to which an instruction may go, or each case of it",
        advice: "",
    },
    Sentence {
        code: "--widen",
        says: "1 to 64: the change of an element from which on it is widened (\"Growth\")",
        advice: "",
    },
    Sentence {
        code: "--cases",
        says: "0 to 8: how often over an element is split where an instruction compares a cell with a number (\"Cases\")",
        advice: "",
    },
    Sentence {
        code: "--open",
        says: "no value: an analysis goes on past an instruction of which it can not say what comes next; a table that is read may be left open there (\"Open blocks\")",
        advice: "",
    },
];

/// The sentence of an option.
fn of_option(code: &str) -> Option<Sentence>
    ensures { IfSome result (λ sentence. bytes_eq sentence.code.now code.now ≡ true) }
{
    find_sentence(&OPTIONS, code)
}
