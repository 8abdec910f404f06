//! The texts of help. The script `tsl` prints those of this file too: it takes the constants from it.

/// The program and its version.
pub const VERSION: &str = "wunlikat 1.0\n";

/// What stands before the pages of the commands.
pub const HEAD: &str =
    "usage: tsl COMMAND WORDS          answers on standard output, with an exit status (docs/FORMATS.md)
       tsl --help | COMMAND --help | --version

";

/// What stands behind them.
pub const TAIL: &str = "
SPEC is the name of a file, @ppc or @rv. docs/GUIDE.md is a walk of an hour; docs/LANGUAGE.md and docs/FORMATS.md have all forms, and
FORMATS.md the values of options, which are written `--name VALUE` or `--name=VALUE`.
";

/// The page of `call`.
pub const CALL: &str = "  call SPEC FUN NUMBER..          the value of a function
      options: --calls
      ./tsl call examples/first.tsl twice_the_last 7
";

/// The page of `list`.
pub const LIST: &str = "  list SPEC CODE                  which instruction each word is
      options: --at --order
      ./tsl list @rv examples/programs/adler32_rv.code --at 00001000 --order little
";

/// The page of `emulate`.
pub const EMULATE: &str =
    "  emulate SPEC CODE ENTRY         runs the code from one state, and prints the last one
      options: --at --order --steps --calls
      ./tsl emulate @rv examples/programs/adler32_rv.code examples/programs/adler32_rv.entry --at 00001000 --order little
";

/// The page of `analyse`.
pub const ANALYSE: &str =
    "  analyse SPEC CODE ENTRY         a table of what holds at each address in every run
      options: --at --order --base --limit --widen --cases --open
      ./tsl analyse @ppc examples/programs/crc32_ppc.code examples/programs/crc32_ppc.entry --at 00001000 > crc32.table
";

/// The page of `check`.
pub const CHECK: &str =
    "  check SPEC CODE ENTRY TABLE     whether a table, from wherever, is true of every run because it is closed
      options: --at --order --base --limit --cases --open
      ./tsl check @ppc examples/programs/crc32_ppc.code examples/programs/crc32_ppc.entry crc32.table --at 00001000
";

/// The page of `convert`.
pub const CONVERT: &str = "  convert SPEC CODE TABLE         a table of either format in format 2
      options: --at --order --base
      ./tsl convert @ppc examples/programs/crc32_ppc.code crc32.table --at 00001000
";

/// The page of `slice`.
pub const SLICE: &str = "  slice SPEC CODE ENTRY TABLE ADDRESS CELL
                                  from where a value comes that an instruction reads, by a table of a base with defuse
      options: --at --order --base --limit --cases --open
      ./tsl analyse @ppc examples/programs/crc32_ppc.code examples/programs/crc32_ppc.entry --at 00001000 --base kset+defuse > crc32.uses
      ./tsl slice @ppc examples/programs/crc32_ppc.code examples/programs/crc32_ppc.entry crc32.uses 00001044 'spr[LR]' \\
          --at 00001000 --base kset+defuse
";

/// The page of `claims`.
pub const CLAIMS: &str = "  claims SPEC CODE ENTRY TABLE CLAIMS
                                  yes for each claim of a file that a table shows of every run, open for any other
      options: --at --order --base --limit --cases --open
      echo '00001044 spr[LR] in fffffffc..fffffffc' > crc32.claims
      ./tsl claims @ppc examples/programs/crc32_ppc.code examples/programs/crc32_ppc.entry crc32.table crc32.claims --at 00001000
";

/// The page of `stress`.
pub const STRESS: &str =
    "  stress NUMBER COUNT             makes code from a number, analyses it, checks the table and runs the code, and tells of it
      options: --base
      ./tsl stress 1 64
";
