//! What the program says of itself.

use wl_base::Text;

const HELP: &str = "\
wasmrun runs a WebAssembly module by a script and prints what happened.

Usage:
  wasmrun MODULE --script FILE --steps N
  wasmrun --help
  wasmrun --version

  MODULE         a module of WebAssembly
  --script FILE  what is called, and what the host answers
  --steps N      how many instructions may be carried out, from 0 to 1000000000

A script has a line for each thing that it says, with one space between words.
Empty lines and lines that begin with # say nothing.

  call NAME VALUE..    call the function that is exported as NAME
  answer VALUE..       the host answers the next call of an imported function
                       with these results
  answer ADDRESS=HEX.. VALUE..
                       and first writes bytes to memory, two digits each
  trap                 the host ends that call by a trap
  grow yes, grow no    whether memory may grow, when that is asked
  global MODULE FIELD VALUE
                       the first value of an imported global, by default 0
  memory PAGES         the pages of an imported memory
  table ENTRIES        the entries of an imported table

Calls are made, and answers given, in the order of the lines. A VALUE is i32:N,
i64:N, f32:N or f64:N, where N is the bits as a decimal number. A HEX is an even
number of digits 0 to 9 and A to F. In a NAME a byte that isn't printed, a space
or a backslash is \\x and two such digits; the empty name is \\e.

The trace has a line for each thing that happened: asked MODULE FIELD VALUE..
(an imported function was called), returned VALUE.., trapped KIND, not called
(nothing is exported so), stuck, steps spent, host spent (no answer is left),
and carried B,S at an instruction that computes a float, where it ends. Then come
the memory, its pages and each 16 bytes that aren't all 0, the exported globals,
and end.

Exit status:
  0  the module was run, and its trace is printed
  1  it was not: no module, a bad line of the script, or a segment that doesn't
     fit the memory or the table
  2  the words are not as above
  3  a file can't be read
  4  the trace can't be written
  5  out of memory
";

const VERSION: &str = "wasmrun 0.1.0\n";

/// What the program prints where its only word asks for help or the version.
pub fn answer(words: &[Text]) -> Option<&'static str> {
    match words {
        [word] => match word.as_str() {
            "--help" => Some(HELP),
            "--version" => Some(VERSION),
            _ => None,
        },
        _ => None,
    }
}
