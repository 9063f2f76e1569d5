//! What the program says of itself.

use wl_base::Text;

const HELP: &str = "\
wasmld links relocatable WebAssembly objects and static libraries into one
WebAssembly module.

Usage:
  wasmld INPUT.. -o OUTPUT [OPTION]..
  wasmld -r OBJECT.. -o OUTPUT
  wasmld --make-case=N [-o OUTPUT] [OPTION]..
  wasmld --help
  wasmld --version

A word that begins with '-' is an option, up to a word '--'; any other word is
an input. An option with a value is '--x=V' or '--x V'; -o, -u, -z and -m take
the next word. Where an option of one value is given again, the last counts.
Numbers are decimal, or 0x and hexadecimal digits.

  -o FILE                    the module that is written
  --entry=NAME, --no-entry   the entry function, by default _start; the later
                             of the two counts
  --export=NAME              export NAME
  --export-if-defined=NAME   export NAME where it is defined
  --export-table             export the table of functions
  --export-dynamic           export every definition that is neither local nor
                             hidden
  --allow-undefined          import undefined functions and globals
  -u NAME                    load library members as if NAME were referred to
  --global-base=N            where data begin
  --stack-first              the stack stands at 0
  -z stack-size=N            the stack's bytes, a multiple of 16, by default
                             65536
  --initial-memory=N         the least size of the memory in bytes, a multiple
                             of 65536
  --max-memory=N             the greatest size of the memory in bytes, a
                             multiple of 65536
  --import-memory            import env.memory in place of an own memory
  --gc-sections, --no-gc-sections
                             drop what nothing refers to, which is the default,
                             or keep it
  --whole-archive, --no-whole-archive
                             load the libraries that follow whole, or by need
  --start-lib, --end-lib     load the objects between by need
  --threads=N                1 to 64 workers, by default 4
  --make-case=N              link N generated objects, 1 to 20000, and print
                             what became of them
  --validate                 check the module by the standard's rules of
                             validation, and refuse it where it breaks one
  --keep-debug               keep the objects' debug sections, joined
  -r                         write one relocatable object in place of a module;
                             the inputs are objects, and of the other options
                             -o and --threads alone have an effect
  -shared                    write a position-independent module, which a loader
                             places: without an entry, and no option that says
                             where memory lies has an effect
  -m wasm32, -s, -S, --strip-all, --strip-debug
                             have no effect

Nothing is printed where the link succeeds, but of a generated case; else one
line tells what is wrong.

Exit status:
  0  the module is written
  1  the link is refused
  2  the words are not as above
  3  an input can't be read
  4  the output can't be written
  5  out of memory
";

const VERSION: &str = "wasmld 0.1.0\n";

/// What the program prints where its only word asks for help or the version.
pub fn answer(words: &[Text]) -> Option<&'static str> {
    match words {
        [word] => match word.as_str() {
            "--help" => Some(HELP),
            "--version" => Some(VERSION),
            _ => None,
        },
        _ => None,
    }
}
