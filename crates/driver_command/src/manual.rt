//! What the program says of itself under the name `wasm-ld`.

ghost use Rattle.std.specs.Prelude.{◌≡◌};
ghost use Rattle.driver_command.specs.Manual.{text_of as text_of_what};

use driver_words::What;

// Build systems look for `LLD` in the first line, and read the number behind it.
const VERSION: &str = "LLD 14.0.0 (compatible with wasm-ld; wasmld 0.1.0)\n";

const HELP: &str = "\
wasmld under the name wasm-ld takes the words that compiler drivers write, and
links relocatable WebAssembly objects and static libraries into one WebAssembly
module.

Usage:
  wasm-ld INPUT.. -o OUTPUT [OPTION]..

  -o FILE                    the module that is written
  -lNAME, -L FOLDER          link the library libNAME.a of the first such folder
  @FILE                      take the words that stand in FILE
  -e NAME, --entry=NAME, --no-entry
                             the entry function, by default _start
  --export=NAME, --export-if-defined=NAME, -E, --export-dynamic, --export-table
                             what the module exports
  -u NAME                    load library members as if NAME were referred to
  --allow-undefined, --import-undefined
                             import undefined functions and globals
  --gc-sections, --no-gc-sections
                             drop what nothing refers to, or keep it
  --stack-first, --no-stack-first, --global-base=N, -z stack-size=N,
  --initial-memory=N, --max-memory=N, --no-growable-memory, --import-memory
                             the memory and what stands where in it
  --whole-archive, --no-whole-archive, --start-lib, --end-lib
                             how what follows is loaded
  -r, --relocatable          write one object in place of a module
  -s, --strip-all            leave out names, features and debug sections
  -S, --strip-debug          leave out the debug sections alone
  --keep-section=NAME        keep the section name or target_features with -s
  --features=LIST, --extra-features=LIST, --check-features, --no-check-features
                             the features that objects may use, those that the
                             module has beside them, and whether objects that
                             don't agree are refused, which is the default
  --threads=N                so many workers, by default 4
  --fatal-warnings           a warning is an error
  --version, --help          this text, or the version

Other options of wasm-ld are accepted where they change nothing of the program;
else they are refused by name. The exit status is 0 where the module is written,
and else 1.
";

/// The text that is asked for.
pub fn text_of(what: What) -> &'static str
    ensures { result.now ≡ text_of_what what }
{
    match what {
        What::Version => VERSION,
        What::Help => HELP,
    }
}
