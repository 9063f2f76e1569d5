//! Scripts.

use run_rules::{Answer, Session, Value};
use run_script::{ScriptError, read_script};
use std::alloc::Global;
use std::test::Fail;

/// Whether the script is read, and says the pages, the entries, and a session that passes the test.
fn says(alloc: Global, text: &[u8], pages: Option<u32>, entries: Option<u32>, test: u8) -> bool {
    match read_script(alloc, text) {
        Ok(script) => script.session.pages == pages
            && script.entries == entries
            && passes(&script.session, test),
        Err(_) => false,
    }
}

/// The looks at a session, by number.
fn passes(session: &Session, test: u8) -> bool {
    match test {
        0 => calls_f(session) && answers_all(session) && gives_g(session),
        _ => session.calls.is_empty() && session.answers.is_empty() && session.globals.is_empty(),
    }
}

fn is_i32(value: Value, number: u32) -> bool {
    match value {
        Value::I32(n) => n == number,
        _ => false,
    }
}

/// One call, of `f` with 7.
fn calls_f(session: &Session) -> bool {
    match session.calls.as_slice() {
        [call] => match call.args.as_slice() {
            [value] => call.name.as_slice() == b"f".as_slice() && is_i32(*value, 7),
            _ => false,
        },
        _ => false,
    }
}

/// Two bytes at 16 and no value; a trap; a memory that may grow.
fn answers_all(session: &Session) -> bool {
    match session.answers.as_slice() {
        [
            Answer::Results { writes, values },
            Answer::Trap,
            Answer::Grow(grows),
        ] => match writes.as_slice() {
            [write] => write.address == 16
                && write.bytes.as_slice() == [10, 255].as_slice()
                && values.is_empty()
                && *grows,
            _ => false,
        },
        _ => false,
    }
}

/// One global, `m` and the empty name, which begins as 5.
fn gives_g(session: &Session) -> bool {
    match session.globals.as_slice() {
        [global] => global.module.as_slice() == b"m".as_slice()
            && global.field.is_empty()
            && is_i32(global.value, 5),
        _ => false,
    }
}

/// The first line that isn't of a script.
fn bad_line(alloc: Global, text: &[u8]) -> Option<u64> {
    match read_script(alloc, text) {
        Ok(_) => None,
        Err(ScriptError::BadScript(line)) => Some(line),
        Err(ScriptError::OutOfMemory) => None,
    }
}

#[test]
fn all_lines_are_read(rt: HostRuntime) -> Result<(), Fail> {
    let text =
        b"# all\n\nmemory 2\ntable 3\nglobal m \\e i32:5\ncall f i32:7\nanswer 16=0AFF\ntrap\ngrow yes\n";
    assert!(rt; says(rt.alloc(), text.as_slice(), Some(2), Some(3), 0));
    assert!(rt; says(rt.alloc(), b"".as_slice(), None, None, 1));
    Ok(())
}

#[test]
fn the_first_bad_line_is_told(rt: HostRuntime) -> Result<(), Fail> {
    assert_eq!(rt; bad_line(rt.alloc(), b"cal f".as_slice()), Some(1));
    assert_eq!(rt;
        bad_line(rt.alloc(), b"call f\n\ncall  f\ncal f\n".as_slice()),
        Some(3)
    );
    assert_eq!(rt;
        bad_line(
            rt.alloc(),
            b"global m g i32:1\nglobal m g i64:1\n".as_slice()
        ),
        Some(2)
    );
    Ok(())
}
