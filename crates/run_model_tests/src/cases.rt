//! Runs, and what happens in them.

use crate::worlds::{Other, Said, Setting, session_of, world_of};
use run_model::run;
use run_rules::{Event, Trace, TrapKind, Value};
use std::alloc::Global;
use std::test::Fail;
use wl_base::{OutOfMemory, Seq};

/// What happened, of i32 alone.
#[derive(Clone, Copy)]
enum Seen {
    /// A call gave one value.
    Gave(u32),
    /// The host was asked with one value.
    Asked(u32),
    Trapped(TrapKind),
    NotCalled,
    Stuck,
    StepsSpent,
    HostSpent,
    Carried(u8, u32),
}

/// A run, the one or two events of it, and the memory at its end.
#[derive(Clone, Copy)]
struct Case<'a> {
    setting: Setting<'a>,
    first: Seen,
    second: Option<Seen>,
    memory: &'a [u8],
}

fn is_one(values: &[Value], n: u32) -> bool {
    match values {
        [Value::I32(m)] => *m == n,
        _ => false,
    }
}

fn is_seen(event: &Event, seen: Seen) -> bool {
    match (event, seen) {
        (Event::Returned(values), Seen::Gave(n)) => is_one(values.as_slice(), n),
        (
            Event::Asked {
                module: _,
                field: _,
                args,
            },
            Seen::Asked(n),
        ) => is_one(args.as_slice(), n),
        (Event::Trapped(a), Seen::Trapped(b)) => *a == b,
        (Event::Carried(op, n), Seen::Carried(other, m)) => *op == other && *n == m,
        (Event::NotCalled, Seen::NotCalled) => true,
        (Event::Stuck, Seen::Stuck) => true,
        (Event::StepsSpent, Seen::StepsSpent) => true,
        (Event::HostSpent, Seen::HostSpent) => true,
        _ => false,
    }
}

fn are_seen(events: &[Event], first: Seen, second: Option<Seen>) -> bool {
    match (events, second) {
        ([one], None) => is_seen(one, first),
        ([one, two], Some(second)) => is_seen(one, first) && is_seen(two, second),
        _ => false,
    }
}

fn traced(alloc: Global, setting: &Setting<'_>) -> Result<Trace, OutOfMemory> {
    let world = world_of(alloc, setting)?;
    let session = session_of(alloc, setting)?;
    let memory = Seq::from_slice(alloc, setting.memory.unwrap_or([].as_slice()))?;
    run(
        alloc,
        &world,
        &session,
        Seq::new(alloc),
        memory,
        setting.steps,
    )
}

fn holds(alloc: Global, case: &Case<'_>) -> bool {
    match traced(alloc, &case.setting) {
        Ok(trace) => {
            are_seen(trace.events.as_slice(), case.first, case.second)
                && trace.memory.as_slice() == case.memory
        }
        Err(_) => false,
    }
}

fn hold(alloc: Global, cases: &[Case<'_>]) -> bool {
    for case in cases {
        if !holds(alloc, case) {
            return false;
        }
    }
    true
}

/// One call of a function with this argument, without a memory, and its one event.
fn once(code: &[u8], arg: u32, first: Seen) -> Case<'_> {
    Case {
        setting: Setting {
            code,
            locals: 0,
            other: Other::Nothing,
            memory: None,
            arg,
            bare: false,
            answer: None,
            steps: 100,
        },
        first,
        second: None,
        memory: [].as_slice(),
    }
}

fn with_local(case: Case<'_>, steps: u64) -> Case<'_> {
    Case {
        setting: Setting {
            locals: 1,
            steps,
            ..case.setting
        },
        ..case
    }
}

fn bounded(case: Case<'_>, steps: u64) -> Case<'_> {
    Case {
        setting: Setting {
            steps,
            ..case.setting
        },
        ..case
    }
}

/// With these bytes before and after.
fn within<'a>(case: Case<'a>, before: &'a [u8], after: &'a [u8]) -> Case<'a> {
    Case {
        setting: Setting {
            memory: Some(before),
            ..case.setting
        },
        memory: after,
        ..case
    }
}

fn answered(case: Case<'_>, said: Said) -> Case<'_> {
    Case {
        setting: Setting {
            answer: Some(said),
            ..case.setting
        },
        ..case
    }
}

fn beside<'a>(case: Case<'a>, other: Other<'a>) -> Case<'a> {
    Case {
        setting: Setting {
            other,
            ..case.setting
        },
        ..case
    }
}

/// Calls the second function, which is the host's, and adds 1.
fn asking(first: Seen, second: Option<Seen>) -> Case<'static> {
    let code = b"\x20\0\x10\x01\x41\x01\x6A\0\x0B\0".as_slice();
    let case = once(code, 5, first);
    Case {
        second,
        ..beside(case, Other::Hosted)
    }
}

/// Calls what is in the slot of the argument, which has to give an i32; slot 2 has a function that gives 7.
fn through(slot: u32, first: Seen) -> Case<'static> {
    let code = b"\x20\0\x11\x01\x0B\0".as_slice();
    let seven = b"\x41\x07\x0B\0".as_slice();
    beside(once(code, slot, first), Other::Runs(seven))
}

#[test]
fn numbers_are_computed(rt: HostRuntime) -> Result<(), Fail> {
    let alloc = rt.alloc();
    // 7, or the least number, by the argument
    let quotient = b"\x41\x07\x20\0\x6D\0\x0B\0".as_slice();
    let least = b"\x41\x01\x41\x1F\x74\0\x20\0\x6D\0\x0B\0".as_slice();
    // an i64 beside an i32; a float
    let unlike = b"\x20\0\x42\x01\x6A\0\x0B\0".as_slice();
    let float = b"\x43\0\x1A\0\x20\0\x0B\0".as_slice();
    let twice = once(quotient, 7, Seen::NotCalled);
    let cases = [
        once(quotient, 0xFFFF_FFFE, Seen::Gave(0xFFFF_FFFD)),
        once(quotient, 0, Seen::Trapped(TrapKind::DivideByZero)),
        once(least, 0xFFFF_FFFF, Seen::Trapped(TrapKind::IntegerOverflow)),
        once(unlike, 1, Seen::Stuck),
        once(float, 1, Seen::Carried(0x43, 0)),
        Case {
            setting: Setting {
                bare: true,
                ..twice.setting
            },
            second: Some(Seen::Gave(1)),
            ..twice
        },
    ];
    let holds = hold(alloc, cases.as_slice());
    assert!(rt; holds);
    Ok(())
}

#[test]
fn blocks_are_left_and_entered(rt: HostRuntime) -> Result<(), Fail> {
    let alloc = rt.alloc();
    // the sum of the numbers up to the argument
    let sum =
        b"\x03\0\x20\0\x20\x01\x6A\0\x21\x01\x20\0\x41\x01\x6B\0\x22\0\x0D\0\x0B\0\x20\x01\x0B\0".as_slice();
    // 10 or 20
    let choice = b"\x20\0\x04\x01\x41\x0A\x05\0\x41\x14\x0B\0\x0B\0".as_slice();
    // 1 or 2, and past the table a branch out of the function, without a value
    let branches = b"\x02\0\x02\0\x20\0\x0E\x02\x0B\0\x41\x01\x0F\0\x0B\0\x41\x02\x0B\0".as_slice();
    let cases = [
        with_local(once(sum, 4, Seen::Gave(10)), 100),
        with_local(once(sum, 2, Seen::Gave(3)), 23),
        with_local(once(sum, 2, Seen::StepsSpent), 22),
        once(choice, 1, Seen::Gave(10)),
        once(choice, 0, Seen::Gave(20)),
        once(branches, 0, Seen::Gave(1)),
        once(branches, 1, Seen::Gave(2)),
        once(branches, 7, Seen::Stuck),
    ];
    let holds = hold(alloc, cases.as_slice());
    assert!(rt; holds);
    Ok(())
}

#[test]
fn memory_is_written_and_read(rt: HostRuntime) -> Result<(), Fail> {
    let alloc = rt.alloc();
    // the argument to address 1, and what is read at 2 with the sign of 8 bits
    let store = b"\x41\0\x20\0\x36\x01\x41\x02\x2C\0\x0B\0".as_slice();
    // three bytes of the argument from 1 on, and 4 of these to 0
    let bulk =
        b"\x41\x01\x20\0\x41\x03\xFC\x0B\x41\0\x41\x01\x41\x04\xFC\x0A\x3F\0\x0B\0".as_slice();
    let cases = [
        within(
            once(store, 0x0403_F201, Seen::Gave(0xFFFF_FFF2)),
            b"\x09\x09\x09\x09\x09\x09".as_slice(),
            b"\x09\x01\xF2\x03\x04\x09".as_slice(),
        ),
        within(
            once(store, 1, Seen::Trapped(TrapKind::MemoryBounds)),
            b"\x09\x09\x09\x09".as_slice(),
            b"\x09\x09\x09\x09".as_slice(),
        ),
        once(store, 1, Seen::Stuck),
        within(
            once(bulk, 0x107, Seen::Gave(0)),
            b"\x01\x02\x03\x04\x05".as_slice(),
            b"\x07\x07\x07\x05\x05".as_slice(),
        ),
        within(
            once(bulk, 1, Seen::Trapped(TrapKind::MemoryBounds)),
            b"\x02\x02\x02".as_slice(),
            b"\x02\x02\x02".as_slice(),
        ),
    ];
    let holds = hold(alloc, cases.as_slice());
    assert!(rt; holds);
    Ok(())
}

#[test]
fn memory_grows_where_the_host_lets_it(rt: HostRuntime) -> Result<(), Fail> {
    let alloc = rt.alloc();
    // so many pages more
    let more = b"\x20\0\x40\0\x0B\0".as_slice();
    let none = b"".as_slice();
    let cases = [
        within(
            answered(once(more, 0, Seen::Gave(0)), Said::Lets(true)),
            none,
            none,
        ),
        within(
            answered(once(more, 2, Seen::Gave(0xFFFF_FFFF)), Said::Lets(false)),
            none,
            none,
        ),
        within(once(more, 3, Seen::Gave(0xFFFF_FFFF)), none, none),
        within(once(more, 1, Seen::HostSpent), none, none),
    ];
    let holds = hold(alloc, cases.as_slice());
    assert!(rt; holds);
    Ok(())
}

#[test]
fn functions_are_called_through_the_table(rt: HostRuntime) -> Result<(), Fail> {
    let alloc = rt.alloc();
    let cases = [
        through(2, Seen::Gave(7)),
        through(0, Seen::Trapped(TrapKind::NullEntry)),
        through(3, Seen::Trapped(TrapKind::TableBounds)),
        through(1, Seen::Trapped(TrapKind::TypeDiffers)),
    ];
    let holds = hold(alloc, cases.as_slice());
    assert!(rt; holds);
    Ok(())
}

#[test]
fn the_host_is_asked(rt: HostRuntime) -> Result<(), Fail> {
    let alloc = rt.alloc();
    let before = b"\x01\x02".as_slice();
    let spent = asking(Seen::Asked(5), Some(Seen::HostSpent));
    let hosted = answered(once(b"".as_slice(), 5, Seen::Asked(5)), Said::Gives(6));
    let cases = [
        within(
            answered(
                asking(Seen::Asked(5), Some(Seen::Gave(7))),
                Said::Writes(6, 1, 9),
            ),
            before,
            b"\x01\x09".as_slice(),
        ),
        within(answered(spent, Said::Writes(6, 2, 9)), before, before),
        answered(
            asking(Seen::Asked(5), Some(Seen::Trapped(TrapKind::HostTrap))),
            Said::Breaks,
        ),
        spent,
        bounded(asking(Seen::StepsSpent, None), 1),
        // an exported function of the host takes no step
        Case {
            second: Some(Seen::Gave(6)),
            ..bounded(hosted, 0)
        },
    ];
    let holds = hold(alloc, cases.as_slice());
    assert!(rt; holds);
    Ok(())
}
