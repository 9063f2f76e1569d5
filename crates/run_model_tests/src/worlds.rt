//! Worlds and sessions from short descriptions.

use run_rules::{
    Answer, Call, Exported, Function, MemWrite, Op, Session, Source, Target, Value, World,
};
use std::alloc::Global;
use wasm_instr::{Instr, LocalRun};
use wasm_types::{FuncType, ValType};
use wl_base::{OutOfMemory, Seq};

/// What the second function is.
#[derive(Clone, Copy)]
pub(crate) enum Other<'a> {
    /// There is none.
    Nothing,
    /// One without arguments that gives an i32.
    Runs(&'a [u8]),
    /// The host's, of one i32 to an i32.
    Hosted,
}

/// What the host answers.
#[derive(Clone, Copy)]
pub(crate) enum Said {
    /// One i32, and a byte that it writes to this address.
    Writes(u32, u32, u8),
    /// One i32.
    Gives(u32),
    /// A trap.
    Breaks,
    /// To a growth.
    Lets(bool),
}

/// What a run begins with. The first function takes an i32 and gives one; it is exported as `f`. The table has null
/// and the functions; a memory may have two pages.
#[derive(Clone, Copy)]
pub(crate) struct Setting<'a> {
    /// The code of the first function: an opcode and the number behind it for each instruction. Of a block that is how
    /// many i32 it gives. Without code it is the host's.
    pub code: &'a [u8],
    /// How many i32 it has beside its argument.
    pub locals: u32,
    pub other: Other<'a>,
    /// The bytes of the memory, if there is one.
    pub memory: Option<&'a [u8]>,
    /// The argument of the call of `f`.
    pub arg: u32,
    /// Whether a call without arguments comes before.
    pub bare: bool,
    pub answer: Option<Said>,
    pub steps: u64,
}

/// A type of so many i32 and so many more.
fn kind_of(alloc: Global, params: u8, results: u8) -> Result<FuncType, OutOfMemory> {
    let mut takes = Seq::new(alloc);
    for _ in 0..params {
        takes.push(ValType::I32)?;
    }
    let mut gives = Seq::new(alloc);
    for _ in 0..results {
        gives.push(ValType::I32)?;
    }
    Ok(FuncType {
        params: takes,
        results: gives,
    })
}

/// A table of so many branches, each to its own label, and one to the label behind.
fn branches(alloc: Global, count: u8) -> Result<Instr, OutOfMemory> {
    let mut labels = Seq::new(alloc);
    for label in 0..count {
        labels.push(u32::from(label))?;
    }
    Ok(Instr::BranchTable {
        labels,
        last: u32::from(count),
    })
}

/// An instruction that asks nothing of its world and has a number behind it.
fn own_of(opcode: u8, n: u8) -> Instr {
    match opcode {
        0x0C | 0x0D => Instr::Branch {
            opcode,
            label: u32::from(n),
        },
        0x20..=0x22 => Instr::Local {
            opcode,
            local: u32::from(n),
        },
        0x28..=0x3E => Instr::Access {
            opcode,
            align: 0,
            offset: u32::from(n),
        },
        0x3F => Instr::MemorySize,
        0x40 => Instr::MemoryGrow,
        0x41 => Instr::I32Const(i32::from(n.cast_signed())),
        0x42 => Instr::I64Const(i64::from(n.cast_signed())),
        0x43 => Instr::F32Const(0),
        0xFC => match n {
            10 => Instr::MemoryCopy,
            11 => Instr::MemoryFill,
            _ => Instr::Truncate(u32::from(n)),
        },
        _ => Instr::Plain(opcode),
    }
}

fn op_of(alloc: Global, opcode: u8, n: u8) -> Result<Op, OutOfMemory> {
    Ok(match opcode {
        0x02..=0x04 => Op::OpenBlock {
            opcode,
            kind: kind_of(alloc, 0, n)?,
        },
        0x0E => Op::Own(branches(alloc, n)?),
        0x10 => Op::CallTo(u32::from(n)),
        0x11 => Op::CallThrough(kind_of(alloc, 0, n)?),
        0x23 => Op::ReadCell(u32::from(n)),
        0x24 => Op::WriteCell(u32::from(n)),
        _ => Op::Own(own_of(opcode, n)),
    })
}

fn code_of(alloc: Global, text: &[u8]) -> Result<Seq<Op>, OutOfMemory> {
    let mut code = Seq::new(alloc);
    for step in text.chunks(2) {
        if let [opcode, n] = step {
            code.push(op_of(alloc, *opcode, *n)?)?;
        }
    }
    Ok(code)
}

/// A function of the host, of one i32 to an i32.
fn hosted(alloc: Global) -> Result<Function, OutOfMemory> {
    let kind = kind_of(alloc, 1, 1)?;
    let module = Seq::from_slice(alloc, b"m".as_slice())?;
    let field = Seq::from_slice(alloc, b"g".as_slice())?;
    Ok(Function {
        kind,
        source: Source::Host { module, field },
    })
}

/// A function with this code that gives an i32.
fn running(alloc: Global, params: u8, count: u32, text: &[u8]) -> Result<Function, OutOfMemory> {
    let kind = kind_of(alloc, params, 1)?;
    let code = code_of(alloc, text)?;
    let mut locals = Seq::new(alloc);
    locals.push(LocalRun {
        count,
        kind: ValType::I32,
    })?;
    Ok(Function {
        kind,
        source: Source::Code { locals, code },
    })
}

/// The functions, in their order.
fn functions_of(
    alloc: Global,
    setting: &Setting<'_>,
) -> Result<Seq<Option<Function>>, OutOfMemory> {
    let mut functions = Seq::new(alloc);
    let first = if setting.code.is_empty() {
        hosted(alloc)?
    } else {
        running(alloc, 1, setting.locals, setting.code)?
    };
    functions.push(Some(first))?;
    match setting.other {
        Other::Nothing => {}
        Other::Runs(text) => functions.push(Some(running(alloc, 0, 0, text)?))?,
        Other::Hosted => functions.push(Some(hosted(alloc)?))?,
    }
    Ok(functions)
}

fn exports_of(alloc: Global) -> Result<Seq<Exported>, OutOfMemory> {
    let mut exports = Seq::new(alloc);
    let name = Seq::from_slice(alloc, b"f".as_slice())?;
    exports.push(Exported {
        name,
        target: Target::ToFunction(0),
    })?;
    Ok(exports)
}

/// The world of a setting.
pub(crate) fn world_of(alloc: Global, setting: &Setting<'_>) -> Result<World, OutOfMemory> {
    let functions = functions_of(alloc, setting)?;
    let slots = Seq::from_slice(alloc, [None, Some(0), Some(1)].as_slice())?;
    let exports = exports_of(alloc)?;
    Ok(World {
        functions,
        table: Some(slots),
        exports,
        memory: match setting.memory {
            Some(_) => Some(2),
            None => None,
        },
    })
}

fn results_of(alloc: Global, n: u32) -> Result<Seq<Value>, OutOfMemory> {
    Seq::from_slice(alloc, [Value::I32(n)].as_slice())
}

fn answer_of(alloc: Global, said: Said) -> Result<Answer, OutOfMemory> {
    match said {
        Said::Writes(n, address, byte) => {
            let values = results_of(alloc, n)?;
            let bytes = Seq::from_slice(alloc, [byte].as_slice())?;
            let mut writes = Seq::new(alloc);
            writes.push(MemWrite { address, bytes })?;
            Ok(Answer::Results { writes, values })
        }
        Said::Gives(n) => Ok(Answer::Results {
            writes: Seq::new(alloc),
            values: results_of(alloc, n)?,
        }),
        Said::Breaks => Ok(Answer::Trap),
        Said::Lets(may) => Ok(Answer::Grow(may)),
    }
}

fn call_of(alloc: Global, args: &[Value]) -> Result<Call, OutOfMemory> {
    let name = Seq::from_slice(alloc, b"f".as_slice())?;
    let args = Seq::from_slice(alloc, args)?;
    Ok(Call { name, args })
}

fn calls_of(alloc: Global, setting: &Setting<'_>) -> Result<Seq<Call>, OutOfMemory> {
    let mut calls = Seq::new(alloc);
    if setting.bare {
        calls.push(call_of(alloc, [].as_slice())?)?;
    }
    calls.push(call_of(alloc, [Value::I32(setting.arg)].as_slice())?)?;
    Ok(calls)
}

/// The session of a setting.
pub(crate) fn session_of(alloc: Global, setting: &Setting<'_>) -> Result<Session, OutOfMemory> {
    let calls = calls_of(alloc, setting)?;
    let mut answers = Seq::new(alloc);
    if let Some(said) = setting.answer {
        answers.push(answer_of(alloc, said)?)?;
    }
    Ok(Session {
        calls,
        answers,
        pages: None,
        globals: Seq::new(alloc),
    })
}
