//! Instructions and bodies, read, skimmed and written.

use std::alloc::Global;
use test_kit::joined;
use wasm_grammar::{ReadFault, Stop};
use wasm_instr::{
    BlockKind, Body, BodyFault, Instr, LocalRun, Outline, Placed, body_at, instr_at, outline_step,
    put_body, put_instr, read_body, skim_at, skip_locals_at, write_instr,
};
use wasm_types::ValType;
use wl_base::{Item, OutOfMemory, Seq};

fn placed(instr: Instr, at: u32, mid: u32, end: u32) -> Placed {
    Placed {
        instr,
        at,
        mid,
        end,
    }
}

fn get(local: u32) -> Instr {
    Instr::Local {
        opcode: 0x20,
        local,
    }
}

/// local.get 0, local.get 1, i64.add, end
fn sum(alloc: Global) -> Result<Body, OutOfMemory> {
    let code = vec![in alloc;
        placed(get(0), 1, 2, 3),
        placed(get(1), 3, 4, 5),
        placed(Instr::Plain(0x7c), 5, 6, 6),
        placed(Instr::Plain(0x0b), 6, 7, 7),
    ]?;
    Ok(Body {
        locals: Seq::new(alloc),
        code: Seq::from_vec(code),
    })
}

/// two i32 and a f64, f32.const 1.0, drop, end
fn carried(alloc: Global) -> Result<Body, OutOfMemory> {
    let two = LocalRun {
        count: 2,
        kind: ValType::I32,
    };
    let one = LocalRun {
        count: 1,
        kind: ValType::F64,
    };
    let locals = Seq::from_slice(alloc, &[two, one])?;
    let code = vec![in alloc;
        placed(Instr::F32Const(0x3f80_0000), 5, 6, 10),
        placed(Instr::Plain(0x1a), 10, 11, 11),
        placed(Instr::Plain(0x0b), 11, 12, 12),
    ]?;
    Ok(Body {
        locals,
        code: Seq::from_vec(code),
    })
}

fn sum_is_read(alloc: Global) -> Result<bool, OutOfMemory> {
    let sum = sum(alloc)?;
    Ok(read_body(alloc, &[0x00, 0x20, 0x00, 0x20, 0x01, 0x7c, 0x0b]) == Ok(sum))
}

fn carried_is_read(alloc: Global) -> Result<bool, OutOfMemory> {
    let carried = carried(alloc)?;
    let bytes = [
        0x02, 0x02, 0x7f, 0x01, 0x7c, 0x43, 0, 0, 0x80, 0x3f, 0x1a, 0x0b,
    ];
    Ok(body_at(alloc, &bytes) == Ok(carried))
}

#[test]
fn bodies_are_read_with_places(rt: HostRuntime) {
    assert!(rt; sum_is_read(rt.alloc()) == Ok(true));
    assert!(rt; carried_is_read(rt.alloc()) == Ok(true));
}

/// The fault of these bytes, where they are no body.
fn fault_of(alloc: Global, bytes: &[u8]) -> Option<BodyFault> {
    if bytes.len() > 100 {
        return None;
    }
    match read_body(alloc, bytes) {
        Ok(_) => None,
        Err(fault) => Some(fault),
    }
}

/// Whether these bytes are broken at this place of them.
fn is_broken(alloc: Global, bytes: &[u8], place: u32) -> bool {
    fault_of(alloc, bytes) == Some(BodyFault::Broken(place))
}

/// Whether these bytes have this item, which isn't linked.
fn is_foreign(alloc: Global, bytes: &[u8], item: Item) -> bool {
    fault_of(alloc, bytes) == Some(BodyFault::Stops(item))
}

/// local.get 0, drop, end; and an `if` with an `else`
fn bodies_are_whole(alloc: Global) -> bool {
    fault_of(alloc, &[0x00, 0x20, 0x00, 0x1a, 0x0b]).is_none()
        && fault_of(alloc, &[0x00, 0x41, 0, 0x04, 0x40, 0x05, 0x0b, 0x0b]).is_none()
}

fn opcodes_are_not_linked(alloc: Global) -> bool {
    let opcode = |byte, sub| Item::Opcode { byte, sub };
    is_foreign(alloc, &[0x00, 0xfd, 0x0b], opcode(253, 0))
        && is_foreign(alloc, &[0x00, 0xfc, 0x08], opcode(252, 8))
        && is_foreign(alloc, &[0x00, 0xd0, 0x70, 0x0b], opcode(0xd0, 0))
        && is_foreign(alloc, &[0x00, 0xc5], opcode(0xc5, 0))
}

/// An `else` outside an `if`, in another block, and a second one.
fn elses_are_out_of_place(alloc: Global) -> bool {
    is_broken(alloc, &[0x00, 0x05, 0x0b], 1)
        && is_broken(alloc, &[0x00, 0x03, 0x40, 0x05, 0x0b, 0x0b], 3)
        && is_broken(alloc, &[0x00, 0x04, 0x40, 0x05, 0x05, 0x0b, 0x0b], 4)
}

/// A byte behind the end, no end, numbers that are cut, a byte that has to be 0, and no byte at all.
fn bodies_are_cut(alloc: Global) -> bool {
    is_broken(alloc, &[0x00, 0x0b, 0x01], 2)
        && is_broken(alloc, &[0x00, 0x02, 0x40, 0x0b], 4)
        && is_broken(alloc, &[0x00, 0x10, 0x80], 2)
        && is_broken(alloc, &[0x00, 0x44, 1, 2, 3, 4, 5, 6, 7], 9)
        && is_broken(alloc, &[0x00, 0xfc, 0x0a, 0x00, 0x01], 4)
        && is_broken(alloc, &[], 0)
}

/// 2^32 locals, before the type of the last ones; and types of locals and of blocks.
fn types_are_refused(alloc: Global) -> bool {
    let many = [0x02, 0xff, 0xff, 0xff, 0xff, 0x0f, 0x7f, 0x01, 0x7b, 0x0b];
    is_broken(alloc, &many, 7)
        && is_foreign(alloc, &[0x01, 0x01, 0x7b, 0x0b], Item::ValueType(0x7b))
        && is_foreign(
            alloc,
            &[0x00, 0x02, 0x70, 0x0b, 0x0b],
            Item::ValueType(0x70),
        )
        && is_broken(alloc, &[0x00, 0x02, 0x41, 0x0b, 0x0b], 2)
}

#[test]
fn the_first_fault_is_told(rt: HostRuntime) {
    assert!(rt; bodies_are_whole(rt.alloc()));
    assert!(rt; opcodes_are_not_linked(rt.alloc()));
    assert!(rt; elses_are_out_of_place(rt.alloc()));
    assert!(rt; bodies_are_cut(rt.alloc()));
    assert!(rt; types_are_refused(rt.alloc()));
}

fn is_written(alloc: Global, instr: &Instr, bytes: &[u8]) -> bool {
    let mut written = Seq::new(alloc);
    write_instr(&mut written, instr).is_ok() && written.as_slice() == bytes
}

/// Whether the instruction is put behind a byte that is there.
fn is_put(alloc: Global, instr: &Instr, bytes: &[u8]) -> Result<bool, OutOfMemory> {
    let mut to = Seq::from_slice(alloc, &[9])?;
    put_instr(&mut to, instr)?;
    Ok(to.as_slice()[0] == 9 && &to.as_slice()[1..] == bytes)
}

fn is_read(alloc: Global, instr: &Instr, bytes: &[u8], last: &[u8]) -> bool {
    match instr_at(alloc, bytes.len(), bytes) {
        Ok((found, mid, rest)) => found == *instr && mid == last && rest.is_empty(),
        Err(_) => false,
    }
}

/// Whether the instruction is written as these bytes, and read and skimmed from them, with its last
/// immediate where the second ones begin.
fn is_spelled(alloc: Global, instr: Instr, outline: Outline, head: &[u8], last: &[u8]) -> bool {
    let bytes = match joined(alloc, &[head, last]) {
        Ok(bytes) => bytes,
        Err(_) => return false,
    };
    let text = bytes.as_slice();
    is_written(alloc, &instr, text)
        && is_put(alloc, &instr, text) == Ok(true)
        && instr.outline() == outline
        && skim_at(text.len(), text) == Ok((outline, last, [].as_slice()))
        && is_read(alloc, &instr, text, last)
}

fn blocks_are_spelled(alloc: Global) -> bool {
    let of = |opcode, kind| Instr::Block { opcode, kind };
    let other = Outline::Block {
        may_else: false,
        index: false,
    };
    let with_index = Outline::Block {
        may_else: true,
        index: true,
    };
    let value = BlockKind::Value(ValType::I64);
    is_spelled(alloc, Instr::Plain(0x05), Outline::Else, &[0x05], &[])
        && is_spelled(alloc, Instr::Plain(0x0b), Outline::End, &[0x0b], &[])
        && is_spelled(alloc, of(0x02, BlockKind::Empty), other, &[0x02], &[0x40])
        && is_spelled(alloc, of(0x03, value), other, &[0x03], &[0x7e])
        && is_spelled(
            alloc,
            of(0x04, BlockKind::Index(64)),
            with_index,
            &[0x04],
            &[0xc0, 0x00],
        )
}

fn branches_are_spelled(alloc: Global) -> bool {
    let other = Outline::Other;
    let through = Outline::CallIndirect { table: 1 };
    is_spelled(alloc, Instr::Plain(0x00), other, &[0x00], &[])
        && is_spelled(
            alloc,
            Instr::Branch {
                opcode: 0x0d,
                label: 300,
            },
            other,
            &[0x0d],
            &[0xac, 0x02],
        )
        && is_spelled(alloc, Instr::Call(5), Outline::Call, &[0x10], &[5])
        && is_spelled(
            alloc,
            Instr::CallIndirect { kind: 7, table: 1 },
            through,
            &[0x11, 7],
            &[1],
        )
}

fn table_is_spelled(alloc: Global) -> bool {
    match Seq::from_slice(alloc, &[1, 200]) {
        Ok(labels) => {
            let table = Instr::BranchTable { labels, last: 2 };
            is_spelled(
                alloc,
                table,
                Outline::Other,
                &[0x0e, 2, 1, 0xc8, 0x01],
                &[2],
            )
        }
        Err(_) => false,
    }
}

fn typed_is_spelled(alloc: Global) -> bool {
    match Seq::from_slice(alloc, &[ValType::F32]) {
        Ok(types) => is_spelled(
            alloc,
            Instr::SelectTyped(types),
            Outline::Other,
            &[0x1c],
            &[1, 0x7d],
        ),
        Err(_) => false,
    }
}

#[test]
fn control_is_read_skimmed_and_written(rt: HostRuntime) {
    assert!(rt; blocks_are_spelled(rt.alloc()));
    assert!(rt; branches_are_spelled(rt.alloc()));
    assert!(rt; table_is_spelled(rt.alloc()));
    assert!(rt; typed_is_spelled(rt.alloc()));
}

fn accesses_are_spelled(alloc: Global) -> bool {
    let other = Outline::Other;
    is_spelled(alloc, get(3), other, &[0x20], &[3])
        && is_spelled(
            alloc,
            Instr::GlobalAt {
                opcode: 0x24,
                global: 9,
            },
            Outline::Global,
            &[0x24],
            &[9],
        )
        && is_spelled(
            alloc,
            Instr::Access {
                opcode: 0x36,
                align: 2,
                offset: 1028,
            },
            Outline::Access,
            &[0x36, 2],
            &[0x84, 0x08],
        )
        && is_spelled(alloc, Instr::MemorySize, other, &[0x3f], &[0])
        && is_spelled(alloc, Instr::MemoryGrow, other, &[0x40], &[0])
        && is_spelled(alloc, Instr::MemoryCopy, other, &[0xfc, 10, 0], &[0])
        && is_spelled(alloc, Instr::MemoryFill, other, &[0xfc, 11], &[0])
}

fn numbers_are_spelled(alloc: Global) -> bool {
    let other = Outline::Other;
    is_spelled(
        alloc,
        Instr::I32Const(-64),
        Outline::I32Const,
        &[0x41],
        &[0x40],
    ) && is_spelled(alloc, Instr::I64Const(64), other, &[0x42], &[0xc0, 0x00])
        && is_spelled(
            alloc,
            Instr::F32Const(0x3f80_0000),
            other,
            &[0x43],
            &[0, 0, 0x80, 0x3f],
        )
        && is_spelled(
            alloc,
            Instr::F64Const(0x0807_0605_0403_0201),
            other,
            &[0x44],
            &[1, 2, 3, 4, 5, 6, 7, 8],
        )
        && is_spelled(alloc, Instr::Plain(0xc4), other, &[0xc4], &[])
        && is_spelled(alloc, Instr::Truncate(7), other, &[0xfc, 7], &[])
}

#[test]
fn values_are_read_skimmed_and_written(rt: HostRuntime) {
    assert!(rt; accesses_are_spelled(rt.alloc()));
    assert!(rt; numbers_are_spelled(rt.alloc()));
}

fn locals_are_skipped() -> bool {
    let runs = [0x02, 0x02, 0x7f, 0x01, 0x7c, 0x0b];
    let many = [0x02, 0xff, 0xff, 0xff, 0xff, 0x0f, 0x7f, 0x01, 0x7b];
    skip_locals_at(6, &runs) == Ok([0x0b].as_slice())
        && skip_locals_at(9, &many) == Err(Stop::Broken(7))
}

fn faults_are_skimmed() -> bool {
    let memory_init = Item::Opcode { byte: 0xfc, sub: 8 };
    skim_at(10, &[0xfc, 0x08]) == Err(Stop::Foreign(memory_init))
        && skim_at(10, &[0x0e, 0x02, 0x01]) == Err(Stop::Broken(10))
        && skim_at(10, &[0x1c, 0x02, 0x7f, 0x6f]) == Err(Stop::Foreign(Item::ValueType(0x6f)))
}

/// Whether an `if` in a body, its `else` and its end leave the body open, which may have no `else`.
fn only_the_if_has_one(opens: &mut Seq<bool>) -> bool {
    let may = Outline::Block {
        may_else: true,
        index: false,
    };
    outline_step(opens, 3, may) == Ok(())
        && outline_step(opens, 4, Outline::Else) == Ok(())
        && opens.as_slice() == [false, false].as_slice()
        && outline_step(opens, 5, Outline::End) == Ok(())
        && outline_step(opens, 6, Outline::Else) == Err(ReadFault::Stopped(Stop::Broken(6)))
        // The block that may have no `else` stays open.
        && opens.as_slice() == [false].as_slice()
}

fn only_the_if_has_an_else(alloc: Global) -> bool {
    match Seq::from_slice(alloc, &[false]) {
        Ok(mut opens) => only_the_if_has_one(&mut opens),
        Err(_) => false,
    }
}

#[test]
fn locals_are_skipped_and_faults_skimmed(rt: HostRuntime) {
    assert!(rt; locals_are_skipped());
    assert!(rt; faults_are_skimmed());
    assert!(rt; only_the_if_has_an_else(rt.alloc()));
}

/// Whether a body of these bytes is written as those, behind a 9.
fn is_rewritten(alloc: Global, bytes: &[u8; 10], want: &[u8]) -> Result<bool, OutOfMemory> {
    let mut to = Seq::from_slice(alloc, &[9])?;
    match read_body(alloc, bytes) {
        Ok(body) => put_body(&mut to, &body)?,
        Err(_) => return Ok(false),
    }
    Ok(to.as_slice() == want)
}

#[test]
fn bodies_are_written_without_places(rt: HostRuntime) {
    // a run of two i32, i32.const 1 in three bytes, drop, end
    let long = [0x81, 0x00, 0x02, 0x7f, 0x41, 0x81, 0x80, 0x00, 0x1a, 0x0b];
    let short = [0x01, 0x02, 0x7f, 0x41, 0x01, 0x1a, 0x0b];
    let written = [9, 0x01, 0x02, 0x7f, 0x41, 0x01, 0x1a, 0x0b];
    assert!(rt; is_rewritten(rt.alloc(), &long, &written) == Ok(true));
    assert!(rt; fault_of(rt.alloc(), &short).is_none());
}
