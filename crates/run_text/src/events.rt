//! What happened, and exported globals, behind a text.
ghost use Rattle.std.specs.Prelude.{◌≡◌, ◌++◌, OnOk};
ghost use Rattle.std.specs.List.{flat_map};
ghost use Rattle.run_text.specs.Text.{kind_text, event_text, global_text, line};

use crate::digits::{put_name, put_number, put_text};
use crate::values::{put_value, put_values};
use run_rules::{Event, NamedValue, TrapKind};
use wl_base::{OutOfMemory, Seq};

// The word for a trap.
fn kind_of(kind: TrapKind) -> &'static str
    ensures { result.now ≡ kind_text kind }
{
    match kind {
        TrapKind::Unreachable => "Unreachable",
        TrapKind::DivideByZero => "DivideByZero",
        TrapKind::IntegerOverflow => "IntegerOverflow",
        TrapKind::MemoryBounds => "MemoryBounds",
        TrapKind::TableBounds => "TableBounds",
        TrapKind::NullEntry => "NullEntry",
        TrapKind::TypeDiffers => "TypeDiffers",
        TrapKind::HostTrap => "HostTrap",
    }
}

// Puts what happened.
fn put_event(to: &mut Seq<u8>, event: &Event) -> Result<(), OutOfMemory>
    ensures { OnOk result (to.new ≡ to.old ++ event_text event.now) }
{
    match event {
        Event::Asked {
            module,
            field,
            args,
        } => {
            put_text(to, "asked ")?;
            put_name(to, module.as_slice())?;
            to.push(b' ')?;
            put_name(to, field.as_slice())?;
            put_values(to, args.as_slice())
        }
        Event::Returned(values) => {
            put_text(to, "returned")?;
            put_values(to, values.as_slice())
        }
        Event::Trapped(kind) => {
            put_text(to, "trapped ")?;
            put_text(to, kind_of(*kind))
        }
        Event::NotCalled => put_text(to, "not called"),
        Event::Stuck => put_text(to, "stuck"),
        Event::StepsSpent => put_text(to, "steps spent"),
        Event::HostSpent => put_text(to, "host spent"),
        Event::Carried(byte, sub) => {
            put_text(to, "carried ")?;
            put_number(to, u64::from(*byte))?;
            to.push(b',')?;
            put_number(to, u64::from(*sub))
        }
    }
}

/// Puts a line for each thing that happened.
pub fn put_events(to: &mut Seq<u8>, events: &[Event]) -> Result<(), OutOfMemory>
    ensures { OnOk result (to.new ≡ to.old ++ flat_map (λ e. line (event_text e)) events.now) }
{
    for event in events {
        put_event(to, event)?;
        to.push(b'\n')?;
    }
    Ok(())
}

// Puts an exported global.
fn put_global(to: &mut Seq<u8>, global: &NamedValue) -> Result<(), OutOfMemory>
    ensures { OnOk result (to.new ≡ to.old ++ global_text global.now) }
{
    put_text(to, "global ")?;
    put_name(to, global.name.as_slice())?;
    to.push(b' ')?;
    put_value(to, global.value)
}

/// Puts a line for each exported global.
pub fn put_globals(to: &mut Seq<u8>, globals: &[NamedValue]) -> Result<(), OutOfMemory>
    ensures { OnOk result (to.new ≡ to.old ++ flat_map (λ g. line (global_text g)) globals.now) }
{
    for global in globals {
        put_global(to, global)?;
        to.push(b'\n')?;
    }
    Ok(())
}
