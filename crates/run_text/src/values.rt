//! Values behind a text: their type, a colon, and their bits as a decimal number.
ghost use Rattle.std.specs.Prelude.{◌≡◌, ◌++◌, OnOk};
ghost use Rattle.run_text.specs.Text.{value_text, values_text};

use crate::digits::{put_number, put_text};
use run_rules::Value;
use wl_base::{OutOfMemory, Seq};

/// Puts a value.
pub fn put_value(to: &mut Seq<u8>, value: Value) -> Result<(), OutOfMemory>
    ensures { OnOk result (to.new ≡ to.old ++ value_text value) }
{
    match value {
        Value::I32(n) => {
            put_text(to, "i32:")?;
            put_number(to, u64::from(n))
        }
        Value::I64(n) => {
            put_text(to, "i64:")?;
            put_number(to, n)
        }
        Value::F32(n) => {
            put_text(to, "f32:")?;
            put_number(to, u64::from(n))
        }
        Value::F64(n) => {
            put_text(to, "f64:")?;
            put_number(to, n)
        }
    }
}

/// Puts values, each behind a space.
pub fn put_values(to: &mut Seq<u8>, values: &[Value]) -> Result<(), OutOfMemory>
    ensures { OnOk result (to.new ≡ to.old ++ values_text values.now) }
{
    for value in values {
        to.push(b' ')?;
        put_value(to, *value)?;
    }
    Ok(())
}
