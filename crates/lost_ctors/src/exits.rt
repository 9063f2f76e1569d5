//! Whether what is to be done at exit would be lost, as wasi-libc's `__wasm_call_dtors` does it.
ghost use Rattle.std.specs.Prelude.{◌≡◌, ◌==◌, ◌&&◌, not, codes};
ghost use Rattle.std.specs.List.{list_any};
ghost use Rattle.link_marks.specs.link_program.linking_section.Flags.{has_bit};
ghost use Rattle.lost_ctors.specs.Exits.{strong_by, strong_seen, lives_with, lives_itself, exits_lost};

use crate::alive::{Alive, alive_of, lives};
use link_marks::{Names, Tables, Winner, number_defined};
use linking_section::WEAK;

/// Defined strongly where `atexit` is linked (wasi-libc).
const FUNCS_ON_EXIT: &str = "__funcs_on_exit";

/// Defined strongly where stdio writes (wasi-libc).
const STDIO_EXIT: &str = "__stdio_exit";

/// Whether it is the strong winner of the name of this number.
fn is_strong(winner: &Winner, number: u32) -> bool
    ensures { result ≡ ((winner.now.name == number) && not (has_bit 0x01 winner.now.flags)) }
{
    winner.name == number && winner.flags & WEAK == 0
}

/// The winner of the name of a number, if it is strong.
fn strong_by(winners: &[Winner], number: u32) -> Option<Winner>
    ensures { result ≡ strong_by winners.now number }
{
    for winner in winners {
        if is_strong(winner, number) {
            return Some(*winner);
        }
    }
    None
}

/// The winner of a name, if it is strong.
fn strong_winner(names: &Names, winners: &[Winner], name: &[u8]) -> Option<Winner>
    ensures { result ≡ strong_seen names.now.names winners.now name.now }
{
    let number = names.find(name)?;
    strong_by(winners, number)
}

/// What `atexit` was told.
fn on_exit(names: &Names, winners: &[Winner]) -> Option<Winner>
    ensures { result ≡ strong_seen names.now.names winners.now (codes "__funcs_on_exit") }
{
    strong_winner(names, winners, FUNCS_ON_EXIT.as_bytes())
}

/// What writes what stdio holds back.
fn stdio_exit(names: &Names, winners: &[Winner]) -> Option<Winner>
    ensures { result ≡ strong_seen names.now.names winners.now (codes "__stdio_exit") }
{
    strong_winner(names, winners, STDIO_EXIT.as_bytes())
}

/// Whether there is such a winner, and a part of its input is live.
fn lives_with(winner: Option<Winner>, alive: &[Alive]) -> bool
    ensures { result ≡ lives_with alive.now winner }
{
    match winner {
        Some(winner) => lives(alive_of(alive, winner.definition.input)),
        None => false,
    }
}

/// Whether the part of a number is live.
fn is_live(live: &[u32], number: u32) -> bool
    ensures { result ≡ list_any (λ n. number == n) live.now }
{
    live.iter().any(
        |other: &u32| -> bool
            ensures { result ≡ (number == other.now) }
        { number == *other },
    )
}

/// Whether there is such a winner, and its own part is live.
fn lives_itself(winner: Option<Winner>, tables: &Tables, live: &[u32]) -> bool
    ensures { result ≡ lives_itself tables.now.chunks live.now winner }
{
    let Some(winner) = winner else {
        return false;
    };
    match number_defined(&tables.chunks, winner.definition) {
        Some(number) => is_live(live, number),
        None => false,
    }
}

/// Whether what `atexit` was told, or what stdio holds back, would be lost.
pub(crate) fn exits_are_lost(names: &Names, tables: &Tables, alive: &[Alive], live: &[u32]) -> bool
    ensures { result ≡ exits_lost names.now.names tables.now.winners tables.now.chunks alive.now live.now }
{
    let winners = tables.winners.as_slice();
    let told = on_exit(names, winners);
    let stdio = stdio_exit(names, winners);
    lives_with(told, alive) || lives_itself(stdio, tables, live)
}
