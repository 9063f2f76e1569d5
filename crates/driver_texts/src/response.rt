//! The words of a response file, by GNU's quoting.
ghost use Rattle.std.specs.Prelude.{◌≡◌, IfOk, OnOk};
ghost use Rattle.driver_texts.specs.Tokens.{is_space as space_of, is_quote as quote_of, with_word, finished, read, tokens_of};

use std::alloc::Global;
use wl_base::{OutOfMemory, Seq};

/// How the next byte counts.
#[derive(Clone, Copy)]
pub enum Mode {
    /// As itself, as white space, a quote or a backslash.
    Plain,
    /// As itself, up to this quote, or as a backslash.
    Quoted(u8),
    /// As itself, behind a backslash.
    Escaped,
    /// As itself, behind a backslash between these quotes.
    EscapedIn(u8),
}

/// What has been read of a response file.
#[derive(Drop)]
pub struct Reading {
    /// How the next byte counts.
    pub mode: Mode,
    /// The word that is being read.
    pub token: Seq<u8>,
    /// The words that have ended.
    pub words: Seq<Seq<u8>>,
}

fn is_space(b: u8) -> bool
    ensures { result ≡ space_of b }
{
    b == b' ' || b == b'\t' || b == b'\n' || b == b'\r'
}

fn is_quote(b: u8) -> bool
    ensures { result ≡ quote_of b }
{
    b == b'"' || b == b'\''
}

/// Puts a word behind the words that have ended, where it has a byte.
fn end(words: &mut Seq<Seq<u8>>, token: Seq<u8>) -> Result<(), OutOfMemory>
    ensures { OnOk result (words.new ≡ with_word token words.old) }
{
    if token.len() > 0 {
        words.push(token)?;
    }
    Ok(())
}

/// One byte more.
fn next(alloc: Global, reading: Reading, b: u8) -> Result<Reading, OutOfMemory>
    ensures { IfOk result (λ after. after ≡ read reading.mode b reading) }
{
    let Reading {
        mut mode,
        mut token,
        mut words,
    } = reading;
    match mode {
        Mode::Escaped => {
            token.push(b)?;
            mode = Mode::Plain;
        }
        Mode::EscapedIn(quote) => {
            token.push(b)?;
            mode = Mode::Quoted(quote);
        }
        Mode::Quoted(quote) if b == b'\\' => mode = Mode::EscapedIn(quote),
        Mode::Quoted(quote) if b == quote => mode = Mode::Plain,
        Mode::Quoted(_) => token.push(b)?,
        Mode::Plain if b == b'\\' => mode = Mode::Escaped,
        Mode::Plain if is_quote(b) => mode = Mode::Quoted(b),
        Mode::Plain if is_space(b) => {
            end(&mut words, token)?;
            token = Seq::new(alloc);
        }
        Mode::Plain => token.push(b)?,
    }
    Ok(Reading { mode, token, words })
}

/// The words, where no byte is left.
fn finish(reading: Reading) -> Result<Seq<Seq<u8>>, OutOfMemory>
    ensures { IfOk result (λ words. words ≡ finished reading) }
{
    let Reading {
        mode,
        mut token,
        mut words,
    } = reading;
    match mode {
        Mode::Escaped | Mode::EscapedIn(_) => token.push(b'\\')?,
        Mode::Plain | Mode::Quoted(_) => {}
    }
    end(&mut words, token)?;
    Ok(words)
}

/// The words of a response file: white space parts them, quotes and backslashes keep it, and an
/// empty word is none.
///
/// # Errors
/// Want of memory.
pub fn tokens(alloc: Global, text: &[u8]) -> Result<Seq<Seq<u8>>, OutOfMemory>
    ensures { IfOk result (λ words. words ≡ tokens_of text.now) }
{
    let mut reading = Reading {
        mode: Mode::Plain,
        token: Seq::new(alloc),
        words: Seq::new(alloc),
    };
    for b in text {
        reading = next(alloc, reading, *b)?;
    }
    finish(reading)
}
