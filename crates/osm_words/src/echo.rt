//! Words of the command line, made safe to show.

ghost use Rattle.std.specs.Prelude.{◌≡◌, ◌++◌, map, IfOk, OnOk, string_bytes};
ghost use Rattle.std.specs.Str.{chars};
ghost use Rattle.osm_words.specs.Echo as spec;

use std::alloc::{AllocError, Global};

// Longer words are cut.
const MOST_SHOWN: usize = 64;

/// Gives each word as it is shown: cut after 64 characters, with `..` for the rest, and with
/// control characters as escapes such as `\u{1b}`. So no word can fill a screen or control a
/// terminal.
pub fn echoes(alloc: Global, words: &[&str]) -> Result<Vec<String>, AllocError>
    ensures { IfOk result (λ echoes.
        map string_bytes echoes.items ≡ map (λ word. spec.echo_of word.now) words.now) }
{
    let mut echoes = Vec::new(alloc);
    for word in words {
        echoes.push(echo_of(alloc, word)?)?;
    }
    Ok(echoes)
}

/// Gives a word as `echoes` gives it.
pub fn echo_of(alloc: Global, word: &str) -> Result<String, AllocError>
    ensures { IfOk result (λ echo. string_bytes echo ≡ spec.echo_of word.now) }
{
    let mut echo = shown_start(alloc, word)?;
    if is_cut(word) {
        echo.push_str("..")?;
    }
    Ok(echo)
}

// The first characters as they are shown.
fn shown_start(alloc: Global, word: &str) -> Result<String, AllocError>
    ensures { IfOk result (λ start. string_bytes start ≡ spec.start_of (chars word.now)) }
{
    let mut start = String::new(alloc);
    for character in word.chars().take(MOST_SHOWN) {
        push_shown(character, &mut start)?;
    }
    Ok(start)
}

fn is_cut(word: &str) -> bool
    ensures { result ≡ spec.is_cut (chars word.now) }
{
    word.chars().nth(MOST_SHOWN).is_some()
}

/// Appends a character to a text, a control character as its escape such as `\u{1b}`.
pub fn push_shown(character: char, echo: &mut String) -> Result<(), AllocError>
    ensures { OnOk result
        (string_bytes echo.new ≡ string_bytes echo.old ++ spec.shown_char character) }
{
    if character.is_control() {
        push_escape(character, echo)
    } else {
        echo.push(character)
    }
}

fn push_escape(character: char, echo: &mut String) -> Result<(), AllocError>
    ensures { OnOk result
        (string_bytes echo.new ≡ string_bytes echo.old ++ spec.escape_of character) }
{
    for part in character.escape_unicode() {
        echo.push(part)?;
    }
    Ok(())
}
