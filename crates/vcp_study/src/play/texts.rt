//! Texts: their words, and the bytes that they spell. Where there is no memory for a part of a text it is lacking, so that the text is another one than
//! what is wanted.

use memchr::memchr;
use std::alloc::Global;
use std::str::from_utf8;
use vcp_base::{Words, same_bytes};

/// What stands behind a text's first words, of this number, and the blank after each of them.
pub fn behind(text: &[u8], words: usize) -> &[u8] {
    let mut left = words;
    for i in 0..text.len() {
        if left == 0 {
            return &text[i..];
        }
        if text[i] == b' ' {
            left -= 1;
        }
    }
    b""
}

/// A text's word of this number, from 0; an empty one where there is none.
pub fn word(text: &[u8], number: usize) -> &[u8] {
    let rest = behind(text, number);
    match memchr(b' ', rest) {
        Some(end) => rest.get(..end).unwrap_or(b""),
        None => rest,
    }
}

/// The number of the first of up to 16 words that is this one, from 0; 16 or that of an empty word where none is.
pub fn place_in(words: &[u8], wanted: &[u8]) -> usize {
    for i in 0..16 {
        if same_bytes(word(words, i), wanted) {
            return i;
        }
    }
    16
}

/// The parts of a text between which a separator stands: one more than it stands there.
pub fn parts_of(alloc: Global, text: &[u8], separator: &[u8]) -> Words {
    let mut parts = Words::new(alloc);
    let mut start = 0usize;
    for i in 0..text.len() {
        if start <= i && text[i..].starts_with(separator) {
            let _ = parts.push(text.get(start..i).unwrap_or(b""));
            start = i.saturating_add(separator.len());
        }
    }
    let _ = parts.push(text.get(start..).unwrap_or(b""));
    parts
}

/// The part of this number; an empty one where there is none.
pub fn part(parts: &Words, i: usize) -> &[u8] {
    if i < parts.len() {
        parts.at(i).bytes()
    } else {
        b""
    }
}

/// The integer that is written so; else 0.
pub fn integer(text: &[u8]) -> i128 {
    from_utf8(text).unwrap_or("").parse().unwrap_or(0)
}

/// The number of 32 bits that is written so; else 0.
pub fn count(text: &[u8]) -> u32 {
    u32::try_from(integer(text)).unwrap_or(0)
}

/// Appends these bytes.
pub fn put(text: &mut Vec<u8>, bytes: &[u8]) {
    let _ = text.extend_from_slice(bytes);
}

/// A copy of these bytes.
pub fn copy_of(alloc: Global, bytes: &[u8]) -> Vec<u8> {
    let mut copy = Vec::new(alloc);
    put(&mut copy, bytes);
    copy
}

/// How far an escape has been read.
#[derive(Clone, Copy)]
enum Escape {
    Outside,
    Letter,
    High,
    Low(u8),
    Digits,
    LowDigit(u8),
}

/// The value of a hexadecimal digit; 0 of another byte.
fn digit(byte: u8) -> u8 {
    match byte {
        b'0'..=b'9' => byte - b'0',
        b'a'..=b'f' => byte - b'a' + 10,
        _ => 0,
    }
}

/// The bytes that a text spells: in it `\n`, `\r`, `\t` and `\xHH` stand for one byte each, `\h` says that hexadecimal digits follow to the end,
/// with blanks between them or not, and `\` stands before another byte for that byte.
pub fn spelled(alloc: Global, text: &[u8]) -> Vec<u8> {
    let mut bytes = Vec::new(alloc);
    let mut escape = Escape::Outside;
    for byte in text {
        escape = after(&mut bytes, escape, *byte);
    }
    bytes
}

/// Appends what is spelled with one byte more.
fn after(bytes: &mut Vec<u8>, escape: Escape, byte: u8) -> Escape {
    let (spelled, next) = match (escape, byte) {
        (Escape::Outside, b'\\') => return Escape::Letter,
        (Escape::Letter, b'x') => return Escape::High,
        (Escape::Letter, b'h') | (Escape::Digits, b' ') => return Escape::Digits,
        (Escape::High, _) => return Escape::Low(digit(byte)),
        (Escape::Digits, _) => return Escape::LowDigit(digit(byte)),
        (Escape::Low(high), _) => (
            high.wrapping_mul(16).wrapping_add(digit(byte)),
            Escape::Outside,
        ),
        (Escape::LowDigit(high), _) => (
            high.wrapping_mul(16).wrapping_add(digit(byte)),
            Escape::Digits,
        ),
        (Escape::Letter, b'n') => (b'\n', Escape::Outside),
        (Escape::Letter, b'r') => (b'\r', Escape::Outside),
        (Escape::Letter, b't') => (b'\t', Escape::Outside),
        _ => (byte, Escape::Outside),
    };
    put(bytes, &[spelled]);
    next
}
