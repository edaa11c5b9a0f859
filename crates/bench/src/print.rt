// One line of text for each call: made whole, then written.
// Stays: each function puts its words into the line and ends it; what differs is the words.
ghost use Rattle.std.specs.Prelude.{◌≤◌};

use std::io::{self, Write};

// Room for the longest reply, 263 bytes at three characters each, and for its command.
const LONGEST: usize = 1024;

const DIGITS: [u8; 16] = *b"0123456789ABCDEF";

// A line of text, its first so many bytes; empty once it is written. What has no room, its end too, is cut off.
// Stays: words, bytes and numbers are put into it here. With `write!` a call of the board took more than a quarter more time (docs/LOOK-BACK.md).
#[derive(Drop)]
pub struct Line {
    pub bytes: [u8; 1024],
    pub size: usize,
    ghost in_range: { size ≤ 1024 },
}

impl Line {
    // A call's name and number, the number in two places.
    fn call(&mut self, name: &str, word: u32) {
        let number = number_in(word);
        self.text(name);
        self.text(if number < 10 { "  " } else { " " });
        self.decimal(number);
    }

    // As many of the bytes as have room.
    fn put(&mut self, bytes: &[u8]) {
        let room = &mut self.bytes[self.size..];
        if room.len() < bytes.len() {
            let n = room.len();
            room.copy_from_slice(&bytes[..n]);
            self.size = LONGEST;
            return;
        }
        room[..bytes.len()].copy_from_slice(bytes);
        self.size += bytes.len();
    }

    fn text(&mut self, text: &str) {
        self.put(text.as_bytes());
    }

    // Bytes in hex, each after a space.
    fn hex(&mut self, bytes: &[u8]) {
        for &byte in bytes {
            let high = DIGITS[usize::from(byte / 16)];
            let low = DIGITS[usize::from(byte % 16)];
            self.put(&[b' ', high, low]);
        }
    }

    // A number below 10,000; of a larger one the last four digits.
    fn decimal(&mut self, n: u32) {
        match n {
            0..=9 => self.put(&[digit(n)]),
            10..=99 => self.put(&[digit(n / 10), digit(n)]),
            100..=999 => self.put(&[digit(n / 100), digit(n / 10), digit(n)]),
            _ => self.put(&[digit(n / 1000), digit(n / 100), digit(n / 10), digit(n)]),
        }
    }

    fn wire(&mut self, index: u32, bit: u32) {
        self.text("  index ");
        self.decimal(index);
        self.text(", bit ");
        self.decimal(bit);
    }
}

// The last decimal digit.
fn digit(number: u32) -> u8 {
    DIGITS[(number % 10) as usize]
}

// A call's number, and what stands above it in the word: a reply's length, or a level.
fn number_in(word: u32) -> u32 {
    word % 256
}

fn value_in(word: u32) -> u32 {
    word / 256
}

// The first n of them, or all.
fn first(bytes: &[u8], n: usize) -> &[u8] {
    &bytes[..n.min(bytes.len())]
}

// Ends the line and writes it; the next one begins.
fn finish(line: &mut Line, rt: &impl Print) -> io::Result<()> {
    line.put(b"\n");
    let size = line.size;
    line.size = 0;
    io::writer(rt).write_all(&line.bytes[..size])
}

// ---- a line for each call

// A line of the script: any bytes.
pub fn title(line: &mut Line, rt: &impl Print, words: &[u8]) -> io::Result<()> {
    line.put(words);
    finish(line, rt)
}

// Command and reply, or that the bus is not driven.
pub fn exchanged(
    line: &mut Line,
    rt: &impl Print,
    command: &[u8],
    word: u32,
    reply: &[u8],
) -> io::Result<()> {
    line.call("exchange", word);
    line.put(b" ");
    line.hex(command);
    line.text(" ->");
    match value_in(word) as usize {
        0 => line.text(" no reply"),
        length => line.hex(first(reply, length)),
    }
    finish(line, rt)
}

// A call with no result but its number.
pub fn done(line: &mut Line, rt: &impl Print, name: &str, word: u32) -> io::Result<()> {
    line.call(name, word);
    finish(line, rt)
}

// A call with a report, which stands only where the number is 0.
pub fn reported(
    line: &mut Line,
    rt: &impl Print,
    name: &str,
    word: u32,
    report: &[u8],
) -> io::Result<()> {
    line.call(name, word);
    if word == 0 {
        line.text("  ->");
        line.hex(report);
    }
    finish(line, rt)
}

// Bytes of the write store.
pub fn stored(line: &mut Line, rt: &impl Print, bytes: &[u8]) -> io::Result<()> {
    line.text("  write store");
    line.hex(bytes);
    finish(line, rt)
}

pub fn answered(
    line: &mut Line,
    rt: &impl Print,
    word: u32,
    serial: u32,
    success: u32,
    count: usize,
) -> io::Result<()> {
    line.call("answer", word);
    line.text("  serial ");
    line.decimal(serial);
    line.text(", success ");
    line.decimal(success);
    line.text(", bytes ");
    line.decimal((count % 10000) as u32);
    finish(line, rt)
}

pub fn wire_set(
    line: &mut Line,
    rt: &impl Print,
    word: u32,
    index: u32,
    bit: u32,
    value: u32,
) -> io::Result<()> {
    line.call("set wire", word);
    line.wire(index, bit);
    line.text(" = ");
    line.decimal(value);
    finish(line, rt)
}

// The level stands only where the number is 0.
pub fn wire_read(
    line: &mut Line,
    rt: &impl Print,
    word: u32,
    index: u32,
    bit: u32,
) -> io::Result<()> {
    line.call("read wire", word);
    line.wire(index, bit);
    if number_in(word) == 0 {
        line.text(" -> ");
        line.decimal(value_in(word));
    }
    finish(line, rt)
}

// One line, or all below a number.
fn leveled(
    line: &mut Line,
    rt: &impl Print,
    words: &str,
    word: u32,
    number: u32,
    level: u32,
) -> io::Result<()> {
    line.call("set line", word);
    line.text(words);
    line.decimal(number);
    line.text(" = ");
    line.decimal(level);
    finish(line, rt)
}

pub fn line_set(
    line: &mut Line,
    rt: &impl Print,
    word: u32,
    number: u32,
    level: u32,
) -> io::Result<()> {
    leveled(line, rt, "  line ", word, number, level)
}

pub fn lines_set(
    line: &mut Line,
    rt: &impl Print,
    word: u32,
    n: u32,
    level: u32,
) -> io::Result<()> {
    leveled(line, rt, "  lines below ", word, n, level)
}

pub fn line_pulsed(line: &mut Line, rt: &impl Print, word: u32, number: u32) -> io::Result<()> {
    line.call("pulse line", word);
    line.text("  line ");
    line.decimal(number);
    finish(line, rt)
}
