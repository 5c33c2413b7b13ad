// What the programs that replay a list have in common: the reading of so many bytes, the list's words and floats, the
// words lent to a call and their hash, and the last line.
#![tactic(auto)]

ghost use Rattle.std.specs.Prelude.{◌≡◌, ◌<◌, ◌≤◌, IfOk, length, take, replicate, from_bits};
ghost use Rattle.std.specs.Io.KnownBytes.{Consumes, IsAtEnd};
ghost use Rattle.std.specs.Float.{binary32};
ghost use Rattle.lists.specs.Lists.{digit_of, digits_at, word_at, mixed_of, hash_of};

use std::io;
use std::io::Read;

// What every lent word is at first.
pub const LENT: u32 = 0xa5a5a5a5;

// Reads until the buffer is full or the input ends, and tells how many bytes it put at the buffer's start. A read that
// a signal interrupts has failed.
pub fn read_full<R: Read>(reader: &mut R, buf: &mut [u8]) -> io::Result<usize>
    ensures len { length buf.new ≡ length buf.old }
    ensures bound { IfOk result (λ n. n ≤ length buf.new) }
    ensures bytes { IfOk result (λ n. Consumes (R.remaining reader.old) (R.remaining reader.new) (take n buf.new)) }
    ensures end { IfOk result (λ n. n < length buf.new → IsAtEnd (R.remaining reader.new)) }
{
    let mut done: usize = 0;
    // No range: a read puts as many bytes as it likes.
    while done < buf.len() {
        let n = reader.read(&mut buf[done..])?;
        if n == 0 {
            return Ok(done);
        }
        done += n;
    }
    Ok(done)
}

// Below 16, whatever the byte.
fn digit(b: u8) -> u32
    ensures { result ≡ digit_of b }
{
    let low = b as u32 % 16;
    if b < b'a' { low } else { (low + 9) % 16 }
}

// The number of eight digits; what stands behind them is not looked at.
fn number(digits: &[u8]) -> u32
    requires { 8 ≤ length digits.now }
    ensures { result ≡ digits_at digits.now 0 8 }
{
    let mut w: u32 = 0;
    for b in &digits[..8] {
        w = w * 16 + digit(*b);
    }
    w
}

// The word k of a line, whose words are eight hex digits with one byte behind them; 0 behind the last. No Option: a
// line is read whole before its words are asked for, so each of the programs would only write `unwrap_or(0)`.
pub fn word(line: &[u8], k: usize) -> u32
    ensures { result ≡ word_at line.now k }
{
    match line.as_chunks::<9>().0.get(k) {
        Some(piece) => number(piece),
        None => 0,
    }
}

// The float that the word k of a line is.
pub fn float(line: &[u8], k: usize) -> f32
    ensures { result ≡ from_bits binary32 (word_at line.now k) }
{
    std::num::f32_from_bits_with_nan(word(line, k))
}

pub fn fill(words: &mut [u32], word: u32)
    ensures { words.new ≡ replicate (length words.old) word }
{
    words.fill(word);
}

fn mixed(h: u32) -> u32
    ensures { result ≡ mixed_of h }
{
    ((h as u64) * 16777619 % 4294967296) as u32
}

// FNV-1a, 32 bits, taken a word at a time.
pub fn hash(words: &[u32]) -> u32
    ensures { result ≡ hash_of words.now }
{
    let mut h: u32 = 0x811c9dc5;
    for word in words {
        h = mixed(h ^ *word);
    }
    h
}

fn report(rt: &impl Print, count: u64, what: &str, differ: u64) -> io::Result<()> {
    println!(rt; "{count} {what}, {differ} differ")
}

// More lines, or scenes, than any list has.
pub const MOST: u64 = 1000000;

// The calls of a list, a line to each.
pub trait Calls {
    // Whether the call's answer here is the one that the line tells.
    fn is_right(&mut self, line: &[u8]) -> bool;
}

// Replays a list of single calls: writes each line whose answer is another here, and last how many lines there were and
// how many differ. The bytes of a line are lent, since for a line of N bytes of its own `Calls` would be a bound that
// names N, and the borrow checker covers none that names a const parameter.
pub fn replay_lines<C: Calls>(
    rt: &(impl Input + Print),
    line: &mut [u8],
    calls: &mut C,
) -> io::Result<()> {
    let mut input = rt.reader();
    let mut differ: u64 = 0;
    for count in 0..MOST {
        if read_full(&mut input, line)? != line.len() {
            return report(rt, count, "vectors", differ);
        }
        if !calls.is_right(line) {
            rt.write_all(line)?;
            differ += 1;
        }
    }
    report(rt, MOST, "vectors", differ)
}

// The last line of a list of whole calls.
pub fn report_scenes(rt: &impl Print, count: u64, differ: u64) -> io::Result<()> {
    report(rt, count, "scenes", differ)
}
