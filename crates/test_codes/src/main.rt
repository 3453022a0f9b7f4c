// Reads records of number codes from standard input and prints what each gives. Records and expected lines are made by
// second/; a record is a kind byte and a body.
#![tactic(auto)]

ghost use Rattle.std.specs.Prelude.{◌+◌, ◌≤◌, ◌<◌, length};

use codes::ids::{be64, compare, id_at, put_be, put_id};
use codes::little::{byte, le, put_le};
use codes::varint::{Unread, put_varint, varint_at, varint_len};
use std::cmp::Ordering;
use test_corpus::{hex_bytes, number, word};

// Why no number is read.
fn unread(why: Unread) {
    match why {
        Unread::Cut => {
            word(b"cut");
        }
        Unread::Long => {
            word(b"long");
        }
        Unread::Large => {
            word(b"large");
        }
    }
}

// The varint at the front of v.
fn varint_line(v: &[u8]) {
    match varint_at(v, 0) {
        Ok((value, next)) => {
            word(b"value");
            number(value);
            word(b" next");
            number(next as u64);
        }
        Err(why) => unread(why),
    }
    word(b"\n");
}

// The varint of a number.
fn written_line(b: &[u8])
    requires { 8 ≤ length b.now }
{
    let x = le::<8>(b, 0);
    let mut out = [0u8; 10];
    let n = put_varint(&mut out, 0, x);
    word(b"bytes");
    number(varint_len(x) as u64);
    word(b" ");
    hex_bytes(&out[0..n]);
    word(b"\n");
}

// One id against another.
fn order_line(b: &[u8])
    requires { 32 ≤ length b.now }
{
    let order = compare(id_at(b, 0), id_at(b, 16));
    match order {
        Ordering::Less => {
            word(b"less\n");
        }
        Ordering::Equal => {
            word(b"equal\n");
        }
        Ordering::Greater => {
            word(b"greater\n");
        }
    }
}

// The numbers of every width.
fn widths_line(b: &[u8])
    requires { 8 ≤ length b.now }
{
    word(b"le");
    number(le::<2>(b, 0));
    number(le::<3>(b, 0));
    number(le::<4>(b, 0));
    number(le::<5>(b, 0));
    number(le::<6>(b, 0));
    number(le::<8>(b, 0));
    word(b" be");
    number(be64(b, 0));
    word(b"\n");
}

// The n low bytes of a number, written both ways.
fn put_line(n: usize, b: &[u8])
    requires { (n ≤ 8) × (8 ≤ length b.now) }
{
    let x = le::<8>(b, 0);
    let mut little = [0u8; 8];
    let mut big = [0u8; 8];
    put_le(&mut little, 0, n, x);
    put_be(&mut big, 0, n, x);
    word(b"put ");
    hex_bytes(&little[0..n]);
    word(b" ");
    hex_bytes(&big[0..n]);
    word(b"\n");
}

// An id, read and written back.
fn id_line(b: &[u8])
    requires { 16 ≤ length b.now }
{
    let id = id_at(b, 0);
    let mut out = [0u8; 16];
    put_id(&mut out, 0, id);
    word(b"id");
    number(id.hi);
    number(id.lo);
    word(b" ");
    hex_bytes(&out);
    word(b"\n");
}

// A record of a fixed body, or none where its bytes are not all there.
fn fixed(s: &[u8], at: usize, kind: u64) -> usize
    requires { at < length s.now }
    ensures { (at < result) × (result ≤ length s.now) }
{
    let left = s.len() - at;
    if kind == 1 && left >= 9 {
        written_line(&s[at + 1..at + 9]);
        return at + 9;
    }
    if kind == 2 && left >= 33 {
        order_line(&s[at + 1..at + 33]);
        return at + 33;
    }
    if kind == 3 && left >= 9 {
        widths_line(&s[at + 1..at + 9]);
        return at + 9;
    }
    if kind == 5 && left >= 17 {
        id_line(&s[at + 1..at + 17]);
        return at + 17;
    }
    s.len()
}

// The record at `at`; the place after it.
fn record(s: &[u8], at: usize) -> usize
    requires { at < length s.now }
    ensures { (at < result) × (result ≤ length s.now) }
{
    let kind = byte(s, at);
    let left = s.len() - at;
    if left < 2 {
        return s.len();
    }
    let n = byte(s, at + 1) as usize;
    if kind == 0 && left >= 2 + n {
        varint_line(&s[at + 2..at + 2 + n]);
        return at + 2 + n;
    }
    if kind == 4 && left >= 10 && n <= 8 {
        put_line(n, &s[at + 2..at + 10]);
        return at + 10;
    }
    fixed(s, at, kind)
}

fn records(s: &[u8]) {
    // Stays a loop by hand: it goes on where the next record begins.
    let mut at = 0;
    while at < s.len() {
        at = record(s, at);
    }
}

fn main() {
    let mut space = io::large_buffer();
    let n = io::read_full(0, &mut space);
    records(&space[..n]);
}
