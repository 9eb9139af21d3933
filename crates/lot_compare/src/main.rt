// Compares the stores in the two files that its arguments name and writes one line: `equal`, `first shorter`, `second shorter`, `differ N B` with the element
// and its byte from 0, `refused N`, or `unread` where there are not two names, a file can't be read or has more than 32,768 bytes. A name that is not UTF-8 is
// one of a file that can't be read: std opens no other. The line is proved to be the rule's, `compare_line::line`; that the bytes read are the files' no
// contract can say.
#![tactic(auto)]

ghost use Rattle.std.specs.Prelude.{◌≡◌, ◌≤◌, length, take, IfOk, IfSome};

use std::env::{Env, FillError};
use std::fs::Files;
use std::io::Read;
use std::{fs, io, str};

// One byte more than a file may have, so that a longer one shows by filling it.
const SPACE: usize = 32_769;

// Whether there is an argument i. One that is longer than the buffer is there too.
fn has_arg(rt: &impl Env, i: usize) -> bool {
    let mut start = [0u8; 1];
    !matches!(rt.arg(i, &mut start), Err(FillError::NotPresent))
}

// Whether there are two names and no third. Argument 0 is the program's own.
fn has_two_names(rt: &impl Env) -> bool {
    has_arg(rt, 2) && !has_arg(rt, 3)
}

// Opens the file that argument i names. None if there are not two names, the name is longer than a path or is not UTF-8, or the file can't be opened.
fn open_named<R: Env + Files>(rt: &R, i: usize) -> Option<R::File> {
    if !has_two_names(rt) {
        return None;
    }
    let mut name = [0u8; 4096];
    let n = rt.arg(i, &mut name).ok()?;
    let path = str::from_utf8(&name[..n]).ok()?;
    fs::open(rt, path).ok()
}

// Reads to the start of buf until the file ends, a read fails or buf is full. A pipe may give its bytes in pieces, and a device may never end. How many bytes a
// read gives is known only after it, so the loop counts them. Answers how many came.
fn read_all(file: &mut impl Read, buf: &mut [u8]) -> io::Result<usize>
    ensures in_bounds { IfOk result (λ n. n ≤ length buf.new) }
    ensures prefix { IfOk result (λ n. n ≡ length (take n buf.new)) }
{
    let mut done: usize = 0;
    while done < buf.len() {
        let n = file.read(&mut buf[done..])?;
        if n == 0 {
            break;
        }
        done += n;
    }
    Ok(done)
}

// Reads the file that argument i names. None if there is none, it can't be opened or a read failed.
fn read_file(rt: &(impl Env + Files), i: usize, buf: &mut [u8]) -> Option<usize>
    ensures in_bounds { IfSome result (λ n. n ≤ length buf.new) }
    ensures prefix { IfSome result (λ n. n ≡ length (take n buf.new)) }
{
    let mut file = open_named(rt, i)?;
    read_all(&mut file, buf).ok()
}

// Fails only where the line can't be written.
fn main(rt: HostRuntime) -> io::Result<()> {
    let mut first = [0u8; SPACE];
    let mut second = [0u8; SPACE];
    let one = read_file(&rt, 1, &mut first);
    let two = read_file(&rt, 2, &mut second);
    let read = one.is_some() && two.is_some();
    let n = one.unwrap_or(0);
    let m = two.unwrap_or(0);
    let mut out = [0u8; 49];
    let k = compare_line::line(read, &first[..n], &second[..m], &mut out);
    rt.write_all(&out[..k])
}
