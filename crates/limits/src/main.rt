// Runs the calls at the limits that document 01 names without a star, and prints the number and the place of each answer.
// Proved safe and ending; what it prints is held to the file `stdout`.
#![tactic(auto)]

ghost use Rattle.std.specs.Prelude.{◌≤◌, length};

use answers::Refusal;
use lists::{Columns, Links};
use std::{array, io};

// The most rows of a list, and one more.
const ROWS: usize = 2049;

// Prints `what: number at place`, as the table has them: 0 at 0 where the call does not refuse.
fn print<T: Drop>(rt: &impl Print, what: &str, answer: Result<T, Refusal>) -> io::Result<()> {
    match answer {
        Ok(_) => println!(rt; "{what}: 0 at 0"),
        Err(refusal) => println!(rt; "{what}: {refusal}"),
    }
}

// One end of each row around a ring of 128 nodes, again and again: the node `ahead` places on.
fn ring(ahead: u8) -> [u16; ROWS] {
    array::from_fn(|i| ((i + usize::from(ahead)) % 128) as u16)
}

// The summary of a list's first rows, as of a list with n nodes.
fn print_rows(rt: &impl Print, what: &str, all: &Links<'_>, n: u32, rows: usize) -> io::Result<()>
    requires { (rows ≤ length all.now.a.now) × (rows ≤ length all.now.b.now) × (rows ≤ length all.now.w.now) }
{
    // the first rows, taken here for the reason beside `lists::Columns`
    let list = Links {
        n,
        a: &all.a[..rows],
        b: &all.b[..rows],
        w: &all.w[..rows],
    };
    print(rt, what, summary::summary(&list))
}

// Reads a file whose answer is known by its place in the document.
fn print_read(rt: &impl Print, what: &str, s: &[u8]) -> io::Result<()> {
    let mut a = [0u16; 4];
    let mut b = [0u16; 4];
    let mut w = [0u16; 4];
    let mut out = Columns {
        a: &mut a,
        b: &mut b,
        w: &mut w,
    };
    print(rt, what, read::read(s, &mut out))
}

fn main(rt: HostRuntime) -> io::Result<()> {
    let a = ring(0);
    let b = ring(1);
    let w = [1u16; ROWS];
    let all = Links {
        n: 128,
        a: &a,
        b: &b,
        w: &w,
    };
    print_rows(&rt, "128 nodes, 2048 rows", &all, 128, 2048)?;
    print_rows(&rt, "129 nodes, 2048 rows", &all, 129, 2048)?;
    print_rows(&rt, "128 nodes, 2049 rows", &all, 128, 2049)?;
    print_read(&rt, "a file of 7 bytes", &[0, 0, 0, 0, 0, 0x4C, 0x54])?;
    print_read(
        &rt,
        "start at the trailer",
        &[4, 1, 2, 0, 4, 0, 0, 0, 0, 0, 0x4C, 0x54],
    )?;
    print_read(
        &rt,
        "start one past it",
        &[4, 1, 2, 0, 5, 0, 0, 0, 0, 0, 0x4C, 0x54],
    )
}
