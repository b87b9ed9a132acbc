// The printing program of document 01: one file on standard input, its report on standard output, and nothing else. The text is that of
// `reporting::report`, which is proved for every input; here the bytes are brought in and out. A file is read to its end or to one byte
// over the 32,768 that a file may have, also where it arrives in parts. What cannot be read or written is told on standard error.
#![tactic(auto)]

ghost use Rattle.std.specs.Prelude.{◌≤◌, length, IfOk};

use reporting::TEXT;
use std::io;
use std::io::Read;

// One byte more than a file may have.
const FILE_SPACE: usize = 32769;

// Reads to the end of the input, or until the space is full; answers how many bytes came: nothing is allocated here either.
fn read_all<R: Read>(source: &mut R, file: &mut [u8]) -> io::Result<usize>
    ensures { IfOk result (λ size. size ≤ length file.old) }
{
    let mut size = 0;
    while size < file.len() {
        let came = source.read(&mut file[size..])?;
        if came == 0 {
            break;
        }
        size += came;
    }
    Ok(size)
}

fn main(rt: HostRuntime) {
    let mut source = rt.reader();
    let mut file = [0u8; FILE_SPACE];
    let Ok(size) = read_all(&mut source, &mut file) else {
        let _ = eprintln!(rt; "report: standard input cannot be read");
        return;
    };
    let mut text = [0u8; TEXT];
    let length = reporting::report(&file[..size], &mut text).unwrap();
    if rt.write_all(&text[..length]).is_err() {
        let _ = eprintln!(rt; "report: standard output cannot be written");
    }
}
