// The writer of "The file": a list of links in, its file out, into lent bytes: start 0, the kind 1 record, the rows in order, the trailer.
// `write` promises, for every input, the answer that `meaning` defines (12 + 8 x rows, or the list's own number) and every lent byte afterwards.
// The list is checked whole before the first byte is stored, by the one check of the project.
#![tactic(auto)]

ghost use Rattle.std.specs.Prelude.{◌≡◌, ◌∷◌, ◌++◌, ◌≤◌, length, ltb};
ghost use Rattle.meaning.specs.Sums.{laid};
ghost use Rattle.meaning.specs.File.{bytes16, trailer_bytes, file_of, file_bytes};
ghost use Rattle.roundtrip.specs.Promises.{Writes};
ghost use Rattle.lists.specs.Given.{given_by, list_by};

use answers::Refusal;
use lists::{Checked, Links, Row};

// The kinds of record that are written. The reader names those that it reads: for two numbers of the layout a crate of both is no plainer.
const NODES: u8 = 1;

const ROW: u8 = 2;

// Whether the file of so many rows does not fit. Asked without adding, since 8 x rows need not fit a number.
fn too_short(room: usize, rows: usize) -> bool
    ensures { result ≡ ltb room (file_bytes rows) }
{
    room.checked_sub(12).is_none_or(|rest| rest / 8 < rows)
}

// The kind 1 record.
fn nodes_record(n: u16) -> [u8; 4]
    ensures { result ≡ 4 ∷ 1 ∷ bytes16 n }
{
    let [low, high] = n.to_le_bytes();
    [4, NODES, low, high]
}

// The record of a row.
fn row_record(row: Row) -> [u8; 8]
    ensures { result ≡ 8 ∷ 2 ∷ (bytes16 row.a ++ (bytes16 row.b ++ bytes16 row.w)) }
{
    let a = row.a.to_le_bytes();
    let b = row.b.to_le_bytes();
    let w = row.w.to_le_bytes();
    [8, ROW, a[0], a[1], b[0], b[1], w[0], w[1]]
}

// The trailer: start 0, the row count, the mark.
fn trailer(rows: u16) -> [u8; 8]
    ensures { result ≡ trailer_bytes rows }
{
    let [low, high] = rows.to_le_bytes();
    [0, 0, 0, 0, low, high, b'L', b'T']
}

// The whole file of a list, where there is room for it; answers its size. The rows go by their places, since the library does not say
// what a slice holds after its chunks (`as_chunks_mut`) were written.
#[tactic(auto, using(lists::proofs::Passed::accepted))]
fn put_file(list: &Checked<'_>, out: &mut [u8]) -> usize
    requires room { file_bytes (length list.now.links.a.now) ≤ length out.old }
    ensures size { result ≡ file_bytes (length list.now.links.a.now) }
    ensures stored { out.new ≡ laid (file_of (list_by list.now.links)) out.old }
{
    let Links { n, a, b, w } = list.links;
    out[..4].copy_from_slice(&nodes_record(n as u16));
    for r in 0..a.len() {
        // put together here, for the reason beside `lists::Row`
        let row = Row {
            a: a[r],
            b: b[r],
            w: w[r],
        };
        let at = 4 + 8 * r;
        out[at..at + 8].copy_from_slice(&row_record(row));
    }
    let end = 4 + 8 * a.len();
    out[end..end + 8].copy_from_slice(&trailer(a.len() as u16));
    end + 8
}

// Writes the file of a list into lent bytes: its size, or a refusal that leaves the bytes alone.
pub fn write(links: &Links<'_>, out: &mut [u8]) -> Result<usize, Refusal>
    ensures { Writes (given_by links.now) out.old result out.new }
{
    let list = links.check(too_short(out.len(), links.a.len()))?;
    Ok(put_file(&list, out))
}
