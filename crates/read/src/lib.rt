// The reader of "The file": bytes in, a list of links out, into three lent lists.
// `read` promises, for every list of bytes, the answer that `meaning` defines and every place of the lent lists afterwards.
// `Records::of` takes the trailer off (1, 2, 3), `Records::scan` goes from record to record (4, 5, 6, 7) and judges the rows on the way,
// `Scan::decide` finds the first number of what is left in document 01's order, and only then does `Records::fill` store. No byte is copied.
#![tactic(auto)]

ghost use Rattle.std.specs.Prelude.{◌≡◌, Bool, cond, ◌+◌, ◌≤◌, ◌<◌, eqb, length, get_or, Some, IfOk};
ghost use Rattle.meaning.specs.Sums.{laid};
ghost use Rattle.meaning.specs.File.{get16, item_at, rows_given, found_in};
ghost use Rattle.answers.specs.Paper.{told_check};
ghost use Rattle.lists.specs.Given.{SameLists};
ghost use Rattle.roundtrip.specs.Promises.{Reads};
ghost use Rattle.read.specs.Scan.{placed, record_paper, row_read};
ghost use Rattle.read.specs.Fill.{LaysRow, laid_at};

use answers::{Found, Refusal};
use lists::{Columns, Row};

// The kinds of record that hold something, and the first of those that are skipped.
const NODES: u8 = 1;

const ROW: u8 = 2;

const SKIPPED: u8 = 128;

// What a record holds.
#[derive(Clone, Copy)]
enum Item {
    Nodes(u16),
    Row(Row),
    Skipped,
}

// What the records so far hold, as far as the answer needs it: n, where a kind 1 came, the number of rows, the sum of their weights,
// and what the first bad row is told.
#[derive(Clone, Copy)]
struct Scan {
    nodes: Option<u32>,
    rows: usize,
    sum: u64,
    bad: Result<(), Refusal>,
}

// The records of a file whose trailer is good: they run from `start` to the end of `bytes`, and `count` is the trailer's row count.
#[derive(Clone, Copy)]
struct Records<'a> {
    bytes: &'a [u8],
    start: usize,
    count: usize,
    ghost few: { length bytes.now < 65536 },
}

// ---- one record

// A number in a file: little-endian. Bytes and an offset stay two parameters here and below, as in `File.antt`, whose words the clauses use.
fn number16(s: &[u8], at: usize) -> u16
    requires { at + 1 < length s.now }
    ensures { result ≡ get16 s.now at }
{
    u16::from_le_bytes([s[at], s[at + 1]])
}

// The row of a kind 2 record.
fn row_at(s: &[u8], at: usize) -> Row
    requires { at + 7 < length s.now }
    ensures { result ≡ row_read s.now at }
{
    Row {
        a: number16(s, at + 2),
        b: number16(s, at + 4),
        w: number16(s, at + 6),
    }
}

// The record at an offset, and the offset after it: 4, 5, 6. Its length byte is looked at before it is used.
#[tactic(auto, unfolding(meaning::specs::File::item_at))]
fn item_at(s: &[u8], at: usize) -> Result<(Item, usize), Refusal>
    requires { at < length s.now }
    ensures value { (seen : Bool) → placed seen at (record_paper result) ≡ item_at s.now (length s.now) at seen }
    ensures forth { IfOk result (λ p. (at < p.1) × (p.1 ≤ length s.now)) }
{
    let len = usize::from(s[at]);
    if len < 2 {
        return Err(Refusal::RecordLength(at));
    }
    if s.len() < at + len {
        return Err(Refusal::RecordPasses(at));
    }
    match (s[at + 1], len) {
        (SKIPPED.., _) => Ok((Item::Skipped, at + len)),
        (NODES, 4) => Ok((Item::Nodes(number16(s, at + 2)), at + len)),
        (ROW, 8) => Ok((Item::Row(row_at(s, at)), at + len)),
        _ => Err(Refusal::RecordKind(at)),
    }
}

// ---- the running state

impl Scan {
    ghost use Rattle.read.specs.Scan.{Light, tally, held, taken, left_check};

    // Takes in the record at an offset: 7. The first bad row decides.
    fn take(&mut self, item: Item, at: usize) -> Result<(), Refusal>
        requires { (at < 65536) × Light at self.old }
        ensures value { held (λ _. tally self.new) result ≡ taken item at self.old.nodes (tally self.old) }
        ensures light { Light (at + 1) self.new }
    {
        match (item, self.nodes) {
            (Item::Skipped, _) => {}
            (Item::Nodes(n), None) => self.nodes = Some(u32::from(n)),
            (Item::Row(row), Some(n)) => {
                // Not `self.bad = self.bad.and(lists::row_check(..))`: that would store `bad` again for every row, and a good row leaves it alone.
                if let Err(e) = lists::row_check(n, self.rows, row) {
                    self.bad = self.bad.and(Err(e));
                }
                self.rows += 1;
                self.sum += u64::from(row.w);
            }
            _ => return Err(Refusal::NodesRecord(at)),
        }
        Ok(())
    }

    // What is left to check where every record is good: document 01's order from the missing kind 1 to 18.
    fn decide(&self, records: &Records<'_>, short: bool) -> Result<Found, Refusal>
        ensures found { told_check result ≡ left_check self.now.nodes (tally self.now) (length records.now.bytes.now) records.now.count short }
        ensures counts { IfOk result (λ f. (self.now.nodes ≡ Some f.n) × (f.rows ≡ self.now.rows)) }
    {
        let Some(n) = self.nodes else {
            return Err(Refusal::NodesRecord(records.bytes.len()));
        };
        if records.count != self.rows {
            return Err(Refusal::RowCount);
        }
        lists::size_check(n, self.rows, false, short)?;
        lists::sum_check(self.bad, self.sum)?;
        Ok(Found { n, rows: self.rows })
    }
}

// ---- the filling pass

// The row of a kind 2 record becomes row i of the lists; the number of rows then.
fn lay(s: &[u8], at: usize, i: usize, out: &mut Columns<'_>) -> usize
    requires within { at + 1 < length s.now }
    requires lays { get_or s.now (at + 1) 0 ≡ 2 → LaysRow s.now at i out.old.a.now out.old.b.now out.old.w.now }
    ensures value { result ≡ cond (eqb (get_or s.now (at + 1) 0) 2) (i + 1) i }
    ensures same { SameLists out.old out.new }
    ensures a_after { out.new.a.now ≡ laid_at s.now at 2 i out.old.a.now }
    ensures b_after { out.new.b.now ≡ laid_at s.now at 4 i out.old.b.now }
    ensures w_after { out.new.w.now ≡ laid_at s.now at 6 i out.old.w.now }
{
    if s[at + 1] != ROW {
        return i;
    }
    let row = row_at(s, at);
    // stored here, for the reason beside `lists::Columns`
    out.a[i] = row.a;
    out.b[i] = row.b;
    out.w[i] = row.w;
    i + 1
}

// ---- a file

impl<'a> Records<'a> {
    ghost use Rattle.read.specs.Scan.{tally, held, judged};
    ghost use Rattle.read.specs.Records.{frame_check, Cut, run_in};
    ghost use Rattle.read.specs.Fill.{Fits};

    // Takes the trailer off: 1, 2, 3.
    fn of(s: &'a [u8]) -> Result<Records<'a>, Refusal>
        ensures found { told_check result ≡ frame_check s.now }
        ensures cut { IfOk result (λ r. Cut s.now r) }
    {
        if s.len() < 8 || 32768 < s.len() {
            return Err(Refusal::FileSize);
        }
        let (bytes, trailer) = s.split_at(s.len() - 8);
        let [s0, s1, s2, s3, c0, c1, 0x4C, 0x54] = *trailer else {
            return Err(Refusal::WrongMark);
        };
        let start = u32::from_le_bytes([s0, s1, s2, s3]) as usize;
        if bytes.len() < start {
            return Err(Refusal::StartPast);
        }
        let count = usize::from(u16::from_le_bytes([c0, c1]));
        Ok(Records {
            bytes,
            start,
            count,
        })
    }

    // The run of records, judged in one pass. Not inlined: the loop has the registers to itself.
    #[inline(never)]
    fn scan(&self) -> Result<Scan, Refusal>
        ensures { held tally result ≡ judged (run_in self.now) }
    {
        let bytes = self.bytes;
        let mut at = self.start;
        let mut scan = Scan {
            nodes: None,
            rows: 0,
            sum: 0,
            bad: Ok(()),
        };
        while at < bytes.len() {
            let (item, next) = item_at(bytes, at)?;
            scan.take(item, at)?;
            at = next;
        }
        Ok(scan)
    }

    // The rows of a file whose checks find nothing.
    fn fill(&self, out: &mut Columns<'_>)
        requires { Fits (run_in self.now) (length out.old.a.now) (length out.old.b.now) (length out.old.w.now) }
        ensures same { SameLists out.old out.new }
        ensures a_after { out.new.a.now ≡ laid (rows_given (found_in (run_in self.now))).la out.old.a.now }
        ensures b_after { out.new.b.now ≡ laid (rows_given (found_in (run_in self.now))).lb out.old.b.now }
        ensures w_after { out.new.w.now ≡ laid (rows_given (found_in (run_in self.now))).lw out.old.w.now }
    {
        let bytes = self.bytes;
        let mut at = self.start;
        let mut i = 0;
        while at < bytes.len() {
            i = lay(bytes, at, i, out);
            at += usize::from(bytes[at]);
        }
    }
}

// Reads a file into three lent lists: n and the number of rows, or a refusal that leaves the lists alone.
pub fn read(s: &[u8], out: &mut Columns<'_>) -> Result<Found, Refusal>
    ensures same { SameLists out.old out.new }
    ensures leaves { Reads s.now out.old.a.now out.old.b.now out.old.w.now result out.new.a.now out.new.b.now out.new.w.now }
{
    let records = Records::of(s)?;
    let scan = records.scan()?;
    let found = scan.decide(&records, out.lack(scan.rows))?;
    records.fill(out);
    Ok(found)
}
