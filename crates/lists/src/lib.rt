// The list of links that every call is given, and the checks that every call makes of it, in document 01's order: 9, 10, 14, then row by
// row 11, 12, 13, then 18. `Links` is the list as the caller hands it over; its `check` promises for every input what `list_check` of
// `meaning` finds, and hands out a `Checked` list. What goes on with a list takes a `Checked` one, and no list that would not pass can be made into one.
// The three parts of the checks are public for the reader, which judges rows before they stand in a list: so each of these numbers is made
// in one place. `proofs/Passed.antt` says what a list has that passed, for the calls that go on with one.
#![tactic(auto)]

ghost use Rattle.std.specs.Prelude.{◌≡◌, ℕ, false, ◌<◌, ◌≤◌, length, get_or, IfOk};
ghost use Rattle.meaning.specs.Numbers.{fine, ◌⟫◌};
ghost use Rattle.meaning.specs.Links.{given, list_check};
ghost use Rattle.laws.specs.Accept.{Even, Words};
ghost use Rattle.answers.specs.Paper.{told_check};
ghost use Rattle.lists.specs.Parts.{size_check, row_numbers, sum_check, rest_check};

use answers::Refusal;

// The most nodes and rows that a list may have, and the most that its weights may add up to.
pub const NODES: usize = 128;

pub const ROWS: usize = 2048;

const MOST_LINKS: u64 = 4294967295;

// ---- lists

// A row: its two ends and its weight. Loops that read the three lists in step put a row together themselves: a method that does would have
// to ask that the row is inside, and of the public functions only those of `table` ask anything.
#[derive(Clone, Copy, PartialEq, Eq)]
pub struct Row {
    pub a: u16,
    pub b: u16,
    pub w: u16,
}

// A list as a caller hands it over: n, and the two ends and the weight of each row, in three lists.
#[derive(Clone, Copy)]
pub struct Links<'a> {
    pub n: u32,
    pub a: &'a [u16],
    pub b: &'a [u16],
    pub w: &'a [u16],
}

// A list that passes its checks. `words` says that its weights are 16-bit numbers: a proof knows that of a lent list, but not of a list in a struct.
#[derive(Clone, Copy)]
pub struct Checked<'a> {
    pub links: Links<'a>,
    pub ghost passed: { list_check (given links.n links.a.now links.b.now links.w.now) false ≡ fine },
    pub ghost words: { Words (given links.n links.a.now links.b.now links.w.now) },
}

// Three lent lists, into which rows are written. A row is stored, and the first rows of a list are taken, where it is done, for the reason beside `Row`.
// That they are the lists that were lent is a clause (`SameLists`), since a type does not speak of before and after.
#[derive(Drop)]
pub struct Columns<'a> {
    pub a: &'a mut [u16],
    pub b: &'a mut [u16],
    pub w: &'a mut [u16],
}

// ---- the parts of the checks

// The counts: n, the rows, and whether a lent output is too short.
pub fn size_check(n: u32, rows: usize, uneven: bool, short: bool) -> Result<(), Refusal>
    ensures { told_check result ≡ size_check n rows uneven short }
{
    if n == 0 || NODES < n as usize {
        return Err(Refusal::NodeCount);
    }
    if uneven || ROWS < rows {
        return Err(Refusal::ListSize);
    }
    if short {
        return Err(Refusal::ShortRoom);
    }
    Ok(())
}

// Row r: an end that is n or more, equal ends, no weight.
pub fn row_check(n: u32, r: usize, row: Row) -> Result<(), Refusal>
    ensures { told_check result ≡ row_numbers n r row.a row.b row.w }
{
    if n <= u32::from(row.a) || n <= u32::from(row.b) {
        return Err(Refusal::EndOutside(r));
    }
    if row.a == row.b {
        return Err(Refusal::EndsEqual(r));
    }
    if row.w == 0 {
        return Err(Refusal::NoWeight(r));
    }
    Ok(())
}

// The sum of the weights. It takes what the rows found, since the first bad row decides: the sum is asked only where no row is bad.
pub fn sum_check(rows: Result<(), Refusal>, sum: u64) -> Result<(), Refusal>
    ensures { told_check result ≡ told_check rows ⟫ sum_check sum }
{
    rows?;
    if MOST_LINKS < sum {
        return Err(Refusal::OverSum);
    }
    Ok(())
}

// ---- the check of a list

// What the type of the weights says, for the proof of `check`: nothing runs.
fn words(w: &[u16])
    ensures { (r : ℕ) → r < length w.now → get_or w.now r 0 ≤ 65535 }
{}

impl<'a> Links<'a> {
    ghost use Rattle.lists.specs.Given.{given_by, list_by};

    // The rows of lists of one length, and the sum of their weights, in one pass. The list is not `Checked` yet: a clause says what is known.
    fn check_rows(&self) -> Result<(), Refusal>
        requires { Even (given_by self.now) × (length self.now.a.now ≤ 2048) }
        ensures { told_check result ≡ rest_check (list_by self.now) }
    {
        let Links { n, a, b, w } = *self;
        let mut total: u64 = 0;
        for r in 0..a.len() {
            // put together here, for the reason beside `Row`
            let row = Row {
                a: a[r],
                b: b[r],
                w: w[r],
            };
            row_check(n, r, row)?;
            total += u64::from(row.w);
        }
        sum_check(Ok(()), total)
    }

    // The checks of a list, for a call whose lent outputs are too short where `short` says so.
    pub fn check(&self, short: bool) -> Result<Checked<'a>, Refusal>
        ensures found { told_check result ≡ list_check (given_by self.now) short }
        ensures same { IfOk result (λ c. c.links ≡ self.now) }
    {
        let Links { n, a, b, w } = *self;
        let uneven = (a.len() != b.len()) | (a.len() != w.len());
        size_check(n, a.len(), uneven, short)?;
        self.check_rows()?;
        words(w);
        Ok(Checked { links: *self })
    }
}

impl<'a> Checked<'a> {
    // Its nodes, as a number of places.
    pub fn nodes(&self) -> usize
        ensures { result ≡ self.now.links.n }
    {
        self.links.n as usize
    }
}

impl<'a> Columns<'a> {
    ghost use Rattle.lists.specs.Parts.{any_short};

    // Whether one of the three has no place for each of so many rows.
    pub fn lack(&self, rows: usize) -> bool
        ensures { result ≡ any_short rows (length self.now.a.now) (length self.now.b.now) (length self.now.w.now) }
    {
        self.a.len() < rows || self.b.len() < rows || self.w.len() < rows
    }
}
