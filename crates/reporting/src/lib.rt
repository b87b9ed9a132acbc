// The report of a file, as text in lent bytes ("The printing program" of document 01): the summary, the order, the value and the side's
// nodes. For a list with one node a refusal stands in place of the last two, and for a file that is refused there is the refusal alone.
// `report` promises for every input that the text is `report_of` of `meaning`, whole or not at all, and that 1,024 bytes are always enough.
// The text is built in local bytes. Each function adds its part at the end (`specs/Adds.antt`), and the whole is copied out at last, when
// its length is known.
#![tactic(auto)]

ghost use Rattle.std.specs.Prelude.{◌≡◌, ℕ, false, List, [], ◌∷◌, ◌++◌, ◌≤◌, length, take};
ghost use Rattle.meaning.specs.Numbers.{fine};
ghost use Rattle.meaning.specs.Links.{given, list_check};
ghost use Rattle.meaning.specs.Report.{spaced, line, order_text, side_text, list_report, report_of};
ghost use Rattle.meaning.specs.Calls.{order0};
ghost use Rattle.lists.specs.Given.{given_by, list_by};
ghost use Rattle.sides.specs.Bits.{nodes_in};
ghost use Rattle.reporting.specs.Adds.{Adds};
ghost use Rattle.reporting.specs.Words.{summary_text, split_text, refused_text};
ghost use Rattle.reporting.specs.Reported.{Reported};

use answers::{Found, Refusal, Side, Split, Totals};
use lists::{Checked, Columns, Links, NODES, ROWS};
use std::marker::Model;

// As many bytes as are enough for every report.
pub const TEXT: usize = 1024;

// A text: the first `len` of its bytes. A word or a number that has no room is left out. Bytes and a length, not a `Vec`, since calls
// allocate nothing.
#[derive(Drop)]
struct Text {
    bytes: [u8; TEXT],
    len: usize,
}

impl Model for Text {
    ghost Value = { List ℕ };

    ghost view = { λ t. take t.len t.bytes };

    ghost invariant = { λ t. t.len ≤ 1024 };
}

// ---- words, numbers and lines

impl Text {
    fn word(&mut self, word: &[u8])
        ensures { Adds self.old self.new word.now }
    {
        self.len = text::word(&mut self.bytes, self.len, word);
    }

    fn number(&mut self, x: u64)
        ensures { Adds self.old self.new (spaced (x ∷ [])) }
    {
        self.len = text::number(&mut self.bytes, self.len, x);
    }

    // A word and one number.
    fn named(&mut self, word: &[u8], x: u64)
        ensures { Adds self.old self.new (word.now ++ spaced (x ∷ [])) }
    {
        self.word(word);
        self.number(x);
    }

    // The numbers of a list.
    fn numbers(&mut self, xs: &[u16])
        ensures { Adds self.old self.new (spaced xs.now) }
    {
        for &x in xs {
            self.number(u64::from(x));
        }
    }

    // A word and the numbers of a list.
    fn list_line(&mut self, word: &[u8], xs: &[u16])
        ensures { Adds self.old self.new (line word.now xs.now) }
    {
        self.word(word);
        self.numbers(xs);
        self.word(b"\n");
    }

    // Line 1.
    #[tactic(auto, using(crate::proofs::Spaced::summary_short))]
    fn summary_line(&mut self, totals: Totals)
        ensures adds { Adds self.old self.new (summary_text totals) }
        ensures short { length (summary_text totals) ≤ 107 }
    {
        self.named(b"nodes", u64::from(totals.n));
        self.named(b" rows", totals.rows as u64);
        self.named(b" links", u64::from(totals.links));
        self.named(b" pairs", u64::from(totals.pairs));
        self.word(b"\n");
    }

    // The line of a refusal. Not by its `Display`: the bytes of a report are laid by the crate `text`, whose clauses say where they stand.
    #[tactic(auto, using(crate::proofs::Spaced::refused_short))]
    fn refusal_line(&mut self, refusal: Refusal)
        ensures adds { Adds self.old self.new (refused_text refusal) }
        ensures short { length (refused_text refusal) ≤ 53 }
    {
        self.named(b"refused", u64::from(refusal.number()));
        self.named(b" at", refusal.place() as u64);
        self.word(b"\n");
    }
}

// ---- the lines of a list that passed its checks

impl Text {
    // Line 2. Not inlined: its table is gone before the split has its own.
    #[tactic(auto, using(lists::proofs::Passed::accepted))]
    #[inline(never)]
    fn order_line(&mut self, list: &Checked<'_>)
        ensures adds { Adds self.old self.new (line order_text (order0 (given_by list.now.links))) }
        ensures short { length (line order_text (order0 (given_by list.now.links))) ≤ 408 }
    {
        let mut order = [0u16; NODES];
        let mut back = [0u32; NODES];
        order::order(&list.links, &mut order, &mut back).unwrap();
        self.list_line(b"order", &order[..list.nodes()]);
    }

    // Line 4: a side has at most 128 nodes.
    #[tactic(auto, using(crate::proofs::Nodes::side_short, crate::proofs::Members::members_fit))]
    fn side_line(&mut self, side: Side)
        ensures adds { Adds self.old self.new (line side_text (nodes_in side.low side.high)) }
        ensures short { length (line side_text (nodes_in side.low side.high)) ≤ 407 }
    {
        let mut nodes = [0u16; NODES];
        let size = sides::members(side.low, side.high, &mut nodes).unwrap();
        self.list_line(b"side", &nodes[..size]);
    }

    // Lines 3 and 4, or why there is no split.
    #[tactic(auto, using(crate::proofs::Spaced::split_short))]
    fn split_lines(&mut self, parted: Result<Split, Refusal>)
        ensures adds { Adds self.old self.new (split_text parted) }
        ensures short { length (split_text parted) ≤ 434 }
    {
        match parted {
            Ok(split) => {
                self.named(b"least", u64::from(split.value));
                self.word(b"\n");
                self.side_line(split.side);
            }
            Err(refusal) => self.refusal_line(refusal),
        }
    }

    // All of its lines. Not inlined: the tables stand in its frame, and a file that is refused needs none.
    #[tactic(auto, using(crate::proofs::Listing::summary_made))]
    #[inline(never)]
    fn list_lines(&mut self, list: &Checked<'_>)
        ensures adds { Adds self.old self.new (list_report (list_by list.now.links)) }
        ensures short { length (list_report (list_by list.now.links)) ≤ 1024 }
    {
        let totals = summary::summary(&list.links).unwrap();
        self.summary_line(totals);
        self.order_line(list);
        self.split_lines(least::least(&list.links));
    }
}

// ---- the whole

// The list that was read, as a list that passed its checks: the first `list.rows` places of three lists. The reader has made these checks,
// so they are not made again: here the `Checked` list is made.
fn first_rows<'a>(list: Found, a: &'a [u16], b: &'a [u16], w: &'a [u16]) -> Checked<'a>
    requires room { (list.rows ≤ length a.now) × (list.rows ≤ length b.now) × (list.rows ≤ length w.now) }
    requires passed { list_check (given list.n (take list.rows a.now) (take list.rows b.now) (take list.rows w.now)) false ≡ fine }
    ensures { given_by result.links ≡ given list.n (take list.rows a.now) (take list.rows b.now) (take list.rows w.now) }
{
    let links = Links {
        n: list.n,
        // the first rows, taken here for the reason beside `lists::Columns`
        a: &a[..list.rows],
        b: &b[..list.rows],
        w: &w[..list.rows],
    };
    Checked { links }
}

impl Text {
    // The report of a file's bytes. It goes on only if a list was read.
    #[tactic(auto, using(crate::proofs::Reading::reads))]
    fn file_lines(&mut self, s: &[u8])
        ensures adds { Adds self.old self.new (report_of s.now) }
        ensures short { length (report_of s.now) ≤ 1024 }
    {
        let mut a = [0u16; ROWS];
        let mut b = [0u16; ROWS];
        let mut w = [0u16; ROWS];
        let mut columns = Columns {
            a: &mut a,
            b: &mut b,
            w: &mut w,
        };
        let found = read::read(s, &mut columns);
        // Document 01 wants the reader's answer opened by `let else`.
        let Ok(list) = found else {
            self.refusal_line(found.unwrap_err());
            return;
        };
        let Columns { a, b, w } = columns;
        self.list_lines(&first_rows(list, a, b, w));
    }
}

// Writes the report of a file's bytes into lent bytes and answers its length, or 14 if it does not fit.
pub fn report(s: &[u8], out: &mut [u8]) -> Result<usize, Refusal>
    ensures { Reported s.now out.old result out.new }
{
    let mut text = Text {
        bytes: [0; TEXT],
        len: 0,
    };
    text.file_lines(s);
    let size = text.len;
    if out.len() < size {
        return Err(Refusal::ShortRoom);
    }
    out[..size].copy_from_slice(&text.bytes[..size]);
    Ok(size)
}
