// What the calls of this library answer: `Ok` with what was asked, or `Err` with a refusal, which has a case for each number of
// document 01's table. `specs/Paper.antt` gives the paper's number, place and fields of every answer; all promises go through it.
#![tactic(auto)]

ghost use Rattle.std.specs.Prelude.{◌≡◌, Some};
ghost use Rattle.answers.specs.Paper.{number_of, place_of, refusal_text};

use std::fmt;

// The table of document 01, in its order; where a number has a place, the case has it: an offset in a file, or a row.
#[derive(Clone, Copy, PartialEq, Eq)]
pub enum Refusal {
    FileSize,
    WrongMark,
    StartPast,
    RecordLength(usize),
    RecordPasses(usize),
    RecordKind(usize),
    NodesRecord(usize),
    RowCount,
    NodeCount,
    ListSize,
    EndOutside(usize),
    EndsEqual(usize),
    NoWeight(usize),
    ShortRoom,
    ZeroK,
    OneNode,
    NoneBelow,
    OverSum,
}

impl Refusal {
    // Its number in the table.
    pub fn number(self) -> u32
        ensures { result ≡ number_of self }
    {
        match self {
            Refusal::FileSize => 1,
            Refusal::WrongMark => 2,
            Refusal::StartPast => 3,
            Refusal::RecordLength(_) => 4,
            Refusal::RecordPasses(_) => 5,
            Refusal::RecordKind(_) => 6,
            Refusal::NodesRecord(_) => 7,
            Refusal::RowCount => 8,
            Refusal::NodeCount => 9,
            Refusal::ListSize => 10,
            Refusal::EndOutside(_) => 11,
            Refusal::EndsEqual(_) => 12,
            Refusal::NoWeight(_) => 13,
            Refusal::ShortRoom => 14,
            Refusal::ZeroK => 15,
            Refusal::OneNode => 16,
            Refusal::NoneBelow => 17,
            Refusal::OverSum => 18,
        }
    }

    // Its place: 0 where the table names none, as `place_of` has it.
    pub fn place(self) -> usize
        ensures { result ≡ place_of self }
    {
        match self {
            Refusal::RecordLength(at)
            | Refusal::RecordPasses(at)
            | Refusal::RecordKind(at)
            | Refusal::NodesRecord(at) => at,
            Refusal::EndOutside(row) | Refusal::EndsEqual(row) | Refusal::NoWeight(row) => row,
            _ => 0,
        }
    }
}

// The number and the place, as the report says them after `refused`.
impl fmt::Display for Refusal {
    ghost output = { λ e. Some (refusal_text e) };

    fn fmt<W: fmt::Write>(&self, f: &mut fmt::Formatter<W>) -> fmt::Result {
        write!(f, "{} at {}", self.number(), self.place())
    }
}

// ---- what a call answers where it does not refuse

// What the reader found: a list with n nodes and so many rows.
#[derive(Clone, Copy, PartialEq, Eq)]
pub struct Found {
    pub n: u32,
    pub rows: usize,
}

// A set of nodes as two words, and the number of nodes in it.
#[derive(Clone, Copy, PartialEq, Eq)]
pub struct Side {
    pub low: u64,
    pub high: u64,
    pub size: u32,
}

// A split: its value and its side.
#[derive(Clone, Copy, PartialEq, Eq)]
pub struct Split {
    pub value: u32,
    pub side: Side,
}

// A list's summary: n, rows, links and pairs.
#[derive(Clone, Copy, PartialEq, Eq)]
pub struct Totals {
    pub n: u32,
    pub rows: usize,
    pub links: u32,
    pub pairs: u32,
}
