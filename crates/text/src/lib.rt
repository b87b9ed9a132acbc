// Text in lent bytes: a word as it is, and a number in plain decimal after a space. Each call lays its bytes at a place, whole or
// not at all, and answers the place after them, so that a line is one call after the other ("The printing program" of document 01).
// The bytes are those of `meaning`'s `Report.antt`, and `specs/Put.antt` says what stands where afterwards, for every input.
#![tactic(auto)]

ghost use Rattle.std.specs.Prelude.{◌≡◌, [], ◌∷◌, ◌≤◌, drop};
ghost use Rattle.meaning.specs.Report.{decimal, spaced};
ghost use Rattle.text.specs.Put.{put, past};

// The bytes of a 64-bit number, and one more for the space before it.
const NUMBER_BYTES: usize = 21;

// A word. Here and in `number`, `out` and `at` stay two parameters: docs/CALLS.md names both functions with this promise, bytes put at a
// place of lent bytes. `Text` of `reporting` is the struct of the two.
pub fn word(out: &mut [u8], at: usize, new: &[u8]) -> usize
    ensures { (out.new ≡ put at new.now out.old) × (result ≡ past at new.now out.old) }
{
    match at.checked_add(new.len()) {
        Some(end) if end <= out.len() => {
            out[at..end].copy_from_slice(new);
            end
        }
        _ => at,
    }
}

// The digits of x at the end of `space`; answers where they start.
// By hand and not by the library's `itoa`, since the edit `wrong_digit` of must-fail/ makes a digit wrong here.
fn digits_of(x: u64, space: &mut [u8; NUMBER_BYTES]) -> usize
    ensures digits { drop result space.new ≡ decimal x }
    ensures within { (1 ≤ result) × (result ≤ 20) }
{
    let mut rest = x;
    let mut from = NUMBER_BYTES;
    while 10 <= rest {
        from -= 1;
        space[from] = b'0' + (rest % 10) as u8;
        rest /= 10;
    }
    from -= 1;
    space[from] = b'0' + rest as u8;
    from
}

// A space and a number in plain decimal. `out` and `at` are two parameters for the reason given at `word`.
pub fn number(out: &mut [u8], at: usize, x: u64) -> usize
    ensures { (out.new ≡ put at (spaced (x ∷ [])) out.old) × (result ≡ past at (spaced (x ∷ [])) out.old) }
{
    let mut space = [0u8; NUMBER_BYTES];
    let from = digits_of(x, &mut space);
    let first = from - 1;
    space[first] = b' ';
    word(out, at, &space[first..])
}
