ghost use Rattle.std.specs.Prelude.{◌≡◌, ◌<◌, true};
ghost use Rattle.columns.specs.Bitmaps.{bit_at};
ghost use Rattle.columns.specs.Stretches.{begins, IsRun, NextStretch};

// A longest run of valid entries: from `start` up to `end`, which is not in it.
#[derive(Clone, Copy, PartialEq, Eq, Debug)]
pub struct Stretch {
    pub start: u64,
    pub end: u64,
}

// Bit i mod 8, the lowest first, of byte i div 8; past the bitmap no entry is valid.
pub fn is_valid(bits: &[u8], i: u64) -> bool
    ensures { result ≡ bit_at bits.now i }
{
    bits.get((i / 8) as usize)
        .is_some_and(|&byte| (byte >> (i % 8)) % 2 == 1)
}

// Whether a stretch starts at i.
fn starts_at(bits: &[u8], i: u64) -> bool
    ensures { result ≡ begins (bit_at bits.now) i }
{
    is_valid(bits, i) && (i == 0 || !is_valid(bits, i - 1))
}

// Where the run that holds `start` ends.
fn run_end(bits: &[u8], len: u64, start: u64) -> u64
    requires { (start < len) × (bit_at bits.now start ≡ true) }
    ensures { IsRun (bit_at bits.now) len start result }
{
    (start + 1..len)
        .find(|&end| !is_valid(bits, end))
        .unwrap_or(len)
}

// The first stretch of `len` entries that starts at `from` or later. `let .. else` and no `?`, which would cost a walk over
// many short stretches a twentieth more.
pub fn next_stretch(bits: &[u8], len: u64, from: u64) -> Option<Stretch>
    ensures { NextStretch (bit_at bits.now) len from result }
{
    let Some(start) = (from..len).find(|&i| starts_at(bits, i)) else {
        return None;
    };
    let end = run_end(bits, len, start);
    Some(Stretch { start, end })
}
