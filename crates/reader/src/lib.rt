// One value that carries the bytes of a file and how far they are used. The work is done by functions on a slice and a place; above them a few
// thin functions take the value apart, and two functions with plain parameters begin one, for all other callers.
#![tactic(auto)]

ghost use Rattle.std.specs.Prelude.{◌≡◌, ◌≤◌, length, drop};
ghost use Rattle.files.specs.ReadInto.{MapReadInto, ChangesReadInto};
ghost use Rattle.reader.specs.Next.{place_after, NumberTaken};

use refusal::Refusal;

#[derive(Drop)]
pub struct Reader<'a> {
    pub bytes: &'a [u8],
    pub at: usize,
}

// Where the unused bytes begin: at the place, or at the end where the place is past it.
#[tactic(auto, using(crate::proofs::ReaderLaws::past))]
fn begin(bytes: &[u8], at: usize) -> usize
    ensures { (result ≤ length bytes.now) × (drop result bytes.now ≡ drop at bytes.now) }
{
    if at < bytes.len() { at } else { bytes.len() }
}

// The unused bytes are a map file, or 12.
pub fn map_at(bytes: &[u8], at: usize, words: &mut [u64], coords: &mut [f64]) -> Result<(), Refusal>
    ensures { MapReadInto (drop at bytes.now) words.old coords.old result words.new coords.new }
{
    let from = begin(bytes, at);
    files::read_map(&bytes[from..], words, coords)
}

// The unused bytes are a change set file, or 13.
pub fn changes_at(bytes: &[u8], at: usize, set: &mut [u64]) -> Result<(), Refusal>
    ensures { ChangesReadInto (drop at bytes.now) set.old result set.new }
{
    let from = begin(bytes, at);
    files::read_changes(&bytes[from..], set)
}

// The place after a number that was read; after a fault the same place.
pub fn place_after(n: Option<(u64, usize)>, at: usize) -> usize
    ensures { result ≡ place_after n at }
{
    match n {
        Some((_, next)) => next,
        None => at,
    }
}

pub fn read_map<'a, 'b, 'c>(
    r: Reader<'a>,
    words: &'b mut [u64],
    coords: &'c mut [f64],
) -> Result<(), Refusal>
    ensures { MapReadInto (drop r.entry.at r.entry.bytes.now) words.old coords.old result words.new coords.new }
{
    map_at(r.bytes, r.at, words, coords)
}

pub fn read_changes<'a, 'b>(r: Reader<'a>, set: &'b mut [u64]) -> Result<(), Refusal>
    ensures { ChangesReadInto (drop r.entry.at r.entry.bytes.now) set.old result set.new }
{
    changes_at(r.bytes, r.at, set)
}

// One number is read and used up; a fault uses nothing.
pub fn next_number<'s, 'a>(r: &'s mut Reader<'a>) -> Option<(u64, usize)>
    ensures { NumberTaken r.old result r.new }
{
    let n = codec::read_number(r.bytes, r.at);
    r.at = place_after(n, r.at);
    n
}

pub fn read_map_file(file: &[u8], words: &mut [u64], coords: &mut [f64]) -> Result<(), Refusal>
    ensures { MapReadInto file.now words.old coords.old result words.new coords.new }
{
    read_map(Reader { bytes: file, at: 0 }, words, coords)
}

pub fn read_changes_file(file: &[u8], set: &mut [u64]) -> Result<(), Refusal>
    ensures { ChangesReadInto file.now set.old result set.new }
{
    read_changes(Reader { bytes: file, at: 0 }, set)
}
