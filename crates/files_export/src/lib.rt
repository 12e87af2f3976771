// Map files and change set files for programs in other languages: numbers and slices. The result is 0, or the refusal's number.
#![tactic(auto)]

ghost use Rattle.std.specs.Prelude.{◌≡◌};
ghost use Rattle.files_export.specs.Left.{MapReadLeft, MapOpenedLeft, ChangesReadLeft, MapWriteLeft, ChangesWriteLeft, code_of, size_of};

use refusal::Refusal;

// 0, or the refusal's number.
fn code<T: Copy>(r: Result<T, Refusal>) -> u64
    ensures { result ≡ code_of r }
{
    match r {
        Ok(_) => 0,
        Err(why) => why.number(),
    }
}

// A map file read into the tables: 0 or 12.
#[unsafe(no_mangle)]
#[tactic(auto, using(crate::proofs::Laws::exported))]
pub extern "C" fn lane_map_read(file: &[u8], words: &mut [u64], coords: &mut [f64]) -> u64
    ensures { MapReadLeft file.now words.old coords.old result words.new coords.new }
{
    code(reader::read_map_file(file, words, coords))
}

// The opening of a run: the map of the file, an empty running fold, a tally of three zeros; 0, 12 or 13.
#[unsafe(no_mangle)]
#[tactic(auto, using(crate::proofs::Laws::exported))]
pub extern "C" fn lane_map_open(
    file: &[u8],
    words: &mut [u64],
    coords: &mut [f64],
    fold: &mut [u64],
    tally: &mut [u64; 3],
) -> u64
    ensures { MapOpenedLeft file.now words.old coords.old fold.old tally.old result words.new coords.new fold.new tally.new }
{
    let opened = files::open_map(file, words, coords, fold);
    if let Ok(t) = opened {
        tally_words::put_tally(tally, t);
    }
    code(opened)
}

// A change set file read into a table: 0 or 13.
#[unsafe(no_mangle)]
#[tactic(auto, using(crate::proofs::Laws::exported))]
pub extern "C" fn lane_map_read_changes(file: &[u8], set: &mut [u64]) -> u64
    ensures { ChangesReadLeft file.now set.old result set.new }
{
    code(reader::read_changes_file(file, set))
}

// What was written as a code, and its size; refused, the size stays.
fn told(w: Result<usize, Refusal>, size: &mut [u64; 1]) -> u64
    ensures { (result ≡ code_of w) × (size.new ≡ size_of w size.old) }
{
    if let Ok(n) = w {
        *size = [n as u64];
    }
    code(w)
}

// The tables' map file at the beginning of the buffer, and how many bytes it has: 0, 12 or 14.
#[unsafe(no_mangle)]
#[tactic(auto, using(crate::proofs::Laws::exported))]
pub extern "C" fn lane_map_write(
    words: &[u64],
    coords: &[f64],
    buffer: &mut [u8],
    size: &mut [u64; 1],
) -> u64
    ensures { MapWriteLeft words.now coords.now buffer.old size.old result buffer.new size.new }
{
    let w = files::write_map(words, coords, buffer);
    told(w, size)
}

// The table's change set file at the beginning of the buffer, and how many bytes it has: 0, 13 or 14.
#[unsafe(no_mangle)]
#[tactic(auto, using(crate::proofs::Laws::exported))]
pub extern "C" fn lane_map_write_changes(set: &[u64], buffer: &mut [u8], size: &mut [u64; 1]) -> u64
    ensures { ChangesWriteLeft set.now buffer.old size.old result buffer.new size.new }
{
    let w = files::write_changes(set, buffer);
    told(w, size)
}
