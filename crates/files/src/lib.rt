// Map files and change set files.
#![tactic(auto)]

ghost use Rattle.std.specs.Prelude.{◌≡◌};
ghost use Rattle.mapfile.specs.MapBytes.{is_map_file};
ghost use Rattle.files.specs.ReadInto.{MapReadInto, ChangesReadInto};
ghost use Rattle.files.specs.OpenInto.{MapOpened};
ghost use Rattle.files.specs.WriteOut.{MapWritten, ChangesWritten};

use changes::Tally;
use changes::layout::WORDS as SET_WORDS;
use refusal::Refusal;
use store::layout;

// Whether the bytes are a map file.
pub fn is_map_file(s: &[u8]) -> bool
    ensures { result ≡ is_map_file s.now }
{
    let mut row: [u64; 92] = [0; 92];
    let mut xs: [f64; 576] = [0.0; 576];
    mapfile::check_map(s, &mut row, &mut xs)
}

// A map file read into the tables: the whole file is tested before the first store. A refusal alters nothing.
#[tactic(auto, using(crate::proofs::ReadLaws::reading_map))]
pub fn read_map(s: &[u8], words: &mut [u64], coords: &mut [f64]) -> Result<(), Refusal>
    ensures { MapReadInto s.now words.old coords.old result words.new coords.new }
{
    if words.len() != layout::WORDS {
        return Err(Refusal::BadMap);
    }
    if coords.len() != layout::COORDS {
        return Err(Refusal::BadMap);
    }
    if !is_map_file(s) {
        return Err(Refusal::BadMap);
    }
    mapload::load_map(s, words, coords);
    Ok(())
}

// The opening of a run: the map, an empty running fold, and its tally of three zeros. A refusal alters nothing.
#[tactic(auto, using(crate::proofs::OpenLaws::opening_map))]
pub fn open_map(
    s: &[u8],
    words: &mut [u64],
    coords: &mut [f64],
    fold: &mut [u64],
) -> Result<Tally, Refusal>
    ensures { MapOpened s.now words.old coords.old fold.old result words.new coords.new fold.new }
{
    if fold.len() != SET_WORDS {
        // a file that is no map is refused first
        if words.len() != layout::WORDS {
            return Err(Refusal::BadMap);
        }
        if coords.len() != layout::COORDS {
            return Err(Refusal::BadMap);
        }
        if !is_map_file(s) {
            return Err(Refusal::BadMap);
        }
        return Err(Refusal::BadSet);
    }
    read_map(s, words, coords)?;
    building::clear(fold);
    Ok(Tally {
        created: 0,
        modified: 0,
        deleted: 0,
    })
}

// A set file read into a table: into spare words first, so that a refusal leaves the table as it was.
#[tactic(auto, using(crate::proofs::SetReadLaws::reading_set))]
pub fn read_changes(s: &[u8], set: &mut [u64]) -> Result<(), Refusal>
    ensures { ChangesReadInto s.now set.old result set.new }
{
    if set.len() != SET_WORDS {
        return Err(Refusal::BadSet);
    }
    let mut spare = [0; SET_WORDS];
    let n = setfile::load_set(s, &mut spare).ok_or(Refusal::BadSet)?;
    if n < s.len() {
        return Err(Refusal::BadSet);
    }
    if !set_tests::is_set(&spare) {
        return Err(Refusal::BadSet);
    }
    rows::put(set, 0, &spare);
    Ok(())
}

// The set file of a table, at the beginning of the buffer, and how many bytes it has. The size is known before the first store, and a refusal alters
// nothing.
#[tactic(auto, using(crate::proofs::WriteLaws::writing_set))]
pub fn write_changes(set: &[u64], buffer: &mut [u8]) -> Result<usize, Refusal>
    ensures { ChangesWritten set.now buffer.old result buffer.new }
{
    if !set_tests::is_set(set) {
        return Err(Refusal::BadSet);
    }
    let size = setfile::put_set(&mut [], Some(0), set);
    let n = size.ok_or(Refusal::ShortBuffer)?;
    if buffer.len() < n {
        return Err(Refusal::ShortBuffer);
    }
    setfile::put_set(buffer, Some(0), set);
    Ok(n)
}

// The map file of the tables, in the same way. The two writers differ in the test, the refusal and the form: a function for both would have to
// be handed all three.
#[tactic(auto, using(crate::proofs::WriteLaws::writing_map))]
pub fn write_map(words: &[u64], coords: &[f64], buffer: &mut [u8]) -> Result<usize, Refusal>
    ensures { MapWritten words.now coords.now buffer.old result buffer.new }
{
    if !validity::is_map(words, coords) {
        return Err(Refusal::BadMap);
    }
    let size = mapput::put_map(&mut [], Some(0), words, coords);
    let n = size.ok_or(Refusal::ShortBuffer)?;
    if buffer.len() < n {
        return Err(Refusal::ShortBuffer);
    }
    mapput::put_map(buffer, Some(0), words, coords);
    Ok(n)
}
