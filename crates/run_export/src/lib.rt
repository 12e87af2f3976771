// Runs for programs in other languages: numbers and slices, the tally three words. The result is 0, or the refusal's number where nothing
// was carried out.
#![tactic(auto)]

ghost use Rattle.std.specs.Prelude.{◌≡◌};
ghost use Rattle.call_list.specs.Rows.{rows_in};
ghost use Rattle.tally_words.specs.Words.{tally_in};
ghost use Rattle.run_export.specs.Written.{RunWritten, OpenedWritten, written_words};

use refusal::Refusal;

// A list of calls, rows of 28 words with two pools: 0, or 12, 13 or 14 where nothing was carried out.
#[unsafe(no_mangle)]
pub extern "C" fn lane_map_run_calls(
    words: &mut [u64],
    coords: &mut [f64],
    fold: &mut [u64],
    tally: &mut [u64; 3],
    set: &mut [u64],
    calls: &[u64],
    lists: &[u64],
    reals: &[f64],
    answers: &mut [u64],
) -> u64
    ensures { RunWritten (rows_in calls.now lists.now reals.now) (record { words = words.old; coords = coords.old; fold = fold.old; tally = tally_in tally.old; set = set.old }) answers.old result (record { words = words.new; coords = coords.new; fold = fold.new; tally = tally_in tally.new; set = set.new }) answers.new }
{
    let t = tally_words::tally_of(tally);
    let a = runs::run_calls(words, coords, fold, t, set, calls, lists, reals, answers);
    tally_words::put_tally(tally, a.tally);
    match a.ran {
        Ok(_) => 0,
        Err(x) => x.number(),
    }
}

// What was written, in two words: 0 and how many bytes, or the refusal and 0.
#[tactic(auto, using(crate::proofs::Laws::words_done, crate::proofs::Laws::words_refused))]
fn put_written(t: &mut [u64; 2], w: Result<usize, Refusal>)
    ensures { t.new ≡ written_words w }
{
    *t = match w {
        Ok(n) => [0, n as u64],
        Err(x) => [x.number(), 0],
    };
}

// A run from a map file to the change set file of its running fold. The result is 0, or 12, 13 or 14 where nothing was carried out; a buffer
// that is too short is told in the two words on what was written, and the run has been carried out.
#[unsafe(no_mangle)]
pub extern "C" fn lane_map_run_opened(
    file: &[u8],
    words: &mut [u64],
    coords: &mut [f64],
    fold: &mut [u64],
    tally: &mut [u64; 3],
    set: &mut [u64],
    calls: &[u64],
    lists: &[u64],
    reals: &[f64],
    answers: &mut [u64],
    buffer: &mut [u8],
    written: &mut [u64; 2],
) -> u64
    ensures { OpenedWritten file.now (rows_in calls.now lists.now reals.now) (record { words = words.old; coords = coords.old; fold = fold.old; tally = tally_in tally.old; set = set.old }) answers.old buffer.old written.old result (record { words = words.new; coords = coords.new; fold = fold.new; tally = tally_in tally.new; set = set.new }) answers.new buffer.new written.new }
{
    let a = runs::run_opened(
        file, words, coords, fold, set, calls, lists, reals, answers, buffer,
    );
    match a.ran {
        Ok(_) => {
            tally_words::put_tally(tally, a.tally);
            put_written(written, a.written);
            0
        }
        Err(x) => x.number(),
    }
}
