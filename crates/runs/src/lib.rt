// Lists of calls carried out on lent memory, one after another.
#![tactic(auto)]

ghost use Rattle.std.specs.Prelude.{◌≡◌};
ghost use Rattle.rows.specs.Lists.{list_to};
ghost use Rattle.call_list.specs.Rows.{row_at, rows_in};
ghost use Rattle.call_list.specs.Ran.{ran, RowsLeft, RunLeft};
ghost use Rattle.runs.specs.Loop.{Room, no_tally};
ghost use Rattle.runs.specs.Opened.{sets_answer, Tested, OpenedLeft};

use call_list::RunAnswer;
use changes::Tally;
use refusal::Refusal;
use store::layout;

// The first n rows, with room for their answers. Row and answer are found by their index, as the definition's rows are.
fn run_rows(
    words: &mut [u64],
    coords: &mut [f64],
    fold: &mut [u64],
    tally: Tally,
    set: &mut [u64],
    calls: &[u64],
    lists: &[u64],
    reals: &[f64],
    answers: &mut [u64],
    n: usize,
) -> Tally
    requires { Room (record { words = words.old; coords = coords.old; fold = fold.old; tally = tally; set = set.old }) calls.now answers.old n }
    ensures { RowsLeft (list_to (row_at calls.now lists.now reals.now) n) (record { words = words.old; coords = coords.old; fold = fold.old; tally = tally; set = set.old }) answers.old (record { words = words.new; coords = coords.new; fold = fold.new; tally = result; set = set.new }) answers.new }
{
    let mut kept = tally;
    for i in 0..n {
        let at = i * call_list::ANSWER;
        let row = call_list::row_at(calls, i);
        let step = row_calls::carry_out(words, coords, fold, kept, set, row, lists, reals);
        kept = step.tally;
        call_list::put_reply(answers, at, step.reply);
    }
    kept
}

// Every row is carried out, in order, on what the one before left, and has its answer in words.
pub fn run_calls(
    words: &mut [u64],
    coords: &mut [f64],
    fold: &mut [u64],
    tally: Tally,
    set: &mut [u64],
    calls: &[u64],
    lists: &[u64],
    reals: &[f64],
    answers: &mut [u64],
) -> RunAnswer
    ensures { RunLeft (rows_in calls.now lists.now reals.now) (record { words = words.old; coords = coords.old; fold = fold.old; tally = tally; set = set.old }) answers.old result.ran (record { words = words.new; coords = coords.new; fold = fold.new; tally = result.tally; set = set.new }) answers.new }
{
    let checked = call_list::check_run(words, coords, fold, tally, set, calls, answers);
    match checked {
        Err(x) => RunAnswer { ran: Err(x), tally },
        Ok(n) => RunAnswer {
            ran: Ok(n),
            tally: run_rows(
                words, coords, fold, tally, set, calls, lists, reals, answers, n,
            ),
        },
    }
}

// Whether the fold and the set have their lengths, and whether there is room for the answers of n rows.
#[tactic(auto, using(crate::proofs::OpenedLaws::bad_fold, crate::proofs::OpenedLaws::bad_set, crate::proofs::OpenedLaws::by_room))]
fn check_sets(fold: &[u64], set: &[u64], n: usize, answers: &[u64]) -> Result<usize, Refusal>
    ensures { ran result ≡ sets_answer n fold.now set.now answers.now }
{
    if fold.len() != changes::layout::WORDS || set.len() != changes::layout::WORDS {
        return Err(Refusal::BadSet);
    }
    call_list::check_room(n, answers)
}

// What a run from a file tests before it opens the file. The file is read here only where something after it is refused: 12 for bytes
// that are no map file comes first.
fn check_opened(
    file: &[u8],
    words: &[u64],
    coords: &[f64],
    fold: &[u64],
    set: &[u64],
    calls: &[u64],
    answers: &[u64],
) -> Result<usize, Refusal>
    ensures { Tested file.now calls.now (record { words = words.now; coords = coords.now; fold = fold.now; tally = no_tally; set = set.now }) answers.now result }
{
    if words.len() != layout::WORDS || coords.len() != layout::COORDS {
        return Err(Refusal::BadMap);
    }
    let checked = check_sets(fold, set, calls.len() / call_list::ROW, answers);
    match checked {
        Ok(n) => Ok(n),
        Err(x) => {
            if files::is_map_file(file) {
                Err(x)
            } else {
                Err(Refusal::BadMap)
            }
        }
    }
}

// A run from a file: how many rows were carried out, or why none was; the bytes written; the tally at the end.
#[derive(Drop)]
pub struct OpenedRun {
    pub ran: Result<usize, Refusal>,
    pub written: Result<usize, Refusal>,
    pub tally: Tally,
}

// Opens the map file, carries out the calls on it, and writes the running fold's change set file into the buffer. Refused, it alters
// nothing and answers the tally of three zeros; a buffer that is too short is found at the end, when the run has been carried out.
pub fn run_opened(
    file: &[u8],
    words: &mut [u64],
    coords: &mut [f64],
    fold: &mut [u64],
    set: &mut [u64],
    calls: &[u64],
    lists: &[u64],
    reals: &[f64],
    answers: &mut [u64],
    buffer: &mut [u8],
) -> OpenedRun
    ensures { OpenedLeft file.now (rows_in calls.now lists.now reals.now) (record { words = words.old; coords = coords.old; fold = fold.old; tally = no_tally; set = set.old }) answers.old buffer.old result.ran result.written (record { words = words.new; coords = coords.new; fold = fold.new; tally = result.tally; set = set.new }) answers.new buffer.new }
{
    let checked = check_opened(file, words, coords, fold, set, calls, answers);
    match checked {
        Err(x) => not_opened(x),
        Ok(n) => {
            let opened = files::open_map(file, words, coords, fold);
            match opened {
                Err(x) => not_opened(x),
                Ok(t) => {
                    let tally = run_rows(
                        words, coords, fold, t, set, calls, lists, reals, answers, n,
                    );
                    OpenedRun {
                        ran: Ok(n),
                        written: files::write_changes(fold, buffer),
                        tally,
                    }
                }
            }
        }
    }
}

// A run that was refused wrote nothing.
fn not_opened(x: Refusal) -> OpenedRun
    ensures { (result.ran ≡ Err x) × (result.tally ≡ no_tally) × (result.written ≡ Err x) }
{
    OpenedRun {
        ran: Err(x),
        written: Err(x),
        tally: Tally {
            created: 0,
            modified: 0,
            deleted: 0,
        },
    }
}
