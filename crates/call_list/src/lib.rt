// Lists of calls in plain memory: what a row asks for, what it is answered, and what a run of them leaves.
#![tactic(auto)]

ghost use Rattle.std.specs.Prelude.{◌≡◌, ◌+◌, ◌*◌, ◌/◌, ◌≤◌, true, not, ◌&&◌, ◌||◌, eqb, leb, length, get_or, None};
ghost use Rattle.rows.specs.Rows.{cut, pasted};
ghost use Rattle.place.specs.EndNames.{side_number};
ghost use Rattle.boundary.specs.Numbers.{flag};
ghost use Rattle.call_list.specs.Reply.{Replied, NoCallReplied, reply_length, reply_words};
ghost use Rattle.call_list.specs.Step.{StepLeft};
ghost use Rattle.call_list.specs.Rows.{row_words, part_within, part, measure, measured, pointed, line_within, light_measured, signal_within, links_within};
ghost use Rattle.call_list.specs.Ran.{ran, room_answer, run_answer};

use changes::Tally;
use edit::Answered;
use place::{EndName, LaneSide, SectionNames};
use refusal::Refusal;

// The words of a row, and of an answer.
pub const ROW: usize = 28;

pub const ANSWER: usize = 9;

// The answer to what is no call: no refusal has this number.
const NO_SUCH_CALL: u64 = 255;

// An answer: 0 done, 1 to 14 the refusal, 255 no such call; the number answered; the details of a refusal; the names of a line's ends.
#[derive(Clone, Copy)]
pub struct Reply {
    pub what: u64,
    pub number: u64,
    pub detail: u64,
    pub second: u64,
    pub ends: Option<SectionNames>,
}

// An answer, and the tally that is right after it.
#[derive(Drop)]
pub struct Carried {
    pub reply: Reply,
    pub tally: Tally,
}

#[derive(Drop)]
pub struct RunAnswer {
    pub ran: Result<usize, Refusal>,
    pub tally: Tally,
}

#[tactic(auto, using(crate::proofs::Replies::done_reply, crate::proofs::Replies::refused_reply))]
pub fn reply_of(c: Result<(u64, Option<SectionNames>), Refusal>) -> Reply
    ensures { Replied c result }
{
    match c {
        Ok((n, ends)) => Reply {
            what: 0,
            number: n,
            detail: 0,
            second: 0,
            ends,
        },
        Err(x) => Reply {
            what: x.number(),
            number: 0,
            detail: x.detail(),
            second: x.second(),
            ends: None,
        },
    }
}

// The answer to what is no call, by what every call tests first.
#[tactic(auto, using(crate::proofs::Replies::no_call_reply, crate::proofs::Replies::no_call_refused))]
fn no_call_reply(c: Result<(), Refusal>) -> Reply
    ensures { NoCallReplied c result }
{
    match c {
        Ok(()) => Reply {
            what: NO_SUCH_CALL,
            number: 0,
            detail: 0,
            second: 0,
            ends: None,
        },
        Err(x) => reply_of(Err(x)),
    }
}

// What is no call: 12 and 13 as every call tests them, then an answer of its own. Everything is left as it is.
pub fn not_called(words: &[u64], coords: &[f64], fold: &[u64], tally: Tally, set: &[u64]) -> Carried
    ensures { StepLeft None (record { words = words.now; coords = coords.now; fold = fold.now; tally = tally; set = set.now }) result.reply (record { words = words.now; coords = coords.now; fold = fold.now; tally = result.tally; set = set.now }) }
{
    let c = finishing::check_lent(words, coords, fold, tally, set);
    Carried {
        reply: no_call_reply(c),
        tally,
    }
}

// A call's answer in words, with its tally.
pub fn in_words(a: Answered) -> Carried
    ensures { (Replied a.called result.reply) × (result.tally ≡ a.tally) }
{
    Carried {
        reply: reply_of(a.called),
        tally: a.tally,
    }
}

// Whether the n entries from index at lie within a pool of len entries.
#[tactic(auto, using(crate::proofs::Places::same_test, crate::proofs::Places::too_many))]
pub fn within(len: usize, at: u64, n: u64) -> bool
    ensures { result ≡ leb (at + n) len }
{
    let size = len as u64;
    n <= size && at <= size - n
}

// The n entries of a pool from index at.
#[tactic(auto, using(crate::proofs::Decode::part_cut))]
fn entries<T>(pool: &[T], at: usize, n: usize) -> &[T]
    requires { at + n ≤ length pool.now }
    ensures { result.now ≡ cut pool.now at n }
{
    &pool[at..at + n]
}

// The n numbers of a pool from index at.
pub fn list_at(pool: &[u64], at: u64, n: u64) -> &[u64]
    requires { at + n ≤ length pool.now }
    ensures { result.now ≡ cut pool.now at n }
{
    entries(pool, at as usize, n as usize)
}

// The n measures of a pool from index at.
pub fn reals_at(pool: &[f64], at: u64, n: u64) -> &[f64]
    requires { at + n ≤ length pool.now }
    ensures { result.now ≡ cut pool.now at n }
{
    entries(pool, at as usize, n as usize)
}

// The same of a part that a call reads; one that it does not read is not looked at.
fn part_within(read: bool, len: usize, at: u64, n: u64) -> bool
    ensures { result ≡ (not read || leb (at + n) len) }
{
    !read || within(len, at, n)
}

// The n measures of a pool from index at, where they are read; else none.
#[tactic(auto, using(crate::proofs::Decode::part_room, crate::proofs::Decode::part_read, crate::proofs::Decode::part_unread))]
pub fn part_at(pool: &[f64], read: bool, at: u64, n: u64) -> &[f64]
    requires { part_within read pool.now at n ≡ true }
    ensures { result.now ≡ part read pool.now at n }
{
    if read {
        reals_at(pool, at, n)
    } else {
        &pool[..0]
    }
}

// The measure of a pool at index at, where it is read; else 0.
#[tactic(auto, using(crate::proofs::Decode::part_room, crate::proofs::Decode::measure_read, crate::proofs::Decode::measure_unread))]
pub fn measure_at(pool: &[f64], read: bool, at: u64) -> f64
    requires { part_within read pool.now at 1 ≡ true }
    ensures { result ≡ measure read pool.now at }
{
    if read { pool[at as usize] } else { 0.0 }
}

// Row i of a list of calls.
pub fn row_at(calls: &[u64], i: usize) -> &[u64]
    requires { i * row_words + row_words ≤ length calls.now }
    ensures { result.now ≡ cut calls.now (i * row_words) row_words }
{
    entries(calls, i * ROW, ROW)
}

// Whether the offset or station of a light's line is read, by the choice and the placement of the line.
pub fn light_measured(choice: u64, placement: u64) -> bool
    ensures { result ≡ (eqb choice 2 && measured placement) }
{
    choice == 2 && placement < 2
}

// Whether the given coordinates of a light's line are read.
pub fn light_pointed(choice: u64, placement: u64) -> bool
    ensures { result ≡ (eqb choice 2 && pointed placement) }
{
    choice == 2 && placement == 2
}

// Whether the parts of its pools that a stop line's row reads lie within them.
#[tactic(auto, unfolding(crate::specs::Rows::line_within))]
pub fn line_within(row: &[u64], lists: &[u64], reals: &[f64]) -> bool
    requires { length row.now ≡ row_words }
    ensures { result ≡ line_within row.now lists.now reals.now }
{
    within(lists.len(), row[1], row[2])
        && part_within(row[3] < 2, reals.len(), row[5], 1)
        && part_within(row[3] == 2, reals.len(), row[6], row[7])
}

// The same of the lanes and the two measures of a light's row.
fn light_within(row: &[u64], lists: &[u64], reals: &[f64]) -> bool
    requires { length row.now ≡ row_words }
    ensures { result ≡ (leb (get_or row.now 1 0 + get_or row.now 2 0) (length lists.now) && part_within (light_measured row.now) reals.now (get_or row.now 20 0) 1 && part_within (flag (get_or row.now 7 0)) reals.now (get_or row.now 21 0) 1) }
{
    within(lists.len(), row[1], row[2])
        && part_within(light_measured(row[3], row[5]), reals.len(), row[20], 1)
        && part_within(row[7] != 0, reals.len(), row[21], 1)
}

// The same of a light's row.
#[tactic(auto, unfolding(crate::specs::Rows::signal_within))]
pub fn signal_within(row: &[u64], lists: &[u64], reals: &[f64]) -> bool
    requires { length row.now ≡ row_words }
    ensures { result ≡ signal_within row.now lists.now reals.now }
{
    light_within(row, lists, reals)
        && part_within(light_pointed(row[3], row[5]), reals.len(), row[22], row[23])
        && part_within(row[6] != 0, reals.len(), row[24], row[25])
        && part_within(row[9] != 0, reals.len(), row[26], row[27])
}

// The same of a row of links.
#[tactic(auto, unfolding(crate::specs::Rows::links_within))]
pub fn links_within(row: &[u64], lists: &[u64]) -> bool
    requires { length row.now ≡ row_words }
    ensures { result ≡ links_within row.now lists.now }
{
    within(lists.len(), row[1], row[2])
        && within(lists.len(), row[4], row[5])
        && within(lists.len(), row[6], row[7])
}

fn side_number(e: EndName) -> u64
    ensures { result ≡ side_number e.side }
{
    match e.side {
        LaneSide::Left => 0,
        LaneSide::Right => 1,
    }
}

// The words of an answer.
#[tactic(auto, using(crate::proofs::Replies::unnamed_words, crate::proofs::Replies::named_words))]
pub fn reply_words(r: Reply) -> [u64; ANSWER]
    ensures { result ≡ reply_words r }
{
    let Some(names) = r.ends else {
        return [r.what, r.number, r.detail, r.second, 0, 0, 0, 0, 0];
    };
    let left = names.left;
    let right = names.right;
    [
        r.what,
        r.number,
        r.detail,
        r.second,
        1,
        left.lane,
        side_number(left),
        right.lane,
        side_number(right),
    ]
}

// The words of an answer, from index at.
#[tactic(auto, using(crate::proofs::Replies::put_words))]
pub fn put_reply(answers: &mut [u64], at: usize, r: Reply)
    requires { at + reply_length ≤ length answers.old }
    ensures { answers.new ≡ pasted answers.old at (reply_words r) reply_length }
{
    rows::put(answers, at, &reply_words(r));
}

// Whether there is room for the answers of n rows: 14 otherwise.
#[tactic(auto, using(crate::proofs::Ends::no_room, crate::proofs::Ends::has_room))]
pub fn check_room(n: usize, answers: &[u64]) -> Result<usize, Refusal>
    ensures { ran result ≡ room_answer n answers.now }
{
    if answers.len() / ANSWER < n {
        return Err(Refusal::ShortBuffer);
    }
    Ok(n)
}

// What a list of calls tests: 12 and 13 as a call does, then 14; and how many rows there are.
#[tactic(auto, using(crate::proofs::Ends::lent_refused, crate::proofs::Ends::by_room))]
pub fn check_run(
    words: &[u64],
    coords: &[f64],
    fold: &[u64],
    tally: Tally,
    set: &[u64],
    calls: &[u64],
    answers: &[u64],
) -> Result<usize, Refusal>
    ensures { ran result ≡ run_answer (length calls.now / row_words) (record { words = words.now; coords = coords.now; fold = fold.now; tally = tally; set = set.now }) answers.now }
{
    finishing::check_lent(words, coords, fold, tally, set)?;
    check_room(calls.len() / ROW, answers)
}
