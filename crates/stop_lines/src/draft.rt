// The change set of a new line, before it is normalized, and whether the fold takes it.
ghost use Rattle.std.specs.Prelude.{◌≡◌, true, ◌+◌, ◌^◌, ◌≤◌, ◌<◌, [], ◌∷◌, ◌++◌, leb, length};
ghost use Rattle.map.specs.Entity.{entity};
ghost use Rattle.changes.specs.Layout.{set_words, lists_ok_in};
ghost use Rattle.stop_lines.specs.Stop.{clamped_by, line_changes, Following, Holds, SetDrafted, LineSettles, next_after};

use changes::lists::Entry;
use changes::{SetList, WarningCode};
use edit::StopRule;
use refusal::Refusal;

const LAST: u64 = 18446744073709551615;

// The number after n. Where there is none the call is refused, and any number serves.
fn following(n: u64) -> u64
    ensures { Following n result }
{
    if n < LAST { n + 1 } else { n }
}

// Whether the next number would be 2^64 or more.
pub fn is_late(rule: StopRule, number: u64) -> bool
    ensures { result ≡ leb (2 ^ 64) (next_after rule number) }
{
    match rule {
        StopRule::StopSign => LAST - 1 <= number,
        StopRule::Marking => LAST - 1 <= number,
        StopRule::NoRule => LAST <= number,
    }
}

// The line, and the clamp's warning.
fn start(draft: &mut [u64], number: u64, clamped: bool, lane: u64)
    requires { length draft.old ≡ set_words }
    ensures { Holds draft.new (record { created = entity 5 number ∷ []; modified = []; deleted = []; warnings = clamped_by clamped lane }) 1 1 }
{
    building::clear(draft);
    building::push(draft, SetList::Created, Entry { kind: 5, number });
    if clamped {
        building::warn(
            draft,
            WarningCode::PlacementClamped,
            Entry {
                kind: 1,
                number: lane,
            },
        );
    }
}

// The line's change set: its rule is new too, or it is warned that no rule names it.
pub fn draft_set(draft: &mut [u64], rule: StopRule, number: u64, clamped: bool, lane: u64)
    requires { length draft.old ≡ set_words }
    ensures { SetDrafted rule number (clamped_by clamped lane) draft.new }
{
    start(draft, number, clamped, lane);
    let second = following(number);
    match rule {
        StopRule::StopSign => building::push(
            draft,
            SetList::Created,
            Entry {
                kind: 8,
                number: second,
            },
        ),
        StopRule::Marking => building::push(
            draft,
            SetList::Created,
            Entry {
                kind: 8,
                number: second,
            },
        ),
        StopRule::NoRule => building::warn(
            draft,
            WarningCode::OrphanRule,
            Entry { kind: 5, number },
        ),
    }
}

// What settling the line's set with the fold answers. Only where numbers are spent or the fold is nearly full is a set drafted to find out, in memory of its own.
pub fn check_fold(
    fold: &[u64],
    rule: StopRule,
    number: u64,
    clamped: bool,
    lane: u64,
    late: bool,
) -> Result<(), Refusal>
    requires { lists_ok_in fold.now ≡ true }
    ensures { LineSettles fold.now rule number (clamped_by clamped lane) late result }
{
    if finishing::fold_room(fold, late) {
        return Ok(());
    }
    let mut draft = [0u64; 3556];
    draft_set(&mut draft, rule, number, clamped, lane);
    finishing::settles(fold, &mut draft, late)
}
