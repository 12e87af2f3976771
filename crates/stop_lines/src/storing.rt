// The line and its rule on the map. This cannot refuse: room and numbers are tested before.
ghost use Rattle.std.specs.Prelude.{◌≡◌, true, ◌+◌, ◌-◌, ◌^◌, ◌≤◌, ◌<◌, max, length};
ghost use Rattle.store.specs.Layout.{SizedWords, Sized, count_of, next_of};
ghost use Rattle.geometry.specs.Polyline.{polyline_of};
ghost use Rattle.map.specs.Rows.{fresh, with_line};
ghost use Rattle.map.specs.Tables.{map_of};
ghost use Rattle.edit.specs.StopLine.{rule_at};
ghost use Rattle.stop_lines.specs.Stop.{rule_room, next_after, ruled, RuleAdded};

use edit::StopRule;
use map::{NewRule, update};

// The rule on the line that was stored.
fn add_rule(words: &mut [u64], rule: StopRule, number: u64, lanes: &[u64])
    requires { SizedWords words.old × (rule_room rule (length lanes.now) (count_of words.old 5) ≡ true) × (next_after rule (next_of words.old) ≤ 2 ^ 64) }
    ensures { RuleAdded words.old rule number lanes.now words.new }
{
    match rule {
        StopRule::StopSign => {
            let sign = NewRule::Sign {
                value: 1,
                line: Some(number),
            };
            update::push_new_rule(words, sign, lanes, &lanes[..0]);
        }
        StopRule::Marking => {
            let marking = NewRule::Marking { line: number };
            update::push_new_rule(words, marking, lanes, &lanes[..0]);
        }
        StopRule::NoRule => {}
    }
}

pub fn store(
    words: &mut [u64],
    coords: &mut [f64],
    points: &[f64],
    rule: StopRule,
    number: u64,
    lanes: &[u64],
)
    requires { Sized words.old coords.old × (count_of words.old 2 < 64) × (rule_room rule (length lanes.now) (count_of words.old 5) ≡ true) × (next_after rule (max 1 (next_of words.old)) < 2 ^ 64) × (length points.now ≤ 192) }
    ensures { map_of words.new coords.new ≡ ruled (rule_at rule number) (with_line (map_of words.old coords.old) (polyline_of points.now)) lanes.now }
{
    update::push_line(words, coords, points);
    add_rule(words, rule, number, lanes);
}
