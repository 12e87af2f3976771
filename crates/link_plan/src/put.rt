// The rule's row with its new links. This cannot refuse: room is tested before.
ghost use Rattle.std.specs.Prelude.{◌≡◌, ◌≤◌, length, get_or};
ghost use Rattle.store.specs.Layout.{row_of};
ghost use Rattle.link_plan.specs.LinkPlan.{LinkWords, LinesPut, LinksPut};

use map::{lookup, update};

// A light's line, or a crossing's lines.
fn put_lines(words: &mut [u64], i: usize, lines: &[u64])
    requires { LinkWords words.old i × (get_or (row_of words.old 5 i) 1 0 ≡ 5 → length lines.now ≤ 16) }
    ensures { LinesPut words.old i lines.now words.new }
{
    let h = lookup::rule_head(words, i);
    if h.kind == 1 {
        if lines.is_empty() {
            update::put_line(words, i, 0, 0);
        } else {
            update::put_line(words, i, 1, lines[0]);
        }
        return;
    }
    if h.kind == 5 {
        update::put_list(words, i, 75, lines);
    }
}

pub fn links_put(words: &mut [u64], i: usize, lanes: &[u64], crosswalks: &[u64], lines: &[u64])
    requires { LinkWords words.old i × (get_or (row_of words.old 5 i) 1 0 ≡ 5 → length lines.now ≤ 16) × (length lanes.now ≤ 16) × (length crosswalks.now ≤ 16) }
    ensures { LinksPut words.old i lanes.now crosswalks.now lines.now words.new }
{
    put_lines(words, i, lines);
    update::put_list(words, i, 24, crosswalks);
    update::put_list(words, i, 7, lanes);
}
