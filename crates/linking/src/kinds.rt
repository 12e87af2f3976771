// Which kinds of signals a light has.
ghost use Rattle.std.specs.Prelude.{◌<◌, ◌≤◌, get_or};
ghost use Rattle.store.specs.Layout.{SizedWords, count_of, row_of};
ghost use Rattle.linking.specs.Kinds.{KindAdded, KindsRead};

use map::lookup;
use store::Kind;

// The kinds of the signals so far, with one before them: the first that is missing counts.
fn with_signal(words: &[u64], n: u64, rest: Result<(bool, bool), u64>) -> Result<(bool, bool), u64>
    requires { SizedWords words.now }
    ensures { KindAdded words.now n rest result }
{
    let f = lookup::find(words, Kind::Signal, n);
    let Some(i) = f else {
        return Err(n);
    };
    let (vehicle, pedestrian) = rest?;
    if lookup::word(words, Kind::Signal, i, 1) == 0 {
        Ok((true, pedestrian))
    } else {
        Ok((vehicle, true))
    }
}

// The kinds of the signals of a list, or the first that is missing.
pub fn kinds_of(words: &[u64], signals: &[u64]) -> Result<(bool, bool), u64>
    requires { SizedWords words.now }
    ensures { KindsRead words.now signals.now result }
{
    let mut kinds = Ok((false, false));
    for i in (0..signals.len()).rev() {
        kinds = with_signal(words, signals[i], kinds);
    }
    kinds
}
