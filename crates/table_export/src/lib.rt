// A map's tables tested, and change sets folded, for programs in other languages.
#![tactic(auto)]

ghost use Rattle.std.specs.Prelude.{◌≡◌};
ghost use Rattle.map.specs.Tables.{is_map_tables};
ghost use Rattle.changes.specs.Layout.{change_set_of, fold_tables};
ghost use Rattle.told.specs.Told.{Told, always};

#[unsafe(no_mangle)]
pub extern "C" fn lane_map_is_map(words: &[u64], coords: &[f64]) -> bool
    ensures { result ≡ is_map_tables words.now coords.now }
{
    validity::is_map(words, coords)
}

// The set taken into the fold: 0, 13 or 10.
#[unsafe(no_mangle)]
pub extern "C" fn lane_map_fold(fold: &mut [u64], set: &[u64]) -> u64
    ensures { Told (always (fold_tables fold.old set.now)) change_set_of result fold.old fold.new }
{
    match sets::fold(fold, set) {
        Ok(()) => 0,
        Err(x) => x.number(),
    }
}
