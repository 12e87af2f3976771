// Where the rows of each kind stand in words and coords. The same numbers stand in
// specs/Layout.antt and docs/TABLES.md.
ghost use Rattle.std.specs.Prelude.{◌≡◌, ◌+◌, ◌≤◌};
ghost use Rattle.store.specs.Kinds.{kind_number};
ghost use Rattle.store.specs.Layout.{limit_of, width_of, base_of, coord_width_of, coord_base_of, place_of, coord_place_of};

use crate::Kind;

pub const WORDS: usize = 13671;

pub const COORDS: usize = 105280;

// Where the rows of lanes and rules begin, and how wide they are: the readers of whole rows go by these.
pub const LANES: usize = 7;

pub const LANE: usize = 8;

pub const RULES: usize = 1895;

pub const RULE: usize = 92;

const LIMITS: [usize; 6] = [64, 128, 64, 64, 32, 128];

const WIDTHS: [usize; 6] = [8, 2, 2, 13, 5, 92];

// The last entry of the bases is where the tables end.
const BASES: [usize; 7] = [7, 519, 775, 903, 1735, 1895, 13671];

const COORD_WIDTHS: [usize; 6] = [192, 192, 192, 205, 576, 192];

const COORD_BASES: [usize; 7] = [0, 12288, 36864, 49152, 62272, 80704, 105280];

#[tactic(auto, using(crate::proofs::KindLaws::kind_tag), unfolding(crate::specs::Layout::limit_of, crate::specs::Layout::width_of, crate::specs::Layout::base_of, crate::specs::Layout::coord_width_of, crate::specs::Layout::coord_base_of))]
impl Kind {
    // How many records the kind has room for.
    pub fn limit(self) -> usize
        ensures { result ≡ limit_of (kind_number self) }
    {
        LIMITS[self as usize]
    }

    // The word that holds how many rows the kind has.
    pub fn count_at(self) -> usize
        ensures { result ≡ 1 + kind_number self }
    {
        1 + self as usize
    }

    pub fn width(self) -> usize
        ensures { result ≡ width_of (kind_number self) }
    {
        WIDTHS[self as usize]
    }

    pub fn base(self) -> usize
        ensures { result ≡ base_of (kind_number self) }
    {
        BASES[self as usize]
    }

    pub fn coord_width(self) -> usize
        ensures { result ≡ coord_width_of (kind_number self) }
    {
        COORD_WIDTHS[self as usize]
    }

    pub fn coord_base(self) -> usize
        ensures { result ≡ coord_base_of (kind_number self) }
    {
        COORD_BASES[self as usize]
    }

    // Where row i begins.
    pub fn place(self, i: usize) -> usize
        requires { i ≤ limit_of (kind_number self) }
        ensures { result ≡ place_of (kind_number self) i }
    {
        self.base() + i * self.width()
    }

    pub fn coord_place(self, i: usize) -> usize
        requires { i ≤ limit_of (kind_number self) }
        ensures { result ≡ coord_place_of (kind_number self) i }
    {
        self.coord_base() + i * self.coord_width()
    }
}
