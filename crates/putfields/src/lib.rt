// The fields of a map's records, written from a row of words and a row of coordinates. Past the end
// of a row a word is 0 and a coordinate is a NaN, as the definitions read them: so no call asks
// anything of a count, and every row has a written form.
#![tactic(auto)]

ghost use Rattle.std.specs.Prelude.{◌≡◌, not, cond, eqb, get_or, drop, None, Some};
ghost use Rattle.std.specs.Float.{nan};
ghost use Rattle.rows.specs.Lists.{list_to};
ghost use Rattle.codec.specs.Double.{double};
ghost use Rattle.codec.specs.Items.{list, flag, option};
ghost use Rattle.codec.specs.Number.{number};
ghost use Rattle.map.specs.MapFile.{height, point, polyline, numbers, bulb};
ghost use Rattle.map.specs.Tables.{point_from, line_at, bulb_at};
ghost use Rattle.fields.specs.Fields.{bulb_from};
ghost use Rattle.putting.specs.Putting.{PutAt};
ghost use Rattle.putfields.specs.Entries.{entries_in};

use fields::Place;

// The one NaN that has a written form.
const NAN: [u8; 8] = [0, 0, 0, 0, 0, 0, 248, 127];

// A row without its first n entries; nothing past its end.
#[tactic(auto, using(crate::proofs::FieldLaws::going_on))]
fn after<T>(row: &[T], n: usize) -> &[T]
    ensures { result.now ≡ drop n row.now }
{
    &row[n.min(row.len())..]
}

// The entry at an index, or `past` where the row has ended.
fn entry<T: Copy>(row: &[T], i: usize, past: T) -> T
    ensures { result ≡ get_or row.now i past }
{
    row.get(i).copied().unwrap_or(past)
}

// The coordinate at an index; a NaN where the row has ended.
#[tactic(auto, using(crate::proofs::FieldLaws::no_coordinate))]
fn coordinate(coords: &[f64], i: usize) -> f64
    ensures { result ≡ get_or coords.now i nan }
{
    entry(coords, i, f64::NAN)
}

// A flag word is 0 for no, and any other word for yes.
pub fn put_flag(out: &mut [u8], p: Place, w: u64) -> Place
    ensures { PutAt (flag.write (not (eqb w 0))) out.old p result out.new }
{
    if w == 0 {
        return putting::put_number(out, p, 0);
    }
    putting::put_number(out, p, 1)
}

fn put_double(out: &mut [u8], p: Place, x: f64) -> Place
    ensures { PutAt (double.write x) out.old p result out.new }
{
    if x.is_nan() {
        return putting::put_bytes(out, p, &NAN);
    }
    let mut bytes = [0; 8];
    codec::write_double(&mut bytes, 0, x);
    putting::put_bytes(out, p, &bytes)
}

// The first three coordinates.
fn put_point(out: &mut [u8], p: Place, coords: &[f64]) -> Place
    ensures { PutAt (point.write (point_from coords.now 0)) out.old p result out.new }
{
    let y = put_double(out, p, coordinate(coords, 0));
    let z = put_double(out, y, coordinate(coords, 1));
    put_double(out, z, coordinate(coords, 2))
}

// A polyline of n points, whose coordinates begin at c.
pub fn put_line(out: &mut [u8], p: Place, n: u64, coords: &[f64], c: usize) -> Place
    ensures { PutAt (polyline.write (line_at coords.now c n)) out.old p result out.new }
{
    let mut q = putting::put_number(out, p, n);
    let mut rest = after(coords, c);
    for i in 0..n {
        q = put_point(out, q, rest);
        rest = after(rest, 3);
    }
    q
}

// A list of n numbers, which begin at word `from`.
pub fn put_numbers(out: &mut [u8], p: Place, n: u64, words: &[u64], from: usize) -> Place
    ensures { PutAt (numbers.write (entries_in words.now from n)) out.old p result out.new }
{
    let mut q = putting::put_number(out, p, n);
    let row = after(words, from);
    for i in 0..n as usize {
        q = putting::put_number(out, q, entry(row, i, 0));
    }
    q
}

// An option has a flag word and, behind it, its value in the row: the three functions below take both as they stand there. An Option between
// would be made of the two at each call, and taken apart here.

// A number, where the flag says yes.
pub fn put_option_number(out: &mut [u8], p: Place, there: u64, n: u64) -> Place
    ensures { PutAt ((option number).write (cond (not (eqb there 0)) (Some n) None)) out.old p result out.new }
{
    if there == 0 {
        return putting::put_number(out, p, 0);
    }
    let q = putting::put_number(out, p, 1);
    putting::put_number(out, q, n)
}

// A polyline, where the flag says yes.
pub fn put_option_line(
    out: &mut [u8],
    p: Place,
    there: u64,
    n: u64,
    coords: &[f64],
    c: usize,
) -> Place
    ensures { PutAt ((option polyline).write (cond (not (eqb there 0)) (Some (line_at coords.now c n)) None)) out.old p result out.new }
{
    if there == 0 {
        return putting::put_number(out, p, 0);
    }
    let q = putting::put_number(out, p, 1);
    put_line(out, q, n, coords, c)
}

// A height, where the flag says yes.
pub fn put_option_height(out: &mut [u8], p: Place, there: u64, coords: &[f64], c: usize) -> Place
    ensures { PutAt ((option height).write (cond (not (eqb there 0)) (Some (get_or coords.now c nan)) None)) out.old p result out.new }
{
    if there == 0 {
        return putting::put_number(out, p, 0);
    }
    let q = putting::put_number(out, p, 1);
    put_double(out, q, coordinate(coords, c))
}

// A bulb: its position in the first coordinates, its colour and arrow in the first two words.
fn put_bulb(out: &mut [u8], p: Place, words: &[u64], coords: &[f64]) -> Place
    ensures { PutAt (bulb.write (bulb_from words.now 0 coords.now 0)) out.old p result out.new }
{
    let color = put_point(out, p, coords);
    let arrow = putting::put_number(out, color, entry(words, 0, 0));
    putting::put_number(out, arrow, entry(words, 1, 0))
}

// The first n bulbs of a signal's row.
pub fn put_bulbs(out: &mut [u8], p: Place, n: u64, words: &[u64], coords: &[f64]) -> Place
    ensures { PutAt ((list 4 bulb).write (list_to (bulb_at words.now coords.now) n)) out.old p result out.new }
{
    let mut q = putting::put_number(out, p, n);
    let mut numbers = after(words, 5);
    let mut positions = after(coords, 193);
    for i in 0..n {
        q = put_bulb(out, q, numbers, positions);
        numbers = after(numbers, 2);
        positions = after(positions, 3);
    }
    q
}
