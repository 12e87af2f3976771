// Values written as bytes, each from a place on. A call with too short a slice leaves it and
// answers the place all the same: so the same calls tell the size and write.
#![tactic(auto)]

ghost use Rattle.std.specs.Prelude.{◌≡◌};
ghost use Rattle.codec.specs.Number.{number};
ghost use Rattle.putting.specs.Putting.{PutAt};

use fields::Place;

// A number goes into its place: a form of its own that is then copied takes half as long again.
#[tactic(auto, using(crate::proofs::PutLaws::putting_form), unfolding(crate::specs::Putting::ahead))]
pub fn put_number(out: &mut [u8], p: Place, n: u64) -> Place
    ensures { PutAt (number.write n) out.old p result out.new }
{
    let i = p?;
    let next = i.checked_add(codec::number_size(n))?;
    if out.len() < next {
        return Some(next);
    }
    codec::write_number(out, i, n);
    Some(next)
}

// A form that is written already.
#[tactic(auto, using(crate::proofs::PutLaws::putting_form))]
pub fn put_bytes(out: &mut [u8], p: Place, bytes: &[u8]) -> Place
    ensures { PutAt bytes.now out.old p result out.new }
{
    let i = p?;
    let next = i.checked_add(bytes.len())?;
    if next <= out.len() {
        rows::put(out, i, bytes);
    }
    Some(next)
}
