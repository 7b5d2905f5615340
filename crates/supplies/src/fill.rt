ghost use Rattle.std.specs.Prelude.{◌≡◌, ◌≤◌, min, ◌++◌, length, take, drop};

use crate::supply::Supply;

// Writes what the supply has into the places, from the first on, while both last; answers how many.
#[tactic(auto, using(crate::proofs::Filling::fills))]
pub fn fill<T: Copy, S: Supply<T>>(places: &mut [T], supply: &mut S) -> usize
    ensures count { result ≡ min (length places.old) (length (S.rest supply.old)) }
    ensures places { places.new ≡ take result (S.rest supply.old) ++ drop result places.old }
    ensures rest { S.rest supply.new ≡ drop result (S.rest supply.old) }
    ensures within { result ≤ length places.old }
{
    'filling: for (i, place) in places.iter_mut().enumerate() {
        // A caller's own supply is not asked for more than it has.
        if !supply.more() {
            return i;
        }
        let Some(x) = supply.next() else {
            return i;
        };
        *place = x;
    }
    places.len()
}
