ghost use Rattle.std.specs.Prelude.{◌≡◌, ℕ, ◌<◌, ◌≤◌, List, slice_index, refl};
ghost use Rattle.elements.specs.Refusals.{told};
ghost use Rattle.kinds.specs.Codecs.{Codec, Faithful, number_codec, clause_codec, reversed_codec, pair_codec};
ghost use Rattle.kinds.specs.Faults.{refuses_element};
ghost use Rattle.kinds.specs.Codings.{number_faithful, clause_faithful, reversed_faithful, pair_faithful};

use crate::fault::ElementFault;
use elements::clause::Clause;
use elements::element::Element;
use std::cmp::Reverse;

// What may stand in a run file: an element with a mark, a width in bytes, and a meaning of bytes.
pub trait Kind: Element {
    const MARK: [u8; 2];

    const WIDTH: usize;

    ghost MARK: { List ℕ };

    ghost WIDTH: { ℕ };

    ghost codec: { Codec Self };

    // Reads the first bytes of a list; what stands behind the width is left alone.
    fn decode(bytes: &[u8]) -> Result<Self, ElementFault>
        ensures { told refuses_element result ≡ codec.decoded bytes.now };

    // One of the element's bytes, the highest first; 0 behind its width.
    fn byte(&self, i: usize) -> u8
        ensures { result ≡ slice_index (codec.encoded self.now) i };

    // What lies in places that no element was put into.
    fn blank() -> Self
        ensures { result ≡ codec.blank };

    ghost mark: { codec.mark ≡ MARK };

    ghost width: { codec.width ≡ WIDTH };

    ghost faithful: { Faithful codec };
}

// One of eight bytes, 0 behind them.
fn byte_of(bytes: [u8; 8], i: usize) -> u8
    ensures { result ≡ slice_index bytes i }
{
    bytes.get(i).copied().unwrap_or(0)
}

impl Kind for u64 {
    const MARK: [u8; 2] = *b"KN";

    const WIDTH: usize = 8;

    ghost MARK = { number_codec.mark };

    ghost WIDTH = { number_codec.width };

    ghost codec = { number_codec };

    ghost mark = { refl };

    ghost width = { refl };

    ghost faithful = { number_faithful };

    fn decode(bytes: &[u8]) -> Result<u64, ElementFault> {
        let first = bytes.first_chunk().ok_or(ElementFault::CutShort)?;
        Ok(u64::from_be_bytes(*first))
    }

    fn byte(&self, i: usize) -> u8 {
        byte_of(self.to_be_bytes(), i)
    }

    fn blank() -> u64 {
        0
    }
}

// Like a number in its members, but its bytes are three fields.
impl Kind for Clause {
    const MARK: [u8; 2] = *b"KC";

    const WIDTH: usize = 8;

    ghost MARK = { clause_codec.mark };

    ghost WIDTH = { clause_codec.width };

    ghost codec = { clause_codec };

    ghost mark = { refl };

    ghost width = { refl };

    ghost faithful = { clause_faithful };

    fn decode(bytes: &[u8]) -> Result<Clause, ElementFault> {
        let [a, b, c, d, e, f, g, h] = *bytes.first_chunk::<8>().ok_or(ElementFault::CutShort)?;
        Ok(Clause::new(
            u16::from_be_bytes([a, b]),
            u32::from_be_bytes([c, d, e, f]),
            u16::from_be_bytes([g, h]),
        )?)
    }

    fn byte(&self, i: usize) -> u8 {
        let [a, b] = self.rank().to_be_bytes();
        let [c, d, e, f] = self.number().to_be_bytes();
        let [g, h] = self.discount().to_be_bytes();
        byte_of([a, b, c, d, e, f, g, h], i)
    }

    fn blank() -> Clause {
        Clause::new(0, 0, 0).unwrap()
    }
}

impl Kind for Reverse<u64> {
    const MARK: [u8; 2] = *b"KR";

    const WIDTH: usize = u64::WIDTH;

    ghost MARK = { reversed_codec.mark };

    ghost WIDTH = { reversed_codec.width };

    ghost codec = { reversed_codec };

    ghost mark = { refl };

    ghost width = { refl };

    ghost faithful = { reversed_faithful };

    fn decode(bytes: &[u8]) -> Result<Reverse<u64>, ElementFault> {
        Ok(Reverse(u64::decode(bytes)?))
    }

    fn byte(&self, i: usize) -> u8 {
        self.0.byte(i)
    }

    fn blank() -> Reverse<u64> {
        Reverse(u64::blank())
    }
}

impl Kind for (Clause, Reverse<u64>) {
    const MARK: [u8; 2] = *b"KP";

    const WIDTH: usize = Clause::WIDTH + Reverse::<u64>::WIDTH;

    ghost MARK = { pair_codec.mark };

    ghost WIDTH = { pair_codec.width };

    ghost codec = { pair_codec };

    ghost mark = { refl };

    ghost width = { refl };

    ghost faithful = { pair_faithful };

    fn decode(bytes: &[u8]) -> Result<(Clause, Reverse<u64>), ElementFault> {
        if bytes.len() < Self::WIDTH {
            return Err(ElementFault::CutShort);
        }
        Ok((
            Clause::decode(bytes)?,
            Reverse::<u64>::decode(&bytes[Clause::WIDTH..])?,
        ))
    }

    fn byte(&self, i: usize) -> u8 {
        if i < Clause::WIDTH {
            self.0.byte(i)
        } else {
            self.1.byte(i - Clause::WIDTH)
        }
    }

    fn blank() -> (Clause, Reverse<u64>) {
        (Clause::blank(), Reverse::<u64>::blank())
    }
}

pub fn width_of<K: Kind>() -> usize
    ensures is { result ≡ K.codec.width }
    ensures narrow { (0 < result) × (result ≤ 16) }
    ensures laws { Faithful K.codec }
{
    K::WIDTH
}

pub fn mark_of<K: Kind>() -> [u8; 2]
    ensures { result ≡ K.codec.mark }
{
    K::MARK
}
