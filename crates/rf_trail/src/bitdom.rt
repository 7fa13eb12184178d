ghost use Rattle.std.specs.Prelude.{◌≡◌, ◌<◌, ◌≤◌, ◌*◌, ◌+◌, [], true, false, not, eqb, leb, filter, find, length};
ghost use Rattle.std.specs.List.{range_with_len};
ghost use Rattle.rf_form.specs.Alive.{is_among, Counts};
ghost use Rattle.rf_form.specs.Sums.{bit};
ghost use Rattle.rf_trail.specs.Bits.{inserted};

use crate::word::{bit_of, with_bit, without_bit};
use std::marker::Model;

/// A set of places below 64 * W, one bit each. Contracts see the rising list of its places.
#[derive(Drop)]
pub struct BitDom<const W: usize> {
    words: [u64; W],
}

impl<const W: usize> Model for BitDom<W> {
    ghost use Rattle.std.specs.Prelude.{List, ℕ};

    ghost Value = { List ℕ };

    ghost use Rattle.rf_trail.specs.Bits.{places};

    ghost view = { λ dom. places dom.words };
}

impl<const W: usize> BitDom<W> {
    pub fn empty() -> BitDom<W>
        ensures { result ≡ [] }
    {
        BitDom { words: [0; W] }
    }

    pub fn has(&self, v: u16) -> bool
        ensures { result ≡ is_among v self.now }
    {
        let at = v as usize / 64;
        if at < W {
            bit_of(self.words[at], v as u32 % 64)
        } else {
            false
        }
    }

    pub fn put(&mut self, v: u16)
        requires inside { v < 64 * W }
        requires fresh { is_among v self.old ≡ false }
        ensures { self.new ≡ inserted v self.old }
    {
        let at = v as usize / 64;
        let word = self.words[at];
        self.words[at] = with_bit(word, v as u32 % 64);
    }

    pub fn take(&mut self, v: u16)
        requires { is_among v self.old ≡ true }
        ensures { self.new ≡ filter (λ w. not (eqb w v)) self.old }
    {
        let at = v as usize / 64;
        let word = self.words[at];
        self.words[at] = without_bit(word, v as u32 % 64);
    }

    /// The list is that of the places below 64 * W that are in the set.
    pub(crate) fn shape(&self)
        ensures { self.now ≡ filter (λ v. is_among v self.now) (range_with_len 0 (64 * W)) }
    {
        let _words = &self.words;
    }

    /// 1 where the place is in the set, else 0.
    fn count_at(&self, v: u16) -> u32
        ensures { result ≡ bit (is_among v self.now) }
    {
        if self.has(v) { 1 } else { 0 }
    }

    /// How many places there are.
    #[tactic(auto, using(crate::proofs::Ranges::count_more))]
    pub fn size(&self) -> u32
        requires { W ≤ 1024 }
        ensures { result ≡ length self.now }
    {
        self.shape();
        let mut count: u32 = 0;
        for v in 0..64 * W as u32 {
            count += self.count_at(v as u16);
        }
        count
    }

    /// How many places there are, as a sum over all places.
    pub(crate) fn count(&self) -> u32
        requires { W ≤ 1024 }
        ensures { Counts (λ _ v. is_among v self.now) 0 result }
    {
        self.shape();
        self.size()
    }

    /// The least place from there on.
    pub fn next(&self, from: u16) -> Option<u16>
        requires { W ≤ 1024 }
        ensures { result ≡ find (λ w. leb from w) self.now }
    {
        self.shape();
        for v in from as u32..64 * W as u32 {
            if self.has(v as u16) {
                return Some(v as u16);
            }
        }
        None
    }
}
