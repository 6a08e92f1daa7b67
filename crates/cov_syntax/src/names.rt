ghost use Rattle.std.specs.Prelude.{◌≡◌, ◌≢◌, [], ◌∷◌, ◌++◌, ◌<◌, ◌^◌, ◌-◌, length, slice_get, IfOk, OnOk, OnErr, IfSome, IfNone, Contains, All};
ghost use Rattle.cov_syntax.specs.Texts.{IsDistinctTexts};

use crate::error::NoMemory;
use crate::seq::Seq;
use std::alloc::Global;
use std::collections::BTreeMap;
use std::marker::Model;

/// A list of bytes.
pub type Text = Seq<u8>;

/// Distinct texts, each named by its place in the list, and found in time logarithmic in their number.
pub struct Names {
    alloc: Global,
    texts: Vec<Text>,
    /// The place of each text. A map owns its keys, so each text is held here a second time.
    places: BTreeMap<Vec<u8>, u32>,
}

/// Written out, so that names that go out of scope give a proof one goal.
impl Drop for Names {
    fn drop(self) {
        let Names {
            alloc: _,
            texts: _texts,
            places: _places,
        } = self;
    }
}

impl Model for Names {
    ghost use Rattle.std.specs.Prelude.{List, ℕ, length, ◌<◌, ◌^◌};
    ghost use Rattle.cov_syntax.specs.Texts.{IsDistinctTexts, IsIndexOf, place_in};

    ghost Value = { List (List ℕ) };

    ghost view = { λ n. n.texts.items };

    ghost invariant = { λ n. IsDistinctTexts n.texts.items × (length n.texts.items < 2 ^ 32) × IsIndexOf (place_in n.places) n.texts.items };
}

impl Names {
    /// It takes no memory.
    pub fn new(alloc: Global) -> Names
        ensures { result ≡ [] }
    {
        Names {
            alloc,
            texts: Vec::new(alloc),
            places: BTreeMap::new(alloc),
        }
    }

    pub fn len(&self) -> u32
        ensures value { result ≡ length self.now }
        ensures bound { length self.now < 2 ^ 32 }
        ensures distinct { IsDistinctTexts self.now }
    {
        self.texts.len() as u32
    }

    pub fn text(&self, i: u32) -> &[u8]
        requires { i < length self.now }
        ensures { slice_get self.now i ≡ Some result.now }
    {
        self.texts[i as usize].as_slice()
    }

    pub fn find(&self, text: &[u8]) -> Option<u32>
        ensures found { IfSome result (λ i. slice_get self.now i ≡ Some text.now) }
        ensures none { IfNone result (All (λ t. t ≢ text.now) self.now) }
    {
        self.places.get(text).copied()
    }

    /// The place of the text, which is put last where it is not held.
    pub fn add(&mut self, text: &[u8]) -> Result<u32, NoMemory>
        requires room { length self.old < 2 ^ 32 - 1 }
        ensures place { IfOk result (λ i. slice_get self.new i ≡ Some text.now) }
        ensures held { Contains self.old text.now → OnOk result (self.new ≡ self.old) }
        ensures put { All (λ t. t ≢ text.now) self.old → OnOk result (self.new ≡ self.old ++ text.now ∷ []) }
        ensures err { OnErr result (self.new ≡ self.old) }
    {
        if let Some(i) = self.find(text) {
            return Ok(i);
        }
        let i = self.len();
        let mut copy = Seq::new(self.alloc);
        copy.extend_from_slice(text)?;
        let key = Vec::from_slice(self.alloc, text)?;
        // Room for the text, so that its push does not fail.
        self.texts.reserve(1)?;
        self.places.insert(key, i)?;
        self.texts.push(copy)?;
        Ok(i)
    }
}
