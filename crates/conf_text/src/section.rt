//! A section of a configuration file.

ghost use Rattle.std.specs.Prelude.{◌≡◌, false, [], ◌∷◌, ◌++◌, IfOk, OnOk, OnErr, option_copied};
ghost use Rattle.conf_text.specs.Sections.{has_key, value_of};

use crate::places::put;
use std::alloc::{AllocError, Global};
use std::collections::HashMap;
use std::marker::Model;

/// A key and its value.
#[derive(Drop)]
pub struct KeyValue {
    key: String,
    value: String,
}

impl Model for KeyValue {
    ghost use Rattle.std.specs.String.{string_bytes};
    ghost use Rattle.conf_text.specs.Sections.{Pair};

    ghost Value = { Pair };

    ghost view = { λ e. record { key = string_bytes e.key; value = string_bytes e.value } };
}

impl KeyValue {
    fn new(alloc: Global, key: &str, value: &str) -> Result<KeyValue, AllocError>
        ensures { IfOk result (λ e. e ≡ record { key = key.now; value = value.now }) }
    {
        let key = String::from_str(alloc, key)?;
        let value = String::from_str(alloc, value)?;
        Ok(KeyValue { key, value })
    }

    /// The key, never empty.
    pub fn key(&self) -> &str
        ensures { result.now ≡ self.now.key }
    {
        self.key.as_str()
    }

    /// The value, which may be empty.
    pub fn value(&self) -> &str
        ensures { result.now ≡ self.now.value }
    {
        self.value.as_str()
    }
}

/// A section: its name, and its keys with their values.
#[derive(Drop)]
pub struct Section {
    name: String,
    pairs: Vec<KeyValue>,
    // The place of each key in `pairs`.
    places: HashMap<String, usize>,
}

impl Model for Section {
    ghost use Rattle.std.specs.Prelude.{map};
    ghost use Rattle.std.specs.String.{string_bytes};
    ghost use Rattle.conf_text.specs.Sections.{SectionText};
    ghost use Rattle.conf_text.specs.Places.{IsIndexOf};

    ghost Value = { SectionText };

    ghost view = { λ s. record { name = string_bytes s.name; pairs = s.pairs.items } };

    ghost invariant = { λ s. IsIndexOf (map (λ p. p.key) s.pairs.items) s.places };
}

impl Section {
    pub(crate) fn new(alloc: Global, name: &str) -> Result<Section, AllocError>
        ensures { IfOk result (λ s. s ≡ record { name = name.now; pairs = [] }) }
    {
        Ok(Section {
            name: String::from_str(alloc, name)?,
            pairs: Vec::new(alloc),
            places: HashMap::new(alloc),
        })
    }

    /// The name, as it is between `[` and `]`.
    pub fn name(&self) -> &str
        ensures { result.now ≡ self.now.name }
    {
        self.name.as_str()
    }

    /// The keys with their values, in the order of the file.
    pub fn pairs(&self) -> &[KeyValue]
        ensures { result.now ≡ self.now.pairs }
    {
        self.pairs.as_slice()
    }

    /// The value of a key, or `None` if the section has no such key. Keys are case-sensitive.
    pub fn get(&self, key: &str) -> Option<&str>
        ensures { option_copied result ≡ value_of key.now self.now.pairs }
    {
        let place = *self.places.get(key)?;
        Some(self.pairs[place].value())
    }

    /// Whether the section has a key.
    pub fn contains_key(&self, key: &str) -> bool
        ensures { result ≡ has_key key.now self.now.pairs }
    {
        self.places.contains_key(key)
    }

    /// Adds a key that the section does not have.
    pub(crate) fn push(&mut self, alloc: Global, key: &str, value: &str) -> Result<(), AllocError>
        requires { has_key key.now self.old.pairs ≡ false }
        ensures ok { OnOk result (self.new ≡ record self.old {
          pairs = self.old.pairs ++ record { key = key.now; value = value.now } ∷ [];
        }) }
        ensures err { OnErr result (self.new ≡ self.old) }
    {
        let pair = KeyValue::new(alloc, key, value)?;
        self.pairs.reserve(1)?;
        put(&mut self.places, alloc, key, self.pairs.len())?;
        self.pairs.push_reserved(pair);
        Ok(())
    }
}
