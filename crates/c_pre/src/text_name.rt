//! Names of texts.

ghost use Rattle.std.specs.Prelude.{◌≡◌, true, IfOk};
ghost use Rattle.std.specs.List.{list_all};
ghost use Rattle.c_pre.specs.Directives.{is_path_byte};

use crate::copies::copied;
use hs_base::{Items, NoMemory};
use std::alloc::Global;
use std::marker::Model;
use std::str::from_utf8;

/// The name of a text.
#[derive(Drop)]
pub(crate) struct TextName {
    text: String,
}

impl Model for TextName {
    ghost use Rattle.std.specs.Prelude.{List, ℕ};
    ghost use Rattle.std.specs.String.{string_bytes};

    ghost Value = { List ℕ };

    ghost view = { λ n. string_bytes n.text };
}

impl TextName {
    /// A copy of a name.
    pub(crate) fn new(alloc: Global, name: &str) -> Result<TextName, NoMemory>
        ensures { IfOk result (λ made. made ≡ name.now) }
    {
        Ok(TextName {
            text: String::from_str(alloc, name)?,
        })
    }

    /// The name that these bytes are.
    pub(crate) fn from_path(alloc: Global, path: &[u8]) -> Result<TextName, NoMemory>
        requires { list_all is_path_byte path.now ≡ true }
        ensures { IfOk result (λ made. made ≡ path.now) }
    {
        match from_utf8(path) {
            Ok(name) => TextName::new(alloc, name),
            Err(_) => unreachable!(),
        }
    }

    /// The name.
    pub(crate) fn as_str(&self) -> &str
        ensures { result.now ≡ self.now }
    {
        self.text.as_str()
    }

    /// A copy of its bytes.
    pub(crate) fn bytes(&self, alloc: Global) -> Result<Items<u8>, NoMemory>
        ensures { IfOk result (λ bytes. bytes ≡ self.now) }
    {
        copied(alloc, self.text.as_bytes())
    }

    /// Its bytes.
    pub(crate) fn into_bytes(self) -> Items<u8>
        ensures { result ≡ self }
    {
        Items::from(self.text.into_bytes())
    }
}
