//! A mail, and the text in it.
ghost use Rattle.std.specs.Prelude.{◌≡◌, IfOk};

use std::alloc::{AllocError, Global};
use std::marker::Model;
use std::sync::Arc;

/// The bytes of a bundle, which contracts see as a list. Texts in any threads may share them.
#[derive(Drop)]
pub struct Text {
    bytes: Arc<Vec<u8>, Global>,
}

impl Model for Text {
    ghost use Rattle.std.specs.Prelude.{List, ℕ};
    ghost use Rattle.std.specs.Arc.{arc_value};

    ghost Value = { List ℕ };

    ghost view = { λ text. (arc_value text.bytes).items };
}

impl Text {
    /// The text of these bytes.
    pub fn new(alloc: Global, bytes: Vec<u8>) -> Result<Text, AllocError>
        ensures { IfOk result (λ text. text ≡ bytes.items) }
    {
        let bytes = Arc::new(alloc, bytes)?;
        Ok(Text { bytes })
    }

    /// The same text once more. The bytes aren't copied: it fails only where the count of those that share them is full.
    pub fn share(&self) -> Result<Text, AllocError>
        ensures { IfOk result (λ text. text ≡ self.now) }
    {
        let bytes = Arc::try_clone(&self.bytes)?;
        Ok(Text { bytes })
    }

    /// The bytes, borrowed.
    pub fn as_bytes(&self) -> &[u8]
        ensures { result.now ≡ self.now }
    {
        self.bytes.as_slice()
    }
}

/// What a mail carries.
#[derive(Drop)]
pub enum Body {
    /// A bundle's text.
    Bundle(Text),
    /// The closing mark: no more comes of this poster.
    Close,
}

/// A mail of a poster to one mirror. A poster's mails are numbered from 0, its mark after its bundles.
#[derive(Drop)]
pub struct Mail {
    pub poster: usize,
    pub number: usize,
    pub body: Body,
}
