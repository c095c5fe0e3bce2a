//! Text that lies in the value itself where it is short.
ghost use Rattle.std.specs.Prelude.{◌≡◌, IfOk};

use std::alloc::{AllocError, Global};
use std::str;

/// How many bytes lie in the value itself.
const SHORT: usize = 22;

/// Where a text lies.
#[derive(Drop)]
enum Place {
    /// In the first bytes of these.
    Here { len: u8, bytes: [u8; SHORT] },
    /// In memory of its own.
    There(Box<String>),
}

/// A text. Up to 22 bytes of UTF-8 take no memory beside the value. A contract sees its bytes.
#[derive(Drop)]
pub(crate) struct ShortText {
    place: Place,
}

impl std::marker::Model for ShortText {
    ghost use Rattle.std.specs.Prelude.{ℕ, List};
    ghost use Rattle.graph_model.specs.ShortText.{bytes_at, IsTextAt};

    ghost Value = { List ℕ };

    ghost view = { λ a. bytes_at a.place };

    ghost invariant = { λ a. IsTextAt a.place };
}

impl ShortText {
    /// The text itself, kept.
    pub(crate) fn new(alloc: Global, text: &str) -> Result<ShortText, AllocError>
        ensures { IfOk result (λ made. made ≡ text.now) }
    {
        if text.len() > SHORT {
            let text = Box::new(alloc, String::from_str(alloc, text)?)?;
            return Ok(ShortText {
                place: Place::There(text),
            });
        }
        let mut bytes = [0; SHORT];
        bytes[..text.len()].copy_from_slice(text.as_bytes());
        Ok(ShortText {
            place: Place::Here {
                len: text.len() as u8,
                bytes,
            },
        })
    }

    /// The text itself.
    #[inline]
    pub(crate) fn as_str(&self) -> &str
        ensures { result.now ≡ self.now }
    {
        match &self.place {
            Place::Here { len, bytes } => {
                let text = &bytes[..*len as usize];
                unsafe { str::from_utf8_unchecked(text) }
            }
            Place::There(text) => text.as_str(),
        }
    }

    /// An equal text.
    pub(crate) fn copy(&self) -> Result<ShortText, AllocError>
        ensures { IfOk result (λ text. text ≡ self.now) }
    {
        let place = match &self.place {
            Place::Here { len, bytes } => Place::Here {
                len: *len,
                bytes: *bytes,
            },
            Place::There(text) => Place::There(text.clone()?),
        };
        Ok(ShortText { place })
    }
}
