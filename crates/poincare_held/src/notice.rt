//! The line that stands in place of a picture.
ghost use Rattle.std.specs.Prelude.{◌≡◌, [], ◌∷◌, ◌++◌, Some};
ghost use Rattle.calc_session.specs.Replies.{full as full_reason, refused, text_of};

use calc_session::{Refusal, write_refusal};
use line_text::Text;
use node_pool::Full;
use std::alloc::{AllocError, Global};
use std::marker::Model;

/// The most bytes of a notice.
const NOTICE_LIMIT: u32 = 256;

/// The text of a layout that finds no room. Its memory is taken at the start.
#[derive(Drop)]
pub struct Notice {
    text: Text,
}

impl Model for Notice {
    ghost use Rattle.std.specs.Prelude.{◌≡◌, ℕ, List};

    ghost Value = { List ℕ };

    ghost view = { λ n. n.text.bytes };

    ghost invariant = { λ n. n.text.capacity ≡ 256 };
}

impl Notice {
    pub fn open(alloc: Global) -> Result<Notice, AllocError> {
        let text = Text::open(alloc, NOTICE_LIMIT)?;
        Ok(Notice { text })
    }

    /// Says with which numbers the layout was refused.
    pub fn put(&mut self, full: Full)
        ensures { Some self.new ≡ text_of (refused (full_reason full)) }
    {
        self.text.clear();
        let refusal = Refusal::Full {
            needed: full.needed,
            free: full.free,
        };
        write_refusal(&mut self.text, refusal);
    }

    pub fn bytes(&self) -> &[u8]
        ensures { result.now ≡ self.now }
    {
        self.text.bytes()
    }
}
