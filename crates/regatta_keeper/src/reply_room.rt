//! Room for the replies of a session.
ghost use Rattle.std.specs.Prelude.{◌≡◌};
ghost use Rattle.regatta_keeper.specs.Sealing.{text_of};

use regatta_talk::{make_room, write_fitting};
use regatta_terms::Reply;
use std::alloc::{AllocError, Global};
use std::marker::Model;

/// Room for a reply, which passes from one reply of a session to the next. It is seen as the bytes that
/// are in it.
#[derive(Drop)]
pub struct ReplyRoom {
    pub(crate) text: Vec<u8>,
}

impl Model for ReplyRoom {
    ghost use Rattle.std.specs.Prelude.{◌≤◌, ℕ, List, vec_capacity};
    ghost use Rattle.regatta_tables.specs.declared.replies.TheConstants.{REPLY_ROOM};

    ghost Value = { List ℕ };

    ghost view = { λ r. r.text.items };

    ghost invariant = { λ r. REPLY_ROOM ≤ vec_capacity r.text };
}

impl ReplyRoom {
    /// Room for any reply.
    ///
    /// # Errors
    ///
    /// If there is no memory for it.
    pub fn new(alloc: Global) -> Result<ReplyRoom, AllocError> {
        let mut text = Vec::new(alloc);
        make_room(&mut text)?;
        Ok(ReplyRoom { text })
    }

    /// The bytes.
    pub(crate) fn bytes(&self) -> &[u8]
        ensures { result.now ≡ self.now }
    {
        &self.text
    }

    /// With the text of this reply, if there is one, in place of the bytes.
    pub(crate) fn with_text_of(self, reply: Option<Reply>) -> ReplyRoom
        ensures { result ≡ text_of self reply }
    {
        let Some(reply) = reply else {
            return self;
        };
        let ReplyRoom { text } = self;
        let mut text = text;
        text.clear();
        write_fitting(&reply, &mut text);
        ReplyRoom { text }
    }
}
