//! Who a reply is for.
ghost use Rattle.std.specs.Prelude.{◌≡◌, ◌≤◌, ◌+◌, ◌++◌, length};
ghost use Rattle.service.specs.Reply.{front_of};

use names::Entity;

/// Who a reply is for: in a script the tenant that the line names, if it names one, and in a session the peer.
#[derive(Clone, Copy)]
pub(crate) enum Speaker {
    Nobody,
    Tenant(Entity),
    Peer,
}

impl Speaker {
    /// What stands in front of each line: a name, and what parts it from the text.
    pub(crate) fn front(&self) -> (&[u8], &[u8])
        ensures front { result.0.now ++ result.1.now ≡ front_of self.now }
        ensures short { length result.0.now + length result.1.now ≤ 66 }
    {
        match self {
            Speaker::Nobody => (b"?", b": "),
            Speaker::Tenant(who) => (who.bytes(), b": "),
            Speaker::Peer => (&[], &[]),
        }
    }
}
