//! The incoming session of a slot: one that an earlier kernel had.

ghost use Rattle.std.specs.Prelude.{◌≡◌, [], IfOk};
ghost use Rattle.session_core.specs.SessionShown.{AreFiles, TokensRise, is_named_waiting};
ghost use Rattle.session_core.specs.SessionValues.{SessionIs};
ghost use Rattle.session_core.specs.Sessions.{fresh_incoming, waits};

use crate::opening::{Incoming, Opening};
use crate::session::SessionObject;
use ho_base::name::Name;
use ho_base::numbers::{FileNo, NoMemory, ObjectNo, Token};
use std::alloc::Global;
use std::snapshot::Snapshot;

impl SessionObject {
    /// A slot with no history that begins as the incoming session of this name, not opened, with these files and
    /// their handles, of which none was taken. Their tokens strictly rise, and each is a file number. No memory where
    /// it can't be had: one byte a file, by which is known whether it was taken.
    pub fn incoming(
        alloc: Global,
        object: ObjectNo,
        name: Name,
        files: Vec<(Token, FileNo, u64)>,
    ) -> Result<SessionObject, NoMemory>
        requires rising { TokensRise files.items }
        requires within { AreFiles files.items }
        ensures number { IfOk result (λ s. s.number ≡ object.0) }
        ensures start { IfOk result (λ s. s.start ≡ fresh_incoming name files.items) }
        ensures history { IfOk result (λ s. s.history ≡ []) }
    {
        let Ok(taken) = Vec::from_elem(alloc, false, files.as_slice().len()) else {
            return Err(NoMemory);
        };
        let opening = Opening {
            incoming: Some(Incoming {
                name,
                opened: false,
                taken,
            }),
            name: None,
            files,
        };
        let start = Snapshot::of(&opening);
        let Opening {
            incoming,
            name,
            files,
        } = opening;
        Ok(SessionObject {
            number: object,
            start,
            incoming,
            name,
            files,
            history: Vec::new(alloc),
        })
    }

    /// Whether the slot is the incoming session of this name, and wasn't opened.
    #[tactic(auto, using(crate::proofs::IncomingSlots::waits_shown))]
    pub fn waits(&self, name: Name) -> bool
        ensures { SessionIs self.now (λ s. result ≡ waits s name) }
    {
        is_waiting(&self.incoming, name)
    }
}

/// Whether a slot with this incoming session, or none, has one of the name that wasn't opened.
fn is_waiting(incoming: &Option<Incoming>, name: Name) -> bool
    ensures { result ≡ is_named_waiting incoming.now name }
{
    match incoming {
        Some(own) => !own.opened && own.name == name,
        None => false,
    }
}
