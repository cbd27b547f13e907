//! What a slot is before any turn.

use ho_base::name::Name;
use ho_base::numbers::{FileNo, Token};
use std::marker::Model;

/// An incoming session: its name, whether it was opened, and of each file whether it was taken.
#[derive(Drop)]
pub(crate) struct Incoming {
    pub name: Name,
    pub opened: bool,
    pub taken: Vec<bool>,
}

/// What a slot is before any turn: an incoming session, an outgoing one, or free, with the files and their handles in
/// strictly rising tokens. Contracts see the slot's state.
#[derive(Drop)]
pub(crate) struct Opening {
    pub incoming: Option<Incoming>,
    pub name: Option<Name>,
    pub files: Vec<(Token, FileNo, u64)>,
}

impl Model for Opening {
    ghost use Rattle.std.specs.Coded.{codes};
    ghost use Rattle.std.specs.FinMap as finmap;
    ghost use Rattle.ho_events.specs.Session.{SessionState};

    ghost Value = { SessionState };

    ghost coded = { Prim.hlevel (codes, finmap.code) };

    ghost use Rattle.session_core.specs.SessionShown.{shown};

    ghost view = { λ o. shown o.incoming o.name o.files.items };
}
