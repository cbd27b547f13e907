//! A session slot: free, or the outgoing or incoming session of a name with its files.

ghost use Rattle.std.specs.Prelude.{◌≡◌, ◌+◌, ◌<◌, ◌≤◌, ◌^◌, ◌↔◌, ◌++◌, ◌∷◌, [], None, OnOk, IfSome, IsTrue, is_some, length, map, nat_le};
ghost use Rattle.ho_base.specs.declared.limits.TheConstants.{FILES, SESSION_FILES};
ghost use Rattle.ho_events.specs.History.{last_stamp, session_from};
ghost use Rattle.ho_events.specs.Contents.{session_content, OfFiles};
ghost use Rattle.ho_events.specs.Places.{object_at};
ghost use Rattle.ho_events.specs.Slips.{entry_at};
ghost use Rattle.ho_events.specs.declared.event.Event.TheVariants.{SessionBegin, SessionAdd, SessionClose};
ghost use Rattle.ho_events.specs.declared.reply.Reply.TheVariants.{Ok, NoSession};
ghost use Rattle.ho_events.specs.Session.{Free, is_out, admits, session_step};
ghost use Rattle.ho_events.specs.PlainTurns.{EventIsPlain, ReplyIsPlain};
ghost use Rattle.session_core.specs.Sessions.{IsFree, name_of, refusal_by, refusal_of, is_loss, add_answer, close_answer};
ghost use Rattle.session_core.specs.SessionShown.{reference, AreFiles, TokensRise, has_none, has_token, is_named, smaller};
ghost use Rattle.session_core.specs.SessionValues.{SessionIs};

use crate::opening::{Incoming, Opening};
use ho_base::limits::SESSION_FILES;
use ho_base::name::Name;
use ho_base::numbers::{FileNo, NoMemory, ObjectNo, Token};
use ho_events::append::append_plain_turn;
use ho_events::chronicle::{Recorded, last_stamp_of};
use ho_events::entry::Entry;
use ho_events::event::Event;
use ho_events::reply::Reply;
use ho_events::slip::{Slip, Turned};
use std::alloc::Global;
use std::marker::Model;
use std::snapshot::Snapshot;

/// A session slot with the history of all turns on it. Contracts see its number, its state before the first of these
/// turns, that history, and how much more fits; its state is where the history leads from there.
#[derive(Drop)]
pub struct SessionObject {
    pub(crate) number: ObjectNo,
    pub(crate) start: Snapshot<Opening>,
    /// The incoming session, where the slot has one.
    pub(crate) incoming: Option<Incoming>,
    /// The name of the outgoing session, where the slot has one.
    pub(crate) name: Option<Name>,
    /// The files with their handles, in strictly rising tokens; each is a file number.
    pub(crate) files: Vec<(Token, FileNo, u64)>,
    pub(crate) history: Vec<Entry>,
}

impl Model for SessionObject {
    ghost use Rattle.std.specs.Coded.{codes};
    ghost use Rattle.std.specs.FinMap as finmap;
    ghost use Rattle.std.specs.Prelude.{◌-◌};
    ghost use Rattle.std.specs.Vec.{vec_len, vec_capacity};
    ghost use Rattle.session_core.specs.SessionValues.{SessionValue};
    ghost use Rattle.session_core.specs.SessionShown.{KeepsSession};

    ghost Value = { SessionValue };

    ghost coded = { Prim.hlevel (codes, finmap.code) };

    ghost view = { λ s. record { number = s.number.0; start = s.start.value; history = s.history.items; room = vec_capacity s.history - vec_len s.history; spare = vec_capacity s.files - vec_len s.files } };

    ghost invariant = { λ s. KeepsSession s.start.value s.history.items s.incoming s.name s.files.items };
}

impl SessionObject {
    /// A slot with no history that begins free. It takes no memory.
    #[tactic(auto, using(crate::proofs::Sessions::free_keeps, crate::proofs::Sessions::free_none))]
    pub fn free(object: ObjectNo, alloc: Global) -> SessionObject
        ensures number { result.number ≡ object.0 }
        ensures start { result.start ≡ Free }
        ensures history { result.history ≡ [] }
    {
        let opening = Opening {
            incoming: None,
            name: None,
            files: Vec::new(alloc),
        };
        let start = Snapshot::of(&opening);
        let Opening {
            incoming,
            name,
            files,
        } = opening;
        SessionObject {
            number: object,
            start,
            incoming,
            name,
            files,
            history: Vec::new(alloc),
        }
    }

    /// Takes memory for as many more entries and tokens. Whatever comes, the slot stays as it is.
    pub fn reserve(&mut self, entries: u32, tokens: u32) -> Result<(), NoMemory>
        ensures entries { OnOk result (entries ≤ self.new.room) }
        ensures tokens { OnOk result (tokens ≤ self.new.spare) }
        ensures history { self.new.history ≡ self.old.history }
        ensures number { self.new.number ≡ self.old.number }
        ensures start { self.new.start ≡ self.old.start }
    {
        if self.history.reserve(entries as usize).is_err()
            || self.files.reserve(tokens as usize).is_err()
        {
            return Err(NoMemory);
        }
        Ok(())
    }

    /// The entries of all turns on the slot: each came legally where it stands.
    #[tactic(auto, using(crate::proofs::Sessions::keeps_run))]
    pub fn entries(&self) -> &[Entry]
        ensures value { result.now ≡ self.now.history }
        ensures run { IsTrue (is_some (session_from self.now.start self.now.history)) }
    {
        self.history.as_slice()
    }

    /// Whether the slot is free.
    #[tactic(auto, using(crate::proofs::Sessions::free_shown))]
    pub fn is_free(&self) -> bool
        ensures { SessionIs self.now (λ s. IsTrue result ↔ IsFree s) }
    {
        is_empty(&self.incoming, self.name)
    }

    /// The name of the outgoing session; none exactly where the slot isn't one.
    #[tactic(auto, using(crate::proofs::Sessions::name_shown))]
    pub fn name(&self) -> Option<Name>
        ensures { SessionIs self.now (λ s. result ≡ name_of s) }
    {
        self.name
    }

    /// Whether the slot is the outgoing session of this name.
    #[tactic(auto, using(crate::proofs::Sessions::out_shown))]
    pub fn is_out(&self, name: Name) -> bool
        ensures { SessionIs self.now (λ s. result ≡ is_out s name) }
    {
        is_name(self.name, name)
    }

    /// The session's files with their handles, in strictly rising tokens; each is a file number.
    #[tactic(auto, using(crate::proofs::Sessions::content_kept))]
    pub fn files(&self) -> &[(Token, FileNo, u64)]
        ensures content { session_content (session_from self.now.start self.now.history) ≡ OfFiles (map reference result.now) }
        ensures rising { TokensRise result.now }
        ensures within { AreFiles result.now }
    {
        self.files.as_slice()
    }

    /// What stands against adding a file: `NoSession` where the slot isn't the outgoing session of this name,
    /// then `SessionFull` where it has [`SESSION_FILES`] files, then `TokenTaken`; else none.
    #[tactic(auto, using(crate::proofs::Sessions::refusal_kept, crate::proofs::Sessions::admits_told))]
    pub fn admits(&self, name: Name, token: Token) -> Option<Reply>
        ensures refusal { SessionIs self.now (λ s. result ≡ refusal_of s name token.0) }
        ensures exact { SessionIs self.now (λ s. (result ≡ None) ↔ IsTrue (admits s name token.0)) }
    {
        refusal(is_name(self.name, name), self.files.as_slice(), token)
    }

    /// Becomes the outgoing session of this name, with no files. The slot is free.
    #[tactic(auto, using(crate::proofs::Sessions::begin_keeps, crate::proofs::Sessions::begin_run))]
    pub fn begin(&mut self, slip: Slip, name: Name) -> Turned<()>
        requires free { SessionIs self.old IsFree }
        requires room { 0 < self.old.room }
        requires agent_stamp { slip.at.last < 2 ^ 63 }
        requires object_stamp { last_stamp self.old.history < 2 ^ 63 }
        ensures told { result.entry ≡ entry_at slip.at (last_stamp self.old.history) (object_at self.old.number) (SessionBegin name) Ok }
        ensures kept { self.new.history ≡ self.old.history ++ result.entry ∷ [] }
        ensures number { self.new.number ≡ self.old.number }
        ensures start { self.new.start ≡ self.old.start }
        ensures room { self.new.room + 1 ≡ self.old.room }
        ensures spare { self.new.spare ≡ self.old.spare }
        ensures run { IsTrue (is_some (session_from self.new.start self.new.history)) }
    {
        self.name = Some(name);
        let turned = append_plain_turn(
            &mut self.history,
            self.number,
            slip,
            Event::SessionBegin(name),
            Reply::Ok,
        );
        let Turned { entry, value: _ } = turned;
        Turned { entry, value: () }
    }

    /// Adds a file under its token, in the order of tokens. The session's own refusal comes first, as
    /// [`SessionObject::admits`] tells it; then the refusal that the caller brings in; else the file is added
    /// and the answer is `Ok`.
    #[tactic(auto, using(crate::proofs::SessionAdds::add_stays, crate::proofs::SessionAdds::add_plain, crate::proofs::SessionAdds::add_refuses, crate::proofs::SessionAdds::no_loss, crate::proofs::SessionAdds::add_admitted, crate::proofs::SessionAdds::add_adds))]
    pub fn add(
        &mut self,
        slip: Slip,
        name: Name,
        token: Token,
        file: FileNo,
        handle: u64,
        lost: Option<Reply>,
    ) -> Turned<Reply>
        requires file { file.0 < FILES }
        requires lost { IfSome lost (λ reply. IsTrue (is_loss reply)) }
        requires spare { SessionIs self.old (λ s. IsTrue (admits s name token.0)) → lost ≡ None → 0 < self.old.spare }
        requires room { 0 < self.old.room }
        requires agent_stamp { slip.at.last < 2 ^ 63 }
        requires object_stamp { last_stamp self.old.history < 2 ^ 63 }
        ensures exact { SessionIs self.old (λ s. result.value ≡ add_answer (refusal_of s name token.0) lost) }
        ensures told { result.entry ≡ entry_at slip.at (last_stamp self.old.history) (object_at self.old.number) (SessionAdd name token file handle) result.value }
        ensures kept { self.new.history ≡ self.old.history ++ result.entry ∷ [] }
        ensures number { self.new.number ≡ self.old.number }
        ensures start { self.new.start ≡ self.old.start }
        ensures room { self.new.room + 1 ≡ self.old.room }
        ensures spare { self.old.spare ≤ self.new.spare + 1 }
        ensures run { IsTrue (is_some (session_from self.new.start self.new.history)) }
    {
        let refusal = self.admits(name, token);
        match refusal.or(lost) {
            Some(reply) => self.stay(slip, Event::SessionAdd(name, token, file, handle), reply),
            None => self.list(slip, name, token, file, handle),
        }
    }

    /// Ends the outgoing session of this name: the slot is free. `NoSession` exactly where it isn't that
    /// session; then it stays as it is.
    #[tactic(auto, using(crate::proofs::Sessions::close_stays, crate::proofs::Sessions::close_told))]
    pub fn close(&mut self, slip: Slip, name: Name) -> Turned<Reply>
        requires room { 0 < self.old.room }
        requires agent_stamp { slip.at.last < 2 ^ 63 }
        requires object_stamp { last_stamp self.old.history < 2 ^ 63 }
        ensures exact { SessionIs self.old (λ s. result.value ≡ close_answer (is_out s name)) }
        ensures told { result.entry ≡ entry_at slip.at (last_stamp self.old.history) (object_at self.old.number) (SessionClose name) result.value }
        ensures kept { self.new.history ≡ self.old.history ++ result.entry ∷ [] }
        ensures number { self.new.number ≡ self.old.number }
        ensures start { self.new.start ≡ self.old.start }
        ensures room { self.new.room + 1 ≡ self.old.room }
        ensures spare { self.old.spare ≤ self.new.spare }
        ensures run { IsTrue (is_some (session_from self.new.start self.new.history)) }
    {
        if self.is_out(name) {
            self.end(slip, name)
        } else {
            self.stay(slip, Event::SessionClose(name), Reply::NoSession)
        }
    }

    /// A turn that leaves the slot as it is.
    #[tactic(auto, using(crate::proofs::Sessions::stay_keeps, crate::proofs::Sessions::keeps_run))]
    pub(crate) fn stay(&mut self, slip: Slip, event: Event, reply: Reply) -> Turned<Reply>
        requires stays { SessionIs self.old (λ s. session_step s event reply ≡ Some s) }
        requires event { EventIsPlain event }
        requires reply { ReplyIsPlain reply }
        requires room { 0 < self.old.room }
        requires agent_stamp { slip.at.last < 2 ^ 63 }
        requires object_stamp { last_stamp self.old.history < 2 ^ 63 }
        ensures value { result.value ≡ reply }
        ensures told { result.entry ≡ entry_at slip.at (last_stamp self.old.history) (object_at self.old.number) event reply }
        ensures kept { self.new.history ≡ self.old.history ++ result.entry ∷ [] }
        ensures number { self.new.number ≡ self.old.number }
        ensures start { self.new.start ≡ self.old.start }
        ensures room { self.new.room + 1 ≡ self.old.room }
        ensures spare { self.new.spare ≡ self.old.spare }
        ensures run { IsTrue (is_some (session_from self.new.start self.new.history)) }
    {
        append_plain_turn(&mut self.history, self.number, slip, event, reply)
    }

    /// Adds a file that nothing stands against.
    fn list(
        &mut self,
        slip: Slip,
        name: Name,
        token: Token,
        file: FileNo,
        handle: u64,
    ) -> Turned<Reply>
        requires admitted { SessionIs self.old (λ s. IsTrue (admits s name token.0)) }
        requires file { file.0 < FILES }
        requires spare { 0 < self.old.spare }
        requires room { 0 < self.old.room }
        requires agent_stamp { slip.at.last < 2 ^ 63 }
        requires object_stamp { last_stamp self.old.history < 2 ^ 63 }
        ensures value { result.value ≡ Ok }
        ensures told { result.entry ≡ entry_at slip.at (last_stamp self.old.history) (object_at self.old.number) (SessionAdd name token file handle) Ok }
        ensures kept { self.new.history ≡ self.old.history ++ result.entry ∷ [] }
        ensures number { self.new.number ≡ self.old.number }
        ensures start { self.new.start ≡ self.old.start }
        ensures room { self.new.room + 1 ≡ self.old.room }
        ensures spare { self.old.spare ≤ self.new.spare + 1 }
        ensures run { IsTrue (is_some (session_from self.new.start self.new.history)) }
    {
        let at = place_of(self.files.as_slice(), token);
        self.files.insert(at, (token, file, handle)).unwrap();
        append_plain_turn(
            &mut self.history,
            self.number,
            slip,
            Event::SessionAdd(name, token, file, handle),
            Reply::Ok,
        )
    }

    /// Ends the outgoing session.
    #[tactic(auto, using(crate::proofs::Sessions::end_keeps, crate::proofs::Sessions::end_run))]
    fn end(&mut self, slip: Slip, name: Name) -> Turned<Reply>
        requires out { SessionIs self.old (λ s. IsTrue (is_out s name)) }
        requires room { 0 < self.old.room }
        requires agent_stamp { slip.at.last < 2 ^ 63 }
        requires object_stamp { last_stamp self.old.history < 2 ^ 63 }
        ensures value { result.value ≡ Ok }
        ensures told { result.entry ≡ entry_at slip.at (last_stamp self.old.history) (object_at self.old.number) (SessionClose name) Ok }
        ensures kept { self.new.history ≡ self.old.history ++ result.entry ∷ [] }
        ensures number { self.new.number ≡ self.old.number }
        ensures start { self.new.start ≡ self.old.start }
        ensures room { self.new.room + 1 ≡ self.old.room }
        ensures spare { self.old.spare ≤ self.new.spare }
        ensures run { IsTrue (is_some (session_from self.new.start self.new.history)) }
    {
        self.name = None;
        self.files.clear();
        append_plain_turn(
            &mut self.history,
            self.number,
            slip,
            Event::SessionClose(name),
            Reply::Ok,
        )
    }
}

impl Recorded for SessionObject {
    ghost history = { λ s. s.history };

    fn entries(&self) -> &[Entry] {
        self.history.as_slice()
    }

    fn last_stamp(&self) -> u64 {
        last_stamp_of(self.history.as_slice())
    }
}

/// Whether a slot has neither an incoming session nor an outgoing one.
fn is_empty(incoming: &Option<Incoming>, name: Option<Name>) -> bool
    ensures { result ≡ has_none incoming.now name }
{
    match incoming {
        Some(_) => false,
        None => name.is_none(),
    }
}

/// Whether a slot with this name, or none, has the name that is asked for.
fn is_name(own: Option<Name>, name: Name) -> bool
    ensures { result ≡ is_named own name }
{
    match own {
        Some(own) => own == name,
        None => false,
    }
}

/// The first of the refusals that stands, by whether the session has the name, and by its files.
fn refusal(is_named: bool, files: &[(Token, FileNo, u64)], token: Token) -> Option<Reply>
    ensures { result ≡ refusal_by is_named (nat_le SESSION_FILES (length files.now)) (has_token token.0 files.now) }
{
    if !is_named {
        return Some(Reply::NoSession);
    }
    if files.len() >= SESSION_FILES as usize {
        return Some(Reply::SessionFull);
    }
    if is_listed(files, token) {
        return Some(Reply::TokenTaken);
    }
    None
}

/// Whether one of the files has this token.
fn is_listed(files: &[(Token, FileNo, u64)], token: Token) -> bool
    ensures { result ≡ has_token token.0 files.now }
{
    files.iter().any(|f| f.0 == token)
}

/// Where a file with this token goes: how many files at the front have smaller tokens.
#[tactic(auto, using(crate::proofs::Tokens::smaller_step, crate::proofs::Tokens::smaller_stop, crate::proofs::Tokens::smaller_end))]
fn place_of(files: &[(Token, FileNo, u64)], token: Token) -> usize
    ensures place { result ≡ smaller token.0 files.now }
    ensures within { result ≤ length files.now }
{
    let mut i = 0;
    while i < files.len() && files[i].0.0 < token.0 {
        i += 1;
    }
    i
}
