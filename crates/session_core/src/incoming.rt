//! The turns on an incoming session.

ghost use Rattle.std.specs.Prelude.{◌≡◌, ◌+◌, ◌<◌, ◌≤◌, ◌^◌, ◌++◌, ◌∷◌, [], None, Some, IfOk, IfSome, IsOk, IsTrue, if◌then◌else◌, is_some, length, slice_set, true};
ghost use Rattle.ho_base.specs.declared.limits.TheConstants.{FILES};
ghost use Rattle.ho_events.specs.History.{last_stamp, session_from};
ghost use Rattle.ho_events.specs.Places.{object_at};
ghost use Rattle.ho_events.specs.Slips.{entry_at};
ghost use Rattle.ho_events.specs.Session.{is_in};
ghost use Rattle.ho_events.specs.declared.event.Event.TheVariants.{SessionOpen, SessionTake, SessionFinish};
ghost use Rattle.ho_events.specs.declared.reply.Reply.TheVariants.{Ok, NoSession, HandlerFailed};
ghost use Rattle.session_core.specs.SessionShown.{AreFiles, AreMarked, Becomes, before, found_in, is_named_open, listed_under};
ghost use Rattle.session_core.specs.SessionValues.{SessionIs};
ghost use Rattle.session_core.specs.Sessions.{finish_answer, waits};
ghost use Rattle.session_core.specs.Taking.{found_by, found_of, take_answer};

use crate::opening::Incoming;
use crate::session::SessionObject;
use ho_base::name::Name;
use ho_base::numbers::{FileNo, Token};
use ho_events::append::append_plain_turn;
use ho_events::event::Event;
use ho_events::reply::Reply;
use ho_events::slip::{Slip, Turned};

impl SessionObject {
    /// Whether the slot is the incoming session of this name, and was opened.
    #[tactic(auto, using(crate::proofs::OpenedSlots::in_shown))]
    pub fn is_in(&self, name: Name) -> bool
        ensures { SessionIs self.now (λ s. result ≡ is_in s name) }
    {
        is_open(&self.incoming, name)
    }

    /// The file under a token with its handle: `NoSession` where the slot isn't the opened incoming session of this
    /// name, then `NoToken` where no file has the token, then `AlreadyTaken` where the file was taken.
    #[tactic(auto, using(crate::proofs::TakenFiles::found_shown))]
    pub fn find(&self, name: Name, token: Token) -> Result<(FileNo, u64), Reply>
        ensures exact { SessionIs self.now (λ s. result ≡ found_of s name token.0) }
        ensures within { IfOk result (λ f. f.0.0 < FILES) }
    {
        file_under(&self.incoming, self.files.as_slice(), name, token)
    }

    /// Opens the incoming session of this name, which waits.
    #[tactic(auto, using(crate::proofs::OpenedSlots::open_keeps, crate::proofs::OpenedSlots::open_run))]
    pub fn open(&mut self, slip: Slip, name: Name) -> Turned<()>
        requires waits { SessionIs self.old (λ s. IsTrue (waits s name)) }
        requires room { 0 < self.old.room }
        requires agent_stamp { slip.at.last < 2 ^ 63 }
        requires object_stamp { last_stamp self.old.history < 2 ^ 63 }
        ensures told { result.entry ≡ entry_at slip.at (last_stamp self.old.history) (object_at self.old.number) (SessionOpen name) Ok }
        ensures kept { self.new.history ≡ self.old.history ++ result.entry ∷ [] }
        ensures number { self.new.number ≡ self.old.number }
        ensures start { self.new.start ≡ self.old.start }
        ensures room { self.new.room + 1 ≡ self.old.room }
        ensures spare { self.new.spare ≡ self.old.spare }
        ensures run { IsTrue (is_some (session_from self.new.start self.new.history)) }
    {
        open_up(&mut self.incoming);
        let turned = append_plain_turn(
            &mut self.history,
            self.number,
            slip,
            Event::SessionOpen(name),
            Reply::Ok,
        );
        let Turned { entry, value: _ } = turned;
        Turned { entry, value: () }
    }

    /// Takes the file of a token: it is given once. The session's own refusal comes first, as
    /// [`SessionObject::find`] tells it; then the refusal that the caller brings in; else the answer is the file.
    /// At a refusal the slot stays as it is.
    #[tactic(auto, using(crate::proofs::TakenFiles::take_stays, crate::proofs::TakenFiles::take_plain, crate::proofs::TakenFiles::take_refuses, crate::proofs::TakenFiles::take_found, crate::proofs::TakenFiles::take_gives))]
    pub fn take(
        &mut self,
        slip: Slip,
        name: Name,
        token: Token,
        lost: Option<Reply>,
    ) -> Turned<Reply>
        requires lost { IfSome lost (λ reply. reply ≡ HandlerFailed) }
        requires room { 0 < self.old.room }
        requires agent_stamp { slip.at.last < 2 ^ 63 }
        requires object_stamp { last_stamp self.old.history < 2 ^ 63 }
        ensures exact { SessionIs self.old (λ s. result.value ≡ take_answer (found_of s name token.0) lost) }
        ensures told { result.entry ≡ entry_at slip.at (last_stamp self.old.history) (object_at self.old.number) (SessionTake name token) result.value }
        ensures kept { self.new.history ≡ self.old.history ++ result.entry ∷ [] }
        ensures number { self.new.number ≡ self.old.number }
        ensures start { self.new.start ≡ self.old.start }
        ensures room { self.new.room + 1 ≡ self.old.room }
        ensures spare { self.new.spare ≡ self.old.spare }
        ensures run { IsTrue (is_some (session_from self.new.start self.new.history)) }
    {
        let refusal = self.find(name, token).err();
        match refusal.or(lost) {
            Some(reply) => self.stay(slip, Event::SessionTake(name, token), reply),
            None => self.give(slip, name, token),
        }
    }

    /// Ends the opened incoming session of this name: the slot is free. `NoSession` exactly where it isn't that
    /// session; then the refusal that the caller brings in. At a refusal it stays as it is.
    #[tactic(auto, using(crate::proofs::OpenedSlots::finish_stays, crate::proofs::OpenedSlots::finish_plain, crate::proofs::OpenedSlots::finish_refuses, crate::proofs::OpenedSlots::finish_open, crate::proofs::OpenedSlots::finish_ends))]
    pub fn finish(&mut self, slip: Slip, name: Name, lost: Option<Reply>) -> Turned<Reply>
        requires lost { IfSome lost (λ reply. reply ≡ HandlerFailed) }
        requires room { 0 < self.old.room }
        requires agent_stamp { slip.at.last < 2 ^ 63 }
        requires object_stamp { last_stamp self.old.history < 2 ^ 63 }
        ensures exact { SessionIs self.old (λ s. result.value ≡ finish_answer (is_in s name) lost) }
        ensures told { result.entry ≡ entry_at slip.at (last_stamp self.old.history) (object_at self.old.number) (SessionFinish name) result.value }
        ensures kept { self.new.history ≡ self.old.history ++ result.entry ∷ [] }
        ensures number { self.new.number ≡ self.old.number }
        ensures start { self.new.start ≡ self.old.start }
        ensures room { self.new.room + 1 ≡ self.old.room }
        ensures spare { self.old.spare ≤ self.new.spare }
        ensures run { IsTrue (is_some (session_from self.new.start self.new.history)) }
    {
        match closed(self.is_in(name)).or(lost) {
            Some(reply) => self.stay(slip, Event::SessionFinish(name), reply),
            None => self.leave(slip, name),
        }
    }

    /// Gives the file of a token that is there and wasn't taken.
    fn give(&mut self, slip: Slip, name: Name, token: Token) -> Turned<Reply>
        requires found { SessionIs self.old (λ s. IsOk (found_of s name token.0)) }
        requires room { 0 < self.old.room }
        requires agent_stamp { slip.at.last < 2 ^ 63 }
        requires object_stamp { last_stamp self.old.history < 2 ^ 63 }
        ensures value { SessionIs self.old (λ s. result.value ≡ take_answer (found_of s name token.0) None) }
        ensures told { result.entry ≡ entry_at slip.at (last_stamp self.old.history) (object_at self.old.number) (SessionTake name token) result.value }
        ensures kept { self.new.history ≡ self.old.history ++ result.entry ∷ [] }
        ensures number { self.new.number ≡ self.old.number }
        ensures start { self.new.start ≡ self.old.start }
        ensures room { self.new.room + 1 ≡ self.old.room }
        ensures spare { self.new.spare ≡ self.old.spare }
        ensures run { IsTrue (is_some (session_from self.new.start self.new.history)) }
    {
        let files = self.files.as_slice();
        let at = place_in(files, token);
        let file = files[at].1;
        mark(&mut self.incoming, at);
        append_plain_turn(
            &mut self.history,
            self.number,
            slip,
            Event::SessionTake(name, token),
            Reply::OkFile(file),
        )
    }

    /// Ends the incoming session.
    fn leave(&mut self, slip: Slip, name: Name) -> Turned<Reply>
        requires opened { SessionIs self.old (λ s. IsTrue (is_in s name)) }
        requires room { 0 < self.old.room }
        requires agent_stamp { slip.at.last < 2 ^ 63 }
        requires object_stamp { last_stamp self.old.history < 2 ^ 63 }
        ensures value { result.value ≡ Ok }
        ensures told { result.entry ≡ entry_at slip.at (last_stamp self.old.history) (object_at self.old.number) (SessionFinish name) Ok }
        ensures kept { self.new.history ≡ self.old.history ++ result.entry ∷ [] }
        ensures number { self.new.number ≡ self.old.number }
        ensures start { self.new.start ≡ self.old.start }
        ensures room { self.new.room + 1 ≡ self.old.room }
        ensures spare { self.old.spare ≤ self.new.spare }
        ensures run { IsTrue (is_some (session_from self.new.start self.new.history)) }
    {
        self.incoming = None;
        self.files.clear();
        append_plain_turn(
            &mut self.history,
            self.number,
            slip,
            Event::SessionFinish(name),
            Reply::Ok,
        )
    }
}

/// Whether a slot with this incoming session, or none, has one of the name that was opened.
fn is_open(incoming: &Option<Incoming>, name: Name) -> bool
    ensures { result ≡ is_named_open incoming.now name }
{
    match incoming {
        Some(own) => own.opened && own.name == name,
        None => false,
    }
}

/// What stands against ending an incoming session, by whether it is an opened one of the name.
fn closed(is_in: bool) -> Option<Reply>
    ensures { result ≡ (if is_in then None else Some NoSession) }
{
    if is_in { None } else { Some(Reply::NoSession) }
}

/// The file under a token of the opened incoming session of this name with its handle, or what stands against taking
/// it.
fn file_under(
    incoming: &Option<Incoming>,
    files: &[(Token, FileNo, u64)],
    name: Name,
    token: Token,
) -> Result<(FileNo, u64), Reply>
    requires marked { AreMarked incoming.now files.now }
    requires within { AreFiles files.now }
    ensures exact { result ≡ found_in incoming.now files.now name token.0 }
    ensures within { IfOk result (λ f. f.0.0 < FILES) }
{
    match incoming {
        Some(own) => listed_file(
            own.opened && own.name == name,
            files,
            own.taken.as_slice(),
            token,
        ),
        None => Err(Reply::NoSession),
    }
}

/// Opens an incoming session.
fn open_up(incoming: &mut Option<Incoming>)
    ensures { IfSome incoming.old (λ i. Becomes true i.taken.items i incoming.new) }
{
    if let Some(own) = incoming {
        own.opened = true;
    }
}

/// Notes of the file at a place that it was taken.
fn mark(incoming: &mut Option<Incoming>, at: usize)
    requires within { IfSome incoming.old (λ i. at < length i.taken.items) }
    ensures { IfSome incoming.old (λ i. Becomes i.opened (slice_set i.taken.items at true) i incoming.new) }
{
    if let Some(own) = incoming {
        own.taken[at] = true;
    }
}

/// The file under a token with its handle, or what stands against taking it, by whether the session is an opened one
/// of the name, and by what tells of each file whether it was taken.
#[tactic(auto, using(crate::proofs::TakenFiles::under_none, crate::proofs::TakenFiles::under_taken, crate::proofs::TakenFiles::under_free))]
fn listed_file(
    is_open: bool,
    files: &[(Token, FileNo, u64)],
    taken: &[bool],
    token: Token,
) -> Result<(FileNo, u64), Reply>
    requires marked { length taken.now ≡ length files.now }
    requires within { AreFiles files.now }
    ensures exact { result ≡ found_by is_open (listed_under token.0 files.now taken.now) }
    ensures within { IfOk result (λ f. f.0.0 < FILES) }
{
    if !is_open {
        return Err(Reply::NoSession);
    }
    let at = place_in(files, token);
    if at == files.len() {
        return Err(Reply::NoToken);
    }
    if taken[at] {
        return Err(Reply::AlreadyTaken);
    }
    let file = files[at];
    Ok((file.1, file.2))
}

/// Where the first file with this token stands: how many files at the front have other tokens.
#[tactic(auto, using(crate::proofs::TakenFiles::before_step, crate::proofs::TakenFiles::before_stop, crate::proofs::TakenFiles::before_end))]
fn place_in(files: &[(Token, FileNo, u64)], token: Token) -> usize
    ensures place { result ≡ before token.0 files.now }
    ensures within { result ≤ length files.now }
{
    let mut i = 0;
    while i < files.len() && files[i].0.0 != token.0 {
        i += 1;
    }
    i
}
