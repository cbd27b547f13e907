//! Files: what they are, and the calls that make, read and end them.

ghost use Rattle.std.specs.Prelude.{◌≡◌, ◌+◌, ◌<◌, ◌≤◌, ◌^◌, ◌++◌, ◌∷◌, [], ℕ, None, Some, IsSome, MatchOption, OnOk, IsTrue, is_some, length, option_map, vec_len, vec_capacity};
ghost use Rattle.ho_base.specs.declared.limits.TheConstants.{MAX_ORDER, FILE_BYTES};
ghost use Rattle.ho_base.specs.declared.numbers.Kind.TheVariants.{Memfd};
ghost use Rattle.ho_events.specs.History.{last_stamp, file_from};
ghost use Rattle.ho_events.specs.Lists.{firsts, pieces};
ghost use Rattle.ho_events.specs.File.{cut_runs, holes, index_bytes, indexes, runs_of, touched_holes};
ghost use Rattle.ho_events.specs.Contents.{file_content};
ghost use Rattle.ho_events.specs.Places.{object_at};
ghost use Rattle.ho_events.specs.Slips.{entry_at};
ghost use Rattle.ho_events.specs.declared.event.Event.TheVariants.{FileInit, FileRead};
ghost use Rattle.ho_events.specs.declared.reply.Reply.TheVariants.{Ok};
ghost use Rattle.file_folios.specs.FileAnswers.{facts_of, read_answer, wanted_indexes};
ghost use Rattle.memfd_file.specs.Files.{FileHas, IsMemfdFile, content_told, run_at, is_opened, is_pinned, with_file_home, FileIsOut};
ghost use Rattle.memfd_file.specs.FileValues.{FileIs};

use file_folios::{Facts, FileFolios};
use ho_base::Items;
use ho_base::numbers::{Kind, NoMemory, ObjectNo, Order, Pfn};
use ho_events::append::append_turn;
use ho_events::chronicle::{Recorded, last_stamp_of};
use ho_events::entry::Entry;
use ho_events::event::Event;
use ho_events::reply::Reply;
use ho_events::slip::{Slip, Turned};
use phys_frames::{Frames, Home};
use std::alloc::Global;
use std::marker::Model;
use std::snapshot::Snapshot;

/// A file, or a place for one, with the history of all turns on it. So far each file is a memfd. Contracts see its
/// number, the home of every folio that it is given, its state before the first of these turns, that history, how much
/// more of it fits, and for how many more indexes there is memory; its state is where the history leads from there.
pub struct FileObject {
    pub(crate) number: ObjectNo,
    pub(crate) home: Home,
    pub(crate) start: Snapshot<Option<FileFolios>>,
    /// The file; none where it is absent.
    pub(crate) file: Option<FileFolios>,
    pub(crate) history: Vec<Entry>,
}

impl Model for FileObject {
    ghost use Rattle.std.specs.Coded.{codes};
    ghost use Rattle.std.specs.FinMap as finmap;
    ghost use Rattle.std.specs.Prelude.{◌-◌};
    ghost use Rattle.std.specs.Vec.{vec_len, vec_capacity};
    ghost use Rattle.memfd_file.specs.FileValues.{FileValue};
    ghost use Rattle.memfd_file.specs.FileShown.{KeepsFile, indexes_of, shown};

    ghost Value = { FileValue };

    ghost coded = { Prim.hlevel (codes, finmap.code) };

    ghost view = { λ f. record { number = f.number.0; home = f.home; start = shown f.start.value; history = f.history.items; room = vec_capacity f.history - vec_len f.history; indexes = indexes_of f.file } };

    ghost invariant = { λ f. KeepsFile (shown f.start.value) f.history.items f.home f.file };
}

impl FileObject {
    /// A file with no history that begins absent. It takes no memory.
    pub fn absent(object: ObjectNo, home: Home, alloc: Global) -> FileObject
        ensures number { result.number ≡ object.0 }
        ensures home { result.home ≡ home }
        ensures start { result.start ≡ None }
        ensures history { result.history ≡ [] }
        ensures absent { FileIs result (λ s. s ≡ None) }
    {
        let file = None;
        FileObject {
            number: object,
            home,
            start: Snapshot::of(&file),
            file,
            history: Vec::new(alloc),
        }
    }

    /// Takes memory for as many more entries, and where there is a file for as many more indexes. Whatever comes, the
    /// file stays as it is.
    pub fn reserve(&mut self, entries: u32, indexes: u32) -> Result<(), NoMemory>
        ensures entries { OnOk result (entries ≤ self.new.room) }
        ensures indexes { OnOk result (FileIs self.new (λ s. MatchOption s (Unit {0}) (λ f. indexes ≤ self.new.indexes))) }
        ensures history { self.new.history ≡ self.old.history }
        ensures number { self.new.number ≡ self.old.number }
        ensures start { self.new.start ≡ self.old.start }
        ensures home { self.new.home ≡ self.old.home }
    {
        if self.history.reserve(entries as usize).is_err() {
            return Err(NoMemory);
        }
        match &mut self.file {
            None => Ok(()),
            Some(file) => file.reserve(indexes),
        }
    }

    /// The entries of all turns on the file: each came legally where it stands.
    pub fn entries(&self) -> &[Entry]
        ensures value { result.now ≡ self.now.history }
        ensures run { IsTrue (is_some (file_from self.now.start self.now.history)) }
    {
        self.history.as_slice()
    }

    /// What is reported of the file; none where it is absent. A file is a memfd of an order that runs may have.
    pub fn facts(&self) -> Option<Facts>
        ensures exact { FileIs self.now (λ s. result ≡ option_map facts_of s) }
        ensures content { file_content (file_from self.now.start self.now.history) ≡ content_told result }
        ensures memfd { FileIs self.now (λ s. MatchOption s (Unit {0}) IsMemfdFile) }
    {
        match &self.file {
            None => None,
            Some(file) => Some(file.facts()),
        }
    }

    /// Whether there is a file.
    pub fn is_present(&self) -> bool
        ensures { FileIs self.now (λ s. result ≡ is_some s) }
    {
        self.file.is_some()
    }

    /// Whether there is a file and a label has it.
    pub fn is_open(&self) -> bool
        ensures { FileIs self.now (λ s. result ≡ is_opened s) }
    {
        match &self.file {
            None => false,
            Some(file) => file.facts().opened,
        }
    }

    /// Whether there is a file and an outgoing session has it.
    pub fn is_pinned(&self) -> bool
        ensures { FileIs self.now (λ s. result ≡ is_pinned s) }
    {
        match &self.file {
            None => false,
            Some(file) => file.facts().pin,
        }
    }

    /// The first frame of the run at an index; none where there is none, or no file.
    pub fn run(&self, index: u32) -> Option<Pfn>
        ensures { FileIs self.now (λ s. option_map (λ p. p.0) result ≡ run_at s index) }
    {
        match &self.file {
            None => None,
            Some(file) => file.run(index),
        }
    }

    /// Adds the first frames of all runs, by index, to a list that has room for them.
    pub fn add_runs(&self, runs: &mut Vec<Pfn>)
        requires room { FileHas self.now (λ f. vec_len runs.old + length (runs_of f) ≤ vec_capacity runs.old) }
        ensures { FileHas self.now (λ f. firsts runs.new.items ≡ firsts runs.old.items ++ runs_of f) }
    {
        match &self.file {
            None => unreachable!(),
            Some(file) => file.add_runs(runs),
        }
    }

    /// How many indexes there are below the size. A file has no more runs, and a new size gives up no more.
    pub fn index_count(&self) -> u32
        requires present { FileIs self.now IsSome }
        ensures value { FileHas self.now (λ f. result ≡ pieces (length f.bytes) (index_bytes f)) }
        ensures runs { FileHas self.now (λ f. length (runs_of f) ≤ result) }
        ensures cut { (size : ℕ) → FileHas self.now (λ f. length (cut_runs f size) ≤ result) }
    {
        match &self.file {
            None => unreachable!(),
            Some(file) => file.index_count(),
        }
    }

    /// How many holes a range of bytes touches: none where it is empty.
    pub fn holes(&self, off: u32, len: u32) -> u32
        requires present { FileIs self.now IsSome }
        requires within { off + len ≤ FILE_BYTES }
        ensures { FileHas self.now (λ f. result ≡ length (touched_holes f off len)) }
    {
        match &self.file {
            None => unreachable!(),
            Some(file) => file.holes(off, len),
        }
    }

    /// How many indexes below the size have no folio.
    pub fn all_holes(&self) -> u32
        requires present { FileIs self.now IsSome }
        ensures value { FileHas self.now (λ f. result ≡ length (holes f (indexes f))) }
        ensures size { FileHas self.now (λ f. length f.bytes ≤ FILE_BYTES) }
    {
        match &self.file {
            None => unreachable!(),
            Some(file) => file.all_holes(),
        }
    }

    /// How many more indexes the file needs for a range of bytes, or for a size with an empty range: none where that is
    /// refused.
    pub fn wanted_indexes(&self, off: u32, len: u32) -> u32
        requires present { FileIs self.now IsSome }
        ensures { FileHas self.now (λ f. result ≡ wanted_indexes f (off + len)) }
    {
        match &self.file {
            None => unreachable!(),
            Some(file) => file.wanted_indexes(off, len),
        }
    }

    /// Becomes an open memfd of no bytes, at position 0. The file is absent.
    pub fn init(
        &mut self,
        alloc: Global,
        slip: Slip,
        kind: Kind,
        order: Order,
        size: u32,
    ) -> Turned<()>
        requires absent { FileIs self.old (λ s. s ≡ None) }
        requires kind { kind ≡ Memfd }
        requires order { order.0 ≤ MAX_ORDER }
        requires size { size ≡ 0 }
        requires room { 0 < self.old.room }
        requires agent_stamp { slip.at.last < 2 ^ 63 }
        requires object_stamp { last_stamp self.old.history < 2 ^ 63 }
        ensures told { result.entry ≡ entry_at slip.at (last_stamp self.old.history) (object_at self.old.number) (FileInit kind order size []) Ok }
        ensures kept { self.new.history ≡ self.old.history ++ result.entry ∷ [] }
        ensures number { self.new.number ≡ self.old.number }
        ensures start { self.new.start ≡ self.old.start }
        ensures home { self.new.home ≡ self.old.home }
        ensures room { self.new.room + 1 ≡ self.old.room }
        ensures run { IsTrue (is_some (file_from self.new.start self.new.history)) }
    {
        let (at, own, copy, value) = slip.open();
        let file = FileFolios::new(alloc, &self.home, order);
        place(&mut self.file, file);
        let event = Event::FileInit(kind, order, size, Items::from_vec(own.event_runs));
        let Turned { entry, value: _ } = append_turn(
            &mut self.history,
            self.number,
            at,
            event,
            Reply::Ok,
            copy,
            value,
        );
        Turned { entry, value: () }
    }

    /// Reads a range of bytes: `PastEnd` exactly where it ends past the size, else the bytes, with zeros where there are
    /// holes. The file stays as it is.
    pub fn read(&mut self, slip: Slip, off: u32, len: u32) -> Turned<Reply>
        requires present { FileIs self.old IsSome }
        requires slip_bytes { len ≤ slip.room.reply_bytes }
        requires room { 0 < self.old.room }
        requires agent_stamp { slip.at.last < 2 ^ 63 }
        requires object_stamp { last_stamp self.old.history < 2 ^ 63 }
        ensures exact { FileHas self.old (λ f. result.value ≡ read_answer f off len) }
        ensures told { result.entry ≡ entry_at slip.at (last_stamp self.old.history) (object_at self.old.number) (FileRead off len) result.value }
        ensures kept { self.new.history ≡ self.old.history ++ result.entry ∷ [] }
        ensures number { self.new.number ≡ self.old.number }
        ensures start { self.new.start ≡ self.old.start }
        ensures home { self.new.home ≡ self.old.home }
        ensures room { self.new.room + 1 ≡ self.old.room }
        ensures run { IsTrue (is_some (file_from self.new.start self.new.history)) }
    {
        let (at, own, copy, value) = slip.open();
        let reply = match &self.file {
            None => unreachable!(),
            Some(file) => file.read(off, len, own.reply_bytes),
        };
        append_turn(
            &mut self.history,
            self.number,
            at,
            Event::FileRead(off, len),
            reply,
            copy,
            value,
        )
    }

    /// Ends the file, and brings its folios home, in rising index: each of their frames was out. The history goes.
    pub fn scrap(self, frames: &mut Frames)
        requires { self.home ≡ frames.old.home }
        ensures home { FileIs self (λ s. frames.new ≡ with_file_home frames.old self.home s) }
        ensures were_out { FileIs self (λ s. FileIsOut frames.old self.home s) }
    {
        let FileObject {
            number: _,
            home: _,
            start: _,
            file,
            history: _,
        } = self;
        match file {
            None => {}
            Some(file) => file.end(frames),
        }
    }
}

impl Recorded for FileObject {
    ghost history = { λ f. f.history };

    fn entries(&self) -> &[Entry] {
        self.history.as_slice()
    }

    fn last_stamp(&self) -> u64 {
        last_stamp_of(self.history.as_slice())
    }
}

/// Puts a file into an empty place.
pub(crate) fn place(file: &mut Option<FileFolios>, new: FileFolios)
    requires { file.old ≡ None }
    ensures { file.new ≡ Some new }
{
    match file.replace(new) {
        None => {}
        Some(_file) => unreachable!(),
    }
}
