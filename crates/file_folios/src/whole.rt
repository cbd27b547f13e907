//! Files as wholes: their size, their runs, and their end.

ghost use Rattle.std.specs.Prelude.{◌≡◌, ◌+◌, ◌<◌, ◌≤◌, ◌++◌, [], Some, length, vec_len, vec_capacity};
ghost use Rattle.ho_base.specs.declared.limits.TheConstants.{FILE_BYTES};
ghost use Rattle.ho_base.specs.declared.numbers.Kind.TheVariants.{Memfd};
ghost use Rattle.ho_events.specs.File.{file_step, cut_runs, index_bytes, indexes, holes, runs_of};
ghost use Rattle.ho_events.specs.Lists.{firsts, pieces};
ghost use Rattle.ho_events.specs.Slips.{reply_runs};
ghost use Rattle.ho_events.specs.declared.event.Event.TheVariants.{FilePin, FileTruncate};
ghost use Rattle.phys_frames.specs.Memory.{first_frames};
ghost use Rattle.file_folios.specs.Slots.{with_folios, AreOut};
ghost use Rattle.file_folios.specs.FileAnswers.{AreFillsOf, more_indexes, wanted_indexes, memory_of, folios_of, pinned_state, truncated_state, truncate_given, cut_folios, IsTruncateAnswer, IsPinAnswer, pin_used, pin_left};

use crate::file::FileFolios;
use crate::going_home::give_all;
use crate::sized::{piece_of, resize};
use crate::slots;
use ho_base::Items;
use ho_base::limits::FILE_BYTES;
use ho_base::numbers::Pfn;
use ho_events::reply::Reply;
use phys_frames::{Folio, Frames};

impl FileFolios {
    /// Adds all runs by index to a list that has room for them.
    pub fn add_runs(&self, runs: &mut Vec<Pfn>)
        requires { vec_len runs.old + length (runs_of self.now.state) ≤ vec_capacity runs.old }
        ensures { firsts runs.new.items ≡ firsts runs.old.items ++ runs_of self.now.state }
    {
        slots::add_runs(self.slots.as_slice(), runs);
    }

    /// Changes the size: `TooBig` exactly past [`FILE_BYTES`]; else `SizeFrozen` exactly where another size is asked for
    /// and it can't change. Then nothing changes. Else the bytes are cut, or extended with zeros, the position is at most
    /// the size, and the folios of the indexes past it are given up with their runs, in rising index.
    #[tactic(auto, using(crate::proofs::Steps::truncate_done))]
    pub fn truncate(&mut self, size: u32, runs: Vec<Pfn>, given: &mut Vec<Folio>) -> Reply
        requires runs_empty { runs.items ≡ [] }
        requires runs_room { length (cut_runs self.old.state size) ≤ vec_capacity runs }
        requires given_room { vec_len given.old + length (cut_runs self.old.state size) ≤ vec_capacity given.old }
        requires room { wanted_indexes self.old.state size ≤ self.old.room }
        ensures answer { IsTruncateAnswer self.old.state size result }
        ensures step { file_step (Some self.old.state) (FileTruncate size) result ≡ Some (Some self.new.state) }
        ensures given { given.new.items ≡ given.old.items ++ truncate_given self.old.state self.old.home size result }
        ensures home { self.new.home ≡ self.old.home }
        ensures memory { memory_of self.old ≤ memory_of self.new }
    {
        if size > FILE_BYTES {
            return Reply::TooBig;
        }
        if self.is_frozen() && size != self.size() {
            return Reply::SizeFrozen;
        }
        Reply::OkRuns(self.change_size(size, runs, given))
    }

    /// Changes the size.
    fn change_size(&mut self, size: u32, mut runs: Vec<Pfn>, given: &mut Vec<Folio>) -> Items<Pfn>
        requires within { size ≤ FILE_BYTES }
        requires runs_empty { runs.items ≡ [] }
        requires runs_room { length (cut_runs self.old.state size) ≤ vec_capacity runs }
        requires given_room { vec_len given.old + length (cut_runs self.old.state size) ≤ vec_capacity given.old }
        requires room { more_indexes self.old.state size ≤ self.old.room }
        ensures state { self.new.state ≡ truncated_state self.old.state size }
        ensures runs { firsts result ≡ cut_runs self.old.state size }
        ensures given { given.new.items ≡ given.old.items ++ cut_folios self.old.state self.old.home size }
        ensures home { self.new.home ≡ self.old.home }
        ensures memory { memory_of self.old ≤ memory_of self.new }
    {
        let piece = piece_of(self.order);
        resize(
            &mut self.slots,
            &self.home,
            self.order,
            piece,
            self.size,
            size,
            &mut runs,
            given,
        );
        self.position = self.position.min(size);
        self.size = size;
        Items::from_vec(runs)
    }

    /// How many indexes below the size have no folio.
    pub fn all_holes(&self) -> u32
        ensures value { result ≡ length (holes self.now.state (indexes self.now.state)) }
        ensures size { length self.now.state.bytes ≤ FILE_BYTES }
    {
        slots::count_holes(self.slots.as_slice(), 0, self.slots.len() as u32)
    }

    /// Pins the file: `NotFinished` exactly where an incoming session has it, else `AlreadyPinned` exactly where an
    /// outgoing one has, else `NoFramesOf` exactly where it has holes and no folio came. Then nothing changes and the
    /// folios stay with the caller. Else the folios fill all holes, the frames at which they begin are reported, and all runs
    /// are answered by index. The second list has room for a run at each index.
    #[tactic(auto, using(crate::proofs::Steps::pin_done))]
    pub fn pin(&mut self, fills: &mut Vec<Folio>, used: &mut Vec<Pfn>, runs: Vec<Pfn>) -> Reply
        requires memfd { self.old.state.kind ≡ Memfd }
        requires fills { AreFillsOf self.old.home self.old.state.order fills.old.items }
        requires count { 0 < vec_len fills.old → vec_len fills.old ≡ length (holes self.old.state (indexes self.old.state)) }
        requires empty { used.old.items ≡ [] }
        requires used_room { vec_len fills.old ≤ vec_capacity used.old }
        requires runs_empty { runs.items ≡ [] }
        requires runs_room { pieces (length self.old.state.bytes) (index_bytes self.old.state) ≤ vec_capacity runs }
        ensures answer { IsPinAnswer self.old.state (vec_len fills.old) self.new.state result }
        ensures few { length (reply_runs result) ≤ pieces (length self.old.state.bytes) (index_bytes self.old.state) }
        ensures step { file_step (Some self.old.state) (FilePin used.new.items) result ≡ Some (Some self.new.state) }
        ensures used { used.new.items ≡ first_frames (pin_used result fills.old.items) }
        ensures left { fills.new.items ≡ pin_left result fills.old.items }
        ensures home { self.new.home ≡ self.old.home }
        ensures room { self.new.room ≡ self.old.room }
    {
        if self.hold {
            return Reply::NotFinished;
        }
        if self.pin {
            return Reply::AlreadyPinned;
        }
        let holes = self.all_holes();
        if fills.is_empty() && holes > 0 {
            return Reply::NoFramesOf(holes);
        }
        self.fill_and_pin(fills, used);
        Reply::OkRuns(self.runs(runs))
    }

    /// All runs by index, in an empty list that has room for them.
    pub fn runs(&self, mut runs: Vec<Pfn>) -> Items<Pfn>
        requires empty { runs.items ≡ [] }
        requires room { length (runs_of self.now.state) ≤ vec_capacity runs }
        ensures { firsts result ≡ runs_of self.now.state }
    {
        self.add_runs(&mut runs);
        Items::from_vec(runs)
    }

    /// Fills all holes, and pins the file.
    fn fill_and_pin(&mut self, fills: &mut Vec<Folio>, used: &mut Vec<Pfn>)
        requires fills { AreFillsOf self.old.home self.old.state.order fills.old.items }
        requires count { vec_len fills.old ≡ length (holes self.old.state (indexes self.old.state)) }
        requires empty { used.old.items ≡ [] }
        requires room { vec_len fills.old ≤ vec_capacity used.old }
        ensures state { self.new.state ≡ pinned_state self.old.state used.new.items }
        ensures used_count { length used.new.items ≡ length (holes self.old.state (indexes self.old.state)) }
        ensures used { used.new.items ≡ first_frames fills.old.items }
        ensures left { fills.new.items ≡ [] }
        ensures few { length (runs_of self.new.state) ≤ pieces (length self.old.state.bytes) (index_bytes self.old.state) }
        ensures home { self.new.home ≡ self.old.home }
        ensures room { self.new.room ≡ self.old.room }
    {
        let count = self.slots.len() as u32;
        let piece = piece_of(self.order);
        slots::fill_holes(
            &mut self.slots,
            &self.home,
            self.order,
            piece,
            0,
            count,
            fills,
            used,
        );
        self.pin = true;
    }

    /// Brings all folios home, in rising index. Equal homes are all that is asked: that each of their runs was out follows.
    pub fn end(self, frames: &mut Frames)
        requires { self.home ≡ frames.old.home }
        ensures home { frames.new ≡ with_folios frames.old (folios_of self.state self.home) }
        ensures were_out { AreOut frames.old (folios_of self.state self.home) }
    {
        let FileFolios {
            kind: _,
            order,
            size: _,
            position: _,
            opened: _,
            pin: _,
            hold: _,
            home,
            mut slots,
        } = self;
        give_all(&mut slots, &home, order, piece_of(order), frames);
        slots.destroy_empty();
    }

    /// Gives all folios up, and reports all runs, by index.
    pub fn give_up(self, mut runs: Vec<Pfn>, given: &mut Vec<Folio>) -> Items<Pfn>
        requires empty { runs.items ≡ [] }
        requires runs_room { length (runs_of self.state) ≤ vec_capacity runs }
        requires given_room { vec_len given.old + length (runs_of self.state) ≤ vec_capacity given.old }
        ensures runs { firsts result ≡ runs_of self.state }
        ensures given { given.new.items ≡ given.old.items ++ folios_of self.state self.home }
    {
        let FileFolios {
            kind: _,
            order: _,
            size: _,
            position: _,
            opened: _,
            pin: _,
            hold: _,
            home: _home,
            mut slots,
        } = self;
        slots::cut(&mut slots, 0, &mut runs, given);
        slots.destroy_empty();
        Items::from_vec(runs)
    }
}
