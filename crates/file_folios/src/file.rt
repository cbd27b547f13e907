//! Files over folios.

ghost use Rattle.std.specs.Prelude.{◌≡◌, ℕ, ◌+◌, ◌<◌, ◌≤◌, [], Some, OnOk, length, take, drop, option_map, vec_len, vec_capacity};
ghost use Rattle.std.specs.FinMap as finmap;
ghost use Rattle.ho_base.specs.declared.limits.TheConstants.{MAX_ORDER, FILE_BYTES};
ghost use Rattle.ho_base.specs.declared.numbers.Kind.TheVariants.{Memfd};
ghost use Rattle.ho_events.specs.File.{file_step, new_file, is_device, cut_runs, index_bytes, is_frozen, grows_frozen, runs_of, touched_holes};
ghost use Rattle.ho_events.specs.Lists.{pieces};
ghost use Rattle.ho_events.specs.declared.event.Event.TheVariants.{FileWrite, FileRead, FileSeek, FileTell};
ghost use Rattle.ho_events.specs.declared.reply.Reply.TheVariants.{OkAt};
ghost use Rattle.phys_frames.specs.Memory.{first_frames};
ghost use Rattle.file_folios.specs.FileAnswers.{facts_of, AreFillsOf, more_indexes, wanted_indexes, memory_of, write_answer, read_answer, seek_answer, written_state, fills_used, fills_left};

use crate::facts::Facts;
use crate::sized::{overwrite, piece_of, pieces_of};
use crate::slots;
use ho_base::Items;
use ho_base::limits::FILE_BYTES;
use ho_base::numbers::{Kind, NoMemory, Order, Pfn};
use ho_events::reply::Reply;
use phys_frames::{Folio, Home};
use std::alloc::Global;
use std::marker::Model;
use std::snapshot::Snapshot;

/// A file of any order and up to [`FILE_BYTES`] bytes over folios, with holes. It is linear, since it has folios: its
/// end is [`FileFolios::give_up`]. Contracts see its state, the home of every folio that it is given, and for how many
/// more indexes it has memory.
pub struct FileFolios {
    pub(crate) kind: Kind,
    pub(crate) order: Order,
    /// The size in bytes.
    pub(crate) size: u32,
    /// The position in bytes.
    pub(crate) position: u32,
    /// Whether a label has the file.
    pub(crate) opened: bool,
    /// Whether an outgoing session has it.
    pub(crate) pin: bool,
    /// Whether an incoming session has it.
    pub(crate) hold: bool,
    pub(crate) home: Snapshot<Home>,
    /// The folio of each index up to the size; none where there is a hole.
    pub(crate) slots: Vec<Option<Folio>>,
}

impl Model for FileFolios {
    ghost use Rattle.std.specs.Coded.{codes};
    ghost use Rattle.std.specs.FinMap as finmap;
    ghost use Rattle.std.specs.Prelude.{◌-◌};
    ghost use Rattle.std.specs.Vec.{vec_len, vec_capacity};
    ghost use Rattle.file_folios.specs.FileFoliosValues.{FileFoliosValue};
    ghost use Rattle.file_folios.specs.FileParts.{KeepsFile, state_of};

    ghost Value = { FileFoliosValue };

    ghost coded = { Prim.hlevel (codes, finmap.code) };

    ghost view = { λ f. record { state = state_of f.kind f.order f.size f.position f.opened f.pin f.hold f.slots.items; home = f.home.value; room = vec_capacity f.slots - vec_len f.slots } };

    ghost invariant = { λ f. KeepsFile f.home.value f.order f.size f.slots.items };
}

impl FileFolios {
    /// An open memfd of an order with no bytes, at position 0. It takes no memory.
    pub fn new(alloc: Global, home: &Home, order: Order) -> FileFolios
        requires { order.0 ≤ MAX_ORDER }
        ensures state { result.state ≡ new_file Memfd order.0 0 [] }
        ensures home { result.home ≡ home.now }
        ensures room { result.room ≡ 0 }
    {
        FileFolios {
            kind: Kind::Memfd,
            order,
            size: 0,
            position: 0,
            opened: true,
            pin: false,
            hold: false,
            home: Snapshot::of(home),
            slots: Vec::new(alloc),
        }
    }

    /// Takes memory for as many more indexes. Whatever comes, the file stays as it is.
    pub fn reserve(&mut self, indexes: u32) -> Result<(), NoMemory>
        ensures indexes { OnOk result (indexes ≤ self.new.room) }
        ensures state { self.new.state ≡ self.old.state }
        ensures home { self.new.home ≡ self.old.home }
    {
        match self.slots.reserve(indexes as usize) {
            Ok(()) => Ok(()),
            Err(_) => Err(NoMemory),
        }
    }

    /// The facts of the file.
    pub fn facts(&self) -> Facts
        ensures { result ≡ facts_of self.now.state }
    {
        Facts {
            kind: self.kind,
            order: self.order,
            size: self.size,
            position: self.position,
            opened: self.opened,
            pin: self.pin,
            hold: self.hold,
        }
    }

    /// The size in bytes.
    pub fn size(&self) -> u32
        ensures value { result ≡ length self.now.state.bytes }
        ensures at_most { result ≤ FILE_BYTES }
    {
        self.size
    }

    /// The first frame of the run at an index; none where there is none.
    pub fn run(&self, index: u32) -> Option<Pfn>
        ensures { option_map (λ p. p.0) result ≡ finmap.get self.now.state.runs index }
    {
        slots::run_at(self.slots.as_slice(), index)
    }

    /// How many holes a range of bytes touches. It looks at the touched indexes alone.
    pub fn holes(&self, off: u32, len: u32) -> u32
        requires { off + len ≤ FILE_BYTES }
        ensures { result ≡ length (touched_holes self.now.state off len) }
    {
        if len == 0 {
            return 0;
        }
        let piece = piece_of(self.order);
        let first = off / piece;
        slots::count_holes(
            self.slots.as_slice(),
            first,
            pieces_of(off + len, piece) - first,
        )
    }

    /// How many indexes there are below the size. A file has no more runs, and a new size gives up no more.
    pub fn index_count(&self) -> u32
        ensures value { result ≡ pieces (length self.now.state.bytes) (index_bytes self.now.state) }
        ensures runs { length (runs_of self.now.state) ≤ result }
        ensures cut { (size : ℕ) → length (cut_runs self.now.state size) ≤ result }
    {
        self.slots.len() as u32
    }

    /// How many more indexes the file needs for a range of bytes, or for a size with an empty range: none where that is
    /// refused.
    pub fn wanted_indexes(&self, off: u32, len: u32) -> u32
        ensures { result ≡ wanted_indexes self.now.state (off + len) }
    {
        let end = off as u64 + len as u64;
        if end > FILE_BYTES as u64 {
            return 0;
        }
        if self.is_frozen_below(end as u32) {
            return 0;
        }
        let wanted = pieces_of(end as u32, piece_of(self.order));
        let count = self.index_count();
        if wanted > count { wanted - count } else { 0 }
    }

    /// Whether the size can't change: a session has the file, or it is a device file.
    pub fn is_frozen(&self) -> bool
        ensures { result ≡ is_frozen self.now.state }
    {
        self.pin || self.hold || is_device_kind(self.kind)
    }

    /// Whether a write to this end would change a size that can't change.
    pub fn is_frozen_below(&self, end: u32) -> bool
        ensures { result ≡ grows_frozen self.now.state end }
    {
        end > self.size() && (self.pin || self.hold || is_device_kind(self.kind))
    }

    /// Writes bytes at an offset, at a cost of the bytes and of the indexes that they touch or that are new. `TooBig`
    /// exactly where they end past [`FILE_BYTES`]; else `SizeFrozen` exactly where they end past the size and a session
    /// has the file or it is a device file; else `NoFramesOf` exactly where they touch holes and no folio came. Then
    /// nothing changes and the folios stay with the caller. Else the folios fill the holes, and the frames at which
    /// they begin are reported.
    pub fn write(
        &mut self,
        off: u32,
        bytes: &[u8],
        fills: &mut Vec<Folio>,
        runs: &mut Vec<Pfn>,
    ) -> Reply
        requires bytes { 0 < length bytes.now }
        requires fills { AreFillsOf self.old.home self.old.state.order fills.old.items }
        requires count { 0 < vec_len fills.old → vec_len fills.old ≡ length (touched_holes self.old.state off (length bytes.now)) }
        requires empty { runs.old.items ≡ [] }
        requires runs_room { vec_len fills.old ≤ vec_capacity runs.old }
        requires room { wanted_indexes self.old.state (off + length bytes.now) ≤ self.old.room }
        ensures answer { result ≡ write_answer self.old.state off (length bytes.now) (vec_len fills.old) }
        ensures step { file_step (Some self.old.state) (FileWrite off bytes.now runs.new.items) result ≡ Some (Some self.new.state) }
        ensures used { runs.new.items ≡ first_frames (fills_used result fills.old.items) }
        ensures left { fills.new.items ≡ fills_left result fills.old.items }
        ensures home { self.new.home ≡ self.old.home }
        ensures memory { memory_of self.old ≤ memory_of self.new }
    {
        let len = bytes.len();
        if off as u64 + len as u64 > FILE_BYTES as u64 {
            return Reply::TooBig;
        }
        if self.is_frozen_below(off + len as u32) {
            return Reply::SizeFrozen;
        }
        let holes = self.holes(off, len as u32);
        if fills.is_empty() && holes > 0 {
            return Reply::NoFramesOf(holes);
        }
        self.fill_and_write(off, bytes, fills, runs);
        Reply::Ok
    }

    /// Fills the holes that bytes touch, and writes them.
    fn fill_and_write(
        &mut self,
        off: u32,
        bytes: &[u8],
        fills: &mut Vec<Folio>,
        runs: &mut Vec<Pfn>,
    )
        requires bytes { 0 < length bytes.now }
        requires within { off + length bytes.now ≤ FILE_BYTES }
        requires fills { AreFillsOf self.old.home self.old.state.order fills.old.items }
        requires count { vec_len fills.old ≡ length (touched_holes self.old.state off (length bytes.now)) }
        requires empty { runs.old.items ≡ [] }
        requires runs_room { vec_len fills.old ≤ vec_capacity runs.old }
        requires room { more_indexes self.old.state (off + length bytes.now) ≤ self.old.room }
        ensures state { self.new.state ≡ written_state self.old.state off bytes.now runs.new.items }
        ensures used { runs.new.items ≡ first_frames fills.old.items }
        ensures left { fills.new.items ≡ [] }
        ensures home { self.new.home ≡ self.old.home }
        ensures memory { memory_of self.old ≤ memory_of self.new }
    {
        let piece = piece_of(self.order);
        overwrite(
            &mut self.slots,
            &self.home,
            self.order,
            piece,
            self.size,
            off,
            bytes,
            fills,
            runs,
        );
        self.size = self.size.max(off + bytes.len() as u32);
    }

    /// The bytes of a range, with zeros where there are holes: `PastEnd` exactly where it ends past the size. The empty
    /// list has room for them. It costs the bytes and the indexes that they touch.
    #[tactic(auto, using(crate::proofs::Ranges::past_step, crate::proofs::Ranges::range_step))]
    pub fn read(&self, off: u32, len: u32, out: Vec<u8>) -> Reply
        requires empty { out.items ≡ [] }
        requires room { len ≤ vec_capacity out }
        ensures answer { result ≡ read_answer self.now.state off len }
        ensures step { file_step (Some self.now.state) (FileRead off len) result ≡ Some (Some self.now.state) }
    {
        if off as u64 + len as u64 > self.size() as u64 {
            Reply::PastEnd
        } else {
            Reply::OkBytes(self.range(off, len, out))
        }
    }

    /// The bytes of a range within the size.
    fn range(&self, off: u32, len: u32, mut out: Vec<u8>) -> Items<u8>
        requires within { off + len ≤ length self.now.state.bytes }
        requires empty { out.items ≡ [] }
        requires room { len ≤ vec_capacity out }
        ensures { result ≡ take len (drop off self.now.state.bytes) }
    {
        slots::read_range(
            self.slots.as_slice(),
            &self.home,
            self.order,
            piece_of(self.order),
            off,
            len,
            &mut out,
        );
        Items::from_vec(out)
    }

    /// Moves the position: `PastEnd` exactly where it would be past the size, and then nothing changes.
    pub fn seek(&mut self, to: u32) -> Reply
        ensures answer { result ≡ seek_answer self.old.state to }
        ensures step { file_step (Some self.old.state) (FileSeek to) result ≡ Some (Some self.new.state) }
        ensures home { self.new.home ≡ self.old.home }
        ensures room { self.new.room ≡ self.old.room }
    {
        if to > self.size() {
            return Reply::PastEnd;
        }
        self.position = to;
        Reply::Ok
    }

    /// The position.
    pub fn tell(&self) -> Reply
        ensures answer { result ≡ OkAt self.now.state.position }
        ensures step { file_step (Some self.now.state) FileTell result ≡ Some (Some self.now.state) }
    {
        Reply::OkAt(self.position)
    }

    /// Says whether a label has the file.
    pub fn set_opened(&mut self, opened: bool)
        ensures state { self.new.state ≡ record self.old.state { opened = opened } }
        ensures home { self.new.home ≡ self.old.home }
        ensures room { self.new.room ≡ self.old.room }
    {
        self.opened = opened;
    }

    /// Says whether an outgoing session has the file.
    pub fn set_pin(&mut self, pin: bool)
        ensures state { self.new.state ≡ record self.old.state { pin = pin } }
        ensures home { self.new.home ≡ self.old.home }
        ensures room { self.new.room ≡ self.old.room }
    {
        self.pin = pin;
    }

    /// Says whether an incoming session has the file.
    pub fn set_hold(&mut self, hold: bool)
        ensures state { self.new.state ≡ record self.old.state { hold = hold } }
        ensures home { self.new.home ≡ self.old.home }
        ensures room { self.new.room ≡ self.old.room }
    {
        self.hold = hold;
    }
}

/// Whether a file of this kind is a device file.
fn is_device_kind(kind: Kind) -> bool
    ensures { result ≡ is_device kind }
{
    match kind {
        Kind::Memfd => false,
        _ => true,
    }
}
