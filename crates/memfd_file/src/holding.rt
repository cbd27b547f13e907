//! Files that an earlier kernel handed over.

ghost use Rattle.std.specs.Prelude.{◌≡◌, ◌*◌, ◌^◌, ◌≤◌, [], Some, IfErr, IfOk, length};
ghost use Rattle.std.specs.List.{All};
ghost use Rattle.ho_base.specs.declared.limits.TheConstants.{FILE_BYTES, MAX_ORDER, PAGE_BYTES};
ghost use Rattle.ho_base.specs.declared.numbers.Kind.TheVariants.{Memfd};
ghost use Rattle.ho_events.specs.Lists.{pieces};
ghost use Rattle.phys_frames.specs.Memory.{AreOf};
ghost use Rattle.file_folios.specs.HeldFiles.{held_file};
ghost use Rattle.memfd_file.specs.FileValues.{FileIs};

use crate::file::FileObject;
use file_folios::FileFolios;
use ho_base::numbers::{Kind, ObjectNo, Order};
use phys_frames::{Folio, Home};
use std::alloc::Global;
use std::snapshot::Snapshot;

impl FileObject {
    /// A file with no history that an earlier kernel handed over: an incoming session has it, and no label and no
    /// outgoing session has. Its bytes are those of the folios, cut at the size, with a folio for each index; what stands
    /// past the size in the last folio is made zero. So far it is a memfd. Where there is no memory for as many indexes,
    /// the folios come back as they are.
    pub fn held(
        alloc: Global,
        object: ObjectNo,
        home: Home,
        kind: Kind,
        order: Order,
        size: u32,
        position: u32,
        folios: Vec<Folio>,
    ) -> Result<FileObject, Vec<Folio>>
        requires memfd { kind ≡ Memfd }
        requires small { order.0 ≤ MAX_ORDER }
        requires within { size ≤ FILE_BYTES }
        requires position { position ≤ size }
        requires count { length folios.items ≡ pieces size (PAGE_BYTES * 2 ^ order.0) }
        requires of_home { AreOf home folios.items }
        requires of_order { All (λ f. f.order ≡ order) folios.items }
        ensures number { IfOk result (λ f. f.number ≡ object.0) }
        ensures home { IfOk result (λ f. f.home ≡ home) }
        ensures start { IfOk result (λ f. f.start ≡ Some (held_file kind order.0 size position folios.items)) }
        ensures history { IfOk result (λ f. f.history ≡ []) }
        ensures held { IfOk result (λ f. FileIs f (λ s. s ≡ Some (held_file kind order.0 size position folios.items))) }
        ensures back { IfErr result (λ back. back.items ≡ folios.items) }
    {
        let file = match FileFolios::held(alloc, &home, kind, order, size, position, folios) {
            Ok(file) => Some(file),
            Err(folios) => return Err(folios),
        };
        Ok(FileObject {
            number: object,
            home,
            start: Snapshot::of(&file),
            file,
            history: Vec::new(alloc),
        })
    }
}
