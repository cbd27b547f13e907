//! The carried files, held with their folios.

ghost use Rattle.std.specs.Prelude.{◌≡◌, ◌*◌, ◌+◌, ◌^◌, ◌++◌, ◌∷◌, ◌<◌, ◌≤◌, [], IfOk, IfErr, OnOk, OnErr, drop, flat_map, length, map, min, reverse, take, vec_len, vec_capacity};
ghost use Rattle.std.specs.List.{All};
ghost use Rattle.ho_base.specs.declared.limits.TheConstants.{FILES, MAX_ORDER, PAGE_BYTES};
ghost use Rattle.ho_base.specs.Objects.{file_no};
ghost use Rattle.phys_frames.specs.Memory.{AreOf};
ghost use Rattle.machine_core.specs.Kernels.{AreHeld};
ghost use Rattle.kexec_boot.specs.Files.{FitAll, FitsFolios, bytes_with, state_with, states_with};

use crate::files::PlainFile;
use crate::prepared::Store;
use ho_base::limits::PAGE_BYTES;
use ho_base::numbers::{FileNo, Kind, NoMemory, ObjectNo, Order};
use memfd_file::FileObject;
use phys_frames::{Folio, Home};
use pool_core::Pool;
use std::alloc::Global;

/// Holds carried files, of which the store has all folios in order, and room for the files. `Err`: out of memory; the
/// first files are held then, and the store has the folios of the others.
#[tactic(auto, using(crate::proofs::HeldSteps::holding_begins, crate::proofs::HeldSteps::fits_next, crate::proofs::HeldSteps::of_left_over, crate::proofs::HeldSteps::holding_more, crate::proofs::HeldSteps::none_rest, crate::proofs::HeldSteps::all_held))]
pub(crate) fn hold_all(
    alloc: Global,
    pool: &Pool,
    files: &[PlainFile],
    store: &mut Store,
) -> Result<(), NoMemory>
    requires fits { FitAll pool.now.home files.now store.old.folios.items }
    requires none { store.old.files.items ≡ [] }
    requires room { length files.now ≤ vec_capacity store.old.files }
    requires few { length files.now ≤ FILES }
    ensures starts { OnOk result (map (λ f. f.start) store.new.files.items ≡ states_with files.now store.old.folios.items) }
    ensures all { OnOk result (store.new.folios.items ≡ []) }
    ensures held { AreHeld pool.now.home 0 store.new.files.items }
    ensures few { length store.new.files.items ≤ FILES }
    ensures of_home { AreOf pool.now.home store.new.folios.items }
{
    store.folios.reverse();
    for file in files {
        hold_next(alloc, pool, *file, store)?;
    }
    Ok(())
}

/// Holds a file with the folios that come next, which are the last ones of the store. `Err`: out of memory, and then all
/// folios stay in the store.
#[tactic(auto, using(crate::proofs::HeldSteps::begun_push, crate::proofs::HeldSteps::of_left, crate::proofs::HeldSteps::moved_back))]
fn hold_next(alloc: Global, pool: &Pool, file: PlainFile, store: &mut Store) -> Result<(), NoMemory>
    requires fits { FitsFolios pool.now.home file (take file.count (reverse store.old.folios.items)) }
    requires of_home { AreOf pool.now.home store.old.folios.items }
    requires room { vec_len store.old.files < vec_capacity store.old.files }
    requires few { length store.old.files.items < FILES }
    requires held { AreHeld pool.now.home 0 store.old.files.items }
    ensures start { OnOk result (map (λ f. f.start) store.new.files.items ≡ map (λ f. f.start) store.old.files.items ++ state_with file (take file.count (reverse store.old.folios.items)) ∷ []) }
    ensures rest { OnOk result (reverse store.new.folios.items ≡ drop file.count (reverse store.old.folios.items)) }
    ensures count { OnOk result (vec_len store.new.files ≡ vec_len store.old.files + 1) }
    ensures room { vec_capacity store.old.files ≤ vec_capacity store.new.files }
    ensures held { AreHeld pool.now.home 0 store.new.files.items }
    ensures of_home { AreOf pool.now.home store.new.folios.items }
    ensures stays { OnErr result (store.new.files.items ≡ store.old.files.items) }
{
    let list = next_folios(alloc, file.count, &mut store.folios)?;
    let at = ObjectNo::of_file(FileNo(store.files.len() as u16));
    match hold_one(alloc, at, pool.home(), file, list) {
        Ok(held) => {
            add_file(pool, held, &mut store.files);
            Ok(())
        }
        Err(mut list) => {
            store.folios.append(&mut list).unwrap();
            list.destroy_empty();
            Err(NoMemory)
        }
    }
}

/// Takes so many folios from the end of the list, the last one first. `Err`: out of memory, and then the list stays.
#[tactic(auto, using(crate::proofs::HeldSteps::moving_begins, crate::proofs::HeldSteps::moved_front, crate::proofs::HeldSteps::moved_rest))]
fn next_folios(alloc: Global, count: usize, folios: &mut Vec<Folio>) -> Result<Vec<Folio>, NoMemory>
    requires enough { count ≤ vec_len folios.old }
    ensures taken { IfOk result (λ v. v.items ≡ take count (reverse folios.old.items)) }
    ensures rest { IfOk result (λ v. reverse folios.new.items ≡ drop count (reverse folios.old.items)) }
    ensures long { IfOk result (λ v. All (λ f. length f.bytes ≡ PAGE_BYTES * 2 ^ f.order.0) v.items) }
    ensures room { IfOk result (λ v. vec_len folios.new + vec_len v ≤ vec_capacity folios.new) }
    ensures stays { OnErr result (folios.new.items ≡ folios.old.items) }
{
    let Ok(mut list) = Vec::with_capacity(alloc, count) else {
        return Err(NoMemory);
    };
    while list.len() < count {
        move_one(folios, &mut list);
    }
    Ok(list)
}

/// Moves the last folio of one list to the end of another.
#[tactic(auto, using(crate::proofs::HeldSteps::moved_one))]
fn move_one(folios: &mut Vec<Folio>, list: &mut Vec<Folio>)
    requires some { 0 < vec_len folios.old }
    requires room { vec_len list.old < vec_capacity list.old }
    requires long { All (λ f. length f.bytes ≡ PAGE_BYTES * 2 ^ f.order.0) list.old.items }
    ensures moved { list.new.items ++ reverse folios.new.items ≡ list.old.items ++ reverse folios.old.items }
    ensures long { All (λ f. length f.bytes ≡ PAGE_BYTES * 2 ^ f.order.0) list.new.items }
    ensures count { vec_len list.new ≡ vec_len list.old + 1 }
    ensures left { vec_len folios.new + 1 ≡ vec_len folios.old }
    ensures capacity { vec_capacity list.new ≡ vec_capacity list.old }
    ensures room { vec_capacity folios.new ≡ vec_capacity folios.old }
{
    match folios.pop() {
        Some(folio) => {
            let _bytes = folio.bytes();
            list.push_reserved(folio);
        }
        None => unreachable!(),
    }
}

/// Adds a file, which has the next number.
fn add_file(pool: &Pool, file: FileObject, files: &mut Vec<FileObject>)
    requires number { file.number ≡ file_no (length files.old.items) }
    requires home { file.home ≡ pool.now.home }
    requires history { file.history ≡ [] }
    requires room { vec_len files.old < vec_capacity files.old }
    requires held { AreHeld pool.now.home 0 files.old.items }
    ensures held { AreHeld pool.now.home 0 files.new.items }
    ensures items { files.new.items ≡ files.old.items ++ file ∷ [] }
    ensures len { vec_len files.new ≡ vec_len files.old + 1 }
    ensures capacity { vec_capacity files.old ≤ vec_capacity files.new }
{
    files.push(file).unwrap();
}

/// A held file with these folios. Where there is no memory for it they come back.
fn hold_one(
    alloc: Global,
    at: ObjectNo,
    home: Home,
    file: PlainFile,
    folios: Vec<Folio>,
) -> Result<FileObject, Vec<Folio>>
    requires fits { FitsFolios home file folios.items }
    requires long { All (λ f. length f.bytes ≡ PAGE_BYTES * 2 ^ f.order.0) folios.items }
    ensures number { IfOk result (λ f. f.number ≡ at.0) }
    ensures home { IfOk result (λ f. f.home ≡ home) }
    ensures start { IfOk result (λ f. f.start ≡ state_with file folios.items) }
    ensures history { IfOk result (λ f. f.history ≡ []) }
    ensures back { IfErr result (λ back. back.items ≡ folios.items) }
{
    FileObject::held(
        alloc,
        at,
        home,
        Kind::Memfd,
        file.order,
        size_of(file),
        file.position,
        folios,
    )
}

/// How many bytes a file has: no more than its runs.
fn size_of(file: PlainFile) -> u32
    requires order { file.order.0 ≤ MAX_ORDER }
    requires few { file.count < 2 ^ 32 }
    ensures { result ≡ min file.size (file.count * (PAGE_BYTES * 2 ^ file.order.0)) }
{
    let room = file.count * (PAGE_BYTES as usize * (1usize << file.order.0));
    (file.size as usize).min(room) as u32
}
