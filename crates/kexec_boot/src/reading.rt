//! What the frames carry, for a boot.

ghost use Rattle.std.specs.Prelude.{◌≡◌, IfOk, IfErr, IsTrue, true};
ghost use Rattle.std.specs.List.{list_all};
ghost use Rattle.phys_frames.specs.Memory.{AllHome};
ghost use Rattle.record_frames.specs.Carries.{Carries};
ghost use Rattle.record_frames.specs.State.{state_in};
ghost use Rattle.record_frames.specs.Sheeted.{ram_of};
ghost use Rattle.next_laws.specs.Begins.{is_memfd, are_memfds};
ghost use Rattle.kexec_boot.specs.Checked.{HasDevice, IsMisfit, all_memfds, is_memfd_file, same_area, same_areas, same_shape};
ghost use Rattle.kexec_boot.specs.Images.{IsImageRefusal};
ghost use Rattle.kexec_boot.specs.Refused.{IsBroken, IsUnread};

use ho_base::numbers::{Kind, Pfn};
use ho_base::shape::{Area, Shape};
use kho_records::{SurveyError, survey};
use phys_frames::Frames;
use record_frames::{Carried, CarriedFile, CarriedSession, ImagePlace};
use std::alloc::Global;

/// Why a kernel doesn't boot.
#[derive(Clone, Copy, Debug, PartialEq)]
pub enum BootError {
    /// The frames carry nothing for this machine; the first place whose rules break, and the root where they carry a
    /// state of another shape.
    BadImage(ImagePlace),
    /// A device file is carried, which isn't built yet.
    Unbuilt,
    /// Out of memory.
    Memory,
}

/// What frames carry for a machine of this shape, from the entry frame's number on: its shape is this one, and each file
/// is a memfd.
pub(crate) fn read(
    alloc: Global,
    frames: &Frames,
    shape: &Shape,
    entry: Pfn,
) -> Result<Carried, BootError>
    requires home { AllHome frames.now }
    ensures carries { IfOk result (λ c. Carries (ram_of frames.now) entry.0 (state_in (ram_of frames.now) c)) }
    ensures shape { IfOk result (λ c. c.shape ≡ shape.now) }
    ensures memfds { IfOk result (λ c. IsTrue (are_memfds (state_in (ram_of frames.now) c))) }
    ensures refused { IfErr result (IsUnread shape.now (ram_of frames.now) entry.0) }
{
    match read_any(alloc, frames, u64::from(entry.0)) {
        Ok(carried) => checked(carried, shape),
        Err(error) => Err(error),
    }
}

/// What frames carry for the machine that they themselves say, from the entry frame's number on: each file is a memfd.
pub(crate) fn read_image(alloc: Global, frames: &Frames, entry: u64) -> Result<Carried, BootError>
    requires home { AllHome frames.now }
    ensures carries { IfOk result (λ c. Carries (ram_of frames.now) entry (state_in (ram_of frames.now) c)) }
    ensures memfds { IfOk result (λ c. IsTrue (are_memfds (state_in (ram_of frames.now) c))) }
    ensures refused { IfErr result (IsImageRefusal (ram_of frames.now) entry) }
{
    match read_any(alloc, frames, entry) {
        Ok(carried) => built(carried),
        Err(error) => Err(error),
    }
}

/// What frames carry, of whatever shape and kinds, from the entry frame's number on.
fn read_any(alloc: Global, frames: &Frames, entry: u64) -> Result<Carried, BootError>
    requires home { AllHome frames.now }
    ensures carries { IfOk result (λ c. Carries (ram_of frames.now) entry (state_in (ram_of frames.now) c)) }
    ensures refused { IfErr result (IsBroken (ram_of frames.now) entry) }
{
    match survey(alloc, frames, entry) {
        Ok(carried) => Ok(carried),
        Err(SurveyError::BadImage(place)) => Err(BootError::BadImage(place)),
        Err(SurveyError::Memory) => Err(BootError::Memory),
    }
}

/// What is carried, where its shape is this one and each file is a memfd.
fn checked(carried: Carried, shape: &Shape) -> Result<Carried, BootError>
    ensures same { IfOk result (λ c. c ≡ carried) }
    ensures shape { IfOk result (λ c. same_shape carried.shape shape.now ≡ true) }
    ensures memfds { IfOk result (λ c. all_memfds carried.sessions ≡ true) }
    ensures refused { IfErr result (IsMisfit carried shape.now) }
{
    if is_same(&carried.shape, shape) {
        built(carried)
    } else {
        Err(BootError::BadImage(ImagePlace::Root))
    }
}

/// What is carried, where each file is a memfd.
fn built(carried: Carried) -> Result<Carried, BootError>
    ensures same { IfOk result (λ c. c ≡ carried) }
    ensures memfds { IfOk result (λ c. all_memfds carried.sessions ≡ true) }
    ensures refused { IfErr result (HasDevice carried) }
{
    if is_built(carried.sessions.as_slice()) {
        Ok(carried)
    } else {
        Err(BootError::Unbuilt)
    }
}

/// Whether two shapes are the same.
fn is_same(one: &Shape, other: &Shape) -> bool
    ensures { result ≡ same_shape one.now other.now }
{
    one.frames() == other.frames() && are_same(one.scratch(), other.scratch())
}

/// Whether two lists of areas are the same.
fn are_same(one: &[Area], other: &[Area]) -> bool
    ensures { result ≡ same_areas one.now other.now }
{
    match one.split_first() {
        None => other.is_empty(),
        Some((area, rest)) => match other.split_first() {
            None => false,
            Some((twin, others)) => is_twin(area, twin) && are_same(rest, others),
        },
    }
}

/// Whether two areas are the same.
fn is_twin(one: &Area, other: &Area) -> bool
    ensures { result ≡ same_area one.now other.now }
{
    one.first.0 == other.first.0 && one.count == other.count
}

/// Whether each file of these sessions is a memfd.
fn is_built(sessions: &[CarriedSession]) -> bool
    ensures { result ≡ all_memfds sessions.now }
{
    match sessions.split_first() {
        None => true,
        Some((session, rest)) => are_built(session.files.as_slice()) && is_built(rest),
    }
}

/// Whether each of these files is a memfd.
fn are_built(files: &[CarriedFile]) -> bool
    ensures { result ≡ list_all is_memfd_file files.now }
{
    match files.split_first() {
        None => true,
        Some((file, rest)) => is_memfd_kind(file.kind) && are_built(rest),
    }
}

/// Whether a kind is a memfd.
fn is_memfd_kind(kind: Kind) -> bool
    ensures { result ≡ is_memfd kind }
{
    matches!(kind, Kind::Memfd)
}
