//! Reads what a host holds under a name.

ghost use Rattle.std.specs.Prelude.{◌≡◌, ◌+◌, ◌≤◌, List, ℕ, Option, IfOk, length};
ghost use Rattle.ho_io.specs.Told.{Rose, Tells, in_front, with_item, IsOneOf};
ghost use Rattle.ho_io.specs.Outcome.{OnFault, IfTooLong};
ghost use Rattle.ho_io.specs.declared.host.Way.TheVariants.{Open};
ghost use Rattle.handover_cli.specs.Stops.{ButFault};

use ho_io::{Host, ReadError, read_all};
use std::alloc::Global;

/// All bytes that the host holds under a name, at most `limit`.
///
/// # Errors
/// [`ReadError::TooLong`] exactly where there are more; it holds `limit + 1` of them. [`ReadError::Fault`] only where the
/// host's count of read faults rose. [`ReadError::Memory`]: out of memory.
pub fn read_named<H: Host>(
    alloc: Global,
    name: &str,
    limit: u32,
    host: &mut H,
) -> Result<Vec<u8>, ReadError>
    ensures all { IfOk result (λ bytes. Tells (H.holds host.old name.now) bytes.items) }
    ensures within { IfOk result (λ bytes. length bytes.items ≤ limit) }
    ensures too_long { IfTooLong result (λ bytes. length bytes ≡ limit + 1) }
    ensures front { IfTooLong result (λ bytes. (rest : Option (List ℕ)) × (H.holds host.old name.now ≡ in_front bytes rest)) }
    ensures opened { ButFault result (H.asked host.new ≡ with_item (H.asked host.old) (Open, name.now)) }
    ensures asked { IsOneOf (H.asked host.old) (with_item (H.asked host.old) (Open, name.now)) (H.asked host.new) }
    ensures cause { OnFault result (Rose (H.read_faults host.old) (H.read_faults host.new)) }
    ensures counts { H.read_faults host.old ≤ H.read_faults host.new }
    ensures out_kept { H.out host.new ≡ H.out host.old }
    ensures holds_kept { H.holds host.new ≡ H.holds host.old }
    ensures made_kept { H.made host.new ≡ H.made host.old }
    ensures sinks_kept { H.sinks_out host.new ≡ H.sinks_out host.old }
    ensures writes_kept { H.write_faults host.new ≡ H.write_faults host.old }
{
    let Ok(mut src) = host.open(name) else {
        return Err(ReadError::Fault);
    };
    let read = read_all(alloc, &mut src, limit);
    host.shut_src(src);
    read
}
