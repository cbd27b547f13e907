//! A host whose output takes few bytes at a time.

ghost use Rattle.std.specs.Prelude.{◌≡◌};

use ho_base::numbers::Failed;
use ho_io::Host;

/// The bytes that the output takes at a time.
pub const DROP_BYTES: usize = 64;

/// A host that passes everything on, but no more than 64 bytes of the output at a time.
#[derive(Drop)]
pub struct Drip<H> {
    pub host: H,
}

#[tactic(auto, using(crate::proofs::Drips::taken_twice))]
impl<H: Host> Host for Drip<H> {
    type Src = H::Src;

    type Dst = H::Dst;

    ghost out = { λ d. H.out d.host };

    ghost holds = { λ d. H.holds d.host };

    ghost made = { λ d. H.made d.host };

    ghost asked = { λ d. H.asked d.host };

    ghost sinks_out = { λ d. H.sinks_out d.host };

    ghost read_faults = { λ d. H.read_faults d.host };

    ghost write_faults = { λ d. H.write_faults d.host };

    fn open(&mut self, name: &str) -> Result<H::Src, Failed> {
        self.host.open(name)
    }

    fn put(&mut self, bytes: &[u8]) -> Result<usize, Failed> {
        self.host.put(&bytes[..bytes.len().min(DROP_BYTES)])
    }

    fn make(&mut self, name: &str) -> Result<H::Dst, Failed> {
        self.host.make(name)
    }

    fn shut_src(&mut self, src: H::Src) {
        self.host.shut_src(src);
    }

    fn shut_dst(&mut self, dst: H::Dst) {
        self.host.shut_dst(dst);
    }
}
