//! The system as a host: files and standard output. It tells no content, and counts its faults.

ghost use Rattle.std.specs.Prelude.{◌≡◌, None};

use crate::host::Host;
use crate::sink::Sink;
use crate::source::Source;
use ho_base::numbers::Failed;
use std::io::{Read, Write};
use std::rt::Files;
use std::{fs, io};

/// An open file that is read. Each error of the system is a fault.
#[derive(Drop)]
pub struct FileSource<F> {
    file: F,
    faults: u64,
}

#[tactic(auto, unfolding(crate::specs::Told::in_front))]
impl<F: Read> Source for FileSource<F> {
    ghost left = { λ _. None };

    ghost faults = { λ s. s.faults };

    fn read(&mut self, buf: &mut [u8]) -> Result<usize, Failed> {
        match self.file.read(buf) {
            Ok(count) => Ok(count),
            Err(_) => {
                self.faults = self.faults.saturating_add(1);
                Err(Failed)
            }
        }
    }
}

/// A file that is written. Each error of the system is a fault, and so is a write of no byte.
#[derive(Drop)]
pub struct FileSink<F> {
    file: F,
    faults: u64,
}

#[tactic(auto, unfolding(crate::specs::Told::behind))]
impl<F: Write> Sink for FileSink<F> {
    ghost written = { λ _. None };

    ghost name = { λ _. None };

    ghost faults = { λ s. s.faults };

    fn write(&mut self, bytes: &[u8]) -> Result<usize, Failed> {
        match self.file.write(bytes) {
            Ok(count) if count > 0 || bytes.is_empty() => Ok(count),
            _ => {
                self.faults = self.faults.saturating_add(1);
                Err(Failed)
            }
        }
    }
}

/// The files and the standard output of a runtime. A name is a path.
#[derive(Drop)]
pub struct SystemHost<R> {
    rt: R,
    sinks_out: u64,
    read_faults: u64,
    write_faults: u64,
}

impl<R> SystemHost<R> {
    /// The system behind this runtime, with no fault yet and no sink out.
    pub fn new(rt: R) -> SystemHost<R>
        ensures { result ≡ record { rt = rt; sinks_out = 0; read_faults = 0; write_faults = 0 } }
    {
        SystemHost {
            rt,
            sinks_out: 0,
            read_faults: 0,
            write_faults: 0,
        }
    }
}

#[tactic(auto, unfolding(crate::specs::Told::behind, crate::specs::Told::told_with, crate::specs::Told::with_item, crate::specs::Told::with_sink))]
impl<R: Files + Print> Host for SystemHost<R> {
    type Src = FileSource<R::File>;

    type Dst = FileSink<R::File>;

    ghost out = { λ _. None };

    ghost holds = { λ _ _. None };

    ghost made = { λ _. None };

    ghost asked = { λ _. None };

    ghost sinks_out = { λ h. h.sinks_out };

    ghost read_faults = { λ h. h.read_faults };

    ghost write_faults = { λ h. h.write_faults };

    fn open(&mut self, name: &str) -> Result<FileSource<R::File>, Failed> {
        match fs::open(&self.rt, name) {
            Ok(file) => Ok(FileSource { file, faults: 0 }),
            Err(_) => {
                self.read_faults = self.read_faults.saturating_add(1);
                Err(Failed)
            }
        }
    }

    fn put(&mut self, bytes: &[u8]) -> Result<usize, Failed> {
        match io::writer(&self.rt).write(bytes) {
            Ok(count) if count > 0 || bytes.is_empty() => Ok(count),
            _ => {
                self.write_faults = self.write_faults.saturating_add(1);
                Err(Failed)
            }
        }
    }

    fn make(&mut self, name: &str) -> Result<FileSink<R::File>, Failed> {
        if self.sinks_out < u64::MAX
            && let Ok(file) = fs::create(&self.rt, name)
        {
            self.sinks_out += 1;
            return Ok(FileSink { file, faults: 0 });
        }
        self.write_faults = self.write_faults.saturating_add(1);
        Err(Failed)
    }

    fn shut_src(&mut self, src: FileSource<R::File>) {
        if src.faults > 0 {
            self.read_faults = self.read_faults.saturating_add(1);
        }
    }

    fn shut_dst(&mut self, dst: FileSink<R::File>) {
        if dst.faults > 0 {
            self.write_faults = self.write_faults.saturating_add(1);
        }
        self.sinks_out -= 1;
    }
}
