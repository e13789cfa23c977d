//! Ports to a file, each with its own open file.
ghost use Rattle.std.specs.Prelude.{◌≡◌};
ghost use Rattle.fault_count.specs.Counts.{new_meter};

use crate::file_span::FileSpan;
use fault_count::counted;
use page_port::{DeviceFault, Port};
use std::fs::File;
use std::os::unix::fs::FileExt;

/// A port to a file: a run of pages is one positioned read or write.
#[derive(Drop)]
pub struct FilePort {
    file: File,
    page: u32,
    faults: u64,
    read: u64,
    written: u64,
}

impl FilePort {
    /// A port to this file, for pages of `page` bytes.
    pub(crate) fn new(file: File, page: u32) -> FilePort
        ensures page { result.page ≡ page }
        ensures faults { result.faults ≡ 0 }
        ensures read { result.read ≡ 0 }
        ensures written { result.written ≡ 0 }
    {
        FilePort {
            file,
            page,
            faults: 0,
            read: 0,
            written: 0,
        }
    }

    /// How many of its calls failed.
    pub(crate) fn faults(&self) -> u64
        ensures { result ≡ self.now.faults }
    {
        self.faults
    }
}

impl Port for FilePort {
    type S = FileSpan;

    ghost meter = { λ p. record {
      page = p.page;
      faults = p.faults;
      read = p.read;
      written = p.written;
    } };

    fn page(&self) -> u32 {
        self.page
    }

    fn read(&mut self, s: &FileSpan, from: u32, out: &mut [u8]) -> Result<(), DeviceFault> {
        let count = (out.len() / self.page as usize) as u64;
        self.read = counted(self.read, count);
        let at = s.byte(from, self.page);
        let Ok(()) = self.file.read_exact_at(out, at) else {
            self.blame();
            return Err(DeviceFault);
        };
        Ok(())
    }

    fn write(&mut self, s: &mut FileSpan, from: u32, bytes: &[u8]) -> Result<(), DeviceFault> {
        let count = (bytes.len() / self.page as usize) as u64;
        self.written = counted(self.written, count);
        let at = s.byte(from, self.page);
        let Ok(()) = self.file.write_all_at(bytes, at) else {
            self.blame();
            return Err(DeviceFault);
        };
        Ok(())
    }

    fn blame(&mut self) {
        self.faults = counted(self.faults, 1);
    }
}
