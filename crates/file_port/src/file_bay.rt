//! A bay over a file.
ghost use Rattle.std.specs.Prelude.{◌≡◌, ◌≤◌, length, IfOk, OnOk, IsSome, None, string_bytes};
ghost use Rattle.fault_count.specs.Counts.{Rose};
ghost use Rattle.file_port.specs.Files.{file_device};

use crate::file_port::FilePort;
use crate::file_span::FileSpan;
use fault_count::counted;
use page_port::{Bay, BayFail, DeviceFault};
use std::alloc::{AllocError, Global};
use std::fs::{File, OpenOptions};
use std::io;
use std::os::unix::fs::FileExt;
use std::rt::Files;

/// A device that is a file. Its first call opens the file and keeps it open; `prepare` makes it
/// where there is none, and for every other call a file that can't be opened is a failure of that
/// call. Each port has an open file of its own.
#[derive(Drop)]
pub struct FileBay<R: Files<File = File> + Clone + Drop> {
    rt: R,
    path: String,
    /// The open file, from the first call on that opened it.
    file: Option<File>,
    mounted: Option<u32>,
    faults: u64,
}

impl<R: Files<File = File> + Clone + Drop> FileBay<R> {
    /// The file at `path`. Nothing is opened yet.
    ///
    /// # Errors
    /// `AllocError` where there is no memory for a copy of `path`.
    pub fn new(rt: R, alloc: Global, path: &str) -> Result<FileBay<R>, AllocError>
        ensures device { IfOk result (λ b. file_device b.mounted b.faults ≡ file_device None 0) }
        ensures path { IfOk result (λ b. string_bytes b.path ≡ path.now) }
    {
        let path = String::from_str(alloc, path)?;
        Ok(FileBay {
            rt,
            path,
            file: None,
            mounted: None,
            faults: 0,
        })
    }

    /// Opens the file at the path for reading and writing, and makes it where that is asked.
    fn open(&self, create: bool) -> io::Result<File> {
        let mut how = OpenOptions::new();
        how.read(true).write(true).create(create);
        how.open(&self.rt, self.path.as_str())
    }

    /// Opens the file, where no call before this one did.
    fn open_once(&mut self, create: bool) -> io::Result<()>
        ensures open { OnOk result (IsSome self.new.file) }
        ensures mounted { self.new.mounted ≡ self.old.mounted }
        ensures faults { self.new.faults ≡ self.old.faults }
    {
        if self.file.is_none() {
            self.file = Some(self.open(create)?);
        }
        Ok(())
    }

    /// The open file.
    fn file(&self) -> &File
        requires { IsSome self.now.file }
    {
        match &self.file {
            Some(file) => file,
            None => unreachable!(),
        }
    }

    /// The bytes of the file.
    fn bytes(&mut self) -> io::Result<u64>
        ensures mounted { self.new.mounted ≡ self.old.mounted }
        ensures faults { self.new.faults ≡ self.old.faults }
    {
        self.open_once(false)?;
        Ok(self.file().metadata()?.len())
    }

    /// Reads the first bytes of the file.
    fn read_first(&mut self, out: &mut [u8]) -> io::Result<()>
        ensures mounted { self.new.mounted ≡ self.old.mounted }
        ensures faults { self.new.faults ≡ self.old.faults }
        ensures length { length out.new ≡ length out.old }
    {
        self.open_once(false)?;
        self.file().read_exact_at(out, 0)
    }

    /// Makes the file, where there is none, and gives it this size.
    fn resize(&mut self, bytes: u64) -> io::Result<()>
        ensures mounted { self.new.mounted ≡ self.old.mounted }
        ensures faults { self.new.faults ≡ self.old.faults }
    {
        self.open_once(true)?;
        self.file().set_len(bytes)
    }

    /// One more handle of the open file.
    fn another_file(&mut self) -> io::Result<File>
        ensures mounted { self.new.mounted ≡ self.old.mounted }
        ensures faults { self.new.faults ≡ self.old.faults }
    {
        self.open_once(false)?;
        self.file().try_clone()
    }

    /// Counts a failed call.
    fn count_fault(&mut self)
        ensures kept { self.old.faults ≤ self.new.faults }
        ensures raised { Rose self.old.faults self.new.faults }
        ensures mounted { self.new.mounted ≡ self.old.mounted }
    {
        self.faults = counted(self.faults, 1);
    }
}

impl<R: Files<File = File> + Clone + Drop> Bay for FileBay<R> {
    type S = FileSpan;

    type P = FilePort;

    ghost device = { λ b. file_device b.mounted b.faults };

    fn size(&mut self) -> Result<u64, DeviceFault> {
        let Ok(bytes) = self.bytes() else {
            self.count_fault();
            return Err(DeviceFault);
        };
        Ok(bytes)
    }

    fn probe(&mut self, out: &mut [u8; 256]) -> Result<(), DeviceFault> {
        let Ok(()) = self.read_first(out) else {
            self.count_fault();
            return Err(DeviceFault);
        };
        Ok(())
    }

    fn prepare(&mut self, bytes: u64) -> Result<(), BayFail> {
        let Ok(()) = self.resize(bytes) else {
            self.count_fault();
            return Err(BayFail::Fault);
        };
        Ok(())
    }

    fn mount(&mut self, page: u32, pages: u32) -> Result<FileSpan, BayFail> {
        match self.bytes() {
            Ok(bytes) if bytes >= page as u64 * pages as u64 => {
                self.mounted = Some(page);
                Ok(FileSpan::whole(pages))
            }
            _ => {
                self.count_fault();
                Err(BayFail::Fault)
            }
        }
    }

    fn port(&mut self) -> Result<FilePort, BayFail> {
        let Some(page) = self.mounted else {
            unreachable!()
        };
        let Ok(file) = self.another_file() else {
            self.count_fault();
            return Err(BayFail::Fault);
        };
        Ok(FilePort::new(file, page))
    }

    fn absorb(&mut self, port: FilePort) {
        self.faults = counted(self.faults, port.faults());
    }

    fn restore(&mut self, _span: FileSpan) {}
}

#[cfg(test)]
mod tests;
