//! A bay over memory, whose calls of chosen numbers fail.
ghost use Rattle.std.specs.Prelude.{◌≡◌, ◌+◌, ◌*◌, ◌≤◌, ◌↔◌, [], ◌++◌, Some, None, Err, length};
ghost use Rattle.std.specs.Prelude.{take, drop, vec_len, true, false, IsTrue, IsErr, IsSome, IfOk};
ghost use Rattle.std.specs.Prelude.{OnOk};
ghost use Rattle.std.specs.Prelude.{OnErr};
ghost use Rattle.page_port.specs.Pages.{AreOf};
ghost use Rattle.fault_count.specs.Counts.{HasCause, counted};
ghost use Rattle.page_port.specs.Device.{IsFront, IsOfMount, after_mount, after_prepare};
ghost use Rattle.page_port.specs.Device.{after_return};
ghost use Rattle.page_port.specs.Device.{is_home, returned_bytes, with_faults};
ghost use Rattle.page_port.specs.MemoryBay.{after_call, all_back, calls_of, names_read};
ghost use Rattle.page_port.specs.MemoryBay.{names_write, new_channel, next_bay_fails, next_port};
ghost use Rattle.page_port.specs.MemoryBay.{slots};

use crate::bay::{Bay, BayFail};
use crate::fail_at::FailAt;
use crate::mem_port::MemPort;
use crate::mem_span::MemSpan;
use crate::page_list::PageList;
use crate::port::{DeviceFault, Port};
use crate::span::Span;
use std::alloc::{AllocError, Global};
use std::marker::Model;

/// A device in memory, whose bytes contracts know.
#[derive(Drop)]
pub struct MemBay {
    alloc: Global,
    whole: Vec<u8>,
    back: Vec<bool>,
    mounted: Option<u32>,
    faults: u64,
    calls: u64,
    ports: u32,
    fail: Vec<FailAt>,
}

impl Model for MemBay {
    ghost use Rattle.std.specs.Prelude.{◌*◌, ◌≤◌, length, unwrap_or};
    ghost use Rattle.page_port.specs.MemoryBay.{MemDevice, slots, told_bytes};

    ghost Value = { MemDevice };

    ghost view = { λ b. record {
      device = record {
        bytes = told_bytes (unwrap_or b.mounted 0) b.back.items b.whole.items;
        pages = slots (unwrap_or b.mounted 0) b.back.items b.whole.items;
        mounted = b.mounted;
        faults = b.faults;
      };
      calls = b.calls;
      ports = b.ports;
      failing = b.fail.items;
    } };

    ghost invariant = { λ b. unwrap_or b.mounted 0 * length b.back.items ≤ length b.whole.items };
}

impl MemBay {
    /// A bay of these bytes, with no page out.
    pub fn new(alloc: Global, bytes: Vec<u8>, fail: Vec<FailAt>) -> MemBay
        ensures { result ≡ record {
          device = record { bytes = bytes.items; pages = []; mounted = None; faults = 0 };
          calls = 0;
          ports = 0;
          failing = fail.items;
        } }
    {
        MemBay {
            alloc,
            whole: bytes,
            back: Vec::new(alloc),
            mounted: None,
            faults: 0,
            calls: 0,
            ports: 0,
            fail,
        }
    }

    /// Counts one call more, and a fault where it is one of those that fail. Does it fail?
    fn next_fails(&mut self) -> bool
        ensures fails { result ≡ next_bay_fails self.old }
        ensures counted { self.new
            ≡ after_call self.old (with_faults self.old.device self.new.device.faults) }
        ensures cause { HasCause self.old.device.faults self.new.device.faults (IsTrue result) }
    {
        self.calls = self.calls.saturating_add(1);
        let call = self.calls;
        let fails = self
            .fail
            .iter()
            .any(|at| at.port == 0 && !at.write && at.call == call);
        if fails {
            self.faults = self.faults.saturating_add(1);
        }
        fails
    }
}

/// Writes `page` over the bytes of `whole` from `at` on.
fn put_page(whole: &mut Vec<u8>, at: usize, page: &[u8])
    requires { at + length page.now ≤ vec_len whole.old }
    ensures items { whole.new.items ≡ take at whole.old.items
        ++ (page.now ++ drop (length page.now) (drop at whole.old.items)) }
    ensures len { vec_len whole.new ≡ vec_len whole.old }
{
    whole[at..at + page.len()].copy_from_slice(page);
}

/// Puts pages back into their places of `whole`, from page `first` on, and marks them.
fn put_back(
    whole: &mut Vec<u8>,
    back: &mut Vec<bool>,
    size: usize,
    first: usize,
    mut pages: PageList,
)
    requires room { size * vec_len back.old ≤ vec_len whole.old }
    requires range { first + length pages ≤ vec_len back.old }
    requires sized { AreOf size pages }
    ensures pages { slots size back.new.items whole.new.items
        ≡ after_return first pages (slots size back.old.items whole.old.items) }
    ensures behind { drop (size * vec_len back.old) whole.new.items
        ≡ drop (size * vec_len back.old) whole.old.items }
    ensures bytes { vec_len whole.new ≡ vec_len whole.old }
    ensures count { vec_len back.new ≡ vec_len back.old }
    ensures marks { IsTrue (all_back back.old.items) → IsTrue (all_back back.new.items) }
{
    let mut number = first;
    while let Some(page) = pages.pop() {
        put_page(whole, number * size, page.as_slice());
        back[number] = true;
        number += 1;
    }
}

impl MemBay {
    /// The numbers of the reads of a port that are made to fail.
    fn failing_reads(&self, port: u32) -> Result<Vec<u64>, AllocError>
        ensures { IfOk result (λ calls. calls.items
            ≡ calls_of (names_read port) self.now.failing) }
    {
        let named = self.fail.iter().filter(|at| at.port == port && !at.write);
        named.map(|at| at.call).collect(self.alloc)
    }

    /// The numbers of the writes of a port that are made to fail.
    fn failing_writes(&self, port: u32) -> Result<Vec<u64>, AllocError>
        ensures { IfOk result (λ calls. calls.items
            ≡ calls_of (names_write port) self.now.failing) }
    {
        let named = self.fail.iter().filter(|at| at.port == port && at.write);
        named.map(|at| at.call).collect(self.alloc)
    }
}

impl Bay for MemBay {
    type S = MemSpan;

    type P = MemPort;

    ghost device = { λ b. b.device };

    fn size(&mut self) -> Result<u64, DeviceFault>
        ensures bytes { IfOk result (λ n. IsTrue (is_home self.old.device) →
            n ≡ length self.old.device.bytes) }
        ensures stays { self.new ≡ after_call self.old
            (with_faults self.old.device self.new.device.faults) }
        ensures cause { HasCause self.old.device.faults self.new.device.faults (IsErr result) }
        ensures fails { IsErr result ↔ IsTrue (next_bay_fails self.old) }
    {
        if self.next_fails() {
            return Err(DeviceFault);
        }
        Ok(self.whole.as_slice().len() as u64)
    }

    fn probe(&mut self, out: &mut [u8; 256]) -> Result<(), DeviceFault>
        requires { IsTrue (is_home self.old.device) → 256 ≤ length self.old.device.bytes }
        ensures bytes { IsTrue (is_home self.old.device) →
            OnOk result (out.new ≡ take 256 self.old.device.bytes) }
        ensures stays { self.new ≡ after_call self.old
            (with_faults self.old.device self.new.device.faults) }
        ensures cause { HasCause self.old.device.faults self.new.device.faults (IsErr result) }
        ensures fails { IsTrue (is_home self.old.device) →
            IsErr result ↔ IsTrue (next_bay_fails self.old) }
    {
        if self.next_fails() {
            return Err(DeviceFault);
        }
        let whole = self.whole.as_slice();
        if whole.len() < 256 {
            self.faults = self.faults.saturating_add(1);
            return Err(DeviceFault);
        }
        out.copy_from_slice(&whole[..256]);
        Ok(())
    }

    fn prepare(&mut self, bytes: u64) -> Result<(), BayFail>
        requires { IsTrue (is_home self.old.device) }
        ensures ok { OnOk result (self.new ≡ after_call self.old
            (after_prepare self.old.device bytes self.new.device.faults)) }
        ensures err { OnErr result (self.new ≡ after_call self.old
            (with_faults self.old.device self.new.device.faults)) }
        ensures cause { HasCause self.old.device.faults self.new.device.faults
            (result ≡ Err BayFail.Fault) }
        ensures fails { (result ≡ Err BayFail.Fault) ↔ IsTrue (next_bay_fails self.old) }
    {
        if self.next_fails() {
            return Err(BayFail::Fault);
        }
        let Ok(()) = self.whole.resize(bytes as usize, 0) else {
            return Err(BayFail::Memory);
        };
        self.back.clear();
        Ok(())
    }

    fn mount(&mut self, page: u32, pages: u32) -> Result<MemSpan, BayFail>
        requires some { 1 ≤ pages }
        requires fits { page * pages ≤ length self.old.device.bytes }
        requires home { IsTrue (is_home self.old.device) }
        ensures front { IfOk result (λ s.
            IsFront true self.old.device page pages s.first s.pages) }
        ensures ok { OnOk result (self.new ≡ after_call self.old
            (after_mount self.old.device page pages self.new.device.faults)) }
        ensures err { OnErr result (self.new ≡ after_call self.old
            (with_faults self.old.device self.new.device.faults)) }
        ensures cause { HasCause self.old.device.faults self.new.device.faults
            (result ≡ Err BayFail.Fault) }
        ensures fails { (result ≡ Err BayFail.Fault) ↔ IsTrue (next_bay_fails self.old) }
    {
        if self.next_fails() {
            return Err(BayFail::Fault);
        }
        let whole = self.whole.as_slice();
        let Ok(list) = PageList::from_bytes(self.alloc, page as usize, pages as usize, whole) else {
            return Err(BayFail::Memory);
        };
        let mut back = Vec::new(self.alloc);
        let Ok(()) = back.resize(pages as usize, false) else {
            return Err(BayFail::Memory);
        };
        self.back = back;
        self.mounted = Some(page);
        Ok(MemSpan::new(0, list))
    }

    fn port(&mut self) -> Result<MemPort, BayFail>
        requires { IsSome self.old.device.mounted }
        ensures fresh { IfOk result (λ p. self.old.device.mounted ≡ Some p.meter.page) }
        ensures stays { self.new.device ≡ with_faults self.old.device self.new.device.faults }
        ensures cause { HasCause self.old.device.faults self.new.device.faults
            (result ≡ Err BayFail.Fault) }

        // What this bay does besides: which calls fail, its own and those of the port.
        ensures fails { (result ≡ Err BayFail.Fault) ↔ IsTrue (next_bay_fails self.old) }
        ensures named { IfOk result (λ p.
            p ≡ new_channel p.meter.page (next_port self.old) self.old.failing) }
        ensures numbered { OnOk result (self.new ≡ record
            (after_call self.old self.new.device) { ports = next_port self.old }) }
        ensures unmade { OnErr result (self.new ≡ after_call self.old self.new.device) }
    {
        if self.next_fails() {
            return Err(BayFail::Fault);
        }
        let Some(page) = self.mounted else {
            unreachable!()
        };
        let number = self.ports.saturating_add(1);
        let Ok(reads) = self.failing_reads(number) else {
            return Err(BayFail::Memory);
        };
        let Ok(writes) = self.failing_writes(number) else {
            return Err(BayFail::Memory);
        };
        self.ports = number;
        Ok(MemPort::new(page, reads, writes))
    }

    fn absorb(&mut self, port: MemPort)
        ensures faults { self.new.device.faults ≡ counted self.old.device.faults port.meter.faults }
        ensures kept { self.old.device.faults ≤ self.new.device.faults }
        ensures none { port.meter.faults ≡ 0 → self.new.device.faults ≡ self.old.device.faults }
        ensures stays { self.new ≡ record self.old {
          device = with_faults self.old.device self.new.device.faults;
        } }
    {
        self.faults = self.faults.saturating_add(port.faults());
    }

    fn restore(&mut self, span: MemSpan)
        requires { IsOfMount self.old.device span.first span.pages }
        ensures pages { self.new.device.pages
            ≡ after_return span.first span.pages self.old.device.pages }
        ensures home { is_home self.old.device ≡ false → IsTrue (is_home self.new.device) →
            self.new.device.bytes
            ≡ returned_bytes self.new.device.pages ++ self.old.device.bytes }
        ensures away { is_home self.new.device ≡ false →
            self.new.device.bytes ≡ self.old.device.bytes }
        ensures others { self.new ≡ record self.old {
          device = record (self.old.device) {
            bytes = self.new.device.bytes;
            pages = self.new.device.pages;
          };
        } }
    {
        let first = span.first() as usize;
        let size = self.mounted.unwrap_or(0) as usize;
        put_back(
            &mut self.whole,
            &mut self.back,
            size,
            first,
            span.into_pages(),
        );
    }
}
