//! The numbers of a store, and arithmetic that gives up where a number passes its type.

ghost use Rattle.std.specs.Prelude.{◌≡◌, ◌+◌, ◌*◌, ◌/◌, ◌%◌, ◌^◌, IfOk};
ghost use Rattle.tree_model.specs.Tree.{page_count};

use std::alloc::AllocError;

/// Why the plain program gives up.
#[derive(Clone, Copy)]
pub enum Fail {
    /// A number passes its type, or a store has pages of no byte.
    Big,
    /// No memory was to be had.
    Memory,
}

impl From<AllocError> for Fail {
    fn from(_: AllocError) -> Fail {
        Fail::Memory
    }
}

/// The five numbers of a store.
#[derive(Clone, Copy)]
pub struct Store {
    /// The bytes of a page.
    pub page: u64,
    /// A space has `2^order` data pages.
    pub order: u32,
    /// The spaces.
    pub spaces: u64,
    /// The catalog pages.
    pub catalog: u64,
    /// The threshold of a new object.
    pub threshold: u64,
}

pub fn add(a: u64, b: u64) -> Result<u64, Fail>
    ensures { IfOk result (λ sum. sum ≡ a + b) }
{
    a.checked_add(b).ok_or(Fail::Big)
}

pub fn mul(a: u64, b: u64) -> Result<u64, Fail>
    ensures { IfOk result (λ product. product ≡ a * b) }
{
    a.checked_mul(b).ok_or(Fail::Big)
}

pub fn div(a: u64, b: u64) -> Result<u64, Fail>
    ensures { IfOk result (λ quotient. quotient ≡ a / b) }
{
    if b == 0 { Err(Fail::Big) } else { Ok(a / b) }
}

pub fn rem(a: u64, b: u64) -> Result<u64, Fail>
    ensures { IfOk result (λ rest. rest ≡ a % b) }
{
    if b == 0 { Err(Fail::Big) } else { Ok(a % b) }
}

/// The number as that of a page.
pub fn as_page(n: u64) -> Result<u32, Fail>
    ensures { IfOk result (λ page. page ≡ n) }
{
    if n < 4_294_967_296 {
        Ok(n as u32)
    } else {
        Err(Fail::Big)
    }
}

/// The pages that so many bytes fill.
pub fn page_count(size: u64, bytes: u64) -> Result<u64, Fail>
    ensures { IfOk result (λ count. count ≡ page_count size bytes) }
{
    div(add(bytes, size.saturating_sub(1))?, size)
}

/// The data pages of a space.
pub fn space_pages(store: &Store) -> Result<u64, Fail>
    ensures { IfOk result (λ pages. pages ≡ 2 ^ store.now.order) }
{
    2u64.checked_pow(store.order).ok_or(Fail::Big)
}
