//! The numbers of a store, and which page is what.
ghost use Rattle.std.specs.Prelude.{◌≡◌, ℕ, ◌*◌, ◌^◌, ◌≤◌, ◌↔◌, IsTrue, IfSome, IfNone};
ghost use Rattle.std.specs.Prelude.{MatchOption};
ghost use Rattle.geometry_model.specs.Numbers.{IsInRange, fan_out, is_page_size, objects, pages};
ghost use Rattle.geometry_model.specs.Numbers.{space_pages};
ghost use Rattle.geometry_model.specs.Pages.{IsPlace, directory_page, place};

use std::marker::Model;

/// The five numbers that fix a store, each in its range.
#[derive(Clone, Copy)]
pub struct Geometry {
    page: u32,
    order: u32,
    spaces: u32,
    catalog: u32,
    threshold: u32,
}

impl Model for Geometry {
    ghost use Rattle.geometry_model.specs.Numbers.{IsInRange, Numbers};

    ghost Value = { Numbers };

    ghost view = { λ g. record {
      page = g.page;
      order = g.order;
      spaces = g.spaces;
      catalog = g.catalog;
      threshold = g.threshold;
    } };

    ghost invariant = { λ g. IsInRange (record {
      page = g.page;
      order = g.order;
      spaces = g.spaces;
      catalog = g.catalog;
      threshold = g.threshold;
    }) };

    ghost inverse = { λ n. record {
      page = n.page;
      order = n.order;
      spaces = n.spaces;
      catalog = n.catalog;
      threshold = n.threshold;
    } };
}

impl Geometry {
    /// Pages of `page` bytes (256, 512, 1024, 2048 or 4096), `spaces` spaces (1 to 256) of
    /// `2^order` data pages (order 4 up to two more than the logarithm of `page`), `catalog` pages
    /// of objects (1 to 16), and a threshold of 1 to `2^(order - 1)` pages. None where a number is
    /// out of its range.
    pub fn new(page: u32, order: u32, spaces: u32, catalog: u32, threshold: u32) -> Option<Geometry>
        ensures { MatchOption result
            (¬ IsInRange (record {
              page = page;
              order = order;
              spaces = spaces;
              catalog = catalog;
              threshold = threshold;
            }))
            (λ g. g ≡ record {
              page = page;
              order = order;
              spaces = spaces;
              catalog = catalog;
              threshold = threshold;
            }) }
    {
        if !is_page_size(page) {
            return None;
        }
        if !is_order(page, order) {
            return None;
        }
        if spaces < 1 || spaces > 256 || catalog < 1 || catalog > 16 {
            return None;
        }
        if threshold < 1 || threshold > power_of_two(order) / 2 {
            return None;
        }
        Some(Geometry {
            page,
            order,
            spaces,
            catalog,
            threshold,
        })
    }

    /// The bytes of a page. Who asks for them learns that all numbers are in range.
    pub fn page(&self) -> u32
        ensures exact { result ≡ self.now.page }
        ensures range { IsInRange self.now }
    {
        self.page
    }

    /// The order of a space: it has `2^order` data pages.
    pub fn order(&self) -> u32
        ensures { result ≡ self.now.order }
    {
        self.order
    }

    /// How many spaces there are.
    pub fn spaces(&self) -> u32
        ensures { result ≡ self.now.spaces }
    {
        self.spaces
    }

    /// How many pages the catalog has.
    pub fn catalog(&self) -> u32
        ensures { result ≡ self.now.catalog }
    {
        self.catalog
    }

    /// The threshold of a new object, in pages, where none is asked for.
    pub fn threshold(&self) -> u32
        ensures { result ≡ self.now.threshold }
    {
        self.threshold
    }

    /// The pairs that a node page has room for.
    pub fn fan_out(&self) -> u32
        ensures { result ≡ fan_out self.now }
    {
        (self.page - 8) / 12
    }

    /// The data pages of a space.
    pub fn space_pages(&self) -> u32
        ensures exact { result ≡ space_pages self.now }
        ensures high { result ≤ 16384 }
    {
        power_of_two(self.order)
    }

    /// All pages of the store.
    pub fn pages(&self) -> u32
        ensures { result ≡ pages self.now }
    {
        1 + self.catalog + self.spaces * (1 + self.space_pages())
    }

    /// How many objects there are, from number 0 on.
    pub fn objects(&self) -> u32
        ensures { result ≡ objects self.now }
    {
        self.catalog * self.page / 16
    }

    /// The directory page of space `s`.
    pub fn directory_page(&self, s: u16) -> u32
        ensures { result ≡ directory_page self.now s }
    {
        1 + self.catalog + s as u32 * (1 + self.space_pages())
    }

    /// Space and place of a data page. None exactly where the page is no data page.
    pub fn place(&self, page: u32) -> Option<(u16, u32)>
        ensures exact { result ≡ place self.now page }
        ensures found { IfSome result (λ at. IsPlace self.now page at.0 at.1) }
        ensures none { IfNone result ((s at : ℕ) → ¬ IsPlace self.now page s at) }
    {
        let width = 1 + self.space_pages();
        if page < 1 + self.catalog || page >= self.pages() {
            return None;
        }
        let row = page - (1 + self.catalog);
        let at = row % width;
        if at == 0 {
            return None;
        }
        Some(((row / width) as u16, at - 1))
    }
}

/// Has a page one of the five sizes?
fn is_page_size(page: u32) -> bool
    ensures { result ≡ is_page_size page }
{
    page == 256 || page == 512 || page == 1024 || page == 2048 || page == 4096
}

/// Can a space have this order? Its bitmap takes at most half of a page.
fn is_order(page: u32, order: u32) -> bool
    requires { page ≤ 4096 }
    ensures exact { IsTrue result ↔ ((4 ≤ order) × (2 ^ order ≤ 4 * page)) }
    ensures low { IsTrue result → order ≤ 14 }
{
    if order < 4 || order > 14 {
        return false;
    }
    power_of_two(order) <= 4 * page
}

/// 2 to the power of `order`.
fn power_of_two(order: u32) -> u32
    requires { order ≤ 14 }
    ensures { result ≡ 2 ^ order }
{
    1 << order
}
