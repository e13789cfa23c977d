//! The free pages of a store, space by space.

ghost use Rattle.std.specs.Prelude.{◌≡◌, IfOk, length, slice_set};
ghost use Rattle.layout_model.specs.Grants.{space_at};

use crate::pages::Pages;
use plain_plan::{Fail, cons};
use std::alloc::Global;
use std::marker::Model;

/// For each space its free pages. In contracts it is the list of them.
#[derive(Drop)]
pub struct Spaces {
    rows: Vec<Pages>,
}

impl Model for Spaces {
    ghost use Rattle.std.specs.Prelude.{List, Bool};

    ghost Value = { List (List Bool) };

    ghost view = { λ s. s.rows.items };
}

impl Spaces {
    /// The spaces of a vector, which is moved.
    pub fn from_vec(rows: Vec<Pages>) -> Spaces
        ensures { result ≡ rows.items }
    {
        Spaces { rows }
    }

    /// The free pages of each space.
    pub fn as_slice(&self) -> &[Pages]
        ensures { result.now ≡ self.now }
    {
        &self.rows
    }

    /// How many spaces there are.
    pub fn len(&self) -> u64
        ensures { result ≡ length self.now }
    {
        self.rows.len() as u64
    }

    /// The free pages of a space, and none where there is no such space.
    pub fn at(&self, space: u64) -> &[bool]
        ensures { result.now ≡ space_at self.now space }
    {
        if space < self.rows.len() as u64 {
            self.rows[space as usize].as_slice()
        } else {
            &[]
        }
    }

    /// The same free pages once more.
    pub fn copy(&self, alloc: Global) -> Result<Spaces, Fail>
        ensures { IfOk result (λ copy. copy ≡ self.now) }
    {
        Ok(Spaces {
            rows: copy_rows(alloc, &self.rows)?,
        })
    }

    /// The free pages with other ones in a space.
    pub fn with(&self, alloc: Global, space: u64, pages: Pages) -> Result<Spaces, Fail>
        ensures { IfOk result (λ spaces. spaces ≡ slice_set self.now space pages) }
    {
        let mut rows = copy_rows(alloc, &self.rows)?;
        if space < rows.len() as u64 {
            rows[space as usize] = pages;
        }
        Ok(Spaces { rows })
    }
}

fn copy_rows(alloc: Global, rows: &[Pages]) -> Result<Vec<Pages>, Fail>
    ensures { IfOk result (λ copy. copy.items ≡ rows.now) }
{
    match rows {
        [] => Ok(Vec::new(alloc)),
        [row, others @ ..] => cons(row.copy(alloc)?, copy_rows(alloc, others)?),
    }
}
