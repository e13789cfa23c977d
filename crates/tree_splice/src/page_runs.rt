//! Runs of pages as a list that contracts see.

ghost use Rattle.std.specs.Prelude.{◌≡◌, ◌∷◌, ◌++◌, map, take, [], IfOk, OnOk};
ghost use Rattle.tree_splice.specs.Splice.{single_run};

use page_set::PageRun;
use std::alloc::{AllocError, Global};
use std::marker::Model;

/// Runs of pages in order. Contracts see the list of them.
#[derive(Drop)]
pub struct Runs {
    list: Vec<PageRun>,
}

impl Model for Runs {
    ghost use Rattle.std.specs.Prelude.{List};
    ghost use Rattle.page_set.specs.declared.page_run.PageRun.{PageRun};

    ghost Value = { List PageRun };

    ghost view = { λ r. r.list.items };
}

impl Runs {
    /// The runs of a vector. It takes no memory.
    pub fn from_vec(list: Vec<PageRun>) -> Runs
        ensures { result ≡ list.items }
    {
        Runs { list }
    }

    /// The runs as a vector. It takes no memory.
    pub fn into_vec(self) -> Vec<PageRun>
        ensures { result.items ≡ self }
    {
        let Runs { list } = self;
        list
    }

    /// The runs.
    pub fn as_slice(&self) -> &[PageRun]
        ensures { result.now ≡ self.now }
    {
        self.list.as_slice()
    }

    /// Each of these pages as a run of its own.
    pub(crate) fn singles(alloc: Global, pages: &[u32]) -> Result<Runs, AllocError>
        ensures { IfOk result (λ runs. runs ≡ map single_run pages.now) }
    {
        let mut list = Vec::new(alloc);
        for page in pages {
            push_run(
                &mut list,
                PageRun {
                    first: *page,
                    pages: 1,
                },
            )?;
        }
        Ok(Runs { list })
    }
}

/// Appends a run.
fn push_run(into: &mut Vec<PageRun>, run: PageRun) -> Result<(), AllocError>
    ensures { OnOk result (into.new.items ≡ into.old.items ++ run ∷ []) }
{
    into.push(run)?;
    Ok(())
}
