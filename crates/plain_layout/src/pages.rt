//! A set of pages of one space: a test of each page.

ghost use Rattle.std.specs.Prelude.{◌≡◌, IfOk};

use plain_plan::Fail;
use std::alloc::Global;
use std::marker::Model;

/// The pages of a space that are in a set. In contracts it is the list of tests.
#[derive(Drop)]
pub struct Pages {
    tests: Vec<bool>,
}

impl Model for Pages {
    ghost use Rattle.std.specs.Prelude.{List, Bool};

    ghost Value = { List Bool };

    ghost view = { λ p. p.tests.items };
}

impl Pages {
    /// The pages of a vector of tests, which is moved.
    pub fn from_vec(tests: Vec<bool>) -> Pages
        ensures { result ≡ tests.items }
    {
        Pages { tests }
    }

    /// The tests, where they lie.
    pub fn as_slice(&self) -> &[bool]
        ensures { result.now ≡ self.now }
    {
        &self.tests
    }

    /// The same pages once more.
    pub fn copy(&self, alloc: Global) -> Result<Pages, Fail>
        ensures { IfOk result (λ copy. copy ≡ self.now) }
    {
        Ok(Pages {
            tests: Vec::from_slice(alloc, &self.tests)?,
        })
    }
}
