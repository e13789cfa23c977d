//! The order of a number of pages: the least whose blocks hold them.

ghost use Rattle.block_model.specs.Block.{IsOrder};

/// The least `j` with `n <= 2^j`: the order of the smallest block that holds `n` pages.
/// For 0 pages it is 0.
pub fn order_of(n: u32) -> u8
    ensures { IsOrder n result }
{
    if n <= 1 {
        return 0;
    }
    (32 - (n - 1).leading_zeros()) as u8
}

#[cfg(test)]
mod tests {
    use super::*;

    #[test]
    fn an_order_is_the_least_that_holds_the_pages(rt: HostRuntime) {
        let cases = [
            (0, 0),
            (1, 0),
            (2, 1),
            (3, 2),
            (4, 2),
            (5, 3),
            (16384, 14),
            (16385, 15),
        ];
        for (n, want) in cases {
            assert_eq!(rt; order_of(n), want, "{n} pages");
        }
    }
}
