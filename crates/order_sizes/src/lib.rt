#![tactic(auto)]
// The sizes of the 13 orders (`hf_pass.rs`).
ghost use Rattle.std.specs.Prelude.{◌≡◌};
ghost use Rattle.order_sizes.specs.laws.BlockSizes.{block_size};

// Width and height of an order, in cells.
#[derive(Clone, Copy)]
pub struct OrderSize {
    pub width: usize,
    pub height: usize,
}

const BLOCK_SIZES: [OrderSize; 13] = [
    OrderSize {
        width: 8,
        height: 8,
    },
    OrderSize {
        width: 8,
        height: 8,
    },
    OrderSize {
        width: 16,
        height: 16,
    },
    OrderSize {
        width: 32,
        height: 32,
    },
    OrderSize {
        width: 16,
        height: 8,
    },
    OrderSize {
        width: 32,
        height: 8,
    },
    OrderSize {
        width: 32,
        height: 16,
    },
    OrderSize {
        width: 64,
        height: 64,
    },
    OrderSize {
        width: 64,
        height: 32,
    },
    OrderSize {
        width: 128,
        height: 128,
    },
    OrderSize {
        width: 128,
        height: 64,
    },
    OrderSize {
        width: 256,
        height: 256,
    },
    OrderSize {
        width: 256,
        height: 128,
    },
];

// Width and height in cells of an order; an order above 12 has none.
pub fn block_size(order: usize) -> OrderSize
    ensures { result ≡ block_size order }
{
    if order < 13 {
        BLOCK_SIZES[order]
    } else {
        OrderSize {
            width: 0,
            height: 0,
        }
    }
}
